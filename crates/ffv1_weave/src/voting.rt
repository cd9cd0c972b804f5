//! The vote of versions of one slice: what most of them have in each segment.
ghost use Rattle.std.specs.Prelude.{◌≡◌, ◌<◌, ◌≤◌, ℕ, List, [], length, All, IfOk, MatchOption, slice_index_or};
ghost use Rattle.ffv1_weave.specs.References.{values_of};
ghost use Rattle.ffv1_weave.specs.Inner.Parts.{AreDistinct};
ghost use Rattle.ffv1_weave.specs.Votes.{IsVoteOf};

use crate::check::Check;
use crate::found::Found;
use crate::parts::{distinct_versions, parts_by};
use crate::splits::VOTES;
use crate::trying::with_combinations;
use std::alloc::{AllocError, Global};

/// Puts a slice together of what most versions have, each with its footer (RFC 9043, section 4.9). Whether a combination of them is a slice
/// as it is, is not looked at. There is one version at least, and all are as long as the first. Versions that are equal count as one, and
/// fewer than three different ones do not vote.
///
/// What is tried are combinations that have in each segment what most versions have there: that stands in no fewer versions than any other
/// byte string. Where several stand in as many, each is tried. Segments are those of `weave`, at distance 0, 2, 8 and 64, each where the
/// combinations are at most `MOST_COMBINATIONS`. One passes if its footer gives its length (section 4.9.1) and it passes the parity
/// (section 4.9.3). If exactly one byte string passes, it is returned, with the number of combinations that were tried at all distances,
/// which is at most 16384; `None` is returned if none passes, and if two that differ do.
///
/// However versions are ordered or repeated, what is returned is the same (`same_versions_vote`). If the original is among what is tried,
/// nothing else is returned (`original_is_voted`). If it is not, one of them passes by chance once in 2^32 divided by their number, so at
/// most once in 262144.
///
/// It takes memory for three copies of a version, for a list of the different versions, and for one of the segments in which they differ:
/// one for each byte at most. The only refusal is that of such an allocation.
pub fn vote(alloc: Global, versions: &[&[u8]]) -> Result<Option<(Vec<u8>, usize)>, AllocError>
    requires some { 0 < length versions.now }
    requires lengths { All (λ version. length version.now ≡ length (slice_index_or (values_of versions.now) 0 [])) versions.now }
    ensures { IfOk result (λ found. MatchOption found
        ((bytes : List ℕ) (count : ℕ) → IsVoteOf (values_of versions.now) bytes count → ⊥)
        (λ (bytes, count). IsVoteOf (values_of versions.now) bytes.items count)) }
{
    let distinct = distinct_versions(alloc, versions)?;
    if distinct.len() < 3 {
        return Ok(None);
    }
    vote_distinct(alloc, distinct.as_slice())
}

/// Takes what most of different versions of one length have, of which there are three at least.
fn vote_distinct(alloc: Global, versions: &[&[u8]]) -> Result<Option<(Vec<u8>, usize)>, AllocError>
    requires three { 3 ≤ length versions.now }
    requires lengths { All (λ version. length version.now ≡ length (slice_index_or (values_of versions.now) 0 [])) versions.now }
    requires distinct { AreDistinct (values_of versions.now) }
    ensures { IfOk result (λ found. MatchOption found
        ((bytes : List ℕ) (count : ℕ) → IsVoteOf (values_of versions.now) bytes count → ⊥)
        (λ (bytes, count). IsVoteOf (values_of versions.now) bytes.items count)) }
{
    let mut found = Found::Nothing;
    let mut count = 0;
    for split in VOTES {
        if let Some(tried) = parts_by(alloc, split, versions, versions[0].len())? {
            found = with_combinations(alloc, Check::Slice, versions, &tried, found)?;
            count += tried.count;
        }
    }
    match found {
        Found::One(voted) => Ok(Some((voted, count))),
        Found::Nothing | Found::Several => Ok(None),
    }
}
