//! The repair of versions of one slice in which one bit is wrong in all of them: each combination is tried with each of its bits inverted.
ghost use Rattle.std.specs.Prelude.{◌≡◌, ◌<◌, ℕ, List, [], length, All, IfOk, MatchOption, slice_index_or};
ghost use Rattle.ffv1_weave.specs.References.{values_of};
ghost use Rattle.ffv1_weave.specs.Repairs.{IsRepairOf};
ghost use Rattle.ffv1_weave.specs.Inner.Parts.{AreDistinct};

use crate::found::Found;
use crate::inversions::with_inversions;
use crate::parts::{choose, distinct_versions, finest_parts};
use std::alloc::{AllocError, Global};

/// The greatest number of repairs that are tried: each combination with each of its bits inverted. Where versions have more, none is.
pub const MOST_REPAIRS: usize = 1 << 20;

/// Repairs versions of a slice, each with its footer (RFC 9043, section 4.9), in which one bit may be wrong in all of them. Whether a
/// combination of them is a slice as it is, is not looked at. There is one version at least, and all are as long as the first.
///
/// What is tried are repairs: each combination that `weave` tries, with each of its bits inverted, if these are at most `MOST_REPAIRS`. One
/// passes if its footer gives its length (section 4.9.1) and it passes the parity (section 4.9.3). If exactly one byte string passes, it is
/// returned, with the number of repairs that were tried; `None` is returned if none passes, if two that differ do, and if there are too
/// many to be tried.
///
/// However versions are ordered or repeated, what is returned is the same (`same_versions_repair`). If the original is among what is tried,
/// nothing else is returned (`original_is_repaired`). If it is not, as where more than one bit is wrong, one of them passes by chance once
/// in 2^32 divided by their number, so at most once in 4096.
///
/// It takes memory for two copies of a version and for lists of the different versions and of their parts. The only refusal is that of such
/// an allocation.
pub fn repair(alloc: Global, versions: &[&[u8]]) -> Result<Option<(Vec<u8>, usize)>, AllocError>
    requires some { 0 < length versions.now }
    requires lengths { All (λ version. length version.now ≡ length (slice_index_or (values_of versions.now) 0 [])) versions.now }
    ensures { IfOk result (λ found. MatchOption found
        ((bytes : List ℕ) (count : ℕ) → IsRepairOf (values_of versions.now) bytes count → ⊥)
        (λ (bytes, count). IsRepairOf (values_of versions.now) bytes.items count)) }
{
    let distinct = distinct_versions(alloc, versions)?;
    repair_distinct(alloc, distinct.as_slice())
}

/// Repairs different versions of one length, of which there is one at least.
fn repair_distinct(
    alloc: Global,
    versions: &[&[u8]],
) -> Result<Option<(Vec<u8>, usize)>, AllocError>
    requires some { 0 < length versions.now }
    requires lengths { All (λ version. length version.now ≡ length (slice_index_or (values_of versions.now) 0 [])) versions.now }
    requires distinct { AreDistinct (values_of versions.now) }
    ensures { IfOk result (λ found. MatchOption found
        ((bytes : List ℕ) (count : ℕ) → IsRepairOf (values_of versions.now) bytes count → ⊥)
        (λ (bytes, count). IsRepairOf (values_of versions.now) bytes.items count)) }
{
    let size = versions[0].len();
    let Some(tried) = finest_parts(alloc, versions, size)? else {
        return Ok(None);
    };
    if size > MOST_REPAIRS / 8 / tried.count {
        return Ok(None);
    }
    let mut bytes = Vec::from_slice(alloc, versions[0])?;
    let mut found = Found::Nothing;
    for code in 0..tried.count {
        choose(&mut bytes, tried.parts.as_slice(), code);
        found = with_inversions(alloc, &mut bytes, found)?;
    }
    match found {
        Found::One(repaired) => Ok(Some((repaired, tried.count * (8 * size)))),
        Found::Nothing | Found::Several => Ok(None),
    }
}
