//! The weave of versions of one slice or element: each combination is tried.
ghost use Rattle.std.specs.Prelude.{◌≡◌, ◌<◌, [], length, All, IfOk, slice_index_or};
ghost use Rattle.ffv1_weave.specs.References.{values_of};
ghost use Rattle.ffv1_weave.specs.Checks.{CanWeave};
ghost use Rattle.ffv1_weave.specs.Weave.{IsWeaveOf, weave_tally};
ghost use Rattle.ffv1_weave.specs.Inner.Parts.{AreDistinct};

use crate::check::Check;
use crate::found::Found;
use crate::parts::{distinct_versions, finest_parts};
use crate::trying::with_combinations;
use std::alloc::{AllocError, Global};

/// The greatest number of combinations that are tried: where versions have more however they are parted, none is.
pub const MOST_COMBINATIONS: usize = 4096;

/// What comes of weaving versions of a slice, of an element or of a record. A combination is valid where it passes the check: a slice
/// where its footer gives its length (RFC 9043, section 4.9.1) and it passes the parity (section 4.9.3), an element where it begins with its
/// CRC-32 (RFC 8794, section 11.3.1), a record where it passes its parity (RFC 9043, section 4.3.2) and is not all zeros.
#[derive(Debug, Drop)]
pub enum WeaveResult {
    /// One combination alone is valid: these bytes, among so many that are tried, which are at most `MOST_COMBINATIONS`.
    Woven(Vec<u8>, usize),
    /// Two combinations that are tried and differ are valid.
    Disputed,
    /// No combination that is tried is valid, of so many, which are at most `MOST_COMBINATIONS`.
    Missing(usize),
    /// There are more than `MOST_COMBINATIONS`, even of the regions: none is tried.
    TooMany,
}

/// Weaves different versions of one length, of which there is one at least, by the check.
fn weave_distinct(
    alloc: Global,
    check: Check,
    versions: &[&[u8]],
) -> Result<WeaveResult, AllocError>
    requires weaves { CanWeave check }
    requires some { 0 < length versions.now }
    requires lengths { All (λ version. length version.now ≡ length (slice_index_or (values_of versions.now) 0 [])) versions.now }
    requires distinct { AreDistinct (values_of versions.now) }
    ensures { IfOk result (λ outcome. IsWeaveOf check (values_of versions.now) (weave_tally outcome)) }
{
    let Some(tried) = finest_parts(alloc, versions, versions[0].len())? else {
        return Ok(WeaveResult::TooMany);
    };
    match with_combinations(alloc, check, versions, &tried, Found::Nothing)? {
        Found::One(bytes) => Ok(WeaveResult::Woven(bytes, tried.count)),
        Found::Several => Ok(WeaveResult::Disputed),
        Found::Nothing => Ok(WeaveResult::Missing(tried.count)),
    }
}

/// Weaves versions of a slice, each with its footer, of an element or of a record, by the check: what several copies have at its place.
/// There is one at least, and all are as long as the first. By the check of a FLAC frame none are woven.
///
/// Versions are parted at places, counted in bytes from their start. A combination has in each part the bytes of one version, which may be
/// another one in each. The parts are segments or regions:
///
/// - Places at which two versions differ are of one streak where they follow each other at most a distance apart. A segment lies between
///   neighbouring ends of streaks, of any two versions, or the ends of the versions.
/// - Places at which any versions differ are of one region where they follow each other at a distance of at most 64. Outside of the
///   regions a combination has what all versions have.
///
/// What is tried are the combinations of the segments at distance 0 where these are at most `MOST_COMBINATIONS`, else at distance 2, 8 or
/// 64, else of the regions. A combination of regions is one of segments at each of these distances too (`regions_are_coarsest`). However
/// versions are ordered or repeated, what is returned is the same; where the original is one of the combinations that are tried, nothing
/// else is woven (`original_is_woven`), and where it is not, one of them passes by chance once in 2^32 divided by their number.
///
/// The time goes into the different versions: a repeated one is only found to be so. They are read from the front on once for each
/// distance that is tried, as far as there are not too many combinations yet. Two versions are compared only next to places at which
/// versions differ.
///
/// It takes memory for two copies of a version, for a list of the different versions, and for one of the parts at which they differ.
/// The only refusal is that of such an allocation.
pub fn weave(alloc: Global, check: Check, versions: &[&[u8]]) -> Result<WeaveResult, AllocError>
    requires weaves { CanWeave check }
    requires some { 0 < length versions.now }
    requires lengths { All (λ version. length version.now ≡ length (slice_index_or (values_of versions.now) 0 [])) versions.now }
    ensures { IfOk result (λ outcome. IsWeaveOf check (values_of versions.now) (weave_tally outcome)) }
{
    let distinct = distinct_versions(alloc, versions)?;
    weave_distinct(alloc, check, distinct.as_slice())
}
