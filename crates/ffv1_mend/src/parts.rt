//! What becomes of frames, each version judged once.
ghost use Rattle.std.specs.Prelude.{◌≡◌, ◌<◌, ◌≤◌, [], length, map, All, IfOk, slice_index_or};
ghost use Rattle.ffv1_weave.specs.References.{values_of};
ghost use Rattle.ffv1_splice.specs.Standings.{versions_at};
ghost use Rattle.ffv1_splice.specs.Splice.{IsSpliceOf};
ghost use Rattle.ffv1_mend.specs.Improved.{IsWithin, IsPartMend, ArePartMends, part_value};
ghost use Rattle.ffv1_mend.specs.declared.part.Sort.TheVariants.{Flac};

use crate::distinct::distinct_versions;
use crate::part::{MendedPart, Part, Sort};
use crate::passing::{Passing, passing_of};
use ffv1_splice::{Spliced, splice};
use ffv1_weave::Check;
use std::alloc::{AllocError, Global};

/// The splice of versions of a frame, each judged once. There is one version at least, and all are as long.
pub(crate) fn splice_distinct(alloc: Global, versions: &[&[u8]]) -> Result<Spliced, AllocError>
    requires { 0 < length versions.now }
    ensures { IfOk result (IsSpliceOf (values_of versions.now)) }
{
    let distinct = distinct_versions(alloc, versions)?;
    splice(alloc, distinct.as_slice()).map_err(|_| AllocError)
}

/// What becomes of a frame of FLAC, by its versions that pass.
fn judged<'a>(versions: &[&'a [u8]]) -> MendedPart<'a>
    ensures { IsPartMend Flac (values_of versions.now) (part_value result) }
{
    match passing_of(Check::Flac, versions) {
        Passing::None => MendedPart::Missing,
        Passing::One(version) => MendedPart::Whole(version),
        Passing::Two => MendedPart::Disputed,
    }
}

/// What versions have at a part. Each has the part.
fn versions_at<'a>(
    alloc: Global,
    versions: &[&'a [u8]],
    part: Part,
) -> Result<Vec<&'a [u8]>, AllocError>
    requires order { part.start ≤ part.end }
    requires within { All (λ version. part.end ≤ length version.now) versions.now }
    ensures { IfOk result (λ frames. values_of frames.items ≡ versions_at (values_of versions.now) part.start part.end) }
{
    let mut frames = Vec::new(alloc);
    for version in versions {
        frames.push(&version[part.start..part.end])?;
    }
    Ok(frames)
}

/// What becomes of a frame of this sort whose versions these are. There is one version at least.
fn mended_frame<'a>(
    alloc: Global,
    sort: Sort,
    versions: &[&'a [u8]],
) -> Result<MendedPart<'a>, AllocError>
    requires { 0 < length versions.now }
    ensures { IfOk result (λ mend. IsPartMend sort (values_of versions.now) (part_value mend)) }
{
    match sort {
        Sort::Frame => Ok(MendedPart::Spliced(splice_distinct(alloc, versions)?)),
        Sort::Flac => {
            let distinct = distinct_versions(alloc, versions)?;
            Ok(judged(distinct.as_slice()))
        }
    }
}

/// What becomes of a part. There is one version at least, and each has the part.
fn mended_part<'a>(
    alloc: Global,
    versions: &[&'a [u8]],
    part: Part,
) -> Result<MendedPart<'a>, AllocError>
    requires some { 0 < length versions.now }
    requires order { part.start ≤ part.end }
    requires within { All (λ version. part.end ≤ length version.now) versions.now }
    ensures { IfOk result (λ mend. IsPartMend part.sort (versions_at (values_of versions.now) part.start part.end) (part_value mend)) }
{
    let frames = versions_at(alloc, versions, part)?;
    mended_frame(alloc, part.sort, frames.as_slice())
}

/// What becomes of each part.
pub(crate) fn mended_parts<'a>(
    alloc: Global,
    versions: &[&'a [u8]],
    parts: &[Part],
) -> Result<Vec<MendedPart<'a>>, AllocError>
    requires some { 0 < length versions.now }
    requires within { All (λ part. part.start ≤ part.end) parts.now }
    requires reach { All (λ version. All (λ part. part.end ≤ length version.now) parts.now) versions.now }
    ensures { IfOk result (λ mends. ArePartMends (values_of versions.now) parts.now (map part_value mends.items)) }
{
    let mut mends = Vec::new(alloc);
    for part in parts {
        mends.push(mended_part(alloc, versions, *part)?)?;
    }
    Ok(mends)
}
