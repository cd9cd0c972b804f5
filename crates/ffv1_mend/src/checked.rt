//! Bytes without parts that have a checksum of their own: Configuration Records, and frames of FLAC.
ghost use Rattle.std.specs.Prelude.{◌≡◌, ◌<◌, length, All, IfOk};
ghost use Rattle.ffv1_weave.specs.References.{values_of};
ghost use Rattle.ffv1_weave.specs.Checks.{CanWeave};
ghost use Rattle.ffv1_weave.specs.declared.check.Check.TheVariants.{Flac};
ghost use Rattle.ffv1_mend.specs.Content.{content_bytes};
ghost use Rattle.ffv1_mend.specs.Mended.{IsCheckedMend, StandsBy};

use crate::content::Content;
use crate::mended::Mended;
use crate::passing::{Passing, passing_of};
use crate::state::State;
use ffv1_weave::{Check, WeaveResult, weave};
use std::alloc::{AllocError, Global};

/// How versions stand by a check by which they are woven, and their bytes. There is one version at least, and all are as long as `from`.
fn woven_standing<'a>(
    alloc: Global,
    check: Check,
    versions: &[&'a [u8]],
    from: &'a [u8],
) -> Result<(State, Content<'a>), AllocError>
    requires weaves { CanWeave check }
    requires some { 0 < length versions.now }
    requires lengths { All (λ version. length version.now ≡ length from.now) versions.now }
    ensures { IfOk result (λ (state, content). StandsBy check (values_of versions.now) (values_of versions.now)
        from.now (content_bytes content) state) }
{
    match passing_of(check, versions) {
        Passing::One(version) => Ok((State::Whole, Content::Version(version))),
        Passing::Two => Ok((State::Disputed, Content::Version(from))),
        Passing::None => match weave(alloc, check, versions)? {
            WeaveResult::Woven(bytes, count) => Ok((State::Woven(count), Content::Made(bytes))),
            _ => Ok((State::Missing, Content::Version(from))),
        },
    }
}

/// Mends bytes without parts whose versions these are, each once, by a check by which they are woven. There is one version at least, and
/// all are as long as `from`.
pub(crate) fn mend_woven<'a>(
    alloc: Global,
    check: Check,
    versions: &[&'a [u8]],
    from: &'a [u8],
) -> Result<Mended<'a>, AllocError>
    requires weaves { CanWeave check }
    requires some { 0 < length versions.now }
    requires lengths { All (λ version. length version.now ≡ length from.now) versions.now }
    ensures { IfOk result (IsCheckedMend check (values_of versions.now) from.now) }
{
    let (state, content) = woven_standing(alloc, check, versions, from)?;
    Ok(Mended::new(state, Some(content), Vec::new(alloc)))
}

/// How the versions of a frame of FLAC stand, and its bytes.
fn flac_standing<'a>(versions: &[&'a [u8]], from: &'a [u8]) -> (State, Content<'a>)
    ensures { let (state, content) = result in StandsBy Flac (values_of versions.now) (values_of versions.now)
        from.now (content_bytes content) state }
{
    match passing_of(Check::Flac, versions) {
        Passing::One(version) => (State::Whole, Content::Version(version)),
        Passing::Two => (State::Disputed, Content::Version(from)),
        Passing::None => (State::Missing, Content::Version(from)),
    }
}

/// Mends a frame of FLAC whose versions these are, each once. Its 16 bits are too few for combinations, so nothing is woven.
pub(crate) fn mend_flac<'a>(alloc: Global, versions: &[&'a [u8]], from: &'a [u8]) -> Mended<'a>
    ensures { IsCheckedMend Flac (values_of versions.now) from.now result }
{
    let (state, content) = flac_standing(versions, from);
    Mended::new(state, Some(content), Vec::new(alloc))
}
