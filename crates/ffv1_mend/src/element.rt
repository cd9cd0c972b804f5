//! Elements with a CRC-32, mended.
ghost use Rattle.std.specs.Prelude.{◌≡◌, ◌<◌, ◌≢◌, length, map, All, AllPairs, IfOk};
ghost use Rattle.ffv1_weave.specs.References.{values_of};
ghost use Rattle.ffv1_splice.specs.Inner.Tally.{Tallies};
ghost use Rattle.ffv1_weave.specs.Weave.{IsWeaveOf, weave_tally};
ghost use Rattle.ffv1_weave.specs.declared.check.Check.TheVariants.{Element};
ghost use Rattle.ffv1_mend.specs.Content.{content_bytes};
ghost use Rattle.ffv1_mend.specs.Improved.{IsWithin, improved, fallback, part_value};
ghost use Rattle.ffv1_mend.specs.Inner.Improved.{AreFitting};
ghost use Rattle.ffv1_mend.specs.Mended.{IsElementMend, ElementStands};
ghost use Rattle.ffv1_mend.specs.Passing.{IsPassing};
ghost use Rattle.ffv1_mend.specs.Inner.Passing.{passing_counted};

use crate::content::Content;
use crate::improved::{improved_versions, lent, write_parts};
use crate::mended::Mended;
use crate::part::{MendedPart, Part};
use crate::parts::mended_parts;
use crate::passing::{Passing, passing_of};
use crate::state::State;
use ffv1_weave::{Check, WeaveResult, weave};
use std::alloc::{AllocError, Global};

/// The bytes where no checksum vouches for any: in each part its own, as far as it has some, and elsewhere those of `from`.
fn fallback<'a>(
    alloc: Global,
    from: &[u8],
    parts: &[Part],
    mends: &[MendedPart<'_>],
) -> Result<Content<'a>, AllocError>
    requires { AreFitting (length from.now) parts.now (map part_value mends.now) }
    ensures { IfOk result (λ content. content_bytes content ≡ fallback from.now parts.now (map part_value mends.now)) }
{
    let mut bytes = Vec::from_slice(alloc, from)?;
    write_parts(&mut bytes, parts, mends);
    Ok(Content::Made(bytes))
}

/// The weave of the improved versions. There is one version at least, and all are as long.
fn weave_improved(
    alloc: Global,
    versions: &[&[u8]],
    size: usize,
    parts: &[Part],
    mends: &[MendedPart<'_>],
) -> Result<WeaveResult, AllocError>
    requires some { 0 < length versions.now }
    requires lengths { All (λ version. length version.now ≡ size) versions.now }
    requires fit { AreFitting size parts.now (map part_value mends.now) }
    ensures { IfOk result (λ outcome. IsWeaveOf Element (improved (values_of versions.now) parts.now (map part_value mends.now)) (weave_tally outcome)) }
{
    let all = improved_versions(alloc, versions, parts, mends)?;
    let lent = lent(alloc, all.as_slice())?;
    weave(alloc, Check::Element, lent.as_slice())
}

/// How an element stands, by its versions that pass, and its bytes. There is one version at least, and all are as long as `from`.
fn standing<'a>(
    alloc: Global,
    passing: Passing<'a>,
    versions: &[&[u8]],
    from: &[u8],
    parts: &[Part],
    mends: &[MendedPart<'_>],
) -> Result<(State, Content<'a>), AllocError>
    requires some { 0 < length versions.now }
    requires lengths { All (λ version. length version.now ≡ length from.now) versions.now }
    requires fit { AreFitting (length from.now) parts.now (map part_value mends.now) }
    requires passing { Tallies (IsPassing Element (values_of versions.now)) (passing_counted passing) }
    ensures { IfOk result (λ (state, content). ElementStands (values_of versions.now) from.now parts.now (map part_value mends.now) (content_bytes content) state) }
{
    match passing {
        Passing::One(version) => Ok((State::Whole, Content::Version(version))),
        Passing::Two => Ok((State::Disputed, fallback(alloc, from, parts, mends)?)),
        Passing::None => match weave_improved(alloc, versions, from.len(), parts, mends)? {
            WeaveResult::Woven(bytes, count) => Ok((State::Woven(count), Content::Made(bytes))),
            _ => Ok((State::Missing, fallback(alloc, from, parts, mends)?)),
        },
    }
}

/// Mends an element whose versions these are, each once. There is one at least, all are as long as `from`, and each part lies within it.
/// Where all versions are one that passes, no part is looked at.
pub(crate) fn mend_element<'a>(
    alloc: Global,
    versions: &[&'a [u8]],
    from: &[u8],
    parts: &[Part],
) -> Result<Mended<'a>, AllocError>
    requires some { 0 < length versions.now }
    requires once { AllPairs (λ one other. one ≢ other) (values_of versions.now) }
    requires lengths { All (λ version. length version.now ≡ length from.now) versions.now }
    requires parts { All (IsWithin (length from.now)) parts.now }
    ensures { IfOk result (IsElementMend (values_of versions.now) from.now parts.now) }
{
    let passing = passing_of(Check::Element, versions);
    if let Passing::One(version) = passing {
        if versions.len() == 1 {
            let content = Content::Version(version);
            return Ok(Mended::new(State::Whole, Some(content), Vec::new(alloc)));
        }
    }
    let mends = mended_parts(alloc, versions, parts)?;
    let (state, content) = standing(alloc, passing, versions, from, parts, mends.as_slice())?;
    Ok(Mended::new(state, Some(content), mends))
}
