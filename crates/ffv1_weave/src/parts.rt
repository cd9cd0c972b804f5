//! The parts of versions with what these have there, and the combinations by number.
ghost use Rattle.std.specs.Prelude.{◌≡◌, ◌≤◌, ◌<◌, ℕ, [], length, map, All, MatchOption, IfSome, IfOk, slice_index_or};
ghost use Rattle.ffv1_slice.specs.Members.{HasSameMembers};
ghost use Rattle.ffv1_weave.specs.References.{values_of};
ghost use Rattle.ffv1_weave.specs.Regions.{AgreeAt};
ghost use Rattle.ffv1_weave.specs.Combinations.{HasMany};
ghost use Rattle.ffv1_weave.specs.Weave.{AreMany};
ghost use Rattle.ffv1_weave.specs.Inner.Parts.{AreChoices, AreChoicesBy, AreDistinct, IsEdge, IsPartFrom, IsFit, AreFewParts, AreTriedParts, chosen};

use crate::most::most_between;
use crate::regions::region_from;
use crate::segments::segment_from;
use crate::splits::{SPLITS, Split};
use crate::weaving::MOST_COMBINATIONS;
use std::alloc::{AllocError, Global};
use std::marker::Model;

/// A part, and the byte strings that versions have there, each once.
#[derive(Drop)]
pub(crate) struct Part<'a> {
    pub(crate) start: usize,
    pub(crate) end: usize,
    pub(crate) choices: Vec<&'a [u8]>,
}

impl<'a> Model for Part<'a> {
    ghost use Rattle.std.specs.Prelude.{map};
    ghost use Rattle.ffv1_weave.specs.Inner.Parts.{Part};

    ghost Value = { Part };

    ghost view = { λ a. record { start = a.start; end = a.end; choices = map (λ choice. choice.now) a.choices.items } };
}

/// Parts, and how many combinations they have.
#[derive(Drop)]
pub(crate) struct Parts<'a> {
    pub(crate) parts: Vec<Part<'a>>,
    pub(crate) count: usize,
}

/// The byte strings that versions have between two places, each once. Each version has the places.
pub(crate) fn choices_between<'a>(
    alloc: Global,
    versions: &[&'a [u8]],
    start: usize,
    end: usize,
) -> Result<Vec<&'a [u8]>, AllocError>
    requires order { start ≤ end }
    requires within { All (λ version. end ≤ length version.now) versions.now }
    ensures { IfOk result (λ choices. AreChoices (values_of versions.now) start end (values_of choices.items)) }
{
    let mut choices = Vec::new(alloc);
    for version in versions {
        let choice = &version[start..end];
        if !choices.contains(&choice) {
            choices.push(choice)?;
        }
    }
    Ok(choices)
}

/// The different versions, each once. There is one version at least, and all are as long as the first.
pub(crate) fn distinct_versions<'a>(
    alloc: Global,
    versions: &[&'a [u8]],
) -> Result<Vec<&'a [u8]>, AllocError>
    requires some { 0 < length versions.now }
    requires lengths { All (λ version. length version.now ≡ length (slice_index_or (values_of versions.now) 0 [])) versions.now }
    ensures same { IfOk result (λ distinct. HasSameMembers (values_of versions.now) (values_of distinct.items)) }
    ensures some { IfOk result (λ distinct. 0 < length distinct.items) }
    ensures lengths { IfOk result (λ distinct. All (λ version. length version.now ≡ length (slice_index_or (values_of distinct.items) 0 []))
        distinct.items) }
    ensures distinct { IfOk result (λ distinct. AreDistinct (values_of distinct.items)) }
{
    choices_between(alloc, versions, 0, versions[0].len())
}

/// The byte strings that can be taken between two places by a split, each once. Each version has the places, and no two are equal.
fn choices_by<'a>(
    alloc: Global,
    split: Split,
    versions: &[&'a [u8]],
    start: usize,
    end: usize,
) -> Result<Vec<&'a [u8]>, AllocError>
    requires order { start ≤ end }
    requires within { All (λ version. end ≤ length version.now) versions.now }
    requires distinct { AreDistinct (values_of versions.now) }
    ensures { IfOk result (λ choices. AreChoicesBy split (values_of versions.now) start end (values_of choices.items)) }
{
    match split {
        Split::Pairs(_) | Split::Regions => choices_between(alloc, versions, start, end),
        Split::Most(_) => most_between(alloc, versions, start, end),
    }
}

/// The next part by a split at which versions differ, from `from` on, where it is their start or the end of a part: its start and its end.
fn part_from(split: Split, versions: &[&[u8]], from: usize, size: usize) -> Option<(usize, usize)>
    requires some { 0 < length versions.now }
    requires lengths { All (λ version. length version.now ≡ size) versions.now }
    requires within { from ≤ size }
    requires edge { IsEdge split (values_of versions.now) from }
    ensures part { MatchOption result ((i : ℕ) → from ≤ i → AgreeAt (values_of versions.now) i)
        (λ (start, end). IsPartFrom split (values_of versions.now) from start end) }
    ensures within { IfSome result (λ (start, end). end ≤ size) }
{
    match split {
        Split::Pairs(distance) | Split::Most(distance) => {
            segment_from(versions, from, size, distance)
        }
        Split::Regions => region_from(versions, from, size),
    }
}

/// The parts of versions of one length by a split, from the front on, where they have few enough combinations to be tried: where not,
/// no further part is looked for. There is one version at least, and no two are equal.
pub(crate) fn parts_by<'a>(
    alloc: Global,
    split: Split,
    versions: &[&'a [u8]],
    size: usize,
) -> Result<Option<Parts<'a>>, AllocError>
    requires some { 0 < length versions.now }
    requires lengths { All (λ version. length version.now ≡ size) versions.now }
    requires distinct { AreDistinct (values_of versions.now) }
    ensures { IfOk result (λ found. MatchOption found (HasMany (values_of versions.now) split)
        (λ few. AreFewParts split (values_of versions.now) size few.parts.items few.count)) }
{
    let mut parts = Vec::new(alloc);
    let mut count = 1;
    let mut from = 0;
    while let Some((start, end)) = part_from(split, versions, from, size) {
        let choices = choices_by(alloc, split, versions, start, end)?;
        let many = choices.len();
        if many > MOST_COMBINATIONS / count {
            return Ok(None);
        }
        count *= many;
        parts.push(Part {
            start,
            end,
            choices,
        })?;
        from = end;
    }
    Ok(Some(Parts { parts, count }))
}

/// The parts of versions of one length by the finest split by which they have few enough combinations to be tried, if there is one.
/// There is one version at least, and no two are equal.
pub(crate) fn finest_parts<'a>(
    alloc: Global,
    versions: &[&'a [u8]],
    size: usize,
) -> Result<Option<Parts<'a>>, AllocError>
    requires some { 0 < length versions.now }
    requires lengths { All (λ version. length version.now ≡ size) versions.now }
    requires distinct { AreDistinct (values_of versions.now) }
    ensures { IfOk result (λ found. MatchOption found (AreMany (values_of versions.now))
        (λ tried. AreTriedParts (values_of versions.now) size tried.parts.items tried.count)) }
{
    for split in SPLITS {
        if let Some(parts) = parts_by(alloc, split, versions, size)? {
            return Ok(Some(parts));
        }
    }
    Ok(None)
}

/// Writes the choices of the combination of this number over the bytes.
pub(crate) fn choose(bytes: &mut [u8], parts: &[Part<'_>], code: usize)
    requires { All (IsFit (length bytes.old)) parts.now }
    ensures { bytes.new ≡ chosen parts.now code bytes.old }
{
    let mut rest = code;
    for part in parts {
        let many = part.choices.len();
        let choice = part.choices[rest % many];
        bytes[part.start..part.end].copy_from_slice(choice);
        rest /= many;
    }
}
