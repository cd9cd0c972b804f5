//! Versions with what their parts give.
ghost use Rattle.std.specs.Prelude.{◌≡◌, ◌+◌, ◌≤◌, ◌↔◌, IsTrue, length, map, All, Any, IfOk};
ghost use Rattle.ffv1_slice.specs.Members.{HasSameMembers};
ghost use Rattle.ffv1_weave.specs.References.{values_of};
ghost use Rattle.ffv1_weave.specs.Parts.{written};
ghost use Rattle.ffv1_mend.specs.Content.{content_bytes};
ghost use Rattle.ffv1_mend.specs.Improved.{is_given, part_value, patched, patches_of, given_by, given_patches, whole_by, whole_patches, improved};
ghost use Rattle.ffv1_mend.specs.Inner.Improved.{IsSpliceFitting, IsFitting, AreFitting};

use crate::content::Content;
use crate::distinct::is_same;
use crate::part::{MendedPart, Part};
use ffv1_splice::{Place, Spliced, Standing};
use std::alloc::{AllocError, Global};

/// Whether a slice that passes its parity stands at a place.
fn is_given(place: &Place) -> bool
    ensures { result ≡ is_given place.now.standing }
{
    matches!(
        place.standing,
        Standing::Settled | Standing::Woven(_) | Standing::Voted(_) | Standing::Repaired(_)
    )
}

/// Writes a patch over bytes from `start` on.
fn write_at(bytes: &mut [u8], start: usize, patch: &[u8])
    requires { start + length patch.now ≤ length bytes.old }
    ensures { bytes.new ≡ written bytes.old start patch.now }
{
    bytes[start..start + patch.len()].copy_from_slice(patch);
}

/// Writes what the splice of a part gives over a version.
fn improve_spliced(version: &mut [u8], part: Part, spliced: &Spliced)
    requires { IsSpliceFitting (length version.old) part spliced.now }
    ensures { version.new ≡ patched version.old (patches_of part spliced.now) }
{
    for place in spliced.places() {
        if is_given(place) {
            let bytes = &spliced.payload()[place.start..place.end];
            write_at(version, part.start + place.start, bytes);
        }
    }
}

/// Writes what a part gives over a version.
fn improve_part(version: &mut [u8], part: Part, mend: &MendedPart<'_>)
    requires { IsFitting (length version.old) part (part_value mend.now) }
    ensures { version.new ≡ patched version.old (given_by part (part_value mend.now)) }
{
    match mend {
        MendedPart::Spliced(spliced) => improve_spliced(version, part, spliced),
        MendedPart::Whole(bytes) => write_at(version, part.start, bytes),
        MendedPart::Disputed | MendedPart::Missing => {}
    }
}

/// Writes what all parts give over a version.
fn improve(version: &mut [u8], parts: &[Part], mends: &[MendedPart<'_>])
    requires { AreFitting (length version.old) parts.now (map part_value mends.now) }
    ensures { version.new ≡ patched version.old (given_patches parts.now (map part_value mends.now)) }
{
    for (part, mend) in parts.iter().zip(mends) {
        improve_part(version, *part, mend);
    }
}

/// Whether bytes have a patch from `start` on already.
fn has_at(bytes: &[u8], start: usize, patch: &[u8]) -> bool
    requires { start + length patch.now ≤ length bytes.now }
    ensures { IsTrue result → written bytes.now start patch.now ≡ bytes.now }
{
    is_same(&bytes[start..start + patch.len()], patch)
}

/// Whether a version has all that the splice of a part gives already.
fn has_spliced(version: &[u8], part: Part, spliced: &Spliced) -> bool
    requires { IsSpliceFitting (length version.now) part spliced.now }
    ensures { IsTrue result → patched version.now (patches_of part spliced.now) ≡ version.now }
{
    for place in spliced.places() {
        let bytes = &spliced.payload()[place.start..place.end];
        if is_given(place) && !has_at(version, part.start + place.start, bytes) {
            return false;
        }
    }
    true
}

/// Whether a version has all that a part gives already.
fn has_part(version: &[u8], part: Part, mend: &MendedPart<'_>) -> bool
    requires { IsFitting (length version.now) part (part_value mend.now) }
    ensures { IsTrue result → patched version.now (given_by part (part_value mend.now)) ≡ version.now }
{
    match mend {
        MendedPart::Spliced(spliced) => has_spliced(version, part, spliced),
        MendedPart::Whole(bytes) => has_at(version, part.start, bytes),
        MendedPart::Disputed | MendedPart::Missing => true,
    }
}

/// Whether a version has all that the parts give already.
fn has_all(version: &[u8], parts: &[Part], mends: &[MendedPart<'_>]) -> bool
    requires { AreFitting (length version.now) parts.now (map part_value mends.now) }
    ensures { IsTrue result → patched version.now (given_patches parts.now (map part_value mends.now)) ≡ version.now }
{
    for (part, mend) in parts.iter().zip(mends) {
        if !has_part(version, *part, mend) {
            return false;
        }
    }
    true
}

/// A version with what the parts give. It is copied only where that changes it.
fn improved_version<'a>(
    alloc: Global,
    version: &'a [u8],
    parts: &[Part],
    mends: &[MendedPart<'_>],
) -> Result<Content<'a>, AllocError>
    requires { AreFitting (length version.now) parts.now (map part_value mends.now) }
    ensures { IfOk result (λ content. content_bytes content ≡ patched version.now (given_patches parts.now (map part_value mends.now))) }
{
    if has_all(version, parts, mends) {
        return Ok(Content::Version(version));
    }
    let mut bytes = Vec::from_slice(alloc, version)?;
    improve(&mut bytes, parts, mends);
    Ok(Content::Made(bytes))
}

/// Whether some content has these bytes.
fn is_held(all: &[Content<'_>], bytes: &[u8]) -> bool
    ensures { IsTrue result ↔ Any (λ content. content_bytes content ≡ bytes.now) all.now }
{
    all.iter().any(|content| is_same(content.bytes(), bytes))
}

/// The improved versions, each once.
pub(crate) fn improved_versions<'a>(
    alloc: Global,
    versions: &[&'a [u8]],
    parts: &[Part],
    mends: &[MendedPart<'_>],
) -> Result<Vec<Content<'a>>, AllocError>
    requires { All (λ version. AreFitting (length version.now) parts.now (map part_value mends.now)) versions.now }
    ensures { IfOk result (λ all. HasSameMembers (improved (values_of versions.now) parts.now (map part_value mends.now)) (map content_bytes all.items)) }
{
    let mut all = Vec::new(alloc);
    for version in versions {
        let content = improved_version(alloc, version, parts, mends)?;
        if !is_held(all.as_slice(), content.bytes()) {
            all.push(content)?;
        }
    }
    Ok(all)
}

/// The bytes that all have, lent.
pub(crate) fn lent<'b>(alloc: Global, all: &'b [Content<'_>]) -> Result<Vec<&'b [u8]>, AllocError>
    ensures { IfOk result (λ lent. values_of lent.items ≡ map content_bytes all.now) }
{
    let mut lent = Vec::new(alloc);
    for content in all {
        lent.push(content.bytes())?;
    }
    Ok(lent)
}

/// Writes all bytes of a part over others, as far as it has some.
fn write_part(bytes: &mut [u8], part: Part, mend: &MendedPart<'_>)
    requires { IsFitting (length bytes.old) part (part_value mend.now) }
    ensures { bytes.new ≡ patched bytes.old (whole_by part (part_value mend.now)) }
{
    match mend {
        MendedPart::Spliced(spliced) => write_at(bytes, part.start, spliced.payload()),
        MendedPart::Whole(frame) => write_at(bytes, part.start, frame),
        MendedPart::Disputed | MendedPart::Missing => {}
    }
}

/// Writes all bytes of all parts over others, as far as they have some.
pub(crate) fn write_parts(bytes: &mut [u8], parts: &[Part], mends: &[MendedPart<'_>])
    requires { AreFitting (length bytes.old) parts.now (map part_value mends.now) }
    ensures { bytes.new ≡ patched bytes.old (whole_patches parts.now (map part_value mends.now)) }
{
    for (part, mend) in parts.iter().zip(mends) {
        write_part(bytes, *part, mend);
    }
}
