//! What copies have of a slice whose size field may be damaged in each, woven with the size that the slice has.
ghost use Rattle.std.specs.Prelude.{◌≡◌, ◌+◌, ◌-◌, ◌≤◌, ◌<◌, ◌^◌, length, map, All, IfOk};
ghost use Rattle.ffv1_weave.specs.References.{values_of};
ghost use Rattle.ffv1_splice.specs.Standings.{versions_at, sized};
ghost use Rattle.ffv1_weave.specs.Weave.{IsWeaveOf, weave_tally};
ghost use Rattle.ffv1_weave.specs.declared.check.Check.TheVariants.{Slice};

use byteorder::{BigEndian, ByteOrder};
use ffv1_slice::FOOTER_LENGTH;
use ffv1_weave::{Check, WeaveResult, weave};
use std::alloc::{AllocError, Global};

/// The weave of what copies have from a start up to an end, each with the size of a slice that is as long. Each copy has the end. It takes
/// memory for what each copy has there.
pub(crate) fn weave_sized(
    alloc: Global,
    copies: &[&[u8]],
    start: usize,
    end: usize,
) -> Result<WeaveResult, AllocError>
    requires some { 0 < length copies.now }
    requires within { All (λ copy. end ≤ length copy.now) copies.now }
    requires footer { start + 8 ≤ end }
    requires short { end - start - 8 < 2 ^ 24 }
    ensures { IfOk result (λ outcome. IsWeaveOf Slice (map sized (versions_at (values_of copies.now) start end)) (weave_tally outcome)) }
{
    let versions = sized_versions(alloc, copies, start, end)?;
    let lent = lent(alloc, versions.as_slice())?;
    weave(alloc, Check::Slice, lent.as_slice())
}

/// What each copy has from a start up to an end, with the size of a slice that is as long. Each copy has the end.
fn sized_versions(
    alloc: Global,
    copies: &[&[u8]],
    start: usize,
    end: usize,
) -> Result<Vec<Vec<u8>>, AllocError>
    requires within { All (λ copy. end ≤ length copy.now) copies.now }
    requires footer { start + 8 ≤ end }
    requires short { end - start - 8 < 2 ^ 24 }
    ensures { IfOk result (λ versions. map (λ version. version.items) versions.items ≡ map sized (versions_at (values_of copies.now) start end)) }
{
    let mut versions = Vec::new(alloc);
    for copy in copies {
        let mut version = Vec::from_slice(alloc, &copy[start..end])?;
        set_size(&mut version);
        versions.push(version)?;
    }
    Ok(versions)
}

/// Writes into the size field (RFC 9043, section 4.9.1) the size of a slice that is as long as the bytes.
fn set_size(bytes: &mut [u8])
    requires footer { 8 ≤ length bytes.old }
    requires short { length bytes.old - 8 < 2 ^ 24 }
    ensures { bytes.new ≡ sized bytes.old }
{
    let size = bytes.len() - FOOTER_LENGTH;
    BigEndian::write_u24(&mut bytes[size..], size as u32);
}

/// The bytes that all have, lent.
fn lent<'a>(alloc: Global, all: &'a [Vec<u8>]) -> Result<Vec<&'a [u8]>, AllocError>
    ensures { IfOk result (λ lent. values_of lent.items ≡ map (λ bytes. bytes.items) all.now) }
{
    let mut lent = Vec::new(alloc);
    for bytes in all {
        lent.push(bytes.as_slice())?;
    }
    Ok(lent)
}
