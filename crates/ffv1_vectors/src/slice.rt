//! Slices (RFC 9043, sections 4.5, 4.6 and 4.9), spelled from their header's fields, their codes and their status.
ghost use Rattle.std.specs.Prelude.{◌≡◌, ◌<◌, ◌≤◌, ◌^◌, ◌++◌, ℕ, List, IsTrue, IfOk, IfErr, OnOk, false, length};
ghost use Rattle.ffv1_bits.specs.Limits.{slice_limit};
ghost use Rattle.ffv1_bits.specs.Parity.{PassesParity};
ghost use Rattle.ffv1_slice.specs.Chain.{IsFramed, status_before};
ghost use Rattle.ffv1_vectors.specs.Spelled.{ReadsAs, IsSpelled};
ghost use Rattle.ffv1_vectors.specs.Inner.Spelled.{ReadsKeyAs};
ghost use Rattle.ffv1_vectors.specs.declared.fault.MakeFault.TheVariants.{Memory};

use crate::encoder::RangeEncoder;
use crate::fault::MakeFault;
use crate::parity::with_parity;
use ffv1_bits::passes;
use ffv1_range::{HEAD_FIELDS, RangeDecoder, RangeFault, read_head_fields};
use ffv1_slice::{is_framed, status_of};
use std::alloc::Global;

/// The most bytes that a slice can have before its footer.
const MOST_CONTENT: usize = 0xFF_FFFF;

/// A slice: its header, with the keyframe bit `key` before it where it is the payload's `first`, its codes, and its
/// footer of size, error status and parity. The fields are slice_x, slice_y, slice_width - 1, slice_height - 1, the two
/// table sets, picture_structure, sar_num and sar_den; they need not be of the profile.
///
/// Returns `NotSelf` where there are no codes, where header and codes pass 16777215 bytes, and where the header does not
/// read back as these fields and the place of the codes; `Memory` if an allocation of memory failed.
pub fn spell_slice(
    alloc: Global,
    first: bool,
    key: bool,
    fields: &[u32; HEAD_FIELDS],
    codes: &[u8],
    status: u8,
) -> Result<Vec<u8>, MakeFault>
    ensures spelled { IfOk result (λ bytes. IsSpelled bytes.items first key fields.now codes.now status) }
    ensures short { IfOk result (λ bytes. length bytes.items ≤ slice_limit) }
{
    let head = spell_header(alloc, first, key, fields)?;
    let place = head.len();
    let mut content = head;
    content.extend_from_slice(codes)?;
    if content.len() > MOST_CONTENT {
        return Err(MakeFault::NotSelf);
    }
    let Ok(true) = reads_back(&content, first, key, fields, place) else {
        return Err(MakeFault::NotSelf);
    };
    let slice = with_footer(content, status)?;
    if !has_footer(&slice, status) {
        return Err(MakeFault::NotSelf);
    }
    Ok(slice)
}

/// The bytes of a header, up to its codes.
fn spell_header(
    alloc: Global,
    first: bool,
    key: bool,
    fields: &[u32; HEAD_FIELDS],
) -> Result<Vec<u8>, MakeFault>
    ensures { IfErr result (λ fault. fault ≡ Memory) }
{
    let mut encoder = RangeEncoder::new(alloc);
    if first {
        encoder.bit(&mut 128, key)?;
    }
    let mut states = [128; 32];
    encoder.all_unsigned(&mut states, fields)?;
    encoder.finish_sentinel()
}

/// The content with its footer after it.
fn with_footer(content: Vec<u8>, status: u8) -> Result<Vec<u8>, MakeFault>
    requires { length content.items < 2 ^ 24 }
    ensures { IfOk result (λ bytes. (footer : List ℕ) × (bytes.items ≡ content.items ++ footer) × (length footer ≡ 8)) }
{
    let mut bytes = content;
    let [_, high, middle, low] = (bytes.len() as u32).to_be_bytes();
    bytes.extend_from_slice(&[high, middle, low, status])?;
    with_parity(bytes)
}

/// Whether the bytes end with a footer that has their size and this status, and pass their parity.
fn has_footer(slice: &[u8], status: u8) -> bool
    ensures passes { IsTrue result → PassesParity slice.now }
    ensures framed { IsTrue result → IsFramed slice.now }
    ensures status { IsTrue result → status_before slice.now (length slice.now) ≡ status }
{
    is_framed(slice) && status_of(slice) == status && passes(slice)
}

/// Whether a content reads as this keyframe bit and these fields, with codes from this place on.
fn reads_back(
    content: &[u8],
    first: bool,
    key: bool,
    fields: &[u32; HEAD_FIELDS],
    place: usize,
) -> Result<bool, RangeFault>
    ensures { IfOk result (λ same. IsTrue same → ReadsAs content.now first key fields.now place) }
{
    let mut decoder = RangeDecoder::sentinel(content)?;
    if !reads_key(&mut decoder, first, key)? {
        return Ok(false);
    }
    let read = read_head_fields(&mut decoder)?;
    if read != *fields {
        return Ok(false);
    }
    Ok(decoder.finish()? == place)
}

/// Whether the keyframe bit, where there is one, is this.
fn reads_key(decoder: &mut RangeDecoder<'_>, first: bool, key: bool) -> Result<bool, RangeFault>
    ensures { IfOk result (λ same. IsTrue same → ReadsKeyAs first key decoder.old decoder.new) }
{
    if !first {
        return Ok(true);
    }
    let mut state = 128;
    Ok(decoder.bit(&mut state)? == key)
}
