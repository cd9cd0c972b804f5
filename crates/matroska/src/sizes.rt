//! Sizes of frames that are laced (RFC 9559, section 10.3).
ghost use Rattle.std.specs.Prelude.{ℕ, ◌≡◌, ◌<◌, ◌≤◌, ◌^◌, IfOk, IfSome, MatchOption, None, vec_len};
ghost use Rattle.matroska.specs.Laces.{IsXiphSize, IsFrameSize, SizesFollow, GiveSizes};
ghost use Rattle.matroska.specs.Inner.Sizes.{ReadsSize, NoneGiven, NoneFollow, GivesSize};
ghost use Rattle.matroska.specs.declared.block.Lacing.TheVariants.{Fixed, Ebml};

use crate::block::Lacing;
use ebml::read_vint_data;
use std::alloc::{AllocError, Global};

/// A size, and the bytes after those that give it.
#[derive(Clone, Copy, Debug)]
pub(crate) struct SizeAt<'a> {
    pub(crate) size: usize,
    pub(crate) rest: &'a [u8],
}

/// The sizes of all frames but the last, and the bytes that are the frames.
#[derive(Drop)]
pub(crate) struct Sizes<'a> {
    pub(crate) sizes: Vec<usize>,
    pub(crate) rest: &'a [u8],
}

/// The sizes of so many frames, those that follow the count in a payload. Sizes that the bytes have no room for are none.
pub(crate) fn sizes_of<'a>(
    alloc: Global,
    lacing: Lacing,
    count: usize,
    bytes: &'a [u8],
) -> Result<Option<Sizes<'a>>, AllocError>
    requires { count < 2 ^ 8 }
    ensures { IfOk result (λ found. MatchOption found (NoneGiven lacing count bytes.now)
        (λ sizes. GiveSizes lacing bytes.now sizes.sizes.items sizes.rest.now × (vec_len sizes.sizes ≡ count))) }
{
    match lacing {
        Lacing::Unlaced => Ok(None),
        Lacing::Xiph => sizes_that_follow(alloc, Lacing::Xiph, count, bytes),
        Lacing::Fixed => fixed_sizes(alloc, count, bytes),
        Lacing::Ebml => sizes_that_follow(alloc, Lacing::Ebml, count, bytes),
    }
}

/// Sizes that stand one after the other.
fn sizes_that_follow<'a>(
    alloc: Global,
    lacing: Lacing,
    count: usize,
    bytes: &'a [u8],
) -> Result<Option<Sizes<'a>>, AllocError>
    ensures { IfOk result (λ found. MatchOption found (NoneFollow lacing count bytes.now)
        (λ sizes. SizesFollow lacing None bytes.now sizes.sizes.items sizes.rest.now × (vec_len sizes.sizes ≡ count))) }
{
    let mut sizes = Vec::new(alloc);
    let mut before = None;
    let mut rest = bytes;
    for _index in 0..count {
        let Some(found) = next_size(lacing, before, rest) else {
            return Ok(None);
        };
        sizes.push(found.size)?;
        before = Some(found.size);
        rest = found.rest;
    }
    Ok(Some(Sizes { sizes, rest }))
}

/// Sizes of frames that are all of one size.
fn fixed_sizes<'a>(
    alloc: Global,
    count: usize,
    bytes: &'a [u8],
) -> Result<Option<Sizes<'a>>, AllocError>
    requires { count < 2 ^ 8 }
    ensures { IfOk result (λ found. MatchOption found (NoneGiven Fixed count bytes.now)
        (λ sizes. GiveSizes Fixed bytes.now sizes.sizes.items sizes.rest.now × (vec_len sizes.sizes ≡ count))) }
{
    if bytes.len() % (count + 1) != 0 {
        return Ok(None);
    }
    let sizes = vec![in alloc; bytes.len() / (count + 1); count]?;
    Ok(Some(Sizes { sizes, rest: bytes }))
}

/// The size that begins the bytes, by the one before where there is one.
fn next_size<'a>(lacing: Lacing, before: Option<usize>, bytes: &'a [u8]) -> Option<SizeAt<'a>>
    requires { IfSome before (λ size. size < 2 ^ 63) }
    ensures { ReadsSize (IsFrameSize lacing before) bytes.now result }
{
    match lacing {
        Lacing::Xiph => xiph_size(bytes),
        Lacing::Ebml => ebml_size(before, bytes),
        _ => None,
    }
}

/// The size of Xiph lacing that begins the bytes.
fn xiph_size<'a>(bytes: &'a [u8]) -> Option<SizeAt<'a>>
    ensures { ReadsSize IsXiphSize bytes.now result }
{
    let mut size = 0;
    for (index, byte) in bytes.iter().enumerate() {
        size += usize::from(*byte);
        if size > bytes.len() {
            return None;
        }
        if *byte < 255 {
            let rest = &bytes[index + 1..];
            return Some(SizeAt { size, rest });
        }
    }
    None
}

/// The size of EBML lacing that begins the bytes.
fn ebml_size<'a>(before: Option<usize>, bytes: &'a [u8]) -> Option<SizeAt<'a>>
    requires { IfSome before (λ size. size < 2 ^ 63) }
    ensures { ReadsSize (IsFrameSize Ebml before) bytes.now result }
{
    let Some(found) = read_vint_data(bytes) else {
        return None;
    };
    let Some(size) = size_after(before, found.value, found.length) else {
        return None;
    };
    if size > bytes.len() as u64 {
        return None;
    }
    let rest = &bytes[found.length..];
    let size = size as usize;
    Some(SizeAt { size, rest })
}

/// The size that a number of so many octets gives, by the one before where there is one.
fn size_after(before: Option<usize>, value: u64, length: usize) -> Option<u64>
    requires before { IfSome before (λ size. size < 2 ^ 63) }
    requires value { value < 2 ^ 56 }
    requires some { 0 < length }
    requires few { length ≤ 8 }
    ensures { MatchOption result ((size : ℕ) → GivesSize before value length size → ⊥) (λ size. GivesSize before value length size) }
{
    let Some(before) = before else {
        return Some(value);
    };
    let most = (1u64 << (7 * length - 1)) - 1;
    (before as u64 + value).checked_sub(most)
}
