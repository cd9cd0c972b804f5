//! Slices: links that pass their parity and whose content begins with a header for one tile of the grid (RFC 9043, sections 4.5, 4.6 and
//! 4.9). Only what is found here may ever be called restored.
ghost use Rattle.std.specs.Prelude.{◌≡◌, ◌==◌, ℕ, ◌≤◌, IfOk, Ok, Err, true, length};
ghost use Rattle.ffv1_bits.specs.Parity.{PassesParity};
ghost use Rattle.ffv1_range.specs.TileHeaders.{tile_read};
ghost use Rattle.ffv1_range.specs.Frames.{by_frames};
ghost use Rattle.ffv1_slice.specs.Slices.{IsSliceOf, content_of, link_tile, is_passing_slice, slice_read, SliceReadIsSlice};

use crate::footer::{content_of, is_framed};
use crate::link::Link;
use ffv1_bits::passes;
use ffv1_range::{Frames, HeadFault, Recorded, read_frame_tile};

/// Why a link is no slice.
#[derive(Clone, Copy, Debug, PartialEq, Eq)]
pub enum LinkFault {
    /// It does not pass its parity.
    Parity,
    /// Its content has no header for one tile of the grid.
    Head(HeadFault),
}

/// The tile of which a link is a slice, counted from 0 row by row, by what the record says: a `Setup` or a `Recording` with parities. A link
/// at the payload's start is read with the keyframe bit, and has to be of tile 0; no other may be. In the profile that bit has to be 1. It
/// takes no memory.
///
/// Returns `Parity` exactly if the link fails its parity; `Head` has the fault of its header, in `read_tile`'s order.
pub fn slice_of<S: Recorded>(setup: &S, link: &Link<'_>) -> Result<usize, LinkFault>
    ensures found { IfOk result (λ tile. IsSliceOf (S.rules setup.now) link.now.bytes (link.now.start == 0) tile) }
    ensures only { (tile : ℕ) → IsSliceOf (S.rules setup.now) link.now.bytes (link.now.start == 0) tile → result ≡ Ok tile }

    ensures parity { (PassesParity link.now.bytes → ⊥) → result ≡ Err LinkFault.Parity }
    ensures head { PassesParity link.now.bytes → result ≡ link_tile (tile_read (S.rules setup.now) (content_of link.now.bytes) (link.now.start == 0)) }
    ensures read { result ≡ slice_read (S.rules setup.now) link.now.bytes (link.now.start == 0) }
{
    frame_slice_of(Frames::Ruled, setup, link)
}

/// The same in these frames: `slice_of` judges by those that the record's rules allow. In any frame the keyframe bit may be 0.
pub fn frame_slice_of<S: Recorded>(
    frames: Frames,
    setup: &S,
    link: &Link<'_>,
) -> Result<usize, LinkFault>
    ensures found { IfOk result (λ tile. IsSliceOf (by_frames frames (S.rules setup.now)) link.now.bytes (link.now.start == 0) tile) }
    ensures only { (tile : ℕ) → IsSliceOf (by_frames frames (S.rules setup.now)) link.now.bytes (link.now.start == 0) tile → result ≡ Ok tile }

    ensures parity { (PassesParity link.now.bytes → ⊥) → result ≡ Err LinkFault.Parity }
    ensures head { PassesParity link.now.bytes
        → result ≡ link_tile (tile_read (by_frames frames (S.rules setup.now)) (content_of link.now.bytes) (link.now.start == 0)) }
    ensures read { result ≡ slice_read (by_frames frames (S.rules setup.now)) link.now.bytes (link.now.start == 0) }
{
    read_frame_slice(frames, setup, link.bytes(), link.start() == 0)
}

/// The tile of which these bytes, footer and all, are a slice. They are read with the keyframe bit where they are `first`
/// of their payload. It takes no memory.
///
/// Returns `Parity` if there is no footer, if its size field is not the number of bytes before it, and if the bytes do not pass their
/// parity; `Head` has the fault of the header.
pub fn read_slice<S: Recorded>(setup: &S, slice: &[u8], first: bool) -> Result<usize, LinkFault>
    ensures found { IfOk result (λ tile. IsSliceOf (S.rules setup.now) slice.now first tile) }
    ensures only { (tile : ℕ) → IsSliceOf (S.rules setup.now) slice.now first tile → result ≡ Ok tile }
    ensures read { result ≡ slice_read (S.rules setup.now) slice.now first }
{
    read_frame_slice(Frames::Ruled, setup, slice, first)
}

/// The same in these frames: `read_slice` judges by those that the record's rules allow. In any frame the keyframe bit may be 0.
pub fn read_frame_slice<S: Recorded>(
    frames: Frames,
    setup: &S,
    slice: &[u8],
    first: bool,
) -> Result<usize, LinkFault>
    ensures found { IfOk result (λ tile. IsSliceOf (by_frames frames (S.rules setup.now)) slice.now first tile) }
    ensures only { (tile : ℕ) → IsSliceOf (by_frames frames (S.rules setup.now)) slice.now first tile → result ≡ Ok tile }
    ensures read { result ≡ slice_read (by_frames frames (S.rules setup.now)) slice.now first }
{
    tile_read(frames, setup, slice, first)
}

/// The tile of a slice, as it is read.
#[tactic(auto, unfolding(crate::specs::Slices::slice_read))]
fn tile_read<S: Recorded>(
    frames: Frames,
    setup: &S,
    slice: &[u8],
    first: bool,
) -> Result<usize, LinkFault>
    ensures { result ≡ slice_read (by_frames frames (S.rules setup.now)) slice.now first }
{
    if !is_passing_slice(slice) {
        return Err(LinkFault::Parity);
    }
    match read_frame_tile(frames, setup.recording(), content_of(slice), first) {
        Ok(tile) => Ok(tile),
        Err(fault) => Err(LinkFault::Head(fault)),
    }
}

/// Whether the bytes end with a footer that has their size, and pass their parity.
fn is_passing_slice(slice: &[u8]) -> bool
    ensures value { result ≡ is_passing_slice slice.now }
    ensures long { result ≡ true → 8 ≤ length slice.now }
{
    is_framed(slice) && passes(slice)
}

/// Bytes are read as a slice of a tile exactly where they are one: the reading by which the slices of a payload are found is what a slice
/// is.
pub fn slice_read_is_slice()
    ensures { SliceReadIsSlice }
{}
