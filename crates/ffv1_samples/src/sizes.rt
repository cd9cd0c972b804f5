//! The sizes of a slice's planes, and the table sets of their groups (RFC 9043, sections 4.6 and 4.7).
ghost use Rattle.std.specs.Prelude.{◌≡◌, IfOk};
ghost use Rattle.ffv1_samples.specs.Sizes.{rect_size, slice_sizes};
ghost use Rattle.ffv1_plane.specs.FirstRows.{rows_to};
ghost use Rattle.ffv1_samples.specs.Inner.Headers.{IsHeaderWithin};

use ffv1_plane::PlaneSize;
use ffv1_range::{Recording, SliceHeader, TileRect};
use std::alloc::{AllocError, Global};

/// The table sets of the three groups.
pub(crate) fn sets_of(header: &SliceHeader) -> [usize; 3]
    ensures { result ≡ header.now.tables }
{
    let [luma, chroma, alpha] = header.tables;
    [luma as usize, chroma as usize, alpha as usize]
}

/// The size of a rectangle.
fn size_of(rect: TileRect) -> PlaneSize
    ensures { result ≡ rect_size rect }
{
    PlaneSize {
        width: rect.w as usize,
        height: rect.h as usize,
    }
}

/// The sizes of a slice's planes, in coded order.
pub(crate) fn sizes_of(
    alloc: Global,
    recording: &Recording,
    header: &SliceHeader,
) -> Result<Vec<PlaneSize>, AllocError>
    requires { IsHeaderWithin recording.now header.now }
    ensures { IfOk result (λ sizes. sizes.items ≡ slice_sizes recording.now header.now) }
{
    let grid = recording.grid();
    let rect = grid.rect(header.x, header.y, header.w, header.h);
    let first = size_of(rect);
    let second = if recording.is_rgb() {
        first
    } else {
        size_of(grid.chroma_rect(rect))
    };
    let mut sizes = Vec::with_capacity(alloc, 4)?;
    sizes.push(first)?;
    if recording.is_rgb() || recording.has_chroma() {
        sizes.push(second)?;
        sizes.push(second)?;
    }
    if recording.has_alpha() {
        sizes.push(first)?;
    }
    Ok(sizes)
}

/// The sizes of the first rows of a slice's planes, in coded order.
pub(crate) fn rows_of(
    alloc: Global,
    recording: &Recording,
    header: &SliceHeader,
    rows: usize,
) -> Result<Vec<PlaneSize>, AllocError>
    requires { IsHeaderWithin recording.now header.now }
    ensures { IfOk result (λ sizes. sizes.items ≡ rows_to rows (slice_sizes recording.now header.now)) }
{
    let sizes = sizes_of(alloc, recording, header)?;
    let mut first = Vec::with_capacity(alloc, sizes.len())?;
    for index in 0..sizes.len() {
        first.push(PlaneSize {
            width: sizes[index].width,
            height: rows,
        })?;
    }
    Ok(first)
}
