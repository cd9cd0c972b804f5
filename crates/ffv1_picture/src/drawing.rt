//! Drawing the pictures of tiles onto a frame (RFC 9043, section 4.6), in tile order: a later tile stands over an earlier one
//! where the chroma of both covers a place (own).
ghost use Rattle.std.specs.Prelude.{◌≡◌, ◌*◌, ◌+◌, ◌≤◌, ◌<◌, ◌⊎◌, length, map, IfOk, IfErr, OnErr};
ghost use Rattle.ffv1_bits.specs.Limits.{slice_limit};
ghost use Rattle.ffv1_range.specs.Tiles.{grid_of, tile_count};
ghost use Rattle.ffv1_slice.specs.Slices.{content_of};
ghost use Rattle.ffv1_picture.specs.Inner.Drawing.{HasSizes, HasTileSizes, DrawsPicture, DrawsSlice};
ghost use Rattle.ffv1_picture.specs.Drawn.{Draws, FitsIn};
ghost use Rattle.ffv1_picture.specs.Frames.{planes_of};
ghost use Rattle.ffv1_picture.specs.TilePictures.{IsUnreadable};
ghost use Rattle.ffv1_plane.specs.declared.tile.TileFault.TheVariants.{Memory};

use crate::frame::Frame;
use ffv1_plane::{TileFault, decode_tile};
use ffv1_range::{Grid, Setup, TileRect};
use ffv1_slice::content_of;
use std::alloc::Global;

/// Decodes a slice of a tile, draws its picture onto a frame, and returns how many bits of it are spare. After a refusal the
/// frame is unchanged.
pub(crate) fn draw_slice(
    alloc: Global,
    setup: &Setup,
    tile: usize,
    slice: &[u8],
    frame: &mut Frame,
) -> Result<usize, TileFault>
    requires tile { tile < tile_count (grid_of setup.now) }
    requires footer { 8 ≤ length slice.now }
    requires short { length slice.now ≤ slice_limit }
    requires sizes { HasSizes (grid_of setup.now) (planes_of frame.old) }
    ensures ok { IfOk result (DrawsSlice setup.now tile (content_of slice.now) frame.old frame.new) }
    ensures fault { IfErr result (λ cause. (cause ≡ Memory) ⊎ IsUnreadable setup.now tile (content_of slice.now) cause) }
    ensures err { OnErr result (frame.new ≡ frame.old) }
{
    let picture = decode_tile(alloc, setup, tile, content_of(slice))?;
    draw_picture(&mut frame.planes, &setup.grid(), tile, &picture.planes);
    Ok(picture.spare_bits)
}

/// Draws the picture of a tile onto the planes of a frame.
fn draw_picture(planes: &mut [Vec<u8>], grid: &Grid, tile: usize, picture: &[Vec<u8>])
    requires tile { tile < tile_count grid.now }
    requires sizes { HasSizes grid.now (map (λ plane. plane.items) planes.old) }
    requires picture { HasTileSizes grid.now tile (map (λ plane. plane.items) picture.now) }
    ensures { DrawsPicture grid.now tile (map (λ plane. plane.items) picture.now) (map (λ plane. plane.items) planes.old)
        (map (λ plane. plane.items) planes.new) }
{
    // A grid is never finer than its frame.
    let _across = grid.across();
    for plane in 0..planes.len() {
        let width = grid.plane_size(plane).w as usize;
        let rect = grid.plane_rect(tile, plane);
        draw_samples(&mut planes[plane], width, rect, &picture[plane]);
    }
}

/// Draws the samples of a rectangle, row by row, onto a plane of this width (RFC 9043, section 4.6). The plane's other samples are unchanged.
pub fn draw_samples<T: Copy>(plane: &mut [T], width: usize, rect: TileRect, samples: &[T])
    requires inside { FitsIn width (length plane.old) rect }
    requires samples { length samples.now ≡ rect.w * rect.h }
    ensures { Draws width rect samples.now plane.old plane.new }
{
    let (x, y, w) = (rect.x as usize, rect.y as usize, rect.w as usize);
    for row in 0..rect.h as usize {
        let to = (y + row) * width + x;
        let from = row * w;
        plane[to..to + w].copy_from_slice(&samples[from..from + w]);
    }
}
