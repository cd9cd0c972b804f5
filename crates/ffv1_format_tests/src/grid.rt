//! Tiles whose chroma overlaps, or leaves a column to no tile.
ghost use Rattle.std.specs.Prelude.{◌≡◌};
ghost use Rattle.ffv1_range.specs.Tiles.{plane_count, grid_of};

use crate::frames::setup_of;
use ffv1_range::{Setup, TileRect};
use ffv1_vectors::SuiteTables;
use std::alloc::Global;

/// A rectangle of these columns and rows.
fn rect(x: u32, y: u32, w: u32, h: u32) -> Option<TileRect> {
    Some(TileRect { x, y, w, h })
}

/// How many tiles the grid has across, down and in all.
fn counts(setup: &Setup) -> (u32, u32, usize) {
    let grid = setup.grid();
    (grid.across(), grid.down(), grid.tiles())
}

/// How many planes the frames have.
fn planes(setup: &Setup) -> usize
    ensures { result ≡ plane_count (grid_of setup.now) }
{
    if setup.has_chroma() { 3 } else { 1 }
}

/// Where a tile lies in luma, if the frames have it.
fn tile_of(setup: &Setup, tile: usize) -> Option<TileRect> {
    let grid = setup.grid();
    if tile < grid.tiles() {
        Some(grid.tile(tile))
    } else {
        None
    }
}

/// Where a tile lies in a plane, if the frames have both.
fn plane_rect_of(setup: &Setup, tile: usize, plane: usize) -> Option<TileRect> {
    let grid = setup.grid();
    if tile < grid.tiles() && plane < planes(setup) {
        Some(grid.plane_rect(tile, plane))
    } else {
        None
    }
}

/// The size of a plane, if the frames have it.
fn plane_size_of(setup: &Setup, plane: usize) -> Option<TileRect> {
    if plane < planes(setup) {
        Some(setup.grid().plane_size(plane))
    } else {
        None
    }
}

/// Whether a setup of 6 x 2 samples has chroma rectangles that overlap.
fn overlaps(setup: &Setup) -> bool {
    let tiles = [tile_of(setup, 0), tile_of(setup, 1)];
    let planes = [
        plane_rect_of(setup, 0, 1),
        plane_rect_of(setup, 1, 2),
        plane_size_of(setup, 1),
    ];
    let wanted = (
        (2, 1, 2),
        [rect(0, 0, 3, 2), rect(3, 0, 3, 2)],
        [rect(0, 0, 2, 1), rect(1, 0, 2, 1), rect(0, 0, 3, 1)],
    );
    let chroma = tile_of(setup, 1).map(|tile| setup.grid().chroma_rect(tile));
    (counts(setup), tiles, planes) == wanted && chroma == rect(1, 0, 2, 1)
}

/// Whether a setup of 3 x 2 samples has a chroma column in no tile.
fn leaves_a_column(setup: &Setup) -> bool {
    let planes = [
        plane_rect_of(setup, 0, 1),
        plane_rect_of(setup, 1, 1),
        plane_size_of(setup, 2),
    ];
    planes == [rect(0, 0, 1, 1), rect(0, 0, 1, 1), rect(0, 0, 2, 1)]
}

/// Whether frames of this width have such rectangles, or such a column.
fn is_shaped(alloc: Global, width: u32) -> bool {
    match setup_of(alloc, SuiteTables::OneRun, Some((1, 1)), (2, 1), (width, 2)) {
        Ok(setup) if width == 6 => overlaps(&setup),
        Ok(setup) => leaves_a_column(&setup),
        Err(_) => false,
    }
}

#[test]
fn chroma_rectangles_overlap(rt: HostRuntime) {
    assert!(rt; is_shaped(rt.alloc(), 6));
}

#[test]
fn chroma_column_in_no_tile(rt: HostRuntime) {
    assert!(rt; is_shaped(rt.alloc(), 3));
}
