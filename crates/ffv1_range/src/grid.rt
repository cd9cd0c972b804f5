//! The grid of a frame: its tiles, counted row by row, and where each lies in each plane (RFC 9043, sections 4.6 and
//! 4.7). A grid is never finer than its frame, so each tile has at least one sample, and in luma the tiles cover the
//! frame, each place once.
ghost use Rattle.std.specs.Prelude.{◌≡◌, ◌+◌, ◌*◌, ◌≤◌, ◌<◌, ℕ};
ghost use Rattle.ffv1_bits.specs.Limits.{greatest_side, most_tiles};
ghost use Rattle.ffv1_range.specs.Tiles.{part_start, EachPlaceInOneTile, EachTileInFrame};

use crate::recording::Recording;
use std::marker::Model;

/// A rectangle of samples in a plane: the place of its first sample, counted from the plane's first column and row, and
/// its size.
#[derive(Clone, Copy, Debug, PartialEq, Eq)]
pub struct TileRect {
    /// Samples to the left of it.
    pub x: u32,
    /// Rows above it.
    pub y: u32,
    /// Samples in each of its rows.
    pub w: u32,
    /// Its rows.
    pub h: u32,
}

/// The tiles of a frame.
#[derive(Clone, Copy)]
pub struct Grid {
    width: u32,
    height: u32,
    across: u32,
    down: u32,
    has_chroma: bool,
    shift_h: u32,
    shift_v: u32,
}

impl Model for Grid {
    ghost use Rattle.ffv1_range.specs.Tiles.{GridValue, IsGrid};
    ghost use Rattle.ffv1_range.specs.Views.{grid_value, grid_fields};

    ghost Value = { GridValue };

    ghost view = { grid_value };

    ghost inverse = { grid_fields };

    ghost invariant = { λ g. IsGrid (grid_value g) };
}

impl Grid {
    ghost use Rattle.ffv1_range.specs.Tiles.{GridValue, IsGrid, tile_count, plane_count, tile_rect, tiles_rect, plane_rect, frame_rect, rect_in_plane, chroma_rect, grid_of};

    /// The grid of a recording's frames.
    pub(crate) fn of(recording: &Recording) -> Grid
        ensures { result ≡ grid_of recording.now.setup }
    {
        Grid {
            width: recording.width,
            height: recording.height,
            across: recording.counts.across,
            down: recording.counts.down,
            has_chroma: recording.shape.planes.has_chroma,
            shift_h: recording.shape.planes.shift_h,
            shift_v: recording.shape.planes.shift_v,
        }
    }

    /// The tiles in a row, at least 1.
    pub fn across(&self) -> u32
        ensures value { result ≡ self.now.across }
        ensures grid { IsGrid self.now }
    {
        self.across
    }

    /// The tiles in a column, at least 1.
    pub fn down(&self) -> u32
        ensures { result ≡ self.now.down }
    {
        self.down
    }

    /// All tiles: from 1 to `MOST_TILES`.
    pub fn tiles(&self) -> usize
        ensures value { result ≡ tile_count self.now }
        ensures some { 1 ≤ result }
        ensures few { result ≤ most_tiles }
    {
        (self.across * self.down) as usize
    }

    /// Where the tile of this number, counted from 0 row by row, lies in luma. The number has to be under `tiles`.
    pub fn tile(&self, index: usize) -> TileRect
        requires { index < tile_count self.now }
        ensures { result ≡ tile_rect self.now index }
    {
        let across = self.across();
        let column = index as u32 % across;
        let row = index as u32 / across;
        let x = part_start(self.width, across, column);
        let y = part_start(self.height, self.down, row);
        TileRect {
            x,
            y,
            w: part_start(self.width, across, column + 1) - x,
            h: part_start(self.height, self.down, row + 1) - y,
        }
    }

    /// Where some tiles lie in luma: so many across and down, from the tile in this column and row on. All have to be of the grid.
    pub fn rect(&self, column: u32, row: u32, columns: u32, rows: u32) -> TileRect
        requires columns { column + columns ≤ self.now.across }
        requires rows { row + rows ≤ self.now.down }
        ensures { result ≡ tiles_rect self.now column row columns rows }
    {
        let across = self.across();
        let x = part_start(self.width, across, column);
        let y = part_start(self.height, self.down, row);
        TileRect {
            x,
            y,
            w: part_start(self.width, across, column + columns) - x,
            h: part_start(self.height, self.down, row + rows) - y,
        }
    }

    /// Where a tile lies in a plane: 0 is luma, 1 and 2 are chroma. The plane has to be one of the frame.
    pub fn plane_rect(&self, index: usize, plane: usize) -> TileRect
        requires tile { index < tile_count self.now }
        requires plane { plane < plane_count self.now }
        ensures { result ≡ plane_rect self.now index plane }
    {
        self.in_plane(self.tile(index), plane)
    }

    /// The whole frame in a plane: its place is 0, 0. The plane has to be one of the frame.
    pub fn plane_size(&self, plane: usize) -> TileRect
        requires { plane < plane_count self.now }
        ensures { result ≡ frame_rect self.now plane }
    {
        let frame = TileRect {
            x: 0,
            y: 0,
            w: self.width,
            h: self.height,
        };
        self.in_plane(frame, plane)
    }

    /// A rectangle of luma in a plane.
    fn in_plane(&self, rect: TileRect, plane: usize) -> TileRect
        ensures { result ≡ rect_in_plane self.now plane rect }
    {
        if plane == 0 {
            rect
        } else {
            self.chroma_rect(rect)
        }
    }

    /// Where a rectangle of luma lies in a chroma plane of Y Cb Cr: its place is rounded down, its size up. Other planes, alpha among them,
    /// have it where luma has.
    pub fn chroma_rect(&self, rect: TileRect) -> TileRect
        ensures { result ≡ chroma_rect self.now rect }
    {
        TileRect {
            x: rect.x >> self.shift_h,
            y: rect.y >> self.shift_v,
            w: rect.w.div_ceil(1 << self.shift_h),
            h: rect.h.div_ceil(1 << self.shift_v),
        }
    }
}

/// Where a part begins of a length that is cut into so many parts.
fn part_start(len: u32, parts: u32, index: u32) -> u32
    requires some { 1 ≤ parts }
    requires few { parts ≤ most_tiles }
    requires among { index ≤ parts }
    requires short { len ≤ greatest_side }
    ensures { result ≡ part_start len parts index }
{
    index * len / parts
}

/// Each place of the frame lies in exactly one tile.
pub fn each_place_in_one_tile()
    ensures { EachPlaceInOneTile }
{}

/// Each tile has at least one sample, and lies in the frame.
pub fn each_tile_in_frame()
    ensures { EachTileInFrame }
{}
