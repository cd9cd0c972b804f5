//! What can be shown of a holding (own).
ghost use Rattle.std.specs.Prelude.{◌≡◌, IfOk, ◌<◌, List, Option};
ghost use Rattle.ffv1_range.specs.Tiles.{grid_of};
ghost use Rattle.ffv1_holding.specs.Reels.{reel_tiles};
ghost use Rattle.ffv1_picture.specs.Inner.Drawing.{HasSizes};
ghost use Rattle.ffv1_picture.specs.Frames.{planes_of, IsFrameOf};
ghost use Rattle.ffv1_picture.specs.WholePicture.{Planes};
ghost use Rattle.ffv1_picture.specs.Inner.PartialPictures.{ShowsTile};
ghost use Rattle.ffv1_picture.specs.PartialPictures.{ArePicturesOf, IsPartialPicture};
ghost use Rattle.ffv1_picture.specs.TileAlone.{TileAlone};

use crate::drawing::draw_slice;
use crate::frame::Frame;
use ffv1_holding::{Holding, TileState};
use ffv1_plane::TileFault;
use std::alloc::{AllocError, Global};

/// The partial picture of a holding.
#[derive(Drop)]
pub struct Partial {
    /// The samples of the decoded tiles, and 128 where none covers.
    pub frame: Frame,
    /// How each tile came out, in tile order.
    pub tiles: Vec<TileOutcome>,
}

/// How a tile of a partial picture came out.
#[derive(Clone, Copy, Debug, PartialEq, Eq)]
pub enum TileOutcome {
    /// Its settled slice spells a picture.
    Decoded {
        /// The bits of the slice after its last sample.
        spare_bits: usize,
    },
    /// No slice of it is held.
    Missing,
    /// So many slices have the least error status.
    Disputed(usize),
    /// Its settled slice spells no picture, for this reason, which is a `Code`: the slice has a header of the tile.
    Fault(TileFault),
}

/// The partial picture of a holding: the samples of its settled tiles. In chroma a sample that two decoded tiles cover is the
/// greater tile's, and one that none covers is 128.
///
/// It fails where memory is refused.
pub fn picture(alloc: Global, holding: &Holding) -> Result<Partial, AllocError>
    ensures partial { IfOk result (IsPartialPicture holding.now) }

    // The samples are those of the pictures that the settled slices spell, and of no others.
    ensures whole { (pictures : List (Option Planes)) → ArePicturesOf holding.now pictures
        → IfOk result (λ partial. IsFrameOf holding.now.reel.setup pictures partial.frame) }
{
    let setup = holding.setup();
    let mut frame = Frame::blank(alloc, setup)?;
    let count = setup.grid().tiles();
    let mut tiles = Vec::with_capacity(alloc, count)?;
    for tile in 0..count {
        tiles.push(draw_tile(alloc, holding, tile, &mut frame)?)?;
    }
    Ok(Partial { frame, tiles })
}

/// Draws a tile's settled slice, if it has one with a picture, and returns how the tile came out.
fn draw_tile(
    alloc: Global,
    holding: &Holding,
    tile: usize,
    frame: &mut Frame,
) -> Result<TileOutcome, AllocError>
    requires tile { tile < reel_tiles holding.now.reel }
    requires sizes { HasSizes (grid_of holding.now.reel.setup) (planes_of frame.old) }
    ensures { IfOk result (λ outcome. ShowsTile holding.now tile outcome frame.old frame.new) }
{
    match holding.state(tile) {
        TileState::Missing => Ok(TileOutcome::Missing),
        TileState::Disputed(slices) => Ok(TileOutcome::Disputed(slices)),
        TileState::Settled(slice) => {
            match draw_slice(alloc, holding.setup(), tile, slice, frame) {
                Ok(spare_bits) => Ok(TileOutcome::Decoded { spare_bits }),
                Err(TileFault::Memory) => Err(AllocError),
                Err(cause) => Ok(TileOutcome::Fault(cause)),
            }
        }
    }
}

/// What is shown of a tile depends on its own slices alone.
pub fn tile_alone()
    ensures { TileAlone }
{}
