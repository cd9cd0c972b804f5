//! Frames of samples (RFC 9043, section 4.7: planes in the order Y, Cb, Cr).
ghost use Rattle.std.specs.Prelude.{◌≡◌, IfOk, []};
ghost use Rattle.ffv1_picture.specs.Frames.{IsFrameOf};

use ffv1_range::Setup;
use std::alloc::{AllocError, Global};

/// A decoded frame, of 8 bits a sample.
#[derive(Drop)]
pub struct Frame {
    /// The luma samples in a row.
    pub width: u32,
    /// The rows of luma samples.
    pub height: u32,
    /// Whether planes Cb and Cr follow plane Y.
    pub has_chroma: bool,
    /// The logarithm to base 2 of a chroma sample's width in luma samples; 0 of a gray frame.
    pub shift_h: u32,
    /// The logarithm to base 2 of a chroma sample's height in luma samples; 0 of a gray frame.
    pub shift_v: u32,
    /// The samples of each plane, row by row.
    pub planes: Vec<Vec<u8>>,
}

impl Frame {
    /// A frame with no picture of any tile.
    pub(crate) fn blank(alloc: Global, setup: &Setup) -> Result<Frame, AllocError>
        ensures { IfOk result (IsFrameOf setup.now []) }
    {
        let grid = setup.grid();
        let count = if setup.has_chroma() { 3 } else { 1 };
        let mut planes = Vec::with_capacity(alloc, count)?;
        for plane in 0..count {
            let size = grid.plane_size(plane);
            planes.push(vec![in alloc; 128; size.w as usize * size.h as usize]?)?;
        }
        Ok(Frame {
            width: setup.width(),
            height: setup.height(),
            has_chroma: setup.has_chroma(),
            shift_h: setup.shift_h(),
            shift_v: setup.shift_v(),
            planes,
        })
    }
}
