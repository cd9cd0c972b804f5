//! The planes of a picture in RGB, of its coded planes (RFC 9043, section 3.7.2).
ghost use Rattle.std.specs.Prelude.{◌≡◌, ◌<◌, IfOk, IfErr, length};
ghost use Rattle.ffv1_colors.specs.Planes.{AreColorsOf, IsColorsFaultOf, coded_planes, color_planes, coded_at};
ghost use Rattle.ffv1_colors.specs.Views.{coded_samples};

use crate::coding::{CodedColor, ColorCoding};
use std::alloc::{AllocError, AllocFailed, Global};

/// The coded planes of a picture in RGB, row by row: three of one size.
#[derive(Clone, Copy)]
pub struct CodedPlanes<'a> {
    pub luma: &'a [u32],
    pub blue_difference: &'a [u32],
    pub red_difference: &'a [u32],
}

/// The planes G, B and R of a picture, row by row.
#[derive(Debug, Drop)]
pub struct ColorPlanes {
    pub green: Vec<u16>,
    pub blue: Vec<u16>,
    pub red: Vec<u16>,
}

/// Why coded planes are those of no picture.
#[derive(Clone, Copy, Debug, PartialEq, Eq)]
pub enum ColorsFault {
    /// A sample is no number of the picture's bits: its place in scan order, and its plane, 0 for G, 1 for B, 2 for R.
    Outside { place: usize, plane: usize },
    /// An allocation of memory failed.
    Memory,
}

impl From<AllocError> for ColorsFault {
    ghost use Rattle.std.specs.Prelude.{◌≡◌};
    ghost use Rattle.ffv1_colors.specs.declared.planes.ColorsFault.TheVariants.{Memory};

    ghost from_gives = { λ error result. result ≡ Memory };

    fn from(_error: AllocError) -> ColorsFault {
        ColorsFault::Memory
    }
}

impl<T: Drop> From<AllocFailed<T>> for ColorsFault {
    ghost use Rattle.std.specs.Prelude.{◌≡◌};
    ghost use Rattle.ffv1_colors.specs.declared.planes.ColorsFault.TheVariants.{Memory};

    ghost from_gives = { λ error result. result ≡ Memory };

    fn from(_error: AllocFailed<T>) -> ColorsFault {
        ColorsFault::Memory
    }
}

impl CodedPlanes<'_> {
    /// The three coded samples of a place.
    #[inline(always)]
    fn at(&self, place: usize) -> CodedColor
        requires luma { place < length (coded_planes self.now).first }
        requires blue { place < length (coded_planes self.now).second }
        requires red { place < length (coded_planes self.now).third }
        ensures { coded_samples result ≡ coded_at (coded_planes self.now) place }
    {
        CodedColor {
            luma: self.luma[place],
            blue_difference: self.blue_difference[place],
            red_difference: self.red_difference[place],
        }
    }
}

impl ColorCoding {
    /// The planes of the picture of which these planes are coded. The three planes have one size.
    ///
    /// Refused with `Outside` at the first place, in scan order, where a sample is no number of the picture's bits, with the first such plane;
    /// returns `Memory` if an allocation fails. It takes two bytes a sample.
    pub fn planes_of(
        &self,
        alloc: Global,
        coded: &CodedPlanes<'_>,
    ) -> Result<ColorPlanes, ColorsFault>
        requires blue { length (coded_planes coded.now).second ≡ length (coded_planes coded.now).first }
        requires red { length (coded_planes coded.now).third ≡ length (coded_planes coded.now).first }
        ensures ok { IfOk result (λ planes. AreColorsOf self.now (coded_planes coded.now) (color_planes planes)) }
        ensures err { IfErr result (IsColorsFaultOf self.now (coded_planes coded.now)) }
    {
        // The invariant, which bounds the samples, is known where a field is used.
        let _offset = self.offset;
        let count = coded.luma.len();
        let mut green = Vec::with_capacity(alloc, count)?;
        let mut blue = Vec::with_capacity(alloc, count)?;
        let mut red = Vec::with_capacity(alloc, count)?;
        for place in 0..count {
            match self.color(&coded.at(place)) {
                Ok(color) => {
                    green.push(color.green as u16)?;
                    blue.push(color.blue as u16)?;
                    red.push(color.red as u16)?;
                }
                Err(outside) => {
                    let plane = outside.plane;
                    return Err(ColorsFault::Outside { place, plane });
                }
            }
        }
        Ok(ColorPlanes { green, blue, red })
    }
}
