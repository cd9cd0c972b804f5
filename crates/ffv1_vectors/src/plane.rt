//! A coded plane of a slice, and what is left to code of each of its samples (RFC 9043, sections 3.1 to 3.5 and 3.8).
ghost use Rattle.ffv1_rice.specs.States.{IsCodedDepth};

use crate::fault::MakeFault;
use ffv1_plane::{Neighbours, Tables};
use ffv1_range::Recording;
use ffv1_rice::fold;

/// How the samples of a recording are coded.
#[derive(Clone, Copy)]
pub struct Coding {
    /// The coded depth.
    pub depth: u32,
    /// Whether samples of 32768 and more are predicted as 65536 less (section 3.3).
    pub is_signed: bool,
    ghost deep: { IsCodedDepth depth },
}

/// The samples of a plane of a slice, row by row, and the quantization tables by which they are coded.
#[derive(Drop)]
pub struct CodedPlane<'a> {
    pub coding: Coding,
    /// As many as its width times its height; those that are left out count as 0.
    pub samples: Vec<u32>,
    /// The samples in a row.
    pub width: usize,
    /// The rows.
    pub height: usize,
    /// The group whose states it shares: 0 for the first plane, 1 for the second and third, 2 for alpha.
    pub group: usize,
    pub tables: Tables<'a>,
}

/// What is left to code of a sample: its context, and its difference from what is predicted, whose sign is turned where the context is
/// negative.
#[derive(Clone, Copy)]
pub struct Residual {
    pub context: i32,
    pub difference: i32,
}

/// Writes the samples of planes.
pub trait RowWriter {
    /// Begins a plane that others do not weave into.
    fn begin_plane(&mut self);

    /// Writes a row of a plane, counted from 0. `NotSelf` where no bytes say its samples, `Memory` if an allocation of memory failed; what was written then is of no
    /// use.
    fn row(&mut self, plane: &CodedPlane<'_>, y: usize) -> Result<(), MakeFault>;
}

/// How the samples of a recording are coded.
pub fn coding_of(recording: &Recording) -> Coding {
    recording.keeps_version_3();
    Coding {
        depth: recording.coded_depth(),
        is_signed: recording.depth() == 16 && !recording.is_rgb() && recording.coder() != 0,
    }
}

impl CodedPlane<'_> {
    /// What is left to code of the sample in a column and a row, which are counted from 0. It takes no memory.
    pub fn residual(&self, x: usize, y: usize) -> Residual {
        let near = self.near(x, y);
        let context = self.tables.context(&near);
        let sample = self.at(x.saturating_add(2), y.saturating_add(2));
        let difference = sample
            .cast_signed()
            .wrapping_sub(self.coding.prediction(&near));
        let turned = if context < 0 {
            difference.wrapping_neg()
        } else {
            difference
        };
        Residual {
            context,
            difference: fold(turned, self.coding.depth),
        }
    }

    /// The samples about a column and a row.
    fn near(&self, x: usize, y: usize) -> Neighbours {
        let (column, row) = (x.saturating_add(2), y.saturating_add(2));
        Neighbours {
            left: self.at(column - 1, row),
            top: self.at(column, row - 1),
            top_left: self.at(column - 1, row - 1),
            top_right: self.at(column.saturating_add(1), row - 1),
            left_of_left: self.at(column - 2, row),
            top_of_top: self.at(column, row - 2),
        }
    }

    /// The sample in a column and a row that are counted from two before the plane's first (section 3.1): above the plane, and two columns
    /// before it, is 0; a column before it the first sample of the row above; after it the last one of the row.
    fn at(&self, column: usize, row: usize) -> u32 {
        match column {
            0 => 0,
            1 => self.inside(0, row.saturating_sub(1)),
            _ => self.inside((column - 2).min(self.width.saturating_sub(1)), row),
        }
    }

    /// The same in a column of the plane.
    fn inside(&self, x: usize, row: usize) -> u32 {
        let Some(y) = row.checked_sub(2) else {
            return 0;
        };
        let place = y.wrapping_mul(self.width).wrapping_add(x);
        self.samples.get(place).copied().unwrap_or(0)
    }
}

impl Coding {
    /// The median of the sample to the left, the one above, and their sum less the one between them (section 3.3).
    fn prediction(&self, near: &Neighbours) -> i32 {
        let left = self.predicting(near.left);
        let top = self.predicting(near.top);
        let slope = left
            .wrapping_add(top)
            .wrapping_sub(self.predicting(near.top_left));
        slope.max(left.min(top)).min(left.max(top))
    }

    /// A sample as others are predicted of it.
    fn predicting(&self, sample: u32) -> i32 {
        let sample = sample.cast_signed();
        if self.is_signed && sample >= 32768 {
            sample - 65536
        } else {
            sample
        }
    }
}
