//! The rows about the next sample of a plane (RFC 9043, sections 3.1 and 3.2).
//!
//! Three lines roll over the plane: the row that is read, the one above it and the one above that. A line has two cells
//! before its row and one after it, for the borders, which are written once a row.
ghost use Rattle.std.specs.Prelude.{◌≡◌, ℕ, ◌<◌, ◌≤◌, ◌+◌, ◌^◌, ◌%◌, [], ◌∷◌, ◌++◌, length, slice_index, IfOk, OnOk, ℤ};
ghost use Rattle.ffv1_bits.specs.Limits.{greatest_side};
ghost use Rattle.ffv1_rice.specs.States.{IsCodedDepth};
ghost use Rattle.ffv1_plane.specs.Samples.{Coding, neighbours_at, prediction_of};
ghost use Rattle.ffv1_plane.specs.Inner.Progress.{AreSkipped};
ghost use Rattle.ffv1_plane.specs.Inner.Rows.{left_of, IsLeftAsAbove, IsLeftOfNext};

use crate::neighbours::Neighbours;
use std::alloc::{AllocError, Global};
use std::marker::Model;
use std::mem;

/// The samples of a plane that were read, and the lines about the next one.
#[derive(Drop)]
pub(crate) struct Lines {
    /// The coded depth of the samples.
    depth: u32,
    width: usize,
    /// How many samples of the row were read.
    x: usize,
    /// The rows that are ended.
    rows: Vec<u32>,
    line: Vec<u32>,
    above: Vec<u32>,
    far_above: Vec<u32>,
}

impl Model for Lines {
    ghost use Rattle.ffv1_plane.specs.Inner.Rows.{RowsRead, samples_so_far, AreNearLines};

    ghost Value = { RowsRead };

    ghost view = { λ l. record { depth = l.depth; width = l.width; x = l.x; samples = samples_so_far l.x l.rows.items l.line.items } };

    ghost invariant = { λ l. AreNearLines l.depth l.width l.x l.rows.items l.line.items l.above.items l.far_above.items };
}

impl Lines {
    /// The lines about the first sample of a plane of this coded depth.
    pub(crate) fn new(
        alloc: Global,
        depth: u32,
        width: usize,
        height: usize,
    ) -> Result<Lines, AllocError>
        requires depth { IsCodedDepth depth }
        requires some { 1 ≤ width }
        requires width { width ≤ greatest_side }
        requires height { height ≤ greatest_side }
        ensures { IfOk result (λ lines. lines ≡ record { depth = depth; width = width; x = 0; samples = [] }) }
    {
        let rows = Vec::with_capacity(alloc, width * height)?;
        let line = vec![in alloc; 0; width + 3]?;
        let above = vec![in alloc; 0; width + 3]?;
        let far_above = vec![in alloc; 0; width + 3]?;
        Ok(Lines {
            depth,
            width,
            x: 0,
            rows,
            line,
            above,
            far_above,
        })
    }

    /// The coded depth of the plane.
    pub(crate) fn depth(&self) -> u32
        ensures value { result ≡ self.now.depth }
        ensures deep { IsCodedDepth self.now.depth }
    {
        self.depth
    }

    /// The width of the plane.
    pub(crate) fn width(&self) -> usize
        ensures value { result ≡ self.now.width }
        ensures some { 1 ≤ result }
        ensures wide { result ≤ greatest_side }
    {
        self.width
    }

    /// The column of the next sample; the width where the row's samples were all read.
    #[inline(always)]
    pub(crate) fn column(&self) -> usize
        ensures value { result ≡ self.now.x }
        ensures within { result ≤ self.now.width }
        ensures place { result < self.now.width → length self.now.samples % self.now.width ≡ result }
        ensures small { (s : ℕ) → slice_index self.now.samples s < 2 ^ self.now.depth }
    {
        self.x
    }

    /// The number of the next sample, in scan order.
    pub(crate) fn place(&self) -> usize
        ensures value { result ≡ length self.now.samples }
        ensures bound { result < 2 ^ 63 + 2 ^ 32 }
    {
        self.rows.len() + self.x
    }

    /// The sample to the left of the next one.
    #[inline(always)]
    pub(crate) fn left(&self) -> u32
        requires { self.now.x < self.now.width }
        ensures { result ≡ left_of self.now }
    {
        self.line[self.x + 1]
    }

    /// The samples about the next one, of which the one to the left is at hand: it was the last to be written.
    #[inline(always)]
    pub(crate) fn neighbours(&self, left: u32) -> Neighbours
        requires inside { self.now.x < self.now.width }
        requires left { left ≡ left_of self.now }
        ensures value { result ≡ neighbours_at self.now.width self.now.samples (length self.now.samples) }
        ensures small { prediction_of result < 2 ^ self.now.depth }
        ensures deep { IsCodedDepth self.now.depth }
    {
        Neighbours {
            left,
            top: self.above[self.x + 2],
            top_left: self.above[self.x + 1],
            top_right: self.above[self.x + 3],
            left_of_left: self.line[self.x],
            top_of_top: self.far_above[self.x + 2],
        }
    }

    /// The next sample of the row is this one.
    #[inline(always)]
    pub(crate) fn push(&mut self, sample: u32)
        requires inside { self.old.x < self.old.width }
        requires small { sample < 2 ^ self.old.depth }
        ensures value { self.new ≡ record { depth = self.old.depth; width = self.old.width; x = self.old.x + 1; samples = self.old.samples ++ sample ∷ [] } }
        ensures left { IsLeftOfNext self.new sample }
    {
        let x = self.x;
        self.line[x + 2] = sample;
        self.x = x + 1;
    }

    /// Skips the next samples of the row: each is what is predicted of it.
    pub(crate) fn skip(&mut self, count: usize)
        requires { self.old.x + count ≤ self.old.width }
        ensures depth { self.new.depth ≡ self.old.depth }
        ensures width { self.new.width ≡ self.old.width }
        ensures x { self.new.x ≡ self.old.x + count }
        ensures count { length self.new.samples ≡ length self.old.samples + count }
        ensures small { (s : ℕ) → slice_index self.new.samples s < 2 ^ self.old.depth }
        ensures skipped { (coding : Coding) → IsCodedDepth coding.depth
            → AreSkipped self.old.width coding self.old.samples self.new.samples count }
    {
        for done in 0..count {
            let near = self.neighbours(self.left());
            if near.left == near.top_left {
                self.copy_above(count - done);
                return;
            }
            self.push(near.prediction());
        }
        // Its contract says that the samples are small.
        let _column = self.column();
    }

    /// Skips the next samples of the row where the sample to the left is the one above it to the left: the one above is then
    /// predicted of each.
    fn copy_above(&mut self, count: usize)
        requires some { 1 ≤ count }
        requires count { self.old.x + count ≤ self.old.width }
        requires same { IsLeftAsAbove self.old }
        ensures depth { self.new.depth ≡ self.old.depth }
        ensures width { self.new.width ≡ self.old.width }
        ensures x { self.new.x ≡ self.old.x + count }
        ensures count { length self.new.samples ≡ length self.old.samples + count }
        ensures small { (s : ℕ) → slice_index self.new.samples s < 2 ^ self.old.depth }
        ensures skipped { (coding : Coding) → IsCodedDepth coding.depth
            → AreSkipped self.old.width coding self.old.samples self.new.samples count }
    {
        let from = self.x + 2;
        let end = from + count;
        self.line[from..end].copy_from_slice(&self.above[from..end]);
        self.x += count;
    }

    /// Ends the row, of which all samples were read: the lines move up by one, and the next row has its left border.
    pub(crate) fn end_row(&mut self) -> Result<(), AllocError>
        requires { self.old.x ≡ self.old.width }
        ensures { OnOk result (self.new ≡ record { depth = self.old.depth; width = self.old.width; x = 0; samples = self.old.samples }) }
    {
        self.rows.extend_from_slice(&self.line[2..self.width + 2])?;
        self.line[self.width + 2] = self.line[self.width + 1];
        mem::swap(&mut self.far_above, &mut self.above);
        mem::swap(&mut self.above, &mut self.line);
        self.line[1] = self.above[2];
        self.x = 0;
        Ok(())
    }

    /// The samples of a plane whose rows are ended.
    pub(crate) fn into_rows(self) -> Vec<u32>
        requires { self.x ≡ 0 }
        ensures { result.items ≡ self.samples }
    {
        let Lines {
            depth: _,
            width: _,
            x: _,
            rows,
            line: _,
            above: _,
            far_above: _,
        } = self;
        rows
    }
}
