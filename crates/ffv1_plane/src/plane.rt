//! A plane, sample by sample and run by run (RFC 9043, sections 3.8.2 and 4.8).
//!
//! A `PlaneReader` has a state for each context of its tables.
ghost use Rattle.std.specs.Prelude.{◌≡◌, ◌<◌, ◌≤◌, ◌+◌, length, List, Bool, OnOk, IfOk, IfErr, nat_abs, true};
ghost use Rattle.ffv1_bits.specs.Limits.{greatest_side};
ghost use Rattle.ffv1_range.specs.Setup.{set_contexts, set_entry};
ghost use Rattle.ffv1_rice.specs.States.{IsCodedDepth};
ghost use Rattle.ffv1_plane.specs.Samples.{IsPlaneOfSize, coding_at, neighbours_at, context_of};
ghost use Rattle.ffv1_plane.specs.Inner.Progress.{IsContinued, RowStart, IsSampleRead, IsPlaneRead};
ghost use Rattle.ffv1_plane.specs.Inner.Halts.{IsSampleHalted, IsDecodingHalted};
ghost use Rattle.ffv1_plane.specs.Inner.Rows.{left_of, IsLeftOfNext};
ghost use Rattle.ffv1_plane.specs.Inner.Readers.{coding_of, HasStates, IsSamePlane, HasRead, HasReadRow, IsHaltedAt};

use crate::lines::Lines;
use crate::neighbours::{Neighbours, sample_of};
use crate::run::read_run;
use crate::tables::Tables;
use ffv1_bits::Bits;
use ffv1_rice::{BYTE_DEPTH, CodeFault, RunIndex, VlcState};
use std::alloc::Global;

/// Why a plane can't be read.
#[derive(Clone, Copy)]
pub(crate) enum PlaneFault {
    /// No word or code can be read. The sample, in scan order, is that at which it begins.
    Code { fault: CodeFault, sample: usize },
    /// An allocation of memory failed.
    Memory,
}

/// A plane that is read: its lines, the tables and the states of its contexts, the run index, and the bits that are left.
#[derive(Drop)]
pub(crate) struct PlaneReader<'t, 's, 'b> {
    pub(crate) lines: Lines,
    pub(crate) tables: &'t Tables<'s>,
    pub(crate) states: Vec<VlcState>,
    pub(crate) index: RunIndex,
    pub(crate) bits: Bits<'b>,
}

impl PlaneReader<'_, '_, '_> {
    /// Reads the next sample, a run's level or a scalar, by one code, and returns it.
    #[inline(always)]
    fn read_code(
        &mut self,
        near: &Neighbours,
        context: i32,
        depth: u32,
        level: bool,
    ) -> Result<u32, PlaneFault>
        requires depth { depth ≡ self.old.lines.depth }
        requires inside { self.old.lines.x < self.old.lines.width }
        requires near { near.now ≡ neighbours_at self.old.lines.width self.old.lines.samples (length self.old.lines.samples) }
        requires context { context ≡ context_of (coding_of self.old).entry near.now }
        requires below { nat_abs context < length self.old.states.items }
        ensures same { IsSamePlane self.old self.new }
        ensures index { self.new.index ≡ self.old.index }
        ensures moved { OnOk result (self.new.lines.x ≡ self.old.lines.x + 1) }
        ensures left { IfOk result (IsLeftOfNext self.new.lines) }
        ensures read { OnOk result (IsSampleRead self.old.lines.width
            (coding_of self.old) level self.old.lines.samples self.old.states.items self.old.bits.left
            self.new.lines.samples self.new.states.items self.new.bits.left) }
        ensures err { IfErr result (IsSampleHalted self.old.lines.width
            (coding_of self.old) level self.old.lines.samples self.old.states.items self.old.bits.left) }
    {
        // Its contract says that the depth is a coded depth.
        let _depth = self.lines.depth();
        // Before the code is read: one number stays at hand then, and not the samples about it.
        let prediction = near.prediction();
        let state = &mut self.states[context.unsigned_abs() as usize];
        let difference = match state.decode_at(&mut self.bits, depth, level) {
            Ok(difference) => difference,
            Err(fault) => {
                let sample = self.lines.place();
                return Err(PlaneFault::Code { fault, sample });
            }
        };
        let sample = sample_of(context, prediction, difference, depth);
        self.lines.push(sample);
        Ok(sample)
    }

    /// Reads the level after a run, and returns its sample.
    #[inline(always)]
    fn read_level(&mut self, depth: u32) -> Result<u32, PlaneFault>
        requires states { HasStates self.old }
        requires depth { depth ≡ self.old.lines.depth }
        requires inside { self.old.lines.x < self.old.lines.width }
        ensures same { IsSamePlane self.old self.new }
        ensures index { self.new.index ≡ self.old.index }
        ensures moved { OnOk result (self.new.lines.x ≡ self.old.lines.x + 1) }
        ensures left { IfOk result (IsLeftOfNext self.new.lines) }
        ensures read { OnOk result (IsSampleRead self.old.lines.width
            (coding_of self.old) true self.old.lines.samples self.old.states.items self.old.bits.left
            self.new.lines.samples self.new.states.items self.new.bits.left) }
        ensures err { IfErr result (IsSampleHalted self.old.lines.width
            (coding_of self.old) true self.old.lines.samples self.old.states.items self.old.bits.left) }
    {
        let near = self.lines.neighbours(self.lines.left());
        let context = self.tables.context(&near);
        self.read_code(&near, context, depth, true)
    }

    /// Reads a scalar, or a run with the level that ends it, after the sample to the left, and returns the last sample:
    /// it stays at hand, where a look into the line would wait for it. After a run up to the line's end it is any.
    #[inline(always)]
    fn read_next(&mut self, left: u32, depth: u32) -> Result<u32, PlaneFault>
        requires states { HasStates self.old }
        requires depth { depth ≡ self.old.lines.depth }
        requires inside { self.old.lines.x < self.old.lines.width }
        requires left { left ≡ left_of self.old.lines }
        ensures same { IsSamePlane self.old self.new }
        ensures left { IfOk result (IsLeftOfNext self.new.lines) }
        ensures read { OnOk result ((start : RowStart) (whole : List Bool) → HasRead start whole self.old → HasRead start whole self.new) }
        ensures continued { OnOk result (IsContinued self.old.lines.samples self.new.lines.samples) }
        ensures more { OnOk result (self.old.lines.x < self.new.lines.x) }
        ensures count { OnOk result (length self.new.lines.samples + self.old.lines.x ≡ length self.old.lines.samples + self.new.lines.x) }
        ensures err { IfErr result (IsHaltedAt self.old) }
    {
        let near = self.lines.neighbours(left);
        let context = self.tables.context(&near);
        if context != 0 {
            return self.read_code(&near, context, depth, false);
        }
        let most = self.lines.width() - self.lines.column();
        let count = match read_run(&mut self.index, &mut self.bits, most as u32) {
            Ok(count) => count as usize,
            Err(cut) => {
                let sample = self.lines.place() + cut.skipped as usize;
                let fault = cut.fault;
                return Err(PlaneFault::Code { fault, sample });
            }
        };
        self.lines.skip(count);
        if count < most {
            self.read_level(depth)
        } else {
            Ok(left)
        }
    }

    /// Reads a row, from its first sample, at the coded depth of the plane.
    #[inline(always)]
    fn read_row(&mut self, depth: u32) -> Result<(), PlaneFault>
        requires states { HasStates self.old }
        requires depth { depth ≡ self.old.lines.depth }
        requires start { self.old.lines.x ≡ 0 }
        ensures same { IsSamePlane self.old self.new }
        ensures read { OnOk result (HasReadRow self.old self.new) }
        ensures err { IfErr result (IsHaltedAt self.old) }
    {
        let width = self.lines.width();
        let mut left = self.lines.left();
        while self.lines.column() < width {
            left = self.read_next(left, depth)?;
        }
        Ok(())
    }

    /// Reads a row as `read_row` does, by a body of its own for samples of 8 bits, and for those of 9 bits, of RGB.
    pub(crate) fn read_row_at(&mut self) -> Result<(), PlaneFault>
        requires states { HasStates self.old }
        requires start { self.old.lines.x ≡ 0 }
        ensures same { IsSamePlane self.old self.new }
        ensures read { OnOk result (HasReadRow self.old self.new) }
        ensures err { IfErr result (IsHaltedAt self.old) }
    {
        let depth = self.lines.depth();
        if depth == BYTE_DEPTH {
            return self.read_row(BYTE_DEPTH);
        }
        if depth == 9 {
            return self.read_row(9);
        }
        self.read_row(depth)
    }
}

/// Reads a plane of this coded depth and size, by a body of its own where the depth is a constant: the codes are read faster there. The states
/// are those that planes before it have left, and come back as this one leaves them; bits after its last sample are left.
#[inline(always)]
pub(crate) fn decode_plane(
    alloc: Global,
    depth: u32,
    width: usize,
    height: usize,
    tables: &Tables,
    states: Vec<VlcState>,
    bits: &mut Bits,
) -> Result<(Vec<u32>, Vec<VlcState>), PlaneFault>
    requires depth { IsCodedDepth depth }
    requires some { 1 ≤ width }
    requires width { width ≤ greatest_side }
    requires height { height ≤ greatest_side }
    requires contexts { length states.items ≡ set_contexts tables.now.setup tables.now.set }
    ensures len { IfOk result (λ read. length read.1.items ≡ length states.items) }
    ensures size { IfOk result (λ read. IsPlaneOfSize depth width height read.0.items) }
    ensures read { IfOk result (λ read. IsPlaneRead width height (coding_at depth (set_entry tables.now.setup tables.now.set))
        states.items bits.old.left read.0.items read.1.items bits.new.left) }
    ensures err { IfErr result (IsDecodingHalted width height (coding_at depth (set_entry tables.now.setup tables.now.set))
        states.items bits.old.left) }
{
    let Ok(lines) = Lines::new(alloc, depth, width, height) else {
        return Err(PlaneFault::Memory);
    };
    let mut reader = PlaneReader {
        lines,
        tables,
        states,
        index: RunIndex::start(),
        bits: bits.fork(),
    };
    for _ in 0..height {
        reader.read_row(depth)?;
        let Ok(()) = reader.lines.end_row() else {
            return Err(PlaneFault::Memory);
        };
    }
    let PlaneReader {
        lines,
        tables: _,
        states,
        index: _,
        bits: later,
    } = reader;
    *bits = later;
    Ok((lines.into_rows(), states))
}
