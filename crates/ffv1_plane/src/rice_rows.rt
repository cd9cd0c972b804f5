//! Golomb-Rice rows of planes that are read together (RFC 9043, sections 3.8.2 and 4.7).
//!
//! A row takes the lines of its plane and gives them back: so it is read as a row of a plane that is read alone.
ghost use Rattle.std.specs.Prelude.{◌≡◌, ◌<◌, ◌^◌, ℕ, IfOk, IfErr, OnOk, length, slice_index};
ghost use Rattle.ffv1_range.specs.Setup.{set_contexts, set_entry};
ghost use Rattle.ffv1_plane.specs.Samples.{coding_at};
ghost use Rattle.ffv1_plane.specs.Inner.RangeRows.{IsSameShape};
ghost use Rattle.ffv1_plane.specs.Inner.RiceRows.{row_place, IsCodeRowRead, IsRowCodesFaultOf};

use crate::lines::Lines;
use crate::plane::{PlaneFault, PlaneReader};
use crate::tables::Tables;
use ffv1_bits::Bits;
use ffv1_rice::{CodeFault, RunIndex, VlcState};
use std::mem;

/// What goes on from line to line, of any plane: the bits that are left, and the run index.
#[derive(Drop)]
pub(crate) struct RowCodes<'b> {
    pub(crate) bits: Bits<'b>,
    pub(crate) index: RunIndex,
    /// Lines that stand for those of a plane while it is read.
    pub(crate) spare: Lines,
}

/// Why a row can't be read.
#[derive(Clone, Copy)]
pub(crate) enum RowCodesFault {
    /// No word or code of the sample of this column can be read.
    Sample { fault: CodeFault, x: usize },
    /// An allocation of memory failed.
    Memory,
}

/// Reads a row of a plane and ends it. The states are those of the plane's group, which come back as the row leaves them.
pub(crate) fn read_rice_row<'b>(
    codes: RowCodes<'b>,
    states: Vec<VlcState>,
    lines: &mut Lines,
    tables: &Tables,
) -> Result<(RowCodes<'b>, Vec<VlcState>), RowCodesFault>
    requires start { lines.old.x ≡ 0 }
    requires states { length states.items ≡ set_contexts tables.now.setup tables.now.set }
    ensures same { OnOk result (IsSameShape lines.old lines.new) }
    ensures count { IfOk result (λ after. length after.1.items ≡ length states.items) }
    ensures ended { OnOk result (lines.new.x ≡ 0) }
    ensures small { OnOk result ((s : ℕ) → slice_index lines.new.samples s < 2 ^ lines.old.depth) }
    ensures read { IfOk result (λ after. IsCodeRowRead lines.old.width
        (coding_at lines.old.depth (set_entry tables.now.setup tables.now.set))
        (row_place codes.entry states.items lines.old.samples) (row_place after.0 after.1.items lines.new.samples)) }
    ensures err { IfErr result (IsRowCodesFaultOf lines.old.width
        (coding_at lines.old.depth (set_entry tables.now.setup tables.now.set))
        (row_place codes.entry states.items lines.old.samples)) }
{
    let RowCodes { bits, index, spare } = codes;
    let mut taken = spare;
    mem::swap(lines, &mut taken);
    let start = taken.place();
    // Its contract says that the samples are small.
    let _column = taken.column();
    let mut reader = PlaneReader {
        lines: taken,
        tables,
        states,
        index,
        bits,
    };
    match reader.read_row_at() {
        Ok(()) => {}
        Err(PlaneFault::Code { fault, sample }) => {
            let x = sample - start;
            return Err(RowCodesFault::Sample { fault, x });
        }
        Err(PlaneFault::Memory) => return Err(RowCodesFault::Memory),
    }
    let Ok(()) = reader.lines.end_row() else {
        return Err(RowCodesFault::Memory);
    };
    let PlaneReader {
        lines: mut spare,
        tables: _,
        states,
        index,
        bits,
    } = reader;
    mem::swap(lines, &mut spare);
    Ok((RowCodes { bits, index, spare }, states))
}
