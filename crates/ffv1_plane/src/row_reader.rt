//! One reader of the lines of a slice, over what reads a row of them (RFC 9043, section 4.7).
ghost use Rattle.std.specs.Prelude.{◌<◌, ◌≤◌, ℕ, IfOk, IfErr, OnOk, length};
ghost use Rattle.ffv1_plane.specs.Lines.{Line};
ghost use Rattle.ffv1_plane.specs.RangeSlices.{lines_of};
ghost use Rattle.ffv1_plane.specs.Inner.RangeLines.{rows_at};
ghost use Rattle.ffv1_plane.specs.Inner.Planes.{IsFresh};
ghost use Rattle.ffv1_plane.specs.Inner.Orders.{line_of};
ghost use Rattle.ffv1_plane.specs.Inner.InTurn.{IsNextLine, HasGrownBy, HaveGrown, AreReadInTurn, AreCutInTurn};
ghost use Rattle.ffv1_plane.specs.declared.planes.SlicePlanes.{SlicePlanes};

use crate::coded_order::{CodedOrder, PlaneRow};
use crate::planes::{PlaneSize, SlicePlanes};

/// What reads a row of a plane: its place in a slice's content, and the states of each group.
pub(crate) trait RowReader: Drop {
    /// Why a row can't be read.
    type Fault: Drop;

    /// It can read on.
    ghost can_read: { SlicePlanes → Self → Type 0 };

    /// A line was read, from planes and a reader to others.
    ghost reads: { SlicePlanes → Self → Line → SlicePlanes → Self → Type 0 };

    /// Why a line can't be read.
    ghost refuses: { SlicePlanes → Self → Line → Self.Fault → Type 0 };

    /// Reads the next row of a plane, and ends it.
    fn read_row(self, planes: &mut SlicePlanes, line: PlaneRow) -> Result<Self, Self::Fault>
    where
        Self: Sized,
        requires can { can_read planes.old self }
        requires next { IsNextLine planes.old.lines.items (line_of line) }
        ensures grown { OnOk result (HasGrownBy (line_of line) planes.old.lines.items planes.new.lines.items) }
        ensures can { IfOk result (can_read planes.new) }
        ensures read { IfOk result (reads planes.old self (line_of line) planes.new) }
        ensures err { IfErr result (refuses planes.old self (line_of line)) };
}

/// Reads all lines of new planes of these sizes in coded order.
pub(crate) fn read_lines<R: RowReader>(
    planes: &mut SlicePlanes,
    reader: R,
    is_rgb: bool,
    sizes: &[PlaneSize],
) -> Result<R, R::Fault>
    requires can { R.can_read planes.old reader }
    requires inside { length sizes.now ≤ length planes.old.lines.items }
    requires fresh { (p : ℕ) → p < length sizes.now → IsFresh (rows_at planes.old.lines.items p) }
    ensures grown { OnOk result (HaveGrown (lines_of is_rgb sizes.now) planes.old.lines.items planes.new.lines.items) }
    ensures read { IfOk result (AreReadInTurn R.reads (lines_of is_rgb sizes.now) planes.old reader planes.new) }
    ensures err { IfErr result (AreCutInTurn R.reads R.refuses (lines_of is_rgb sizes.now) planes.old reader) }
{
    let mut reader = reader;
    for line in CodedOrder::new(is_rgb, sizes) {
        reader = reader.read_row(planes, line)?;
    }
    Ok(reader)
}
