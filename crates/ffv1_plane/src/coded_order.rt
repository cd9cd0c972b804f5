//! The lines of the planes of a slice, one after the other in coded order (RFC 9043, section 4.7).
ghost use Rattle.std.specs.Prelude.{◌≡◌};
ghost use Rattle.ffv1_plane.specs.RangeSlices.{height_at, lines_of};
ghost use Rattle.ffv1_plane.specs.Inner.Orders.{line_of, turn_length, turn_line, turn_count, lines_left};

use crate::planes::PlaneSize;

/// A row of a plane. Planes are counted from 0 in coded order, and rows from the slice's first.
#[derive(Clone, Copy)]
pub(crate) struct PlaneRow {
    pub(crate) plane: usize,
    pub(crate) row: usize,
}

/// The lines that are left. They come in turns: of RGB a turn is a row of each plane, of other pictures all rows of a plane.
#[derive(Drop)]
pub(crate) struct CodedOrder<'z> {
    is_rgb: bool,
    sizes: &'z [PlaneSize],
    /// How many turns are over.
    turn: usize,
    /// How many lines of the next turn are over.
    within: usize,
}

/// The height of a plane, 0 where there is no such plane.
fn height_of(sizes: &[PlaneSize], plane: usize) -> usize
    ensures { result ≡ height_at sizes.now plane }
{
    match sizes.get(plane) {
        Some(size) => size.height,
        None => 0,
    }
}

impl<'z> CodedOrder<'z> {
    /// All lines of planes of these sizes.
    pub(crate) fn new(is_rgb: bool, sizes: &'z [PlaneSize]) -> CodedOrder<'z>
        ensures { lines_left result ≡ lines_of is_rgb sizes.now }
    {
        CodedOrder {
            is_rgb,
            sizes,
            turn: 0,
            within: 0,
        }
    }
}

impl CodedOrder<'_> {
    /// How many turns there are.
    fn turns(&self) -> usize
        ensures { result ≡ turn_count self.now.is_rgb self.now.sizes.now }
    {
        if self.is_rgb {
            height_of(self.sizes, 0)
        } else {
            self.sizes.len()
        }
    }

    /// How many lines the next turn has.
    fn turn_length(&self) -> usize
        ensures { result ≡ turn_length self.now.is_rgb self.now.sizes.now self.now.turn }
    {
        if self.is_rgb {
            self.sizes.len()
        } else {
            height_of(self.sizes, self.turn)
        }
    }

    /// The next line of the next turn.
    fn line(&self) -> PlaneRow
        ensures { line_of result ≡ turn_line self.now.is_rgb self.now.turn self.now.within }
    {
        if self.is_rgb {
            PlaneRow {
                plane: self.within,
                row: self.turn,
            }
        } else {
            PlaneRow {
                plane: self.turn,
                row: self.within,
            }
        }
    }
}

impl Iterator for CodedOrder<'_> {
    type Item = PlaneRow;

    ghost use Rattle.std.specs.Iterator.{YieldsFirstBy, item_count};
    ghost use Rattle.ffv1_plane.specs.Inner.Orders.{line_of, lines_left};

    ghost next_gives = { YieldsFirstBy line_of lines_left };

    ghost remaining = { item_count lines_left };

    fn next(&mut self) -> Option<PlaneRow> {
        while self.turn < self.turns() {
            if self.within < self.turn_length() {
                let line = self.line();
                self.within += 1;
                return Some(line);
            }
            self.turn += 1;
            self.within = 0;
        }
        None
    }
}
