//! Which tiles slices have: each tile of a frame is in one and only in one (RFC 9043, section 5). Tiles are counted row by row.
ghost use Rattle.std.specs.Prelude.{◌≡◌, ◌+◌, ◌*◌, ◌≤◌, ◌<◌, ℕ, length};
ghost use Rattle.ffv1_layout.specs.Layout.{HasTile};
ghost use Rattle.ffv1_layout.specs.Inner.Marking.{AreFree, AreMarked, IsFrom, FitsGrid, IsFirstFree};

use ffv1_range::SliceHeader;

/// Whether none of so many tiles is marked, from the first on.
fn are_free(marks: &[bool], first: usize, count: usize) -> bool
    requires { first + count ≤ length marks.now }
    ensures { AreFree marks.now (IsFrom first count) result }
{
    for tile in first..first + count {
        if marks[tile] {
            return false;
        }
    }
    true
}

/// Marks so many tiles, from the first on.
fn mark(marks: &mut [bool], first: usize, count: usize)
    requires { first + count ≤ length marks.old }
    ensures { AreMarked (IsFrom first count) marks.old marks.new }
{
    for tile in first..first + count {
        marks[tile] = true;
    }
}

/// The least tile that is not marked.
pub(crate) fn first_free(marks: &[bool]) -> Option<usize>
    ensures { IsFirstFree marks.now result }
{
    for tile in 0..marks.len() {
        if !marks[tile] {
            return Some(tile);
        }
    }
    None
}

/// Whether none of a slice's tiles is marked.
pub(crate) fn is_free(marks: &[bool], across: usize, header: &SliceHeader) -> bool
    requires { FitsGrid across (length marks.now) header.now }
    ensures { AreFree marks.now (HasTile across header.now) result }
{
    let (x, y) = (header.x as usize, header.y as usize);
    for row in y..y + header.h as usize {
        if !are_free(marks, row * across + x, header.w as usize) {
            return false;
        }
    }
    true
}

/// Marks a slice's tiles.
pub(crate) fn mark_slice(marks: &mut [bool], across: usize, header: &SliceHeader)
    requires { FitsGrid across (length marks.old) header.now }
    ensures { AreMarked (HasTile across header.now) marks.old marks.new }
{
    let (x, y) = (header.x as usize, header.y as usize);
    for row in y..y + header.h as usize {
        mark(marks, row * across + x, header.w as usize);
    }
}
