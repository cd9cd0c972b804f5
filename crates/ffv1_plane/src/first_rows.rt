//! Laws: the first rows of an RGB slice are coded as if it ended with them (RFC 9043, section 4.7).
ghost use Rattle.ffv1_plane.specs.FirstRows.{RowsBeforeAreSpelled, FirstRowsAreSpelled, RowsBeforeAreCoded, FirstRowsAreCoded};

/// Where Golomb-Rice bits are stuck at a row of an RGB slice, they begin with planes of the rows above it; where they begin with planes, they begin with the first
/// rows of these.
pub fn first_rows_of_codes()
    ensures before { RowsBeforeAreSpelled }
    ensures first { FirstRowsAreSpelled }
{}

/// The same of range-coded planes: where a content is stuck at a row, planes of the rows above it are coded from the same start; where planes are coded, so are their
/// first rows.
pub fn first_rows_of_range()
    ensures before { RowsBeforeAreCoded }
    ensures first { FirstRowsAreCoded }
{}
