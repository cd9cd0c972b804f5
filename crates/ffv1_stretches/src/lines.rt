//! The lines of a stretch: what becomes of it, and of what is damaged or differs the lines of its slices (own).
ghost use Rattle.std.specs.Prelude.{◌≡◌, ◌∷◌, ◌++◌, [], IsTrue, true, All, map, slice_range, OnOk, IfOk, string_bytes};
ghost use Rattle.std.specs.List.{flat_map, list_all, zip};
ghost use Rattle.std.specs.Str.{bytes_eq};
ghost use Rattle.ffv1_stretches.specs.Cells.{IsStretchMend};
ghost use Rattle.ffv1_stretches.specs.Inner.CellSteps.{cell_now, IsUnspliced};
ghost use Rattle.ffv1_stretches.specs.Listed.{kind_word};
ghost use Rattle.ffv1_mend.specs.Improved.{part_value};
ghost use Rattle.ffv1_stretches.specs.Lines.{cell_between, cells_between, is_same, mark_of, marks_of, is_place_settled, is_quiet, is_part_quiet, place_line, splice_lines, flac_line, own_lines, frame_lines, part_lines, parts_lines, state_words, stretch_line, slice_lines, stretch_text};

use crate::stretch::Stretch;
use ffv1_mend::{Kind, Mended, MendedPart, Part, State};
use ffv1_splice::{Place, Spliced, Standing, push_front, push_place};
use std::alloc::{AllocError, Global};

/// Whether bytes are the same.
fn are_same(one: &[u8], other: &[u8]) -> bool
    ensures { result ≡ bytes_eq one.now other.now }
{
    one == other
}

/// The bytes from one place to another, as far as there are any.
fn between(bytes: &[u8], start: usize, end: usize) -> &[u8]
    ensures { result.now ≡ slice_range bytes.now start end }
{
    let end = end.min(bytes.len());
    let start = start.min(end);
    &bytes[start..end]
}

/// What a copy has from one place of a stretch to another, if it has the stretch.
fn cell_between<'a>(cell: Option<&'a [u8]>, start: usize, end: usize) -> Option<&'a [u8]>
    ensures { cell_now result ≡ cell_between start end (cell_now cell.entry) }
{
    match cell {
        Some(version) => Some(between(version, start, end)),
        None => None,
    }
}

/// What the copies have from one place of a stretch to another.
fn narrowed<'a>(
    alloc: Global,
    cells: &[Option<&'a [u8]>],
    start: usize,
    end: usize,
) -> Result<Vec<Option<&'a [u8]>>, AllocError>
    ensures { IfOk result (λ narrow. map cell_now narrow.items ≡ cells_between (map cell_now cells.now) start end) }
{
    let mut narrow = Vec::new(alloc);
    for cell in cells {
        narrow.push(cell_between(*cell, start, end))?;
    }
    Ok(narrow)
}

/// Whether a copy has these bytes, if it has the stretch.
fn is_same(cell: Option<&[u8]>, bytes: &[u8]) -> bool
    ensures { result ≡ is_same bytes.now (cell_now cell.entry) }
{
    match cell {
        Some(version) => are_same(version, bytes),
        None => true,
    }
}

/// Whether each copy has these bytes that has the stretch.
fn all_same(cells: &[Option<&[u8]>], bytes: &[u8]) -> bool
    ensures { result ≡ list_all (is_same bytes.now) (map cell_now cells.now) }
{
    for cell in cells {
        if !is_same(*cell, bytes) {
            return false;
        }
    }
    true
}

/// The mark of a copy beside these bytes. Where it is known that the copy has the same, they are not compared again.
fn mark_of(cell: Option<&[u8]>, bytes: &[u8], known: bool) -> &'static str
    requires { IsTrue known → is_same bytes.now (cell_now cell) ≡ true }
    ensures { result.now ≡ mark_of bytes.now (cell_now cell.entry) ∷ [] }
{
    let Some(version) = cell else {
        return "-";
    };
    if known || are_same(version, bytes) {
        "1"
    } else {
        "0"
    }
}

/// Adds a mark for each copy. Where it is known that all have the same, they are not compared again.
fn push_marks(
    text: &mut String,
    cells: &[Option<&[u8]>],
    bytes: &[u8],
    known: bool,
) -> Result<(), AllocError>
    requires { IsTrue known → All (λ cell. is_same bytes.now (cell_now cell) ≡ true) cells.now }
    ensures { OnOk result (string_bytes text.new ≡ string_bytes text.old ++ marks_of (map cell_now cells.now) bytes.now) }
{
    for cell in cells {
        text.push_str(mark_of(*cell, bytes, known))?;
    }
    Ok(())
}

/// Adds the line of a slice of a frame.
fn push_place_line(
    alloc: Global,
    text: &mut String,
    cells: &[Option<&[u8]>],
    bytes: &[u8],
    place: Place,
) -> Result<(), AllocError>
    ensures { OnOk result (string_bytes text.new ≡ string_bytes text.old ++ place_line (map cell_now cells.now) bytes.now place) }
{
    let narrow = narrowed(alloc, cells, place.start, place.end)?;
    text.push_str("  ")?;
    push_place(text, place)?;
    text.push_str(" ")?;
    push_marks(
        text,
        narrow.as_slice(),
        between(bytes, place.start, place.end),
        false,
    )?;
    text.push_str("\n")
}

/// Adds the lines of a frame.
fn push_splice(
    alloc: Global,
    text: &mut String,
    cells: &[Option<&[u8]>],
    bytes: &[u8],
    spliced: &Spliced,
) -> Result<(), AllocError>
    ensures { OnOk result (string_bytes text.new ≡ string_bytes text.old ++ splice_lines (map cell_now cells.now) bytes.now spliced.now) }
{
    for place in spliced.places() {
        push_place_line(alloc, text, cells, bytes, *place)?;
    }
    text.push_str("  ")?;
    push_front(text, spliced.front())
}

/// Whether a place is settled.
fn is_place_settled(place: &Place) -> bool
    ensures { result ≡ is_place_settled place.now.standing }
{
    place.standing == Standing::Settled
}

/// Whether all places are settled.
fn are_settled(places: &[Place]) -> bool
    ensures { result ≡ list_all (λ place. is_place_settled place.standing) places.now }
{
    for place in places {
        if !is_place_settled(place) {
            return false;
        }
    }
    true
}

/// Whether nothing is said of a frame of FFV1.
fn is_quiet(cells: &[Option<&[u8]>], bytes: &[u8], spliced: &Spliced) -> bool
    ensures { result ≡ is_quiet (map cell_now cells.now) bytes.now spliced.now }
{
    spliced.front() == 0 && are_settled(spliced.places()) && all_same(cells, bytes)
}

/// Whether nothing is said of a part.
fn is_part_quiet(cells: &[Option<&[u8]>], bytes: &[u8], mend: &MendedPart<'_>) -> bool
    ensures { result ≡ is_part_quiet (map cell_now cells.now) bytes.now (part_value mend.now) }
{
    match mend {
        MendedPart::Spliced(spliced) => is_quiet(cells, bytes, spliced),
        MendedPart::Whole(_) => all_same(cells, bytes),
        MendedPart::Disputed | MendedPart::Missing => false,
    }
}

/// Adds the line of a frame of FLAC that stands so.
fn push_flac(
    text: &mut String,
    cells: &[Option<&[u8]>],
    bytes: &[u8],
    word: &str,
) -> Result<(), AllocError>
    ensures { OnOk result (string_bytes text.new ≡ string_bytes text.old ++ flac_line (map cell_now cells.now) bytes.now word.now) }
{
    let size = bytes.len();
    write!(text, "  0..{size} {word} ")?;
    push_marks(text, cells, bytes, false)?;
    text.push_str("\n")
}

/// Adds the lines of a part, or of a stretch that is a frame of FFV1.
fn push_own(
    alloc: Global,
    text: &mut String,
    cells: &[Option<&[u8]>],
    bytes: &[u8],
    mend: &MendedPart<'_>,
) -> Result<(), AllocError>
    ensures { OnOk result (string_bytes text.new ≡ string_bytes text.old ++ own_lines (map cell_now cells.now) bytes.now (part_value mend.now)) }
{
    match mend {
        MendedPart::Spliced(spliced) => push_splice(alloc, text, cells, bytes, spliced),
        MendedPart::Whole(_) => push_flac(text, cells, bytes, "whole"),
        MendedPart::Disputed => push_flac(text, cells, bytes, "disputed"),
        MendedPart::Missing => push_flac(text, cells, bytes, "missing"),
    }
}

/// Adds the lines of a stretch that is a frame of FFV1.
fn push_frame(
    alloc: Global,
    text: &mut String,
    cells: &[Option<&[u8]>],
    bytes: &[u8],
    mend: &MendedPart<'_>,
) -> Result<(), AllocError>
    ensures { OnOk result (string_bytes text.new ≡ string_bytes text.old ++ frame_lines (map cell_now cells.now) bytes.now (part_value mend.now)) }
{
    if is_part_quiet(cells, bytes, mend) {
        return Ok(());
    }
    push_own(alloc, text, cells, bytes, mend)
}

/// Adds the lines of the part of an element with this number.
fn push_part(
    alloc: Global,
    text: &mut String,
    number: usize,
    cells: &[Option<&[u8]>],
    bytes: &[u8],
    mend: &MendedPart<'_>,
) -> Result<(), AllocError>
    ensures { OnOk result (string_bytes text.new ≡ string_bytes text.old ++ part_lines number (map cell_now cells.now) bytes.now (part_value mend.now)) }
{
    if is_part_quiet(cells, bytes, mend) {
        return Ok(());
    }
    writeln!(text, "  part {number}")?;
    push_own(alloc, text, cells, bytes, mend)
}

/// Adds the lines of the parts of an element.
fn push_parts(
    alloc: Global,
    text: &mut String,
    cells: &[Option<&[u8]>],
    bytes: &[u8],
    parts: &[Part],
    mends: &[MendedPart<'_>],
) -> Result<(), AllocError>
    ensures { OnOk result (string_bytes text.new ≡ string_bytes text.old ++ parts_lines 1 (map cell_now cells.now) bytes.now (zip parts.now (map part_value mends.now))) }
{
    for index in 0..parts.len().min(mends.len()) {
        let part = parts[index];
        let narrow = narrowed(alloc, cells, part.start, part.end)?;
        let here = between(bytes, part.start, part.end);
        push_part(
            alloc,
            text,
            index + 1,
            narrow.as_slice(),
            here,
            &mends[index],
        )?;
    }
    Ok(())
}

/// Adds the lines of the frames of a stretch.
fn push_frames(
    alloc: Global,
    text: &mut String,
    cells: &[Option<&[u8]>],
    bytes: &[u8],
    mends: &[MendedPart<'_>],
) -> Result<(), AllocError>
    ensures { OnOk result (string_bytes text.new ≡ string_bytes text.old ++ flat_map (frame_lines (map cell_now cells.now) bytes.now) (map part_value mends.now)) }
{
    for mend in mends {
        push_frame(alloc, text, cells, bytes, mend)?;
    }
    Ok(())
}

/// Adds how a stretch stands.
fn push_state(text: &mut String, state: State) -> Result<(), AllocError>
    ensures { OnOk result (string_bytes text.new ≡ string_bytes text.old ++ state_words state) }
{
    match state {
        State::Whole => text.push_str("whole"),
        State::Disputed => text.push_str("disputed"),
        State::Woven(count) => write!(text, "woven {count}"),
        State::Missing => text.push_str("missing"),
        State::Alone => text.push_str("alone"),
        State::Agreed => text.push_str("agreed"),
        State::Open => text.push_str("open"),
    }
}

/// The word of a kind.
fn kind_word(kind: Kind) -> &'static str
    ensures { result.now ≡ kind_word kind }
{
    match kind {
        Kind::Frame => "frame",
        Kind::Crc32 => "crc32",
        Kind::Record => "record",
        Kind::Flac => "flac",
        Kind::Plain => "plain",
    }
}

/// Whether an element is whole in all copies that have it: no part of it was looked at, of which it has one at least.
fn is_whole_in_all(stretch: &Stretch, mended: &Mended<'_>) -> bool
    ensures { IsTrue result → IsUnspliced stretch.now mended.now }
{
    stretch.kind == Kind::Crc32 && !stretch.parts.as_slice().is_empty() && mended.parts().is_empty()
}

/// Adds a mark for each copy beside what becomes of a stretch. Where an element is whole in all copies, nothing is compared again.
fn push_stretch_marks(
    text: &mut String,
    stretch: &Stretch,
    cells: &[Option<&[u8]>],
    mended: &Mended<'_>,
) -> Result<(), AllocError>
    requires { IsStretchMend (map cell_now cells.now) stretch.now mended.now }
    ensures { OnOk result (string_bytes text.new ≡ string_bytes text.old ++ marks_of (map cell_now cells.now) mended.now.bytes) }
{
    let known = is_whole_in_all(stretch, mended);
    push_marks(text, cells, mended.bytes(), known)
}

/// Adds the line of the stretch with this number.
fn push_line(
    text: &mut String,
    number: usize,
    stretch: &Stretch,
    cells: &[Option<&[u8]>],
    mended: &Mended<'_>,
) -> Result<(), AllocError>
    requires { IsStretchMend (map cell_now cells.now) stretch.now mended.now }
    ensures { OnOk result (string_bytes text.new ≡ string_bytes text.old ++ stretch_line number (map cell_now cells.now) stretch.now mended.now) }
{
    let kind = kind_word(stretch.kind);
    write!(text, "stretch {number} {kind} ")?;
    push_state(text, mended.state())?;
    text.push_str(" ")?;
    push_stretch_marks(text, stretch, cells, mended)?;
    text.push_str("\n")
}

/// Adds the lines below that of a stretch.
fn push_slices(
    alloc: Global,
    text: &mut String,
    stretch: &Stretch,
    cells: &[Option<&[u8]>],
    mended: &Mended<'_>,
) -> Result<(), AllocError>
    ensures { OnOk result (string_bytes text.new ≡ string_bytes text.old ++ slice_lines stretch.now.kind (map cell_now cells.now) stretch.now mended.now) }
{
    match stretch.kind {
        Kind::Frame => push_frames(alloc, text, cells, mended.bytes(), mended.parts()),
        Kind::Crc32 => push_parts(
            alloc,
            text,
            cells,
            mended.bytes(),
            stretch.parts.as_slice(),
            mended.parts(),
        ),
        Kind::Record | Kind::Flac | Kind::Plain => Ok(()),
    }
}

/// All lines of the stretch with this number, of which the copies have this.
pub(crate) fn stretch_text(
    alloc: Global,
    number: usize,
    stretch: &Stretch,
    cells: &[Option<&[u8]>],
    mended: &Mended<'_>,
) -> Result<String, AllocError>
    requires { IsStretchMend (map cell_now cells.now) stretch.now mended.now }
    ensures { IfOk result (λ text. string_bytes text ≡ stretch_text number (map cell_now cells.now) stretch.now mended.now) }
{
    let mut text = String::new(alloc);
    push_line(&mut text, number, stretch, cells, mended)?;
    push_slices(alloc, &mut text, stretch, cells, mended)?;
    Ok(text)
}
