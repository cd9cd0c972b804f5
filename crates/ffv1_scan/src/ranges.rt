//! The ranges of a file, as a text gives them (own).
ghost use Rattle.std.specs.Prelude.{◌≡◌, ◌+◌, ◌≤◌, ◌↔◌, IsTrue, IfOk, IfErr, MatchOption};
ghost use Rattle.ffv1_scan.specs.Ranges.{IsRangeLine, AreRanges, IsRangesFault};

use ffv1_bits::PAYLOAD_LIMIT;
use ffv1_texts::{first_line, read_number, split_at_byte};
use std::alloc::{AllocFailed, Global};

/// A range of a file.
#[derive(Clone, Copy, Debug, PartialEq, Eq)]
pub struct ByteRange {
    /// Where it begins, counted in bytes from the file's start.
    pub place: u64,
    /// How many bytes it has.
    pub size: u64,
}

/// Why a text gives no ranges.
#[derive(Clone, Copy, Debug, PartialEq, Eq)]
pub enum RangesFault {
    /// The line with this number, counted from 1, is the first that is no range, or begins before the end of the one before.
    Line(usize),
    /// An allocation of memory failed.
    Memory,
}

impl<T: Drop> From<AllocFailed<T>> for RangesFault {
    ghost use Rattle.ffv1_scan.specs.declared.ranges.RangesFault.TheVariants.{Memory};
    ghost use Rattle.std.specs.Prelude.{◌≡◌};

    ghost from_gives = { λ _ fault. fault ≡ Memory };

    fn from(_refusal: AllocFailed<T>) -> RangesFault {
        RangesFault::Memory
    }
}

impl ByteRange {
    /// Whether it begins at the end of another one, or after that.
    pub(crate) fn follows(&self, last: &ByteRange) -> bool
        ensures { IsTrue result ↔ (last.now.place + last.now.size ≤ self.now.place) }
    {
        self.place >= last.place && self.place - last.place >= last.size
    }
}

/// Reads the ranges that a text gives: a line for each, as `4096 300000`, of its place and its size in decimal digits, with
/// one space between them. A line feed ends each line; the last may go without. Ranges rise and do not overlap. A number is
/// under 2^64, a size at most 2^30.
///
/// `Line` names the first line that is no range, or begins before the end of the range before it; an empty line is no
/// range. Returns `Memory` if an allocation fails.
pub fn read_ranges(alloc: Global, text: &[u8]) -> Result<Vec<ByteRange>, RangesFault>
    ensures ok { IfOk result (λ ranges. AreRanges text.now ranges.items) }
    ensures fault { IfErr result (IsRangesFault text.now) }
{
    let mut ranges = Vec::new(alloc);
    let mut last = ByteRange { place: 0, size: 0 };
    let mut rest = text;
    while !rest.is_empty() {
        let (line, more) = first_line(rest);
        let Some(range) = next_range(line, &last) else {
            return Err(RangesFault::Line(ranges.len() + 1));
        };
        ranges.push(range)?;
        last = range;
        rest = more;
    }
    Ok(ranges)
}

/// The range that a line is.
fn read_range(line: &[u8]) -> Option<ByteRange>
    ensures { MatchOption result ((range : ByteRange) → IsRangeLine line.now range → ⊥) (λ range. IsRangeLine line.now range) }
{
    let (first, second) = split_at_byte(line, b' ')?;
    let place = read_number(first)?;
    let size = read_number(second)?;
    if size > PAYLOAD_LIMIT as u64 {
        return None;
    }
    Some(ByteRange { place, size })
}

/// The range that a line is, where it follows the last one.
fn next_range(line: &[u8], last: &ByteRange) -> Option<ByteRange>
    ensures { MatchOption result ((range : ByteRange) → IsRangeLine line.now range → last.now.place + last.now.size ≤ range.place → ⊥)
        (λ range. IsRangeLine line.now range × (last.now.place + last.now.size ≤ range.place)) }
{
    let range = read_range(line)?;
    if !range.follows(last) {
        return None;
    }
    Some(range)
}
