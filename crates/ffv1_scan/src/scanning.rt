//! One pass over the ranges of a file.
ghost use Rattle.std.specs.Prelude.{◌≡◌, ◌+◌, ◌-◌, ◌<◌, ◌≤◌, vec_len, OnOk, IfOk, IfErr};
ghost use Rattle.ffv1_scan.specs.Ranges.{Rises};
ghost use Rattle.ffv1_scan.specs.Verdicts.{verdict_line};
ghost use Rattle.ffv1_scan.specs.Scans.{ScansRanges};
ghost use Rattle.ffv1_scan.specs.Inner.Steps.{Opens, JudgesNext, WritesLine};

use crate::ranges::ByteRange;
use crate::verdict::{Verdict, judge, push_line};
use ffv1_devices::{
    CutShort, NextFault, Sink, Source, WriteFailed, pass_over, read_next, read_some, write_field,
};
use std::alloc::{AllocError, Global};

/// So many bytes are passed over in one read.
const BLOCK: usize = 65536;

/// Why ranges were not scanned to their end.
#[derive(Clone, Copy, Debug, PartialEq, Eq)]
pub enum ScanFault {
    /// The file failed, or ended before a range did.
    Read,
    /// The output failed.
    Write,
    /// An allocation of memory failed.
    Memory,
}

impl From<CutShort> for ScanFault {
    ghost use Rattle.ffv1_scan.specs.declared.scanning.ScanFault.TheVariants.{Read};
    ghost use Rattle.std.specs.Prelude.{◌≡◌};

    ghost from_gives = { λ _ fault. fault ≡ Read };

    fn from(_short: CutShort) -> ScanFault {
        ScanFault::Read
    }
}

impl From<NextFault> for ScanFault {
    ghost use Rattle.ffv1_scan.specs.Steps.{scan_fault};
    ghost use Rattle.std.specs.Prelude.{◌≡◌};

    ghost from_gives = { λ next fault. fault ≡ scan_fault next };

    fn from(next: NextFault) -> ScanFault {
        match next {
            NextFault::Read => ScanFault::Read,
            NextFault::Memory => ScanFault::Memory,
        }
    }
}

impl From<AllocError> for ScanFault {
    ghost use Rattle.ffv1_scan.specs.declared.scanning.ScanFault.TheVariants.{Memory};
    ghost use Rattle.std.specs.Prelude.{◌≡◌};

    ghost from_gives = { λ _ fault. fault ≡ Memory };

    fn from(_refusal: AllocError) -> ScanFault {
        ScanFault::Memory
    }
}

/// Scans the ranges of a file, which rise and do not overlap: judges each as its bytes alone, and writes a line for each to the
/// output, with its number, counted from 1, as `range 3 links 24 pass 23 whole` or `range 4 links 3 pass 3 broken at
/// 112233`, whose place is counted in bytes from the range's start. Returns whether each range is whole, has a link,
/// and has all its links pass.
///
/// The file is read once, in order, and no further than to the end of the last range. One range is held at a time. Returns `Read` if the
/// file failed or ended before a range did, `Memory` if an allocation fails: the lines of the ranges before
/// were written. Returns `Write` if the output failed: a front of the lines so far was written.
pub fn scan<S: Source, W: Sink>(
    alloc: Global,
    ranges: &[ByteRange],
    file: &mut S,
    output: &mut W,
) -> Result<bool, ScanFault>
    requires { Rises 0 ranges.now }
    ensures { ScansRanges ranges.now result (S.log file.old) (S.log file.new) (W.log output.old) (W.log output.new) }
{
    let mut room = empty_room(alloc)?;
    open(file)?;
    let mut last = ByteRange { place: 0, size: 0 };
    let mut undamaged = true;
    for (index, range) in ranges.iter().enumerate() {
        let verdict = judge_next(&mut room, &last, range, file)?;
        write_line(alloc, index + 1, &verdict, output)?;
        undamaged &= verdict.is_undamaged();
        last = *range;
    }
    Ok(undamaged)
}

/// Reads no byte of a file: one that can't be read is reported so where there is no range too.
fn open<S: Source>(file: &mut S) -> Result<(), ScanFault>
    ensures read { Opens result (S.log file.old) (S.log file.new) }
    ensures fault { IfErr result (λ fault. fault ≡ ScanFault.Read) }
{
    match read_some(file, &mut []) {
        Ok(_) => Ok(()),
        Err(_) => Err(ScanFault::Read),
    }
}

/// Room for a block.
fn empty_room(alloc: Global) -> Result<Vec<u8>, ScanFault>
    ensures ok { IfOk result (λ room. 0 < vec_len room) }
    ensures err { IfErr result (λ fault. fault ≡ ScanFault.Memory) }
{
    let mut room = Vec::new(alloc);
    match room.resize(BLOCK, 0) {
        Ok(()) => Ok(room),
        Err(_) => Err(ScanFault::Memory),
    }
}

/// Reads the range after the last one, over what is between them, and judges it.
fn judge_next<S: Source>(
    room: &mut Vec<u8>,
    last: &ByteRange,
    range: &ByteRange,
    file: &mut S,
) -> Result<Verdict, ScanFault>
    requires room { 0 < vec_len room.old }
    requires follows { last.now.place + last.now.size ≤ range.now.place }
    ensures room { OnOk result (0 < vec_len room.new) }
    ensures judged { JudgesNext (range.now.place - last.now.place - last.now.size) range.now.size result (S.log file.old) (S.log file.new) }
{
    pass_over(file, range.place - last.place - last.size, room)?;
    let size = range.size as usize;
    read_next(file, size, room)?;
    Ok(judge(&room[..size]))
}

/// Writes the line of the range with this number.
fn write_line<W: Sink>(
    alloc: Global,
    number: usize,
    verdict: &Verdict,
    output: &mut W,
) -> Result<(), ScanFault>
    ensures { WritesLine (verdict_line number verdict.now) result (W.log output.old) (W.log output.new) }
{
    let mut line = String::new(alloc);
    push_line(&mut line, number, verdict)?;
    match write_field(output, line.as_bytes()) {
        Ok(()) => Ok(()),
        Err(WriteFailed) => Err(ScanFault::Write),
    }
}
