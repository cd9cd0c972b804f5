//! The command `scan`: judges many ranges of one file in one pass, each as a frame payload by itself (own; slices and their
//! footers are those of RFC 9043, section 4.9).
ghost use Rattle.std.specs.Prelude.{◌≡◌, IfOk, IfErr};
ghost use Rattle.ffv1_scan.specs.Ranges.{AreRanges};
ghost use Rattle.ffv1_commands.specs.Fault.{NamesPath};
ghost use Rattle.ffv1_commands.specs.Lists.{ReadsList, IfOfList};
ghost use Rattle.ffv1_commands.specs.Paths.{IsScanPath};
ghost use Rattle.ffv1_commands.specs.ScanText.{IsFaultOfRanges, ScansDevices, ScansFile, ScanStops};

use crate::devices::read_file;
use crate::fault::CliFault;
use crate::path::CommandPath;
use ffv1_devices::{FromRead, Sink, Source, ThroughWrite};
use ffv1_scan::{ByteRange, RangesFault, ScanFault, read_ranges, scan};
use std::alloc::Global;
use std::io::{Read, Write};

/// Reads a list of ranges to its end, scans these ranges of a file, and prints a line for each, as `range 3 links 24 pass 23
/// whole` or `range 4 links 3 pass 3 broken at 112233`: its number, counted from 1, how many links its chain has, how many of them
/// have content and pass their parity, and how the chain ends, with the place counted in bytes from the range's start. Returns
/// whether each range is whole, has a link, and has all its links pass.
///
/// A line of the list is a range, as `4096 300000`: where it begins, counted in bytes from the file's start, and how many bytes
/// it has. The file is read once, from its start on, no further than to the end of the last range, and one range is held at a time.
///
/// Returns `Read` with the list if it can't be read or is longer than 2^30 bytes, and with the file if it can't be read or
/// ends before a range does; `Ranges` with the first line that is no range, or begins before the end of the one before it. The list
/// is judged whole before the file is read, and a fault of it leaves file and output untouched. At a later fault the lines of the
/// ranges before it were printed: `Memory` if an allocation fails, `Write` if the output fails.
pub fn run_scan<R: Read, F: Read, W: Write>(
    alloc: Global,
    ranges: &mut R,
    file: &mut F,
    output: &mut W,
) -> Result<bool, CliFault>
    ensures ok { IfOk result (ScansFile (R.remaining ranges.old) (F.remaining file.old) (W.contents output.old) (W.contents output.new)) }
    ensures err { IfErr result (ScanStops (R.remaining ranges.old) (F.remaining file.old) (W.contents output.old) (W.contents output.new)) }
    ensures in_turn { IfErr result (λ fault. IfOfList CommandPath.Ranges fault ((file.new ≡ file.old) × (output.new ≡ output.old))) }
    ensures names { IfErr result (NamesPath IsScanPath) }
{
    scan_of(
        alloc,
        &mut FromRead::new(ranges),
        &mut FromRead::new(file),
        &mut ThroughWrite::new(output),
    )
}

/// The command over sources and a sink.
pub fn scan_of<R: Source, F: Source, W: Sink>(
    alloc: Global,
    ranges: &mut R,
    file: &mut F,
    output: &mut W,
) -> Result<bool, CliFault>
    ensures scans { ScansDevices result (R.log ranges.old) (R.log ranges.new) (F.log file.old) (F.log file.new) (W.log output.old) (W.log output.new) }
    ensures in_turn { IfErr result (λ fault. IfOfList CommandPath.Ranges fault ((file.new ≡ file.old) × (output.new ≡ output.old))) }
    ensures names { IfErr result (NamesPath IsScanPath) }
{
    let list = reported_ranges(alloc, ranges)?;
    match scan(alloc, list.as_slice(), file, output) {
        Ok(undamaged) => Ok(undamaged),
        Err(ScanFault::Read) => Err(CliFault::Read(CommandPath::File)),
        Err(ScanFault::Write) => Err(CliFault::Write(CommandPath::StandardOutput)),
        Err(ScanFault::Memory) => Err(CliFault::Memory),
    }
}

/// The ranges that a list gives.
fn reported_ranges<R: Source>(alloc: Global, list: &mut R) -> Result<Vec<ByteRange>, CliFault>
    ensures ok { IfOk result (λ ranges. ReadsList (λ text. AreRanges text ranges.items) (R.log list.old) (R.log list.new)) }
    ensures err { IfErr result (IsFaultOfRanges (R.log list.old) (R.log list.new)) }
{
    let text = read_file(alloc, list, CommandPath::Ranges)?;
    match read_ranges(alloc, text.as_slice()) {
        Ok(ranges) => Ok(ranges),
        Err(RangesFault::Line(number)) => Err(CliFault::Ranges(number)),
        Err(RangesFault::Memory) => Err(CliFault::Memory),
    }
}
