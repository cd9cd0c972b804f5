//! The command `check`: judges a whole Matroska file by the checksums in it, and by how its parts hang together (own).
ghost use Rattle.std.specs.Prelude.{◌≡◌, IfOk, IfErr, string_bytes};
ghost use Rattle.ffv1_check.specs.ReportLines.{check_text};
ghost use Rattle.ffv1_commands.specs.Devices.{UnlessWriting};
ghost use Rattle.ffv1_commands.specs.Fault.{NamesPath};
ghost use Rattle.ffv1_commands.specs.Paths.{IsCheckPath};
ghost use Rattle.ffv1_commands.specs.CheckText.{ChecksDevices, ChecksFile, CheckStops};

use crate::devices::write_file;
use crate::fault::CliFault;
use crate::path::CommandPath;
use ffv1_check::{Report, check_source, push_report};
use ffv1_devices::{FromRead, Sink, Source, ThroughWrite};
use matroska_parts::find_tracks;
use std::alloc::{AllocError, Global};
use std::io::{Read, Write};

/// Reads a file to its end, and prints the report of a check of it, as a Matroska file: a line for each thing that is wrong, as
/// `at 4096 crc32 Cluster 30720`; a line for each track, as `track 1 V_FFV1 blocks 250 checked 250`; how many bytes there are, and how many
/// of them a check covers that passes, as `bytes 30720 checked 30660`; and `whole` or `not whole`. Places count in bytes from the file's
/// start. Returns whether the file is whole: no line says that something is wrong, and each block of a video track is checked.
///
/// The file is opened twice: `first` is read as far as its first Tracks, which says what tracks there are, and `second` to its end. One
/// block is held at a time, and one piece. If both give the same bytes, what is printed and returned is that of these bytes.
///
/// Any bytes can be judged. Returns `Read` if one of both can't be read or gives 2^62 bytes or more, and `Memory` if an allocation fails: then
/// nothing was written. Where `first` is at fault, `second` was not read. Returns `Write` if the output fails: then a front of the report was
/// written.
pub fn run_check<R: Read, S: Read, W: Write>(
    alloc: Global,
    first: &mut R,
    second: &mut S,
    output: &mut W,
) -> Result<bool, CliFault>
    ensures ok { R.remaining first.old ≡ S.remaining second.old → IfOk result
        (ChecksFile (S.remaining second.old) (W.contents output.old) (W.contents output.new)) }
    ensures err { R.remaining first.old ≡ S.remaining second.old → IfErr result
        (CheckStops (S.remaining second.old) (W.contents output.old) (W.contents output.new)) }
    ensures untouched { IfErr result (λ fault. UnlessWriting fault (output.new ≡ output.old)) }
    ensures names { IfErr result (NamesPath IsCheckPath) }
{
    check_of(
        alloc,
        &mut FromRead::new(first),
        &mut FromRead::new(second),
        &mut ThroughWrite::new(output),
    )
}

/// The command over sources and a sink, whose logs say how it went: at `Read` a source was given up or passed a limit, and at `Write` the
/// sink was given up; no other failures came but interruptions.
pub fn check_of<R: Source, S: Source, W: Sink>(
    alloc: Global,
    first: &mut R,
    second: &mut S,
    output: &mut W,
) -> Result<bool, CliFault>
    ensures reported { ChecksDevices result (R.log first.old) (R.log first.new) (S.log second.old) (S.log second.new)
        (W.log output.old) (W.log output.new) }
    ensures untouched { IfErr result (λ fault. UnlessWriting fault (output.new ≡ output.old)) }
{
    let found = find_tracks(alloc, first)?;
    let report = check_source(alloc, &found, second)?;
    let text = checked_text(alloc, &report)?;
    write_file(output, CommandPath::StandardOutput, text.as_bytes())?;
    Ok(report.is_whole)
}

/// The text of a report.
fn checked_text(alloc: Global, report: &Report<'_>) -> Result<String, AllocError>
    ensures { IfOk result (λ text. string_bytes text ≡ check_text report.now) }
{
    let mut text = String::new(alloc);
    push_report(&mut text, report)?;
    Ok(text)
}
