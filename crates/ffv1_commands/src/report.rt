//! The command `report`: prints the damage report of a holding file (own).
ghost use Rattle.std.specs.Prelude.{◌≡◌, IfOk, IfErr, OnOk, string_bytes};
ghost use Rattle.ffv1_holding.specs.ReportText.{report_text};
ghost use Rattle.ffv1_commands.specs.Fault.{NamesPath};
ghost use Rattle.ffv1_commands.specs.Paths.{IsReportPath};
ghost use Rattle.ffv1_commands.specs.Devices.{UnlessWriting};
ghost use Rattle.ffv1_commands.specs.ReportedText.{ReportsFile, ReportStops, ReportsReport};

use crate::devices::{buffered, write_file};
use crate::fault::CliFault;
use crate::holdings::read_holding;
use crate::path::CommandPath;
use ffv1_devices::{Sink, Source, ThroughWrite};
use ffv1_hold::{Holding, Recordings};
use ffv1_holding::report;
use ffv1_range::Recording;
use std::alloc::{AllocError, Global};
use std::io::{Read, Write};

/// Reads a holding file of these recordings to its end, and prints its damage report: a line for the recording, one for each tile, one that
/// counts them, and one for the whole frame.
///
/// Returns `Read` if the file can't be read; `HoldFile` with its first fault in the order of its bytes; `Memory` if an
/// allocation fails: then nothing was written. Returns `Write` if the output fails: then a front of the report was written.
pub fn run_report<R: Read, W: Write>(
    alloc: Global,
    recordings: Recordings,
    file: &mut R,
    output: &mut W,
) -> Result<(), CliFault>
    ensures ok { OnOk result (ReportsFile recordings (R.remaining file.old) (W.contents output.old) (W.contents output.new)) }
    ensures err { IfErr result (ReportStops recordings (R.remaining file.old) (W.contents output.old) (W.contents output.new)) }
    ensures untouched { IfErr result (λ fault. UnlessWriting fault (output.new ≡ output.old)) }
    ensures names { IfErr result (NamesPath IsReportPath) }
{
    let mut file = buffered(alloc, file)?;
    report_of(alloc, recordings, &mut file, &mut ThroughWrite::new(output))
}

/// The command over a source and a sink, whose logs say how it went: at `Read` the source was given up, and at `Write` the sink;
/// no other failures came but interruptions.
pub fn report_of<R: Source, W: Sink>(
    alloc: Global,
    recordings: Recordings,
    file: &mut R,
    output: &mut W,
) -> Result<(), CliFault>
    ensures reported { ReportsReport recordings result (R.log file.old) (R.log file.new) (W.log output.old) (W.log output.new) }
    ensures untouched { IfErr result (λ fault. UnlessWriting fault (output.new ≡ output.old)) }
{
    let holding = read_holding(alloc, recordings, file, CommandPath::Hold(0))?;
    let text = report_of_holding(alloc, holding)?;
    write_file(output, CommandPath::StandardOutput, text.as_bytes())
}

/// The damage report of a holding.
fn report_of_holding(alloc: Global, holding: Holding<Recording>) -> Result<String, AllocError>
    ensures { IfOk result (λ text. string_bytes text ≡ report_text holding) }
{
    report(alloc, &holding)
}
