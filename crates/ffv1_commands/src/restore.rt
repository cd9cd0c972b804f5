//! The command `restore`: writes the frame payload that a holding file restores (own).
ghost use Rattle.std.specs.Prelude.{◌≡◌, IfOk, IfErr, OnOk, string_bytes};
ghost use Rattle.ffv1_holding.specs.Refusals.{IsRefusal};
ghost use Rattle.ffv1_holding.specs.TileState.{AreSettled, restored_payload};
ghost use Rattle.ffv1_commands.specs.Fault.{NamesPath};
ghost use Rattle.ffv1_commands.specs.Paths.{IsHoldPath};
ghost use Rattle.ffv1_commands.specs.Devices.{UnlessWriting};
ghost use Rattle.ffv1_commands.specs.RestoreText.{restored_line, RestoresFile, RestoreStops, ReportsRestore};

use crate::devices::{buffered, write_both};
use crate::fault::CliFault;
use crate::holdings::read_holding;
use crate::path::CommandPath;
use ffv1_devices::{Sink, Source, ThroughWrite};
use ffv1_hold::{Holding, Recordings, RestoreFault};
use ffv1_range::Recording;
use std::alloc::{AllocError, Global};
use std::io::{Read, Write};

/// Reads a holding file of these recordings to its end, writes the settled slices, joined in tile order, to `out`, and then prints how
/// many bytes they are, as `restored 22 bytes`.
///
/// Returns `Read` if the file can't be read; `HoldFile` with its first fault in the order of its bytes; `Missing` or
/// `Disputed` for the first tile that isn't settled; `Memory` if an allocation fails: then nothing was written,
/// and `out` was not touched. Returns `Write` if `out` or the output fails: then a front of the payload was written, or
/// the whole payload and a front of the line.
pub fn run_restore<R: Read, O: Write, W: Write>(
    alloc: Global,
    recordings: Recordings,
    file: &mut R,
    out: &mut O,
    output: &mut W,
) -> Result<(), CliFault>
    ensures ok { OnOk result (RestoresFile recordings (R.remaining file.old) (O.contents out.old) (O.contents out.new) (W.contents output.old) (W.contents output.new)) }
    ensures err { IfErr result (RestoreStops recordings (R.remaining file.old) (O.contents out.old) (O.contents out.new) (W.contents output.old) (W.contents output.new)) }
    ensures untouched { IfErr result (λ fault. UnlessWriting fault ((out.new ≡ out.old) × (output.new ≡ output.old))) }
    ensures names { IfErr result (NamesPath IsHoldPath) }
{
    let mut file = buffered(alloc, file)?;
    restore_of(
        alloc,
        recordings,
        &mut file,
        &mut ThroughWrite::new(out),
        &mut ThroughWrite::new(output),
    )
}

/// The command over a source and sinks, whose logs say how it went: at `Read` the source was given up, and at `Write` the sink
/// that is named; no other failures came but interruptions.
pub fn restore_of<R: Source, O: Sink, W: Sink>(
    alloc: Global,
    recordings: Recordings,
    file: &mut R,
    out: &mut O,
    output: &mut W,
) -> Result<(), CliFault>
    ensures reported { ReportsRestore recordings result (R.log file.old) (R.log file.new) (O.log out.old) (O.log out.new) (W.log output.old) (W.log output.new) }
    ensures untouched { IfErr result (λ fault. UnlessWriting fault ((out.new ≡ out.old) × (output.new ≡ output.old))) }
{
    let holding = read_holding(alloc, recordings, file, CommandPath::Hold(0))?;
    let payload = restored(holding)?;
    let line = restored_text(alloc, payload.len())?;
    write_both(out, payload.as_slice(), output, line.as_str())
}

/// The payload that a holding restores.
fn restored(holding: Holding<Recording>) -> Result<Vec<u8>, RestoreFault>
    ensures ok { IfOk result (λ payload. payload.items ≡ restored_payload holding) }
    ensures settled { OnOk result (AreSettled holding) }
    ensures refused { IfErr result (IsRefusal holding) }
{
    holding.restore()
}

/// The line of how many bytes were restored.
fn restored_text(alloc: Global, count: usize) -> Result<String, AllocError>
    ensures { IfOk result (λ line. string_bytes line ≡ restored_line count) }
{
    format!(in alloc; "restored {count} bytes\n")
}
