//! Holding files, read from a source and written to OUT.
ghost use Rattle.std.specs.Prelude.{◌≡◌, IfErr};
ghost use Rattle.ffv1_holding.specs.Contents.{Contents};
ghost use Rattle.ffv1_holding.specs.declared.recordings.Recordings.TheVariants.{Profile};
ghost use Rattle.ffv1_commands.specs.Devices.{UnlessWriting};
ghost use Rattle.ffv1_commands.specs.TakenFrames.{as_taken, IsFiled};
ghost use Rattle.ffv1_commands.specs.Inner.Holdings.{ReadsHeld, SavesNamed, WritesMade};

use crate::devices::write_file;
use crate::fault::{CliFault, of_hold_file};
use crate::path::CommandPath;
use ffv1_devices::{Sink, Source};
use ffv1_hold::{HoldFileFault, Holding, Recordings, read_hold, write_hold};
use ffv1_range::Recording;
use std::alloc::Global;

/// The holding of the file of these recordings that is this path of the command.
pub(crate) fn read_holding<S: Source>(
    alloc: Global,
    recordings: Recordings,
    source: &mut S,
    path: CommandPath,
) -> Result<Holding<Recording>, CliFault>
    ensures read { ReadsHeld recordings path result (S.log source.old) (S.log source.new) }
{
    match ffv1_hold::read_holding(alloc, recordings, source) {
        Ok(holding) => Ok(holding),
        Err(fault) => Err(of_hold_file(path, fault)),
    }
}

/// The holding of the profile of the file that is this path of the command.
pub(crate) fn read_profile_holding<S: Source>(
    alloc: Global,
    source: &mut S,
    path: CommandPath,
) -> Result<Holding, CliFault>
    ensures read { ReadsHeld Profile path result (S.log source.old) (S.log source.new) }
{
    match read_hold(alloc, source) {
        Ok(holding) => Ok(holding),
        Err(fault) => Err(of_hold_file(path, fault)),
    }
}

/// The holding in which slices of recordings are taken and joined: of any recording one of any frames.
pub(crate) fn as_taken(recordings: Recordings, holding: Holding<Recording>) -> Holding<Recording>
    ensures { result ≡ as_taken recordings holding }
{
    match recordings {
        Recordings::Profile => holding,
        Recordings::Any => holding.into_any_frames(),
    }
}

/// The holding whose file is written: by the record's own rules where each slice is one by these, else as it is.
fn as_filed(holding: Holding<Recording>) -> Holding<Recording>
    ensures { IsFiled holding result }
{
    match holding.into_own_frames() {
        Ok(own) => own,
        Err(holding) => holding,
    }
}

/// Writes the file of a holding, which is filed so, to OUT.
fn write_holding<O: Sink>(out: &mut O, filed: &Holding<Recording>) -> Result<(), CliFault>
    requires filed { (h : Contents) × IsFiled h filed.now }
    ensures reported { (h : Contents) → IsFiled h filed.now → SavesNamed result h (O.log out.old) (O.log out.new) }
    ensures untouched { IfErr result (λ fault. UnlessWriting fault (out.new ≡ out.old)) }
{
    match write_hold(filed, out) {
        Ok(()) => Ok(()),
        Err(HoldFileFault::TooLong) => Err(CliFault::HoldFile(HoldFileFault::TooLong)),
        // The only other fault is that of writing: what is filed has a magic.
        Err(_) => Err(CliFault::Write(CommandPath::Out)),
    }
}

/// Writes the file of a holding, as it is filed, to OUT. Returns `HoldFile` if it has none, and then OUT is not touched.
fn write_filed<O: Sink>(out: &mut O, holding: Holding<Recording>) -> Result<(), CliFault>
    ensures reported { SavesNamed result holding (O.log out.old) (O.log out.new) }
    ensures untouched { IfErr result (λ fault. UnlessWriting fault (out.new ≡ out.old)) }
{
    let filed = as_filed(holding);
    write_holding(out, &filed)
}

/// Writes the file of a holding, as it is filed, to OUT, and then prints a text. A holding that has no file leaves both as they were.
pub(crate) fn write_made<O: Sink, W: Sink>(
    out: &mut O,
    holding: Holding<Recording>,
    output: &mut W,
    text: &str,
) -> Result<(), CliFault>
    ensures reported { WritesMade result holding text.now (O.log out.old) (O.log out.new) (W.log output.old) (W.log output.new) }
    ensures untouched { IfErr result (λ fault. UnlessWriting fault ((out.new ≡ out.old) × (output.new ≡ output.old))) }
{
    write_filed(out, holding)?;
    write_file(output, CommandPath::StandardOutput, text.as_bytes())
}
