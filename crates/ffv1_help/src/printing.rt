//! The commands `help` and `version`: each prints one text, and reads nothing.
ghost use Rattle.std.specs.Prelude.{OnOk, OnErr};
ghost use Rattle.std.specs.Io.KnownBytes.{Appends};
ghost use Rattle.ffv1_devices.specs.Writing.{WritesFront};
ghost use Rattle.ffv1_devices.specs.Results.{WritesAll};
ghost use Rattle.ffv1_help.specs.Texts.{help_text, version_text};

use crate::texts::{HELP, VERSION};
use ffv1_devices::{Sink, ThroughWrite, WriteFailed, write_field};
use std::io::Write;

/// Prints the help: each command with its words, the exit statuses and the faults.
///
/// Returns `WriteFailed` if the output fails: then a front of the text was printed.
pub fn run_help<W: Write>(output: &mut W) -> Result<(), WriteFailed>
    ensures ok { OnOk result (Appends (W.contents output.old) (W.contents output.new) help_text) }
    ensures err { OnErr result (WritesFront (W.contents output.old) (W.contents output.new) help_text) }
{
    print_help(&mut ThroughWrite::new(output))
}

/// The command over a sink, whose log says how it went.
pub fn print_help<W: Sink>(output: &mut W) -> Result<(), WriteFailed>
    ensures { WritesAll result (W.log output.old) (W.log output.new) help_text }
{
    write_field(output, HELP.as_bytes())
}

/// Prints the version, and the kit that proved it.
///
/// Returns `WriteFailed` if the output fails: then a front of the text was printed.
pub fn run_version<W: Write>(output: &mut W) -> Result<(), WriteFailed>
    ensures ok { OnOk result (Appends (W.contents output.old) (W.contents output.new) version_text) }
    ensures err { OnErr result (WritesFront (W.contents output.old) (W.contents output.new) version_text) }
{
    print_version(&mut ThroughWrite::new(output))
}

/// The command over a sink, whose log says how it went.
pub fn print_version<W: Sink>(output: &mut W) -> Result<(), WriteFailed>
    ensures { WritesAll result (W.log output.old) (W.log output.new) version_text }
{
    write_field(output, VERSION.as_bytes())
}
