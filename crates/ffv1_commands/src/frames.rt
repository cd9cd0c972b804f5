//! The samples of a frame, written to OUT.
ghost use Rattle.ffv1_commands.specs.Inner.Devices.{WritesNamed, WritesBoth};
ghost use Rattle.ffv1_commands.specs.FrameText.{raw_bytes};

use crate::devices::write_file;
use crate::fault::CliFault;
use crate::path::CommandPath;
use ffv1_devices::Sink;
use ffv1_picture::{Frame, WriteFault, write_raw};

/// Writes the samples of a frame to OUT, or a front of them where that fails.
pub(crate) fn write_frame<O: Sink>(out: &mut O, frame: &Frame) -> Result<(), CliFault>
    ensures { WritesNamed CommandPath.Out result (O.log out.old) (O.log out.new) (raw_bytes frame.now) }
{
    match write_raw(frame, out) {
        Ok(()) => Ok(()),
        Err(WriteFault::Write) => Err(CliFault::Write(CommandPath::Out)),
    }
}

/// Writes the samples of a frame to OUT, and then prints a text.
pub(crate) fn write_shown<O: Sink, W: Sink>(
    out: &mut O,
    frame: &Frame,
    output: &mut W,
    text: &str,
) -> Result<(), CliFault>
    ensures { WritesBoth result (raw_bytes frame.now) text.now (O.log out.old) (O.log out.new) (W.log output.old) (W.log output.new) }
{
    write_frame(out, frame)?;
    write_file(output, CommandPath::StandardOutput, text.as_bytes())
}
