//! What a command shows of a holding file: samples, and then lines of tiles (own).
ghost use Rattle.std.specs.Prelude.{◌≡◌, ◌↔◌, List, ℕ, IsTrue, IfOk, IfErr, string_bytes};
ghost use Rattle.ffv1_commands.specs.Devices.{UnlessWriting};
ghost use Rattle.ffv1_commands.specs.Inner.Devices.{WritesNamed};
ghost use Rattle.ffv1_commands.specs.Inner.Pictures.{WritingStops};
ghost use Rattle.ffv1_commands.specs.Pictures.{WritesPicture};

use crate::devices::write_file;
use crate::fault::CliFault;
use crate::path::CommandPath;
use ffv1_devices::Sink;
use std::alloc::{AllocError, Global};

/// What can be shown of a holding.
pub(crate) trait Pictured {
    /// Its samples, as they are written.
    ghost samples: { Self → List ℕ };

    /// The lines of its tiles.
    ghost lines: { Self → List ℕ };

    ghost IsWhole: { Self → Type 0 };

    /// Writes its samples to OUT, or a front of them where that fails.
    fn write<O: Sink>(&self, out: &mut O) -> Result<(), CliFault>
        ensures { WritesNamed CommandPath.Out result (O.log out.old) (O.log out.new) (samples self.now) };

    /// The lines of its tiles.
    fn text(&self, alloc: Global) -> Result<String, AllocError>
        ensures { IfOk result (λ text. string_bytes text ≡ lines self.now) };

    /// Whether it is whole.
    fn is_whole(&self) -> bool
        ensures { IsTrue result ↔ IsWhole self.now };
}

/// Writes the samples to OUT, and then prints the lines. Returns whether all is shown.
pub(crate) fn write_picture<P: Pictured, O: Sink, W: Sink>(
    alloc: Global,
    shown: &P,
    out: &mut O,
    output: &mut W,
) -> Result<bool, CliFault>
    ensures ok { IfOk result (WritesPicture (P.samples shown.now) (P.lines shown.now) (P.IsWhole shown.now) (O.log out.old) (O.log out.new) (W.log output.old) (W.log output.new)) }
    ensures err { IfErr result (WritingStops (P.samples shown.now) (P.lines shown.now) (O.log out.old) (O.log out.new) (W.log output.old) (W.log output.new)) }
    ensures untouched { IfErr result (λ fault. UnlessWriting fault ((out.new ≡ out.old) × (output.new ≡ output.old))) }
{
    let text = shown.text(alloc)?;
    shown.write(out)?;
    write_file(output, CommandPath::StandardOutput, text.as_bytes())?;
    Ok(shown.is_whole())
}
