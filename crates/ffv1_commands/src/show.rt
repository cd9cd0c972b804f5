//! The command `show`: prints the setup that a configuration record gives for frames of one size (RFC 9043,
//! section 4.3).
ghost use Rattle.std.specs.Prelude.{◌≡◌, ◌≤◌, length, IfOk, IfErr, OnOk, IfSome, string_bytes};
ghost use Rattle.ffv1_bits.specs.Limits.{payload_limit};
ghost use Rattle.ffv1_commands.specs.Fault.{NamesPath};
ghost use Rattle.ffv1_commands.specs.Paths.{IsShowPath};
ghost use Rattle.ffv1_commands.specs.ShowText.{show_text, PrintsSetup, ShowStops, ReportsShow};
ghost use Rattle.ffv1_commands.specs.Devices.{UnlessWriting};

use crate::devices::{read_file, write_file};
use crate::fault::CliFault;
use crate::path::CommandPath;
use crate::setup_lines::{SampleForm, push_lines};
use ffv1_devices::{FromRead, Sink, Source, ThroughWrite};
use ffv1_range::Setup;
use std::alloc::{AllocError, Global};
use std::io::{Read, Write};

/// Reads a configuration record to its end and prints its setup for frames of this width and height in samples: the
/// versions, the planes with the logarithms of the chroma subsampling, the grid, the sets of quantization tables with
/// their contexts, ec and intra.
///
/// Returns `Read` if the record can't be read or is longer than 2^30 bytes, `Setup` with the first fault of the record if
/// it gives no setup of the profile, and `Memory` if an allocation fails: then nothing was written. Returns `Write` if the
/// output fails: then a front of the text was written.
pub fn run_show<R: Read, W: Write>(
    alloc: Global,
    input: &mut R,
    width: u32,
    height: u32,
    output: &mut W,
) -> Result<(), CliFault>
    ensures ok { OnOk result (IfSome (R.remaining input.old)
        (λ config. PrintsSetup config width height (W.contents output.old) (W.contents output.new))) }
    ensures few { OnOk result (IfSome (R.remaining input.old) (λ config. length config ≤ payload_limit)) }
    ensures err { IfErr result (ShowStops width height (R.remaining input.old) (W.contents output.old) (W.contents output.new)) }
    ensures untouched { IfErr result (λ fault. UnlessWriting fault (output.new ≡ output.old)) }
    ensures names { IfErr result (NamesPath IsShowPath) }
{
    show_of(
        alloc,
        &mut FromRead::new(input),
        width,
        height,
        &mut ThroughWrite::new(output),
    )
}

/// The command over a source and a sink, whose logs say how it went: at `Read` the source was given up or passed the limit, and at
/// `Write` the sink was given up; no other failures came but interruptions.
pub fn show_of<R: Source, W: Sink>(
    alloc: Global,
    input: &mut R,
    width: u32,
    height: u32,
    output: &mut W,
) -> Result<(), CliFault>
    ensures reported { ReportsShow result width height (R.log input.old) (R.log input.new) (W.log output.old) (W.log output.new) }
    ensures untouched { IfErr result (λ fault. UnlessWriting fault (output.new ≡ output.old)) }
{
    let text = {
        let setup = {
            let config = read_file(alloc, input, CommandPath::Record)?;
            Setup::read(alloc, config.as_slice(), width, height)?
        };
        shown_text(alloc, &setup)?
    };
    write_file(output, CommandPath::StandardOutput, text.as_bytes())
}

/// The text of a setup. The profile has Golomb-Rice codes, gray or Y Cb Cr, 8 bits a sample, and no alpha.
fn shown_text(alloc: Global, setup: &Setup) -> Result<String, AllocError>
    ensures { IfOk result (λ text. string_bytes text ≡ show_text setup.now) }
{
    let form = SampleForm {
        coder: 0,
        colorspace: 0,
        depth: 8,
        planes: if setup.has_chroma() { 3 } else { 1 },
    };
    let mut text = String::new(alloc);
    push_lines(&mut text, setup.recording(), &form)?;
    Ok(text)
}
