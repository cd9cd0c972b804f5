//! The command `decode`: writes the samples of a frame (RFC 9043, sections 4.4 to 4.9).
ghost use Rattle.std.specs.Prelude.{◌≡◌, IfOk, IfErr, OnOk, string_bytes};
ghost use Rattle.ffv1_commands.specs.Fault.{NamesPath};
ghost use Rattle.ffv1_commands.specs.Paths.{IsDecodePath};
ghost use Rattle.ffv1_commands.specs.Devices.{UnlessWriting, IfOfRecord};
ghost use Rattle.ffv1_commands.specs.FrameText.{decoded_line};
ghost use Rattle.ffv1_commands.specs.RecordInputs.{TakesSetup, RecordStops};
ghost use Rattle.ffv1_commands.specs.DecodeText.{DecodesFile, DecodeStops, TakesFrame, FrameStops, ReportsDecode};

use crate::devices::read_file;
use crate::fault::CliFault;
use crate::frames::write_shown;
use crate::path::CommandPath;
use ffv1_devices::{FromRead, Sink, Source, ThroughWrite};
use ffv1_picture::{Decoder, Frame};
use std::alloc::{AllocError, Global};
use std::io::{Read, Write};

/// Decodes a frame's payload, for a configuration record and the size of the frame in samples; writes its planes Y,
/// Cb and Cr to `out`, row by row, a byte a sample, and then prints its size, as `decoded 720 x 576 planes 3`.
///
/// The record is judged before the payload is read. Returns `Read` if one of them can't be read, or is longer than
/// 2^30 bytes; `Setup` with the record's first fault; `Frame` with the payload's; `Memory` if an allocation fails:
/// then nothing was written, and `out` was not touched. Returns `Write` if `out` or the output fails: then a front of the
/// samples was written, or all samples and a front of the line.
pub fn run_decode<R: Read, F: Read, O: Write, W: Write>(
    alloc: Global,
    configuration: &mut R,
    width: u32,
    height: u32,
    input: &mut F,
    out: &mut O,
    output: &mut W,
) -> Result<(), CliFault>
    ensures ok { OnOk result (DecodesFile (R.remaining configuration.old) width height (F.remaining input.old)
        (O.contents out.old) (O.contents out.new) (W.contents output.old) (W.contents output.new)) }
    ensures err { IfErr result (DecodeStops (R.remaining configuration.old) width height (F.remaining input.old)
        (O.contents out.old) (O.contents out.new) (W.contents output.old) (W.contents output.new)) }
    ensures untouched { IfErr result (λ fault. UnlessWriting fault ((out.new ≡ out.old) × (output.new ≡ output.old))) }
    ensures in_turn { IfErr result (λ fault. IfOfRecord fault (input.new ≡ input.old)) }
    ensures names { IfErr result (NamesPath IsDecodePath) }
{
    decode_of(
        alloc,
        &mut FromRead::new(configuration),
        width,
        height,
        &mut FromRead::new(input),
        &mut ThroughWrite::new(out),
        &mut ThroughWrite::new(output),
    )
}

/// The command over sources and sinks, whose logs say how it went: at `Read` the source that is named was given up or passed the
/// limit, and at `Write` the sink that is named was given up; no other failures came but interruptions.
pub fn decode_of<R: Source, F: Source, O: Sink, W: Sink>(
    alloc: Global,
    configuration: &mut R,
    width: u32,
    height: u32,
    input: &mut F,
    out: &mut O,
    output: &mut W,
) -> Result<(), CliFault>
    ensures reported { ReportsDecode result width height (R.log configuration.old) (R.log configuration.new) (F.log input.old) (F.log input.new)
        (O.log out.old) (O.log out.new) (W.log output.old) (W.log output.new) }
    ensures untouched { IfErr result (λ fault. UnlessWriting fault ((out.new ≡ out.old) × (output.new ≡ output.old))) }
    ensures in_turn { IfErr result (λ fault. IfOfRecord fault (input.new ≡ input.old)) }
{
    let decoder = read_decoder(alloc, configuration, width, height)?;
    let frame = read_frame(alloc, decoder, input)?;
    let line = decoded_text(alloc, frame.width, frame.height, frame.planes.len())?;
    write_shown(out, &frame, output, line.as_str())
}

/// The decoder that a record gives for frames of this size.
fn read_decoder<R: Source>(
    alloc: Global,
    configuration: &mut R,
    width: u32,
    height: u32,
) -> Result<Decoder, CliFault>
    ensures ok { IfOk result (λ decoder. TakesSetup width height (R.log configuration.old) (R.log configuration.new) decoder) }
    ensures err { IfErr result (RecordStops width height (R.log configuration.old) (R.log configuration.new)) }
{
    let config = read_file(alloc, configuration, CommandPath::Record)?;
    Ok(Decoder::new(alloc, config.as_slice(), width, height)?)
}

/// The frame that a payload spells.
fn read_frame<F: Source>(alloc: Global, decoder: Decoder, input: &mut F) -> Result<Frame, CliFault>
    ensures ok { IfOk result (TakesFrame decoder (F.log input.old) (F.log input.new)) }
    ensures err { IfErr result (FrameStops decoder (F.log input.old) (F.log input.new)) }
{
    let payload = read_file(alloc, input, CommandPath::Frame)?;
    Ok(decoder.decode_frame(payload.as_slice())?)
}

/// The line of a frame's size in luma samples, and of how many planes it has.
fn decoded_text(alloc: Global, width: u32, height: u32, planes: usize) -> Result<String, AllocError>
    ensures { IfOk result (λ line. string_bytes line ≡ decoded_line width height planes) }
{
    format!(in alloc; "decoded {width} x {height} planes {planes}\n")
}
