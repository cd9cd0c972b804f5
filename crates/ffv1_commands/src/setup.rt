//! The command `setup`: prints what a configuration record says of any recording of version 3 (RFC 9043, section 4.3), for frames of one
//! size.
ghost use Rattle.std.specs.Prelude.{◌≡◌, ◌≤◌, ◌++◌, length, IfOk, IfErr, OnOk, IfSome, string_bytes};
ghost use Rattle.std.specs.List.{flat_map};
ghost use Rattle.ffv1_bits.specs.Limits.{payload_limit};
ghost use Rattle.ffv1_commands.specs.Devices.{UnlessWriting};
ghost use Rattle.ffv1_commands.specs.Fault.{NamesPath};
ghost use Rattle.ffv1_commands.specs.Paths.{IsShowPath};
ghost use Rattle.ffv1_commands.specs.SetupText.{coded_word, states_line, format_line, setup_text, PrintsRecording, SetupStops, ReportsSetup};

use crate::devices::{read_file, write_file};
use crate::fault::CliFault;
use crate::formats::push_name;
use crate::path::CommandPath;
use crate::setup_lines::{SampleForm, push_lines};
use ffv1_devices::{FromRead, Sink, Source, ThroughWrite};
use ffv1_range::Recording;
use std::alloc::{AllocError, Global};
use std::io::{Read, Write};

/// Reads a configuration record to its end and prints what it says of any recording of version 3, for frames of this width and height in
/// samples: the lines of `show`, then states_coded of each set of quantization tables, and the name of the planar pixel format that FFmpeg
/// has for such frames, or `-`.
///
/// Returns `Read` if the record can't be read or is longer than 2^30 bytes, `Setup` with the first fault of the record if it is none of
/// version 3, and `Memory` if an allocation fails: then nothing was written. Returns `Write` if the output fails: then a front of the text
/// was written.
pub fn run_setup<R: Read, W: Write>(
    alloc: Global,
    input: &mut R,
    width: u32,
    height: u32,
    output: &mut W,
) -> Result<(), CliFault>
    ensures ok { OnOk result (IfSome (R.remaining input.old)
        (λ config. PrintsRecording config width height (W.contents output.old) (W.contents output.new))) }
    ensures few { OnOk result (IfSome (R.remaining input.old) (λ config. length config ≤ payload_limit)) }
    ensures err { IfErr result (SetupStops width height (R.remaining input.old) (W.contents output.old) (W.contents output.new)) }
    ensures untouched { IfErr result (λ fault. UnlessWriting fault (output.new ≡ output.old)) }
    ensures names { IfErr result (NamesPath IsShowPath) }
{
    setup_of(
        alloc,
        &mut FromRead::new(input),
        width,
        height,
        &mut ThroughWrite::new(output),
    )
}

/// The command over a source and a sink, whose logs say how it went: at `Read` the source was given up or passed the limit, and at
/// `Write` the sink was given up; no other failures came but interruptions.
pub fn setup_of<R: Source, W: Sink>(
    alloc: Global,
    input: &mut R,
    width: u32,
    height: u32,
    output: &mut W,
) -> Result<(), CliFault>
    ensures reported { ReportsSetup result width height (R.log input.old) (R.log input.new) (W.log output.old) (W.log output.new) }
    ensures untouched { IfErr result (λ fault. UnlessWriting fault (output.new ≡ output.old)) }
{
    let text = {
        let recording = {
            let config = read_file(alloc, input, CommandPath::Record)?;
            Recording::read(alloc, config.as_slice(), width, height)?
        };
        setup_text(alloc, &recording)?
    };
    write_file(output, CommandPath::StandardOutput, text.as_bytes())
}

/// The text of what a record says.
fn setup_text(alloc: Global, recording: &Recording) -> Result<String, AllocError>
    ensures { IfOk result (λ text. string_bytes text ≡ setup_text recording.now) }
{
    let form = SampleForm {
        coder: recording.coder(),
        colorspace: u32::from(recording.is_rgb()),
        depth: recording.depth(),
        planes: recording.planes(),
    };
    let mut text = String::new(alloc);
    push_lines(&mut text, recording, &form)?;
    push_states(&mut text, recording)?;
    push_format(&mut text, recording)?;
    Ok(text)
}

/// Adds the line of states_coded.
fn push_states(text: &mut String, recording: &Recording) -> Result<(), AllocError>
    ensures { OnOk result (string_bytes text.new ≡ string_bytes text.old ++ states_line recording.now) }
{
    text.push_str("states")?;
    push_all_coded(text, recording)?;
    text.push_str("\n")
}

/// Adds states_coded of each set.
fn push_all_coded(text: &mut String, recording: &Recording) -> Result<(), AllocError>
    ensures { OnOk result (string_bytes text.new ≡ string_bytes text.old ++ flat_map (λ states. coded_word states.coded) recording.now.states) }
{
    recording.keeps_version_3();
    for set in 0..recording.sets() {
        push_coded(text, recording.states_coded(set))?;
    }
    Ok(())
}

/// Adds one states_coded.
fn push_coded(text: &mut String, coded: bool) -> Result<(), AllocError>
    ensures { OnOk result (string_bytes text.new ≡ string_bytes text.old ++ coded_word coded) }
{
    text.push_str(if coded { " 1" } else { " 0" })
}

/// Adds the line of the pixel format.
fn push_format(text: &mut String, recording: &Recording) -> Result<(), AllocError>
    ensures { OnOk result (string_bytes text.new ≡ string_bytes text.old ++ format_line recording.now) }
{
    text.push_str("format ")?;
    push_name(text, recording)?;
    text.push_str("\n")
}
