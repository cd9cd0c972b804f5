//! The command `samples`: writes the samples of the frames of any recording of version 3 (RFC 9043, sections 3.8.1.3, 3.8.2.4 and 4.4 to 4.9).
ghost use Rattle.std.specs.Prelude.{◌≡◌, ◌⊎◌, None, map, vec_len, IfOk, IfErr};
ghost use Rattle.ffv1_player.specs.Players.{player_value};
ghost use Rattle.ffv1_commands.specs.Devices.{IfOfRecord};
ghost use Rattle.ffv1_commands.specs.Fault.{NamesPath};
ghost use Rattle.ffv1_commands.specs.InTurn.{log_of};
ghost use Rattle.ffv1_commands.specs.Paths.{IsTakePath};
ghost use Rattle.ffv1_commands.specs.SamplesText.{PlaysFiles, SamplesStops, FirstIsFrame, ReportsSamples, BeginsPlaying};
ghost use Rattle.ffv1_commands.specs.RecordInputs.{TakesRecording, RecordingStops};
ghost use Rattle.ffv1_commands.specs.SmallSamples.{WritesFrames};

use crate::devices::read_file;
use crate::fault::CliFault;
use crate::path::CommandPath;
use ffv1_devices::{FromRead, Sink, Source, ThroughWrite};
use ffv1_player::{Player, play_frames};
use std::alloc::{AllocError, Global};
use std::io::{Read, Write};

/// Decodes the frames of any recording of version 3 in their order, the first a keyframe, for a configuration record and the size of the
/// frames in samples; writes the samples of each to `out`, and then prints its lines: as `frame 1 key 1 slices 24` its number, counted from 1,
/// whether it is a keyframe, and how many slices it has; and as `slice 3 unclean spare 8` each slice, counted from 0 at the payload's front,
/// that does not end as an encoder ends it, with the bits of its content that were not read. Returns whether there is no such slice.
///
/// The samples of a frame are its planes in the order Y, Cb, Cr or G, B, R, and then alpha, row by row: a byte a sample of at most 8 bits,
/// else two bytes, the low one first. One payload and the samples of one frame are held at a time.
///
/// The record is judged before the first frame is read. Returns `Read` if the record or a frame can't be read or is longer than 2^30 bytes;
/// `Setup` with the record's first fault; `Samples` with the first fault of a payload after the frame before; `Memory` if an
/// allocation fails. A fault of the record leaves `out` and the output untouched, and so does each before the first frame is decoded; at
/// a later one the frames before were written and their lines printed. Returns `Write` if `out` or the output fails: then a front of
/// what was to be written to it was written.
pub fn run_samples<R: Read, F: Read + Drop, O: Write, W: Write>(
    alloc: Global,
    configuration: &mut R,
    width: u32,
    height: u32,
    frames: Vec<F>,
    out: &mut O,
    output: &mut W,
) -> Result<bool, CliFault>
    ensures ok { IfOk result (PlaysFiles (R.remaining configuration.old) width height (map F.remaining frames.items)
        (O.contents out.old) (O.contents out.new) (W.contents output.old) (W.contents output.new)) }
    ensures shown { IfOk result (λ _. WritesFrames (R.remaining configuration.old) width height (map F.remaining frames.items)
        (O.contents out.old) (O.contents out.new)) }
    ensures err { IfErr result (SamplesStops (R.remaining configuration.old) width height (map F.remaining frames.items)
        (O.contents out.old) (O.contents out.new) (W.contents output.old) (W.contents output.new)) }
    ensures untouched { IfErr result (λ fault. IfOfRecord fault ((out.new ≡ out.old) × (output.new ≡ output.old))) }
    ensures begun { IfErr result (λ _. ((out.new ≡ out.old) × (output.new ≡ output.old))
        ⊎ FirstIsFrame (R.remaining configuration.old) width height (map F.remaining frames.items)) }
    ensures names { IfErr result (NamesPath (IsTakePath (vec_len frames))) }
{
    let mut sources = sources_of(alloc, frames)?;
    samples_of(
        alloc,
        &mut FromRead::new(configuration),
        width,
        height,
        sources.as_mut_slice(),
        &mut ThroughWrite::new(out),
        &mut ThroughWrite::new(output),
    )
}

/// The command over sources and sinks, whose logs say how it went: at `Read` the source that is named was given up or passed the
/// limit, and at `Write` the sink that is named was given up; no other failures came but interruptions.
pub fn samples_of<R: Source, F: Source, O: Sink, W: Sink>(
    alloc: Global,
    configuration: &mut R,
    width: u32,
    height: u32,
    frames: &mut [F],
    out: &mut O,
    output: &mut W,
) -> Result<bool, CliFault>
    ensures reported { ReportsSamples result width height (R.log configuration.old) (R.log configuration.new) (map F.log frames.old) (map F.log frames.new)
        (O.log out.old) (O.log out.new) (W.log output.old) (W.log output.new) }
    ensures untouched { IfErr result (λ fault. IfOfRecord fault
        ((frames.new ≡ frames.old) × (out.new ≡ out.old) × (output.new ≡ output.old))) }
    ensures begun { IfErr result (λ _. ((out.new ≡ out.old) × (output.new ≡ output.old))
        ⊎ BeginsPlaying width height (R.log configuration.old) (R.log configuration.new) (map F.log frames.old) (map F.log frames.new)) }
{
    let mut player = read_player(alloc, configuration, width, height)?;
    Ok(play_frames(alloc, &mut player, frames, out, output)?)
}

/// The player that a record gives for frames of this size, of which none was decoded.
fn read_player<R: Source>(
    alloc: Global,
    configuration: &mut R,
    width: u32,
    height: u32,
) -> Result<Player, CliFault>
    ensures ok { IfOk result (λ player. TakesRecording width height (R.log configuration.old) (R.log configuration.new) player.recording) }
    ensures none { IfOk result (λ player. player ≡ player_value player.recording None) }
    ensures err { IfErr result (RecordingStops width height (R.log configuration.old) (R.log configuration.new)) }
{
    let config = read_file(alloc, configuration, CommandPath::Record)?;
    Ok(Player::new(alloc, config.as_slice(), width, height)?)
}

/// The frames, of which nothing was read yet, each with a source of its own.
fn sources_of<F: Read + Drop>(alloc: Global, frames: Vec<F>) -> Result<Vec<FromRead<F>>, AllocError>
    ensures { IfOk result (λ sources. map ⟦<FromRead<F> as Source>⟧.log sources.items ≡ map (λ frame. log_of (F.remaining frame)) frames.items) }
{
    let mut sources = Vec::new(alloc);
    for frame in frames {
        sources.push(FromRead::new(frame))?;
    }
    Ok(sources)
}
