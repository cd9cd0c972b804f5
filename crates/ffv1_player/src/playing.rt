//! Frames of sources, played one after the other.
ghost use Rattle.std.specs.Prelude.{◌≡◌, ◌⊎◌, map, IfErr};
ghost use Rattle.ffv1_player.specs.Played.{PlaysFrames, HasFirstFrame};
ghost use Rattle.ffv1_player.specs.Inner.PlaySteps.{ReadsPayload, DecodesNext, PlaysNext, ShowsFrame};

use crate::fault::SamplesFault;
use crate::frame_lines::{frame_text, is_clean_frame};
use crate::player::Player;
use crate::samples::Samples;
use crate::write::write_samples;
use ffv1_bits::PAYLOAD_LIMIT;
use ffv1_devices::{Sink, Source, WholeFault, WriteFailed, read_whole, write_field};
use std::alloc::{AllocError, Global};

/// Why the frames were not all played.
#[derive(Clone, Copy, Debug, PartialEq, Eq)]
pub enum PlayFault {
    /// The source of this place, counted from 0, failed, or has more than 2^30 bytes.
    Read(usize),
    /// The frame of this number, counted from 1 as its line has it, gives no samples. `Memory` is never this fault's cause.
    Samples { number: usize, fault: SamplesFault },
    /// What the samples are written to failed.
    Out,
    /// The output failed.
    Output,
    /// An allocation of memory failed.
    Memory,
}

impl From<AllocError> for PlayFault {
    ghost use Rattle.ffv1_player.specs.declared.playing.PlayFault.TheVariants.{Memory};
    ghost use Rattle.std.specs.Prelude.{◌≡◌};

    ghost from_gives = { λ _ fault. fault ≡ Memory };

    fn from(_refusal: AllocError) -> PlayFault {
        PlayFault::Memory
    }
}

/// The payload of the source at this place.
fn read_payload<S: Source>(
    alloc: Global,
    place: usize,
    source: &mut S,
) -> Result<Vec<u8>, PlayFault>
    ensures { ReadsPayload (λ bytes. bytes.items) place result (S.log source.old) (S.log source.new) }
{
    match read_whole(alloc, source, PAYLOAD_LIMIT) {
        Ok(bytes) => Ok(bytes),
        Err(WholeFault::Read) => Err(PlayFault::Read(place)),
        Err(WholeFault::TooLong) => Err(PlayFault::Read(place)),
        Err(WholeFault::Memory) => Err(PlayFault::Memory),
    }
}

/// The frame of a payload, which has this number.
fn decode_next(player: &mut Player, number: usize, payload: &[u8]) -> Result<Samples, PlayFault>
    ensures { DecodesNext number payload.now player.old player.new result }
{
    match player.decode(payload) {
        Ok(frame) => Ok(frame),
        Err(SamplesFault::Memory) => Err(PlayFault::Memory),
        Err(fault) => Err(PlayFault::Samples { number, fault }),
    }
}

/// The frame of the source at a place, whose number is one more.
fn play_next<S: Source>(
    alloc: Global,
    player: &mut Player,
    place: usize,
    number: usize,
    source: &mut S,
) -> Result<Samples, PlayFault>
    ensures { PlaysNext place number player.old player.new result (S.log source.old) (S.log source.new) }
{
    let payload = read_payload(alloc, place, source)?;
    decode_next(player, number, payload.as_slice())
}

/// Writes the samples of the frame with this number, and prints its lines. Returns whether each of its slices ends as an encoder ends it.
fn show_frame<O: Sink, W: Sink>(
    alloc: Global,
    number: usize,
    frame: &Samples,
    out: &mut O,
    output: &mut W,
) -> Result<bool, PlayFault>
    ensures shown { ShowsFrame number frame.now result (O.log out.old) (O.log out.new) (W.log output.old) (W.log output.new) }
{
    let text = frame_text(alloc, number, frame)?;
    match write_samples(frame, out) {
        Ok(()) => {}
        Err(WriteFailed) => return Err(PlayFault::Out),
    }
    match write_field(output, text.as_bytes()) {
        Ok(()) => Ok(is_clean_frame(frame)),
        Err(WriteFailed) => Err(PlayFault::Output),
    }
}

/// Plays frames, which follow each other in the recording after those that the player has decoded: reads the payload of each source
/// whole; writes the samples of its frame to `out`, as `write_samples` does; and then prints its lines to `output`: `frame 1 key 1 slices 24`,
/// with its number, from 1, whether it is a keyframe, and how many slices it has; and under it `slice 3 unclean spare 8` for
/// each slice, counted from 0 at the payload's front, that does not end as an encoder ends it, with the bits of its content that were not
/// read. Returns whether there is no such slice.
///
/// One payload and the samples of one frame are held at a time. Returns `Read` if a source fails or has more than 2^30 bytes, `Samples` with
/// the first fault of a payload, `Memory` if an allocation fails, and `Out` and `Output` if these fail. The frames before were written and
/// their lines printed, and the sources after it are as they were. Before a frame is decoded, neither `out` nor `output` is touched.
pub fn play_frames<S: Source, O: Sink, W: Sink>(
    alloc: Global,
    player: &mut Player,
    sources: &mut [S],
    out: &mut O,
    output: &mut W,
) -> Result<bool, PlayFault>
    ensures played { PlaysFrames player.old result (map S.log sources.old) (map S.log sources.new)
        (O.log out.old) (O.log out.new) (W.log output.old) (W.log output.new) }
    ensures untouched { IfErr result (λ _. ((out.new ≡ out.old) × (output.new ≡ output.old))
        ⊎ HasFirstFrame player.old (map S.log sources.old) (map S.log sources.new)) }
{
    let mut clean = true;
    for place in 0..sources.len() {
        let frame = play_next(alloc, player, place, place + 1, &mut sources[place])?;
        clean &= show_frame(alloc, place + 1, &frame, out, output)?;
    }
    Ok(clean)
}
