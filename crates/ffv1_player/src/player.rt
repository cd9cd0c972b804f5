//! A player of frames (RFC 9043, sections 4.4 to 4.9).
ghost use Rattle.std.specs.Prelude.{◌≡◌, List, IfOk, IfErr};
ghost use Rattle.ffv1_layout.specs.Layout.{headers_of};
ghost use Rattle.ffv1_player.specs.Frames.{is_key, BeginsWith, IsPlayedFrame};
ghost use Rattle.ffv1_player.specs.Faults.{IsFirstSamplesFault};
ghost use Rattle.ffv1_player.specs.Players.{left_values, last_value};
ghost use Rattle.ffv1_player.specs.Fitting.{FitLeft, FitLast};
ghost use Rattle.ffv1_player.specs.Profile.{FrameIsPlayed};
ghost use Rattle.ffv1_player.specs.Laws.{PlayedFramesAreOne};
ghost use Rattle.ffv1_player.specs.SmallNotions.{PlayedAreFrames, DecodedIsFrame};
ghost use Rattle.ffv1_player.specs.Inner.Playing.{IsPreviousStop};

use crate::before::{LeftSlice, first_stop};
use crate::drawn::{DrawnFrame, decode_slices};
use crate::fault::SamplesFault;
use crate::samples::Samples;
use ffv1_layout::{PlacedSlice, read_layout};
use ffv1_range::{Recording, SetupFault};
use std::alloc::Global;
use std::marker::Model;

/// Decodes the frames of a recording, in their order.
#[derive(Drop)]
pub struct Player {
    alloc: Global,
    recording: Recording,
    /// What the slices of the frame before have left, if it was decoded.
    before: Option<Vec<LeftSlice>>,
}

impl Model for Player {
    ghost use Rattle.ffv1_player.specs.Players.{PlayerValue, player_value, last_value};
    ghost use Rattle.ffv1_player.specs.Fitting.{FitLast};

    ghost Value = { PlayerValue };

    ghost view = { λ player. player_value player.recording (last_value player.before) };

    ghost invariant = { λ player. FitLast player.recording (last_value player.before) };
}

/// Whether a payload's slices are those of a keyframe.
fn is_key(placed: &[PlacedSlice<'_>]) -> bool
    ensures { result ≡ is_key (headers_of placed.now) }
{
    match placed.first() {
        Some(slice) => slice.header.key == Some(true),
        None => false,
    }
}

/// With what the slices of a frame begin: in a keyframe with nothing, else with what those of the frame before have left.
fn begin(
    alloc: Global,
    recording: &Recording,
    placed: &[PlacedSlice<'_>],
    last: Option<Vec<LeftSlice>>,
) -> Result<Vec<LeftSlice>, SamplesFault>
    ensures ok { IfOk result (λ before. BeginsWith recording.now (headers_of placed.now) (last_value last) (left_values before.items)) }
    ensures err { IfErr result (IsPreviousStop recording.now (headers_of placed.now) (last_value last)) }
{
    if is_key(placed) {
        return Ok(Vec::new(alloc));
    }
    let Some(before) = last else {
        return Err(SamplesFault::Previous { place: 0 });
    };
    match first_stop(recording, placed, &before) {
        Some(place) => Err(SamplesFault::Previous { place }),
        None => Ok(before),
    }
}

/// The frame of a payload after what the frame before has left, and what it leaves.
fn play(
    alloc: Global,
    recording: &Recording,
    payload: &[u8],
    last: Option<Vec<LeftSlice>>,
) -> Result<(Samples, Vec<LeftSlice>), SamplesFault>
    requires { FitLast recording.now (last_value last) }
    ensures ok { IfOk result (λ played. IsPlayedFrame recording.now (last_value last) payload.now played.0 (left_values played.1.items)) }
    ensures fit { IfOk result (λ played. FitLeft recording.now (left_values played.1.items)) }
    ensures err { IfErr result (IsFirstSamplesFault recording.now (last_value last) payload.now) }
{
    let placed = read_layout(alloc, recording, payload)?;
    let before = begin(alloc, recording, &placed, last)?;
    let frame = decode_slices(alloc, recording, &placed, &before)?;
    let DrawnFrame {
        planes,
        slices,
        left,
    } = frame;
    let samples = Samples {
        width: recording.width(),
        height: recording.height(),
        shift_h: recording.shift_h(),
        shift_v: recording.shift_v(),
        is_rgb: recording.is_rgb(),
        has_alpha: recording.has_alpha(),
        depth: recording.depth(),
        key: is_key(&placed),
        planes,
        slices,
    };
    Ok((samples, left))
}

impl Player {
    ghost use Rattle.std.specs.Prelude.{◌⊎◌, None, Some, Err, OnErr, MatchResult};
    ghost use Rattle.ffv1_range.specs.Setup.{RecordingValue, IsRecordingOf};
    ghost use Rattle.ffv1_range.specs.SetupFaults.{FirstRecordingFault};
    ghost use Rattle.ffv1_range.specs.SetupForms.{Grants, record_read};
    ghost use Rattle.ffv1_range.specs.declared.scope.Scope.TheVariants.{Version3};
    ghost use Rattle.ffv1_player.specs.Frames.{planes_of_samples, LeftValue, IsSameFrame};
    ghost use Rattle.ffv1_player.specs.Players.{player_value};
    ghost use Rattle.ffv1_player.specs.SmallRecords.{IsRecord};
    ghost use Rattle.ffv1_player.specs.SmallFrames.{IsFrame};
    ghost use Rattle.ffv1_player.specs.declared.samples.Samples.{Samples};

    /// A player of the frames of a recording, of which none was decoded.
    ///
    /// It is refused exactly as `Recording::read` refuses them.
    pub fn new(alloc: Global, config: &[u8], width: u32, height: u32) -> Result<Player, SetupFault>
        ensures found { IfOk result (λ player. IsRecordingOf config.now width height player.recording) }
        ensures none { IfOk result (λ player. player.last ≡ None) }

        // For a record of version 3 the result is its player, or `Memory`.
        ensures only { (r : RecordingValue) → IsRecordingOf config.now width height r
            → MatchResult result (λ player. player ≡ player_value r None) (λ fault. fault ≡ SetupFault.Memory) }

        // The same with no word of faults: a record is read exactly if it says something of such frames, or memory runs out.
        ensures says { IfOk result (λ player. IsRecord config.now width height player.recording) }
        ensures said { (r : RecordingValue) → IsRecord config.now width height r
            → MatchResult result (λ player. player.recording ≡ r) (λ fault. fault ≡ SetupFault.Memory) }

        // A refusal is the first that reading meets, or Memory ..
        ensures first { IfErr result (λ fault. (fault ≡ SetupFault.Memory) ⊎ FirstRecordingFault config.now width height fault) }

        // .. which stands where `Recording::read` asks for memory.
        ensures fault { IfErr result (λ fault. (granted : Grants) × (record_read granted config.now Version3 width height ≡ Err fault)) }
    {
        let recording = Recording::read(alloc, config, width, height)?;
        Ok(Player {
            alloc,
            recording,
            before: None,
        })
    }

    /// The samples of the next frame, from its payload (RFC 9043, sections 4.4 to 4.9). The slices of a keyframe begin anew. Those of
    /// another frame begin with the states that the slices of their numbers have left in the frame before, which is the payload that was decoded
    /// last. Where the chroma places of slices overlap the last slice of the payload has the place, and where none lies a sample is
    /// 2^(depth - 1).
    ///
    /// Refused with the first fault: `Chain`; then for each place upwards `Slice`, its parity before its header; then `Overlap`, then
    /// `Uncovered`, then `Previous`; then for each place upwards `Content`. Returns `Memory` if an allocation fails. A frame that is refused
    /// leaves no states: up to the next keyframe each frame is refused, with `Previous` where no fault comes before it. The recording stays.
    ///
    /// A frame takes 2 bytes a sample, and the player keeps what its slices leave: 32 bytes a context and group with coder_type 1 and 2, 16
    /// with coder_type 0. While it decodes a frame that is no keyframe it keeps what the frame before has left too. Besides it takes what
    /// `read_layout` takes, and for one slice at a time what `decode_slice` takes.
    pub fn decode(&mut self, payload: &[u8]) -> Result<Samples, SamplesFault>
        ensures ok { IfOk result (λ frame. (left : List LeftValue) × IsPlayedFrame self.old.recording self.old.last payload.now frame left
            × (self.new.last ≡ Some left)) }

        // Wherever the payload has a frame, that is returned, or Memory.
        ensures found { (frame : Samples) (left : List LeftValue) → IsPlayedFrame self.old.recording self.old.last payload.now frame left
            → MatchResult result (λ read. IsSameFrame read frame) (λ fault. fault ≡ SamplesFault.Memory) }

        // The same with no word of faults: the payload is the frame that is returned, and where it is a frame, that is returned, or Memory.
        ensures shown { IfOk result (λ frame. (left : List LeftValue) × IsFrame self.old.recording self.old.last payload.now frame left
            × (self.new.last ≡ Some left)) }
        ensures sought { (frame : Samples) (left : List LeftValue) → IsFrame self.old.recording self.old.last payload.now frame left
            → MatchResult result (λ read. (planes_of_samples read ≡ planes_of_samples frame) × (read.key ≡ frame.key))
            (λ fault. fault ≡ SamplesFault.Memory) }

        ensures err { IfErr result (IsFirstSamplesFault self.old.recording self.old.last payload.now) }
        ensures nothing_left { OnErr result (self.new.last ≡ None) }
        ensures same { self.new.recording ≡ self.old.recording }
    {
        self.recording.keeps_version_3();
        let last = self.before.take();
        let (frame, left) = play(self.alloc, &self.recording, payload, last)?;
        self.before = Some(left);
        Ok(frame)
    }
}

/// For a record of the profile a frame that a payload spells is played, after any frame before. So where `Decoder::decode_frame` of
/// `ffv1_picture` gives a frame, `Player::decode` gives the same samples, or `Memory`.
pub fn frame_is_played()
    ensures { FrameIsPlayed }
{}

/// Of a recording of version 3, after what a frame before has left, a payload has at most one frame, at most one fault beside `Memory`, and never both.
pub fn played_frames_are_one()
    ensures { PlayedFramesAreOne }
{}

/// Of any recording frames that are played one after the other are frames of their payloads by the definitions that have no word of faults. So are
/// those that `Decoder::decode_frame` of `ffv1_picture` gives.
pub fn notions_are_of_players()
    ensures played { PlayedAreFrames }
    ensures profile { DecodedIsFrame }
{}
