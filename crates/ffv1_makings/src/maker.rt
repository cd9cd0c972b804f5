//! A maker of the frames of a recording (RFC 9043, sections 4.4 to 4.9).
ghost use Rattle.std.specs.Prelude.{◌≡◌, true, false, IsTrue, IfOk, MatchResult, Err, None, map};
ghost use Rattle.ffv1_range.specs.Setup.{IsRecordingOf};
ghost use Rattle.ffv1_makings.specs.Fitting.{FitsPicture};
ghost use Rattle.ffv1_makings.specs.Makers.{AreClean, IsAskedFrame};
ghost use Rattle.ffv1_vectors.specs.declared.fault.MakeFault.TheVariants as MakeFault;

use crate::asked::is_asked;
use crate::fits::fits;
use crate::headers::has_slices;
use crate::record::spell_recording;
use crate::slice::{Making, spell_slice};
use crate::spec::{PictureSpec, RecordingSpec, SliceSpec};
use crate::states::{GroupStates, copy_of, fresh_states};
use ffv1_player::{Player, Samples, SamplesFault, SliceEnd};
use ffv1_range::{Recording, SetupFault, recording_is_one};
use ffv1_vectors::{MakeFault, Successors};
use std::alloc::Global;
use std::marker::Model;
use std::mem;

/// Makes the frames of a recording, in their order. Contracts see it as a player of the frames that it has made.
#[derive(Drop)]
pub struct Maker {
    alloc: Global,
    config: Vec<u8>,
    making: Making,
    player: Player,
    /// What the slices of the frame made last have left.
    left: Vec<GroupStates>,
    /// Whether a frame can go on from that: no refusal came after it.
    goes_on: bool,
}

impl Model for Maker {
    ghost use Rattle.std.specs.Prelude.{◌≡◌};
    ghost use Rattle.ffv1_makings.specs.Makers.{MakerValue};

    ghost Value = { MakerValue };

    ghost view = { λ maker. record { config = maker.config.items; player = maker.player; goes_on = maker.goes_on } };

    ghost invariant = { λ maker. maker.making.recording ≡ maker.player.recording };
}

/// A frame's bytes, and what its slices leave.
#[derive(Drop)]
struct Spelled {
    payload: Vec<u8>,
    left: Vec<GroupStates>,
}

impl Maker {
    ghost use Rattle.ffv1_makings.specs.Asked.{IsAskedRecording};
    ghost use Rattle.ffv1_makings.specs.Fitting.{FitsMaker, HasAskedSlices};
    ghost use Rattle.ffv1_makings.specs.Makers.{MakesFrame};

    /// A maker of frames of a recording with this record and of this size in samples, of which none was made.
    ///
    /// Returns `NotSelf` where the record, for frames of this size, does not read back as what was asked; `Memory` if an allocation of memory
    /// failed.
    pub fn new(
        alloc: Global,
        spec: RecordingSpec,
        width: u32,
        height: u32,
    ) -> Result<Maker, MakeFault>
        ensures recording { IfOk result (λ maker. IsRecordingOf maker.config width height maker.player.recording) }
        ensures asked { IfOk result (λ maker. IsAskedRecording maker.player.recording spec) }
        ensures none { IfOk result (λ maker. maker.player.last ≡ None) }
        ensures goes_on { IfOk result (λ maker. maker.goes_on ≡ false) }
    {
        let config = spell_recording(alloc, &spec)?;
        let recording = read_recording(alloc, &config, width, height)?;
        if !is_asked(&recording, &spec) {
            return Err(MakeFault::NotSelf);
        }
        recording_is_one();
        let player = begin_player(alloc, &config, width, height)?;
        let successors = successors_of(&spec);
        Ok(Maker {
            alloc,
            config,
            making: Making {
                spec,
                recording,
                successors,
            },
            player,
            left: Vec::new(alloc),
            goes_on: false,
        })
    }

    /// The record of the recording, its parity included.
    pub fn record(&self) -> &[u8]
        ensures { result.now ≡ self.now.config }
    {
        &self.config
    }

    /// The payload of the next frame. It is returned only if a player of the recording, which has decoded the frames made before, decodes it
    /// to exactly the planes asked for, as a keyframe or none as asked for, of the slices asked for in their order, each with the place, the
    /// size, the table sets and the error status of its own, of which each ends clean.
    ///
    /// Returns `NotSelf`, before any allocation of memory, where the picture does not fit: it has no slice, or one that has no tile, or a tile
    /// outside the grid, or names a table set that the record does not have; its planes are not as many or not of the sizes that the recording
    /// has; or it is no keyframe and no frame was made before it, or none since the last refusal. It is returned too if the payload does not read
    /// back so, as where the slices are not those of the frame before, or the picture can't be coded by the recording's states. Returns `Memory`
    /// if an allocation of memory failed. After a refusal only a keyframe can be made.
    pub fn frame(&mut self, picture: &PictureSpec) -> Result<Vec<u8>, MakeFault>
        ensures made { IfOk result (λ payload. MakesFrame self.old.player self.new.player payload.items picture.now) }
        ensures slices { IfOk result (λ payload. HasAskedSlices self.old.player.recording payload.items picture.now.slices.items) }
        ensures fits { IfOk result (λ payload. FitsMaker self.old picture.now) }
        ensures misfit { (FitsMaker self.old picture.now → ⊥) → result ≡ Err MakeFault.NotSelf }
        ensures goes_on { MatchResult result (λ payload. self.new.goes_on ≡ true) (λ fault. self.new.goes_on ≡ false) }
        ensures config { self.new.config ≡ self.old.config }
        ensures recording { self.new.player.recording ≡ self.old.player.recording }
    {
        let goes_on = mem::replace(&mut self.goes_on, false);
        if !fits_maker(&self.making.recording, goes_on, picture) {
            return Err(MakeFault::NotSelf);
        }
        let Spelled { payload, left } = spell_frame(self.alloc, &self.making, picture, &self.left)?;
        if !has_slices(
            self.alloc,
            &self.making.recording,
            &payload,
            &picture.slices,
        )? {
            return Err(MakeFault::NotSelf);
        }
        match self.player.decode(&payload) {
            Ok(frame) if is_picture(&frame, picture) => {
                self.left = left;
                self.goes_on = true;
                Ok(payload)
            }
            Err(SamplesFault::Memory) => Err(MakeFault::Memory),
            _ => Err(MakeFault::NotSelf),
        }
    }
}

/// Whether a picture fits the recording, and goes on only from a frame.
fn fits_maker(recording: &Recording, goes_on: bool, picture: &PictureSpec) -> bool
    ensures fits { IsTrue result → FitsPicture recording.now picture.now }
    ensures goes_on { IsTrue result → picture.now.key ≡ false → goes_on ≡ true }
{
    (picture.key || goes_on) && fits(recording, picture)
}

/// How states change in the slices of a recording, where not by the default table.
fn successors_of(spec: &RecordingSpec) -> Option<Successors> {
    if spec.coder == 2 {
        Some(Successors::with_deltas(&spec.deltas))
    } else {
        None
    }
}

/// The recording of a record, for frames of this size.
fn read_recording(
    alloc: Global,
    config: &[u8],
    width: u32,
    height: u32,
) -> Result<Recording, MakeFault>
    ensures { IfOk result (IsRecordingOf config.now width height) }
{
    match Recording::read(alloc, config, width, height) {
        Ok(recording) => Ok(recording),
        Err(fault) => Err(fault_of(fault)),
    }
}

/// A player of the recording of a record, with frames of this size.
fn begin_player(alloc: Global, config: &[u8], width: u32, height: u32) -> Result<Player, MakeFault>
    ensures found { IfOk result (λ player. IsRecordingOf config.now width height player.recording) }
    ensures none { IfOk result (λ player. player.last ≡ None) }
{
    match Player::new(alloc, config, width, height) {
        Ok(player) => Ok(player),
        Err(fault) => Err(fault_of(fault)),
    }
}

/// Why nothing is made, where a record is refused.
fn fault_of(fault: SetupFault) -> MakeFault {
    match fault {
        SetupFault::Memory => MakeFault::Memory,
        _ => MakeFault::NotSelf,
    }
}

/// The payload of a frame, where the slices of the frame before have left these states.
fn spell_frame(
    alloc: Global,
    making: &Making,
    picture: &PictureSpec,
    before: &[GroupStates],
) -> Result<Spelled, MakeFault> {
    let mut payload = Vec::new(alloc);
    let mut left = Vec::with_capacity(alloc, picture.slices.len())?;
    for (place, slice) in picture.slices.iter().enumerate() {
        let key = if place == 0 { Some(picture.key) } else { None };
        let states = first_states(alloc, making, picture.key, slice, before.get(place))?;
        let (bytes, after) = spell_slice(alloc, making, key, slice, &picture.planes, states)?;
        payload.extend_from_slice(&bytes)?;
        left.push(after)?;
    }
    Ok(Spelled { payload, left })
}

/// The states with which a slice begins: in a keyframe fresh ones, else those that were left to it.
fn first_states(
    alloc: Global,
    making: &Making,
    key: bool,
    slice: &SliceSpec,
    before: Option<&GroupStates>,
) -> Result<GroupStates, MakeFault> {
    if key {
        return fresh_states(alloc, &making.recording, &making.spec, slice);
    }
    match before {
        Some(states) => Ok(copy_of(alloc, states)?),
        None => Err(MakeFault::NotSelf),
    }
}

/// Whether a frame is the picture that was asked for, and each of its slices ends clean.
fn is_picture(frame: &Samples, picture: &PictureSpec) -> bool
    ensures { IsTrue result → IsAskedFrame frame.now picture.now }
{
    frame.key == picture.key
        && frame.slices.len() == picture.slices.len()
        && are_clean(&frame.slices)
        && same_planes(&frame.planes, &picture.planes)
}

/// Whether all slices end clean.
fn are_clean(slices: &[SliceEnd]) -> bool
    ensures { IsTrue result → AreClean slices.now }
{
    slices.iter().all(|slice| slice.is_clean)
}

/// Whether planes have the same samples.
fn same_planes(planes: &[Vec<u16>], others: &[Vec<u16>]) -> bool
    ensures { IsTrue result → map (λ plane. plane.items) planes.now ≡ map (λ plane. plane.items) others.now }
{
    if planes.len() != others.len() {
        return false;
    }
    for (plane, samples) in planes.iter().enumerate() {
        if !same_samples(samples, &others[plane]) {
            return false;
        }
    }
    true
}

/// Whether samples are the same.
fn same_samples(samples: &[u16], others: &[u16]) -> bool
    ensures { IsTrue result → samples.now ≡ others.now }
{
    samples == others
}
