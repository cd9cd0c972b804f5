//! The calls that decode the frames of any recording of version 3, each on a recorded frame.
use crate::attempt::{Attempt, Tried};
use crate::buffer::Buffer;
use crate::stock::SIZE;
use ffv1_devices::FromWrite;
use ffv1_hold::Holding;
use ffv1_layout::{LayoutFault, PlacedSlice, read_layout};
use ffv1_player::{Player, Samples, SamplesFault, Shown, ShownTile, show_holding, write_samples};
use ffv1_range::{Recording, SetupFault};
use ffv1_samples::{SliceFault, SlicePicture, decode_slice};
use ffv1_test_frames::{RECORDED, RECORDED_RECORD};
use std::alloc::Global;
use std::io;
use std::io::ErrorKind;

/// How many bytes of the frame's first slice stand before its footer.
const FIRST_CONTENT: usize = 45;

/// The recording of the frame. It fails if an allocation fails.
fn recorded(alloc: Global) -> io::Result<Recording> {
    match Recording::read(alloc, &RECORDED_RECORD, SIZE.0, SIZE.1) {
        Ok(recording) => Ok(recording),
        Err(_) => Err(io::Error::from(ErrorKind::OutOfMemory)),
    }
}

/// `Player::new`.
#[derive(Drop)]
pub struct MakePlayer;

impl Attempt for MakePlayer {
    fn attempt(&mut self, alloc: Global) -> Tried {
        match Player::new(alloc, &RECORDED_RECORD, SIZE.0, SIZE.1) {
            Ok(_) => Tried::Done(0),
            Err(SetupFault::Memory) => Tried::Memory,
            Err(_) => Tried::Wrong,
        }
    }
}

/// `read_layout` of the frame.
#[derive(Drop)]
pub struct ReadLayout {
    recording: Recording,
}

impl ReadLayout {
    /// The recording of the frame. It fails if an allocation fails.
    pub fn new(alloc: Global) -> io::Result<ReadLayout> {
        let recording = recorded(alloc)?;
        Ok(ReadLayout { recording })
    }
}

/// Where slices lie, slice by slice.
fn layout_reported(placed: &[PlacedSlice<'_>]) -> Tried {
    let mut reported = 0u32;
    for slice in placed {
        reported = reported.wrapping_mul(31).wrapping_add(
            (slice.content.len() % 256) as u32 ^ slice.header.x ^ slice.header.y,
        );
    }
    Tried::Done(reported)
}

impl Attempt for ReadLayout {
    fn attempt(&mut self, alloc: Global) -> Tried {
        match read_layout(alloc, &self.recording, &RECORDED) {
            Ok(placed) => layout_reported(&placed),
            Err(LayoutFault::Memory) => Tried::Memory,
            Err(_) => Tried::Wrong,
        }
    }
}

/// `decode_slice` of the frame's first slice.
#[derive(Drop)]
pub struct DecodeSlice {
    recording: Recording,
}

impl DecodeSlice {
    /// The recording of the frame. It fails if an allocation fails.
    pub fn new(alloc: Global) -> io::Result<DecodeSlice> {
        let recording = recorded(alloc)?;
        Ok(DecodeSlice { recording })
    }
}

/// The samples of a slice's first plane, one after the other.
fn slice_reported(picture: &SlicePicture) -> Tried {
    let Some(plane) = picture.planes.first() else {
        return Tried::Wrong;
    };
    let mut reported = 0u32;
    for &sample in plane {
        reported = reported.wrapping_mul(31).wrapping_add(u32::from(sample));
    }
    Tried::Done(reported)
}

impl Attempt for DecodeSlice {
    fn attempt(&mut self, alloc: Global) -> Tried {
        let content = &RECORDED[..FIRST_CONTENT];
        match decode_slice(alloc, &self.recording, content, true, None) {
            Ok(picture) => slice_reported(&picture),
            Err(SliceFault::Memory) => Tried::Memory,
            Err(_) => Tried::Wrong,
        }
    }
}

/// `Player::decode` of the frame.
#[derive(Drop)]
pub struct PlayFrame {
    player: Player,
}

impl PlayFrame {
    /// A player of the recording. It fails if an allocation fails.
    pub fn new(alloc: Global) -> io::Result<PlayFrame> {
        match Player::new(alloc, &RECORDED_RECORD, SIZE.0, SIZE.1) {
            Ok(player) => Ok(PlayFrame { player }),
            Err(_) => Err(io::Error::from(ErrorKind::OutOfMemory)),
        }
    }
}

/// The remainder of the samples of a frame.
fn samples_reported(frame: &Samples) -> Tried {
    let mut sink = FromWrite::new(Buffer::new());
    match write_samples(frame, &mut sink) {
        Ok(()) => Tried::Done(sink.into_inner().remainder()),
        Err(_) => Tried::Wrong,
    }
}

impl Attempt for PlayFrame {
    fn attempt(&mut self, _alloc: Global) -> Tried {
        match self.player.decode(&RECORDED) {
            Ok(frame) => samples_reported(&frame),
            Err(SamplesFault::Memory) => Tried::Memory,
            Err(_) => Tried::Wrong,
        }
    }
}

/// `show_holding` of the first copy.
#[derive(Drop)]
pub struct ShowHolding<'a> {
    /// The holding.
    pub held: &'a Holding,
}

impl Attempt for ShowHolding<'_> {
    fn attempt(&mut self, alloc: Global) -> Tried {
        let Ok(
            Shown {
                samples,
                tiles,
                is_key_known,
            },
        ) = show_holding(alloc, self.held)
        else {
            return Tried::Memory;
        };
        if !is_key_known {
            return Tried::Wrong;
        }
        match tiles.as_slice() {
            [
                ShownTile::Missing,
                ShownTile::Decoded(_),
                ShownTile::Missing,
                ShownTile::Decoded(_),
            ] => samples_reported(&samples),
            _ => Tried::Wrong,
        }
    }
}
