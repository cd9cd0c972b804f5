//! The calls of the libraries, each on a recorded frame.
use crate::attempt::{Attempt, Tried};
use crate::buffer::Buffer;
use crate::stock::{
    SIZE, Stock, damaged_copies, first_copy, holding_of, remainder_of, second_copy,
};
use ffv1_bits::remainder;
use ffv1_hold::{
    FromRead, FromWrite, HoldFault, HoldFileFault, Holding, Join, RestoreFault, TakeAllFault,
    join_streams, read_hold, read_holding, write_hold,
};
use ffv1_holding::{Recordings, report};
use ffv1_picture::{Decoder, Frame, FrameFault, Partial, TileOutcome, picture, write_raw};
use ffv1_plane::{TileFault, decode_tile};
use ffv1_range::{Setup, SetupFault};
use ffv1_slice::content_of;
use ffv1_splice::{SpliceFault, splice};
use ffv1_test_frames::{RECORDED, RECORDED_RECORD};
use ffv1_weave::{Check, WeaveResult as Woven, repair, vote, weave};
use std::alloc::{AllocError, Global};
use std::io;
use std::io::ErrorKind;

/// Where the last slice of the frame begins.
const LAST_SLICE: usize = 227;

/// The remainder of the samples of a frame.
fn samples_of(frame: &Frame) -> Tried {
    let mut sink = FromWrite::new(Buffer::new());
    match write_raw(frame, &mut sink) {
        Ok(()) => Tried::Done(sink.into_inner().remainder()),
        Err(_) => Tried::Wrong,
    }
}

/// What a setup says, entry by entry.
fn setup_reported(setup: &Setup) -> Tried {
    let mut reported = setup.grid().tiles() as u32 ^ setup.micro();
    for set in 0..setup.sets() {
        reported = reported
            .wrapping_mul(31)
            .wrapping_add(setup.contexts(set) as u32);
    }
    Tried::Done(reported)
}

/// `Setup::read`.
#[derive(Drop)]
pub struct ReadSetup;

impl Attempt for ReadSetup {
    fn attempt(&mut self, alloc: Global) -> Tried {
        match Setup::read(alloc, &RECORDED_RECORD, SIZE.0, SIZE.1) {
            Ok(setup) => setup_reported(&setup),
            Err(SetupFault::Memory) => Tried::Memory,
            Err(_) => Tried::Wrong,
        }
    }
}

/// `Holding::new`.
#[derive(Drop)]
pub struct MakeHolding;

impl Attempt for MakeHolding {
    fn attempt(&mut self, alloc: Global) -> Tried {
        match Holding::new(alloc, &RECORDED_RECORD, SIZE.0, SIZE.1) {
            Ok(holding) => Tried::Done(remainder_of(&holding)),
            Err(SetupFault::Memory) => Tried::Memory,
            Err(_) => Tried::Wrong,
        }
    }
}

/// `take` of the second copy, where the first is held.
#[derive(Drop)]
pub struct Take {
    held: Holding,
    before: u32,
}

impl Take {
    /// Holds the first copy. It fails if an allocation fails.
    pub fn new(alloc: Global) -> io::Result<Take> {
        let held = holding_of(alloc, &[&first_copy()])?;
        let before = remainder_of(&held);
        Ok(Take { held, before })
    }
}

impl Attempt for Take {
    fn attempt(&mut self, _alloc: Global) -> Tried {
        match self.held.take(&second_copy()) {
            Ok(taken) if (taken.links, taken.slices, taken.new) == (4, 2, 2) => {
                Tried::Done(remainder_of(&self.held))
            }
            Err(HoldFault::Memory) => Tried::Memory,
            Ok(_) | Err(_) => Tried::Wrong,
        }
    }

    fn is_kept(&self) -> bool {
        remainder_of(&self.held) == self.before
    }
}

/// `take_all` of both copies, where none is held.
#[derive(Drop)]
pub struct TakeAll {
    held: Holding,
    /// The remainders of the files of the holdings of no copy and of the first.
    fronts: [u32; 2],
    taken: usize,
}

impl TakeAll {
    /// Holds none. It fails if an allocation fails.
    pub fn new(alloc: Global) -> io::Result<TakeAll> {
        let first = Take::new(alloc)?.before;
        let held = holding_of(alloc, &[])?;
        let fronts = [remainder_of(&held), first];
        Ok(TakeAll {
            held,
            fronts,
            taken: 0,
        })
    }
}

impl Attempt for TakeAll {
    fn attempt(&mut self, _alloc: Global) -> Tried {
        match self.held.take_all(&[&first_copy(), &second_copy()]) {
            Ok(()) => Tried::Done(remainder_of(&self.held)),
            Err(TakeAllFault { taken, cause }) if cause == HoldFault::Memory => {
                self.taken = taken;
                Tried::Memory
            }
            Err(_) => Tried::Wrong,
        }
    }

    /// Whether the copies before the refused one are held.
    fn is_kept(&self) -> bool {
        self.fronts.get(self.taken) == Some(&remainder_of(&self.held))
    }
}

/// `join_with` of the second copy's holding, where the first is held.
#[derive(Drop)]
pub struct JoinWith<'a> {
    held: Holding,
    other: &'a Holding,
    before: u32,
}

impl<'a> JoinWith<'a> {
    /// Holds the first copy. It fails if an allocation fails.
    pub fn new(alloc: Global, stock: &'a Stock) -> io::Result<JoinWith<'a>> {
        let Take { held, before } = Take::new(alloc)?;
        Ok(JoinWith {
            held,
            other: &stock.alone.second.holding,
            before,
        })
    }
}

impl Attempt for JoinWith<'_> {
    fn attempt(&mut self, _alloc: Global) -> Tried {
        match self.held.join_with(self.other) {
            Ok(2) => Tried::Done(remainder_of(&self.held)),
            Err(HoldFault::Memory) => Tried::Memory,
            Ok(_) | Err(_) => Tried::Wrong,
        }
    }

    fn is_kept(&self) -> bool {
        remainder_of(&self.held) == self.before
    }
}

/// `restore` of both copies.
#[derive(Drop)]
pub struct Restore<'a> {
    /// The holding.
    pub held: &'a Holding,
}

impl Attempt for Restore<'_> {
    fn attempt(&mut self, _alloc: Global) -> Tried {
        match self.held.restore() {
            Ok(payload) if payload.as_slice() == RECORDED.as_slice() => {
                Tried::Done(remainder(&payload))
            }
            Err(RestoreFault::Memory) => Tried::Memory,
            Ok(_) | Err(_) => Tried::Wrong,
        }
    }
}

/// `write_hold` of both copies, which takes no memory.
#[derive(Drop)]
pub struct WriteHold<'a> {
    /// The holding.
    pub held: &'a Holding,
}

impl Attempt for WriteHold<'_> {
    fn attempt(&mut self, _alloc: Global) -> Tried {
        let mut sink = FromWrite::new(Buffer::new());
        match write_hold(self.held, &mut sink) {
            Ok(()) => Tried::Done(sink.into_inner().remainder()),
            Err(HoldFileFault::Memory) => Tried::Memory,
            Err(_) => Tried::Wrong,
        }
    }
}

/// `read_hold` of the file of both copies.
#[derive(Drop)]
pub struct ReadHold<'a> {
    /// The file.
    pub file: &'a [u8],
}

impl Attempt for ReadHold<'_> {
    fn attempt(&mut self, alloc: Global) -> Tried {
        match read_hold(alloc, &mut FromRead::new(self.file)) {
            Ok(holding) => Tried::Done(remainder_of(&holding)),
            Err(HoldFileFault::Memory) => Tried::Memory,
            Err(_) => Tried::Wrong,
        }
    }
}

/// `read_holding` of the file of both copies, as one of any recording.
#[derive(Drop)]
pub struct ReadHolding<'a> {
    /// The file.
    pub file: &'a [u8],
}

impl Attempt for ReadHolding<'_> {
    fn attempt(&mut self, alloc: Global) -> Tried {
        match read_holding(alloc, Recordings::Any, &mut FromRead::new(self.file)) {
            Ok(holding) => Tried::Done(remainder_of(&holding)),
            Err(HoldFileFault::Memory) => Tried::Memory,
            Err(_) => Tried::Wrong,
        }
    }
}

/// `join_streams` of the files of the first copy and of the second.
#[derive(Drop)]
pub struct JoinStreams<'a> {
    first: &'a [u8],
    second: &'a [u8],
    both: &'a [u8],
    written: Buffer,
}

impl<'a> JoinStreams<'a> {
    /// The files, of which nothing was written.
    pub fn new(stock: &'a Stock) -> JoinStreams<'a> {
        JoinStreams {
            first: stock.alone.first.file.bytes(),
            second: stock.alone.second.file.bytes(),
            both: stock.both.file.bytes(),
            written: Buffer::new(),
        }
    }
}

impl Attempt for JoinStreams<'_> {
    fn attempt(&mut self, alloc: Global) -> Tried {
        let (mut first, mut second) = (FromRead::new(self.first), FromRead::new(self.second));
        let mut sink = FromWrite::new(Buffer::new());
        let returned = join_streams(alloc, &mut first, &mut second, &mut sink);
        self.written = sink.into_inner();
        match returned {
            Ok(()) => Tried::Done(self.written.remainder()),
            Err(HoldFileFault::Memory) => Tried::Memory,
            Err(_) => Tried::Wrong,
        }
    }

    /// Whether what was written is a front of the file of both, and not all of it.
    fn is_kept(&self) -> bool {
        self.written.begins(self.both)
    }
}

/// `decode_tile` of the last tile.
#[derive(Drop)]
pub struct DecodeTile<'a> {
    /// The setup.
    pub setup: &'a Setup,
}

impl Attempt for DecodeTile<'_> {
    fn attempt(&mut self, alloc: Global) -> Tried {
        if self.setup.grid().tiles() < 4 {
            return Tried::Wrong;
        }
        match decode_tile(alloc, self.setup, 3, content_of(&RECORDED[LAST_SLICE..])) {
            Ok(tile) => match tile.planes.first() {
                Some(plane) => Tried::Done(remainder(plane) ^ (tile.spare_bits % 256) as u32),
                None => Tried::Wrong,
            },
            Err(TileFault::Memory) => Tried::Memory,
            Err(_) => Tried::Wrong,
        }
    }
}

/// `Decoder::new`.
#[derive(Drop)]
pub struct MakeDecoder;

impl Attempt for MakeDecoder {
    fn attempt(&mut self, alloc: Global) -> Tried {
        match Decoder::new(alloc, &RECORDED_RECORD, SIZE.0, SIZE.1) {
            Ok(_) => Tried::Done(0),
            Err(SetupFault::Memory) => Tried::Memory,
            Err(_) => Tried::Wrong,
        }
    }
}

/// `decode_frame` of the frame.
#[derive(Drop)]
pub struct DecodeFrame {
    decoder: Decoder,
}

impl DecodeFrame {
    /// A decoder of the recording. It fails if an allocation fails.
    pub fn new(alloc: Global) -> io::Result<DecodeFrame> {
        match Decoder::new(alloc, &RECORDED_RECORD, SIZE.0, SIZE.1) {
            Ok(decoder) => Ok(DecodeFrame { decoder }),
            Err(_) => Err(io::Error::from(ErrorKind::OutOfMemory)),
        }
    }
}

impl Attempt for DecodeFrame {
    fn attempt(&mut self, _alloc: Global) -> Tried {
        match self.decoder.decode_frame(&RECORDED) {
            Ok(frame) => samples_of(&frame),
            Err(FrameFault::Memory) => Tried::Memory,
            Err(_) => Tried::Wrong,
        }
    }
}

/// `picture` of the first copy.
#[derive(Drop)]
pub struct Picture<'a> {
    /// The holding.
    pub held: &'a Holding,
}

impl Attempt for Picture<'_> {
    fn attempt(&mut self, alloc: Global) -> Tried {
        let Ok(Partial { frame, tiles }) = picture(alloc, self.held) else {
            return Tried::Memory;
        };
        match tiles.as_slice() {
            [
                TileOutcome::Missing,
                TileOutcome::Decoded { .. },
                TileOutcome::Missing,
                TileOutcome::Decoded { .. },
            ] => samples_of(&frame),
            _ => Tried::Wrong,
        }
    }
}

/// `report` of both copies.
#[derive(Drop)]
pub struct Report<'a> {
    /// The holding.
    pub held: &'a Holding,
}

impl Attempt for Report<'_> {
    fn attempt(&mut self, alloc: Global) -> Tried {
        match report(alloc, self.held) {
            Ok(text) => Tried::Done(remainder(text.as_bytes())),
            Err(_) => Tried::Memory,
        }
    }
}

/// `weave` of the last slice of both damaged copies.
#[derive(Drop)]
pub struct Weave;

impl Attempt for Weave {
    fn attempt(&mut self, alloc: Global) -> Tried {
        let [one, other] = damaged_copies();
        match weave(
            alloc,
            Check::Slice,
            &[&one[LAST_SLICE..], &other[LAST_SLICE..]],
        ) {
            Ok(Woven::Woven(bytes, 4)) if bytes.as_slice() == &RECORDED[LAST_SLICE..] => {
                Tried::Done(remainder(&bytes))
            }
            Ok(_) => Tried::Wrong,
            Err(_) => Tried::Memory,
        }
    }
}

/// Whether the last slice came back, of so many that were tried.
fn last_slice_of(made: Result<Option<(Vec<u8>, usize)>, AllocError>, tried: usize) -> Tried {
    match made {
        Ok(Some((bytes, count))) if count == tried && bytes.as_slice() == &RECORDED[LAST_SLICE..] =>
            { Tried::Done(remainder(&bytes)) }
        Ok(_) => Tried::Wrong,
        Err(_) => Tried::Memory,
    }
}

/// `repair` of the last slice of both damaged copies, where one bit is wrong in both.
#[derive(Drop)]
pub struct Repair;

impl Attempt for Repair {
    fn attempt(&mut self, alloc: Global) -> Tried {
        let [mut one, mut other] = damaged_copies();
        one[250] ^= 1;
        other[250] ^= 1;
        last_slice_of(
            repair(alloc, &[&one[LAST_SLICE..], &other[LAST_SLICE..]]),
            3488,
        )
    }
}

/// `vote` of the last slice of both damaged copies and a third one, each damaged in another place.
#[derive(Drop)]
pub struct Vote;

impl Attempt for Vote {
    fn attempt(&mut self, alloc: Global) -> Tried {
        let [one, other] = damaged_copies();
        let mut third = RECORDED;
        third[260] ^= 1;
        let versions = [
            &one[LAST_SLICE..],
            &other[LAST_SLICE..],
            &third[LAST_SLICE..],
        ];
        last_slice_of(vote(alloc, &versions), 4)
    }
}

/// `splice` of both damaged copies.
#[derive(Drop)]
pub struct Splice;

impl Attempt for Splice {
    fn attempt(&mut self, alloc: Global) -> Tried {
        let [one, other] = damaged_copies();
        match splice(alloc, &[&one, &other]) {
            Ok(spliced) if spliced.payload() == RECORDED.as_slice() => {
                Tried::Done(remainder(spliced.payload()))
            }
            Err(SpliceFault::Memory) => Tried::Memory,
            Ok(_) | Err(_) => Tried::Wrong,
        }
    }
}
