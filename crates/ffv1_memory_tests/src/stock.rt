//! What the calls are made on: a recorded frame of 48 x 32 gray samples in four tiles, and two copies of it in each
//! of which the slices of two tiles are damaged.
use crate::buffer::Buffer;
use ebml::crc32;
use ffv1_hold::{FromWrite, Holding, write_hold};
use ffv1_holding::Framed;
use ffv1_test_frames::{RECORDED, RECORDED_RECORD};
use std::alloc::Global;
use std::io;
use std::io::ErrorKind;

/// The width and height of the frame, in samples.
pub const SIZE: (u32, u32) = (48, 32);

/// The frame with damage in tiles 0 and 2.
pub fn first_copy() -> [u8; 336] {
    let mut copy = RECORDED;
    copy[39] ^= 1;
    copy[209] ^= 1;
    copy
}

/// The frame with damage in tiles 1 and 3.
pub fn second_copy() -> [u8; 336] {
    let mut copy = RECORDED;
    copy[103] ^= 1;
    copy[286] ^= 1;
    copy
}

/// Two copies with damage in tile 3, each in another place of it.
pub fn damaged_copies() -> [[u8; 336]; 2] {
    let (mut one, mut other) = (RECORDED, RECORDED);
    one[230] ^= 1;
    other[320] ^= 1;
    [one, other]
}

/// What stands before the record in a Matroska file: its EBML, and the heads of its Segment, its Tracks, and a track of FFV1.
const BEFORE_RECORD: [u8; 54] = [
    0x1A, 0x45, 0xDF, 0xA3, 0x8B, 0x42, 0x82, 0x88, 0x6D, 0x61, 0x74, 0x72, 0x6F, 0x73, 0x6B, 0x61,
    0x18, 0x53, 0x80, 0x67, 0x41, 0xAA, 0x16, 0x54, 0xAE, 0x6B, 0xC5, 0xAE, 0xC3, 0xD7, 0x81, 0x01,
    0x83, 0x81, 0x01, 0x86, 0x86, 0x56, 0x5F, 0x46, 0x46, 0x56, 0x31, 0xE0, 0x86, 0xB0, 0x81, 0x30,
    0xBA, 0x81, 0x20, 0x63, 0xA2, 0xAA,
];

/// What stands before the frame: the head of its Cluster, a Timestamp, and the fields of its SimpleBlock.
const BEFORE_FRAME: [u8; 16] = [
    0x1F, 0x43, 0xB6, 0x75, 0x41, 0x5A, 0xE7, 0x81, 0x00, 0xA3, 0x41, 0x54, 0x81, 0x00, 0x00, 0x80,
];

/// A Matroska file of the frame, and of its record.
pub fn matroska() -> [u8; 448] {
    let mut file = [0; 448];
    file[..54].copy_from_slice(&BEFORE_RECORD);
    file[54..96].copy_from_slice(&RECORDED_RECORD);
    file[96..112].copy_from_slice(&BEFORE_FRAME);
    file[112..].copy_from_slice(&RECORDED);
    file
}

/// The list of both as one stretch.
pub const TORN_LIST: &[u8] = b"frame 336 1 0 0\n";

/// An element that is its CRC-32, the frame from byte 6 on, and 78 bytes more.
pub fn element() -> [u8; 420] {
    let mut element = [0; 420];
    element[0] = 0xBF;
    element[1] = 0x84;
    element[6..342].copy_from_slice(&RECORDED);
    let crc = crc32(&element[6..]).to_le_bytes();
    element[2..6].copy_from_slice(&crc);
    element
}

/// Two copies of the element with damage in the frame's tile 3 and after the frame, each in other places.
pub fn damaged_elements() -> [[u8; 420]; 2] {
    let (mut one, mut other) = (element(), element());
    one[236] ^= 1;
    one[345] ^= 1;
    other[326] ^= 1;
    other[415] ^= 1;
    [one, other]
}

/// The holding of copies.
pub fn holding_of(alloc: Global, copies: &[&[u8]]) -> io::Result<Holding> {
    let refused = io::Error::from(ErrorKind::OutOfMemory);
    let Ok(mut holding) = Holding::new(alloc, &RECORDED_RECORD, SIZE.0, SIZE.1) else {
        return Err(refused);
    };
    match holding.take_all(copies) {
        Ok(()) => Ok(holding),
        Err(_) => Err(refused),
    }
}

/// The file of a holding; no bytes where it could not be written.
pub fn file_of<S: Framed>(holding: &Holding<S>) -> Buffer {
    let mut sink = FromWrite::new(Buffer::new());
    match write_hold(holding, &mut sink) {
        Ok(()) => sink.into_inner(),
        Err(_) => Buffer::new(),
    }
}

/// The remainder of the file of a holding.
pub fn remainder_of<S: Framed>(holding: &Holding<S>) -> u32 {
    file_of(holding).remainder()
}

/// A holding, and its file.
#[derive(Drop)]
pub struct Held {
    /// The holding.
    pub holding: Holding,
    /// Its file.
    pub file: Buffer,
}

impl Held {
    /// The holding of copies. It fails if an allocation fails.
    fn new(alloc: Global, copies: &[&[u8]]) -> io::Result<Held> {
        let holding = holding_of(alloc, copies)?;
        let file = file_of(&holding);
        Ok(Held { holding, file })
    }
}

/// Holdings of each copy alone.
#[derive(Drop)]
pub struct Alone {
    /// The holding of the first copy.
    pub first: Held,
    /// The holding of the second.
    pub second: Held,
}

impl Alone {
    /// The holdings of both copies. It fails if an allocation fails.
    fn new(alloc: Global) -> io::Result<Alone> {
        let first = Held::new(alloc, &[&first_copy()])?;
        let second = Held::new(alloc, &[&second_copy()])?;
        Ok(Alone { first, second })
    }
}

/// Holdings of each copy alone, and of both.
#[derive(Drop)]
pub struct Stock {
    /// The holdings of each copy alone.
    pub alone: Alone,
    /// The holding of both copies.
    pub both: Held,
}

impl Stock {
    /// All of it. It fails if an allocation fails.
    pub fn new(alloc: Global) -> io::Result<Stock> {
        let alone = Alone::new(alloc)?;
        let both = Held::new(alloc, &[&first_copy(), &second_copy()])?;
        Ok(Stock { alone, both })
    }
}
