//! Real slices: the frames, the pictures and the reports that they give.
//!
//! Helpers make the calls, so that each test sees plain values.
use crate::holding::{held_of, is_payload};
use crate::streams::{has_failed_after, narrow_sink};
use ffv1_hold::{FromWrite, Holding, Plan, Restoration, RestoreFault, restored};
use ffv1_holding::report;
use ffv1_picture::{
    Decoder, Frame, FrameFault, Partial, TileOutcome, WriteFault, picture, write_raw,
};
use ffv1_plane::TileFault;
use ffv1_range::{HeadFault, SetupFault};
use ffv1_slice::LinkFault;
use ffv1_test_frames::{BLACK, FRAME, LEFT_DAMAGED, RIGHT, RIGHT_DAMAGED};
use std::alloc::{AllocError, Global};

/// A gray record of two tiles beside each other, its five tables of one run each.
pub(crate) const TWO_TILES: [u8; 18] = [
    0x56, 0x2B, 0x83, 0x32, 0x5C, 0xCD, 0x9B, 0x36, 0x6C, 0xD9, 0xB3, 0x66, 0xC3, 0x60, 0x5A, 0xA3,
    0x05, 0x73,
];

/// The same with three.
const THREE_TILES: [u8; 18] = [
    0x56, 0x2B, 0x83, 0x4F, 0x27, 0x76, 0xED, 0xDB, 0xB7, 0x6E, 0xDD, 0xBB, 0x73, 0xE8, 0x06, 0xA8,
    0x41, 0xED,
];

/// Two tiles beside each other, with chroma planes of half the width and height.
const WITH_CHROMA: [u8; 18] = [
    0x56, 0x2B, 0x84, 0xD9, 0x01, 0x5A, 0xB5, 0x6A, 0xD5, 0xAB, 0x56, 0xAD, 0x57, 0x78, 0x86, 0x3C,
    0xDE, 0xA3,
];

/// The same whose codes are cut off.
const CUT: [u8; 11] = [0xFD, 0xF6, 0x00, 0, 0, 3, 0, 0x11, 0xAA, 0xA6, 0x27];

/// Tile 2 of one sample 0.
const THIRD: [u8; 11] = [0x4F, 0x8B, 0x80, 0, 0, 3, 0, 0x21, 0x58, 0x98, 0x3B];

/// Tile 0 of a frame of 6 x 2: luma 1 2 3 and 4 5 6, Cb 10 20, Cr 11 21.
const LEFT_OF_6: [u8; 17] = [
    0xFD, 0xF6, 0x44, 0x81, 0x48, 0x18, 0x40, 0x83, 0, 0, 0, 9, 0, 0x68, 0x35, 0x09, 0x38,
];

/// Slices, one after the other.
pub(crate) fn joined(alloc: Global, slices: &[&[u8]]) -> Result<Vec<u8>, AllocError> {
    let mut payload = Vec::new(alloc);
    for slice in slices {
        payload.extend_from_slice(slice)?;
    }
    Ok(payload)
}

/// The samples of a frame, as they are written.
fn written(alloc: Global, frame: &Frame) -> Option<Vec<u8>> {
    let mut sink = FromWrite::new(Vec::new(alloc));
    match write_raw(frame, &mut sink) {
        Ok(()) => Some(sink.into_inner()),
        Err(_) => None,
    }
}

/// Whether these are the samples of a frame.
fn shows(alloc: Global, frame: &Frame, samples: &[u8]) -> bool {
    match written(alloc, frame) {
        Some(written) => written.as_slice() == samples,
        None => false,
    }
}

/// Whether a frame is gray, of two samples beside each other.
fn is_gray_of_2(frame: &Frame) -> bool {
    let size = (frame.width, frame.height, frame.shift_h, frame.shift_v);
    size == (2, 1, 0, 0) && !frame.has_chroma && frame.planes.len() == 1
}

/// Why a payload is no frame of this width and one line, if there is a decoder of them.
fn fault_of_payload(
    alloc: Global,
    config: &[u8],
    width: u32,
    payload: &[u8],
) -> Option<Option<FrameFault>> {
    match Decoder::new(alloc, config, width, 1) {
        Ok(decoder) => Some(decoder.decode_frame(payload).err()),
        Err(_) => None,
    }
}

/// The same of slices.
fn fault_of(
    alloc: Global,
    config: &[u8],
    width: u32,
    slices: &[&[u8]],
) -> Option<Option<FrameFault>> {
    match joined(alloc, slices) {
        Ok(payload) => fault_of_payload(alloc, config, width, &payload),
        Err(_) => None,
    }
}

/// What can be shown of copies of a frame of this size.
fn shown_of(alloc: Global, record: &[u8], size: (u32, u32), copies: &[&[u8]]) -> Option<Partial> {
    match held_of(alloc, record, size, copies) {
        Some(holding) => picture(alloc, &holding).ok(),
        None => None,
    }
}

/// Whether the report of a holding is this text.
fn is_reported_as(alloc: Global, holding: &Holding, text: &str) -> bool {
    match report(alloc, holding) {
        Ok(report) => report.as_str() == text,
        Err(_) => false,
    }
}

/// Whether what a plan for a frame of two gray tiles comes to is this payload, and a picture of these samples.
fn is_restored(
    alloc: Global,
    plan: &Plan<'_>,
    wanted: Result<&[u8], RestoreFault>,
    samples: &[u8],
) -> bool {
    let Ok(
        Restoration {
            payload,
            picture,
            ..
        },
    ) = restored(alloc, plan, &TWO_TILES, 2, 1)
    else {
        return false;
    };
    let is_payload = is_payload(payload, wanted);
    is_payload && shows(alloc, &picture.frame, samples)
}

/// Whether what is restored of copies of such a frame is this payload, and a picture of these samples.
fn come_to(
    alloc: Global,
    copies: &[&[u8]],
    payload: Result<&[u8], RestoreFault>,
    samples: &[u8],
) -> bool {
    match Box::new(alloc, Plan::New) {
        Ok(new) => is_restored(alloc, &Plan::TakeAll(new, copies), payload, samples),
        Err(_) => false,
    }
}

/// Whether a fault is that of a code that begins at the first sample.
fn is_at_first_sample(fault: TileFault) -> bool {
    matches!(
        fault,
        TileFault::Code {
            plane: 0,
            y: 0,
            x: 0,
            ..
        }
    )
}

/// Whether tile 0 has such a fault, and is the first that has one.
fn stops_at_first_sample(fault: Option<Option<FrameFault>>) -> bool {
    matches!(fault, Some(Some(FrameFault::Tile { tile: 0, cause })) if is_at_first_sample(cause))
}

/// Whether a decoder decodes the frame to its samples.
fn decodes(alloc: Global, decoder: &Decoder) -> bool {
    match decoder.decode_frame(&FRAME) {
        Ok(frame) => is_gray_of_2(&frame) && shows(alloc, &frame, &[0, 0]),
        Err(_) => false,
    }
}

#[test]
fn frame_decodes_to_its_samples(rt: HostRuntime) {
    let is_decoded = match Decoder::new(rt.alloc(), &TWO_TILES, 2, 1) {
        Ok(decoder) => decodes(rt.alloc(), &decoder),
        Err(_) => false,
    };
    assert!(rt; is_decoded);
}

/// Records, widths, slices of them, and why they are no frame, if they are none.
static FRAMES: [(&[u8], u32, &[&[u8]], Option<FrameFault>); 7] = [
    (&TWO_TILES, 2, &[&RIGHT], Some(FrameFault::Chain)),
    (&TWO_TILES, 2, &[], Some(FrameFault::Chain)),
    (
        &THREE_TILES,
        3,
        &[&BLACK, &RIGHT, &THIRD, &THIRD],
        Some(FrameFault::Chain),
    ),
    (
        &TWO_TILES,
        2,
        &[&LEFT_DAMAGED],
        Some(FrameFault::Slice {
            place: 0,
            cause: LinkFault::Parity,
        }),
    ),
    (
        &TWO_TILES,
        2,
        &[&BLACK, &BLACK],
        Some(FrameFault::Slice {
            place: 1,
            cause: LinkFault::Head(HeadFault::FirstElsewhere),
        }),
    ),
    (
        &THREE_TILES,
        3,
        &[&BLACK, &THIRD, &RIGHT],
        Some(FrameFault::Order { place: 1 }),
    ),
    (&THREE_TILES, 3, &[&BLACK, &RIGHT, &THIRD], None),
];

#[test]
fn frames_of_other_slices_are_refused(rt: HostRuntime) {
    for &(record, width, slices, fault) in &FRAMES {
        assert!(rt; fault_of(rt.alloc(), record, width, slices) == Some(fault));
    }
    let cut = fault_of(rt.alloc(), &TWO_TILES, 2, &[&CUT, &RIGHT]);
    assert!(rt; stops_at_first_sample(cut));
}

#[test]
fn decoder_wants_a_size(rt: HostRuntime) {
    let fault = Decoder::new(rt.alloc(), &TWO_TILES, 0, 1).err();
    assert!(rt; fault == Some(SetupFault::Size));
}

/// How the tiles of a copy with a damaged tile 0 come out.
const RIGHT_ALONE: [TileOutcome; 2] = [
    TileOutcome::Missing,
    TileOutcome::Decoded { spare_bits: 7 },
];

/// Whether a picture is of tile 1 alone.
fn is_right_alone(alloc: Global, picture: &Partial) -> bool {
    picture.tiles.as_slice() == RIGHT_ALONE.as_slice() && shows(alloc, &picture.frame, &[128, 0])
}

#[test]
fn damaged_copy_shows_what_it_has(rt: HostRuntime) {
    let is_shown = match shown_of(rt.alloc(), &TWO_TILES, (2, 1), &[&LEFT_DAMAGED]) {
        Some(partial) => is_right_alone(rt.alloc(), &partial),
        None => false,
    };
    assert!(rt; is_shown);
}

/// The report of the frame.
const REPORT: &str = "reel 2x1 tiles 2\n\
     tile 0 settled status 0 bytes 11 held 1 sha256 2d7579baf47b64e0c763d978a7604faa134c6b5bad2d5de919e8d5e71d947f53\n\
     tile 0 origin d851a6f33e0e3c5daec4bafe4532347e5331626564719420468000160d2fb0a1\n\
     tile 1 settled status 0 bytes 11 held 1 sha256 8a6bf82b78d1bfaad9b3cf68b5de562e0910eaed8638e68b8f14b92b77ae9718\n\
     tile 1 origin d851a6f33e0e3c5daec4bafe4532347e5331626564719420468000160d2fb0a1\n\
     settled 2 disputed 0 missing 0\n\
     frame bytes 22 sha256 d851a6f33e0e3c5daec4bafe4532347e5331626564719420468000160d2fb0a1\n";

#[test]
fn whole_frame_is_reported_with_its_digest(rt: HostRuntime) {
    let is_reported = match held_of(rt.alloc(), &TWO_TILES, (2, 1), &[&FRAME]) {
        Some(holding) => is_reported_as(rt.alloc(), &holding, REPORT),
        None => false,
    };
    assert!(rt; is_reported);
}

#[test]
fn damaged_copies_come_back_whole(rt: HostRuntime) {
    let copies: [&[u8]; 2] = [&RIGHT_DAMAGED, &LEFT_DAMAGED];
    assert!(rt; come_to(rt.alloc(), &copies, Ok(&FRAME), &[0, 0]));
}

#[test]
fn one_damaged_copy_is_missing_a_tile(rt: HostRuntime) {
    let missing = Err(RestoreFault::Missing(0));
    assert!(rt; come_to(rt.alloc(), &[&LEFT_DAMAGED], missing, &[128, 0]));
}

/// Whether a sink that fails after so many bytes counts one failure and has that front of the samples.
fn has_front(alloc: Global, frame: &Frame, room: usize, samples: &[u8]) -> bool {
    let mut sink = narrow_sink(alloc, room);
    let is_failed = write_raw(frame, &mut sink) == Err(WriteFault::Write);
    is_failed && has_failed_after(sink, room, samples)
}

/// Whether a sink that fails after any number of the 18 samples of a frame has that front of them.
fn each_front_is_left(alloc: Global, frame: &Frame, samples: &[u8]) -> bool {
    for room in 0..18 {
        if !has_front(alloc, frame, room, samples) {
            return false;
        }
    }
    samples.len() == 18
}

/// The same of what is written of it.
fn fronts_are_left(alloc: Global, frame: &Frame) -> bool {
    match written(alloc, frame) {
        Some(samples) => each_front_is_left(alloc, frame, &samples),
        None => false,
    }
}

#[test]
fn failing_sink_has_a_front_of_the_samples(rt: HostRuntime) {
    let are_left = match shown_of(rt.alloc(), &WITH_CHROMA, (6, 2), &[&LEFT_OF_6]) {
        Some(shown) => fronts_are_left(rt.alloc(), &shown.frame),
        None => false,
    };
    assert!(rt; are_left);
}
