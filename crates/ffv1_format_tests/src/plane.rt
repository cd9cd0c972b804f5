//! Tiles decoded to their samples, and refused.
ghost use Rattle.std.specs.Prelude.{◌≤◌, length};

use crate::frames::are_zeros;
use crate::recorded;
use ffv1_bits::{Bits, remainder, remainder_after};
use ffv1_plane::{TileFault, TilePicture, decode_tile};
use ffv1_range::{HeadFault, RangeFault, Setup};
use ffv1_rice::{CodeFault, RunIndex, RunWord, VlcState};
use std::alloc::Global;

/// A gray record whose tables are one run each.
const GRAY: [u8; 18] = [
    0x56, 0x2B, 0x83, 0xBD, 0xC5, 0x3A, 0x74, 0xE9, 0xD3, 0xA7, 0x4E, 0x9D, 0x25, 0x40, 0x72, 0x45,
    0x0F, 0x33,
];

/// A record of three planes of one size, whose tables are one run each.
const COLOUR: [u8; 18] = [
    0x56, 0x2B, 0x8A, 0xBA, 0x60, 0x28, 0x50, 0xA1, 0x42, 0x85, 0x0A, 0x14, 0x11, 0x00, 0xBA, 0x60,
    0xA2, 0xA9,
];

/// A gray record whose first table has runs of 1 and 127, and whose others are one run each.
const TWO_CONTEXTS: [u8; 19] = [
    0x56, 0x2B, 0x83, 0xC0, 0x57, 0xC9, 0x5B, 0x76, 0xED, 0xDB, 0xB7, 0x6E, 0xD3, 0xA0, 0x00, 0xED,
    0x8E, 0x4F, 0xE6,
];

/// The picture of a tile, if the setup has it.
fn decoded(
    alloc: Global,
    setup: &Setup,
    tile: usize,
    content: &[u8],
) -> Option<Result<TilePicture, TileFault>> {
    if tile >= setup.grid().tiles() || content.len() > 1 << 30 {
        return None;
    }
    Some(decode_tile(alloc, setup, tile, content))
}

/// The picture of a frame of one tile, or why there is none; `None` where there is no setup.
fn one_tile(
    alloc: Global,
    record: &[u8],
    (width, height): (u32, u32),
    content: &[u8],
) -> Option<Result<TilePicture, TileFault>> {
    match Setup::read(alloc, record, width, height) {
        Ok(setup) => decoded(alloc, &setup, 0, content),
        Err(_) => None,
    }
}

/// Whether a picture has just these planes, and so many spare bits.
fn is_picture(picture: &TilePicture, planes: &[&[u8]], spare_bits: usize) -> bool {
    for (plane, wanted) in picture.planes.iter().zip(planes) {
        if plane.as_slice() != *wanted {
            return false;
        }
    }
    picture.planes.len() == planes.len() && picture.spare_bits == spare_bits
}

/// A record, a content of a frame of this size, its planes, and its spare bits.
type Worked = (
    &'static [u8],
    (u32, u32),
    &'static [u8],
    &'static [&'static [u8]],
    usize,
);

static WORKED: [Worked; 12] = [
    (&GRAY, (1, 1), &[0xFD, 0xF6, 0x80], &[&[0]], 7),
    (&GRAY, (1, 1), &[0xFD, 0xF6, 0x40], &[&[1]], 4),
    (&GRAY, (1, 1), &[0xFD, 0xF6, 0x50], &[&[255]], 4),
    (&GRAY, (1, 1), &[0xFD, 0xF6, 0x00, 0x07, 0xA0], &[&[128]], 3),
    (
        &GRAY,
        (2, 2),
        &[0xFD, 0xF6, 0x13, 0x50],
        &[&[5, 5, 5, 6]],
        4,
    ),
    (
        &GRAY,
        (2, 2),
        &[0xFD, 0xF6, 0x13, 0x40],
        &[&[5, 5, 5, 7]],
        4,
    ),
    (&GRAY, (8, 1), &[0xFD, 0xF6, 0xFC], &[&[0; 8]], 2),
    (&GRAY, (7, 1), &[0xFD, 0xF6, 0xFC], &[&[0; 7]], 2),
    (&GRAY, (7, 1), &[0xFD, 0xF6, 0xFA], &[&[0; 7]], 1),
    // contexts and their signs
    (
        &TWO_CONTEXTS,
        (2, 1),
        &[0xFD, 0xF6, 0x1F, 0x00],
        &[&[250, 249]],
        7,
    ),
    (
        &TWO_CONTEXTS,
        (1, 2),
        &[0xFD, 0xF6, 0x12, 0x00],
        &[&[5, 5]],
        7,
    ),
    // Cr goes on with the states of Cb
    (
        &COLOUR,
        (1, 1),
        &[0xFD, 0xF6, 0x88, 0x60],
        &[&[0], &[5], &[5]],
        4,
    ),
];

#[test]
fn worked_tiles_have_their_samples(rt: HostRuntime) {
    for &(record, size, content, planes, spare_bits) in &WORKED {
        let is_worked = match one_tile(rt.alloc(), record, size, content) {
            Some(Ok(picture)) => is_picture(&picture, planes, spare_bits),
            _ => false,
        };
        assert!(rt; is_worked);
    }
}

/// Contents of gray frames of these sizes with a fault of a code, and the row and column of its sample.
static UNREADABLE: [(&[u8], (u32, u32), CodeFault, usize, usize); 8] = [
    (&[0xFD, 0xF6, 0x00], (1, 1), CodeFault::Truncated, 0, 0),
    (
        &[0xFD, 0xF6, 0x00, 0x07, 0x98],
        (1, 1),
        CodeFault::LevelTooLarge,
        0,
        0,
    ),
    (&[0xFD, 0xF6, 0x13], (2, 2), CodeFault::Truncated, 1, 1),
    (
        &[0xFD, 0xF6, 0x00, 0x07, 0xA0, 0x00, 0x00, 0x00],
        (2, 1),
        CodeFault::EscapeNotNeeded,
        0,
        1,
    ),
    (
        &[0xFD, 0xF6, 0x00, 0x07, 0xA0, 0x00, 0x00],
        (2, 1),
        CodeFault::Truncated,
        0,
        1,
    ),
    // twelve zeros and `00100100`, after a run word
    (
        &[0xFD, 0xF6, 0x00, 0x01, 0x20],
        (1, 1),
        CodeFault::EscapeNotNeeded,
        0,
        0,
    ),
    // twelve zeros and `11110101`
    (
        &[0xFD, 0xF6, 0x00, 0x07, 0xA8],
        (1, 1),
        CodeFault::CodeTooLarge,
        0,
        0,
    ),
    // eight ones stand for twelve samples
    (&[0xFD, 0xF6, 0xFF], (16, 1), CodeFault::Truncated, 0, 12),
];

/// Why a content of a gray frame of this size is no picture, if it is none.
fn gray_fault(alloc: Global, content: &[u8], size: (u32, u32)) -> Option<TileFault> {
    match one_tile(alloc, &GRAY, size, content) {
        Some(picture) => picture.err(),
        None => None,
    }
}

#[test]
fn codes_without_a_sample_are_reported(rt: HostRuntime) {
    for &(content, size, fault, y, x) in &UNREADABLE {
        let wanted = TileFault::Code {
            fault,
            plane: 0,
            y,
            x,
        };
        assert!(rt; gray_fault(rt.alloc(), content, size) == Some(wanted));
    }
}

/// Contents without a header of the tile, and why.
static HEADLESS: [(&[u8], HeadFault); 2] = [
    (&[0xFD, 0xF6], HeadFault::Range(RangeFault::Short)),
    (&[0x3F, 0x2B, 0x80], HeadFault::NotKey),
];

#[test]
fn contents_without_a_header_are_reported(rt: HostRuntime) {
    for &(content, fault) in &HEADLESS {
        assert!(rt; gray_fault(rt.alloc(), content, (1, 1)) == Some(TileFault::Head(fault)));
    }
}

/// What is read of a tile's bits after its header: the word of a run with so many samples left, or a level.
#[derive(Clone, Copy)]
enum Step {
    Word(u32, RunWord),
    Level(i32),
}

/// Whether this is what is read next.
fn is_next(bits: &mut Bits<'_>, state: &mut VlcState, index: &mut RunIndex, step: Step) -> bool {
    match step {
        Step::Word(left, word) => {
            1 <= left && left <= 65535 && index.read(bits, left) == Ok(word)
        }
        Step::Level(value) => state.decode(bits, true) == Ok(value),
    }
}

/// What the steps of a plane come to: the state and the run index after them, or `None` where others are read.
fn read_plane(
    bits: &mut Bits<'_>,
    state: &mut VlcState,
    steps: &[Step],
) -> Option<((i32, u32, i32, u32), usize)> {
    let mut index = RunIndex::start();
    for step in steps {
        if !is_next(bits, state, &mut index, *step) {
            return None;
        }
    }
    Some((state.parts(), index.index()))
}

#[test]
fn a_worked_tile_ends_with_its_state(rt: HostRuntime) {
    // rows 5 5 and 5 6
    let steps = [
        Step::Word(2, RunWord::Rest(0)),
        Step::Level(5),
        Step::Word(1, RunWord::Full(1)),
        Step::Word(2, RunWord::Full(1)),
        Step::Word(1, RunWord::Rest(0)),
        Step::Level(1),
    ];
    let two = read_plane(
        &mut Bits::new(&[0x13, 0x50]),
        &mut VlcState::start(),
        &steps[..2],
    );
    let all = read_plane(
        &mut Bits::new(&[0x13, 0x50]),
        &mut VlcState::start(),
        &steps,
    );
    assert!(rt; (two, all) == (Some(((0, 8, 1, 2), 0)), Some(((-1, 9, 1, 3), 1))));
}

#[test]
fn cr_goes_on_with_the_state_of_cb(rt: HostRuntime) {
    // the samples 0, 5 and 5 of three planes
    let mut bits = Bits::new(&[0x88, 0x60]);
    let mut luma = VlcState::start();
    let mut chroma = VlcState::start();
    let run = [Step::Word(1, RunWord::Full(1))];
    let five = [Step::Word(1, RunWord::Rest(0)), Step::Level(5)];
    let y = read_plane(&mut bits, &mut luma, &run);
    let cb = read_plane(&mut bits, &mut chroma, &five);
    let cr = read_plane(&mut bits, &mut chroma, &five);
    let wanted = (
        Some(((0, 4, 0, 1), 1)),
        Some(((0, 8, 1, 2), 0)),
        Some(((0, 11, 2, 3), 0)),
    );
    assert!(rt; ((y, cb, cr), bits.left()) == (wanted, 4));
}

/// The run index after a line of so many zeros, or `None` where it is no such line.
fn index_after_line(bits: &mut Bits<'_>, index: &mut RunIndex, width: u32) -> Option<usize> {
    let mut left = width;
    for _ in 0..64 {
        if left < 1 || left > 65535 {
            break;
        }
        match index.read(bits, left).ok()? {
            RunWord::Full(length) if length <= left => left -= length,
            RunWord::ToEnd => left = 0,
            _ => return None,
        }
    }
    if left == 0 { Some(index.index()) } else { None }
}

#[test]
fn three_lines_of_16384_zeros_reach_index_31(rt: HostRuntime) {
    let mut bits = Bits::new(&[0xFF, 0xFF, 0xFF, 0xFF, 0x80]);
    let mut index = RunIndex::start();
    let reached = (
        index_after_line(&mut bits, &mut index, 16384),
        index_after_line(&mut bits, &mut index, 16384),
        index_after_line(&mut bits, &mut index, 16384),
    );
    assert!(rt; (reached, bits.left()) == ((Some(29), Some(30), Some(31)), 7));
}

/// Whether a picture has one plane of so many zeros, and so many spare bits.
fn is_of_zeros(picture: &TilePicture, samples: usize, spare_bits: usize) -> bool {
    match picture.planes.as_slice() {
        [plane] => {
            plane.len() == samples && picture.spare_bits == spare_bits && are_zeros(plane)
        }
        _ => false,
    }
}

/// Contents of zeros in lines of 16384 samples, how many lines and samples they are, and their spare bits.
static ZEROS: [(&[u8], u32, usize, usize); 2] = [
    (&[0xFD, 0xF6, 0xFF, 0xFF, 0xFF, 0xFF, 0x80], 3, 49152, 7),
    (
        &[
            0xFD, 0xF6, 0xFF, 0xFF, 0xFF, 0xFF, 0xFF, 0xFF, 0xFF, 0xFF, 0xFF, 0xFF, 0xFF, 0xFF,
        ],
        65,
        1_064_960,
        1,
    ),
];

#[test]
fn lines_of_zeros(rt: HostRuntime) {
    for &(content, height, samples, spare_bits) in &ZEROS {
        let are_zeros = match one_tile(rt.alloc(), &GRAY, (16384, height), content) {
            Some(Ok(picture)) => is_of_zeros(&picture, samples, spare_bits),
            _ => false,
        };
        assert!(rt; are_zeros);
    }
}

/// The remainder of samples, followed by four bytes of 0.
fn remainder_of(samples: &[u8]) -> u32 {
    remainder_after(remainder(samples), &[0; 4])
}

/// Whether the planes of a picture have these remainders.
fn has_remainders(picture: &TilePicture, remainders: &[u32]) -> bool {
    for (plane, wanted) in picture.planes.iter().zip(remainders) {
        if remainder_of(plane) != *wanted {
            return false;
        }
    }
    picture.planes.len() == remainders.len()
}

/// Whether each tile of a recorded frame is decoded to the samples of these remainders.
fn are_as_recorded(alloc: Global, setup: &Setup, tiles: &[(&[u8], &[u32])]) -> bool {
    for (tile, row) in tiles.iter().enumerate() {
        let is_as_recorded = match decoded(alloc, setup, tile, row.0) {
            Some(Ok(picture)) => has_remainders(&picture, row.1),
            _ => false,
        };
        if !is_as_recorded {
            return false;
        }
    }
    true
}

/// A record, a frame's size, and for each tile its content and the remainders of its planes.
type Recorded = (
    &'static [u8],
    (u32, u32),
    &'static [(&'static [u8], &'static [u32])],
);

static FRAMES: [Recorded; 4] = [
    (&recorded::GRAY_RECORD, (48, 32), &recorded::GRAY),
    (&recorded::HALVED_RECORD, (101, 77), &recorded::HALVED),
    (&recorded::QUARTERED_RECORD, (90, 62), &recorded::QUARTERED),
    (&recorded::FULL_RECORD, (64, 64), &recorded::FULL),
];

#[test]
fn recorded_frames_are_as_ffmpeg_decodes_them(rt: HostRuntime) {
    for &(record, (width, height), tiles) in &FRAMES {
        let is_as_recorded = match Setup::read(rt.alloc(), record, width, height) {
            Ok(setup) => are_as_recorded(rt.alloc(), &setup, tiles),
            Err(_) => false,
        };
        assert!(rt; is_as_recorded);
    }
}
