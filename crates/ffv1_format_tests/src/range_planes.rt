//! Range-coded planes of slices, worked by a program of its own.
use ffv1_bits::GREATEST_SIDE;
use ffv1_plane::{DifferenceFault, LinesFault, PlaneSize, RangeLines, read_range_planes};
use ffv1_range::{
    RangeDecoder, RangeEnd, RangeFault, Recording, Setup, SliceStart, read_head_fields,
    read_slice_head,
};
use std::alloc::Global;

/// Why a slice gives no planes.
#[derive(Clone, Copy, Debug, PartialEq, Eq)]
enum Refusal {
    /// The record, the header or the size is of another kind.
    Other,
    Lines(LinesFault),
}

/// A reader at the start of a slice's samples, with its table sets.
fn planes_of(
    alloc: Global,
    recording: &Recording,
    content: &[u8],
    first: bool,
    width: usize,
    height: usize,
) -> Result<Vec<Vec<u32>>, Refusal> {
    let Ok((header, SliceStart::Samples(decoder))) = read_slice_head(recording, content, first)
    else {
        return Err(Refusal::Other);
    };
    let sets = [
        header.tables[0] as usize,
        header.tables[1] as usize,
        header.tables[2] as usize,
    ];
    let count = recording.sets();
    if sets[0] >= count || sets[1] >= count || sets[2] >= count {
        return Err(Refusal::Other);
    }
    let most = GREATEST_SIDE as usize;
    if width == 0 || width > most || height > most {
        return Err(Refusal::Other);
    }
    let Ok(reader) = RangeLines::start(alloc, recording, &sets, decoder) else {
        return Err(Refusal::Other);
    };
    let size = PlaneSize { width, height };
    let read = match recording.planes() {
        1 => read_range_planes(alloc, recording, &sets, &[size], reader),
        2 => read_range_planes(alloc, recording, &sets, &[size, size], reader),
        3 => read_range_planes(alloc, recording, &sets, &[size, size, size], reader),
        _ => read_range_planes(alloc, recording, &sets, &[size, size, size, size], reader),
    };
    match read {
        Ok((_, planes)) => Ok(planes),
        Err(fault) => Err(Refusal::Lines(fault)),
    }
}

/// A record, the frame's size, the content of its one slice, and the coded samples of its planes.
type PlanesCase = (
    &'static [u8],
    (u32, u32),
    &'static [u8],
    &'static [&'static [u32]],
);

static PLANES: [PlanesCase; 9] = [
    // gray, range coding
    (
        &[
            0x56, 0x00, 0x30, 0x28, 0x49, 0xCD, 0x9B, 0x36, 0x6C, 0xD9, 0xB3, 0x66, 0xC6, 0xAC,
            0xF7, 0xF3, 0xEB,
        ],
        (3, 1),
        &[0xFC, 0x16, 0x48, 0x2C, 0xE5, 0x9E, 0xC4],
        &[&[7, 200, 0]],
    ),
    // gray, range coding by its own transitions
    (
        &[
            0x56, 0x08, 0x73, 0xFF, 0xEF, 0x27, 0xDB, 0x9F, 0xAD, 0xEC, 0x32, 0xEB, 0xD7, 0xAF,
            0x5E, 0xBD, 0x7A, 0xF5, 0xD8, 0x2F, 0x17, 0x90, 0x0C, 0x95,
        ],
        (3, 1),
        &[0xFB, 0x8D, 0x7E, 0xDE, 0xC3, 0xCB, 0x42],
        &[&[7, 200, 0]],
    ),
    // gray of 16 bits, whose predictions are of signed numbers
    (
        &[
            0x56, 0x00, 0x67, 0x9A, 0x6D, 0xB3, 0x66, 0xCD, 0x9B, 0x36, 0x6C, 0xD9, 0xB1, 0x41,
            0x6D, 0x0B, 0x65, 0xEF,
        ],
        (2, 2),
        &[
            0xFC, 0x16, 0x6A, 0xFB, 0x8A, 0xE3, 0x24, 0xDD, 0xDE, 0xA0, 0xA5, 0x56, 0xDA, 0x94,
            0x0B, 0x5F, 0xBB,
        ],
        &[&[40000, 20000, 65535, 1]],
    ),
    // RGB: 10, 20, 30
    (
        &[
            0x55, 0xF6, 0x46, 0xAE, 0x7F, 0x76, 0xED, 0xDB, 0xB7, 0x6E, 0xDD, 0xBB, 0x72, 0xC2,
            0xD9, 0x04, 0x94, 0xC0,
        ],
        (1, 1),
        &[0xFC, 0x16, 0x5C, 0xE2, 0xC0, 0x81, 0x29, 0x1A],
        &[&[17], &[266], &[276]],
    ),
    // RGB of 10 bits, whose green and blue change places: 10, 20, 30
    (
        &[
            0x55, 0xF6, 0x50, 0x59, 0x56, 0xAF, 0x5E, 0xBD, 0x7A, 0xF5, 0xEB, 0xD7, 0xAB, 0x90,
            0x0E, 0x27, 0x77, 0xBA,
        ],
        (1, 1),
        &[0xFC, 0x16, 0x5E, 0x43, 0x58, 0x84, 0x3E, 0xA5, 0xA3],
        &[&[20], &[1014], &[1034]],
    ),
    // RGB of 10 bits with alpha: 10, 20, 30, 1023
    (
        &[
            0x55, 0xF6, 0x50, 0x80, 0x9E, 0xAF, 0x5E, 0xBD, 0x7A, 0xF5, 0xEB, 0xD7, 0xAB, 0x6C,
            0x6D, 0xA1, 0xE4, 0xBB,
        ],
        (1, 1),
        &[
            0xFD, 0x21, 0x38, 0x4F, 0xFB, 0xED, 0x85, 0xCD, 0x66, 0xC7, 0x09, 0x05,
        ],
        &[&[17], &[1034], &[1044], &[1023]],
    ),
    // gray with alpha
    (
        &[
            0x56, 0x00, 0x30, 0x85, 0x20, 0xDD, 0xBB, 0x76, 0xED, 0xDB, 0xB7, 0x6E, 0xD5, 0xBE,
            0xAB, 0xFA, 0x39,
        ],
        (1, 1),
        &[0xFD, 0x21, 0x32, 0x3C, 0x80],
        &[&[10], &[20]],
    ),
    // gray, all initial states 200
    (
        &[
            0x56, 0x00, 0x30, 0x28, 0x49, 0xCD, 0x9B, 0x36, 0x6C, 0xD9, 0xB3, 0x66, 0xD3, 0x03,
            0xA3, 0xAB, 0x47, 0x56, 0x8E, 0xAD, 0x1D, 0x5A, 0x3A, 0xB4, 0x75, 0x68, 0xEA, 0xD1,
            0xD5, 0xA3, 0xAB, 0x47, 0x56, 0x8E, 0xAD, 0x1D, 0x5A, 0x3A, 0xB4, 0x75, 0x68, 0xEA,
            0xD1, 0xD5, 0xA3, 0xAB, 0x47, 0x56, 0x8E, 0xAD, 0x1D, 0x5A, 0x3A, 0xB4, 0x75, 0x68,
            0xEA, 0xD1, 0xD5, 0xA3, 0xAB, 0x47, 0x56, 0x8E, 0xAD, 0x1D, 0x5A, 0x3A, 0xB4, 0x75,
            0x68, 0xEA, 0xCF, 0xEE, 0xAD, 0x9B, 0x19,
        ],
        (1, 1),
        &[0xFC, 0x15, 0xA8, 0xCC],
        &[&[5]],
    ),
    // gray, a difference of -128
    (
        &[
            0x56, 0x00, 0x30, 0x28, 0x49, 0xCD, 0x9B, 0x36, 0x6C, 0xD9, 0xB3, 0x66, 0xC6, 0xAC,
            0xF7, 0xF3, 0xEB,
        ],
        (1, 1),
        &[0xFC, 0x16, 0x69, 0x2A, 0xEB],
        &[&[128]],
    ),
];

#[test]
fn coded_samples_are_those_of_the_content(rt: HostRuntime) {
    for &(record, (width, height), content, wanted) in &PLANES {
        let recording = Recording::read(rt.alloc(), record, width, height).expect(&rt, "a record");
        let planes = planes_of(
            rt.alloc(),
            &recording,
            content,
            true,
            width as usize,
            height as usize,
        )
        .expect(&rt, "planes");
        assert!(rt; planes.len() == wanted.len());
        for (plane, samples) in planes.iter().zip(wanted) {
            assert!(rt; plane.as_slice() == *samples);
        }
    }
}

/// The record of gray.
const GRAY: [u8; 17] = [
    0x56, 0x00, 0x30, 0x28, 0x49, 0xCD, 0x9B, 0x36, 0x6C, 0xD9, 0xB3, 0x66, 0xC6, 0xAC, 0xF7, 0xF3,
    0xEB,
];

/// A frame's width, the content of its one slice, and the fault of its differences in one row, with its column.
static REFUSED: [(u32, &[u8], DifferenceFault, usize); 3] = [
    // the fourth byte after the header is missing
    (
        3,
        &[0xFC, 0x16, 0x48, 0x2C, 0xE5],
        DifferenceFault::Short,
        2,
    ),
    // a difference of 128
    (
        1,
        &[0xFC, 0x16, 0x69, 0x2A, 0x00],
        DifferenceFault::TooLarge,
        0,
    ),
    // one of 256, whose exponent reaches 8
    (
        1,
        &[0xFC, 0x16, 0x6A, 0x15, 0x00],
        DifferenceFault::TooLarge,
        0,
    ),
];

#[test]
fn differences_that_no_samples_have_are_refused(rt: HostRuntime) {
    for &(width, content, fault, x) in &REFUSED {
        let recording = Recording::read(rt.alloc(), &GRAY, width, 1).expect(&rt, "a record");
        let refused = planes_of(rt.alloc(), &recording, content, true, width as usize, 1);
        let wanted = Refusal::Lines(LinesFault::Sample {
            fault,
            plane: 0,
            y: 0,
            x,
        });
        assert!(rt; refused.err() == Some(wanted));
    }
}

#[test]
fn slices_of_two_tiles_are_decoded_each_by_itself(rt: HostRuntime) {
    let record = &[
        0x56, 0x00, 0x2F, 0xD2, 0x28, 0xA7, 0x4E, 0x9D, 0x3A, 0x74, 0xE9, 0xD3, 0xA3, 0xFA, 0x87,
        0x8F, 0xBF, 0x38,
    ];
    let recording = Recording::read(rt.alloc(), record, 2, 2).expect(&rt, "a record");
    let right = planes_of(
        rt.alloc(),
        &recording,
        &[0x99, 0x45, 0x56, 0xAE],
        true,
        1,
        2,
    );
    let left = planes_of(
        rt.alloc(),
        &recording,
        &[0xE0, 0x93, 0x45, 0x2F],
        false,
        1,
        2,
    );
    let right = right.expect(&rt, "planes");
    let left = left.expect(&rt, "planes");
    assert!(rt; right.len() == 1 && right[0].as_slice() == [2, 4].as_slice());
    assert!(rt; left.len() == 1 && left[0].as_slice() == [1, 3].as_slice());
}

#[test]
fn symbols_of_too_many_bits_are_refused(rt: HostRuntime) {
    let recording = Recording::read(rt.alloc(), &GRAY, 3, 1).expect(&rt, "a record");
    let content = [0xFC, 0x16, 0x48, 0x2C, 0xE5, 0x9E, 0xC4];
    match read_slice_head(&recording, &content, true) {
        Ok((_, SliceStart::Samples(mut decoder))) => {
            let mut row = [128; 32];
            assert!(rt; decoder.signed_within(&mut row, 3) == Ok(7));
            assert!(rt; decoder.signed_within(&mut row, 6) == Ok(-63));
            // 56 has six bits.
            let refused = decoder.signed_within(&mut row, 5);
            assert!(rt; refused == Err(RangeFault::SymbolTooLong));
        }
        _ => assert!(rt; false),
    }
}

#[test]
fn a_setup_is_a_recording_of_the_profile(rt: HostRuntime) {
    let record = [
        0x56, 0x2B, 0x83, 0xBD, 0xC5, 0x3A, 0x74, 0xE9, 0xD3, 0xA7, 0x4E, 0x9D, 0x25, 0x40, 0x72,
        0x45, 0x0F, 0x33,
    ];
    let setup = Setup::read(rt.alloc(), &record, 3, 2).expect(&rt, "a record");
    let recording = setup.recording();
    recording.keeps_version_3();
    assert!(rt; recording.coder() == 0);
    assert!(rt; recording.depth() == 8);
    assert!(rt; (recording.width(), recording.height()) == (3, 2));
}

/// How the slice of three gray samples of this content ends.
fn end_of(recording: &Recording, content: &[u8]) -> Result<RangeEnd, RangeFault> {
    let mut decoder = RangeDecoder::slice(content, recording.transitions())?;
    let mut key = 128;
    decoder.bit(&mut key)?;
    read_head_fields(&mut decoder)?;
    let mut row = [128; 32];
    decoder.signed(&mut row)?;
    decoder.signed(&mut row)?;
    decoder.signed(&mut row)?;
    decoder.end()
}

#[test]
fn ends_are_clean_where_nothing_was_cut_or_added(rt: HostRuntime) {
    let recording = Recording::read(rt.alloc(), &GRAY, 3, 1).expect(&rt, "a record");
    let end = end_of(&recording, &[0xFC, 0x16, 0x48, 0x2C, 0xE5, 0x9E, 0xC4]).expect(&rt, "an end");
    assert!(rt; end.is_clean());
    // The last byte is missing.
    let end = end_of(&recording, &[0xFC, 0x16, 0x48, 0x2C, 0xE5, 0x9E]).expect(&rt, "an end");
    assert!(rt; (end.spare, end.is_clean()) == (0, false));
    // A byte follows.
    let end = end_of(
        &recording,
        &[0xFC, 0x16, 0x48, 0x2C, 0xE5, 0x9E, 0xC4, 0x55],
    )
    .expect(&rt, "an end");
    assert!(rt; (end.spare, end.is_clean()) == (1, false));
    // The last byte is another.
    let end = end_of(&recording, &[0xFC, 0x16, 0x48, 0x2C, 0xE5, 0x9E, 0xC5]).expect(&rt, "an end");
    assert!(rt; (end.spare, end.is_clean()) == (0, false));
}
