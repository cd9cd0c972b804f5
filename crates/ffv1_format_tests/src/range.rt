//! Worked values, records that FFmpeg 5.1 wrote, and records made by a program of its own.
ghost use Rattle.std.specs.Prelude.{◌≡◌};

use crate::recorded;
use ffv1_range::{RangeDecoder, RangeFault, Setup, SetupFault, Transitions};
use std::alloc::Global;

/// Whether the next unsigned symbols of a row of their own are these values.
fn reads(decoder: &mut RangeDecoder<'_>, values: &[u32]) -> bool
    ensures { decoder.new.mode ≡ decoder.old.mode }
{
    let mut states = [128; 32];
    for value in values {
        if decoder.unsigned(&mut states) != Ok(*value) {
            return false;
        }
    }
    true
}

/// Whether the next signed symbols of a row of their own are these values.
fn reads_signed(decoder: &mut RangeDecoder<'_>, values: &[i64]) -> bool {
    let mut states = [128; 32];
    for value in values {
        if decoder.signed(&mut states) != Ok(*value) {
            return false;
        }
    }
    true
}

/// First bytes of a header, and why they are refused, if they are.
static STARTS: [(&[u8], Option<RangeFault>); 3] = [
    (&[0xFF, 0x00], Some(RangeFault::Start)),
    (&[0xFE, 0xFF], None),
    (&[0xFE], Some(RangeFault::Short)),
];

#[test]
fn start_is_refused_from_the_whole_range_on(rt: HostRuntime) {
    for &(bytes, fault) in &STARTS {
        assert!(rt; RangeDecoder::sentinel(bytes).err() == fault);
    }
}

#[test]
fn no_bytes_are_ones(rt: HostRuntime) {
    let mut decoder = RangeDecoder::closed(&[]).expect(&rt, "no bytes are a start");
    assert!(rt; reads(&mut decoder, &[1; 9]));
}

#[test]
fn slice_headers_end_before_their_codes(rt: HostRuntime) {
    let mut decoder = RangeDecoder::sentinel(&[0xFD, 0xF6, 0x80]).expect(&rt, "a start");
    let mut key = 128;
    let read = (
        decoder.bit(&mut key),
        reads(&mut decoder, &[0; 9]),
        decoder.finish(),
    );
    assert!(rt; read == (Ok(true), true, Ok(2)));
}

#[test]
fn short_content_is_reported_again(rt: HostRuntime) {
    let mut decoder = RangeDecoder::sentinel(&[0x3F, 0x2B]).expect(&rt, "a start");
    let is_read = reads(&mut decoder, &[1, 0, 0, 0, 0, 0, 0]);
    let mut states = [128; 32];
    let unsigned = decoder.unsigned(&mut states).err();
    let faults = [
        unsigned,
        decoder.signed(&mut states).err(),
        decoder.finish().err(),
    ];
    assert!(rt; is_read && faults == [Some(RangeFault::Short); 3]);
}

#[test]
fn signed_symbols_have_their_sign(rt: HostRuntime) {
    let mut decoder = RangeDecoder::closed(&[
        0x82, 0x2E, 0x93, 0x1D, 0xED, 0xE9, 0xFE, 0x65, 0x0A, 0x36, 0x90, 0xDB, 0xFC, 0xFF, 0xFD,
        0xB8, 0xE2, 0xA0, 0xF8,
    ])
    .expect(&rt, "a start");
    assert!(rt;
        reads_signed(
            &mut decoder,
            &[0, 1, -1, 2, -5, 1000, -70000, 4294967295, -4294967295]
        )
    );
}

/// Whether the content of a slice that is range-coded to its end has a keyframe bit 1, a header of tile 0, and these differences.
fn reads_slice(content: &[u8], transitions: &Transitions, differences: &[i64]) -> bool {
    let Ok(mut decoder) = RangeDecoder::slice(content, transitions) else {
        return false;
    };
    let mut state = 128;
    decoder.bit(&mut state) == Ok(true)
        && reads(&mut decoder, &[0, 0, 0, 0, 0, 0, 3, 1, 1])
        && reads_signed(&mut decoder, differences)
}

#[test]
fn one_zero_byte_follows_a_slice(rt: HostRuntime) {
    let standard = Transitions::standard();
    let whole = [0xFC, 0x16, 0x48, 0x2C, 0xE5, 0x9E, 0xC4];
    assert!(rt; reads_slice(&whole, &standard, &[7, -63, 56]));
    assert!(rt; reads_slice(&whole[..6], &standard, &[7, -63, -55]));
    assert!(rt; reads_slice(&whole[..5], &standard, &[7, -63]));
    assert!(rt; !reads_slice(&whole[..5], &standard, &[7, -63, -55]));
    assert!(rt; !reads_slice(&whole[..5], &standard, &[7, -63, 56]));
}

#[test]
fn slices_are_read_by_their_own_transitions(rt: HostRuntime) {
    let content = [0xFB, 0x8D, 0x7E, 0xDE, 0xC3, 0xCB, 0x42];
    let mut deltas = [0; 255];
    deltas[127] = 5;
    assert!(rt; reads_slice(&content, &Transitions::with_deltas(&deltas), &[7, -63, 56]));
    assert!(rt; !reads_slice(&content, &Transitions::standard(), &[7, -63, 56]));
}

/// Records, sizes of their frames, and what is judged before any field.
static JUDGED_FIRST: [(&[u8], (u32, u32), SetupFault); 5] = [
    (&[0; 5], (65535, 65535), SetupFault::TooShort),
    (&[0, 0, 0, 0, 0, 1], (65535, 65535), SetupFault::Parity),
    (&[0; 6], (65535, 65535), SetupFault::Version),
    (&[0; 6], (0, 1), SetupFault::Size),
    (&[0; 6], (1, 65536), SetupFault::Size),
];

#[test]
fn length_parity_and_size_are_judged_first(rt: HostRuntime) {
    for &(record, (width, height), fault) in &JUDGED_FIRST {
        assert!(rt; Setup::read(rt.alloc(), record, width, height).err() == Some(fault));
    }
}

/// Records that are refused for frames of the greatest size, and why.
static REFUSED: [(&[u8], SetupFault); 16] = [
    // values that can't be read
    (
        &[0xFF, 0x00, 0x4E, 0xBF, 0x24, 0xC9],
        SetupFault::Range(RangeFault::Start),
    ),
    (
        &[0x7F, 0x7F, 0xFD, 0x2F, 0x3C, 0xDD, 0x76],
        SetupFault::Range(RangeFault::SymbolTooLong),
    ),
    // other codings
    (
        &[
            0x61, 0x36, 0x56, 0x1D, 0x79, 0xDF, 0xBF, 0x7E, 0xFD, 0xFB, 0xF7, 0xEF, 0xD8, 0xD4,
            0xE6, 0x3B, 0x90,
        ],
        SetupFault::Version,
    ),
    (
        &[
            0x55, 0xCE, 0x64, 0x67, 0xB5, 0xEB, 0xD7, 0xAF, 0x5E, 0xBD, 0x7A, 0xF5, 0x99, 0x73,
            0xA7, 0xA9, 0x97,
        ],
        SetupFault::Micro,
    ),
    (
        &[
            0x56, 0x00, 0x30, 0x28, 0x49, 0xCD, 0x9B, 0x36, 0x6C, 0xD9, 0xB3, 0x66, 0xC4, 0xA5,
            0x75, 0xC8, 0x85,
        ],
        SetupFault::Coder,
    ),
    (
        &[
            0x56, 0x19, 0xE5, 0x28, 0x49, 0xCD, 0x9B, 0x36, 0x6C, 0xD9, 0xB3, 0x66, 0xC4, 0xD2,
            0xE6, 0x39, 0x98,
        ],
        SetupFault::ColorSpace,
    ),
    (
        &[
            0x56, 0x2B, 0xA0, 0xF9, 0x03, 0x2C, 0x58, 0xB1, 0x62, 0xC5, 0x8B, 0x16, 0x19, 0x1A,
            0x97, 0xEF, 0xA5,
        ],
        SetupFault::Depth,
    ),
    // other planes or too many tiles
    (
        &[
            0x56, 0x2B, 0x84, 0x92, 0x76, 0xC7, 0x8F, 0x1E, 0x3C, 0x78, 0xF1, 0xE3, 0xB0, 0x82,
            0x38, 0x9A, 0x6C,
        ],
        SetupFault::ExtraPlane,
    ),
    (
        &[
            0x56, 0x2B, 0x87, 0x2B, 0x8F, 0xB5, 0x6A, 0xD5, 0xAB, 0x56, 0xAD, 0x5A, 0xB3, 0xBF,
            0x94, 0x6B, 0xD4,
        ],
        SetupFault::Subsampling,
    ),
    (
        &[
            0x56, 0x2B, 0x89, 0x70, 0xE7, 0xB3, 0x66, 0xCD, 0x9B, 0x36, 0x6C, 0xD9, 0xB0, 0xD8,
            0xE2, 0x6A, 0x74, 0xDE,
        ],
        SetupFault::Subsampling,
    ),
    (
        &[
            0x56, 0x2B, 0x83, 0x83, 0x57, 0xD4, 0x1D, 0xEE, 0xEF, 0xDF, 0xBF, 0x7E, 0xFD, 0xFB,
            0xF7, 0xD1, 0xA1, 0x57, 0x95, 0x50,
        ],
        SetupFault::TooManyTiles,
    ),
    // other tables or parities
    (
        &[
            0x56, 0x2B, 0x83, 0xDF, 0x90, 0x26, 0x4C, 0x99, 0x32, 0x64, 0xC9, 0x92, 0xEE, 0xF0,
            0x71, 0xFB, 0x68,
        ],
        SetupFault::TableCount,
    ),
    (
        &[
            0x56, 0x2B, 0x83, 0xCE, 0x04, 0x76, 0xF5, 0xEB, 0xD7, 0xAF, 0x5E, 0xBD, 0x7A, 0x6E,
            0x63, 0x85, 0x51, 0xAF,
        ],
        SetupFault::TableCount,
    ),
    (
        &[
            0x56, 0x2B, 0x83, 0xBD, 0xC5, 0x55, 0x4D, 0x55, 0x4D, 0x55, 0x4D, 0x55, 0x4D, 0x50,
            0x94, 0x04, 0xE6, 0x28,
        ],
        SetupFault::TableRun,
    ),
    (
        &[
            0x56, 0x2B, 0x83, 0xC3, 0x28, 0xFF, 0xFF, 0xFF, 0xF2, 0x19, 0xAC, 0x9F, 0x40, 0xA1,
            0x41, 0x10, 0xC8, 0x6B, 0xA3, 0x4D,
        ],
        SetupFault::Contexts,
    ),
    (
        &[
            0x56, 0x2B, 0x83, 0xBD, 0xC5, 0x3A, 0x74, 0xE9, 0xD3, 0xA7, 0x4E, 0x9D, 0x31, 0x32,
            0xCE, 0x06, 0x93,
        ],
        SetupFault::ParityMode,
    ),
];

#[test]
fn records_of_other_values_are_refused(rt: HostRuntime) {
    for &(record, fault) in &REFUSED {
        assert!(rt; Setup::read(rt.alloc(), record, 65535, 65535).err() == Some(fault));
    }
}

/// A record of 4:2:0 frames of 720 x 576 samples in 6 x 4 tiles.
const BROADCAST: [u8; 44] = [
    0x56, 0x2B, 0x84, 0xE6, 0x5D, 0xE8, 0x79, 0xA5, 0x68, 0xF5, 0xD4, 0x8F, 0xF1, 0xCD, 0xBA, 0xCE,
    0x10, 0xA3, 0xE4, 0x05, 0xD9, 0xB4, 0xFD, 0x51, 0xCA, 0x9F, 0x5C, 0x31, 0x13, 0x9D, 0x66, 0x5F,
    0xB9, 0x9C, 0xFB, 0x96, 0x17, 0xAE, 0xDB, 0x80, 0x3B, 0xCD, 0x87, 0x00,
];

/// Records that FFmpeg wrote: their frames' size, tiles across and down, whether they have chroma, and its shifts.
static RECORDED: [(&[u8], [u32; 4], bool, [u32; 2]); 5] = [
    (&recorded::GRAY_RECORD, [48, 32, 2, 2], false, [0, 0]),
    (&BROADCAST, [720, 576, 6, 4], true, [1, 1]),
    (&recorded::QUARTERED_RECORD, [90, 62, 3, 2], true, [1, 1]),
    (&recorded::HALVED_RECORD, [101, 77, 2, 2], true, [1, 0]),
    (&recorded::FULL_RECORD, [64, 64, 4, 4], true, [0, 0]),
];

/// Whether a setup has this size and grid, and the tables that FFmpeg writes.
fn is_recorded(setup: &Setup, size_and_grid: [u32; 4]) -> bool {
    let grid = setup.grid();
    [setup.width(), setup.height(), grid.across(), grid.down()] == size_and_grid
        && (setup.micro(), setup.ec(), setup.intra()) == (4, 1, 1)
        && setup.sets() == 2
        && (setup.contexts(0), setup.contexts(1)) == (666, 7563)
}

/// Whether a setup has chroma planes or none, and these shifts of theirs.
fn has_chroma(setup: &Setup, has_chroma: bool, shifts: [u32; 2]) -> bool {
    setup.has_chroma() == has_chroma && [setup.shift_h(), setup.shift_v()] == shifts
}

#[test]
fn recorded_records_are_read(rt: HostRuntime) {
    for &(record, size_and_grid, chroma, shifts) in &RECORDED {
        let is_read = match Setup::read(rt.alloc(), record, size_and_grid[0], size_and_grid[1]) {
            Ok(setup) => is_recorded(&setup, size_and_grid) && has_chroma(&setup, chroma, shifts),
            Err(_) => false,
        };
        assert!(rt; is_read);
    }
}

/// Sizes of frames in 6 x 4 tiles, and whether they are refused.
static SIZES: [(u32, u32, Option<SetupFault>); 3] = [
    (5, 4, Some(SetupFault::GridTooFine)),
    (6, 3, Some(SetupFault::GridTooFine)),
    (6, 4, None),
];

#[test]
fn grids_finer_than_the_frame_are_refused(rt: HostRuntime) {
    for &(width, height, fault) in &SIZES {
        assert!(rt; Setup::read(rt.alloc(), &BROADCAST, width, height).err() == fault);
    }
}

/// A gray record whose tables have runs of 1, 2 and 125.
const THREE_RUNS: [u8; 19] = [
    0x56, 0x2B, 0x83, 0xBE, 0x73, 0xB5, 0x1E, 0xFE, 0x42, 0x7F, 0x73, 0xBA, 0x41, 0x6E, 0x64, 0xD3,
    0xC8, 0x29, 0x95,
];

/// Entries of that record: of a table, at a place.
static ENTRIES: [(usize, usize, i32); 11] = [
    (0, 0, 0),
    (0, 1, 1),
    (0, 2, 1),
    (0, 3, 2),
    (0, 127, 2),
    (0, 128, -2),
    (0, 253, -2),
    (0, 254, -1),
    (0, 255, -1),
    (1, 1, 5),
    (4, 255, -625),
];

/// Whether a setup's one set has these entries.
fn has_entries(setup: &Setup, entries: &[(usize, usize, i32)]) -> bool {
    for (table, index, entry) in entries {
        if *table >= 5 || *index >= 256 || setup.sets() != 1 {
            return false;
        }
        if setup.entry(0, *table, *index) != *entry {
            return false;
        }
    }
    setup.sets() == 1 && setup.contexts(0) == 1563
}

#[test]
fn entries_count_the_runs_that_have_ended(rt: HostRuntime) {
    let are_counted = match Setup::read(rt.alloc(), &THREE_RUNS, 1, 1) {
        Ok(setup) => has_entries(&setup, &ENTRIES),
        Err(_) => false,
    };
    assert!(rt; are_counted);
}

/// A gray record of two sets, the second with two contexts, and a delta for each state.
const DELTAS: [u8; 105] = [
    0x56, 0x2B, 0x83, 0xC4, 0xEA, 0x70, 0xE1, 0xC3, 0x87, 0x0E, 0x1C, 0x38, 0x74, 0x47, 0x1F, 0x94,
    0xE9, 0xD3, 0xA7, 0x4E, 0x9D, 0x3F, 0xBB, 0x3A, 0x74, 0xE9, 0xD3, 0xA7, 0x4E, 0x9D, 0x3A, 0x74,
    0xE9, 0xD3, 0xA7, 0x4E, 0x9D, 0x3A, 0x74, 0xE9, 0xD3, 0xA7, 0x4E, 0x9D, 0x3A, 0x74, 0xE9, 0xD3,
    0xA7, 0x52, 0x8E, 0xB7, 0xFF, 0x46, 0x6D, 0x8B, 0x21, 0xFD, 0x81, 0x78, 0xCA, 0xCD, 0xB6, 0xBF,
    0x79, 0x5C, 0x83, 0xAB, 0x34, 0x8D, 0xD8, 0xBD, 0x87, 0x3E, 0xF3, 0x79, 0x2A, 0xA9, 0x03, 0x8D,
    0x75, 0xD0, 0x58, 0x61, 0x0D, 0xBC, 0xC2, 0x20, 0xF1, 0x25, 0x55, 0x84, 0xF3, 0x35, 0x97, 0x60,
    0x8E, 0x70, 0x04, 0x78, 0xD8, 0xE0, 0x4A, 0x2A, 0x64,
];

/// A gray record with tables of 128 runs.
const MANY_RUNS: [u8; 19] = [
    0x56, 0x2B, 0x83, 0xC3, 0x28, 0xFF, 0xFF, 0xFF, 0xF2, 0x35, 0x89, 0x12, 0x24, 0x45, 0x30, 0xCD,
    0x12, 0x5A, 0xD4,
];

/// A gray record that gives shifts of chroma.
const SHIFTED: [u8; 19] = [
    0x56, 0x2B, 0x80, 0x88, 0x33, 0xB9, 0xD1, 0xA3, 0x46, 0x8D, 0x1A, 0x34, 0x68, 0xCF, 0x50, 0x59,
    0x30, 0x9D, 0xCE,
];

/// Whether a setup is gray, and has so many sets, of which the first and the last have so many contexts.
fn has_contexts(setup: &Setup, sets: usize, first: u32, last: u32) -> bool {
    sets >= 1
        && setup.sets() == sets
        && (setup.contexts(0), setup.contexts(sets - 1)) == (first, last)
        && setup.intra() == 1
        && has_chroma(setup, false, [0, 0])
}

/// Records with fields that a setup has no use for: how many sets it has, and the contexts of the first and the last.
static MORE_FIELDS: [(&[u8], usize, u32, u32); 3] = [
    (&DELTAS, 2, 1, 2),
    (&MANY_RUNS, 1, 32513, 32513),
    (&SHIFTED, 1, 1, 1),
];

#[test]
fn what_is_not_needed_is_dropped(rt: HostRuntime) {
    for &(record, sets, first, last) in &MORE_FIELDS {
        let is_dropped = match Setup::read(rt.alloc(), record, 1, 1) {
            Ok(setup) => has_contexts(&setup, sets, first, last),
            Err(_) => false,
        };
        assert!(rt; is_dropped);
    }
}
