//! Passes over copies that are read to the end of their last stretch: what is made and printed.
use crate::element::changed;
use crate::pass::{Wanted, files_come_to, three_come_to};
use ffv1_test_frames::{
    FRAME, LATER_SILENCE, LEFT_DAMAGED, ONE_TILE, RIGHT_DAMAGED, SILENCE, TWO_TILES,
};
use std::alloc::Global;

/// What is shown, a list, two copies, whether all is good, and what is made and printed.
type Row = (
    &'static str,
    &'static str,
    (&'static [u8], &'static [u8]),
    bool,
    &'static [u8],
    &'static str,
);

/// An element that is its CRC-32 and nine bytes.
const RIGHT: &[u8] = b"\xBF\x84\x26\x39\xF4\xCB123456789";

/// The same with another byte.
const WRONG: &[u8] = b"\xBF\x84\x26\x39\xF4\xCB124456789";

/// That one with its own CRC-32.
const OTHER: &[u8] = b"\xBF\x84\xA8\x07\x53\x0E124456789";

/// A frame of FLAC with a damaged byte.
const DAMAGED_SILENCE: [u8; 12] = [0xFF, 0xF8, 0x64, 8, 0, 0x3F, 0x5E, 0, 1, 0, 0xC6, 0x3C];

/// Two slices of a frame, of which each copy has one.
const FRAME_LINES: &str =
    "stretch 1 frame whole 00\n  11..22 settled 10\n  0..11 settled 01\n  end whole\n";

/// Four stretches.
const FOUR_LINES: &str =
    "stretch 1 plain alone -1\nstretch 2 plain agreed 11\nstretch 3 plain alone 1-\n\
stretch 4 plain alone -1\n";

/// The frame with another damaged byte in tile 0.
const LEFT_HURT: [u8; 22] = [
    0xFC, 0xF6, 0x80, 0, 0, 3, 0, 0x1C, 0x3E, 0xA0, 0x9B, 0x3F, 0x2B, 0x80, 0, 0, 3, 0, 0x56, 0x0F,
    0xD7, 0x3B,
];

/// The record of one tile with a damaged byte.
const ONE_HURT: [u8; 17] = [
    0x56, 0x2B, 0x82, 0xBD, 0xC5, 0x3A, 0x74, 0xE9, 0xD3, 0xA7, 0x4E, 0x9D, 0x26, 0x60, 0x98, 0x8D,
    0xE6,
];

/// The same with another one.
const OTHER_HURT: [u8; 17] = [
    0x56, 0x2B, 0x83, 0xBC, 0xC5, 0x3A, 0x74, 0xE9, 0xD3, 0xA7, 0x4E, 0x9D, 0x26, 0x60, 0x98, 0x8D,
    0xE6,
];

/// A slice that is woven, and one that both copies have.
const WOVEN_LINES: &str =
    "stretch 1 frame woven 4 00\n  11..22 settled 11\n  0..11 woven 4 00\n  end whole\n";

static ROWS: [Row; 20] = [
    (
        "no stretches make nothing",
        "",
        (b"abc", b"abd"),
        true,
        b"",
        "",
    ),
    (
        "frames have the lines of their splice",
        "frame 22 1 0 0\n",
        (&LEFT_DAMAGED, &RIGHT_DAMAGED),
        true,
        &FRAME,
        FRAME_LINES,
    ),
    (
        "frames that all copies have need none",
        "frame 22 1 0 0\n",
        (&FRAME, &FRAME),
        true,
        &FRAME,
        "stretch 1 frame whole 11\n",
    ),
    (
        "a frame is woven where a slice is",
        "frame 22 1 0 0\n",
        (&LEFT_DAMAGED, &LEFT_HURT),
        true,
        &FRAME,
        WOVEN_LINES,
    ),
    (
        "a frame that is repaired is reported as missing",
        "frame 22 2 - 0\n",
        (b"", &LEFT_DAMAGED),
        false,
        &FRAME,
        "stretch 1 frame missing -0\n  11..22 settled -1\n  0..11 repaired 88 -0\n  end whole\n",
    ),
    (
        "bytes without a checksum are open, and the second copy is followed",
        "plain 3 2 0 1\n",
        (b"abc", b"xabd"),
        false,
        b"abd",
        "stretch 1 plain open 01\n",
    ),
    (
        "the same, and the first copy is followed",
        "plain 3 1 0 1\n",
        (b"abc", b"xabd"),
        false,
        b"abc",
        "stretch 1 plain open 10\n",
    ),
    (
        "bytes without a checksum are alone",
        "plain 3 1 0 -\n",
        (b"abc", b"anything"),
        false,
        b"abc",
        "stretch 1 plain alone 1-\n",
    ),
    (
        "elements that pass stand",
        "crc32 15 1 0 0\n",
        (RIGHT, WRONG),
        true,
        RIGHT,
        "stretch 1 crc32 whole 10\n",
    ),
    (
        "an element that does not pass is missing",
        "crc32 15 2 - 0\n",
        (RIGHT, WRONG),
        false,
        WRONG,
        "stretch 1 crc32 missing -1\n",
    ),
    (
        "elements that pass and differ are disputed, and the first copy is followed",
        "crc32 15 1 0 0\n",
        (RIGHT, OTHER),
        false,
        RIGHT,
        "stretch 1 crc32 disputed 10\n",
    ),
    (
        "the same, and the second copy is followed",
        "crc32 15 2 0 0\n",
        (RIGHT, OTHER),
        false,
        OTHER,
        "stretch 1 crc32 disputed 01\n",
    ),
    (
        "frames of FLAC that pass stand, and have no lines below their own",
        "flac 12 2 0 0\n",
        (&SILENCE, &DAMAGED_SILENCE),
        true,
        &SILENCE,
        "stretch 1 flac whole 10\n",
    ),
    (
        "frames of FLAC that pass and differ are disputed",
        "flac 12 2 0 0\n",
        (&SILENCE, &LATER_SILENCE),
        false,
        &LATER_SILENCE,
        "stretch 1 flac disputed 01\n",
    ),
    (
        "records that pass stand, and zeros are none",
        "record 17 2 0 0\n",
        (&ONE_TILE, &[0; 17]),
        true,
        &ONE_TILE,
        "stretch 1 record whole 10\n",
    ),
    (
        "records that are damaged in different bytes are woven",
        "record 17 1 0 0\n",
        (&ONE_HURT, &OTHER_HURT),
        true,
        &ONE_TILE,
        "stretch 1 record woven 4 00\n",
    ),
    (
        "records that pass and differ are disputed",
        "record 17 2 0 0\n",
        (&ONE_TILE, &TWO_TILES),
        false,
        &TWO_TILES,
        "stretch 1 record disputed 01\n",
    ),
    (
        "a frame of FLAC that no copy has whole is missing",
        "flac 12 1 0 0\n",
        (&DAMAGED_SILENCE, &DAMAGED_SILENCE),
        false,
        &DAMAGED_SILENCE,
        "stretch 1 flac missing 11\n",
    ),
    (
        "records that are damaged alike are missing",
        "record 12 1 0 0\n",
        (&SILENCE, &SILENCE),
        false,
        &SILENCE,
        "stretch 1 record missing 11\n",
    ),
    (
        "bytes between stretches are passed over",
        "plain 1 2 - 1\nplain 2 1 1 3\nplain 3 1 5 -\nplain 1 2 - 6\n",
        (b".bc..def.", b".a.bc.g."),
        false,
        b"abcdefg",
        FOUR_LINES,
    ),
];

#[test]
fn passes_make_and_print_their_stretches(rt: HostRuntime) {
    for &(shown, list, copies, is_good, made, printed) in &ROWS {
        let wanted = Wanted {
            returned: Ok(is_good),
            made,
            printed,
        };
        assert!(rt; files_come_to(rt.alloc(), list, copies, wanted), "{shown}");
    }
}

#[test]
fn frame_that_is_missing_has_lines_where_one_copy_has_it(rt: HostRuntime) {
    let mut damaged = LEFT_DAMAGED;
    damaged[1] ^= 1;
    let wanted = Wanted {
        returned: Ok(false),
        made: &damaged,
        printed: "stretch 1 frame missing -1\n  11..22 settled -1\n  0..11 missing -1\n  end whole\n",
    };
    assert!(rt; files_come_to(rt.alloc(), "frame 22 2 - 0\n", (b"", &damaged), wanted));
}

#[test]
fn bytes_that_three_copies_have_are_agreed(rt: HostRuntime) {
    let wanted = Wanted {
        returned: Ok(true),
        made: b"abc",
        printed: "stretch 1 plain agreed 111\n",
    };
    let copies: [&[u8]; 3] = [b"abc", b"xabc", b"xyabcz"];
    assert!(rt; three_come_to(rt.alloc(), "plain 3 1 0 1 2\n", copies, wanted));
}

/// A list, the bytes of the element that are changed in two copies of it, whether all is good, the bytes that are changed in
/// what is made, and what is printed.
type ElementRow = (
    &'static str,
    (&'static [usize], &'static [usize]),
    bool,
    &'static [usize],
    &'static str,
);

/// Elements that are woven, and parts that have the lines of their splices.
static ELEMENTS: [ElementRow; 7] = [
    (
        "crc32 80 1 0 0\n",
        (&[10], &[78]),
        true,
        &[],
        "stretch 1 crc32 woven 4 00\n",
    ),
    (
        "crc32 80 1 0 0\npart 14 22\n",
        (&[10, 16], &[27, 78]),
        true,
        &[],
        "stretch 1 crc32 woven 4 00\n  part 1\n  11..22 settled 10\n  0..11 settled 01\n  end whole\n",
    ),
    (
        "crc32 80 1 0 0\npart 14 22\n",
        (&[16, 40], &[27, 40]),
        false,
        &[40],
        "stretch 1 crc32 missing 00\n  part 1\n  11..22 settled 10\n  0..11 settled 01\n  end whole\n",
    ),
    (
        "crc32 80 1 0 0\npart 14 22\npart 50 12 flac\n",
        (&[10, 55], &[78]),
        true,
        &[],
        "stretch 1 crc32 woven 4 00\n  part 2\n  0..12 whole 01\n",
    ),
    (
        "crc32 80 1 0 0\npart 14 22\npart 50 12 flac\n",
        (&[10, 55], &[61, 78]),
        true,
        &[],
        "stretch 1 crc32 woven 16 00\n  part 2\n  0..12 missing 00\n",
    ),
    (
        "crc32 80 1 0 0\npart 50 12 flac\n",
        (&[55, 70], &[70]),
        false,
        &[70],
        "stretch 1 crc32 missing 01\n  part 1\n  0..12 whole 01\n",
    ),
    (
        "crc32 80 1 0 0\npart 50 12 flac\n",
        (&[55, 70], &[61, 70]),
        false,
        &[55, 70],
        "stretch 1 crc32 missing 10\n  part 1\n  0..12 missing 10\n",
    ),
];

/// Whether copies of the element come to what the row says.
fn comes_to(alloc: Global, (list, (one, other), is_good, made, printed): &ElementRow) -> bool {
    let (one, other) = (changed(one), changed(other));
    let wanted = Wanted {
        returned: Ok(*is_good),
        made: &changed(made),
        printed,
    };
    files_come_to(alloc, list, (&one, &other), wanted)
}

#[test]
fn elements_are_woven_and_their_parts_spliced(rt: HostRuntime) {
    for row in &ELEMENTS {
        assert!(rt; comes_to(rt.alloc(), row));
    }
}

#[test]
fn an_element_that_a_third_copy_lacks_is_woven(rt: HostRuntime) {
    let (one, other) = (changed(&[10]), changed(&[78]));
    let wanted = Wanted {
        returned: Ok(true),
        made: &changed(&[]),
        printed: "stretch 1 crc32 woven 4 00-\n",
    };
    assert!(rt;
        three_come_to(
            rt.alloc(),
            "crc32 80 1 0 0 -\n",
            [&one, &other, b""],
            wanted
        )
    );
}

#[test]
fn pieces_between_stretches_are_passed_over(rt: HostRuntime) {
    let mut one = [0; 20000];
    one[0] = b'a';
    one[19999] = b'b';
    let wanted = Wanted {
        returned: Ok(false),
        made: b"ab",
        printed: "stretch 1 plain alone 1-\nstretch 2 plain alone 1-\n",
    };
    let list = "plain 1 1 0 -\nplain 1 1 19999 -\n";
    assert!(rt; files_come_to(rt.alloc(), list, (&one, b""), wanted));
}
