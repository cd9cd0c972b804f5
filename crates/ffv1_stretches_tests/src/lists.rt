//! Lists of stretches, each kind of line and each refusal.
use ffv1_stretches::{ListFault, Stretch, read_list};
use std::alloc::Global;

/// Whether stretches are shown so.
fn are_shown(alloc: Global, stretches: &[Stretch], wanted: &str) -> bool {
    match format!(in alloc; "{stretches:?}") {
        Ok(shown) => shown.as_str() == wanted,
        Err(_) => false,
    }
}

/// Whether the stretches that a text lists of so many copies are shown so.
fn is_listed(alloc: Global, text: &str, copies: usize, wanted: &str) -> bool {
    match read_list(alloc, text.as_bytes(), copies) {
        Ok(stretches) => are_shown(alloc, &stretches, wanted),
        Err(_) => false,
    }
}

/// Why a text lists no stretches of so many copies; `None` where it lists some.
fn fault_of(alloc: Global, text: &str, copies: usize) -> Option<ListFault> {
    match read_list(alloc, text.as_bytes(), copies) {
        Ok(_) => None,
        Err(fault) => Some(fault),
    }
}

/// Texts with the number of copies, and the stretches that they list.
static LISTED: [(&str, usize, &str); 10] = [
    ("", 2, "[]"),
    ("", 0, "[]"),
    (
        "frame 22 1 0 7\n",
        2,
        "[Stretch { kind: Frame, size: 22, from: 0, places: [Some(0), Some(7)], parts: [] }]",
    ),
    (
        "record 42 1 0 7\n",
        2,
        "[Stretch { kind: Record, size: 42, from: 0, places: [Some(0), Some(7)], parts: [] }]",
    ),
    (
        "flac 12 2 - 5\n",
        2,
        "[Stretch { kind: Flac, size: 12, from: 1, places: [None, Some(5)], parts: [] }]",
    ),
    (
        "plain 3 2 - 5",
        2,
        "[Stretch { kind: Plain, size: 3, from: 1, places: [None, Some(5)], parts: [] }]",
    ),
    (
        "crc32 100 1 9\npart 6 10\npart 16 84 flac\n",
        1,
        "[Stretch { kind: Crc32, size: 100, from: 0, places: [Some(9)], parts: [Part { start: 6, end: 16, sort: Frame }, Part { start: 16, end: 100, sort: Flac }] }]",
    ),
    (
        "plain 3 3 0 - 5\nframe 4 2 3 0 -\n",
        3,
        "[Stretch { kind: Plain, size: 3, from: 2, places: [Some(0), None, Some(5)], parts: [] }, Stretch { kind: Frame, size: 4, from: 1, places: [Some(3), Some(0), None], parts: [] }]",
    ),
    (
        "plain 1073741824 1 18446744073709551615\n",
        1,
        "[Stretch { kind: Plain, size: 1073741824, from: 0, places: [Some(18446744073709551615)], parts: [] }]",
    ),
    (
        "plain 007 01 000",
        1,
        "[Stretch { kind: Plain, size: 7, from: 0, places: [Some(0)], parts: [] }]",
    ),
];

#[test]
fn lists_have_their_stretches(rt: HostRuntime) {
    for &(text, copies, stretches) in &LISTED {
        assert!(rt; is_listed(rt.alloc(), text, copies, stretches), "{text:?}");
    }
}

/// Texts with the number of copies, and the first line of each that is refused: lines that are no stretch.
static NO_STRETCHES: [(&str, usize, usize); 25] = [
    ("\n", 1, 1),
    ("plain 3 1 0\n\n", 1, 2),
    ("\nplain 3 1 0\n", 1, 1),
    ("plane 3 1 0\n", 1, 1),
    ("Plain 3 1 0\n", 1, 1),
    ("plain\n", 1, 1),
    ("plain 3\n", 1, 1),
    ("plain 3 1\n", 1, 1),
    ("plain 3 1\n", 0, 1),
    ("plain  3 1 0\n", 1, 1),
    (" plain 3 1 0\n", 1, 1),
    ("plain 3 1 0 \n", 1, 1),
    ("plain 0 1 0\n", 1, 1),
    ("plain 1073741825 1 0\n", 1, 1),
    ("plain 3 0 0\n", 1, 1),
    ("plain 3 2 0\n", 1, 1),
    ("plain 3 2 0 -\n", 2, 1),
    ("plain 3 18446744073709551615 0\n", 1, 1),
    ("plain 3 1 0\n", 2, 1),
    ("plain 3 1 0 0 0\n", 2, 1),
    ("plain 3 1 -1\n", 1, 1),
    ("plain 3 1 18446744073709551616\n", 1, 1),
    ("plain 3 1 100000000000000000000\n", 1, 1),
    ("plain 3 1 0\r\n", 1, 1),
    ("plain\t3 1 0\n", 1, 1),
];

/// Lines that are a stretch or a part, and do not follow those before them.
static OUT_OF_ORDER: [(&str, usize, usize); 23] = [
    ("plain 3 1 0\nplain 3 1 2\n", 1, 2),
    ("plain 3 1 0 0\nplain 3 1 3 2\n", 2, 2),
    (
        "plain 3 1 0 0\nplain 3 1 9 -\nplain 3 2 - 3\nplain 1 1 11 -\n",
        2,
        4,
    ),
    (
        "plain 1073741824 1 18446744073709551615\nplain 1 1 18446744073709551615\n",
        1,
        2,
    ),
    ("part 6 1\n", 1, 1),
    ("frame 100 1 0\npart 6 1\n", 1, 2),
    ("plain 100 1 0\npart 6 1\n", 1, 2),
    ("crc32 100 1 0\npart 5 1\n", 1, 2),
    ("crc32 100 1 0\npart 6 10\npart 15 1\n", 1, 3),
    ("crc32 100 1 0\npart 20 10\npart 6 10\n", 1, 3),
    ("crc32 100 1 0\npart 6 95\n", 1, 2),
    ("crc32 100 1 0\npart 101 1\n", 1, 2),
    ("crc32 100 1 0\npart 18446744073709551615 1\n", 1, 2),
    ("crc32 100 1 0\npart 6 0\n", 1, 2),
    ("crc32 100 1 0\npart 6\n", 1, 2),
    ("crc32 100 1 0\npart 6 1 1\n", 1, 2),
    ("crc32 100 1 0\npart 6 1 Flac\n", 1, 2),
    ("crc32 100 1 0\npart 6 1 flac flac\n", 1, 2),
    ("crc32 100 1 0\npart 6 1 \n", 1, 2),
    ("frame 100 1 0\npart 6 1 flac\n", 1, 2),
    ("record 100 1 0\npart 6 1\n", 1, 2),
    ("flac 100 1 0\npart 6 1 flac\n", 1, 2),
    ("crc32 100 1 0\nplain 3 1 100\npart 6 1\n", 1, 3),
];

#[test]
fn first_line_that_lists_nothing_is_reported(rt: HostRuntime) {
    for &(text, copies, line) in &NO_STRETCHES {
        let fault = fault_of(rt.alloc(), text, copies);
        assert!(rt; fault == Some(ListFault::Line(line)), "{text:?} {fault:?}");
    }
}

#[test]
fn first_line_out_of_order_is_reported(rt: HostRuntime) {
    for &(text, copies, line) in &OUT_OF_ORDER {
        let fault = fault_of(rt.alloc(), text, copies);
        assert!(rt; fault == Some(ListFault::Line(line)), "{text:?} {fault:?}");
    }
}

/// Lists whose stretches touch, or end where their element does.
static ACCEPTED: [(&str, usize); 4] = [
    ("plain 3 1 0\nplain 3 1 3\n", 1),
    (
        "plain 3 1 0 0\nplain 3 1 9 -\nplain 3 2 - 3\nplain 1 1 12 -\n",
        2,
    ),
    ("crc32 100 1 0\npart 6 94\ncrc32 100 1 100\npart 99 1\n", 1),
    ("plain 1073741824 1 0\n", 1),
];

#[test]
fn stretches_may_touch(rt: HostRuntime) {
    for &(text, copies) in &ACCEPTED {
        let fault = fault_of(rt.alloc(), text, copies);
        assert!(rt; fault.is_none(), "{text:?} {fault:?}");
    }
}
