//! Passes over copies that fail or end, and passes whose outputs take no more.
use crate::devices::Input;
use crate::pass::{AMPLE, Rooms, Wanted, files_come_to, two_come_to};
use ffv1_stretches::MendFault;
use std::alloc::Global;

/// Two stretches that both copies have.
const LIST: &str = "plain 2 1 0 0\nplain 2 2 3 2\n";

/// The lines of the first of them.
const FIRST: &str = "stretch 1 plain agreed 11\n";

/// The lines of both.
const BOTH: &str = "stretch 1 plain agreed 11\nstretch 2 plain open 01\n";

/// Copies that end within a stretch, which of them is reported, and what is made and printed.
static ENDING: [(&[u8], &[u8], usize, &[u8], &str); 4] = [
    (b"ab.c", b"abcx", 0, b"ab", FIRST),
    (b"ab.cd", b"abc", 1, b"ab", FIRST),
    (b"ab", b"abcx", 0, b"ab", FIRST),
    (b"a", b"", 0, b"", ""),
];

#[test]
fn copy_that_ends_within_a_stretch_is_reported(rt: HostRuntime) {
    for &(one, other, copy, made, printed) in &ENDING {
        let wanted = Wanted {
            returned: Err(MendFault::Read(copy)),
            made,
            printed,
        };
        assert!(rt; files_come_to(rt.alloc(), LIST, (one, other), wanted));
    }
}

#[test]
fn copy_that_fails_is_reported(rt: HostRuntime) {
    let (one, other) = (Input::ending(b"ab.cd"), Input::failing(b"abc"));
    let wanted = Wanted {
        returned: Err(MendFault::Read(1)),
        made: b"ab",
        printed: FIRST,
    };
    assert!(rt; two_come_to(rt.alloc(), LIST, one, other, AMPLE, wanted));
}

/// What both stretches come to.
const ALL: Wanted<'static> = Wanted {
    returned: Ok(false),
    made: b"abcx",
    printed: BOTH,
};

#[test]
fn copies_are_read_no_further_than_their_stretches(rt: HostRuntime) {
    let (one, other) = (Input::failing(b"ab.cd"), Input::failing(b"abcx"));
    let is_whole = two_come_to(rt.alloc(), LIST, one, other, AMPLE, ALL);
    let (one, other) = (Input::failing(b""), Input::ending(b"ab"));
    let wanted = Wanted {
        returned: Ok(false),
        made: b"ab",
        printed: "stretch 1 plain alone -1\n",
    };
    let is_alone = two_come_to(rt.alloc(), "plain 2 2 - 0\n", one, other, AMPLE, wanted);
    assert!(rt; is_whole && is_alone);
}

/// Whether a pass over both stretches comes to this, where OUT and the output take so many bytes.
fn comes_with(alloc: Global, rooms: Rooms, wanted: Wanted<'_>) -> bool {
    let (one, other) = (Input::ending(b"ab.cd"), Input::ending(b"abcx"));
    two_come_to(alloc, LIST, one, other, rooms, wanted)
}

/// Whether an OUT that takes so many bytes has them, and the lines of the stretches that it has whole are printed.
fn out_has_front(alloc: Global, room: usize) -> bool {
    let rooms = Rooms {
        out: room,
        output: usize::MAX,
    };
    let wanted = match ALL.made.get(..room) {
        Some(made) if room < 4 => Wanted {
            returned: Err(MendFault::Out),
            made,
            printed: if room < 2 { "" } else { FIRST },
        },
        _ => ALL,
    };
    comes_with(alloc, rooms, wanted)
}

#[test]
fn out_that_takes_no_more_is_reported(rt: HostRuntime) {
    for room in 0..=4 {
        assert!(rt; out_has_front(rt.alloc(), room), "{room}");
    }
}

/// Whether an output that takes so many bytes has them, and OUT has the stretch whose lines it did not take whole.
fn output_has_front(alloc: Global, room: usize) -> bool {
    let rooms = Rooms {
        out: usize::MAX,
        output: room,
    };
    let wanted = match BOTH.get(..room) {
        Some(printed) if room < BOTH.len() => Wanted {
            returned: Err(MendFault::Output),
            made: if room < FIRST.len() { b"ab" } else { b"abcx" },
            printed,
        },
        _ => ALL,
    };
    comes_with(alloc, rooms, wanted)
}

#[test]
fn output_that_takes_no_more_is_reported(rt: HostRuntime) {
    for room in 0..=BOTH.len() {
        assert!(rt; output_has_front(rt.alloc(), room), "{room}");
    }
}
