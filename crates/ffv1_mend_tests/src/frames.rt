//! Frames, and bytes without a checksum.
use crate::element::{Changes, changed};
use ffv1_mend::{Kind, Mended, State, frame_state, mend};
use ffv1_splice::splice;
use std::alloc::{AllocError, Global};

/// What is shown, the bytes of the element that are changed in two versions of its frame, how what is made stands, and the
/// bytes that are changed in it, if that is known.
static FRAMES: [(&str, (Changes, Changes), State, Option<Changes>); 4] = [
    (
        "slices that a version has are spliced",
        (&[(53, 1)], &[(117, 1)]),
        State::Whole,
        Some(&[]),
    ),
    (
        "a slice that no version has is woven",
        (&[(150, 1)], &[(230, 1)]),
        State::Woven(4),
        Some(&[]),
    ),
    (
        "a byte that is wrong in all versions is missing",
        (&[(53, 3)], &[(53, 12)]),
        State::Missing,
        None,
    ),
    (
        "a bit that is wrong in all versions is repaired, but missing",
        (&[(53, 1)], &[(53, 1)]),
        State::Missing,
        Some(&[]),
    ),
];

/// What becomes of the element's frame of two versions.
fn mended<'a>(
    alloc: Global,
    one: &'a [u8; 500],
    other: &'a [u8; 500],
) -> Result<Mended<'a>, AllocError> {
    mend(
        alloc,
        Kind::Frame,
        &[&one[14..350], &other[14..350]],
        &other[14..350],
        &[],
    )
}

/// Whether it stands so, with one splice, and the frame's bytes where these of the element are changed.
fn stands(made: &Mended<'_>, state: State, changes: Option<Changes>) -> bool {
    let is_changed = match changes {
        Some(changes) => made.bytes() == &changed(changes)[14..350],
        None => true,
    };
    let is_good = state != State::Missing;
    is_changed && (made.state(), made.is_good(), made.parts().len()) == (state, is_good, 1)
}

/// Whether that is made of the element's frame where these bytes are changed in two versions.
fn is_mended(
    alloc: Global,
    (one, other): (Changes, Changes),
    state: State,
    changes: Option<Changes>,
) -> bool {
    match mended(alloc, &changed(one), &changed(other)) {
        Ok(made) => stands(&made, state, changes),
        Err(_) => false,
    }
}

#[test]
fn frames_stand_by_their_splices(rt: HostRuntime) {
    for &(shown, versions, state, changes) in &FRAMES {
        assert!(rt; is_mended(rt.alloc(), versions, state, changes), "{shown}");
    }
}

#[test]
fn frame_state_is_that_of_its_splice(rt: HostRuntime) {
    let state = match splice(rt.alloc(), &[&changed(&[])[14..350]]) {
        Ok(spliced) => frame_state(&spliced),
        Err(_) => State::Missing,
    };
    assert!(rt; state == State::Whole);
}

/// Whether what was made stands so, and has these bytes.
fn is_taken(
    made: Result<Mended<'_>, AllocError>,
    (state, is_good): (State, bool),
    bytes: &[u8],
) -> bool {
    match made {
        Ok(made) => (made.state(), made.is_good(), made.bytes()) == (state, is_good, bytes),
        Err(_) => false,
    }
}

#[test]
fn bytes_without_a_checksum_stand_by_their_versions(rt: HostRuntime) {
    let alone = mend(rt.alloc(), Kind::Plain, &[b"abc"], b"abc", &[]);
    let is_alone = is_taken(alone, (State::Alone, false), b"abc");
    let agreed = mend(rt.alloc(), Kind::Plain, &[b"abc", b"abc"], b"abc", &[]);
    let is_agreed = is_taken(agreed, (State::Agreed, true), b"abc");
    let open = mend(rt.alloc(), Kind::Plain, &[b"abc", b"abd"], b"abd", &[]);
    let is_open = is_taken(open, (State::Open, false), b"abd");
    assert!(rt; is_alone && is_agreed && is_open);
}
