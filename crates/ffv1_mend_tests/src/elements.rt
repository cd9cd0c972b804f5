//! Elements that are woven and mended.
use crate::element::{Changes, FRAME, OTHER, changed};
use ffv1_mend::{Kind, Mended, MendedPart, State, mend};
use ffv1_weave::{Check, WeaveResult, weave};
use std::alloc::Global;

/// Damage in the frame's first slice and its third, and after the frame.
const ONE: Changes = &[(53, 1), (223, 1), (360, 1)];

/// Damage in its second slice and its last, and further after it.
const TWO: Changes = &[(117, 1), (300, 1), (450, 1)];

/// What is shown; the bytes that are changed in two versions, of which the second is taken where nothing vouches; how what is
/// made stands, and the bytes of the element that are changed in it; how many splices it has, and whether these, if any, are
/// given back.
type Row = (
    &'static str,
    (Changes, Changes),
    (State, Changes),
    (usize, bool),
);

static ROWS: [Row; 10] = [
    (
        "frames are spliced and the rest is woven",
        (ONE, TWO),
        (State::Woven(4), &[]),
        (1, true),
    ),
    (
        "the same in the other order",
        (TWO, ONE),
        (State::Woven(4), &[]),
        (1, true),
    ),
    (
        "frames with one wrong bit are repaired, and the rest is woven",
        (&[(53, 1), (360, 1)], &[(53, 1), (450, 1)]),
        (State::Woven(4), &[]),
        (1, false),
    ),
    (
        "frames with one wrong bit are repaired",
        (&[(53, 1)], &[(53, 1)]),
        (State::Woven(1), &[]),
        (1, false),
    ),
    (
        "a version that passes stands",
        (&[], ONE),
        (State::Whole, &[]),
        (1, true),
    ),
    (
        "versions that are alike and pass stand",
        (&[], &[]),
        (State::Whole, &[]),
        (0, true),
    ),
    (
        "versions that pass and differ are disputed",
        (&[], OTHER),
        (State::Disputed, OTHER),
        (1, true),
    ),
    (
        "what is missing has the splices and the version that is taken",
        (&[(360, 2)], &[(53, 1), (360, 1)]),
        (State::Missing, &[(360, 1)]),
        (1, true),
    ),
    (
        "the same in the other order",
        (&[(53, 1), (360, 1)], &[(360, 2)]),
        (State::Missing, &[(360, 2)]),
        (1, true),
    ),
    (
        "what is missing in all versions has a splice",
        (&[(360, 2)], &[(360, 2)]),
        (State::Missing, &[(360, 2)]),
        (1, true),
    ),
];

/// Whether each part is a splice that is given back, or none is given back.
fn are_given_back(parts: &[MendedPart<'_>], given_back: bool) -> bool {
    for part in parts {
        match part {
            MendedPart::Spliced(spliced) if spliced.is_given_back() == given_back => {}
            _ => return false,
        }
    }
    true
}

/// Whether it stands so, and has the bytes of the element where these are changed, and such splices.
fn stands(
    made: &Mended<'_>,
    (state, changes): (State, Changes),
    (splices, given_back): (usize, bool),
) -> bool {
    let is_good = matches!(state, State::Whole | State::Woven(_));
    (made.state(), made.is_good(), made.parts().len()) == (state, is_good, splices)
        && made.bytes() == changed(changes).as_slice()
        && are_given_back(made.parts(), given_back)
}

/// Whether that is made of an element where these bytes are changed in two versions.
fn is_mended(
    alloc: Global,
    (one, other): (Changes, Changes),
    wanted: (State, Changes),
    splices: (usize, bool),
) -> bool {
    let (one, other) = (changed(one), changed(other));
    match mend(alloc, Kind::Crc32, &[&one, &other], &other, &[FRAME]) {
        Ok(made) => stands(&made, wanted, splices),
        Err(_) => false,
    }
}

#[test]
fn elements_are_mended(rt: HostRuntime) {
    for &(shown, versions, wanted, splices) in &ROWS {
        assert!(rt; is_mended(rt.alloc(), versions, wanted, splices), "{shown}");
    }
}

#[test]
fn element_is_woven_by_its_crc32(rt: HostRuntime) {
    let one = changed(&[(3, 1), (360, 1)]);
    let other = changed(&[(450, 1)]);
    let woven = match weave(rt.alloc(), Check::Element, &[&one, &other]) {
        Ok(WeaveResult::Woven(bytes, count)) => {
            count == 8 && bytes.as_slice() == changed(&[]).as_slice()
        }
        _ => false,
    };
    assert!(rt; woven);
}

#[test]
fn short_element_is_whole(rt: HostRuntime) {
    let one = b"\xBF\x84\x26\x39\xF4\xCB123456789";
    let other = b"\xBF\x84\x26\x39\xF4\xCB124456789";
    let is_whole = match mend(rt.alloc(), Kind::Crc32, &[one, other], other, &[]) {
        Ok(made) => made.state() == State::Whole && made.bytes() == one.as_slice(),
        Err(_) => false,
    };
    assert!(rt; is_whole);
}
