//! Configuration Records and frames of FLAC, and such frames as parts of elements.
use ebml::crc32;
use ffv1_bits::remainder;
use ffv1_mend::{Kind, Mended, MendedPart, Part, Sort, State, mend};
use ffv1_test_frames::{LATER_SILENCE, ONE_TILE, SILENCE};
use ffv1_weave::Check;
use std::alloc::AllocError;

/// A record with the lowest bit of each of these bytes turned.
fn record(places: &[usize]) -> [u8; 17] {
    let mut record = ONE_TILE;
    turn(&mut record, places);
    record
}

/// A frame of FLAC with the lowest bit of each of these bytes turned.
fn sound(places: &[usize]) -> [u8; 12] {
    let mut sound = SILENCE;
    turn(&mut sound, places);
    sound
}

/// Turns the lowest bit of each of these bytes.
fn turn(bytes: &mut [u8], places: &[usize]) {
    for place in places {
        if let Some(byte) = bytes.get_mut(*place) {
            *byte ^= 1;
        }
    }
}

/// Whether what was made stands so, has these bytes, and no parts.
fn stands(made: Result<Mended<'_>, AllocError>, state: State, bytes: &[u8]) -> bool {
    let is_good = matches!(state, State::Whole | State::Woven(_));
    match made {
        Ok(made) => {
            (made.state(), made.is_good(), made.bytes()) == (state, is_good, bytes)
                && made.parts().is_empty()
        }
        Err(_) => false,
    }
}

/// What is shown, the bytes that are changed in two versions, of which the second is taken where nothing vouches, how what is made stands, and
/// the bytes that are changed in it.
type Row = (
    &'static str,
    (&'static [usize], &'static [usize]),
    State,
    &'static [usize],
);

static RECORDS: [Row; 4] = [
    (
        "a record that passes stands",
        (&[], &[9]),
        State::Whole,
        &[],
    ),
    (
        "records that are alike and pass stand",
        (&[], &[]),
        State::Whole,
        &[],
    ),
    (
        "a record that is damaged in each version is woven",
        (&[3], &[9]),
        State::Woven(4),
        &[],
    ),
    (
        "a record that is damaged alike is missing",
        (&[3], &[3]),
        State::Missing,
        &[3],
    ),
];

#[test]
fn records_stand_by_their_parity(rt: HostRuntime) {
    for &(shown, (one, other), state, made) in &RECORDS {
        let (one, other) = (record(one), record(other));
        let mended = mend(rt.alloc(), Kind::Record, &[&one, &other], &other, &[]);
        assert!(rt; stands(mended, state, &record(made)), "{shown}");
    }
}

#[test]
fn zeros_are_no_record(rt: HostRuntime) {
    let zeros = [0; 17];
    let alone = mend(rt.alloc(), Kind::Record, &[&zeros], &zeros, &[]);
    let is_missing = stands(alone, State::Missing, &zeros);
    let beside = mend(rt.alloc(), Kind::Record, &[&zeros, &ONE_TILE], &zeros, &[]);
    assert!(rt; is_missing && stands(beside, State::Whole, &ONE_TILE));
}

#[test]
fn records_have_six_bytes_at_least(rt: HostRuntime) {
    let [a, b, c, d] = remainder(&[1, 2, 0, 0, 0, 0]).to_be_bytes();
    let six = Check::Record.passes(&[1, 2, a, b, c, d]);
    let [a, b, c, d] = remainder(&[1, 0, 0, 0, 0]).to_be_bytes();
    let five = Check::Record.passes(&[1, a, b, c, d]);
    assert!(rt; six && !five);
}

static SOUNDS: [Row; 4] = [
    (
        "a frame of FLAC that passes stands",
        (&[], &[8]),
        State::Whole,
        &[],
    ),
    (
        "frames of FLAC that are alike and pass stand",
        (&[], &[]),
        State::Whole,
        &[],
    ),
    (
        "a frame of FLAC that is damaged in each version is missing, and not woven",
        (&[7], &[9]),
        State::Missing,
        &[9],
    ),
    (
        "a damaged header is missing",
        (&[3], &[3]),
        State::Missing,
        &[3],
    ),
];

#[test]
fn frames_of_flac_stand_by_their_checks(rt: HostRuntime) {
    for &(shown, (one, other), state, made) in &SOUNDS {
        let (one, other) = (sound(one), sound(other));
        let mended = mend(rt.alloc(), Kind::Flac, &[&one, &other], &other, &[]);
        assert!(rt; stands(mended, state, &sound(made)), "{shown}");
    }
}

#[test]
fn frames_of_flac_that_differ_are_disputed(rt: HostRuntime) {
    let versions: [&[u8]; 2] = [&SILENCE, &LATER_SILENCE];
    let mended = mend(rt.alloc(), Kind::Flac, &versions, &LATER_SILENCE, &[]);
    assert!(rt; stands(mended, State::Disputed, &LATER_SILENCE));
}

/// Where the frame of FLAC lies in its element.
const SOUND: Part = Part {
    start: 10,
    end: 22,
    sort: Sort::Flac,
};

/// An element of 30 bytes: its CRC-32, four bytes, the frame of FLAC and eight more bytes; with the lowest bit of each of these bytes turned.
fn element(places: &[usize]) -> [u8; 30] {
    let mut element = [0; 30];
    element[10..22].copy_from_slice(&SILENCE);
    let [a, b, c, d] = crc32(&element[6..]).to_le_bytes();
    element[..6].copy_from_slice(&[0xBF, 0x84, a, b, c, d]);
    turn(&mut element, places);
    element
}

/// The state of a frame of FLAC in an element, or nothing where the element has no part, or another one.
fn sound_of(made: &Mended<'_>) -> Option<State> {
    let [part] = made.parts() else {
        return None;
    };
    match part {
        MendedPart::Whole(bytes) if *bytes == SILENCE.as_slice() => Some(State::Whole),
        MendedPart::Disputed => Some(State::Disputed),
        MendedPart::Missing => Some(State::Missing),
        _ => None,
    }
}

/// What is shown, the bytes that are changed in two versions of the element, how it and its frame of FLAC stand, and the bytes that are changed
/// in what is made.
type PartRow = (
    &'static str,
    (&'static [usize], &'static [usize]),
    (State, Option<State>),
    &'static [usize],
);

static PARTS: [PartRow; 6] = [
    (
        "a frame of FLAC that one version has stands in both",
        (&[7, 15], &[25]),
        (State::Woven(4), Some(State::Whole)),
        &[],
    ),
    (
        "one that no version has is woven with the element",
        (&[7, 15], &[18, 25]),
        (State::Woven(16), Some(State::Missing)),
        &[],
    ),
    (
        "in a missing element it is that of the version that passes",
        (&[25], &[15, 25]),
        (State::Missing, Some(State::Whole)),
        &[25],
    ),
    (
        "or that of the version that is taken",
        (&[15, 25], &[18, 25]),
        (State::Missing, Some(State::Missing)),
        &[18, 25],
    ),
    (
        "beside an element that passes it is looked at",
        (&[], &[15]),
        (State::Whole, Some(State::Whole)),
        &[],
    ),
    (
        "in an element that all versions have it is not",
        (&[], &[]),
        (State::Whole, None),
        &[],
    ),
];

#[test]
fn frames_of_flac_are_parts_of_elements(rt: HostRuntime) {
    for &(shown, (one, other), (state, part), made) in &PARTS {
        let (one, other) = (element(one), element(other));
        let is_made = match mend(rt.alloc(), Kind::Crc32, &[&one, &other], &other, &[SOUND]) {
            Ok(mended) => {
                mended.state() == state
                    && mended.bytes() == element(made).as_slice()
                    && sound_of(&mended) == part
            }
            Err(_) => false,
        };
        assert!(rt; is_made, "{shown}");
    }
}

#[test]
fn frames_of_flac_that_differ_are_disputed_in_an_element(rt: HostRuntime) {
    let (one, mut other) = (element(&[7]), element(&[7]));
    other[10..22].copy_from_slice(&LATER_SILENCE);
    let is_disputed = match mend(rt.alloc(), Kind::Crc32, &[&one, &other], &other, &[SOUND]) {
        Ok(mended) => {
            (mended.state(), sound_of(&mended)) == (State::Missing, Some(State::Disputed))
                && mended.bytes() == other.as_slice()
        }
        Err(_) => false,
    };
    assert!(rt; is_disputed);
}
