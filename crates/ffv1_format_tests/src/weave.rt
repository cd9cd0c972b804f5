//! Slices that are put together from damaged versions.
use crate::recorded::QUARTERED;
use crate::repair::{Call, Reported, reported_of_damages};
use std::alloc::{AllocError, Global};

/// The footer of the first slice of `QUARTERED`, as FFmpeg wrote it.
const FOOTER: [u8; 8] = [0x00, 0x04, 0x05, 0x00, 0x18, 0x4B, 0x2B, 0x5C];

/// Places of a slice, and what is added to the bytes there, by XOR.
pub(crate) type Damage<'a> = &'a [(usize, u8)];

/// The first slice of `QUARTERED` with this damage, at places that it has. It has 1037 bytes.
pub(crate) fn version_of(alloc: Global, damage: Damage<'_>) -> Result<Vec<u8>, AllocError> {
    let mut bytes = Vec::from_slice(alloc, QUARTERED[0].0)?;
    bytes.extend_from_slice(&FOOTER)?;
    for (place, change) in damage {
        if let Some(byte) = bytes.get_mut(*place) {
            *byte ^= *change;
        }
    }
    Ok(bytes)
}

/// Whether this comes of weaving the slice's versions with these damages.
fn is_reported(alloc: Global, damages: &[Damage<'_>], reported: Reported) -> bool {
    reported_of_damages(alloc, Call::Weave, damages) == Ok(reported)
}

/// Versions by their damage, and what is woven of them.
static ROWS: [(&[Damage<'static>], Reported); 10] = [
    // apart in two copies, in whatever order and however often; in the footer's size too
    (&[&[(3, 1), (4, 1)], &[(100, 0x80)]], Reported::Slice(8)),
    (
        &[&[(100, 0x80)], &[(3, 1), (4, 1)], &[(100, 0x80)]],
        Reported::Slice(8),
    ),
    (&[&[(3, 1)], &[(1031, 1)]], Reported::Slice(4)),
    // beside each other, in one region, and with an intact version
    (&[&[(3, 1)], &[(4, 1)]], Reported::Slice(4)),
    (&[&[(3, 1)], &[(67, 1)]], Reported::Slice(4)),
    (&[&[(3, 1)], &[(67, 1)], &[]], Reported::Slice(4)),
    (&[&[(3, 1)], &[(3, 2)]], Reported::Missing(2)),
    (&[&[]], Reported::Slice(1)),
    (&[&[(3, 1)]], Reported::Missing(1)),
    // both damages together have the parity of neither
    (
        &[
            &[(3, 1)],
            &[(100, 0x87), (101, 0x62), (102, 0xC1), (103, 0xF6)],
        ],
        Reported::Disputed,
    ),
];

#[test]
fn damaged_versions_are_woven(rt: HostRuntime) {
    for &(damages, reported) in &ROWS {
        assert!(rt; is_reported(rt.alloc(), damages, reported));
    }
}

/// Places 65 apart, in turn of either version: each is a region, and doubles the number of combinations.
static EVEN: [(usize, u8); 7] = [
    (0, 1),
    (130, 1),
    (260, 1),
    (390, 1),
    (520, 1),
    (650, 1),
    (780, 1),
];

static ODD: [(usize, u8); 6] = [(65, 1), (195, 1), (325, 1), (455, 1), (585, 1), (715, 1)];

/// Thirteen places in turn of either version: four pairs at a distance of 2 bytes, two at 3, and one place alone.
static NEAR: [Damage<'static>; 2] = [
    &[
        (10, 1),
        (12, 1),
        (210, 1),
        (212, 1),
        (410, 1),
        (413, 1),
        (610, 1),
    ],
    &[(110, 1), (112, 1), (310, 1), (312, 1), (510, 1), (513, 1)],
];

/// The same at distances of 8 and 9 bytes.
static FAR: [Damage<'static>; 2] = [
    &[
        (10, 1),
        (18, 1),
        (210, 1),
        (218, 1),
        (410, 1),
        (419, 1),
        (610, 1),
    ],
    &[(110, 1), (118, 1), (310, 1), (318, 1), (510, 1), (519, 1)],
];

/// The same at distances of 64 and 65 bytes.
static FARTHEST: [Damage<'static>; 2] = [
    &[
        (10, 1),
        (74, 1),
        (300, 1),
        (364, 1),
        (590, 1),
        (655, 1),
        (880, 1),
    ],
    &[(145, 1), (209, 1), (440, 1), (504, 1), (730, 1), (795, 1)],
];

#[test]
fn versions_are_split_as_finely_as_can_be_tried(rt: HostRuntime) {
    for damages in [&NEAR, &FAR, &FARTHEST] {
        assert!(rt; is_reported(rt.alloc(), damages, Reported::Slice(512)));
    }
}

/// Two runs of damage at a distance of 2 bytes, in two versions; the third is damaged within the first of them.
static RUNS: [Damage<'static>; 3] = [
    &[
        (400, 1),
        (401, 1),
        (402, 1),
        (403, 1),
        (404, 1),
        (405, 1),
        (406, 1),
        (407, 1),
    ],
    &[
        (409, 1),
        (410, 1),
        (411, 1),
        (412, 1),
        (413, 1),
        (414, 1),
        (415, 1),
        (416, 1),
    ],
    &[(402, 2), (403, 2)],
];

#[test]
fn pairs_of_versions_are_split_by_themselves(rt: HostRuntime) {
    assert!(rt; is_reported(rt.alloc(), &RUNS, Reported::Slice(24)));
}

#[test]
fn at_most_4096_combinations_are_tried(rt: HostRuntime) {
    let most = is_reported(rt.alloc(), &[&EVEN[..6], &ODD], Reported::Slice(4096));
    let more = is_reported(rt.alloc(), &[&EVEN, &ODD], Reported::TooMany);
    assert!(rt; most && more);
}
