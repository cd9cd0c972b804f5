//! Real slices, and the sets and holdings that they make.
use ffv1_hold::{HoldFault, Holding, Join, RestoreFault, SliceSet, Taken, TileState, join_all};
use ffv1_range::SetupFault;
use ffv1_test_frames::{
    BLACK, DARK, FRAME, LEFT_DAMAGED, ONE_TILE, RIGHT, RIGHT_DAMAGED, TWO_TILES,
};
use sha2::{Digest, Sha256};
use std::alloc::Global;

/// The slice of tile 0 with one sample 1, whose error status says that it can't be corrected.
const DARK_DAMAGED: [u8; 11] = [0xFD, 0xF6, 0x40, 0, 0, 3, 2, 0x1E, 0xE2, 0x9E, 0x17];

/// The slice of tile 0 with one sample 0 and the error status 1: it passes, and differs from `BLACK` within 33 bits.
const BLACK_WITH_STATUS: [u8; 11] = [0xFD, 0xF6, 0x80, 0, 0, 3, 1, 0x18, 0xFF, 0xBD, 0x2C];

/// The frame after five bytes that are none of it.
const AFTER_JUNK: [u8; 27] = [
    0xAA, 0xAA, 0xAA, 0xAA, 0xAA, 0xFD, 0xF6, 0x80, 0, 0, 3, 0, 0x1C, 0x3E, 0xA0, 0x9B, 0x3F, 0x2B,
    0x80, 0, 0, 3, 0, 0x56, 0x0F, 0xD7, 0x3B,
];

/// The frame, in which the slice of tile 1 stands twice.
const RIGHT_TWICE: [u8; 33] = [
    0xFD, 0xF6, 0x80, 0, 0, 3, 0, 0x1C, 0x3E, 0xA0, 0x9B, 0x3F, 0x2B, 0x80, 0, 0, 3, 0, 0x56, 0x0F,
    0xD7, 0x3B, 0x3F, 0x2B, 0x80, 0, 0, 3, 0, 0x56, 0x0F, 0xD7, 0x3B,
];

/// What is held of copies of a frame of this size, if they are taken.
pub(crate) fn held_of(
    alloc: Global,
    record: &[u8],
    (width, height): (u32, u32),
    copies: &[&[u8]],
) -> Option<Holding> {
    let Ok(mut holding) = Holding::new(alloc, record, width, height) else {
        return None;
    };
    match holding.take_all(copies) {
        Ok(()) => Some(holding),
        Err(_) => None,
    }
}

/// What is held of two copies of a frame of so many tiles beside each other, one sample each.
fn held_beside(alloc: Global, tiles: u32, copies: [&[u8]; 2]) -> Option<Holding> {
    let record = if tiles == 1 { &ONE_TILE } else { &TWO_TILES };
    held_of(alloc, record, (tiles, 1), &copies)
}

/// Slices that are put into a set, and whether each is new to it.
static INSERTED: [(&[u8], bool); 3] = [(&BLACK, true), (&DARK, true), (&BLACK, false)];

/// Whether an empty set takes those slices, and returns of each whether it is new.
fn takes_each_once(set: &mut SliceSet) -> bool {
    for &(slice, new) in &INSERTED {
        if set.insert(slice) != Ok(new) {
            return false;
        }
    }
    true
}

/// How many slices two sets have in all.
fn in_both(
    alloc: Global,
    one: Result<SliceSet, HoldFault>,
    other: Result<SliceSet, HoldFault>,
) -> Option<usize> {
    let (Ok(one), Ok(other)) = (one, other) else {
        return None;
    };
    let mut all = SliceSet::new(alloc);
    join_all(&mut all, &[one, other]).ok()
}

#[test]
fn slices_are_kept_once_in_rising_order(rt: HostRuntime) {
    let mut set = SliceSet::new(rt.alloc());
    let is_kept = takes_each_once(&mut set) && set.len() == 2 && set.get(0) == DARK.as_slice();
    let copy = set.copied();
    let count = in_both(rt.alloc(), Ok(set), copy);
    assert!(rt; is_kept && count == Some(2));
}

/// Whether sets of one slice each are joined, by copies of them and into the first.
fn are_joined(alloc: Global) -> bool {
    let (mut black, mut dark) = (SliceSet::new(alloc), SliceSet::new(alloc));
    let inserted = (black.insert(&BLACK), dark.insert(&DARK));
    let count = in_both(alloc, black.copied(), dark.copied());
    let added = (black.join_with(&dark), black.join_with(&dark));
    (inserted, count, added) == ((Ok(true), Ok(true)), Some(2), (Ok(1), Ok(0)))
}

#[test]
fn sets_that_differ_are_joined(rt: HostRuntime) {
    assert!(rt; are_joined(rt.alloc()));
}

/// Copies that are taken one after the other, and their links, slices and new slices, and whether these are in order.
static TAKEN: [(&[u8], usize, usize, usize, bool); 7] = [
    (&[0; 8], 1, 0, 0, true),
    (&RIGHT, 1, 0, 0, true),
    (&AFTER_JUNK, 2, 1, 1, true),
    (&LEFT_DAMAGED, 2, 1, 0, true),
    (&RIGHT_DAMAGED, 2, 1, 1, true),
    (&FRAME, 2, 2, 0, true),
    (&RIGHT_TWICE, 3, 3, 0, false),
];

/// Whether a holding takes those copies, and reports that of each.
fn takes_each(holding: &mut Holding) -> bool {
    for &(copy, links, slices, new, in_order) in &TAKEN {
        let taken = Taken {
            links,
            slices,
            new,
            in_order,
        };
        if holding.take(copy) != Ok(taken) {
            return false;
        }
    }
    true
}

#[test]
fn a_copy_reports_what_was_taken(rt: HostRuntime) {
    let is_reported = match Holding::new(rt.alloc(), &TWO_TILES, 2, 1) {
        Ok(mut holding) => takes_each(&mut holding),
        Err(_) => false,
    };
    assert!(rt; is_reported);
}

/// Whether the origins of a slice of a tile are the digests of these copies.
fn has_origins(held: &Holding, tile: usize, slice: &[u8], copies: &[&[u8]]) -> bool {
    let Some(origins) = held.origins(tile, slice) else {
        return false;
    };
    for copy in copies {
        if !origins.contains(&Sha256::digest(copy)) {
            return false;
        }
    }
    origins.len() == copies.len()
}

/// Whether each tile's slice is of the copy in which the other one is damaged, and no slice has another's origins.
fn are_apart(held: &Holding) -> bool {
    has_origins(held, 0, &BLACK, &[&RIGHT_DAMAGED])
        && has_origins(held, 1, &RIGHT, &[&LEFT_DAMAGED])
        && !has_origins(held, 0, &RIGHT, &[])
}

/// Whether the slice of tile 0 is of these copies, and that of tile 1 of the frame and the first damaged copy.
fn are_shared(held: &Holding, copies: &[&[u8]]) -> bool {
    has_origins(held, 0, &BLACK, copies) && has_origins(held, 1, &RIGHT, &[&FRAME, &LEFT_DAMAGED])
}

/// Whether the slices of the holding of both damaged copies are apart, and joining it to that of the frame adds the other
/// copy to a slice's, and no slice.
fn adds_origins(alloc: Global, held: &Holding) -> bool {
    let Some(mut both) = held_beside(alloc, 2, [&FRAME, &LEFT_DAMAGED]) else {
        return false;
    };
    let before = are_apart(held) && are_shared(&both, &[&FRAME]);
    let joined = both.join_with(held);
    before && joined == Ok(0) && are_shared(&both, &[&FRAME, &RIGHT_DAMAGED])
}

/// Both damaged copies, one of them twice.
static DAMAGED: [&[u8]; 3] = [&LEFT_DAMAGED, &RIGHT_DAMAGED, &LEFT_DAMAGED];

#[test]
fn origins_are_the_digests_of_whole_copies(rt: HostRuntime) {
    let are_whole = match held_of(rt.alloc(), &TWO_TILES, (2, 1), &DAMAGED) {
        Some(held) => adds_origins(rt.alloc(), &held),
        None => false,
    };
    assert!(rt; are_whole);
}

/// Whether a payload is these bytes, or there is none for this reason.
pub(crate) fn is_payload(
    payload: Result<Vec<u8>, RestoreFault>,
    wanted: Result<&[u8], RestoreFault>,
) -> bool {
    match payload {
        Ok(payload) => wanted == Ok(payload.as_slice()),
        Err(fault) => wanted == Err(fault),
    }
}

/// Whether two copies of a frame of so many tiles are restored to this, or are not for this reason.
fn is_restored(
    alloc: Global,
    tiles: u32,
    copies: [&[u8]; 2],
    wanted: Result<&[u8], RestoreFault>,
) -> bool {
    match held_beside(alloc, tiles, copies) {
        Some(holding) => is_payload(holding.restore(), wanted),
        None => false,
    }
}

/// Tiles beside each other and copies of them with which all are settled, and what they are restored to.
static SETTLED: [(u32, [&[u8]; 2], &[u8]); 5] = [
    (2, [&LEFT_DAMAGED, &RIGHT_DAMAGED], &FRAME),
    (2, [&RIGHT_DAMAGED, &LEFT_DAMAGED], &FRAME),
    (2, [&LEFT_DAMAGED, &FRAME], &FRAME),
    (1, [&DARK_DAMAGED, &BLACK], &BLACK),
    (1, [&BLACK_WITH_STATUS, &BLACK], &BLACK),
];

#[test]
fn settled_tiles_are_restored(rt: HostRuntime) {
    for &(tiles, copies, wanted) in &SETTLED {
        assert!(rt; is_restored(rt.alloc(), tiles, copies, Ok(wanted)));
    }
}

/// Tiles beside each other, two copies of them, and why they are not restored.
static UNSETTLED: [(u32, [&[u8]; 2], RestoreFault); 4] = [
    (2, [&LEFT_DAMAGED, &LEFT_DAMAGED], RestoreFault::Missing(0)),
    (
        2,
        [&RIGHT_DAMAGED, &RIGHT_DAMAGED],
        RestoreFault::Missing(1),
    ),
    (2, [&AFTER_JUNK, &RIGHT], RestoreFault::Missing(0)),
    (1, [&BLACK, &DARK], RestoreFault::Disputed(0)),
];

#[test]
fn the_first_unsettled_tile_is_reported(rt: HostRuntime) {
    for &(tiles, copies, fault) in &UNSETTLED {
        assert!(rt; is_restored(rt.alloc(), tiles, copies, Err(fault)));
    }
}

/// How many slices of a tile have the least error_status.
fn best(state: TileState<'_>) -> usize {
    match state {
        TileState::Missing => 0,
        TileState::Settled(_) => 1,
        TileState::Disputed(slices) => slices,
    }
}

/// Whether so many slices are held of a tile, with this least status, which so many of them have; and of all one or more.
fn reports(
    held: &Holding,
    tile: usize,
    (slices, status, bests): (usize, Option<u8>, usize),
) -> bool {
    tile < held.reel().tiles()
        && held.held(tile) == slices
        && held.status(tile) == status
        && best(held.state(tile)) == bests
        && held.size() == slices.max(1)
}

/// Tiles beside each other, two copies of them, and what `reports` has of one of the tiles.
type Reported = (u32, [&'static [u8]; 2], usize, (usize, Option<u8>, usize));

/// Whether the tile of these copies' holding is as the row says.
fn is_reported(alloc: Global, (tiles, copies, tile, reported): &Reported) -> bool {
    match held_beside(alloc, *tiles, *copies) {
        Some(held) => reports(&held, *tile, *reported),
        None => false,
    }
}

/// Tiles without a slice, with one and with two.
static HELD: [Reported; 6] = [
    (2, [&LEFT_DAMAGED, &LEFT_DAMAGED], 0, (0, None, 0)),
    (2, [&LEFT_DAMAGED, &LEFT_DAMAGED], 1, (1, Some(0), 1)),
    (1, [&BLACK, &DARK], 0, (2, Some(0), 2)),
    (1, [&BLACK, &DARK_DAMAGED], 0, (2, Some(0), 1)),
    (1, [&BLACK, &BLACK_WITH_STATUS], 0, (2, Some(0), 1)),
    (1, [&DARK_DAMAGED, &DARK_DAMAGED], 0, (1, Some(2), 1)),
];

#[test]
fn tiles_report_what_is_held_of_them(rt: HostRuntime) {
    for row in &HELD {
        assert!(rt; is_reported(rt.alloc(), row));
    }
}

/// What joining the holding of a frame of one tile to another holding returns.
fn sample_joined(alloc: Global, held: &mut Holding) -> Option<Result<usize, HoldFault>> {
    match held_beside(alloc, 1, [&BLACK, &DARK]) {
        Some(sample) => Some(held.join_with(&sample)),
        None => None,
    }
}

#[test]
fn other_sizes_do_not_join(rt: HostRuntime) {
    let joined = match held_beside(rt.alloc(), 2, [&FRAME, &FRAME]) {
        Some(mut frame) => sample_joined(rt.alloc(), &mut frame),
        None => None,
    };
    let short = Holding::new(rt.alloc(), &[0; 5], 1, 1).err();
    assert!(rt; short == Some(SetupFault::TooShort) && joined == Some(Err(HoldFault::OtherReel)));
}
