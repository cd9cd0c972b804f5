//! The chain of a payload, and its slices.
use ffv1_range::{HeadFault, RangeFault, Setup};
use ffv1_slice::{Chain, ChainEnd, LinkFault, next_link, read_slice, slice_of};
use ffv1_test_frames::{FRAME, LEFT_DAMAGED, ONE_TILE, RECORDED, RECORDED_RECORD, RIGHT};
use std::alloc::{AllocError, Global};

/// Where a link of a payload starts, its length, its status, and whether its parity is right. Links count from the end.
fn link_at(payload: &[u8], number: usize) -> Option<(usize, usize, u8, bool)> {
    let link = Chain::new(payload).nth(number)?;
    Some((
        link.start(),
        link.bytes().len(),
        link.status(),
        link.passes(),
    ))
}

/// The frame with a size of its last slice that is too great.
const BROKEN: [u8; 22] = [
    0xFD, 0xF6, 0x80, 0, 0, 3, 0, 0x1C, 0x3E, 0xA0, 0x9B, 0x3F, 0x2B, 0x80, 0xFF, 0, 3, 0, 0x56,
    0x0F, 0xD7, 0x3B,
];

/// Payloads, the number of a link, and what it is.
static LINKS: [(&[u8], usize, Option<(usize, usize, u8, bool)>); 6] = [
    (&FRAME, 0, Some((11, 11, 0, true))),
    (&FRAME, 1, Some((0, 11, 0, true))),
    (&FRAME, 2, None),
    (&LEFT_DAMAGED, 0, Some((11, 11, 0, true))),
    (&LEFT_DAMAGED, 1, Some((0, 11, 0, false))),
    (&LEFT_DAMAGED, 2, None),
];

#[test]
fn links_come_from_the_end(rt: HostRuntime) {
    for &(frame, number, link) in &LINKS {
        assert!(rt; link_at(frame, number) == link);
    }
}

/// Payloads, how many links they have, and how their chain ends.
static CHAINS: [(&[u8], usize, ChainEnd); 7] = [
    (&FRAME, 2, ChainEnd::Whole),
    (&LEFT_DAMAGED, 2, ChainEnd::Whole),
    (&[], 0, ChainEnd::Whole),
    (&[0; 7], 0, ChainEnd::Broken(7)),
    (&[0; 8], 1, ChainEnd::Whole),
    (&[0; 16], 2, ChainEnd::Whole),
    (&BROKEN, 0, ChainEnd::Broken(22)),
];

#[test]
fn chains_end(rt: HostRuntime) {
    for &(payload, links, end) in &CHAINS {
        let chain = (Chain::new(payload).count(), Chain::new(payload).end());
        assert!(rt; chain == (links, end));
    }
}

/// The frame after five bytes that are none of it.
fn after_junk() -> [u8; 341] {
    let mut payload = [0xAA; 341];
    payload[5..].copy_from_slice(&RECORDED);
    payload
}

/// The tile of the next link of a chain that is a slice of the setup, or `None` where it is none.
fn next_tile(setup: &Setup, chain: &mut Chain<'_>) -> Option<usize> {
    slice_of(setup, &next_link(chain)?).ok()
}

/// The tiles of the slices that are found in a payload, from its end.
fn tiles_of(alloc: Global, setup: &Setup, payload: &[u8]) -> Result<Vec<usize>, AllocError> {
    let mut found = Vec::new(alloc);
    let mut chain = Chain::new(payload);
    for _ in 0..payload.len() {
        if let Some(tile) = next_tile(setup, &mut chain) {
            found.push(tile)?;
        }
    }
    Ok(found)
}

/// Whether these are the tiles of the slices of a setup that are found in a payload.
fn are_found(alloc: Global, setup: &Setup, payload: &[u8], tiles: &[usize]) -> bool {
    match tiles_of(alloc, setup, payload) {
        Ok(found) => found.as_slice() == tiles,
        Err(_) => false,
    }
}

/// Whether these are the tiles of the slices that are found in a payload, from its end.
fn are_tiles_of(alloc: Global, payload: &[u8], tiles: &[usize]) -> bool {
    match Setup::read(alloc, &RECORDED_RECORD, 48, 32) {
        Ok(setup) => are_found(alloc, &setup, payload, tiles),
        Err(_) => false,
    }
}

#[test]
fn recorded_slices_are_found(rt: HostRuntime) {
    let found = (
        are_tiles_of(rt.alloc(), &RECORDED, &[3, 2, 1, 0]),
        are_tiles_of(rt.alloc(), &after_junk(), &[3, 2, 1]),
        are_tiles_of(rt.alloc(), &[0; 8], &[]),
    );
    assert!(rt; found == (true, true, true));
}

/// Damage by places and bytes, and the tiles whose slices are still found.
static DAMAGED: [(&[(usize, u8)], &[usize]); 2] = [
    (&[(39, 0x06), (209, 0x00)], &[3, 1]),
    (&[(103, 0x44), (286, 0xF6)], &[2, 0]),
];

/// The frame with other bytes at places that it has.
fn damaged(damage: &[(usize, u8)]) -> [u8; 336] {
    let mut copy = RECORDED;
    for (place, byte) in damage {
        if let Some(old) = copy.get_mut(*place) {
            *old = *byte;
        }
    }
    copy
}

#[test]
fn damaged_slices_are_not_found(rt: HostRuntime) {
    for &(damage, tiles) in &DAMAGED {
        assert!(rt; are_tiles_of(rt.alloc(), &damaged(damage), tiles));
    }
}

/// Why a link of a payload is no slice of a recording of this size, if there are the link and the setup. Links count from the end.
fn link_fault(
    alloc: Global,
    record: &[u8],
    (width, height): (u32, u32),
    payload: &[u8],
    number: usize,
) -> Option<LinkFault> {
    let link = Chain::new(payload).nth(number)?;
    match Setup::read(alloc, record, width, height) {
        Ok(setup) => slice_of(&setup, &link).err(),
        Err(_) => None,
    }
}

/// The first slice twice.
const TWICE: [u8; 22] = [
    0xFD, 0xF6, 0x80, 0, 0, 3, 0, 0x1C, 0x3E, 0xA0, 0x9B, 0xFD, 0xF6, 0x80, 0, 0, 3, 0, 0x1C, 0x3E,
    0xA0, 0x9B,
];

/// Payloads, the number of a link of theirs that is no slice, and why.
static NO_SLICES: [(&[u8], usize, LinkFault); 4] = [
    (&TWICE, 0, LinkFault::Head(HeadFault::FirstElsewhere)),
    (&RIGHT, 0, LinkFault::Head(HeadFault::NotKey)),
    (
        &[0; 8],
        0,
        LinkFault::Head(HeadFault::Range(RangeFault::Short)),
    ),
    (&LEFT_DAMAGED, 1, LinkFault::Parity),
];

#[test]
fn links_that_are_no_slices_are_reported(rt: HostRuntime) {
    for &(payload, number, fault) in &NO_SLICES {
        let reported = link_fault(rt.alloc(), &RECORDED_RECORD, (48, 32), payload, number);
        assert!(rt; reported == Some(fault));
    }
}

#[test]
fn tile_1_is_outside_a_grid_of_one(rt: HostRuntime) {
    let reported = link_fault(rt.alloc(), &ONE_TILE, (1, 1), &FRAME, 0);
    let outside = LinkFault::Head(HeadFault::OutsideGrid);
    assert!(rt; (reported, link_at(&FRAME, 0)) == (Some(outside), Some((11, 11, 0, true))));
}

#[test]
fn bytes_without_their_parity_are_no_slice(rt: HostRuntime) {
    let read = match Setup::read(rt.alloc(), &RECORDED_RECORD, 48, 32) {
        Ok(setup) => read_slice(&setup, &RECORDED[..40], true),
        Err(_) => Ok(0),
    };
    assert!(rt; read == Err(LinkFault::Parity));
}
