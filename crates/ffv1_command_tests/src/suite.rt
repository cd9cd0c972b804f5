//! The suite of made frames, through the commands: each comes back byte for byte, and sample by sample.
use crate::commands::{joined, taken};
use ffv1_commands::{run_decode, run_merge, run_restore};
use ffv1_holding::Recordings;
use ffv1_range::{Setup, TileRect};
use ffv1_slice::{Chain, ChainEnd, Link};
use ffv1_vectors::{
    FrameSpec, MakeFault, SUITE_NUMBERS, SuiteCase, SuiteContent, SuiteTables, burst, make_frame,
    make_record, suite_case, suite_frame, suite_record,
};
use std::alloc::{AllocError, Global};

/// A frame that was made, and what it was made of.
#[derive(Drop)]
pub(crate) struct Made {
    pub(crate) record: Vec<u8>,
    pub(crate) size: (u32, u32),
    pub(crate) setup: Setup,
    spec: FrameSpec,
    pub(crate) payload: Vec<u8>,
}

/// The record of a case.
fn record_of(alloc: Global, case: &SuiteCase) -> Result<Vec<u8>, MakeFault> {
    make_record(alloc, &suite_record(alloc, case)?)
}

/// The frame of a case with this record, of which this was read.
fn frame_with(alloc: Global, case: &SuiteCase, record: Vec<u8>, setup: Setup) -> Option<Made> {
    let Ok(spec) = suite_frame(alloc, case, &setup) else {
        return None;
    };
    match make_frame(alloc, &setup, &spec) {
        Ok(payload) => Some(Made {
            record,
            size: case.size,
            setup,
            spec,
            payload,
        }),
        Err(_) => None,
    }
}

/// The frame of a case, if it is made.
pub(crate) fn frame_of(alloc: Global, case: &SuiteCase) -> Option<Made> {
    let Ok(record) = record_of(alloc, case) else {
        return None;
    };
    match Setup::read(alloc, &record, case.size.0, case.size.1) {
        Ok(setup) => frame_with(alloc, case, record, setup),
        Err(_) => None,
    }
}

/// The holding file of two copies, if they are taken.
fn file_of(alloc: Global, frame: &Made, mut copies: [&[u8]; 2]) -> Option<Vec<u8>> {
    match taken(alloc, &frame.record, frame.size, &mut copies) {
        Some((file, _printed)) => Some(file),
        None => None,
    }
}

/// Whether this is restored of a holding file.
fn restores(alloc: Global, mut file: &[u8], wanted: &[u8]) -> bool {
    let mut payload: Vec<u8> = Vec::new(alloc);
    let mut printed: Vec<u8> = Vec::new(alloc);
    let returned = run_restore(
        alloc,
        Recordings::Profile,
        &mut file,
        &mut payload,
        &mut printed,
    );
    returned.is_ok() && payload.as_slice() == wanted
}

/// Whether these samples are decoded of a frame.
fn decodes(alloc: Global, made: &Made, wanted: &[u8]) -> bool {
    let (mut record, mut input) = (made.record.as_slice(), made.payload.as_slice());
    let mut samples: Vec<u8> = Vec::new(alloc);
    let mut printed: Vec<u8> = Vec::new(alloc);
    let (width, height) = made.size;
    let returned = run_decode(
        alloc,
        &mut record,
        width,
        height,
        &mut input,
        &mut samples,
        &mut printed,
    );
    returned.is_ok() && samples.as_slice() == wanted
}

/// How many samples of a tile stand before that at a place of the plane, where the tile covers the place.
fn place_in(tile: TileRect, x: u32, y: u32) -> Option<usize> {
    let right = x.checked_sub(tile.x)?;
    let below = y.checked_sub(tile.y)?;
    if right >= tile.w || below >= tile.h {
        return None;
    }
    let above = (below as usize).wrapping_mul(tile.w as usize);
    Some(above.wrapping_add(right as usize))
}

/// The sample of a tile at a place of a plane, where it covers the place.
fn sample_of_tile(made: &Made, tile: usize, plane: usize, x: u32, y: u32) -> Option<u8> {
    let grid = made.setup.grid();
    let planes = if made.setup.has_chroma() { 3 } else { 1 };
    if tile >= grid.tiles() || plane >= planes {
        return None;
    }
    let place = place_in(grid.plane_rect(tile, plane), x, y)?;
    let samples = made.spec.tiles.get(tile)?.planes.get(plane)?;
    samples.get(place).copied()
}

/// The sample that was asked for at a place of a plane: that of the greatest tile that covers it, else 128.
fn asked_sample(made: &Made, plane: usize, x: u32, y: u32) -> u8 {
    let mut sample = 128;
    for tile in 0..made.spec.tiles.len() {
        sample = sample_of_tile(made, tile, plane, x, y).unwrap_or(sample);
    }
    sample
}

/// Adds a row that was asked for.
fn push_row(
    made: &Made,
    plane: usize,
    width: u32,
    y: u32,
    samples: &mut Vec<u8>,
) -> Result<(), AllocError> {
    for x in 0..width {
        samples.push(asked_sample(made, plane, x, y))?;
    }
    Ok(())
}

/// Adds a plane that was asked for.
fn push_plane(made: &Made, plane: usize, samples: &mut Vec<u8>) -> Result<(), AllocError> {
    let planes = if made.setup.has_chroma() { 3 } else { 1 };
    if plane >= planes {
        return Ok(());
    }
    let size = made.setup.grid().plane_size(plane);
    for y in 0..size.h {
        push_row(made, plane, size.w, y, samples)?;
    }
    Ok(())
}

/// All samples that were asked for, plane by plane.
pub(crate) fn asked_samples(alloc: Global, made: &Made) -> Result<Vec<u8>, AllocError> {
    let mut samples = Vec::new(alloc);
    for plane in 0..3 {
        push_plane(made, plane, &mut samples)?;
    }
    Ok(samples)
}

/// Whether a frame is what is restored of two copies.
fn is_restored(alloc: Global, frame: &Made, copies: [&[u8]; 2]) -> bool {
    match file_of(alloc, frame, copies) {
        Some(file) => restores(alloc, &file, &frame.payload),
        None => false,
    }
}

/// Whether the samples that are decoded of a frame are those that were asked for.
fn samples_come_back(alloc: Global, made: &Made) -> bool {
    match asked_samples(alloc, made) {
        Ok(asked) => decodes(alloc, made, &asked),
        Err(_) => false,
    }
}

/// Whether the frame of a case comes back from `take` and `restore` byte for byte, and from `decode` sample by sample.
fn comes_back(alloc: Global, case: &SuiteCase) -> bool {
    match frame_of(alloc, case) {
        Some(made) => {
            is_restored(alloc, &made, [&made.payload, &made.payload])
                && samples_come_back(alloc, &made)
        }
        None => false,
    }
}

/// How many cases with these tables come back.
fn count_back(alloc: Global, tables: SuiteTables) -> usize {
    let mut back = 0usize;
    for number in 0..SUITE_NUMBERS {
        if let Some(case) = suite_case(tables, number) {
            back = back.saturating_add(usize::from(comes_back(alloc, &case)));
        }
    }
    back
}

#[test]
fn frames_of_one_run_come_back(rt: HostRuntime) {
    assert!(rt; count_back(rt.alloc(), SuiteTables::OneRun) == 465);
}

#[test]
fn frames_of_six_runs_come_back(rt: HostRuntime) {
    assert!(rt; count_back(rt.alloc(), SuiteTables::SixRuns) == 465);
}

#[test]
fn frames_of_two_runs_come_back(rt: HostRuntime) {
    assert!(rt; count_back(rt.alloc(), SuiteTables::TwoRuns) == 465);
}

/// A frame of 2 x 2 tiles, in 4:2:0.
fn four_tiles(alloc: Global) -> Option<Made> {
    let case = SuiteCase {
        tables: SuiteTables::SixRuns,
        chroma: Some((1, 1)),
        grid: (2, 2),
        content: SuiteContent::Rising,
        size: (64, 64),
    };
    frame_of(alloc, &case)
}

/// Where the slice of a tile stands in a payload: its first byte, and that after its last. Links count from the end.
fn place_of(payload: &[u8], tile: usize) -> Option<(usize, usize)> {
    let after = Chain::new(payload).count().checked_sub(tile)?;
    let link = Chain::new(payload).nth(after.checked_sub(1)?)?;
    Some((link.start(), link.end()))
}

/// The payload with 32 bits flipped, from the fourth bit of a byte on.
fn burst_at(alloc: Global, payload: &[u8], byte: usize) -> Option<Vec<u8>> {
    if payload.len() < 5 || payload.len() > 1 << 30 || byte > payload.len() - 5 {
        return None;
    }
    burst(alloc, payload, byte * 8 + 3, 0xFFFF_FFFF).ok()
}

/// A copy of a frame, with one more burst: in the content of this tile.
fn damaged_more(alloc: Global, payload: &[u8], copy: &[u8], tile: usize) -> Option<Vec<u8>> {
    let (start, _end) = place_of(payload, tile)?;
    burst_at(alloc, copy, start.wrapping_add(4))
}

/// A copy of a frame with a burst in the contents of these tiles.
fn damaged_in(alloc: Global, payload: &[u8], tiles: &[usize]) -> Option<Vec<u8>> {
    let mut copy = payload.to_vec(alloc).ok()?;
    for tile in tiles {
        copy = damaged_more(alloc, payload, &copy, *tile)?;
    }
    Some(copy)
}

/// A copy of a frame with a burst in the error status and the parity of tile 0.
fn damaged_after_first(alloc: Global, payload: &[u8]) -> Option<Vec<u8>> {
    let (_start, end) = place_of(payload, 0)?;
    burst_at(alloc, payload, end.wrapping_sub(5))
}

/// Whether two copies restore a frame, and this is printed of them.
fn are_restored(alloc: Global, frame: &Made, mut copies: [&[u8]; 2], lines: &str) -> bool {
    match taken(alloc, &frame.record, frame.size, &mut copies) {
        Some((file, printed)) => {
            printed.as_slice() == lines.as_bytes() && restores(alloc, &file, &frame.payload)
        }
        None => false,
    }
}

/// Whether a frame is restored of a copy with one whole slice and of one with three, in either order, and `take` prints so
/// many slices of each.
fn are_restored_in_turn(alloc: Global, frame: &Made, one: &[u8], three: &[u8]) -> bool {
    let lines = "copy 1 links 4 slices 1 new 1\ncopy 2 links 4 slices 3 new 3\n";
    let turned = "copy 1 links 4 slices 3 new 3\ncopy 2 links 4 slices 1 new 1\n";
    are_restored(alloc, frame, [one, three], lines)
        && are_restored(alloc, frame, [three, one], turned)
}

/// Whether a frame is restored of a copy with bursts in all tiles but the first, and of one with a burst in the first.
fn bursts_are_restored(alloc: Global, frame: &Made) -> bool {
    let one = damaged_in(alloc, &frame.payload, &[1, 2, 3]);
    let three = damaged_after_first(alloc, &frame.payload);
    match (&one, &three) {
        (Some(one), Some(three)) => are_restored_in_turn(alloc, frame, one, three),
        _ => false,
    }
}

#[test]
fn bursts_in_each_tile_are_restored_from_two_copies(rt: HostRuntime) {
    let are_restored = match four_tiles(rt.alloc()) {
        Some(frame) => bursts_are_restored(rt.alloc(), &frame),
        None => false,
    };
    assert!(rt; are_restored);
}

/// The links of a payload, from its first byte on.
fn links_of(alloc: Global, payload: &[u8]) -> Result<Vec<Link<'_>>, AllocError> {
    let mut links: Vec<Link<'_>> = Chain::new(payload).collect(alloc)?;
    links.reverse();
    Ok(links)
}

/// Flips a bit in the content of the slice of each of these tiles, if there is one.
fn flip_each(links: &[Link<'_>], tiles: &[usize], copy: &mut [u8]) -> Option<()> {
    for tile in tiles {
        let place = links.get(*tile)?.start().wrapping_add(2);
        if let Some(byte) = copy.get_mut(place) {
            *byte ^= 0x40;
        }
    }
    Some(())
}

/// A copy of a frame with one bit flipped in the content of each of these tiles.
fn flipped_in(alloc: Global, payload: &[u8], tiles: &[usize]) -> Option<Vec<u8>> {
    let mut copy = payload.to_vec(alloc).ok()?;
    let flipped = match links_of(alloc, payload) {
        Ok(links) => flip_each(&links, tiles, &mut copy),
        Err(_) => None,
    };
    if flipped.is_some() { Some(copy) } else { None }
}

/// Whether a frame is restored of copies with a bit flipped in these tiles and in those, and `take` prints these lines of
/// them.
fn flipped_is_restored(
    alloc: Global,
    frame: &Made,
    (these, those): (&[usize], &[usize]),
    lines: &str,
) -> bool {
    let one = flipped_in(alloc, &frame.payload, these);
    let other = flipped_in(alloc, &frame.payload, those);
    match (&one, &other) {
        (Some(one), Some(other)) => are_restored(alloc, frame, [one, other], lines),
        _ => false,
    }
}

#[test]
fn a_flipped_bit_in_each_tile_is_restored(rt: HostRuntime) {
    let lines = "copy 1 links 4 slices 2 new 2\ncopy 2 links 4 slices 2 new 2\n";
    let is_restored = match four_tiles(rt.alloc()) {
        Some(frame) => flipped_is_restored(rt.alloc(), &frame, (&[0, 3], &[1, 2]), lines),
        None => false,
    };
    assert!(rt; is_restored);
}

/// A frame of 64 x 64 tiles of one sample each.
fn many_tiles(alloc: Global) -> Option<Made> {
    let case = SuiteCase {
        tables: SuiteTables::OneRun,
        chroma: None,
        grid: (64, 64),
        content: SuiteContent::Rising,
        size: (64, 64),
    };
    frame_of(alloc, &case)
}

/// Every other one of 4096 tiles, from the first or the second on.
fn every_other(first: usize) -> [usize; 2048] {
    let mut tiles = [0; 2048];
    for (pair, tile) in tiles.iter_mut().enumerate() {
        *tile = pair.wrapping_mul(2).wrapping_add(first);
    }
    tiles
}

#[test]
fn even_and_odd_tiles_of_4096_are_restored(rt: HostRuntime) {
    let (even, odd) = (every_other(0), every_other(1));
    let lines = "copy 1 links 4096 slices 2048 new 2048\ncopy 2 links 4096 slices 2048 new 2048\n";
    let are_restored = match many_tiles(rt.alloc()) {
        Some(frame) => flipped_is_restored(rt.alloc(), &frame, (&even, &odd), lines),
        None => false,
    };
    assert!(rt; are_restored);
}

/// Whether a copy has a chain that breaks at this place, and `take` prints one link and one slice of each of two such copies.
fn breaks_at(alloc: Global, frame: &Made, copy: &[u8], place: usize) -> bool {
    let lines = "copy 1 links 1 slices 1 new 1\ncopy 2 links 1 slices 1 new 0\n";
    let is_broken = Chain::new(copy).end() == ChainEnd::Broken(place);
    match taken(alloc, &frame.record, frame.size, &mut [copy, copy]) {
        Some((_file, printed)) => is_broken && printed.as_slice() == lines.as_bytes(),
        None => false,
    }
}

/// Whether a size too great in the footer that ends there hides that slice and those before it.
fn size_at_hides(alloc: Global, frame: &Made, end: usize) -> bool {
    let Ok(mut copy) = frame.payload.to_vec(alloc) else {
        return false;
    };
    if let Some(size) = copy.get_mut(end.wrapping_sub(8)) {
        *size = 0xFF;
    }
    breaks_at(alloc, frame, &copy, end)
}

/// Whether one in the footer of tile 2 does.
fn size_hides(alloc: Global, frame: &Made) -> bool {
    match place_of(&frame.payload, 2) {
        Some((_start, end)) => size_at_hides(alloc, frame, end),
        None => false,
    }
}

#[test]
fn a_size_too_great_hides_what_lies_before(rt: HostRuntime) {
    let is_hidden = match four_tiles(rt.alloc()) {
        Some(frame) => size_hides(rt.alloc(), &frame),
        None => false,
    };
    assert!(rt; is_hidden);
}

/// The file that `merge` writes of two holding files, if it writes one.
pub(crate) fn merged(alloc: Global, mut left: &[u8], mut right: &[u8]) -> Option<Vec<u8>> {
    let mut file = Vec::new(alloc);
    match run_merge(alloc, Recordings::Profile, &mut left, &mut right, &mut file) {
        Ok(()) => Some(file),
        Err(_) => None,
    }
}

/// Whether `merge` writes of two holding files what `join` does.
fn are_alike(alloc: Global, left: &[u8], right: &[u8]) -> bool {
    let (file, wanted) = (merged(alloc, left, right), joined(alloc, left, right));
    match (&file, &wanted) {
        (Some(file), Some((wanted, _printed))) => file == wanted,
        _ => false,
    }
}

/// Whether it does of each two of these files.
fn all_are_alike(alloc: Global, a: &[u8], b: &[u8], both: &[u8]) -> bool {
    for &(left, right) in &[
        (a, a),
        (a, b),
        (b, a),
        (b, b),
        (a, both),
        (both, a),
        (b, both),
        (both, b),
    ] {
        if !are_alike(alloc, left, right) {
            return false;
        }
    }
    true
}

/// Whether it does of the files of two copies and that of both together, and makes that one of them.
fn files_are_alike(alloc: Global, frame: &Made, a: &[u8], b: &[u8]) -> bool {
    let both = file_of(alloc, frame, [a, b]);
    let (a, b) = (file_of(alloc, frame, [a, a]), file_of(alloc, frame, [b, b]));
    match (&a, &b, &both) {
        (Some(a), Some(b), Some(both)) => {
            all_are_alike(alloc, a, b, both) && is_merged(alloc, a, b, both)
        }
        _ => false,
    }
}

/// Whether `merge` makes this of two files.
fn is_merged(alloc: Global, left: &[u8], right: &[u8], wanted: &[u8]) -> bool {
    match merged(alloc, left, right) {
        Some(file) => file.as_slice() == wanted,
        None => false,
    }
}

/// Whether the files of a copy of a frame with bursts in tiles 0 and 3, and of one with bursts in the others are.
fn halves_are_alike(alloc: Global, frame: &Made) -> bool {
    let a = damaged_in(alloc, &frame.payload, &[0, 3]);
    let b = damaged_in(alloc, &frame.payload, &[1, 2]);
    match (&a, &b) {
        (Some(a), Some(b)) => files_are_alike(alloc, frame, a, b),
        _ => false,
    }
}

#[test]
fn merge_writes_what_join_writes(rt: HostRuntime) {
    let are_alike = match four_tiles(rt.alloc()) {
        Some(frame) => halves_are_alike(rt.alloc(), &frame),
        None => false,
    };
    assert!(rt; are_alike);
}
