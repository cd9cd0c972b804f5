//! Frames and damage made to measure.
use ffv1_bits::passes;
use ffv1_range::Setup;
use ffv1_slice::{Chain, slice_of};
use ffv1_vectors::{
    FrameSpec, MakeFault, RecordSpec, SuiteCase, SuiteContent, SuiteTables, TileSpec, burst, cut,
    flip, make_frame, make_record, put_front, suite_record, zero,
};
use std::alloc::{AllocError, Global};

/// Whether bytes were made, and are these.
pub(crate) fn is_made<Fault: Copy>(made: Result<Vec<u8>, Fault>, wanted: &[u8]) -> bool {
    match made {
        Ok(bytes) => bytes.as_slice() == wanted,
        Err(_) => false,
    }
}

/// Whether each byte is 0.
pub(crate) fn are_zeros(bytes: &[u8]) -> bool {
    bytes.iter().all(|byte| *byte == 0)
}

/// A copy of each of these slices.
pub(crate) fn copies<Item: Copy>(
    alloc: Global,
    slices: &[&[Item]],
) -> Result<Vec<Vec<Item>>, AllocError> {
    let mut copies = Vec::new(alloc);
    for items in slices {
        copies.push(Vec::from_slice(alloc, items)?)?;
    }
    Ok(copies)
}

/// A tile with these planes, whose other fields are 0.
fn plain_tile(alloc: Global, planes: &[&[u8]]) -> Result<TileSpec, AllocError> {
    Ok(TileSpec {
        planes: copies(alloc, planes)?,
        status: 0,
        table_y: 0,
        table_c: 0,
        picture_structure: 0,
        sar_num: 0,
        sar_den: 0,
    })
}

/// A frame of this tile alone.
fn single(alloc: Global, tile: TileSpec) -> Result<FrameSpec, AllocError> {
    let mut tiles = Vec::new(alloc);
    tiles.push(tile)?;
    Ok(FrameSpec { tiles })
}

/// The frame of one tile with these planes.
pub(crate) fn frame_of(
    alloc: Global,
    setup: &Setup,
    planes: &[&[u8]],
) -> Result<Vec<u8>, MakeFault> {
    make_frame(alloc, setup, &single(alloc, plain_tile(alloc, planes)?)?)
}

/// The setup that a record as asked says, for frames of this size; `NotSelf` where it is not read.
pub(crate) fn setup_by(
    alloc: Global,
    spec: &RecordSpec,
    (width, height): (u32, u32),
) -> Result<Setup, MakeFault> {
    match Setup::read(alloc, &make_record(alloc, spec)?, width, height) {
        Ok(setup) => Ok(setup),
        Err(_) => Err(MakeFault::NotSelf),
    }
}

/// The setup of a case, without its content.
pub(crate) fn setup_of(
    alloc: Global,
    tables: SuiteTables,
    chroma: Option<(u32, u32)>,
    grid: (u32, u32),
    size: (u32, u32),
) -> Result<Setup, MakeFault> {
    let case = SuiteCase {
        tables,
        chroma,
        grid,
        content: SuiteContent::Flat,
        size,
    };
    setup_by(alloc, &suite_record(alloc, &case)?, size)
}

/// Whether a frame was made, whose one tile has these codes: its bytes after the header's two and before the footer.
fn has_codes(frame: Result<Vec<u8>, MakeFault>, codes: &[u8]) -> bool {
    match frame {
        Ok(frame) => frame.len() == codes.len() + 10 && frame[2..].starts_with(codes),
        Err(_) => false,
    }
}

/// The tables of a recording of one tile, its chroma and size, the planes of its tile, and the codes they are to have.
type Coded = (
    SuiteTables,
    Option<(u32, u32)>,
    (u32, u32),
    &'static [&'static [u8]],
    &'static [u8],
);

/// Tiles and their codes.
static CODED: [Coded; 4] = [
    (
        SuiteTables::OneRun,
        None,
        (2, 2),
        &[&[5, 5, 5, 6]],
        &[0x13, 0x50],
    ),
    (
        SuiteTables::TwoRuns,
        None,
        (2, 1),
        &[&[250, 249]],
        &[0x1F, 0x00],
    ),
    (
        SuiteTables::TwoRuns,
        None,
        (1, 2),
        &[&[5, 5]],
        &[0x12, 0x00],
    ),
    // planes follow each other
    (
        SuiteTables::OneRun,
        Some((0, 0)),
        (1, 1),
        &[&[0], &[5], &[5]],
        &[0x88, 0x60],
    ),
];

/// Whether a tile is coded as this says.
fn is_coded(alloc: Global, (tables, chroma, size, planes, codes): Coded) -> bool {
    match setup_of(alloc, tables, chroma, (1, 1), size) {
        Ok(setup) => has_codes(frame_of(alloc, &setup, planes), codes),
        Err(_) => false,
    }
}

#[test]
fn tiles_are_coded_byte_for_byte(rt: HostRuntime) {
    for row in &CODED {
        assert!(rt; is_coded(rt.alloc(), *row));
    }
}

/// A frame of 2 x 2 tiles of one sample each, with an error status of its own for each tile.
fn four_tiles(alloc: Global) -> Result<FrameSpec, AllocError> {
    let mut tiles = Vec::new(alloc);
    for number in 0..4u8 {
        let mut tile = plain_tile(alloc, &[&[number * 60]])?;
        tile.status = number;
        tiles.push(tile)?;
    }
    Ok(FrameSpec { tiles })
}

/// The tiles whose slices are found in a payload, from its end, each with the status before its parity.
fn found_tiles(
    alloc: Global,
    setup: &Setup,
    payload: &[u8],
) -> Result<Vec<(usize, u8)>, AllocError> {
    let mut tiles = Vec::new(alloc);
    let mut chain = Chain::new(payload);
    for _ in 0..payload.len() {
        if let Some(link) = chain.next() {
            if let Ok(tile) = slice_of(setup, &link) {
                tiles.push((tile, link.status()))?;
            }
        }
    }
    Ok(tiles)
}

/// The frame of these tiles, after some bytes.
fn four_tiles_after(alloc: Global, setup: &Setup, front: &[u8]) -> Result<Vec<u8>, MakeFault> {
    let frame = make_frame(alloc, setup, &four_tiles(alloc)?)?;
    Ok(put_front(alloc, front, &frame)?)
}

/// Whether these tiles are found in a payload.
fn finds_in(alloc: Global, setup: &Setup, payload: &[u8], tiles: &[(usize, u8)]) -> bool {
    match found_tiles(alloc, setup, payload) {
        Ok(found) => found.as_slice() == tiles,
        Err(_) => false,
    }
}

/// Whether these tiles are found in the frame of the four, after some bytes.
fn finds(alloc: Global, setup: &Setup, front: &[u8], tiles: &[(usize, u8)]) -> bool {
    match four_tiles_after(alloc, setup, front) {
        Ok(frame) => finds_in(alloc, setup, &frame, tiles),
        Err(_) => false,
    }
}

/// The bytes before a frame, and the tiles that are found after them.
static FOUND: [(&[u8], &[(usize, u8)]); 2] = [
    (&[], &[(3, 3), (2, 2), (1, 1), (0, 0)]),
    (&[0xFF], &[(3, 3), (2, 2), (1, 1)]),
];

#[test]
fn made_frames_are_found_tile_by_tile(rt: HostRuntime) {
    for &(front, tiles) in &FOUND {
        let are_found = match setup_of(rt.alloc(), SuiteTables::OneRun, None, (2, 2), (2, 2)) {
            Ok(setup) => finds(rt.alloc(), &setup, front, tiles),
            Err(_) => false,
        };
        assert!(rt; are_found);
    }
}

/// The frame of the sample 0 in one tile with these tables; without tables, of no tile.
fn tabled(alloc: Global, tables: Option<(u32, u32)>) -> Result<FrameSpec, AllocError> {
    let Some((table_y, table_c)) = tables else {
        return Ok(FrameSpec {
            tiles: Vec::new(alloc),
        });
    };
    let mut tile = plain_tile(alloc, &[&[0]])?;
    tile.table_y = table_y;
    tile.table_c = table_c;
    single(alloc, tile)
}

/// Why that frame is not made for a gray recording of one tile of one sample.
fn refusal(alloc: Global, tables: Option<(u32, u32)>) -> Result<Option<MakeFault>, MakeFault> {
    let spec = tabled(alloc, tables)?;
    match setup_of(alloc, SuiteTables::OneRun, None, (1, 1), (1, 1)) {
        Ok(setup) => Ok(make_frame(alloc, &setup, &spec).err()),
        Err(fault) => Err(fault),
    }
}

/// The tables that the one tile names, if there is one, and why no frame is made of it.
static TABLES: [(Option<(u32, u32)>, Option<MakeFault>); 4] = [
    (Some((0, 0)), None),
    (Some((1, 0)), Some(MakeFault::NotSelf)),
    (Some((0, 1)), Some(MakeFault::NotSelf)),
    (None, Some(MakeFault::NotSelf)),
];

#[test]
fn frames_that_do_not_fit_are_refused(rt: HostRuntime) {
    for &(tables, fault) in &TABLES {
        assert!(rt; refusal(rt.alloc(), tables) == Ok(fault));
    }
}

#[test]
fn damage_is_as_stated(rt: HostRuntime) {
    let alloc = rt.alloc();
    let bytes = [1, 2, 3];
    let as_stated = [
        is_made(flip(alloc, &bytes, 8), &[1, 0x82, 3]),
        is_made(zero(alloc, &bytes, 1, 3), &[1, 0, 0]),
        is_made(cut(alloc, &bytes, 2), &[1, 2]),
        is_made(put_front(alloc, &[9], &bytes), &[9, 1, 2, 3]),
    ];
    assert!(rt; as_stated == [true; 4]);
}

#[test]
fn bursts_are_as_stated(rt: HostRuntime) {
    let few = burst(rt.alloc(), &[1, 2, 3, 4, 5], 4, 0xF000_0001);
    let all = burst(rt.alloc(), &SLICES[0], 0, 0xFFFF_FFFF);
    let wanted = [0x02, 0x09, 0x7F, 0xFF, 0, 3, 0, 0x1C, 0x3E, 0xA0, 0x9B];
    let as_stated = [is_made(few, &[0x0E, 2, 3, 4, 0x15]), is_made(all, &wanted)];
    assert!(rt; as_stated == [true; 2]);
}

/// Three slices: that of tile 0 with sample 0, that with sample 1, and that of tile 1 in a grid two wide.
static SLICES: [[u8; 11]; 3] = [
    [0xFD, 0xF6, 0x80, 0, 0, 3, 0, 0x1C, 0x3E, 0xA0, 0x9B],
    [0xFD, 0xF6, 0x40, 0, 0, 3, 0, 0x17, 0x60, 0xA5, 0x79],
    [0x3F, 0x2B, 0x80, 0, 0, 3, 0, 0x56, 0x0F, 0xD7, 0x3B],
];

/// Bursts that change all of 32 bits, and their ends alone.
static MASKS: [u32; 2] = [0xFFFF_FFFF, 0x8000_0001];

/// Whether a slice with this burst passes, or there is none.
fn burst_passes(alloc: Global, slice: &[u8; 11], bit: usize, mask: u32) -> bool {
    if bit > 56 {
        return true;
    }
    match burst(alloc, slice, bit, mask) {
        Ok(damaged) => passes(&damaged),
        Err(_) => true,
    }
}

#[test]
fn bursts_never_pass(rt: HostRuntime) {
    for slice in &SLICES {
        for mask in &MASKS {
            for bit in 0..=56usize {
                assert!(rt; !burst_passes(rt.alloc(), slice, bit, *mask), "at {bit}");
            }
        }
    }
}

#[test]
fn wider_damage_can_pass(rt: HostRuntime) {
    // The first slice with the error status 1 and its parity: what differs lies within 33 bits.
    assert!(rt; passes(&[0xFD, 0xF6, 0x80, 0, 0, 3, 1, 0x18, 0xFF, 0xBD, 0x2C]));
}
