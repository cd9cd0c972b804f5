//! The greatest frames: sides of 65535 samples, 4096 tiles, and the run index that lines of that length reach.
use crate::frames::{are_zeros, frame_of, setup_by, setup_of};
use ffv1_bits::{
    Bits, FILE_LIMIT, GREATEST_SIDE, MOST_TILES, PAYLOAD_LIMIT, RECORD_LIMIT, SLICE_LIMIT,
};
use ffv1_plane::{TilePicture, decode_tile};
use ffv1_range::{Setup, SetupFault, TileRect};
use ffv1_rice::{RunIndex, RunWord};
use ffv1_slice::Chain;
use ffv1_vectors::{
    MakeFault, RecordSpec, SuiteCase, SuiteContent, SuiteTables, make_record, spell_record,
    suite_record,
};
use ffv1_weave::{MOST_COMBINATIONS, MOST_REPAIRS};
use std::alloc::{AllocError, Global};

#[test]
fn limits_are_these_numbers(rt: HostRuntime) {
    let most = (GREATEST_SIDE, MOST_TILES, MOST_COMBINATIONS, MOST_REPAIRS);
    let limits = (PAYLOAD_LIMIT, SLICE_LIMIT, RECORD_LIMIT, FILE_LIMIT);
    let wanted = (1_073_741_824, 16_777_223, 16_777_216, 2_147_483_648);
    assert!(rt; (most, limits) == ((65535, 4096, 4096, 1_048_576), wanted));
}

/// What a gray record of a grid is to say, its tables of one run each.
fn gray_spec(alloc: Global, grid: (u32, u32)) -> Result<RecordSpec, AllocError> {
    let case = SuiteCase {
        tables: SuiteTables::OneRun,
        chroma: None,
        grid,
        content: SuiteContent::Flat,
        size: grid,
    };
    suite_record(alloc, &case)
}

/// The setup of the greatest frames of a grid.
fn greatest_setup(alloc: Global, grid: (u32, u32)) -> Result<Setup, MakeFault> {
    setup_by(
        alloc,
        &gray_spec(alloc, grid)?,
        (GREATEST_SIDE, GREATEST_SIDE),
    )
}

/// Why the record of one tile is refused for frames of this size.
fn size_fault(alloc: Global, width: u32, height: u32) -> Result<Option<SetupFault>, MakeFault> {
    match make_record(alloc, &gray_spec(alloc, (1, 1))?) {
        Ok(record) => Ok(Setup::read(alloc, &record, width, height).err()),
        Err(fault) => Err(fault),
    }
}

/// Sizes of frames, and why they are refused.
static SIZES: [(u32, u32, Option<SetupFault>); 5] = [
    (65535, 1, None),
    (1, 65535, None),
    (65535, 65535, None),
    (65536, 1, Some(SetupFault::Size)),
    (1, 65536, Some(SetupFault::Size)),
];

#[test]
fn sides_end_at_65535(rt: HostRuntime) {
    for &(width, height, fault) in &SIZES {
        assert!(rt; size_fault(rt.alloc(), width, height) == Ok(fault));
    }
}

/// How many tiles a record of this grid has that is made.
fn made_tiles(alloc: Global, grid: (u32, u32)) -> Result<usize, MakeFault> {
    match greatest_setup(alloc, grid) {
        Ok(setup) => Ok(setup.grid().tiles()),
        Err(fault) => Err(fault),
    }
}

/// Why a record that was spelled is not read for the greatest frames.
fn read_fault(
    alloc: Global,
    record: Result<Vec<u8>, MakeFault>,
) -> Result<Option<SetupFault>, MakeFault> {
    match record {
        Ok(record) => Ok(Setup::read(alloc, &record, GREATEST_SIDE, GREATEST_SIDE).err()),
        Err(fault) => Err(fault),
    }
}

/// Why a record of this grid is not made, and why it is not read where it is spelled.
fn refused_grid(
    alloc: Global,
    grid: (u32, u32),
) -> Result<(Option<MakeFault>, Option<SetupFault>), MakeFault> {
    let spec = gray_spec(alloc, grid)?;
    let read = read_fault(alloc, spell_record(alloc, &spec))?;
    Ok((make_record(alloc, &spec).err(), read))
}

/// Grids of as many tiles as there may be.
static GREATEST_GRIDS: [(u32, u32); 3] = [(64, 64), (4096, 1), (1, 4096)];

/// Grids of more tiles.
static GREATER_GRIDS: [(u32, u32); 3] = [(64, 65), (4097, 1), (65535, 65535)];

#[test]
fn tiles_end_at_4096(rt: HostRuntime) {
    for &grid in &GREATEST_GRIDS {
        assert!(rt; made_tiles(rt.alloc(), grid) == Ok(4096));
    }
    let refused = (Some(MakeFault::NotSelf), Some(SetupFault::TooManyTiles));
    for &grid in &GREATER_GRIDS {
        assert!(rt; refused_grid(rt.alloc(), grid) == Ok(refused));
    }
}

/// Where the last tile of the greatest frames of a grid lies.
fn last_tile(alloc: Global, grid: (u32, u32)) -> Result<TileRect, MakeFault> {
    match greatest_setup(alloc, grid) {
        Ok(setup) => {
            let grid = setup.grid();
            Ok(grid.tile(grid.tiles() - 1))
        }
        Err(fault) => Err(fault),
    }
}

#[test]
fn last_tile_ends_at_the_greatest_frame(rt: HostRuntime) {
    let wanted = TileRect {
        x: 64511,
        y: 64511,
        w: 1024,
        h: 1024,
    };
    assert!(rt; last_tile(rt.alloc(), (64, 64)) == Ok(wanted));
}

/// The frame of zeros, in one tile.
fn zeros(alloc: Global, setup: &Setup) -> Result<Vec<u8>, MakeFault> {
    let samples = vec![in alloc; 0; setup.width() as usize * setup.height() as usize]?;
    frame_of(alloc, setup, &[&samples])
}

/// Whether the first slice of a frame has this content, and only a footer after it.
fn has_content(frame: &[u8], content: &[u8]) -> bool {
    match Chain::new(frame).next() {
        Some(link) => link.bytes().starts_with(content) && frame.len() == content.len() + 8,
        None => false,
    }
}

/// Whether the first plane is so many zeros.
fn is_zeros(picture: &TilePicture, samples: usize) -> bool {
    match picture.planes.first() {
        Some(plane) => plane.len() == samples && are_zeros(plane),
        None => false,
    }
}

/// Whether a content is decoded to so many zeros, with so many bits to spare.
fn is_decoded(
    alloc: Global,
    setup: &Setup,
    content: &[u8],
    (samples, spare_bits): (usize, usize),
) -> bool {
    if setup.grid().tiles() == 0 || content.len() > 1 << 30 {
        return false;
    }
    match decode_tile(alloc, setup, 0, content) {
        Ok(picture) => picture.spare_bits == spare_bits && is_zeros(&picture, samples),
        Err(_) => false,
    }
}

/// Whether the frame of zeros is made with this content.
fn is_coded(alloc: Global, setup: &Setup, content: &[u8]) -> bool {
    match zeros(alloc, setup) {
        Ok(frame) => has_content(&frame, content),
        Err(_) => false,
    }
}

/// Rows of 65535 zeros, how many zeros they are, the content of their slice, and its bits to spare.
static LINES: [(u32, usize, &[u8], usize); 2] = [
    (1, 65535, &[0xFD, 0xF6, 0xFF, 0xFF, 0xFF, 0xFF], 0),
    (2, 131070, &[0xFD, 0xF6, 0xFF, 0xFF, 0xFF, 0xFF, 0xC0], 6),
];

/// Whether the frame of so many rows has this content, and whether that is decoded to so many zeros, with so many bits
/// to spare.
fn codes_zeros(
    alloc: Global,
    rows: u32,
    content: &[u8],
    zeros_and_spare: (usize, usize),
) -> (bool, bool) {
    let size = (GREATEST_SIDE, rows);
    match setup_of(alloc, SuiteTables::OneRun, None, (1, 1), size) {
        Ok(setup) => (
            is_coded(alloc, &setup, content),
            is_decoded(alloc, &setup, content, zeros_and_spare),
        ),
        Err(_) => (false, false),
    }
}

#[test]
fn longest_lines_of_zeros(rt: HostRuntime) {
    for &(rows, samples, content, spare_bits) in &LINES {
        let reported = codes_zeros(rt.alloc(), rows, content, (samples, spare_bits));
        assert!(rt; reported == (true, true));
    }
}

/// The last word of a line of 65535 zeros at this index, and the index after the line.
fn line_of_zeros(index: &mut RunIndex, bits: &mut Bits<'_>) -> Option<(RunWord, usize)> {
    let mut left = GREATEST_SIDE;
    for _ in 0..64 {
        if left < 1 || left > GREATEST_SIDE {
            return None;
        }
        match index.read(bits, left).ok()? {
            RunWord::Full(length) if length <= left => left -= length,
            word => return Some((word, index.index())),
        }
    }
    None
}

/// The last word of each line, the index after it, and how many bits are left.
static AFTER_LINES: [(Option<(RunWord, usize)>, usize); 2] = [
    (Some((RunWord::ToEnd, 31)), 8),
    (Some((RunWord::ToEnd, 32)), 6),
];

#[test]
fn run_index_reaches_32_after_two_lines(rt: HostRuntime) {
    let bytes = [0xFF, 0xFF, 0xFF, 0xFF, 0xC0];
    let mut bits = Bits::new(&bytes);
    let mut index = RunIndex::start();
    let first = (line_of_zeros(&mut index, &mut bits), bits.left());
    let second = (line_of_zeros(&mut index, &mut bits), bits.left());
    assert!(rt; [first, second] == AFTER_LINES);
}
