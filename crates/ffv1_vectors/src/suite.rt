//! The suite of recordings and pictures on which all calls are tried: each case crosses tables, a chroma format, a grid,
//! a content and a size.
ghost use Rattle.std.specs.Prelude.{◌≡◌, ◌<◌, ◌↔◌, ℕ, [], ◌∷◌, length, map, slice_get, slice_index_or, IfOk, IfSome, IsTrue, Some};
ghost use Rattle.ffv1_range.specs.Tiles.{grid_of, tile_count};
ghost use Rattle.ffv1_vectors.specs.Frames.{FitsTile, FitsSetup};
ghost use Rattle.ffv1_vectors.specs.Suite.{IsNumbered, IsCoarse, IsRecordOf, IsSuitePlane, IsSuiteTile, suite_tables};
ghost use Rattle.ffv1_vectors.specs.declared.frame.TileSpec.{TileSpec};
ghost use Rattle.ffv1_vectors.specs.declared.suite.SuiteCase.{SuiteCase};

use crate::frame::{FrameSpec, TileSpec};
use crate::record::RecordSpec;
use ffv1_range::Setup;
use std::alloc::{AllocError, Global};

/// The quantization tables of a recording, of which it has one set.
#[derive(Clone, Copy, Debug, PartialEq, Eq)]
pub enum SuiteTables {
    /// Each table has one run: there is one context.
    OneRun,
    /// Three tables of six runs each, and two of one: 666 contexts.
    SixRuns,
    /// A table of the runs 1 and 127, and four of one run: 2 contexts.
    TwoRuns,
}

/// The samples of a plane.
#[derive(Clone, Copy, Debug, PartialEq, Eq)]
pub enum SuiteContent {
    /// One value, another one for each tile and plane.
    Flat,
    /// Each sample is one more than the one before it, modulo 256.
    Rising,
    /// 0 and 255 by turns.
    Alternating,
}

/// A case of the suite.
#[derive(Clone, Copy, Debug, PartialEq, Eq)]
pub struct SuiteCase {
    /// The tables.
    pub tables: SuiteTables,
    /// The logarithms to base 2 of a chroma sample's width and height in luma samples; `None` where the recording is gray.
    pub chroma: Option<(u32, u32)>,
    /// The tiles across and down.
    pub grid: (u32, u32),
    /// What the planes have.
    pub content: SuiteContent,
    /// The width and height of the frame, in samples.
    pub size: (u32, u32),
}

/// How many numbers `suite_case` takes.
pub const SUITE_NUMBERS: usize = 720;

static FORMATS: [Option<(u32, u32)>; 5] = [
    None,
    Some((0, 0)),
    Some((1, 0)),
    Some((1, 1)),
    Some((2, 2)),
];

static GRIDS: [(u32, u32); 3] = [(1, 1), (2, 2), (3, 2)];

static CONTENTS: [SuiteContent; 3] = [
    SuiteContent::Flat,
    SuiteContent::Rising,
    SuiteContent::Alternating,
];

static SIDES: [u32; 4] = [1, 2, 7, 64];

/// The case with these tables and this number, from 0 up to 719; `None` where its grid is finer than its frame. The
/// numbers go through all combinations: gray, and chroma with the shifts (0, 0), (1, 0), (1, 1) and (2, 2); grids of
/// 1 x 1, 2 x 2 and 3 x 2; the three contents; and the widths and heights 1, 2, 7 and 64.
pub fn suite_case(tables: SuiteTables, number: usize) -> Option<SuiteCase>
    ensures numbered { IfSome result (IsNumbered tables number) }
    ensures coarse { IfSome result IsCoarse }

    // Every case whose grid is not too fine is returned.
    ensures found { (case : SuiteCase) → IsNumbered tables number case → IsCoarse case → result ≡ Some case }
{
    let case = numbered_case(tables, number);
    if is_coarse(&case) { Some(case) } else { None }
}

/// The case of a number.
fn numbered_case(tables: SuiteTables, number: usize) -> SuiteCase
    ensures { IsNumbered tables number result }
{
    SuiteCase {
        tables,
        chroma: FORMATS[number % 5],
        grid: GRIDS[number / 5 % 3],
        content: CONTENTS[number / 15 % 3],
        size: (SIDES[number / 45 % 4], SIDES[number / 180 % 4]),
    }
}

/// Whether a case's grid is not finer than its frame.
fn is_coarse(case: &SuiteCase) -> bool
    ensures { IsTrue result ↔ IsCoarse case.now }
{
    case.grid.0 <= case.size.0 && case.grid.1 <= case.size.1
}

/// The record of a case. It fails only if an allocation of memory failed.
pub fn suite_record(alloc: Global, case: &SuiteCase) -> Result<RecordSpec, AllocError>
    ensures { IfOk result (IsRecordOf case.now) }
{
    let (shift_h, shift_v) = case.chroma.unwrap_or((0, 0));
    Ok(RecordSpec {
        version: 3,
        micro: 4,
        coder: 0,
        colorspace: 0,
        raw_depth: 8,
        has_chroma: case.chroma.is_some(),
        shift_h,
        shift_v,
        extra_plane: false,
        across: case.grid.0,
        down: case.grid.1,
        set_count: 1,
        sets: suite_sets(alloc, case.tables)?,
        delta: None,
        ec: 1,
        intra: 1,
    })
}

/// The one set of tables of a case.
fn suite_sets(alloc: Global, tables: SuiteTables) -> Result<Vec<Vec<Vec<u32>>>, AllocError>
    ensures many { IfOk result (λ sets. length sets.items ≡ 1) }
    ensures tables { IfOk result (λ sets. map (λ set. map (λ runs. runs.items) set.items) sets.items ≡ suite_tables tables ∷ []) }
{
    let mut set = Vec::new(alloc);
    for table in 0..5usize {
        set.push(Vec::from_slice(alloc, suite_runs(tables, table))?)?;
    }
    let mut sets = Vec::new(alloc);
    sets.push(set)?;
    Ok(sets)
}

/// The runs of a table.
fn suite_runs(tables: SuiteTables, table: usize) -> &'static [u32]
    requires { table < 5 }
    ensures { slice_get (suite_tables tables) table ≡ Some result.now }
{
    match tables {
        SuiteTables::SixRuns if table < 3 => &[1, 2, 4, 8, 16, 97],
        SuiteTables::TwoRuns if table == 0 => &[1, 127],
        _ => &[128],
    }
}

/// The frame of a case, for its setup: a tile for each of the setup's, whose planes have the case's content. A flat or rising
/// plane begins with the sum of 50 times its tile's number and 7 times its own, modulo 256. Each slice has the error status
/// 0, and its header (RFC 9043, section 4.6) the first set of tables, a progressive picture and an unknown sample aspect
/// ratio. It fails only if an allocation of memory failed.
pub fn suite_frame(alloc: Global, case: &SuiteCase, setup: &Setup) -> Result<FrameSpec, AllocError>
    ensures fits { IfOk result (FitsSetup setup.now) }
    ensures tiles { IfOk result (λ spec. (tile : ℕ) (d : TileSpec) → tile < length spec.tiles.items
        → IsSuiteTile case.now tile (slice_index_or spec.tiles.items tile d)) }
{
    let mut tiles = Vec::new(alloc);
    for tile in 0..setup.grid().tiles() {
        tiles.push(suite_tile(alloc, case, setup, tile)?)?;
    }
    Ok(FrameSpec { tiles })
}

/// A tile of a case.
fn suite_tile(
    alloc: Global,
    case: &SuiteCase,
    setup: &Setup,
    tile: usize,
) -> Result<TileSpec, AllocError>
    requires { tile < tile_count (grid_of setup.now) }
    ensures fits { IfOk result (FitsTile setup.now tile) }
    ensures tile { IfOk result (IsSuiteTile case.now tile) }
{
    setup.keeps_profile();
    let grid = setup.grid();
    let count = if setup.has_chroma() { 3 } else { 1 };
    let mut planes = Vec::new(alloc);
    for plane in 0..count {
        let rect = grid.plane_rect(tile, plane);
        let first = (tile * 50 + plane * 7) % 256;
        planes.push(suite_plane(
            alloc,
            case.content,
            first as u8,
            rect.w as usize * rect.h as usize,
        )?)?;
    }
    Ok(TileSpec {
        planes,
        status: 0,
        table_y: 0,
        table_c: 0,
        picture_structure: 3,
        sar_num: 0,
        sar_den: 0,
    })
}

/// The samples of a plane that begins with this one.
fn suite_plane(
    alloc: Global,
    content: SuiteContent,
    first: u8,
    count: usize,
) -> Result<Vec<u8>, AllocError>
    ensures { IfOk result (λ samples. IsSuitePlane content first count samples.items) }
{
    let mut samples = Vec::new(alloc);
    for place in 0..count {
        let step = (place % 256) as u8;
        samples.push(match content {
            SuiteContent::Flat => first,
            SuiteContent::Rising => first.wrapping_add(step),
            SuiteContent::Alternating if place % 2 == 0 => 0,
            SuiteContent::Alternating => 255,
        })?;
    }
    Ok(samples)
}
