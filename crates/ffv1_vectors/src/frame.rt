//! Frames (RFC 9043, sections 4.4 to 4.9), made to measure tile by tile.
ghost use Rattle.std.specs.Prelude.{◌≡◌, ◌<◌, ◌≤◌, ◌^◌, ◌*◌, ◌==◌, ◌↔◌, ℕ, IsTrue, IfOk, Err, length, map, slice_index_or};
ghost use Rattle.ffv1_bits.specs.Limits.{payload_limit};
ghost use Rattle.ffv1_range.specs.Tiles.{grid_of, tile_count, plane_count, plane_rect};
ghost use Rattle.ffv1_range.specs.Header.{IsHeadOf, header_limits};
ghost use Rattle.ffv1_plane.specs.Picture.{IsPictureOf, samples_of};
ghost use Rattle.ffv1_range.specs.TileHeaders.{profile_rules};
ghost use Rattle.ffv1_slice.specs.Slices.{content_of, IsSliceOf};
ghost use Rattle.ffv1_vectors.specs.Frames.{asked_planes, asked_head, FitsTile, FitsSetup, IsMadeSlice, IsMadeFrame};
ghost use Rattle.ffv1_vectors.specs.declared.fault.MakeFault.TheVariants as MakeFault;
ghost use Rattle.ffv1_vectors.specs.declared.frame.TileSpec.{TileSpec};

use crate::fault::MakeFault;
use crate::plane::{CodedPlane, coding_of};
use crate::planes::write_planes;
use crate::rice::RiceWriter;
use crate::slice::spell_slice;
use ffv1_bits::PAYLOAD_LIMIT;
use ffv1_plane::{Tables, TileFault, decode_tile, start_states};
use ffv1_range::{Grid, Setup, SliceHead, read_head};
use ffv1_slice::{content_of, read_slice};
use std::alloc::Global;

/// What a frame is to be.
#[derive(Drop)]
pub struct FrameSpec {
    /// Its tiles, row by row.
    pub tiles: Vec<TileSpec>,
}

/// What a tile and its slice are to be.
#[derive(Drop)]
pub struct TileSpec {
    /// The samples of Y, or of Y, Cb and Cr, each row by row.
    pub planes: Vec<Vec<u8>>,
    /// The error status in the slice's footer.
    pub status: u8,
    /// The set of quantization tables of Y.
    pub table_y: u32,
    /// The set of quantization tables of Cb and Cr.
    pub table_c: u32,
    /// picture_structure.
    pub picture_structure: u32,
    /// sar_num.
    pub sar_num: u32,
    /// sar_den.
    pub sar_den: u32,
}

/// A frame's payload: one slice a tile in tile order, each with its header, its planes in Golomb-Rice codes and runs, and
/// its footer; the first begins with a keyframe bit 1. It is returned only if each slice was read back: as one of its
/// tile, with the header, the error status and the planes asked for.
///
/// Returns `NotSelf` if the spec does not fit the setup, and then before any allocation of memory: where the tiles are not
/// as many as the setup has, the planes of a tile not as many or not of the sizes, or a table set is named that it does
/// not have. It is returned too where a slice passes 16777223 bytes or the payload 2^30, and where a slice does not read back.
/// Returns `Memory` if an allocation of memory failed.
pub fn make_frame(alloc: Global, setup: &Setup, spec: &FrameSpec) -> Result<Vec<u8>, MakeFault>
    ensures made { IfOk result (λ payload. IsMadeFrame setup.now spec.now payload.items) }
    ensures fits { IfOk result (λ payload. FitsSetup setup.now spec.now) }
    ensures misfit { (FitsSetup setup.now spec.now → ⊥) → result ≡ Err MakeFault.NotSelf }
{
    if !fits_setup(setup, spec) {
        return Err(MakeFault::NotSelf);
    }
    let mut payload = Vec::new(alloc);
    for (tile, tile_spec) in spec.tiles.iter().enumerate() {
        let slice = make_slice(alloc, setup, tile, tile_spec)?;
        if slice.len() > PAYLOAD_LIMIT - payload.len() {
            return Err(MakeFault::NotSelf);
        }
        payload.extend_from_slice(&slice)?;
    }
    Ok(payload)
}

/// Whether the tiles, their planes and their tables are those of a setup.
fn fits_setup(setup: &Setup, spec: &FrameSpec) -> bool
    ensures { IsTrue result ↔ FitsSetup setup.now spec.now }
{
    spec.tiles.len() == setup.grid().tiles() && fit_tiles(setup, &spec.tiles)
}

/// Whether each tile's planes and tables are those of a setup.
fn fit_tiles(setup: &Setup, tiles: &[TileSpec]) -> bool
    requires { length tiles.now ≡ tile_count (grid_of setup.now) }
    ensures { IsTrue result ↔ ((tile : ℕ) (d : TileSpec) → tile < length tiles.now → FitsTile setup.now tile (slice_index_or tiles.now tile d)) }
{
    for (tile, spec) in tiles.iter().enumerate() {
        if !fits_tile(setup, tile, spec) {
            return false;
        }
    }
    true
}

/// Whether a tile's planes and tables are those of a setup.
fn fits_tile(setup: &Setup, tile: usize, spec: &TileSpec) -> bool
    requires { tile < tile_count (grid_of setup.now) }
    ensures { IsTrue result ↔ FitsTile setup.now tile spec.now }
{
    let count = if setup.has_chroma() { 3 } else { 1 };
    (spec.table_y as usize) < setup.sets()
        && (spec.table_c as usize) < setup.sets()
        && spec.planes.len() == count
        && fit_planes(&setup.grid(), tile, &spec.planes)
}

/// Whether the planes have the sizes of a tile.
fn fit_planes(grid: &Grid, tile: usize, planes: &[Vec<u8>]) -> bool
    requires tile { tile < tile_count grid.now }
    requires planes { length planes.now ≡ plane_count grid.now }
    ensures { IsTrue result ↔ ((plane : ℕ) → plane < length planes.now
        → length (samples_of (map (λ samples. samples.items) planes.now) plane) ≡ (plane_rect grid.now tile plane).w * (plane_rect grid.now tile plane).h) }
{
    for (plane, samples) in planes.iter().enumerate() {
        let rect = grid.plane_rect(tile, plane);
        if samples.len() != rect.w as usize * rect.h as usize {
            return false;
        }
    }
    true
}

/// The slice of a tile.
fn make_slice(
    alloc: Global,
    setup: &Setup,
    tile: usize,
    spec: &TileSpec,
) -> Result<Vec<u8>, MakeFault>
    requires tile { tile < tile_count (grid_of setup.now) }
    requires fits { FitsTile setup.now tile spec.now }
    ensures { IfOk result (λ slice. IsMadeSlice setup.now tile spec.now slice.items) }
{
    let codes = spell_planes(alloc, setup, tile, spec)?;
    let fields = fields_of(setup, tile, spec);
    let slice = spell_slice(alloc, tile == 0, true, &fields, &codes, spec.status)?;
    if !reads_back(alloc, setup, tile, spec, &slice)? {
        return Err(MakeFault::NotSelf);
    }
    Ok(slice)
}

/// The fields of a tile's header.
fn fields_of(setup: &Setup, tile: usize, spec: &TileSpec) -> [u32; 9]
    requires { tile < tile_count (grid_of setup.now) }
{
    let across = setup.grid().across();
    [
        tile as u32 % across,
        tile as u32 / across,
        0,
        0,
        spec.table_y,
        spec.table_c,
        spec.picture_structure,
        spec.sar_num,
        spec.sar_den,
    ]
}

/// The codes of a tile's planes. Y has states of its own, Cb and Cr share some.
fn spell_planes(
    alloc: Global,
    setup: &Setup,
    tile: usize,
    spec: &TileSpec,
) -> Result<Vec<u8>, MakeFault>
    requires tile { tile < tile_count (grid_of setup.now) }
    requires fits { FitsTile setup.now tile spec.now }
{
    let luma = start_states(alloc, setup, spec.table_y as usize)?;
    let chroma = start_states(alloc, setup, spec.table_c as usize)?;
    let mut writer = RiceWriter::new(alloc, vec![in alloc; luma, chroma]?);
    let planes = coded_planes(alloc, setup, tile, spec)?;
    write_planes(&mut writer, &planes, false)?;
    let (codes, _states) = writer.finish();
    Ok(codes)
}

/// The planes of a tile, as they are coded.
fn coded_planes<'s>(
    alloc: Global,
    setup: &'s Setup,
    tile: usize,
    spec: &TileSpec,
) -> Result<Vec<CodedPlane<'s>>, MakeFault>
    requires tile { tile < tile_count (grid_of setup.now) }
    requires fits { FitsTile setup.now tile spec.now }
{
    let mut planes = Vec::with_capacity(alloc, spec.planes.len())?;
    for (plane, samples) in spec.planes.iter().enumerate() {
        let rect = setup.grid().plane_rect(tile, plane);
        planes.push(CodedPlane {
            coding: coding_of(setup.recording()),
            samples: samples
                .iter()
                .map(|sample| u32::from(*sample))
                .collect(alloc)?,
            width: rect.w as usize,
            height: rect.h as usize,
            group: usize::from(plane != 0),
            tables: tables_of(setup, spec, plane),
        })?;
    }
    Ok(planes)
}

/// The tables of a plane of a tile.
fn tables_of<'s>(setup: &'s Setup, spec: &TileSpec, plane: usize) -> Tables<'s>
    requires luma { spec.now.table_y < length setup.now.sets }
    requires chroma { spec.now.table_c < length setup.now.sets }
{
    if plane == 0 {
        Tables::of(setup.recording(), spec.table_y as usize)
    } else {
        Tables::of(setup.recording(), spec.table_c as usize)
    }
}

/// Whether a slice reads as that of a tile, with the header and the planes asked for.
fn reads_back(
    alloc: Global,
    setup: &Setup,
    tile: usize,
    spec: &TileSpec,
    slice: &[u8],
) -> Result<bool, MakeFault>
    requires tile { tile < tile_count (grid_of setup.now) }
    requires short { length slice.now ≤ payload_limit }
    ensures is_slice { IfOk result (λ same. IsTrue same → IsSliceOf (profile_rules setup.now) slice.now (tile == 0) tile) }
    ensures head { IfOk result (λ same. IsTrue same → (place : ℕ) × IsHeadOf (header_limits setup.now) (content_of slice.now) (tile == 0)
        (asked_head tile spec.now) place) }
    ensures picture { IfOk result (λ same. IsTrue same → (spare_bits : ℕ)
        × IsPictureOf setup.now tile (content_of slice.now) (record { planes = asked_planes spec.now; spare_bits = spare_bits })) }
{
    if read_slice(setup, slice, tile == 0) != Ok(tile) {
        return Ok(false);
    }
    let content = content_of(slice);
    if !has_head(setup, tile, spec, content) {
        return Ok(false);
    }
    has_picture(alloc, setup, tile, spec, content)
}

/// Whether a content begins with the header asked for.
fn has_head(setup: &Setup, tile: usize, spec: &TileSpec, content: &[u8]) -> bool
    ensures { IsTrue result → (place : ℕ) × IsHeadOf (header_limits setup.now) content.now (tile == 0) (asked_head tile spec.now) place }
{
    match read_head(setup, content, tile == 0) {
        Ok((head, _place)) => head == asked_head(tile, spec),
        Err(_) => false,
    }
}

/// What the header of a tile is to say.
fn asked_head(tile: usize, spec: &TileSpec) -> SliceHead
    ensures { result ≡ asked_head tile spec.now }
{
    SliceHead {
        tile,
        table_y: spec.table_y as usize,
        table_c: spec.table_c as usize,
        picture_structure: spec.picture_structure,
        sar_num: spec.sar_num,
        sar_den: spec.sar_den,
    }
}

/// Whether a content spells the planes asked for.
fn has_picture(
    alloc: Global,
    setup: &Setup,
    tile: usize,
    spec: &TileSpec,
    content: &[u8],
) -> Result<bool, MakeFault>
    requires tile { tile < tile_count (grid_of setup.now) }
    requires short { length content.now ≤ payload_limit }
    ensures { IfOk result (λ same. IsTrue same → (spare_bits : ℕ) × IsPictureOf setup.now tile content.now
        (record { planes = asked_planes spec.now; spare_bits = spare_bits })) }
{
    match decode_tile(alloc, setup, tile, content) {
        Ok(picture) => Ok(same_planes(&picture.planes, &spec.planes)),
        Err(TileFault::Memory) => Err(MakeFault::Memory),
        Err(_) => Ok(false),
    }
}

/// Whether planes have the same samples.
fn same_planes(planes: &[Vec<u8>], others: &[Vec<u8>]) -> bool
    ensures { IsTrue result → map (λ plane. plane.items) planes.now ≡ map (λ plane. plane.items) others.now }
{
    if planes.len() != others.len() {
        return false;
    }
    for (plane, samples) in planes.iter().enumerate() {
        if !same_samples(samples, &others[plane]) {
            return false;
        }
    }
    true
}

/// Whether samples are the same.
fn same_samples(samples: &[u8], others: &[u8]) -> bool
    ensures { IsTrue result → samples.now ≡ others.now }
{
    samples == others
}
