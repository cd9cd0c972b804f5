//! The picture of a tile, from the content of its slice (RFC 9043, sections 4.5 to 4.8).
//!
//! Planes stand in the order Y, Cb, Cr, and a gray tile has Y alone. The adaptive states start anew in each slice: there
//! are some for Y, and some for Cb and Cr together. Bits after the last sample are counted and ignored.
ghost use Rattle.std.specs.Prelude.{◌≡◌, ◌≢◌, ◌<◌, ◌≤◌, ◌^◌, ◌==◌, ℕ, Err, length, slice_index, map, IfOk, IfErr, MatchResult, ◌⊎◌};
ghost use Rattle.ffv1_bits.specs.Limits.{payload_limit};
ghost use Rattle.ffv1_range.specs.Setup.{IsInProfile, set_contexts, set_entry};
ghost use Rattle.ffv1_range.specs.Tiles.{grid_of, tile_count, plane_count, plane_rect};
ghost use Rattle.ffv1_plane.specs.Samples.{coding_at};
ghost use Rattle.ffv1_plane.specs.Progress.{AreStatesAfter};
ghost use Rattle.ffv1_plane.specs.Inner.Progress.{IsPlaneRead};
ghost use Rattle.ffv1_plane.specs.Inner.Halts.{IsPlaneOfHalted, IsLumaHalted, IsChromaHalted, ArePlanesHalted};
ghost use Rattle.ffv1_plane.specs.Stuck.{IsStuckAt};
ghost use Rattle.ffv1_rice.specs.declared.code.CodeFault.{CodeFault};
ghost use Rattle.ffv1_plane.specs.Picture.{PictureValue, IsPictureOf, IsPlaneIn, plane_set, no_values, OneReading};
ghost use Rattle.ffv1_plane.specs.Inner.Groups.{IsLumaRead, IsChromaRead, ArePlanesRead};
ghost use Rattle.ffv1_plane.specs.Views.{picture_value};
ghost use Rattle.ffv1_plane.specs.StuckLaws.{EachPictureIsSpelled, FrontsGoOn, StuckSpellsNothing, StuckIsOne, IsRefusedFor, OneResult};
ghost use Rattle.ffv1_range.specs.Header.{IsHeadOf, header_limits, head_read};
ghost use Rattle.ffv1_range.specs.declared.head.HeadFault.{HeadFault};
ghost use Rattle.ffv1_range.specs.declared.head.SliceHead.{SliceHead};
ghost use Rattle.ffv1_plane.specs.declared.tile.TileFault.TheVariants as TileFault;

use crate::plane::{PlaneFault, decode_plane};
use crate::rice_planes::first_codes;
use crate::tables::Tables;
use ffv1_bits::Bits;
use ffv1_range::{HeadFault, Setup, SliceHead, read_head};
use ffv1_rice::{BYTE_DEPTH, CodeFault, VlcState};
use std::alloc::{AllocError, AllocFailed, Global};

/// Why a slice's content gives no picture of a tile.
#[derive(Clone, Copy, Debug, PartialEq, Eq)]
pub enum TileFault {
    /// The content has no header of the profile.
    Head(HeadFault),
    /// The header is that of another tile.
    OtherTile,
    /// A run word or a code can't be read. The place is the sample at which it begins: its plane (0 is Y, 1 is Cb, 2 is
    /// Cr), its row and its column, counted from the tile's first.
    Code {
        fault: CodeFault,
        plane: usize,
        y: usize,
        x: usize,
    },
    /// An allocation of memory failed.
    Memory,
}

impl From<HeadFault> for TileFault {
    ghost use Rattle.std.specs.Prelude.{◌≡◌};
    ghost use Rattle.ffv1_plane.specs.declared.tile.TileFault.TheVariants.{Head};

    ghost from_gives = { λ fault result. result ≡ Head fault };

    fn from(fault: HeadFault) -> TileFault {
        TileFault::Head(fault)
    }
}

impl From<AllocError> for TileFault {
    ghost use Rattle.std.specs.Prelude.{◌≡◌};
    ghost use Rattle.ffv1_plane.specs.declared.tile.TileFault.TheVariants.{Memory};

    ghost from_gives = { λ error result. result ≡ Memory };

    fn from(_error: AllocError) -> TileFault {
        TileFault::Memory
    }
}

impl<T: Drop> From<AllocFailed<T>> for TileFault {
    ghost use Rattle.std.specs.Prelude.{◌≡◌};
    ghost use Rattle.ffv1_plane.specs.declared.tile.TileFault.TheVariants.{Memory};

    ghost from_gives = { λ error result. result ≡ Memory };

    fn from(_error: AllocFailed<T>) -> TileFault {
        TileFault::Memory
    }
}

/// The picture of a tile.
#[derive(Debug, Drop)]
pub struct TilePicture {
    /// Y, or Y, Cb and Cr: a byte a sample, row by row.
    pub planes: Vec<Vec<u8>>,
    /// How many bits of the content stand after those of the last sample.
    pub spare_bits: usize,
}

/// Decodes the tile of this number, counted from 0 row by row, from the content of its slice, that is the slice without
/// its footer (RFC 9043, sections 4.5 to 4.8). The number has to be under the number of tiles, and the content has at
/// most 2^30 bytes; that of tile 0 is read as the payload's first, with a keyframe bit before its header.
///
/// Refused with `Head` where the content has no header of the profile, then `OtherTile` where the header is that of
/// another tile, then `Code` where the bits after it spell no picture; returns `Memory` if an allocation fails. A
/// picture takes memory for its planes. While a plane is decoded, it takes four bytes a sample besides, and the adaptive
/// states of Y, or of Cb and Cr.
pub fn decode_tile(
    alloc: Global,
    setup: &Setup,
    index: usize,
    content: &[u8],
) -> Result<TilePicture, TileFault>
    requires tile { index < tile_count (grid_of setup.now) }
    requires content { length content.now ≤ payload_limit }

    // What is returned is the picture that the content spells.
    ensures ok { IfOk result (λ picture. IsPictureOf setup.now index content.now (picture_value picture)) }

    // Wherever the content spells a picture, that is returned, or Memory.
    ensures found { (picture : PictureValue) → IsPictureOf setup.now index content.now picture
        → MatchResult result (λ read. picture_value read ≡ picture) (λ fault. fault ≡ TileFault.Memory) }

    // A content without a header of the profile is refused for the header's first fault ..
    ensures head { (fault : HeadFault) → head_read (header_limits setup.now) content.now (index == 0) ≡ Err fault → result ≡ Err (TileFault.Head fault) }

    // .. one with a header of another tile for that ..
    ensures other { (head : SliceHead) (place : ℕ) → IsHeadOf (header_limits setup.now) content.now (index == 0) head place → head.tile ≢ index
        → result ≡ Err TileFault.OtherTile }

    // .. and each refusal but Memory is the one that the content gives: with a header of this tile, a fault of a run
    // word or a code, which says where the content is stuck ..
    ensures refused { IfErr result (λ fault. (fault ≡ TileFault.Memory) ⊎ IsRefusedFor setup.now index content.now fault) }

    // .. and wherever it is stuck, that is returned, or Memory.
    ensures stuck { (fault : CodeFault) (plane y x : ℕ) → IsStuckAt setup.now index content.now fault plane y x
        → MatchResult result (λ read. ⊥) (λ given. (given ≡ TileFault.Memory) ⊎ (given ≡ TileFault.Code fault plane y x)) }
{
    setup.keeps_profile();
    let (head, place) = read_head(setup, content, index == 0)?;
    if head.tile != index {
        return Err(TileFault::OtherTile);
    }
    let mut bits = Bits::new(&content[place..]);
    let planes = decode_planes(alloc, setup, &head, &mut bits)?;
    let spare_bits = bits.left();
    Ok(TilePicture { planes, spare_bits })
}

/// Decodes the planes of a tile.
fn decode_planes(
    alloc: Global,
    setup: &Setup,
    head: &SliceHead,
    bits: &mut Bits,
) -> Result<Vec<Vec<u8>>, TileFault>
    requires profile { IsInProfile setup.now }
    requires tile { head.now.tile < tile_count (grid_of setup.now) }
    requires luma_table { head.now.table_y < length setup.now.sets }
    requires chroma_table { head.now.table_c < length setup.now.sets }
    ensures ok { IfOk result (λ planes. ArePlanesRead setup.now head.now bits.old.left (map (λ plane. plane.items) planes.items) bits.new.left) }
    ensures err { IfErr result (ArePlanesHalted setup.now head.now bits.old.left) }
{
    let luma = decode_luma(alloc, setup, head, bits)?;
    if setup.has_chroma() {
        let (cb, cr) = decode_chroma(alloc, setup, head, bits)?;
        Ok(vec![in alloc; luma, cb, cr]?)
    } else {
        Ok(vec![in alloc; luma]?)
    }
}

/// Decodes plane Y, whose states start anew.
fn decode_luma(
    alloc: Global,
    setup: &Setup,
    head: &SliceHead,
    bits: &mut Bits,
) -> Result<Vec<u8>, TileFault>
    requires profile { IsInProfile setup.now }
    requires tile { head.now.tile < tile_count (grid_of setup.now) }
    requires luma_table { head.now.table_y < length setup.now.sets }
    requires chroma_table { head.now.table_c < length setup.now.sets }
    ensures ok { IfOk result (λ samples. IsLumaRead setup.now head.now bits.old.left samples.items bits.new.left) }
    ensures err { IfErr result (IsLumaHalted setup.now head.now bits.old.left) }
{
    let tables = Tables::of(setup.recording(), head.table_y);
    let states = start_states(alloc, setup, head.table_y)?;
    let (samples, _) = decode_plane_of(alloc, setup, head, 0, &tables, states, bits)?;
    Ok(samples)
}

/// Decodes the planes Cb and Cr. Their states start anew before Cb, and Cr goes on with them.
fn decode_chroma(
    alloc: Global,
    setup: &Setup,
    head: &SliceHead,
    bits: &mut Bits,
) -> Result<(Vec<u8>, Vec<u8>), TileFault>
    requires profile { IsInProfile setup.now }
    requires tile { head.now.tile < tile_count (grid_of setup.now) }
    requires luma_table { head.now.table_y < length setup.now.sets }
    requires chroma_table { head.now.table_c < length setup.now.sets }
    requires chroma { plane_count (grid_of setup.now) ≡ 3 }
    ensures ok { IfOk result (λ planes. IsChromaRead setup.now head.now bits.old.left planes.0.items planes.1.items bits.new.left) }
    ensures err { IfErr result (IsChromaHalted setup.now head.now bits.old.left) }
{
    let tables = Tables::of(setup.recording(), head.table_c);
    let states = start_states(alloc, setup, head.table_c)?;
    let (cb, states) = decode_plane_of(alloc, setup, head, 1, &tables, states, bits)?;
    let (cr, _) = decode_plane_of(alloc, setup, head, 2, &tables, states, bits)?;
    Ok((cb, cr))
}

/// The start state for each context of a set of a setup (RFC 9043, section 3.8.2.4). An allocation of memory can fail.
pub fn start_states(alloc: Global, setup: &Setup, set: usize) -> Result<Vec<VlcState>, AllocError>
    requires { set < length setup.now.sets }
    ensures len { IfOk result (λ states. length states.items ≡ set_contexts setup.now set) }
    ensures fresh { IfOk result (λ states. AreStatesAfter 8 no_values states.items) }
{
    first_codes(alloc, setup.recording(), set)
}

/// Decodes one plane of a tile by its tables, with the states that those before it have left, and gives those that it
/// leaves.
fn decode_plane_of(
    alloc: Global,
    setup: &Setup,
    head: &SliceHead,
    plane: usize,
    tables: &Tables,
    states: Vec<VlcState>,
    bits: &mut Bits,
) -> Result<(Vec<u8>, Vec<VlcState>), TileFault>
    requires profile { IsInProfile setup.now }
    requires tile { head.now.tile < tile_count (grid_of setup.now) }
    requires plane { plane < plane_count (grid_of setup.now) }
    requires luma_table { head.now.table_y < length setup.now.sets }
    requires chroma_table { head.now.table_c < length setup.now.sets }
    requires tables { tables.now ≡ record { setup = setup.now; set = plane_set head.now plane } }
    requires contexts { length states.items ≡ set_contexts setup.now (plane_set head.now plane) }
    ensures len { IfOk result (λ read. length read.1.items ≡ length states.items) }
    ensures size { IfOk result (λ read. IsPlaneIn (plane_rect (grid_of setup.now) head.now.tile plane) read.0.items) }
    ensures read { IfOk result (λ read. IsPlaneRead (plane_rect (grid_of setup.now) head.now.tile plane).w
        (plane_rect (grid_of setup.now) head.now.tile plane).h (coding_at 8 (set_entry setup.now
        (plane_set head.now plane))) states.items bits.old.left read.0.items read.1.items bits.new.left) }
    ensures err { IfErr result (IsPlaneOfHalted setup.now head.now plane states.items bits.old.left) }
{
    let (samples, states) = decode_samples_of(alloc, setup, head, plane, tables, states, bits)?;
    let bytes = bytes_of(alloc, &samples)?;
    Ok((bytes, states))
}

/// The samples of one plane of a tile, and the states that it leaves.
fn decode_samples_of(
    alloc: Global,
    setup: &Setup,
    head: &SliceHead,
    plane: usize,
    tables: &Tables,
    states: Vec<VlcState>,
    bits: &mut Bits,
) -> Result<(Vec<u32>, Vec<VlcState>), TileFault>
    requires profile { IsInProfile setup.now }
    requires tile { head.now.tile < tile_count (grid_of setup.now) }
    requires plane { plane < plane_count (grid_of setup.now) }
    requires luma_table { head.now.table_y < length setup.now.sets }
    requires chroma_table { head.now.table_c < length setup.now.sets }
    requires tables { tables.now ≡ record { setup = setup.now; set = plane_set head.now plane } }
    requires contexts { length states.items ≡ set_contexts setup.now (plane_set head.now plane) }
    ensures len { IfOk result (λ read. length read.1.items ≡ length states.items) }
    ensures size { IfOk result (λ read. IsPlaneIn (plane_rect (grid_of setup.now) head.now.tile plane) read.0.items) }
    ensures read { IfOk result (λ read. IsPlaneRead (plane_rect (grid_of setup.now) head.now.tile plane).w
        (plane_rect (grid_of setup.now) head.now.tile plane).h (coding_at 8 (set_entry setup.now
        (plane_set head.now plane))) states.items bits.old.left read.0.items read.1.items bits.new.left) }
    ensures err { IfErr result (IsPlaneOfHalted setup.now head.now plane states.items bits.old.left) }
{
    let rect = setup.grid().plane_rect(head.tile, plane);
    let (width, height) = (rect.w as usize, rect.h as usize);
    match decode_plane(alloc, BYTE_DEPTH, width, height, tables, states, bits) {
        Ok(read) => Ok(read),
        Err(PlaneFault::Memory) => Err(TileFault::Memory),
        Err(PlaneFault::Code { fault, sample }) => Err(TileFault::Code {
            fault,
            plane,
            y: sample / width,
            x: sample % width,
        }),
    }
}

/// Samples of 8 bits as bytes.
fn bytes_of(alloc: Global, samples: &[u32]) -> Result<Vec<u8>, AllocError>
    requires { (s : ℕ) → slice_index samples.now s < 256 }
    ensures { IfOk result (λ bytes. bytes.items ≡ samples.now) }
{
    let mut bytes = vec![in alloc; 0; samples.len()]?;
    for place in 0..samples.len() {
        bytes[place] = samples[place] as u8;
    }
    Ok(bytes)
}

/// No bits begin with the spellings of two pictures of a tile, and a content has one picture.
pub fn one_reading()
    ensures { OneReading }
{}

/// Every picture of a tile has a spelling, and what is read before a fault begins one.
pub fn each_is_spelled()
    ensures spelled { EachPictureIsSpelled }
    ensures fronts { FrontsGoOn }
{}

/// A content that is stuck has no picture, and one fault at one sample.
pub fn one_fault()
    ensures nothing { StuckSpellsNothing }
    ensures one { StuckIsOne }
    ensures returned { OneResult }
{}
