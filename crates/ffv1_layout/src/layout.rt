//! The slices of a frame, with their headers, each tile in one of them (RFC 9043, sections 4.5, 4.6 and 5).
ghost use Rattle.std.specs.Prelude.{◌≡◌, ◌==◌, ◌<◌, ◌≤◌, ◌⊎◌, ℕ, List, length, map, slice_index_or, IfOk, IfErr, OnOk, MatchResult};
ghost use Rattle.ffv1_range.specs.Setup.{RecordingValue};
ghost use Rattle.ffv1_layout.specs.Cuts.{footer_length, FitFooters, slice_status};
ghost use Rattle.ffv1_layout.specs.Layout.{HasSliceHeader, HasNoSliceHeader, HaveHeaders, headers_of, contents_of, listed_slice, IsLaidOut, IsLayoutOf, IsFirstLayoutFault, OneLayout};
ghost use Rattle.ffv1_range.specs.Tiles.{grid_of, tile_count};
ghost use Rattle.ffv1_range.specs.declared.head.SliceHeader.{SliceHeader};
ghost use Rattle.ffv1_layout.specs.declared.fault.LayoutFault.TheVariants.{Memory};
ghost use Rattle.ffv1_layout.specs.Inner.Marking.{HaveFit, AreTilesOf, IsTileFault};
ghost use Rattle.ffv1_layout.specs.Inner.Placing.{HaveFooters, IsPlacedSlice, ArePlaced, IsFirstUnplaced};

use crate::cut::{cut_slices, footer_length};
use crate::fault::LayoutFault;
use crate::tiles::{first_free, is_free, mark_slice};
use ffv1_bits::passes;
use ffv1_range::{Recording, SliceHeader, read_slice_head};
use ffv1_slice::{LinkFault, status_of};
use std::alloc::Global;

/// A slice of a frame's payload.
#[derive(Clone, Copy)]
pub struct PlacedSlice<'a> {
    /// What stands before its footer.
    pub content: &'a [u8],
    pub header: SliceHeader,
    /// The error status in its footer (RFC 9043, section 4.9.2), where the recording's footers have one.
    pub status: Option<u8>,
}

/// The error status in a slice's footer.
fn status_in(recording: &Recording, slice: &[u8]) -> Option<u8>
    requires { footer_length recording.now.setup.ec ≤ length slice.now }
    ensures { result ≡ slice_status recording.now slice.now }
{
    if recording.ec() == 0 {
        None
    } else {
        Some(status_of(slice))
    }
}

/// The header of a slice, with its content and its error status. It is `first` where it is the payload's first.
fn placed<'a>(
    recording: &Recording,
    slice: &'a [u8],
    first: bool,
) -> Result<PlacedSlice<'a>, LinkFault>
    requires { footer_length recording.now.setup.ec ≤ length slice.now }
    ensures ok { IfOk result (IsPlacedSlice recording.now slice.now first) }
    ensures err { IfErr result (HasNoSliceHeader recording.now slice.now first) }
{
    if recording.ec() != 0 && !passes(slice) {
        return Err(LinkFault::Parity);
    }
    let content = &slice[..slice.len().saturating_sub(footer_length(recording))];
    match read_slice_head(recording, content, first) {
        Ok((header, _start)) => Ok(PlacedSlice {
            content,
            header,
            status: status_in(recording, slice),
        }),
        Err(fault) => Err(LinkFault::Head(fault)),
    }
}

/// The headers of slices from the payload's front.
///
/// Refused with `Slice` at the first that fails its parity or has no header.
fn place_slices<'a>(
    alloc: Global,
    recording: &Recording,
    slices: &[&'a [u8]],
) -> Result<Vec<PlacedSlice<'a>>, LayoutFault>
    requires { HaveFooters (footer_length recording.now.setup.ec) (map (λ slice. slice.now) slices.now) }
    ensures ok { IfOk result (λ placed. ArePlaced recording.now (map (λ slice. slice.now) slices.now) (length slices.now) placed.items) }
    ensures err { IfErr result (IsFirstUnplaced recording.now (map (λ slice. slice.now) slices.now)) }
{
    let mut placed_slices = Vec::with_capacity(alloc, slices.len())?;
    for (place, slice) in slices.iter().enumerate() {
        match placed(recording, slice, place == 0) {
            Ok(slice) => placed_slices.push(slice)?,
            Err(cause) => return Err(LayoutFault::Slice { place, cause }),
        }
    }
    Ok(placed_slices)
}

/// Whether each tile is in one slice and only in one.
///
/// Refused with `Overlap` at the first slice that has a tile of one before it, and then with `Uncovered` at the least tile that no slice has.
fn check_tiles(
    alloc: Global,
    recording: &Recording,
    placed: &[PlacedSlice<'_>],
) -> Result<(), LayoutFault>
    requires { HaveFit recording.now.setup.across (tile_count (grid_of recording.now.setup)) (headers_of placed.now) }
    ensures ok { OnOk result (AreTilesOf recording.now.setup.across (tile_count (grid_of recording.now.setup)) (headers_of placed.now)) }
    ensures err { IfErr result (IsTileFault recording.now.setup.across (tile_count (grid_of recording.now.setup)) (headers_of placed.now)) }
{
    let grid = recording.grid();
    let across = grid.across() as usize;
    let mut marks = vec![in alloc; false; grid.tiles()]?;
    for (place, slice) in placed.iter().enumerate() {
        if !is_free(&marks, across, &slice.header) {
            return Err(LayoutFault::Overlap { place });
        }
        mark_slice(&mut marks, across, &slice.header);
    }
    match first_free(&marks) {
        Some(tile) => Err(LayoutFault::Uncovered { tile }),
        None => Ok(()),
    }
}

/// The slices of a frame's payload, from its front, each with its content, its header and its error status (RFC 9043, sections 4.4 to 4.6,
/// 4.9 and 5). Each tile of the grid is in one of them and only in one; they can stand in any order.
///
/// Refused with the first fault: `Chain`; then for each place upwards `Slice`, its parity before its header; then `Overlap`, then `Uncovered`.
/// Returns `Memory` if an allocation fails. It takes 100 bytes a slice, of which there are no more than tiles, and a byte a tile.
pub fn read_layout<'a>(
    alloc: Global,
    recording: &Recording,
    payload: &'a [u8],
) -> Result<Vec<PlacedSlice<'a>>, LayoutFault>
    ensures ok { IfOk result (λ placed. IsLayoutOf recording.now payload.now placed.items) }
    ensures short { IfOk result (λ placed. FitFooters (contents_of placed.items)) }
    ensures err { IfErr result (IsFirstLayoutFault recording.now payload.now) }

    // Wherever the payload is slices that lie so, these are returned, or Memory.
    ensures found { (slices : List (List ℕ)) (headers : List SliceHeader) → IsLaidOut recording.now payload.now slices headers
        → MatchResult result (λ placed. headers_of placed.items ≡ headers) (λ fault. fault ≡ Memory) }
{
    let slices = cut_slices(alloc, recording, payload)?;
    let placed = place_slices(alloc, recording, &slices)?;
    check_tiles(alloc, recording, &placed)?;
    Ok(placed)
}

/// A payload is laid out in one way: no two lists of slices and headers are its own. A payload has at most one fault beside `Memory`, and none if it is laid out.
pub fn one_layout()
    ensures { OneLayout }
{}
