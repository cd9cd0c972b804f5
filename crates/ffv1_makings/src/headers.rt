//! Whether a payload's slices have the headers and error statuses that were asked for (RFC 9043, sections 4.5, 4.6 and 4.9.2).
ghost use Rattle.std.specs.Prelude.{◌≡◌, ◌<◌, ℕ, IsTrue, IfOk, length, slice_index_or};
ghost use Rattle.ffv1_layout.specs.Layout.{headers_of, header_at, statuses_of, status_at};
ghost use Rattle.ffv1_makings.specs.Fitting.{IsAskedHeader, asked_status, HasAskedSlices};
ghost use Rattle.ffv1_makings.specs.declared.spec.SliceSpec.{SliceSpec};

use crate::spec::SliceSpec;
use ffv1_layout::{LayoutFault, PlacedSlice, read_layout};
use ffv1_range::{Recording, SliceHeader};
use ffv1_vectors::MakeFault;
use std::alloc::Global;

/// Whether a payload has these slices, in this order.
pub(crate) fn has_slices(
    alloc: Global,
    recording: &Recording,
    payload: &[u8],
    asked: &[SliceSpec],
) -> Result<bool, MakeFault>
    ensures { IfOk result (λ same. IsTrue same → HasAskedSlices recording.now payload.now asked.now) }
{
    match read_layout(alloc, recording, payload) {
        Ok(placed) => Ok(are_asked(recording, &placed, asked)),
        Err(LayoutFault::Memory) => Err(MakeFault::Memory),
        Err(_) => Ok(false),
    }
}

/// Whether the slices are as many as were asked for, and each has its header and its error status.
fn are_asked(recording: &Recording, placed: &[PlacedSlice<'_>], asked: &[SliceSpec]) -> bool
    ensures count { IsTrue result → length placed.now ≡ length asked.now }
    ensures headers { IsTrue result → (place : ℕ) (d : SliceSpec) → place < length asked.now
        → IsAskedHeader recording.now (header_at (headers_of placed.now) place) (slice_index_or asked.now place d) }
    ensures statuses { IsTrue result → (place : ℕ) (d : SliceSpec) → place < length asked.now
        → status_at (statuses_of placed.now) place ≡ asked_status recording.now (slice_index_or asked.now place d) }
{
    if placed.len() != asked.len() {
        return false;
    }
    for (place, slice) in placed.iter().enumerate() {
        if !is_asked(recording, slice, &asked[place]) {
            return false;
        }
    }
    true
}

/// Whether a slice has the header and the error status that were asked for.
fn is_asked(recording: &Recording, placed: &PlacedSlice<'_>, asked: &SliceSpec) -> bool
    ensures header { IsTrue result → IsAskedHeader recording.now placed.now.header asked.now }
    ensures status { IsTrue result → placed.now.status ≡ asked_status recording.now asked.now }
{
    is_asked_header(recording, &placed.header, asked)
        && is_asked_status(recording, placed.status, asked)
}

/// Whether an error status is the one that was asked for, where the recording's footers have one.
fn is_asked_status(recording: &Recording, status: Option<u8>, asked: &SliceSpec) -> bool
    ensures { IsTrue result → status ≡ asked_status recording.now asked.now }
{
    match status {
        None => recording.ec() == 0,
        Some(status) => recording.ec() != 0 && status == asked.status,
    }
}

/// Whether a header is the one that was asked for.
fn is_asked_header(recording: &Recording, header: &SliceHeader, asked: &SliceSpec) -> bool
    ensures { IsTrue result → IsAskedHeader recording.now header.now asked.now }
{
    let alpha = if recording.has_alpha() {
        asked.tables[2]
    } else {
        0
    };
    header.x == asked.x
        && header.y == asked.y
        && header.w == asked.w
        && header.h == asked.h
        && header.tables[0] == asked.tables[0]
        && header.tables[1] == asked.tables[1]
        && header.tables[2] == alpha
        && header.picture_structure == 0
        && header.sar_num == 0
        && header.sar_den == 0
}
