//! The frame before: with the states that its slices have left a frame goes on that is no keyframe (RFC 9043, sections 3.8.1.3 and 3.8.2.4).
ghost use Rattle.std.specs.Prelude.{◌≡◌, ◌↔◌, ℕ, Some, IsTrue, MatchOption, length};
ghost use Rattle.std.specs.Option.{option_copied};
ghost use Rattle.ffv1_layout.specs.Layout.{headers_of};
ghost use Rattle.ffv1_samples.specs.States.{states_before};
ghost use Rattle.ffv1_player.specs.Frames.{HaveSameTables, SliceGoesOn, FrameGoesOn, states_left_at};
ghost use Rattle.ffv1_player.specs.Faults.{IsFirstStop};
ghost use Rattle.ffv1_player.specs.Players.{left_values};

use crate::samples::count_of_planes;
use ffv1_layout::PlacedSlice;
use ffv1_plane::group_of;
use ffv1_range::{Recording, SliceHeader};
use ffv1_samples::SliceStates;

/// What a slice leaves.
#[derive(Drop)]
pub struct LeftSlice {
    pub(crate) header: SliceHeader,
    pub(crate) states: SliceStates,
}

/// Whether each plane has the same table set in two slices.
fn have_same_tables(recording: &Recording, header: &SliceHeader, earlier: &SliceHeader) -> bool
    ensures { IsTrue result ↔ HaveSameTables recording.now header.now earlier.now }
{
    for plane in 0..count_of_planes(recording) {
        let group = group_of(recording.has_chroma(), plane);
        if header.tables[group] != earlier.tables[group] {
            return false;
        }
    }
    true
}

/// Whether a slice can go on from one of the frame before: both have the same tiles, and each plane the same table set.
fn goes_on(recording: &Recording, header: &SliceHeader, earlier: &SliceHeader) -> bool
    ensures { IsTrue result ↔ SliceGoesOn recording.now header.now earlier.now }
{
    header.x == earlier.x
        && header.y == earlier.y
        && header.w == earlier.w
        && header.h == earlier.h
        && have_same_tables(recording, header, earlier)
}

/// The least place at which a slice has no equal in the frame before; the number of this frame's slices where the frame
/// before has more; `None` where each has one, and there are no more.
pub(crate) fn first_stop(
    recording: &Recording,
    placed: &[PlacedSlice<'_>],
    before: &[LeftSlice],
) -> Option<usize>
    ensures { MatchOption result (FrameGoesOn recording.now (headers_of placed.now) (left_values before.now))
        (IsFirstStop recording.now (headers_of placed.now) (Some (left_values before.now))) }
{
    for place in 0..placed.len() {
        if place >= before.len()
            || !goes_on(recording, &placed[place].header, &before[place].header)
        {
            return Some(place);
        }
    }
    if before.len() > placed.len() {
        Some(placed.len())
    } else {
        None
    }
}

/// The states that the slice of a number has left.
pub(crate) fn states_left_at(before: &[LeftSlice], place: usize) -> Option<&SliceStates>
    ensures { states_before (option_copied result) ≡ states_left_at (left_values before.now) place }
{
    if place < before.len() {
        Some(&before[place].states)
    } else {
        None
    }
}
