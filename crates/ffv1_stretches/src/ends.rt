//! Where the stretches of each copy end.
ghost use Rattle.std.specs.Prelude.{◌≡◌, ◌+◌, ◌≤◌, ◌↔◌, IsTrue, length, map, replicate, IfOk};
ghost use Rattle.std.specs.List.{AllZip};
ghost use Rattle.ffv1_stretches.specs.Stretches.{IsAfter, end_after, ends_after};
ghost use Rattle.ffv1_stretches.specs.Inner.Ends.{end_of};

use crate::stretch::Stretch;
use std::alloc::{AllocError, Global};

/// Where a copy's last stretch lies. Its end may be past what a number holds, so it is not written as one.
#[derive(Clone, Copy)]
pub(crate) struct End {
    /// Where the stretch begins, counted in bytes from the copy's start.
    pub(crate) place: u64,
    /// How many bytes it has.
    pub(crate) size: u64,
}

/// No copy has a stretch yet.
pub(crate) fn first_ends(alloc: Global, copies: usize) -> Result<Vec<End>, AllocError>
    ensures { IfOk result (λ ends. map end_of ends.items ≡ replicate copies 0) }
{
    let mut ends = Vec::new(alloc);
    for _copy in 0..copies {
        ends.push(End { place: 0, size: 0 })?;
    }
    Ok(ends)
}

/// Whether a copy's place, if it has one, is where its stretches before end, or after that.
fn is_after(end: &End, place: &Option<u64>) -> bool
    ensures { IsTrue result ↔ IsAfter (end_of end.now) place.now }
{
    match place {
        None => true,
        Some(place) => *place >= end.place && *place - end.place >= end.size,
    }
}

/// Whether each place of a stretch is where the copy's stretches before end, or after that. There are as many places as copies.
pub(crate) fn follow(ends: &[End], places: &[Option<u64>]) -> bool
    requires { length places.now ≡ length ends.now }
    ensures { IsTrue result ↔ AllZip IsAfter (map end_of ends.now) places.now }
{
    for index in 0..places.len() {
        if !is_after(&ends[index], &places[index]) {
            return false;
        }
    }
    true
}

/// Where a copy's stretches end with one more of so many bytes at this place, if it has it.
fn moved(end: End, place: Option<u64>, size: u64) -> End
    ensures { end_of result ≡ end_after size (end_of end) place }
{
    match place {
        None => end,
        Some(place) => End { place, size },
    }
}

/// Where each copy's stretches end with one more, which has as many places as there are copies.
pub(crate) fn next_ends(
    alloc: Global,
    ends: &[End],
    stretch: &Stretch,
) -> Result<Vec<End>, AllocError>
    requires { length stretch.now.places ≡ length ends.now }
    ensures { IfOk result (λ next. map end_of next.items ≡ ends_after (map end_of ends.now) stretch.now) }
{
    let mut next = Vec::new(alloc);
    let places = stretch.places.as_slice();
    for index in 0..places.len() {
        next.push(moved(ends[index], places[index], stretch.size as u64))?;
    }
    Ok(next)
}
