//! The splice of copies of one length: the frame, place by place from its end.
ghost use Rattle.std.specs.Prelude.{◌≡◌, ◌<◌, ◌≤◌, ◌+◌, ◌^◌, ◌↔◌, ◌++◌, IsTrue, length, map, reverse, All, MatchOption, IfOk, IfErr, OnOk};
ghost use Rattle.ffv1_weave.specs.References.{values_of};
ghost use Rattle.ffv1_splice.specs.Splice.{IsSpliceOf, IsSettledOrWoven, IsGivenBack, moved_by, undivided_places};
ghost use Rattle.ffv1_splice.specs.Faults.{HasOneLength, IsOfOtherLength, IsSpliceFault};

use crate::crossing::walk_up;
use crate::dividing::divide;
use crate::place::{Place, Standing, add_place};
use crate::placing::versions_at;
use crate::settling::{bound_below, settle_down};
use std::alloc::{AllocError, AllocFailed, Global};
use std::marker::Model;

/// Why copies were not spliced.
#[derive(Clone, Copy, Debug, PartialEq, Eq)]
pub enum SpliceFault {
    /// The copy at this index, counted from 0, is the first that is not as long as the first.
    OtherLength(usize),
    /// An allocation of memory failed.
    Memory,
}

impl From<AllocError> for SpliceFault {
    ghost use Rattle.ffv1_splice.specs.declared.splicing.SpliceFault.TheVariants.{Memory};
    ghost use Rattle.std.specs.Prelude.{◌≡◌};

    ghost from_gives = { λ _ fault. fault ≡ Memory };

    fn from(_refusal: AllocError) -> SpliceFault {
        SpliceFault::Memory
    }
}

impl<T: Drop> From<AllocFailed<T>> for SpliceFault {
    ghost use Rattle.ffv1_splice.specs.declared.splicing.SpliceFault.TheVariants.{Memory};
    ghost use Rattle.std.specs.Prelude.{◌≡◌};

    ghost from_gives = { λ _ fault. fault ≡ Memory };

    fn from(_refusal: AllocFailed<T>) -> SpliceFault {
        SpliceFault::Memory
    }
}

/// A frame that was spliced of copies.
#[derive(Drop)]
pub struct Spliced {
    places: Vec<Place>,
    front: usize,
    payload: Vec<u8>,
}

impl Model for Spliced {
    ghost use Rattle.ffv1_splice.specs.Splice.{SplicedValue};

    ghost Value = { SplicedValue };

    ghost view = { λ a. record { places = a.places.items; front = a.front; payload = a.payload.items } };
}

impl Spliced {
    /// The places, from the frame's end: each begins where the next one ends.
    pub fn places(&self) -> &[Place]
        ensures { result.now ≡ self.now.places }
    {
        self.places.as_slice()
    }

    /// Where the last place begins: 0 where the places cover the frame, else the front before it can't be divided.
    pub fn front(&self) -> usize
        ensures { result ≡ self.now.front }
    {
        self.front
    }

    /// Whether all of the frame is given back: the places cover it, and each is settled or woven.
    pub fn is_given_back(&self) -> bool
        ensures { IsTrue result ↔ IsGivenBack self.now }
    {
        self.front == 0 && self.places.as_slice().iter().all(stands_whole)
    }

    /// All bytes.
    pub fn payload(&self) -> &[u8]
        ensures { result.now ≡ self.now.payload }
    {
        self.payload.as_slice()
    }
}

/// Whether a slice that passes its parity stands there.
fn stands_whole(place: &Place) -> bool
    ensures { IsTrue result ↔ IsSettledOrWoven place.now.standing }
{
    matches!(place.standing, Standing::Settled | Standing::Woven(_))
}

/// Splices copies of one frame, of which there is one at least. Places are settled down from its end and up from its start. From there the
/// walk up goes on over slices that are lost in all copies, 64 at most: where no slice that passes its parity begins at the lost slice's
/// start, one end alone is claimed for it, at which no other start is claimed and no slice that passes ends, and a slice that passes begins
/// there. The hole that is left is divided from its own end. Where no footer claims the start of a slice there, it is taken for the first
/// of the hole, which begins with the hole and so has a known size: it is a place where it is woven. Where footers claim several starts,
/// what the copies have is woven from each, and it is a place where it is woven from one alone, and from each other no combination is a
/// slice: that takes a weave for each start, of which there is one at most for each copy. Where they claim one start, and what the copies
/// have from it on is not woven, since no combination is a slice or there are too many to be tried, the place is voted where three copies
/// or more differ there, and one combination alone of what most have in each segment is a slice. Where it is not voted either, and no
/// combination is a slice, it is repaired where one of these with one bit inverted alone is, if these are at most 2^20. However the same
/// copies are ordered or repeated, the splice is the same.
///
/// Returns `OtherLength` exactly if some copy is not as long as the first; the only other refusal is `Memory`.
pub fn splice(alloc: Global, copies: &[&[u8]]) -> Result<Spliced, SpliceFault>
    requires { 0 < length copies.now }
    ensures ok { IfOk result (λ spliced. IsSpliceOf (values_of copies.now) spliced) }
    ensures fault { IfErr result (IsSpliceFault (values_of copies.now)) }
{
    if let Some(index) = other_length(copies) {
        return Err(SpliceFault::OtherLength(index));
    }
    let mut payload = Vec::from_slice(alloc, copies[0])?;
    let (places, front) = fill(alloc, copies, &mut payload)?;
    Ok(Spliced {
        places,
        front,
        payload,
    })
}

/// Writes the splice of copies over the payload's bytes. Its places from the frame's end on, and where the last of them begins. Each copy
/// is as long as the payload.
fn fill(
    alloc: Global,
    copies: &[&[u8]],
    payload: &mut [u8],
) -> Result<(Vec<Place>, usize), AllocError>
    requires some { 0 < length copies.now }
    requires long { All (λ copy. length copy.now ≡ length payload.old) copies.now }
    ensures { IfOk result (λ filled. IsSpliceOf (values_of copies.now)
        (record { places = filled.0.items; front = filled.1; payload = payload.new })) }
{
    let (above, end) = settle_down(alloc, copies, payload)?;
    let bound = bound_below(copies, end);
    let (mut below, start) = walk_up(alloc, copies, &mut payload[..bound])?;
    let versions = versions_at(alloc, copies, start, end)?;
    let (hole, front) = divide(alloc, versions.as_slice(), &mut payload[start..end])?;
    let mut places = above;
    push_moved(&mut places, start, hole.as_slice())?;
    push_undivided(&mut places, start, front)?;
    push_fallen(&mut places, &mut below)?;
    Ok((places, if start == 0 { front } else { 0 }))
}

/// Adds the places of a hole that begins there.
fn push_moved(places: &mut Vec<Place>, start: usize, hole: &[Place]) -> Result<(), AllocError>
    requires { All (λ place. place.start ≤ place.end × start + place.end < 2 ^ 64) hole.now }
    ensures { OnOk result (places.new.items ≡ places.old.items ++ map (moved_by start) hole.now) }
{
    for place in hole {
        places.push(moved_by(start, *place))?;
    }
    Ok(())
}

/// Adds what can't be divided of a hole that begins there, the bytes before the front of its places, where places stand below the hole.
fn push_undivided(places: &mut Vec<Place>, start: usize, front: usize) -> Result<(), AllocError>
    requires { start + front < 2 ^ 64 }
    ensures { OnOk result (places.new.items ≡ places.old.items ++ undivided_places start front) }
{
    if start > 0 && front > 0 {
        add_place(places, start, start + front, Standing::Undivided)?;
    }
    Ok(())
}

/// A place of a hole that begins there, counted from the frame's start.
fn moved_by(start: usize, place: Place) -> Place
    requires begins { start + place.start < 2 ^ 64 }
    requires ends { start + place.end < 2 ^ 64 }
    ensures { result ≡ moved_by start place }
{
    Place {
        start: start + place.start,
        end: start + place.end,
        standing: place.standing,
    }
}

/// Adds places that rise, from the topmost on.
fn push_fallen(places: &mut Vec<Place>, rising: &mut [Place]) -> Result<(), AllocError>
    ensures { OnOk result (places.new.items ≡ places.old.items ++ reverse rising.old) }
{
    rising.reverse();
    places.extend_from_slice(rising)
}

/// The index of the first copy that is not as long as the first.
fn other_length(copies: &[&[u8]]) -> Option<usize>
    requires { 0 < length copies.now }
    ensures { MatchOption result (HasOneLength (values_of copies.now)) (IsOfOtherLength (values_of copies.now)) }
{
    for (index, copy) in copies.iter().enumerate() {
        if copy.len() != copies[0].len() {
            return Some(index);
        }
    }
    None
}
