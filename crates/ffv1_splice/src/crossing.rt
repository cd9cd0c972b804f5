//! The walk of a splice up from its start: places are settled, and where that stops, the walk goes on over slices that are lost in all
//! copies.
ghost use Rattle.std.specs.Prelude.{◌≡◌, ◌+◌, ◌-◌, ◌<◌, ◌≤◌, ℕ, [], ◌∷◌, length, take, All, IfOk, MatchOption};
ghost use Rattle.ffv1_slice.specs.Chain.{FooterGives};
ghost use Rattle.ffv1_weave.specs.References.{values_of};
ghost use Rattle.ffv1_splice.specs.Standings.{versions_at};
ghost use Rattle.ffv1_splice.specs.Inner.Tally.{Tallies, claimed_tally};
ghost use Rattle.ffv1_splice.specs.Splice.{IsCrossed, IsClaimedEnd, IsLostUpTo};
ghost use Rattle.ffv1_splice.specs.Inner.Splice.{IsNextClaimed, IsWalkFromStart};

use crate::place::Place;
use crate::placing::{versions_at, weave_at};
use crate::settling::settle_up;
use crate::shortest::{first_claim, first_from};
use crate::tally::{Claimed, Pieces, tally_at};
use ffv1_bits::SLICE_LIMIT;
use ffv1_slice::FOOTER_LENGTH;
use std::alloc::{AllocError, Global};

/// Over so many slices that are lost in all copies the walk goes at most: for each of them the copies are searched once for its end.
const MOST_CROSSED: usize = 64;

/// Walks up from the payload's start, and writes each place over the payload's bytes. The places from the start on, and the start at which
/// that stops. Each copy has the payload's places, and there is one at least.
pub(crate) fn walk_up(
    alloc: Global,
    copies: &[&[u8]],
    payload: &mut [u8],
) -> Result<(Vec<Place>, usize), AllocError>
    requires some { 0 < length copies.now }
    requires long { All (λ copy. length payload.old ≤ length copy.now) copies.now }
    ensures walk { IfOk result (λ walk. IsWalkFromStart (values_of copies.now) (length payload.old) payload.new walk.0.items walk.1) }
    ensures within { IfOk result (λ walk. walk.1 ≤ length payload.new) }
    ensures long { IfOk result (λ _. length payload.new ≡ length payload.old) }
{
    let mut places = Vec::new(alloc);
    let mut start = settle_up(copies, 0, payload, &mut places)?;
    for _ in 0..MOST_CROSSED {
        let Some(place) = place_across(alloc, copies, start, payload)? else {
            return Ok((places, start));
        };
        places.push(place)?;
        start = settle_up(copies, place.end, payload, &mut places)?;
    }
    Ok((places, start))
}

/// The place over a slice that begins there and is lost in all copies, written over the payload's bytes, if there is one. Each copy has the
/// payload's places, and there is one at least.
fn place_across(
    alloc: Global,
    copies: &[&[u8]],
    start: usize,
    payload: &mut [u8],
) -> Result<Option<Place>, AllocError>
    requires some { 0 < length copies.now }
    requires long { All (λ copy. length payload.old ≤ length copy.now) copies.now }
    requires within { start ≤ length payload.old }
    ensures across { IfOk result (λ found. MatchOption found
        ((end : ℕ) → IsLostUpTo (versions_at (values_of copies.now) start (length payload.old)) (length payload.old - start) end → ⊥)
        (λ place. (place.start ≡ start) × IsCrossed (values_of copies.now) (length payload.old) payload.new place)) }
    ensures long { IfOk result (λ _. length payload.new ≡ length payload.old) }
    ensures before { IfOk result (λ _. take start payload.new ≡ take start payload.old) }
{
    let reach = payload.len() - start;
    let versions = versions_at(alloc, copies, start, payload.len())?;
    let Some(size) = lost_up_to(versions.as_slice(), reach) else {
        return Ok(None);
    };
    let standing = weave_at(alloc, versions.as_slice(), 0, size, &mut payload[start..])?;
    let end = start + size;
    Ok(Some(Place {
        start,
        end,
        standing,
    }))
}

/// Where the slice ends with which the copies begin, if it is lost in all of them. A slice that passes and begins with them would end at
/// the one end that is claimed, and none does, so none is looked for.
fn lost_up_to(copies: &[&[u8]], reach: usize) -> Option<usize>
    requires { All (λ copy. reach ≤ length copy.now) copies.now }
    ensures { MatchOption result ((end : ℕ) → IsLostUpTo (values_of copies.now) reach end → ⊥)
        (IsLostUpTo (values_of copies.now) reach) }
{
    let Claimed::One(end) = claimed_ends(copies, reach) else {
        return None;
    };
    let (pieces, starts) = tally_at(copies, end);
    let Pieces::None = pieces else {
        return None;
    };
    let Claimed::One(_) = starts else {
        return None;
    };
    match first_from(copies, end, reach) {
        Some(_) => Some(end),
        None => None,
    }
}

/// The ends up to a reach at which copies claim that the slice ends with which they begin. Each copy has the reach.
fn claimed_ends(copies: &[&[u8]], reach: usize) -> Claimed
    requires { All (λ copy. reach ≤ length copy.now) copies.now }
    ensures { Tallies (IsClaimedEnd (values_of copies.now) reach) (claimed_tally result) }
{
    let mut ends = Claimed::None;
    for copy in copies {
        ends = ends.joined(claimed_by(copy, reach));
        if let Claimed::Two = ends {
            return Claimed::Two;
        }
    }
    ends
}

/// The ends up to a reach that one copy claims.
fn claimed_by(copy: &[u8], reach: usize) -> Claimed
    requires { reach ≤ length copy.now }
    ensures { Tallies (IsClaimedEnd (copy.now ∷ []) reach) (claimed_tally result) }
{
    let Some(first) = next_claimed(copy, FOOTER_LENGTH, reach) else {
        return Claimed::None;
    };
    match next_claimed(copy, first, reach) {
        Some(_) => Claimed::Two,
        None => Claimed::One(first),
    }
}

/// The first end after a place, and up to a reach, that a copy claims. Ends are looked at up to the most bytes that a slice can have.
fn next_claimed(copy: &[u8], from: usize, reach: usize) -> Option<usize>
    requires room { reach ≤ length copy.now }
    requires content { 8 ≤ from }
    ensures { MatchOption result ((end : ℕ) → from < end → IsClaimedEnd (copy.now ∷ []) reach end → ⊥) (IsNextClaimed copy.now from reach) }
{
    first_claim(
        copy,
        0,
        from.saturating_add(1),
        reach.min(SLICE_LIMIT as usize),
    )
}
