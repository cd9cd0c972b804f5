//! The settled walks of a splice: down from its end, and up from its start.
ghost use Rattle.std.specs.Prelude.{◌≡◌, ◌++◌, ◌<◌, ◌≤◌, List, length, take, All, IfOk, MatchOption};
ghost use Rattle.ffv1_slice.specs.Chain.{LinkValue};
ghost use Rattle.ffv1_slice.specs.Members.{IsOnly};
ghost use Rattle.ffv1_weave.specs.References.{values_of};
ghost use Rattle.ffv1_splice.specs.Pieces.{IsPiece};
ghost use Rattle.ffv1_splice.specs.Splice.{IsWalkDown, IsBound, IsWalkUp};
ghost use Rattle.ffv1_splice.specs.Inner.Splice.{IsSettledFrom, NoneIsSettledFrom};
ghost use Rattle.ffv1_splice.specs.declared.place.Place.{Place};

use crate::place::{Place, Standing, add_place};
use crate::placing::write_at;
use crate::shortest::first_from;
use crate::tally::{Pieces, claimed_start, tally_at};
use ffv1_bits::passes;
use std::alloc::{AllocError, Global};

/// The slice that alone ends at a place: where it begins, and its bytes. Each copy has the place.
fn only_piece<'a>(copies: &[&'a [u8]], end: usize) -> Option<(usize, &'a [u8])>
    requires { All (λ copy. end ≤ length copy.now) copies.now }
    ensures { MatchOption result ((piece : LinkValue) → IsOnly (IsPiece (values_of copies.now) end) piece → ⊥)
        (λ piece. IsOnly (IsPiece (values_of copies.now) end) (record { start = piece.0; bytes = piece.1.now })) }
{
    match tally_at(copies, end).0 {
        Pieces::One(start, bytes) => Some((start, bytes)),
        Pieces::None | Pieces::Two => None,
    }
}

/// Settles places from the payload's end down, as long as exactly one slice ends there, and writes each over the payload's bytes. The
/// places from the end on, and the end at which that stops. Each copy is as long as the payload.
pub(crate) fn settle_down(
    alloc: Global,
    copies: &[&[u8]],
    payload: &mut [u8],
) -> Result<(Vec<Place>, usize), AllocError>
    requires { All (λ copy. length copy.now ≡ length payload.old) copies.now }
    ensures walk { IfOk result (λ walk. IsWalkDown (values_of copies.now) payload.new walk.0.items walk.1) }
    ensures within { IfOk result (λ walk. walk.1 ≤ length payload.new) }
    ensures long { IfOk result (λ _. length payload.new ≡ length payload.old) }
{
    let mut places = Vec::new(alloc);
    let mut end = payload.len();
    while let Some((start, bytes)) = only_piece(copies, end) {
        write_at(payload, start, bytes);
        add_place(&mut places, start, end, Standing::Settled)?;
        end = start;
    }
    Ok((places, end))
}

/// How far up from the start places can be settled below an end: to the end, where no slice with content that passes its parity ends
/// there, and else to the first byte of those that do. Each copy has the end.
pub(crate) fn bound_below(copies: &[&[u8]], end: usize) -> usize
    requires { All (λ copy. end ≤ length copy.now) copies.now }
    ensures { IsBound (values_of copies.now) end result }
{
    let mut bound = end;
    for copy in copies {
        if let Some(start) = claimed_start(copy, end) {
            if start < bound && passes(&copy[start..end]) {
                bound = start;
            }
        }
    }
    bound
}

/// The shortest slice from a place, where no other one ends at its end. It ends at the bound or before it, and each copy has the bound.
fn settled_from<'a>(copies: &[&'a [u8]], start: usize, bound: usize) -> Option<&'a [u8]>
    requires { All (λ copy. bound ≤ length copy.now) copies.now }
    ensures { MatchOption result
        (NoneIsSettledFrom (values_of copies.now) bound start)
        (λ bytes. IsSettledFrom (values_of copies.now) bound start bytes.now) }
{
    let bytes = first_from(copies, start, bound)?;
    match only_piece(copies, start + bytes.len()) {
        Some(_) => Some(bytes),
        None => None,
    }
}

/// Settles places from a place of the payload up, writes each over the payload's bytes, and adds it to those that there are: each is the
/// shortest slice from where the one before it ends, no other one ends at its end, and it ends in the payload. The start at which that
/// stops. Each copy has the payload's places.
pub(crate) fn settle_up(
    copies: &[&[u8]],
    from: usize,
    payload: &mut [u8],
    places: &mut Vec<Place>,
) -> Result<usize, AllocError>
    requires long { All (λ copy. length payload.old ≤ length copy.now) copies.now }
    requires within { from ≤ length payload.old }
    ensures walk { IfOk result (λ start. (added : List Place) × (places.new.items ≡ places.old.items ++ added)
        × IsWalkUp (values_of copies.now) (length payload.old) payload.new from added start) }
    ensures within { IfOk result (λ start. start ≤ length payload.new) }
    ensures long { IfOk result (λ _. length payload.new ≡ length payload.old) }
    ensures before { IfOk result (λ _. take from payload.new ≡ take from payload.old) }
{
    let mut start = from;
    while let Some(bytes) = settled_from(copies, start, payload.len()) {
        write_at(payload, start, bytes);
        let end = start + bytes.len();
        add_place(places, start, end, Standing::Settled)?;
        start = end;
    }
    Ok(start)
}
