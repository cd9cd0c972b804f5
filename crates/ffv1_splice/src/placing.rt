//! The places of a splice, each found by the pieces that end at its end in all copies, and by the starts that are claimed there, and
//! written into the payload.
ghost use Rattle.std.specs.Prelude.{◌≡◌, ◌+◌, ◌≤◌, ◌<◌, ℕ, length, All, IfOk, IsTrue, IsFalse};
ghost use Rattle.ffv1_slice.specs.Members.{IsOnly, IsOfTwo, IsOfNone};
ghost use Rattle.ffv1_weave.specs.References.{values_of};
ghost use Rattle.ffv1_splice.specs.Pieces.{IsPiece, IsClaimedStart};
ghost use Rattle.ffv1_weave.specs.Weave.Weave.{missing, too_many};
ghost use Rattle.ffv1_splice.specs.Standings.{versions_at, IsWeaveAt};
ghost use Rattle.ffv1_splice.specs.Inner.Placing.{IsPlaced, IsPlacedOrStop};
ghost use Rattle.ffv1_weave.specs.Parts.{written};
ghost use Rattle.ffv1_splice.specs.Inner.Tally.{Tallies, claimed_tally};

use crate::first::first_woven;
use crate::place::{Place, Standing};
use crate::several::several_woven;
use crate::tally::{Claimed, Pieces, least_at, tally_at};
use ffv1_weave::{Check, WeaveResult, repair, vote, weave};
use std::alloc::{AllocError, Global};

/// The place that ends there, which is written over the payload's bytes. Each copy has the end, and so has the payload.
pub(crate) fn place_ending_at(
    alloc: Global,
    copies: &[&[u8]],
    end: usize,
    payload: &mut [u8],
) -> Result<Option<Place>, AllocError>
    requires some { 0 < length copies.now }
    requires within { All (λ copy. end ≤ length copy.now) copies.now }
    requires room { end ≤ length payload.old }
    ensures { IfOk result (IsPlacedOrStop (values_of copies.now) end payload.old payload.new) }
{
    let (pieces, starts) = tally_at(copies, end);
    match pieces {
        Pieces::One(start, bytes) => {
            write_at(payload, start, bytes);
            let standing = Standing::Settled;
            Ok(Some(Place {
                start,
                end,
                standing,
            }))
        }
        Pieces::Two => Ok(disputed_before(copies, starts, end, payload)),
        Pieces::None => woven_before(alloc, copies, starts, end, payload),
    }
}

/// The place that ends there, where two pieces that differ do.
fn disputed_before(
    copies: &[&[u8]],
    starts: Claimed,
    end: usize,
    payload: &mut [u8],
) -> Option<Place>
    requires some { 0 < length copies.now }
    requires within { All (λ copy. end ≤ length copy.now) copies.now }
    requires room { end ≤ length payload.old }
    requires two { IsOfTwo (IsPiece (values_of copies.now) end) }
    requires claim { Tallies (IsClaimedStart (values_of copies.now) end) (claimed_tally starts) }
    ensures { IsPlacedOrStop (values_of copies.now) end payload.old payload.new result }
{
    let Claimed::One(start) = starts else {
        return None;
    };
    write_at(payload, start, least_at(copies, start, end));
    let standing = Standing::Disputed;
    Some(Place {
        start,
        end,
        standing,
    })
}

/// The place that ends there, where no piece does. Where no start is claimed there either, it is the first slice, or there is none; where
/// several are, it begins at one of them, or there is none.
fn woven_before(
    alloc: Global,
    copies: &[&[u8]],
    starts: Claimed,
    end: usize,
    payload: &mut [u8],
) -> Result<Option<Place>, AllocError>
    requires some { 0 < length copies.now }
    requires within { All (λ copy. end ≤ length copy.now) copies.now }
    requires room { end ≤ length payload.old }
    requires none { IsOfNone (IsPiece (values_of copies.now) end) }
    requires claim { Tallies (IsClaimedStart (values_of copies.now) end) (claimed_tally starts) }
    ensures { IfOk result (IsPlacedOrStop (values_of copies.now) end payload.old payload.new) }
{
    let (start, bytes, count) = match starts {
        Claimed::One(start) => {
            let standing = weave_at(alloc, copies, start, end, payload)?;
            return Ok(Some(Place {
                start,
                end,
                standing,
            }));
        }
        Claimed::None => match first_woven(alloc, copies, end)? {
            Some((bytes, count)) => (0, bytes, count),
            None => return Ok(None),
        },
        Claimed::Two => match several_woven(alloc, copies, end)? {
            Some(woven) => woven,
            None => return Ok(None),
        },
    };
    write_at(payload, start, bytes.as_slice());
    let standing = Standing::Woven(count);
    Ok(Some(Place {
        start,
        end,
        standing,
    }))
}

/// How the place between these ends stands, of which no piece is one: it is woven, voted or repaired, or the lexicographically smallest of
/// the copies' bytes are written.
pub(crate) fn weave_at(
    alloc: Global,
    copies: &[&[u8]],
    start: usize,
    end: usize,
    payload: &mut [u8],
) -> Result<Standing, AllocError>
    requires some { 0 < length copies.now }
    requires within { All (λ copy. end ≤ length copy.now) copies.now }
    requires room { end ≤ length payload.old }
    requires none { IsOfNone (IsPiece (values_of copies.now) end) }
    requires claim { IsOnly (IsClaimedStart (values_of copies.now) end) start }
    ensures { IfOk result (λ standing. IsPlaced (values_of copies.now) end payload.old payload.new
        (record { start = start; end = end; standing = standing })) }
{
    let versions = versions_at(alloc, copies, start, end)?;
    let versions = versions.as_slice();
    let all_tried = match weave(alloc, Check::Slice, versions)? {
        WeaveResult::Woven(bytes, count) => {
            write_at(payload, start, bytes.as_slice());
            return Ok(Standing::Woven(count));
        }
        WeaveResult::Disputed => {
            write_at(payload, start, least_at(copies, start, end));
            return Ok(Standing::Disputed);
        }
        WeaveResult::Missing(_) => true,
        WeaveResult::TooMany => false,
    };
    unwoven_at(alloc, copies, versions, all_tried, start, end, payload)
}

/// How the place between these ends stands, whose versions are not woven: no combination is a slice, if all are tried, or there are too
/// many. It is voted or repaired, or the lexicographically smallest of the copies' bytes are written.
fn unwoven_at(
    alloc: Global,
    copies: &[&[u8]],
    versions: &[&[u8]],
    all_tried: bool,
    start: usize,
    end: usize,
    payload: &mut [u8],
) -> Result<Standing, AllocError>
    requires some { 0 < length copies.now }
    requires within { All (λ copy. end ≤ length copy.now) copies.now }
    requires room { end ≤ length payload.old }
    requires versions { values_of versions.now ≡ versions_at (values_of copies.now) start end }
    requires missed { IsTrue all_tried → (count : ℕ) × IsWeaveAt (values_of copies.now) start end (missing count) }
    requires many { IsFalse all_tried → IsWeaveAt (values_of copies.now) start end too_many }
    ensures { IfOk result (λ standing. IsPlaced (values_of copies.now) end payload.old payload.new
        (record { start = start; end = end; standing = standing })) }
{
    if let Some((voted, count)) = vote(alloc, versions)? {
        write_at(payload, start, voted.as_slice());
        return Ok(Standing::Voted(count));
    }
    if all_tried {
        if let Some((repaired, count)) = repair(alloc, versions)? {
            write_at(payload, start, repaired.as_slice());
            return Ok(Standing::Repaired(count));
        }
    }
    write_at(payload, start, least_at(copies, start, end));
    Ok(Standing::Missing)
}

/// What each copy has between two places. Each has them.
pub(crate) fn versions_at<'a>(
    alloc: Global,
    copies: &[&'a [u8]],
    start: usize,
    end: usize,
) -> Result<Vec<&'a [u8]>, AllocError>
    requires within { All (λ copy. end ≤ length copy.now) copies.now }
    requires order { start ≤ end }
    ensures { IfOk result (λ versions. values_of versions.items ≡ versions_at (values_of copies.now) start end) }
{
    let mut versions = Vec::new(alloc);
    for copy in copies {
        versions.push(&copy[start..end])?;
    }
    Ok(versions)
}

/// Writes bytes over those that stand in the payload from `start` on.
pub(crate) fn write_at(payload: &mut [u8], start: usize, bytes: &[u8])
    requires { start + length bytes.now ≤ length payload.old }
    ensures { payload.new ≡ written payload.old start bytes.now }
{
    payload[start..start + bytes.len()].copy_from_slice(bytes);
}
