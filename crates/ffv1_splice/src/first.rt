//! The first slice of a hole, where no footer claims its start: it begins with the hole, so its size is known.
ghost use Rattle.std.specs.Prelude.{◌≤◌, ◌<◌, length, All, IfOk, MatchOption};
ghost use Rattle.ffv1_slice.specs.Members.{IsOfNone};
ghost use Rattle.ffv1_weave.specs.References.{values_of};
ghost use Rattle.ffv1_splice.specs.Pieces.{IsPiece, IsClaimedStart};
ghost use Rattle.ffv1_splice.specs.Standings.{StandsAs, IsStop};
ghost use Rattle.ffv1_splice.specs.declared.place.Standing.TheVariants.{Woven};

use crate::sized::weave_sized;
use ffv1_bits::SLICE_LIMIT;
use ffv1_slice::FOOTER_LENGTH;
use ffv1_weave::WeaveResult;
use std::alloc::{AllocError, Global};

/// What is woven from the copies' start up to an end at which no piece ends and no start is claimed, and of how many combinations. It is
/// there only where one combination alone of what the copies have, each with the size that the slice then has, is a slice. Each copy has
/// the end. It takes memory for what each copy has up to the end.
pub(crate) fn first_woven(
    alloc: Global,
    copies: &[&[u8]],
    end: usize,
) -> Result<Option<(Vec<u8>, usize)>, AllocError>
    requires some { 0 < length copies.now }
    requires within { All (λ copy. end ≤ length copy.now) copies.now }
    requires none { IsOfNone (IsPiece (values_of copies.now) end) }
    requires no_claim { IsOfNone (IsClaimedStart (values_of copies.now) end) }
    ensures { IfOk result (λ found. MatchOption found (IsStop (values_of copies.now) end)
        (λ (bytes, count). StandsAs (values_of copies.now) 0 end bytes.items (Woven count))) }
{
    if end <= FOOTER_LENGTH || end > SLICE_LIMIT as usize {
        return Ok(None);
    }
    match weave_sized(alloc, copies, 0, end)? {
        WeaveResult::Woven(bytes, count) => Ok(Some((bytes, count))),
        _ => Ok(None),
    }
}
