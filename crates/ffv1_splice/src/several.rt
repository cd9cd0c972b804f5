//! The slice that ends at a place where the footers claim several starts: it begins at the one from which it can be woven.
ghost use Rattle.std.specs.Prelude.{◌≡◌, ◌≤◌, ◌<◌, ℕ, List, Contains, length, min, All, IfOk, MatchOption};
ghost use Rattle.ffv1_bits.specs.Parity.{AreBytes};
ghost use Rattle.ffv1_slice.specs.Chain.{FooterGives};
ghost use Rattle.ffv1_slice.specs.Members.{IsOfNone, IsOfTwo};
ghost use Rattle.ffv1_weave.specs.References.{values_of};
ghost use Rattle.ffv1_weave.specs.Weave.{weave_tally};
ghost use Rattle.ffv1_weave.specs.Weave.Weave.{woven, missing};
ghost use Rattle.ffv1_splice.specs.Pieces.{HasContent, IsPiece, IsClaimedStart};
ghost use Rattle.ffv1_splice.specs.Standings.{StandsAs, IsStop};
ghost use Rattle.ffv1_splice.specs.declared.place.Standing.TheVariants.{Woven};
ghost use Rattle.ffv1_splice.specs.Inner.Several.{IsNextClaimedStart, AreTriedBefore, tried_tally, tried_more};

use crate::sized::weave_sized;
use crate::tally::claimed_start;
use ffv1_weave::WeaveResult;
use std::alloc::{AllocError, Global};

/// What came of the starts that were tried.
#[derive(Drop)]
pub(crate) enum Tried {
    /// Nothing came of any, of so many combinations.
    Missing(usize),
    /// From this start these bytes were woven, and nothing came of any other, of so many combinations from all starts.
    Woven(usize, Vec<u8>, usize),
    /// Two starts gave a slice, or for one of them it is not known what it gives.
    Undecided,
}

impl Tried {
    /// The same with what comes of one more start.
    fn with(self, start: usize, outcome: WeaveResult) -> Tried
        ensures { tried_tally result ≡ tried_more (tried_tally self) start (weave_tally outcome) }
    {
        match outcome {
            WeaveResult::Woven(bytes, more) => self.with_woven(start, bytes, more),
            WeaveResult::Missing(more) => self.with_missing(more),
            WeaveResult::Disputed | WeaveResult::TooMany => Tried::Undecided,
        }
    }

    /// The same with one more start, from which bytes are woven.
    fn with_woven(self, start: usize, bytes: Vec<u8>, more: usize) -> Tried
        ensures { tried_tally result ≡ tried_more (tried_tally self) start (woven bytes.items more) }
    {
        match self {
            Tried::Missing(count) => Tried::Woven(start, bytes, count.saturating_add(more)),
            Tried::Woven(_, _, _) | Tried::Undecided => Tried::Undecided,
        }
    }

    /// The same with one more start, from which nothing comes.
    fn with_missing(self, more: usize) -> Tried
        ensures { (start : ℕ) → tried_tally result ≡ tried_more (tried_tally self) start (missing more) }
    {
        match self {
            Tried::Missing(count) => Tried::Missing(count.saturating_add(more)),
            Tried::Woven(first, bytes, count) => {
                Tried::Woven(first, bytes, count.saturating_add(more))
            }
            Tried::Undecided => Tried::Undecided,
        }
    }
}

/// What is woven up to an end at which no piece ends, and two starts that differ are claimed: where it begins, its bytes, and of how many
/// combinations. It is there only where it can be woven from one start alone, and from no other any combination is a slice, each copy
/// taken with the size that the slice then has. Each copy has the end. It takes memory for what each copy has from a start on.
pub(crate) fn several_woven(
    alloc: Global,
    copies: &[&[u8]],
    end: usize,
) -> Result<Option<(usize, Vec<u8>, usize)>, AllocError>
    requires some { 0 < length copies.now }
    requires within { All (λ copy. end ≤ length copy.now) copies.now }
    requires none { IsOfNone (IsPiece (values_of copies.now) end) }
    requires several { IsOfTwo (IsClaimedStart (values_of copies.now) end) }
    ensures { IfOk result (λ found. MatchOption found (IsStop (values_of copies.now) end)
        (λ (start, bytes, count). StandsAs (values_of copies.now) start end bytes.items (Woven count))) }
{
    match try_starts(alloc, copies, end)? {
        Tried::Woven(start, bytes, count) => Ok(Some((start, bytes, count))),
        _ => Ok(None),
    }
}

/// What comes of all starts that are claimed at an end. Each copy has it.
fn try_starts(alloc: Global, copies: &[&[u8]], end: usize) -> Result<Tried, AllocError>
    requires some { 0 < length copies.now }
    requires within { All (λ copy. end ≤ length copy.now) copies.now }
    ensures tried { IfOk result (λ tried. AreTriedBefore (values_of copies.now) end end (tried_tally tried)) }
    ensures bytes { IfOk result (λ _. (copy : List ℕ) → Contains (values_of copies.now) copy → AreBytes copy) }
{
    let mut tried = Tried::Missing(0);
    let mut from = 0;
    while let Some(start) = next_claimed_start(copies, end, from) {
        let outcome = weave_sized(alloc, copies, start, end)?;
        tried = tried.with(start, outcome);
        from = start + 1;
    }
    Ok(tried)
}

/// The least start from a place on that is claimed at an end. Each copy has the end.
fn next_claimed_start(copies: &[&[u8]], end: usize, from: usize) -> Option<usize>
    requires { All (λ copy. end ≤ length copy.now) copies.now }
    ensures next { MatchOption result ((start : ℕ) → IsClaimedStart (values_of copies.now) end start → start < from)
        (IsNextClaimedStart (values_of copies.now) end from) }
    ensures bytes { (copy : List ℕ) → Contains (values_of copies.now) copy → AreBytes copy }
{
    let mut next = None;
    for copy in copies {
        if let Some(start) = claimed_from(copy, end, from) {
            next = Some(lesser(next, start));
        }
    }
    next
}

/// The start that a copy claims at an end, if it is not before a place.
fn claimed_from(copy: &[u8], end: usize, from: usize) -> Option<usize>
    requires { end ≤ length copy.now }
    ensures claim { MatchOption result ((start : ℕ) → FooterGives copy.now start end → HasContent start end → start < from)
        (λ start. FooterGives copy.now start end × HasContent start end × from ≤ start) }
    ensures bytes { AreBytes copy.now }
{
    let Some(start) = claimed_start(copy, end) else {
        return None;
    };
    if from <= start { Some(start) } else { None }
}

/// The lesser of two starts, the first of which may not be there.
fn lesser(first: Option<usize>, second: usize) -> usize
    ensures { MatchOption first (result ≡ second) (λ first. result ≡ min first second) }
{
    match first {
        Some(first) => first.min(second),
        None => second,
    }
}
