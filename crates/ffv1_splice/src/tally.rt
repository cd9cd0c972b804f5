//! The pieces that end at a place, and the starts that copies claim there, each copy looked at once.
ghost use Rattle.std.specs.Prelude.{◌≡◌, ◌≤◌, ◌<◌, ◌↔◌, ℕ, IsTrue, length, All, MatchOption};
ghost use Rattle.ffv1_slice.specs.Chain.{FooterGives};
ghost use Rattle.ffv1_weave.specs.References.{values_of};
ghost use Rattle.ffv1_splice.specs.Pieces.{HasContent, IsPiece, IsClaimedStart, IsLeast};
ghost use Rattle.ffv1_splice.specs.Inner.Tally.{Tallies, TalliesMore, TalliesBoth, pieces_tally, claimed_tally};

use ffv1_bits::passes;
use ffv1_slice::{FOOTER_LENGTH, slice_start};

/// The pieces that end at a place: slices with content that pass their parity.
#[derive(Clone, Copy)]
pub(crate) enum Pieces<'a> {
    /// There is none.
    None,
    /// All are equal: from this start on, these bytes.
    One(usize, &'a [u8]),
    /// Two differ.
    Two,
}

/// What footers claim of slices with content: the starts of those that end at a place, or the ends of those that begin at one.
#[derive(Clone, Copy)]
pub(crate) enum Claimed {
    /// None claims one.
    None,
    /// All that claim one claim this.
    One(usize),
    /// Two differ.
    Two,
}

impl<'a> Pieces<'a> {
    /// Whether these stay as they are with one more piece: it is the only one already, or two differ.
    fn stays_with(self, start: usize, bytes: &[u8]) -> bool
        ensures { IsTrue result ↔ TalliesMore (pieces_tally self.entry) (record { start = start; bytes = bytes.now }) (pieces_tally self.entry) }
    {
        match self {
            Pieces::None => false,
            Pieces::One(other, same) => other == start && same == bytes,
            Pieces::Two => true,
        }
    }

    /// The same with one more piece.
    fn with(self, start: usize, bytes: &'a [u8]) -> Pieces<'a>
        ensures { TalliesMore (pieces_tally self.entry) (record { start = start; bytes = bytes.now }) (pieces_tally result) }
    {
        match self {
            Pieces::None => Pieces::One(start, bytes),
            Pieces::One(other, same) if other == start && same == bytes => self,
            _ => Pieces::Two,
        }
    }
}

impl Claimed {
    /// The same with one more that is claimed.
    fn with(self, place: usize) -> Claimed
        ensures { TalliesMore (claimed_tally self) place (claimed_tally result) }
    {
        match self {
            Claimed::None => Claimed::One(place),
            Claimed::One(same) if same == place => self,
            _ => Claimed::Two,
        }
    }

    /// The same with all that others are.
    pub(crate) fn joined(self, others: Claimed) -> Claimed
        ensures { TalliesBoth (claimed_tally self) (claimed_tally others) (claimed_tally result) }
    {
        match others {
            Claimed::None => self,
            Claimed::One(place) => self.with(place),
            Claimed::Two => Claimed::Two,
        }
    }
}

/// Where the slice begins whose footer ends at this place, as `slice_start` says; but `None` too where it has no content. Zeros read
/// as a row of such slices, each of which passes its parity.
pub(crate) fn claimed_start(copy: &[u8], end: usize) -> Option<usize>
    requires { end ≤ length copy.now }
    ensures { MatchOption result ((start : ℕ) → FooterGives copy.now start end → HasContent start end → ⊥)
        (λ start. FooterGives copy.now start end × HasContent start end) }
{
    match slice_start(copy, end) {
        Some(start) if start + FOOTER_LENGTH < end => Some(start),
        _ => None,
    }
}

/// The pieces that end at a place, and the starts that are claimed there. Each copy has the place.
pub(crate) fn tally_at<'a>(copies: &[&'a [u8]], end: usize) -> (Pieces<'a>, Claimed)
    requires { All (λ copy. end ≤ length copy.now) copies.now }
    ensures pieces { Tallies (IsPiece (values_of copies.now) end) (pieces_tally result.0) }
    ensures starts { Tallies (IsClaimedStart (values_of copies.now) end) (claimed_tally result.1) }
{
    let mut pieces = Pieces::None;
    let mut starts = Claimed::None;
    for copy in copies {
        if let Some(start) = claimed_start(copy, end) {
            let bytes = &copy[start..end];
            starts = starts.with(start);
            if !pieces.stays_with(start, bytes) && passes(bytes) {
                pieces = pieces.with(start, bytes);
            }
        }
    }
    (pieces, starts)
}

/// The lexicographically smallest bytes between two places of the copies, of which there is one at least. Each copy has them.
pub(crate) fn least_at<'a>(copies: &[&'a [u8]], start: usize, end: usize) -> &'a [u8]
    requires some { 0 < length copies.now }
    requires within { All (λ copy. end ≤ length copy.now) copies.now }
    requires order { start ≤ end }
    ensures { IsLeast (values_of copies.now) start end result.now }
{
    let mut least = &copies[0][start..end];
    for copy in copies {
        least = least.min(&copy[start..end]);
    }
    least
}
