//! The chain of a payload's slices, from its end (RFC 9043, section 4.9). A link that fails its parity is still a link,
//! and its size is still followed.
ghost use Rattle.std.specs.Prelude.{◌≡◌, ◌+◌, ◌-◌, ◌*◌, ◌^◌, ◌<◌, ◌≤◌, ℕ, [], ◌∷◌, length, MatchOption, IfSome, IfNone, ⊤};
ghost use Rattle.std.specs.Iterator.{YieldsFirst, item_count, MakesProgress};
ghost use Rattle.ffv1_bits.specs.Limits.{slice_limit};
ghost use Rattle.ffv1_slice.specs.Chain.{FooterGives, FooterLeads, AreLinksOf, IsEnd};
ghost use Rattle.ffv1_slice.specs.Ending.{EndsAs};
ghost use Rattle.ffv1_slice.specs.Walk.{links_of};

use crate::footer::FOOTER_LENGTH;
use crate::link::Link;
use byteorder::{BigEndian, ByteOrder};
use std::marker::Model;

/// How a chain ends.
#[derive(Clone, Copy, Debug, PartialEq, Eq)]
pub enum ChainEnd {
    /// The links cover the payload, from its first byte to its last.
    Whole,
    /// No slice ends at this place, counted in bytes from the payload's start, which is not 0: fewer than 8 bytes stand
    /// before it, or the footer there gives a size that is more than there is.
    Broken(usize),
}

/// Goes over the links of a payload from its end. It takes no memory.
#[derive(Drop)]
pub struct Chain<'a> {
    payload: &'a [u8],
    place: usize,
}

impl<'a> Model for Chain<'a> {
    ghost use Rattle.std.specs.Prelude.{◌≤◌, length};
    ghost use Rattle.ffv1_slice.specs.Chain.{IsEnd};
    ghost use Rattle.ffv1_slice.specs.Walk.{Walk, walk_code, walk_at};

    ghost Value = { Walk };

    ghost coded = { walk_code };

    ghost view = { λ a. walk_at a.payload.now a.place };

    ghost invariant = { λ a. IsEnd a.payload.now a.place × (a.place ≤ length a.payload.now) };
}

impl<'a> Chain<'a> {
    /// The links of these bytes, whatever they are. There are at most an eighth as many as there are bytes.
    pub fn new(payload: &'a [u8]) -> Chain<'a>
        ensures payload { result.payload ≡ payload.now }
        ensures links { AreLinksOf payload.now result.left }
        ensures value { result.left ≡ links_of payload.now }
        ensures few { 8 * length result.left ≤ length payload.now }
    {
        Chain {
            payload,
            place: payload.len(),
        }
    }

    /// How the payload's chain ends, whichever links were given already.
    pub fn end(&self) -> ChainEnd
        ensures { EndsAs self.now.payload result }
    {
        match last_end(self.payload, self.place) {
            0 => ChainEnd::Whole,
            place => ChainEnd::Broken(place),
        }
    }
}

impl<'a> Iterator for Chain<'a> {
    type Item = Link<'a>;

    ghost next_gives = { YieldsFirst (λ walk. walk.left) };

    ghost remaining = { item_count (λ walk. walk.left) };

    /// The link before the one that was given last; the first is the one at the payload's end. After `None` nothing is
    /// left.
    fn next(&mut self) -> Option<Link<'a>>
        ensures steps { YieldsFirst (λ walk. walk.left) self.old result self.new }
        ensures goes { MakesProgress (λ _. ⊤) (item_count (λ walk. walk.left)) self.old result self.new }
        ensures payload { self.new.payload ≡ self.old.payload }
    {
        let start = slice_start(self.payload, self.place)?;
        let link = Link::cut(self.payload, start, self.place);
        self.place = start;
        Some(link)
    }
}

/// The link that the chain gives next, for loops that keep account of those that are left: the one before the link that it gave last,
/// and at first the one at the payload's end (RFC 9043, section 4.9). `None` if none is left. The payload is unchanged.
pub fn next_link<'a>(chain: &mut Chain<'a>) -> Option<Link<'a>>
    ensures some { IfSome result (λ link. chain.old.left ≡ link ∷ chain.new.left) }
    ensures none { IfNone result (chain.old.left ≡ []) }
    ensures payload { chain.new.payload ≡ chain.old.payload }
{
    chain.next()
}

/// Where the slice begins whose footer ends at this place, counted as the place is, in bytes from the payload's start; `None`
/// where fewer than 8 bytes stand before the place, or the footer there gives a size that is more than there is.
pub fn slice_start(payload: &[u8], place: usize) -> Option<usize>
    requires { place ≤ length payload.now }
    ensures cut { MatchOption result ((p : ℕ) → FooterGives payload.now p place → ⊥) (λ p. FooterGives payload.now p place) }
    ensures short { IfSome result (λ p. place ≤ p + slice_limit) }
{
    slice_start_by(payload, place, FOOTER_LENGTH)
}

/// The same where a footer has so many bytes, and has no parity if they are 3 (RFC 9043, section 4.9); `None` where fewer stand before
/// the place, or the footer there gives a size that is more than there is.
pub fn slice_start_by(payload: &[u8], place: usize, footer: usize) -> Option<usize>
    requires within { place ≤ length payload.now }
    requires some { 3 ≤ footer }
    ensures cut { MatchOption result ((p : ℕ) → FooterLeads footer payload.now p place → ⊥) (λ p. FooterLeads footer payload.now p place) }
    ensures before { IfSome result (λ p. p < place) }
    ensures short { IfSome result (λ p. place < p + footer + 2 ^ 24) }
{
    let from = place.checked_sub(footer)?;
    let size = BigEndian::read_u24(&payload[from..place]) as usize;
    from.checked_sub(size)
}

/// The end back from this one at which no slice ends.
fn last_end(payload: &[u8], from: usize) -> usize
    requires within { from ≤ length payload.now }
    requires is_end { IsEnd payload.now from }
    ensures is_end { IsEnd payload.now result }
    ensures last { (p : ℕ) → FooterGives payload.now p result → ⊥ }
{
    let mut place = from;
    while let Some(start) = slice_start(payload, place) {
        place = start;
    }
    place
}
