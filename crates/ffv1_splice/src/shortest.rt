//! The shortest slice that begins at a place: of those with content that pass their parity, one that ends first.
ghost use Rattle.std.specs.Prelude.{◌+◌, ◌≤◌, ◌↔◌, [], ◌∷◌, length, slice_range, All, IsTrue, MatchOption};
ghost use Rattle.ffv1_slice.specs.Chain.{FooterGives};
ghost use Rattle.ffv1_slice.specs.Members.{IsOfNone};
ghost use Rattle.ffv1_weave.specs.References.{values_of};
ghost use Rattle.ffv1_splice.specs.Pieces.{IsPieceFrom, IsShortest};
ghost use Rattle.ffv1_splice.specs.Inner.Claims.{LacksClaims, IsFirstClaim};

use ffv1_bits::{SLICE_LIMIT, remainder_after};
use ffv1_slice::{FOOTER_LENGTH, slice_start};
use memchr::memchr;

/// The bytes of a shortest slice from a place: those of the first copy that has one. It ends at the bound or before it, and each copy has
/// the bound. All copies are searched up to a distance from the place before any is searched up to twice that distance. So of each copy
/// fewer ends are looked at than twice the bytes of the slice, and fewer bytes are divided than four times those, whichever copy has it.
/// Where there is none, each end is looked at once in each copy, up to the bound or the most bytes that a slice can have, and fewer bytes
/// are divided than three times those.
pub(crate) fn first_from<'a>(copies: &[&'a [u8]], start: usize, bound: usize) -> Option<&'a [u8]>
    requires { All (λ copy. bound ≤ length copy.now) copies.now }
    ensures { MatchOption result (IsOfNone (IsPieceFrom (values_of copies.now) bound start))
        (λ bytes. IsShortest (values_of copies.now) bound start (record { end = start + length bytes.now; bytes = bytes.now })) }
{
    let reach = bound.saturating_sub(start);
    let mut distance = FOOTER_LENGTH;
    while distance < reach {
        let further = distance + distance.min(reach - distance);
        if let Some(bytes) = first_between(copies, start, start + distance, start + further) {
            return Some(bytes);
        }
        distance = further;
    }
    None
}

/// The same where no slice from the place ends at `from` or before it. Of each copy an end after `from` is looked at once at most, and
/// none past the end that was found so far.
fn first_between<'a>(
    copies: &[&'a [u8]],
    start: usize,
    from: usize,
    bound: usize,
) -> Option<&'a [u8]>
    requires room { All (λ copy. bound ≤ length copy.now) copies.now }
    requires none { IsOfNone (IsPieceFrom (values_of copies.now) from start) }
    requires content { start + 8 ≤ from }
    requires order { from ≤ bound }
    ensures { MatchOption result (IsOfNone (IsPieceFrom (values_of copies.now) bound start))
        (λ bytes. IsShortest (values_of copies.now) bound start (record { end = start + length bytes.now; bytes = bytes.now })) }
{
    let mut first = None;
    let mut within = bound;
    for copy in copies {
        if let Some(end) = first_end(copy, start, from, within) {
            first = Some(&copy[start..end]);
            within = end - 1;
        }
    }
    first
}

/// The end of a copy's shortest slice from a place, where none ends at `from` or before it. Each end after `from` is looked at once, up to
/// the most bytes that a slice can have, and each byte from the place on is divided once at most.
fn first_end(copy: &[u8], start: usize, from: usize, bound: usize) -> Option<usize>
    requires room { bound ≤ length copy.now }
    requires none { IsOfNone (IsPieceFrom (copy.now ∷ []) from start) }
    requires content { start + 8 ≤ from }
    requires order { from ≤ bound }
    ensures { MatchOption result (IsOfNone (IsPieceFrom (copy.now ∷ []) bound start))
        (λ end. IsShortest (copy.now ∷ []) bound start (record { end = end; bytes = slice_range copy.now start end })) }
{
    let last = bound.min(start.saturating_add(SLICE_LIMIT as usize));
    let mut left = 0;
    let mut judged = start;
    let mut next = from + 1;
    while let Some(end) = first_claim(copy, start, next, last) {
        left = remainder_after(left, &copy[judged..end]);
        if left == 0 {
            return Some(end);
        }
        judged = end;
        next = end + 1;
    }
    None
}

/// The first end from `from` on, up to the last one, whose footer gives this start. The middle byte of the size is the same for 256 ends
/// beside each other, so it is looked for in their footers at once.
pub(crate) fn first_claim(copy: &[u8], start: usize, from: usize, last: usize) -> Option<usize>
    requires room { last ≤ length copy.now }
    requires content { start + 8 ≤ from }
    ensures { MatchOption result (LacksClaims copy.now start from (last + 1)) (IsFirstClaim copy.now start from last) }
{
    let mut end = from;
    while end <= last {
        let size = end - FOOTER_LENGTH - start;
        let after = (last + 1).min(end + 256 - size % 256);
        let Some(skipped) = memchr((size / 256 % 256) as u8, &copy[end - 7..after - 7]) else {
            end = after;
            continue;
        };
        end += skipped;
        if claims(copy, start, end) {
            return Some(end);
        }
        end += 1;
    }
    None
}

/// Whether the footer that ends there gives this start (RFC 9043, section 4.9.1). The lowest byte of its size is looked at first, since
/// that rules out most ends. There is room for the footer after the start.
fn claims(copy: &[u8], start: usize, end: usize) -> bool
    requires content { start + 8 ≤ end }
    requires within { end ≤ length copy.now }
    ensures { IsTrue result ↔ FooterGives copy.now start end }
{
    let size = end - FOOTER_LENGTH - start;
    usize::from(copy[end - 6]) == size % 256 && slice_start(copy, end) == Some(start)
}
