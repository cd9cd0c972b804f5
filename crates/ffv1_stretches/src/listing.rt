//! The list of a file's stretches, read from a text (own).
ghost use Rattle.std.specs.Prelude.{◌≡◌, map, length, replicate, IfOk, IfErr, MatchBool};
ghost use Rattle.ffv1_weave.specs.References.{values_of};
ghost use Rattle.ffv1_stretches.specs.Stretches.{AreInOrder};
ghost use Rattle.ffv1_stretches.specs.Listed.{AreStretches, IsListFault};
ghost use Rattle.ffv1_stretches.specs.Inner.ListSteps.{AddsPart, AddsNoPart, AddsStretch, AddsNoStretch, IsListedTo, AddsLine};
ghost use Rattle.ffv1_stretches.specs.Inner.Ends.{end_of};

use crate::ends::{End, first_ends, follow, next_ends};
use crate::stretch::Stretch;
use crate::words::{begins_part, next_part, read_stretch};
use ffv1_texts::{first_line, words_of};
use std::alloc::{AllocError, Global};

/// Why a text lists no stretches.
#[derive(Clone, Copy, Debug, PartialEq, Eq)]
pub enum ListFault {
    /// The line with this number, counted from 1, is the first that is neither a stretch that follows those before it, nor a part of the
    /// element before it.
    Line(usize),
    /// An allocation of memory failed.
    Memory,
}

impl From<AllocError> for ListFault {
    ghost use Rattle.std.specs.Prelude.{◌≡◌};
    ghost use Rattle.ffv1_stretches.specs.declared.listing.ListFault.TheVariants.{Memory};

    ghost from_gives = { λ _ fault. fault ≡ Memory };

    fn from(_refusal: AllocError) -> ListFault {
        ListFault::Memory
    }
}

/// Adds the part that words are to the last stretch. Returns whether they are one that follows those of an element.
fn add_part(words: &[&[u8]], stretches: &mut Vec<Stretch>) -> Result<bool, AllocError>
    ensures { IfOk result (λ added. MatchBool added
        (AddsPart (values_of words.now) stretches.old.items stretches.new.items)
        (AddsNoPart (values_of words.now) stretches.old.items)) }
{
    let Some(mut last) = stretches.pop() else {
        return Ok(false);
    };
    let Some(part) = next_part(words, &last) else {
        return Ok(false);
    };
    if last.parts.is_empty() {
        // Most elements have one frame.
        last.parts.reserve_exact(1)?;
    }
    last.parts.push(part)?;
    stretches.push(last)?;
    Ok(true)
}

/// Adds the stretch that words are. Returns whether they are one that follows the ends of the others.
fn add_stretch(
    alloc: Global,
    words: &[&[u8]],
    ends: &mut Vec<End>,
    stretches: &mut Vec<Stretch>,
) -> Result<bool, AllocError>
    ensures { IfOk result (λ added. MatchBool added
        (AddsStretch (values_of words.now) stretches.old.items stretches.new.items (map end_of ends.old.items) (map end_of ends.new.items))
        (AddsNoStretch (values_of words.now) (map end_of ends.old.items))) }
{
    let copies = ends.as_slice().len();
    let Some(stretch) = read_stretch(alloc, words, copies)? else {
        return Ok(false);
    };
    if !follow(ends.as_slice(), stretch.places.as_slice()) {
        return Ok(false);
    }
    *ends = next_ends(alloc, ends.as_slice(), &stretch)?;
    stretches.push(stretch)?;
    Ok(true)
}

/// Adds the stretch or the part that a line is. Returns whether it is one that may come next.
fn add_line(
    alloc: Global,
    line: &[u8],
    ends: &mut Vec<End>,
    stretches: &mut Vec<Stretch>,
) -> Result<bool, AllocError>
    requires { IsListedTo ends.old.items stretches.old.items }
    ensures line { IfOk result (AddsLine (length ends.old.items) line.now stretches.old.items stretches.new.items) }
    ensures ends { IfOk result (λ added. MatchBool added (IsListedTo ends.new.items stretches.new.items) (Unit {0})) }
    ensures count { IfOk result (λ added. MatchBool added (length ends.new.items ≡ length ends.old.items) (Unit {0})) }
{
    let words = words_of(alloc, line)?;
    if begins_part(words.as_slice()) {
        add_part(words.as_slice(), stretches)
    } else {
        add_stretch(alloc, words.as_slice(), ends, stretches)
    }
}

/// Reads the stretches that a text lists, of so many copies: a line for each, as `crc32 4096 1 0 - 512`, with its kind (`frame`, `crc32`,
/// `record`, `flac` or `plain`), how many bytes it has (1 to 2^30), the number of its copy FROM, from 1, and for each copy the place at
/// which it has the stretch, in bytes from the copy's start, or `-`; and after an element (`crc32`) a line for each frame in it, as
/// `part 6 1000`, or `part 6 1000 flac` of a frame of FLAC, with how many bytes of the element stand before the frame, and how many it
/// has. One space parts two words. Numbers are decimal digits under 2^64. A line feed ends each line; the last may go without.
///
/// The copy FROM has the stretch. The places of each copy rise without overlap. So do the parts of an element, which lie within it and
/// not in its first six bytes.
///
/// `Line` names the first line that is not so; an empty line is one. Returns `Memory` if an allocation fails.
pub fn read_list(alloc: Global, text: &[u8], copies: usize) -> Result<Vec<Stretch>, ListFault>
    ensures ok { IfOk result (λ stretches. AreStretches copies text.now stretches.items) }
    ensures order { IfOk result (λ stretches. AreInOrder copies (replicate copies 0) stretches.items) }
    ensures fault { IfErr result (IsListFault copies text.now) }
{
    let mut stretches = Vec::new(alloc);
    let mut ends = first_ends(alloc, copies)?;
    let mut rest = text;
    let mut number = 0;
    while !rest.is_empty() {
        let (line, more) = first_line(rest);
        number += 1;
        if !add_line(alloc, line, &mut ends, &mut stretches)? {
            return Err(ListFault::Line(number));
        }
        rest = more;
    }
    Ok(stretches)
}
