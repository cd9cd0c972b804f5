//! The parts of the items of a file.
ghost use Rattle.std.specs.Prelude.{◌≡◌, ◌+◌, ◌<◌, ◌^◌, ◌&&◌, length, IsSome, OnOk, Option};
ghost use Rattle.ebml.specs.Head.{HasHead};
ghost use Rattle.matroska_parts.specs.TopElements.{top_element_of};
ghost use Rattle.matroska_parts.specs.Openings.{passes};
ghost use Rattle.matroska_parts.specs.ItemParts.{PlacedContent, is_at, is_uncut, AreRecordPartsIf, AreElementParts, AreItemPartsBy};
ghost use Rattle.matroska_parts.specs.FileTracks.{HasFacts};
ghost use Rattle.matroska_parts.specs.Inner.Added.{AddsParts};
ghost use Rattle.matroska_parts.specs.SourceParts.{HasItsHead};
ghost use Rattle.matroska_parts.specs.Inner.Firsts.{SaysWhere};

use crate::file_tracks::FileTracks;
use crate::masters::push_content;
use crate::openings::{crc32_of, opening_of, push_doc};
use crate::parts::{Closing, Crc32, Part, Span};
use crate::records::push_records;
use crate::top_elements::{TopElement, top_element};
use ebml::{Head, Kind};
use std::alloc::{AllocError, Global};

/// Adds the parts of an item at a place of the file; the first Tracks begins at another.
pub(crate) fn push_item(
    alloc: Global,
    tracks: &FileTracks<'_>,
    first: Option<u64>,
    place: u64,
    kind: &Kind,
    bytes: &[u8],
    parts: &mut Vec<Part>,
) -> Result<(), AllocError>
    requires facts { HasFacts tracks.now }
    requires room { place + length bytes.now < 2 ^ 63 }
    requires headed { HasItsHead kind.now bytes.now }
    ensures { (found : Option PlacedContent) → SaysWhere first found
        → OnOk result (AddsParts (AreItemPartsBy kind.now found tracks.now.named.tracks.items place bytes.now) parts.old.items parts.new.items) }
{
    match kind {
        Kind::Segment(head) => {
            let opening = opening_of(place, TopElement::Segment, head);
            parts.push(Part::Begin(opening))?;
            Ok(())
        }
        Kind::Element(head) => push_element(alloc, tracks, first, place, head, bytes, parts),
        Kind::Endless(head) => push_element(alloc, tracks, first, place, head, bytes, parts),
        Kind::Unknown => {
            let size = bytes.len() as u64;
            parts.push(Part::Unknown(Span { place, size }))?;
            Ok(())
        }
    }
}

/// Adds those of an element of the top.
fn push_element(
    alloc: Global,
    tracks: &FileTracks<'_>,
    first: Option<u64>,
    place: u64,
    head: &Head,
    bytes: &[u8],
    parts: &mut Vec<Part>,
) -> Result<(), AllocError>
    requires facts { HasFacts tracks.now }
    requires room { place + length bytes.now < 2 ^ 63 }
    requires has { HasHead bytes.now head.now }
    requires known { IsSome (top_element_of head.now.id) }
    ensures { (found : Option PlacedContent) → SaysWhere first found
        → OnOk result (AddsParts (AreElementParts found tracks.now.named.tracks.items place head.now bytes.now) parts.old.items parts.new.items) }
{
    let Some(element) = top_element(head.id) else {
        return Ok(());
    };
    let content = &bytes[head.length..];
    let crc32 = crc32_of(head, bytes);
    let is_vouched = passes(crc32);
    parts.push(Part::Begin(opening_of(place, element, head)))?;
    let from = place + head.length as u64;
    push_content(alloc, tracks, is_vouched, head.id, from, content, parts)?;
    push_doc(element, place, content, parts)?;
    let here = says_records(first, place, crc32);
    push_records_if(tracks, here, is_vouched, from, parts)?;
    parts.push(Part::End(Closing {
        place,
        element,
        size: bytes.len() as u64,
        content: content.len() as u64,
        crc32,
    }))?;
    Ok(())
}

/// Adds the records of the tracks, if they are said here: the content of the Tracks begins at this place, and its CRC-32 passes or not.
pub(crate) fn push_records_if(
    tracks: &FileTracks<'_>,
    here: bool,
    is_vouched: bool,
    place: u64,
    parts: &mut Vec<Part>,
) -> Result<(), AllocError>
    requires { place < 2 ^ 63 }
    ensures { OnOk result (AddsParts (AreRecordPartsIf here is_vouched place tracks.now.named.tracks.items) parts.old.items parts.new.items) }
{
    if here {
        return push_records(place, is_vouched, tracks.named.as_slice(), parts);
    }
    Ok(())
}

/// Whether an element at this place is the first Tracks, and not cut.
pub(crate) fn says_records(first: Option<u64>, place: u64, crc32: Crc32) -> bool
    ensures { (found : Option PlacedContent) → SaysWhere first found → result ≡ (is_at place found && is_uncut crc32) }
{
    is_at(first, place) && is_uncut(crc32)
}

/// Whether the first Tracks begins at this place.
fn is_at(first: Option<u64>, place: u64) -> bool
    ensures { (found : Option PlacedContent) → SaysWhere first found → result ≡ is_at place found }
{
    match first {
        Some(first) => first == place,
        None => false,
    }
}

/// Whether an element is not cut.
fn is_uncut(crc32: Crc32) -> bool
    ensures { result ≡ is_uncut crc32 }
{
    match crc32 {
        Crc32::Cut => false,
        _ => true,
    }
}

/// Whether an element's CRC-32 passes.
pub(crate) fn passes(crc32: Crc32) -> bool
    ensures { result ≡ passes crc32 }
{
    match crc32 {
        Crc32::Passes => true,
        _ => false,
    }
}
