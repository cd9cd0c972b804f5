//! The parts of elements of the top that are read from a source.
ghost use Rattle.std.specs.Prelude.{ℕ, List, Option, ◌≡◌, ◌≢◌, ◌+◌, ◌<◌, ◌≤◌, ◌^◌, ◌++◌, length, true, OnOk, Some};
ghost use Rattle.ebml.specs.Head.{HasHead};
ghost use Rattle.ebml.specs.Masters.{cluster_id, child_ids};
ghost use Rattle.ebml_reader.specs.RunningCrc.{RunsOver};
ghost use Rattle.matroska_parts.specs.TopElements.{top_element_of};
ghost use Rattle.matroska_parts.specs.MasterParts.{unknown_parts};
ghost use Rattle.matroska_parts.specs.ItemParts.{PlacedContent, AreElementParts};
ghost use Rattle.matroska_parts.specs.SourceParts.{KnownTracks};
ghost use Rattle.matroska_parts.specs.StreamedParts.{AddsEndParts};
ghost use Rattle.matroska_parts.specs.Inner.Added.{AddsParts};
ghost use Rattle.matroska_parts.specs.Inner.Firsts.{SaysWhere};
ghost use Rattle.matroska_parts.specs.Inner.Inside.{IsInsideOf, PassesInside, doc_parts};

use crate::file_tracks::FileTracks;
use crate::items::{passes, push_records_if, says_records};
use crate::openings::{crc32_by, is_matroska, opening_of};
use crate::parts::{Closing, Part, Span};
use crate::top_elements::TopElement;
use ebml::{Head, child_ids, children_end};
use ebml_reader::{
    Intake, PassedContent, ReaderFault, RunningCrc32, pass_content, pass_summed, take_bytes,
};
use ffv1_devices::Source;
use std::alloc::{AllocError, Global};

/// What was passed of the content of an element of the top that is no Cluster: how many bytes, how many of them are children's, or all if it is
/// no master, and whether it is no EBML or that of a Matroska file.
#[derive(Clone, Copy, Debug)]
pub(crate) struct Inside {
    pub(crate) length: u64,
    pub(crate) children: u64,
    pub(crate) is_matroska: bool,
}

/// Passes the content of an element of the top that is no Cluster, as far as it is there: of this ID and size. An EBML's is held whole, of any
/// other one piece.
pub(crate) fn pass_inside<S: Source>(
    alloc: Global,
    element: TopElement,
    id: u32,
    size: u64,
    crc: &mut RunningCrc32,
    intake: &mut Intake,
    source: &mut S,
) -> Result<Inside, ReaderFault>
    requires known { top_element_of id ≡ Some element }
    requires other { id ≢ cluster_id }
    ensures { PassesInside id element size result crc.old crc.new intake.old intake.new (S.log source.old) (S.log source.new) }
{
    let Some(ids) = child_ids(id) else {
        let length = pass_summed(size, crc, intake, source)?;
        return Ok(inside_of(PassedContent {
            length,
            children: length,
        }));
    };
    if let TopElement::Ebml = element {
        return hold_inside(alloc, ids, size, crc, intake, source);
    }
    let passed = pass_content(ids, size, crc, intake, source)?;
    Ok(inside_of(passed))
}

/// What was passed, of an element that is no EBML.
fn inside_of(passed: PassedContent) -> Inside
    ensures { result ≡ record { length = passed.length; children = passed.children; is_matroska = true } }
{
    Inside {
        length: passed.length,
        children: passed.children,
        is_matroska: true,
    }
}

/// Takes the content of an EBML.
fn hold_inside<S: Source>(
    alloc: Global,
    ids: &[u32],
    size: u64,
    crc: &mut RunningCrc32,
    intake: &mut Intake,
    source: &mut S,
) -> Result<Inside, ReaderFault>
    ensures { (id : ℕ) → child_ids id ≡ Some ids.now → id ≢ cluster_id → id ≢ 0xA0
        → PassesInside id TopElement.Ebml size result crc.old crc.new intake.old intake.new (S.log source.old) (S.log source.new) }
{
    let content = take_bytes(alloc, size, intake, source)?;
    let bytes = content.as_slice();
    crc.push(bytes);
    Ok(Inside {
        length: bytes.len() as u64,
        children: children_end(ids, bytes) as u64,
        is_matroska: is_matroska(bytes),
    })
}

/// Adds the parts of an element of the top that is no Cluster, whose content was passed.
pub(crate) fn push_inside(
    tracks: &FileTracks<'_>,
    first: Option<u64>,
    place: u64,
    element: TopElement,
    head: &Head,
    inside: &Inside,
    crc: &RunningCrc32,
    parts: &mut Vec<Part>,
) -> Result<(), AllocError>
    requires known { top_element_of head.now.id ≡ Some element }
    requires has { (start : List ℕ) × HasHead start head.now }
    requires room { place + head.now.length + inside.now.length < 2 ^ 63 }
    requires within { inside.now.children ≤ inside.now.length }
    ensures { (found : Option PlacedContent) (start content : List ℕ) → SaysWhere first found → HasHead start head.now → length start ≡ head.now.length
        → IsInsideOf head.now.id element content inside.now → RunsOver content crc.now
        → OnOk result (AddsParts (AreElementParts found tracks.now.named.tracks.items place head.now (start ++ content)) parts.old.items parts.new.items) }
{
    let from = place + head.length as u64;
    parts.push(Part::Begin(opening_of(place, element, head)))?;
    push_span(
        parts,
        from + inside.children,
        inside.length - inside.children,
    )?;
    push_doc_part(inside.is_matroska, place, parts)?;
    let closing = Closing {
        place,
        element,
        size: head.length as u64 + inside.length,
        content: inside.length,
        crc32: crc32_by(head, inside.length, crc),
    };
    push_end(tracks, first, from, &closing, parts)
}

/// Adds so many bytes that are nothing known, from a place of the file on; nothing if there are none.
pub fn push_span(parts: &mut Vec<Part>, place: u64, size: u64) -> Result<(), AllocError>
    ensures { (bytes : List ℕ) → size ≡ length bytes → OnOk result (parts.new.items ≡ parts.old.items ++ unknown_parts place bytes) }
{
    if size == 0 {
        return Ok(());
    }
    parts.push(Part::Unknown(Span { place, size }))?;
    Ok(())
}

/// Adds that the EBML at this place is no Matroska file's, if so.
fn push_doc_part(is_matroska: bool, place: u64, parts: &mut Vec<Part>) -> Result<(), AllocError>
    ensures { OnOk result (parts.new.items ≡ parts.old.items ++ doc_parts is_matroska place) }
{
    if !is_matroska {
        parts.push(Part::NoMatroska(place))?;
    }
    Ok(())
}

/// Adds what is said at the end of an element, whose content begins at a place: the records of the tracks, if it is the first Tracks and not
/// cut, and the end.
pub(crate) fn push_end(
    tracks: &FileTracks<'_>,
    first: Option<u64>,
    from: u64,
    closing: &Closing,
    parts: &mut Vec<Part>,
) -> Result<(), AllocError>
    requires { from < 2 ^ 63 }
    ensures { (known : KnownTracks) → SaysWhere first known.first → known.tracks ≡ tracks.now.named.tracks.items
        → OnOk result (AddsEndParts known from closing.now parts.old.items parts.new.items) }
{
    let here = says_records(first, closing.place, closing.crc32);
    let is_vouched = passes(closing.crc32);
    push_records_if(tracks, here, is_vouched, from, parts)?;
    parts.push(Part::End(*closing))?;
    Ok(())
}
