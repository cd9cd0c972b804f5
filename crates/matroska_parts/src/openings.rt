//! Where elements of the top begin and end, their CRC-32s, and the DocType of an EBML.
ghost use Rattle.std.specs.Prelude.{ℕ, List, MatchOption, ◌≡◌, ◌+◌, ◌-◌, ◌<◌, ◌≤◌, ◌^◌, ◌↔◌, IsTrue, length, drop, OnOk};
ghost use Rattle.ebml.specs.Head.{HasHead};
ghost use Rattle.ebml_reader.specs.RunningCrc.{RunsOver};
ghost use Rattle.matroska_parts.specs.Openings.{opening_of, IsCut, HasOne, IsCrc32Of, HasDocType, IsMatroskaName, IsMatroska, AreDocParts};
ghost use Rattle.matroska_parts.specs.Inner.Added.{AddsParts};

use crate::parts::{Crc32, Opening, Part};
use crate::top_elements::TopElement;
use ebml::{Head, child_ids, has_crc32, last_content, next_content, passes_crc32};
use ebml_reader::RunningCrc32;
use matroska::text_of;
use std::alloc::AllocError;

const DOC_TYPE: u32 = 0x4282;

/// Where an element with this head begins, and where it ends by its size.
pub fn opening_of(place: u64, element: TopElement, head: &Head) -> Opening
    requires place { place < 2 ^ 63 }
    requires has { (bytes : List ℕ) × HasHead bytes head.now }
    ensures { result ≡ opening_of place element head.now }
{
    let end = match head.size {
        Some(size) => Some(place + head.length as u64 + size),
        None => None,
    };
    Opening {
        place,
        element,
        end,
    }
}

/// How an element of the top stands with its CRC-32: the bytes of it that are there.
pub(crate) fn crc32_of(head: &Head, bytes: &[u8]) -> Crc32
    requires { head.now.length ≤ length bytes.now }
    ensures { IsCrc32Of head.now bytes.now result }
{
    if is_cut(head, bytes) {
        return Crc32::Cut;
    }
    let content = &bytes[head.length..];
    if !has_one(head, content) {
        return Crc32::Absent;
    }
    if passes_crc32(content) {
        return Crc32::Passes;
    }
    Crc32::Fails
}

/// How an element of the top stands with its CRC-32, which has gone over its content: so many bytes of that are there.
pub fn crc32_by(head: &Head, there: u64, crc: &RunningCrc32) -> Crc32
    ensures { (bytes : List ℕ) → head.now.length ≤ length bytes → there ≡ length bytes - head.now.length
        → RunsOver (drop head.now.length bytes) crc.now → IsCrc32Of head.now bytes result }
{
    if is_short(head, there) {
        return Crc32::Cut;
    }
    if child_ids(head.id).is_none() || !crc.has_crc32() {
        return Crc32::Absent;
    }
    if crc.passes() {
        return Crc32::Passes;
    }
    Crc32::Fails
}

/// Whether so many bytes are fewer than the size of an element.
fn is_short(head: &Head, there: u64) -> bool
    ensures { (bytes : List ℕ) → head.now.length ≤ length bytes → there ≡ length bytes - head.now.length → IsTrue result ↔ IsCut head.now bytes }
{
    match head.size {
        Some(size) => there < size,
        None => false,
    }
}

/// Whether an element runs past the end of the file.
fn is_cut(head: &Head, bytes: &[u8]) -> bool
    requires { head.now.length ≤ length bytes.now }
    ensures { IsTrue result ↔ IsCut head.now bytes.now }
{
    match head.size {
        Some(size) => ((bytes.len() - head.length) as u64) < size,
        None => false,
    }
}

/// Whether it is a master that begins with a CRC-32.
fn has_one(head: &Head, content: &[u8]) -> bool
    ensures { IsTrue result ↔ HasOne head.now content.now }
{
    match child_ids(head.id) {
        Some(_) => has_crc32(content),
        None => false,
    }
}

/// Adds that an EBML is no Matroska file's, if so.
pub(crate) fn push_doc(
    element: TopElement,
    place: u64,
    content: &[u8],
    parts: &mut Vec<Part>,
) -> Result<(), AllocError>
    ensures { OnOk result (AddsParts (AreDocParts element place content.now) parts.old.items parts.new.items) }
{
    match element {
        TopElement::Ebml => push_doc_type(place, content, parts),
        _ => Ok(()),
    }
}

/// The same of an EBML.
fn push_doc_type(place: u64, content: &[u8], parts: &mut Vec<Part>) -> Result<(), AllocError>
    ensures { OnOk result (AddsParts (AreDocParts TopElement.Ebml place content.now) parts.old.items parts.new.items) }
{
    if !is_matroska(content) {
        parts.push(Part::NoMatroska(place))?;
    }
    Ok(())
}

/// Whether the content of an EBML has exactly one DocType, `matroska` or `webm`.
pub(crate) fn is_matroska(content: &[u8]) -> bool
    ensures { IsTrue result ↔ IsMatroska content.now }
{
    match doc_type(content) {
        Some(text) => is_matroska_name(text),
        None => false,
    }
}

/// The text of the only DocType of an EBML.
fn doc_type<'a>(content: &'a [u8]) -> Option<&'a [u8]>
    ensures { MatchOption result ((text : List ℕ) → HasDocType content.now text → ⊥) (λ text. HasDocType content.now text.now) }
{
    let Some(first) = next_content(DOC_TYPE, content) else {
        return None;
    };
    match last_content(DOC_TYPE, first.rest) {
        Some(_) => None,
        None => Some(text_of(first.bytes)),
    }
}

/// Whether a DocType is that of Matroska, or of its subset WebM.
fn is_matroska_name(text: &[u8]) -> bool
    ensures { IsTrue result ↔ IsMatroskaName text.now }
{
    text == b"matroska".as_slice() || text == b"webm".as_slice()
}
