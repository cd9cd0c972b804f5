//! The parts that stand in a master: those of its children, and what follows them.
ghost use Rattle.std.specs.Prelude.{◌≡◌, ◌+◌, ◌<◌, ◌≤◌, ◌^◌, ◌++◌, OnOk, length, drop};
ghost use Rattle.ebml.specs.Children.{IsElement};
ghost use Rattle.ebml.specs.Masters.{block_group_ids};
ghost use Rattle.matroska_parts.specs.MasterParts.{child_kind, unknown_parts, AreMasterParts, IsOneBlock, IsGroupChild, IsMasterChild, AreContentParts};
ghost use Rattle.matroska_parts.specs.FileTracks.{HasFacts};
ghost use Rattle.matroska_parts.specs.Inner.Added.{AddsParts};

use crate::blocks::standing_of;
use crate::file_tracks::FileTracks;
use crate::parts::{BlockPart, Part, Span};
use ebml::{Head, child_ids, next_child, unsigned};
use std::alloc::{AllocError, Global};

const BLOCK_GROUP: u32 = 0xA0;

/// What a child of a master is, as far as it has parts.
#[derive(Clone, Copy, Debug)]
pub(crate) enum ChildKind {
    Timestamp,
    /// A SimpleBlock, or a Block of a BlockGroup.
    Block,
    /// A BlockGroup.
    Group,
    Other,
}

/// By its ID.
fn child_kind(id: u32) -> ChildKind
    ensures { result ≡ child_kind id }
{
    match id {
        0xE7 => ChildKind::Timestamp,
        0xA3 => ChildKind::Block,
        0xA1 => ChildKind::Block,
        BLOCK_GROUP => ChildKind::Group,
        _ => ChildKind::Other,
    }
}

/// Adds what is nothing known, from a place of the file on.
pub(crate) fn push_unknown(
    parts: &mut Vec<Part>,
    place: u64,
    bytes: &[u8],
) -> Result<(), AllocError>
    ensures { OnOk result (parts.new.items ≡ parts.old.items ++ unknown_parts place bytes.now) }
{
    if bytes.is_empty() {
        return Ok(());
    }
    let size = bytes.len() as u64;
    parts.push(Part::Unknown(Span { place, size }))?;
    Ok(())
}

/// Adds a SimpleBlock or a Block at a place of the file.
fn push_block(
    alloc: Global,
    tracks: &FileTracks<'_>,
    is_vouched: bool,
    place: u64,
    child: &[u8],
    head_length: usize,
    parts: &mut Vec<Part>,
) -> Result<(), AllocError>
    requires facts { HasFacts tracks.now }
    requires room { head_length ≤ length child.now }
    ensures { OnOk result (AddsParts (IsOneBlock tracks.now.named.tracks.items is_vouched place child.now (drop head_length child.now)) parts.old.items parts.new.items) }
{
    let standing = standing_of(alloc, tracks, is_vouched, &child[head_length..])?;
    parts.push(Part::Block(BlockPart {
        place,
        size: child.len() as u64,
        standing,
    }))?;
    Ok(())
}

/// Adds the parts of a child of a BlockGroup.
fn push_group_child(
    alloc: Global,
    tracks: &FileTracks<'_>,
    is_vouched: bool,
    place: u64,
    child: &[u8],
    head: &Head,
    parts: &mut Vec<Part>,
) -> Result<(), AllocError>
    requires facts { HasFacts tracks.now }
    requires element { IsElement head.now child.now }
    ensures { OnOk result (AddsParts (IsGroupChild tracks.now.named.tracks.items is_vouched place child.now) parts.old.items parts.new.items) }
{
    match child_kind(head.id) {
        ChildKind::Block => push_block(alloc, tracks, is_vouched, place, child, head.length, parts),
        _ => Ok(()),
    }
}

/// Adds the parts in the content of a BlockGroup.
fn push_group(
    alloc: Global,
    tracks: &FileTracks<'_>,
    is_vouched: bool,
    place: u64,
    content: &[u8],
    parts: &mut Vec<Part>,
) -> Result<(), AllocError>
    requires facts { HasFacts tracks.now }
    requires room { place + length content.now < 2 ^ 64 }
    ensures { OnOk result (AddsParts (AreMasterParts (IsGroupChild tracks.now.named.tracks.items is_vouched) block_group_ids place content.now)
        parts.old.items parts.new.items) }
{
    let Some(ids) = child_ids(BLOCK_GROUP) else {
        return Ok(());
    };
    let mut at = 0;
    while let Some(child) = next_child(ids, &content[at..]) {
        let end = at + child.length;
        let from = place + at as u64;
        push_group_child(
            alloc,
            tracks,
            is_vouched,
            from,
            &content[at..end],
            &child.head,
            parts,
        )?;
        at = end;
    }
    push_unknown(parts, place + at as u64, &content[at..])
}

/// Adds the parts of a child of a master of the top.
pub(crate) fn push_master_child(
    alloc: Global,
    tracks: &FileTracks<'_>,
    is_vouched: bool,
    place: u64,
    child: &[u8],
    head: &Head,
    parts: &mut Vec<Part>,
) -> Result<(), AllocError>
    requires facts { HasFacts tracks.now }
    requires element { IsElement head.now child.now }
    requires room { place + length child.now < 2 ^ 64 }
    ensures { OnOk result (AddsParts (IsMasterChild tracks.now.named.tracks.items is_vouched place child.now) parts.old.items parts.new.items) }
{
    match child_kind(head.id) {
        ChildKind::Timestamp => {
            parts.push(Part::Timestamp(unsigned(&child[head.length..])))?;
            Ok(())
        }
        ChildKind::Block => push_block(alloc, tracks, is_vouched, place, child, head.length, parts),
        ChildKind::Group => {
            let from = place + head.length as u64;
            push_group(
                alloc,
                tracks,
                is_vouched,
                from,
                &child[head.length..],
                parts,
            )
        }
        ChildKind::Other => Ok(()),
    }
}

/// Adds the parts in the content of an element of the top with this ID, at a place of the file.
pub(crate) fn push_content(
    alloc: Global,
    tracks: &FileTracks<'_>,
    is_vouched: bool,
    id: u32,
    place: u64,
    content: &[u8],
    parts: &mut Vec<Part>,
) -> Result<(), AllocError>
    requires facts { HasFacts tracks.now }
    requires room { place + length content.now < 2 ^ 64 }
    ensures { OnOk result (AddsParts (AreContentParts id tracks.now.named.tracks.items is_vouched place content.now) parts.old.items parts.new.items) }
{
    match child_ids(id) {
        Some(ids) => push_master(alloc, tracks, is_vouched, ids, place, content, parts),
        None => Ok(()),
    }
}

/// Adds the parts in the content of a master of the top, with these children.
fn push_master(
    alloc: Global,
    tracks: &FileTracks<'_>,
    is_vouched: bool,
    ids: &[u32],
    place: u64,
    content: &[u8],
    parts: &mut Vec<Part>,
) -> Result<(), AllocError>
    requires facts { HasFacts tracks.now }
    requires room { place + length content.now < 2 ^ 64 }
    ensures { OnOk result (AddsParts (AreMasterParts (IsMasterChild tracks.now.named.tracks.items is_vouched) ids.now place content.now)
        parts.old.items parts.new.items) }
{
    let mut at = 0;
    while let Some(child) = next_child(ids, &content[at..]) {
        let end = at + child.length;
        let from = place + at as u64;
        push_master_child(
            alloc,
            tracks,
            is_vouched,
            from,
            &content[at..end],
            &child.head,
            parts,
        )?;
        at = end;
    }
    push_unknown(parts, place + at as u64, &content[at..])
}
