//! The parts of a whole file that lies in memory.
ghost use Rattle.std.specs.Prelude.{ℕ, ◌≡◌, ◌<◌, List, Option, Some, None, IfOk, vec_len, length, take, drop, if◌then◌else◌};
ghost use Rattle.std.specs.Option.{option_copied};
ghost use Rattle.std.specs.List.{AllByRecursion};
ghost use Rattle.ebml.specs.Items.{ItemValue, AreItems};
ghost use Rattle.matroska.specs.NamedTracks.{named_tracks};
ghost use Rattle.matroska_parts.specs.ItemParts.{PlacedContent, is_tracks, content_by, first_tracks, AreTracksBy, AreNamedIn, AreItemParts, AreFileParts};
ghost use Rattle.matroska_parts.specs.Named.{IsBelow};
ghost use Rattle.matroska_parts.specs.FileTracks.{HasFacts};
ghost use Rattle.matroska_parts.specs.SourceParts.{HasItsHead};
ghost use Rattle.matroska_parts.specs.Inner.Firsts.{SaysWhere, found_of};

use crate::file_tracks::FileTracks;
use crate::items::push_item;
use crate::parts::Part;
use ebml::{Kind, next_item};
use matroska::{NamedTracks, read_tracks};
use std::alloc::{AllocError, Global};

/// A longer Tracks describes no track.
const TRACKS_LIMIT: usize = 1 << 24;

pub(crate) const TRACKS: u32 = 0x1654AE6B;

/// The tracks that a file's blocks can name, and its parts, in order.
#[derive(Drop)]
pub struct FileParts<'a> {
    pub tracks: NamedTracks<'a>,
    pub parts: Vec<Part>,
}

/// The first Tracks of a file: where it begins, and its content.
#[derive(Clone, Copy, Debug)]
pub(crate) struct FirstTracks<'a> {
    pub(crate) place: usize,
    pub(crate) content: &'a [u8],
}

/// The parts of a Matroska file, whatever its bytes are, and the tracks that its first Tracks describes. It fails only if an allocation
/// fails.
pub fn file_parts<'a>(alloc: Global, file: &'a [u8]) -> Result<FileParts<'a>, AllocError>
    ensures parts { IfOk result (λ found. AreFileParts file.now found.tracks.tracks.items found.parts.items) }
    ensures named { IfOk result (λ found. AllByRecursion (IsBelow (vec_len found.tracks.tracks)) found.parts.items) }
{
    let first = first_tracks(file);
    let tracks = tracks_of(alloc, &first)?;
    let parts = parts_of(alloc, &tracks, place_of(&first), file)?;
    let FileTracks { named, facts: _ } = tracks;
    Ok(FileParts {
        tracks: named,
        parts,
    })
}

/// The first Tracks of a file.
fn first_tracks<'a>(file: &'a [u8]) -> Option<FirstTracks<'a>>
    ensures { (items : List ItemValue) → AreItems file.now items → found_of result ≡ first_tracks 0 items }
{
    let mut place = 0;
    while place < file.len() {
        let item = next_item(&file[place..]);
        let end = place + item.length;
        if let Some(content) = tracks_content(&item.kind, &file[place..end]) {
            return Some(FirstTracks { place, content });
        }
        place = end;
    }
    None
}

/// The content of an item, if it is a Tracks.
fn tracks_content<'a>(kind: &Kind, bytes: &'a [u8]) -> Option<&'a [u8]>
    requires { HasItsHead kind.now bytes.now }
    ensures { option_copied result ≡ (if is_tracks kind.now then Some (content_by kind.now bytes.now) else None) }
{
    match kind {
        Kind::Element(head) => {
            if head.id != TRACKS {
                return None;
            }
            Some(&bytes[head.length..])
        }
        _ => None,
    }
}

/// Where it begins.
fn place_of(first: &Option<FirstTracks<'_>>) -> Option<u64>
    ensures { SaysWhere result (found_of first.now) }
{
    match first {
        Some(first) => Some(first.place as u64),
        None => None,
    }
}

/// The tracks that it describes.
fn tracks_of<'a>(
    alloc: Global,
    first: &Option<FirstTracks<'a>>,
) -> Result<FileTracks<'a>, AllocError>
    ensures tracks { IfOk result (λ file. AreTracksBy (found_of first.now) file.named.tracks.items) }
    ensures facts { IfOk result HasFacts }
{
    match first {
        Some(first) => tracks_in(alloc, first.content),
        None => FileTracks::new(alloc, &[]),
    }
}

/// The tracks that the content of a Tracks describes.
pub(crate) fn tracks_in<'a>(alloc: Global, content: &'a [u8]) -> Result<FileTracks<'a>, AllocError>
    ensures tracks { IfOk result (λ file. AreNamedIn content.now file.named.tracks.items) }
    ensures facts { IfOk result HasFacts }
{
    if content.len() > TRACKS_LIMIT {
        return FileTracks::new(alloc, &[]);
    }
    let tracks = read_tracks(alloc, content)?;
    FileTracks::new(alloc, &tracks)
}

/// The parts of all items of a file.
fn parts_of(
    alloc: Global,
    tracks: &FileTracks<'_>,
    first: Option<u64>,
    file: &[u8],
) -> Result<Vec<Part>, AllocError>
    requires { HasFacts tracks.now }
    ensures { IfOk result (λ parts. (found : Option PlacedContent) → SaysWhere first found
        → (items : List ItemValue) × AreItems file.now items × AreItemParts found tracks.now.named.tracks.items 0 items parts.items) }
{
    let mut parts = Vec::new(alloc);
    let mut place = 0;
    while place < file.len() {
        let item = next_item(&file[place..]);
        let end = place + item.length;
        let from = place as u64;
        push_item(
            alloc,
            tracks,
            first,
            from,
            &item.kind,
            &file[place..end],
            &mut parts,
        )?;
        place = end;
    }
    Ok(parts)
}
