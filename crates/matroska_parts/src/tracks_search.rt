//! The first Tracks of a file that is read from a source.
ghost use Rattle.std.specs.Prelude.{◌≡◌, ◌⊎◌, true, false, Some, None, IfSome, IfOk};
ghost use Rattle.ebml.specs.declared.head.Head.{Head};
ghost use Rattle.ebml.specs.declared.items.Kind.TheVariants.{Element};
ghost use Rattle.matroska_parts.specs.ItemParts.{is_tracks, AreTracksBy};
ghost use Rattle.matroska_parts.specs.SourceParts.{found_in, FindsTracksIn};
ghost use Rattle.matroska_parts.specs.FileTracks.{HasFacts};

use crate::file_tracks::FileTracks;
use crate::files::{TRACKS, tracks_in};
use ebml::Kind;
use ebml_reader::{Intake, ReaderFault, pass_rest, pass_start, take_bytes};
use ffv1_devices::Source;
use std::alloc::{AllocError, Global};

/// The first Tracks of a file: where it begins, and its content. The place is `None` if the file has no Tracks.
#[derive(Drop)]
pub struct FoundTracks {
    pub(crate) place: Option<u64>,
    pub(crate) content: Vec<u8>,
}

/// Looks for the first Tracks of a file, and reads no further than one piece after it. Of what stands before it one piece is held, or one child of
/// a Cluster of unknown size.
///
/// Returns `Read` if the source failed, or gave 2^62 bytes, and `Memory` if an allocation fails.
pub fn find_tracks<S: Source>(alloc: Global, source: &mut S) -> Result<FoundTracks, ReaderFault>
    ensures { FindsTracksIn result (S.log source.old) (S.log source.new) }
{
    let mut intake = Intake::new(alloc);
    let mut place: u64 = 0;
    while let Some(start) = pass_start(&mut intake, source)? {
        if let Some(size) = tracks_size(&start.kind) {
            let content = take_bytes(alloc, size, &mut intake, source)?;
            return Ok(FoundTracks {
                place: Some(place),
                content,
            });
        }
        let rest = pass_rest(&start.kind, &mut intake, source)?;
        place += start.length + rest;
    }
    Ok(FoundTracks {
        place: None,
        content: Vec::new(alloc),
    })
}

/// The size of an item, if it is a Tracks.
fn tracks_size(kind: &Kind) -> Option<u64>
    ensures found { IfSome result (λ size. (head : Head) × (kind.now ≡ Element head) × (head.size ≡ Some size) × (is_tracks kind.now ≡ true)) }
    ensures none { result ≡ None → (is_tracks kind.now ≡ false) ⊎ ((head : Head) × (kind.now ≡ Element head) × (head.size ≡ None)) }
{
    match kind {
        Kind::Element(head) => {
            if head.id != TRACKS {
                return None;
            }
            head.size
        }
        _ => None,
    }
}

/// The tracks that it describes.
pub(crate) fn tracks_found<'a>(
    alloc: Global,
    found: &'a FoundTracks,
) -> Result<FileTracks<'a>, AllocError>
    ensures tracks { IfOk result (λ file. AreTracksBy (found_in found.now) file.named.tracks.items) }
    ensures facts { IfOk result HasFacts }
{
    match found.place {
        Some(_) => tracks_in(alloc, &found.content),
        None => FileTracks::new(alloc, &[]),
    }
}
