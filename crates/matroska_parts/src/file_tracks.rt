//! The tracks that a file describes, and what is known of each.
use crate::facts::{TrackFacts, facts_of};
use matroska::{NamedTracks, Track};
use std::alloc::{AllocError, Global};

/// The tracks of a file that blocks can name, and what is known of each.
#[derive(Drop)]
pub(crate) struct FileTracks<'a> {
    pub(crate) named: NamedTracks<'a>,
    pub(crate) facts: Vec<TrackFacts>,
}

impl<'a> FileTracks<'a> {
    ghost use Rattle.std.specs.Prelude.{◌≡◌, IfOk};
    ghost use Rattle.matroska.specs.NamedTracks.{named_tracks};
    ghost use Rattle.matroska_parts.specs.FileTracks.{HasFacts};

    /// Those among the tracks that a file's Tracks describe.
    pub(crate) fn new(alloc: Global, tracks: &[Track<'a>]) -> Result<FileTracks<'a>, AllocError>
        ensures named { IfOk result (λ file. file.named.tracks.items ≡ named_tracks tracks.now) }
        ensures facts { IfOk result HasFacts }
    {
        let named = NamedTracks::new(alloc, tracks)?;
        let facts = facts_of(alloc, named.as_slice())?;
        Ok(FileTracks { named, facts })
    }
}
