//! The tracks that blocks can name, by number.
ghost use Rattle.std.specs.Prelude.{ℕ, ◌≡◌, ◌==◌, IfOk, position};
ghost use Rattle.std.specs.Ordering.{nat_cmp};
ghost use Rattle.std.specs.BTreeMap.{get};

use crate::track::Track;
use std::alloc::{AllocError, Global};
use std::collections::BTreeMap;

/// The tracks of a file that blocks can name, in the order of its Tracks: those whose number is not 0, and of each number the first.
#[derive(Drop)]
pub struct NamedTracks<'a> {
    pub tracks: Vec<Track<'a>>,
    places: BTreeMap<u64, usize>,
    ghost indexed: { (number : ℕ) → get nat_cmp places number ≡ position (λ track. track.number == number) tracks.items },
}

impl<'a> NamedTracks<'a> {
    ghost use Rattle.matroska.specs.NamedTracks.{named_tracks};

    /// Those among the tracks that a file's Tracks describe. It fails only if an allocation fails. The time that it takes grows with the
    /// number of tracks and its logarithm.
    pub fn new(alloc: Global, tracks: &[Track<'a>]) -> Result<NamedTracks<'a>, AllocError>
        ensures { IfOk result (λ named. named.tracks.items ≡ named_tracks tracks.now) }
    {
        let mut named = Vec::new(alloc);
        let mut places = BTreeMap::new(alloc);
        for track in tracks {
            if track.number != 0 && !places.contains_key(&track.number) {
                places.insert(track.number, named.len())?;
                named.push(*track)?;
            }
        }
        Ok(NamedTracks {
            tracks: named,
            places,
        })
    }

    /// All of them.
    pub fn as_slice(&self) -> &[Track<'a>]
        ensures { result.now ≡ self.now.tracks.items }
    {
        &self.tracks
    }

    /// Which of them has this number, counted from 0. `None` where none has it.
    pub fn place_of(&self, number: u64) -> Option<usize>
        ensures { result ≡ position (λ track. track.number == number) self.now.tracks.items }
    {
        self.places.get(&number).copied()
    }
}
