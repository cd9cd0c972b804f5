//! A check, part by part.
ghost use Rattle.std.specs.Prelude.{ℕ, ◌≡◌, ◌<◌, ◌+◌, ◌^◌, List, [], ◌∷◌, ◌++◌, length, vec_len, IfOk};
ghost use Rattle.matroska_parts.specs.declared.parts.Part.{Part};
ghost use Rattle.matroska_parts.specs.declared.parts.BlockPart.{BlockPart};
ghost use Rattle.matroska_parts.specs.declared.parts.Standing.TheVariants.{Named};
ghost use Rattle.ffv1_check.specs.Before.{timestamp_after};
ghost use Rattle.ffv1_check.specs.PartFindings.{standing_findings, part_findings};
ghost use Rattle.ffv1_check.specs.Inner.Stands.{found_list, EachStands, ProgressStands, EachCanCountMore};
ghost use Rattle.matroska_parts.specs.Named.{IsNamedBelow, IsBelow};

use crate::checked_bytes::part_bytes;
use crate::findings::Finding;
use crate::tops::{Found, Tops};
use crate::track_states::TrackState;
use matroska_parts::{BlockPart, Part, Standing, TrackBlock};
use std::alloc::{AllocError, Global};

/// What a check knows after some parts of a file.
#[derive(Drop)]
pub(crate) struct Progress {
    pub(crate) tops: Tops,
    pub(crate) tracks: Vec<TrackState>,
    /// How many bytes are checked. The sum of so many sizes of files fits.
    pub(crate) checked: u128,
}

impl Progress {
    /// Before the first part of a file that describes so many tracks.
    pub(crate) fn new(alloc: Global, tracks: usize) -> Result<Progress, AllocError>
        ensures stands { IfOk result (λ progress. ProgressStands [] progress) }
        ensures tracks { IfOk result (λ progress. vec_len progress.tracks ≡ tracks) }
        ensures checked { IfOk result (λ progress. progress.checked ≡ 0) }
    {
        Ok(Progress {
            tops: Tops::new(),
            tracks: vec![in alloc; TrackState::new(); tracks]?,
            checked: 0,
        })
    }

    /// What is wrong with the next part.
    pub(crate) fn found_at(&self, part: &Part) -> Found
        requires below { IsBelow (vec_len self.now.tracks) part.now }
        requires room { EachCanCountMore self.now.tracks.items }
        ensures { (parts : List Part) → ProgressStands parts self.now → found_list result ≡ part_findings parts part.now }
    {
        match part {
            Part::Unknown(span) => one(Finding::Unknown(span.size)),
            Part::Begin(opening) => self.tops.at_head(opening),
            Part::Timestamp(_) => nothing(),
            Part::Block(block) => self.found_at_block(block),
            Part::Record(record) => {
                if record.is_wrong {
                    return one(Finding::Record(record.track));
                }
                nothing()
            }
            Part::NoMatroska(_) => one(Finding::NoMatroska),
            Part::End(closing) => Found {
                first: self.tops.at_end(closing),
                second: None,
            },
        }
    }

    /// What is wrong with a block.
    fn found_at_block(&self, block: &BlockPart) -> Found
        requires below { IsNamedBelow (vec_len self.now.tracks) block.now.standing }
        requires room { EachCanCountMore self.now.tracks.items }
        ensures { (parts : List Part) → ProgressStands parts self.now → found_list result ≡ standing_findings parts block.now.size block.now.standing }
    {
        match &block.standing {
            Standing::Short => one(Finding::Block(block.size)),
            Standing::Unnamed(track) => one(Finding::Track(*track)),
            Standing::Named(named) => self.tracks[named.index].at_block(self.tops.timestamp, named),
        }
    }

    /// Goes on after one part.
    pub(crate) fn pass(&mut self, part: &Part)
        requires below { IsBelow (vec_len self.old.tracks) part.now }
        requires room { EachCanCountMore self.old.tracks.items }
        requires bytes { self.old.checked < 2 ^ 127 }
        ensures most { self.new.checked < self.old.checked + 2 ^ 64 }
        ensures tracks { vec_len self.new.tracks ≡ vec_len self.old.tracks }
        ensures stands { (parts : List Part) → ProgressStands parts self.old → ProgressStands (parts ++ part.now ∷ []) self.new }
    {
        pass_part(&mut self.tracks, self.tops.timestamp, part);
        self.tops = self.tops.after(part);
        self.checked += u128::from(part_bytes(part));
    }
}

/// Counts a part among the blocks of its track.
fn pass_part(tracks: &mut [TrackState], timestamp: Option<u64>, part: &Part)
    requires below { IsBelow (length tracks.old) part.now }
    requires room { EachCanCountMore tracks.old }
    ensures { (parts : List Part) → EachStands parts tracks.old → timestamp ≡ timestamp_after parts → EachStands (parts ++ part.now ∷ []) tracks.new }
{
    if let Part::Block(block) = part {
        pass_block(tracks, timestamp, block);
    }
}

/// Counts a block.
fn pass_block(tracks: &mut [TrackState], timestamp: Option<u64>, block: &BlockPart)
    requires below { IsNamedBelow (length tracks.old) block.now.standing }
    requires room { EachCanCountMore tracks.old }
    ensures { (parts : List Part) → EachStands parts tracks.old → timestamp ≡ timestamp_after parts
        → EachStands (parts ++ Part.Block block.now ∷ []) tracks.new }
{
    if let Standing::Named(named) = &block.standing {
        pass_named(tracks, timestamp, named);
    }
}

/// Counts a block of a track that the file describes.
fn pass_named(tracks: &mut [TrackState], timestamp: Option<u64>, named: &TrackBlock)
    requires below { named.now.index < length tracks.old }
    requires room { EachCanCountMore tracks.old }
    ensures { (parts : List Part) (block : BlockPart) → EachStands parts tracks.old → timestamp ≡ timestamp_after parts → block.standing ≡ Named named.now
        → EachStands (parts ++ Part.Block block ∷ []) tracks.new }
{
    let state = tracks[named.index].after(timestamp, named);
    tracks[named.index] = state;
}

/// One thing.
fn one(finding: Finding) -> Found
    ensures { found_list result ≡ finding ∷ [] }
{
    Found {
        first: Some(finding),
        second: None,
    }
}

/// Nothing.
fn nothing() -> Found
    ensures { found_list result ≡ [] }
{
    Found {
        first: None,
        second: None,
    }
}
