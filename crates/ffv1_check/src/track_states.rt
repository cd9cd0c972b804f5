//! What a check knows of the blocks of one track after some parts of a file.
ghost use Rattle.std.specs.Prelude.{◌≡◌, ◌+◌, ◌<◌, if◌then◌else◌, ◌^◌, ◌+ℤ◌, pos, ℕ, List, [], ◌∷◌, ◌++◌, option_map, option_to_list};
ghost use Rattle.matroska_parts.specs.declared.parts.Part.{Part};
ghost use Rattle.matroska_parts.specs.declared.parts.BlockPart.{BlockPart};
ghost use Rattle.matroska_parts.specs.declared.parts.Standing.TheVariants.{Named};
ghost use Rattle.ffv1_check.specs.Before.{first_of, timestamp_after};
ghost use Rattle.ffv1_check.specs.PartFindings.{is_rising, payload_findings, standing_findings};
ghost use Rattle.ffv1_check.specs.Reports.{is_checked};
ghost use Rattle.ffv1_check.specs.Inner.Stands.{found_list, TrackStands};
ghost use Rattle.ffv1_check.specs.Inner.Counted.{checked_more};

use crate::findings::Finding;
use crate::tops::Found;
use matroska_parts::{Payload, TrackBlock};

/// What is known of the blocks of a track.
#[derive(Clone, Copy, Debug)]
pub(crate) struct TrackState {
    /// How many there are.
    pub(crate) blocks: u64,
    /// How many of them are checked.
    pub(crate) checked: u64,
    /// The last time that one had.
    pub(crate) last: Option<i128>,
}

impl TrackState {
    /// Before the first part.
    pub(crate) fn new() -> TrackState
        ensures { (index : ℕ) → TrackStands [] index result }
    {
        TrackState {
            blocks: 0,
            checked: 0,
            last: None,
        }
    }

    /// After one block more, which stands after this Timestamp.
    pub(crate) fn after(&self, timestamp: Option<u64>, block: &TrackBlock) -> TrackState
        requires blocks { self.now.blocks < 2 ^ 63 }
        requires checked { self.now.checked < 2 ^ 63 }
        ensures { (parts : List Part) (block_part : BlockPart) → TrackStands parts block.now.index self.now → timestamp ≡ timestamp_after parts
            → block_part.standing ≡ Named block.now → TrackStands (parts ++ Part.Block block_part ∷ []) block.now.index result }
    {
        TrackState {
            blocks: self.blocks + 1,
            checked: self.checked_with(block),
            last: self.last_with(timestamp, block),
        }
    }

    /// With one block more of those that it has checked.
    pub(crate) fn vouched(&self) -> TrackState
        requires { self.now.checked + 1 < 2 ^ 64 }
        ensures { result ≡ checked_more self.now 1 }
    {
        TrackState {
            checked: self.checked + 1,
            ..*self
        }
    }

    /// How many blocks are checked, with this one.
    fn checked_with(&self, block: &TrackBlock) -> u64
        requires { self.now.checked < 2 ^ 63 }
        ensures { result ≡ self.now.checked + (if is_checked block.now.is_vouched block.now.payload then 1 else 0) }
    {
        if is_checked(block.is_vouched, &block.payload) {
            return self.checked + 1;
        }
        self.checked
    }

    /// The last time, after a block that stands after this Timestamp.
    fn last_with(&self, timestamp: Option<u64>, block: &TrackBlock) -> Option<i128>
        ensures { result ≡ first_of (option_map (λ found. pos found +ℤ block.now.time) timestamp) self.now.last }
    {
        match time_after(timestamp, block.time) {
            Some(time) => Some(time),
            None => self.last,
        }
    }

    /// What is wrong with a block that stands after this Timestamp.
    pub(crate) fn at_block(&self, timestamp: Option<u64>, block: &TrackBlock) -> Found
        requires { self.now.blocks < 2 ^ 63 }
        ensures { (parts : List Part) → TrackStands parts block.now.index self.now → timestamp ≡ timestamp_after parts
            → found_list result ≡ standing_findings parts 0 (Named block.now) }
    {
        let time = time_after(timestamp, block.time);
        let first = if block.is_ffv1 && !is_rising(self.last, time) {
            Some(Finding::Time(block.track))
        } else {
            None
        };
        let second = at_payload(self.blocks + 1, block.track, &block.payload);
        Found { first, second }
    }
}

/// The time of a block, by the Timestamp of its Cluster.
fn time_after(timestamp: Option<u64>, time: i16) -> Option<i128>
    ensures { result ≡ option_map (λ found. pos found +ℤ time) timestamp }
{
    match timestamp {
        Some(timestamp) => Some(i128::from(timestamp) + i128::from(time)),
        None => None,
    }
}

/// Whether a time is after the last one, if there was one.
fn is_rising(last: Option<i128>, time: Option<i128>) -> bool
    ensures { result ≡ is_rising last time }
{
    let Some(time) = time else {
        return false;
    };
    match last {
        Some(last) => last < time,
        None => true,
    }
}

/// Whether a payload is checked, by itself or by its Cluster.
fn is_checked(is_vouched: bool, payload: &Payload) -> bool
    ensures { result ≡ is_checked is_vouched payload.now }
{
    match payload {
        Payload::Laced => false,
        Payload::Long => false,
        Payload::Frame(verdict) => verdict.is_undamaged(),
        Payload::Flac(right) => *right,
        Payload::Other => is_vouched,
    }
}

/// What is wrong with the payload of the block of this number of a track.
fn at_payload(number: u64, track: u64, payload: &Payload) -> Option<Finding>
    ensures { option_to_list result ≡ payload_findings number track payload.now }
{
    match payload {
        Payload::Laced => Some(Finding::Laced(track)),
        Payload::Long => Some(Finding::Long(track)),
        Payload::Frame(verdict) => {
            if verdict.is_undamaged() {
                return None;
            }
            Some(Finding::Frame(number, track, *verdict))
        }
        Payload::Flac(right) => {
            if *right {
                return None;
            }
            Some(Finding::Flac(track))
        }
        Payload::Other => None,
    }
}
