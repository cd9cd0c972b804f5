//! What a check reports of a whole file.
ghost use Rattle.std.specs.Prelude.{ℕ, ◌≡◌, ◌↔◌, ◌+◌, ◌^◌, ◌<◌, List, [], ◌++◌, IsTrue, Some, IfOk, OnOk, length, map, get_or, slice_get, option_to_list};
ghost use Rattle.std.specs.List.{AllByRecursion};
ghost use Rattle.matroska.specs.declared.track.Track.{Track};
ghost use Rattle.ffv1_check.specs.PartFindings.{lines_at, place_of};
ghost use Rattle.ffv1_check.specs.Reports.{segment_findings, no_track_findings, IsReportOf, is_video};
ghost use Rattle.ffv1_check.specs.Inner.Stands.{found_list, no_state, counted_in, AreCounted, IsChecked, ReporterStands};
ghost use Rattle.matroska_parts.specs.Inner.Vouched.{vouched};
ghost use Rattle.ffv1_check.specs.Inner.Vouched.{WaitsFor};
ghost use Rattle.ffv1_check.specs.Inner.Counted.{times_in, AreVouched};
ghost use Rattle.matroska_parts.specs.declared.parts.Part.{Part};
ghost use Rattle.matroska_parts.specs.Named.{IsBelow};

use crate::findings::{Finding, Line};
use crate::progress::Progress;
use crate::tops::Found;
use crate::track_states::TrackState;
use crate::waiting::Waiting;
use matroska::Track;
use matroska_parts::{Opening, Part};
use std::alloc::{AllocError, Global};

/// So many parts are not taken.
const MOST_PARTS: u64 = 1 << 62;

/// The TrackType of video.
const VIDEO: u64 = 1;

/// How many blocks of a track a file has, and how many of them are checked: their own checks pass, or they have none and the CRC-32 of their
/// Cluster passes.
#[derive(Clone, Copy, Debug, PartialEq, Eq)]
pub struct TrackCount<'a> {
    /// The track's number.
    pub number: u64,
    /// Its CodecID.
    pub codec: &'a [u8],
    pub blocks: u64,
    pub checked: u64,
}

/// What a check reports of a file.
#[derive(Drop)]
pub struct Report<'a> {
    /// A line for each thing that is wrong, in the order of the file.
    pub lines: Vec<Line>,
    /// A count for each track that blocks can name, in the order of the file's Tracks.
    pub tracks: Vec<TrackCount<'a>>,
    /// How many bytes the file has.
    pub size: u64,
    /// How many of them some check covers that passes.
    pub checked: u128,
    /// Whether there is no line, and each block of a video track is checked.
    pub is_whole: bool,
}

/// What a check has found in the parts of a file so far.
#[derive(Drop)]
pub(crate) struct Reporter {
    progress: Progress,
    lines: Vec<Line>,
    /// How many parts were taken.
    taken: u64,
}

impl Reporter {
    /// Before the first part of a file that describes so many tracks.
    pub(crate) fn new(alloc: Global, tracks: usize) -> Result<Reporter, AllocError>
        ensures { IfOk result (ReporterStands tracks []) }
    {
        Ok(Reporter {
            progress: Progress::new(alloc, tracks)?,
            lines: Vec::new(alloc),
            taken: 0,
        })
    }

    /// Whether so many parts more can be taken: fewer than 2^62 can in all.
    pub(crate) fn has_room(&self, count: usize) -> bool
        ensures { IsTrue result ↔ self.now.taken + count < 2 ^ 62 }
    {
        self.taken < MOST_PARTS && (count as u64) < MOST_PARTS - self.taken
    }

    /// Takes the next parts.
    pub(crate) fn take(&mut self, parts: &[Part]) -> Result<(), AllocError>
        requires stands { (tracks : ℕ) × (before : List Part) × ReporterStands tracks before self.old × AllByRecursion (IsBelow tracks) parts.now }
        requires room { self.old.taken + length parts.now < 2 ^ 63 }
        ensures { (tracks : ℕ) (before : List Part) → ReporterStands tracks before self.old → OnOk result (ReporterStands tracks (before ++ parts.now) self.new) }
    {
        for part in parts {
            let found = self.progress.found_at(part);
            push_found(&mut self.lines, place_of(part), &found)?;
            self.progress.pass(part);
        }
        self.taken += parts.len() as u64;
        Ok(())
    }

    /// How many bytes are checked so far.
    pub(crate) fn checked(&self) -> u128
        ensures { result ≡ self.now.progress.checked }
    {
        self.progress.checked
    }

    /// Counts the last parts, which are in a Cluster, as they are if its CRC-32 passes.
    pub(crate) fn vouch(&mut self, waiting: &Waiting)
        requires room { self.old.taken < 2 ^ 63 }
        requires stands { (tracks : ℕ) × (before : List Part) × (own : List Part) × ReporterStands tracks (before ++ own) self.old × WaitsFor tracks before own waiting.now }
        ensures { (tracks : ℕ) (before own : List Part) → ReporterStands tracks (before ++ own) self.old → WaitsFor tracks before own waiting.now
            → ReporterStands tracks (before ++ map vouched own) self.new }
    {
        vouch_blocks(&mut self.progress.tracks, &waiting.blocks);
        self.progress.checked = waiting.checked;
    }

    /// The report of a file of this size, whose blocks can name these tracks, after all its parts.
    pub(crate) fn report<'a>(
        self,
        alloc: Global,
        tracks: &[Track<'a>],
        size: u64,
    ) -> Result<Report<'a>, AllocError>
        requires { (parts : List Part) × ReporterStands (length tracks.now) parts self }
        ensures { (parts : List Part) → ReporterStands (length tracks.now) parts self → IfOk result (IsReportOf tracks.now size parts) }
    {
        let Reporter {
            progress,
            mut lines,
            taken: _,
        } = self;
        let found = found_at_end(size, &progress.tops.segment, tracks.len());
        push_found(&mut lines, size, &found)?;
        let counts = counts_of(alloc, tracks, &progress.tracks)?;
        let is_whole = is_whole(&lines, tracks, &counts);
        Ok(Report {
            lines,
            tracks: counts,
            size,
            checked: progress.checked,
            is_whole,
        })
    }
}

/// Counts a block more as checked for each that is of a track.
fn vouch_blocks(tracks: &mut [TrackState], blocks: &[usize])
    requires below { AllByRecursion (λ index. index < length tracks.old) blocks.now }
    requires room { (index : ℕ) → index < length tracks.old → (get_or tracks.old index no_state).checked + times_in index blocks.now < 2 ^ 64 }
    ensures { AreVouched blocks.now tracks.old tracks.new }
{
    for block in blocks {
        let state = tracks[*block].vouched();
        tracks[*block] = state;
    }
}

/// The report of a file of this size, whose blocks can name these tracks, by its parts.
pub(crate) fn report_of<'a>(
    alloc: Global,
    tracks: &[Track<'a>],
    size: u64,
    parts: &[Part],
) -> Result<Report<'a>, AllocError>
    requires { AllByRecursion (IsBelow (length tracks.now)) parts.now }
    ensures { IfOk result (IsReportOf tracks.now size parts.now) }
{
    let mut reporter = Reporter::new(alloc, tracks.len())?;
    reporter.take(parts)?;
    reporter.report(alloc, tracks, size)
}

/// What is wrong at the end of a file of this size.
fn found_at_end(size: u64, segment: &Option<Opening>, tracks: usize) -> Found
    ensures { found_list result ≡ segment_findings size segment.now ++ no_track_findings tracks }
{
    let second = if tracks == 0 {
        Some(Finding::NoTracks)
    } else {
        None
    };
    Found {
        first: segment_finding(size, segment),
        second,
    }
}

/// What is wrong with the Segment of a file of this size.
fn segment_finding(size: u64, segment: &Option<Opening>) -> Option<Finding>
    ensures { option_to_list result ≡ segment_findings size segment.now }
{
    let Some(opening) = segment else {
        return Some(Finding::NoSegment);
    };
    let Some(end) = opening.end else {
        return None;
    };
    if end == size {
        return None;
    }
    Some(Finding::End(end))
}

/// Where a part begins.
fn place_of(part: &Part) -> u64
    ensures { result ≡ place_of part.now }
{
    match part {
        Part::Unknown(span) => span.place,
        Part::Begin(opening) => opening.place,
        Part::Timestamp(_) => 0,
        Part::Block(block) => block.place,
        Part::Record(record) => record.place,
        Part::NoMatroska(place) => *place,
        Part::End(closing) => closing.place,
    }
}

/// Adds a line for each thing that is wrong at a place.
fn push_found(lines: &mut Vec<Line>, place: u64, found: &Found) -> Result<(), AllocError>
    ensures { OnOk result (lines.new.items ≡ lines.old.items ++ lines_at place (found_list found.now)) }
{
    push_finding(lines, place, &found.first)?;
    push_finding(lines, place, &found.second)
}

/// Adds a line, if there is one.
fn push_finding(
    lines: &mut Vec<Line>,
    place: u64,
    finding: &Option<Finding>,
) -> Result<(), AllocError>
    ensures { OnOk result (lines.new.items ≡ lines.old.items ++ lines_at place (option_to_list finding.now)) }
{
    if let Some(finding) = finding {
        lines.push(Line {
            place,
            finding: *finding,
        })?;
    }
    Ok(())
}

/// The counts of all tracks.
fn counts_of<'a>(
    alloc: Global,
    tracks: &[Track<'a>],
    states: &[TrackState],
) -> Result<Vec<TrackCount<'a>>, AllocError>
    requires { length states.now ≡ length tracks.now }
    ensures { IfOk result (λ counts. AreCounted tracks.now states.now counts.items) }
{
    let mut counts = Vec::new(alloc);
    for (index, track) in tracks.iter().enumerate() {
        counts.push(count_of(track, &states[index]))?;
    }
    Ok(counts)
}

/// The counts of one.
fn count_of<'a>(track: &Track<'a>, state: &TrackState) -> TrackCount<'a>
    ensures { result ≡ counted_in track.now state.now }
{
    TrackCount {
        number: track.number,
        codec: track.codec,
        blocks: state.blocks,
        checked: state.checked,
    }
}

/// Whether there is no line, and all blocks of each video track are checked.
fn is_whole(lines: &[Line], tracks: &[Track<'_>], counts: &[TrackCount<'_>]) -> bool
    requires { length counts.now ≡ length tracks.now }
    ensures { IsTrue result ↔ (lines.now ≡ []) × ((index : ℕ) (track : Track) → slice_get tracks.now index ≡ Some track
        → IsChecked track (slice_get counts.now index)) }
{
    lines.is_empty() && are_checked(tracks, counts)
}

/// Whether all blocks of each video track are checked.
fn are_checked(tracks: &[Track<'_>], counts: &[TrackCount<'_>]) -> bool
    requires { length counts.now ≡ length tracks.now }
    ensures { IsTrue result ↔ ((index : ℕ) (track : Track) → slice_get tracks.now index ≡ Some track → IsChecked track (slice_get counts.now index)) }
{
    for (index, track) in tracks.iter().enumerate() {
        if !is_checked(track, &counts[index]) {
            return false;
        }
    }
    true
}

/// Whether all blocks of a track are checked, or it is no video track.
fn is_checked(track: &Track<'_>, count: &TrackCount<'_>) -> bool
    ensures { IsTrue result ↔ IsChecked track.now (Some count.now) }
{
    track.kind != VIDEO || count.checked == count.blocks
}
