//! What is known of each track before its blocks are judged.
ghost use Rattle.std.specs.Prelude.{◌≡◌, ◌↔◌, IsTrue, IfOk};
ghost use Rattle.matroska_parts.specs.Payloads.{IsFfv1};
ghost use Rattle.matroska_parts.specs.Facts.{IsJudging, AreFactsOf, EachHasFacts};

use matroska::{Track, has_parities, is_flac, record_of};
use std::alloc::{AllocError, Global};

/// By what the frames of a track are judged.
#[derive(Clone, Copy, Debug)]
pub(crate) enum Judging {
    /// The parities of their slices.
    Parities,
    /// The two checks of each frame of FLAC.
    Flac,
    /// They have no checks.
    Nothing,
}

/// What is known of a track.
#[derive(Clone, Copy, Debug)]
pub(crate) struct TrackFacts {
    pub(crate) is_ffv1: bool,
    pub(crate) judging: Judging,
}

/// Those of all tracks, in their order.
pub(crate) fn facts_of(alloc: Global, tracks: &[Track<'_>]) -> Result<Vec<TrackFacts>, AllocError>
    ensures { IfOk result (λ facts. EachHasFacts tracks.now facts.items) }
{
    let mut facts = Vec::new(alloc);
    for track in tracks {
        facts.push(track_facts(alloc, track)?)?;
    }
    Ok(facts)
}

/// Those of one.
fn track_facts(alloc: Global, track: &Track<'_>) -> Result<TrackFacts, AllocError>
    ensures { IfOk result (λ facts. AreFactsOf track.now facts) }
{
    Ok(TrackFacts {
        is_ffv1: is_ffv1(track),
        judging: judging_of(alloc, track)?,
    })
}

/// Whether a track is of FFV1.
fn is_ffv1(track: &Track<'_>) -> bool
    ensures { IsTrue result ↔ IsFfv1 track.now }
{
    match record_of(track) {
        Some(_) => true,
        None => false,
    }
}

/// By what the frames of a track are judged.
fn judging_of(alloc: Global, track: &Track<'_>) -> Result<Judging, AllocError>
    ensures { IfOk result (λ judging. IsJudging track.now judging) }
{
    if has_parities(alloc, track)? {
        return Ok(Judging::Parities);
    }
    if is_flac(track) {
        return Ok(Judging::Flac);
    }
    Ok(Judging::Nothing)
}
