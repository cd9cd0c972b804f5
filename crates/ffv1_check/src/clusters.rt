//! Clusters that are read from a source, one child at a time.
ghost use Rattle.std.specs.Prelude.{ℕ, ◌≡◌, ◌+◌, ◌<◌, ◌^◌, ◌++◌, List, [], ◌∷◌, length};
ghost use Rattle.std.specs.List.{AllByRecursion};
ghost use Rattle.ebml.specs.Head.{HasHead};
ghost use Rattle.ebml.specs.Children.{IsElement};
ghost use Rattle.ebml.specs.Masters.{cluster_id};
ghost use Rattle.ebml_reader.specs.Intake.{IsBounded};
ghost use Rattle.ebml_reader.specs.Pieces.{IsWithinLeft};
ghost use Rattle.matroska_parts.specs.declared.parts.Part.{Part};
ghost use Rattle.matroska_parts.specs.declared.top_elements.TopElement.{TopElement};
ghost use Rattle.matroska_parts.specs.Named.{IsBelow};
ghost use Rattle.matroska_parts.specs.Openings.{opening_of, passes};
ghost use Rattle.matroska_parts.specs.StreamedParts.{IsPlacedAt};
ghost use Rattle.ffv1_check.specs.Inner.Stands.{ReporterStands};
ghost use Rattle.matroska_parts.specs.Inner.Vouched.{vouched_if};
ghost use Rattle.ffv1_check.specs.Inner.Vouched.{WaitsFor};
ghost use Rattle.ffv1_check.specs.Inner.TakenParts.{TakesParts, TakesChild, size_left, TakesChildren, PassesAfterIn, EndsCluster, TakesCluster};

use crate::report::Reporter;
use crate::waiting::Waiting;
use ebml::{CLUSTER_IDS, Head};
use ebml_reader::{Intake, ReaderFault, RunningCrc32, held_child, pass_summed};
use ffv1_devices::Source;
use matroska_parts::{
    Closing, Crc32, Part, PlacedTracks, TopElement, crc32_by, opening_of, push_span,
};
use std::alloc::Global;

/// Takes parts of a file. It fails only if an allocation fails, or so many parts can't be counted.
pub(crate) fn take_parts(reporter: &mut Reporter, parts: &[Part]) -> Result<(), ReaderFault>
    requires { (tracks : ℕ) × (before : List Part) × ReporterStands tracks before reporter.old × AllByRecursion (IsBelow tracks) parts.now }
    ensures { TakesParts parts.now result reporter.old reporter.new }
{
    if !reporter.has_room(parts.len()) {
        return Err(ReaderFault::Memory);
    }
    reporter.take(parts)?;
    Ok(())
}

/// Takes a Cluster whose head was passed and begins at this place, and says how many bytes follow that. One child is held at a time; what follows the
/// children up to the end of the Cluster passes in pieces.
pub(crate) fn take_cluster<S: Source>(
    alloc: Global,
    tracks: &PlacedTracks<'_>,
    place: u64,
    head: &Head,
    intake: &mut Intake,
    source: &mut S,
    reporter: &mut Reporter,
) -> Result<u64, ReaderFault>
    requires cluster { head.now.id ≡ cluster_id }
    requires has { (start : List ℕ) × HasHead start head.now }
    requires bounded { IsBounded intake.old }
    requires placed { IsPlacedAt (place + head.now.length) intake.old }
    requires stands { (before : List Part) × ReporterStands (length tracks.now.tracks) before reporter.old }
    ensures { (start : List ℕ) → HasHead start head.now → length start ≡ head.now.length
        → TakesCluster tracks.now place head.now start result reporter.old reporter.new intake.old intake.new (S.log source.old) (S.log source.new) }
{
    let from = place + head.length as u64;
    begin_cluster(place, head, reporter)?;
    let mut waiting = Waiting::new(alloc, reporter.checked());
    let mut crc = RunningCrc32::new();
    let children = take_children(
        alloc,
        tracks,
        from,
        head.size,
        &mut crc,
        intake,
        source,
        reporter,
        &mut waiting,
    )?;
    let rest = pass_after(head.size, children, &mut crc, intake, source)?;
    end_cluster(
        alloc, tracks, place, head, children, rest, &crc, &waiting, reporter,
    )?;
    Ok(children + rest)
}

/// Takes the beginning of a Cluster.
fn begin_cluster(place: u64, head: &Head, reporter: &mut Reporter) -> Result<(), ReaderFault>
    requires place { place < 2 ^ 63 }
    requires has { (start : List ℕ) × HasHead start head.now }
    requires stands { (tracks : ℕ) × (before : List Part) × ReporterStands tracks before reporter.old }
    ensures { TakesParts (Part.Begin (opening_of place TopElement.Cluster head.now) ∷ []) result reporter.old reporter.new }
{
    let opening = opening_of(place, TopElement::Cluster, head);
    take_parts(reporter, &[Part::Begin(opening)])
}

/// Takes the children of a Cluster, which begin at this place: of this size, if it is known. Says how many bytes they have.
fn take_children<S: Source>(
    alloc: Global,
    tracks: &PlacedTracks<'_>,
    place: u64,
    size: Option<u64>,
    crc: &mut RunningCrc32,
    intake: &mut Intake,
    source: &mut S,
    reporter: &mut Reporter,
    waiting: &mut Waiting,
) -> Result<u64, ReaderFault>
    requires bounded { IsBounded intake.old }
    requires placed { IsPlacedAt place intake.old }
    requires stands { (before : List Part) × ReporterStands (length tracks.now.tracks) before reporter.old × WaitsFor (length tracks.now.tracks) before [] waiting.old }
    ensures { TakesChildren tracks.now.tracks place size result crc.old crc.new reporter.old reporter.new waiting.old waiting.new intake.old intake.new (S.log source.old) (S.log source.new) }
{
    let mut passed: u64 = 0;
    while let Some(child) = held_child(&CLUSTER_IDS, left_of(size, passed), intake, source)? {
        let bytes = &intake.bytes()[..child.length];
        let from = place + passed;
        take_child(alloc, tracks, from, bytes, &child.head, reporter, waiting)?;
        crc.push(bytes);
        intake.pass(child.length);
        passed += child.length as u64;
    }
    Ok(passed)
}

/// How many bytes are left of a content of this size.
fn left_of(size: Option<u64>, passed: u64) -> Option<u64>
    requires { IsWithinLeft passed size }
    ensures { result ≡ size_left size passed }
{
    match size {
        Some(size) => Some(size - passed),
        None => None,
    }
}

/// Takes a child of a Cluster.
fn take_child(
    alloc: Global,
    tracks: &PlacedTracks<'_>,
    place: u64,
    bytes: &[u8],
    head: &Head,
    reporter: &mut Reporter,
    waiting: &mut Waiting,
) -> Result<(), ReaderFault>
    requires element { IsElement head.now bytes.now }
    requires room { place + length bytes.now < 2 ^ 64 }
    requires stands { (before : List Part) × ReporterStands (length tracks.now.tracks) before reporter.old }
    ensures { TakesChild tracks.now.tracks place bytes.now result reporter.old reporter.new waiting.old waiting.new }
{
    let mut parts = Vec::new(alloc);
    tracks.push_child(alloc, place, bytes, head, &mut parts)?;
    let parts = parts.as_slice();
    take_parts(reporter, parts)?;
    waiting.take(parts)?;
    Ok(())
}

/// Passes what follows the children of a Cluster of this size, and says how many bytes that are; nothing if its size is unknown.
fn pass_after<S: Source>(
    size: Option<u64>,
    children: u64,
    crc: &mut RunningCrc32,
    intake: &mut Intake,
    source: &mut S,
) -> Result<u64, ReaderFault>
    requires { IsWithinLeft children size }
    ensures { PassesAfterIn size children result crc.old crc.new intake.old intake.new (S.log source.old) (S.log source.new) }
{
    match size {
        Some(size) => pass_summed(size - children, crc, intake, source),
        None => Ok(0),
    }
}

/// Takes the end of a Cluster, after its children: so many bytes they have, and so many follow them.
fn end_cluster(
    alloc: Global,
    tracks: &PlacedTracks<'_>,
    place: u64,
    head: &Head,
    children: u64,
    rest: u64,
    crc: &RunningCrc32,
    waiting: &Waiting,
    reporter: &mut Reporter,
) -> Result<(), ReaderFault>
    requires room { place + head.now.length + children + rest < 2 ^ 63 }
    requires stands { (before : List Part) × (own : List Part) × ReporterStands (length tracks.now.tracks) (before ++ own) reporter.old
        × WaitsFor (length tracks.now.tracks) before own waiting.now }
    ensures { EndsCluster tracks.now place head.now children rest crc.now waiting.now result reporter.old reporter.new }
{
    if !reporter.has_room(0) {
        return Err(ReaderFault::Memory);
    }
    let length = children + rest;
    let crc32 = crc32_by(head, length, crc);
    vouch_if(crc32, waiting, reporter);
    let head_length = head.length as u64;
    let from = place + head_length;
    let mut parts = Vec::new(alloc);
    push_span(&mut parts, from + children, rest)?;
    let closing = Closing {
        place,
        element: TopElement::Cluster,
        size: head_length + length,
        content: length,
        crc32,
    };
    tracks.push_end(from, &closing, &mut parts)?;
    take_parts(reporter, &parts)
}

/// Counts the blocks of a Cluster as they are, if its CRC-32 passes.
fn vouch_if(crc32: Crc32, waiting: &Waiting, reporter: &mut Reporter)
    requires room { reporter.old.taken < 2 ^ 63 }
    requires stands { (tracks : ℕ) × (before : List Part) × (own : List Part) × ReporterStands tracks (before ++ own) reporter.old × WaitsFor tracks before own waiting.now }
    ensures { (tracks : ℕ) (before own : List Part) → ReporterStands tracks (before ++ own) reporter.old → WaitsFor tracks before own waiting.now
        → ReporterStands tracks (before ++ vouched_if (passes crc32) own) reporter.new }
{
    if let Crc32::Passes = crc32 {
        reporter.vouch(waiting);
    }
}
