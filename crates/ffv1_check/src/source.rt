//! A file that is read from a source, judged.
ghost use Rattle.std.specs.Prelude.{ℕ, ◌≡◌, ◌+◌, ◌≤◌, List, [], ◌∷◌, length};
ghost use Rattle.ebml.specs.declared.items.Kind.TheVariants as kind;
ghost use Rattle.ebml_reader.specs.Intake.{IsBounded};
ghost use Rattle.ebml_reader.specs.Starts.{IsStartOf};
ghost use Rattle.matroska_parts.specs.declared.parts.Part.{Part};
ghost use Rattle.matroska_parts.specs.StreamedParts.{IsPlacedAt};
ghost use Rattle.ffv1_check.specs.SourceChecks.{ChecksSource};
ghost use Rattle.ffv1_check.specs.Inner.Stands.{ReporterStands};
ghost use Rattle.ffv1_check.specs.Inner.AllReported.{ReportsAll};
ghost use Rattle.ffv1_check.specs.Inner.TakenParts.{TakesItem};

use crate::clusters::{take_cluster, take_parts};
use crate::report::{Report, Reporter};
use ebml::{Head, Kind};
use ebml_reader::{Intake, ItemStart, ReaderFault, pass_start};
use ffv1_devices::Source;
use matroska_parts::{FoundTracks, Part, PlacedTracks, Span, TopElement, opening_of};
use std::alloc::Global;

const CLUSTER: u32 = 0x1F43B675;

/// Judges a Matroska file that is read from a source, whatever its bytes are, by the first Tracks that was found when it was read before. The
/// report is that of `check_file`, if both times the bytes were the same. One child of a Cluster is held at a time, an EBML, and one piece; and what is found.
///
/// Returns `Read` if the source failed, or gave 2^62 bytes, and `Memory` if an allocation fails, or its items have 2^62 parts. Then there is no report.
pub fn check_source<'a, S: Source>(
    alloc: Global,
    found: &'a FoundTracks,
    source: &mut S,
) -> Result<Report<'a>, ReaderFault>
    ensures { ChecksSource found.now result (S.log source.old) (S.log source.new) }
{
    let tracks = PlacedTracks::new(alloc, found)?;
    let mut reporter = Reporter::new(alloc, tracks.as_slice().len())?;
    let size = take_items(alloc, &tracks, source, &mut reporter)?;
    let report = reporter.report(alloc, tracks.as_slice(), size)?;
    Ok(report)
}

/// Takes the parts of all items of a file, and says how many bytes it has.
fn take_items<S: Source>(
    alloc: Global,
    tracks: &PlacedTracks<'_>,
    source: &mut S,
    reporter: &mut Reporter,
) -> Result<u64, ReaderFault>
    requires { ReporterStands (length tracks.now.tracks) [] reporter.old }
    ensures { ReportsAll tracks.now result reporter.new (S.log source.old) (S.log source.new) }
{
    let mut intake = Intake::new(alloc);
    let mut place: u64 = 0;
    while let Some(start) = pass_start(&mut intake, source)? {
        let rest = take_item(alloc, tracks, place, &start, &mut intake, source, reporter)?;
        place += start.length + rest;
    }
    Ok(place)
}

/// Takes an item whose start was passed and lies at this place, and says how many bytes follow that.
fn take_item<S: Source>(
    alloc: Global,
    tracks: &PlacedTracks<'_>,
    place: u64,
    start: &ItemStart,
    intake: &mut Intake,
    source: &mut S,
    reporter: &mut Reporter,
) -> Result<u64, ReaderFault>
    requires start { (bytes : List ℕ) × IsStartOf start.now.kind bytes intake.old × (start.now.length ≡ length bytes) }
    requires bounded { IsBounded intake.old }
    requires placed { IsPlacedAt (place + start.now.length) intake.old }
    requires stands { (before : List Part) × ReporterStands (length tracks.now.tracks) before reporter.old }
    ensures { (bytes : List ℕ) → IsStartOf start.now.kind bytes intake.old → start.now.length ≡ length bytes
        → TakesItem tracks.now place start.now.kind bytes result reporter.old reporter.new intake.old intake.new (S.log source.old) (S.log source.new) }
{
    match &start.kind {
        Kind::Segment(head) => {
            let opening = opening_of(place, TopElement::Segment, head);
            take_parts(reporter, &[Part::Begin(opening)])?;
            Ok(0)
        }
        Kind::Element(head) => take_element(alloc, tracks, place, head, intake, source, reporter),
        Kind::Endless(head) => take_cluster(alloc, tracks, place, head, intake, source, reporter),
        Kind::Unknown => {
            let size = start.length;
            take_parts(reporter, &[Part::Unknown(Span { place, size })])?;
            Ok(0)
        }
    }
}

/// Takes an element of known size whose head was passed and begins at this place, and says how many bytes follow that.
fn take_element<S: Source>(
    alloc: Global,
    tracks: &PlacedTracks<'_>,
    place: u64,
    head: &Head,
    intake: &mut Intake,
    source: &mut S,
    reporter: &mut Reporter,
) -> Result<u64, ReaderFault>
    requires start { (bytes : List ℕ) × IsStartOf (kind.Element head.now) bytes intake.old }
    requires bounded { IsBounded intake.old }
    requires placed { IsPlacedAt (place + head.now.length) intake.old }
    requires stands { (before : List Part) × ReporterStands (length tracks.now.tracks) before reporter.old }
    ensures { (bytes : List ℕ) → IsStartOf (kind.Element head.now) bytes intake.old
        → TakesItem tracks.now place (kind.Element head.now) bytes result reporter.old reporter.new intake.old intake.new (S.log source.old) (S.log source.new) }
{
    if head.id == CLUSTER {
        return take_cluster(alloc, tracks, place, head, intake, source, reporter);
    }
    let mut parts = Vec::new(alloc);
    let rest = tracks.pass_element(alloc, place, head, intake, source, &mut parts)?;
    take_parts(reporter, &parts)?;
    Ok(rest)
}
