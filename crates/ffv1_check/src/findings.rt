//! What a check finds wrong in a file, and the line that reports it.
ghost use Rattle.std.specs.Prelude.{◌≡◌, ◌++◌, OnOk, string_bytes, codes};
ghost use Rattle.std.specs.Fmt.{decimal};
ghost use Rattle.ffv1_scan.specs.Verdicts.{end_words};
ghost use Rattle.matroska_parts.specs.TopElements.{name_of};
ghost use Rattle.ffv1_check.specs.Findings.{finding_text, line_text};

use ffv1_scan::Verdict;
use ffv1_slice::ChainEnd;
use matroska_parts::TopElement;
use std::alloc::AllocError;

/// One thing that is wrong in a file. Sizes are in bytes; a size of an element counts its head.
#[derive(Clone, Copy, Debug, PartialEq, Eq)]
pub enum Finding {
    /// So many bytes are no item of the file, or no children of the master that they end.
    Unknown(u64),
    /// An element where none of its kind may stand.
    Misplaced(TopElement),
    /// A Segment or a Cluster of unknown size: it can't be seen whether it was cut.
    Endless(TopElement),
    /// An element runs past the end of the file; so many bytes of it are there.
    Cut(TopElement, u64),
    /// The EBML has not exactly one DocType that is `matroska` or `webm`.
    NoMatroska,
    /// The CRC-32 of an element of this size fails.
    Crc32(TopElement, u64),
    /// An element of this size has no CRC-32, and one of its kind before it had one.
    Bare(TopElement, u64),
    /// The Configuration Record of this track is wrong.
    Record(u64),
    /// A block of so many bytes is too short for its fields.
    Block(u64),
    /// A block is of this track, which is not described.
    Track(u64),
    /// The time of a block of this track does not rise, or its Cluster has none.
    Time(u64),
    /// A block of this track, whose frames are judged, is laced.
    Laced(u64),
    /// The frame of this number, counted from 1, of this track is not right: it stands as the verdict says.
    Frame(u64, u64, Verdict),
    /// A block of FLAC of this track is not right.
    Flac(u64),
    /// A frame of this track is too long to be judged.
    Long(u64),
    /// The file has no Segment.
    NoSegment,
    /// The first Segment ends at this place, and not with the file.
    End(u64),
    /// The file describes no track.
    NoTracks,
}

/// A finding, and where it is: how many bytes of the file stand before it.
#[derive(Clone, Copy, Debug, PartialEq, Eq)]
pub struct Line {
    pub place: u64,
    pub finding: Finding,
}

/// Adds the line of a finding, as `at 4096 crc32 Cluster 30720`. It fails only if an allocation fails.
pub fn push_line(text: &mut String, line: &Line) -> Result<(), AllocError>
    ensures { OnOk result (string_bytes text.new ≡ string_bytes text.old ++ line_text line.now) }
{
    let place = line.place;
    write!(text, "at {place} ")?;
    push_finding(text, &line.finding)
}

/// Adds the words of a finding, and a line feed.
fn push_finding(text: &mut String, finding: &Finding) -> Result<(), AllocError>
    ensures { OnOk result (string_bytes text.new ≡ string_bytes text.old ++ finding_text finding.now) }
{
    match finding {
        Finding::Unknown(size) => writeln!(text, "unknown {size}"),
        Finding::Misplaced(element) => push_named(text, "misplaced", element),
        Finding::Endless(element) => push_named(text, "endless", element),
        Finding::Cut(element, size) => push_sized(text, "cut", element, *size),
        Finding::NoMatroska => writeln!(text, "no Matroska"),
        Finding::Crc32(element, size) => push_sized(text, "crc32", element, *size),
        Finding::Bare(element, size) => push_sized(text, "bare", element, *size),
        Finding::Block(size) => writeln!(text, "block {size}"),
        Finding::NoSegment => writeln!(text, "no Segment"),
        Finding::End(end) => writeln!(text, "end {end}"),
        Finding::NoTracks => writeln!(text, "no tracks"),
        Finding::Frame(number, track, verdict) => push_frame(text, *number, *track, verdict),
        Finding::Record(track) => writeln!(text, "record of track {track}"),
        Finding::Track(track) => writeln!(text, "track {track}"),
        Finding::Time(track) => writeln!(text, "time of track {track}"),
        Finding::Laced(track) => writeln!(text, "laced track {track}"),
        Finding::Flac(track) => writeln!(text, "flac of track {track}"),
        Finding::Long(track) => writeln!(text, "long frame of track {track}"),
    }
}

/// Adds a word and an element's name.
fn push_named(text: &mut String, word: &str, element: &TopElement) -> Result<(), AllocError>
    ensures { OnOk result (string_bytes text.new ≡ string_bytes text.old ++ (word.now ++ codes " " ++ name_of element.now ++ codes "\n")) }
{
    let name = element.name();
    writeln!(text, "{word} {name}")
}

/// Adds a word, an element's name and a size.
fn push_sized(
    text: &mut String,
    word: &str,
    element: &TopElement,
    size: u64,
) -> Result<(), AllocError>
    ensures { OnOk result (string_bytes text.new ≡ string_bytes text.old
        ++ (word.now ++ codes " " ++ name_of element.now ++ codes " " ++ decimal size ++ codes "\n")) }
{
    let name = element.name();
    writeln!(text, "{word} {name} {size}")
}

/// Adds how a frame stands.
fn push_frame(
    text: &mut String,
    number: u64,
    track: u64,
    verdict: &Verdict,
) -> Result<(), AllocError>
    ensures { OnOk result (string_bytes text.new ≡ string_bytes text.old ++ (codes "frame " ++ decimal number ++ codes " of track " ++ decimal track
        ++ codes " links " ++ decimal verdict.now.links ++ codes " pass " ++ decimal verdict.now.passing ++ end_words verdict.now.end)) }
{
    let (links, passing) = (verdict.links, verdict.passing);
    write!(
        text,
        "frame {number} of track {track} links {links} pass {passing}"
    )?;
    match verdict.end {
        ChainEnd::Whole => writeln!(text, " whole"),
        ChainEnd::Broken(place) => writeln!(text, " broken at {place}"),
    }
}
