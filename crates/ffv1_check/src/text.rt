//! The text of a whole report.
ghost use Rattle.std.specs.Prelude.{◌≡◌, ◌++◌, IsTrue, OnOk, string_bytes};
ghost use Rattle.std.specs.Char.{is_ascii_graphic};
ghost use Rattle.std.specs.List.{flat_map, list_all};
ghost use Rattle.ffv1_check.specs.Findings.{line_text};
ghost use Rattle.ffv1_check.specs.ReportLines.{is_plain_name, codec_word, track_line, bytes_line, whole_line, check_text};

use crate::findings::{Line, push_line};
use crate::report::{Report, TrackCount};
use std::alloc::AllocError;

/// The name of a codec that is printed has no more bytes.
const LONGEST_NAME: usize = 64;

/// Adds the text of a report: a line for each thing that is wrong, as `push_line` does; one for each track, as
/// `track 1 V_FFV1 blocks 250 checked 250`, with `-` for a name of no byte, of more than 64, or of one outside `!` to `~`; then
/// `bytes 30720 checked 30660`; and `whole` or `not whole`. It fails only if an allocation fails.
pub fn push_report(text: &mut String, report: &Report<'_>) -> Result<(), AllocError>
    ensures { OnOk result (string_bytes text.new ≡ string_bytes text.old ++ check_text report.now) }
{
    push_lines(text, report.lines.as_slice())?;
    push_tracks(text, report.tracks.as_slice())?;
    push_bytes(text, report.size, report.checked)?;
    text.push_str(whole_line(report.is_whole))
}

/// Adds a line for each thing that is wrong.
fn push_lines(text: &mut String, lines: &[Line]) -> Result<(), AllocError>
    ensures { OnOk result (string_bytes text.new ≡ string_bytes text.old ++ flat_map line_text lines.now) }
{
    for line in lines {
        push_line(text, line)?;
    }
    Ok(())
}

/// Adds a line for each track.
fn push_tracks(text: &mut String, counts: &[TrackCount<'_>]) -> Result<(), AllocError>
    ensures { OnOk result (string_bytes text.new ≡ string_bytes text.old ++ flat_map track_line counts.now) }
{
    for count in counts {
        push_track(text, count)?;
    }
    Ok(())
}

/// Adds the line of a track.
fn push_track(text: &mut String, count: &TrackCount<'_>) -> Result<(), AllocError>
    ensures { OnOk result (string_bytes text.new ≡ string_bytes text.old ++ track_line count.now) }
{
    let (number, blocks, checked) = (count.number, count.blocks, count.checked);
    let codec = codec_word(count.codec);
    writeln!(
        text,
        "track {number} {codec} blocks {blocks} checked {checked}"
    )
}

/// What is printed for the name of a codec.
fn codec_word<'a>(name: &'a [u8]) -> &'a str
    ensures { result.now ≡ codec_word name.now }
{
    if !is_plain_name(name) {
        return "-";
    }
    match str::from_utf8(name) {
        Ok(word) => word,
        Err(_) => "-",
    }
}

/// Whether a name has 1 to 64 bytes, each of `!` to `~`.
fn is_plain_name(name: &[u8]) -> bool
    ensures { result ≡ is_plain_name name.now }
{
    !name.is_empty() && name.len() <= LONGEST_NAME && are_graphic(name)
}

/// Whether each byte is of `!` to `~`.
fn are_graphic(name: &[u8]) -> bool
    ensures { result ≡ list_all is_ascii_graphic name.now }
{
    name.iter().all(|byte| byte.is_ascii_graphic())
}

/// Adds the line of how many bytes there are, and how many are checked.
fn push_bytes(text: &mut String, size: u64, checked: u128) -> Result<(), AllocError>
    ensures { OnOk result (string_bytes text.new ≡ string_bytes text.old ++ bytes_line size checked) }
{
    writeln!(text, "bytes {size} checked {checked}")
}

/// The verdict.
fn whole_line(is_whole: bool) -> &'static str
    ensures { result.now ≡ whole_line is_whole }
{
    if is_whole { "whole\n" } else { "not whole\n" }
}
