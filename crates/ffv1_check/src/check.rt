//! A whole file that lies in memory, judged.
ghost use Rattle.std.specs.Prelude.{IfOk};
ghost use Rattle.ffv1_check.specs.Checks.{IsCheckOf, ReportIsOne, CutFileIsSeen, SmallDamageIsSeen};
ghost use Rattle.ffv1_check.specs.Spans.{CheckedBytesPass};
ghost use Rattle.ffv1_check.specs.LinkDamage.{SmallDamageInLinkIsSeen};
ghost use Rattle.ffv1_check.specs.RecordPlaces.{RecordsAreThere};

use crate::report::{Report, report_of};
use matroska_parts::file_parts;
use std::alloc::{AllocError, Global};

/// Judges a Matroska file, whatever its bytes are: the checksums in it, and how its parts hang together. It fails only if an allocation
/// fails.
pub fn check_file<'a>(alloc: Global, file: &'a [u8]) -> Result<Report<'a>, AllocError>
    ensures { IfOk result (IsCheckOf file.now) }
{
    let found = file_parts(alloc, file)?;
    let tracks = found.tracks.as_slice();
    report_of(alloc, tracks, file.len() as u64, &found.parts)
}

/// A file has one report: whatever two checks of it report, they say the same, and have one text and one verdict.
pub fn report_is_one()
    ensures { ReportIsOne }
{}

/// No front of a whole file is whole, and nothing that goes on after one.
pub fn cut_file_is_seen()
    ensures { CutFileIsSeen }
{}

/// What a report counts as checked passes: its bytes are those of spans of the file that are apart, and each of these passes a check of its own.
pub fn checked_bytes_pass()
    ensures { CheckedBytesPass }
{}

/// Each Configuration Record that is a part of a file, right or wrong, stands where the part says: those bytes are the record of its track.
pub fn records_are_there()
    ensures { RecordsAreThere }
{}

/// Small damage is seen: of a whole file no other is whole that differs from it only within the content of one element with a CRC-32, after
/// that content's first two bytes, and there within 32 consecutive bits, in the order in which CRC-32 runs them.
pub fn small_damage_is_seen()
    ensures { SmallDamageIsSeen }
{}

/// Small damage of frames is seen, with a CRC-32 round them or without: of a whole file no other is whole that differs from it only within one
/// link of a block whose track is judged by parities, and there within 32 consecutive bits, which leave the link's size as it was.
pub fn small_damage_in_link_is_seen()
    ensures { SmallDamageInLinkIsSeen }
{}
