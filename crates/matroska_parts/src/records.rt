//! The Configuration Records of a file's tracks as parts of it.
ghost use Rattle.std.specs.Prelude.{◌≡◌, ◌<◌, ◌^◌, length, OnOk};
ghost use Rattle.matroska.specs.Tracks.{HasRecord};
ghost use Rattle.matroska_parts.specs.RecordParts.{record_place, AreRecordPartsOf, AreRecordParts};
ghost use Rattle.matroska_parts.specs.Inner.Added.{AddsParts};

use crate::parts::{Part, RecordPart};
use matroska::{Track, is_record_wrong, record_of};
use std::alloc::AllocError;

/// Adds those of all tracks, which the Tracks describes whose content begins at this place; its CRC-32 passes or not.
pub(crate) fn push_records(
    place: u64,
    is_vouched: bool,
    tracks: &[Track<'_>],
    parts: &mut Vec<Part>,
) -> Result<(), AllocError>
    requires { place < 2 ^ 63 }
    ensures { OnOk result (AddsParts (AreRecordParts place is_vouched tracks.now) parts.old.items parts.new.items) }
{
    for track in tracks {
        push_record(place, is_vouched, track, parts)?;
    }
    Ok(())
}

/// Adds that of one track.
fn push_record(
    place: u64,
    is_vouched: bool,
    track: &Track<'_>,
    parts: &mut Vec<Part>,
) -> Result<(), AllocError>
    requires { place < 2 ^ 63 }
    ensures { OnOk result (AddsParts (AreRecordPartsOf place is_vouched track.now) parts.old.items parts.new.items) }
{
    let Some(bytes) = record_of(track) else {
        return Ok(());
    };
    if bytes.is_empty() {
        return Ok(());
    }
    parts.push(Part::Record(RecordPart {
        place: record_place(place, track, bytes),
        size: bytes.len() as u64,
        track: track.number,
        is_wrong: is_record_wrong(track),
        is_vouched,
    }))?;
    Ok(())
}

/// Where a track's record begins, by where the content of its Tracks does: it ends with its CodecPrivate.
fn record_place(place: u64, track: &Track<'_>, bytes: &[u8]) -> u64
    requires room { place < 2 ^ 63 }
    requires has { HasRecord track.now bytes.now }
    ensures { result ≡ record_place place track.now (length bytes.now) }
{
    let before = track.private.len() - bytes.len();
    place + u64::from(track.private_at) + before as u64
}
