//! The Configuration Records of tracks of FFV1, and what can be judged of a track's frames.
ghost use Rattle.std.specs.Prelude.{List, ℕ, ◌≡◌, ◌↔◌, IsTrue, IfOk, MatchOption, drop};
ghost use Rattle.matroska.specs.Tracks.{IsFfv1Header, bitmap_header_length, HasRecord, IsRecordWrong, SaysParities, HasParities, IsFlac, RecordIsOne};
ghost use Rattle.ffv1_bits.specs.Parity.{RecordPassesParity};

use crate::track::Track;
use ffv1_bits::remainder;
use ffv1_range::{Recording, SetupFault};
use std::alloc::{AllocError, Global};

/// A BITMAPINFOHEADER has so many bytes.
const HEADER_LENGTH: usize = 40;

/// Its compression stands at these places.
const COMPRESSION: usize = 16;

/// A record has so many bytes at least.
const LEAST_RECORD: usize = 6;

/// The Configuration Record of a track of FFV1: its CodecPrivate, or of V_MS/VFW/FOURCC what follows its BITMAPINFOHEADER, whose compression
/// is FFV1. `None` of any other track.
pub fn record_of<'a>(track: &Track<'a>) -> Option<&'a [u8]>
    ensures { MatchOption result ((bytes : List ℕ) → HasRecord track.now bytes → ⊥) (λ bytes. HasRecord track.now bytes.now) }
{
    if has_codec(track, b"V_FFV1") {
        return Some(track.private);
    }
    if has_codec(track, b"V_MS/VFW/FOURCC") && is_ffv1_header(track.private) {
        return Some(after_header(track.private));
    }
    None
}

/// Whether this is a track's CodecID.
fn has_codec(track: &Track<'_>, codec: &[u8]) -> bool
    ensures { IsTrue result ↔ (track.now.codec.now ≡ codec.now) }
{
    track.codec == codec
}

/// What follows a BITMAPINFOHEADER; no bytes where there are not so many.
fn after_header<'a>(private: &'a [u8]) -> &'a [u8]
    ensures { result.now ≡ drop bitmap_header_length private.now }
{
    &private[private.len().min(HEADER_LENGTH)..]
}

/// Whether FFV1 is the compression of a BITMAPINFOHEADER.
fn is_ffv1_header(private: &[u8]) -> bool
    ensures { IsTrue result ↔ IsFfv1Header private.now }
{
    private.len() >= COMPRESSION + 4 && &private[COMPRESSION..COMPRESSION + 4] == b"FFV1".as_slice()
}

/// Whether a track's record is wrong: it has bytes, and fails its parity.
pub fn is_record_wrong(track: &Track<'_>) -> bool
    ensures { IsTrue result ↔ IsRecordWrong track.now }
{
    match record_of(track) {
        Some(record) => !record.is_empty() && !passes_parity(record),
        None => false,
    }
}

/// Whether a record passes its parity.
fn passes_parity(record: &[u8]) -> bool
    ensures { IsTrue result ↔ RecordPassesParity record.now }
{
    record.len() >= LEAST_RECORD && remainder(record) == 0
}

/// Whether a track's frames are judged by their parities: its record is one of version 3, for frames of the track's size, that says that
/// each slice has its own, and the track has no ContentEncodings. It fails only if an allocation fails.
pub fn has_parities(alloc: Global, track: &Track<'_>) -> Result<bool, AllocError>
    ensures { IfOk result (λ judged. IsTrue judged ↔ HasParities track.now) }
{
    let Some(record) = record_of(track) else {
        return Ok(false);
    };
    if track.is_encoded {
        return Ok(false);
    }
    says_parities(alloc, record, track.width, track.height)
}

/// Whether a record, for frames of this size, is one of version 3 that says that each slice has its parity.
fn says_parities(alloc: Global, record: &[u8], width: u64, height: u64) -> Result<bool, AllocError>
    ensures { IfOk result (λ says. IsTrue says ↔ SaysParities record.now width height) }
{
    let (Ok(width), Ok(height)) = (u32::try_from(width), u32::try_from(height)) else {
        return Ok(false);
    };
    match Recording::read(alloc, record, width, height) {
        Ok(recording) => Ok(recording.ec() == 1),
        Err(fault) => match fault {
            SetupFault::Memory => Err(AllocError),
            _ => Ok(false),
        },
    }
}

/// Whether a track is of FLAC, and has no ContentEncodings.
pub fn is_flac(track: &Track<'_>) -> bool
    ensures { IsTrue result ↔ IsFlac track.now }
{
    has_codec(track, b"A_FLAC") && !track.is_encoded
}

/// A track has one record at most.
pub fn record_is_one()
    ensures { RecordIsOne }
{}
