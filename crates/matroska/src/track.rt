//! Tracks, as a TrackEntry describes each (RFC 9559, section 5.1.4).
ghost use Rattle.std.specs.Prelude.{◌≡◌, ◌<◌, ◌^◌, ◌↔◌, IsTrue, IsSome, IfOk};
ghost use Rattle.ebml.specs.Contents.{OfLast, OfLastPlaced};
ghost use Rattle.matroska.specs.Tracks.{number_found, bytes_found, place_found, IsStringOf, IsTrackOf, AreTracksOf};

use ebml::{last_content, last_place, next_content, unsigned};
use ffv1_texts::split_at_byte;
use std::alloc::{AllocError, Global};

const TRACK_ENTRY: u32 = 0xAE;

const TRACK_NUMBER: u32 = 0xD7;

const TRACK_TYPE: u32 = 0x83;

const CODEC_ID: u32 = 0x86;

const CODEC_PRIVATE: u32 = 0x63A2;

const CONTENT_ENCODINGS: u32 = 0x6D80;

const VIDEO: u32 = 0xE0;

const PIXEL_WIDTH: u32 = 0xB0;

const PIXEL_HEIGHT: u32 = 0xBA;

/// What a TrackEntry says of its track. Of each field the last element counts. A number is 0 where it is missing, or has more than 8 bytes.
#[derive(Clone, Copy, Debug)]
pub struct Track<'a> {
    /// TrackNumber, by which blocks name their track.
    pub number: u64,
    /// TrackType: 1 of video, 2 of sound.
    pub kind: u64,
    /// CodecID, up to its first zero byte.
    pub codec: &'a [u8],
    /// CodecPrivate.
    pub private: &'a [u8],
    /// Where it begins, in bytes from the start of the content of its Tracks; 0 where it is missing, and 2^32 - 1 past that.
    pub private_at: u32,
    /// Whether it has ContentEncodings: its frames are compressed once more, or encrypted.
    pub is_encoded: bool,
    /// PixelWidth of its Video, in samples.
    pub width: u64,
    /// PixelHeight.
    pub height: u64,
}

/// The tracks that the content of a Tracks element describes: one for each TrackEntry, in order. It fails only if an allocation fails.
pub fn read_tracks<'a>(alloc: Global, content: &'a [u8]) -> Result<Vec<Track<'a>>, AllocError>
    ensures { IfOk result (λ tracks. AreTracksOf content.now tracks.items) }
{
    let mut tracks = Vec::new(alloc);
    let mut left = content;
    while let Some(entry) = next_content(TRACK_ENTRY, left) {
        let place = content.len() - left.len() + entry.place;
        tracks.push(track_at(place, entry.bytes))?;
        left = entry.rest;
    }
    Ok(tracks)
}

/// The track that the content of a TrackEntry describes, as if its Tracks began with that.
pub fn read_track<'a>(entry: &'a [u8]) -> Track<'a>
    ensures { IsTrackOf 0 entry.now result }
{
    track_at(0, entry)
}

/// That of a content that begins at this place.
fn track_at<'a>(place: usize, entry: &'a [u8]) -> Track<'a>
    requires { place < 2 ^ 63 }
    ensures { IsTrackOf place entry.now result }
{
    let video = bytes_with(VIDEO, entry);
    Track {
        number: number_with(TRACK_NUMBER, entry),
        kind: number_with(TRACK_TYPE, entry),
        codec: text_of(bytes_with(CODEC_ID, entry)),
        private: bytes_with(CODEC_PRIVATE, entry),
        private_at: place_with(CODEC_PRIVATE, place, entry),
        is_encoded: last_content(CONTENT_ENCODINGS, entry).is_some(),
        width: number_with(PIXEL_WIDTH, video),
        height: number_with(PIXEL_HEIGHT, video),
    }
}

/// The value of the last element with this ID.
fn number_with(id: u32, bytes: &[u8]) -> u64
    ensures { OfLast id bytes.now (λ found. result ≡ number_found found) }
{
    match last_content(id, bytes) {
        Some(content) => unsigned(content),
        None => 0,
    }
}

/// The content of the last element with this ID; no bytes where there is none.
fn bytes_with<'a>(id: u32, bytes: &'a [u8]) -> &'a [u8]
    ensures { OfLast id bytes.now (λ found. result.now ≡ bytes_found found) }
{
    match last_content(id, bytes) {
        Some(content) => content,
        None => &[],
    }
}

/// Where the content of the last element with this ID begins, of bytes that begin at a place: 2^32 - 1 at most, and 0 where there is none.
fn place_with(id: u32, place: usize, bytes: &[u8]) -> u32
    requires { place < 2 ^ 63 }
    ensures { OfLastPlaced id place bytes.now (λ found. result ≡ place_found found) }
{
    match last_place(id, bytes) {
        Some(at) => (place + at).min(u32::MAX as usize) as u32,
        None => 0,
    }
}

/// The text of a String Element with this content (RFC 8794, section 7.4): what stands before its first zero byte, or all.
pub fn text_of<'a>(content: &'a [u8]) -> &'a [u8]
    ensures { IsStringOf content.now result.now }
{
    match split_at_byte(content, 0) {
        Some((text, _)) => text,
        None => content,
    }
}
