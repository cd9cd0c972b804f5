//! Frames of FLAC (RFC 9639, section 9).
ghost use Rattle.std.specs.Prelude.{◌≡◌, ◌+◌, ◌/◌, ◌%◌, ◌≢◌, ◌≤◌, ◌⊎◌, ◌<◌, ◌↔◌, IsTrue, All, MatchOption, slice_range};
ghost use Rattle.flac_frame.specs.Frame.{number_length, block_size_length, sample_rate_length, header_length, HasHeader, PassesFlac, FlacBurstIsSeen};

use crate::crc::{left_by_crc8, left_by_crc16};

/// How many bytes of a frame the CRC-8 and the CRC-16 have together.
const CHECKS: usize = 3;

/// How many bytes the coded number has that begins with this one; 0 if none does.
fn number_length(first: u8) -> usize
    ensures { result ≡ number_length first }
{
    match first {
        0x00..=0x7F => 1,
        0x80..=0xBF => 0,
        0xC0..=0xDF => 2,
        0xE0..=0xEF => 3,
        0xF0..=0xF7 => 4,
        0xF8..=0xFB => 5,
        0xFC..=0xFD => 6,
        0xFE => 7,
        0xFF => 0,
    }
}

/// How many bytes of a block's size its code says to follow.
fn block_size_length(code: u8) -> usize
    ensures { result ≡ block_size_length code }
{
    match code {
        6 => 1,
        7 => 2,
        _ => 0,
    }
}

/// How many bytes of a sample rate its code says to follow.
fn sample_rate_length(code: u8) -> usize
    ensures { result ≡ sample_rate_length code }
{
    match code {
        12 => 1,
        13 | 14 => 2,
        _ => 0,
    }
}

/// Whether the codes of a header's third and fourth byte are in use.
fn are_in_use(sizes: u8, layout: u8) -> bool
    ensures { IsTrue result ↔ ((sizes / 16 ≢ 0) × (sizes % 16 ≢ 15) × (layout / 16 ≤ 10) × (layout / 2 % 8 ≢ 3) × (layout % 2 ≡ 0)) }
{
    sizes / 16 != 0
        && sizes % 16 != 15
        && layout / 16 <= 10
        && layout / 2 % 8 != 3
        && layout % 2 == 0
}

/// Whether each byte is one of a coded number after its first.
fn go_on(bytes: &[u8]) -> bool
    ensures { IsTrue result ↔ All (λ byte. byte / 64 ≡ 2) bytes.now }
{
    bytes.iter().all(|byte| *byte / 64 == 2)
}

/// How many bytes a frame's header has before its CRC-8, if it has one.
fn header_length(frame: &[u8]) -> Option<usize>
    ensures { MatchOption result (HasHeader frame.now → ⊥) (λ length. HasHeader frame.now × (length ≡ header_length frame.now)) }
{
    let [0xFF, 0xF8 | 0xF9, sizes, layout, first, ..] = frame else {
        return None;
    };
    let number = number_length(*first);
    let length = 4 + number + block_size_length(*sizes / 16) + sample_rate_length(*sizes % 16);
    let has_room = length + CHECKS <= frame.len();
    if number > 0 && has_room && are_in_use(*sizes, *layout) && go_on(&frame[5..4 + number]) {
        return Some(length);
    }
    None
}

/// Whether the bytes are one FLAC frame: its header has values that are in use, and its CRC-8 and its CRC-16 are right. What stands between
/// the header and the CRC-16 is not looked at. A frame has 8 bytes at least.
pub fn passes_flac(frame: &[u8]) -> bool
    ensures { IsTrue result ↔ PassesFlac frame.now }
{
    match header_length(frame) {
        Some(length) => left_by_crc8(&frame[..length + 1]) == 0 && left_by_crc16(frame) == 0,
        None => false,
    }
}

/// Damage within 16 consecutive bits never passes: two frames of one length that differ only so do not both pass, unless they are the same.
pub fn burst_seen_by_crc16()
    ensures { FlacBurstIsSeen }
{}
