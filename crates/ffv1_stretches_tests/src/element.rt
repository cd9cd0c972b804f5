//! An element of 80 bytes: its CRC-32, 8 bytes, the frame of 22 bytes from byte 14 on, 14 bytes, a frame of FLAC of 12 bytes, and 18 bytes
//! more.
use ebml::crc32;
use ffv1_test_frames::{FRAME, SILENCE};

/// A byte of what follows the CRC-32, by its place in the element.
fn byte_at(place: usize) -> u8 {
    match place {
        14..36 => FRAME.get(place - 14).copied().unwrap_or(0),
        50..62 => SILENCE.get(place - 50).copied().unwrap_or(0),
        _ => (place.wrapping_mul(7) % 256) as u8,
    }
}

/// The element.
fn element() -> [u8; 80] {
    let mut element = [0; 80];
    for (place, byte) in element.iter_mut().enumerate() {
        *byte = byte_at(place);
    }
    element[0] = 0xBF;
    element[1] = 0x84;
    let crc = crc32(&element[6..]).to_le_bytes();
    element[2..6].copy_from_slice(&crc);
    element
}

/// The element with the lowest bit of each of these bytes turned.
pub(crate) fn changed(places: &[usize]) -> [u8; 80] {
    let mut element = element();
    for place in places {
        if let Some(byte) = element.get_mut(*place) {
            *byte ^= 1;
        }
    }
    element
}
