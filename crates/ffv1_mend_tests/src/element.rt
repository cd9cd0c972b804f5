//! An element of 500 bytes: its CRC-32, 8 bytes, a recorded frame as its part, and 150 bytes more.
use ffv1_mend::{Part, Sort};
use ffv1_test_frames::RECORDED;

/// Where the frame lies in the element.
pub(crate) const FRAME: Part = Part {
    start: 14,
    end: 350,
    sort: Sort::Frame,
};

/// The CRC-32 of what follows it.
const CRC: [u8; 4] = [0x3B, 0x3B, 0x47, 0x15];

/// The CRC-32 of the same with the lowest bit of its first byte turned.
const OTHER_CRC: [u8; 4] = [0x24, 0x2D, 0x7A, 0x81];

/// Bytes of the element that are changed: the place of each, and the mask of its bits that are turned.
pub(crate) type Changes = &'static [(usize, u8)];

/// The element with another CRC-32 and first byte: it passes too.
pub(crate) const OTHER: Changes = &[
    (2, CRC[0] ^ OTHER_CRC[0]),
    (3, CRC[1] ^ OTHER_CRC[1]),
    (4, CRC[2] ^ OTHER_CRC[2]),
    (5, CRC[3] ^ OTHER_CRC[3]),
    (6, 1),
];

/// A byte of the element.
fn byte_at(place: usize) -> u8 {
    match place {
        0 => 0xBF,
        1 => 0x84,
        2..6 => CRC.get(place - 2).copied().unwrap_or(0),
        6..14 => (place % 256) as u8 - 6,
        14..350 => RECORDED.get(place - 14).copied().unwrap_or(0),
        _ => (place.wrapping_sub(350).wrapping_mul(7) % 256) as u8,
    }
}

/// The element where these bytes are changed.
pub(crate) fn changed(changes: &[(usize, u8)]) -> [u8; 500] {
    let mut element = [0; 500];
    for (place, byte) in element.iter_mut().enumerate() {
        *byte = byte_at(place);
    }
    for (place, mask) in changes {
        if let Some(byte) = element.get_mut(*place) {
            *byte ^= *mask;
        }
    }
    element
}
