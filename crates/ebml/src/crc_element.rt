//! Elements that begin with a CRC-32 (RFC 8794, section 11.3.1).
ghost use Rattle.std.specs.Prelude.{◌≡◌, ◌↔◌, IsTrue, ◌∷◌};
ghost use Rattle.std.specs.Int.{w32, to_le_bytes};
ghost use Rattle.ebml.specs.CrcElement.{HasCrc32, PassesCrc32, element_left, Crc32BurstIsSeen};

use crate::crc::{START, advanced, crc32};

/// What is left of right bytes and their CRC-32 after division.
const RESIDUE: u32 = 0xC704DD7B;

/// How many bytes of an element stand before what its CRC-32 is of: two that say what they are, and the four of the CRC-32.
const HEAD_LENGTH: usize = 6;

/// The CRC-32 element of this CRC-32, as it stands at the front of its parent's content.
pub fn crc32_element(crc: u32) -> [u8; 6]
    ensures { result ≡ 0xBF ∷ 0x84 ∷ to_le_bytes w32 crc }
{
    let [a, b, c, d] = crc.to_le_bytes();
    [0xBF, 0x84, a, b, c, d]
}

/// Whether the content of an element begins with a CRC-32 element, be it right or not: `BF 84`, and four bytes.
pub fn has_crc32(content: &[u8]) -> bool
    ensures { IsTrue result ↔ HasCrc32 content.now }
{
    content.len() >= HEAD_LENGTH && content[..2] == [0xBF, 0x84]
}

/// Whether the bytes are the content of an element whose first child is a CRC-32 element, and it is right: `BF 84`, four bytes of CRC-32,
/// lowest first, and the rest, of which it is the CRC-32.
pub fn passes_crc32(element: &[u8]) -> bool
    ensures { IsTrue result ↔ PassesCrc32 element.now }
{
    if element.len() < HEAD_LENGTH {
        return false;
    }
    let (head, rest) = element.split_at(HEAD_LENGTH);
    head == crc32_element(crc32(rest)).as_slice()
}

/// What is left of an element: 0 where its CRC-32 is right, whatever its first two bytes are.
pub fn element_left(element: &[u8]) -> u32
    ensures { result ≡ element_left element.now }
{
    let (head, rest) = element.split_at(element.len().min(HEAD_LENGTH));
    let stored = &head[head.len().min(2)..];
    advanced(advanced(START, rest), stored).reverse_bits() ^ RESIDUE
}

/// Damage within 32 consecutive bits never passes, in the order in which CRC-32 runs them: two elements of one length that differ
/// only so do not both pass, unless they are the same.
pub fn burst_seen_by_crc32()
    ensures { Crc32BurstIsSeen }
{}
