//! The CRC-32 of bytes, sixteen at once. It is the remainder by which slices are judged, of bits that stand in another order: each
//! byte's lowest comes first. The register is held in that order too, with the bit of x ^ 31 as the lowest, so bytes go into it as they
//! are.
ghost use Rattle.std.specs.Prelude.{ℕ, ◌≡◌, ◌+◌, ◌*◌, ◌≤◌, List, [], ◌∷◌, ◌++◌};
ghost use Rattle.std.specs.Int.{w64, to_le_bytes};
ghost use Rattle.std.specs.List.{concat};
ghost use Rattle.ebml.specs.Crc.{crc32_of};
ghost use Rattle.ebml.specs.Inner.Register.{Advances, left_before};

use crate::table::entry;

/// The register of no bytes: the first 32 bits of all are complemented.
pub(crate) const START: u32 = 0xFFFFFFFF;

/// The CRC-32 of bytes.
pub fn crc32(bytes: &[u8]) -> u32
    ensures { result ≡ crc32_of bytes.now }
{
    crc32_after(0, bytes)
}

/// The CRC-32 of bytes that follow others, by the CRC-32 of those others: 0 where none stand before. So it is taken of bytes that come in
/// pieces.
pub fn crc32_after(crc: u32, bytes: &[u8]) -> u32
    ensures { (front : List ℕ) → crc ≡ crc32_of front → result ≡ crc32_of (front ++ bytes.now) }
{
    !advanced(!crc, bytes)
}

/// The register of some bytes and these after them.
pub(crate) fn advanced(register: u32, bytes: &[u8]) -> u32
    ensures { Advances register bytes.now result }
{
    let (chunks, rest) = bytes.as_chunks::<16>();
    let mut register = advanced_by_chunks(register, chunks);
    for byte in rest {
        register = advanced_by_byte(register, *byte);
    }
    register
}

/// The register of some bytes and those of all chunks of sixteen after them.
fn advanced_by_chunks(register: u32, chunks: &[[u8; 16]]) -> u32
    ensures { Advances register (concat chunks.now) result }
{
    let mut register = register;
    for chunk in chunks {
        register = advanced_by_sixteen(register, chunk);
    }
    register
}

/// The register of some bytes and sixteen after them: the sum of what the first eight leave, with the register in them, and the last.
/// They are read as two numbers: a table takes each byte, and nothing but the first number waits for the register.
fn advanced_by_sixteen(register: u32, sixteen: &[u8; 16]) -> u32
    ensures { Advances register sixteen.now result }
{
    let [a, b, c, d, e, f, g, h, i, j, k, l, m, n, o, p] = *sixteen;
    let first = u64::from_le_bytes([a, b, c, d, e, f, g, h]);
    let last = u64::from_le_bytes([i, j, k, l, m, n, o, p]);
    taken(last, 0) ^ taken(first ^ u64::from(register), 8)
}

/// What the bytes of a number leave, the lowest first, that four zero bytes and as many more as `more` follow. The first four are summed in
/// pairs.
#[inline(always)]
fn taken(number: u64, more: usize) -> u32
    requires { more ≤ 8 }
    ensures { result ≡ left_before (to_le_bytes w64 number) (32 + 8 * more) }
{
    let [a, b, c, d, e, f, g, h] = number.to_le_bytes();
    let later = entry(e, more + 3) ^ entry(f, more + 2) ^ entry(g, more + 1) ^ entry(h, more);
    let first_pair = entry(a, more + 7) ^ entry(b, more + 6);
    let second_pair = entry(c, more + 5) ^ entry(d, more + 4);
    later ^ (first_pair ^ second_pair)
}

/// The register of some bytes and one after them.
fn advanced_by_byte(register: u32, byte: u8) -> u32
    ensures { Advances register (byte ∷ []) result }
{
    let mixed = register ^ u32::from(byte);
    let [low, ..] = mixed.to_le_bytes();
    entry(low, 0) ^ (mixed >> 8)
}
