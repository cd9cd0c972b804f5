//! The parity of records and slices: the remainder of their bits, read as a polynomial with coefficients 0 and 1.
ghost use Rattle.std.specs.Prelude.{ℕ, ◌≡◌, ◌+◌, ◌*◌, ◌^◌, ◌≤◌, ◌++◌, ◌↔◌, List, IsTrue};
ghost use Rattle.std.specs.List.{concat};
ghost use Rattle.ffv1_bits.specs.Bits.{bits_of};
ghost use Rattle.ffv1_bits.specs.Parity.{polynomial_of, remainder_of, PassesParity, divided, BurstIsSeen, RemainderIsOne};

use crate::table::{byte_remainder, moved_remainder};

/// What is left of the bytes after division by the parity's polynomial.
pub fn remainder(bytes: &[u8]) -> u32
    ensures { result ≡ remainder_of (bits_of bytes.now) }
{
    remainder_after(0, bytes)
}

/// What is left of bytes that follow others, by what is left of those others; 0 where none stand before.
pub fn remainder_after(left: u32, bytes: &[u8]) -> u32
    ensures { (front : List ℕ) → left ≡ remainder_of (bits_of front) → result ≡ remainder_of (bits_of (front ++ bytes.now)) }
{
    let (chunks, rest) = bytes.as_chunks::<16>();
    let mut register = chunks_remainder(left, chunks);
    for byte in rest {
        register = with_byte(register, *byte);
    }
    register
}

/// What is left of all chunks of sixteen bytes that follow others, by what is left of those.
fn chunks_remainder(left: u32, chunks: &[[u8; 16]]) -> u32
    ensures { (front : List ℕ) → left ≡ remainder_of (bits_of front) → result ≡ remainder_of (bits_of (front ++ concat chunks.now)) }
{
    let mut register = left;
    for chunk in chunks {
        register = with_sixteen(register, chunk);
    }
    register
}

/// Whether the bytes are long enough for a slice and nothing is left of them.
pub fn passes(bytes: &[u8]) -> bool
    ensures { IsTrue result ↔ PassesParity bytes.now }
{
    bytes.len() >= 8 && remainder(bytes) == 0
}

/// Damage within 32 consecutive bits never passes: two byte lists of one length that differ only
/// within 32 consecutive bits do not both pass, unless they are the same.
pub fn burst_seen()
    ensures { BurstIsSeen }
{}

/// The remainder is the only polynomial below x^32 that differs from the bits by a multiple of the divisor.
pub fn remainder_is_one()
    ensures { RemainderIsOne }
{}

/// The remainder of more bits: one byte comes in at the low end, and the table takes away the byte that leaves at the top.
fn with_byte(register: u32, byte: u8) -> u32
    ensures { result ≡ divided 8 (register * 2 ^ 8 + byte) }
{
    let [top, ..] = register.to_be_bytes();
    byte_remainder(top) ^ ((register << 8) | u32::from(byte))
}

/// What is left of a number of four bytes that four bytes and as many more as `more` follow.
#[inline(always)]
fn moved_four(number: u32, more: usize) -> u32
    requires { more ≤ 12 }
    ensures { result ≡ divided 128 (number * 2 ^ (32 + 8 * more)) }
{
    let [a, b, c, d] = number.to_be_bytes();
    let first_pair = moved_remainder(a, more + 3) ^ moved_remainder(b, more + 2);
    let second_pair = moved_remainder(c, more + 1) ^ moved_remainder(d, more);
    first_pair ^ second_pair
}

/// The remainder of more bits: sixteen bytes come in at the low end, and a table takes away each byte that leaves at the top.
/// What does not wait for the register is summed first.
fn with_sixteen(register: u32, sixteen: &[u8; 16]) -> u32
    ensures { result ≡ divided 128 (register * 2 ^ 128 + polynomial_of (bits_of sixteen.now)) }
{
    let [a, b, c, d, e, f, g, h, i, j, k, l, m, n, o, p] = *sixteen;
    let first = moved_four(u32::from_be_bytes([a, b, c, d]), 8);
    let second = moved_four(u32::from_be_bytes([e, f, g, h]), 4);
    let third = moved_four(u32::from_be_bytes([i, j, k, l]), 0);
    let later = (first ^ second) ^ (third ^ u32::from_be_bytes([m, n, o, p]));
    later ^ moved_four(register, 12)
}
