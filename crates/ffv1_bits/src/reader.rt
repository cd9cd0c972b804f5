//! The bits of bytes, read one after the other, most significant first (RFC 9043, section 4).
//!
//! A reader never stands past its last bit.
ghost use Rattle.std.specs.Prelude.{◌≡◌, ℕ, ◌+◌, ◌*◌, ◌^◌, ◌<◌, ◌≤◌, List, Bool, [], ◌∷◌, ◌++◌, length, take, drop, IfSome, IfNone};
ghost use Rattle.ffv1_bits.specs.Limits.{payload_limit};
ghost use Rattle.ffv1_bits.specs.Bits.{bits_of, number_bits};
ghost use Rattle.ffv1_bits.specs.Reader.{Reading, ReadsBits, PlaceAndLeftAddUp};

use std::marker::Model;

/// A reader over the bits of some bytes. Contracts see it as its place and the bits that are left.
#[derive(Drop)]
pub struct Bits<'a> {
    bytes: &'a [u8],
    place: usize,
}

impl<'a> Model for Bits<'a> {
    ghost use Rattle.std.specs.Prelude.{ℕ, ◌*◌, ◌^◌, ◌≤◌, drop, length};
    ghost use Rattle.ffv1_bits.specs.Bits.{bits_of};
    ghost use Rattle.ffv1_bits.specs.Reader.{Reading};
    ghost use Rattle.ffv1_bits.specs.Limits.{payload_limit};

    ghost Value = { Reading };

    ghost view = { λ b. record { place = b.place; left = drop b.place (bits_of b.bytes.now) } };

    ghost invariant = { λ b. record { short : length b.bytes.now ≤ payload_limit; within : b.place ≤ 8 * length b.bytes.now } };
}

impl<'a> Bits<'a> {
    /// All bits of the bytes, none of them read. There are at most `PAYLOAD_LIMIT` bytes.
    pub fn new(bytes: &'a [u8]) -> Self
        requires { length bytes.now ≤ payload_limit }
        ensures place { result.place ≡ 0 }
        ensures left { result.left ≡ bits_of bytes.now }
    {
        Bits { bytes, place: 0 }
    }

    /// Another reader at the same place, to read ahead.
    pub fn fork(&self) -> Self
        ensures { result ≡ self.now }
    {
        Bits {
            bytes: self.bytes,
            place: self.place,
        }
    }

    /// The number of bits read.
    pub fn place(&self) -> usize
        ensures value { result ≡ self.now.place }
        ensures bound { result ≤ 8 * payload_limit }
    {
        self.place
    }

    /// The number of bits left.
    pub fn left(&self) -> usize
        ensures value { result ≡ length self.now.left }
        ensures bound { result ≤ 8 * payload_limit }
    {
        8 * self.bytes.len() - self.place
    }

    /// The next bit; None where none is left, and then nothing changes.
    pub fn bit(&mut self) -> Option<bool>
        ensures some { IfSome result (λ bit. ReadsBits self.old (bit ∷ []) self.new) }
        ensures none { IfNone result (self.old.left ≡ []) }
        ensures unchanged { IfNone result (self.new ≡ self.old) }
    {
        let byte = *self.bytes.get(self.place / 8)?;
        let bit = (byte >> (7 - self.place % 8)) & 1 == 1;
        self.place += 1;
        Some(bit)
    }

    /// The next 56 bits as a number, the first of them highest; None where fewer than eight bytes are left, that of the
    /// next bit counted whole. Nothing is read.
    #[inline(always)]
    pub fn peek(&self) -> Option<u64>
        ensures some { IfSome result (λ number. (rest : List Bool) × (self.now.left ≡ number_bits 56 number ++ rest)) }
        ensures fits { IfSome result (λ number. number < 2 ^ 56) }
        ensures none { IfNone result (length self.now.left < 64) }
    {
        let eight = eight_bytes_at(self.bytes, self.place / 8)?;
        Some((eight << (self.place % 8)) >> 8)
    }

    /// Passes over this many of the bits that are left.
    #[inline(always)]
    pub fn skip(&mut self, count: usize)
        requires { count ≤ length self.old.left }
        ensures { ReadsBits self.old (take count self.old.left) self.new }
    {
        self.place += count;
    }

    /// The next `count` bits as a number, the first of them highest; None where fewer are left,
    /// and then nothing changes.
    pub fn take(&mut self, count: u32) -> Option<u32>
        requires { count ≤ 24 }
        ensures some { IfSome result (λ number. ReadsBits self.old (number_bits count number) self.new) }
        ensures fits { IfSome result (λ number. number < 2 ^ count) }
        ensures none { IfNone result (length self.old.left < count) }
        ensures unchanged { IfNone result (self.new ≡ self.old) }
    {
        let mut ahead = self.fork();
        let mut number = 0;
        for _ in 0..count {
            number = 2 * number + u32::from(ahead.bit()?);
        }
        *self = ahead;
        Some(number)
    }
}

/// The bits of eight bytes from a place on as a number, the first of them highest; None where fewer bytes are there.
#[inline(always)]
fn eight_bytes_at(bytes: &[u8], place: usize) -> Option<u64>
    ensures some { IfSome result (λ number. bits_of (take 8 (drop place bytes.now)) ≡ number_bits 64 number) }
    ensures none { IfNone result (length bytes.now < place + 8) }
{
    let end = place.checked_add(8)?;
    let front = bytes.get(place..end)?.first_chunk::<8>()?;
    Some(u64::from_be_bytes(*front))
}

/// The bits read and those left of some bytes are together eight for each byte.
pub fn place_and_left_add_up()
    ensures { PlaceAndLeftAddUp }
{}
