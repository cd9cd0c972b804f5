//! Damage made to measure: copies of some bytes that differ from them in one stated way. Each call leaves what it was
//! given as it was, and fails only if an allocation of memory failed.
ghost use Rattle.std.specs.Prelude.{◌≡◌, ◌+◌, ◌-◌, ◌*◌, ◌<◌, ◌≤◌, ◌++◌, false, not, length, take, drop, replicate, slice_index_or, slice_set, IfOk};
ghost use Rattle.ffv1_bits.specs.Bits.{bits_of};
ghost use Rattle.ffv1_bits.specs.Parity.{DifferWithin32};
ghost use Rattle.ffv1_vectors.specs.Damage.{IsBurst};

use std::alloc::{AllocError, Global};

/// The bytes with one bit inverted. Bits count from 0, which is the first byte's most significant one; the bit has to be
/// there.
pub fn flip(alloc: Global, bytes: &[u8], bit: usize) -> Result<Vec<u8>, AllocError>
    requires { bit < 8 * length bytes.now }
    ensures len { IfOk result (λ flipped. length flipped.items ≡ length bytes.now) }
    ensures bits { IfOk result (λ flipped. bits_of flipped.items ≡ slice_set (bits_of bytes.now) bit (not (slice_index_or (bits_of bytes.now) bit false))) }
{
    let mut flipped = Vec::from_slice(alloc, bytes)?;
    turn(&mut flipped, bit / 8, bit % 8);
    Ok(flipped)
}

/// The bytes with the bits from `bit` on inverted where the mask, its highest bit first, has a 1: what differs lies within
/// 32 consecutive bits. Bits count from 0, which is the first byte's most significant one; all 32 have to be there.
pub fn burst(alloc: Global, bytes: &[u8], bit: usize, mask: u32) -> Result<Vec<u8>, AllocError>
    requires { bit + 32 ≤ 8 * length bytes.now }
    ensures within { IfOk result (λ damaged. DifferWithin32 bytes.now damaged.items bit) }
    ensures bits { IfOk result (λ damaged. IsBurst (bits_of bytes.now) bit mask (bits_of damaged.items)) }
{
    let mut damaged = Vec::from_slice(alloc, bytes)?;
    turn_where(&mut damaged, bit, mask);
    Ok(damaged)
}

/// The bytes with 0 in each place from `from` up to, and without, `to`. The places have to be there, in this order.
pub fn zero(alloc: Global, bytes: &[u8], from: usize, to: usize) -> Result<Vec<u8>, AllocError>
    requires order { from ≤ to }
    requires within { to ≤ length bytes.now }
    ensures { IfOk result (λ zeroed. zeroed.items ≡ take from bytes.now ++ replicate (to - from) 0 ++ drop to bytes.now) }
{
    let mut zeroed = Vec::from_slice(alloc, bytes)?;
    zeroed[from..to].fill(0);
    Ok(zeroed)
}

/// The first `len` bytes, of which there have to be as many.
pub fn cut(alloc: Global, bytes: &[u8], len: usize) -> Result<Vec<u8>, AllocError>
    requires { len ≤ length bytes.now }
    ensures { IfOk result (λ kept. kept.items ≡ take len bytes.now) }
{
    Vec::from_slice(alloc, &bytes[..len])
}

/// The bytes with others before them.
pub fn put_front(alloc: Global, front: &[u8], bytes: &[u8]) -> Result<Vec<u8>, AllocError>
    ensures { IfOk result (λ joined. joined.items ≡ front.now ++ bytes.now) }
{
    let mut joined = Vec::from_slice(alloc, front)?;
    joined.extend_from_slice(bytes)?;
    Ok(joined)
}

/// Inverts one bit of a byte, its most significant one being bit 0.
fn turn(bytes: &mut [u8], byte: usize, bit: usize)
    requires byte { byte < length bytes.old }
    requires bit { bit < 8 }
    ensures { bits_of bytes.new ≡ slice_set (bits_of bytes.old) (8 * byte + bit) (not (slice_index_or (bits_of bytes.old) (8 * byte + bit) false)) }
{
    bytes[byte] ^= 1 << (7 - bit);
}

/// Inverts the bits from `bit` on where the mask, its highest bit first, has a 1.
fn turn_where(bytes: &mut [u8], bit: usize, mask: u32)
    requires { bit + 32 ≤ 8 * length bytes.old }
    ensures within { DifferWithin32 bytes.old bytes.new bit }
    ensures bits { IsBurst (bits_of bytes.old) bit mask (bits_of bytes.new) }
{
    for place in 0..32usize {
        if (mask >> (31 - place)) & 1 == 1 {
            let bits = bit % 8 + place;
            turn(bytes, bit / 8 + bits / 8, bits % 8);
        }
    }
}
