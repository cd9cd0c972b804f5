//! Bytes with one bit inverted: which of them are slices with their parity. Where a bit is inverted the remainder changes by a power of x,
//! and only where that is all that is left of the bytes are they looked at.
ghost use Rattle.std.specs.Prelude.{◌≡◌, ◌+◌, ◌-◌, ◌*◌, ◌%◌, ◌<◌, ◌≤◌, ℕ, true, false, List, ◌∷◌, ◌++◌, length, slice_index, slice_index_or, IfOk};
ghost use Rattle.ffv1_bits.specs.Bits.{bits_of};
ghost use Rattle.ffv1_bits.specs.Inner.Division.{reduced_at};
ghost use Rattle.ffv1_bits.specs.Parity.{remainder_of};
ghost use Rattle.ffv1_weave.specs.Repairs.{inverted};
ghost use Rattle.ffv1_weave.specs.Inner.Found.{IsFoundAmong};
ghost use Rattle.ffv1_weave.specs.Inner.Inversions.{inversions_from, inversions, times_x};
ghost use Rattle.ffv1_weave.specs.declared.inversions.TheConstants.{WIDTH, MARKS};
ghost use Rattle.ffv1_weave.specs.declared.check.Check.TheVariants.{Slice};
ghost use Rattle.ffv1_weave.specs.declared.repairing.TheConstants.{MOST_REPAIRS};

use crate::check::Check;
use crate::found::{Found, with_bytes};
use ffv1_bits::{remainder, remainder_after};
use std::alloc::{AllocError, Global};

/// The parity's polynomial without x^32 (RFC 9043, section 4.9.3).
const LOW_DIVISOR: u32 = 0x04C11DB7;

/// So many bits are tried beside each other.
const WIDTH: usize = 64;

/// Numbers are marked by their remainder of division by this one.
const MARKS: usize = 1024;

/// Inverts a bit.
fn invert(bytes: &mut [u8], bit: usize)
    requires { bit < 8 * length bytes.old }
    ensures { bytes.new ≡ inverted bytes.old bit }
{
    bytes[bit / 8] ^= 1 << (7 - bit % 8);
}

/// The remainder of the next power of x, by that of a power.
fn next_power(power: u32) -> u32
    ensures { result ≡ reduced_at 0 (power * 2) }
{
    let doubled = power << 1;
    if power >> 31 == 1 {
        doubled ^ LOW_DIVISOR
    } else {
        doubled
    }
}

/// What is found where the bytes with this bit inverted are tried too.
fn with_inverted(
    alloc: Global,
    bytes: &mut [u8],
    bit: usize,
    found: Found,
) -> Result<Found, AllocError>
    requires { bit < 8 * length bytes.old }
    ensures same { bytes.new ≡ bytes.old }
    ensures found { IfOk result (λ more. (tried : List (List ℕ)) → IsFoundAmong Slice tried found → IsFoundAmong Slice (inverted bytes.old bit ∷ tried) more) }
{
    invert(bytes, bit);
    let more = with_bytes(alloc, Check::Slice, bytes, found);
    invert(bytes, bit);
    more
}

/// What is left of a polynomial times each power of x from the first one on, by what is left of it.
fn shifts(left: u32) -> [u32; WIDTH]
    ensures { (j : ℕ) → j < WIDTH → slice_index result j ≡ times_x left (j + 1) }
{
    let mut shifts = [0; WIDTH];
    let mut power = left;
    for shift in 0..WIDTH {
        power = next_power(power);
        shifts[shift] = power;
    }
    shifts
}

/// Marks the shifts: a number whose mark is missing is none of them.
fn marked(shifts: &[u32; WIDTH]) -> [bool; MARKS]
    ensures { (j : ℕ) → j < WIDTH → slice_index_or result (slice_index shifts.now j % MARKS) false ≡ true }
{
    let mut marks = [false; MARKS];
    for shift in shifts {
        marks[*shift as usize % MARKS] = true;
    }
    marks
}

/// What is found where the bytes with one of the `WIDTH` bits before this one inverted are tried too, each in turn, or one of all bits
/// before it if they are fewer. With a bit inverted, nothing is left of the bytes only if what is left of them is the power of x of that
/// bit. Then the power for `WIDTH` bits before this one is one of its shifts.
fn with_bits_before(
    alloc: Global,
    bytes: &mut [u8],
    shifts: &[u32; WIDTH],
    power: u32,
    bit: usize,
    mut found: Found,
) -> Result<Found, AllocError>
    requires shifts { (j : ℕ) → j < WIDTH → slice_index shifts.now j ≡ times_x (remainder_of (bits_of bytes.old)) (j + 1) }
    requires power { power ≡ times_x 1 (8 * length bytes.old - bit + WIDTH) }
    requires within { bit ≤ 8 * length bytes.old }
    ensures same { bytes.new ≡ bytes.old }
    ensures found { IfOk result (λ more. (tried : List (List ℕ)) → IsFoundAmong Slice (inversions_from bytes.old bit (8 * length bytes.old - bit) ++ tried) found
        → IsFoundAmong Slice (inversions_from bytes.old (bit - WIDTH) (8 * length bytes.old - (bit - WIDTH)) ++ tried) more) }
{
    for at in 0..bit.min(WIDTH) {
        if shifts[WIDTH - 1 - at] == power {
            found = with_inverted(alloc, bytes, bit - 1 - at, found)?;
        }
    }
    Ok(found)
}

/// What is found where the bytes with each of their bits inverted are tried too.
pub(crate) fn with_inversions(
    alloc: Global,
    bytes: &mut [u8],
    mut found: Found,
) -> Result<Found, AllocError>
    requires { 8 * length bytes.old ≤ MOST_REPAIRS }
    ensures same { bytes.new ≡ bytes.old }
    ensures found { IfOk result (λ more. (tried : List (List ℕ)) → IsFoundAmong Slice tried found → IsFoundAmong Slice (inversions bytes.old ++ tried) more) }
{
    let shifts = shifts(remainder(bytes));
    let marks = marked(&shifts);
    let mut power = 1;
    let mut bit = 8 * bytes.len();
    while 0 < bit {
        power = remainder_after(power, &[0; WIDTH / 8]);
        if marks[power as usize % MARKS] {
            found = with_bits_before(alloc, bytes, &shifts, power, bit, found)?;
        }
        bit = bit.saturating_sub(WIDTH);
    }
    Ok(found)
}
