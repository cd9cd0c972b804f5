//! Golomb-Rice codes: a prefix of zeros, and a suffix of bits (RFC 9043, section 3.8.2.1).
//!
//! Differences of samples are coded at a depth of 8 to 17 bits. A code that stands whole in the next 56 bits is read from them at once. Near the end, and where there is a fault, it is
//! read bit by bit. Its number comes together with its length, and the bits are passed over once all is known.
ghost use Rattle.std.specs.Prelude.{◌≡◌, ◌↔◌, ℕ, ◌+◌, ◌/◌, ◌%◌, ◌-◌, ◌^◌, ◌≤◌, ◌<◌, ◌++◌, ℤ, false, true, pos, replicate, IsTrue, IfOk, IfErr, IfSome, IfNone, OnErr};
ghost use Rattle.ffv1_bits.specs.Bits.{number_bits};
ghost use Rattle.ffv1_bits.specs.Reader.{Reading, ReadsBits};
ghost use Rattle.ffv1_rice.specs.States.{IsCodedDepth, IsDifference, after_value};
ghost use Rattle.ffv1_rice.specs.Codes.{prefix_bits, code_bits, decoded_value, IsCoded, IsCodedDifference, IsCodeFault, CodesAreOne, FaultsExcludeCodes, FaultsAreOne};
ghost use Rattle.ffv1_rice.specs.Inner.Codes.{IsNumberFault, BitsBegin};
ghost use Rattle.ffv1_rice.specs.declared.code.CodeFault.TheVariants as CodeFault;

use crate::state::{VlcState, half_of_depth};
use ffv1_bits::Bits;

/// Why no code or run word can be read.
#[derive(Clone, Copy, Debug, PartialEq, Eq)]
pub enum CodeFault {
    /// The bits end within it.
    Truncated,
    /// An escape for a number that has the shorter form.
    EscapeNotNeeded,
    /// The code of a number of more bits than the coded depth: above 255 at a depth of 8.
    CodeTooLarge,
    /// The code of a level that no sample has: half of the numbers of the coded depth, 128 at a depth of 8.
    LevelTooLarge,
}

/// The zeros of an escape (RFC 9043, section 3.8.2.1). No bit 1 ends them.
pub const ESCAPE_ZEROS: u32 = 12;

/// An escape's number is its suffix plus this.
pub const ESCAPE_OFFSET: u32 = 11;

/// The coded depth of samples of 8 bits, but for those of RGB. An escape's suffix has as many bits.
pub const BYTE_DEPTH: u32 = 8;

/// Whether a number has more bits than the coded depth, so that no code is its own.
#[inline(always)]
fn is_large(number: u32, depth: u32) -> bool
    requires { IsCodedDepth depth }
    ensures { IsTrue result ↔ 2 ^ depth ≤ number }
{
    number >> depth != 0
}

/// The zeros of a prefix, at most 12. After `None` the bits stand at any place.
#[tactic(auto, unfolding(crate::specs::Codes::prefix_bits))]
fn read_prefix(bits: &mut Bits) -> Option<u32>
    ensures few { IfSome result (λ zeros. zeros ≤ 12) }
    ensures some { IfSome result (λ zeros. ReadsBits bits.old (prefix_bits zeros) bits.new) }
    ensures none { IfNone result ((zeros : ℕ) × (zeros < 12) × (bits.old.left ≡ replicate zeros false)) }
{
    for zeros in 0..ESCAPE_ZEROS {
        if bits.bit()? {
            return Some(zeros);
        }
    }
    Some(ESCAPE_ZEROS)
}

/// A code that comes next: its number, and how many bits it has.
#[derive(Clone, Copy)]
struct NumberAhead {
    number: u32,
    length: usize,
}

/// The number whose code at the parameter `k` and the coded depth comes next. Nothing is read.
#[inline(always)]
fn number_ahead(bits: &Bits, k: u32, depth: u32) -> Result<NumberAhead, CodeFault>
    requires parameter { k ≤ 16 }
    requires depth { IsCodedDepth depth }
    ensures small { IfOk result (λ ahead. ahead.number < 2 ^ depth) }
    ensures ok { IfOk result (λ ahead. BitsBegin bits.now.left (code_bits depth ahead.number k) ahead.length) }
    ensures err { IfErr result (λ fault. IsNumberFault depth k bits.now.left fault) }
{
    match short_ahead(bits, k, depth) {
        Some(ahead) => Ok(ahead),
        None => held_ahead(bits, k, depth),
    }
}

/// `long_ahead`, whose result has a place of its own in memory. It is made here, so that it costs nothing where the code is
/// short.
#[inline(always)]
fn held_ahead(bits: &Bits, k: u32, depth: u32) -> Result<NumberAhead, CodeFault>
    requires parameter { k ≤ 16 }
    requires depth { IsCodedDepth depth }
    ensures small { IfOk result (λ ahead. ahead.number < 2 ^ depth) }
    ensures ok { IfOk result (λ ahead. BitsBegin bits.now.left (code_bits depth ahead.number k) ahead.length) }
    ensures err { IfErr result (λ fault. IsNumberFault depth k bits.now.left fault) }
{
    let NumberAhead { number, length } = long_ahead(bits, k, depth)?;
    Ok(NumberAhead { number, length })
}

/// The number whose code comes next, where the code stands whole in the next 56 bits, is no escape and has no fault.
#[inline(always)]
fn short_ahead(bits: &Bits, k: u32, depth: u32) -> Option<NumberAhead>
    requires parameter { k ≤ 16 }
    requires depth { IsCodedDepth depth }
    ensures small { IfSome result (λ ahead. ahead.number < 2 ^ depth) }
    ensures some { IfSome result (λ ahead. BitsBegin bits.now.left (code_bits depth ahead.number k) ahead.length) }
{
    let window = bits.peek()?;
    // Such a code has at most 28 bits.
    let front = (window >> 24) as u32;
    let zeros = front.leading_zeros();
    if zeros >= ESCAPE_ZEROS {
        return None;
    }
    let number = short_in(front, k, zeros, depth)?;
    let length = zeros as usize + 1 + k as usize;
    Some(NumberAhead { number, length })
}

/// The number whose code comes next, escape or not. Few codes come here.
#[cold]
#[inline(never)]
fn long_ahead(bits: &Bits, k: u32, depth: u32) -> Result<NumberAhead, CodeFault>
    requires parameter { k ≤ 16 }
    requires depth { IsCodedDepth depth }
    ensures small { IfOk result (λ ahead. ahead.number < 2 ^ depth) }
    ensures ok { IfOk result (λ ahead. BitsBegin bits.now.left (code_bits depth ahead.number k) ahead.length) }
    ensures err { IfErr result (λ fault. IsNumberFault depth k bits.now.left fault) }
{
    if let Some(number) = escape_ahead(bits, k, depth) {
        let length = (ESCAPE_ZEROS + depth) as usize;
        return Ok(NumberAhead { number, length });
    }
    let mut later = bits.fork();
    let number = read_bit_by_bit(&mut later, k, depth)?;
    let length = later.place() - bits.place();
    Ok(NumberAhead { number, length })
}

/// The number of an escape that stands whole in the next 56 bits and has no fault.
fn escape_ahead(bits: &Bits, k: u32, depth: u32) -> Option<u32>
    requires parameter { k ≤ 16 }
    requires depth { IsCodedDepth depth }
    ensures small { IfSome result (λ u. u < 2 ^ depth) }
    ensures some { IfSome result (λ u. BitsBegin bits.now.left (code_bits depth u k) (12 + depth)) }
{
    let window = bits.peek()?;
    if window >= 1 << 44 {
        return None;
    }
    let number = escaped_in(window, k, depth)?;
    Some(number)
}

/// The number, where the prefix has fewer than 12 zeros.
#[inline(always)]
fn short_in(front: u32, k: u32, zeros: u32, depth: u32) -> Option<u32>
    requires parameter { k ≤ 16 }
    requires depth { IsCodedDepth depth }
    requires zeros { zeros < 12 }
    requires low { 2 ^ (31 - zeros) ≤ front }
    requires high { front < 2 ^ (32 - zeros) }
    ensures small { IfSome result (λ u. u < 2 ^ depth) }
    ensures some { IfSome result (λ u. BitsBegin (number_bits 32 front) (code_bits depth u k) (zeros + 1 + k)) }
{
    // The one that ends the prefix stands before the suffix, so that one zero less is counted.
    let low = front >> (31 - (zeros + k));
    let number = (zeros.wrapping_sub(1) << k).wrapping_add(low);
    if is_large(number, depth) {
        return None;
    }
    Some(number)
}

/// The number, where the prefix is an escape.
fn escaped_in(window: u64, k: u32, depth: u32) -> Option<u32>
    requires parameter { k ≤ 16 }
    requires depth { IsCodedDepth depth }
    requires window { window < 2 ^ 44 }
    ensures small { IfSome result (λ u. u < 2 ^ depth) }
    ensures some { IfSome result (λ u. BitsBegin (number_bits 56 window) (code_bits depth u k) (12 + depth)) }
{
    let number = (window >> (44 - depth)) as u32 + ESCAPE_OFFSET;
    if number >> k < ESCAPE_ZEROS || is_large(number, depth) {
        return None;
    }
    Some(number)
}

/// The number whose code comes next, bit by bit. After a fault the bits stand at any place.
#[cold]
#[inline(never)]
fn read_bit_by_bit(bits: &mut Bits, k: u32, depth: u32) -> Result<u32, CodeFault>
    requires parameter { k ≤ 16 }
    requires depth { IsCodedDepth depth }
    ensures small { IfOk result (λ u. u < 2 ^ depth) }
    ensures ok { IfOk result (λ u. ReadsBits bits.old (code_bits depth u k) bits.new) }
    ensures err { IfErr result (λ fault. IsNumberFault depth k bits.old.left fault) }
{
    match read_prefix(bits) {
        None => Err(CodeFault::Truncated),
        Some(zeros) if zeros < ESCAPE_ZEROS => read_short(bits, k, zeros, depth),
        Some(_) => read_escaped(bits, k, depth),
    }
}

/// The number whose prefix of fewer than 12 zeros was read.
fn read_short(bits: &mut Bits, k: u32, zeros: u32, depth: u32) -> Result<u32, CodeFault>
    requires parameter { k ≤ 16 }
    requires depth { IsCodedDepth depth }
    requires zeros { zeros < 12 }
    ensures small { IfOk result (λ u. u < 2 ^ depth) }
    ensures prefix { IfOk result (λ u. u / 2 ^ k ≡ zeros) }
    ensures suffix { IfOk result (λ u. ReadsBits bits.old (number_bits k (u % 2 ^ k)) bits.new) }
    ensures err { IfErr result (λ fault. IsNumberFault depth k (prefix_bits zeros ++ bits.old.left) fault) }
{
    let Some(low) = bits.take(k) else {
        return Err(CodeFault::Truncated);
    };
    let number = (zeros << k) + low;
    if is_large(number, depth) {
        return Err(CodeFault::CodeTooLarge);
    }
    Ok(number)
}

/// The number whose escape was read.
fn read_escaped(bits: &mut Bits, k: u32, depth: u32) -> Result<u32, CodeFault>
    requires parameter { k ≤ 16 }
    requires depth { IsCodedDepth depth }
    ensures small { IfOk result (λ u. u < 2 ^ depth) }
    ensures prefix { IfOk result (λ u. 12 ≤ u / 2 ^ k) }
    ensures suffix { IfOk result (λ u. ReadsBits bits.old (number_bits depth (u - 11)) bits.new) }
    ensures err { IfErr result (λ fault. IsNumberFault depth k (prefix_bits 12 ++ bits.old.left) fault) }
{
    let Some(low) = bits.take(depth) else {
        return Err(CodeFault::Truncated);
    };
    let number = low + ESCAPE_OFFSET;
    if number >> k < ESCAPE_ZEROS {
        return Err(CodeFault::EscapeNotNeeded);
    }
    if is_large(number, depth) {
        return Err(CodeFault::CodeTooLarge);
    }
    Ok(number)
}

/// The difference whose code gave this value.
#[inline(always)]
fn difference_of(value: i32, level: bool, depth: u32) -> Result<i32, CodeFault>
    requires depth { IsCodedDepth depth }
    requires range { IsDifference depth value }
    ensures range { IfOk result (IsCodedDifference depth level) }
    ensures ok { IfOk result (λ difference. decoded_value level difference ≡ value) }
    ensures err { IfErr result (λ fault. (level ≡ true) × (fault ≡ CodeFault.LevelTooLarge) × (value ≡ pos (2 ^ (depth - 1) - 1))) }
{
    if !level || value < 0 {
        Ok(value)
    } else if value < half_of_depth(depth) - 1 {
        Ok(value + 1)
    } else {
        Err(CodeFault::LevelTooLarge)
    }
}

impl VlcState {
    /// The difference of samples of 8 bits whose code comes next, from -128 to 127: `decode_at` at a depth of 8.
    #[inline(always)]
    pub fn decode(&mut self, bits: &mut Bits, level: bool) -> Result<i32, CodeFault>
        ensures range { IfOk result (IsCodedDifference 8 level) }
        ensures ok { IfOk result (λ difference. IsCoded 8 self.old level difference bits.old bits.new) }
        ensures state { IfOk result (λ difference. self.new ≡ after_value 8 self.old (decoded_value level difference)) }

        // Wherever a difference has its code next, it is returned.
        ensures found { (difference : ℤ) (after : Reading) → IsCodedDifference 8 level difference → IsCoded 8 self.old level difference bits.old after
            → result ≡ Ok difference }

        ensures err { IfErr result (IsCodeFault 8 self.old level bits.old.left) }
        ensures unchanged { OnErr result ((self.new ≡ self.old) × (bits.new ≡ bits.old)) }
    {
        self.decode_at(bits, BYTE_DEPTH, level)
    }

    /// The difference whose code comes next at a coded depth of 8 to 17 bits, n; it is from -2^(n-1) to 2^(n-1) - 1. The
    /// state becomes that after it (RFC 9043, sections 3.8.2.1 and 3.8.2.3). With `level` the code is that of a run's level,
    /// whose difference is never 0 (section 3.8.2.2.2).
    ///
    /// The faults are judged in the order in which `CodeFault` has them; `LevelTooLarge` comes
    /// with `level` alone. On a fault state and bits are unchanged.
    #[inline(always)]
    pub fn decode_at(&mut self, bits: &mut Bits, depth: u32, level: bool) -> Result<i32, CodeFault>
        requires { IsCodedDepth depth }
        ensures range { IfOk result (IsCodedDifference depth level) }
        ensures ok { IfOk result (λ difference. IsCoded depth self.old level difference bits.old bits.new) }
        ensures state { IfOk result (λ difference. self.new ≡ after_value depth self.old (decoded_value level difference)) }

        // Wherever a difference has its code next, it is returned.
        ensures found { (difference : ℤ) (after : Reading) → IsCodedDifference depth level difference
            → IsCoded depth self.old level difference bits.old after → result ≡ Ok difference }

        ensures err { IfErr result (IsCodeFault depth self.old level bits.old.left) }
        ensures unchanged { OnErr result ((self.new ≡ self.old) × (bits.new ≡ bits.old)) }
    {
        let ahead = number_ahead(bits, self.k(), depth)?;
        let coded = self.coded(ahead.number);
        let difference = difference_of(self.value(coded, depth), level, depth)?;
        self.update(coded);
        bits.skip(ahead.length);
        Ok(difference)
    }
}

/// No bits begin with the codes of two values of a state at one depth.
pub fn codes_are_one()
    ensures { CodesAreOne }
{}

/// Where bits have a fault, no difference has a code.
pub fn faults_exclude_codes()
    ensures { FaultsExcludeCodes }
{}

/// No bits have two faults.
pub fn faults_are_one()
    ensures { FaultsAreOne }
{}
