//! Scalar symbols (RFC 9043, section 3.8.1.2): numbers whose bits are coded at the slots of a row of 32 states.
ghost use Rattle.std.specs.Prelude.{◌≡◌, ◌<◌, ◌≤◌, IsOk, IfOk, pos, neg_ℤ, if◌then◌else◌};
ghost use Rattle.ffv1_range.specs.Reading.{symbol_form, signed_symbol_form, signed_form_within, exponent_form, low_form, SymbolIsSpelled, SignedSymbolIsSpelled};
ghost use Rattle.ffv1_range.specs.Forms.{ReadsForm, same_fault};
ghost use Rattle.ffv1_range.specs.Decoder.{KeepsFault, KeepsStates};

use crate::coding::{RangeDecoder, RangeFault};

impl RangeDecoder<'_> {
    /// Reads an unsigned symbol at a row of 32 states (RFC 9043, section 3.8.1.2). The states of the
    /// slots that it meets become those that follow its bits: by the default table states from 8 to 248 stay there, whatever is returned.
    ///
    /// Refused with `Short` where a byte past the content is wanted in sentinel mode, and with `SymbolTooLong` where
    /// the exponent would pass 31. A fault is returned by each later call too.
    #[tactic(auto, unfolding(crate::specs::Reading::symbol_form))]
    pub fn unsigned(&mut self, states: &mut [u8; 32]) -> Result<u32, RangeFault>
        ensures read { ReadsForm same_fault symbol_form self.old states.old result self.new states.new }
        ensures kept { KeepsFault self.old result self.new }
        ensures states { KeepsStates self.old states.old states.new }
    {
        if self.slot(states, 0)? {
            return Ok(0);
        }
        let exponent = self.exponent(states, 32)?;
        self.magnitude(states, exponent)
    }

    /// Reads a signed symbol, as `unsigned` reads its absolute value, and its sign where that is not 0. Refused as
    /// `unsigned` is.
    pub fn signed(&mut self, states: &mut [u8; 32]) -> Result<i64, RangeFault>
        ensures read { ReadsForm same_fault signed_symbol_form self.old states.old result self.new states.new }
        ensures kept { KeepsFault self.old result self.new }
        ensures states { KeepsStates self.old states.old states.new }
    {
        self.signed_within(states, 32)
    }

    /// Reads a signed symbol whose absolute value has at most this number of bits, 1 to 32, as `signed` does.
    ///
    /// Refused with `Short` as `unsigned` is, and with `SymbolTooLong` where the exponent would reach the number of bits. A fault is
    /// returned by each later call too.
    #[inline(always)]
    #[tactic(auto, unfolding(crate::specs::Reading::signed_form_within))]
    pub fn signed_within(&mut self, states: &mut [u8; 32], bits: u32) -> Result<i64, RangeFault>
        requires some { 1 ≤ bits }
        requires few { bits ≤ 32 }
        ensures read { ReadsForm same_fault (signed_form_within bits) self.old states.old result self.new states.new }
        ensures kept { KeepsFault self.old result self.new }
        ensures states { KeepsStates self.old states.old states.new }
    {
        if self.slot(states, 0)? {
            return Ok(0);
        }
        let exponent = self.exponent(states, bits)?;
        let magnitude = self.magnitude(states, exponent)?;
        let slot = 11 + exponent.min(10) as usize;
        let is_negative = self.even_slot(states, slot)?;
        Ok(with_sign(magnitude, is_negative))
    }

    /// Reads the exponent of a symbol, which stays under this limit.
    #[inline(always)]
    fn exponent(&mut self, states: &mut [u8; 32], limit: u32) -> Result<u32, RangeFault>
        requires some { 1 ≤ limit }
        requires few { limit ≤ 32 }
        ensures read { ReadsForm same_fault (exponent_form limit 0) self.old states.old result self.new states.new }
        ensures kept { KeepsFault self.old result self.new }
        ensures states { KeepsStates self.old states.old states.new }
        ensures small { IfOk result (λ exponent. exponent < limit) }
    {
        for exponent in 0..limit {
            let slot = 1 + exponent.min(9) as usize;
            if !self.slot(states, slot)? {
                return Ok(exponent);
            }
        }
        self.keep_fault(RangeFault::SymbolTooLong);
        Err(RangeFault::SymbolTooLong)
    }

    /// Reads the bits of a magnitude under its highest.
    #[inline(always)]
    fn magnitude(&mut self, states: &mut [u8; 32], exponent: u32) -> Result<u32, RangeFault>
        requires small { exponent < 32 }
        requires alive { IsOk self.old.at }
        ensures read { ReadsForm same_fault (low_form exponent 1) self.old states.old result self.new states.new }
        ensures kept { KeepsFault self.old result self.new }
        ensures states { KeepsStates self.old states.old states.new }
    {
        let mut magnitude = 1;
        for place in (0..exponent).rev() {
            let slot = 22 + place.min(9) as usize;
            let bit = self.even_slot(states, slot)?;
            magnitude = 2 * magnitude + u32::from(bit);
        }
        Ok(magnitude)
    }
}

/// A magnitude with a sign.
fn with_sign(magnitude: u32, is_negative: bool) -> i64
    ensures { result ≡ (if is_negative then neg_ℤ (pos magnitude) else pos magnitude) }
{
    if is_negative {
        -i64::from(magnitude)
    } else {
        i64::from(magnitude)
    }
}

/// An unsigned symbol is read where its bits are coded, and nowhere else.
pub fn symbol_is_spelled()
    ensures { SymbolIsSpelled }
{}

/// A signed symbol of at most n bits is read where its bits are coded, and nowhere else.
pub fn signed_symbol_is_spelled()
    ensures { SignedSymbolIsSpelled }
{}
