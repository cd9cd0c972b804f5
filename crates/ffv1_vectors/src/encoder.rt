//! A range encoder (RFC 9043, section 3.8.1), the other side of `RangeDecoder`.
//!
//! Nothing is promised of its bytes but what reading them back shows. Its range is in 256..=65280 between two bits, and
//! its low end, the carry included, never passes 17 bits. Each bit adds one byte at most, so memory for all bits of a
//! symbol is asked for before the first is written.
ghost use Rattle.std.specs.Prelude.{◌≡◌, ◌+◌, ◌*◌, ◌≤◌, ◌<◌, OnOk, OnErr, IfErr, [], None, vec_len, vec_capacity};
ghost use Rattle.ffv1_range.specs.Transitions.{IsBitState, bit_state_after};
ghost use Rattle.ffv1_range.specs.Decoder.{AreStates};
ghost use Rattle.ffv1_vectors.specs.Inner.Encoder.{IsEncoder};
ghost use Rattle.ffv1_vectors.specs.Encoder.{encoder_start};
ghost use Rattle.ffv1_vectors.specs.declared.fault.MakeFault.TheVariants.{Memory};

use crate::fault::MakeFault;
use crate::successors::Successors;
use crate::symbol::Symbol;
use ffv1_range::next_state;
use std::alloc::Global;
use std::marker::Model;

/// Writes range-coded values at states of the default table. Contracts see it as its low end, its range and the bytes that it has written.
#[derive(Drop)]
pub struct RangeEncoder {
    encoder: SymbolEncoder<'static>,
}

/// Writes range-coded values at any states. No bytes say a bit 1 at state 0: where one is written, what is read back is another value.
#[derive(Drop)]
pub struct SymbolEncoder<'a> {
    interval: Interval,
    bytes: Vec<u8>,
    /// How states change; by the default table where there are none.
    successors: Option<&'a Successors>,
}

/// The low end and the range between two bits.
#[derive(Clone, Copy)]
struct Interval {
    low: u32,
    range: u32,
    ghost bounds: { IsEncoder low range },
}

impl Model for RangeEncoder {
    ghost use Rattle.std.specs.Prelude.{◌≡◌, None};
    ghost use Rattle.ffv1_vectors.specs.Encoder.{EncoderValue};

    ghost Value = { EncoderValue };

    ghost view = { λ e. record { low = e.encoder.interval.low; range = e.encoder.interval.range; bytes = e.encoder.bytes.items } };

    ghost invariant = { λ e. e.encoder.successors ≡ None };
}

impl RangeEncoder {
    /// An encoder that has written nothing: its low end is 0, its range 65280. It takes no memory.
    pub fn new(alloc: Global) -> RangeEncoder
        ensures { result ≡ encoder_start }
    {
        RangeEncoder {
            encoder: SymbolEncoder::new(alloc, None),
        }
    }

    /// Writes one bit at a state in 8..=248, which becomes the one after that bit (section 3.8.1.5). `Memory`, the one fault, is returned
    /// if an allocation of memory failed, and leaves the encoder and the state as they were.
    pub fn bit(&mut self, state: &mut u8, bit: bool) -> Result<(), MakeFault>
        requires { IsBitState state.old }
        ensures in_range { IsBitState state.new }
        ensures state { OnOk result (state.new ≡ bit_state_after state.old bit) }
        ensures memory { IfErr result (λ fault. fault ≡ Memory) }
        ensures unchanged { OnErr result ((self.new ≡ self.old) × (state.new ≡ state.old)) }
    {
        self.encoder.bit(state, bit)
    }

    /// Writes one bit at the first of a row of states in 8..=248, as `bit` does.
    pub(crate) fn flag(&mut self, states: &mut [u8; 32], bit: bool) -> Result<(), MakeFault>
        requires { AreStates states.old }
        ensures in_range { AreStates states.new }
        ensures memory { IfErr result (λ fault. fault ≡ Memory) }
        ensures unchanged { OnErr result ((self.new ≡ self.old) × (states.new ≡ states.old)) }
    {
        self.bit(&mut states[0], bit)
    }

    /// Writes an unsigned symbol (section 3.8.1.2) at a row of states in 8..=248, which change and stay in 8..=248.
    /// `Memory`, the one fault, is returned if an allocation of memory failed, and leaves the encoder and the states as they
    /// were.
    pub fn unsigned(&mut self, states: &mut [u8; 32], value: u32) -> Result<(), MakeFault>
        requires { AreStates states.old }
        ensures in_range { AreStates states.new }
        ensures memory { IfErr result (λ fault. fault ≡ Memory) }
        ensures unchanged { OnErr result ((self.new ≡ self.old) × (states.new ≡ states.old)) }
    {
        self.encoder.unsigned(states, value)
    }

    /// Writes these unsigned symbols one after another, at one row of states.
    pub(crate) fn all_unsigned(
        &mut self,
        states: &mut [u8; 32],
        values: &[u32],
    ) -> Result<(), MakeFault>
        requires { AreStates states.old }
        ensures in_range { AreStates states.new }
        ensures memory { IfErr result (λ fault. fault ≡ Memory) }
    {
        self.encoder.all_unsigned(states, values)
    }

    /// Writes a signed symbol, as `unsigned` does.
    pub fn signed(&mut self, states: &mut [u8; 32], value: i32) -> Result<(), MakeFault>
        requires { AreStates states.old }
        ensures in_range { AreStates states.new }
        ensures memory { IfErr result (λ fault. fault ≡ Memory) }
        ensures unchanged { OnErr result ((self.new ≡ self.old) × (states.new ≡ states.old)) }
    {
        self.encoder.signed(states, value)
    }

    /// Ends values that zero bytes follow, and returns their bytes. `Memory`, the one fault, is returned if an allocation of memory failed.
    pub fn finish_closed(self) -> Result<Vec<u8>, MakeFault>
        ensures { IfErr result (λ fault. fault ≡ Memory) }
    {
        self.encoder.finish_closed()
    }

    /// Ends values that codes follow: writes a bit 0 at state 129, and returns the bytes up to the codes. `Memory`, the one
    /// fault, is returned if an allocation of memory failed.
    pub fn finish_sentinel(self) -> Result<Vec<u8>, MakeFault>
        ensures { IfErr result (λ fault. fault ≡ Memory) }
    {
        self.encoder.finish_sentinel()
    }
}

impl<'a> SymbolEncoder<'a> {
    ghost use Rattle.ffv1_vectors.specs.SymbolEncoders.{HasWrittenNothing, KeepsBitStates};

    /// An encoder that has written nothing, whose states change so, or by the default table. It takes no memory.
    pub fn new(alloc: Global, successors: Option<&'a Successors>) -> SymbolEncoder<'a>
        ensures low { result.interval.low ≡ 0 }
        ensures range { result.interval.range ≡ 65280 }
        ensures bytes { result.bytes.items ≡ [] }
        ensures successors { result.successors ≡ successors.entry }
    {
        SymbolEncoder {
            interval: Interval {
                low: 0,
                range: 65280,
            },
            bytes: Vec::new(alloc),
            successors,
        }
    }

    /// Writes one bit at a state, which becomes the one after that bit. `Memory`, the one fault, is returned if an allocation of memory
    /// failed, and leaves the encoder and the state as they were.
    pub fn bit(&mut self, state: &mut u8, bit: bool) -> Result<(), MakeFault>
        ensures in_range { self.old.successors ≡ None → IsBitState state.old → IsBitState state.new }
        ensures state { self.old.successors ≡ None → OnOk result (state.new ≡ bit_state_after state.old bit) }
        ensures memory { IfErr result (λ fault. fault ≡ Memory) }
        ensures unchanged { OnErr result (HasWrittenNothing self.old self.new × (state.new ≡ state.old)) }
        ensures successors { self.new.successors ≡ self.old.successors }
    {
        self.bytes.reserve(1)?;
        self.put(state, bit);
        Ok(())
    }

    /// Writes one bit at the first of a row of states, as `bit` does.
    pub fn flag(&mut self, states: &mut [u8; 32], bit: bool) -> Result<(), MakeFault>
        ensures kept { KeepsBitStates self.old states.old states.new }
        ensures memory { IfErr result (λ fault. fault ≡ Memory) }
        ensures unchanged { OnErr result (HasWrittenNothing self.old self.new × (states.new ≡ states.old)) }
        ensures successors { self.new.successors ≡ self.old.successors }
    {
        self.bit(&mut states[0], bit)
    }

    /// Writes an unsigned symbol (section 3.8.1.2) at a row of states, which change. `Memory`, the one fault, is returned if an allocation of
    /// memory failed, and leaves the encoder and the states as they were.
    pub fn unsigned(&mut self, states: &mut [u8; 32], value: u32) -> Result<(), MakeFault>
        ensures kept { KeepsBitStates self.old states.old states.new }
        ensures memory { IfErr result (λ fault. fault ≡ Memory) }
        ensures unchanged { OnErr result (HasWrittenNothing self.old self.new × (states.new ≡ states.old)) }
        ensures successors { self.new.successors ≡ self.old.successors }
    {
        self.symbol(states, Symbol::unsigned(value))
    }

    /// Writes these unsigned symbols one after another, at one row of states.
    pub fn all_unsigned(&mut self, states: &mut [u8; 32], values: &[u32]) -> Result<(), MakeFault>
        ensures kept { KeepsBitStates self.old states.old states.new }
        ensures memory { IfErr result (λ fault. fault ≡ Memory) }
        ensures successors { self.new.successors ≡ self.old.successors }
    {
        for value in values {
            self.unsigned(states, *value)?;
        }
        Ok(())
    }

    /// Writes a signed symbol, as `unsigned` does.
    pub fn signed(&mut self, states: &mut [u8; 32], value: i32) -> Result<(), MakeFault>
        ensures kept { KeepsBitStates self.old states.old states.new }
        ensures memory { IfErr result (λ fault. fault ≡ Memory) }
        ensures unchanged { OnErr result (HasWrittenNothing self.old self.new × (states.new ≡ states.old)) }
        ensures successors { self.new.successors ≡ self.old.successors }
    {
        self.symbol(states, Symbol::signed(value))
    }

    /// Ends values that zero bytes follow, and returns their bytes. `Memory`, the one fault, is returned if an allocation of memory failed.
    pub fn finish_closed(self) -> Result<Vec<u8>, MakeFault>
        ensures { IfErr result (λ fault. fault ≡ Memory) }
    {
        let mut encoder = self;
        encoder.bytes.reserve(1)?;
        let low = encoder.interval.low + 0xFF;
        encoder.push_byte(low);
        Ok(encoder.bytes)
    }

    /// Ends values that codes follow: writes a bit 0 at state 129, and returns the bytes up to the codes. `Memory`, the one
    /// fault, is returned if an allocation of memory failed.
    pub fn finish_sentinel(self) -> Result<Vec<u8>, MakeFault>
        ensures { IfErr result (λ fault. fault ≡ Memory) }
    {
        let mut encoder = self;
        encoder.bit(&mut 129, false)?;
        encoder.finish_closed()
    }

    /// Writes the bits of a symbol, each at the state of its slot.
    fn symbol(&mut self, states: &mut [u8; 32], symbol: Symbol) -> Result<(), MakeFault>
        ensures kept { KeepsBitStates self.old states.old states.new }
        ensures memory { IfErr result (λ fault. fault ≡ Memory) }
        ensures unchanged { OnErr result (HasWrittenNothing self.old self.new × (states.new ≡ states.old)) }
        ensures successors { self.new.successors ≡ self.old.successors }
    {
        let count = symbol.bits();
        self.bytes.reserve(count as usize)?;
        for place in 0..count {
            let (slot, bit) = symbol.bit(place);
            self.put(&mut states[slot], bit);
        }
        Ok(())
    }

    /// Writes one bit at a state, where the bytes have room for one more.
    fn put(&mut self, state: &mut u8, bit: bool)
        requires room { vec_len self.old.bytes < vec_capacity self.old.bytes }
        ensures in_range { self.old.successors ≡ None → IsBitState state.old → IsBitState state.new }
        ensures state { self.old.successors ≡ None → state.new ≡ bit_state_after state.old bit }
        ensures len { vec_len self.new.bytes ≤ vec_len self.old.bytes + 1 }
        ensures capacity { vec_capacity self.old.bytes ≤ vec_capacity self.new.bytes }
        ensures successors { self.new.successors ≡ self.old.successors }
    {
        let Interval { low, range } = self.interval;
        let part = ((range * u32::from(*state)) >> 8).max(u32::from(bit));
        let (low, range) = if bit {
            (low + (range - part), part)
        } else {
            (low, range - part)
        };
        if range < 256 {
            self.push_byte(low);
            self.interval = Interval {
                low: (low & 0xFF) << 8,
                range: range << 8,
            };
        } else {
            self.interval = Interval { low, range };
        }
        *state = self.state_after(*state, bit);
    }

    /// What a state becomes after a bit.
    fn state_after(&self, state: u8, bit: bool) -> u8
        ensures value { self.now.successors ≡ None → result ≡ bit_state_after state bit }
        ensures in_range { self.now.successors ≡ None → IsBitState state → IsBitState result }
    {
        match self.successors {
            None => next_state(state, bit),
            Some(successors) => successors.after(state, bit),
        }
    }

    /// Writes the byte above the low one, and carries into those before it.
    fn push_byte(&mut self, low: u32)
        requires low { low ≤ 131072 }
        requires room { vec_len self.old.bytes < vec_capacity self.old.bytes }
        ensures len { vec_len self.new.bytes ≡ vec_len self.old.bytes + 1 }
        ensures capacity { vec_capacity self.old.bytes ≤ vec_capacity self.new.bytes }
        ensures interval { self.new.interval ≡ self.old.interval }
        ensures successors { self.new.successors ≡ self.old.successors }
    {
        if low >= 65536 {
            carry(self.bytes.as_mut_slice());
        }
        self.bytes.push(((low >> 8) & 0xFF) as u8).unwrap();
    }
}

/// Adds 1 to the number that the bytes make.
fn carry(bytes: &mut [u8]) {
    for byte in bytes.iter_mut().rev() {
        match byte.checked_add(1) {
            Some(next) => {
                *byte = next;
                return;
            }
            None => *byte = 0,
        }
    }
}
