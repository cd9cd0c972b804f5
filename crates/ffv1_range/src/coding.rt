//! The range coder (RFC 9043, section 3.8.1.1): bits that are coded at states, read from the front of a content.
//!
//! An `Interval` keeps its range in 256..=65280 and its offset below the range. A decoder that met a fault keeps it.
ghost use Rattle.std.specs.Prelude.{◌≡◌, ◌++◌, ◌∷◌, [], replicate, true, ℕ, ◌+◌, ◌≤◌, ◌<◌, length, Ok, IsOk, IfOk, OnErr, false, true};
ghost use Rattle.ffv1_range.specs.Coding.{start_of, started, bit_at, refilled, slot_at, record_mode, header_mode, sentinel_mode};
ghost use Rattle.ffv1_range.specs.Forms.{ReadsForm, same_fault, slot_form};
ghost use Rattle.ffv1_range.specs.Inner.Forms.{Gives};
ghost use Rattle.ffv1_range.specs.Decoder.{reader_at, ReadsBit, KeepsFault, KeepsStates, IsCoder, Starts, EndsAt, EndsSo, is_clean};
ghost use Rattle.ffv1_range.specs.Views.{coder_of};
ghost use Rattle.ffv1_range.specs.Transitions.{state_following};

use crate::transitions::{Transitions, standard};
use std::marker::Model;

/// Why a range-coded value can't be read.
#[derive(Clone, Copy, Debug, PartialEq, Eq)]
pub enum RangeFault {
    /// The first two bytes make 65280 or more.
    Start,
    /// A byte past the content was wanted, and no zero bytes follow it.
    Short,
    /// The exponent of a symbol would pass 31.
    SymbolTooLong,
}

/// How the values of a slice of coder_type 1 or 2 end.
#[derive(Clone, Copy, Debug, PartialEq, Eq)]
pub struct RangeEnd {
    /// The bit at state 129 after the last sample.
    pub bit: bool,
    /// The offset in the range after that bit.
    pub low: u32,
    /// How many bytes were not read, the zero byte after the content among them.
    pub spare: usize,
}

impl RangeEnd {
    /// Whether it is the end that an encoder makes (own): the zero byte after the content was the last to be read, the bit is 0, and the content
    /// is as short as can be. So the offset is below 256.
    pub fn is_clean(&self) -> bool
        ensures { result ≡ is_clean self.now }
    {
        self.spare == 0 && !self.bit && self.low < 256
    }
}

/// The range, the offset in it, and the bytes still to come: those of the content, and zero bytes after them. It has whole words alone,
/// so that it is kept in registers.
#[derive(Clone, Copy)]
struct Interval<'a> {
    range: u64,
    low: u64,
    rest: &'a [u8],
    zeros: usize,
}

/// Reads range-coded values from the front of a content. Once it met a fault, it returns that fault.
#[derive(Drop)]
pub struct RangeDecoder<'a> {
    interval: Interval<'a>,
    total: usize,
    closed: bool,
    transitions: &'a Transitions,
    fault: Option<RangeFault>,
}

impl<'a> Model for RangeDecoder<'a> {
    ghost use Rattle.std.specs.Prelude.{◌≡◌, ◌≤◌, ◌+◌, length, false};
    ghost use Rattle.ffv1_range.specs.Decoder.{Reader, at_of, IsCoder};
    ghost use Rattle.ffv1_range.specs.Views.{coder_of};

    ghost Value = { Reader };

    ghost view = { λ a. record { mode = record { closed = a.closed; transitions = a.transitions.now }; total = a.total; at = at_of a.fault (coder_of a.interval) } };

    ghost invariant = { λ a. IsCoder a.interval.range a.interval.low × (a.closed ≡ false → length a.interval.rest.now + a.interval.zeros + 2 ≤ a.total) };
}

/// A decoder at the start of a content and of the zero bytes after it, at most one in sentinel mode and none in closed mode.
fn start<'a>(
    content: &'a [u8],
    zeros: usize,
    closed: bool,
    transitions: &'a Transitions,
) -> Result<RangeDecoder<'a>, RangeFault>
    requires one { zeros ≤ 1 }
    requires none { closed ≡ true → zeros ≡ 0 }
    ensures { Starts (record { closed = closed; transitions = transitions.now }) (content.now ++ replicate zeros 0) result }
{
    let interval = first_interval(content, zeros, closed)?;
    Ok(RangeDecoder {
        interval,
        total: content.len() + zeros,
        closed,
        transitions,
        fault: None,
    })
}

/// The interval of the first two bytes.
#[tactic(auto, unfolding(crate::specs::Coding::start_of))]
fn first_interval(content: &[u8], zeros: usize, closed: bool) -> Result<Interval<'_>, RangeFault>
    requires one { zeros ≤ 1 }
    requires none { closed ≡ true → zeros ≡ 0 }
    ensures value { Gives coder_of result (start_of closed (content.now ++ replicate zeros 0)) }
    ensures coder { IfOk result (λ x. IsCoder x.range x.low) }
    ensures rest { IfOk result (λ x. closed ≡ false → length x.rest.now + x.zeros + 2 ≤ length content.now + zeros) }
{
    match content {
        [first, second, rest @ ..] => interval_from(
            256 * u64::from(*first) + u64::from(*second),
            rest,
            zeros,
        ),
        [first, rest @ ..] if closed || zeros == 1 => {
            interval_from(256 * u64::from(*first), rest, 0)
        }
        [] if closed => interval_from(0, content, 0),
        _ => Err(RangeFault::Short),
    }
}

/// The whole range, and the offset of the first bytes in it.
fn interval_from(low: u64, rest: &[u8], zeros: usize) -> Result<Interval<'_>, RangeFault>
    ensures value { Gives coder_of result (started low (rest.now ++ replicate zeros 0)) }
    ensures coder { IfOk result (λ x. IsCoder x.range x.low) }
    ensures rest { IfOk result (λ x. x.rest.now ≡ rest.entry.now) }
    ensures zeros { IfOk result (λ x. x.zeros ≡ zeros) }
{
    if low >= 65280 {
        return Err(RangeFault::Start);
    }
    Ok(Interval {
        range: 65280,
        low,
        rest,
        zeros,
    })
}

impl<'a> RangeDecoder<'a> {
    /// A decoder of a content that zero bytes follow (closed mode, RFC 9043, section 3.8.1.1.1), by the default table.
    ///
    /// Refused with `Start` where the first two bytes, most significant first, make 65280 or more.
    pub fn closed(content: &'a [u8]) -> Result<RangeDecoder<'a>, RangeFault>
        ensures { Starts record_mode content.now result }
    {
        start(content, 0, true, standard())
    }

    /// A decoder of a content that nothing follows (sentinel mode, RFC 9043, section 3.8.1.1.1), by the default table.
    ///
    /// Refused with `Short` where there are fewer than two bytes, and with `Start` where the first two, most
    /// significant first, make 65280 or more.
    pub fn sentinel(content: &'a [u8]) -> Result<RangeDecoder<'a>, RangeFault>
        ensures { Starts header_mode content.now result }
    {
        start(content, 0, false, standard())
    }

    /// A decoder of a slice of coder_type 1 or 2 by these transitions: one zero byte follows its content (own), and nothing that byte. The
    /// byte counts as one of the content.
    ///
    /// Refused with `Short` where the content is empty, and with `Start` where its first two bytes, that byte included, make 65280 or more,
    /// the most significant first.
    pub fn slice(
        content: &'a [u8],
        transitions: &'a Transitions,
    ) -> Result<RangeDecoder<'a>, RangeFault>
        ensures { Starts (sentinel_mode transitions.now) (content.now ++ 0 ∷ []) result }
    {
        start(content, 1, false, transitions)
    }

    /// Reads the bit at state 129 that ends the values, and returns the place, in bytes from the content's start, of the
    /// first byte after them: one less than the bytes that were read. Only in sentinel mode.
    ///
    /// Refused with `Short` where that bit wants a byte past the content, or with the fault that was met before.
    pub fn finish(self) -> Result<usize, RangeFault>
        requires { self.mode.closed ≡ false }
        ensures { EndsAt self.entry result }
    {
        let _closed = self.closed;
        let mut decoder = self;
        let mut state = 129;
        decoder.bit(&mut state)?;
        let Interval { rest, zeros, .. } = decoder.interval;
        Ok(decoder.total - rest.len() - zeros - 1)
    }

    /// Reads the bit at state 129 after the last sample of a slice of coder_type 1 or 2 (RFC 9043, section 3.8.1.1.1), and returns how the slice ends. Only in sentinel
    /// mode.
    ///
    /// Refused with `Short` where that bit wants a byte past the content, or with the fault that was met before.
    pub fn end(self) -> Result<RangeEnd, RangeFault>
        requires { self.mode.closed ≡ false }
        ensures { EndsSo self.entry result }
    {
        let _closed = self.closed;
        let mut decoder = self;
        let mut state = 129;
        let bit = decoder.bit(&mut state)?;
        let Interval {
            low,
            rest,
            zeros,
            ..
        } = decoder.interval;
        Ok(RangeEnd {
            bit,
            low: low as u32,
            spare: rest.len() + zeros,
        })
    }

    /// Reads one bit at a state (RFC 9043, section 3.8.1.1). The state becomes the one that follows the bit.
    ///
    /// Refused with `Short` where a byte past the content is wanted in sentinel mode. A fault is returned by each later call too, and
    /// leaves the state as it was.
    #[inline(always)]
    pub fn bit(&mut self, state: &mut u8) -> Result<bool, RangeFault>
        ensures read { ReadsBit self.old state.old result self.new state.new }
        ensures kept { KeepsFault self.old result self.new }
        ensures unchanged { OnErr result (state.new ≡ state.old) }
    {
        if let Some(fault) = self.fault {
            return Err(fault);
        }
        match branched_bit_of(self.closed, self.interval, *state) {
            Ok((bit, interval)) => {
                self.go_on(state, bit, interval);
                Ok(bit)
            }
            Err(fault) => {
                self.keep_fault(fault);
                Err(fault)
            }
        }
    }

    /// Reads one bit at a state, as `bit` does, with no branch on it: for one that is as likely 0 as 1.
    #[inline(always)]
    fn even_bit(&mut self, state: &mut u8) -> Result<bool, RangeFault>
        ensures read { ReadsBit self.old state.old result self.new state.new }
        ensures kept { KeepsFault self.old result self.new }
        ensures unchanged { OnErr result (state.new ≡ state.old) }
    {
        if let Some(fault) = self.fault {
            return Err(fault);
        }
        match chosen_bit_of(self.closed, self.interval, *state) {
            Ok((bit, interval)) => {
                self.go_on(state, bit, interval);
                Ok(bit)
            }
            Err(fault) => {
                self.keep_fault(fault);
                Err(fault)
            }
        }
    }

    /// Goes on from an interval, after this bit at a state.
    #[inline(always)]
    fn go_on(&mut self, state: &mut u8, bit: bool, interval: Interval<'a>)
        requires alive { IsOk self.old.at }
        requires coder { IsCoder interval.range interval.low }
        requires rest { self.old.mode.closed ≡ false → length interval.rest.now + interval.zeros + 2 ≤ self.old.total }
        ensures place { self.new ≡ reader_at self.old (Ok (coder_of interval.entry)) }
        ensures state { state.new ≡ state_following self.old.mode.transitions state.old bit }
    {
        self.interval = interval;
        *state = self.transitions.after(*state, bit);
    }

    /// Reads one bit at a slot of the states.
    #[inline(always)]
    pub(crate) fn slot(&mut self, states: &mut [u8; 32], slot: usize) -> Result<bool, RangeFault>
        requires { slot < 32 }
        ensures read { ReadsForm same_fault (slot_form slot) self.old states.old result self.new states.new }
        ensures kept { KeepsFault self.old result self.new }
        ensures states { KeepsStates self.old states.old states.new }
    {
        self.bit(&mut states[slot])
    }

    /// Reads one bit at a slot of the states, as `slot` does, with no branch on it.
    #[inline(always)]
    pub(crate) fn even_slot(
        &mut self,
        states: &mut [u8; 32],
        slot: usize,
    ) -> Result<bool, RangeFault>
        requires { slot < 32 }
        ensures read { ReadsForm same_fault (slot_form slot) self.old states.old result self.new states.new }
        ensures kept { KeepsFault self.old result self.new }
        ensures states { KeepsStates self.old states.old states.new }
    {
        self.even_bit(&mut states[slot])
    }

    /// Keeps a fault, so that it is returned from then on.
    pub(crate) fn keep_fault(&mut self, fault: RangeFault)
        ensures { self.new ≡ reader_at self.old (Err fault) }
    {
        self.fault = Some(fault);
    }
}

/// One bit at a state: the part that holds the offset is computed.
#[inline(always)]
#[tactic(auto, unfolding(crate::specs::Coding::bit_at))]
fn branched_bit_of(
    closed: bool,
    interval: Interval<'_>,
    state: u8,
) -> Result<(bool, Interval<'_>), RangeFault>
    requires { IsCoder interval.range interval.low }
    ensures value { Gives (λ x. (x.0, coder_of x.1)) result (bit_at closed (coder_of interval.entry) state) }
    ensures coder { IfOk result (λ x. IsCoder x.1.range x.1.low) }
    ensures rest { IfOk result (λ x. length x.1.rest.now + x.1.zeros ≤ length interval.entry.rest.now + interval.entry.zeros) }
{
    let part = (interval.range * u64::from(state)) >> 8;
    let low_part = interval.range - part;
    if interval.low < low_part {
        let next = refilled(
            closed,
            Interval {
                range: low_part,
                low: interval.low,
                ..interval
            },
        )?;
        return Ok((false, next));
    }
    let next = refilled(
        closed,
        Interval {
            range: part,
            low: interval.low - low_part,
            ..interval
        },
    )?;
    Ok((true, next))
}

/// One bit at a state: both parts are computed, and one is chosen.
#[inline(always)]
#[tactic(auto, unfolding(crate::specs::Coding::bit_at))]
fn chosen_bit_of(
    closed: bool,
    interval: Interval<'_>,
    state: u8,
) -> Result<(bool, Interval<'_>), RangeFault>
    requires { IsCoder interval.range interval.low }
    ensures value { Gives (λ x. (x.0, coder_of x.1)) result (bit_at closed (coder_of interval.entry) state) }
    ensures coder { IfOk result (λ x. IsCoder x.1.range x.1.low) }
    ensures rest { IfOk result (λ x. length x.1.rest.now + x.1.zeros ≤ length interval.entry.rest.now + interval.entry.zeros) }
{
    let part = (interval.range * u64::from(state)) >> 8;
    let low_part = interval.range - part;
    let bit = interval.low >= low_part;
    let range = if bit { part } else { low_part };
    let low = if bit {
        interval.low - low_part
    } else {
        interval.low
    };
    let next = refilled(
        closed,
        Interval {
            range,
            low,
            ..interval
        },
    )?;
    Ok((bit, next))
}

/// A byte more where the range is below 256.
#[inline(always)]
fn refilled(closed: bool, cut: Interval<'_>) -> Result<Interval<'_>, RangeFault>
    requires some { 1 ≤ cut.range }
    requires narrow { cut.range ≤ 65280 }
    requires inside { cut.low < cut.range }
    ensures value { Gives coder_of result (refilled closed cut.entry.range cut.entry.low (coder_of cut.entry).rest) }
    ensures coder { IfOk result (λ x. IsCoder x.range x.low) }
    ensures rest { IfOk result (λ x. length x.rest.now + x.zeros ≤ length cut.entry.rest.now + cut.entry.zeros) }
{
    if cut.range >= 256 {
        return Ok(cut);
    }
    match cut.rest {
        [byte, rest @ ..] => Ok(Interval {
            range: cut.range << 8,
            low: (cut.low << 8) + u64::from(*byte),
            rest,
            zeros: cut.zeros,
        }),
        [] if cut.zeros > 0 => Ok(Interval {
            range: cut.range << 8,
            low: cut.low << 8,
            rest: cut.rest,
            zeros: cut.zeros - 1,
        }),
        [] if closed => Ok(Interval {
            range: cut.range << 8,
            low: cut.low << 8,
            rest: cut.rest,
            zeros: 0,
        }),
        [] => Err(RangeFault::Short),
    }
}
