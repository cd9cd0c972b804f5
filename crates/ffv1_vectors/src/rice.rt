//! Rows of samples written as Golomb-Rice codes and runs (RFC 9043, section 3.8.2), in the one form that is never lenient.
//!
//! Each code is read back as soon as it is written, which brings its state up to date.
ghost use Rattle.std.specs.Prelude.{◌≤◌};
ghost use Rattle.ffv1_rice.specs.States.{IsCodedDepth};

use crate::fault::MakeFault;
use crate::plane::{CodedPlane, Residual, RowWriter};
use crate::writer::{BitWriter, Word};
use ffv1_bits::{Bits, GREATEST_SIDE};
use ffv1_rice::{ESCAPE_OFFSET, ESCAPE_ZEROS, RunIndex, RunWord, VlcState, fold};
use std::alloc::Global;

/// Writes samples as codes, each at the state of its context in its group, and as runs.
#[derive(Drop)]
pub struct RiceWriter {
    bits: BitWriter,
    index: RunIndex,
    /// The states of each group.
    states: Vec<Vec<VlcState>>,
}

impl RowWriter for RiceWriter {
    /// Begins the runs anew.
    fn begin_plane(&mut self) {
        self.index = RunIndex::start();
    }

    fn row(&mut self, plane: &CodedPlane<'_>, y: usize) -> Result<(), MakeFault> {
        let mut next = 0;
        for x in 0..plane.width {
            if x == next {
                next = self.next(plane, x, y)?;
            }
        }
        Ok(())
    }
}

impl RiceWriter {
    /// A writer that has written nothing, with these states of each group, one for each context. It takes no memory.
    pub fn new(alloc: Global, states: Vec<Vec<VlcState>>) -> RiceWriter {
        RiceWriter {
            bits: BitWriter::new(alloc),
            index: RunIndex::start(),
            states,
        }
    }

    /// The bytes that were written, and the states that are left.
    pub fn finish(self) -> (Vec<u8>, Vec<Vec<VlcState>>) {
        let RiceWriter {
            bits,
            index: _,
            states,
        } = self;
        (bits.into_bytes(), states)
    }

    /// Writes a sample, or a run with the level that ends it, and returns the column after.
    fn next(&mut self, plane: &CodedPlane<'_>, x: usize, y: usize) -> Result<usize, MakeFault> {
        let residual = plane.residual(x, y);
        if residual.context != 0 {
            self.sample(plane, residual, false)?;
            return Ok(x.saturating_add(1));
        }
        let end = run_end(plane, x, y);
        self.run(end.saturating_sub(x), plane.width.saturating_sub(x))?;
        if end < plane.width {
            self.sample(plane, plane.residual(end, y), true)?;
        }
        Ok(end.saturating_add(1))
    }

    /// Writes a run of so many samples, in a line with `left` samples to come.
    fn run(&mut self, skipped: usize, left: usize) -> Result<(), MakeFault> {
        let (Ok(skipped), Ok(left)) = (u32::try_from(skipped), u32::try_from(left)) else {
            return Err(MakeFault::NotSelf);
        };
        let mut done = 0u32;
        for _word in 0..left {
            if done >= left {
                return Ok(());
            }
            match self.run_word(skipped.saturating_sub(done), left - done)? {
                RunWord::Full(length) => done = done.saturating_add(length),
                RunWord::Rest(_) | RunWord::ToEnd => return Ok(()),
            }
        }
        Ok(())
    }

    /// Writes the next word of a run of so many samples, in a line with `left` samples to come.
    fn run_word(&mut self, skipped: u32, left: u32) -> Result<RunWord, MakeFault> {
        if left == 0 || left > GREATEST_SIDE {
            return Err(MakeFault::NotSelf);
        }
        let exponent = self.index.exponent();
        let run = next_run_word(exponent, skipped, left);
        let word = match run {
            RunWord::Full(_) | RunWord::ToEnd => Word {
                number: 1,
                length: 1,
            },
            RunWord::Rest(number) => Word {
                number,
                length: 1 + exponent,
            },
        };
        let bytes = word.bytes();
        if self.index.read(&mut Bits::new(&bytes), left) != Ok(run) {
            return Err(MakeFault::NotSelf);
        }
        self.bits.word(word)?;
        Ok(run)
    }

    /// Writes a sample, or a run's level, by the code of its difference.
    fn sample(
        &mut self,
        plane: &CodedPlane<'_>,
        residual: Residual,
        level: bool,
    ) -> Result<(), MakeFault> {
        let Some(states) = self.states.get_mut(plane.group) else {
            return Err(MakeFault::NotSelf);
        };
        let Some(state) = states.get_mut(residual.context.unsigned_abs() as usize) else {
            return Err(MakeFault::NotSelf);
        };
        let depth = plane.coding.depth;
        let difference = residual.difference;
        let word = code_of(state, depth, coded_value(difference, level));
        let bytes = word.bytes();
        if state.decode_at(&mut Bits::new(&bytes), depth, level) != Ok(difference) {
            return Err(MakeFault::NotSelf);
        }
        self.bits.word(word)?;
        Ok(())
    }
}

/// The column after a run from this one on: that of the first sample that is not what is predicted of it, or the row's end.
fn run_end(plane: &CodedPlane<'_>, x: usize, y: usize) -> usize {
    for end in x..plane.width {
        if plane.residual(end, y).difference != 0 {
            return end;
        }
    }
    plane.width
}

/// The next word of a run of so many samples, where a whole length has this exponent.
fn next_run_word(exponent: u32, skipped: u32, left: u32) -> RunWord
    requires { exponent ≤ 16 }
{
    let whole = 1 << exponent;
    if whole <= skipped {
        RunWord::Full(whole)
    } else if skipped < left {
        RunWord::Rest(skipped)
    } else {
        RunWord::ToEnd
    }
}

/// The value that is coded of a difference: a run's level is never 0.
fn coded_value(difference: i32, level: bool) -> i32 {
    if level && difference > 0 {
        difference - 1
    } else {
        difference
    }
}

/// The code of a value under a state (section 3.8.2.1).
fn code_of(state: &VlcState, depth: u32, value: i32) -> Word
    requires { IsCodedDepth depth }
{
    let (drift, _error_sum, bias, count) = state.parts();
    let coded = fold(value.wrapping_sub(bias), depth);
    let flipped = if 2 * drift < -(count as i32) {
        (-1i32).wrapping_sub(coded)
    } else {
        coded
    };
    number_code(sign_number(flipped), state.k(), depth)
}

/// The place of a value in 0, -1, 1, -2, ..
fn sign_number(value: i32) -> u32 {
    let double = value.unsigned_abs().wrapping_mul(2);
    if value < 0 {
        double.wrapping_sub(1)
    } else {
        double
    }
}

/// The code of a number at a parameter: so many zeros, a one and the lowest bits, or the escape with a suffix of `depth` bits.
fn number_code(number: u32, k: u32, depth: u32) -> Word
    requires parameter { k ≤ 16 }
    requires depth { IsCodedDepth depth }
{
    let zeros = number >> k;
    if zeros < ESCAPE_ZEROS {
        Word {
            number: (1 << k) | (number % (1 << k)),
            length: zeros + 1 + k,
        }
    } else {
        Word {
            number: number.wrapping_sub(ESCAPE_OFFSET),
            length: ESCAPE_ZEROS + depth,
        }
    }
}
