//! Runs of samples with difference 0, word by word (RFC 9043, section 3.8.2.2.1).
//!
//! A run index is at most `greatest_run_index`, since a line has at most `greatest_side` samples.
ghost use Rattle.std.specs.Prelude.{◌≡◌, ℕ, ◌≤◌, IfOk, OnErr};
ghost use Rattle.ffv1_bits.specs.Limits.{greatest_side, greatest_run_index};
ghost use Rattle.ffv1_bits.specs.Reader.{Reading};
ghost use Rattle.ffv1_rice.specs.Runs.{run_exponent, IsRead, IsShortWord, RunsAreOne, WordsAreOne, WordsSpellRuns, CutsExcludeRuns};
ghost use Rattle.ffv1_rice.specs.declared.code.CodeFault.TheVariants as CodeFault;

use crate::code::CodeFault;
use ffv1_bits::Bits;
use std::marker::Model;

/// One word of a run. Samples count from the next one of the line.
#[derive(Clone, Copy, Debug, PartialEq, Eq)]
pub enum RunWord {
    /// This many samples, all in the line, and the run goes on where the line does.
    Full(u32),
    /// This many samples, fewer than the line has left, and then a level.
    Rest(u32),
    /// All samples up to the line's end.
    ToEnd,
}

/// The exponent of a whole length at each run index.
const LOG2_RUN: [u8; 41] = [
    0, 0, 0, 0, 1, 1, 1, 1, 2, 2, 2, 2, 3, 3, 3, 3, 4, 4, 5, 5, 6, 6, 7, 7, 8, 9, 10, 11, 12, 13,
    14, 15, 16, 17, 18, 19, 20, 21, 22, 23, 24,
];

/// The run index of a plane, from 0 to `greatest_run_index`.
#[derive(Drop)]
pub struct RunIndex {
    index: usize,
}

impl Model for RunIndex {
    ghost use Rattle.std.specs.Prelude.{ℕ, ◌≤◌};
    ghost use Rattle.ffv1_bits.specs.Limits.{greatest_run_index};

    ghost Value = { ℕ };

    ghost view = { λ i. i.index };

    ghost invariant = { λ i. i.index ≤ greatest_run_index };
}

/// The exponent of a run's whole length at an index.
#[tactic(auto, unfolding(crate::specs::Runs::run_exponent), using(crate::proofs::Words::exponent_low))]
fn exponent(index: usize) -> u32
    requires { index ≤ greatest_run_index }
    ensures value { result ≡ run_exponent index }
    ensures low { result ≤ 16 }
    ensures last { index ≡ greatest_run_index → result ≡ 16 }
{
    u32::from(LOG2_RUN[index])
}

impl RunIndex {
    /// The index at a plane's start, 0.
    pub fn start() -> Self
        ensures { result ≡ 0 }
    {
        RunIndex { index: 0 }
    }

    /// The index, at most `greatest_run_index`.
    pub fn index(&self) -> usize
        ensures value { result ≡ self.now }
        ensures bound { result ≤ greatest_run_index }
    {
        self.index
    }

    /// The exponent of a run's whole length at the index: a word of one bit 1 is of 2^exponent samples, and else as many bits give the
    /// rest.
    pub fn exponent(&self) -> u32
        ensures value { result ≡ run_exponent self.now }
        ensures low { result ≤ 16 }
    {
        exponent(self.index)
    }

    /// The next word of a run, in a line with `left` samples to come, from 1 to `greatest_side`; the index
    /// becomes that after it. A rest of `left` samples or more ends the line.
    ///
    /// The one fault is `Truncated`, where the bits end within the word; then index and bits are
    /// unchanged.
    #[tactic(auto, using(crate::proofs::Words::full_word, crate::proofs::Words::end_word, crate::proofs::Words::rest_word, crate::proofs::Words::long_word))]
    pub fn read(&mut self, bits: &mut Bits, left: u32) -> Result<RunWord, CodeFault>
        requires some_left { 1 ≤ left }
        requires few_left { left ≤ greatest_side }
        ensures ok { IfOk result (λ word. IsRead left self.old word bits.old self.new bits.new) }

        // Wherever a word comes next, it is returned.
        ensures found { (word : RunWord) (next : ℕ) (after : Reading) → IsRead left self.old word bits.old next after → result ≡ Ok word }

        ensures truncated { OnErr result (result ≡ Err CodeFault.Truncated) }
        ensures err { OnErr result (IsShortWord self.old bits.old.left) }
        ensures unchanged { OnErr result ((self.new ≡ self.old) × (bits.new ≡ bits.old)) }
    {
        let exponent = exponent(self.index);
        let mut ahead = bits.fork();
        let Some(whole) = ahead.bit() else {
            return Err(CodeFault::Truncated);
        };
        if whole {
            *bits = ahead;
            let length = 1 << exponent;
            if length > left {
                return Ok(RunWord::ToEnd);
            }
            self.index += 1;
            return Ok(RunWord::Full(length));
        }
        let Some(length) = ahead.take(exponent) else {
            return Err(CodeFault::Truncated);
        };
        *bits = ahead;
        self.index = self.index.saturating_sub(1);
        if length < left {
            return Ok(RunWord::Rest(length));
        }
        Ok(RunWord::ToEnd)
    }
}

/// No bits begin with the bits of two runs.
pub fn runs_are_one()
    ensures { RunsAreOne }
{}

/// No bits begin with two words of a run.
pub fn words_are_one()
    ensures { WordsAreOne }
{}

/// The words of a run spell it.
pub fn words_spell_runs()
    ensures { WordsSpellRuns }
{}

/// Where the bits end within a word, no word is there and no run.
pub fn cuts_exclude_runs()
    ensures { CutsExcludeRuns }
{}
