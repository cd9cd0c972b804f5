//! The adaptive state of a context (RFC 9043, sections 3.8.2.3 and 3.8.2.4).
//!
//! A state counts 1 to 128 values, and its drift lies between -count and 0. Where differences have n bits, 8 to 17, its
//! error sum is at most 2^(n-1) for each value counted, so that its parameter is at most n - 1.
ghost use Rattle.std.specs.Prelude.{◌≡◌, ℕ, ◌-◌, ◌^◌, pos, ◌≤◌, ◌<◌};
ghost use Rattle.ffv1_rice.specs.States.{IsCodedDepth, greatest_depth, IsDifference, half, fold, start_state, IsParameter};
ghost use Rattle.ffv1_rice.specs.States.{with_value, counted, corrected, updated, IsState, coded_value, flipped, sign_number, StatesStay};
ghost use Rattle.ffv1_rice.specs.Inner.States.{IsUncounted, IsUncorrected};

use std::marker::Model;

/// The numbers of a state while it is brought up to date.
#[derive(Clone, Copy)]
struct Sums {
    drift: i32,
    error_sum: u32,
    bias: i32,
    count: u32,
}

impl Model for Sums {
    ghost use Rattle.ffv1_rice.specs.States.{ContextState};

    ghost Value = { ContextState };

    ghost view = { λ s. record { drift = s.drift; error_sum = s.error_sum; bias = s.bias; count = s.count } };

    ghost inverse = { λ s. record { drift = s.drift; error_sum = s.error_sum; bias = s.bias; count = s.count } };
}

/// The adaptive state of a context (RFC 9043, section 3.8.2.3). Contracts see its four numbers.
#[derive(Clone, Copy)]
pub struct VlcState {
    sums: Sums,
}

impl Model for VlcState {
    ghost use Rattle.ffv1_rice.specs.States.{ContextState, IsState, greatest_depth};

    ghost Value = { ContextState };

    ghost view = { λ s. s.sums };

    ghost inverse = { λ s. record { sums = s } };

    ghost invariant = { λ s. IsState greatest_depth s.sums };
}

impl Sums {
    /// A coded value enters both sums.
    fn with_value(self, value: i32) -> Self
        requires range { IsDifference greatest_depth value }
        requires sums { IsState greatest_depth self }
        ensures value { result ≡ with_value self value }
        ensures range { IsUncounted greatest_depth result }
    {
        Sums {
            drift: self.drift + value,
            error_sum: self.error_sum + value.unsigned_abs(),
            ..self
        }
    }

    /// The value is counted; at a count of 128 the sums and the count are halved first.
    fn counted(self) -> Self
        requires { IsUncounted greatest_depth self }
        ensures value { result ≡ counted self }
        ensures range { IsUncorrected greatest_depth result }
    {
        if self.count == 128 {
            Sums {
                drift: halved(self.drift),
                error_sum: self.error_sum / 2,
                count: self.count / 2 + 1,
                ..self
            }
        } else {
            Sums {
                count: self.count + 1,
                ..self
            }
        }
    }

    /// The bias follows a drift that is out of its bounds.
    fn corrected(self) -> Self
        requires { IsUncorrected greatest_depth self }
        ensures value { result ≡ corrected self }
        ensures range { IsState greatest_depth result }
    {
        let count = self.count as i32;
        if self.drift + count <= 0 {
            return Sums {
                drift: (self.drift + count).max(1 - count),
                bias: (self.bias - 1).max(-128),
                ..self
            };
        }
        if self.drift > 0 {
            return Sums {
                drift: (self.drift - count).min(0),
                bias: (self.bias + 1).min(127),
                ..self
            };
        }
        self
    }
}

/// Half of the drift, rounded down. One value in 64 comes here, and the others pass by it in one test.
#[cold]
#[inline(never)]
fn halved(drift: i32) -> i32
    ensures { result ≡ half drift }
{
    drift.div_euclid(2)
}

/// Half of the numbers of a coded depth: 128 at a depth of 8.
#[inline(always)]
pub(crate) fn half_of_depth(depth: u32) -> i32
    requires { IsCodedDepth depth }
    ensures { result ≡ pos (2 ^ (depth - 1)) }
{
    (1u32 << (depth - 1)) as i32
}

/// The number from -2^(n-1) to 2^(n-1) - 1 that is `d` modulo 2^n, where the coded depth n is 8 to 17 bits (RFC 9043,
/// section 3.8).
#[inline(always)]
pub fn fold(d: i32, depth: u32) -> i32
    requires { IsCodedDepth depth }
    ensures value { result ≡ fold depth d }
    ensures range { IsDifference depth result }
{
    let half = half_of_depth(depth);
    let raised = d.cast_unsigned().wrapping_add(half as u32);
    (raised % (1 << depth)) as i32 - half
}

impl VlcState {
    /// The state of a context in which nothing was coded (RFC 9043, section 3.8.2.4).
    pub fn start() -> Self
        ensures { result ≡ start_state }
    {
        VlcState {
            sums: Sums {
                drift: 0,
                error_sum: 4,
                bias: 0,
                count: 1,
            },
        }
    }

    /// The Golomb-Rice parameter: the least `k` with `count * 2^k >= error_sum`. It is less than the coded depth, so at most 7
    /// at a depth of 8.
    pub fn k(&self) -> u32
        ensures parameter { IsParameter self.now result }
        ensures bound { result ≤ 16 }
        ensures low { (n : ℕ) → IsCodedDepth n → IsState n self.now → result ≤ n - 1 }
    {
        let count_zeros = self.sums.count.leading_zeros();
        let k = count_zeros.saturating_sub(self.sums.error_sum.leading_zeros());
        if self.sums.count << k >= self.sums.error_sum {
            k
        } else {
            k + 1
        }
    }

    /// Drift, error sum, bias and count, in this order.
    pub fn parts(&self) -> (i32, u32, i32, u32)
        ensures drift { result.0 ≡ self.now.drift }
        ensures error_sum { result.1 ≡ self.now.error_sum }
        ensures bias { result.2 ≡ self.now.bias }
        ensures count { result.3 ≡ self.now.count }
        ensures bounds { IsState greatest_depth self.now }
    {
        let sums = self.sums;
        (sums.drift, sums.error_sum, sums.bias, sums.count)
    }

    /// Adds a coded value.
    #[inline(always)]
    pub(crate) fn update(&mut self, value: i32)
        requires { IsDifference greatest_depth value }
        ensures { self.new ≡ updated self.old value }
    {
        let next = self.updated(value).sums;
        // Few values move the bias. Where it stays, it is not written.
        if next.bias != self.sums.bias {
            self.sums.bias = next.bias;
        }
        self.sums.drift = next.drift;
        self.sums.error_sum = next.error_sum;
        self.sums.count = next.count;
    }

    /// The state once a coded value was added.
    fn updated(self, value: i32) -> Self
        requires { IsDifference greatest_depth value }
        ensures { result ≡ updated self value }
    {
        VlcState {
            sums: self.sums.with_value(value).counted().corrected(),
        }
    }

    /// The coded value that a code's number stands for.
    pub(crate) fn coded(&self, number: u32) -> i32
        requires { number < 2 ^ greatest_depth }
        ensures number { sign_number (flipped self.now result) ≡ number }
        ensures range { (n : ℕ) → IsCodedDepth n → number < 2 ^ n → IsDifference n result }
    {
        self.flipped(signed(number))
    }

    /// The value of which this was coded.
    #[tactic(auto, using(crate::proofs::Folds::fold_back))]
    #[inline(always)]
    pub(crate) fn value(&self, coded: i32, depth: u32) -> i32
        requires depth { IsCodedDepth depth }
        requires range { IsDifference depth coded }
        ensures coded { coded_value depth self.now result ≡ coded }
        ensures range { IsDifference depth result }
    {
        fold(coded + self.sums.bias, depth)
    }

    /// The coded value flipped where the drift is low. Flipped twice it is as before.
    fn flipped(&self, coded: i32) -> i32
        requires { IsDifference greatest_depth coded }
        ensures again { flipped self.now result ≡ coded }
        ensures range { (n : ℕ) → IsCodedDepth n → IsDifference n coded → IsDifference n result }
    {
        if 2 * self.sums.drift + (self.sums.count as i32) < 0 {
            -1 - coded
        } else {
            coded
        }
    }
}

/// The signed number with this place in 0, -1, 1, -2, ..
fn signed(number: u32) -> i32
    requires { number < 2 ^ greatest_depth }
    ensures place { sign_number result ≡ number }
    ensures range { (n : ℕ) → IsCodedDepth n → number < 2 ^ n → IsDifference n result }
{
    let half = (number / 2) as i32;
    if number % 2 == 1 { -half - 1 } else { half }
}

/// A state stays within the bounds of its coded depth, and its parameter is below that depth.
pub fn states_stay()
    ensures { StatesStay }
{}
