//! What is predicted of a sample from those before it (RFC 9043, sections 3.1 to 3.5).
ghost use Rattle.std.specs.Prelude.{◌≡◌, ℕ, ◌<◌, ◌^◌};
ghost use Rattle.ffv1_rice.specs.States.{IsCodedDepth, IsDifference};
ghost use Rattle.ffv1_plane.specs.Samples.{prediction_of, difference_of};
ghost use Rattle.ffv1_plane.specs.Inner.Sums.{IsSumModulo};

use std::marker::Model;

/// The samples about a place (RFC 9043, section 3.2).
#[derive(Clone, Copy)]
pub struct Neighbours {
    pub left: u32,
    pub top: u32,
    pub top_left: u32,
    pub top_right: u32,
    pub left_of_left: u32,
    pub top_of_top: u32,
}

impl Model for Neighbours {
    ghost use Rattle.ffv1_plane.specs.Samples.{SamplesAbout};

    ghost Value = { SamplesAbout };

    ghost view = { λ n. record {
      left = n.left;
      top = n.top;
      top_left = n.top_left;
      top_right = n.top_right;
      left_of_left = n.left_of_left;
      top_of_top = n.top_of_top;
    } };

    ghost inverse = { λ n. record {
      left = n.left;
      top = n.top;
      top_left = n.top_left;
      top_right = n.top_right;
      left_of_left = n.left_of_left;
      top_of_top = n.top_of_top;
    } };
}

impl Neighbours {
    /// The median of the sample to the left, the one above, and their sum less the one between them (section 3.3).
    #[tactic(auto, unfolding(crate::specs::Samples::prediction_of))]
    pub fn prediction(&self) -> u32
        ensures value { result ≡ prediction_of self.now }
        ensures small { (bound : ℕ) → self.now.left < bound → self.now.top < bound → result < bound }
    {
        let (left, top) = (i64::from(self.left), i64::from(self.top));
        let sum = left + top - i64::from(self.top_left);
        let slope = sum.max(left.min(top)).min(left.max(top));
        slope as u32
    }
}

/// The sample of a coded depth with this difference from its prediction (section 3.8).
#[inline(always)]
pub(crate) fn sample_of(context: i32, prediction: u32, difference: i32, depth: u32) -> u32
    requires depth { IsCodedDepth depth }
    requires range { IsDifference depth difference }
    ensures value { difference_of depth context prediction result ≡ difference }
    ensures small { result < 2 ^ depth }
{
    if context < 0 {
        added(prediction, -difference, depth)
    } else {
        added(prediction, difference, depth)
    }
}

/// The sum modulo 2^depth.
#[inline(always)]
fn added(prediction: u32, change: i32, depth: u32) -> u32
    requires { IsCodedDepth depth }
    ensures { IsSumModulo depth prediction change result }
{
    change.cast_unsigned().wrapping_add(prediction) % (1 << depth)
}
