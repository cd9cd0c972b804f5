//! A stretch of a file.

use ffv1_mend::{Kind, Part};
use std::marker::Model;

/// A stretch: a run of bytes of a file, which copies have at places of their own.
#[derive(Debug, Drop)]
pub struct Stretch {
    /// What vouches for its bytes.
    pub(crate) kind: Kind,
    /// How many bytes it has: 1 to 2^30.
    pub(crate) size: usize,
    /// The copy whose bytes stand where nothing vouches for any, counted from 0. It has the stretch.
    pub(crate) from: usize,
    /// For each copy where it has the stretch, counted in bytes from the copy's start, if it has it.
    pub(crate) places: Vec<Option<u64>>,
    /// The frames that lie in it, where it is an element with a CRC-32.
    pub(crate) parts: Vec<Part>,
}

impl Model for Stretch {
    ghost use Rattle.ffv1_stretches.specs.Stretches.{StretchValue};

    ghost Value = { StretchValue };

    ghost view = { λ a. record { kind = a.kind; size = a.size; from = a.from; places = a.places.items; parts = a.parts.items } };
}
