//! Of which frames slices are held (own): of those that a record's rules allow, or of any, keyframes or not (RFC 9043, section 4.4).
ghost use Rattle.std.specs.Prelude.{Bool, true};
ghost use Rattle.ffv1_range.specs.declared.frames.Frames.{Frames};
ghost use Rattle.ffv1_holding.specs.Reels.{are_ruled};

use ffv1_range::{Recorded, Recording, Setup};

/// What a record is read as, and of which frames its slices may be: those of a `Setup` are of keyframes.
pub trait Framed: Recorded {
    // whether slices of these frames are held
    ghost allows: { Frames → Bool };
}

impl Framed for Setup {
    ghost allows = { are_ruled };
}

impl Framed for Recording {
    ghost allows = { λ _. true };
}
