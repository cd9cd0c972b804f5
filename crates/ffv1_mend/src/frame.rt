//! Frames, mended by their splice.
ghost use Rattle.std.specs.Prelude.{◌≡◌, ◌<◌, ◌↔◌, IsTrue, IfOk, ◌^◌, ◌-◌, length, min, map};
ghost use Rattle.ffv1_weave.specs.References.{values_of};
ghost use Rattle.ffv1_splice.specs.declared.place.Standing.TheVariants.{Settled};
ghost use Rattle.ffv1_mend.specs.Mended.{FrameStands, IsFrameMend, count_at, product};

use crate::mended::Mended;
use crate::part::MendedPart;
use crate::parts::splice_distinct;
use crate::state::State;
use ffv1_splice::{Place, Spliced, Standing};
use std::alloc::{AllocError, Global};

/// Whether a place is settled.
fn is_settled(place: &Place) -> bool
    ensures { IsTrue result ↔ (place.now.standing ≡ Settled) }
{
    place.standing == Standing::Settled
}

/// How many combinations the places stand for, or the greatest number that there is where there are more.
fn count_of(places: &[Place]) -> usize
    ensures { result ≡ min (product (map (λ place. count_at place.standing) places.now)) (2 ^ 64 - 1) }
{
    let mut count = 1_usize;
    for place in places {
        if let Standing::Woven(more) = place.standing {
            count = count.saturating_mul(more);
        }
    }
    count
}

/// How a frame stands whose splice this is: `Whole`, `Woven` or `Missing`.
pub fn frame_state(spliced: &Spliced) -> State
    ensures { FrameStands spliced.now result }
{
    if !spliced.is_given_back() {
        return State::Missing;
    }
    if spliced.places().iter().all(is_settled) {
        return State::Whole;
    }
    State::Woven(count_of(spliced.places()))
}

/// What becomes of a frame whose versions these are: its splice, and how it stands by that. There is one version at least.
pub(crate) fn mend_frame<'a>(alloc: Global, versions: &[&[u8]]) -> Result<Mended<'a>, AllocError>
    requires { 0 < length versions.now }
    ensures { IfOk result (IsFrameMend (values_of versions.now)) }
{
    let spliced = splice_distinct(alloc, versions)?;
    let state = frame_state(&spliced);
    let mut parts = Vec::new(alloc);
    parts.push(MendedPart::Spliced(spliced))?;
    Ok(Mended::new(state, None, parts))
}
