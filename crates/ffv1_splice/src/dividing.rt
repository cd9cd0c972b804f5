//! What stands in the hole of a splice, divided from its end alone.
ghost use Rattle.std.specs.Prelude.{◌≡◌, ◌<◌, length, All, IfOk};
ghost use Rattle.ffv1_weave.specs.References.{values_of};
ghost use Rattle.ffv1_splice.specs.Splice.{IsDivisionOf};

use crate::place::Place;
use crate::placing::{place_ending_at, write_at};
use crate::tally::least_at;
use std::alloc::{AllocError, Global};

/// Divides copies, of which there is one at least, place by place from their end, and writes each place over the payload's bytes. The
/// places from the end on, and where the last of them begins: what stands before it can't be divided. Each copy is as long as the
/// payload.
pub(crate) fn divide(
    alloc: Global,
    copies: &[&[u8]],
    payload: &mut [u8],
) -> Result<(Vec<Place>, usize), AllocError>
    requires some { 0 < length copies.now }
    requires long { All (λ copy. length copy.now ≡ length payload.old) copies.now }
    ensures { IfOk result (λ divided. IsDivisionOf (values_of copies.now)
        (record { places = divided.0.items; front = divided.1; payload = payload.new })) }
{
    let mut places = Vec::new(alloc);
    let mut end = payload.len();
    while let Some(place) = place_ending_at(alloc, copies, end, payload)? {
        places.push(place)?;
        end = place.start;
    }
    write_at(payload, 0, least_at(copies, 0, end));
    Ok((places, end))
}
