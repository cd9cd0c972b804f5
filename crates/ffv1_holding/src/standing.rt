//! How a tile stands (own): by its best slices, those of the least error_status (RFC 9043, section 4.9.2).
ghost use Rattle.std.specs.Prelude.{◌≡◌};
ghost use Rattle.ffv1_holding.specs.Sets as set;
ghost use Rattle.ffv1_holding.specs.TileState.{tile_state_of, IsLeastStatus};
ghost use Rattle.ffv1_holding.specs.TileStates.{state_shown};

use crate::shelf::Shelf;

/// Which slices of a tile count: those of the least error_status.
#[derive(Clone, Copy, Debug)]
pub enum TileState<'a> {
    /// No slice is held.
    Missing,
    /// One slice has the least error_status.
    Settled(&'a [u8]),
    /// So many slices have it.
    Disputed(usize),
}

/// The least error_status of slices.
pub(crate) fn least_status(slices: &Shelf<'_>) -> Option<u8>
    ensures { IsLeastStatus (set.items slices.now) result }
{
    let mut least = None;
    for place in 0..slices.len() {
        let here = slices.status(place);
        least = match least {
            Some(before) if before <= here => Some(before),
            _ => Some(here),
        };
    }
    least
}

/// How the tile of these slices stands.
pub(crate) fn state<'a>(slices: &Shelf<'a>) -> TileState<'a>
    ensures { state_shown result ≡ tile_state_of (set.items slices.now) }
{
    let Some(least) = least_status(slices) else {
        return TileState::Missing;
    };
    let mut found = TileState::Missing;
    for place in 0..slices.len() {
        let slice = slices.get(place);
        if slices.status(place) == least {
            found = match found {
                TileState::Missing => TileState::Settled(slice),
                TileState::Settled(_) => TileState::Disputed(2),
                TileState::Disputed(slices) => TileState::Disputed(slices + 1),
            };
        }
    }
    found
}
