//! Why a payload is no frame (own: the order of faults).
ghost use Rattle.std.specs.Prelude.{◌≡◌};
ghost use Rattle.ffv1_picture.specs.declared.fault.FrameFault.TheVariants.{Memory};

use ffv1_plane::TileFault;
use ffv1_slice::LinkFault;
use std::alloc::{AllocError, AllocFailed};

/// Why a payload was not decoded: the first fault, in this order. Places count slices from the payload's front.
#[derive(Clone, Copy, Debug, PartialEq, Eq)]
pub enum FrameFault {
    /// The chain of slices does not reach the payload's start, or it has not as many links as there are tiles.
    Chain,
    /// The link at this place is no slice. Those before it are in order.
    Slice {
        /// The link.
        place: usize,
        /// Why it is no slice.
        cause: LinkFault,
    },
    /// The slice at this place is of another tile than that of this number. Those before it are in order.
    Order {
        /// The slice.
        place: usize,
    },
    /// All slices are in order, and this tile's spells no picture. Those of the tiles before it do.
    Tile {
        /// The tile.
        tile: usize,
        /// Why its slice spells no picture, which is a `Code`: the slice has a header of the tile.
        cause: TileFault,
    },
    /// An allocation of memory failed.
    Memory,
}

impl From<AllocError> for FrameFault {
    ghost from_gives = { λ _ e. e ≡ Memory };

    fn from(_refusal: AllocError) -> FrameFault {
        FrameFault::Memory
    }
}

impl<T: Drop> From<AllocFailed<T>> for FrameFault {
    ghost from_gives = { λ _ e. e ≡ Memory };

    fn from(_refusal: AllocFailed<T>) -> FrameFault {
        FrameFault::Memory
    }
}
