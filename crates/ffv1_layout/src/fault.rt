//! Why a payload is no frame, before any sample is read.

use ffv1_slice::LinkFault;
use std::alloc::{AllocError, AllocFailed};

/// Why the slices of a payload do not make a frame. Places count the slices from the payload's front, from 0.
#[derive(Clone, Copy, Debug, PartialEq, Eq)]
pub enum LayoutFault {
    /// The footers do not lead back to the payload's start, or there is no slice, or there are more than tiles.
    Chain,
    /// The slice fails its parity, or has no header.
    Slice { place: usize, cause: LinkFault },
    /// The slice has a tile of one before it.
    Overlap { place: usize },
    /// No slice has the tile of this number, which counts from 0 row by row.
    Uncovered { tile: usize },
    /// An allocation of memory failed.
    Memory,
}

impl From<AllocError> for LayoutFault {
    ghost use Rattle.std.specs.Prelude.{◌≡◌};
    ghost use Rattle.ffv1_layout.specs.declared.fault.LayoutFault.TheVariants.{Memory};

    ghost from_gives = { λ error result. result ≡ Memory };

    fn from(_error: AllocError) -> LayoutFault {
        LayoutFault::Memory
    }
}

impl<T: Drop> From<AllocFailed<T>> for LayoutFault {
    ghost use Rattle.std.specs.Prelude.{◌≡◌};
    ghost use Rattle.ffv1_layout.specs.declared.fault.LayoutFault.TheVariants.{Memory};

    ghost from_gives = { λ error result. result ≡ Memory };

    fn from(_error: AllocFailed<T>) -> LayoutFault {
        LayoutFault::Memory
    }
}
