//! Why a call on a holding was refused (own).
ghost use Rattle.std.specs.Prelude.{◌≡◌};
ghost use Rattle.ffv1_holding.specs.declared.fault.HoldFault.TheVariants.{Memory};

use std::alloc::{AllocError, AllocFailed};

/// Why a copy was not taken, or a holding not joined.
#[derive(Clone, Copy, Debug, PartialEq, Eq)]
pub enum HoldFault {
    /// The other holding is of another record, width or height.
    OtherReel,
    /// The copy has more than 2^30 bytes.
    PayloadTooLong,
    /// An allocation of memory failed.
    Memory,
}

impl From<AllocError> for HoldFault {
    ghost from_gives = { λ _ e. e ≡ Memory };

    fn from(_refusal: AllocError) -> HoldFault {
        HoldFault::Memory
    }
}

impl<T: Drop> From<AllocFailed<T>> for HoldFault {
    ghost from_gives = { λ _ e. e ≡ Memory };

    fn from(_refusal: AllocFailed<T>) -> HoldFault {
        HoldFault::Memory
    }
}
