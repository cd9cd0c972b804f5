//! Why nothing was made.
use std::alloc::{AllocError, AllocFailed};

/// Why a vector was not made.
#[derive(Clone, Copy, Debug, PartialEq, Eq)]
pub enum MakeFault {
    /// What is asked for does not fit or passes a limit, or what was made does not read back as it.
    NotSelf,
    /// An allocation of memory failed.
    Memory,
}

impl From<AllocError> for MakeFault {
    ghost use Rattle.std.specs.Prelude.{◌≡◌};
    ghost use Rattle.ffv1_vectors.specs.declared.fault.MakeFault.TheVariants.{Memory};

    ghost from_gives = { λ error result. result ≡ Memory };

    fn from(_error: AllocError) -> MakeFault {
        MakeFault::Memory
    }
}

impl<T: Drop> From<AllocFailed<T>> for MakeFault {
    ghost use Rattle.std.specs.Prelude.{◌≡◌};
    ghost use Rattle.ffv1_vectors.specs.declared.fault.MakeFault.TheVariants.{Memory};

    ghost from_gives = { λ error result. result ≡ Memory };

    fn from(_error: AllocFailed<T>) -> MakeFault {
        MakeFault::Memory
    }
}
