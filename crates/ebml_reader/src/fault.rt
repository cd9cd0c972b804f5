//! Why a file was not read on.
use ffv1_devices::ReadFailed;
use std::alloc::AllocError;

/// Why a file was not read on.
#[derive(Clone, Copy, Debug, PartialEq, Eq)]
pub enum ReaderFault {
    /// The source failed, or gave 2^62 bytes.
    Read,
    /// An allocation failed.
    Memory,
}

impl From<ReadFailed> for ReaderFault {
    ghost use Rattle.std.specs.Prelude.{◌≡◌};
    ghost use Rattle.ebml_reader.specs.declared.fault.ReaderFault.TheVariants.{Read};

    ghost from_gives = { λ _ fault. fault ≡ Read };

    fn from(_failure: ReadFailed) -> ReaderFault {
        ReaderFault::Read
    }
}

impl From<AllocError> for ReaderFault {
    ghost use Rattle.std.specs.Prelude.{◌≡◌};
    ghost use Rattle.ebml_reader.specs.declared.fault.ReaderFault.TheVariants.{Memory};

    ghost from_gives = { λ _ fault. fault ≡ Memory };

    fn from(_refusal: AllocError) -> ReaderFault {
        ReaderFault::Memory
    }
}
