//! Why a holding file was not read or written (own).
ghost use Rattle.std.specs.Prelude.{◌≡◌};
ghost use Rattle.ffv1_hold.specs.declared.file_fault.HoldFileFault.TheVariants.{Memory, Read, Write};

use ffv1_devices::{ReadFailed, WriteFailed};
use ffv1_range::SetupFault;
use std::alloc::{AllocError, AllocFailed};

/// Why a holding file was not read or written.
#[derive(Clone, Copy, Debug, PartialEq, Eq)]
pub enum HoldFileFault {
    /// The first eight bytes begin no file that is read; or they are the magic of any frames, of a record of the profile, and the first slice
    /// does not tell so.
    Magic,
    /// The record has no setup for the size. `Memory` is never this fault's cause.
    Setup(SetupFault),
    /// The input ends before the end tag.
    Truncated,
    /// A tag is neither 0 nor 1.
    Tag,
    /// An entry does not stand after the one before it, in the order of tile and bytes, or a digest does not stand after
    /// the one before it.
    Order,
    /// An entry's bytes are no slice of its tile.
    NotASlice,
    /// A byte stands after the end tag.
    Trailing,
    /// The source failed, before a fault was met.
    Read,
    /// The sink failed.
    Write,
    /// An allocation of memory failed, before a fault was met.
    Memory,
    /// The record has more than 2^24 bytes, a slice more than 16777223 bytes or 2^26 digests, or the file more than 2^31 bytes.
    TooLong,
    /// The two files that are joined as streams are of another record, width or height.
    OtherReel,
}

impl From<AllocError> for HoldFileFault {
    ghost from_gives = { λ _ e. e ≡ Memory };

    fn from(_refusal: AllocError) -> HoldFileFault {
        HoldFileFault::Memory
    }
}

impl<T: Drop> From<AllocFailed<T>> for HoldFileFault {
    ghost from_gives = { λ _ e. e ≡ Memory };

    fn from(_refusal: AllocFailed<T>) -> HoldFileFault {
        HoldFileFault::Memory
    }
}

impl From<ReadFailed> for HoldFileFault {
    ghost from_gives = { λ _ e. e ≡ Read };

    fn from(_failure: ReadFailed) -> HoldFileFault {
        HoldFileFault::Read
    }
}

impl From<WriteFailed> for HoldFileFault {
    ghost from_gives = { λ _ e. e ≡ Write };

    fn from(_failure: WriteFailed) -> HoldFileFault {
        HoldFileFault::Write
    }
}
