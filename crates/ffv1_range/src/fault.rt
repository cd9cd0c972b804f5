//! Why a configuration record is refused.
use crate::coding::RangeFault;
use std::alloc::AllocError;

/// Why a configuration record is refused. Faults of the record's length and parity come first, then that of the
/// frame's size, then those of the fields in the order in which they are read, each as soon as its value was read.
#[derive(Clone, Copy, Debug, PartialEq, Eq)]
pub enum SetupFault {
    /// The record has fewer than 6 bytes.
    TooShort,
    /// The record's parity does not pass (RFC 9043, section 4.3.2).
    Parity,
    /// A range-coded value can't be read.
    Range(RangeFault),
    /// The version is not 3.
    Version,
    /// The micro version is under 4.
    Micro,
    /// The coder type is not 0, Golomb-Rice codes.
    Coder,
    /// The colour space is not 0, Y Cb Cr.
    ColorSpace,
    /// The bits of a raw sample are neither 0, which stands for 8, nor 8.
    Depth,
    /// There is an extra plane.
    ExtraPlane,
    /// A chroma shift is over 2, in a record with chroma planes.
    Subsampling,
    /// There are more tiles across than the width, or more down than the height.
    GridTooFine,
    /// There are more tiles than `MOST_TILES`.
    TooManyTiles,
    /// The number of quantization table sets is not in 1..=8.
    TableCount,
    /// A run of a quantization table goes past entry 128.
    TableRun,
    /// The scale after a quantization table is over 65535.
    Contexts,
    /// The slices' parity mode, ec, is not 1.
    ParityMode,
    /// The width or the height is not in 1..=`GREATEST_SIDE`.
    Size,
    /// An allocation of memory failed.
    Memory,
}

impl From<RangeFault> for SetupFault {
    ghost use Rattle.std.specs.Prelude.{◌≡◌};
    ghost use Rattle.ffv1_range.specs.declared.fault.SetupFault.TheVariants.{Range};

    ghost from_gives = { λ fault result. result ≡ Range fault };

    fn from(fault: RangeFault) -> SetupFault {
        SetupFault::Range(fault)
    }
}

impl From<AllocError> for SetupFault {
    ghost use Rattle.std.specs.Prelude.{◌≡◌};
    ghost use Rattle.ffv1_range.specs.declared.fault.SetupFault.TheVariants.{Memory};

    ghost from_gives = { λ error result. result ≡ Memory };

    fn from(_error: AllocError) -> SetupFault {
        SetupFault::Memory
    }
}
