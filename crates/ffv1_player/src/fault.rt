//! Why a payload gives no samples.
ghost use Rattle.std.specs.Prelude.{◌≡◌};
ghost use Rattle.ffv1_player.specs.Inner.Decoding.{fault_of_slice};

use ffv1_layout::LayoutFault;
use ffv1_samples::{SampleFault, SliceFault};
use ffv1_slice::LinkFault;
use std::alloc::AllocError;

/// Why the content of a slice gives no samples.
#[derive(Clone, Copy, Debug, PartialEq, Eq)]
pub enum ContentFault {
    /// A sample can't be decoded. Its row and its column are counted from the slice's first in the plane, planes from 0 in coded order, and
    /// with `ColorTooLarge` in the order G, B, R, A.
    Code {
        fault: SampleFault,
        plane: usize,
        y: usize,
        x: usize,
    },
    /// Of coder_type 1 and 2: the bit after the last sample wants a byte past the one zero byte that follows the content.
    End,
}

/// Why a payload gives no samples. Places count the slices from the payload's front, from 0.
#[derive(Clone, Copy, Debug, PartialEq, Eq)]
pub enum SamplesFault {
    /// The footers do not lead back to the payload's start, or there is no slice, or there are more than tiles.
    Chain,
    /// The slice fails its parity, or has no header.
    Slice { place: usize, cause: LinkFault },
    /// The slice has a tile of one before it.
    Overlap { place: usize },
    /// No slice has the tile of this number, which counts from 0 row by row.
    Uncovered { tile: usize },
    /// The frame is no keyframe, and this is the least place whose slice has none in the frame before with the same tiles and table sets.
    /// Where each has one, and the frame before has more slices, it is the number of this frame's. It is 0 where there is no frame before.
    Previous { place: usize },
    /// The samples of the slice can't be decoded.
    Content { place: usize, cause: ContentFault },
    /// An allocation of memory failed.
    Memory,
}

impl From<LayoutFault> for SamplesFault {
    ghost use Rattle.std.specs.Prelude.{◌≡◌};
    ghost use Rattle.ffv1_player.specs.Faults.{fault_of_layout};

    ghost from_gives = { λ fault result. result ≡ fault_of_layout fault };

    fn from(fault: LayoutFault) -> SamplesFault {
        match fault {
            LayoutFault::Chain => SamplesFault::Chain,
            LayoutFault::Slice { place, cause } => SamplesFault::Slice { place, cause },
            LayoutFault::Overlap { place } => SamplesFault::Overlap { place },
            LayoutFault::Uncovered { tile } => SamplesFault::Uncovered { tile },
            LayoutFault::Memory => SamplesFault::Memory,
        }
    }
}

impl From<AllocError> for SamplesFault {
    ghost use Rattle.std.specs.Prelude.{◌≡◌};
    ghost use Rattle.ffv1_player.specs.declared.fault.SamplesFault.TheVariants.{Memory};

    ghost from_gives = { λ error result. result ≡ Memory };

    fn from(_error: AllocError) -> SamplesFault {
        SamplesFault::Memory
    }
}

/// The fault of a slice at a place, whose header was read before.
pub(crate) fn content_fault(place: usize, fault: SliceFault) -> SamplesFault
    ensures { result ≡ fault_of_slice place fault }
{
    match fault {
        SliceFault::Code { fault, plane, y, x } => SamplesFault::Content {
            place,
            cause: ContentFault::Code { fault, plane, y, x },
        },
        SliceFault::End => SamplesFault::Content {
            place,
            cause: ContentFault::End,
        },
        SliceFault::Head(fault) => SamplesFault::Slice {
            place,
            cause: LinkFault::Head(fault),
        },
        SliceFault::Memory => SamplesFault::Memory,
    }
}
