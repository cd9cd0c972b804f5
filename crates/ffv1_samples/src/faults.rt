//! Why a slice's content gives no picture.
use ffv1_plane::DifferenceFault;
use ffv1_range::HeadFault;
use ffv1_rice::CodeFault;
use std::alloc::AllocError;

/// Why a sample can't be decoded.
#[derive(Clone, Copy, Debug, PartialEq, Eq)]
pub enum SampleFault {
    /// Of coder_type 0: its run word or its code can't be read.
    Code(CodeFault),
    /// Of coder_type 1 and 2: its symbol wants a byte past the one zero byte that follows the content.
    Short,
    /// Of coder_type 1 and 2: no two samples have its difference.
    DifferenceTooLarge,
    /// Of RGB: the sample of the picture that is coded so is no number of the picture's bits, or that of alpha isn't.
    ColorTooLarge,
}

/// Why a slice's content gives no picture.
#[derive(Clone, Copy, Debug, PartialEq, Eq)]
pub enum SliceFault {
    /// The content has no header.
    Head(HeadFault),
    /// A sample can't be decoded. Its row and its column are counted from the slice's first in the plane, planes from 0 in coded order, and
    /// with `ColorTooLarge` in the order G, B, R, A. The sample is that at which the word, the code or the symbol begins.
    Code {
        fault: SampleFault,
        plane: usize,
        y: usize,
        x: usize,
    },
    /// Of coder_type 1 and 2: the bit after the last sample wants a byte past the one zero byte that follows the content.
    End,
    /// An allocation of memory failed.
    Memory,
}

impl From<DifferenceFault> for SampleFault {
    ghost use Rattle.std.specs.Prelude.{◌≡◌};
    ghost use Rattle.ffv1_samples.specs.Coded.{sample_fault_of};

    ghost from_gives = { λ fault result. result ≡ sample_fault_of fault };

    fn from(fault: DifferenceFault) -> SampleFault {
        match fault {
            DifferenceFault::Short => SampleFault::Short,
            DifferenceFault::TooLarge => SampleFault::DifferenceTooLarge,
        }
    }
}

impl From<HeadFault> for SliceFault {
    ghost use Rattle.std.specs.Prelude.{◌≡◌};
    ghost use Rattle.ffv1_samples.specs.declared.faults.SliceFault.TheVariants.{Head};

    ghost from_gives = { λ fault result. result ≡ Head fault };

    fn from(fault: HeadFault) -> SliceFault {
        SliceFault::Head(fault)
    }
}

impl From<AllocError> for SliceFault {
    ghost use Rattle.std.specs.Prelude.{◌≡◌};
    ghost use Rattle.ffv1_samples.specs.declared.faults.SliceFault.TheVariants.{Memory};

    ghost from_gives = { λ error result. result ≡ Memory };

    fn from(_error: AllocError) -> SliceFault {
        SliceFault::Memory
    }
}
