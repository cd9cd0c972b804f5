//! Whole inputs, up to a limit (own).

ghost use Rattle.ffv1_devices.specs.Results.{ReadsInput};

use crate::reads::{ReadFailed, read_some};
use crate::streams::Source;
use std::alloc::{AllocError, Global};

/// Why an input was not read whole.
#[derive(Clone, Copy, Debug, PartialEq, Eq)]
pub enum WholeFault {
    /// The source failed.
    Read,
    /// One byte more than the limit came.
    TooLong,
    /// An allocation failed.
    Memory,
}

impl From<AllocError> for WholeFault {
    ghost use Rattle.std.specs.Prelude.{◌≡◌};
    ghost use Rattle.ffv1_devices.specs.declared.whole.WholeFault.TheVariants.{Memory};

    ghost from_gives = { λ _ fault. fault ≡ Memory };

    fn from(_refusal: AllocError) -> WholeFault {
        WholeFault::Memory
    }
}

impl From<ReadFailed> for WholeFault {
    ghost use Rattle.std.specs.Prelude.{◌≡◌};
    ghost use Rattle.ffv1_devices.specs.declared.whole.WholeFault.TheVariants.{Read};

    ghost from_gives = { λ _ fault. fault ≡ Read };

    fn from(_failure: ReadFailed) -> WholeFault {
        WholeFault::Read
    }
}

/// All bytes of a source, up to so many.
///
/// Returns `TooLong` exactly if one byte more than the limit came, and none is read after it. Returns `Read` only if the
/// source counted a failure that was no interruption, or 65 interruptions in a row; the first failure that is no interruption is
/// reported. Returns `Memory` if an allocation fails, before the limit is passed.
pub fn read_whole<S: Source>(
    alloc: Global,
    source: &mut S,
    limit: usize,
) -> Result<Vec<u8>, WholeFault>
    ensures { ReadsInput (λ v. v.items) limit result (S.log source.old) (S.log source.new) }
{
    let mut bytes = Vec::new(alloc);
    let mut buf = [0u8; 65536];
    loop {
        let left = limit - bytes.len();
        let room = left.min(buf.len() - 1) + 1;
        let count = read_some(source, &mut buf[..room])?;
        if count == 0 {
            return Ok(bytes);
        }
        if count > left {
            return Err(WholeFault::TooLong);
        }
        bytes.extend_from_slice(&buf[..count])?;
    }
}
