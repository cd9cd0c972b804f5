//! Writing the samples of a frame: planes in the order of RFC 9043, section 4.7, a byte a sample.
ghost use Rattle.std.specs.List.{flat_map};
ghost use Rattle.ffv1_devices.specs.Results.{WritesAll};

use crate::frame::Frame;
use ffv1_devices::{Sink, WriteFailed, write_field};

/// Why the samples of a frame were not written.
#[derive(Clone, Copy, Debug, PartialEq, Eq)]
pub enum WriteFault {
    /// The sink failed. A front of the samples was written.
    Write,
}

impl From<WriteFailed> for WriteFault {
    fn from(_failure: WriteFailed) -> WriteFault {
        WriteFault::Write
    }
}

/// Writes the samples of a frame, a byte each: planes Y, Cb and Cr one after the other, each row by row.
///
/// After `Write`, which is returned only if the sink counted a failure, a front of the samples was written; the first failure
/// that is no interruption is reported. It takes no memory.
pub fn write_raw<W: Sink>(frame: &Frame, sink: &mut W) -> Result<(), WriteFault>
    ensures { WritesAll result (W.log sink.old) (W.log sink.new) (flat_map (λ plane. plane.items) frame.now.planes.items) }
{
    for plane in &frame.planes {
        write_field(sink, plane)?;
    }
    Ok(())
}
