//! Writing the samples of a frame (own): planes in coded order (RFC 9043, section 4.7), each row by row.
ghost use Rattle.std.specs.Prelude.{◌≡◌, ◌≤◌, length, take};
ghost use Rattle.ffv1_devices.specs.Results.{WritesAll};
ghost use Rattle.ffv1_player.specs.Written.{plane_bytes, samples_bytes};

use crate::samples::Samples;
use ffv1_devices::{Sink, WriteFailed, write_field};

/// So many samples become bytes at a time.
const BLOCK: usize = 2048;

/// Puts samples to the front of a block as bytes, and says how many bytes they are.
fn put_samples(depth: u32, samples: &[u16], block: &mut [u8; 2 * BLOCK]) -> usize
    requires { length samples.now ≤ 2048 }
    ensures bytes { take result block.new ≡ plane_bytes depth samples.now }
    ensures within { result ≤ 4096 }
{
    let mut count = 0;
    for place in 0..samples.len() {
        let [low, high] = samples[place].to_le_bytes();
        block[count] = low;
        count += 1;
        if depth != 8 {
            block[count] = high;
            count += 1;
        }
    }
    count
}

/// Writes the samples of a plane.
fn write_plane<W: Sink>(depth: u32, samples: &[u16], sink: &mut W) -> Result<(), WriteFailed>
    ensures { WritesAll result (W.log sink.old) (W.log sink.new) (plane_bytes depth samples.now) }
{
    let mut rest = samples;
    let mut block = [0u8; 2 * BLOCK];
    while !rest.is_empty() {
        let taken = rest.len().min(BLOCK);
        let count = put_samples(depth, &rest[..taken], &mut block);
        write_field(sink, &block[..count])?;
        rest = &rest[taken..];
    }
    Ok(())
}

/// Writes the samples of a frame: plane after plane, each row by row; at depth 8 a byte a sample, its lowest, else two, the less significant
/// first.
///
/// It fails only if the sink counted a failure; the first failure that is no interruption is reported. Then a front of the samples was
/// written. It takes no memory.
pub fn write_samples<W: Sink>(frame: &Samples, sink: &mut W) -> Result<(), WriteFailed>
    ensures { WritesAll result (W.log sink.old) (W.log sink.new) (samples_bytes frame.now) }
{
    for plane in &frame.planes {
        write_plane(frame.depth, plane, sink)?;
    }
    Ok(())
}
