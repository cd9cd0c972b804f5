//! Whole fields to a sink (own): writes that go on after interrupted tries, until the sink has failed.

ghost use Rattle.std.specs.Prelude.{◌≡◌, ◌+◌, ◌<◌, ◌≤◌, ◌++◌, length, take, IfOk};
ghost use Rattle.std.specs.Io.{WritesAtMost};
ghost use Rattle.ffv1_devices.specs.Logs.{most_tries};
ghost use Rattle.ffv1_devices.specs.Inner.Writing.{short};
ghost use Rattle.ffv1_devices.specs.Inner.Results.{WritesSome};
ghost use Rattle.ffv1_devices.specs.Results.{WritesAll};

use crate::reads::TRIES;
use crate::streams::Sink;
use std::io::ErrorKind;

/// Two fields of at most so many bytes together are one write.
const SHORT: usize = 4096;

/// A sink failed: a try failed and was not interrupted, took none of some bytes, or was the 65th interrupted one in a row.
#[derive(Clone, Copy, Debug, PartialEq, Eq)]
pub struct WriteFailed;

/// One write, made again where it is interrupted.
fn write_some<S: Sink>(sink: &mut S, bytes: &[u8]) -> Result<usize, WriteFailed>
    requires { 0 < length bytes.now }
    ensures bound { WritesAtMost result bytes.now }
    ensures some { IfOk result (λ n. 0 < n) }
    ensures written { WritesSome result bytes.now (S.log sink.old) (S.log sink.new) }
    ensures tries { (S.log sink.new).tries.failures ≤ (S.log sink.old).tries.failures + most_tries }
{
    for _ in 0..TRIES {
        match sink.write(bytes) {
            Ok(0) => return Err(WriteFailed),
            Ok(count) => return Ok(count),
            Err(error) => {
                if error.kind() != ErrorKind::Interrupted {
                    return Err(WriteFailed);
                }
            }
        }
    }
    Err(WriteFailed)
}

/// Writes all of the bytes.
///
/// It fails only if the sink counted a failure: an interrupted try is made again, and 65 in a row are a failure; the first
/// failure that is no interruption is reported. Then a front of the bytes was written, none or all of them among it.
pub fn write_field<S: Sink>(sink: &mut S, bytes: &[u8]) -> Result<(), WriteFailed>
    ensures { WritesAll result (S.log sink.old) (S.log sink.new) bytes.now }
{
    let mut rest = bytes;
    while !rest.is_empty() {
        let count = write_some(sink, rest)?;
        rest = &rest[count..];
    }
    Ok(())
}

/// Puts one field and then another to the front of a buffer, and says how many bytes they are.
fn put_pair(first: &[u8], second: &[u8], buf: &mut [u8]) -> usize
    requires { length first.now + length second.now ≤ length buf.old }
    ensures both { take result buf.new ≡ first.now ++ second.now }
    ensures within { result ≤ length buf.new }
{
    let start = first.len();
    let end = start + second.len();
    buf[..start].copy_from_slice(first);
    buf[start..end].copy_from_slice(second);
    end
}

/// Writes two short fields, one after the other, as one.
fn write_short<S: Sink>(sink: &mut S, first: &[u8], second: &[u8]) -> Result<(), WriteFailed>
    requires { length first.now + length second.now ≤ short }
    ensures { WritesAll result (S.log sink.old) (S.log sink.new) (first.now ++ second.now) }
{
    let mut both = [0u8; SHORT];
    let count = put_pair(first, second, &mut both);
    write_field(sink, &both[..count])
}

/// Writes one field, and then another: short ones together.
pub fn write_pair<S: Sink>(sink: &mut S, first: &[u8], second: &[u8]) -> Result<(), WriteFailed>
    ensures { WritesAll result (S.log sink.old) (S.log sink.new) (first.now ++ second.now) }
{
    if first.len() + second.len() <= SHORT {
        return write_short(sink, first, second);
    }
    write_field(sink, first)?;
    write_field(sink, second)?;
    Ok(())
}
