//! Reads that go on after interrupted tries, until a source has failed (own).

ghost use Rattle.std.specs.Prelude.{◌≡◌, ◌+◌, ◌≤◌, MatchResult};
ghost use Rattle.std.specs.Io.{ReadsAtMost};
ghost use Rattle.ffv1_devices.specs.Logs.{most_tries, sum_to_limit};
ghost use Rattle.ffv1_devices.specs.Results.{ReadsSome, ReadsFull, ReadsByte};

use crate::streams::Source;
use std::io::ErrorKind;

/// How many interrupted tries in a row are a failure.
pub(crate) const TRIES: u32 = 65;

/// A source failed: a try failed and was not interrupted, or was the 65th interrupted one in a row.
#[derive(Clone, Copy, Debug, PartialEq, Eq)]
pub struct ReadFailed;

/// One read, made again where it is interrupted.
pub fn read_some<S: Source>(source: &mut S, buf: &mut [u8]) -> Result<usize, ReadFailed>
    ensures bound { ReadsAtMost result buf.new }
    ensures read { ReadsSome result buf.new (S.log source.old) (S.log source.new) }
    ensures taken { MatchResult result (λ n. (S.log source.new).taken ≡ sum_to_limit (S.log source.old).taken n)
        (λ _. (S.log source.new).taken ≡ (S.log source.old).taken) }
    ensures tries { (S.log source.new).tries.failures ≤ (S.log source.old).tries.failures + most_tries }
{
    for _ in 0..TRIES {
        match source.read(buf) {
            Ok(count) => return Ok(count),
            Err(error) => {
                if error.kind() != ErrorKind::Interrupted {
                    return Err(ReadFailed);
                }
            }
        }
    }
    Err(ReadFailed)
}

/// Reads until the buffer is full or the input ends, and says how many bytes came.
pub fn read_full<S: Source>(source: &mut S, buf: &mut [u8]) -> Result<usize, ReadFailed>
    ensures bound { ReadsAtMost result buf.new }
    ensures read { ReadsFull result buf.new (S.log source.old) (S.log source.new) }
{
    let mut filled = 0;
    while filled < buf.len() {
        let count = read_some(source, &mut buf[filled..])?;
        if count == 0 {
            break;
        }
        filled += count;
    }
    Ok(filled)
}

/// The next byte, or `None` at the end of the input.
pub fn next_byte<S: Source>(source: &mut S) -> Result<Option<u8>, ReadFailed>
    ensures { ReadsByte result (S.log source.old) (S.log source.new) }
{
    let mut byte = [0u8; 1];
    let count = read_full(source, &mut byte)?;
    if count == 0 {
        return Ok(None);
    }
    Ok(Some(byte[0]))
}
