//! Bytes that are read over others, block after block, and compared with them (own).
ghost use Rattle.std.specs.Prelude.{◌≡◌, ◌+◌, ◌<◌, ◌≤◌, ◌++◌, length, take, drop, OnOk, IfOk};
ghost use Rattle.ffv1_bits.specs.Limits.{file_limit};
ghost use Rattle.ffv1_holding.specs.SliceOrder.{bytes_cmp};
ghost use Rattle.ffv1_hold.specs.Inner.Reading.{ReadsText, IsShorter, Never};

use crate::fields::read_field;
use crate::file_fault::HoldFileFault;
use ffv1_devices::Source;
use std::cmp::Ordering;

/// How many bytes are read at a time.
const BLOCK: usize = 16384;

/// Reads that many bytes over those of the vector, and returns the order of the old bytes and the new ones. Memory grows with the
/// bytes that are read, where more come than there were: a count alone asks for none.
pub(crate) fn read_over<S: Source>(
    source: &mut S,
    place: &mut u32,
    bytes: &mut Vec<u8>,
    count: u32,
) -> Result<Ordering, HoldFileFault>
    requires { place.old ≤ file_limit }
    ensures read { ReadsText (λ _. bytes.new.items) (IsShorter count) Never Never
        (S.log source.old) (S.log source.new) place.old place.new result }
    ensures count { OnOk result (length bytes.new.items ≡ count) }
    ensures order { IfOk result (λ o. o ≡ bytes_cmp bytes.old.items bytes.new.items) }
{
    let mut order = Ordering::Equal;
    let mut done = 0usize;
    let mut buf = [0u8; BLOCK];
    while done < count as usize {
        let size = BLOCK.min(count as usize - done);
        let block = read_block(source, place, bytes, done, &mut buf[..size])?;
        order = order.then(block);
        done += size;
    }
    let by_length = bytes.len().cmp(&done);
    bytes.truncate(done);
    Ok(order.then(by_length))
}

/// Fills a buffer, puts it over the bytes from a place on, and returns the order of those that stood there, up to as many, and the buffer.
/// Memory for it is asked for before it is read.
fn read_block<S: Source>(
    source: &mut S,
    place: &mut u32,
    bytes: &mut Vec<u8>,
    from: usize,
    buf: &mut [u8],
) -> Result<Ordering, HoldFileFault>
    requires place { place.old ≤ file_limit }
    requires from { from ≤ length bytes.old.items }
    requires some { 0 < length buf.old }
    ensures read { ReadsText (λ _. buf.new) (IsShorter (length buf.old)) Never Never
        (S.log source.old) (S.log source.new) place.old place.new result }
    ensures bytes { OnOk result (bytes.new.items ≡ take from bytes.old.items ++ buf.new ++ drop (from + length buf.new) bytes.old.items) }
    ensures order { IfOk result (λ o. o ≡ bytes_cmp (take (length buf.new) (drop from bytes.old.items)) buf.new) }
{
    let to = from + buf.len();
    let held = bytes.len().min(to);
    bytes.resize(bytes.len().max(to), 0)?;
    read_field(source, place, buf)?;
    let old = &bytes.as_slice()[from..held];
    let order = old.cmp(&*buf);
    bytes.as_mut_slice()[from..to].copy_from_slice(buf);
    Ok(order)
}
