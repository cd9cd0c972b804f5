//! Whole fields of a holding file, within its limit (own).

ghost use Rattle.std.specs.Prelude.{◌≡◌, ◌+◌, ◌≤◌, length};
ghost use Rattle.ffv1_bits.specs.Limits.{file_limit};
ghost use Rattle.ffv1_bits.specs.Parity.{AreBytes};
ghost use Rattle.ffv1_hold.specs.Inner.Reading.{ReadsText, IsShorter, Never};
ghost use Rattle.ffv1_hold.specs.Reading.{StopsAt};

use crate::file_fault::HoldFileFault;
use ffv1_bits::FILE_LIMIT;
use ffv1_devices::{ReadFailed, Source, next_byte, read_full};

/// Fills a buffer that ends within the limit.
fn read_within<S: Source>(
    source: &mut S,
    place: &mut u32,
    buf: &mut [u8],
) -> Result<(), HoldFileFault>
    requires { place.old + length buf.old ≤ file_limit }
    ensures { ReadsText (λ _. buf.new) (IsShorter (length buf.old)) Never Never
        (S.log source.old) (S.log source.new) place.old place.new result }
{
    let count = read_full(source, buf)?;
    if count < buf.len() {
        return Err(HoldFileFault::Truncated);
    }
    *place += count as u32;
    Ok(())
}

/// Fills a buffer that ends at the limit, for a field that goes on past it.
fn read_to_limit<S: Source>(source: &mut S, place: &mut u32, buf: &mut [u8]) -> HoldFileFault
    requires { place.old + length buf.old ≡ file_limit }
    ensures { StopsAt (IsShorter (length buf.old + 1)) Never Never (S.log source.old) (S.log source.new) place.old result }
{
    if let Err(fault) = read_within(source, place, buf) {
        return fault;
    }
    match next_byte(source) {
        Ok(Some(_)) => HoldFileFault::TooLong,
        Ok(None) => HoldFileFault::Truncated,
        Err(ReadFailed) => HoldFileFault::Read,
    }
}

/// Reads a whole field. `Truncated` is where the input ends first, and `TooLong` where it passes the
/// limit first.
pub(crate) fn read_field<S: Source>(
    source: &mut S,
    place: &mut u32,
    buf: &mut [u8],
) -> Result<(), HoldFileFault>
    requires { place.old ≤ file_limit }
    ensures read { ReadsText (λ _. buf.new) (IsShorter (length buf.old)) Never Never
        (S.log source.old) (S.log source.new) place.old place.new result }
    ensures bytes { AreBytes buf.new }
{
    let room = (FILE_LIMIT - *place) as usize;
    if buf.len() <= room {
        read_within(source, place, buf)
    } else {
        Err(read_to_limit(source, place, &mut buf[..room]))
    }
}
