//! Numbers of a holding file (own), most significant byte first.

ghost use Rattle.std.specs.Prelude.{◌≡◌, ◌≤◌, length, IfOk};
ghost use Rattle.ffv1_bits.specs.Limits.{file_limit};
ghost use Rattle.ffv1_hold.specs.Inner.Reading.{ReadsText, IsShorter, Never};
ghost use Rattle.ffv1_hold.specs.HoldingText.{be2, be4};

use crate::blocks::read_over;
use crate::fields::read_field;
use crate::file_fault::HoldFileFault;
use ffv1_devices::Source;
use std::alloc::Global;

pub(crate) fn read_u16<S: Source>(source: &mut S, place: &mut u32) -> Result<u16, HoldFileFault>
    requires { place.old ≤ file_limit }
    ensures { ReadsText be2 (IsShorter 2) Never Never
        (S.log source.old) (S.log source.new) place.old place.new result }
{
    let mut bytes = [0u8; 2];
    read_field(source, place, &mut bytes)?;
    Ok(u16::from_be_bytes(bytes))
}

pub(crate) fn read_u32<S: Source>(source: &mut S, place: &mut u32) -> Result<u32, HoldFileFault>
    requires { place.old ≤ file_limit }
    ensures { ReadsText be4 (IsShorter 4) Never Never
        (S.log source.old) (S.log source.new) place.old place.new result }
{
    let mut bytes = [0u8; 4];
    read_field(source, place, &mut bytes)?;
    Ok(u32::from_be_bytes(bytes))
}

/// Reads that many bytes. Memory grows with the bytes that are read: a count alone asks for none.
pub(crate) fn read_bytes<S: Source>(
    alloc: Global,
    source: &mut S,
    place: &mut u32,
    count: u32,
) -> Result<Vec<u8>, HoldFileFault>
    requires { place.old ≤ file_limit }
    ensures read { ReadsText (λ v. v.items) (IsShorter count) Never Never
        (S.log source.old) (S.log source.new) place.old place.new result }
    ensures count { IfOk result (λ v. length v.items ≡ count) }
{
    let mut bytes = Vec::new(alloc);
    read_over(source, place, &mut bytes, count)?;
    Ok(bytes)
}
