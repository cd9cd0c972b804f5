//! Whole files, read from a source and written to a sink, and which path of the command a fault names.
ghost use Rattle.std.specs.Prelude.{◌≡◌, IfOk, IfErr};
ghost use Rattle.ffv1_commands.specs.Inner.Devices.{ReadsWholeCopy, ReadsNamed, WritesNamed, WritesBoth};
ghost use Rattle.ffv1_commands.specs.InTurn.{log_of};

use crate::fault::CliFault;
use crate::path::CommandPath;
use ffv1_bits::PAYLOAD_LIMIT;
use ffv1_devices::{FromRead, Sink, Source, WholeFault, read_whole, write_field};
use ffv1_hold::HoldFault;
use std::alloc::Global;
use std::io::{BufReader, Read};

/// A reader as a source, through a buffer of 8 KiB: short fields then take no call of the system each.
///
/// Returns `Memory` if the buffer can't be allocated; then nothing was read.
pub(crate) fn buffered<'a, R: Read>(
    alloc: Global,
    reader: &'a mut R,
) -> Result<FromRead<BufReader<&'a mut R>>, CliFault>
    ensures ok { IfOk result (λ source. ⟦<FromRead<BufReader<&'a mut R>> as Source>⟧.log source ≡ log_of (R.remaining reader.old)) }
    ensures err { IfErr result (λ fault. fault ≡ CliFault.Memory) }
{
    match BufReader::new(alloc, reader) {
        Ok(reader) => Ok(FromRead::new(reader)),
        // It fails only if the buffer can't be allocated.
        Err(_) => Err(CliFault::Memory),
    }
}

/// All bytes of the file that is this path of the command, at most 2^30.
///
/// Returns `Read` if the source failed, or one byte more than the limit came, and `Memory` if an allocation fails.
pub(crate) fn read_file<S: Source>(
    alloc: Global,
    source: &mut S,
    path: CommandPath,
) -> Result<Vec<u8>, CliFault>
    ensures { ReadsNamed (λ v. v.items) path result (S.log source.old) (S.log source.new) }
{
    match read_whole(alloc, source, PAYLOAD_LIMIT) {
        Ok(bytes) => Ok(bytes),
        Err(WholeFault::Read) => Err(CliFault::Read(path)),
        Err(WholeFault::TooLong) => Err(CliFault::Read(path)),
        Err(WholeFault::Memory) => Err(CliFault::Memory),
    }
}

/// All bytes of the copy that is this path of the command, at most 2^30.
///
/// Returns `Read` if the source failed, `Hold` with `PayloadTooLong` if one byte more than the limit came, and `Memory`
/// if an allocation fails.
pub(crate) fn read_copy<S: Source>(
    alloc: Global,
    source: &mut S,
    path: CommandPath,
) -> Result<Vec<u8>, CliFault>
    ensures { ReadsWholeCopy (λ v. v.items) path result (S.log source.old) (S.log source.new) }
{
    match read_whole(alloc, source, PAYLOAD_LIMIT) {
        Ok(bytes) => Ok(bytes),
        Err(WholeFault::Read) => Err(CliFault::Read(path)),
        Err(WholeFault::TooLong) => Err(CliFault::Hold(HoldFault::PayloadTooLong)),
        Err(WholeFault::Memory) => Err(CliFault::Memory),
    }
}

/// Writes a file to this path of the command, or a front of it where the sink fails.
pub(crate) fn write_file<K: Sink>(
    sink: &mut K,
    path: CommandPath,
    bytes: &[u8],
) -> Result<(), CliFault>
    ensures wrote { WritesNamed path result (K.log sink.old) (K.log sink.new) bytes.now }
{
    match write_field(sink, bytes) {
        Ok(()) => Ok(()),
        Err(_failure) => Err(CliFault::Write(path)),
    }
}

/// Writes the file that a command makes, and then prints a text.
pub(crate) fn write_both<O: Sink, W: Sink>(
    out: &mut O,
    file: &[u8],
    output: &mut W,
    text: &str,
) -> Result<(), CliFault>
    ensures { WritesBoth result file.now text.now (O.log out.old) (O.log out.new) (W.log output.old) (W.log output.new) }
{
    write_file(out, CommandPath::Out, file)?;
    write_file(output, CommandPath::StandardOutput, text.as_bytes())
}
