//! The command `splice`: splices copies of one frame by the footers of their slices alone (own; footers are those of RFC
//! 9043, section 4.9).
ghost use Rattle.std.specs.Prelude.{◌≡◌, ◌<◌, ◌++◌, length, map, IfOk, IfErr, OnOk, string_bytes};
ghost use Rattle.ffv1_splice.specs.Splice.{IsSpliceOf};
ghost use Rattle.ffv1_commands.specs.Fault.{NamesPath};
ghost use Rattle.ffv1_commands.specs.Paths.{IsSplicePath};
ghost use Rattle.ffv1_commands.specs.Devices.{UnlessWriting, IsUnread, FileStops};
ghost use Rattle.ffv1_commands.specs.InTurn.{AreTaken, StopsAtCopy, IfCopyUnread};
ghost use Rattle.ffv1_commands.specs.Inner.Inputs.{Goes};
ghost use Rattle.ffv1_commands.specs.SpliceText.{standing_line, splice_text, IsLengthFault, SplicesCopies, SpliceStops, LaterCopiesKept, WritesSplice, SpliceRefuses, ReportsSplice};

use crate::devices::write_both;
use crate::fault::CliFault;
use crate::inputs::{Alone, Inputs, Kept};
use crate::path::CommandPath;
use ffv1_devices::{Sink, Source, ThroughWrite};
use ffv1_splice::{Place, SpliceFault, Spliced, push_front, push_place, splice};
use std::alloc::{AllocError, Global};
use std::io::{Read, Write};

/// Reads copies of a frame to their ends, one after the other; splices them, and writes the splice to `out`; and then prints a line
/// for each of its places, from its end, as `1833..3698 missing`, with the number of combinations where it is woven, as
/// `3698..4515 woven 4`, of what most copies have where it is voted, as `3698..4515 voted 4`, or of those with one bit inverted where it is
/// repaired, as `1833..3698 repaired 14920`; and last `end whole`, or `end broken at 1833` where the front before that place can't be divided.
/// Returns whether all of the frame is given back: the places cover it, and each is settled or woven.
///
/// Returns `Read` with the first copy that can't be read, or is longer than 2^30 bytes, and no copy after it is read; `Splice`, if all
/// are read, with the first copy that is not as long as the first one; `Memory` if an allocation fails: then nothing was written, and
/// `out` was not touched. Returns `Write` if `out` or the output fails: then a front of the splice was written, or the whole and a
/// front of the lines.
pub fn run_splice<C: Read, O: Write, W: Write>(
    alloc: Global,
    copies: &mut [C],
    out: &mut O,
    output: &mut W,
) -> Result<bool, CliFault>
    requires { 0 < length copies.old }
    ensures ok { IfOk result (SplicesCopies (map C.remaining copies.old)
        (O.contents out.old) (O.contents out.new) (W.contents output.old) (W.contents output.new)) }
    ensures err { IfErr result (SpliceStops (map C.remaining copies.old)
        (O.contents out.old) (O.contents out.new) (W.contents output.old) (W.contents output.new)) }
    ensures untouched { IfErr result (λ fault. UnlessWriting fault ((out.new ≡ out.old) × (output.new ≡ output.old))) }
    ensures names { IfErr result (NamesPath (IsSplicePath (length copies.old))) }
    ensures later_kept { IfErr result (LaterCopiesKept copies.old copies.new) }
{
    splice_by::<Alone, _, _, _>(
        alloc,
        copies,
        &mut ThroughWrite::new(out),
        &mut ThroughWrite::new(output),
    )
}

/// The command over sources and sinks. The logs say how it went: at `Read` of a copy its source was given up or passed the limit, and at
/// `Write` the sink that is named was given up, and no other failures of the sinks came but interruptions.
pub fn splice_of<C: Source, O: Sink, W: Sink>(
    alloc: Global,
    copies: &mut [C],
    out: &mut O,
    output: &mut W,
) -> Result<bool, CliFault>
    requires { 0 < length copies.old }
    ensures reported { ReportsSplice (λ copy. (C.log copy).remaining) result copies.old copies.new (O.log out.old) (O.log out.new) (W.log output.old) (W.log output.new) }
    ensures unread { IfErr result (IfCopyUnread IsUnread (map C.log copies.old) (map C.log copies.new)) }
    ensures untouched { IfErr result (λ fault. UnlessWriting fault ((out.new ≡ out.old) × (output.new ≡ output.old))) }
{
    splice_by::<Kept, _, _, _>(alloc, copies, out, output)
}

/// The command over copies that are read so, and sinks.
fn splice_by<I: Inputs<C>, C, O: Sink, W: Sink>(
    alloc: Global,
    copies: &mut [C],
    out: &mut O,
    output: &mut W,
) -> Result<bool, CliFault>
    requires { 0 < length copies.old }
    ensures reported { ReportsSplice I.remaining result copies.old copies.new (O.log out.old) (O.log out.new) (W.log output.old) (W.log output.new) }
    ensures unread { IfErr result (IfCopyUnread (Goes I.went IsUnread) copies.old copies.new) }
    ensures untouched { IfErr result (λ fault. UnlessWriting fault ((out.new ≡ out.old) × (output.new ≡ output.old))) }
{
    let read = read_inputs::<I, _>(alloc, copies)?;
    write_splice(alloc, read, out, output)
}

/// Writes the splice of copies that were read, of which there is one at least, and then prints its lines. Returns whether all of the frame is
/// given back.
fn write_splice<O: Sink, W: Sink>(
    alloc: Global,
    read: Vec<Vec<u8>>,
    out: &mut O,
    output: &mut W,
) -> Result<bool, CliFault>
    requires { 0 < length read.items }
    ensures ok { IfOk result (WritesSplice (map (λ copy. copy.items) read.items) (O.log out.old) (O.log out.new) (W.log output.old) (W.log output.new)) }
    ensures err { IfErr result (SpliceRefuses (map (λ copy. copy.items) read.items) (O.log out.old) (O.log out.new) (W.log output.old) (W.log output.new)) }
    ensures untouched { IfErr result (λ fault. UnlessWriting fault ((out.new ≡ out.old) × (output.new ≡ output.old))) }
{
    let spliced = splice_of_read(alloc, read)?;
    let text = spliced_text(alloc, &spliced)?;
    write_both(out, spliced.payload(), output, text.as_str())?;
    Ok(spliced.is_given_back())
}

/// The bytes of all copies, which are read in turn, up to the first that can't be read.
fn read_inputs<I: Inputs<C>, C>(alloc: Global, copies: &mut [C]) -> Result<Vec<Vec<u8>>, CliFault>
    ensures ok { IfOk result (λ read. AreTaken (map I.remaining copies.old) (map (λ copy. copy.items) read.items)) }
    ensures err { IfErr result (StopsAtCopy FileStops I.remaining copies.old copies.new) }
    ensures unread { IfErr result (IfCopyUnread (Goes I.went IsUnread) copies.old copies.new) }
{
    let mut read = Vec::new(alloc);
    for index in 0..copies.len() {
        let copy = I::file(alloc, &mut copies[index], CommandPath::Copy(index))?;
        read.push(copy)?;
    }
    Ok(read)
}

/// The splice of copies that were read, of which there is one at least.
fn splice_of_read(alloc: Global, read: Vec<Vec<u8>>) -> Result<Spliced, CliFault>
    requires { 0 < length read.items }
    ensures ok { IfOk result (IsSpliceOf (map (λ copy. copy.items) read.items)) }
    ensures err { IfErr result (IsLengthFault (map (λ copy. copy.items) read.items)) }
{
    spliced_of(alloc, read.as_slice())
}

/// The splice of copies, of which there is one at least.
fn spliced_of(alloc: Global, copies: &[Vec<u8>]) -> Result<Spliced, CliFault>
    requires { 0 < length copies.now }
    ensures ok { IfOk result (IsSpliceOf (map (λ copy. copy.items) copies.now)) }
    ensures err { IfErr result (IsLengthFault (map (λ copy. copy.items) copies.now)) }
{
    let mut slices = Vec::new(alloc);
    for copy in copies {
        slices.push(copy.as_slice())?;
    }
    match splice(alloc, slices.as_slice()) {
        Ok(spliced) => Ok(spliced),
        Err(SpliceFault::OtherLength(index)) => Err(CliFault::Splice(CommandPath::Copy(index))),
        Err(SpliceFault::Memory) => Err(CliFault::Memory),
    }
}

/// The lines of the places, from the frame's end, and of its front.
fn spliced_text(alloc: Global, spliced: &Spliced) -> Result<String, AllocError>
    ensures { IfOk result (λ text. string_bytes text ≡ splice_text spliced.now) }
{
    let mut text = String::new(alloc);
    for place in spliced.places() {
        push_standing(&mut text, *place)?;
    }
    push_front(&mut text, spliced.front())?;
    Ok(text)
}

/// Adds the line of a place.
fn push_standing(text: &mut String, place: Place) -> Result<(), AllocError>
    ensures { OnOk result (string_bytes text.new ≡ string_bytes text.old ++ standing_line place) }
{
    push_place(text, place)?;
    text.push('\n')
}
