//! The command `take`: makes the holding file of all slices that are found in copies of one frame (own;
//! slices are those of RFC 9043, sections 4.5 and 4.9).
ghost use Rattle.std.specs.Prelude.{◌≡◌, ◌+◌, ◌<◌, ◌^◌, ◌++◌, length, map, IfOk, IfErr, OnOk, string_bytes};
ghost use Rattle.ffv1_holding.specs.Contents.{no_slices};
ghost use Rattle.ffv1_commands.specs.Fault.{NamesPath};
ghost use Rattle.ffv1_commands.specs.Paths.{IsTakePath};
ghost use Rattle.ffv1_commands.specs.Devices.{IfOfRecord, GivesUpWithin, CopyStops, UnlessWriting};
ghost use Rattle.ffv1_commands.specs.InTurn.{StopsAtCopy, IfCopyUnread};
ghost use Rattle.ffv1_commands.specs.Inner.Inputs.{Goes};
ghost use Rattle.ffv1_commands.specs.RecordInputs.{TakesReel, ReelStops};
ghost use Rattle.ffv1_commands.specs.TakeText.{order_reported, order_word, copy_line, TakesEach, TakesCopies, LaterKept, TakeStops, ReportsTake};
ghost use Rattle.ffv1_commands.specs.Inner.TakeText.{TakesCopy};

use crate::devices::read_file;
use crate::fault::CliFault;
use crate::holdings::{as_taken, write_made};
use crate::inputs::{Alone, Inputs, Kept};
use crate::path::CommandPath;
use ffv1_devices::{FromRead, Sink, Source, ThroughWrite};
use ffv1_hold::{Holding, Recordings, Taken};
use ffv1_range::Recording;
use std::alloc::{AllocError, Global};
use std::io::{Read, Write};

/// Takes copies of a frame, one after the other, into an empty holding for a configuration record, which is one of these recordings, and
/// the size of the frame in samples; writes the holding's file to `out`, and then prints a line for each copy, as
/// `copy 1 links 2 slices 1 new 1`: its links, those that are slices, and the slices that no earlier copy gave. Of any recording the line
/// ends in ` unordered` where the slices found in the copy do not stand in the order of their tiles, each tile once: what is restored
/// is in that order, and so is not what was recorded. Returns whether no line ends so.
///
/// Of any recording slices of frames between keyframes are taken too, whose keyframe bit is 0 (RFC 9043, section 4.4). The file is that of a
/// holding by the record's own rules where each slice is one by these, and else of one of any frames: then it has the other magic.
///
/// The record is judged before the first copy is read, and each copy is taken before the next is read: at a fault of one
/// those after it are as they were. Returns `Read` if the record or a copy can't be read, or the record is longer than
/// 2^30 bytes; `Setup` with the record's first fault; `Hold` if a copy is longer than 2^30 bytes; `HoldFile` if the
/// holding's file would pass its limit; `Memory` if an allocation fails: then nothing was written, and `out` was not
/// touched. Returns `Write` if `out` or the output fails: then a front of the file was written, or the whole file and a
/// front of the lines.
///
/// The copies are fewer than 2^63, as those of a `Vec` always are, so that each has a number.
pub fn run_take<R: Read, C: Read, O: Write, W: Write>(
    alloc: Global,
    recordings: Recordings,
    configuration: &mut R,
    width: u32,
    height: u32,
    copies: &mut [C],
    out: &mut O,
    output: &mut W,
) -> Result<bool, CliFault>
    requires { length copies.old < 2 ^ 63 }
    ensures ok { IfOk result (TakesCopies recordings (R.remaining configuration.old) width height (map C.remaining copies.old)
        (O.contents out.old) (O.contents out.new) (W.contents output.old) (W.contents output.new)) }
    ensures err { IfErr result (TakeStops recordings (R.remaining configuration.old) width height (map C.remaining copies.old)
        (O.contents out.old) (O.contents out.new) (W.contents output.old) (W.contents output.new)) }
    ensures untouched { IfErr result (λ fault. UnlessWriting fault ((out.new ≡ out.old) × (output.new ≡ output.old))) }
    ensures in_turn { IfErr result (λ fault. IfOfRecord fault (copies.new ≡ copies.old)) }
    ensures later_kept { IfErr result (LaterKept C.remaining copies.old copies.new) }
    ensures names { IfErr result (NamesPath (IsTakePath (length copies.old))) }
{
    take_by::<_, Alone, _, _, _>(
        alloc,
        recordings,
        &mut FromRead::new(configuration),
        width,
        height,
        copies,
        &mut ThroughWrite::new(out),
        &mut ThroughWrite::new(output),
    )
}

/// The command over sources and sinks. The logs say how it went: at `Read` of the record its source was given up or passed the limit, at
/// `Read` of a copy its source was given up, and at `Write` the sink that is named was given up; no other failures of the record's source
/// and of the sinks came but interruptions.
pub fn take_of<R: Source, C: Source, O: Sink, W: Sink>(
    alloc: Global,
    recordings: Recordings,
    configuration: &mut R,
    width: u32,
    height: u32,
    copies: &mut [C],
    out: &mut O,
    output: &mut W,
) -> Result<bool, CliFault>
    requires { length copies.old < 2 ^ 63 }
    ensures reported { ReportsTake recordings result (λ copy. (C.log copy).remaining) width height (R.log configuration.old) (R.log configuration.new) copies.old copies.new
        (O.log out.old) (O.log out.new) (W.log output.old) (W.log output.new) }
    ensures unread { IfErr result (IfCopyUnread GivesUpWithin (map C.log copies.old) (map C.log copies.new)) }
    ensures untouched { IfErr result (λ fault. UnlessWriting fault ((out.new ≡ out.old) × (output.new ≡ output.old))) }
{
    take_by::<_, Kept, _, _, _>(
        alloc,
        recordings,
        configuration,
        width,
        height,
        copies,
        out,
        output,
    )
}

/// The command over copies that are read so, and a source and sinks.
fn take_by<R: Source, I: Inputs<C>, C, O: Sink, W: Sink>(
    alloc: Global,
    recordings: Recordings,
    configuration: &mut R,
    width: u32,
    height: u32,
    copies: &mut [C],
    out: &mut O,
    output: &mut W,
) -> Result<bool, CliFault>
    requires { length copies.old < 2 ^ 63 }
    ensures reported { ReportsTake recordings result I.remaining width height (R.log configuration.old) (R.log configuration.new) copies.old copies.new
        (O.log out.old) (O.log out.new) (W.log output.old) (W.log output.new) }
    ensures unread { IfErr result (IfCopyUnread (Goes I.went GivesUpWithin) copies.old copies.new) }
    ensures untouched { IfErr result (λ fault. UnlessWriting fault ((out.new ≡ out.old) × (output.new ≡ output.old))) }
{
    let mut holding = empty_holding(alloc, recordings, configuration, width, height)?;
    let (lines, in_order) = take_inputs::<I, _>(alloc, recordings, &mut holding, copies)?;
    write_made(out, holding, output, lines.as_str())?;
    Ok(in_order)
}

/// An empty holding for a record, which is read whole, and frames of this size, as it is taken.
fn empty_holding<R: Source>(
    alloc: Global,
    recordings: Recordings,
    configuration: &mut R,
    width: u32,
    height: u32,
) -> Result<Holding<Recording>, CliFault>
    ensures empty { IfOk result (λ holding. holding ≡ no_slices holding.reel) }
    ensures reel { IfOk result (λ holding. TakesReel recordings width height (R.log configuration.old) (R.log configuration.new) holding.reel) }
    ensures err { IfErr result (ReelStops recordings width height (R.log configuration.old) (R.log configuration.new)) }
{
    let config = read_file(alloc, configuration, CommandPath::Record)?;
    let holding = Holding::of_record(alloc, recordings, config.as_slice(), width, height)?;
    Ok(as_taken(recordings, holding))
}

/// Takes copies into an empty holding. Returns a line for each, and whether all are in order, as far as that is reported.
fn take_inputs<I: Inputs<C>, C>(
    alloc: Global,
    recordings: Recordings,
    holding: &mut Holding<Recording>,
    copies: &mut [C],
) -> Result<(String, bool), CliFault>
    requires empty { holding.old ≡ no_slices holding.old.reel }
    requires few { length copies.old < 2 ^ 63 }
    ensures ok { IfOk result (λ taken. TakesEach recordings (map I.remaining copies.old) holding.old.reel holding.new (string_bytes taken.0) taken.1) }
    ensures reel { holding.new.reel ≡ holding.old.reel }
    ensures err { IfErr result (StopsAtCopy CopyStops I.remaining copies.old copies.new) }
    ensures unread { IfErr result (IfCopyUnread (Goes I.went GivesUpWithin) copies.old copies.new) }
{
    let mut lines = String::new(alloc);
    let mut in_order = true;
    for index in 0..copies.len() {
        let copy = &mut copies[index];
        in_order &= take_copy::<I, _>(alloc, recordings, holding, copy, index, &mut lines)?;
    }
    Ok((lines, in_order))
}

/// Takes a copy, before which stand so many others, and adds a line for it. Returns whether it is in order, as far as that is reported.
fn take_copy<I: Inputs<C>, C>(
    alloc: Global,
    recordings: Recordings,
    holding: &mut Holding<Recording>,
    copy: &mut C,
    before: usize,
    lines: &mut String,
) -> Result<bool, CliFault>
    requires { before < 2 ^ 63 }
    ensures reported { Goes I.went (TakesCopy recordings result before holding.old holding.new (string_bytes lines.old) (string_bytes lines.new)) copy.old copy.new }
    ensures reel { holding.new.reel ≡ holding.old.reel }
{
    let payload = I::copy(alloc, copy, CommandPath::Copy(before))?;
    let taken = holding.take(payload.as_slice())?;
    let in_order = order_reported(recordings, taken.in_order);
    push_taken(lines, before + 1, taken, in_order)?;
    Ok(in_order)
}

/// Whether a copy is in order, as far as that is reported of these recordings.
fn order_reported(recordings: Recordings, in_order: bool) -> bool
    ensures { result ≡ order_reported recordings in_order }
{
    match recordings {
        Recordings::Profile => true,
        Recordings::Any => in_order,
    }
}

/// What ends the line of a copy.
fn order_word(in_order: bool) -> &'static str
    ensures { result.now ≡ order_word in_order }
{
    if in_order { "" } else { " unordered" }
}

/// Adds the line of a copy.
fn push_taken(
    text: &mut String,
    number: usize,
    taken: Taken,
    in_order: bool,
) -> Result<(), AllocError>
    ensures { OnOk result (string_bytes text.new ≡ string_bytes text.old ++ copy_line number taken.links taken.slices taken.new in_order) }
{
    let (links, slices, new) = (taken.links, taken.slices, taken.new);
    let order = order_word(in_order);
    writeln!(
        text,
        "copy {number} links {links} slices {slices} new {new}{order}"
    )
}
