//! The command `join`: makes the holding file of the union of holding files (own).
ghost use Rattle.std.specs.Prelude.{◌≡◌, ◌≢◌, ◌+◌, ◌<◌, ◌^◌, [], ◌∷◌, ◌++◌, length, map, Err, IfOk, IfErr, OnOk, string_bytes};
ghost use Rattle.ffv1_holding.specs.Contents.{IsSameReel, joined};
ghost use Rattle.ffv1_holding.specs.Sets.{size};
ghost use Rattle.ffv1_commands.specs.Fault.{NamesPath};
ghost use Rattle.ffv1_commands.specs.Paths.{IsJoinPath};
ghost use Rattle.ffv1_commands.specs.Devices.{UnlessWriting};
ghost use Rattle.ffv1_commands.specs.Inner.Inputs.{Goes};
ghost use Rattle.ffv1_commands.specs.Holdings.{ReadsTaken, IsUnheld};
ghost use Rattle.ffv1_commands.specs.JoinText.{file_line, FileBreaks, JoinsAll, JoinsFiles, StopsAtFile, LaterFilesKept, JoinStops, ReportsJoin, IfFileUnread, IfLaterUnread};
ghost use Rattle.ffv1_commands.specs.Inner.JoinText.{JoinsFile};

use crate::devices::buffered;
use crate::fault::CliFault;
use crate::holdings::{as_taken, read_holding, write_made};
use crate::inputs::{Alone, Inputs, Kept};
use crate::path::CommandPath;
use ffv1_devices::{Sink, Source, ThroughWrite};
use ffv1_hold::{HoldFault, Holding, Join, Recordings};
use ffv1_range::Recording;
use std::alloc::{AllocError, Global};
use std::io::{Read, Write};

/// Joins the holdings of files of these recordings, one after the other; writes the file of their union to `out`, and then prints a line
/// for each file, as `file 1 new 1`: how many of its slices no earlier file had.
///
/// Of any recording files of one record and size are joined in whatever frames. The file of the union is that of a holding by the record's
/// own rules where each slice is one by these, and else of one of any frames.
///
/// Each file is joined before the next is read: at a fault of one those after it are as they were. Returns `Read` if a
/// file can't be read; `HoldFile` with the first fault of a file in the order of its bytes, or if the union's file would
/// pass its limit; `Hold` if a file is of another record or size than the first; `Memory` if an allocation fails:
/// then nothing was written, and `out` was not touched. Returns `Write` if `out` or the output fails: then a front of the
/// file was written, or the whole file and a front of the lines.
///
/// The other files are fewer than 2^63, as those of a `Vec` always are, so that each has a number.
pub fn run_join<R: Read, O: Write, W: Write>(
    alloc: Global,
    recordings: Recordings,
    first: &mut R,
    others: &mut [R],
    out: &mut O,
    output: &mut W,
) -> Result<(), CliFault>
    requires { length others.old < 2 ^ 63 }
    ensures ok { OnOk result (JoinsFiles recordings (R.remaining first.old ∷ map R.remaining others.old)
        (O.contents out.old) (O.contents out.new) (W.contents output.old) (W.contents output.new)) }
    ensures err { IfErr result (JoinStops recordings (R.remaining first.old ∷ map R.remaining others.old)
        (O.contents out.old) (O.contents out.new) (W.contents output.old) (W.contents output.new)) }
    ensures untouched { IfErr result (λ fault. UnlessWriting fault ((out.new ≡ out.old) × (output.new ≡ output.old))) }
    ensures later_kept { IfErr result (LaterFilesKept recordings (R.remaining first.old ∷ map R.remaining others.old) others.old others.new) }
    ensures names { IfErr result (NamesPath (IsJoinPath (length others.old + 1))) }
{
    let mut first = buffered(alloc, first)?;
    join_by::<_, Alone, _, _, _>(
        alloc,
        recordings,
        &mut first,
        others,
        &mut ThroughWrite::new(out),
        &mut ThroughWrite::new(output),
    )
}

/// The command over sources and sinks. The logs say how it went: at `Read` of a file its source was given up, and at `Write` the sink that is
/// named; no other failures of the first file's source and of the sinks came but interruptions.
pub fn join_of<F: Source, R: Source, O: Sink, W: Sink>(
    alloc: Global,
    recordings: Recordings,
    first: &mut F,
    others: &mut [R],
    out: &mut O,
    output: &mut W,
) -> Result<(), CliFault>
    requires { length others.old < 2 ^ 63 }
    ensures reported { ReportsJoin recordings result (λ file. (R.log file).remaining) (F.log first.old) (F.log first.new) others.old others.new
        (O.log out.old) (O.log out.new) (W.log output.old) (W.log output.new) }
    ensures unread { IfErr result (IfLaterUnread recordings (map R.log others.old) (map R.log others.new)) }
    ensures untouched { IfErr result (λ fault. UnlessWriting fault ((out.new ≡ out.old) × (output.new ≡ output.old))) }
{
    join_by::<_, Kept, _, _, _>(alloc, recordings, first, others, out, output)
}

/// The command over other files that are read so, and a source and sinks.
fn join_by<F: Source, I: Inputs<R>, R, O: Sink, W: Sink>(
    alloc: Global,
    recordings: Recordings,
    first: &mut F,
    others: &mut [R],
    out: &mut O,
    output: &mut W,
) -> Result<(), CliFault>
    requires { length others.old < 2 ^ 63 }
    ensures reported { ReportsJoin recordings result I.remaining (F.log first.old) (F.log first.new) others.old others.new
        (O.log out.old) (O.log out.new) (W.log output.old) (W.log output.new) }
    ensures unread { IfErr result (IfFileUnread (Goes I.went (IsUnheld recordings)) others.old others.new) }
    ensures untouched { IfErr result (λ fault. UnlessWriting fault ((out.new ≡ out.old) × (output.new ≡ output.old))) }
{
    let mut lines = String::new(alloc);
    let whole = join_inputs::<_, I, _>(alloc, recordings, first, others, &mut lines)?;
    write_made(out, whole, output, lines.as_str())
}

/// Joins the holdings of files, and adds a line for each.
fn join_inputs<F: Source, I: Inputs<R>, R>(
    alloc: Global,
    recordings: Recordings,
    first: &mut F,
    others: &mut [R],
    lines: &mut String,
) -> Result<Holding<Recording>, CliFault>
    requires few { length others.old < 2 ^ 63 }
    requires none { string_bytes lines.old ≡ [] }
    ensures ok { IfOk result (λ whole. JoinsAll recordings (map I.remaining others.old) (F.log first.old) (F.log first.new) whole (string_bytes lines.new)) }
    ensures err { IfErr result (StopsAtFile recordings I.remaining (F.log first.old) (F.log first.new) others.old others.new) }
    ensures unread { IfErr result (IfFileUnread (Goes I.went (IsUnheld recordings)) others.old others.new) }
{
    let mut whole = first_holding(alloc, recordings, first, lines)?;
    for place in 0..others.len() {
        join_file::<I, _>(
            alloc,
            recordings,
            &mut whole,
            &mut others[place],
            place + 1,
            lines,
        )?;
    }
    Ok(whole)
}

/// The holding of the first file, as it is taken, and its line.
fn first_holding<F: Source>(
    alloc: Global,
    recordings: Recordings,
    first: &mut F,
    lines: &mut String,
) -> Result<Holding<Recording>, CliFault>
    ensures ok { IfOk result (ReadsTaken recordings (F.log first.old) (F.log first.new)) }
    ensures line { IfOk result (λ whole. string_bytes lines.new ≡ string_bytes lines.old ++ file_line 1 (size whole.slices)) }
    ensures err { IfErr result (λ fault. FileBreaks recordings (CommandPath.Hold 0) fault (F.log first.old) (F.log first.new)) }
{
    let read = read_holding(alloc, recordings, first, CommandPath::Hold(0))?;
    let whole = as_taken(recordings, read);
    push_file(lines, 1, whole.size())?;
    Ok(whole)
}

/// Joins the holding of a file, as it is taken, before which stand so many others, into another, and adds a line for it.
fn join_file<I: Inputs<R>, R>(
    alloc: Global,
    recordings: Recordings,
    whole: &mut Holding<Recording>,
    file: &mut R,
    before: usize,
    lines: &mut String,
) -> Result<(), CliFault>
    requires { before < 2 ^ 63 }
    ensures { Goes I.went (JoinsFile recordings result before whole.old whole.new (string_bytes lines.old) (string_bytes lines.new)) file.old file.new }
{
    let read = I::holding(alloc, recordings, file, CommandPath::Hold(before))?;
    let new = join_in(whole, as_taken(recordings, read))?;
    push_file(lines, before + 1, new)?;
    Ok(())
}

/// Joins a holding into another, and returns how many of its slices this one had not.
fn join_in(whole: &mut Holding<Recording>, other: Holding<Recording>) -> Result<usize, HoldFault>
    ensures joined { OnOk result (whole.new ≡ joined whole.old other) }
    ensures growth { IfOk result (λ new. size whole.new.slices ≡ size whole.old.slices + new) }
    ensures joinable { OnOk result (IsSameReel whole.old other) }
    ensures other_reel { result ≡ Err HoldFault.OtherReel → ¬ IsSameReel whole.old other }
    ensures too_long { result ≢ Err HoldFault.PayloadTooLong }
{
    whole.join_with(&other)
}

/// Adds the line of a file.
fn push_file(text: &mut String, number: usize, new: usize) -> Result<(), AllocError>
    ensures { OnOk result (string_bytes text.new ≡ string_bytes text.old ++ file_line number new) }
{
    writeln!(text, "file {number} new {new}")
}
