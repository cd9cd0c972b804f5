//! The commands over holding files (own): `take`, `join`, `merge`, `report` and `restore`. Each keeps its promise, whatever the word is of
//! the file that it makes.
ghost use Rattle.std.specs.Prelude.{ℕ, List};
ghost use Rattle.std.specs.Borrow.{Bor};
ghost use Rattle.ffv1_words.specs.declared.words.Words.TheVariants.{Take, Join, Merge, Report, Restore};
ghost use Rattle.ffv1_program.specs.Running.{KeepsPromise, files_of, made_by, printed_by};
ghost use Rattle.ffv1_program.specs.Inner.Calls.{all_done, nothing_written};

use crate::files::{FileSystem, MakeFile};
use crate::inputs::{buffered_of, sources_of};
use ffv1_commands::{CliFault, CommandPath, join_of, merge_of, report_of, restore_of, take_of};
use ffv1_devices::Sink;
use ffv1_holding::Recordings;
use ffv1_words::RecordingWords;
use std::alloc::Global;

/// Takes the copies of these paths into the file that is made. Returns what `take_of` does.
///
/// It stops where `take_of` does, and with `Memory` if memory for the copies can't be allocated. After a fault that is not `Write` nothing
/// was written or printed.
pub(crate) fn take_files<'a, F: FileSystem<'a>, O: MakeFile, W: Sink>(
    alloc: Global,
    recordings: Recordings,
    files: &F,
    recording: &RecordingWords<'a>,
    copies: &Vec<&'a str>,
    made: &mut O,
    output: &mut W,
) -> Result<bool, CliFault>
    ensures { (out : Bor (List ℕ)) → KeepsPromise
        (files_of recordings (F.files files.now) F.Device.log F.Buffered.log)
        (made_by O.log O.is_made O.cannot_make made.old made.new) (printed_by W.log output.old output.new)
        (Take recording.now out copies.now) result }
{
    let mut copies = sources_of(alloc, files, copies.as_slice())?;
    take_of(
        alloc,
        recordings,
        &mut files.device(recording.record),
        recording.width,
        recording.height,
        copies.as_mut_slice(),
        made,
        output,
    )
}

/// Joins the holding files of these paths into the file that is made.
///
/// It stops where `join_of` does, and with `Memory` if memory for the files can't be allocated. After a fault that is not `Write` nothing
/// was written or printed.
pub(crate) fn join_files<'a, F: FileSystem<'a>, O: MakeFile, W: Sink>(
    alloc: Global,
    recordings: Recordings,
    files: &F,
    first: &'a str,
    others: &Vec<&'a str>,
    made: &mut O,
    output: &mut W,
) -> Result<(), CliFault>
    ensures { (out : Bor (List ℕ)) → KeepsPromise
        (files_of recordings (F.files files.now) F.Device.log F.Buffered.log)
        (made_by O.log O.is_made O.cannot_make made.old made.new) (printed_by W.log output.old output.new)
        (Join out first.entry others.now) (all_done result) }
{
    let mut others = buffered_of(alloc, files, others.as_slice())?;
    let mut first = files.buffered(alloc, first)?;
    join_of(
        alloc,
        recordings,
        &mut first,
        others.as_mut_slice(),
        made,
        output,
    )
}

/// Joins the holding files of these two paths as streams into the file that is made, of which `out` is the word. Both are opened before
/// anything is written, and none is where `out` is one of their words: it would be emptied before it is read.
///
/// It stops where `merge_of` does; with `Write` where `out` is one of their words; and with `Read` of the first file that can't be
/// opened. Then the file that is made is not touched, and neither is it where the heads of both are of another record or size; and after no
/// fault is it touched before its first byte.
pub(crate) fn merge_files<'a, F: FileSystem<'a>, O: MakeFile>(
    alloc: Global,
    recordings: Recordings,
    files: &F,
    left: &'a str,
    right: &'a str,
    out: &str,
    made: &mut O,
) -> Result<(), CliFault>
    ensures { KeepsPromise
        (files_of recordings (F.files files.now) F.Device.log F.Buffered.log)
        (made_by O.log O.is_made O.cannot_make made.old made.new) nothing_written
        (Merge out.entry left.entry right.entry) (all_done result) }
{
    if out == left || out == right {
        return Err(CliFault::Write(CommandPath::Out));
    }
    let Ok(mut left) = files.opened(left) else {
        return Err(CliFault::Read(CommandPath::Hold(0)));
    };
    let Ok(mut right) = files.opened(right) else {
        return Err(CliFault::Read(CommandPath::Hold(1)));
    };
    merge_of(alloc, recordings, &mut left, &mut right, made)
}

/// Prints the report of the holding file of this path.
///
/// It stops where `report_of` does, and with `Memory` if a buffer can't be allocated. After a fault that is not `Write` nothing was printed.
pub(crate) fn report_file<'a, F: FileSystem<'a>, W: Sink>(
    alloc: Global,
    recordings: Recordings,
    files: &F,
    file: &'a str,
    output: &mut W,
) -> Result<(), CliFault>
    ensures { KeepsPromise
        (files_of recordings (F.files files.now) F.Device.log F.Buffered.log)
        nothing_written (printed_by W.log output.old output.new)
        (Report file.entry) (all_done result) }
{
    let mut file = files.buffered(alloc, file)?;
    report_of(alloc, recordings, &mut file, output)
}

/// Restores the frame of the holding file of this path into the file that is made.
///
/// It stops where `restore_of` does, and with `Memory` if a buffer can't be allocated. After a fault that is not `Write` nothing was written or printed.
pub(crate) fn restore_file<'a, F: FileSystem<'a>, O: MakeFile, W: Sink>(
    alloc: Global,
    recordings: Recordings,
    files: &F,
    file: &'a str,
    made: &mut O,
    output: &mut W,
) -> Result<(), CliFault>
    ensures { (out : Bor (List ℕ)) → KeepsPromise
        (files_of recordings (F.files files.now) F.Device.log F.Buffered.log)
        (made_by O.log O.is_made O.cannot_make made.old made.new) (printed_by W.log output.old output.new)
        (Restore file.entry out) (all_done result) }
{
    let mut file = files.buffered(alloc, file)?;
    restore_of(alloc, recordings, &mut file, made, output)
}
