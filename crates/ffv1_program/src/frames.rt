//! The commands over frames and their records (own): `chain`, `scan`, `show`, `setup` and `splice`. Each keeps its promise, whatever the
//! word is of the file that it makes.
ghost use Rattle.std.specs.Prelude.{ℕ, List};
ghost use Rattle.std.specs.Borrow.{Bor};
ghost use Rattle.ffv1_holding.specs.declared.recordings.Recordings.{Recordings};
ghost use Rattle.ffv1_words.specs.declared.words.Words.TheVariants.{Chain, Scan, Show, Setup, Splice};
ghost use Rattle.ffv1_program.specs.Running.{KeepsPromise, files_of, made_by, printed_by};
ghost use Rattle.ffv1_program.specs.Inner.Calls.{all_done, nothing_written};

use crate::files::{FileSystem, MakeFile, make_after};
use crate::inputs::sources_of;
use ffv1_commands::{CliFault, chain_of, scan_of, setup_of, show_of, splice_of};
use ffv1_devices::Sink;
use ffv1_words::RecordingWords;
use std::alloc::Global;

/// Prints the chain of the frame of this path.
///
/// It stops where `chain_of` does. After a fault that is not `Write` nothing was printed.
pub(crate) fn chain_file<'a, F: FileSystem<'a>, W: Sink>(
    alloc: Global,
    files: &F,
    frame: &'a str,
    output: &mut W,
) -> Result<(), CliFault>
    ensures { (recordings : Recordings) → KeepsPromise
        (files_of recordings (F.files files.now) F.Device.log F.Buffered.log)
        nothing_written (printed_by W.log output.old output.new)
        (Chain frame.entry) (all_done result) }
{
    chain_of(alloc, &mut files.device(frame), output)
}

/// Scans the ranges of a file, by the list of another.
///
/// It stops where `scan_of` does. After a fault of the list nothing was printed.
pub(crate) fn scan_files<'a, F: FileSystem<'a>, W: Sink>(
    alloc: Global,
    files: &F,
    ranges: &'a str,
    file: &'a str,
    output: &mut W,
) -> Result<bool, CliFault>
    ensures { (recordings : Recordings) → KeepsPromise
        (files_of recordings (F.files files.now) F.Device.log F.Buffered.log)
        nothing_written (printed_by W.log output.old output.new)
        (Scan ranges.entry file.entry) result }
{
    scan_of(
        alloc,
        &mut files.device(ranges),
        &mut files.device(file),
        output,
    )
}

/// Prints the setup of this record.
///
/// It stops where `show_of` does. After a fault that is not `Write` nothing was printed.
pub(crate) fn show_record<'a, F: FileSystem<'a>, W: Sink>(
    alloc: Global,
    files: &F,
    recording: &RecordingWords<'a>,
    output: &mut W,
) -> Result<(), CliFault>
    ensures { (recordings : Recordings) → KeepsPromise
        (files_of recordings (F.files files.now) F.Device.log F.Buffered.log)
        nothing_written (printed_by W.log output.old output.new)
        (Show recording.now) (all_done result) }
{
    show_of(
        alloc,
        &mut files.device(recording.record),
        recording.width,
        recording.height,
        output,
    )
}

/// Prints what this record says of any recording of version 3.
///
/// It stops where `setup_of` does. After a fault that is not `Write` nothing was printed.
pub(crate) fn setup_record<'a, F: FileSystem<'a>, W: Sink>(
    alloc: Global,
    files: &F,
    recording: &RecordingWords<'a>,
    output: &mut W,
) -> Result<(), CliFault>
    ensures { (recordings : Recordings) → KeepsPromise
        (files_of recordings (F.files files.now) F.Device.log F.Buffered.log)
        nothing_written (printed_by W.log output.old output.new)
        (Setup recording.now) (all_done result) }
{
    let RecordingWords {
        record,
        width,
        height,
    } = recording;
    setup_of(alloc, &mut files.device(record), *width, *height, output)
}

/// Splices the copies of these paths into the file that is made. Where they have no bytes, nothing is written to it, and it is made after
/// that.
///
/// It stops where `splice_of` does; with `Words` where there is no copy; and with `Write` where the file can't be made. After a fault
/// that is not `Write` nothing was written or printed.
pub(crate) fn splice_files<'a, F: FileSystem<'a>, O: MakeFile, W: Sink>(
    alloc: Global,
    files: &F,
    copies: &Vec<&'a str>,
    made: &mut O,
    output: &mut W,
) -> Result<bool, CliFault>
    ensures { (recordings : Recordings) (out : Bor (List ℕ)) → KeepsPromise
        (files_of recordings (F.files files.now) F.Device.log F.Buffered.log)
        (made_by O.log O.is_made O.cannot_make made.old made.new) (printed_by W.log output.old output.new)
        (Splice out copies.now) result }
{
    if copies.is_empty() {
        return Err(CliFault::Words);
    }
    let mut copies = sources_of(alloc, files, copies.as_slice())?;
    let all = splice_of(alloc, copies.as_mut_slice(), made, output);
    make_after(all, made)
}
