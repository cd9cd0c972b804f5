//! The commands that write samples (own): `picture`, `decode` and `samples`. Each keeps its promise, whatever the word is of the file that it makes.
ghost use Rattle.std.specs.Prelude.{ℕ, List};
ghost use Rattle.std.specs.Borrow.{Bor};
ghost use Rattle.ffv1_words.specs.declared.words.Words.TheVariants.{Picture, Decode, Samples};
ghost use Rattle.ffv1_program.specs.Running.{KeepsPromise, files_of, made_by, printed_by};
ghost use Rattle.ffv1_program.specs.Inner.Calls.{all_done};

use crate::files::{FileSystem, MakeFile, make_after};
use crate::inputs::{is_among, sources_of};
use ffv1_commands::{CliFault, CommandPath, any_picture_of, decode_of, picture_of, samples_of};
use ffv1_devices::Sink;
use ffv1_holding::Recordings;
use ffv1_words::RecordingWords;
use std::alloc::Global;

/// Writes what can be shown of the holding file of this path to the file that is made.
///
/// It stops where `picture_of` does, and with `Memory` if a buffer can't be allocated. After a fault that is not `Write` nothing was written or printed.
pub(crate) fn picture_file<'a, F: FileSystem<'a>, O: MakeFile, W: Sink>(
    alloc: Global,
    recordings: Recordings,
    files: &F,
    file: &'a str,
    made: &mut O,
    output: &mut W,
) -> Result<bool, CliFault>
    ensures { (out : Bor (List ℕ)) → KeepsPromise
        (files_of recordings (F.files files.now) F.Device.log F.Buffered.log)
        (made_by O.log O.is_made O.cannot_make made.old made.new) (printed_by W.log output.old output.new)
        (Picture file.entry out) result }
{
    let mut file = files.buffered(alloc, file)?;
    match recordings {
        Recordings::Profile => picture_of(alloc, &mut file, made, output),
        Recordings::Any => any_picture_of(alloc, &mut file, made, output),
    }
}

/// Decodes the frame of these paths into the file that is made.
///
/// It stops where `decode_of` does. After a fault that is not `Write` nothing was written or printed.
pub(crate) fn decode_files<'a, F: FileSystem<'a>, O: MakeFile, W: Sink>(
    alloc: Global,
    files: &F,
    recording: &RecordingWords<'a>,
    frame: &'a str,
    made: &mut O,
    output: &mut W,
) -> Result<(), CliFault>
    ensures { (recordings : Recordings) (out : Bor (List ℕ)) → KeepsPromise
        (files_of recordings (F.files files.now) F.Device.log F.Buffered.log)
        (made_by O.log O.is_made O.cannot_make made.old made.new) (printed_by W.log output.old output.new)
        (Decode recording.now frame.entry out) (all_done result) }
{
    decode_of(
        alloc,
        &mut files.device(recording.record),
        recording.width,
        recording.height,
        &mut files.device(frame),
        made,
        output,
    )
}

/// Writes the samples of the frames of these paths, which are read in their order, to the file that is made, of which `out` is the word. No
/// file is opened where `out` is the word of the record or of a frame: it would be emptied before it is read.
///
/// It stops where `samples_of` does; with `Write` where `out` is the word of an input, or the file can't be made; with `Words` where there
/// is no frame; and with `Memory` if memory for the frames can't be allocated. After a fault of the record, or where `out` is an input, and
/// before the first frame is decoded, nothing was written or printed.
pub(crate) fn samples_files<'a, F: FileSystem<'a>, O: MakeFile, W: Sink>(
    alloc: Global,
    files: &F,
    recording: &RecordingWords<'a>,
    frames: &Vec<&'a str>,
    out: &str,
    made: &mut O,
    output: &mut W,
) -> Result<bool, CliFault>
    ensures { (recordings : Recordings) → KeepsPromise
        (files_of recordings (F.files files.now) F.Device.log F.Buffered.log)
        (made_by O.log O.is_made O.cannot_make made.old made.new) (printed_by W.log output.old output.new)
        (Samples recording.now out.entry frames.now) result }
{
    if out == recording.record || is_among(out, frames.as_slice()) {
        return Err(CliFault::Write(CommandPath::Out));
    }
    if frames.is_empty() {
        return Err(CliFault::Words);
    }
    let mut frames = sources_of(alloc, files, frames.as_slice())?;
    let clean = samples_of(
        alloc,
        &mut files.device(recording.record),
        recording.width,
        recording.height,
        frames.as_mut_slice(),
        made,
        output,
    );
    make_after(clean, made)
}
