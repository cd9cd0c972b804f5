//! A command of words, run on the files that they name (own).
ghost use Rattle.std.specs.Prelude.{◌≡◌, Ok, Err, MatchResult, true};
ghost use Rattle.ffv1_program.specs.Running.{RunsCommand, files_of, made_by, printed_by, out_word};
ghost use Rattle.ffv1_program.specs.Inner.Calls.{all_done};

use crate::checks::check_named;
use crate::files::{FileSystem, MakeFile};
use crate::frames::{chain_file, scan_files, setup_record, show_record, splice_files};
use crate::holdings::{join_files, merge_files, report_file, restore_file, take_files};
use crate::pictures::{decode_files, picture_file, samples_files};
use crate::stretches::mend_files;
use ffv1_commands::{CliFault, CommandPath};
use ffv1_devices::{Sink, WriteFailed};
use ffv1_help::{print_help, print_version};
use ffv1_holding::Recordings;
use ffv1_words::Words;
use std::alloc::Global;

/// The word of the file that a command makes, which is empty where it makes none.
pub fn out_word<'a>(words: &Words<'a>) -> &'a str
    ensures { result.now ≡ out_word words.now }
{
    match words {
        Words::Take { out, .. }
        | Words::Join { out, .. }
        | Words::Merge { out, .. }
        | Words::Restore { out, .. }
        | Words::Picture { out, .. }
        | Words::Splice { out, .. }
        | Words::Mend { out, .. }
        | Words::Decode { out, .. }
        | Words::Samples { out, .. } => *out,
        _ => "",
    }
}

/// What a command returns that has no more to say than that it was done.
fn all_done(done: Result<(), CliFault>) -> Result<bool, CliFault>
    ensures { result ≡ all_done done }
{
    match done {
        Ok(()) => Ok(true),
        Err(fault) => Err(fault),
    }
}

/// What a command returns that prints one text: if that fails, standard output is at fault.
fn all_printed(printed: Result<(), WriteFailed>) -> Result<bool, CliFault>
    ensures { MatchResult printed (λ _. result ≡ Ok true) (λ _. result ≡ Err (CliFault.Write CommandPath.StandardOutput)) }
{
    match printed {
        Ok(()) => Ok(true),
        Err(_) => Err(CliFault::Write(CommandPath::StandardOutput)),
    }
}

/// Runs a command on the files that its words name; `made` is the one that it makes. A command of holdings takes those of `recordings`.
///
/// Returns `false` where the command did its work, and not all is there or as it was recorded:
///
/// - `take`, of any recording: a copy's slices do not stand in the order of their tiles;
/// - `picture`: some tile has no samples; or, of any recording, a slice does not end as an encoder ends it;
/// - `splice`: not all of the frame is given back;
/// - `mend`: a stretch is missing, disputed, open or alone;
/// - `samples`: a slice does not end as an encoder ends it;
/// - `scan`: a range is not whole with all its links passing;
/// - `check`: the file is not whole.
///
/// Else it returns `true`. It stops where the command does: with `Write` only if what it writes to was given up, or the file could not be made,
/// or is one of the inputs. A command that makes no file leaves `made` untouched.
pub fn run<'a, F: FileSystem<'a>, O: MakeFile, W: Sink>(
    alloc: Global,
    recordings: Recordings,
    files: &F,
    words: &Words<'a>,
    made: &mut O,
    output: &mut W,
) -> Result<bool, CliFault>
    requires { O.is_unmade_at made.old (out_word words.now) }
    ensures { RunsCommand
        (files_of recordings (F.files files.now) F.Device.log F.Buffered.log)
        (made_by O.log O.is_made O.cannot_make made.old made.new) (printed_by W.log output.old output.new) words.now result }
{
    match words {
        Words::Chain { frame } => all_done(chain_file(alloc, files, frame, output)),
        Words::Scan { ranges, file } => scan_files(alloc, files, ranges, file, output),
        Words::Check { file } => check_named(alloc, files, file, output),
        Words::Show { recording } => all_done(show_record(alloc, files, recording, output)),
        Words::Setup { recording } => all_done(setup_record(alloc, files, recording, output)),
        Words::Take {
            recording,
            copies,
            ..
        } => take_files(alloc, recordings, files, recording, copies, made, output),
        Words::Join { first, others, .. } => {
            all_done(join_files(alloc, recordings, files, first, others, made, output))
        }
        Words::Merge { out, left, right } => all_done(merge_files(
            alloc, recordings, files, left, right, out, made,
        )),
        Words::Report { file } => all_done(report_file(alloc, recordings, files, file, output)),
        Words::Restore { file, .. } => all_done(restore_file(
            alloc, recordings, files, file, made, output,
        )),
        Words::Picture { file, .. } => picture_file(alloc, recordings, files, file, made, output),
        Words::Splice { copies, .. } => splice_files(alloc, files, copies, made, output),
        Words::Mend { list, out, copies } => {
            mend_files(alloc, files, list, copies, out, made, output)
        }
        Words::Decode {
            recording,
            frame,
            ..
        } => all_done(decode_files(alloc, files, recording, frame, made, output)),
        Words::Samples {
            recording,
            out,
            frames,
        } => samples_files(alloc, files, recording, frames, out, made, output),
        Words::Help => all_printed(print_help(output)),
        Words::Version => all_printed(print_version(output)),
    }
}
