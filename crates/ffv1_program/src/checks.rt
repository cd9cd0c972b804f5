//! The command over a whole file (own): `check`. It keeps its promise.
ghost use Rattle.ffv1_holding.specs.declared.recordings.Recordings.{Recordings};
ghost use Rattle.ffv1_words.specs.declared.words.Words.TheVariants.{Check};
ghost use Rattle.ffv1_program.specs.Running.{KeepsPromise, files_of, printed_by};
ghost use Rattle.ffv1_program.specs.Inner.Calls.{nothing_written};

use crate::files::FileSystem;
use ffv1_commands::{CliFault, check_of};
use ffv1_devices::Sink;
use std::alloc::Global;

/// Checks the file of this path, which is opened twice.
///
/// It stops where `check_of` does. After a fault that is not `Write` nothing was printed.
pub(crate) fn check_named<'a, F: FileSystem<'a>, W: Sink>(
    alloc: Global,
    files: &F,
    file: &'a str,
    output: &mut W,
) -> Result<bool, CliFault>
    ensures { (recordings : Recordings) → KeepsPromise
        (files_of recordings (F.files files.now) F.Device.log F.Buffered.log)
        nothing_written (printed_by W.log output.old output.new)
        (Check file.entry) result }
{
    let mut first = files.device(file);
    let mut second = files.device(file);
    check_of(alloc, &mut first, &mut second, output)
}
