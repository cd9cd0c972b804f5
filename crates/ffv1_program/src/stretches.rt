//! The command over the stretches of a file (own): `mend`.
ghost use Rattle.std.specs.Prelude.{◌≡◌, All, map, IfOk};
ghost use Rattle.std.specs.List.{AllZip};
ghost use Rattle.ffv1_stretches.specs.Copies.{state_of};
ghost use Rattle.ffv1_holding.specs.declared.recordings.Recordings.{Recordings};
ghost use Rattle.ffv1_words.specs.declared.words.Words.TheVariants.{Mend};
ghost use Rattle.ffv1_program.specs.Running.{KeepsPromise, files_of, made_by, printed_by};
ghost use Rattle.ffv1_program.specs.Inner.Calls.{IsLogAt};

use crate::files::{FileSystem, MakeFile, make_after};
use crate::inputs::is_among;
use ffv1_commands::{CliFault, CommandPath, mend_of};
use ffv1_devices::Sink;
use ffv1_stretches::CopyReader;
use std::alloc::{AllocError, Global};

/// Readers of the copies of paths, in their order, none of which is opened yet. It fails if an allocation fails.
fn readers_of<'a, F: FileSystem<'a>>(
    alloc: Global,
    files: &F,
    paths: &[&'a str],
) -> Result<Vec<CopyReader<F::Device>>, AllocError>
    ensures bytes { IfOk result (λ readers. map (λ reader. (F.Device.log reader.source).remaining) readers.items
        ≡ map (λ path. (F.files files.now).bytes_at path.now) paths.now) }
    ensures at { IfOk result (λ readers. AllZip (λ path reader. IsLogAt (F.files files.now).is_device_at F.Device.log path.now (F.Device.log reader.source))
        paths.now readers.items) }
    ensures unread { IfOk result (λ readers. All (λ reader. (state_of F.Device.log reader).end ≡ 0) readers.items) }
{
    let mut readers = Vec::with_capacity(alloc, paths.len())?;
    for path in paths {
        readers.push(CopyReader::new(alloc, files.device(path)))?;
    }
    Ok(readers)
}

/// Makes a file of its stretches in the copies of these paths, of which `out` is the word. No file is opened where `out` is the word of the
/// list or of a copy, which would be overwritten. Where the list lists no stretch, nothing is written to the file, and it is made after that.
///
/// It stops where `mend_of` does; with `Write` where `out` is the word of an input, or the file can't be made; and with `Memory` if
/// memory for the copies can't be allocated. After a fault of the list, or where `out` is an input, nothing was written or printed; and
/// after no fault is the file touched before its first byte.
pub(crate) fn mend_files<'a, F: FileSystem<'a>, O: MakeFile, W: Sink>(
    alloc: Global,
    files: &F,
    list: &'a str,
    copies: &Vec<&'a str>,
    out: &str,
    made: &mut O,
    output: &mut W,
) -> Result<bool, CliFault>
    ensures { (recordings : Recordings) → KeepsPromise
        (files_of recordings (F.files files.now) F.Device.log F.Buffered.log)
        (made_by O.log O.is_made O.cannot_make made.old made.new) (printed_by W.log output.old output.new)
        (Mend list.entry out.entry copies.now) result }
{
    if out == list || is_among(out, copies.as_slice()) {
        return Err(CliFault::Write(CommandPath::Out));
    }
    let mut copies = readers_of(alloc, files, copies.as_slice())?;
    let good = mend_of(
        alloc,
        &mut files.device(list),
        copies.as_mut_slice(),
        made,
        output,
    );
    make_after(good, made)
}
