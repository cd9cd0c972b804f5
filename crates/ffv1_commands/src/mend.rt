//! The command `mend`: makes a file of its stretches in copies of it, in one pass over the copies (own).
ghost use Rattle.std.specs.Prelude.{◌≡◌, ◌⊎◌, All, IfOk, IfErr, length, map, replicate, vec_len};
ghost use Rattle.ffv1_devices.specs.Touching.{WritesIfTouched};
ghost use Rattle.ffv1_stretches.specs.Copies.{state_of, unread};
ghost use Rattle.ffv1_stretches.specs.Listed.{AreStretches};
ghost use Rattle.ffv1_stretches.specs.Stretches.{AreInOrder};
ghost use Rattle.ffv1_commands.specs.Devices.{IsWrittenIfTouched};
ghost use Rattle.ffv1_commands.specs.Fault.{NamesPath};
ghost use Rattle.ffv1_commands.specs.InTurn.{log_of};
ghost use Rattle.ffv1_commands.specs.Lists.{ReadsList, IfOfList};
ghost use Rattle.ffv1_commands.specs.MendText.{IsFaultOfList, ReportsMend, MendsFiles, MendStops};
ghost use Rattle.ffv1_commands.specs.Paths.{IsMendPath};

use crate::devices::read_file;
use crate::fault::CliFault;
use crate::path::CommandPath;
use ffv1_devices::{FromRead, Sink, Source, ThroughWrite};
use ffv1_stretches::{CopyReader, ListFault, MendFault, Stretch, mend_stretches, read_list};
use std::alloc::{AllocError, Global};
use std::io::{Read, Write};

/// Reads a list of stretches to its end, and makes the file of them in one pass over copies: writes what becomes of each stretch to `out`,
/// and then prints its lines, as `stretch 3 plain agreed 111`: its number, counted from 1, its kind and state, and a mark for each
/// copy. Returns whether each stretch is whole, woven or agreed.
///
/// A line of the list is a stretch, as `crc32 4096 1 0 - 512`, or a part of the element before it, as `part 6 1000`; `read_list` says
/// what each word means. Each copy is read once, from its start on, no further than to the end of its last stretch; a copy without a
/// stretch is not read. One stretch of each copy is held at a time.
///
/// Returns `Read` with the list if it can't be read or is longer than 2^30 bytes, and with a copy that can't be read or ends within a
/// stretch; `List` with the first line that is neither a stretch after those before it nor a part of the element before it. The list
/// is judged whole before a copy is read, and a fault of it leaves `out` and output untouched. At a later fault what became of
/// the stretches before it was written and printed: `Memory` if an allocation fails, and `Write` if `out` or the output
/// fails, after a front of what was to be written to it. Before its first byte `out` is not touched, and neither is the output.
pub fn run_mend<R: Read, C: Read + Drop, O: Write, W: Write>(
    alloc: Global,
    list: &mut R,
    copies: Vec<C>,
    out: &mut O,
    output: &mut W,
) -> Result<bool, CliFault>
    ensures ok { IfOk result (MendsFiles (R.remaining list.old) (map C.remaining copies.items)
        (O.contents out.old) (O.contents out.new) (W.contents output.old) (W.contents output.new)) }
    ensures err { IfErr result (MendStops (R.remaining list.old) (map C.remaining copies.items)
        (O.contents out.old) (O.contents out.new) (W.contents output.old) (W.contents output.new)) }
    ensures untouched { IfErr result (λ fault. IfOfList CommandPath.List fault ((out.new ≡ out.old) × (output.new ≡ output.old))) }
    ensures out_untouched { IfErr result (IsWrittenIfTouched CommandPath.Out (out.new ≡ out.old) (O.contents out.old) (O.contents out.new)) }
    ensures output_untouched { IfErr result (IsWrittenIfTouched CommandPath.StandardOutput (output.new ≡ output.old) (W.contents output.old) (W.contents output.new)) }
    ensures names { IfErr result (NamesPath (IsMendPath (vec_len copies))) }
{
    let mut readers = readers_of(alloc, copies)?;
    mend_of(
        alloc,
        &mut FromRead::new(list),
        readers.as_mut_slice(),
        &mut ThroughWrite::new(out),
        &mut ThroughWrite::new(output),
    )
}

/// The command over sources and sinks, of copies of which nothing was read yet. The logs say how it went: at `Read` of the list its source
/// was given up or passed the limit, at `Read` of a copy its source ended or was given up, and at `Write` the sink that is named was given
/// up; no other failures came but interruptions.
pub fn mend_of<R: Source, S: Source, O: Sink, W: Sink>(
    alloc: Global,
    list: &mut R,
    copies: &mut [CopyReader<S>],
    out: &mut O,
    output: &mut W,
) -> Result<bool, CliFault>
    requires { All (λ copy. (state_of S.log copy).end ≡ 0) copies.old }
    ensures reported { ReportsMend result (R.log list.old) (R.log list.new) (map (λ copy. S.log copy.source) copies.old) (map (λ copy. S.log copy.source) copies.new)
        (O.log out.old) (O.log out.new) (W.log output.old) (W.log output.new) }
    ensures untouched { IfErr result (λ fault. IfOfList CommandPath.List fault
        ((copies.new ≡ copies.old) × (out.new ≡ out.old) × (output.new ≡ output.old))) }
    ensures out_untouched { IfErr result (λ fault. (fault ≡ CliFault.Write CommandPath.Out) ⊎ WritesIfTouched O.log out.old out.new) }
    ensures output_untouched { IfErr result (λ fault. (fault ≡ CliFault.Write CommandPath.StandardOutput) ⊎ WritesIfTouched W.log output.old output.new) }
{
    let stretches = listed_stretches(alloc, list, copies.len())?;
    Ok(mend_stretches(alloc, stretches.as_slice(), copies, out, output)?)
}

/// The stretches of so many copies that a list lists.
fn listed_stretches<R: Source>(
    alloc: Global,
    list: &mut R,
    copies: usize,
) -> Result<Vec<Stretch>, CliFault>
    ensures ok { IfOk result (λ stretches. ReadsList (λ text. AreStretches copies text stretches.items) (R.log list.old) (R.log list.new)) }
    ensures order { IfOk result (λ stretches. AreInOrder copies (replicate copies 0) stretches.items) }
    ensures err { IfErr result (IsFaultOfList copies (R.log list.old) (R.log list.new)) }
{
    let text = read_file(alloc, list, CommandPath::List)?;
    match read_list(alloc, text.as_slice(), copies) {
        Ok(stretches) => Ok(stretches),
        Err(ListFault::Line(number)) => Err(CliFault::List(number)),
        Err(ListFault::Memory) => Err(CliFault::Memory),
    }
}

/// The copies, of which nothing was read yet, each with a source of its own.
fn readers_of<C: Read + Drop>(
    alloc: Global,
    copies: Vec<C>,
) -> Result<Vec<CopyReader<FromRead<C>>>, AllocError>
    ensures { IfOk result (λ readers. map (state_of ⟦<FromRead<C> as Source>⟧.log) readers.items ≡ map (λ copy. unread (log_of (C.remaining copy))) copies.items) }
{
    let mut readers = Vec::new(alloc);
    for copy in copies {
        readers.push(CopyReader::new(alloc, FromRead::new(copy)))?;
    }
    Ok(readers)
}
