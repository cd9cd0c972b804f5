//! One pass over the copies of a file (own).
ghost use Rattle.std.specs.Prelude.{◌≡◌, ◌⊎◌, All, length, map, replicate, Err, IfOk, IfErr};
ghost use Rattle.ffv1_devices.specs.Results.{WritesAll};
ghost use Rattle.ffv1_devices.specs.Touching.{WritesIfTouched};
ghost use Rattle.ffv1_mend.specs.Improved.{IsWithin};
ghost use Rattle.ffv1_stretches.specs.Stretches.{IsAfter, FollowsStretch, AreInOrder};
ghost use Rattle.ffv1_stretches.specs.Inner.CellSteps.{cell_now, HasVersion, IsAsLong};
ghost use Rattle.ffv1_stretches.specs.Copies.{state_of};
ghost use Rattle.ffv1_stretches.specs.Inner.PassSteps.{ReadsPlaced, ReadsEach, MendsOne};
ghost use Rattle.ffv1_stretches.specs.Passes.{MendsStretches};

use crate::cells::{cells_of, version_at, versions_of};
use crate::copy::CopyReader;
use crate::lines::stretch_text;
use crate::stretch::Stretch;
use ffv1_devices::{NextFault, Sink, Source, WriteFailed, write_field};
use ffv1_mend::mend;
use std::alloc::{AllocError, Global};

/// Why a pass stopped.
#[derive(Clone, Copy, Debug, PartialEq, Eq)]
pub enum MendFault {
    /// The copy of this number, counted from 0, failed, or ended within a stretch.
    Read(usize),
    /// What is made failed.
    Out,
    /// The output failed.
    Output,
    /// An allocation of memory failed.
    Memory,
}

impl From<AllocError> for MendFault {
    ghost use Rattle.ffv1_stretches.specs.declared.pass.MendFault.TheVariants.{Memory};
    ghost use Rattle.std.specs.Prelude.{◌≡◌};

    ghost from_gives = { λ _ fault. fault ≡ Memory };

    fn from(_refusal: AllocError) -> MendFault {
        MendFault::Memory
    }
}

/// Reads a stretch of so many bytes of the copy of this number, if it has it at a place.
fn read_placed<S: Source>(
    copy: &mut CopyReader<S>,
    number: usize,
    place: Option<u64>,
    size: usize,
) -> Result<(), MendFault>
    requires { IsAfter (state_of S.log copy.old).end place }
    ensures { ReadsPlaced number size place result (state_of S.log copy.old) (state_of S.log copy.new) }
{
    let Some(place) = place else {
        return Ok(());
    };
    match copy.read(place, size) {
        Ok(()) => Ok(()),
        Err(NextFault::Read) => Err(MendFault::Read(number)),
        Err(NextFault::Memory) => Err(MendFault::Memory),
    }
}

/// Reads a stretch of each copy that has it, in the order of the copies.
fn read_stretch<S: Source>(copies: &mut [CopyReader<S>], stretch: &Stretch) -> Result<(), MendFault>
    requires count { length stretch.now.places ≡ length copies.old }
    requires follows { FollowsStretch (map (λ state. state.end) (map (state_of S.log) copies.old)) stretch.now }
    ensures { ReadsEach stretch.now.size stretch.now.places result (map (state_of S.log) copies.old) (map (state_of S.log) copies.new) }
{
    let places = stretch.places.as_slice();
    for index in 0..places.len() {
        read_placed(&mut copies[index], index, places[index], stretch.size)?;
    }
    Ok(())
}

/// Writes what becomes of the stretch with this number, of which the copies have this, and prints its lines. Returns whether it is good.
fn mend_one<O: Sink, W: Sink>(
    alloc: Global,
    number: usize,
    stretch: &Stretch,
    cells: &[Option<&[u8]>],
    out: &mut O,
    output: &mut W,
) -> Result<bool, MendFault>
    requires from { HasVersion (map cell_now cells.now) stretch.now.from }
    requires long { All (IsAsLong stretch.now.size) (map cell_now cells.now) }
    requires parts { All (IsWithin stretch.now.size) stretch.now.parts }
    ensures mended { MendsOne number (map cell_now cells.now) stretch.now result (O.log out.old) (O.log out.new) (W.log output.old) (W.log output.new) }
    ensures out_touched { (result ≡ Err MendFault.Out) ⊎ WritesIfTouched O.log out.old out.new }
    ensures output_touched { (result ≡ Err MendFault.Output) ⊎ WritesIfTouched W.log output.old output.new }
{
    let versions = versions_of(alloc, cells)?;
    let from = version_at(cells, stretch.from);
    let mended = mend(
        alloc,
        stretch.kind,
        versions.as_slice(),
        from,
        stretch.parts.as_slice(),
    )?;
    let text = stretch_text(alloc, number, stretch, cells, &mended)?;
    write_out(out, mended.bytes())?;
    write_output(output, text.as_str())?;
    Ok(mended.is_good())
}

/// Writes bytes, and does not touch the sink where there are none.
fn write_any<S: Sink>(sink: &mut S, bytes: &[u8]) -> Result<(), WriteFailed>
    ensures wrote { WritesAll result (S.log sink.old) (S.log sink.new) bytes.now }
    ensures touched { IfOk result (λ _. WritesIfTouched S.log sink.old sink.new) }
{
    if bytes.is_empty() {
        return Ok(());
    }
    write_field(sink, bytes)
}

/// Writes bytes of what is made.
fn write_out<O: Sink>(out: &mut O, bytes: &[u8]) -> Result<(), MendFault>
    ensures wrote { WritesAll result (O.log out.old) (O.log out.new) bytes.now }
    ensures touched { IfOk result (λ _. WritesIfTouched O.log out.old out.new) }
    ensures fault { IfErr result (λ fault. fault ≡ MendFault.Out) }
{
    match write_any(out, bytes) {
        Ok(()) => Ok(()),
        Err(WriteFailed) => Err(MendFault::Out),
    }
}

/// Prints lines.
fn write_output<W: Sink>(output: &mut W, lines: &str) -> Result<(), MendFault>
    ensures wrote { WritesAll result (W.log output.old) (W.log output.new) lines.now }
    ensures touched { IfOk result (λ _. WritesIfTouched W.log output.old output.new) }
    ensures fault { IfErr result (λ fault. fault ≡ MendFault.Output) }
{
    match write_any(output, lines.as_bytes()) {
        Ok(()) => Ok(()),
        Err(WriteFailed) => Err(MendFault::Output),
    }
}

/// Makes a file of its stretches, in one pass over its copies: reads a stretch of each copy that has it, in the order of the copies, and
/// over what stands between stretches; writes what becomes of it to `out`; and then prints its lines to `output`, as `stretch 3 plain
/// agreed 111`: its number, from 1, its kind and state, and for each copy `1` where it has what OUT has, `0` where it has others,
/// and `-` where it does not have the stretch; and below it of what is damaged or differs the lines of its slices. Returns whether each
/// stretch is whole, woven or agreed.
///
/// Each copy is read once, from its start on, and no further than to the end of its last stretch; a copy that has none is not read. One
/// stretch of each copy is held, and room for it grows as its bytes come. Returns `Read` with the first copy that failed or ended within a
/// stretch, `Memory` if an allocation fails, `Out` and `Output` if these fail: what became of the stretches before was written and
/// printed. Before its first byte `out` is not touched, and neither is `output`.
pub fn mend_stretches<S: Source, O: Sink, W: Sink>(
    alloc: Global,
    stretches: &[Stretch],
    copies: &mut [CopyReader<S>],
    out: &mut O,
    output: &mut W,
) -> Result<bool, MendFault>
    requires order { AreInOrder (length copies.old) (replicate (length copies.old) 0) stretches.now }
    requires unread { All (λ copy. (state_of S.log copy).end ≡ 0) copies.old }
    ensures mended { MendsStretches stretches.now result (map (λ copy. S.log copy.source) copies.old) (map (λ copy. S.log copy.source) copies.new)
        (O.log out.old) (O.log out.new) (W.log output.old) (W.log output.new) }
    ensures out_untouched { IfErr result (λ fault. (fault ≡ MendFault.Out) ⊎ WritesIfTouched O.log out.old out.new) }
    ensures output_untouched { IfErr result (λ fault. (fault ≡ MendFault.Output) ⊎ WritesIfTouched W.log output.old output.new) }
{
    let mut good = true;
    for (index, stretch) in stretches.iter().enumerate() {
        read_stretch(copies, stretch)?;
        let cells = cells_of(alloc, copies, stretch)?;
        good &= mend_one(alloc, index + 1, stretch, cells.as_slice(), out, output)?;
    }
    Ok(good)
}
