//! The command `picture --any`: writes what can be shown of a holding file of any recording (own).
ghost use Rattle.std.specs.Prelude.{◌≡◌, ◌++◌, ◌↔◌, All, IsTrue, IfOk, IfErr, OnOk, string_bytes};
ghost use Rattle.ffv1_player.specs.Shown.{ShowsHolding};
ghost use Rattle.ffv1_player.specs.Written.{samples_bytes};
ghost use Rattle.ffv1_commands.specs.PictureText.{stuck_line};
ghost use Rattle.ffv1_commands.specs.Fault.{NamesPath};
ghost use Rattle.ffv1_commands.specs.Paths.{IsHoldPath};
ghost use Rattle.ffv1_commands.specs.Devices.{UnlessWriting};
ghost use Rattle.ffv1_commands.specs.Inner.Devices.{WritesNamed};
ghost use Rattle.ffv1_commands.specs.AnyPictureText.{slice_fault_line, unclean_tile_line, shown_line, shown_text, key_line, IsShownWhole, shown_samples, shown_lines, IsWholeShown, ShowsAnyFile, AnyPictureStops, ReportsAnyPicture};

use crate::devices::buffered;
use crate::fault::CliFault;
use crate::holdings::read_holding;
use crate::path::CommandPath;
use crate::pictures::{Pictured, write_picture};
use ffv1_devices::{Sink, Source, ThroughWrite, WriteFailed};
use ffv1_hold::{Holding, Recordings};
use ffv1_player::{Samples, Shown, ShownTile, SliceEnd, show_holding, write_samples};
use ffv1_range::Recording;
use ffv1_samples::SliceFault;
use std::alloc::{AllocError, Global};
use std::io::{Read, Write};

/// Reads a holding file of any recording to its end; writes what can be shown of it to `out`, planes Y, Cb, Cr and alpha, or G, B, R and
/// alpha, row by row: a byte a sample at depth 8, else two, the less significant first, and 2^(depth - 1) where there is none; and then
/// prints `keyframe unknown` in a line, if nothing says whether the frame is a keyframe; and a line for each tile without samples, as
/// `tile 0 missing`, and for each whose slice does not end as an encoder ends it, as `tile 0 unclean spare 8`. Returns whether there is no
/// such tile: where it is unknown, tile 0 is one.
///
/// Returns `Read` if the file can't be read; `HoldFile` with its first fault in the order of its bytes; `Memory` if an
/// allocation fails: then nothing was written, and `out` was not touched. Returns `Write` if `out` or the output fails: then
/// a front of the samples was written, or all samples and a front of the lines.
pub fn run_any_picture<R: Read, O: Write, W: Write>(
    alloc: Global,
    file: &mut R,
    out: &mut O,
    output: &mut W,
) -> Result<bool, CliFault>
    ensures ok { IfOk result (ShowsAnyFile (R.remaining file.old) (O.contents out.old) (O.contents out.new) (W.contents output.old) (W.contents output.new)) }
    ensures err { IfErr result (AnyPictureStops (R.remaining file.old) (O.contents out.old) (O.contents out.new) (W.contents output.old) (W.contents output.new)) }
    ensures untouched { IfErr result (λ fault. UnlessWriting fault ((out.new ≡ out.old) × (output.new ≡ output.old))) }
    ensures names { IfErr result (NamesPath IsHoldPath) }
{
    let mut file = buffered(alloc, file)?;
    any_picture_of(
        alloc,
        &mut file,
        &mut ThroughWrite::new(out),
        &mut ThroughWrite::new(output),
    )
}

/// The command over a source and sinks, whose logs say how it went: at `Read` the source was given up, and at `Write` the sink
/// that is named; no other failures came but interruptions.
pub fn any_picture_of<R: Source, O: Sink, W: Sink>(
    alloc: Global,
    file: &mut R,
    out: &mut O,
    output: &mut W,
) -> Result<bool, CliFault>
    ensures reported { ReportsAnyPicture result (R.log file.old) (R.log file.new) (O.log out.old) (O.log out.new) (W.log output.old) (W.log output.new) }
    ensures untouched { IfErr result (λ fault. UnlessWriting fault ((out.new ≡ out.old) × (output.new ≡ output.old))) }
{
    let holding = read_holding(alloc, Recordings::Any, file, CommandPath::Hold(0))?;
    let shown = shown_of_holding(alloc, holding)?;
    write_picture(alloc, &shown, out, output)
}

/// What can be shown of a holding.
fn shown_of_holding(alloc: Global, holding: Holding<Recording>) -> Result<Shown, AllocError>
    ensures shown { IfOk result (ShowsHolding holding) }
{
    show_holding(alloc, &holding)
}

impl Pictured for Shown {
    ghost samples = { shown_samples };

    ghost lines = { shown_lines };

    ghost IsWhole = { IsWholeShown };

    fn write<O: Sink>(&self, out: &mut O) -> Result<(), CliFault> {
        match write_samples(&self.samples, out) {
            Ok(()) => Ok(()),
            Err(WriteFailed) => Err(CliFault::Write(CommandPath::Out)),
        }
    }

    fn text(&self, alloc: Global) -> Result<String, AllocError> {
        let mut text = String::new(alloc);
        push_key(&mut text, self.is_key_known)?;
        push_tiles(&mut text, self.tiles.as_slice())?;
        Ok(text)
    }

    fn is_whole(&self) -> bool {
        let tiles = self.tiles.as_slice();
        tiles.iter().all(|tile| matches!(tile, ShownTile::Decoded(SliceEnd { is_clean: true, .. })))
    }
}

/// Adds the line of a frame of which it is not known if it is a keyframe.
fn push_key(text: &mut String, is_known: bool) -> Result<(), AllocError>
    ensures { OnOk result (string_bytes text.new ≡ string_bytes text.old ++ key_line is_known) }
{
    if is_known {
        return Ok(());
    }
    text.push_str("keyframe unknown\n")
}

/// Adds the lines of the tiles.
fn push_tiles(text: &mut String, tiles: &[ShownTile]) -> Result<(), AllocError>
    ensures { OnOk result (string_bytes text.new ≡ string_bytes text.old ++ shown_text tiles.now) }
{
    for tile in 0..tiles.len() {
        push_tile(text, tile, tiles[tile])?;
    }
    Ok(())
}

/// Adds the line of a tile, if it has one.
fn push_tile(text: &mut String, tile: usize, shown: ShownTile) -> Result<(), AllocError>
    ensures { OnOk result (string_bytes text.new ≡ string_bytes text.old ++ shown_line tile shown) }
{
    match shown {
        ShownTile::Decoded(end) => push_end(text, tile, end),
        ShownTile::Missing => writeln!(text, "tile {tile} missing"),
        ShownTile::Disputed(slices) => writeln!(text, "tile {tile} disputed {slices}"),
        ShownTile::NoKeyframe => writeln!(text, "tile {tile} no keyframe"),
        ShownTile::Fault(cause) => push_fault(text, tile, cause),
    }
}

/// Adds the line of a tile whose slice ends so, if it does not end as an encoder ends it.
fn push_end(text: &mut String, tile: usize, end: SliceEnd) -> Result<(), AllocError>
    ensures { OnOk result (string_bytes text.new ≡ string_bytes text.old ++ shown_line tile (ShownTile.Decoded end)) }
{
    if end.is_clean {
        return Ok(());
    }
    push_unclean(text, tile, end.spare_bits)
}

/// Adds the line of a tile whose slice does not end as an encoder ends it, and has so many spare bits.
fn push_unclean(text: &mut String, tile: usize, spare: usize) -> Result<(), AllocError>
    ensures { OnOk result (string_bytes text.new ≡ string_bytes text.old ++ unclean_tile_line tile spare) }
{
    writeln!(text, "tile {tile} unclean spare {spare}")
}

/// Adds the line of a tile whose settled slice has no picture.
fn push_fault(text: &mut String, tile: usize, cause: SliceFault) -> Result<(), AllocError>
    ensures { OnOk result (string_bytes text.new ≡ string_bytes text.old ++ slice_fault_line tile cause) }
{
    match cause {
        SliceFault::Code { plane, y, x, .. } => push_sample(text, tile, plane, y, x),
        SliceFault::End => writeln!(text, "tile {tile} fault end"),
        _ => writeln!(text, "tile {tile} fault header"),
    }
}

/// Adds the line of a tile with the sample at which its slice can't be read.
fn push_sample(
    text: &mut String,
    tile: usize,
    plane: usize,
    y: usize,
    x: usize,
) -> Result<(), AllocError>
    ensures { OnOk result (string_bytes text.new ≡ string_bytes text.old ++ stuck_line tile plane y x) }
{
    writeln!(text, "tile {tile} fault plane {plane} y {y} x {x}")
}
