//! The command `picture`: writes what can be shown of a holding file of the profile (own).
ghost use Rattle.std.specs.Prelude.{◌≡◌, ◌++◌, ◌<◌, ◌^◌, ◌↔◌, All, IsTrue, IfOk, IfErr, OnOk, length, string_bytes};
ghost use Rattle.ffv1_picture.specs.PartialPictures.{IsPartialPicture};
ghost use Rattle.ffv1_commands.specs.Fault.{NamesPath};
ghost use Rattle.ffv1_commands.specs.Paths.{IsHoldPath};
ghost use Rattle.ffv1_commands.specs.Devices.{UnlessWriting};
ghost use Rattle.ffv1_commands.specs.PictureText.{stuck_line, header_line, unreadable_line, outcome_line, picture_text, IsDecoded, partial_samples, partial_lines, IsWholePartial, ShowsFile, PictureStops, ReportsPicture};

use crate::devices::buffered;
use crate::fault::CliFault;
use crate::frames::write_frame;
use crate::holdings::read_profile_holding;
use crate::path::CommandPath;
use crate::pictures::{Pictured, write_picture};
use ffv1_devices::{Sink, Source, ThroughWrite};
use ffv1_hold::Holding;
use ffv1_picture::{Partial, TileOutcome, picture};
use ffv1_plane::TileFault;
use std::alloc::{AllocError, Global};
use std::io::{Read, Write};

/// Reads a holding file to its end; writes its partial picture to `out`, planes Y, Cb and Cr row by row, a byte a sample,
/// 128 where there is none; and then prints a line for each tile without samples, as `tile 0 missing`. Returns whether each
/// tile has samples.
///
/// Returns `Read` if the file can't be read; `HoldFile` with its first fault in the order of its bytes; `Memory` if an
/// allocation fails: then nothing was written, and `out` was not touched. Returns `Write` if `out` or the output fails: then
/// a front of the samples was written, or all samples and a front of the lines.
pub fn run_picture<R: Read, O: Write, W: Write>(
    alloc: Global,
    file: &mut R,
    out: &mut O,
    output: &mut W,
) -> Result<bool, CliFault>
    ensures ok { IfOk result (ShowsFile (R.remaining file.old) (O.contents out.old) (O.contents out.new) (W.contents output.old) (W.contents output.new)) }
    ensures err { IfErr result (PictureStops (R.remaining file.old) (O.contents out.old) (O.contents out.new) (W.contents output.old) (W.contents output.new)) }
    ensures untouched { IfErr result (λ fault. UnlessWriting fault ((out.new ≡ out.old) × (output.new ≡ output.old))) }
    ensures names { IfErr result (NamesPath IsHoldPath) }
{
    let mut file = buffered(alloc, file)?;
    picture_of(
        alloc,
        &mut file,
        &mut ThroughWrite::new(out),
        &mut ThroughWrite::new(output),
    )
}

/// The command over a source and sinks, whose logs say how it went: at `Read` the source was given up, and at `Write` the sink
/// that is named; no other failures came but interruptions.
pub fn picture_of<R: Source, O: Sink, W: Sink>(
    alloc: Global,
    file: &mut R,
    out: &mut O,
    output: &mut W,
) -> Result<bool, CliFault>
    ensures reported { ReportsPicture result (R.log file.old) (R.log file.new) (O.log out.old) (O.log out.new) (W.log output.old) (W.log output.new) }
    ensures untouched { IfErr result (λ fault. UnlessWriting fault ((out.new ≡ out.old) × (output.new ≡ output.old))) }
{
    let holding = read_profile_holding(alloc, file, CommandPath::Hold(0))?;
    let partial = picture_of_holding(alloc, holding)?;
    write_picture(alloc, &partial, out, output)
}

/// The partial picture of a holding.
fn picture_of_holding(alloc: Global, holding: Holding) -> Result<Partial, AllocError>
    ensures partial { IfOk result (IsPartialPicture holding) }
{
    picture(alloc, &holding)
}

impl Pictured for Partial {
    ghost samples = { partial_samples };

    ghost lines = { partial_lines };

    ghost IsWhole = { IsWholePartial };

    fn write<O: Sink>(&self, out: &mut O) -> Result<(), CliFault> {
        write_frame(out, &self.frame)
    }

    fn text(&self, alloc: Global) -> Result<String, AllocError> {
        outcomes_text(alloc, self.tiles.as_slice())
    }

    fn is_whole(&self) -> bool {
        let outcomes = self.tiles.as_slice();
        outcomes
            .iter()
            .all(|outcome| matches!(outcome, TileOutcome::Decoded { .. }))
    }
}

/// The lines of the tiles without samples.
fn outcomes_text(alloc: Global, outcomes: &[TileOutcome]) -> Result<String, AllocError>
    ensures { IfOk result (λ text. string_bytes text ≡ picture_text outcomes.now) }
{
    let mut text = String::new(alloc);
    for tile in 0..outcomes.len() {
        push_outcome(&mut text, tile, outcomes[tile])?;
    }
    Ok(text)
}

/// Adds the line of a tile, if it has no samples.
fn push_outcome(text: &mut String, tile: usize, outcome: TileOutcome) -> Result<(), AllocError>
    ensures { OnOk result (string_bytes text.new ≡ string_bytes text.old ++ outcome_line tile outcome) }
{
    match outcome {
        TileOutcome::Decoded { .. } => Ok(()),
        TileOutcome::Missing => writeln!(text, "tile {tile} missing"),
        TileOutcome::Disputed(slices) => writeln!(text, "tile {tile} disputed {slices}"),
        TileOutcome::Fault(cause) => push_unreadable(text, tile, cause),
    }
}

/// Adds the line of a tile whose settled slice spells no picture.
fn push_unreadable(text: &mut String, tile: usize, cause: TileFault) -> Result<(), AllocError>
    ensures { OnOk result (string_bytes text.new ≡ string_bytes text.old ++ unreadable_line tile cause) }
{
    match cause {
        TileFault::Code { plane, y, x, .. } => push_code_place(text, tile, plane, y, x),
        _ => push_header(text, tile),
    }
}

/// Adds the line of a tile with the sample at which its slice can't be read.
fn push_code_place(
    text: &mut String,
    tile: usize,
    plane: usize,
    y: usize,
    x: usize,
) -> Result<(), AllocError>
    ensures { OnOk result (string_bytes text.new ≡ string_bytes text.old ++ stuck_line tile plane y x) }
{
    writeln!(text, "tile {tile} fault plane {plane} y {y} x {x}")
}

/// Adds the line of a tile whose header can't be read.
fn push_header(text: &mut String, tile: usize) -> Result<(), AllocError>
    ensures { OnOk result (string_bytes text.new ≡ string_bytes text.old ++ header_line tile) }
{
    writeln!(text, "tile {tile} fault header")
}
