//! The lines of a setup, which `show` and `setup` print.
ghost use Rattle.std.specs.Prelude.{◌≡◌, ◌++◌, OnOk, string_bytes};
ghost use Rattle.std.specs.List.{flat_map};
ghost use Rattle.ffv1_commands.specs.SetupLines.{version_line, coding_line, planes_line, grid_line, contexts_word, tables_line, ec_line, setup_lines};

use ffv1_range::Recording;
use std::alloc::AllocError;

/// How samples are coded, as it is printed.
#[derive(Drop)]
pub(crate) struct SampleForm {
    /// coder_type.
    pub(crate) coder: u32,
    /// colorspace_type.
    pub(crate) colorspace: u32,
    /// The bits of a sample.
    pub(crate) depth: u32,
    /// The number of planes, that of alpha included.
    pub(crate) planes: usize,
}

/// Adds the lines of the setup of a recording whose samples are coded so.
pub(crate) fn push_lines(
    text: &mut String,
    recording: &Recording,
    form: &SampleForm,
) -> Result<(), AllocError>
    ensures { OnOk result (string_bytes text.new ≡ string_bytes text.old
        ++ setup_lines form.now.coder form.now.colorspace form.now.depth form.now.planes recording.now.setup) }
{
    push_version(text, recording)?;
    push_coding(text, form)?;
    push_planes(text, recording, form.planes)?;
    push_grid(text, recording)?;
    push_tables(text, recording)?;
    push_end(text, recording)
}

/// Adds the line of the version.
fn push_version(text: &mut String, recording: &Recording) -> Result<(), AllocError>
    ensures { OnOk result (string_bytes text.new ≡ string_bytes text.old ++ version_line recording.now.setup) }
{
    let micro = recording.micro();
    writeln!(text, "version 3.{micro}")
}

/// Adds the line of how samples are coded.
fn push_coding(text: &mut String, form: &SampleForm) -> Result<(), AllocError>
    ensures { OnOk result (string_bytes text.new ≡ string_bytes text.old ++ coding_line form.now.coder form.now.colorspace form.now.depth) }
{
    let (coder, colorspace, depth) = (form.coder, form.colorspace, form.depth);
    writeln!(text, "coder {coder} colorspace {colorspace} depth {depth}")
}

/// Adds the line of the planes.
fn push_planes(text: &mut String, recording: &Recording, planes: usize) -> Result<(), AllocError>
    ensures { OnOk result (string_bytes text.new ≡ string_bytes text.old ++ planes_line planes recording.now.setup) }
{
    let (shift_h, shift_v) = (recording.shift_h(), recording.shift_v());
    writeln!(text, "planes {planes} shift {shift_h} {shift_v}")
}

/// Adds the line of the grid.
fn push_grid(text: &mut String, recording: &Recording) -> Result<(), AllocError>
    ensures { OnOk result (string_bytes text.new ≡ string_bytes text.old ++ grid_line recording.now.setup) }
{
    let grid = recording.grid();
    let (across, down, tiles) = (grid.across(), grid.down(), grid.tiles());
    writeln!(text, "grid {across}x{down} tiles {tiles}")
}

/// Adds the line of the sets of tables.
fn push_tables(text: &mut String, recording: &Recording) -> Result<(), AllocError>
    ensures { OnOk result (string_bytes text.new ≡ string_bytes text.old ++ tables_line recording.now.setup) }
{
    let sets = recording.sets();
    write!(text, "tables {sets} contexts")?;
    push_contexts(text, recording)?;
    text.push_str("\n")
}

/// Adds the number of contexts of each set.
fn push_contexts(text: &mut String, recording: &Recording) -> Result<(), AllocError>
    ensures { OnOk result (string_bytes text.new ≡ string_bytes text.old ++ flat_map (λ set. contexts_word set.contexts) recording.now.setup.sets) }
{
    for set in 0..recording.sets() {
        push_context(text, recording.contexts(set))?;
    }
    Ok(())
}

/// Adds a number of contexts.
fn push_context(text: &mut String, contexts: u32) -> Result<(), AllocError>
    ensures { OnOk result (string_bytes text.new ≡ string_bytes text.old ++ contexts_word contexts) }
{
    write!(text, " {contexts}")
}

/// Adds the line of ec and intra.
fn push_end(text: &mut String, recording: &Recording) -> Result<(), AllocError>
    ensures { OnOk result (string_bytes text.new ≡ string_bytes text.old ++ ec_line recording.now.setup) }
{
    let (ec, intra) = (recording.ec(), recording.intra());
    writeln!(text, "ec {ec} intra {intra}")
}
