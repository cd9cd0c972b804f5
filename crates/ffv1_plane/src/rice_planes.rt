//! The planes of a slice of Golomb-Rice codes that are read together, line by line in coded order (RFC 9043, sections 3.8.2 and 4.7).
ghost use Rattle.std.specs.Prelude.{◌≡◌, ◌<◌, ◌≤◌, ◌*◌, ◌∷◌, [], ℕ, IfOk, IfErr, IsTrue, MatchResult, OnOk, List, length, map, slice_index, if◌then◌else◌};
ghost use Rattle.std.specs.List.{All};
ghost use Rattle.ffv1_plane.specs.Picture.{no_values};
ghost use Rattle.ffv1_plane.specs.Lines.{line_at};
ghost use Rattle.ffv1_plane.specs.RangeSlices.{slice_shape, height_at};
ghost use Rattle.ffv1_plane.specs.RangeReading.{IsPlaneSize};
ghost use Rattle.ffv1_plane.specs.RiceSlices.{is_anew_at};
ghost use Rattle.ffv1_plane.specs.RiceReading.{group_codes, first_codes, HaveSliceCodes, AreValuesOf, AreCodesDecoded, IsCodesFaultOf, AreSpelledAt};
ghost use Rattle.ffv1_plane.specs.RiceLaws.{OneCodesReading, StuckCodesSpellNothing, StuckCodesAreOne};
ghost use Rattle.ffv1_plane.specs.Inner.Planes.{coding_of_planes};
ghost use Rattle.ffv1_plane.specs.Inner.RangeLines.{rows_at};
ghost use Rattle.ffv1_plane.specs.Inner.RiceLines.{codes_place, HaveCodes, AreCodesRead, IsCutFor, codes_fault};
ghost use Rattle.ffv1_plane.specs.declared.rice_planes.CodesFault.TheVariants as CodesFault;

use crate::coded_order::PlaneRow;
use crate::lines::Lines;
use crate::planes::{Group, PlaneSize, SlicePlanes};
use crate::rice_rows::{RowCodes, RowCodesFault, read_rice_row};
use crate::row_reader::{RowReader, read_lines};
use ffv1_bits::Bits;
use ffv1_range::Recording;
use ffv1_rice::{CodeFault, RunIndex, VlcState};
use std::alloc::{AllocError, Global};

/// A reader of lines of Golomb-Rice codes: the bits that are left, and the states of each group of planes, one a context (RFC 9043, section 3.8.2.4).
#[derive(Drop)]
pub struct RiceLines<'b> {
    pub bits: Bits<'b>,
    /// The states of the first plane.
    pub luma: Vec<VlcState>,
    /// Those of the second and third plane together.
    pub chroma: Vec<VlcState>,
    /// Those of alpha.
    pub alpha: Vec<VlcState>,
}

impl<'b> RiceLines<'b> {
    /// A reader of a slice of a keyframe, after its header: each context of each group begins with the start state (RFC 9043, section 3.8.2.4). The table sets are those
    /// of the three groups, as the header names them. The bits are those from the codes on.
    ///
    /// An allocation of memory can fail. It takes a state for each context of the three sets.
    pub fn start(
        alloc: Global,
        recording: &Recording,
        sets: &[usize; 3],
        bits: Bits<'b>,
    ) -> Result<RiceLines<'b>, AllocError>
        requires luma { slice_index sets.now 0 < length recording.now.setup.sets }
        requires chroma { slice_index sets.now 1 < length recording.now.setup.sets }
        requires alpha { slice_index sets.now 2 < length recording.now.setup.sets }
        ensures bits { IfOk result (λ reader. reader.bits ≡ bits.entry) }
        ensures begins { IfOk result (λ reader. (group : ℕ) → group < 3 → group_codes reader group ≡ first_codes recording.now (slice_index sets.now group)) }
        ensures states { IfOk result (λ reader. (sizes : List PlaneSize) → HaveSliceCodes (slice_shape recording.now sets.now sizes) reader) }
        ensures fresh { IfOk result (λ reader. (sizes : List PlaneSize) → AreValuesOf (slice_shape recording.now sets.now sizes) (λ group. no_values) reader) }
    {
        let luma = first_codes(alloc, recording, sets[0])?;
        let chroma = first_codes(alloc, recording, sets[1])?;
        let alpha = first_codes(alloc, recording, sets[2])?;
        Ok(RiceLines {
            bits,
            luma,
            chroma,
            alpha,
        })
    }
}

/// The start state for each context of a set.
pub(crate) fn first_codes(
    alloc: Global,
    recording: &Recording,
    set: usize,
) -> Result<Vec<VlcState>, AllocError>
    requires { set < length recording.now.setup.sets }
    ensures { IfOk result (λ states. states.items ≡ first_codes recording.now set) }
{
    vec![in alloc; VlcState::start(); recording.contexts(set) as usize]
}

/// Why the planes of a slice of Golomb-Rice codes can't be read.
#[derive(Clone, Copy, Debug, PartialEq, Eq)]
pub enum CodesFault {
    /// No word or code of a sample can be read: of a plane, which are counted from 0 in coded order, by its row and its column, counted from the slice's first.
    Sample {
        fault: CodeFault,
        plane: usize,
        y: usize,
        x: usize,
    },
    /// An allocation of memory failed.
    Memory,
}

/// A reader of lines on its way: what goes on from line to line, and the states of each group.
#[derive(Drop)]
pub(crate) struct OpenLines<'b> {
    codes: RowCodes<'b>,
    luma: Vec<VlcState>,
    chroma: Vec<VlcState>,
    alpha: Vec<VlcState>,
    is_rgb: bool,
}

/// The run index at which a row of a plane begins, where the line before leaves this one.
fn index_at(is_rgb: bool, plane: usize, row: usize, index: RunIndex) -> RunIndex
    ensures { result ≡ (if is_anew_at is_rgb (line_at plane row) then 0 else index) }
{
    if row == 0 && (!is_rgb || plane == 0) {
        RunIndex::start()
    } else {
        index
    }
}

impl<'b> OpenLines<'b> {
    /// Reads the next row of a plane, and ends it.
    fn read_line(
        self,
        planes: &mut SlicePlanes,
        plane: usize,
        row: usize,
    ) -> Result<OpenLines<'b>, CodesFault>
        requires states { HaveCodes planes.old self }
        requires inside { plane < length planes.old.lines.items }
        requires start { (rows_at planes.old.lines.items plane).x ≡ 0 }
        requires place { length (rows_at planes.old.lines.items plane).samples ≡ row * (rows_at planes.old.lines.items plane).width }
        ensures same { OnOk result (coding_of_planes planes.new ≡ coding_of_planes planes.old) }
        ensures rgb { IfOk result (λ after. after.is_rgb ≡ self.entry.is_rgb) }
        ensures count { length planes.new.lines.items ≡ length planes.old.lines.items }
        ensures states { IfOk result (HaveCodes planes.new) }
        ensures read { IfOk result (λ after. AreCodesRead self.entry.is_rgb (coding_of_planes planes.old) (line_at plane row ∷ []) planes.old.lines.items
            (codes_place self.entry) planes.new.lines.items (codes_place after)) }
        ensures err { IfErr result (IsCutFor self.entry.is_rgb (coding_of_planes planes.old) (line_at plane row ∷ []) planes.old.lines.items (codes_place self.entry)) }
    {
        let OpenLines {
            codes: RowCodes { bits, index, spare },
            luma,
            chroma,
            alpha,
            is_rgb,
        } = self;
        let index = index_at(is_rgb, plane, row, index);
        let codes = RowCodes { bits, index, spare };
        let lines = &mut planes.lines[plane];
        match Group::of(planes.has_chroma, plane) {
            Group::Luma => match read_rice_row(codes, luma, lines, &planes.luma) {
                Ok((codes, luma)) => Ok(OpenLines {
                    codes,
                    luma,
                    chroma,
                    alpha,
                    is_rgb,
                }),
                Err(fault) => Err(placed(fault, plane, row)),
            },
            Group::Chroma => match read_rice_row(codes, chroma, lines, &planes.chroma) {
                Ok((codes, chroma)) => Ok(OpenLines {
                    codes,
                    luma,
                    chroma,
                    alpha,
                    is_rgb,
                }),
                Err(fault) => Err(placed(fault, plane, row)),
            },
            Group::Alpha => match read_rice_row(codes, alpha, lines, &planes.alpha) {
                Ok((codes, alpha)) => Ok(OpenLines {
                    codes,
                    luma,
                    chroma,
                    alpha,
                    is_rgb,
                }),
                Err(fault) => Err(placed(fault, plane, row)),
            },
        }
    }
}

impl<'b> RowReader for OpenLines<'b> {
    type Fault = CodesFault;

    ghost use Rattle.ffv1_plane.specs.Inner.RiceLines.{HaveCodes, HasReadCodesOf, IsCodesFaultAt};

    ghost can_read = { HaveCodes };

    ghost reads = { HasReadCodesOf };

    ghost refuses = { IsCodesFaultAt };

    fn read_row(
        self,
        planes: &mut SlicePlanes,
        line: PlaneRow,
    ) -> Result<OpenLines<'b>, CodesFault> {
        self.read_line(planes, line.plane, line.row)
    }
}

/// The fault of a row of a plane as one of lines.
fn placed(fault: RowCodesFault, plane: usize, row: usize) -> CodesFault
    ensures { result ≡ codes_fault fault plane row }
{
    match fault {
        RowCodesFault::Sample { fault, x } => CodesFault::Sample {
            fault,
            plane,
            y: row,
            x,
        },
        RowCodesFault::Memory => CodesFault::Memory,
    }
}

/// Reads the planes of a slice of coder_type 0, line by line in coded order (RFC 9043, section 4.7): the coded samples of each plane, row by row, and the
/// reader after the last of them, whose bits are those that are left.
///
/// The reader has the bits after the slice's header, and the states that each group begins with: those of `RiceLines::start`, or what earlier values of the recording's coded depth
/// have left. The run index is 0 at the first row of each plane; in RGB at the slice's first line alone, and from there it goes on from a line to the next line coded.
/// The table sets are those of the three groups, as the header names them. The sizes are those of the slice's planes in coded order, in samples; those of RGB are alike.
/// Samples are predicted as numbers without a sign at each depth: the exception of section 3.3 is one of range coding.
///
/// Refused with `Sample` at the first sample of which a word or code can't be read; returns `Memory` if an allocation fails. It takes four bytes a sample, and
/// three lines a plane.
pub fn read_rice_planes<'b>(
    alloc: Global,
    recording: &Recording,
    sets: &[usize; 3],
    sizes: &[PlaneSize],
    reader: RiceLines<'b>,
) -> Result<(RiceLines<'b>, Vec<Vec<u32>>), CodesFault>
    requires luma { slice_index sets.now 0 < length recording.now.setup.sets }
    requires chroma { slice_index sets.now 1 < length recording.now.setup.sets }
    requires alpha { slice_index sets.now 2 < length recording.now.setup.sets }
    requires some { 1 ≤ length sizes.now }
    requires sizes { All IsPlaneSize sizes.now }
    requires same { IsTrue recording.now.is_rgb → (p : ℕ) → p < length sizes.now → height_at sizes.now p ≡ height_at sizes.now 0 }
    requires states { HaveSliceCodes (slice_shape recording.now sets.now sizes.now) reader }
    ensures read { IfOk result (λ read. AreCodesDecoded (slice_shape recording.now sets.now sizes.now) reader.entry read.0 (map (λ plane. plane.items) read.1.items)) }
    ensures err { IfErr result (IsCodesFaultOf (slice_shape recording.now sets.now sizes.now) reader.entry) }

    // Wherever the bits begin with planes, after values that have left the states, these are returned, or Memory.
    ensures found { (planes : List (List ℕ)) → AreSpelledAt (slice_shape recording.now sets.now sizes.now) reader.entry planes
        → MatchResult result (λ read. map (λ plane. plane.items) read.1.items ≡ planes) (λ fault. fault ≡ CodesFault.Memory) }
{
    recording.keeps_version_3();
    let Ok(mut planes) = SlicePlanes::new(alloc, recording, sets, sizes) else {
        return Err(CodesFault::Memory);
    };
    let Ok(spare) = Lines::new(alloc, recording.coded_depth(), 1, 0) else {
        return Err(CodesFault::Memory);
    };
    let RiceLines {
        bits,
        luma,
        chroma,
        alpha,
    } = reader;
    let index = RunIndex::start();
    let is_rgb = recording.is_rgb();
    let begun = OpenLines {
        codes: RowCodes { bits, index, spare },
        luma,
        chroma,
        alpha,
        is_rgb,
    };
    let OpenLines {
        codes,
        luma,
        chroma,
        alpha,
        is_rgb: _,
    } = read_lines(&mut planes, begun, is_rgb, sizes)?;
    let Ok(samples) = planes.into_samples(alloc) else {
        return Err(CodesFault::Memory);
    };
    let bits = codes.bits;
    let after = RiceLines {
        bits,
        luma,
        chroma,
        alpha,
    };
    Ok((after, samples))
}

/// After the same values no bits begin with two lists of planes of a slice.
pub fn one_codes_reading()
    ensures { OneCodesReading }
{}

/// Bits that are stuck begin with no planes, and are stuck with one fault at one sample.
pub fn one_codes_fault()
    ensures nothing { StuckCodesSpellNothing }
    ensures one { StuckCodesAreOne }
{}
