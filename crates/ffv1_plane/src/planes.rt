//! The planes of a slice that are read together, line by line in coded order (RFC 9043, section 4.7).
ghost use Rattle.std.specs.Prelude.{◌≡◌, ◌<◌, ◌≤◌, ◌*◌, ◌∷◌, [], ℕ, IsOk, IfOk, IfErr, IsTrue, MatchResult, OnOk, List, length, map, replicate, slice_index, if◌then◌else◌};
ghost use Rattle.std.specs.List.{All};
ghost use Rattle.ffv1_range.specs.Setup.{set_contexts};
ghost use Rattle.ffv1_plane.specs.Lines.{line_at};
ghost use Rattle.ffv1_plane.specs.Inner.RangeLines.{rows_at, AreLinesRead};
ghost use Rattle.ffv1_plane.specs.RangeSlices.{slice_shape, slice_group, are_signed, height_at};
ghost use Rattle.ffv1_plane.specs.Inner.Planes.{group_number, coding_of_planes, lines_reader, HaveStates, AreNewPlanes, lines_fault, IsLinesFaultOf};
ghost use Rattle.ffv1_plane.specs.RangeLaws.{OneRangeReading, StuckRangeCodesNothing, StuckRangeIsOne};
ghost use Rattle.ffv1_plane.specs.RangeReading.{IsPlaneSize, group_states, start_states, HaveSliceStates, IsSliceRead, IsSliceFaultOf, AreCodedAt};
ghost use Rattle.ffv1_plane.specs.declared.planes.LinesFault.TheVariants as LinesFault;

use crate::coded_order::PlaneRow;
use crate::lines::Lines;
use crate::range_rows::{DifferenceFault, RowFault, read_range_row};
use crate::row_reader::{RowReader, read_lines};
use crate::tables::Tables;
use ffv1_range::{RangeDecoder, Recording};
use std::alloc::{AllocError, Global};

/// The planes that share adaptive states (RFC 9043, section 3.8.1.3).
#[derive(Clone, Copy)]
pub(crate) enum Group {
    /// The first plane: Y, or the first of RGB.
    Luma,
    /// The two planes after it, where there are three.
    Chroma,
    /// The plane of alpha.
    Alpha,
}

/// The planes of a slice, as far as they are read, and by which tables each group is coded.
#[derive(Drop)]
pub(crate) struct SlicePlanes<'s> {
    pub(crate) lines: Vec<Lines>,
    pub(crate) luma: Tables<'s>,
    pub(crate) chroma: Tables<'s>,
    pub(crate) alpha: Tables<'s>,
    pub(crate) has_chroma: bool,
    /// Whether samples are predicted as signed numbers of 16 bits (section 3.3).
    pub(crate) is_signed: bool,
}

/// A reader of range-coded lines: a decoder, and the states of each group of planes, a row of 32 a context (RFC 9043, section 3.8.1.3).
#[derive(Drop)]
pub struct RangeLines<'a> {
    pub decoder: RangeDecoder<'a>,
    /// The states of the first plane.
    pub luma: Vec<[u8; 32]>,
    /// Those of the second and third plane together.
    pub chroma: Vec<[u8; 32]>,
    /// Those of alpha.
    pub alpha: Vec<[u8; 32]>,
}

impl<'a> RangeLines<'a> {
    /// A reader of a slice of a keyframe, after its header: each group begins with the initial states of its table set (RFC 9043, section 4.2.15), which are 128 where
    /// the record codes none. The table sets are those of the three groups, as the header names them.
    ///
    /// An allocation of memory can fail. It takes 32 bytes for each context of the three sets.
    pub fn start(
        alloc: Global,
        recording: &Recording,
        sets: &[usize; 3],
        decoder: RangeDecoder<'a>,
    ) -> Result<RangeLines<'a>, AllocError>
        requires luma { slice_index sets.now 0 < length recording.now.setup.sets }
        requires chroma { slice_index sets.now 1 < length recording.now.setup.sets }
        requires alpha { slice_index sets.now 2 < length recording.now.setup.sets }
        ensures decoder { IfOk result (λ reader. reader.decoder ≡ decoder.entry) }
        ensures begins { IfOk result (λ reader. (group : ℕ) → group < 3 → group_states reader group ≡ start_states recording.now (slice_index sets.now group)) }
        ensures states { IfOk result (λ reader. (sizes : List PlaneSize) → HaveSliceStates (slice_shape recording.now sets.now sizes) reader) }
    {
        let luma = initial_rows(alloc, recording, sets[0])?;
        let chroma = initial_rows(alloc, recording, sets[1])?;
        let alpha = initial_rows(alloc, recording, sets[2])?;
        Ok(RangeLines {
            decoder,
            luma,
            chroma,
            alpha,
        })
    }
}

/// The states that a slice of a keyframe begins with, a row of 32 for each context of a set.
fn initial_rows(
    alloc: Global,
    recording: &Recording,
    set: usize,
) -> Result<Vec<[u8; 32]>, AllocError>
    requires { set < length recording.now.setup.sets }
    ensures value { IfOk result (λ states. states.items ≡ start_states recording.now set) }
    ensures count { IfOk result (λ states. length states.items ≡ set_contexts recording.now.setup set) }
{
    match recording.initial(set) {
        Some(initial) => {
            let mut states = Vec::with_capacity(alloc, initial.len())?;
            states.extend_from_slice(initial)?;
            Ok(states)
        }
        None => fresh_states(alloc, recording.contexts(set) as usize),
    }
}

/// So many rows of states as they are before their first bit.
fn fresh_states(alloc: Global, count: usize) -> Result<Vec<[u8; 32]>, AllocError>
    ensures { IfOk result (λ states. states.items ≡ replicate count (replicate 32 128)) }
{
    let mut states = Vec::with_capacity(alloc, count)?;
    for _ in 0..count {
        states.push([128; 32])?;
    }
    Ok(states)
}

/// Why the planes of a slice can't be read.
#[derive(Clone, Copy, Debug, PartialEq, Eq)]
pub enum LinesFault {
    /// The difference of a sample can't be read: of a plane, which are counted from 0 in coded order, by its row and its column, counted from the slice's first.
    Sample {
        fault: DifferenceFault,
        plane: usize,
        y: usize,
        x: usize,
    },
    /// An allocation of memory failed.
    Memory,
}

/// The group of a plane, counted from 0 in coded order: 0 for the first plane, 1 for the second and third where there are three of colour, 2 for alpha. A plane's
/// adaptive states and its table set are those of its group.
pub fn group_of(has_chroma: bool, plane: usize) -> usize
    ensures value { result ≡ slice_group has_chroma plane }
    ensures few { result < 3 }
{
    if plane == 0 {
        0
    } else if has_chroma && plane < 3 {
        1
    } else {
        2
    }
}

impl Group {
    /// The group of a plane.
    pub(crate) fn of(has_chroma: bool, plane: usize) -> Group
        ensures { group_number result ≡ slice_group has_chroma plane }
    {
        match group_of(has_chroma, plane) {
            0 => Group::Luma,
            1 => Group::Chroma,
            _ => Group::Alpha,
        }
    }
}

/// Whether samples are predicted as signed numbers of 16 bits: those of gray and of Y Cb Cr of 16 bits (RFC 9043, section 3.3, the exception).
fn is_signed(recording: &Recording) -> bool
    ensures { result ≡ are_signed recording.now }
{
    !recording.is_rgb() && recording.depth() == 16
}

/// The size of a plane, in samples.
#[derive(Clone, Copy, Debug, PartialEq, Eq)]
pub struct PlaneSize {
    pub width: usize,
    pub height: usize,
}

impl<'s> SlicePlanes<'s> {
    /// The planes of a slice of a recording, of which nothing was read. The table sets are those of the groups.
    pub(crate) fn new(
        alloc: Global,
        recording: &'s Recording,
        sets: &[usize; 3],
        sizes: &[PlaneSize],
    ) -> Result<SlicePlanes<'s>, AllocError>
        requires luma { slice_index sets.now 0 < length recording.now.setup.sets }
        requires chroma { slice_index sets.now 1 < length recording.now.setup.sets }
        requires alpha { slice_index sets.now 2 < length recording.now.setup.sets }
        requires sizes { All IsPlaneSize sizes.now }
        ensures { IfOk result (λ planes. AreNewPlanes recording.now sets.now sizes.now planes) }
    {
        recording.keeps_version_3();
        let depth = recording.coded_depth();
        let mut lines = Vec::with_capacity(alloc, sizes.len())?;
        for size in sizes {
            lines.push(Lines::new(alloc, depth, size.width, size.height)?)?;
        }
        Ok(SlicePlanes {
            lines,
            luma: Tables::of(recording, sets[0]),
            chroma: Tables::of(recording, sets[1]),
            alpha: Tables::of(recording, sets[2]),
            has_chroma: recording.has_chroma(),
            is_signed: is_signed(recording),
        })
    }
}

impl SlicePlanes<'_> {
    /// Reads the next row of a plane, and ends it.
    fn read_line<'a>(
        &mut self,
        reader: RangeLines<'a>,
        plane: usize,
        row: usize,
    ) -> Result<RangeLines<'a>, LinesFault>
        requires alive { IsOk reader.decoder.at }
        requires states { HaveStates self.old reader }
        requires inside { plane < length self.old.lines.items }
        requires start { (rows_at self.old.lines.items plane).x ≡ 0 }
        requires place { length (rows_at self.old.lines.items plane).samples ≡ row * (rows_at self.old.lines.items plane).width }
        ensures same { OnOk result (coding_of_planes self.new ≡ coding_of_planes self.old) }
        ensures count { length self.new.lines.items ≡ length self.old.lines.items }
        ensures states { IfOk result (HaveStates self.new) }
        ensures read { IfOk result (λ after. AreLinesRead (coding_of_planes self.old) (line_at plane row ∷ []) self.old.lines.items
            (lines_reader reader.entry) self.new.lines.items (lines_reader after)) }
        ensures err { IfErr result (IsLinesFaultOf (coding_of_planes self.old) (line_at plane row ∷ []) self.old.lines.items (lines_reader reader.entry)) }
    {
        let RangeLines {
            decoder,
            luma,
            chroma,
            alpha,
        } = reader;
        let lines = &mut self.lines[plane];
        let signed = self.is_signed;
        match Group::of(self.has_chroma, plane) {
            Group::Luma => match read_range_row(decoder, luma, lines, &self.luma, signed) {
                Ok((decoder, luma)) => Ok(RangeLines {
                    decoder,
                    luma,
                    chroma,
                    alpha,
                }),
                Err(fault) => Err(placed(fault, plane, row)),
            },
            Group::Chroma => match read_range_row(decoder, chroma, lines, &self.chroma, signed) {
                Ok((decoder, chroma)) => Ok(RangeLines {
                    decoder,
                    luma,
                    chroma,
                    alpha,
                }),
                Err(fault) => Err(placed(fault, plane, row)),
            },
            Group::Alpha => match read_range_row(decoder, alpha, lines, &self.alpha, signed) {
                Ok((decoder, alpha)) => Ok(RangeLines {
                    decoder,
                    luma,
                    chroma,
                    alpha,
                }),
                Err(fault) => Err(placed(fault, plane, row)),
            },
        }
    }

    /// The samples of planes whose rows are ended.
    pub(crate) fn into_samples(self, alloc: Global) -> Result<Vec<Vec<u32>>, AllocError>
        requires { (p : ℕ) → p < length self.lines.items → (rows_at self.lines.items p).x ≡ 0 }
        ensures { IfOk result (λ planes. map (λ plane. plane.items) planes.items ≡ map (λ rows. rows.samples) self.entry.lines.items) }
    {
        let SlicePlanes {
            lines,
            luma: _,
            chroma: _,
            alpha: _,
            has_chroma: _,
            is_signed: _,
        } = self;
        let mut planes = Vec::with_capacity(alloc, lines.len())?;
        for plane in lines {
            planes.push(plane.into_rows())?;
        }
        Ok(planes)
    }
}

impl<'a> RowReader for RangeLines<'a> {
    type Fault = LinesFault;

    ghost use Rattle.std.specs.Prelude.{IsOk};
    ghost use Rattle.ffv1_plane.specs.Inner.Planes.{HaveStates, HasReadLine, IsLineFaultOf};

    ghost can_read = { λ planes reader. IsOk reader.decoder.at × HaveStates planes reader };

    ghost reads = { HasReadLine };

    ghost refuses = { IsLineFaultOf };

    fn read_row(
        self,
        planes: &mut SlicePlanes,
        line: PlaneRow,
    ) -> Result<RangeLines<'a>, LinesFault> {
        planes.read_line(self, line.plane, line.row)
    }
}

/// The fault of a row of a plane as one of lines.
fn placed(fault: RowFault, plane: usize, row: usize) -> LinesFault
    ensures { result ≡ lines_fault fault plane row }
{
    match fault {
        RowFault::Sample { fault, x } => LinesFault::Sample {
            fault,
            plane,
            y: row,
            x,
        },
        RowFault::Memory => LinesFault::Memory,
    }
}

/// Reads the planes of a slice of coder_type 1 or 2, line by line in coded order (RFC 9043, section 4.7): the coded samples of each plane, row by row, and the
/// reader after the last of them.
///
/// The reader is the decoder that read the slice's header, with the states that each group begins with. The table sets are those of the three groups, as the
/// header names them. The sizes are those of the slice's planes in coded order, in samples; those of RGB are alike.
///
/// Refused with `Sample` at the first sample whose difference can't be read; returns `Memory` if an allocation fails. It takes four bytes a sample, and
/// three lines a plane.
pub fn read_range_planes<'a>(
    alloc: Global,
    recording: &Recording,
    sets: &[usize; 3],
    sizes: &[PlaneSize],
    reader: RangeLines<'a>,
) -> Result<(RangeLines<'a>, Vec<Vec<u32>>), LinesFault>
    requires alive { IsOk reader.decoder.at }
    requires luma { slice_index sets.now 0 < length recording.now.setup.sets }
    requires chroma { slice_index sets.now 1 < length recording.now.setup.sets }
    requires alpha { slice_index sets.now 2 < length recording.now.setup.sets }
    requires some { 1 ≤ length sizes.now }
    requires sizes { All IsPlaneSize sizes.now }
    requires same { IsTrue recording.now.is_rgb → (p : ℕ) → p < length sizes.now → height_at sizes.now p ≡ height_at sizes.now 0 }
    requires states { HaveSliceStates (slice_shape recording.now sets.now sizes.now) reader }
    ensures read { IfOk result (λ read. IsSliceRead (slice_shape recording.now sets.now sizes.now) reader.entry read.0 (map (λ plane. plane.items) read.1.items)) }
    ensures err { IfErr result (IsSliceFaultOf (slice_shape recording.now sets.now sizes.now) reader.entry) }

    // Wherever the content codes planes, these are returned, or Memory.
    ensures found { (planes : List (List ℕ)) → AreCodedAt (slice_shape recording.now sets.now sizes.now) reader.entry planes
        → MatchResult result (λ read. map (λ plane. plane.items) read.1.items ≡ planes) (λ fault. fault ≡ LinesFault.Memory) }
{
    recording.keeps_version_3();
    let Ok(mut planes) = SlicePlanes::new(alloc, recording, sets, sizes) else {
        return Err(LinesFault::Memory);
    };
    let reader = read_lines(&mut planes, reader, recording.is_rgb(), sizes)?;
    let Ok(samples) = planes.into_samples(alloc) else {
        return Err(LinesFault::Memory);
    };
    Ok((reader, samples))
}

/// No content codes two lists of planes of a slice.
pub fn one_range_reading()
    ensures { OneRangeReading }
{}

/// A content that is stuck codes no planes, and is stuck with one fault at one sample.
pub fn one_range_fault()
    ensures nothing { StuckRangeCodesNothing }
    ensures one { StuckRangeIsOne }
{}
