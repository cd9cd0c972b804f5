//! The coded planes of a slice, read by the coder of its recording (RFC 9043, sections 3.8 and 4.7).
ghost use Rattle.std.specs.Prelude.{◌≡◌, ◌<◌, ◌≤◌, ℕ, IsOk, IfOk, IfErr, length, slice_index};
ghost use Rattle.std.specs.Option.{option_copied};
ghost use Rattle.ffv1_bits.specs.Limits.{payload_limit};
ghost use Rattle.ffv1_range.specs.declared.head.SliceStart.TheVariants as slice_starts;
ghost use Rattle.ffv1_plane.specs.RangeSlices.{slice_shape};
ghost use Rattle.ffv1_plane.specs.RangeReading.{group_states};
ghost use Rattle.ffv1_plane.specs.RiceReading.{group_codes};
ghost use Rattle.ffv1_samples.specs.States.{states_before, FitSliceBefore, rows_before, codes_before};
ghost use Rattle.ffv1_samples.specs.Inner.Headers.{IsHeaderWithin, IsStartWithin};
ghost use Rattle.ffv1_samples.specs.Inner.Sizes.{AreSliceSizes};
ghost use Rattle.ffv1_samples.specs.Inner.Coded.{IsCodedSlice, IsCodedFault};

use crate::faults::{SampleFault, SliceFault};
use crate::sizes::sets_of;
use crate::states::{SliceStates, copy_of, copy_of_codes};
use ffv1_bits::Bits;
use ffv1_plane::{
    CodesFault, LinesFault, PlaneSize, RangeLines, RiceLines, read_range_planes, read_rice_planes,
};
use ffv1_range::{RangeDecoder, Recording, SliceHeader, SliceStart};
use std::alloc::{AllocError, Global};

/// Where a slice is read on after its last sample, with the states there.
#[derive(Drop)]
pub(crate) enum SliceReader<'a> {
    Range(RangeLines<'a>),
    Rice(RiceLines<'a>),
}

/// The coded planes of a slice, and what follows them.
#[derive(Drop)]
pub(crate) struct CodedSlice<'a> {
    pub(crate) planes: Vec<Vec<u32>>,
    pub(crate) after: SliceReader<'a>,
}

/// Why the coded planes of a slice can't be read.
#[derive(Clone, Copy)]
pub(crate) enum CodedFault {
    /// A sample can't be read.
    Sample {
        fault: SampleFault,
        plane: usize,
        y: usize,
        x: usize,
    },
    /// An allocation of memory failed.
    Memory,
}

impl From<CodedFault> for SliceFault {
    ghost use Rattle.std.specs.Prelude.{◌≡◌};
    ghost use Rattle.ffv1_samples.specs.CodedFaults.{slice_fault_of};

    ghost from_gives = { λ fault result. result ≡ slice_fault_of fault };

    fn from(fault: CodedFault) -> SliceFault {
        match fault {
            CodedFault::Sample { fault, plane, y, x } => SliceFault::Code { fault, plane, y, x },
            CodedFault::Memory => SliceFault::Memory,
        }
    }
}

/// A reader of a range-coded slice after its header, with the states before it.
fn range_reader<'a>(
    alloc: Global,
    recording: &Recording,
    header: &SliceHeader,
    decoder: RangeDecoder<'a>,
    before: Option<&SliceStates>,
) -> Result<RangeLines<'a>, AllocError>
    requires header { IsHeaderWithin recording.now header.now }
    requires before { FitSliceBefore recording.now header.now.tables (states_before (option_copied before)) }
    ensures decoder { IfOk result (λ reader. reader.decoder ≡ decoder.entry) }
    ensures begins { IfOk result (λ reader. (group : ℕ) → group < 3
        → group_states reader group ≡ rows_before recording.now header.now.tables (states_before (option_copied before.entry)) group) }
{
    let sets = sets_of(header);
    match before {
        Some(SliceStates::Range(states)) => Ok(RangeLines {
            decoder,
            luma: copy_of(alloc, &states.luma)?,
            chroma: copy_of(alloc, &states.chroma)?,
            alpha: copy_of(alloc, &states.alpha)?,
        }),
        _ => RangeLines::start(alloc, recording, &sets, decoder),
    }
}

/// Reads the planes of a range-coded slice.
fn range_planes<'a>(
    alloc: Global,
    recording: &Recording,
    header: &SliceHeader,
    sizes: &[PlaneSize],
    content: &[u8],
    decoder: RangeDecoder<'a>,
    before: Option<&SliceStates>,
) -> Result<CodedSlice<'a>, CodedFault>
    requires header { IsHeaderWithin recording.now header.now }
    requires sizes { AreSliceSizes recording.now sizes.now }
    requires start { IsStartWithin recording.now content.now (slice_starts.Samples decoder) }
    requires before { FitSliceBefore recording.now header.now.tables (states_before (option_copied before)) }
    requires content { length content.now ≤ payload_limit }
    ensures ok { IfOk result (IsCodedSlice recording.now header.now.tables sizes.now content.now (slice_starts.Samples decoder.entry)
        (states_before (option_copied before.entry))) }
    ensures err { IfErr result (IsCodedFault recording.now header.now.tables sizes.now content.now (slice_starts.Samples decoder.entry)
        (states_before (option_copied before.entry))) }
{
    recording.keeps_version_3();
    let sets = sets_of(header);
    let Ok(reader) = range_reader(alloc, recording, header, decoder, before) else {
        return Err(CodedFault::Memory);
    };
    match read_range_planes(alloc, recording, &sets, sizes, reader) {
        Ok((after, planes)) => Ok(CodedSlice {
            planes,
            after: SliceReader::Range(after),
        }),
        Err(LinesFault::Sample { fault, plane, y, x }) => Err(CodedFault::Sample {
            fault: SampleFault::from(fault),
            plane,
            y,
            x,
        }),
        Err(LinesFault::Memory) => Err(CodedFault::Memory),
    }
}

/// A reader of the Golomb-Rice codes of a slice, with the states before it.
fn rice_reader<'a>(
    alloc: Global,
    recording: &Recording,
    header: &SliceHeader,
    bits: Bits<'a>,
    before: Option<&SliceStates>,
) -> Result<RiceLines<'a>, AllocError>
    requires header { IsHeaderWithin recording.now header.now }
    requires before { FitSliceBefore recording.now header.now.tables (states_before (option_copied before)) }
    ensures bits { IfOk result (λ reader. reader.bits ≡ bits.entry) }
    ensures begins { IfOk result (λ reader. (group : ℕ) → group < 3
        → group_codes reader group ≡ codes_before recording.now header.now.tables (states_before (option_copied before.entry)) group) }
{
    let sets = sets_of(header);
    match before {
        Some(SliceStates::Rice(states)) => Ok(RiceLines {
            bits,
            luma: copy_of_codes(alloc, &states.luma)?,
            chroma: copy_of_codes(alloc, &states.chroma)?,
            alpha: copy_of_codes(alloc, &states.alpha)?,
        }),
        _ => RiceLines::start(alloc, recording, &sets, bits),
    }
}

/// Reads the planes of a slice of Golomb-Rice codes, which begin at a place of its content.
fn rice_planes<'a>(
    alloc: Global,
    recording: &Recording,
    header: &SliceHeader,
    sizes: &[PlaneSize],
    content: &'a [u8],
    place: usize,
    before: Option<&SliceStates>,
) -> Result<CodedSlice<'a>, CodedFault>
    requires header { IsHeaderWithin recording.now header.now }
    requires sizes { AreSliceSizes recording.now sizes.now }
    requires start { IsStartWithin recording.now content.now (slice_starts.Codes place) }
    requires before { FitSliceBefore recording.now header.now.tables (states_before (option_copied before)) }
    requires content { length content.now ≤ payload_limit }
    ensures ok { IfOk result (IsCodedSlice recording.now header.now.tables sizes.now content.now (slice_starts.Codes place)
        (states_before (option_copied before.entry))) }
    ensures err { IfErr result (IsCodedFault recording.now header.now.tables sizes.now content.now (slice_starts.Codes place)
        (states_before (option_copied before.entry))) }
{
    recording.keeps_version_3();
    let sets = sets_of(header);
    let bits = Bits::new(&content[place..]);
    let Ok(reader) = rice_reader(alloc, recording, header, bits, before) else {
        return Err(CodedFault::Memory);
    };
    match read_rice_planes(alloc, recording, &sets, sizes, reader) {
        Ok((after, planes)) => Ok(CodedSlice {
            planes,
            after: SliceReader::Rice(after),
        }),
        Err(CodesFault::Sample { fault, plane, y, x }) => Err(CodedFault::Sample {
            fault: SampleFault::Code(fault),
            plane,
            y,
            x,
        }),
        Err(CodesFault::Memory) => Err(CodedFault::Memory),
    }
}

/// Reads the planes of a slice after its header.
pub(crate) fn read_coded<'a>(
    alloc: Global,
    recording: &Recording,
    header: &SliceHeader,
    sizes: &[PlaneSize],
    content: &'a [u8],
    start: SliceStart<'a>,
    before: Option<&SliceStates>,
) -> Result<CodedSlice<'a>, CodedFault>
    requires header { IsHeaderWithin recording.now header.now }
    requires sizes { AreSliceSizes recording.now sizes.now }
    requires start { IsStartWithin recording.now content.now start }
    requires before { FitSliceBefore recording.now header.now.tables (states_before (option_copied before)) }
    requires content { length content.now ≤ payload_limit }
    ensures ok { IfOk result (IsCodedSlice recording.now header.now.tables sizes.now content.now start.entry (states_before (option_copied before.entry))) }
    ensures err { IfErr result (IsCodedFault recording.now header.now.tables sizes.now content.now start.entry (states_before (option_copied before.entry))) }
{
    match start {
        SliceStart::Samples(decoder) => {
            range_planes(alloc, recording, header, sizes, content, decoder, before)
        }
        SliceStart::Codes(place) => {
            rice_planes(alloc, recording, header, sizes, content, place, before)
        }
    }
}
