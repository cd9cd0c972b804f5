//! The picture of a slice, from its content (RFC 9043, sections 3.7, 3.8 and 4.5 to 4.8).
ghost use Rattle.std.specs.Prelude.{◌≡◌, ◌≤◌, ◌⊎◌, ◌<◌, ℕ, true, IfOk, IfErr, OnOk, length, map, MatchResult};
ghost use Rattle.std.specs.Option.{option_copied};
ghost use Rattle.ffv1_bits.specs.Limits.{payload_limit};
ghost use Rattle.ffv1_range.specs.Setup.{IsInVersion3};
ghost use Rattle.ffv1_range.specs.SliceHeader.{IsSliceHeaderOf};
ghost use Rattle.ffv1_range.specs.declared.head.SliceHeader.{SliceHeader};
ghost use Rattle.ffv1_range.specs.declared.head.SliceStart.{SliceStart};
ghost use Rattle.ffv1_samples.specs.States.{states_before};
ghost use Rattle.ffv1_samples.specs.Sizes.{slice_rect, slice_sizes};
ghost use Rattle.ffv1_samples.specs.Slices.{SlicePictureValue, slice_picture_value, IsSlicePicture, IsSamePicture, FitContent};
ghost use Rattle.ffv1_samples.specs.Faults.{IsSliceFault, AfterHeader};
ghost use Rattle.ffv1_samples.specs.Laws.{OneSlicePicture, RefusedHasNoPicture, RefusedForOne};
ghost use Rattle.ffv1_samples.specs.Profile.{TileIsSlice};
ghost use Rattle.ffv1_samples.specs.Pictures.{ArePicturePlanes};
ghost use Rattle.ffv1_samples.specs.Inner.Coded.{IsCodedFault, IsReaderWithin, IsFinished, IsUnfinished};
ghost use Rattle.ffv1_samples.specs.Inner.Planes.{AreOfRecording, IsJudgedFault};
ghost use Rattle.ffv1_samples.specs.Inner.Faults.{HaveFirstColors, IsRowsFault};
ghost use Rattle.ffv1_samples.specs.declared.faults.SliceFault.TheVariants as SliceFault;
ghost use Rattle.ffv1_samples.specs.declared.reading.CodedFault.TheVariants as coded_faults;

use crate::colors::{PlanesFault, picture_planes};
use crate::ends::{EndedSlice, ended};
use crate::faults::{SampleFault, SliceFault};
use crate::reading::{CodedFault, CodedSlice, read_coded};
use crate::sizes::{rows_of, sizes_of};
use crate::states::SliceStates;
use ffv1_range::{Recording, SliceHeader, read_slice_head};
use std::alloc::Global;

/// What a slice is decoded to. It takes two bytes a sample, and the states that it leaves.
#[derive(Drop)]
pub struct SlicePicture {
    /// Its header.
    pub header: SliceHeader,
    /// Its planes, row by row: gray Y, or Y, Cb and Cr, or G, B and R; then alpha, where there is such a plane.
    pub planes: Vec<Vec<u16>>,
    /// How many bits of the content are not read, the zero byte that follows it with coder_type 1 and 2 among them.
    pub spare_bits: usize,
    /// Whether it ends as an encoder ends a slice (own).
    pub is_clean: bool,
    /// The states that it leaves to the slice of its number in the next frame, where that is no keyframe.
    pub states: SliceStates,
}

/// The planes of the picture, of coded planes of a width.
fn judged_planes(
    alloc: Global,
    recording: &Recording,
    coded: &[Vec<u32>],
    width: usize,
) -> Result<Vec<Vec<u16>>, SliceFault>
    requires planes { AreOfRecording recording.now (map (λ plane. plane.items) coded.now) }
    requires some { 1 ≤ width }
    ensures ok { IfOk result (λ planes. ArePicturePlanes recording.now (map (λ plane. plane.items) coded.now) (map (λ plane. plane.items) planes.items)) }
    ensures err { IfErr result (IsJudgedFault recording.now (map (λ plane. plane.items) coded.now) width) }
{
    match picture_planes(alloc, recording, coded) {
        Ok(planes) => Ok(planes),
        Err(PlanesFault::Outside { place, plane }) => Err(SliceFault::Code {
            fault: SampleFault::ColorTooLarge,
            plane,
            y: place / width,
            x: place % width,
        }),
        Err(PlanesFault::Memory) => Err(SliceFault::Memory),
    }
}

/// Reads the first rows of a slice of RGB again, and judges their colours.
fn judge_rows(
    alloc: Global,
    recording: &Recording,
    content: &[u8],
    first: bool,
    before: Option<&SliceStates>,
    rows: usize,
) -> Result<(), SliceFault>
    requires rgb { recording.now.is_rgb ≡ true }
    requires content { length content.now ≤ payload_limit }
    requires fit { FitContent recording.now content.now first (states_before (option_copied before)) }
    requires few { (header : SliceHeader) (start : SliceStart) → IsSliceHeaderOf recording.now content.now first header start
        → rows ≤ (slice_rect recording.now header).h }
    ensures ok { OnOk result (HaveFirstColors recording.now content.now first (states_before (option_copied before.entry)) rows) }
    ensures err { IfErr result (IsRowsFault recording.now content.now first (states_before (option_copied before.entry)) rows) }
{
    recording.keeps_version_3();
    let (header, start) = read_slice_head(recording, content, first)?;
    let sizes = rows_of(alloc, recording, &header, rows)?;
    match read_coded(alloc, recording, &header, &sizes, content, start, before) {
        Ok(slice) => {
            judged_planes(alloc, recording, &slice.planes, sizes[0].width)?;
            Ok(())
        }
        Err(fault) => Err(SliceFault::from(fault)),
    }
}

/// Why a slice whose planes can't be read is refused. A colour of RGB in the rows before the sample that can't be read comes first.
fn refused(
    alloc: Global,
    recording: &Recording,
    content: &[u8],
    first: bool,
    before: Option<&SliceStates>,
    fault: CodedFault,
) -> SliceFault
    requires content { length content.now ≤ payload_limit }
    requires fit { FitContent recording.now content.now first (states_before (option_copied before)) }
    requires version { IsInVersion3 recording.now }
    requires refused { AfterHeader recording.now content.now first (λ header start. IsCodedFault recording.now header.tables (slice_sizes recording.now header)
        content.now start (states_before (option_copied before)) fault) }
    ensures given { (result ≡ SliceFault.Memory) ⊎ IsSliceFault recording.now content.now first (states_before (option_copied before.entry)) result }
    ensures memory { fault ≡ coded_faults.Memory → result ≡ SliceFault.Memory }
{
    match fault {
        CodedFault::Sample { fault, plane, y, x } => {
            if !recording.is_rgb() {
                return SliceFault::Code { fault, plane, y, x };
            }
            match judge_rows(alloc, recording, content, first, before, y) {
                Ok(()) => SliceFault::Code { fault, plane, y, x },
                Err(earlier) => earlier,
            }
        }
        CodedFault::Memory => SliceFault::Memory,
    }
}

/// The picture of a slice whose planes were read.
fn finished(
    alloc: Global,
    recording: &Recording,
    header: &SliceHeader,
    width: usize,
    slice: CodedSlice<'_>,
) -> Result<SlicePicture, SliceFault>
    requires planes { AreOfRecording recording.now (map (λ plane. plane.items) slice.planes.items) }
    requires some { 1 ≤ width }
    requires reader { IsReaderWithin slice.after }
    ensures ok { IfOk result (λ picture. IsFinished recording.now header.now (map (λ plane. plane.items) slice.entry.planes.items) slice.entry.after
        (slice_picture_value picture)) }
    ensures err { IfErr result (IsUnfinished recording.now (map (λ plane. plane.items) slice.entry.planes.items) width slice.entry.after) }
{
    let CodedSlice { planes, after } = slice;
    let planes = judged_planes(alloc, recording, &planes, width)?;
    let end = ended(after)?;
    let EndedSlice {
        spare_bits,
        is_clean,
        states,
    } = end;
    Ok(SlicePicture {
        header: *header,
        planes,
        spare_bits,
        is_clean,
        states,
    })
}

/// Decodes a slice of any recording from its content, that is the slice without its footer (RFC 9043, sections 3.7, 3.8 and 4.5 to 4.8). The
/// content has at most 2^30 bytes. It is `first` where it is the payload's first, and then the frame's keyframe bit stands before its header.
/// `before` are the states that the slice of the same number in the frame before has left, which are copied; with `None`, as in a keyframe, all
/// states start anew. They have to be of the recording's coder, and to have the contexts of the table sets that the header names.
///
/// Refused with `Head` where the content has no header; then with `Code` at the first sample that can't be decoded, where in RGB the colours of a
/// row are judged once all planes of the row were read; then, with coder_type 1 and 2, with `End` where the bit after the last sample can't be
/// read. Returns `Memory` if an allocation fails. Spare bits are counted and ignored.
///
/// A picture takes two bytes a sample, and the states a row of 32 bytes (Golomb-Rice: 16) for each context of the three table sets. While it
/// decodes, it takes four bytes a sample besides, and three lines a plane.
pub fn decode_slice(
    alloc: Global,
    recording: &Recording,
    content: &[u8],
    first: bool,
    before: Option<&SliceStates>,
) -> Result<SlicePicture, SliceFault>
    requires content { length content.now ≤ payload_limit }
    requires states { FitContent recording.now content.now first (states_before (option_copied before)) }

    // What is returned is the picture that the content has.
    ensures ok { IfOk result (λ picture. IsSlicePicture recording.now content.now first (states_before (option_copied before.entry)) (slice_picture_value picture)) }

    // Each refusal but Memory is the one that the content gives.
    ensures err { IfErr result (λ fault. (fault ≡ SliceFault.Memory) ⊎ IsSliceFault recording.now content.now first (states_before (option_copied before.entry)) fault) }

    // Wherever the content has a picture, that is returned, or Memory.
    ensures found { (picture : SlicePictureValue) → IsSlicePicture recording.now content.now first (states_before (option_copied before.entry)) picture
        → MatchResult result (λ read. IsSamePicture recording.now (slice_picture_value read) picture) (λ fault. fault ≡ SliceFault.Memory) }
{
    recording.keeps_version_3();
    let (header, start) = read_slice_head(recording, content, first)?;
    let sizes = sizes_of(alloc, recording, &header)?;
    match read_coded(alloc, recording, &header, &sizes, content, start, before) {
        Ok(slice) => finished(alloc, recording, &header, sizes[0].width, slice),
        Err(fault) => Err(refused(alloc, recording, content, first, before, fault)),
    }
}

/// No content of a slice has two pictures.
pub fn one_slice_picture()
    ensures { OneSlicePicture }
{}

/// A content that is refused has no picture, and is refused for one fault at one sample.
pub fn one_slice_fault()
    ensures nothing { RefusedHasNoPicture }
    ensures one { RefusedForOne }
{}

/// For a record of the profile a content has a picture of a tile exactly where it has that of a slice of this tile alone, in a keyframe. So
/// where `decode_tile` gives a picture, `decode_slice` gives the same planes and spare bits, or `Memory`.
pub fn tile_is_slice()
    ensures { TileIsSlice }
{}
