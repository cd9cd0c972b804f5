//! Slices of any recording, spelled from what they are to be (RFC 9043, sections 4.5 to 4.9).

use crate::coded::coded_planes;
use crate::range::RangeWriter;
use crate::spec::{RecordingSpec, SliceSpec};
use crate::states::GroupStates;
use ffv1_range::Recording;
use ffv1_rice::VlcState;
use ffv1_vectors::{
    CodedPlane, MakeFault, RiceWriter, Successors, SymbolEncoder, with_parity, write_planes,
};
use std::alloc::Global;

/// The most bytes that a slice can have before its footer.
const MOST_CONTENT: usize = 0xFF_FFFF;

/// A recording, and how states change in its slices.
#[derive(Drop)]
pub(crate) struct Making {
    pub(crate) spec: RecordingSpec,
    pub(crate) recording: Recording,
    /// By the default table where there are none.
    pub(crate) successors: Option<Successors>,
}

/// The slice, and the states that it leaves.
pub(crate) fn spell_slice(
    alloc: Global,
    making: &Making,
    key: Option<bool>,
    slice: &SliceSpec,
    planes: &[Vec<u16>],
    states: GroupStates,
) -> Result<(Vec<u8>, GroupStates), MakeFault> {
    let coded = coded_planes(alloc, &making.recording, slice, planes)?;
    let encoder = spell_header(alloc, making, key, slice)?;
    let is_rgb = making.spec.is_rgb;
    let (content, left) = match states {
        GroupStates::Range(states) => spell_range(encoder, states, &coded, is_rgb)?,
        GroupStates::Rice(states) => spell_rice(alloc, encoder, states, &coded, is_rgb)?,
    };
    Ok((with_footer(&making.spec, slice, content)?, left))
}

/// The keyframe bit of the payload's first slice, and the slice's header.
fn spell_header<'a>(
    alloc: Global,
    making: &'a Making,
    key: Option<bool>,
    slice: &SliceSpec,
) -> Result<SymbolEncoder<'a>, MakeFault> {
    let mut encoder = SymbolEncoder::new(alloc, making.successors.as_ref());
    if let Some(key) = key {
        encoder.bit(&mut 128, key)?;
    }
    let mut states = [128; 32];
    let (w, h) = (slice.w.saturating_sub(1), slice.h.saturating_sub(1));
    encoder.all_unsigned(&mut states, &[slice.x, slice.y, w, h])?;
    let [luma, chroma, alpha] = slice.tables;
    encoder.all_unsigned(&mut states, &[luma, chroma])?;
    if making.spec.has_alpha {
        encoder.unsigned(&mut states, alpha)?;
    }
    encoder.all_unsigned(&mut states, &[0, 0, 0])?;
    Ok(encoder)
}

/// The content of a range-coded slice, and the states that it leaves.
fn spell_range(
    encoder: SymbolEncoder<'_>,
    states: Vec<Vec<[u8; 32]>>,
    planes: &[CodedPlane<'_>],
    is_rgb: bool,
) -> Result<(Vec<u8>, GroupStates), MakeFault> {
    let mut writer = RangeWriter { encoder, states };
    write_planes(&mut writer, planes, is_rgb)?;
    let RangeWriter { encoder, states } = writer;
    Ok((encoder.finish_sentinel()?, GroupStates::Range(states)))
}

/// The content of a slice of Golomb-Rice codes, and the states that it leaves.
fn spell_rice(
    alloc: Global,
    encoder: SymbolEncoder<'_>,
    states: Vec<Vec<VlcState>>,
    planes: &[CodedPlane<'_>],
    is_rgb: bool,
) -> Result<(Vec<u8>, GroupStates), MakeFault> {
    let mut content = encoder.finish_sentinel()?;
    let mut writer = RiceWriter::new(alloc, states);
    write_planes(&mut writer, planes, is_rgb)?;
    let (codes, states) = writer.finish();
    content.extend_from_slice(&codes)?;
    Ok((content, GroupStates::Rice(states)))
}

/// The content with its footer after it: its size, and with ec 1 the error status and the parity (section 4.9).
fn with_footer(
    spec: &RecordingSpec,
    slice: &SliceSpec,
    content: Vec<u8>,
) -> Result<Vec<u8>, MakeFault> {
    let mut bytes = content;
    let count = bytes.len();
    if count > MOST_CONTENT {
        return Err(MakeFault::NotSelf);
    }
    let [_, high, middle, low] = (count as u32).to_be_bytes();
    bytes.extend_from_slice(&[high, middle, low])?;
    if spec.ec == 1 {
        bytes.push(slice.status)?;
        return with_parity(bytes);
    }
    Ok(bytes)
}
