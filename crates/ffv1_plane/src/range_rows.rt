//! Range-coded samples, row by row (RFC 9043, sections 3.3, 3.8 and 3.8.1.2).
//!
//! A row takes the decoder and gives it back: so its range and its offset are kept in registers.
ghost use Rattle.std.specs.Prelude.{◌≡◌, ◌<◌, ◌≤◌, ◌+◌, ◌^◌, ℕ, List, IsOk, IfOk, IfErr, OnOk, length, slice_index, nat_abs, pos, neg_ℤ, ◌≤ℤ◌, ◌<ℤ◌, if◌then◌else◌};
ghost use Rattle.ffv1_range.specs.Forms.{ReadsForm};
ghost use Rattle.ffv1_range.specs.Setup.{set_contexts, set_entry};
ghost use Rattle.ffv1_rice.specs.States.{IsCodedDepth, IsDifference};
ghost use Rattle.ffv1_plane.specs.Samples.{coding_at, prediction_of};
ghost use Rattle.ffv1_plane.specs.RangeRows.{signed_16, signed_prediction_of, difference_form, fault_of_difference};
ghost use Rattle.ffv1_plane.specs.Inner.Rows.{left_of, IsLeftOfNext};
ghost use Rattle.ffv1_plane.specs.Inner.RangeRows.{IsSameShape, IsRangeSampleRead, IsRangeSampleRefused, IsNextRowRead, IsNextRowRefused, IsRowFaultOf};

use crate::lines::Lines;
use crate::neighbours::{Neighbours, sample_of};
use crate::tables::Tables;
use ffv1_range::{RangeDecoder, RangeFault};

/// Why a range-coded sample can't be read.
#[derive(Clone, Copy, Debug, PartialEq, Eq)]
pub enum DifferenceFault {
    /// A byte was wanted past the one zero byte that follows the content.
    Short,
    /// The exponent reaches the coded depth, or no two samples have the difference.
    TooLarge,
}

impl From<RangeFault> for DifferenceFault {
    ghost use Rattle.std.specs.Prelude.{◌≡◌};
    ghost use Rattle.ffv1_plane.specs.RangeRows.{fault_of_difference};

    ghost from_gives = { λ fault result. result ≡ fault_of_difference fault };

    fn from(fault: RangeFault) -> DifferenceFault {
        match fault {
            RangeFault::SymbolTooLong => DifferenceFault::TooLarge,
            RangeFault::Short | RangeFault::Start => DifferenceFault::Short,
        }
    }
}

/// A sample of 16 bits as a signed number of 16 bits.
#[inline(always)]
fn signed_16(sample: u32) -> i64
    ensures value { result ≡ signed_16 sample }
    ensures low { neg_ℤ (pos 32768) ≤ℤ result }
    ensures high { result <ℤ pos 4294967296 }
{
    if sample < 32768 {
        i64::from(sample)
    } else {
        i64::from(sample) - 65536
    }
}

/// The prediction by signed numbers of 16 bits, modulo 2^16 (section 3.3).
#[inline(always)]
#[tactic(auto, unfolding(crate::specs::RangeRows::signed_prediction_of))]
fn signed_prediction(near: &Neighbours) -> u32
    ensures { result ≡ signed_prediction_of near.now }
{
    let (left, top) = (signed_16(near.left), signed_16(near.top));
    let sum = left + top - signed_16(near.top_left);
    let median = left.min(top).max(left.max(top).min(sum));
    median.rem_euclid(65536) as u32
}

/// The prediction of a plane, by signed numbers or not.
#[inline(always)]
fn prediction(near: &Neighbours, is_signed: bool) -> u32
    ensures { result ≡ (if is_signed then signed_prediction_of near.now else prediction_of near.now) }
{
    if is_signed {
        signed_prediction(near)
    } else {
        near.prediction()
    }
}

/// Reads the difference of a sample of this coded depth, at the states of its context.
#[inline(always)]
fn read_difference(
    decoder: &mut RangeDecoder<'_>,
    states: &mut [u8; 32],
    depth: u32,
) -> Result<i32, DifferenceFault>
    requires { IsCodedDepth depth }
    ensures read { ReadsForm fault_of_difference (difference_form depth) decoder.old states.old result decoder.new states.new }
    ensures range { IfOk result (IsDifference depth) }
{
    let difference = decoder.signed_within(states, depth)?;
    let half = 1 << (depth - 1);
    if difference < -half || difference >= half {
        return Err(DifferenceFault::TooLarge);
    }
    Ok(difference as i32)
}

/// Reads the next sample of a row, and returns it.
#[inline(always)]
fn read_sample(
    decoder: &mut RangeDecoder<'_>,
    states: &mut [[u8; 32]],
    lines: &mut Lines,
    tables: &Tables,
    left: u32,
    depth: u32,
    is_signed: bool,
) -> Result<u32, DifferenceFault>
    requires alive { IsOk decoder.old.at }
    requires depth { depth ≡ lines.old.depth }
    requires inside { lines.old.x < lines.old.width }
    requires left { left ≡ left_of lines.old }
    requires states { length states.old ≡ set_contexts tables.now.setup tables.now.set }
    ensures same { IsSameShape lines.old lines.new }
    ensures count { length states.new ≡ length states.old }
    ensures moved { OnOk result (lines.new.x ≡ lines.old.x + 1) }
    ensures left { IfOk result (IsLeftOfNext lines.new) }
    ensures small { OnOk result ((s : ℕ) → slice_index lines.new.samples s < 2 ^ lines.old.depth) }
    ensures read { OnOk result ((group : ℕ) → IsRangeSampleRead lines.old.width
        (coding_at lines.old.depth (set_entry tables.now.setup tables.now.set)) group is_signed
        lines.old.samples states.old decoder.old lines.new.samples states.new decoder.new) }
    ensures err { IfErr result (IsRangeSampleRefused lines.old.width
        (coding_at lines.old.depth (set_entry tables.now.setup tables.now.set))
        lines.old.samples states.old decoder.old) }
{
    // Its contract says that the depth is a coded depth.
    let _depth = lines.depth();
    let near = lines.neighbours(left);
    let context = tables.context(&near);
    let prediction = prediction(&near, is_signed);
    let row = &mut states[context.unsigned_abs() as usize];
    let difference = read_difference(decoder, row, depth)?;
    let sample = sample_of(context, prediction, difference, depth);
    lines.push(sample);
    // Its contract says that the samples are small.
    let _column = lines.column();
    Ok(sample)
}

/// A row that can't be read to its end.
#[derive(Clone, Copy)]
pub(crate) struct CutRow {
    pub(crate) fault: DifferenceFault,
    /// The column of the sample whose symbol is refused.
    pub(crate) x: usize,
}

/// Reads a row, from its first sample, at this coded depth, and gives the decoder back.
#[inline(always)]
fn read_row<'a>(
    decoder: RangeDecoder<'a>,
    states: &mut [[u8; 32]],
    lines: &mut Lines,
    tables: &Tables,
    depth: u32,
    is_signed: bool,
) -> Result<RangeDecoder<'a>, CutRow>
    requires alive { IsOk decoder.at }
    requires depth { depth ≡ lines.old.depth }
    requires start { lines.old.x ≡ 0 }
    requires states { length states.old ≡ set_contexts tables.now.setup tables.now.set }
    ensures same { IsSameShape lines.old lines.new }
    ensures count { length states.new ≡ length states.old }
    ensures full { IfOk result (λ after. lines.new.x ≡ lines.new.width) }
    ensures small { OnOk result ((s : ℕ) → slice_index lines.new.samples s < 2 ^ lines.old.depth) }
    ensures read { IfOk result (IsNextRowRead lines.old tables.now is_signed states.old decoder.entry lines.new states.new) }
    ensures err { IfErr result (λ cut. IsNextRowRefused lines.old tables.now is_signed states.old decoder.entry cut.fault cut.x) }
{
    let width = lines.width();
    // Its contract says that the samples are small.
    let _column = lines.column();
    let mut left = lines.left();
    let mut decoder = decoder;
    for x in 0..width {
        match read_sample(&mut decoder, states, lines, tables, left, depth, is_signed) {
            Ok(sample) => left = sample,
            Err(fault) => return Err(CutRow { fault, x }),
        }
    }
    Ok(decoder)
}

/// Reads a row as `read_row` does, by a body of its own for samples of 8, 9 and 10 bits, and for those of 16 bits that are predicted as signed
/// numbers.
fn read_row_at<'a>(
    decoder: RangeDecoder<'a>,
    states: &mut [[u8; 32]],
    lines: &mut Lines,
    tables: &Tables,
    is_signed: bool,
) -> Result<RangeDecoder<'a>, CutRow>
    requires alive { IsOk decoder.at }
    requires start { lines.old.x ≡ 0 }
    requires states { length states.old ≡ set_contexts tables.now.setup tables.now.set }
    ensures same { IsSameShape lines.old lines.new }
    ensures count { length states.new ≡ length states.old }
    ensures full { IfOk result (λ after. lines.new.x ≡ lines.new.width) }
    ensures small { OnOk result ((s : ℕ) → slice_index lines.new.samples s < 2 ^ lines.old.depth) }
    ensures read { IfOk result (IsNextRowRead lines.old tables.now is_signed states.old decoder.entry lines.new states.new) }
    ensures err { IfErr result (λ cut. IsNextRowRefused lines.old tables.now is_signed states.old decoder.entry cut.fault cut.x) }
{
    let depth = lines.depth();
    if is_signed {
        if depth == 16 {
            return read_row(decoder, states, lines, tables, 16, true);
        }
        return read_row(decoder, states, lines, tables, depth, true);
    }
    match depth {
        8 => read_row(decoder, states, lines, tables, 8, false),
        9 => read_row(decoder, states, lines, tables, 9, false),
        10 => read_row(decoder, states, lines, tables, 10, false),
        _ => read_row(decoder, states, lines, tables, depth, false),
    }
}

/// Why a line can't be read.
#[derive(Clone, Copy)]
pub(crate) enum RowFault {
    /// The sample of this column can't be read.
    Sample { fault: DifferenceFault, x: usize },
    /// An allocation of memory failed.
    Memory,
}

/// Reads a row and ends it. The states are those of the plane's group, which come back as the row leaves them.
pub(crate) fn read_range_row<'a>(
    decoder: RangeDecoder<'a>,
    states: Vec<[u8; 32]>,
    lines: &mut Lines,
    tables: &Tables,
    is_signed: bool,
) -> Result<(RangeDecoder<'a>, Vec<[u8; 32]>), RowFault>
    requires alive { IsOk decoder.at }
    requires start { lines.old.x ≡ 0 }
    requires states { length states.items ≡ set_contexts tables.now.setup tables.now.set }
    ensures same { OnOk result (IsSameShape lines.old lines.new) }
    ensures count { IfOk result (λ after. length after.1.items ≡ length states.items) }
    ensures ended { OnOk result (lines.new.x ≡ 0) }
    ensures small { OnOk result ((s : ℕ) → slice_index lines.new.samples s < 2 ^ lines.old.depth) }
    ensures read { IfOk result (λ after. IsNextRowRead lines.old tables.now is_signed states.items decoder.entry lines.new after.1.items after.0) }
    ensures err { IfErr result (IsRowFaultOf lines.old.width
        (coding_at lines.old.depth (set_entry tables.now.setup tables.now.set)) is_signed
        lines.old.samples states.items decoder.entry) }
{
    let mut states = states;
    let decoder = match read_row_at(decoder, &mut states, lines, tables, is_signed) {
        Ok(decoder) => decoder,
        Err(CutRow { fault, x }) => return Err(RowFault::Sample { fault, x }),
    };
    let Ok(()) = lines.end_row() else {
        return Err(RowFault::Memory);
    };
    Ok((decoder, states))
}
