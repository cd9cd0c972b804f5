//! How a slice ends, by either coder (RFC 9043, sections 3.8.1.1.1 and 4.5).
ghost use Rattle.std.specs.Prelude.{◌≡◌, IfOk, IfErr};
ghost use Rattle.ffv1_samples.specs.Coded.{is_clean_rest};
ghost use Rattle.ffv1_samples.specs.Inner.Coded.{IsReaderWithin, end_value, IsEndAt, IsEndFault};
ghost use Rattle.ffv1_samples.specs.declared.reading.SliceReader.TheVariants as slice_readers;

use crate::faults::SliceFault;
use crate::reading::SliceReader;
use crate::states::{RangeStates, RiceStates, SliceStates};
use ffv1_bits::Bits;
use ffv1_plane::{RangeLines, RiceLines};

/// How a slice ends.
#[derive(Drop)]
pub(crate) struct EndedSlice {
    pub(crate) spare_bits: usize,
    pub(crate) is_clean: bool,
    pub(crate) states: SliceStates,
}

/// The end of a range-coded slice whose samples were read.
fn range_ended(after: RangeLines<'_>) -> Result<EndedSlice, SliceFault>
    requires { IsReaderWithin (slice_readers.Range after) }
    ensures ok { IfOk result (λ end. IsEndAt (slice_readers.Range after.entry) (end_value end)) }
    ensures err { IfErr result (IsEndFault (slice_readers.Range after.entry)) }
{
    let RangeLines {
        decoder,
        luma,
        chroma,
        alpha,
    } = after;
    let Ok(end) = decoder.end() else {
        return Err(SliceFault::End);
    };
    Ok(EndedSlice {
        spare_bits: 8 * end.spare,
        is_clean: end.is_clean(),
        states: SliceStates::Range(RangeStates {
            luma,
            chroma,
            alpha,
        }),
    })
}

/// Whether fewer than eight bits are left, and all are 0.
fn is_clean_rest(bits: Bits<'_>) -> bool
    ensures { result ≡ is_clean_rest bits.entry.left }
{
    if bits.left() >= 8 {
        return false;
    }
    let mut bits = bits;
    for _count in 0..8_usize {
        match bits.bit() {
            Some(true) => return false,
            Some(false) => {}
            None => return true,
        }
    }
    true
}

/// The end of a slice of Golomb-Rice codes whose samples were read.
fn rice_ended(after: RiceLines<'_>) -> EndedSlice
    ensures { IsEndAt (slice_readers.Rice after.entry) (end_value result) }
{
    let RiceLines {
        bits,
        luma,
        chroma,
        alpha,
    } = after;
    let spare_bits = bits.left();
    EndedSlice {
        spare_bits,
        is_clean: is_clean_rest(bits),
        states: SliceStates::Rice(RiceStates {
            luma,
            chroma,
            alpha,
        }),
    }
}

/// The end of a slice whose samples were read.
pub(crate) fn ended(after: SliceReader<'_>) -> Result<EndedSlice, SliceFault>
    requires { IsReaderWithin after }
    ensures ok { IfOk result (λ end. IsEndAt after.entry (end_value end)) }
    ensures err { IfErr result (IsEndFault after.entry) }
{
    match after {
        SliceReader::Range(lines) => range_ended(lines),
        SliceReader::Rice(lines) => Ok(rice_ended(lines)),
    }
}
