//! A payload cut into its slices, from its end (RFC 9043, section 4.9).
ghost use Rattle.std.specs.Prelude.{◌≡◌, ◌≤◌, ◌⊎◌, ℕ, List, map, IfOk, IfErr};
ghost use Rattle.ffv1_range.specs.Setup.{RecordingValue};
ghost use Rattle.ffv1_layout.specs.Cuts.{footer_length, AreSlicesOf};
ghost use Rattle.ffv1_layout.specs.declared.fault.LayoutFault.TheVariants.{Chain, Memory};

use crate::fault::LayoutFault;
use ffv1_range::Recording;
use ffv1_slice::slice_start_by;
use std::alloc::Global;

/// How many bytes a footer has: 8 where the slices have parities, and 3 where they have none (RFC 9043, sections 4.2.16 and 4.9).
pub(crate) fn footer_length(recording: &Recording) -> usize
    ensures value { result ≡ footer_length recording.now.setup.ec }
    ensures some { 3 ≤ result }
{
    if recording.ec() == 0 { 3 } else { 8 }
}

/// The slices of a payload, from its front, with their footers. It takes 16 bytes a slice, of which there are no more than tiles.
///
/// Refused with `Chain` where the footers do not lead back to the payload's start, or it has no slice, or more than the frame has tiles.
pub(crate) fn cut_slices<'a>(
    alloc: Global,
    recording: &Recording,
    payload: &'a [u8],
) -> Result<Vec<&'a [u8]>, LayoutFault>
    ensures ok { IfOk result (λ slices. AreSlicesOf recording.now payload.now (map (λ slice. slice.now) slices.items)) }
    ensures err { IfErr result (λ fault. (fault ≡ Memory) ⊎ ((fault ≡ Chain) × ((slices : List (List ℕ)) → AreSlicesOf recording.now payload.now slices → ⊥))) }
{
    let footer = footer_length(recording);
    let most = recording.grid().tiles();
    let mut slices = Vec::new(alloc);
    let mut end = payload.len();
    while end > 0 {
        let Some(start) = slice_start_by(payload, end, footer) else {
            return Err(LayoutFault::Chain);
        };
        if slices.len() == most {
            return Err(LayoutFault::Chain);
        }
        let slice = &payload[start..end];
        slices.push(slice)?;
        end = start;
    }
    if slices.is_empty() {
        return Err(LayoutFault::Chain);
    }
    slices.reverse();
    Ok(slices)
}
