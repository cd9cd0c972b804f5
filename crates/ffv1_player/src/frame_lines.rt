//! The lines of a frame: its own, and one for each slice that does not end as an encoder ends it (own).
ghost use Rattle.std.specs.Prelude.{◌≡◌, ◌++◌, OnOk, IfOk, string_bytes};
ghost use Rattle.ffv1_player.specs.FrameLines.{is_clean_frame, played_line, unclean_line, slice_line, frame_text};

use crate::samples::{Samples, SliceEnd};
use std::alloc::{AllocError, Global};

/// Whether each slice of a frame ends as an encoder ends it.
pub(crate) fn is_clean_frame(frame: &Samples) -> bool
    ensures { result ≡ is_clean_frame frame.now }
{
    frame.slices.iter().all(|end| end.is_clean)
}

/// The lines of the frame with this number.
pub(crate) fn frame_text(
    alloc: Global,
    number: usize,
    frame: &Samples,
) -> Result<String, AllocError>
    ensures { IfOk result (λ text. string_bytes text ≡ frame_text number frame.now) }
{
    let mut text = String::new(alloc);
    push_frame(&mut text, number, frame)?;
    for (place, end) in frame.slices.iter().enumerate() {
        push_slice(&mut text, place, end)?;
    }
    Ok(text)
}

/// Adds the line of a frame.
fn push_frame(text: &mut String, number: usize, frame: &Samples) -> Result<(), AllocError>
    ensures { OnOk result (string_bytes text.new ≡ string_bytes text.old ++ played_line number frame.now) }
{
    let (key, slices) = (u32::from(frame.key), frame.slices.len());
    writeln!(text, "frame {number} key {key} slices {slices}")
}

/// Adds the line of the slice at a place, if it has one.
fn push_slice(text: &mut String, place: usize, end: &SliceEnd) -> Result<(), AllocError>
    ensures { OnOk result (string_bytes text.new ≡ string_bytes text.old ++ slice_line place end.now) }
{
    if end.is_clean {
        return Ok(());
    }
    push_unclean(text, place, end.spare_bits)
}

/// Adds the line of the slice at a place, which has so many spare bits.
fn push_unclean(text: &mut String, place: usize, spare: usize) -> Result<(), AllocError>
    ensures { OnOk result (string_bytes text.new ≡ string_bytes text.old ++ unclean_line place spare) }
{
    writeln!(text, "slice {place} unclean spare {spare}")
}
