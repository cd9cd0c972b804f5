//! A frame drawn slice by slice, in the order of the payload (RFC 9043, sections 4.5 to 4.7).
ghost use Rattle.std.specs.Prelude.{◌≡◌, ◌⊎◌, ◌∷◌, ◌++◌, [], List, length, map, IfOk, IfErr};
ghost use Rattle.ffv1_layout.specs.Layout.{headers_of, contents_of};
ghost use Rattle.ffv1_samples.specs.Slices.{SlicePictureValue, slice_picture_value};
ghost use Rattle.ffv1_player.specs.Players.{left_values};
ghost use Rattle.ffv1_player.specs.Inner.Drawing.{AreFramePlanes, AreSlicePlanes, IsInGrid};
ghost use Rattle.ffv1_player.specs.Inner.Decoding.{IsDrawn, CanBegin, AreDrawn, IsContentFault};
ghost use Rattle.ffv1_player.specs.declared.fault.SamplesFault.TheVariants.{Memory};

use crate::before::{LeftSlice, states_left_at};
use crate::fault::{SamplesFault, content_fault};
use crate::samples::{SliceEnd, blank_planes, draw_picture};
use ffv1_layout::PlacedSlice;
use ffv1_range::Recording;
use ffv1_samples::{SlicePicture, decode_slice};
use std::alloc::{AllocError, Global};

/// A frame on its way: what was drawn of it, and what its slices so far leave.
#[derive(Drop)]
pub struct DrawnFrame {
    pub(crate) planes: Vec<Vec<u16>>,
    pub(crate) slices: Vec<SliceEnd>,
    pub(crate) left: Vec<LeftSlice>,
}

impl DrawnFrame {
    /// A frame of which no slice was drawn.
    fn blank(alloc: Global, recording: &Recording, count: usize) -> Result<DrawnFrame, AllocError>
        ensures { IfOk result (IsDrawn recording.now []) }
    {
        Ok(DrawnFrame {
            planes: blank_planes(alloc, recording)?,
            slices: Vec::with_capacity(alloc, count)?,
            left: Vec::with_capacity(alloc, count)?,
        })
    }

    /// Draws the next slice's picture, and keeps what it leaves.
    fn add(&mut self, recording: &Recording, picture: SlicePicture) -> Result<(), AllocError>
        requires header { IsInGrid recording.now picture.header }
        requires planes { AreFramePlanes recording.now (map (λ plane. plane.items) self.old.planes.items) }
        requires picture { AreSlicePlanes recording.now picture.header (slice_picture_value picture).planes }
        ensures { (pictures : List SlicePictureValue) → IsDrawn recording.now pictures self.old
            → IfOk result (λ _. IsDrawn recording.now (pictures ++ slice_picture_value picture ∷ []) self.new) }
    {
        draw_picture(&mut self.planes, recording, &picture);
        let SlicePicture {
            header,
            planes: _,
            spare_bits,
            is_clean,
            states,
        } = picture;
        self.slices.push(SliceEnd {
            spare_bits,
            is_clean,
        })?;
        self.left.push(LeftSlice { header, states })?;
        Ok(())
    }
}

/// The frame of slices, each begun with what that of its number in `before` has left.
pub(crate) fn decode_slices(
    alloc: Global,
    recording: &Recording,
    placed: &[PlacedSlice<'_>],
    before: &[LeftSlice],
) -> Result<DrawnFrame, SamplesFault>
    requires { CanBegin recording.now (contents_of placed.now) (headers_of placed.now) (left_values before.now) }
    ensures ok { IfOk result (AreDrawn recording.now (contents_of placed.now) (left_values before.now) (length placed.now)) }
    ensures err { IfErr result (λ fault. (fault ≡ Memory) ⊎ IsContentFault recording.now (contents_of placed.now) (left_values before.now) fault) }
{
    recording.keeps_version_3();
    let mut frame = DrawnFrame::blank(alloc, recording, placed.len())?;
    for place in 0..placed.len() {
        let states = states_left_at(before, place);
        let content = placed[place].content;
        match decode_slice(alloc, recording, content, place == 0, states) {
            Ok(picture) => frame.add(recording, picture)?,
            Err(fault) => return Err(content_fault(place, fault)),
        }
    }
    Ok(frame)
}
