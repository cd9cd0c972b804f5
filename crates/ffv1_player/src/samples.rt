//! The samples of a frame (RFC 9043, section 4.7).
ghost use Rattle.std.specs.Prelude.{◌≡◌, ℕ, ◌<◌, ◌∷◌, ◌++◌, [], List, length, map, IfOk};
ghost use Rattle.ffv1_range.specs.Tiles.{grid_of};
ghost use Rattle.ffv1_samples.specs.States.{count_of_planes};
ghost use Rattle.ffv1_samples.specs.Slices.{SlicePictureValue, slice_picture_value};
ghost use Rattle.ffv1_player.specs.Frames.{is_subsampled, rect_in, frame_in, frame_planes};
ghost use Rattle.ffv1_player.specs.Inner.Drawing.{AreFramePlanes, AreSlicePlanes, IsInGrid};

use ffv1_picture::draw_samples;
use ffv1_range::{Grid, Recording, TileRect};
use ffv1_samples::SlicePicture;
use std::alloc::{AllocError, Global};

/// How a slice ends.
#[derive(Clone, Copy, Debug, PartialEq, Eq)]
pub struct SliceEnd {
    /// How many bits of its content are not read, the zero byte that follows it with coder_type 1 and 2 among them.
    pub spare_bits: usize,
    /// Whether it ends as an encoder ends a slice (own).
    pub is_clean: bool,
}

/// A decoded frame.
#[derive(Drop)]
pub struct Samples {
    /// The luma samples in a row.
    pub width: u32,
    /// The rows of luma samples.
    pub height: u32,
    /// The logarithm to base 2 of a chroma sample's width in luma samples.
    pub shift_h: u32,
    /// The logarithm to base 2 of a chroma sample's height in luma samples.
    pub shift_v: u32,
    /// Whether the planes are G, B and R, and not Y, Cb and Cr.
    pub is_rgb: bool,
    /// Whether the last plane is alpha.
    pub has_alpha: bool,
    /// The bits of a sample, 8 to 16.
    pub depth: u32,
    /// Whether it is a keyframe.
    pub key: bool,
    /// The samples of each plane, row by row: Y, or Y, Cb and Cr, or G, B and R; then alpha.
    pub planes: Vec<Vec<u16>>,
    /// How its slices end, from the payload's front.
    pub slices: Vec<SliceEnd>,
}

/// How many planes the frames of a recording have: 1 or 3, and one more with alpha.
pub fn count_of_planes(recording: &Recording) -> usize
    ensures { result ≡ count_of_planes recording.now }
{
    let colors = if recording.is_rgb() || recording.has_chroma() {
        3
    } else {
        1
    };
    colors + usize::from(recording.has_alpha())
}

/// Whether a plane is subsampled: Cb or Cr.
fn is_subsampled(recording: &Recording, plane: usize) -> bool
    ensures { result ≡ is_subsampled recording.now plane }
{
    !recording.is_rgb() && recording.has_chroma() && (plane == 1 || plane == 2)
}

/// Where a rectangle of the first plane, in its samples, lies in a plane, in that one's (RFC 9043, sections 4.2.8 and 4.2.9).
pub fn rect_in(recording: &Recording, plane: usize, rect: TileRect) -> TileRect
    ensures { result ≡ rect_in recording.now plane rect }
{
    if is_subsampled(recording, plane) {
        recording.grid().chroma_rect(rect)
    } else {
        rect
    }
}

/// The whole frame in a plane, in its samples.
pub fn frame_in(recording: &Recording, plane: usize) -> TileRect
    ensures { result ≡ frame_in recording.now plane }
{
    let frame = TileRect {
        x: 0,
        y: 0,
        w: recording.width(),
        h: recording.height(),
    };
    rect_in(recording, plane, frame)
}

/// The planes of a frame with no slice: each sample is 2^(depth - 1).
pub(crate) fn blank_planes(
    alloc: Global,
    recording: &Recording,
) -> Result<Vec<Vec<u16>>, AllocError>
    ensures { IfOk result (λ planes. map (λ plane. plane.items) planes.items ≡ frame_planes recording.now []) }
{
    recording.keeps_version_3();
    let count = count_of_planes(recording);
    let blank = 1 << (recording.depth() - 1);
    let mut planes = Vec::with_capacity(alloc, count)?;
    for plane in 0..count {
        let size = frame_in(recording, plane);
        planes.push(vec![in alloc; blank; size.w as usize * size.h as usize]?)?;
    }
    Ok(planes)
}

/// Draws the picture of a slice onto the planes of a frame.
pub(crate) fn draw_picture(planes: &mut [Vec<u16>], recording: &Recording, picture: &SlicePicture)
    requires header { IsInGrid recording.now picture.now.header }
    requires planes { AreFramePlanes recording.now (map (λ plane. plane.items) planes.old) }
    requires picture { AreSlicePlanes recording.now picture.now.header (slice_picture_value picture.now).planes }
    ensures { (pictures : List SlicePictureValue) → map (λ plane. plane.items) planes.old ≡ frame_planes recording.now pictures
        → map (λ plane. plane.items) planes.new ≡ frame_planes recording.now (pictures ++ slice_picture_value picture.now ∷ []) }
{
    recording.keeps_version_3();
    let header = &picture.header;
    let rect = recording
        .grid()
        .rect(header.x, header.y, header.w, header.h);
    for plane in 0..planes.len() {
        let width = frame_in(recording, plane).w as usize;
        let place = rect_in(recording, plane, rect);
        draw_samples(&mut planes[plane], width, place, &picture.planes[plane]);
    }
}
