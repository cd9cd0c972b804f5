//! Whether a picture fits the recording of which it is to be a frame (RFC 9043, sections 4.5 to 4.7).
ghost use Rattle.std.specs.Prelude.{◌≡◌, ◌<◌, ◌*◌, ℕ, IsTrue, length, map, slice_index_or};
ghost use Rattle.ffv1_plane.specs.Picture.{samples_of};
ghost use Rattle.ffv1_player.specs.Frames.{frame_in};
ghost use Rattle.ffv1_makings.specs.Fitting.{FitsSlice, FitsPicture};
ghost use Rattle.ffv1_makings.specs.declared.spec.SliceSpec.{SliceSpec};

use crate::spec::{PictureSpec, SliceSpec};
use ffv1_player::{count_of_planes, frame_in};
use ffv1_range::Recording;

/// Whether a picture has slices and planes that fit.
pub(crate) fn fits(recording: &Recording, picture: &PictureSpec) -> bool
    ensures { IsTrue result → FitsPicture recording.now picture.now }
{
    !picture.slices.is_empty()
        && fit_slices(recording, &picture.slices)
        && picture.planes.len() == count_of_planes(recording)
        && fit_planes(recording, &picture.planes)
}

/// Whether each slice fits.
fn fit_slices(recording: &Recording, slices: &[SliceSpec]) -> bool
    ensures { IsTrue result → (place : ℕ) (d : SliceSpec) → place < length slices.now → FitsSlice recording.now (slice_index_or slices.now place d) }
{
    for slice in slices {
        if !fits_slice(recording, slice) {
            return false;
        }
    }
    true
}

/// Whether a slice has tiles of the grid, and names table sets of the record.
fn fits_slice(recording: &Recording, slice: &SliceSpec) -> bool
    ensures { IsTrue result → FitsSlice recording.now slice.now }
{
    slice.w >= 1
        && slice.h >= 1
        && slice.x <= recording.grid().across()
        && slice.w <= recording.grid().across() - slice.x
        && slice.y <= recording.grid().down()
        && slice.h <= recording.grid().down() - slice.y
        && (slice.tables[0] as usize) < recording.sets()
        && (slice.tables[1] as usize) < recording.sets()
        && (!recording.has_alpha() || (slice.tables[2] as usize) < recording.sets())
}

/// Whether the planes have the size that a frame has in them.
fn fit_planes(recording: &Recording, planes: &[Vec<u16>]) -> bool
    ensures { IsTrue result → (p : ℕ) → p < length planes.now
        → length (samples_of (map (λ plane. plane.items) planes.now) p) ≡ (frame_in recording.now p).w * (frame_in recording.now p).h }
{
    for (plane, samples) in planes.iter().enumerate() {
        let place = frame_in(recording, plane);
        if samples.len() != place.w as usize * place.h as usize {
            return false;
        }
    }
    true
}
