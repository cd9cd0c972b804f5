//! What can be shown of a holding of any recording (own): its settled tiles, decoded as slices of a keyframe (RFC 9043, sections 4.4 to 4.9).
ghost use Rattle.std.specs.Prelude.{◌≡◌, ◌<◌, ◌≤◌, [], true, Bool, List, Option, IfOk, length};
ghost use Rattle.ffv1_bits.specs.Limits.{slice_limit};
ghost use Rattle.ffv1_range.specs.Setup.{RecordingValue};
ghost use Rattle.ffv1_holding.specs.Reels.{reel_tiles};
ghost use Rattle.ffv1_holding.specs.TileState.{tile_state};
ghost use Rattle.ffv1_samples.specs.Slices.{SlicePictureValue, slice_picture_value};
ghost use Rattle.ffv1_player.specs.Frames.{planes_of_samples, slice_end_of, IsFrameOfSlices};
ghost use Rattle.ffv1_player.specs.Shown.{ShowsHolding, AreShownPictures, MayBeKeyframe, is_key_known, present};
ghost use Rattle.ffv1_player.specs.Alone.{TilesAreShownAlone};
ghost use Rattle.ffv1_player.specs.PlayedSlices.{KeyframeIsShown};
ghost use Rattle.ffv1_player.specs.ProfilePictures.{ProfileIsShownAlike};
ghost use Rattle.ffv1_player.specs.Inner.Drawing.{AreFramePlanes, AreSlicePlanes, IsInGrid};
ghost use Rattle.ffv1_player.specs.Inner.Showing.{HeadSaysNoKeyframe, IsRecordingOfReel, Adds, ShowsSlice, ShowsOneTile};

use crate::samples::{Samples, SliceEnd, blank_planes, draw_picture};
use ffv1_holding::{Framed, Holding, TileState};
use ffv1_range::{Recording, Scope, read_scoped, read_slice_head};
use ffv1_samples::{SliceFault, SlicePicture, decode_slice};
use ffv1_slice::content_of;
use std::alloc::{AllocError, Global};

/// What can be shown of a holding.
#[derive(Drop)]
pub struct Shown {
    /// The samples of the decoded tiles, and 2^(depth - 1) where none lies. `key` is false where the frame is known to be no keyframe, and
    /// `slices` are the ends of the decoded slices, in tile order.
    pub samples: Samples,
    /// How each tile came out, in tile order.
    pub tiles: Vec<ShownTile>,
    /// Whether it is known if the frame is a keyframe: tile 0 is settled, or the record's intra is not 0 (RFC 9043, section 4.2.17).
    pub is_key_known: bool,
}

/// How a tile of a shown holding came out.
#[derive(Clone, Copy, Debug, PartialEq, Eq)]
pub enum ShownTile {
    /// Its settled slice has a picture, and ends so.
    Decoded(SliceEnd),
    /// No slice of it is held.
    Missing,
    /// So many slices have the least error status.
    Disputed(usize),
    /// It is settled, and the frame is no keyframe: the states of the frame before are not known.
    NoKeyframe,
    /// Its settled slice has no picture, for this reason, which is never `Memory`.
    Fault(SliceFault),
}

/// What can be shown of a holding, whose record is read again: the pictures of its settled tiles, each decoded from initial states. In chroma a
/// sample that two decoded tiles cover is the greater tile's, and one that none covers is 2^(depth - 1). Where the settled slice of tile 0
/// says that the frame is no keyframe (RFC 9043, section 4.4), no tile is decoded. While nothing says whether it is one, tiles are decoded as
/// those of a keyframe, and `is_key_known` is false.
///
/// It fails where memory is refused. A frame takes 2 bytes a sample, and besides what `decode_slice` takes for one slice at a time.
pub fn show_holding<S: Framed>(alloc: Global, holding: &Holding<S>) -> Result<Shown, AllocError>
    ensures shown { IfOk result (ShowsHolding holding.now) }

    // The samples are those of the pictures that the settled slices have, and of no others.
    ensures whole { (r : RecordingValue) (key : Bool) (pictures : List (Option SlicePictureValue)) → AreShownPictures holding.now r key pictures
        → IfOk result (λ shown. IsFrameOfSlices r key (present pictures) shown.samples) }
{
    let recording = recording_of(alloc, holding)?;
    show_tiles(alloc, &recording, holding)
}

/// A tile is shown by how it stands, and by whether the frame may be a keyframe: in two holdings of one recording that agree on these it has one
/// outcome and one picture, whatever they hold of other tiles.
pub fn tiles_are_shown_alone()
    ensures { TilesAreShownAlone }
{}

/// What is shown of a holding of the profile has the same samples as its picture by `Decoder::picture` of `ffv1_picture`.
pub fn profile_is_shown_alike()
    ensures { ProfileIsShownAlike }
{}

/// Where what is shown is of the slices of a payload, one of each tile in the order of the tiles, and the payload is a frame to a player after
/// none, and so a keyframe: the samples that are shown are that frame's, and each tile is decoded and ends as its slice does.
pub fn keyframe_is_shown()
    ensures { KeyframeIsShown }
{}

/// What can be shown of a holding, by what its record says.
fn show_tiles<S: Framed>(
    alloc: Global,
    recording: &Recording,
    holding: &Holding<S>,
) -> Result<Shown, AllocError>
    requires { IsRecordingOfReel holding.now.reel recording.now }
    ensures { IfOk result (ShowsHolding holding.now) }
{
    let key = may_be_keyframe(recording, holding);
    let is_key_known = is_key_known(recording, holding);
    let count = recording.grid().tiles();
    let mut samples = blank_samples(alloc, recording, key, count)?;
    let mut tiles = Vec::with_capacity(alloc, count)?;
    for tile in 0..count {
        tiles.push(show_tile(alloc, recording, holding, tile, &mut samples)?)?;
    }
    Ok(Shown {
        samples,
        tiles,
        is_key_known,
    })
}

/// What the record of a holding says, which was read before: the only refusal is Memory.
fn recording_of<S: Framed>(alloc: Global, holding: &Holding<S>) -> Result<Recording, AllocError>
    ensures { IfOk result (IsRecordingOfReel holding.now.reel) }
{
    let reel = holding.reel();
    let (width, height) = (reel.recording().width(), reel.recording().height());
    match read_scoped(alloc, Scope::Parities, reel.config(), width, height) {
        Ok(recording) => Ok(recording),
        Err(_memory) => Err(AllocError),
    }
}

/// Whether the frame may be a keyframe: unless the settled slice of tile 0 says that it is none.
fn may_be_keyframe<S: Framed>(recording: &Recording, holding: &Holding<S>) -> bool
    requires { IsRecordingOfReel holding.now.reel recording.now }
    ensures { MayBeKeyframe recording.now holding.now result }
{
    recording.keeps_version_3();
    // Each slice that is held has its footer.
    let _reel = holding.reel();
    match holding.state(0) {
        TileState::Settled(slice) => !says_no_keyframe(recording, slice),
        _ => true,
    }
}

/// Whether it is known if the frame is a keyframe: by the settled slice of tile 0, or as the record says that each frame is one.
fn is_key_known<S: Framed>(recording: &Recording, holding: &Holding<S>) -> bool
    requires { IsRecordingOfReel holding.now.reel recording.now }
    ensures { result ≡ is_key_known recording.now (tile_state holding.now 0) }
{
    recording.keeps_version_3();
    match holding.state(0) {
        TileState::Settled(_) => true,
        _ => recording.intra() != 0,
    }
}

/// Whether the header of a payload's first slice says that the frame is no keyframe (RFC 9043, section 4.4).
fn says_no_keyframe(recording: &Recording, slice: &[u8]) -> bool
    requires { 8 ≤ length slice.now }
    ensures { HeadSaysNoKeyframe recording.now slice.now result }
{
    match read_slice_head(recording, content_of(slice), true) {
        Ok((header, _start)) => header.key == Some(false),
        Err(_fault) => false,
    }
}

/// A frame with no picture, with room for the ends of so many slices.
fn blank_samples(
    alloc: Global,
    recording: &Recording,
    key: bool,
    count: usize,
) -> Result<Samples, AllocError>
    ensures { IfOk result (IsFrameOfSlices recording.now key []) }
{
    Ok(Samples {
        width: recording.width(),
        height: recording.height(),
        shift_h: recording.shift_h(),
        shift_v: recording.shift_v(),
        is_rgb: recording.is_rgb(),
        has_alpha: recording.has_alpha(),
        depth: recording.depth(),
        key,
        planes: blank_planes(alloc, recording)?,
        slices: Vec::with_capacity(alloc, count)?,
    })
}

/// Draws the picture of a tile's settled slice, if it has one, and returns how the tile came out.
fn show_tile<S: Framed>(
    alloc: Global,
    recording: &Recording,
    holding: &Holding<S>,
    tile: usize,
    samples: &mut Samples,
) -> Result<ShownTile, AllocError>
    requires tile { tile < reel_tiles holding.now.reel }
    requires planes { AreFramePlanes recording.now (planes_of_samples samples.old) }
    ensures { IfOk result (λ outcome. ShowsOneTile holding.now recording.now tile outcome samples.old samples.new) }
{
    // Each slice that is held has its footer.
    let _reel = holding.reel();
    match holding.state(tile) {
        TileState::Missing => Ok(ShownTile::Missing),
        TileState::Disputed(slices) => Ok(ShownTile::Disputed(slices)),
        TileState::Settled(slice) => {
            if samples.key {
                show_slice(alloc, recording, slice, tile, samples)
            } else {
                Ok(ShownTile::NoKeyframe)
            }
        }
    }
}

/// Draws the picture of a slice of a keyframe, if it has one, and returns how its tile came out.
fn show_slice(
    alloc: Global,
    recording: &Recording,
    slice: &[u8],
    tile: usize,
    samples: &mut Samples,
) -> Result<ShownTile, AllocError>
    requires footer { 8 ≤ length slice.now }
    requires short { length slice.now ≤ slice_limit }
    requires planes { AreFramePlanes recording.now (planes_of_samples samples.old) }
    ensures { IfOk result (λ outcome. ShowsSlice recording.now true tile slice.now outcome samples.old samples.new) }
{
    recording.keeps_version_3();
    match decode_slice(alloc, recording, content_of(slice), tile == 0, None) {
        Ok(picture) => {
            let end = add_picture(samples, recording, &picture)?;
            Ok(ShownTile::Decoded(end))
        }
        Err(SliceFault::Memory) => Err(AllocError),
        Err(cause) => Ok(ShownTile::Fault(cause)),
    }
}

/// Draws a picture onto a frame, and returns how its slice ends.
fn add_picture(
    samples: &mut Samples,
    recording: &Recording,
    picture: &SlicePicture,
) -> Result<SliceEnd, AllocError>
    requires header { IsInGrid recording.now picture.now.header }
    requires planes { AreFramePlanes recording.now (planes_of_samples samples.old) }
    requires picture { AreSlicePlanes recording.now picture.now.header (slice_picture_value picture.now).planes }
    ensures end { IfOk result (λ end. end ≡ slice_end_of (slice_picture_value picture.now)) }
    ensures drawn { IfOk result (λ _. Adds recording.now (slice_picture_value picture.now) samples.old samples.new) }
{
    draw_picture(&mut samples.planes, recording, picture);
    let end = SliceEnd {
        spare_bits: picture.spare_bits,
        is_clean: picture.is_clean,
    };
    samples.slices.push(end)?;
    Ok(end)
}
