//! The first slices of holding files (own), which tell whether a file of a record of the profile is of any frames.
ghost use Rattle.std.specs.Prelude.{◌≡◌, ◌==◌, ◌↔◌, IsTrue, true};
ghost use Rattle.ffv1_bits.specs.Parity.{AreBytes};
ghost use Rattle.ffv1_range.specs.TileHeaders.{rules_of};
ghost use Rattle.ffv1_slice.specs.Slices.{IsSliceOf};
ghost use Rattle.ffv1_holding.specs.Contents.{AreOwnEntries, IsHolding};
ghost use Rattle.ffv1_holding.specs.Reels.{IsRecordReel};
ghost use Rattle.ffv1_hold.specs.HoldingText.{IsOfAnyFrames, CanBeFirst, TellsMagic, file_entries};

use ffv1_holding::{Framed, Holding, Reel};
use ffv1_range::Recording;
use ffv1_slice::read_slice;

/// Whether the slices are of any frames, and the record is of the profile.
pub(crate) fn is_of_any_frames<S: Framed>(reel: &Reel<S>) -> bool
    ensures { IsTrue result ↔ IsOfAnyFrames reel.now }
{
    !reel.is_of_profile() && reel.recording().is_in_profile()
}

/// Whether the bytes are the first slice of a frame by the record's own rules.
fn is_by_record(recording: &Recording, slice: &[u8]) -> bool
    ensures slice { IsTrue result ↔ IsSliceOf (rules_of recording.now) slice.now true 0 }
    ensures bytes { AreBytes slice.now }
{
    read_slice(recording, slice, true).is_ok()
}

/// Whether a slice of its tile can be the first of a file.
pub(crate) fn can_be_first(reel: &Reel<Recording>, tile: u16, slice: &[u8]) -> bool
    requires { IsSliceOf reel.now.rules slice.now (tile == 0) tile }
    ensures can { IsTrue result ↔ CanBeFirst reel.now (tile, slice.now) }
    ensures bytes { AreBytes slice.now }
{
    !is_of_any_frames(reel) || (tile == 0 && !is_by_record(reel.recording(), slice))
}

/// Whether the first slice of the file of a holding tells its magic.
pub(crate) fn tells_magic<S: Framed>(holding: &Holding<S>) -> bool
    ensures tells { IsTrue result ↔ TellsMagic holding.now.reel (file_entries holding.now) }
    ensures between { ¬ AreOwnEntries holding.now → IsTrue result }
    ensures own { IsRecordReel holding.now.reel → IsTrue result }
    ensures well_formed { IsHolding holding.now }
{
    if !is_of_any_frames(holding.reel()) {
        return true;
    }
    let recording = holding.reel().recording();
    for place in 0..holding.held(0) {
        if !is_by_record(recording, holding.slice(0, place)) {
            return true;
        }
    }
    false
}
