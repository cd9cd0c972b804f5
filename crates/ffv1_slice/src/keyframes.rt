//! Laws of slices of frames that are no keyframes (RFC 9043, section 4.4).
ghost use Rattle.ffv1_slice.specs.Keyframes.{AnyFramesAreWider, KeyframesSortLast};

/// A slice by a record's rules is one of any frame, of the same tile; and one of any frame is one by the rules, unless it is its payload's
/// first with keyframe bit 0.
pub fn any_frames_are_wider()
    ensures { AnyFramesAreWider }
{}

/// Of two first slices with Golomb-Rice codes, that of keyframe bit 0 comes first in the order of their bytes: the bit is the first symbol.
pub fn keyframes_sort_last()
    ensures { KeyframesSortLast }
{}
