//! Which frames of a recording are read (own): frames that are no keyframes have a keyframe bit 0 (RFC 9043, section 4.4).

/// Of which frames of a recording slices are read.
#[derive(Clone, Copy, Debug, PartialEq, Eq)]
pub enum Frames {
    /// Of those that the recording's rules allow: in the profile of keyframes alone.
    Ruled,
    /// Of any: the keyframe bit is 0 or 1.
    Any,
}
