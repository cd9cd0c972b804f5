//! The versions of holding files (own).

/// A version of holding files. The second gives the origins of each slice too, the first gives none, and is of recordings of the
/// profile alone.
#[derive(Clone, Copy, Debug, PartialEq, Eq)]
pub enum Version {
    /// Its magic is `FFV1HLD` and 1.
    First,
    /// Its magic is `FFV1HLD` and 2, or, of a recording out of the profile or of any frames, `FFV1ANY` and 1. It alone is written.
    Second,
}
