//! How a stretch stands.

/// How a stretch stands.
#[derive(Clone, Copy, Debug, PartialEq, Eq)]
pub enum State {
    /// An element: all versions that pass its CRC-32 are equal, and there is one. A frame: all places of its splice are settled.
    Whole,
    /// An element: two versions that differ pass.
    Disputed,
    /// An element: no version passes, but of the combinations of the improved versions, of which there are so many, one alone does.
    /// A frame: its splice gives all of it back, with a woven place; the number is the product of those of its places, or the greatest
    /// that there is where the product is greater.
    Woven(usize),
    /// An element: no version passes, and of the combinations none or two that differ do, or there are too many. A frame: its splice
    /// does not give all of it back.
    Missing,
    /// Bytes without a checksum: there is one version.
    Alone,
    /// Bytes without a checksum: there are several versions, and all are equal.
    Agreed,
    /// Bytes without a checksum: two versions differ.
    Open,
}
