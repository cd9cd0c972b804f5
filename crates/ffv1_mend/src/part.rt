//! Frames in an element, and what becomes of them.

use ffv1_splice::Spliced;

/// What a part of an element is.
#[derive(Clone, Copy, Debug, PartialEq, Eq)]
pub enum Sort {
    /// One frame of FFV1.
    Frame,
    /// One frame of FLAC.
    Flac,
}

/// Where a frame lies in an element, in bytes from the element's start.
#[derive(Clone, Copy, Debug, PartialEq, Eq)]
pub struct Part {
    /// How many bytes stand before it.
    pub start: usize,
    /// How many bytes stand before its end, its own among them.
    pub end: usize,
    /// What it is.
    pub sort: Sort,
}

/// What becomes of a part.
#[derive(Drop)]
pub enum MendedPart<'a> {
    /// Of a frame of FFV1 its splice.
    Spliced(Spliced),
    /// Of a frame of FLAC: all its versions that pass are equal to this one.
    Whole(&'a [u8]),
    /// Of a frame of FLAC: two versions that differ pass.
    Disputed,
    /// Of a frame of FLAC: no version passes.
    Missing,
}
