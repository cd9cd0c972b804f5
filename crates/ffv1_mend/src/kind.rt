//! Kinds of stretches.

/// What shows whether the bytes of a stretch are right.
#[derive(Clone, Copy, Debug, PartialEq, Eq)]
pub enum Kind {
    /// One FFV1 frame of version 3 or later with parities (RFC 9043, section 4.9): the parities of its slices do.
    Frame,
    /// The content of an element of an EBML file whose first child is a CRC-32 element (RFC 8794, section 11.3.1): that CRC-32 does.
    Crc32,
    /// A Configuration Record of FFV1 (RFC 9043, section 4.3): its parity does.
    Record,
    /// One frame of FLAC (RFC 9639, section 9): the CRC-8 of its header and the CRC-16 of all of it do.
    Flac,
    /// Bytes without a checksum: nothing does, but that copies agree.
    Plain,
}
