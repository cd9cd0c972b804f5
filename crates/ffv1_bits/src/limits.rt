//! The limits of this reader, each in one place: they are not of the format, except that of a slice.

/// The greatest width and height of a frame, in samples.
pub const GREATEST_SIDE: u32 = 65535;

/// The greatest number of a frame's tiles.
pub const MOST_TILES: u32 = 4096;

/// The greatest length of a frame's payload, in bytes.
pub const PAYLOAD_LIMIT: usize = 1 << 30;

/// The greatest length of a slice with its footer, in bytes: its size field has three (RFC 9043, section 4.9.1).
pub const SLICE_LIMIT: u32 = 16777223;

/// The greatest length of a record in a holding file, in bytes.
pub const RECORD_LIMIT: u32 = 1 << 24;

/// The greatest length of a holding file, in bytes.
pub const FILE_LIMIT: u32 = 1 << 31;
