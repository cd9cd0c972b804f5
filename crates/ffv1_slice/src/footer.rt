//! What closes a slice (RFC 9043, section 4.9): a footer of 3 bytes of size, 1 of error status and 4 of parity. The size is
//! that of the content, which is what stands before the footer.
ghost use Rattle.std.specs.Prelude.{◌≡◌, ◌≤◌, ◌↔◌, IsTrue, length};
ghost use Rattle.ffv1_slice.specs.Chain.{IsFramed, status_before};
ghost use Rattle.ffv1_slice.specs.Slices.{content_of};

use byteorder::{BigEndian, ByteOrder};

/// The number of bytes of a footer.
pub const FOOTER_LENGTH: usize = 8;

/// What of a slice stands before its footer. The slice has room for one.
pub fn content_of(slice: &[u8]) -> &[u8]
    requires { 8 ≤ length slice.now }
    ensures { result.now ≡ content_of slice.now }
{
    &slice[..slice.len() - FOOTER_LENGTH]
}

/// The error status of a slice (RFC 9043, section 4.9.2), the byte after the three of its size: 0 no error, 1 correctable,
/// 2 uncorrectable errors; others are reserved, and are returned as they stand. The slice has room for a footer.
pub fn status_of(slice: &[u8]) -> u8
    requires { 8 ≤ length slice.now }
    ensures { result ≡ status_before slice.now (length slice.now) }
{
    slice[slice.len() - 5]
}

/// Whether the bytes end with a footer, and its size field (RFC 9043, section 4.9.1) is the number of bytes before it.
pub fn is_framed(slice: &[u8]) -> bool
    ensures { IsTrue result ↔ IsFramed slice.now }
{
    if slice.len() < FOOTER_LENGTH {
        return false;
    }
    let size = slice.len() - FOOTER_LENGTH;
    BigEndian::read_u24(&slice[size..]) as usize == size
}
