//! A link: one slice where it stands in a payload (RFC 9043, section 4.9). Each link has room for its footer, and its size
//! field is the number of its bytes less 8.
ghost use Rattle.std.specs.Prelude.{◌≡◌, ◌+◌, ◌≤◌, ◌↔◌, ℕ, IsTrue, length};
ghost use Rattle.ffv1_bits.specs.Limits.{slice_limit};
ghost use Rattle.ffv1_bits.specs.Parity.{PassesParity};
ghost use Rattle.ffv1_slice.specs.Chain.{FooterGives, IsFramed, status_before, link_of};

use crate::footer::status_of;
use ffv1_bits::passes;
use std::marker::Model;

/// A slice where it stands in a payload, with its footer. Its parity can be wrong.
#[derive(Drop)]
pub struct Link<'a> {
    start: usize,
    bytes: &'a [u8],
    status: u8,
}

impl<'a> Model for Link<'a> {
    ghost use Rattle.std.specs.Prelude.{ℕ, List, ◌≡◌, ◌+◌, ◌^◌, ◌<◌, ◌≤◌, ◌↔◌, IsTrue, length};
    ghost use Rattle.ffv1_slice.specs.Chain.{LinkValue, link_code, IsFramed, status_before};
    ghost use Rattle.ffv1_bits.specs.Limits.{slice_limit};

    ghost Value = { LinkValue };

    ghost coded = { link_code };

    ghost view = { λ a. record { start = a.start; bytes = a.bytes.now } };

    ghost invariant = { λ a. IsFramed a.bytes.now × (a.status ≡ status_before a.bytes.now (length a.bytes.now)) × (a.start + length a.bytes.now < 2 ^ 64)
        × (length a.bytes.now ≤ slice_limit) };
}

impl<'a> Link<'a> {
    /// The slice from `start` up to `end`, whose footer ends there.
    pub(crate) fn cut(payload: &'a [u8], start: usize, end: usize) -> Link<'a>
        requires within { end ≤ length payload.now }
        requires cut { FooterGives payload.now start end }
        requires short { end ≤ start + slice_limit }
        ensures { result ≡ link_of payload.now start end }
    {
        let bytes = &payload[start..end];
        Link {
            start,
            bytes,
            status: status_of(bytes),
        }
    }

    /// Where the slice begins: how many bytes of the payload stand before it.
    pub fn start(&self) -> usize
        ensures { result ≡ self.now.start }
    {
        self.start
    }

    /// Where the slice ends: how many bytes of the payload stand before its last one, and that one.
    pub fn end(&self) -> usize
        ensures { result ≡ self.now.start + length self.now.bytes }
    {
        self.start + self.bytes.len()
    }

    /// The whole slice, with its footer: from 8 to `slice_limit` bytes, and the footer's size field is their number less 8.
    pub fn bytes(&self) -> &'a [u8]
        ensures value { result.now ≡ self.now.bytes }
        ensures framed { IsFramed result.now }
        ensures short { length result.now ≤ slice_limit }
    {
        self.bytes
    }

    /// The footer's error status (RFC 9043, section 4.9.2): 0 no error, 1 correctable, 2 uncorrectable errors; others
    /// are reserved, and are returned as they stand.
    pub fn status(&self) -> u8
        ensures { result ≡ status_before self.now.bytes (length self.now.bytes) }
    {
        self.status
    }

    /// Whether the slice passes its parity (RFC 9043, section 4.9.3): nothing is left of the whole slice, which is divided
    /// at each call.
    pub fn passes(&self) -> bool
        ensures { IsTrue result ↔ PassesParity self.now.bytes }
    {
        passes(self.bytes)
    }
}
