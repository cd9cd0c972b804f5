//! The tests by which a combination is valid.
ghost use Rattle.std.specs.Prelude.{◌≡◌, ◌≢◌, ◌↔◌, Any, IsTrue};
ghost use Rattle.ffv1_bits.specs.Parity.{RecordPassesParity};
ghost use Rattle.ffv1_weave.specs.Checks.{PassesBy, CanWeave};
ghost use Rattle.ffv1_weave.specs.Inner.Changes.{remainder_in};

use ebml::{element_left, passes_crc32};
use ffv1_bits::{passes, remainder};
use ffv1_slice::is_framed;
use flac_frame::passes_flac;

/// A record has so many bytes at least: two of its own, and its parity.
const LEAST_RECORD: usize = 6;

/// What versions are of, and so what distinguishes bytes that were not damaged.
#[derive(Clone, Copy, Debug, PartialEq, Eq)]
pub enum Check {
    /// A slice with its footer, which gives its length (RFC 9043, section 4.9.1), and with its parity, which it passes (section 4.9.3).
    Slice,
    /// What is in an element whose first child is a CRC-32 element that is right: `BF 84`, four bytes of CRC-32, lowest first, and the
    /// rest, of which it is the CRC-32 (RFC 8794, section 11.3.1).
    Element,
    /// A Configuration Record with its parity, which it passes (RFC 9043, section 4.3.2): six bytes at least, and not all of them 0, since
    /// zeros pass every parity.
    Record,
    /// A FLAC frame, with the CRC-8 of its header and the CRC-16 of all before that (RFC 9639, section 9). No versions are woven by it.
    Flac,
}

/// Whether bytes are a Configuration Record with its parity.
fn is_record(bytes: &[u8]) -> bool
    ensures { IsTrue result ↔ RecordPassesParity bytes.now × Any (λ byte. byte ≢ 0) bytes.now }
{
    bytes.len() >= LEAST_RECORD && bytes.iter().any(|byte| *byte != 0) && remainder(bytes) == 0
}

impl Check {
    /// Whether the bytes pass.
    pub fn passes(self, bytes: &[u8]) -> bool
        ensures { IsTrue result ↔ PassesBy self bytes.now }
    {
        match self {
            Check::Slice => is_framed(bytes) && passes(bytes),
            Check::Element => passes_crc32(bytes),
            Check::Record => is_record(bytes),
            Check::Flac => passes_flac(bytes),
        }
    }

    /// What is left of the bytes: 0 where they pass. It tells them apart only by a check by which versions are woven.
    pub(crate) fn remainder(self, bytes: &[u8]) -> u32
        requires { CanWeave self }
        ensures { result ≡ remainder_in self bytes.now }
    {
        match self {
            Check::Slice | Check::Record => remainder(bytes),
            Check::Element => element_left(bytes),
            Check::Flac => unreachable!(),
        }
    }
}
