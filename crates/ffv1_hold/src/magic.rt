//! The magics that holding files begin with (own).
ghost use Rattle.std.specs.Prelude.{◌≡◌, ◌↔◌, ◌≤◌, IsTrue, length};
ghost use Rattle.ffv1_hold.specs.HoldingText.{magic};
ghost use Rattle.ffv1_hold.specs.FileFaults.{IsMagic, BeginsMagic};

use crate::version::Version;
use ffv1_holding::Recordings;

/// The magic of version 1.
const FIRST: [u8; 8] = *b"FFV1HLD\x01";

/// That of version 2, of a recording of the profile.
const SECOND: [u8; 8] = *b"FFV1HLD\x02";

/// That of version 2, of a recording out of the profile, or of any frames.
const ANY: [u8; 8] = *b"FFV1ANY\x01";

/// What a magic says: whether the slices are of the profile, and the version.
#[derive(Clone, Copy)]
pub(crate) struct Magic {
    pub(crate) of_profile: bool,
    pub(crate) version: Version,
}

/// The magic of version 2.
pub(crate) fn written_magic(of_profile: bool) -> [u8; 8]
    ensures { result ≡ magic of_profile Version.Second }
{
    if of_profile { SECOND } else { ANY }
}

/// Whether bytes, at most eight, begin the magic of files that are read.
pub(crate) fn begins_magic(recordings: Recordings, bytes: &[u8]) -> bool
    requires { length bytes.now ≤ 8 }
    ensures { IsTrue result ↔ BeginsMagic recordings bytes.now }
{
    let count = bytes.len();
    bytes == &FIRST[..count]
        || bytes == &SECOND[..count]
        || (recordings == Recordings::Any && bytes == &ANY[..count])
}

/// What eight bytes say that are the magic of files that are read.
pub(crate) fn magic_of(recordings: Recordings, bytes: &[u8; 8]) -> Magic
    requires { BeginsMagic recordings bytes.now }
    ensures bytes { bytes.now ≡ magic result.of_profile result.version }
    ensures is_magic { IsMagic recordings result.of_profile result.version }
{
    let of_profile = *bytes != ANY;
    let version = if *bytes == FIRST {
        Version::First
    } else {
        Version::Second
    };
    Magic {
        of_profile,
        version,
    }
}
