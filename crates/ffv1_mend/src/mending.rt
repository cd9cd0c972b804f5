//! Stretches of each kind, mended.
ghost use Rattle.std.specs.Prelude.{◌≡◌, ◌<◌, length, All, Contains, IfOk};
ghost use Rattle.ffv1_weave.specs.References.{values_of};
ghost use Rattle.ffv1_mend.specs.Improved.{IsWithin};
ghost use Rattle.ffv1_mend.specs.Mended.{IsMendOf};

use crate::checked::{mend_flac, mend_woven};
use crate::distinct::distinct_versions;
use crate::element::mend_element;
use crate::frame::mend_frame;
use crate::kind::Kind;
use crate::mended::Mended;
use crate::part::Part;
use crate::plain::mend_plain;
use ffv1_weave::Check;
use std::alloc::{AllocError, Global};

/// Mends a stretch of this kind. Its versions are what the copies that have it have at its place; there is one at least. `from` is one of
/// them, and all are as long as it is. The parts are the frames in an element, each within it; for other kinds they are not looked at.
///
/// A frame of FFV1 is spliced of its versions, and has the splice's bytes. An element is the version that passes its CRC-32. Where none does,
/// the parts that are frames of FFV1 are spliced, and of those that are frames of FLAC the version that passes is taken; what these give
/// stands in each version, and the versions are woven. Where nothing is woven either, or two versions that differ pass, it has in each
/// part the bytes of its splice or of the version that passes, and elsewhere those of `from`. A record is the version that passes its
/// parity, or is woven. A frame of FLAC is the version that passes its CRC-8 and CRC-16; nothing is woven of it. Where a record or such a
/// frame is neither, it has the bytes of `from`, and so have bytes without a checksum.
///
/// The order of the versions changes nothing, and repeating one changes only `Alone` to `Agreed`; `from` changes only bytes that are
/// neither good nor alone (`same_versions_mend`). Bytes that are good pass the checksum (`good_is_vouched`), and are the original's where
/// that is among the combinations (`original_is_mended`). Equal versions are judged once, and a version that stands as it is is lent, and
/// not copied. The only refusal is that of an allocation of memory.
pub fn mend<'a>(
    alloc: Global,
    kind: Kind,
    versions: &[&'a [u8]],
    from: &'a [u8],
    parts: &[Part],
) -> Result<Mended<'a>, AllocError>
    requires some { 0 < length versions.now }
    requires lengths { All (λ version. length version.now ≡ length from.now) versions.now }
    requires from { Contains (values_of versions.now) from.now }
    requires parts { All (IsWithin (length from.now)) parts.now }
    ensures { IfOk result (IsMendOf kind (values_of versions.now) from.now parts.now) }
{
    match kind {
        Kind::Frame => mend_frame(alloc, versions),
        Kind::Crc32 => {
            let distinct = distinct_versions(alloc, versions)?;
            mend_element(alloc, distinct.as_slice(), from, parts)
        }
        Kind::Record => {
            let distinct = distinct_versions(alloc, versions)?;
            mend_woven(alloc, Check::Record, distinct.as_slice(), from)
        }
        Kind::Flac => {
            let distinct = distinct_versions(alloc, versions)?;
            Ok(mend_flac(alloc, distinct.as_slice(), from))
        }
        Kind::Plain => Ok(mend_plain(alloc, versions, from)),
    }
}
