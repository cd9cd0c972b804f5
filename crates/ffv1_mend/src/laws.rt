//! Laws of what becomes of a stretch, whatever it is mended by.
ghost use Rattle.ffv1_mend.specs.Laws.{SameVersionsMend, GoodIsVouched, OriginalIsMended, NearVersionsMend};

/// However the same versions are ordered or repeated, and whichever of them is taken where nothing vouches, they have one state, but that
/// what is alone may be agreed, and one thing becomes of each part; and one list of bytes where the stretch is good or alone, and of a frame always.
/// Where as many versions are given, and the same one is taken, all is the same.
pub fn same_versions_mend()
    ensures { SameVersionsMend }
{}

/// Where a stretch is good, an element passes its CRC-32, a Configuration Record its parity, and a frame of FLAC its CRC-8 and its CRC-16; a
/// frame of FFV1 is whole by its own footers: its chain is whole, and each of its slices has content and passes its parity; and bytes
/// without a checksum are what two versions at least have, and every version.
pub fn good_is_vouched()
    ensures { GoodIsVouched }
{}

/// Where a stretch is good or alone, it is the original: of an element, where the original passes, no version that passes differs from it, and
/// it is among the combinations that are tried of the improved versions; of a record the same, of its versions as they are; of a frame of
/// FLAC, where no version that passes differs from the original, which passes; of a frame of FFV1, where no slice that passes its parity
/// differs from the original's, the start of each of its slices is claimed by some version, and each is among the combinations that are tried
/// there; of bytes without a checksum, where some version has them.
///
/// Such an element, record or frame of FLAC is never disputed, and of the first two it is missing only where there are too many combinations,
/// or another one passes too. The original of an element is among those that are tried where the improved versions cover it by the split that is
/// tried. Where what the parts give is right, it is among them where each region in which the versions differ is intact in one of
/// them, and where all agree they are right; or where each byte is intact in some version, and at distance 0 there are at most 4096
/// combinations of the versions as they were given, or of the improved ones.
pub fn original_is_mended()
    ensures { OriginalIsMended }
{}

/// Damage within 32 consecutive bits of each version, or within 16 of a frame of FLAC, is never taken for the original: an element, a record or
/// a frame of FLAC of which each version is the original or damaged so is never disputed, and where it is whole it is the original. Where the
/// original is among the combinations that are tried, nothing else is woven, and it is missing only where there are too many combinations or
/// another one passes too; where it is not, nothing is claimed of what is woven. A frame of FFV1 that is good is the original, where each slice
/// of each version is intact or damaged so off its size field, and is among the combinations that are tried.
pub fn near_versions_mend()
    ensures { NearVersionsMend }
{}
