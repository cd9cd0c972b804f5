//! Laws of what becomes of the stretches of a file, whatever it is mended by.
ghost use Rattle.ffv1_stretches.specs.Laws.{AnyOrderMends, GoodStretchesAreVouched, OriginalFileIsMended, FrontsAreEnough};

/// However the copies are ordered, the same becomes of each stretch: it has the same state, the same bytes and the same splices. The places
/// of each stretch go with the copies, and its copy FROM is the same one.
pub fn any_order_mends()
    ensures { AnyOrderMends }
{}

/// What becomes of a stretch that is good is vouched for: an element passes its CRC-32 (RFC 8794, section 11.3.1), a Configuration Record its
/// parity (RFC 9043, section 4.3.2), a frame of FLAC its CRC-8 and its CRC-16 (RFC 9639, section 9); a frame of FFV1 is whole, each of whose
/// slices passes its parity (RFC 9043, section 4.9); and bytes without a checksum are what two copies at least have, and every copy that
/// has them.
pub fn good_stretches_are_vouched()
    ensures { GoodStretchesAreVouched }
{}

/// Where all stretches are good, OUT is the original file, byte for byte, if the original of each is known again: that of an element
/// passes, no version that passes differs from it, and it is among the combinations of the improved versions; so it is of a record, of its
/// versions as they are; that of a frame of FLAC passes, and no version that passes differs from it; no slice of a version of a frame of
/// FFV1 that passes its parity differs from the original's, and the versions can be woven; and some version of bytes without a checksum
/// has them.
pub fn original_file_is_mended()
    ensures { OriginalFileIsMended }
{}

/// What stands in a copy after the end of its last stretch changes nothing of what becomes of the stretches.
pub fn fronts_are_enough()
    ensures { FrontsAreEnough }
{}
