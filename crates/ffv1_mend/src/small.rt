//! What becomes of a stretch that is good, and when that is the original, as contracts of functions that do nothing.
ghost use Rattle.ffv1_mend.specs.Small.{GoodIsTheOriginal};
ghost use Rattle.ffv1_mend.specs.SmallNotions.{GoodIsOfMend, OriginalIsKnownAgain};

/// A good stretch is the original, if that is known again: if a frame of FFV1 is spliced from copies that no piece contradicts, with each
/// slice within reach; if an element, a record or a frame of FLAC passes, no version that passes is another, and it is among what is tried;
/// and if some version has the bytes that have no checksum.
pub fn good_is_the_original()
    ensures { GoodIsTheOriginal }
{}

/// What becomes of a stretch is what the small definitions say, where it is good; and no more is asked of an original than in
/// `original_is_mended`.
pub fn notions_are_of_mends()
    ensures good { GoodIsOfMend }
    ensures original { OriginalIsKnownAgain }
{}
