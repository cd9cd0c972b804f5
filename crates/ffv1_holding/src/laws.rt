//! Laws of holdings (own), as contracts of functions that do nothing.
ghost use Rattle.ffv1_holding.specs.Laws.{CopiesHoldTheOriginal, NearCopiesHoldTheOriginal, HeldIsFound, OriginIsACopy};

/// Where every slice that is found in the copies is the original's for its tile, and each of the original's is found
/// in some copy, the holding of the copies holds exactly the original's slices. With `restore`, it then returns the original.
pub fn copies_hold_the_original()
    ensures { CopiesHoldTheOriginal }
{}

/// Where all copies differ from an original only within 32 bits of each slice, its size field undamaged, and each of its
/// slices is intact in one of them, the holding of the copies holds exactly the original's slices.
pub fn near_copies_hold_the_original()
    ensures { NearCopiesHoldTheOriginal }
{}

/// What is held of copies is what is found in one of them: a slice of a tile is held exactly where it is found in
/// some copy.
pub fn held_is_found()
    ensures { HeldIsFound }
{}

/// The origins of what is held of copies are their digests: a digest is an origin of a slice exactly where it is that
/// of a copy in which the slice is found.
pub fn origin_is_a_copy()
    ensures { OriginIsACopy }
{}
