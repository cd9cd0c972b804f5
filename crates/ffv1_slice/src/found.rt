//! Laws of the slices that are found in a payload: those of its links that are slices of the setup's tiles.
ghost use Rattle.ffv1_slice.specs.Slices.{FoundSlicesAreFound, OriginalIsFound};
ghost use Rattle.ffv1_slice.specs.Near.{NearFound};

/// The found slices of a payload are exactly its links that are slices of a tile.
pub fn found_slices_are_found()
    ensures { FoundSlicesAreFound }
{}

/// In an intact original, a payload of one slice a tile in tile order, exactly its slices are found.
pub fn original_is_found()
    ensures { OriginalIsFound }
{}

/// Damage within 32 bits of a slice, its size field undamaged, is always seen: of a copy in which no slice of an
/// original is damaged otherwise, exactly the slices that stand there intact are found, each of its tile.
pub fn near_found()
    ensures { NearFound }
{}
