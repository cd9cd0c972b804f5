//! What joining copies gives, said of any function that gives a content its tile (own), as contracts of functions that do nothing.
ghost use Rattle.ffv1_holding.specs.Small.{CopiesRestoreTheOriginal, OriginalIsACopy, SameCopiesFindTheSame, SameCopiesRestoreTheSame};
ghost use Rattle.ffv1_holding.specs.SmallNotions.{FoundIsHeld, RestoredIsOfHolding, OriginalIsOfRules, CopiesAreOfRules};

/// Whatever function gives a content its tile: where every slice that is found in the copies is the original's of its tile, and each
/// of the original's is found in some copy, the original is restored byte for byte, and nothing else. Just its own slices are found in the
/// original itself. In the same copies, in whatever order and however often, the same slices are found, and at most one payload is
/// restored from them.
pub fn copies_restore_the_original()
    ensures original { CopiesRestoreTheOriginal }
    ensures itself { OriginalIsACopy }
    ensures found { SameCopiesFindTheSame }
    ensures restored { SameCopiesRestoreTheSame }
{}

/// For the function by which a recording's rules read the header of a content: what is found in copies is what a holding of them holds,
/// what is restored from them is what it restores, and originals and their copies are those of the recording's frames.
pub fn notions_are_of_holdings()
    ensures found { FoundIsHeld }
    ensures restored { RestoredIsOfHolding }
    ensures original { OriginalIsOfRules }
    ensures copies { CopiesAreOfRules }
{}
