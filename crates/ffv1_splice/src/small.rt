//! What `splice` gives where it gives all of a frame back, and when that is the original, as contracts of functions that do nothing.
ghost use Rattle.ffv1_splice.specs.Small.{SplicedIsTheOriginal, SplicedOfNearIsTheOriginal, NearCopiesSettle, SettledIsSpliced};
ghost use Rattle.ffv1_splice.specs.SmallNotions.{GivenBackIsSpliced, SettledIsGivenBack, WeavableIsWithinReach, NearCopiesAreNear, EachLinkIsSettled};

/// What is spliced from copies is the original, if each of its slices passes, its start is claimed, it is among what is tried there, and no
/// piece that begins where it does, or ends where it does, is another. So it is of near copies. If besides each of its slices is a
/// piece, the original is settled; and what is settled is spliced.
pub fn true_splices_are_the_original()
    ensures original { SplicedIsTheOriginal }
    ensures near { SplicedOfNearIsTheOriginal }
    ensures settled { NearCopiesSettle }
    ensures spliced { SettledIsSpliced }
{}

/// A frame that is given back is spliced from the copies; and where an original is settled from the copies, it is given back. No more is
/// asked of an original and its copies than in the laws of the splice: where its links can be woven, where copies are near it, and where
/// no piece contradicts it and each link is a piece.
pub fn notions_are_of_splices()
    ensures spliced { GivenBackIsSpliced }
    ensures settled { SettledIsGivenBack }
    ensures weavable { WeavableIsWithinReach }
    ensures near { NearCopiesAreNear }
    ensures each_link { EachLinkIsSettled }
{}
