//! Laws of the splice, whatever it is made by.
ghost use Rattle.std.specs.Prelude.{◌≡◌};
ghost use Rattle.ffv1_splice.specs.declared.crossing.TheConstants.{MOST_CROSSED};
ghost use Rattle.ffv1_splice.specs.Whole.{GivenBackIsWhole};
ghost use Rattle.ffv1_splice.specs.Laws.{SameCopiesSplice, OriginalIsSpliced, SettledIsOriginal, SettledWalksAreOriginal, WalkAcrossIsOriginal, SettledInHoleIsOriginal, WovenIsOriginal, ClaimedAloneIsOriginal, SizedIsOriginal, LinksAreTried, RepairedIsOriginal, VotedIsOriginal, GivenBackIsOriginal, NearCopiesSplice};

/// However the same copies are ordered or repeated, they have one splice.
pub fn same_copies_splice()
    ensures { SameCopiesSplice }
{}

/// Where each slice with content that passes its parity and ends at an end of an original is the original's there, and each of the
/// original's slices is found so in some copy, the splice is the original, and all its places are settled.
pub fn original_is_spliced()
    ensures { OriginalIsSpliced }
{}

/// Of the same copies, where some of the original's slices are found in none: a settled place that ends at an end of the original is the
/// original's slice there.
pub fn settled_is_original()
    ensures { SettledIsOriginal }
{}

/// Where no slice with content that passes its parity contradicts an original, neither from an end of the original's slices nor
/// from a start of one: each settled place above the hole of the splice and below it is a slice of the original.
pub fn settled_walks_are_original()
    ensures { SettledWalksAreOriginal }
{}

/// Where no slice with content that passes its parity contradicts an original, neither from an end of the original's slices nor
/// from a start of one, and some copy claims the start of each of them: each place over a slice that is lost in all copies lies where a
/// slice of the original does, and each that is settled after one is that slice, byte for byte.
pub fn walk_across_is_original()
    ensures { WalkAcrossIsOriginal }
{}

/// Where no slice with content that passes its parity and ends at an end of an original's slice is another: a settled place of the hole is the
/// original's slice, byte for byte, if each place of the hole above it is settled, or the copies' footers at its end claim no start
/// but that of the original's slice. Of a settled place that ends where none of the original's slices does, nothing is said.
pub fn settled_in_hole_is_original()
    ensures { SettledInHoleIsOriginal }
{}

/// At a place that is a slice of an original, where the original's slice passes its parity and is among the combinations that are tried
/// there: what is woven is the original's slice, it is never repaired, and it is missing or voted only where there are too many
/// combinations.
pub fn woven_is_original()
    ensures { WovenIsOriginal }
{}

/// Where a slice of an original ends at the end of a place, and of all starts from the hole on the copies' footers there claim that slice's
/// alone: the place is that slice, and what is woven is the original's, as `woven_is_original` has it.
pub fn claimed_alone_is_original()
    ensures { ClaimedAloneIsOriginal }
{}

/// At a place that is a slice of an original whose start no copy claims, or at whose end the copies' footers claim several starts from the hole
/// on, where the original's slice passes its parity and is among the combinations that are tried of what the copies have there,
/// each with the size of a slice that is as long: what is woven is the original's slice.
pub fn sized_is_original()
    ensures { SizedIsOriginal }
{}

/// A slice of an original is among the combinations that are tried there where each region in which the copies differ is intact in some copy,
/// and where all agree they are right; and where each byte is intact in some copy, and there are at most 4096 combinations at
/// distance 0.
pub fn links_are_tried()
    ensures { LinksAreTried }
{}

/// At a place where the original's slice passes its parity, and is one of the combinations of what the copies have there that are tried,
/// with one bit inverted: what is repaired is the original's slice.
pub fn repaired_is_original()
    ensures { RepairedIsOriginal }
{}

/// At a place where the original's slice passes its parity, and is one of the combinations of what most copies have there that are tried:
/// what is voted is the original's slice.
pub fn voted_is_original()
    ensures { VotedIsOriginal }
{}

/// Where no slice that passes its parity contradicts an original, the start of each of its slices is claimed by some copy, and each is
/// among the combinations that are tried there: a splice all of whose places are settled or woven is the original.
pub fn given_back_is_original()
    ensures { GivenBackIsOriginal }
{}

/// Damage within 32 consecutive bits of each slice of each copy, off its size field, is never taken for the original, whose slices all
/// have content: the places are the original's slices, settled exactly where a copy has it intact, and then the original's. At a place
/// whose slice is among the combinations that are tried, what is woven is the original's slice too.
pub fn near_copies_splice()
    ensures { NearCopiesSplice }
{}

/// A frame that is given back is whole by its own footers: its chain is whole, and each of its slices has content and passes its
/// parity.
pub fn given_back_is_whole()
    ensures { GivenBackIsWhole }
{}

/// At most 64 places over slices that are lost in all copies are crossed.
pub fn limits_of_the_splice()
    ensures crossed { MOST_CROSSED ≡ 64 }
{}
