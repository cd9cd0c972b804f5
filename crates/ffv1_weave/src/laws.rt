//! Laws of the weave, whatever it is made by.
ghost use Rattle.std.specs.Prelude.{◌≡◌, ◌^◌};
ghost use Rattle.ffv1_weave.specs.declared.regions.TheConstants.{SEPARATION};
ghost use Rattle.ffv1_weave.specs.declared.repairing.TheConstants.{MOST_REPAIRS};
ghost use Rattle.ffv1_weave.specs.declared.weaving.TheConstants.{MOST_COMBINATIONS};
ghost use Rattle.ffv1_weave.specs.Laws.{SameVersionsWeave, OriginalIsWoven, AreAmongTried, RegionsAreCoarsest, CoveredIsCombination, VersionIsCombination};
ghost use Rattle.ffv1_weave.specs.Repairs.{SameVersionsRepair, OriginalIsRepaired};
ghost use Rattle.ffv1_weave.specs.Votes.{SameVersionsVote, OriginalIsVoted};

/// However the same versions are ordered or repeated, they have one weave: outcome, bytes and number of combinations.
pub fn same_versions_weave()
    ensures { SameVersionsWeave }
{}

/// Where the original passes, as a slice with its parity (RFC 9043, section 4.9), an element with its CRC-32 (RFC 8794, section 11.3.1) or a
/// record with its parity (RFC 9043, section 4.3.2), and is among the combinations that are tried, nothing else is woven, and it is not
/// missing.
pub fn original_is_woven()
    ensures { OriginalIsWoven }
{}

/// Bytes are among the combinations that are tried where they are one by the split that is tried, or one of regions; where the versions cover
/// them by the split that is tried; and where each byte is intact in some version, and there are at most 4096 combinations by the
/// finest split.
pub fn are_among_tried()
    ensures { AreAmongTried }
{}

/// A combination of regions is a combination of the segments of each finer split too.
pub fn regions_are_coarsest()
    ensures { RegionsAreCoarsest }
{}

/// The original is one of the combinations by a split where each part is intact in some version, and what all versions agree on is right.
pub fn covered_is_combination()
    ensures { CoveredIsCombination }
{}

/// Each version, of versions of one length, is a combination of regions itself.
pub fn version_is_combination()
    ensures { VersionIsCombination }
{}

/// However the same versions are ordered or repeated, they have one repair, or none.
pub fn same_versions_repair()
    ensures { SameVersionsRepair }
{}

/// Where the original is a slice with its parity (RFC 9043, section 4.9.3), and one of the combinations that are tried with one bit
/// inverted, nothing else is repaired.
pub fn original_is_repaired()
    ensures { OriginalIsRepaired }
{}

/// However the same versions are ordered or repeated, they have one vote, or none.
pub fn same_versions_vote()
    ensures { SameVersionsVote }
{}

/// Where the original is a slice with its parity (RFC 9043, section 4.9.3), and among what most versions have at a distance that is tried,
/// nothing else is voted.
pub fn original_is_voted()
    ensures { OriginalIsVoted }
{}

/// At most 4096 combinations are tried, and 2^20 repairs; and places where versions differ are in one region if they are at most 64 apart.
pub fn limits_of_the_weave()
    ensures combinations { MOST_COMBINATIONS ≡ 4096 }
    ensures repairs { MOST_REPAIRS ≡ 2 ^ 20 }
    ensures separation { SEPARATION ≡ 64 }
{}
