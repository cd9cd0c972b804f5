//! A slice that is damaged in every copy, in different places, is put together of what is undamaged in each, and so are an
//! element with a CRC-32 and a Configuration Record. The copies' versions of it are parted where they differ, as finely as leaves few
//! enough combinations of what they have there, each of these is tried, and footer and parity (RFC 9043, section 4.9), or the CRC-32
//! (RFC 8794, section 11.3.1), or the record's parity (RFC 9043, section 4.3.2), show which of them it is. If none is one, what most
//! versions have is tried, or a combination with one bit inverted.
#![tactic(auto)]

mod changes;
mod check;
mod found;
mod inversions;
mod laws;
mod most;
mod parts;
mod regions;
mod repairing;
mod segments;
mod splits;
mod trying;
mod voting;
mod weaving;

pub use check::Check;
pub use laws::{
    are_among_tried, covered_is_combination, limits_of_the_weave, original_is_repaired,
    original_is_voted, original_is_woven, regions_are_coarsest, same_versions_repair,
    same_versions_vote, same_versions_weave, version_is_combination,
};
pub use repairing::{MOST_REPAIRS, repair};
pub use voting::vote;
pub use weaving::{MOST_COMBINATIONS, WeaveResult, weave};
