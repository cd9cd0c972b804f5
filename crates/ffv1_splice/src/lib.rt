//! Copies of one frame are spliced by their footers alone (RFC 9043, section 4.9): where a slice ends in one copy and passes
//! its parity there, it stands, whatever became of the copy's other slices. Footers that give size 0 are passed over, since no
//! slice of a frame is without content, and a sector of zeros reads as a row of such footers, which all pass their parity. No
//! setup is asked for, so this is for frames of any FFV1 version 3 recording with parity.
#![tactic(auto)]

mod crossing;
mod dividing;
mod first;
mod laws;
mod place;
mod placing;
mod settling;
mod several;
mod shortest;
mod sized;
mod small;
mod splicing;
mod tally;
mod text;

pub use laws::{
    claimed_alone_is_original, given_back_is_original, given_back_is_whole, limits_of_the_splice,
    links_are_tried, near_copies_splice, original_is_spliced, repaired_is_original,
    same_copies_splice, settled_in_hole_is_original, settled_is_original,
    settled_walks_are_original, sized_is_original, voted_is_original, walk_across_is_original,
    woven_is_original,
};
pub use place::{Place, Standing};
pub use small::{notions_are_of_splices, true_splices_are_the_original};
pub use splicing::{SpliceFault, Spliced, splice};
pub use text::{push_front, push_place};
