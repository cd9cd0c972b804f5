//! Holdings (own): the union of the slices that were found in copies of one frame, and what they restore. A slice is
//! held with its footer (RFC 9043, section 4.9), and only as its parity and its header find it, and beside it the
//! SHA-256 digests of the whole copies that gave it.
#![tactic(auto)]

mod fault;
mod framed;
mod fresh;
mod held_rows;
mod holding;
mod joins;
mod laws;
mod origins;
mod pool;
mod pool_entry;
mod recordings;
mod reel;
mod reporting;
mod restore;
mod rows;
mod shelf;
mod slice_set;
mod small;
mod standing;
mod take;

pub use fault::HoldFault;
pub use framed::Framed;
pub use holding::Holding;
pub use joins::{Join, JoinAllFault, join_all};
pub use laws::{
    copies_hold_the_original, held_is_found, near_copies_hold_the_original, origin_is_a_copy,
};
pub use recordings::Recordings;
pub use reel::Reel;
pub use reporting::report;
pub use restore::RestoreFault;
pub use slice_set::SliceSet;
pub use small::{copies_restore_the_original, notions_are_of_holdings};
pub use standing::TileState;
pub use take::{TakeAllFault, Taken};
