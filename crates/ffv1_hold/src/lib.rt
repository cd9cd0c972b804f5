//! Holding files (own), which keep a holding's slices and their recording; plans: how a holding comes to be, of
//! copies, of other holdings and through files; and the whole way from copies to a restored frame. Devices and holdings are those of the crates below, whose names are
//! passed on.
#![tactic(auto)]

mod blocks;
mod entry;
mod fields;
mod file_fault;
mod firsts;
mod head;
mod hold_reader;
mod laws;
mod magic;
mod merging;
mod number;
mod origins;
mod plan;
mod reading;
mod restoring;
mod saving;
mod union;
mod version;

pub use ffv1_devices::{
    FromRead, FromWrite, Sink, Source, ThroughWrite, WholeFault, WriteFailed, read_whole,
    write_field,
};
pub use ffv1_holding::{
    HoldFault, Holding, Join, JoinAllFault, Recordings, RestoreFault, SliceSet, TakeAllFault,
    Taken, TileState, copies_hold_the_original, copies_restore_the_original, held_is_found,
    join_all, near_copies_hold_the_original, notions_are_of_holdings, origin_is_a_copy,
};
pub use file_fault::HoldFileFault;
pub use laws::{one_fault, one_read_limit, one_text, text_shows_no_fault};
pub use merging::{join_streams, join_streams_of};
pub use plan::{Plan, PlanFault, carry_out, run, same_copies};
pub use reading::{read_hold, read_holding};
pub use restoring::{Restoration, RestorationFault, restored};
pub use saving::write_hold;
pub use version::Version;
