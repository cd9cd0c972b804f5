//! The stretches of a file (own): a text lists which bytes make up the file and where each copy has them, and one pass over the copies
//! makes the file of what becomes of each stretch.
#![tactic(auto)]

mod cells;
mod copy;
mod ends;
mod laws;
mod lines;
mod listing;
mod pass;
mod stretch;
mod words;

pub use copy::CopyReader;
pub use laws::{
    any_order_mends, fronts_are_enough, good_stretches_are_vouched, original_file_is_mended,
};
pub use listing::{ListFault, read_list};
pub use pass::{MendFault, mend_stretches};
pub use stretch::Stretch;
