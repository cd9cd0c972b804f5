//! How the slices of a frame of any recording lie in its payload and in its grid (RFC 9043, sections 4.4 to 4.6, 4.9 and 5).
#![tactic(auto)]

mod cut;
mod fault;
mod layout;
mod tiles;

pub use fault::LayoutFault;
pub use layout::{PlacedSlice, one_layout, read_layout};
