//! Bits of bytes, and the parity that closes configuration records and slices (RFC 9043, sections 4.3.2 and 4.9.3).
#![tactic(auto)]

mod limits;
mod parity;
mod reader;
mod table;

pub use limits::{FILE_LIMIT, GREATEST_SIDE, MOST_TILES, PAYLOAD_LIMIT, RECORD_LIMIT, SLICE_LIMIT};
pub use parity::{burst_seen, passes, remainder, remainder_after, remainder_is_one};
pub use reader::{Bits, place_and_left_add_up};
pub use table::byte_remainder;
