//! Many frames of one file are judged in one pass (own): the file's ranges are given by a text, and each is judged as its bytes
//! alone by the footers and parities of its slices (RFC 9043, section 4.9). The file is read once, in order.
#![tactic(auto)]

mod ranges;
mod scanning;
mod verdict;

pub use ranges::{ByteRange, RangesFault, read_ranges};
pub use scanning::{ScanFault, scan};
pub use verdict::{Verdict, is_passing, judge};
