//! The samples of one slice of any recording of version 3, from its content (RFC 9043, sections 3.7, 3.8 and 4.5 to 4.8).
#![tactic(auto)]

mod colors;
mod ends;
mod faults;
mod reading;
mod sizes;
mod slice;
mod states;

pub use faults::{SampleFault, SliceFault};
pub use slice::{SlicePicture, decode_slice, one_slice_fault, one_slice_picture, tile_is_slice};
pub use states::{RangeStates, RiceStates, SliceStates};
