//! The slices of a frame payload, found from its end: each slice closes with a footer that gives its size (RFC 9043,
//! section 4.9), so the footers chain the slices together back to the payload's start, or to where the chain breaks.
#![tactic(auto)]

mod chain;
mod footer;
mod found;
mod keyframes;
mod link;
mod slice;

pub use chain::{Chain, ChainEnd, next_link, slice_start, slice_start_by};
pub use footer::{FOOTER_LENGTH, content_of, is_framed, status_of};
pub use found::{found_slices_are_found, near_found, original_is_found};
pub use keyframes::{any_frames_are_wider, keyframes_sort_last};
pub use link::Link;
pub use slice::{
    LinkFault, frame_slice_of, read_frame_slice, read_slice, slice_of, slice_read_is_slice,
};
