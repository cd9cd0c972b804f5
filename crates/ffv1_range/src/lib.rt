//! Range-coded values of FFV1 version 3, and the configuration record that says how its frames are coded
//! (RFC 9043, sections 3.8.1, 4.2 and 4.3).
#![tactic(auto)]

mod coding;
mod deltas;
mod fault;
mod fields;
mod frames;
mod grid;
mod head;
mod recorded;
mod recording;
mod scope;
mod scope_laws;
mod setup;
mod symbols;
mod tables;
mod transitions;

pub use coding::{RangeDecoder, RangeEnd, RangeFault};
pub use fault::SetupFault;
pub use frames::Frames;
pub use grid::{Grid, TileRect, each_place_in_one_tile, each_tile_in_frame};
pub use head::{
    HEAD_FIELDS, HeadFault, SliceHead, SliceHeader, SliceStart, heads_tile, read_frame_tile,
    read_head, read_head_fields, read_slice_head, read_tile,
};
pub use recorded::Recorded;
pub use recording::{
    Recording, one_recording_refusal, read_scoped, recording_in_profile, recording_is_in_version_3,
    recording_is_one,
};
pub use scope::Scope;
pub use scope_laws::{one_scoped_refusal, parities_are_of_ec_1};
pub use setup::{
    Setup, one_setup_refusal, recording_is_of_profile, setup_is_in_profile, setup_is_one,
    setup_is_recording,
};
pub use symbols::{signed_symbol_is_spelled, symbol_is_spelled};
pub use transitions::{Transitions, next_state};
