//! Any recording of version 3, made to measure: its record, and its frames one after the other, each read back before it is returned.
#![tactic(auto)]

mod asked;
mod coded;
mod fits;
mod headers;
mod maker;
mod range;
mod record;
mod sets;
mod slice;
mod spec;
mod states;
mod transitions;

pub use maker::Maker;
pub use record::make_recording_record;
pub use spec::{PictureSpec, RecordingSpec, SetSpec, SliceSpec};
