//! What is seen of a frame: its decoded samples, and what can be shown of a damaged holding, tile by tile.
#![tactic(auto)]

mod decoder;
mod drawing;
mod fault;
mod frame;
mod partial;
mod raw;

pub use decoder::{Decoder, faults_of_frames_are_one};
pub use drawing::draw_samples;
pub use fault::FrameFault;
pub use frame::Frame;
pub use partial::{Partial, TileOutcome, picture, tile_alone};
pub use raw::{WriteFault, write_raw};
