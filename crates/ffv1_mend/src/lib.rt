//! What becomes of one stretch of a file that copies have: one frame of FFV1; an element with a CRC-32 (RFC 8794, section 11.3.1), in which
//! frames of FFV1 and of FLAC lie as its parts; a Configuration Record of FFV1; one frame of FLAC; or bytes without a checksum.
#![tactic(auto)]

mod checked;
mod content;
mod distinct;
mod element;
mod frame;
mod improved;
mod kind;
mod laws;
mod mended;
mod mending;
mod part;
mod parts;
mod passing;
mod plain;
mod small;
mod state;

pub use frame::frame_state;
pub use kind::Kind;
pub use laws::{good_is_vouched, near_versions_mend, original_is_mended, same_versions_mend};
pub use mended::Mended;
pub use mending::mend;
pub use part::{MendedPart, Part, Sort};
pub use small::{good_is_the_original, notions_are_of_mends};
pub use state::State;
