//! What a Matroska file says of its tracks and its blocks (RFC 9559), and how frames are laced in blocks.
#![tactic(auto)]

mod block;
mod laces;
mod named;
mod record;
mod sizes;
mod sound;
mod track;

pub use block::{Block, Lacing, block_is_one, read_block};
pub use laces::{frames_are_one, frames_of};
pub use named::NamedTracks;
pub use record::{has_parities, is_flac, is_record_wrong, record_is_one, record_of};
pub use sound::is_right_flac;
pub use track::{Track, read_track, read_tracks, text_of};
