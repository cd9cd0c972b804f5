//! The parts of a Matroska file (RFC 9559), in order, and what the checks that each has say of it.
#![tactic(auto)]

mod blocks;
mod elements;
mod facts;
mod file_tracks;
mod files;
mod items;
mod masters;
mod openings;
mod parts;
mod payloads;
mod placed_tracks;
mod records;
mod top_elements;
mod tracks_search;

pub use elements::push_span;
pub use files::{FileParts, file_parts};
pub use openings::{crc32_by, opening_of};
pub use parts::{
    BlockPart, Closing, Crc32, Opening, Part, Payload, RecordPart, Span, Standing, TrackBlock,
};
pub use placed_tracks::PlacedTracks;
pub use top_elements::{TopElement, top_element};
pub use tracks_search::{FoundTracks, find_tracks};
