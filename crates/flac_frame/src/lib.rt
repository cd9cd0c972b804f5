//! Frames of FLAC, the sound that many recordings have beside their video, and their two checks (RFC 9639, section 9).
#![tactic(auto)]

mod crc;
mod frame;

pub use frame::{burst_seen_by_crc16, passes_flac};
