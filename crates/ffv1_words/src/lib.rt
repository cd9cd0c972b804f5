//! The words of `ffv1restore`: each command with its own, and how they are read (own).
#![tactic(auto)]

mod any_word;
mod reading;
mod words;

pub use any_word::recordings_of_words;
pub use reading::read_words;
pub use words::{RecordingWords, Words};
