//! Lists as text (own): lines, words, numbers. A text has one reading, which no memory is taken for but for a list of words.
#![tactic(auto)]

mod laws;
mod lines;
mod numbers;
mod parts;
mod words;

pub use laws::{one_reading_of_lines, one_reading_of_words};
pub use lines::first_line;
pub use numbers::read_number;
pub use parts::split_at_byte;
pub use words::words_of;
