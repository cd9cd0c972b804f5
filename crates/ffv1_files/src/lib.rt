//! Files by their paths (own): one that is read is opened at its first read, and one that is made at its first write.
#![tactic(auto)]

mod files;
mod once;
mod paths;
#[cfg(test)]
mod tests;

pub use files::{InputFile, OutputFile};
pub use once::Opener;
pub use paths::{PathToOpen, Way};
