//! The commands of the program over the files that their words name (own): which file each reads, with which numbers and in which
//! order, and which file it makes.
#![tactic(auto)]

mod checks;
mod command;
mod disk;
mod files;
mod frames;
mod holdings;
mod inputs;
mod made;
mod pictures;
mod program;
mod reporting;
mod stretches;

pub use command::{out_word, run};
pub use disk::Disk;
pub use files::{FileSystem, MakeFile, NewFiles};
pub use program::{report_early, run_program};
pub use reporting::{OUT_OF_MEMORY, command_line, early_line, end_status};
