//! What `ffv1restore` prints of itself (own): its help and its version.
#![tactic(auto)]

mod printing;
mod texts;

pub use printing::{print_help, print_version, run_help, run_version};
