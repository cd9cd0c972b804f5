//! Tests of the commands over files: which files each opens, in which order, and which it makes; and what the program
//! reports as it ends.
#![tactic(auto)]

#[cfg(test)]
mod fakes;
#[cfg(test)]
mod opened;
#[cfg(test)]
mod program;
#[cfg(test)]
mod reported;
