//! Tests of the stretches of a file: of the lists that name them, and of passes over copies with devices that fail.
#![tactic(auto)]

#[cfg(test)]
mod devices;
#[cfg(test)]
mod element;
#[cfg(test)]
mod faults;
#[cfg(test)]
mod lists;
#[cfg(test)]
mod pass;
#[cfg(test)]
mod rows;
