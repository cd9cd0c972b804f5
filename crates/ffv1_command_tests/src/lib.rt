//! Tests of the public calls of holdings, their files and their pictures, and of the commands over readers and writers, with
//! devices that fail; of lists as text, and of the suite of made frames through all crates. Tests stand above the crates whose calls they make,
//! in crates of their own, so that none is proved a second time with its tests.
#![tactic(auto)]

#[cfg(test)]
mod between;
#[cfg(test)]
mod commands;
#[cfg(test)]
mod devices;
#[cfg(test)]
mod failing;
#[cfg(test)]
mod hold;
#[cfg(test)]
mod holding;
#[cfg(test)]
mod lists;
#[cfg(test)]
mod made;
#[cfg(test)]
mod mend;
#[cfg(test)]
mod merge;
#[cfg(test)]
mod picture;
#[cfg(test)]
mod reels;
#[cfg(test)]
mod rot;
#[cfg(test)]
mod splice;
#[cfg(test)]
mod streams;
#[cfg(test)]
mod suite;
#[cfg(test)]
mod uses;
