//! Tests of the public calls that read and make bits, codes, records, slices, tiles and frames, and weave, vote on and repair slices: worked
//! rows, recorded frames, made ones, and the greatest.
#![tactic(auto)]

#[cfg(test)]
mod bits;
#[cfg(test)]
mod colors;
#[cfg(test)]
mod flac;
#[cfg(test)]
mod frames;
#[cfg(test)]
mod grid;
#[cfg(test)]
mod larger;
#[cfg(test)]
mod parity;
#[cfg(test)]
mod plane;
#[cfg(test)]
mod range;
#[cfg(test)]
mod range_planes;
#[cfg(test)]
mod recorded;
#[cfg(test)]
mod recordings;
#[cfg(test)]
mod records;
#[cfg(test)]
mod repair;
#[cfg(test)]
mod rice;
#[cfg(test)]
mod slice;
#[cfg(test)]
mod vote;
#[cfg(test)]
mod weave;
