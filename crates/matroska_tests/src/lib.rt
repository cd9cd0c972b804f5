//! Tests of what is read of a Matroska file: its elements, items, tracks and blocks, and of the lines that report what is wrong, each
//! call once and in its rows. The file is FFmpeg's, and the CRC-32 values are zlib's.
#![tactic(auto)]

#[cfg(test)]
mod blocks;
#[cfg(test)]
mod checks;
#[cfg(test)]
mod elements;
#[cfg(test)]
mod lines;
#[cfg(test)]
mod made;
#[cfg(test)]
mod pieces;
#[cfg(test)]
mod sources;
#[cfg(test)]
mod tracks;
