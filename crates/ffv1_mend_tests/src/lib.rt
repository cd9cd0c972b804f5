//! Tests of CRC-32, of weaving elements by it, and of mending stretches of a file, each call once and in its rows. The CRC-32 values are
//! zlib's.
#![tactic(auto)]

#[cfg(test)]
mod checked;
#[cfg(test)]
mod crc;
#[cfg(test)]
mod element;
#[cfg(test)]
mod elements;
#[cfg(test)]
mod frames;
#[cfg(test)]
mod places;
