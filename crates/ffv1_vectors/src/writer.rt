//! Bits written one after the other, most significant first (RFC 9043, section 4): the other side of `Bits`.
//!
//! Nothing is promised of the bytes but what reading them back shows.

use std::alloc::{AllocError, Global};

/// Writes bits. The last byte is filled with zeros.
#[derive(Drop)]
pub(crate) struct BitWriter {
    bytes: Vec<u8>,
    /// How many bits are written.
    count: usize,
}

/// Some bits: the lowest of a number, the highest of them first.
#[derive(Clone, Copy)]
pub(crate) struct Word {
    pub(crate) number: u32,
    pub(crate) length: u32,
}

impl Word {
    /// The bits with zeros after them.
    pub(crate) fn bytes(self) -> [u8; 4] {
        let free = 32u32.saturating_sub(self.length);
        self.number.checked_shl(free).unwrap_or(0).to_be_bytes()
    }
}

impl BitWriter {
    /// A writer that has written nothing. It takes no memory.
    pub(crate) fn new(alloc: Global) -> BitWriter {
        BitWriter {
            bytes: Vec::new(alloc),
            count: 0,
        }
    }

    /// Writes the bits of a word.
    pub(crate) fn word(&mut self, word: Word) -> Result<(), AllocError> {
        for place in (0..word.length).rev() {
            let above = word.number.checked_shr(place).unwrap_or(0);
            self.bit(above & 1 == 1)?;
        }
        Ok(())
    }

    /// Writes one bit.
    fn bit(&mut self, bit: bool) -> Result<(), AllocError> {
        let used = self.count % 8;
        if used == 0 {
            self.bytes.push(0)?;
        }
        if let Some(last) = self.bytes.last_mut() {
            *last |= u8::from(bit) << (7 - used);
        }
        self.count = self.count.wrapping_add(1);
        Ok(())
    }

    /// The bytes that the bits make.
    pub(crate) fn into_bytes(self) -> Vec<u8> {
        self.bytes
    }
}
