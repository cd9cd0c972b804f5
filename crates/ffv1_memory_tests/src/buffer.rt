//! What is written without memory.
use ffv1_bits::remainder;
use std::io;
use std::io::{ErrorKind, Write};

/// The bytes that were written, of which there is room for 4096.
#[derive(Drop)]
pub struct Buffer {
    room: [u8; 4096],
    length: usize,
}

impl Buffer {
    /// No bytes.
    pub fn new() -> Buffer {
        Buffer {
            room: [0; 4096],
            length: 0,
        }
    }

    /// The bytes.
    pub fn bytes(&self) -> &[u8] {
        self.room.get(..self.length).unwrap_or(&[])
    }

    /// Whether nothing was written.
    pub fn is_empty(&self) -> bool {
        self.length == 0
    }

    /// Whether the bytes are a front of these, and not all of them.
    pub fn begins(&self, whole: &[u8]) -> bool {
        self.length < whole.len() && whole.get(..self.length) == Some(self.bytes())
    }

    /// The remainder of the bytes, by which they are compared.
    pub fn remainder(&self) -> u32 {
        remainder(self.bytes())
    }
}

impl Write for Buffer {
    fn write(&mut self, buf: &[u8]) -> io::Result<usize> {
        match self.room.get_mut(self.length) {
            Some(place) => match buf.first() {
                Some(first) => {
                    *place = *first;
                    self.length += 1;
                    Ok(1)
                }
                None => Ok(0),
            },
            None => Err(io::Error::from(ErrorKind::StorageFull)),
        }
    }

    fn flush(&mut self) -> io::Result<()> {
        Ok(())
    }
}
