//! A writer that fails.
use std::alloc::Global;
use std::io;
use std::io::{ErrorKind, Write};

/// A writer that takes one byte at a time, so many in all, and then fails with an error of this kind.
#[derive(Drop)]
pub struct Narrow {
    /// How many bytes it still takes.
    pub room: usize,
    /// The kind of its error.
    pub kind: ErrorKind,
    /// What it has taken.
    pub bytes: Vec<u8>,
}

impl Narrow {
    /// One that has taken nothing.
    pub fn new(alloc: Global, room: usize, kind: ErrorKind) -> Narrow {
        Narrow {
            room,
            kind,
            bytes: Vec::new(alloc),
        }
    }
}

impl Write for Narrow {
    fn write(&mut self, buf: &[u8]) -> io::Result<usize> {
        if self.room == 0 {
            return Err(io::Error::from(self.kind));
        }
        let Some(first) = buf.first() else {
            return Ok(0);
        };
        self.bytes.push(*first)?;
        self.room -= 1;
        Ok(1)
    }

    fn flush(&mut self) -> io::Result<()> {
        Ok(())
    }
}
