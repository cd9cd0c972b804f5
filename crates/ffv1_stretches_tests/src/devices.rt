//! Devices that move one byte at a time, and may fail.
use ffv1_devices::FromWrite;
use ffv1_test_frames::Narrow;
use std::alloc::Global;
use std::io;
use std::io::{ErrorKind, Read};

/// A reader of bytes, one at a time. After them it ends or fails.
#[derive(Drop)]
pub(crate) struct Input<'a> {
    bytes: &'a [u8],
    fails: bool,
}

impl<'a> Input<'a> {
    /// One that ends after these bytes.
    pub(crate) fn ending(bytes: &'a [u8]) -> Input<'a> {
        Input {
            bytes,
            fails: false,
        }
    }

    /// One that fails after these bytes.
    pub(crate) fn failing(bytes: &'a [u8]) -> Input<'a> {
        Input { bytes, fails: true }
    }
}

impl<'a> Read for Input<'a> {
    fn read(&mut self, buf: &mut [u8]) -> io::Result<usize> {
        let most = buf.len().min(1);
        let mut left = self.bytes;
        let count = left.read(&mut buf[..most])?;
        self.bytes = left;
        if count == 0 && self.fails {
            return Err(io::Error::from(ErrorKind::Other));
        }
        Ok(count)
    }
}

/// A sink that takes one byte at a time, so many in all, and then fails.
pub(crate) fn narrow_sink(alloc: Global, room: usize) -> FromWrite<Narrow> {
    FromWrite::new(Narrow::new(alloc, room, ErrorKind::StorageFull))
}
