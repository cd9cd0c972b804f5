//! Devices that fail, are interrupted, or take one byte at a time.
use ffv1_devices::{FromWrite, Sink};
use ffv1_test_frames::Narrow;
use std::alloc::Global;
use std::io;
use std::io::{ErrorKind, Read};

/// A reader of bytes that fails once they are read, with an error of this kind, so many times.
#[derive(Drop)]
pub(crate) struct Failing<'a> {
    pub(crate) bytes: &'a [u8],
    pub(crate) kind: ErrorKind,
    pub(crate) times: u32,
}

impl<'a> Read for Failing<'a> {
    fn read(&mut self, buf: &mut [u8]) -> io::Result<usize> {
        let mut left = self.bytes;
        let count = left.read(buf)?;
        self.bytes = left;
        if count == 0 && self.times > 0 {
            self.times -= 1;
            return Err(io::Error::from(self.kind));
        }
        Ok(count)
    }
}

/// A sink that takes so many bytes.
pub(crate) fn narrow_sink(alloc: Global, room: usize) -> FromWrite<Narrow> {
    FromWrite::new(Narrow::new(alloc, room, ErrorKind::Other))
}

/// Whether such a sink has taken so many bytes of these.
pub(crate) fn has_taken(sink: FromWrite<Narrow>, count: usize, bytes: &[u8]) -> bool {
    Some(sink.into_inner().bytes.as_slice()) == bytes.get(..count)
}

/// Whether such a sink has failed once, after it had taken so many bytes of these.
pub(crate) fn has_failed_after(sink: FromWrite<Narrow>, count: usize, bytes: &[u8]) -> bool {
    sink.failures() == 1 && has_taken(sink, count, bytes)
}
