//! Devices that are read and written, and how often they failed (own).

ghost use Rattle.std.specs.Prelude.{◌≡◌};
ghost use Rattle.std.specs.Io.{ReadsAtMost, WritesAtMost};
ghost use Rattle.ffv1_devices.specs.Logs.{ReadLog, WriteLog};
ghost use Rattle.ffv1_devices.specs.Streams.{TriesRead, TriesWrite, tries_of, no_failures, reader_of, writer_of};

use crate::failures::{Failures, NONE_FAILED};
use std::io;
use std::io::{Read, Write};

/// What is read.
pub trait Source {
    ghost log: { Self → ReadLog };

    /// One try: returns how many bytes came to the front of `buf`. It may be interrupted; each error counts as a failure.
    fn read(&mut self, buf: &mut [u8]) -> io::Result<usize>
        ensures bound { ReadsAtMost result buf.new }
        ensures tried { TriesRead result buf.new (log self.old) (log self.new) };

    /// How many tries failed, interrupted ones among them: `u64::MAX` for that many or more.
    fn failures(&self) -> u64
        ensures { result ≡ (log self.now).tries.failures };

    /// How many of the tries that failed were not interrupted: `u64::MAX` for that many or more.
    fn broken(&self) -> u64
        ensures { result ≡ (log self.now).tries.broken };

    /// How many bytes were read: `u64::MAX` for that many or more.
    fn taken(&self) -> u64
        ensures { result ≡ (log self.now).taken };
}

/// What is written.
pub trait Sink {
    ghost log: { Self → WriteLog };

    /// One try: returns how many of the first bytes were taken. It may be interrupted; an error counts as a failure, and so
    /// does taking none of some bytes.
    fn write(&mut self, buf: &[u8]) -> io::Result<usize>
        ensures bound { WritesAtMost result buf.now }
        ensures tried { TriesWrite result buf.now (log self.old) (log self.new) };

    /// How many tries failed, interrupted ones among them: `u64::MAX` for that many or more.
    fn failures(&self) -> u64
        ensures { result ≡ (log self.now).tries.failures };

    /// How many of the tries that failed were not interrupted: `u64::MAX` for that many or more.
    fn broken(&self) -> u64
        ensures { result ≡ (log self.now).tries.broken };
}

/// A reader of std as a source, without a buffer.
#[derive(Drop)]
pub struct FromRead<R> {
    reader: R,
    failures: Failures,
    taken: u64,
}

impl<R: Read> FromRead<R> {
    /// The reader, with no failure and no byte counted yet.
    pub fn new(reader: R) -> FromRead<R>
        ensures reader { reader_of result ≡ reader }
        ensures log { ⟦<FromRead<R> as Source>⟧.log result ≡ record { remaining = R.remaining reader; tries = no_failures; taken = 0 } }
    {
        FromRead {
            reader,
            failures: NONE_FAILED,
            taken: 0,
        }
    }
}

impl<R: Read> Source for FromRead<R> {
    ghost log = { λ s. record { remaining = R.remaining s.reader; tries = tries_of s.failures; taken = s.taken } };

    fn read(&mut self, buf: &mut [u8]) -> io::Result<usize> {
        let result = self.reader.read(buf);
        self.failures.count_read(&result);
        if let Ok(n) = &result {
            self.taken = self.taken.saturating_add(*n as u64);
        }
        result
    }

    fn failures(&self) -> u64 {
        self.failures.failed
    }

    fn broken(&self) -> u64 {
        self.failures.broken
    }

    fn taken(&self) -> u64 {
        self.taken
    }
}

/// A writer of std as a sink, without a buffer.
#[derive(Drop)]
pub struct FromWrite<W> {
    writer: W,
    failures: Failures,
}

impl<W: Write> FromWrite<W> {
    /// The writer, with no failure counted yet.
    pub fn new(writer: W) -> FromWrite<W>
        ensures { ⟦<FromWrite<W> as Sink>⟧.log result ≡ record { contents = W.contents writer; tries = no_failures; reference = 0 } }
    {
        FromWrite {
            writer,
            failures: NONE_FAILED,
        }
    }

    /// The writer, with what was written to it.
    pub fn into_inner(self) -> W
        ensures { W.contents result ≡ (⟦<FromWrite<W> as Sink>⟧.log self).contents }
    {
        self.writer
    }
}

impl<W: Write> Sink for FromWrite<W> {
    ghost log = { λ s. record { contents = W.contents s.writer; tries = tries_of s.failures; reference = 0 } };

    fn write(&mut self, buf: &[u8]) -> io::Result<usize> {
        let result = self.writer.write(buf);
        self.failures.count_write(&result, buf);
        result
    }

    fn failures(&self) -> u64 {
        self.failures.failed
    }

    fn broken(&self) -> u64 {
        self.failures.broken
    }
}

/// A borrowed writer of std as a sink, without a buffer. The writer holds what was written when the borrow ends.
#[derive(Drop)]
pub struct ThroughWrite<'a, W> {
    writer: &'a mut W,
    failures: Failures,
}

impl<'a, W: Write> ThroughWrite<'a, W> {
    /// The writer, with no failure counted yet.
    pub fn new(writer: &'a mut W) -> ThroughWrite<'a, W>
        ensures writer { writer_of result ≡ writer.old }
        ensures log { ⟦<ThroughWrite<'a, W> as Sink>⟧.log result
            ≡ record { contents = W.contents writer.old; tries = no_failures; reference = writer.entry.ghost_name } }
    {
        ThroughWrite {
            writer,
            failures: NONE_FAILED,
        }
    }
}

impl<W: Write> Sink for ThroughWrite<'_, W> {
    ghost log = { λ s. record { contents = W.contents s.writer.now; tries = tries_of s.failures; reference = s.writer.ghost_name } };

    fn write(&mut self, buf: &[u8]) -> io::Result<usize> {
        let result = self.writer.write(buf);
        self.failures.count_write(&result, buf);
        result
    }

    fn failures(&self) -> u64 {
        self.failures.failed
    }

    fn broken(&self) -> u64 {
        self.failures.broken
    }
}
