//! Files that are opened once.
ghost use Rattle.std.specs.Prelude.{◌≡◌, ℕ, List, Result, Ok, Err, IfOk, IfErr};
ghost use Rattle.std.specs.declared.io.Error.{Error};
ghost use Rattle.std.specs.Io.{ReadsAtMost, WritesAtMost};
ghost use Rattle.std.specs.Io.KnownBytes.{ReadConsumes, WriteAppends};
ghost use Rattle.ffv1_files.specs.Once.{OpensOnce, ReadsOpen, WritesOpen, reports_end};

use std::io::{Read, Write};
use std::{io, mem};

/// What opens a file, once: it is used up by that.
pub trait Opener: Drop {
    /// The file that is opened.
    type File: OpenedFile;

    // what an opening may come to
    ghost opens: { Self → Result Self.File Error → Type 0 };

    /// Opens the file. Where that fails, it gives the error, and what opens the file as it was.
    fn open(self) -> Result<Self::File, NotOpened<Self>>
    where
        Self: Sized,
        ensures opened { IfOk result (λ file. opens self (Ok file)) }
        ensures failed { IfErr result (λ failure. opens self (Err failure.error)) }
        ensures kept { IfErr result (λ failure. failure.opener ≡ self) };
}

/// Why a file was not opened, and what opens it.
#[derive(Drop)]
pub struct NotOpened<O> {
    pub error: io::Error,
    pub opener: O,
}

/// An open file.
pub trait OpenedFile: Drop {
    // what a read may come to: its result, what the buffer has then, and the file after it
    ghost reads: { Self → Result ℕ Error → List ℕ → Self → Type 0 };

    // what a write of bytes may come to: its result, and the file after it
    ghost writes: { Self → Result ℕ Error → List ℕ → Self → Type 0 };

    /// One read: returns how many bytes came to the front of `buf`.
    fn read_once(&mut self, buf: &mut [u8]) -> io::Result<usize>
        ensures bound { ReadsAtMost result buf.new }
        ensures step { reads self.old result buf.new self.new };

    /// One write: returns how many of the first bytes were taken.
    fn write_once(&mut self, buf: &[u8]) -> io::Result<usize>
        ensures bound { WritesAtMost result buf.now }
        ensures step { writes self.old result buf.now self.new };
}

/// A file of std. No clause says which error a read or a write gives, nor that it fails only where the file does, since the contracts of
/// std do not.
impl<F: Read + Write + Drop> OpenedFile for F {
    ghost reads = { λ old result buf new. ReadConsumes (F.remaining old) (F.remaining new) result buf };

    ghost writes = { λ old result buf new. WriteAppends (F.contents old) (F.contents new) result buf };

    fn read_once(&mut self, buf: &mut [u8]) -> io::Result<usize> {
        self.read(buf)
    }

    fn write_once(&mut self, buf: &[u8]) -> io::Result<usize> {
        self.write(buf)
    }
}

/// A file that is opened once, when it is first used.
#[derive(Drop)]
pub enum Once<O, F> {
    /// It is not opened yet.
    Unopened(O),
    /// It is open.
    Open(F),
    /// It was closed, and is not opened again.
    Closed,
}

/// Whether a read reached the end of the file: no byte came to a buffer that has room.
fn reports_end(read: &io::Result<usize>, buf: &[u8]) -> bool
    ensures { result ≡ reports_end read.now buf.now }
{
    matches!(read, Ok(0)) && !buf.is_empty()
}

impl<O: Opener> Once<O, O::File> {
    /// Opens the file, if it is neither open nor closed. Where that fails, it stays as it was, and the error is that of the opening.
    pub(crate) fn open(&mut self) -> io::Result<()>
        ensures { OpensOnce O.opens self.old result self.new }
    {
        match mem::replace(self, Once::Closed) {
            Once::Unopened(opener) => match opener.open() {
                Ok(file) => {
                    *self = Once::Open(file);
                    Ok(())
                }
                Err(failure) => {
                    *self = Once::Unopened(failure.opener);
                    Err(failure.error)
                }
            },
            Once::Open(file) => {
                *self = Once::Open(file);
                Ok(())
            }
            Once::Closed => Ok(()),
        }
    }

    /// Reads from the file if it is open, and closes it at its end. After an error it stays open. One that is not open gives no
    /// bytes, and stays as it is.
    pub(crate) fn read_open(&mut self, buf: &mut [u8]) -> io::Result<usize>
        ensures bound { ReadsAtMost result buf.new }
        ensures step { ReadsOpen O.File.reads self.old result buf.new self.new }
    {
        let Once::Open(file) = self else {
            return Ok(0);
        };
        let read = file.read_once(buf);
        if reports_end(&read, buf) {
            *self = Once::Closed;
        }
        read
    }

    /// Writes to the file if it is open, and leaves it open. One that is not open takes nothing, and stays as it is.
    pub(crate) fn write_open(&mut self, buf: &[u8]) -> io::Result<usize>
        ensures bound { WritesAtMost result buf.now }
        ensures step { WritesOpen O.File.writes self.old result buf.now self.new }
    {
        match self {
            Once::Open(file) => file.write_once(buf),
            _ => Ok(0),
        }
    }
}
