//! Files by their paths, each opened when it is first used.
ghost use Rattle.std.specs.Prelude.{◌≡◌, None, IsOk};
ghost use Rattle.std.specs.Io.{ReadsAtMost, WritesAtMost};
ghost use Rattle.std.specs.Io.KnownBytes.{Keeps, ReadConsumes, WriteAppends};
ghost use Rattle.ffv1_files.specs.Once.{OpensOnce, ReadsOnce, WritesOnce};
ghost use Rattle.ffv1_files.specs.Files.{IsUnopenedAt, IsUnmadeAt};

use crate::once::{Once, Opener};
use crate::paths::{FilesByPath, PathToOpen, Way};
use std::io;
use std::io::{Read, Write};

/// A file that is opened at its first read, and closed at its end: however many inputs are read in turn, one is open. It is opened
/// once at most, since what opens it is used up by that.
#[derive(Drop)]
pub struct Input<O: Opener> {
    file: Once<O, O::File>,
}

impl<O: Opener> Input<O> {
    /// Opens the file, if it is neither open nor at its end: so that it is known to be there before it is read. An error is that of the
    /// opening, which can be tried again.
    pub fn open(&mut self) -> io::Result<()>
        ensures { OpensOnce O.opens self.old.file result self.new.file }
    {
        self.file.open()
    }
}

impl<O: Opener> Read for Input<O> {
    /// Reads from the file, which is opened if it is not opened yet, and closed at its end: after that it gives no bytes. An error
    /// is that of the opening, which can be tried again, or that of the read, after which the file stays open where it stood.
    fn read(&mut self, buf: &mut [u8]) -> io::Result<usize>
        ensures bound { ReadsAtMost result buf.new }
        ensures bytes { ReadConsumes None None result buf.new }
        ensures step { ReadsOnce O.opens O.File.reads self.old.file result buf.new self.new.file }
    {
        self.file.open()?;
        self.file.read_open(buf)
    }
}

/// A file at a path, which is read. No clause says which file it is and which bytes it has, since the contracts of std do not.
pub type InputFile<'a, R> = Input<PathToOpen<'a, R>>;

impl<'a, R: FilesByPath> Input<PathToOpen<'a, R>> {
    /// The file at this path, not opened yet: that comes with its first read, whose error it then is.
    pub fn new(rt: &'a R, path: &'a str) -> InputFile<'a, R>
        ensures path { IsUnopenedAt result path.now }
        ensures unopened { result.file ≡ Once.Unopened (record { rt = rt.entry; way = Way.ToRead; path = path.entry }) }
    {
        Input {
            file: Once::Unopened(PathToOpen {
                rt,
                way: Way::ToRead,
                path,
            }),
        }
    }
}

/// A file that is opened at its first write, and then stays open. It is opened once at most, since what opens it is used up by that.
#[derive(Drop)]
pub struct Output<O: Opener> {
    file: Once<O, O::File>,
}

impl<O: Opener> Output<O> {
    /// Opens the file, if it is not opened yet: so a file of no bytes is made, to which nothing is written. An error is that of the
    /// opening, which can be tried again.
    pub fn make(&mut self) -> io::Result<()>
        ensures { OpensOnce O.opens self.old.file result self.new.file }
    {
        self.file.open()
    }
}

impl<O: Opener> Write for Output<O> {
    /// Writes to the file, which is opened if it is not opened yet, and stays open: an interrupted write does not empty it. An error
    /// is that of the opening, which can be tried again, or that of the write.
    fn write(&mut self, buf: &[u8]) -> io::Result<usize>
        ensures bound { WritesAtMost result buf.now }
        ensures bytes { WriteAppends None None result buf.now }
        ensures step { WritesOnce O.opens O.File.writes self.old.file result buf.now self.new.file }
    {
        self.make()?;
        self.file.write_open(buf)
    }

    /// Does nothing: no bytes are held back.
    fn flush(&mut self) -> io::Result<()>
        ensures done { IsOk result }
        ensures unchanged { self.new ≡ self.old }
        ensures bytes { Keeps None None }
    {
        Ok(())
    }
}

/// A file at a path, which is made. One that is there is emptied. No clause says which file it is and which bytes reach it, since the
/// contracts of std do not.
pub type OutputFile<'a, R> = Output<PathToOpen<'a, R>>;

impl<'a, R: FilesByPath> Output<PathToOpen<'a, R>> {
    /// The file at this path, not made yet: that comes with its first write, whose error it then is, or with `make`.
    pub fn new(rt: &'a R, path: &'a str) -> OutputFile<'a, R>
        ensures path { IsUnmadeAt result path.now }
        ensures unmade { result.file ≡ Once.Unopened (record { rt = rt.entry; way = Way.ToMake; path = path.entry }) }
    {
        Output {
            file: Once::Unopened(PathToOpen {
                rt,
                way: Way::ToMake,
                path,
            }),
        }
    }
}
