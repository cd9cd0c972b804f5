//! A folder with one file, which notes what is done with it.
ghost use Rattle.std.specs.Io.{WritesAtMost};

use std::alloc::{Allocator, Global};
use std::cell::{Cell, RefCell};
use std::fs::{Metadata, OpenFile, OpenOptions};
use std::io;
use std::io::{ErrorKind, Read, Seek, SeekFrom, Write};
use std::rt::Files;

/// What the file does when it is read or written.
#[derive(Clone, Copy)]
pub enum Step {
    /// A read gives this byte.
    Byte(u8),
    /// A write takes at most so many bytes.
    Takes(usize),
    /// A read or a write fails.
    Fails(ErrorKind),
}

/// What was done with the file.
#[derive(Drop)]
pub struct Notes {
    opened: Cell<u32>,
    used: Cell<u32>,
    closed: Cell<u32>,
    taken: RefCell<Vec<u8>>,
    /// How many openings fail from here on.
    pub refusals: Cell<u32>,
}

/// Counts one more.
fn count(counter: &Cell<u32>) {
    counter.set(counter.get().saturating_add(1));
}

impl Notes {
    /// Nothing was done yet.
    pub fn new(alloc: Global) -> Notes {
        Notes {
            opened: Cell::new(0),
            used: Cell::new(0),
            closed: Cell::new(0),
            taken: RefCell::new(Vec::new(alloc)),
            refusals: Cell::new(0),
        }
    }

    /// How often the file was opened, read or written, and closed.
    pub fn counts(&self) -> (u32, u32, u32) {
        (self.opened.get(), self.used.get(), self.closed.get())
    }

    /// Whether the file took these bytes.
    pub fn has_taken(&self, bytes: &[u8]) -> bool {
        match self.taken.try_borrow() {
            Ok(taken) => taken.as_slice() == bytes,
            Err(_) => false,
        }
    }

    /// Notes bytes that the file took.
    fn take(&self, bytes: &[u8]) -> io::Result<usize>
        ensures { WritesAtMost result bytes.now }
    {
        let Ok(mut taken) = self.taken.try_borrow_mut() else {
            return Err(io::Error::from(ErrorKind::Other));
        };
        taken.extend_from_slice(bytes)?;
        Ok(bytes.len())
    }

    /// Refuses an opening, if one is to fail.
    fn refuse(&self) -> io::Result<()> {
        match self.refusals.get() {
            0 => Ok(()),
            left => {
                self.refusals.set(left - 1);
                Err(io::Error::from(ErrorKind::Interrupted))
            }
        }
    }
}

/// A folder with one file at a path, which is there to be read or to be made.
#[derive(Drop)]
pub struct Folder<'a> {
    notes: &'a Notes,
    path: &'a str,
    is_made: bool,
    steps: &'a [Step],
}

impl<'a> Folder<'a> {
    /// One whose file can be read, with its steps.
    pub fn to_read(notes: &'a Notes, path: &'a str, steps: &'a [Step]) -> Folder<'a> {
        Folder {
            notes,
            path,
            is_made: false,
            steps,
        }
    }

    /// One whose file can be made, with its steps.
    pub fn to_make(notes: &'a Notes, path: &'a str, steps: &'a [Step]) -> Folder<'a> {
        Folder {
            notes,
            path,
            is_made: true,
            steps,
        }
    }

    /// Whether a file is opened so as this one is to be.
    fn serves(&self, how: &OpenOptions, path: &str) -> bool {
        let is_made = how.asks_write() && how.asks_create() && how.asks_truncate();
        let is_read = how.asks_read() && !how.asks_write();
        path == self.path && if self.is_made { is_made } else { is_read }
    }
}

/// Its file, open, with the steps that are left.
pub struct Opened<'a> {
    notes: &'a Notes,
    steps: &'a [Step],
}

impl Drop for Opened<'_> {
    fn drop(self) {
        count(&self.notes.closed);
        let Opened { notes: _, steps: _ } = self;
    }
}

impl Opened<'_> {
    /// The next step.
    fn step(&mut self) -> Option<Step> {
        count(&self.notes.used);
        let (first, rest) = self.steps.split_first()?;
        self.steps = rest;
        Some(*first)
    }
}

impl Read for Opened<'_> {
    fn read(&mut self, buf: &mut [u8]) -> io::Result<usize> {
        let Some(first) = buf.first_mut() else {
            count(&self.notes.used);
            return Ok(0);
        };
        match self.step() {
            Some(Step::Byte(byte)) => {
                *first = byte;
                Ok(1)
            }
            Some(Step::Fails(kind)) => Err(io::Error::from(kind)),
            _ => Ok(0),
        }
    }
}

impl Write for Opened<'_> {
    fn write(&mut self, buf: &[u8]) -> io::Result<usize> {
        match self.step() {
            Some(Step::Takes(most)) => self.notes.take(&buf[..most.min(buf.len())]),
            Some(Step::Fails(kind)) => Err(io::Error::from(kind)),
            _ => Ok(0),
        }
    }

    fn flush(&mut self) -> io::Result<()> {
        Ok(())
    }
}

/// What calls return that no test makes.
fn not_asked<T: Drop>() -> io::Result<T> {
    Err(io::Error::from(ErrorKind::Unsupported))
}

impl Seek for Opened<'_> {
    fn seek(&mut self, _to: SeekFrom) -> io::Result<u64> {
        not_asked()
    }
}

impl OpenFile for Opened<'_> {
    fn metadata(&self) -> io::Result<Metadata> {
        not_asked()
    }

    fn set_len(&self, _size: u64) -> io::Result<()> {
        not_asked()
    }

    fn sync_all(&self) -> io::Result<()> {
        not_asked()
    }

    fn sync_data(&self) -> io::Result<()> {
        not_asked()
    }
}

impl<'a> Files for Folder<'a> {
    type File = Opened<'a>;

    type Dir = Opened<'a>;

    fn open_file(&self, how: &OpenOptions, path: &str) -> io::Result<Opened<'a>> {
        if !self.serves(how, path) {
            return Err(io::Error::from(ErrorKind::NotFound));
        }
        self.notes.refuse()?;
        count(&self.notes.opened);
        Ok(Opened {
            notes: self.notes,
            steps: self.steps,
        })
    }

    fn open_dir(&self, _path: &str) -> io::Result<Opened<'a>> {
        not_asked()
    }

    fn metadata(&self, _path: &str) -> io::Result<Metadata> {
        not_asked()
    }

    fn symlink_metadata(&self, _path: &str) -> io::Result<Metadata> {
        not_asked()
    }

    fn copy(&self, _from: &str, _to: &str) -> io::Result<u64> {
        not_asked()
    }

    fn rename(&self, _from: &str, _to: &str) -> io::Result<()> {
        not_asked()
    }

    fn remove_file(&self, _path: &str) -> io::Result<()> {
        not_asked()
    }

    fn create_dir(&self, _path: &str) -> io::Result<()> {
        not_asked()
    }

    fn remove_dir(&self, _path: &str) -> io::Result<()> {
        not_asked()
    }

    fn remove_dir_all<B: Allocator>(&self, _alloc: B, _path: &str) -> io::Result<()> {
        not_asked()
    }
}
