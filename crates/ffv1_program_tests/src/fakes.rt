//! Files that note in which order they are opened and made. The path of each is a digit: that of 0 is not there, and can't be made.
ghost use Rattle.std.specs.Prelude.{◌≡◌, ◌⊎◌, IfOk, IfErr, true, false, codes, if◌then◌else◌};
ghost use Rattle.std.specs.Str.{bytes_eq};

use ffv1_commands::CliFault;
use ffv1_devices::{FromRead, Sink};
use ffv1_program::{FileSystem, MakeFile, NewFiles};
use std::alloc::Global;
use std::cell::Cell;
use std::io;
use std::io::{BufReader, ErrorKind, Read};

/// The paths of the files that were opened and made, in their order: the digits of a number.
#[derive(Drop)]
pub(crate) struct Order {
    number: Cell<u32>,
}

impl Order {
    /// Of no files.
    pub(crate) fn new() -> Order {
        Order {
            number: Cell::new(0),
        }
    }

    /// The number.
    pub(crate) fn number(&self) -> u32 {
        self.number.get()
    }

    /// Adds a file of this path, which fails for that of 0, and for no path.
    fn add(&self, path: &str) -> io::Result<()>
        ensures { IfErr result (λ _. (path.now ≡ codes "0") ⊎ (path.now ≡ codes "")) }
    {
        if path == "0" || path == "" {
            return Err(io::Error::from(ErrorKind::NotFound));
        }
        let digit = path.parse::<u8>().unwrap_or(0);
        let number = self.number.get().wrapping_mul(10);
        self.number.set(number.wrapping_add(u32::from(digit)));
        Ok(())
    }
}

/// Files that are read: the one of the path 1 has bytes of its own, and all others have the same.
#[derive(Drop)]
pub(crate) struct Fakes<'a> {
    pub(crate) order: &'a Order,
    pub(crate) first: &'a [u8],
    pub(crate) others: &'a [u8],
}

/// A file that is read.
#[derive(Drop)]
pub(crate) struct FakeInput<'a> {
    order: &'a Order,
    path: &'a str,
    left: &'a [u8],
    is_open: bool,
}

impl Read for FakeInput<'_> {
    ghost use Rattle.std.specs.Prelude.{Some};

    ghost remaining = { λ file. Some file.left.now };

    fn read(&mut self, buf: &mut [u8]) -> io::Result<usize> {
        self.open()?;
        let mut left = self.left;
        let count = left.read(buf)?;
        self.left = left;
        Ok(count)
    }
}

impl FakeInput<'_> {
    /// Opens the file, if it is not open yet.
    fn open(&mut self) -> io::Result<()>
        ensures left { self.new.left ≡ self.old.left }
        ensures path { self.new.path ≡ self.old.path }
        ensures opened { IfOk result (λ _. self.new.is_open ≡ true) }
        ensures failed { IfErr result (λ _. (self.old.path.now ≡ codes "0") ⊎ (self.old.path.now ≡ codes "")) }
    {
        if !self.is_open {
            self.order.add(self.path)?;
            self.is_open = true;
        }
        Ok(())
    }
}

impl<'a> Fakes<'a> {
    /// The file of this path, not opened yet.
    fn input(&self, path: &'a str) -> FakeInput<'a>
        ensures path { result.path.now ≡ path.now }
        ensures left { result.left.now ≡ (if bytes_eq path.now (codes "1") then self.now.first.now else self.now.others.now) }
    {
        FakeInput {
            order: self.order,
            path,
            left: if path == "1" { self.first } else { self.others },
            is_open: false,
        }
    }
}

impl<'a> FileSystem<'a> for Fakes<'a> {
    ghost use Rattle.std.specs.Prelude.{◌≡◌, ◌⊎◌, Some, true, codes, if◌then◌else◌};
    ghost use Rattle.std.specs.Str.{bytes_eq};
    ghost use Rattle.std.specs.Io.Buffered.{reader_inner};
    ghost use Rattle.ffv1_devices.specs.Streams.{reader_of};

    type Device = FromRead<FakeInput<'a>>;

    type Buffered = FromRead<BufReader<FakeInput<'a>>>;

    ghost files = { λ files. record {
      bytes_at = λ path. Some (if bytes_eq path (codes "1") then files.first.now else files.others.now);
      is_device_at = λ path device. (reader_of device).path.now ≡ path;
      is_buffered_at = λ path device. (reader_inner (reader_of device)).path.now ≡ path;
      is_opened_at = λ path device. ((reader_of device).path.now ≡ path) × ((reader_of device).is_open ≡ true);
      cannot_open_at = λ path. (path ≡ codes "0") ⊎ (path ≡ codes "");
    } };

    fn device(&self, path: &'a str) -> FromRead<FakeInput<'a>> {
        FromRead::new(self.input(path))
    }

    fn opened(&self, path: &'a str) -> io::Result<FromRead<FakeInput<'a>>> {
        let mut input = self.input(path);
        input.open()?;
        Ok(FromRead::new(input))
    }

    fn buffered(
        &self,
        alloc: Global,
        path: &'a str,
    ) -> Result<FromRead<BufReader<FakeInput<'a>>>, CliFault> {
        match BufReader::new(alloc, self.input(path)) {
            Ok(reader) => Ok(FromRead::new(reader)),
            Err(_) => Err(CliFault::Memory),
        }
    }
}

impl<'a> NewFiles<'a> for Fakes<'a> {
    type Made = FakeOutput<'a>;

    fn unmade(&self, path: &'a str) -> FakeOutput<'a> {
        FakeOutput::new(self.order, path)
    }
}

/// A file that is made.
#[derive(Drop)]
pub(crate) struct FakeOutput<'a> {
    order: &'a Order,
    path: &'a str,
    is_made: bool,
    failed: u64,
}

impl<'a> FakeOutput<'a> {
    /// The file of this path, not made yet.
    pub(crate) fn new(order: &'a Order, path: &'a str) -> FakeOutput<'a>
        ensures { ⟦<FakeOutput<'a> as MakeFile>⟧.is_unmade_at result path.now }
    {
        FakeOutput {
            order,
            path,
            is_made: false,
            failed: 0,
        }
    }

    /// Makes the file, if it is not made yet.
    fn open(&mut self) -> io::Result<()>
        ensures counted { self.new.failed ≡ self.old.failed }
        ensures made { IfOk result (λ _. self.new.is_made ≡ true) }
        ensures failed { IfErr result (λ _. self.new.is_made ≡ false) }
    {
        if !self.is_made {
            self.order.add(self.path)?;
            self.is_made = true;
        }
        Ok(())
    }
}

impl Sink for FakeOutput<'_> {
    ghost use Rattle.std.specs.Prelude.{None};

    ghost log = { λ file. record { contents = None; tries = record { failures = file.failed; broken = file.failed; in_row = 0 }; reference = 0 } };

    fn write(&mut self, buf: &[u8]) -> io::Result<usize> {
        match self.open() {
            Ok(()) => Ok(buf.len()),
            Err(_) => {
                self.failed = self.failed.saturating_add(1);
                Err(io::Error::from(ErrorKind::NotFound))
            }
        }
    }

    fn failures(&self) -> u64 {
        self.failed
    }

    fn broken(&self) -> u64 {
        self.failed
    }
}

impl MakeFile for FakeOutput<'_> {
    ghost use Rattle.std.specs.Prelude.{◌≡◌, true, false};

    ghost is_unmade_at = { λ file path. (file.path.now ≡ path) × (file.is_made ≡ false) };

    ghost is_made = { λ file. file.is_made ≡ true };

    ghost cannot_make = { λ file. file.is_made ≡ false };

    fn make(&mut self) -> io::Result<()> {
        self.open()
    }
}
