//! The files of a runtime (own), of which no contract can say the bytes.

use crate::files::{FileSystem, NewFiles};
use crate::made::MadeFile;
use ffv1_commands::CliFault;
use ffv1_devices::FromRead;
use ffv1_files::{InputFile, Opener, PathToOpen};
use std::alloc::Global;
use std::io;
use std::io::BufReader;
use std::rt::Files;

/// The files that a runtime opens.
#[derive(Drop)]
pub struct Disk<'a, R: Files> {
    rt: &'a R,
}

impl<'a, R: Files> Disk<'a, R> {
    /// The files of this runtime.
    pub fn new(rt: &'a R) -> Disk<'a, R> {
        Disk { rt }
    }
}

impl<'a, R: Files> FileSystem<'a> for Disk<'a, R> {
    ghost use Rattle.std.specs.Prelude.{None};
    ghost use Rattle.std.specs.Io.Buffered.{reader_inner};
    ghost use Rattle.ffv1_devices.specs.Streams.{reader_of};
    ghost use Rattle.ffv1_files.specs.Files.{IsUnopenedAt};
    ghost use Rattle.ffv1_program.specs.Openings.{OpensAt, FailsToOpenAt};

    type Device = FromRead<InputFile<'a, R>>;

    type Buffered = FromRead<BufReader<InputFile<'a, R>>>;

    ghost files = { λ _. record {
      bytes_at = λ _. None;
      is_device_at = λ path device. IsUnopenedAt (reader_of device) path;
      is_buffered_at = λ path device. IsUnopenedAt (reader_inner (reader_of device)) path;
      is_opened_at = λ path device. OpensAt ⟦<PathToOpen<'a, R> as Opener>⟧.opens path (reader_of device);
      cannot_open_at = λ path. FailsToOpenAt ⟦<PathToOpen<'a, R> as Opener>⟧.opens path;
    } };

    fn device(&self, path: &'a str) -> FromRead<InputFile<'a, R>> {
        FromRead::new(InputFile::new(self.rt, path))
    }

    fn opened(&self, path: &'a str) -> io::Result<FromRead<InputFile<'a, R>>> {
        let mut file = InputFile::new(self.rt, path);
        file.open()?;
        Ok(FromRead::new(file))
    }

    fn buffered(
        &self,
        alloc: Global,
        path: &'a str,
    ) -> Result<FromRead<BufReader<InputFile<'a, R>>>, CliFault> {
        match BufReader::new(alloc, InputFile::new(self.rt, path)) {
            Ok(reader) => Ok(FromRead::new(reader)),
            // It fails only if the buffer can't be allocated.
            Err(_) => Err(CliFault::Memory),
        }
    }
}

impl<'a, R: Files> NewFiles<'a> for Disk<'a, R> {
    type Made = MadeFile<'a, R>;

    fn unmade(&self, path: &'a str) -> MadeFile<'a, R> {
        MadeFile::new(self.rt, path)
    }
}
