//! The file of a runtime that is made, as a sink (own).
ghost use Rattle.std.specs.Prelude.{IsTrue};
ghost use Rattle.ffv1_devices.specs.Streams.{CountsTry};
ghost use Rattle.ffv1_files.specs.Files.{IsUnmadeAt};
ghost use Rattle.ffv1_program.specs.Inner.Tries.{tries_counted};

use crate::files::MakeFile;
use ffv1_devices::{Sink, ThroughWrite};
use ffv1_files::{Opener, OutputFile, PathToOpen};
use std::io;
use std::rt::Files;

/// How many tries of writing failed, how many of these were not interrupted, and how many were interrupted in a row, after the last try that
/// was not.
#[derive(Clone, Copy)]
struct Counts {
    failed: u64,
    broken: u64,
    in_row: u64,
}

impl Counts {
    /// Counts a try: whether it failed, and whether that was no interruption.
    fn count(&mut self, failed: bool, broken: bool)
        ensures { CountsTry failed (IsTrue broken) (tries_counted self.old) (tries_counted self.new) }
    {
        if failed {
            self.failed = self.failed.saturating_add(1);
        }
        if broken {
            self.broken = self.broken.saturating_add(1);
        }
        self.in_row = if failed && !broken {
            self.in_row.saturating_add(1)
        } else {
            0
        };
    }
}

/// A file that is made at its first write, which counts how its tries went.
#[derive(Drop)]
pub struct MadeFile<'a, R: Files> {
    file: OutputFile<'a, R>,
    counts: Counts,
}

impl<'a, R: Files> MadeFile<'a, R> {
    /// The file at this path, not made yet, with no failure counted.
    pub(crate) fn new(rt: &'a R, path: &'a str) -> MadeFile<'a, R>
        ensures { IsUnmadeAt result.file path.now }
    {
        MadeFile {
            file: OutputFile::new(rt, path),
            counts: Counts {
                failed: 0,
                broken: 0,
                in_row: 0,
            },
        }
    }
}

impl<R: Files> Sink for MadeFile<'_, R> {
    ghost use Rattle.std.specs.Prelude.{None};
    ghost use Rattle.ffv1_program.specs.Inner.Tries.{tries_counted};

    ghost log = { λ made. record { contents = None; tries = tries_counted made.counts; reference = 0 } };

    fn write(&mut self, buf: &[u8]) -> io::Result<usize> {
        let mut sink = ThroughWrite::new(&mut self.file);
        let result = sink.write(buf);
        let (failed, broken) = (sink.failures() > 0, sink.broken() > 0);
        self.counts.count(failed, broken);
        result
    }

    fn failures(&self) -> u64 {
        self.counts.failed
    }

    fn broken(&self) -> u64 {
        self.counts.broken
    }
}

impl<'a, R: Files> MakeFile for MadeFile<'a, R> {
    ghost use Rattle.ffv1_files.specs.Files.{IsUnmadeAt, IsFileMade};
    ghost use Rattle.ffv1_program.specs.Openings.{FailsToMake};

    ghost is_unmade_at = { λ made path. IsUnmadeAt made.file path };

    ghost is_made = { λ made. IsFileMade made.file };

    ghost cannot_make = { λ made. FailsToMake ⟦<PathToOpen<'a, R> as Opener>⟧.opens made.file };

    fn make(&mut self) -> io::Result<()> {
        self.file.make()
    }
}
