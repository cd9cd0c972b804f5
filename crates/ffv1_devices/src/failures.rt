//! How often a device has failed (own).

ghost use Rattle.std.specs.Prelude.{◌≡◌, true, IsFalse, is_err};
ghost use Rattle.ffv1_devices.specs.Streams.{tries_of, takes_none, IsBrokenRead, IsBrokenWrite, CountsTry};

use std::io;
use std::io::ErrorKind;

/// How many tries of a device failed, how many of these were not interrupted, and how many were interrupted in a row, after
/// the last try that was not.
#[derive(Clone, Copy)]
pub(crate) struct Failures {
    pub(crate) failed: u64,
    pub(crate) broken: u64,
    pub(crate) in_row: u64,
}

impl Failures {
    /// Counts one failure.
    fn count(&mut self, interrupted: bool)
        ensures { CountsTry true (IsFalse interrupted) (tries_of self.old) (tries_of self.new) }
    {
        self.failed = self.failed.saturating_add(1);
        if interrupted {
            self.in_row = self.in_row.saturating_add(1);
        } else {
            self.broken = self.broken.saturating_add(1);
            self.in_row = 0;
        }
    }

    /// Counts a try of reading.
    pub(crate) fn count_read(&mut self, outcome: &io::Result<usize>)
        ensures { CountsTry (is_err outcome.now) (IsBrokenRead outcome.now) (tries_of self.old) (tries_of self.new) }
    {
        match outcome {
            Ok(_) => self.in_row = 0,
            Err(error) => self.count(error.kind() == ErrorKind::Interrupted),
        }
    }

    /// Counts a try of writing these bytes, which failed where it took none of some.
    pub(crate) fn count_write(&mut self, outcome: &io::Result<usize>, buf: &[u8])
        ensures { CountsTry (takes_none outcome.now buf.now) (IsBrokenWrite outcome.now buf.now) (tries_of self.old) (tries_of self.new) }
    {
        match outcome {
            Ok(n) => {
                if *n == 0 && !buf.is_empty() {
                    self.count(false);
                } else {
                    self.in_row = 0;
                }
            }
            Err(error) => self.count(error.kind() == ErrorKind::Interrupted),
        }
    }
}

/// No try has failed yet.
pub(crate) const NONE_FAILED: Failures = Failures {
    failed: 0,
    broken: 0,
    in_row: 0,
};
