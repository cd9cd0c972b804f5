//! A copy of a file, read in the order of its stretches (own).
ghost use Rattle.std.specs.Prelude.{◌≡◌, ◌+◌, ◌≤◌, length, take};
ghost use Rattle.ffv1_devices.specs.Exact.{PassesOver};
ghost use Rattle.ffv1_stretches.specs.Copies.{state_of, unread};
ghost use Rattle.ffv1_stretches.specs.Inner.Copies.{ReadsCopy};

use ffv1_devices::{CutShort, NextFault, Source, pass_over, read_next};
use std::alloc::Global;

/// What stands between two stretches of a copy is passed over in blocks of so many bytes.
const BLOCK: usize = 8192;

/// A copy of a file, which is read from its start on, in the order of its stretches. The last one read is held.
#[derive(Drop)]
pub struct CopyReader<S> {
    source: S,
    /// Where the stretch that was read last begins, counted in bytes from the copy's start.
    place: u64,
    /// How many bytes it has.
    size: u64,
    /// What was read lies at its front.
    room: Vec<u8>,
}

impl<S: Source> CopyReader<S> {
    /// The copy with this source, of which nothing was read yet. No memory is taken.
    pub fn new(alloc: Global, source: S) -> CopyReader<S>
        ensures { state_of S.log result ≡ unread (S.log source) }
    {
        CopyReader {
            source,
            place: 0,
            size: 0,
            room: Vec::new(alloc),
        }
    }

    /// Reads the stretch at a place that is not before the end of the last one; what stands between them is let go.
    pub(crate) fn read(&mut self, place: u64, size: usize) -> Result<(), NextFault>
        requires { (state_of S.log self.old).end ≤ place }
        ensures { ReadsCopy place size result (state_of S.log self.old) (state_of S.log self.new) }
    {
        skip(&mut self.source, place - self.place - self.size)?;
        read_next(&mut self.source, size, &mut self.room)?;
        self.place = place;
        self.size = size as u64;
        Ok(())
    }

    /// The first bytes of the stretch that was read last, which has so many at least.
    pub(crate) fn front(&self, size: usize) -> &[u8]
        requires { size ≤ length self.now.room.items }
        ensures { result.now ≡ take size self.now.room.items }
    {
        &self.room.as_slice()[..size]
    }
}

/// Reads so many bytes, and lets them go.
fn skip<S: Source>(source: &mut S, count: u64) -> Result<(), CutShort>
    ensures { PassesOver count result (S.log source.old) (S.log source.new) }
{
    if count == 0 {
        return Ok(());
    }
    let mut block = [0u8; BLOCK];
    pass_over(source, count, &mut block)
}
