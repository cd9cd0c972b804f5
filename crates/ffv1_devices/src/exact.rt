//! Reads of just so many bytes (own).

ghost use Rattle.std.specs.Prelude.{◌≡◌, ◌+◌, ◌<◌, ◌≤◌, length, max, take, vec_len, IfOk};
ghost use Rattle.ffv1_devices.specs.Exact.{Fills, PassesOver, ReadsNext, GrowsAsRead, block};

use crate::reads::read_full;
use crate::streams::Source;
use std::alloc::AllocError;

/// Room for at least so many bytes is made at once.
const BLOCK: usize = 65536;

/// A source failed, or ended, before all bytes came.
#[derive(Clone, Copy, Debug, PartialEq, Eq)]
pub struct CutShort;

/// Why the next bytes did not come.
#[derive(Clone, Copy, Debug, PartialEq, Eq)]
pub enum NextFault {
    /// The source failed, or ended, before all of them came.
    Read,
    /// An allocation failed.
    Memory,
}

impl From<CutShort> for NextFault {
    ghost use Rattle.std.specs.Prelude.{◌≡◌};
    ghost use Rattle.ffv1_devices.specs.declared.exact.NextFault.TheVariants.{Read};

    ghost from_gives = { λ _ fault. fault ≡ Read };

    fn from(_short: CutShort) -> NextFault {
        NextFault::Read
    }
}

impl From<AllocError> for NextFault {
    ghost use Rattle.std.specs.Prelude.{◌≡◌};
    ghost use Rattle.ffv1_devices.specs.declared.exact.NextFault.TheVariants.{Memory};

    ghost from_gives = { λ _ fault. fault ≡ Memory };

    fn from(_refusal: AllocError) -> NextFault {
        NextFault::Memory
    }
}

/// Fills a buffer with the next bytes.
///
/// Returns `CutShort` if the source failed, or ended, before the buffer was full; then fewer bytes were read than it has.
pub fn fill<S: Source>(source: &mut S, buf: &mut [u8]) -> Result<(), CutShort>
    ensures { Fills (length buf.old) result buf.new (S.log source.old) (S.log source.new) }
{
    match read_full(source, buf) {
        Ok(count) if count == buf.len() => Ok(()),
        _ => Err(CutShort),
    }
}

/// Reads so many bytes, and lets them go. They pass through `room`, which has a byte at least, in blocks of its length.
///
/// Returns `CutShort` if the source failed, or ended, before that many came; then fewer bytes were read.
pub fn pass_over<S: Source>(source: &mut S, count: u64, room: &mut [u8]) -> Result<(), CutShort>
    requires { 0 < length room.old }
    ensures { PassesOver count result (S.log source.old) (S.log source.new) }
{
    let mut left = count;
    while left > 0 {
        let size = left.min(room.len() as u64) as usize;
        fill(source, &mut room[..size])?;
        left -= size as u64;
    }
    Ok(())
}

/// Makes room after the bytes that came, of so many in all, and returns where it ends. What lies there is used first; a growth is by
/// as many bytes as came, or by `BLOCK`, whichever is more. Memory is taken for all of them, though no more lie there than may come: so
/// the bytes need not move again where a little more is read the next time.
fn next_room(room: &mut Vec<u8>, filled: usize, size: usize) -> Result<usize, AllocError>
    requires some { filled < size }
    requires within { filled ≤ vec_len room.old }
    ensures end { IfOk result (λ end. (filled < end) × (end ≤ size) × (end ≤ vec_len room.new)) }
    ensures same { take filled room.new.items ≡ take filled room.old.items }
    ensures least { vec_len room.old ≤ vec_len room.new }
    ensures most { vec_len room.new ≤ max (vec_len room.old) size }
    ensures grown { vec_len room.new ≤ max (vec_len room.old) (filled + max filled block) }
{
    if room.len() == filled {
        let more = filled.max(BLOCK).min(size - filled);
        room.reserve_exact(filled.max(BLOCK))?;
        room.resize(filled + more, 0)?;
    }
    Ok(room.len().min(size))
}

/// Reads the next `size` bytes to the front of `room`. Its length stays where that is enough. Else it grows as the bytes come, never by
/// more than came so far or 65536 bytes, whichever is more, and to `size` at most: a size that is only claimed takes no memory. So
/// `grown` says, also after a fault: room that grew has at most as many bytes more than were read as were read, or 65536 more.
///
/// Returns `Read` if the source failed, or ended, before that many came, and `Memory` if an allocation fails; then fewer bytes were
/// read, and nothing is said of what `room` has.
pub fn read_next<S: Source>(
    source: &mut S,
    size: usize,
    room: &mut Vec<u8>,
) -> Result<(), NextFault>
    ensures read { ReadsNext size result room.new.items (S.log source.old) (S.log source.new) }
    ensures least { vec_len room.old ≤ vec_len room.new }
    ensures most { vec_len room.new ≤ max (vec_len room.old) size }
    ensures grown { GrowsAsRead (vec_len room.old) (vec_len room.new) (S.log source.old) (S.log source.new) }
{
    let mut filled = 0;
    while filled < size {
        let end = next_room(room, filled, size)?;
        fill(source, &mut room[filled..end])?;
        filled = end;
    }
    Ok(())
}
