//! Where a held slice lies (own).
ghost use Rattle.std.specs.Prelude.{◌≡◌};
ghost use Rattle.ffv1_holding.specs.SliceOrder.{entry_cmp};
ghost use Rattle.ffv1_holding.specs.Inner.PoolEntries.{slice_in, entry_in};

use std::cmp::Ordering;

/// A slice of a tile by its place in the bytes that it lies in.
#[derive(Clone, Copy, Default)]
pub(crate) struct PoolEntry {
    pub(crate) tile: usize,
    pub(crate) start: usize,
    pub(crate) length: usize,
}

impl PoolEntry {
    /// The slice, of the bytes that it lies in.
    pub(crate) fn slice<'a>(&self, bytes: &'a [u8]) -> &'a [u8]
        ensures { result.now ≡ slice_in bytes.now self.now }
    {
        let rest = &bytes[self.start.min(bytes.len())..];
        &rest[..self.length.min(rest.len())]
    }

    /// Its order and that of a slice of a tile: by tile, then by bytes.
    pub(crate) fn compare(&self, bytes: &[u8], tile: usize, slice: &[u8]) -> Ordering
        ensures { result ≡ entry_cmp (entry_in bytes.now self.now) (tile, slice.now) }
    {
        match self.tile.cmp(&tile) {
            Ordering::Equal => self.slice(bytes).cmp(slice),
            apart => apart,
        }
    }

    /// The order of its slice and that of another in the same bytes: by tile, then by bytes. Where both lie in the same
    /// place, no byte is looked at.
    pub(crate) fn compare_to(&self, bytes: &[u8], other: PoolEntry) -> Ordering
        ensures { result ≡ entry_cmp (entry_in bytes.now self.now) (entry_in bytes.now other) }
    {
        if self.start == other.start && self.length == other.length {
            return self.tile.cmp(&other.tile);
        }
        self.compare(bytes, other.tile, other.slice(bytes))
    }
}
