//! The slices that are held of one tile (own), lent by what holds them.
ghost use Rattle.std.specs.Prelude.{◌≡◌, ℕ, ◌<◌, List, length, map, slice_index_or};
ghost use Rattle.ffv1_slice.specs.Chain.{IsFramed};
ghost use Rattle.ffv1_holding.specs.Sets as set;
ghost use Rattle.ffv1_holding.specs.Inner.PoolEntries.{slice_in, IsShelf};
ghost use Rattle.ffv1_holding.specs.TileState.{status_of};

use crate::pool_entry::PoolEntry;
use ffv1_slice::status_of;
use std::marker::Model;

/// Distinct slices, in the order of their bytes.
#[derive(Drop)]
pub(crate) struct Shelf<'a> {
    bytes: &'a [u8],
    entries: &'a [PoolEntry],
}

impl<'a> Model for Shelf<'a> {
    ghost use Rattle.std.specs.Prelude.{map};
    ghost use Rattle.ffv1_holding.specs.Sets as set;
    ghost use Rattle.ffv1_holding.specs.SliceOrder.{bytes_cmp, coded_bytes};
    ghost use Rattle.ffv1_holding.specs.Inner.PoolEntries.{slice_in, IsShelf};

    ghost Value = { set.SetOf bytes_cmp };

    ghost coded = { set.code coded_bytes };

    ghost view = { λ a. set.from_list (map (slice_in a.bytes.now) a.entries.now) };

    ghost invariant = { λ a. IsShelf a.bytes.now a.entries.now };
}

impl<'a> Shelf<'a> {
    /// The slices of these entries, which lie in `bytes`.
    pub(crate) fn new(bytes: &'a [u8], entries: &'a [PoolEntry]) -> Shelf<'a>
        requires { IsShelf bytes.now entries.now }
        ensures { result ≡ set.from_list (map (slice_in bytes.now) entries.now) }
    {
        Shelf { bytes, entries }
    }

    /// How many slices there are.
    pub(crate) fn len(&self) -> usize
        ensures { result ≡ set.size self.now }
    {
        self.entries.len()
    }

    /// The slice at a place of the rising order, which counts from 0. `place` must be less than `len`.
    pub(crate) fn get(&self, place: usize) -> &'a [u8]
        requires { place < set.size self.now }
        ensures value { result.now ≡ slice_index_or (set.items self.now) place result.now }
        ensures framed { IsFramed result.now }
    {
        let entries = self.entries;
        entries[place].slice(self.bytes)
    }

    /// The error_status of the slice at a place. `place` must be less than `len`.
    pub(crate) fn status(&self, place: usize) -> u8
        requires { place < set.size self.now }
        ensures { (d : List ℕ) → result ≡ status_of (slice_index_or (set.items self.now) place d) }
    {
        status_of(self.get(place))
    }
}
