//! The rows that a pool holds (own).
ghost use Rattle.std.specs.Prelude.{◌≡◌, ℕ, ◌+◌, ◌<◌, ◌≤◌, true, [], length, map, slice_index_or, vec_len, vec_capacity, OnOk};
ghost use Rattle.ffv1_holding.specs.Sets as set;
ghost use Rattle.ffv1_holding.specs.SliceOrder.{entry_cmp, origin_cmp};
ghost use Rattle.ffv1_holding.specs.Inner.PoolEntries.{entry_in, IsPool};
ghost use Rattle.ffv1_holding.specs.Contents.{AreHeld};
ghost use Rattle.ffv1_holding.specs.Inner.Rows.{rows_in, IsRows, fresh_rows_in, AreFreshRows, AreOwnersMoved};

use crate::fresh::{Fresh, place_near, spread};
use crate::pool_entry::PoolEntry;
use crate::rows::{FreshRows, Rows};
use std::alloc::{AllocError, Global};

/// The owners and digests of rows, whose slices lie in a pool's bytes.
#[derive(Drop)]
pub(crate) struct HeldRows {
    /// The entry of each row's slice. Bytes never move, so it stays the entry of that slice.
    owners: Vec<PoolEntry>,
    /// The digest of each row.
    digests: Vec<[u8; 32]>,
}

impl HeldRows {
    /// No rows.
    pub(crate) fn new(alloc: Global) -> HeldRows
        ensures owners { result.owners.items ≡ [] }
        ensures digests { result.digests.items ≡ [] }
    {
        HeldRows {
            owners: Vec::new(alloc),
            digests: Vec::new(alloc),
        }
    }

    /// The rows, with the bytes in which their slices lie.
    pub(crate) fn lent<'a>(&'a self, bytes: &'a [u8]) -> Rows<'a>
        ensures bytes { result.bytes.now ≡ bytes.now }
        ensures owners { result.owners.now ≡ self.now.owners.items }
        ensures digests { result.digests.now ≡ self.now.digests.items }
    {
        Rows {
            bytes,
            owners: &self.owners,
            digests: &self.digests,
        }
    }

    /// Makes room for new rows. After a refusal there may be room for their owners.
    pub(crate) fn make_room(&mut self, fresh: &FreshRows) -> Result<(), AllocError>
        ensures owners { self.new.owners.items ≡ self.old.owners.items }
        ensures digests { self.new.digests.items ≡ self.old.digests.items }
        ensures for_owners { OnOk result (vec_len self.new.owners + length fresh.now.owners.items ≤ vec_capacity self.new.owners) }
        ensures for_digests { OnOk result (vec_len self.new.digests + length fresh.now.digests.items ≤ vec_capacity self.new.digests) }
    {
        self.owners.reserve(fresh.owners.len())?;
        self.digests.reserve(fresh.digests.len())
    }

    /// Puts new rows, whose owners' slices lie in `from`, among the others, with the entries of the same slices in `bytes`
    /// as their owners. Each of these slices has to be there, and there has to be room.
    pub(crate) fn put(
        &mut self,
        from: &[u8],
        bytes: &[u8],
        entries: &[PoolEntry],
        fresh: &mut FreshRows,
    )
        requires pool { IsPool bytes.now entries.now }
        requires rows { IsRows bytes.now self.old.owners.items self.old.digests.items }
        requires fresh { AreFreshRows (rows_in bytes.now self.old.owners.items self.old.digests.items) from.now fresh.old.owners.items fresh.old.digests.items }
        requires held { AreHeld (set.from_list (map (entry_in bytes.now) entries.now))
            (set.from_list (fresh_rows_in from.now fresh.old.owners.items fresh.old.digests.items)) }
        requires room { vec_len self.old.owners + length fresh.old.owners.items ≤ vec_capacity self.old.owners }
        requires places { vec_len self.old.digests + length fresh.old.digests.items ≤ vec_capacity self.old.digests }
        ensures rows { IsRows bytes.now self.new.owners.items self.new.digests.items }
        ensures origins { set.from_list {R = origin_cmp} (rows_in bytes.now self.new.owners.items self.new.digests.items)
            ≡ set.union (set.from_list (rows_in bytes.now self.old.owners.items self.old.digests.items))
            (set.from_list (fresh_rows_in from.now fresh.old.owners.items fresh.old.digests.items)) }
    {
        settle(from, bytes, entries, &mut fresh.owners);
        spread(&mut self.owners, &fresh.owners);
        spread(&mut self.digests, &fresh.digests);
    }
}

/// Puts in place of new owners, whose slices lie in `from`, the entries of the same slices, which all have to be there. Where rows
/// stand as entries do, an owner's entry is where its row goes.
fn settle(from: &[u8], bytes: &[u8], entries: &[PoolEntry], owners: &mut [Fresh<PoolEntry>])
    requires pool { IsPool bytes.now entries.now }
    requires held { (i : ℕ) (d : Fresh PoolEntry) → i < length owners.old
        → set.contains (set.from_list {R = entry_cmp} (map (entry_in bytes.now) entries.now)) (entry_in from.now (slice_index_or owners.old i d).item) ≡ true }
    ensures { AreOwnersMoved from.now bytes.now owners.old owners.new }
{
    for index in 0..owners.len() {
        let Fresh { place, item } = owners[index];
        let near = place.saturating_add(index);
        if let Ok(at) = place_near(bytes, entries, near, item.tile, item.slice(from)) {
            owners[index] = Fresh {
                place,
                item: entries[at],
            };
        }
    }
}
