//! The slices that are held of all tiles (own), in one block of memory.
ghost use Rattle.std.specs.Prelude.{◌≡◌, ℕ, ◌+◌, ◌<◌, ◌≤◌, true, false, List, length, map, replicate, sum_by, slice_index_or, vec_len, vec_capacity, IfSome, IfNone, IfOk, OnOk, OnErr};
ghost use Rattle.std.specs.List.Sorted.{IsNonDecreasingBy};
ghost use Rattle.sha2.specs.Sha256.{sha256};
ghost use Rattle.ffv1_slice.specs.Chain.{IsFramed};
ghost use Rattle.ffv1_holding.specs.Sets as set;
ghost use Rattle.ffv1_holding.specs.Inner.TileSets.{with_more, with_tile_entry};
ghost use Rattle.ffv1_holding.specs.TileSets.{tile_slices, digests_in};
ghost use Rattle.ffv1_holding.specs.Contents.{AreHeld, AreDigests};
ghost use Rattle.ffv1_holding.specs.Inner.PoolEntries.{entry_in, IsPool, IsTilePart};
ghost use Rattle.ffv1_holding.specs.Inner.Rows.{rows_of, AreRows};

use crate::fault::HoldFault;
use crate::fresh::{Fresh, fresh_among, place_of, put_slices, room_of};
use crate::held_rows::HeldRows;
use crate::pool_entry::PoolEntry;
use crate::rows::{Rows, digests_of, fresh_rows};
use crate::shelf::Shelf;
use sha2::{Digest, Sha256};
use std::alloc::{AllocError, Global};
use std::marker::Model;

/// Slices of tiles: their bytes, one after the other as they came, and their entries, which rise by tile and then by
/// bytes. Beside them rows say which copies gave them.
#[derive(Drop)]
pub(crate) struct Pool {
    tiles: usize,
    bytes: Vec<u8>,
    entries: Vec<PoolEntry>,
    /// Which copies gave each slice.
    rows: HeldRows,
    alloc: Global,
}

impl Model for Pool {
    ghost use Rattle.ffv1_holding.specs.Inner.TileSets.{TileSlices, coded_tile_slices};

    ghost Value = { TileSlices };

    ghost coded = { coded_tile_slices };

    ghost use Rattle.std.specs.Prelude.{map};
    ghost use Rattle.ffv1_holding.specs.Sets as set;
    ghost use Rattle.ffv1_holding.specs.Inner.PoolEntries.{entry_in};
    ghost use Rattle.ffv1_holding.specs.Inner.Rows.{rows_in, IsStock};

    ghost view = { λ a. record {
      tiles = a.tiles;
      slices = set.from_list (map (entry_in a.bytes.items) a.entries.items);
      origins = set.from_list (rows_in a.bytes.items a.rows.owners.items a.rows.digests.items);
    } };

    ghost invariant = { λ a. IsStock a.bytes.items a.entries.items a.rows.owners.items a.rows.digests.items };
}

impl Pool {
    /// No slices of so many tiles, with room for an entry of each.
    pub(crate) fn new(alloc: Global, tiles: usize) -> Result<Pool, AllocError>
        ensures { IfOk result (λ h. h ≡ record { tiles = tiles; slices = set.empty; origins = set.empty }) }
    {
        Ok(Pool {
            tiles,
            bytes: Vec::new(alloc),
            entries: Vec::with_capacity(alloc, tiles)?,
            rows: HeldRows::new(alloc),
            alloc,
        })
    }

    /// The allocator of its memory.
    pub(crate) fn alloc(&self) -> Global {
        self.alloc
    }

    /// How many tiles there are.
    pub(crate) fn tiles(&self) -> usize
        ensures { result ≡ self.now.tiles }
    {
        self.tiles
    }

    /// How many slices there are.
    pub(crate) fn size(&self) -> usize
        ensures { result ≡ set.size self.now.slices }
    {
        self.entries.len()
    }

    /// The slices of a tile.
    pub(crate) fn of_tile(&self, tile: usize) -> Shelf<'_>
        ensures { result ≡ tile_slices self.now.slices tile }
    {
        let (start, end) = tile_part(&self.entries, tile);
        Shelf::new(&self.bytes, &self.entries[start..end])
    }

    /// The digests of the copies that gave a slice, or `None` where it is not held of the tile.
    pub(crate) fn origins(&self, tile: usize, slice: &[u8]) -> Option<&[[u8; 32]]>
        ensures digests { IfSome result (λ digests. digests.now ≡ digests_in self.now.origins (tile, slice.now)) }
        ensures rising { IfSome result (λ digests. AreDigests digests.now) }
        ensures held { IfSome result (λ _. set.contains self.now.slices (tile, slice.now) ≡ true) }
        ensures absent { IfNone result (set.contains self.now.slices (tile, slice.now) ≡ false) }
    {
        match place_of(&self.bytes, &self.entries, tile, slice) {
            Ok(place) => {
                let rows = self.rows.lent(&self.bytes);
                Some(digests_of(rows, self.entries[place]))
            }
            Err(_) => None,
        }
    }

    /// The digests of the copies that gave the slice of a tile at a place of the rising order, which counts from 0.
    /// `place` must be less than the number of the tile's slices.
    pub(crate) fn origins_at(&self, tile: usize, place: usize) -> &[[u8; 32]]
        requires { place < set.size (tile_slices self.now.slices tile) }
        ensures digests { (d : List ℕ) → result.now
            ≡ digests_in self.now.origins (tile, slice_index_or (set.items (tile_slices self.now.slices tile)) place d) }
        ensures rising { AreDigests result.now }
    {
        let rows = self.rows.lent(&self.bytes);
        let (start, _) = tile_part(&self.entries, tile);
        digests_of(rows, self.entries[start + place])
    }

    /// Adds a slice of a tile, where it is not held already, and digests of copies that gave it.
    pub(crate) fn insert(
        &mut self,
        tile: usize,
        slice: &[u8],
        digests: &[[u8; 32]],
    ) -> Result<(), HoldFault>
        requires framed { IsFramed slice.now }
        requires digests { AreDigests digests.now }
        ensures ok { OnOk result (self.new ≡ with_tile_entry self.old (tile, slice.now) digests.now) }
        ensures memory { OnErr result (result ≡ Err HoldFault.Memory) }
        ensures err { OnErr result (self.new ≡ self.old) }
    {
        let entry = PoolEntry {
            tile,
            start: 0,
            length: slice.len(),
        };
        let owners = repeated(self.alloc, entry, digests.len())?;
        let rows = Rows {
            bytes: slice,
            owners: &owners,
            digests,
        };
        self.insert_all(&[entry], rows)
    }

    /// Adds the slices of entries in a copy, and the copy's digest to the origins of each.
    pub(crate) fn insert_copy(&mut self, copy: &[u8], found: &[PoolEntry]) -> Result<(), HoldFault>
        requires { IsPool copy.now found.now }
        ensures ok { OnOk result (self.new ≡ with_more self.old (set.from_list (map (entry_in copy.now) found.now))
            (set.from_list (map (λ e. (e, sha256 copy.now)) (map (entry_in copy.now) found.now)))) }
        ensures memory { OnErr result (result ≡ Err HoldFault.Memory) }
        ensures err { OnErr result (self.new ≡ self.old) }
    {
        let digest = Sha256::digest(copy);
        let digests = repeated(self.alloc, digest, found.len())?;
        let rows = Rows {
            bytes: copy,
            owners: found,
            digests: &digests,
        };
        self.insert_all(found, rows)
    }

    /// Adds the slices of another, and their origins. Each of these has to be of a slice that the other holds.
    pub(crate) fn join(&mut self, other: &Pool) -> Result<(), HoldFault>
        requires { AreHeld other.now.slices other.now.origins }
        ensures ok { OnOk result (self.new ≡ with_more self.old other.now.slices other.now.origins) }
        ensures memory { OnErr result (result ≡ Err HoldFault.Memory) }
        ensures err { OnErr result (self.new ≡ self.old) }
    {
        let rows = other.rows.lent(&other.bytes);
        self.insert_all(&other.entries, rows)
    }

    /// Adds the slices of entries that lie in other bytes, those of `rows`, and these rows, whose owners have to be of
    /// the same slices. What is new is found first, then room is made for it, and then its slices are put after the
    /// others, and its entries and rows among the others. The owners are then the entries here.
    fn insert_all(&mut self, entries: &[PoolEntry], rows: Rows<'_>) -> Result<(), HoldFault>
        requires pool { IsPool rows.bytes.now entries.now }
        requires rows { AreRows rows }
        requires held { AreHeld (set.from_list (map (entry_in rows.bytes.now) entries.now)) (set.from_list (rows_of rows)) }
        ensures ok { OnOk result (self.new ≡ with_more self.old (set.from_list (map (entry_in rows.entry.bytes.now) entries.now))
            (set.from_list (rows_of rows.entry))) }
        ensures memory { OnErr result (result ≡ Err HoldFault.Memory) }
        ensures err { OnErr result (self.new ≡ self.old) }
    {
        let mut fresh = fresh_among(self.alloc, &self.bytes, &self.entries, rows.bytes, entries)?;
        let held = self.rows.lent(&self.bytes);
        let mut new = fresh_rows(self.alloc, held, rows, &fresh)?;
        make_room(&mut self.bytes, &mut self.entries, &fresh)?;
        self.rows.make_room(&new)?;
        put_slices(rows.bytes, &mut self.bytes, &mut self.entries, &mut fresh);
        self.rows
            .put(rows.bytes, &self.bytes, &self.entries, &mut new);
        Ok(())
    }
}

/// Makes room in a pool's bytes and entries for new entries and their slices. After a refusal there may be room for the bytes.
fn make_room(
    bytes: &mut Vec<u8>,
    entries: &mut Vec<PoolEntry>,
    fresh: &[Fresh<PoolEntry>],
) -> Result<(), HoldFault>
    ensures bytes { bytes.new.items ≡ bytes.old.items }
    ensures entries { entries.new.items ≡ entries.old.items }
    ensures room { OnOk result (vec_len bytes.new + sum_by (λ new. new.item.length) fresh.now ≤ vec_capacity bytes.new) }
    ensures places { OnOk result (vec_len entries.new + length fresh.now ≤ vec_capacity entries.new) }
    ensures memory { OnErr result (result ≡ Err HoldFault.Memory) }
{
    let Some(room) = room_of(fresh) else {
        return Err(HoldFault::Memory);
    };
    bytes.reserve(room)?;
    entries.reserve(fresh.len())?;
    Ok(())
}

/// From where and up to where the entries of a tile stand.
fn tile_part(entries: &[PoolEntry], tile: usize) -> (usize, usize)
    requires { IsNonDecreasingBy (λ entry. entry.tile) entries.now }
    ensures { IsTilePart entries.now tile result.0 result.1 }
{
    let start = entries.partition_point(|entry| entry.tile < tile);
    let end = entries.partition_point(|entry| entry.tile <= tile);
    (start, end)
}

/// An item, so many times.
fn repeated<T: Copy>(alloc: Global, item: T, count: usize) -> Result<Vec<T>, AllocError>
    ensures { IfOk result (λ items. items.items ≡ replicate count item) }
{
    let mut items = Vec::new(alloc);
    items.resize(count, item)?;
    Ok(items)
}
