//! Slices that come into a pool (own): which of them it does not hold, and how their entries go among its own.
ghost use Rattle.std.specs.Prelude.{◌≡◌, ℕ, ◌+◌, ◌<◌, ◌≤◌, List, ◌++◌, length, map, take, sum_by, slice_index_or, vec_len, vec_capacity, IfSome, IfOk, IfErr, OnOk, OnErr};
ghost use Rattle.std.specs.List.Sorted.{IsNonDecreasingBy};
ghost use Rattle.ffv1_holding.specs.Sets as set;
ghost use Rattle.ffv1_holding.specs.SliceOrder.{entry_cmp};
ghost use Rattle.ffv1_holding.specs.Rising.{IsRising};
ghost use Rattle.ffv1_holding.specs.Inner.Rising.{IsPlaceOf, IsInsertionPlace};
ghost use Rattle.ffv1_holding.specs.Inner.PoolEntries.{entry_in, IsPool, IsEntryIn};
ghost use Rattle.ffv1_holding.specs.Inner.Fresh.{fresh_in, AreFresh, AreAllFresh, AreMoved, with_fresh};

use crate::fault::HoldFault;
use crate::pool_entry::PoolEntry;
use std::alloc::Global;

/// An item that is not held, and the place of the item before which it goes, among those that are held.
#[derive(Clone, Copy)]
pub(crate) struct Fresh<T> {
    pub(crate) place: usize,
    pub(crate) item: T,
}

/// Of entries in `bytes`, those whose slices are not among the held ones. Both rise.
pub(crate) fn fresh_among(
    alloc: Global,
    held_bytes: &[u8],
    held: &[PoolEntry],
    bytes: &[u8],
    entries: &[PoolEntry],
) -> Result<Vec<Fresh<PoolEntry>>, HoldFault>
    requires held { IsRising entry_cmp (map (entry_in held_bytes.now) held.now) }
    requires coming { IsPool bytes.now entries.now }
    ensures fresh { IfOk result (λ fresh. AreFresh (map (entry_in held_bytes.now) held.now) bytes.now fresh.items) }
    ensures all { IfOk result (λ fresh. AreAllFresh entry_cmp (map (entry_in held_bytes.now) held.now) (map (entry_in bytes.now) entries.now)
        (map (fresh_in bytes.now) fresh.items)) }
    ensures memory { OnErr result (result ≡ Err HoldFault.Memory) }
{
    let mut fresh = Vec::new(alloc);
    for entry in entries {
        let found = place_of(held_bytes, held, entry.tile, entry.slice(bytes));
        if let Err(place) = found {
            fresh.push(Fresh {
                place,
                item: *entry,
            })?;
        }
    }
    Ok(fresh)
}

/// How many bytes the slices of new entries have, or `None` where no memory has room for so many.
pub(crate) fn room_of(fresh: &[Fresh<PoolEntry>]) -> Option<usize>
    ensures { IfSome result (λ room. room ≡ sum_by (λ new. new.item.length) fresh.now) }
{
    let mut room = 0usize;
    for new in fresh {
        room = room.checked_add(new.item.length)?;
    }
    Some(room)
}

/// Puts the slices of new entries, which lie in `from`, after the other bytes, and the entries among the others. There
/// has to be room.
pub(crate) fn put_slices(
    from: &[u8],
    bytes: &mut Vec<u8>,
    entries: &mut Vec<PoolEntry>,
    fresh: &mut Vec<Fresh<PoolEntry>>,
)
    requires room { vec_len bytes.old + sum_by (λ new. new.item.length) fresh.old.items ≤ vec_capacity bytes.old }
    requires places { vec_len entries.old + length fresh.old.items ≤ vec_capacity entries.old }
    requires pool { IsPool bytes.old.items entries.old.items }
    requires fresh { AreFresh (map (entry_in bytes.old.items) entries.old.items) from.now fresh.old.items }
    ensures pool { IsPool bytes.new.items entries.new.items }
    ensures later { (more : List ℕ) × (bytes.new.items ≡ bytes.old.items ++ more) }
    ensures slices { set.from_list {R = entry_cmp} (map (entry_in bytes.new.items) entries.new.items)
        ≡ set.union (set.from_list (map (entry_in bytes.old.items) entries.old.items)) (set.from_list (map (fresh_in from.now) fresh.old.items)) }
{
    move_slices(from, bytes, fresh);
    spread(entries, fresh);
}

/// Puts the slices of new entries, which lie in `from`, after the other bytes, and sets the entries to their new places. There has
/// to be room.
fn move_slices(from: &[u8], bytes: &mut Vec<u8>, fresh: &mut [Fresh<PoolEntry>])
    requires room { vec_len bytes.old + sum_by (λ new. new.item.length) fresh.old ≤ vec_capacity bytes.old }
    requires coming { (i : ℕ) (d : Fresh PoolEntry) → i < length fresh.old → IsEntryIn from.now (slice_index_or fresh.old i d).item }
    ensures { AreMoved from.now bytes.old.items bytes.new.items fresh.old fresh.new }
{
    for index in 0..fresh.len() {
        let Fresh { place, item } = fresh[index];
        let start = bytes.len();
        bytes.extend_from_slice(item.slice(from)).unwrap();
        fresh[index] = Fresh {
            place,
            item: PoolEntry { start, ..item },
        };
    }
}

/// Puts new items among others. There has to be room.
pub(crate) fn spread<T: Copy + Default>(items: &mut Vec<T>, fresh: &[Fresh<T>])
    requires room { vec_len items.old + length fresh.now ≤ vec_capacity items.old }
    requires places { (i : ℕ) (d : Fresh T) → i < length fresh.now → (slice_index_or fresh.now i d).place ≤ length items.old.items }
    requires rising { IsNonDecreasingBy (λ new. new.place) fresh.now }
    ensures { items.new.items ≡ with_fresh fresh.now items.old.items }
{
    let held = items.len();
    items.resize(held + fresh.len(), T::default()).unwrap();
    interleave(items, held, fresh);
}

/// Puts new items among the first `held` of items, after which there is room for just them. Each place is passed once,
/// from the end.
fn interleave<T: Copy>(items: &mut [T], held: usize, fresh: &[Fresh<T>])
    requires room { length items.old ≡ held + length fresh.now }
    requires places { (i : ℕ) (d : Fresh T) → i < length fresh.now → (slice_index_or fresh.now i d).place ≤ held }
    requires rising { IsNonDecreasingBy (λ new. new.place) fresh.now }
    ensures { items.new ≡ with_fresh fresh.now (take held items.old) }
{
    // The items before `left` stand where they stood, those from there on `before` places further up.
    let mut left = held;
    let mut before = fresh.len();
    while before > 0 {
        before -= 1;
        let Fresh { place, item } = fresh[before];
        items.copy_within(place..left, place + before + 1);
        items[place + before] = item;
        left = place;
    }
}

/// Where the entry of a slice is, or where it would go.
pub(crate) fn place_of(
    bytes: &[u8],
    entries: &[PoolEntry],
    tile: usize,
    slice: &[u8],
) -> Result<usize, usize>
    requires { IsRising entry_cmp (map (entry_in bytes.now) entries.now) }
    ensures found { IfOk result (IsPlaceOf (map (entry_in bytes.now) entries.now) (tile, slice.now)) }
    ensures absent { IfErr result (IsInsertionPlace entry_cmp (map (entry_in bytes.now) entries.now) (tile, slice.now)) }
{
    entries.binary_search_by(|held| held.compare(bytes, tile, slice))
}

/// The same. The entry at the place `near` is looked at first, since a search looks at many slices.
pub(crate) fn place_near(
    bytes: &[u8],
    entries: &[PoolEntry],
    near: usize,
    tile: usize,
    slice: &[u8],
) -> Result<usize, usize>
    requires { IsRising entry_cmp (map (entry_in bytes.now) entries.now) }
    ensures found { IfOk result (IsPlaceOf (map (entry_in bytes.now) entries.now) (tile, slice.now)) }
    ensures absent { IfErr result (IsInsertionPlace entry_cmp (map (entry_in bytes.now) entries.now) (tile, slice.now)) }
{
    if near < entries.len() && entries[near].compare(bytes, tile, slice).is_eq() {
        return Ok(near);
    }
    place_of(bytes, entries, tile, slice)
}
