//! Which copies gave the slices of a pool (own): rows of a slice's entry, the owner, and the SHA-256 digest of a copy.
ghost use Rattle.std.specs.Bool.{OnTrue};
ghost use Rattle.std.specs.Prelude.{◌≡◌, ◌+◌, ◌<◌, IfOk, IfErr, OnErr};
ghost use Rattle.ffv1_holding.specs.Sets as set;
ghost use Rattle.ffv1_holding.specs.SliceOrder.{origin_cmp};
ghost use Rattle.ffv1_holding.specs.Inner.Rising.{IsPlaceOf, IsInsertionPlace};
ghost use Rattle.ffv1_holding.specs.Inner.PoolEntries.{entry_in};
ghost use Rattle.ffv1_holding.specs.TileSets.{digests_in};
ghost use Rattle.ffv1_holding.specs.Contents.{AreDigests};
ghost use Rattle.ffv1_holding.specs.Inner.Fresh.{AreAllFresh};
ghost use Rattle.ffv1_holding.specs.Inner.Rows.{rows_of, AreRows, IsRowPart, fresh_rows_in, AreFreshRows};

use crate::fault::HoldFault;
use crate::fresh::Fresh;
use crate::pool_entry::PoolEntry;
use std::alloc::Global;

/// Rows, which rise by the owner's slice and then by digest.
#[derive(Clone, Copy)]
pub(crate) struct Rows<'a> {
    /// Where the slices of the owners lie.
    pub(crate) bytes: &'a [u8],
    pub(crate) owners: &'a [PoolEntry],
    /// As many digests, each at its owner's place.
    pub(crate) digests: &'a [[u8; 32]],
}

/// Rows that are not held, and the places of the rows before which they go, among those that are held.
#[derive(Drop)]
pub(crate) struct FreshRows {
    pub(crate) owners: Vec<Fresh<PoolEntry>>,
    /// As many digests, each with its owner's place.
    pub(crate) digests: Vec<Fresh<[u8; 32]>>,
}

/// Whether the slice has no rows, since those of the slices before it end at this place, and those of the slices after it begin
/// there.
fn is_gap(rows: Rows<'_>, place: usize, tile: usize, slice: &[u8]) -> bool
    requires { AreRows rows }
    ensures { OnTrue result (IsRowPart rows.entry.bytes.now rows.entry.owners.now (tile, slice.now) place place) }
{
    let Rows { bytes, owners, .. } = rows;
    if place > owners.len() {
        return false;
    }
    if place > 0 && !owners[place - 1].compare(bytes, tile, slice).is_lt() {
        return false;
    }
    place == owners.len() || owners[place].compare(bytes, tile, slice).is_gt()
}

/// From where and up to where the rows of a slice stand. The place `near` is looked at first.
fn row_part(rows: Rows<'_>, near: usize, tile: usize, slice: &[u8]) -> (usize, usize)
    requires { AreRows rows }
    ensures { IsRowPart rows.entry.bytes.now rows.entry.owners.now (tile, slice.now) result.0 result.1 }
{
    if is_gap(rows, near, tile, slice) {
        return (near, near);
    }
    let Rows { bytes, owners, .. } = rows;
    let start = owners.partition_point(|owner| owner.compare(bytes, tile, slice).is_lt());
    let end = owners.partition_point(|owner| owner.compare(bytes, tile, slice).is_le());
    (start, end)
}

/// From where and up to where the rows of an entry's slice stand. The entry lies in the bytes of the rows; where it is
/// their owner, no byte of the slice is looked at.
fn part_of(rows: Rows<'_>, entry: PoolEntry) -> (usize, usize)
    requires { AreRows rows }
    ensures { IsRowPart rows.entry.bytes.now rows.entry.owners.now (entry_in rows.entry.bytes.now entry) result.0 result.1 }
{
    let Rows { bytes, owners, .. } = rows;
    let start = owners.partition_point(|owner| owner.compare_to(bytes, entry).is_lt());
    let end = owners.partition_point(|owner| owner.compare_to(bytes, entry).is_le());
    (start, end)
}

/// The digests of the rows of an entry's slice, which lies in the bytes of the rows.
pub(crate) fn digests_of<'a>(rows: Rows<'a>, entry: PoolEntry) -> &'a [[u8; 32]]
    requires { AreRows rows }
    ensures digests { result.now ≡ digests_in (set.from_list (rows_of rows.entry)) (entry_in rows.entry.bytes.now entry) }
    ensures rising { AreDigests result.now }
{
    let (start, end) = part_of(rows, entry);
    &rows.digests[start..end]
}

/// Where the row of a slice and a digest is, or where it would go. The place `near` is looked at first.
fn place_of_row(
    rows: Rows<'_>,
    near: usize,
    tile: usize,
    slice: &[u8],
    digest: &[u8; 32],
) -> Result<usize, usize>
    requires { AreRows rows }
    ensures found { IfOk result (IsPlaceOf (rows_of rows.entry) ((tile, slice.now), digest.now)) }
    ensures absent { IfErr result (IsInsertionPlace origin_cmp (rows_of rows.entry) ((tile, slice.now), digest.now)) }
{
    let (start, end) = row_part(rows, near, tile, slice);
    let digests = rows.digests;
    let part = &digests[start..end];
    match part.binary_search_by(|held| held.as_slice().cmp(digest.as_slice())) {
        Ok(place) => Ok(start + place),
        Err(place) => Err(start + place),
    }
}

/// Of rows that come, those that are not among the held ones. Where each slice that is held or comes came from one copy, rows stand
/// as entries do: so each new one is looked for first where the new entry of its number goes.
pub(crate) fn fresh_rows(
    alloc: Global,
    held: Rows<'_>,
    coming: Rows<'_>,
    entries: &[Fresh<PoolEntry>],
) -> Result<FreshRows, HoldFault>
    requires held { AreRows held }
    requires coming { AreRows coming }
    ensures fresh { IfOk result (λ fresh. AreFreshRows (rows_of held.entry) coming.entry.bytes.now fresh.owners.items fresh.digests.items) }
    ensures all { IfOk result (λ fresh. AreAllFresh origin_cmp (rows_of held.entry) (rows_of coming.entry)
        (fresh_rows_in coming.entry.bytes.now fresh.owners.items fresh.digests.items)) }
    ensures memory { OnErr result (result ≡ Err HoldFault.Memory) }
{
    let mut owners = Vec::new(alloc);
    let mut digests = Vec::new(alloc);
    for (index, owner) in coming.owners.iter().enumerate() {
        let digest = coming.digests[index];
        let near = place_before(entries, owners.len());
        let found = place_of_row(held, near, owner.tile, owner.slice(coming.bytes), &digest);
        if let Err(place) = found {
            owners.push(Fresh {
                place,
                item: *owner,
            })?;
            digests.push(Fresh {
                place,
                item: digest,
            })?;
        }
    }
    Ok(FreshRows { owners, digests })
}

/// The place of a new entry, or one past all places.
fn place_before(entries: &[Fresh<PoolEntry>], index: usize) -> usize {
    match entries.get(index) {
        Some(new) => new.place,
        None => usize::MAX,
    }
}
