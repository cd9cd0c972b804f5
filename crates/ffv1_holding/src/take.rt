//! Taking copies of a frame into a holding (own). A copy's links are found by the sizes in their footers (RFC 9043, section
//! 4.9.1); those that pass their parity (section 4.9.3) and have a header for one tile are its slices.
ghost use Rattle.std.specs.Prelude.{◌≡◌, ◌≢◌, ◌⊎◌, ◌*◌, ◌+◌, ◌<◌, ◌≤◌, ◌^◌, length, map, take, [], slice_index_or, IfOk, IfErr, OnOk, OnErr};
ghost use Rattle.ffv1_bits.specs.Limits.{payload_limit};
ghost use Rattle.ffv1_slice.specs.Walk.{links_of};
ghost use Rattle.ffv1_slice.specs.Slices.{found_slices};
ghost use Rattle.ffv1_holding.specs.Sets as set;
ghost use Rattle.ffv1_holding.specs.Contents.{with_found, with_copies, with_entry, IsEntryOf, AreEntriesOf, AreDigests};
ghost use Rattle.ffv1_holding.specs.SliceOrder.{entry_cmp};
ghost use Rattle.ffv1_holding.specs.Inner.PoolEntries.{entry_in, AreEntriesIn, IsPool};
ghost use Rattle.ffv1_holding.specs.TakeFaults.{IsTakeFault, AreShort};
ghost use Rattle.ffv1_holding.specs.TileOrder.{fall, is_in_tile_order};

use crate::fault::HoldFault;
use crate::framed::Framed;
use crate::holding::Holding;
use crate::pool_entry::PoolEntry;
use crate::reel::Reel;
use ffv1_bits::PAYLOAD_LIMIT;
use ffv1_slice::{Chain, next_link};
use std::alloc::AllocError;

/// What taking one copy came to.
#[derive(Clone, Copy, Debug, PartialEq, Eq)]
pub struct Taken {
    /// The links of the copy.
    pub links: usize,
    /// The links that are slices.
    pub slices: usize,
    /// The slices that were not held before.
    pub new: usize,
    /// Whether its slices stand in the order of their tiles, no two of one tile.
    pub in_order: bool,
}

/// Which of many copies was not taken, and why.
#[derive(Clone, Copy, Debug, PartialEq, Eq)]
pub struct TakeAllFault {
    /// The first `taken` copies were taken, and no more.
    pub taken: usize,
    /// Why the next one was not: `PayloadTooLong` or `Memory`.
    pub cause: HoldFault,
}

impl<S: Framed> Holding<S> {
    /// Adds the slices that are found in a copy, and the SHA-256 digest of the whole copy to the origins of each.
    ///
    /// Returns `PayloadTooLong` exactly if the copy has more than 2^30 bytes, before any link is looked at; the only
    /// other refusal is `Memory`. After either the holding is unchanged.
    pub fn take(&mut self, payload: &[u8]) -> Result<Taken, HoldFault>
        ensures ok { OnOk result (self.new ≡ with_found self.old payload.now) }
        ensures short { OnOk result (length payload.now ≤ payload_limit) }
        ensures links { IfOk result (λ taken. taken.links ≡ length (links_of payload.now)) }
        ensures slices { IfOk result (λ taken. taken.slices ≡ length (found_slices self.old.reel.rules payload.now)) }
        ensures new { IfOk result (λ taken. set.size self.new.slices ≡ set.size self.old.slices + taken.new) }
        ensures order { IfOk result (λ taken. taken.in_order ≡ is_in_tile_order self.old.reel.rules payload.now) }

        ensures fault { IfErr result (IsTakeFault payload.now) }
        ensures err { OnErr result (self.new ≡ self.old) }
    {
        if payload.len() > PAYLOAD_LIMIT {
            return Err(HoldFault::PayloadTooLong);
        }
        let mut found = Vec::new(self.held.alloc());
        let links = list_found(&self.reel, payload, &mut found)?;
        let slices = found.len();
        let in_order = is_in_order(found.as_slice());
        put_in_order(payload, &mut found)?;
        let before = self.held.size();
        self.held.insert_copy(payload, &found)?;
        let new = self.held.size() - before;
        Ok(Taken {
            links,
            slices,
            new,
            in_order,
        })
    }

    /// Adds one slice with its footer, which must be a slice of its tile, and to its origins these digests of copies,
    /// which must rise by their bytes. Tiles count from 0, row by row of the grid.
    ///
    /// The only refusal is `Memory`: then the holding is unchanged.
    pub fn insert(
        &mut self,
        tile: usize,
        slice: &[u8],
        origins: &[[u8; 32]],
    ) -> Result<(), HoldFault>
        requires slice { IsEntryOf self.old.reel.rules (tile, slice.now) }
        requires origins { AreDigests origins.now }
        ensures ok { OnOk result (self.new ≡ with_entry self.old (tile, slice.now) origins.now) }
        ensures memory { OnErr result (result ≡ Err HoldFault.Memory) }
        ensures err { OnErr result (self.new ≡ self.old) }
    {
        self.held.insert(tile, slice, origins)
    }

    /// Adds the slices that are found in copies, with the copies' digests, one copy after the other.
    ///
    /// It stops at the first copy that is refused, with `PayloadTooLong` where that has more than 2^30 bytes, else `Memory`:
    /// then just those before it were taken, and the fault says how many.
    pub fn take_all(&mut self, copies: &[&[u8]]) -> Result<(), TakeAllFault>
        ensures ok { OnOk result (self.new ≡ with_copies self.old (map (λ copy. copy.now) copies.now)) }
        ensures short { OnOk result (AreShort (map (λ copy. copy.now) copies.now)) }

        ensures some { IfErr result (λ fault. (fault.taken < length copies.now)
            × (self.new ≡ with_copies self.old (map (λ copy. copy.now) (take fault.taken copies.now)))) }
        ensures some_short { IfErr result (λ fault. AreShort (map (λ copy. copy.now) (take fault.taken copies.now))) }
        ensures cause { IfErr result (λ fault. IsTakeFault (slice_index_or (map (λ copy. copy.now) copies.now) fault.taken []) fault.cause) }
    {
        for (taken, copy) in copies.iter().enumerate() {
            if let Err(cause) = self.take(copy) {
                return Err(TakeAllFault { taken, cause });
            }
        }
        Ok(())
    }
}

/// Lists the slices that are found in a copy, from its end, after no others, and returns how many links it has.
fn list_found<S: Framed>(
    reel: &Reel<S>,
    payload: &[u8],
    found: &mut Vec<PoolEntry>,
) -> Result<usize, HoldFault>
    requires short { length payload.now ≤ payload_limit }
    requires none { found.old.items ≡ [] }
    ensures found { OnOk result (map (entry_in payload.now) found.new.items ≡ found_slices reel.now.rules payload.now) }
    ensures lie { OnOk result (AreEntriesIn payload.now found.new.items) }
    ensures well_formed { OnOk result (AreEntriesOf reel.now.rules (set.from_list (found_slices reel.now.rules payload.now))) }
    ensures links { IfOk result (λ links. links ≡ length (links_of payload.now)) }
    ensures memory { OnErr result (result ≡ Err HoldFault.Memory) }
{
    let mut links = 0;
    let mut chain = Chain::new(payload);
    while let Some(link) = next_link(&mut chain) {
        links += 1;
        if let Ok(tile) = reel.slice_of(&link) {
            found.push(PoolEntry {
                tile,
                start: link.start(),
                length: link.bytes().len(),
            })?;
        }
    }
    Ok(links)
}

/// Whether the slices of entries, which are listed from a copy's end, stand in it in the order of their tiles, no two of one tile.
fn is_in_order(found: &[PoolEntry]) -> bool
    ensures { result ≡ fall (map (λ entry. entry.tile) found.now) }
{
    for index in 1..found.len() {
        if found[index].tile >= found[index - 1].tile {
            return false;
        }
    }
    true
}

/// Puts entries that lie in `bytes` into their order, each slice once. After a refusal they stand as they stood.
fn put_in_order(bytes: &[u8], entries: &mut Vec<PoolEntry>) -> Result<(), AllocError>
    requires { AreEntriesIn bytes.now entries.old.items }
    ensures ok { OnOk result (IsPool bytes.now entries.new.items) }
    ensures same { OnOk result (set.from_list {R = entry_cmp} (map (entry_in bytes.now) entries.new.items)
        ≡ set.from_list (map (entry_in bytes.now) entries.old.items)) }
{
    entries.sort_by(|one, other| one.compare(bytes, other.tile, other.slice(bytes)))?;
    entries.dedup_by(|next, last| { next.compare(bytes, last.tile, last.slice(bytes)).is_eq() });
    Ok(())
}
