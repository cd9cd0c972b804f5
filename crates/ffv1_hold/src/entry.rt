//! The entries of a holding file (own): slices with their footers (RFC 9043, section 4.9), their tiles, and their origins.
ghost use Rattle.std.specs.Prelude.{◌≡◌, ◌^◌, ◌<◌, ◌≤◌, ◌↔◌, ◌==◌, length, IsTrue, Option, None, Some, IfSome, IfNone, OnOk, IfOk, IfErr};
ghost use Rattle.ffv1_bits.specs.Limits.{slice_limit, file_limit};
ghost use Rattle.ffv1_bits.specs.Parity.{AreBytes};
ghost use Rattle.ffv1_slice.specs.Slices.{IsSliceOf};
ghost use Rattle.ffv1_hold.specs.Inner.Reading.{ReadsText, Never};
ghost use Rattle.ffv1_hold.specs.HoldingText.{FileEntry, slice_text};
ghost use Rattle.ffv1_hold.specs.FileEntries.{Follows, KeepsMagic, IsFileEntryOf};
ghost use Rattle.ffv1_hold.specs.Inner.FileEntries.{next_text};
ghost use Rattle.ffv1_hold.specs.FileFaults.{IsPartOfSlice, SliceIsTooLong, IsWrong, IsPartOfEntry, EntryShows};

use crate::blocks::read_over;
use crate::fields::read_field;
use crate::file_fault::HoldFileFault;
use crate::firsts::{can_be_first, is_of_any_frames};
use crate::number::{read_u16, read_u32};
use crate::origins::read_after_slice;
use crate::version::Version;
use ffv1_bits::SLICE_LIMIT;
use ffv1_devices::Source;
use ffv1_holding::Reel;
use ffv1_range::Recording;
use std::alloc::Global;
use std::cmp::Ordering;
use std::marker::Model;

/// A slice with its footer, and its tile.
#[derive(Drop)]
pub(crate) struct TileSlice {
    pub(crate) tile: u16,
    pub(crate) bytes: Vec<u8>,
}

impl Model for TileSlice {
    ghost use Rattle.ffv1_holding.specs.SliceOrder.{Entry, coded_entry};

    ghost Value = { Entry };

    ghost coded = { coded_entry };

    ghost view = { λ s. (s.tile, s.bytes.items) };
}

impl TileSlice {
    ghost use Rattle.ffv1_holding.specs.SliceOrder.{entry_cmp};

    /// The order in a holding file: by tile, and then as byte slices compare.
    pub(crate) fn compare(&self, other: &TileSlice) -> Ordering
        ensures { result ≡ entry_cmp self.now other.now }
    {
        let by_tile = self.tile.cmp(&other.tile);
        by_tile.then_with(|| self.bytes.as_slice().cmp(other.bytes.as_slice()))
    }

    /// Reads the next slice over this one, after its tag, and returns the order of this one, as it was, and the next one.
    fn read_next<S: Source>(
        &mut self,
        source: &mut S,
        place: &mut u32,
    ) -> Result<Ordering, HoldFileFault>
        requires { place.old ≤ file_limit }
        ensures read { ReadsText (λ _. slice_text self.new) IsPartOfSlice Never SliceIsTooLong
            (S.log source.old) (S.log source.new) place.old place.new result }
        ensures tile { OnOk result (self.new.0 < 2 ^ 16) }
        ensures fits { OnOk result (length self.new.1 ≤ slice_limit) }
        ensures order { IfOk result (λ o. o ≡ entry_cmp self.old self.new) }
    {
        let tile = read_u16(source, place)?;
        let length = read_u32(source, place)?;
        if length > SLICE_LIMIT {
            return Err(HoldFileFault::TooLong);
        }
        let by_bytes = read_over(source, place, &mut self.bytes, length)?;
        let by_tile = self.tile.cmp(&tile);
        self.tile = tile;
        Ok(by_tile.then(by_bytes))
    }

    /// Whether it is a slice of its tile, then whether it follows the last one, which `follows` says, and then, where it is the `first`,
    /// whether it can be that.
    fn judge(&self, reel: &Reel<Recording>, follows: bool, first: bool) -> Result<(), HoldFileFault>
        ensures slice { OnOk result (IsSliceOf reel.now.rules self.now.1 (self.now.0 == 0) self.now.0) }
        ensures place { OnOk result (IsTrue follows) }
        ensures keeps { (last : Option FileEntry) → (IsTrue first ↔ (last ≡ None)) → OnOk result (KeepsMagic reel.now last (Some self.now)) }
        ensures bytes { OnOk result (IsTrue first → AreBytes self.now.1) }
        ensures err { (last : Option FileEntry) → (IsTrue follows ↔ Follows last self.now) → (IsTrue first ↔ (last ≡ None))
            → IfErr result (IsWrong reel.now last self.now) }
    {
        if reel.read_slice(&self.bytes, self.tile == 0) != Ok(self.tile as usize) {
            return Err(HoldFileFault::NotASlice);
        }
        if !follows {
            return Err(HoldFileFault::Order);
        }
        if first && !can_be_first(reel, self.tile, &self.bytes) {
            return Err(HoldFileFault::Magic);
        }
        Ok(())
    }
}

/// A slice, and the digests of the copies that gave it.
#[derive(Drop)]
pub(crate) struct HeldSlice {
    pub(crate) slice: TileSlice,
    pub(crate) origins: Vec<[u8; 32]>,
}

impl Model for HeldSlice {
    ghost use Rattle.std.specs.Coded.{coded×, coded_list};
    ghost use Rattle.ffv1_holding.specs.SliceOrder.{coded_entry, coded_bytes};
    ghost use Rattle.ffv1_hold.specs.HoldingText.{FileEntry};

    ghost Value = { FileEntry };

    ghost coded = { coded× coded_entry (coded_list coded_bytes) };

    ghost view = { λ s. (s.slice, s.origins.items) };
}

impl HeldSlice {
    /// The slice alone: the digests are let go.
    fn into_slice(self) -> TileSlice
        ensures { result ≡ self.0 }
    {
        self.slice
    }
}

/// Reads a slice after its tag, over that of the last entry, and returns it and whether it follows that one. The last
/// entry's digests are let go first.
fn read_tile_slice<S: Source>(
    alloc: Global,
    source: &mut S,
    place: &mut u32,
    last: Option<HeldSlice>,
) -> Result<(TileSlice, bool), HoldFileFault>
    requires { place.old ≤ file_limit }
    ensures read { ReadsText (λ r. slice_text r.0) IsPartOfSlice Never SliceIsTooLong
        (S.log source.old) (S.log source.new) place.old place.new result }
    ensures tile { IfOk result (λ r. r.0.0 < 2 ^ 16) }
    ensures fits { IfOk result (λ r. length r.0.1 ≤ slice_limit) }
    ensures follows { IfOk result (λ r. IsTrue r.1 ↔ Follows last r.0) }
{
    match last {
        Some(held) => {
            let mut slice = held.into_slice();
            let order = slice.read_next(source, place)?;
            Ok((slice, order == Ordering::Less))
        }
        None => {
            let bytes = Vec::new(alloc);
            let mut slice = TileSlice { tile: 0, bytes };
            slice.read_next(source, place)?;
            Ok((slice, true))
        }
    }
}

/// Reads the next entry over the last one, which it follows, or returns `None` at the end tag. Where there is no last one, what is next
/// keeps the magic right.
pub(crate) fn read_entry<S: Source>(
    alloc: Global,
    source: &mut S,
    place: &mut u32,
    version: Version,
    reel: &Reel<Recording>,
    last: Option<HeldSlice>,
) -> Result<Option<HeldSlice>, HoldFileFault>
    requires { place.old ≤ file_limit }
    ensures read { ReadsText (next_text version) (IsPartOfEntry version reel.now last) Never (EntryShows version reel.now last)
        (S.log source.old) (S.log source.new) place.old place.new result }
    ensures end { IfOk result (λ r. IfNone r (KeepsMagic reel.now last None)) }
    ensures bytes { last ≡ None → IfOk result (λ r. IfSome r (λ e. AreBytes e.0.1)) }
    ensures entry { IfOk result (λ r. IfSome r (λ e. IsFileEntryOf version reel.now.rules e × Follows last e.0 × KeepsMagic reel.now last (Some e.0))) }
{
    let first = last.is_none();
    let mut tag = [0u8; 1];
    read_field(source, place, &mut tag)?;
    match tag[0] {
        0 if first && is_of_any_frames(reel) => Err(HoldFileFault::Magic),
        0 => Ok(None),
        1 => {
            let (slice, follows) = read_tile_slice(alloc, source, place, last)?;
            slice.judge(reel, follows, first)?;
            let origins = read_after_slice(alloc, source, place, version)?;
            Ok(Some(HeldSlice { slice, origins }))
        }
        _ => Err(HoldFileFault::Tag),
    }
}
