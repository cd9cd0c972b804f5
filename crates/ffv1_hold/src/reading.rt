//! Reading a holding file (own).
ghost use Rattle.std.specs.Prelude.{◌≡◌, ◌≤◌, None, Some, true, OnOk, IfOk, IfErr};
ghost use Rattle.std.specs.Io.KnownBytes.{IsAtEnd};
ghost use Rattle.ffv1_bits.specs.Limits.{file_limit};
ghost use Rattle.ffv1_holding.specs.Contents.{Contents, IsEntryOf, IsHolding, AreDigests, no_slices, with_entry};
ghost use Rattle.ffv1_hold.specs.declared.version.Version.{Version};
ghost use Rattle.ffv1_hold.specs.HoldingText.{HasFileVersion, file_text, file_entries, IsStated, TellsMagic, FitsInFile};
ghost use Rattle.ffv1_hold.specs.FileFaults.{ReadsFile, MayTake, Returns};
ghost use Rattle.ffv1_holding.specs.declared.recordings.Recordings.TheVariants.{Profile};
ghost use Rattle.ffv1_hold.specs.Inner.FileFaults.{ReadsEntries};

use crate::entry::HeldSlice;
use crate::file_fault::HoldFileFault;
use crate::hold_reader::HoldReader;
use ffv1_devices::Source;
use ffv1_holding::{Holding, Recordings};
use ffv1_range::Recording;
use std::alloc::Global;

/// Reads a holding file of the profile, of either version, to the end of the input. One of version 1 gives no origins. It is
/// `read_holding` of such files.
pub fn read_hold<R: Source>(alloc: Global, source: &mut R) -> Result<Holding, HoldFileFault>
    // The whole input is the holding's text of version 2, or, where it has no origins, that of version 1. Or the bytes that were
    // read show the fault; at `Read` and `Memory` they show none: they are unfinished, or a text whose end was looked for, or a head
    // whose setup needs memory before a fault.
    ensures read { ReadsFile Profile result (R.log source.old) (R.log source.new) }

    // For an input that is such a text of a holding the result is that holding, `Read` or `Memory`.
    ensures only { (v : Version) (h : Contents) → IsHolding h → h.reel.rules.is_profile ≡ true → FitsInFile v h
        → (R.log source.old).remaining ≡ Some (file_text v h) → Returns h result }
{
    let holding = read_holding(alloc, Recordings::Profile, source)?;
    match holding.into_profile() {
        Ok(holding) => Ok(holding),
        // No other file is read.
        Err(_) => Err(HoldFileFault::Magic),
    }
}

/// Reads a holding file of these recordings, to the end of the input: of the profile, of either version; and of any, of other recordings
/// too, and of any frames of one of the profile, which have a magic of their own.
///
/// The faults are judged in byte order, those of the first eight bytes too, and at most 2^31 + 1 bytes are read. `Read` is returned only if
/// the source counted a failure: an interrupted try is made again, and 65 in a row are a failure. Returns `Memory` if an allocation fails.
/// Both are returned only before a fault is met; within the record, memory for its setup is wanted where `read_scoped` says.
/// `Magic` is returned also for a record of the profile after the magic of other recordings, where the first entry is no slice of tile 0 with
/// the keyframe bit 0: before its digests, where it is a slice and in order; or at the end tag, where there is no entry.
pub fn read_holding<R: Source>(
    alloc: Global,
    recordings: Recordings,
    source: &mut R,
) -> Result<Holding<Recording>, HoldFileFault>
    // The whole input is the holding's text of version 2, or, where it is of the profile and has no origins, that of version 1. Or the
    // bytes that were read show the fault; at `Read` and `Memory` they show none: they are unfinished, or a text whose end was looked for,
    // or a head whose setup needs memory before a fault.
    ensures read { ReadsFile recordings result (R.log source.old) (R.log source.new) }

    // For an input that is such a text of a holding the result is that holding, `Read` or `Memory`.
    ensures only { (v : Version) (h : Contents) → IsHolding h → MayTake recordings h.reel → FitsInFile v h
        → (R.log source.old).remaining ≡ Some (file_text v h) → Returns h result }
{
    let mut reader = HoldReader::new();
    read_parts(alloc, recordings, source, &mut reader)
}

/// Reads the head, and then the entries.
fn read_parts<R: Source>(
    alloc: Global,
    recordings: Recordings,
    source: &mut R,
    reader: &mut HoldReader,
) -> Result<Holding<Recording>, HoldFileFault>
    requires start { reader.old.place ≡ 0 }
    requires held { reader.old.held ≡ None }
    ensures { ReadsFile recordings result (R.log source.old) (R.log source.new) }
{
    let reel = reader.read_head(alloc, recordings, source)?;
    let mut holding = Holding::of_reel(alloc, reel)?;
    read_entries(alloc, source, reader, &mut holding)?;
    Ok(holding)
}

/// Reads the entries into a holding of no slices, and to the end of the input.
fn read_entries<R: Source>(
    alloc: Global,
    source: &mut R,
    reader: &mut HoldReader,
    holding: &mut Holding<Recording>,
) -> Result<(), HoldFileFault>
    requires version { HasFileVersion reader.old.version holding.old.reel.rules.is_profile }
    requires place { reader.old.place ≤ file_limit }
    requires first { reader.old.held ≡ None }
    requires empty { holding.old ≡ no_slices holding.old.reel }
    ensures read { ReadsEntries reader.old.version holding.old.reel holding.new (R.log source.old) (R.log source.new) reader.old.place reader.new.place result }
    ensures end { OnOk result (IsAtEnd (R.log source.new).remaining) }
    ensures well_formed { OnOk result (IsHolding holding.new) }
    ensures stated { OnOk result (IsStated reader.old.version holding.new) }
    ensures tells { OnOk result (TellsMagic holding.new.reel (file_entries holding.new)) }
    ensures reel { OnOk result (holding.new.reel ≡ holding.old.reel) }
{
    reader.advance(alloc, source, holding.reel())?;
    while let Some(entry) = &reader.held {
        insert(holding, entry)?;
        reader.advance(alloc, source, holding.reel())?;
    }
    Ok(())
}

/// Puts an entry that was read into the holding, which is unchanged where memory for it is refused.
fn insert(holding: &mut Holding<Recording>, entry: &HeldSlice) -> Result<(), HoldFileFault>
    requires slice { IsEntryOf holding.old.reel.rules entry.now.0 }
    requires origins { AreDigests entry.now.1 }
    ensures ok { OnOk result (holding.new ≡ with_entry holding.old entry.now.0 entry.now.1) }
    ensures err { IfErr result (λ f. (f ≡ HoldFileFault.Memory) × (holding.new ≡ holding.old)) }
{
    match holding.insert(
        entry.slice.tile as usize,
        &entry.slice.bytes,
        &entry.origins,
    ) {
        Ok(()) => Ok(()),
        Err(_) => Err(HoldFileFault::Memory),
    }
}
