//! Joining two holding files as streams (own).
ghost use Rattle.std.specs.Prelude.{◌≡◌, ◌≢◌, ◌+◌, ◌≤◌, ◌⊎◌, ◌↔◌, Option, None, IsTrue, length, OnOk, IfOk, IfErr, IsErrOf, IfSome, IfNone};
ghost use Rattle.std.specs.Io.KnownBytes.{Appends};
ghost use Rattle.ffv1_bits.specs.Limits.{record_limit, file_limit};
ghost use Rattle.ffv1_devices.specs.Logs.{WriteLog};
ghost use Rattle.ffv1_devices.specs.Touching.{WritesIfTouched};
ghost use Rattle.ffv1_holding.specs.declared.recordings.Recordings.TheVariants.{Profile};
ghost use Rattle.ffv1_hold.specs.HoldingText.{HasFileVersion, head_text, entry_text};
ghost use Rattle.ffv1_hold.specs.FileEntries.{IsFileEntryOf};
ghost use Rattle.ffv1_hold.specs.Inner.Reading.{Takes};
ghost use Rattle.ffv1_hold.specs.FileFaults.{IsFileReel};
ghost use Rattle.ffv1_hold.specs.UnitedHoldings.{AreOfOneRecord, reel_of_both};
ghost use Rattle.ffv1_hold.specs.MergedStreams.{inputs_read, WritesUnion, WritesAtMost};
ghost use Rattle.ffv1_hold.specs.JoinedStreams.{JoinsStreams, devices};
ghost use Rattle.ffv1_hold.specs.Inner.Merging.{inputs_from, WhereOpened, WhereStands, StandsAt, Stops, MergeIsRefused, HeadsRefuse, Ends, IsTurn, IsWritten, with_digests};
ghost use Rattle.ffv1_hold.specs.MergeLogs.{MergeWent};
ghost use Rattle.ffv1_hold.specs.Inner.MergeLogs.{WritesEntry};

use crate::entry::HeldSlice;
use crate::file_fault::HoldFileFault;
use crate::hold_reader::HoldReader;
use crate::saving::{room_after_entry, size_of, write_head, write_origins, write_slice};
use crate::union::union_count;
use crate::version::Version;
use ffv1_bits::FILE_LIMIT;
use ffv1_devices::{Sink, Source, write_field};
use ffv1_holding::{Recordings, Reel};
use ffv1_range::Recording;
use std::alloc::Global;
use std::cmp::Ordering;

/// Joins two holding files of the profile, of either version, as streams, and writes the file of the union, of version 2. It is
/// `join_streams_of` of such files.
pub fn join_streams<R: Source, Q: Source, W: Sink>(
    alloc: Global,
    left: &mut R,
    right: &mut Q,
    sink: &mut W,
) -> Result<(), HoldFileFault>
    ensures streams { JoinsStreams Profile result (devices (R.log left.old) (Q.log right.old) (W.log sink.old)) (devices (R.log left.new) (Q.log right.new) (W.log sink.new)) }
    ensures untouched { IsErrOf result HoldFileFault.OtherReel → sink.new ≡ sink.old }
    ensures sink_untouched { IfErr result (λ fault. (fault ≡ HoldFileFault.Write) ⊎ WritesIfTouched W.log sink.old sink.new) }
{
    join_streams_of(alloc, Recordings::Profile, left, right, sink)
}

/// Joins two holding files of these recordings as streams: reads both, as `read_holding` reads them, and writes the file of the union, of
/// version 2.
///
/// Both heads are read and judged, the left one first, before anything is written. The union is of any frames where one of the two
/// is, and its head says so. Then the smaller of the inputs' next entries is
/// written, once where both have its slice, and then with the digests of both, and its input is read on: at most one
/// entry of each input is held, and the next one is read over it, block after block, and compared with it. Returns `OtherReel` exactly if
/// both heads were read and their record, width or height differ, before anything is written.
/// Returns `TooLong` if an input passes its limits, or if what is written would pass 2^31 bytes; each other fault is the one that
/// `read_holding` returns for that input. The end tag is written only where both inputs were read to their ends
/// and show no fault. `Read` and `Write` are returned only if a source or the sink counted a failure: an interrupted try is
/// made again, and 65 in a row are a failure. Before its first byte the sink is not touched. After `Write` each input that is a text was read
/// at most to the end of its first entry that is not whole in what was written, or to its own end where all are whole: an entry is whole
/// there once its slice stands there with exactly the digests that both inputs give it, where the other one is a text too, and else with its
/// own among others. Returns `Memory` if an allocation fails.
pub fn join_streams_of<R: Source, Q: Source, W: Sink>(
    alloc: Global,
    recordings: Recordings,
    left: &mut R,
    right: &mut Q,
    sink: &mut W,
) -> Result<(), HoldFileFault>
    ensures streams { JoinsStreams recordings result (devices (R.log left.old) (Q.log right.old) (W.log sink.old)) (devices (R.log left.new) (Q.log right.new) (W.log sink.new)) }
    ensures untouched { IsErrOf result HoldFileFault.OtherReel → sink.new ≡ sink.old }
    ensures sink_untouched { IfErr result (λ fault. (fault ≡ HoldFileFault.Write) ⊎ WritesIfTouched W.log sink.old sink.new) }
{
    let mut merge = Merge::new();
    merge_files(alloc, recordings, &mut merge, left, right, sink)
}

/// Reads both heads, and then joins what is after them. Nothing was read or written yet.
fn merge_files<R: Source, Q: Source, W: Sink>(
    alloc: Global,
    recordings: Recordings,
    merge: &mut Merge,
    left: &mut R,
    right: &mut Q,
    sink: &mut W,
) -> Result<(), HoldFileFault>
    requires left_start { merge.old.lefts.place ≡ 0 }
    requires right_start { merge.old.rights.place ≡ 0 }
    requires left_held { merge.old.lefts.held ≡ None }
    requires right_held { merge.old.rights.held ≡ None }
    requires room { merge.old.room ≡ file_limit }
    ensures ok { OnOk result (WritesUnion (inputs_read recordings (R.log left.old) (R.log left.new) (Q.log right.old) (Q.log right.new)) (W.log sink.old).contents (W.log sink.new).contents) }
    ensures most { OnOk result (WritesAtMost (W.log sink.old).contents (W.log sink.new).contents file_limit) }
    ensures err { IfErr result (MergeIsRefused (inputs_read recordings (R.log left.old) (R.log left.new) (Q.log right.old) (Q.log right.new)) (W.log sink.old).contents (W.log sink.new).contents) }
    ensures untouched { IsErrOf result HoldFileFault.OtherReel → sink.new ≡ sink.old }
    ensures sink_untouched { IfErr result (λ fault. (fault ≡ HoldFileFault.Write) ⊎ WritesIfTouched W.log sink.old sink.new) }
    ensures went { MergeWent result (devices (R.log left.old) (Q.log right.old) (W.log sink.old))
        (devices (R.log left.new) (Q.log right.new) (W.log sink.new)) (0, 0) (file_limit, file_limit) }
{
    let reels = merge.read_heads(alloc, recordings, left, right)?;
    merge.merge_after_heads(alloc, &reels, left, right, sink)
}

/// The recordings of both inputs.
#[derive(Drop)]
struct Reels {
    left: Reel<Recording>,
    right: Reel<Recording>,
}

impl Reels {
    /// The recording of the union: of any frames where one of them is.
    fn of_both(&self) -> &Reel<Recording>
        ensures { result.now ≡ reel_of_both self.now.left self.now.right }
    {
        if self.right.is_of_profile() {
            &self.left
        } else {
            &self.right
        }
    }

    /// Whether record, width and height are the same.
    fn are_of_one_record(&self) -> bool
        ensures { IsTrue result ↔ AreOfOneRecord self.now.left self.now.right }
    {
        if self.left.config() != self.right.config() {
            return false;
        }
        let (left_width, left_height) = size_of(&self.left);
        let (right_width, right_height) = size_of(&self.right);
        left_width == right_width && left_height == right_height
    }
}

/// How far both inputs were read, the next entry of each, and how many bytes the file still has room for.
#[derive(Drop)]
struct Merge {
    lefts: HoldReader,
    rights: HoldReader,
    room: u32,
}

impl Merge {
    /// Nothing was read or written yet.
    fn new() -> Merge
        ensures left_start { result.lefts.place ≡ 0 }
        ensures right_start { result.rights.place ≡ 0 }
        ensures left_held { result.lefts.held ≡ None }
        ensures right_held { result.rights.held ≡ None }
        ensures room { result.room ≡ file_limit }
    {
        Merge {
            lefts: HoldReader::new(),
            rights: HoldReader::new(),
            room: FILE_LIMIT,
        }
    }

    /// Reads both heads, the left one first, which are of one record and size.
    fn read_heads<R: Source, Q: Source>(
        &mut self,
        alloc: Global,
        recordings: Recordings,
        left: &mut R,
        right: &mut Q,
    ) -> Result<Reels, HoldFileFault>
        requires left_start { self.old.lefts.place ≡ 0 }
        requires right_start { self.old.rights.place ≡ 0 }
        ensures left { IfOk result (λ r. Takes (R.log left.old).remaining (R.log left.new).remaining 0 self.new.lefts.place (head_text self.new.lefts.version r.left)) }
        ensures right { IfOk result (λ r. Takes (Q.log right.old).remaining (Q.log right.new).remaining 0 self.new.rights.place (head_text self.new.rights.version r.right)) }
        ensures left_reel { IfOk result (λ r. IsFileReel recordings r.left) }
        ensures right_reel { IfOk result (λ r. IsFileReel recordings r.right) }
        ensures one { IfOk result (λ r. AreOfOneRecord r.left r.right) }
        ensures left_has { IfOk result (λ r. HasFileVersion self.new.lefts.version r.left.rules.is_profile) }
        ensures right_has { IfOk result (λ r. HasFileVersion self.new.rights.version r.right.rules.is_profile) }
        ensures left_held { self.new.lefts.held ≡ self.old.lefts.held }
        ensures right_held { self.new.rights.held ≡ self.old.rights.held }
        ensures room { self.new.room ≡ self.old.room }
        ensures err { IfErr result (HeadsRefuse (inputs_read recordings (R.log left.old) (R.log left.new) (Q.log right.old) (Q.log right.new))) }
        ensures went { (s : WriteLog) → MergeWent result (record { left = R.log left.old; right = Q.log right.old; sink = s })
            (record { left = R.log left.new; right = Q.log right.new; sink = s }) (0, 0) (self.new.lefts.place, self.new.rights.place) }
    {
        let first = self.lefts.read_head(alloc, recordings, left)?;
        let second = self.rights.read_head(alloc, recordings, right)?;
        let reels = Reels {
            left: first,
            right: second,
        };
        if !reels.are_of_one_record() {
            return Err(HoldFileFault::OtherReel);
        }
        Ok(reels)
    }

    /// Writes the head of the union, the entries of both inputs in their order, each once, and then the end tag.
    fn merge_after_heads<R: Source, Q: Source, W: Sink>(
        &mut self,
        alloc: Global,
        reels: &Reels,
        left: &mut R,
        right: &mut Q,
        sink: &mut W,
    ) -> Result<(), HoldFileFault>
        requires left_place { self.old.lefts.place ≤ file_limit }
        requires right_place { self.old.rights.place ≤ file_limit }
        requires left_held { self.old.lefts.held ≡ None }
        requires right_held { self.old.rights.held ≡ None }
        requires room { self.old.room ≡ file_limit }
        requires reel { length reels.now.left.config ≤ record_limit }
        requires one { AreOfOneRecord reels.now.left reels.now.right }
        ensures ok { WhereOpened self.old reels.now.left reels.now.right (devices (R.log left.old) (Q.log right.old) (W.log sink.old))
            (λ s. OnOk result (WritesUnion (inputs_from s (R.log left.new).remaining (Q.log right.new).remaining) s.sink (W.log sink.new).contents)) }
        ensures most { WhereOpened self.old reels.now.left reels.now.right (devices (R.log left.old) (Q.log right.old) (W.log sink.old))
            (λ s. OnOk result (WritesAtMost s.sink (W.log sink.new).contents file_limit)) }
        ensures err { WhereOpened self.old reels.now.left reels.now.right (devices (R.log left.old) (Q.log right.old) (W.log sink.old))
            (λ s. IfErr result (Stops (inputs_from s (R.log left.new).remaining (Q.log right.new).remaining) s.sink (W.log sink.new).contents)) }
        ensures went { MergeWent result (devices (R.log left.old) (Q.log right.old) (W.log sink.old))
            (devices (R.log left.new) (Q.log right.new) (W.log sink.new)) (self.old.lefts.place, self.old.rights.place) (file_limit, file_limit) }
    {
        self.begin(alloc, reels, left, right, sink)?;
        self.merge_entries(alloc, reels, left, right, sink)?;
        if self.room == 0 {
            return Err(HoldFileFault::TooLong);
        }
        write_field(sink, &[0])?;
        Ok(())
    }

    /// Writes the head of the union, and reads the first entry of each input.
    fn begin<R: Source, Q: Source, W: Sink>(
        &mut self,
        alloc: Global,
        reels: &Reels,
        left: &mut R,
        right: &mut Q,
        sink: &mut W,
    ) -> Result<(), HoldFileFault>
        requires left_place { self.old.lefts.place ≤ file_limit }
        requires right_place { self.old.rights.place ≤ file_limit }
        requires left_held { self.old.lefts.held ≡ None }
        requires right_held { self.old.rights.held ≡ None }
        requires room { self.old.room ≡ file_limit }
        requires reel { length reels.now.left.config ≤ record_limit }
        requires one { AreOfOneRecord reels.now.left reels.now.right }
        ensures left_place { OnOk result (self.new.lefts.place ≤ file_limit) }
        ensures right_place { OnOk result (self.new.rights.place ≤ file_limit) }
        ensures left_entry { OnOk result (IfSome self.new.lefts.held (IsFileEntryOf self.new.lefts.version reels.now.left.rules)) }
        ensures right_entry { OnOk result (IfSome self.new.rights.held (IsFileEntryOf self.new.rights.version reels.now.right.rules)) }
        ensures room { OnOk result (self.new.room ≤ file_limit) }
        ensures ok { WhereOpened self.old reels.now.left reels.now.right (devices (R.log left.old) (Q.log right.old) (W.log sink.old))
            (λ s. OnOk result (StandsAt s self.new (devices (R.log left.new) (Q.log right.new) (W.log sink.new)))) }
        ensures err { WhereOpened self.old reels.now.left reels.now.right (devices (R.log left.old) (Q.log right.old) (W.log sink.old))
            (λ s. IfErr result (Stops (inputs_from s (R.log left.new).remaining (Q.log right.new).remaining) s.sink (W.log sink.new).contents)) }
        ensures went { MergeWent result (devices (R.log left.old) (Q.log right.old) (W.log sink.old))
            (devices (R.log left.new) (Q.log right.new) (W.log sink.new)) (self.old.lefts.place, self.old.rights.place) (self.new.lefts.place, self.new.rights.place) }
    {
        let reel = reels.of_both();
        write_head(sink, reel)?;
        self.room -= 20 + reel.config().len() as u32;
        self.lefts.advance(alloc, left, &reels.left)?;
        self.rights.advance(alloc, right, &reels.right)?;
        Ok(())
    }

    /// Writes the entries of both inputs in their order, each slice once, and reads both to their ends. The tag after an
    /// entry is read only after that entry was written.
    fn merge_entries<R: Source, Q: Source, W: Sink>(
        &mut self,
        alloc: Global,
        reels: &Reels,
        left: &mut R,
        right: &mut Q,
        sink: &mut W,
    ) -> Result<(), HoldFileFault>
        requires left_place { self.old.lefts.place ≤ file_limit }
        requires right_place { self.old.rights.place ≤ file_limit }
        requires left_entry { IfSome self.old.lefts.held (IsFileEntryOf self.old.lefts.version reels.now.left.rules) }
        requires right_entry { IfSome self.old.rights.held (IsFileEntryOf self.old.rights.version reels.now.right.rules) }
        requires room { self.old.room ≤ file_limit }
        ensures ok { WhereStands self.old reels.now.left reels.now.right (devices (R.log left.old) (Q.log right.old) (W.log sink.old))
            (λ s. OnOk result (Ends s (R.log left.new).remaining (Q.log right.new).remaining (W.log sink.new).contents self.new.room)) }
        ensures err { WhereStands self.old reels.now.left reels.now.right (devices (R.log left.old) (Q.log right.old) (W.log sink.old))
            (λ s. IfErr result (Stops (inputs_from s (R.log left.new).remaining (Q.log right.new).remaining) s.sink (W.log sink.new).contents)) }
        ensures went { MergeWent result (devices (R.log left.old) (Q.log right.old) (W.log sink.old))
            (devices (R.log left.new) (Q.log right.new) (W.log sink.new)) (self.old.lefts.place, self.old.rights.place) (file_limit, file_limit) }
    {
        while let Some((entry, others, order)) = next_entry(&self.lefts.held, &self.rights.held) {
            write_entry(sink, &mut self.room, entry, others)?;
            match order {
                Ordering::Less => self.lefts.advance(alloc, left, &reels.left)?,
                Ordering::Greater => self.rights.advance(alloc, right, &reels.right)?,
                Ordering::Equal => {
                    self.lefts.advance(alloc, left, &reels.left)?;
                    self.rights.advance(alloc, right, &reels.right)?;
                }
            }
        }
        Ok(())
    }
}

/// The smaller of the next entries of both inputs, with the digests of the other where their slices are equal, and the order of the left
/// one's slice and the right one's, where an end comes after all.
fn next_entry<'a>(
    left: &'a Option<HeldSlice>,
    right: &'a Option<HeldSlice>,
) -> Option<(&'a HeldSlice, &'a [[u8; 32]], Ordering)>
    ensures some { IfSome result (λ t. IsTurn left.now right.now t.0.now t.1.now t.2) }
    ensures none { IfNone result ((left.now ≡ None) × (right.now ≡ None)) }
{
    match left {
        Some(a) => match right {
            Some(b) => match a.slice.compare(&b.slice) {
                Ordering::Less => Some((a, &[], Ordering::Less)),
                Ordering::Equal => Some((a, &b.origins, Ordering::Equal)),
                Ordering::Greater => Some((b, &[], Ordering::Greater)),
            },
            None => Some((a, &[], Ordering::Less)),
        },
        None => match right {
            Some(b) => Some((b, &[], Ordering::Greater)),
            None => None,
        },
    }
}

/// Writes an entry, with the digests of others too, where there is room for it.
fn write_entry<W: Sink>(
    sink: &mut W,
    room: &mut u32,
    entry: &HeldSlice,
    others: &[[u8; 32]],
) -> Result<(), HoldFileFault>
    requires entry { IsWritten entry.now }
    requires others { IsWritten (entry.now.0, others.now) }
    requires room { room.old ≤ file_limit }
    ensures { WritesEntry result (W.log sink.old) (W.log sink.new) room.old room.new (with_digests entry.now others.now) }
{
    let count = union_count(&entry.origins, others);
    let slice = entry.slice.bytes.as_slice();
    let Some(left) = room_after_entry(*room, slice.len(), count as usize) else {
        return Err(HoldFileFault::TooLong);
    };
    write_slice(sink, entry.slice.tile, slice)?;
    write_origins(sink, &entry.origins, others)?;
    *room = left;
    Ok(())
}
