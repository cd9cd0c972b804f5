//! A holding file that is read entry by entry (own).
ghost use Rattle.std.specs.Prelude.{◌≡◌, ◌≤◌, None, Some, IfSome, IfNone, IfOk, OnOk};
ghost use Rattle.std.specs.Io.KnownBytes.{IsAtEnd};
ghost use Rattle.ffv1_bits.specs.Limits.{file_limit};
ghost use Rattle.ffv1_bits.specs.Parity.{AreBytes};
ghost use Rattle.ffv1_hold.specs.Inner.Reading.{ReadsText};
ghost use Rattle.ffv1_hold.specs.HoldingText.{HasFileVersion, head_text};
ghost use Rattle.ffv1_hold.specs.FileEntries.{Follows, KeepsMagic, IsFileEntryOf};
ghost use Rattle.ffv1_hold.specs.FileFaults.{IsFileReel};
ghost use Rattle.ffv1_hold.specs.Inner.FileFaults.{IsPartOfHead, HeadIsWhole, HeadShows, ReadsNextEntry};

use crate::entry::{HeldSlice, read_entry};
use crate::file_fault::HoldFileFault;
use crate::head::{read_magic, read_reel};
use crate::version::Version;
use ffv1_devices::{Source, next_byte};
use ffv1_holding::{Recordings, Reel};
use ffv1_range::Recording;
use std::alloc::Global;

/// How far a holding file was read, its version, which the magic gives, and the entry that was read last: none before
/// the first, and none after the end tag.
#[derive(Drop)]
pub(crate) struct HoldReader {
    place: u32,
    version: Version,
    pub(crate) held: Option<HeldSlice>,
}

impl HoldReader {
    /// A file of which nothing was read.
    pub(crate) fn new() -> HoldReader
        ensures place { result.place ≡ 0 }
        ensures held { result.held ≡ None }
    {
        HoldReader {
            place: 0,
            version: Version::Second,
            held: None,
        }
    }

    /// Reads the head.
    pub(crate) fn read_head<S: Source>(
        &mut self,
        alloc: Global,
        recordings: Recordings,
        source: &mut S,
    ) -> Result<Reel<Recording>, HoldFileFault>
        requires { self.old.place ≡ 0 }
        ensures read { ReadsText (head_text self.new.version) (IsPartOfHead recordings) (HeadIsWhole recordings) (HeadShows recordings)
            (S.log source.old) (S.log source.new) 0 self.new.place result }
        ensures reel { IfOk result (IsFileReel recordings) }
        ensures has { IfOk result (λ r. HasFileVersion self.new.version r.rules.is_profile) }
        ensures held { self.new.held ≡ self.old.held }
    {
        let magic = read_magic(recordings, source, &mut self.place)?;
        self.version = magic.version;
        read_reel(alloc, source, &mut self.place, magic.of_profile)
    }

    /// Reads the next entry over the one that is held, or the end tag and the end of the input.
    pub(crate) fn advance<S: Source>(
        &mut self,
        alloc: Global,
        source: &mut S,
        reel: &Reel<Recording>,
    ) -> Result<(), HoldFileFault>
        requires { self.old.place ≤ file_limit }
        ensures read { ReadsNextEntry self.old.version reel.now self.old.held self.new.held
            (S.log source.old) (S.log source.new) self.old.place self.new.place result }
        ensures entry { OnOk result (IfSome self.new.held (IsFileEntryOf self.old.version reel.now.rules)) }
        ensures follows { OnOk result (IfSome self.new.held (λ e. Follows self.old.held e.0)) }
        ensures keeps { OnOk result (IfSome self.new.held (λ e. KeepsMagic reel.now self.old.held (Some e.0))) }
        ensures end_keeps { OnOk result (IfNone self.new.held (KeepsMagic reel.now self.old.held None)) }
        ensures bytes { self.old.held ≡ None → OnOk result (IfSome self.new.held (λ e. AreBytes e.0.1)) }
        ensures version { self.new.version ≡ self.old.version }
        ensures end { OnOk result (IfNone self.new.held (IsAtEnd (S.log source.new).remaining)) }
    {
        let last = self.held.take();
        match read_entry(alloc, source, &mut self.place, self.version, reel, last)? {
            Some(slice) => self.held = Some(slice),
            None => match next_byte(source)? {
                Some(_) => return Err(HoldFileFault::Trailing),
                None => self.held = None,
            },
        }
        Ok(())
    }
}
