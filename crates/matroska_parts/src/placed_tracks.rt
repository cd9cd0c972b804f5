//! The parts of items, by the tracks of a file.

use crate::elements::{pass_inside, push_end, push_inside};
use crate::file_tracks::FileTracks;
use crate::items::push_item;
use crate::masters::push_master_child;
use crate::parts::{Closing, Part, Span};
use crate::top_elements::top_element;
use crate::tracks_search::{FoundTracks, tracks_found};
use ebml::{Head, Kind};
use ebml_reader::{FoundItem, Intake, ReaderFault, RunningCrc32};
use ffv1_devices::Source;
use matroska::Track;
use std::alloc::{AllocError, Global};
use std::marker::Model;

/// The first Tracks of a file, and the tracks that blocks can name by it: by these the parts of its items are found.
#[derive(Drop)]
pub struct PlacedTracks<'a> {
    file: FileTracks<'a>,
    found: &'a FoundTracks,
}

impl<'a> Model for PlacedTracks<'a> {
    ghost use Rattle.matroska_parts.specs.SourceParts.{KnownTracks, found_in};
    ghost use Rattle.matroska_parts.specs.FileTracks.{HasFacts};

    ghost Value = { KnownTracks };

    ghost view = { λ s. record { first = found_in s.found.now; tracks = s.file.named.tracks.items } };

    ghost invariant = { λ s. HasFacts s.file };
}

impl<'a> PlacedTracks<'a> {
    ghost use Rattle.std.specs.Prelude.{ℕ, ◌≡◌, ◌≢◌, ◌+◌, ◌<◌, ◌^◌, List, length, IfOk, OnOk};
    ghost use Rattle.ebml.specs.Children.{IsElement};
    ghost use Rattle.ebml.specs.Masters.{cluster_id};
    ghost use Rattle.ebml.specs.declared.items.Kind.TheVariants as kind;
    ghost use Rattle.ebml_reader.specs.Intake.{IsBounded};
    ghost use Rattle.ebml_reader.specs.Starts.{IsStartOf};
    ghost use Rattle.matroska_parts.specs.ItemParts.{AreTracksBy};
    ghost use Rattle.matroska_parts.specs.SourceParts.{found_in, IsGivenAt, AddsItemParts};
    ghost use Rattle.matroska_parts.specs.StreamedParts.{IsPlacedAt, AddsChildParts, AddsEndParts, PassesElement};

    /// Those that a Tracks describes. It fails only if an allocation fails.
    pub fn new(alloc: Global, found: &'a FoundTracks) -> Result<PlacedTracks<'a>, AllocError>
        ensures tracks { IfOk result (λ tracks. AreTracksBy (found_in found.now) tracks.tracks) }
        ensures first { IfOk result (λ tracks. tracks.first ≡ found_in found.now) }
    {
        let file = tracks_found(alloc, found)?;
        Ok(PlacedTracks { file, found })
    }

    /// The tracks, in the order of the file's Tracks.
    pub fn as_slice(&self) -> &[Track<'a>]
        ensures { result.now ≡ self.now.tracks }
    {
        self.file.named.as_slice()
    }

    /// Adds the parts of an item that begins at this place, with the bytes of it that a reader keeps. It fails only if an allocation fails.
    pub fn push(
        &self,
        alloc: Global,
        place: u64,
        item: &FoundItem,
        bytes: &[u8],
        parts: &mut Vec<Part>,
    ) -> Result<(), AllocError>
        requires { (all : List ℕ) × IsGivenAt place item.now bytes.now all }
        ensures { (all : List ℕ) → IsGivenAt place item.now bytes.now all
            → OnOk result (AddsItemParts item.now.kind self.now.first self.now.tracks place all parts.old.items parts.new.items) }
    {
        if let Kind::Unknown = item.kind {
            let size = item.length;
            parts.push(Part::Unknown(Span { place, size }))?;
            return Ok(());
        }
        push_item(
            alloc,
            &self.file,
            self.found.place,
            place,
            &item.kind,
            bytes,
            parts,
        )
    }

    /// Passes what follows the head of an element of known size that is no Cluster, up to its end, and adds its parts: the head was passed, and
    /// begins at this place. Says how many bytes follow it. An EBML's are held whole, of any other one piece.
    ///
    /// Returns `Read` if the source failed, or gave 2^62 bytes, and `Memory` if an allocation fails.
    pub fn pass_element<S: Source>(
        &self,
        alloc: Global,
        place: u64,
        head: &Head,
        intake: &mut Intake,
        source: &mut S,
        parts: &mut Vec<Part>,
    ) -> Result<u64, ReaderFault>
        requires other { head.now.id ≢ cluster_id }
        requires start { (start : List ℕ) × IsStartOf (kind.Element head.now) start intake.old }
        requires bounded { IsBounded intake.old }
        requires placed { IsPlacedAt (place + head.now.length) intake.old }
        ensures { (start : List ℕ) → IsStartOf (kind.Element head.now) start intake.old
            → PassesElement self.now place head.now start result parts.old.items parts.new.items intake.old intake.new (S.log source.old) (S.log source.new) }
    {
        let Some(element) = top_element(head.id) else {
            return Ok(0);
        };
        let Some(size) = head.size else {
            return Ok(0);
        };
        let mut crc = RunningCrc32::new();
        let inside = pass_inside(alloc, element, head.id, size, &mut crc, intake, source)?;
        push_inside(
            &self.file,
            self.found.place,
            place,
            element,
            head,
            &inside,
            &crc,
            parts,
        )?;
        Ok(inside.length)
    }

    /// Adds the parts of a child of an element of the top, which lies at this place of the file: as they are if the CRC-32 of that element does not
    /// pass. It fails only if an allocation fails.
    pub fn push_child(
        &self,
        alloc: Global,
        place: u64,
        child: &[u8],
        head: &Head,
        parts: &mut Vec<Part>,
    ) -> Result<(), AllocError>
        requires element { IsElement head.now child.now }
        requires room { place + length child.now < 2 ^ 64 }
        ensures { OnOk result (AddsChildParts self.now.tracks place child.now parts.old.items parts.new.items) }
    {
        push_master_child(alloc, &self.file, false, place, child, head, parts)
    }

    /// Adds what is said at the end of an element of the top, whose content begins at a place of the file: the records of the tracks, if it is the
    /// first Tracks and not cut, and the end. It fails only if an allocation fails.
    pub fn push_end(
        &self,
        from: u64,
        closing: &Closing,
        parts: &mut Vec<Part>,
    ) -> Result<(), AllocError>
        requires { from < 2 ^ 63 }
        ensures { OnOk result (AddsEndParts self.now from closing.now parts.old.items parts.new.items) }
    {
        push_end(&self.file, self.found.place, from, closing, parts)
    }
}
