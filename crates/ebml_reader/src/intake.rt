//! What was read of a source and not passed yet.
ghost use Rattle.std.specs.Prelude.{◌≡◌, ◌↔◌, ◌+◌, ◌^◌, ◌<◌, ◌≤◌, false, IsTrue, OnOk, nat_eq, ◌++◌, length, drop};
ghost use Rattle.ffv1_bits.specs.Parity.{AreBytes};
ghost use Rattle.ebml_reader.specs.Reader.{nothing_held};
ghost use Rattle.ebml_reader.specs.Intake.{IsBounded, FillsUp};
ghost use Rattle.ebml_reader.specs.Inner.Piece.{ReadsPiece};

use crate::fault::ReaderFault;
use ffv1_devices::{Source, read_some};
use std::alloc::{AllocError, Global};
use std::marker::Model;

/// So many bytes are read at once, at most.
const PIECE: usize = 65536;

/// A file of so many bytes or more is not read.
const LIMIT: u64 = 1 << 62;

/// What was read of a source and not passed yet. It is read in pieces of 64 KiB, and grows with the bytes that are there, never by what a size says.
#[derive(Drop)]
pub struct Intake {
    // what is held lies in it from `start` on
    room: Vec<u8>,
    start: usize,
    taken: u64,
    is_ended: bool,
}

impl Model for Intake {
    ghost use Rattle.std.specs.Prelude.{◌≤◌, ◌<◌, ◌+◌, ◌^◌, drop, vec_len};
    ghost use Rattle.ebml_reader.specs.Reader.{Held};

    ghost Value = { Held };

    ghost view = { λ s. record { bytes = drop s.start s.room.items; taken = s.taken; ended = s.is_ended } };

    ghost invariant = { λ s. (s.start ≤ vec_len s.room) × (vec_len s.room ≤ s.start + s.taken) × (s.taken < 2 ^ 63) };
}

impl Intake {
    /// Before the first byte.
    pub fn new(alloc: Global) -> Intake
        ensures { result ≡ nothing_held }
    {
        Intake {
            room: Vec::new(alloc),
            start: 0,
            taken: 0,
            is_ended: false,
        }
    }

    /// The bytes that are held.
    pub fn bytes(&self) -> &[u8]
        ensures bytes { result.now ≡ self.now.bytes }
        ensures bounded { IsBounded self.now }
    {
        &self.room[self.start..]
    }

    /// Whether the source has ended after them.
    pub(crate) fn is_ended(&self) -> bool
        ensures { result ≡ self.now.ended }
    {
        self.is_ended
    }

    /// Passes so many of them: they are held no longer.
    pub fn pass(&mut self, count: usize)
        requires { count ≤ length self.old.bytes }
        ensures { self.new ≡ record { bytes = drop count self.old.bytes; taken = self.old.taken; ended = self.old.ended } }
    {
        self.start += count;
    }

    /// Lets those go that were passed. Where none were nothing moves, so that a long block is not copied for each piece of it.
    fn clear_passed(&mut self)
        ensures { self.new ≡ self.old }
    {
        if self.start == 0 {
            return;
        }
        let left = self.room.len() - self.start;
        self.room.copy_within(self.start.., 0);
        self.room.truncate(left);
        self.start = 0;
    }

    /// Reads one piece more.
    fn read_piece<S: Source>(&mut self, source: &mut S) -> Result<(), ReaderFault>
        requires { self.old.ended ≡ false }
        ensures { ReadsPiece result self.old self.new (S.log source.old) (S.log source.new) }
    {
        if self.taken >= LIMIT {
            return Err(ReaderFault::Read);
        }
        self.clear_passed();
        let mut piece = [0u8; PIECE];
        let count = read_some(source, &mut piece)?;
        self.hold(&piece[..count])?;
        Ok(())
    }

    /// Holds the bytes that were read next. If there are none, the source has ended.
    fn hold(&mut self, piece: &[u8]) -> Result<(), AllocError>
        requires { self.old.taken + length piece.now < 2 ^ 63 }
        ensures are { AreBytes piece.now }
        ensures held { OnOk result (self.new ≡ record {
          bytes = self.old.bytes ++ piece.now;
          taken = self.old.taken + length piece.now;
          ended = nat_eq (length piece.now) 0;
        }) }
    {
        self.room.extend_from_slice(piece)?;
        self.taken += piece.len() as u64;
        self.is_ended = piece.is_empty();
        Ok(())
    }

    /// Whether the source has not ended, and fewer bytes are there.
    fn lacks(&self, size: u64) -> bool
        ensures lacks { IsTrue result ↔ (self.now.ended ≡ false) × (length self.now.bytes < size) }
        ensures bounded { IsBounded self.now }
    {
        !self.is_ended && ((self.room.len() - self.start) as u64) < size
    }

    /// Reads on, until so many bytes are held or the source has ended.
    ///
    /// Returns `Read` if the source failed, or gave 2^62 bytes, and `Memory` if an allocation fails. After that nothing more is said of what it
    /// holds.
    pub fn fill<S: Source>(&mut self, source: &mut S, size: u64) -> Result<(), ReaderFault>
        ensures { FillsUp size result self.old self.new (S.log source.old) (S.log source.new) }
    {
        while self.lacks(size) {
            self.read_piece(source)?;
        }
        Ok(())
    }
}
