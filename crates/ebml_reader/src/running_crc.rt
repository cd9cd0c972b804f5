//! The CRC-32 of an element's content that comes in pieces (RFC 8794, section 11.3.1).
ghost use Rattle.std.specs.Prelude.{◌≡◌, ◌+◌, ◌≤◌, ◌++◌, length, take};

use ebml::{crc32_after, crc32_element, has_crc32};
use std::marker::Model;

/// A CRC-32 element at the front of a content has so many bytes.
const FRONT: usize = 6;

/// The CRC-32 of a content, as far as that has come: its front, and the CRC-32 of what follows that. It is only summed if the front is a CRC-32
/// element.
#[derive(Drop)]
pub struct RunningCrc32 {
    front: [u8; 6],
    length: usize,
    crc: u32,
}

impl Model for RunningCrc32 {
    ghost use Rattle.std.specs.Prelude.{◌≤◌, take};
    ghost use Rattle.ebml_reader.specs.RunningCrc.{CrcSoFar};

    ghost Value = { CrcSoFar };

    ghost view = { λ s. record { front = take s.length s.front; crc = s.crc } };

    ghost invariant = { λ s. s.length ≤ 6 };
}

impl RunningCrc32 {
    ghost use Rattle.std.specs.Prelude.{ℕ, ◌≡◌, ◌↔◌, ◌++◌, IsTrue, List, []};
    ghost use Rattle.ebml.specs.CrcElement.{HasCrc32, PassesCrc32};
    ghost use Rattle.ebml_reader.specs.RunningCrc.{RunsOver};

    /// Before the first byte.
    pub fn new() -> RunningCrc32
        ensures { RunsOver [] result }
    {
        RunningCrc32 {
            front: [0; 6],
            length: 0,
            crc: 0,
        }
    }

    /// Goes over the next bytes of the content.
    pub fn push(&mut self, piece: &[u8])
        ensures { (content : List ℕ) → RunsOver content self.old → RunsOver (content ++ piece.now) self.new }
    {
        let count = (FRONT - self.length).min(piece.len());
        let (front, rest) = piece.split_at(count);
        self.length = put_at(&mut self.front, self.length, front);
        if has_crc32(&self.front[..self.length]) {
            self.crc = crc32_after(self.crc, rest);
        }
    }

    /// Whether the content, which has gone by, begins with a CRC-32 element, be it right or not.
    pub fn has_crc32(&self) -> bool
        ensures { (content : List ℕ) → RunsOver content self.now → IsTrue result ↔ HasCrc32 content }
    {
        has_crc32(&self.front[..self.length])
    }

    /// Whether the content, which has gone by, begins with a CRC-32 that is right.
    pub fn passes(&self) -> bool
        ensures { (content : List ℕ) → RunsOver content self.now → IsTrue result ↔ PassesCrc32 content }
    {
        &self.front[..self.length] == crc32_element(self.crc).as_slice()
    }
}

/// Puts bytes to a place, and says where they end.
fn put_at(front: &mut [u8; 6], place: usize, bytes: &[u8]) -> usize
    requires { place + length bytes.now ≤ 6 }
    ensures both { take result front.new ≡ take place front.old ++ bytes.now }
    ensures within { result ≤ 6 }
    ensures end { result ≡ place + length bytes.now }
{
    let end = place + bytes.len();
    front[place..end].copy_from_slice(bytes);
    end
}
