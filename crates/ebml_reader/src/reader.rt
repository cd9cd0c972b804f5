//! A reader that gives the items of a file one after the other.
ghost use Rattle.std.specs.Prelude.{◌≡◌, List, []};
ghost use Rattle.ebml.specs.Items.{ItemValue};
ghost use Rattle.ffv1_devices.specs.Logs.{ReadLog};
ghost use Rattle.ebml_reader.specs.Reader.{nothing_held, StandsAfter, GivesNext};

use crate::fault::ReaderFault;
use crate::intake::Intake;
use crate::settled::{FoundItem, read_item};
use ffv1_devices::Source;
use std::alloc::Global;
use std::marker::Model;

/// Gives the items of a file one after the other, as they are read from a source in pieces of 64 KiB. It holds one element at a time, which
/// grows with the bytes that are there and never by what a size says, and one piece. Of a Cluster of unknown size it holds all children; a
/// child that runs past the end of the file keeps what is left of the file, as its end has to be looked for.
#[derive(Drop)]
pub struct ItemReader {
    intake: Intake,
    given: usize,
}

impl Model for ItemReader {
    ghost use Rattle.std.specs.Prelude.{◌≤◌, length, take, drop};
    ghost use Rattle.ebml_reader.specs.Reader.{ReaderState};

    ghost Value = { ReaderState };

    ghost view = { λ s. record { given = take s.given s.intake.bytes; held = record s.intake { bytes = drop s.given s.intake.bytes } } };

    ghost invariant = { λ s. s.given ≤ length s.intake.bytes };
}

impl ItemReader {
    /// Before the first item.
    pub fn new(alloc: Global) -> ItemReader
        ensures { result ≡ record { given = []; held = nothing_held } }
    {
        ItemReader {
            intake: Intake::new(alloc),
            given: 0,
        }
    }

    /// Reads the next item from the source, always one and the same: what it is, and how many bytes it has. `None` after the last one.
    ///
    /// Returns `Read` if the source failed, or gave 2^62 bytes, and `Memory` if an allocation fails. After that nothing more is said of what it
    /// gives.
    pub fn next<S: Source>(&mut self, source: &mut S) -> Result<Option<FoundItem>, ReaderFault>
        ensures { (first : ReadLog) (items : List ItemValue) → StandsAfter first items self.old.held (S.log source.old)
            → GivesNext first items result self.new (S.log source.new) }
    {
        self.intake.pass(self.given);
        self.given = 0;
        let Some(settled) = read_item(&mut self.intake, source)? else {
            return Ok(None);
        };
        self.given = settled.kept;
        Ok(Some(settled.found))
    }

    /// The bytes of the item that it gave last; none of an unknown one.
    pub fn bytes(&self) -> &[u8]
        ensures { result.now ≡ self.now.given }
    {
        &self.intake.bytes()[..self.given]
    }
}
