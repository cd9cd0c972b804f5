//! The calls that mend a file of its stretches.
use crate::attempt::{Attempt, Tried};
use crate::buffer::Buffer;
use crate::stock::{TORN_LIST, damaged_copies, damaged_elements, element};
use ffv1_bits::remainder;
use ffv1_devices::{FromRead, FromWrite};
use ffv1_mend::{Kind, Part, Sort, State, mend};
use ffv1_stretches::{CopyReader, ListFault, MendFault, mend_stretches, read_list};
use std::alloc::Global;
use std::io::Write;

/// `mend` of both damaged elements, with the frame as their part.
#[derive(Drop)]
pub struct Mend;

/// Where the frame lies in the element.
const FRAME: Part = Part {
    start: 6,
    end: 342,
    sort: Sort::Frame,
};

impl Attempt for Mend {
    fn attempt(&mut self, alloc: Global) -> Tried {
        let [one, other] = damaged_elements();
        match mend(alloc, Kind::Crc32, &[&one, &other], &one, &[FRAME]) {
            Ok(mended)
                if mended.state() == State::Woven(4) && mended.bytes() == element().as_slice() => {
                Tried::Done(remainder(mended.bytes()))
            }
            Ok(_) => Tried::Wrong,
            Err(_) => Tried::Memory,
        }
    }
}

/// A list of stretches of each kind, and of a part of each sort, that two copies have.
const LIST: &[u8] =
    b"frame 4 1 0 -\ncrc32 100 2 4 0\npart 6 10\npart 16 84 flac\nrecord 6 1 104 100\nflac 12 2 110 106\nplain 3 1 122 118\n";

/// `read_list` of the list.
#[derive(Drop)]
pub struct ReadList;

impl Attempt for ReadList {
    fn attempt(&mut self, alloc: Global) -> Tried {
        match read_list(alloc, LIST, 2) {
            Ok(stretches) => {
                let mut shown = Buffer::new();
                match write!(shown, "{stretches:?}") {
                    Ok(()) => Tried::Done(shown.remainder()),
                    Err(_) => Tried::Wrong,
                }
            }
            Err(ListFault::Memory) => Tried::Memory,
            Err(ListFault::Line(_)) => Tried::Wrong,
        }
    }
}

/// `mend_stretches` of both damaged copies as one stretch, whose list it reads.
#[derive(Drop)]
pub struct MendStretches {
    made: Buffer,
    printed: Buffer,
}

impl MendStretches {
    /// Nothing was written.
    pub fn new() -> MendStretches {
        MendStretches {
            made: Buffer::new(),
            printed: Buffer::new(),
        }
    }

    /// Makes the call.
    fn mend(&mut self, alloc: Global) -> Result<bool, MendFault> {
        let Ok(stretches) = read_list(alloc, TORN_LIST, 2) else {
            return Err(MendFault::Memory);
        };
        let [one, other] = damaged_copies();
        let mut copies = [
            CopyReader::new(alloc, FromRead::new(one.as_slice())),
            CopyReader::new(alloc, FromRead::new(other.as_slice())),
        ];
        let mut out = FromWrite::new(Buffer::new());
        let mut output = FromWrite::new(Buffer::new());
        let returned = mend_stretches(
            alloc,
            stretches.as_slice(),
            &mut copies,
            &mut out,
            &mut output,
        );
        self.made = out.into_inner();
        self.printed = output.into_inner();
        returned
    }
}

impl Attempt for MendStretches {
    fn attempt(&mut self, alloc: Global) -> Tried {
        match self.mend(alloc) {
            Ok(true) => Tried::Done(self.made.remainder() ^ self.printed.remainder()),
            Err(MendFault::Memory) => Tried::Memory,
            Ok(_) | Err(_) => Tried::Wrong,
        }
    }

    fn is_kept(&self) -> bool {
        self.made.is_empty() && self.printed.is_empty()
    }
}
