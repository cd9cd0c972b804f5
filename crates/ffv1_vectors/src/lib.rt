//! Vectors: records, slices and frames made to measure, each read back before it is returned; damage that is exact; and
//! the suite of cases on which all calls are tried.
#![tactic(auto)]

mod asked;
mod damage;
mod encoder;
mod fault;
mod frame;
mod parity;
mod plane;
mod planes;
mod record;
mod rice;
mod slice;
mod successors;
mod suite;
mod symbol;
mod writer;

pub use damage::{burst, cut, flip, put_front, zero};
pub use encoder::{RangeEncoder, SymbolEncoder};
pub use fault::MakeFault;
pub use frame::{FrameSpec, TileSpec, make_frame};
pub use parity::with_parity;
pub use plane::{CodedPlane, Coding, Residual, RowWriter, coding_of};
pub use planes::write_planes;
pub use record::{RecordSpec, make_record, spell_record};
pub use rice::RiceWriter;
pub use slice::spell_slice;
pub use successors::Successors;
pub use suite::{
    SUITE_NUMBERS, SuiteCase, SuiteContent, SuiteTables, suite_case, suite_frame, suite_record,
};
