//! Devices (own): what is read and what is written, byte by byte or whole, how often a device failed, and when it is
//! given up.
#![tactic(auto)]

mod exact;
mod failures;
mod reads;
mod streams;
mod whole;
mod writes;

pub use exact::{CutShort, NextFault, fill, pass_over, read_next};
pub use reads::{ReadFailed, next_byte, read_full, read_some};
pub use streams::{FromRead, FromWrite, Sink, Source, ThroughWrite};
pub use whole::{WholeFault, read_whole};
pub use writes::{WriteFailed, write_field, write_pair};
