//! The items of a Matroska file that does not lie in memory, one after the other (RFC 9559; own).
#![tactic(auto)]

mod clusters;
mod elements;
mod fault;
mod intake;
mod pieces;
mod reader;
mod running_crc;
mod settled;
mod starts;
mod streamed;
mod unknown;

pub use fault::ReaderFault;
pub use intake::Intake;
pub use pieces::{pass_bytes, pass_summed, take_bytes};
pub use reader::ItemReader;
pub use running_crc::RunningCrc32;
pub use settled::FoundItem;
pub use starts::{ItemStart, pass_rest, pass_start, start_and_rest_are_item};
pub use streamed::{PassedContent, claimed_child, held_child, pass_content};
