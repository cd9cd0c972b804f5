//! The picture of a tile, from the content of its slice (RFC 9043, sections 3.1 to 3.5, 3.8.2 and 4.7).
#![tactic(auto)]

mod coded_order;
mod first_rows;
mod lines;
mod neighbours;
mod plane;
mod planes;
mod range_rows;
mod rice_planes;
mod rice_rows;
mod row_reader;
mod run;
mod tables;
mod tile;

pub use first_rows::{first_rows_of_codes, first_rows_of_range};
pub use neighbours::Neighbours;
pub use planes::{
    LinesFault, PlaneSize, RangeLines, group_of, one_range_fault, one_range_reading,
    read_range_planes,
};
pub use range_rows::DifferenceFault;
pub use rice_planes::{
    CodesFault, RiceLines, one_codes_fault, one_codes_reading, read_rice_planes,
};
pub use tables::Tables;
pub use tile::{
    TileFault, TilePicture, decode_tile, each_is_spelled, one_fault, one_reading, start_states,
};
