//! What a check of a Matroska file reports (own): a line for each thing that is wrong.
#![tactic(auto)]

mod check;
mod checked_bytes;
mod clusters;
mod findings;
mod progress;
mod report;
mod source;
mod text;
mod tops;
mod track_states;
mod waiting;

pub use check::{
    check_file, checked_bytes_pass, cut_file_is_seen, records_are_there, report_is_one,
    small_damage_in_link_is_seen, small_damage_is_seen,
};
pub use findings::{Finding, Line, push_line};
pub use report::{Report, TrackCount};
pub use source::check_source;
pub use text::push_report;
