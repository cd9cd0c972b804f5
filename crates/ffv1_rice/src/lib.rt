//! Golomb-Rice codes of sample differences, their adaptive states, and the words of runs (RFC 9043, section 3.8.2).
#![tactic(auto)]

mod code;
mod run;
mod state;

pub use code::{
    BYTE_DEPTH, CodeFault, ESCAPE_OFFSET, ESCAPE_ZEROS, codes_are_one, faults_are_one,
    faults_exclude_codes,
};
pub use run::{
    RunIndex, RunWord, cuts_exclude_runs, runs_are_one, words_are_one, words_spell_runs,
};
pub use state::{VlcState, fold, states_stay};
