//! Whether a recording has the table sets asked for (RFC 9043, sections 3.5, 4.2.15 and 4.9).
ghost use Rattle.std.specs.Prelude.{◌≡◌, ◌≤◌, ◌<◌, ◌*◌, ℕ, IsTrue, length, map, slice_index, slice_index_or};
ghost use Rattle.ffv1_range.specs.InitialStates.{uncoded_states};
ghost use Rattle.ffv1_range.specs.Tables.{IsTable, half_of, runs_ended};
ghost use Rattle.ffv1_makings.specs.Asked.{asked_states};
ghost use Rattle.ffv1_makings.specs.Inner.ReadBack.{ShowsHalf, ShowsTables, ShowsSet};

use crate::spec::SetSpec;
use ffv1_range::Recording;

/// The most contexts of a set, counted with both signs.
const MOST_SIGNED_CONTEXTS: u32 = 65535;

/// Whether the recording of this coder_type has these sets.
pub(crate) fn has_sets(recording: &Recording, coder: u32, sets: &[SetSpec]) -> bool
    ensures count { IsTrue result → length recording.now.setup.sets ≡ length sets.now }
    ensures each { IsTrue result → (set : ℕ) (d : SetSpec) → set < length sets.now → ShowsSet recording.now coder set (slice_index_or sets.now set d) }
{
    if recording.sets() != sets.len() {
        return false;
    }
    for (set, asked) in sets.iter().enumerate() {
        if !has_set(recording, coder, set, asked) {
            return false;
        }
    }
    true
}

/// Whether a set is what was asked for.
fn has_set(recording: &Recording, coder: u32, set: usize, asked: &SetSpec) -> bool
    requires { set < length recording.now.setup.sets }
    ensures { IsTrue result → ShowsSet recording.now coder set asked.now }
{
    has_tables(recording, set, &asked.tables) && has_states(recording, coder, set, &asked.states)
}

/// Whether these are the tables of a set.
fn has_tables(recording: &Recording, set: usize, tables: &[Vec<u32>]) -> bool
    requires { set < length recording.now.setup.sets }
    ensures { IsTrue result → ShowsTables recording.now set (map (λ runs. runs.items) tables.now) }
{
    if tables.len() != 5 {
        return false;
    }
    let mut scale = 1;
    for (table, runs) in tables.iter().enumerate() {
        if !is_table(runs) || !has_half(recording, set, table, scale, runs) {
            return false;
        }
        let next = scale * (2 * runs.len() as u32 - 1);
        if next > MOST_SIGNED_CONTEXTS {
            return false;
        }
        scale = next;
    }
    recording.contexts(set) == (scale + 1) / 2
}

/// Whether these are the lengths of a table's runs.
fn is_table(runs: &[u32]) -> bool
    ensures table { IsTrue result → IsTable runs.now }
    ensures some { IsTrue result → 1 ≤ length runs.now }
    ensures few { IsTrue result → length runs.now ≤ 128 }
{
    let mut total = 0;
    for length in runs {
        if *length == 0 || *length > 128 - total {
            return false;
        }
        total += *length;
    }
    total == 128
}

/// Whether the first half of a table of a set has these runs at this scale.
fn has_half(recording: &Recording, set: usize, table: usize, scale: u32, runs: &[u32]) -> bool
    requires set { set < length recording.now.setup.sets }
    requires table { table < 5 }
    requires scale { scale ≤ 65535 }
    requires runs { IsTable runs.now }
    ensures { IsTrue result → ShowsHalf recording.now set table (half_of scale runs.now) }
{
    for index in 0..128usize {
        let entry = recording.entry(set, table, index).unsigned_abs();
        if entry != scale * runs_ended(runs, index as u32) {
            return false;
        }
    }
    true
}

/// How many of a table's runs have ended at an entry.
fn runs_ended(runs: &[u32], index: u32) -> u32
    requires { IsTable runs.now }
    ensures value { result ≡ runs_ended 0 runs.now index }
    ensures few { result ≤ 128 }
{
    let mut from = 0;
    let mut ended = 0;
    for length in runs {
        from += *length;
        if from <= index {
            ended += 1;
        }
    }
    ended
}

/// Whether these are the initial states of a set, where a decoder keeps any.
fn has_states(recording: &Recording, coder: u32, set: usize, states: &[[u8; 32]]) -> bool
    requires { set < length recording.now.setup.sets }
    ensures { IsTrue result → slice_index_or recording.now.states set uncoded_states ≡ asked_states coder states.now }
{
    if recording.states_coded(set) == states.is_empty() {
        return false;
    }
    match recording.initial(set) {
        Some(initial) => coder != 0 && !states.is_empty() && same_states(initial, states),
        None => coder == 0 || states.is_empty(),
    }
}

/// Whether states are the same.
fn same_states(states: &[[u8; 32]], others: &[[u8; 32]]) -> bool
    ensures { IsTrue result → states.now ≡ others.now }
{
    states == others
}
