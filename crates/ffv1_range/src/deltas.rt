//! Initial states (RFC 9043, sections 4.2.14 and 4.2.15): for each set states_coded, and where it is 1 a signed symbol
//! for each of the 32 states of each context. With Golomb-Rice codes they are read and dropped.
//!
//! Delta number k is read at row k of 32 rows, which start once a record and are kept over its sets.
ghost use Rattle.std.specs.Prelude.{◌≡◌, ◌≤◌, ◌<◌, ℕ, Bool, true, [], IsOk, IfOk, IfErr, Ok, Err, vec_capacity};
ghost use Rattle.ffv1_range.specs.Forms.{ReadsForm, form_at};
ghost use Rattle.ffv1_range.specs.InitialStates.{initial_states};
ghost use Rattle.ffv1_range.specs.TableForms.{delta_form, context_deltas, set_states, states_form};
ghost use Rattle.ffv1_range.specs.Views.{set_values, states_value, states_values};
ghost use Rattle.ffv1_range.specs.Inner.Forms.{ReadsFormAs, ReadsTo};
ghost use Rattle.ffv1_range.specs.Inner.TableForms.{ReadsDeltas, states_with, each_set};
ghost use Rattle.ffv1_range.specs.Inner.Views.{contexts_of};
ghost use Rattle.ffv1_range.specs.declared.fault.SetupFault.TheVariants.{Range};

use crate::coding::RangeDecoder;
use crate::fault::SetupFault;
use crate::fields::delta_byte;
use crate::tables::TableSet;
use std::alloc::Global;

/// The initial states of a set's contexts.
#[derive(Drop)]
pub(crate) enum SetStates {
    /// None are coded: all are 128.
    Uncoded,
    /// They are coded, and dropped.
    Dropped,
    /// The 32 states of each context.
    Kept(Vec<[u8; 32]>),
}

/// Reads the initial states of all sets into them, and keeps those that are coded or drops them.
///
/// `Memory` stands straight after the states_coded of a set whose states are kept.
pub(crate) fn read_initial_states(
    alloc: Global,
    decoder: &mut RangeDecoder<'_>,
    record_row: &mut [u8; 32],
    sets: &mut [TableSet],
    keeps: bool,
) -> Result<(), SetupFault>
    requires { IsOk decoder.old.at }
    ensures read { IfOk result (λ done. ReadsTo Range states_values (states_form each_set keeps (contexts_of sets.old)) decoder.old record_row.old (Ok done) decoder.new record_row.new sets.new) }
    ensures kept { IfOk result (λ done. set_values sets.new ≡ set_values sets.old) }
    ensures refused { IfErr result (λ fault. (granted : ℕ → Bool) × (form_at Range (states_form granted keeps (contexts_of sets.old)) decoder.old record_row.old ≡ Err fault)) }
{
    let mut rows = [[128; 32]; 32];
    for index in 0..sets.len() {
        let contexts = sets[index].contexts;
        let coded = read_set_states(alloc, decoder, record_row, &mut rows, contexts, keeps)?;
        sets[index].states = coded;
    }
    Ok(())
}

/// Reads states_coded of one set, and its states where it is 1.
fn read_set_states(
    alloc: Global,
    decoder: &mut RangeDecoder<'_>,
    record_row: &mut [u8; 32],
    rows: &mut [[u8; 32]; 32],
    contexts: u32,
    keeps: bool,
) -> Result<SetStates, SetupFault>
    ensures read { IfOk result (λ states. ReadsFormAs Range states_value (set_states true keeps contexts) decoder.old (record_row.old, rows.old) (Ok states) decoder.new (record_row.new, rows.new)) }
    ensures refused { IfErr result (λ fault. (granted : Bool) × (form_at Range (set_states granted keeps contexts) decoder.old (record_row.old, rows.old) ≡ Err fault)) }
{
    if !decoder.slot(record_row, 0)? {
        return Ok(SetStates::Uncoded);
    }
    if !keeps {
        drop_states(decoder, rows, contexts)?;
        return Ok(SetStates::Dropped);
    }
    let mut states = Vec::with_capacity(alloc, contexts as usize)?;
    read_states(decoder, rows, contexts, &mut states)?;
    Ok(SetStates::Kept(states))
}

/// Reads the deltas of a number of contexts, and keeps nothing of them.
fn drop_states(
    decoder: &mut RangeDecoder<'_>,
    rows: &mut [[u8; 32]; 32],
    contexts: u32,
) -> Result<(), SetupFault>
    requires { IsOk decoder.old.at }
    ensures { ReadsDeltas contexts (λ deltas. Unit {0}) decoder.old rows.old result decoder.new rows.new }
{
    for _ in 0..contexts {
        read_context_deltas(decoder, rows)?;
    }
    Ok(())
}

/// Reads the deltas of a number of contexts, and pushes the states that they give to an empty vector with room for them.
fn read_states(
    decoder: &mut RangeDecoder<'_>,
    rows: &mut [[u8; 32]; 32],
    contexts: u32,
    states: &mut Vec<[u8; 32]>,
) -> Result<(), SetupFault>
    requires alive { IsOk decoder.old.at }
    requires empty { states.old.items ≡ [] }
    requires room { contexts ≤ vec_capacity states.old }
    ensures { ReadsDeltas contexts (λ deltas. states.new.items ≡ initial_states deltas) decoder.old rows.old result decoder.new rows.new }
{
    let mut last = [128; 32];
    for _ in 0..contexts {
        let deltas = read_context_deltas(decoder, rows)?;
        last = states_with(&last, &deltas);
        states.push_reserved(last);
    }
    Ok(())
}

/// The states of a context, from those of the context before it.
fn states_with(before: &[u8; 32], deltas: &[u8; 32]) -> [u8; 32]
    ensures { result ≡ states_with before.now deltas.now }
{
    let mut states = [0; 32];
    for k in 0..32usize {
        states[k] = before[k].wrapping_add(deltas[k]);
    }
    states
}

/// Reads the 32 deltas of one context, each modulo 256.
fn read_context_deltas(
    decoder: &mut RangeDecoder<'_>,
    rows: &mut [[u8; 32]; 32],
) -> Result<[u8; 32], SetupFault>
    ensures { ReadsForm Range (context_deltas 32 0 []) decoder.old rows.old result decoder.new rows.new }
{
    let mut deltas = [0; 32];
    for k in 0..32usize {
        let delta = read_delta(decoder, rows, k)?;
        deltas[k] = delta_byte(delta);
    }
    Ok(deltas)
}

/// Reads the delta of number k.
fn read_delta(
    decoder: &mut RangeDecoder<'_>,
    rows: &mut [[u8; 32]; 32],
    k: usize,
) -> Result<i64, SetupFault>
    requires { k < 32 }
    ensures { ReadsForm Range (delta_form k) decoder.old rows.old result decoder.new rows.new }
{
    let delta = decoder.signed(&mut rows[k])?;
    Ok(delta)
}
