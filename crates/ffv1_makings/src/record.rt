//! Configuration records of any recording (RFC 9043, sections 4.2 and 4.3), spelled from what they are to say.
ghost use Rattle.std.specs.Prelude.{IfOk};
ghost use Rattle.ffv1_bits.specs.Limits.{greatest_side};
ghost use Rattle.ffv1_range.specs.Setup.{RecordingValue, IsRecordingOf};
ghost use Rattle.ffv1_makings.specs.Asked.{IsAskedRecording};

use crate::asked::is_asked;
use crate::spec::{RecordingSpec, SetSpec};
use ffv1_bits::GREATEST_SIDE;
use ffv1_range::{Recording, SetupFault};
use ffv1_vectors::{MakeFault, SymbolEncoder, with_parity};
use std::alloc::Global;

/// The record with its parity, returned only if it reads back as what was asked: `Recording::read` for frames whose sides have
/// `GREATEST_SIDE` samples gives the micro_version, the coding with its transitions, the planes, the tables and the initial states that were
/// asked for. The shifts of gray count as 0.
///
/// Returns `NotSelf` if the record does not read back so; `Memory` if an allocation of memory failed.
pub fn make_recording_record(alloc: Global, spec: &RecordingSpec) -> Result<Vec<u8>, MakeFault>
    ensures { IfOk result (λ bytes. (r : RecordingValue) × IsRecordingOf bytes.items greatest_side greatest_side r × IsAskedRecording r spec.now) }
{
    let bytes = spell_recording(alloc, spec)?;
    match Recording::read(alloc, &bytes, GREATEST_SIDE, GREATEST_SIDE) {
        Ok(recording) if is_asked(&recording, spec) => Ok(bytes),
        Err(SetupFault::Memory) => Err(MakeFault::Memory),
        _ => Err(MakeFault::NotSelf),
    }
}

/// The record with its parity.
pub(crate) fn spell_recording(alloc: Global, spec: &RecordingSpec) -> Result<Vec<u8>, MakeFault> {
    let mut encoder = SymbolEncoder::new(alloc, None);
    let mut states = [128; 32];
    encoder.all_unsigned(&mut states, &[3, spec.micro, spec.coder])?;
    spell_transitions(&mut encoder, &mut states, spec)?;
    spell_format(&mut encoder, &mut states, spec)?;
    spell_sets(&mut encoder, &spec.sets)?;
    spell_initial_states(&mut encoder, &mut states, &spec.sets)?;
    encoder.all_unsigned(&mut states, &[spec.ec, spec.intra])?;
    with_parity(encoder.finish_closed()?)
}

/// Writes the deltas of the transitions, with coder_type 2.
fn spell_transitions(
    encoder: &mut SymbolEncoder<'_>,
    states: &mut [u8; 32],
    spec: &RecordingSpec,
) -> Result<(), MakeFault> {
    if spec.coder != 2 {
        return Ok(());
    }
    for place in 0..255usize {
        let delta = spec.deltas.get(place).copied().unwrap_or(0);
        encoder.signed(states, delta)?;
    }
    Ok(())
}

/// Writes the planes, the grid and the number of table sets.
fn spell_format(
    encoder: &mut SymbolEncoder<'_>,
    states: &mut [u8; 32],
    spec: &RecordingSpec,
) -> Result<(), MakeFault> {
    encoder.all_unsigned(states, &[u32::from(spec.is_rgb), spec.raw_depth])?;
    encoder.flag(states, spec.has_chroma)?;
    encoder.all_unsigned(states, &[spec.shift_h, spec.shift_v])?;
    encoder.flag(states, spec.has_alpha)?;
    let (across, down) = (spec.across.saturating_sub(1), spec.down.saturating_sub(1));
    let sets = u32::try_from(spec.sets.len()).unwrap_or(0);
    encoder.all_unsigned(states, &[across, down, sets])
}

/// Writes the tables of all sets.
fn spell_sets(encoder: &mut SymbolEncoder<'_>, sets: &[SetSpec]) -> Result<(), MakeFault> {
    for set in sets {
        spell_tables(encoder, &set.tables)?;
    }
    Ok(())
}

/// Writes the tables of a set.
fn spell_tables(encoder: &mut SymbolEncoder<'_>, tables: &[Vec<u32>]) -> Result<(), MakeFault> {
    for runs in tables {
        spell_runs(encoder, runs)?;
    }
    Ok(())
}

/// Writes the lengths of a table's runs, each less 1, at a row of states of its own.
fn spell_runs(encoder: &mut SymbolEncoder<'_>, runs: &[u32]) -> Result<(), MakeFault> {
    let mut states = [128; 32];
    for length in runs {
        encoder.unsigned(&mut states, length.saturating_sub(1))?;
    }
    Ok(())
}

/// Writes for each set whether its initial states are coded, and these.
fn spell_initial_states(
    encoder: &mut SymbolEncoder<'_>,
    states: &mut [u8; 32],
    sets: &[SetSpec],
) -> Result<(), MakeFault> {
    let mut rows = [[128; 32]; 32];
    for set in sets {
        encoder.flag(states, !set.states.is_empty())?;
        spell_contexts(encoder, &mut rows, &set.states)?;
    }
    Ok(())
}

/// Writes the initial states of each context, by their deltas from those of the context before.
fn spell_contexts(
    encoder: &mut SymbolEncoder<'_>,
    rows: &mut [[u8; 32]; 32],
    contexts: &[[u8; 32]],
) -> Result<(), MakeFault> {
    let mut before = [128; 32];
    for context in contexts {
        spell_context(encoder, rows, &before, context)?;
        before = *context;
    }
    Ok(())
}

/// Writes the deltas of the 32 states of a context, number k at row k.
fn spell_context(
    encoder: &mut SymbolEncoder<'_>,
    rows: &mut [[u8; 32]; 32],
    before: &[u8; 32],
    context: &[u8; 32],
) -> Result<(), MakeFault> {
    for k in 0..32usize {
        let delta = i32::from(context[k]) - i32::from(before[k]);
        encoder.signed(&mut rows[k], delta)?;
    }
    Ok(())
}
