//! Configuration records (RFC 9043, sections 4.2 and 4.3), spelled from what they are to say.
ghost use Rattle.std.specs.Prelude.{◌≡◌, IfOk, IfErr};
ghost use Rattle.ffv1_bits.specs.Limits.{greatest_side};
ghost use Rattle.ffv1_range.specs.Setup.{IsSetupOf};
ghost use Rattle.ffv1_vectors.specs.Asked.{IsProfile, asked_setup};
ghost use Rattle.ffv1_range.specs.Decoder.{AreStates};
ghost use Rattle.ffv1_range.specs.Inner.TableForms.{AreStateRows};
ghost use Rattle.ffv1_vectors.specs.declared.fault.MakeFault.TheVariants.{Memory};

use crate::asked::is_asked;
use crate::encoder::RangeEncoder;
use crate::fault::MakeFault;
use crate::parity::with_parity;
use ffv1_bits::GREATEST_SIDE;
use ffv1_range::{Setup, SetupFault};
use std::alloc::Global;

/// What a record is to say, field by field in the record's order. Any numbers can be asked for, also those that no
/// reader of the profile accepts.
#[derive(Drop)]
pub struct RecordSpec {
    /// version.
    pub version: u32,
    /// micro_version.
    pub micro: u32,
    /// coder_type.
    pub coder: u32,
    /// colorspace_type.
    pub colorspace: u32,
    /// bits_per_raw_sample.
    pub raw_depth: u32,
    /// chroma_planes.
    pub has_chroma: bool,
    /// log2_h_chroma_subsample.
    pub shift_h: u32,
    /// log2_v_chroma_subsample.
    pub shift_v: u32,
    /// extra_plane.
    pub extra_plane: bool,
    /// The tiles across, at least 1.
    pub across: u32,
    /// The tiles down, at least 1.
    pub down: u32,
    /// quant_table_set_count.
    pub set_count: u32,
    /// The sets of quantization tables: five tables each, given by the lengths of their runs in entries, each at least 1.
    pub sets: Vec<Vec<Vec<u32>>>,
    /// Where it is `Some`, states_coded is 1 for every set, and every delta is this.
    pub delta: Option<i32>,
    /// ec.
    pub ec: u32,
    /// intra.
    pub intra: u32,
}

/// The record with its parity. It is not read back: where what is asked is not of the profile, neither is the record.
///
/// Numbers that are at least 1 are coded less 1, and a 0 in the place of one is coded as 1 is. Deltas are written for
/// half the scale after a set's last table, rounded up, contexts; the scale stays at `u32::MAX` where it would pass that.
///
/// Returns `Memory` if an allocation of memory failed, and nothing else is refused.
pub fn spell_record(alloc: Global, spec: &RecordSpec) -> Result<Vec<u8>, MakeFault>
    ensures { IfErr result (λ fault. fault ≡ Memory) }
{
    let mut encoder = RangeEncoder::new(alloc);
    spell_fields(&mut encoder, spec)?;
    with_parity(encoder.finish_closed()?)
}

/// The record with its parity, returned only if it reads back as what was asked: `Setup::read` for frames whose
/// sides have `GREATEST_SIDE` samples gives the setup asked for, all tables included. The shifts of a gray record count as 0.
///
/// Returns `NotSelf` if the record does not read back so, as where what is asked is not of the profile; `Memory` if an allocation of memory
/// failed.
pub fn make_record(alloc: Global, spec: &RecordSpec) -> Result<Vec<u8>, MakeFault>
    ensures asked { IfOk result (λ bytes. IsSetupOf bytes.items greatest_side greatest_side (asked_setup spec.now)) }
    ensures profile { IfOk result (λ bytes. IsProfile spec.now) }
{
    let bytes = spell_record(alloc, spec)?;
    let setup = match Setup::read(alloc, &bytes, GREATEST_SIDE, GREATEST_SIDE) {
        Ok(setup) => setup,
        Err(SetupFault::Memory) => return Err(MakeFault::Memory),
        Err(_) => return Err(MakeFault::NotSelf),
    };
    if !is_asked(&setup, spec) {
        return Err(MakeFault::NotSelf);
    }
    Ok(bytes)
}

/// Writes all fields.
fn spell_fields(encoder: &mut RangeEncoder, spec: &RecordSpec) -> Result<(), MakeFault>
    ensures { IfErr result (λ fault. fault ≡ Memory) }
{
    let mut states = [128; 32];
    let format = [
        spec.version,
        spec.micro,
        spec.coder,
        spec.colorspace,
        spec.raw_depth,
    ];
    encoder.all_unsigned(&mut states, &format)?;
    spell_planes(encoder, &mut states, spec)?;
    spell_sets(encoder, &spec.sets)?;
    spell_deltas(encoder, &mut states, spec)?;
    encoder.all_unsigned(&mut states, &[spec.ec, spec.intra])
}

/// Writes the planes, the grid and the number of table sets.
fn spell_planes(
    encoder: &mut RangeEncoder,
    states: &mut [u8; 32],
    spec: &RecordSpec,
) -> Result<(), MakeFault>
    requires { AreStates states.old }
    ensures in_range { AreStates states.new }
    ensures memory { IfErr result (λ fault. fault ≡ Memory) }
{
    encoder.flag(states, spec.has_chroma)?;
    encoder.all_unsigned(states, &[spec.shift_h, spec.shift_v])?;
    encoder.flag(states, spec.extra_plane)?;
    let (across, down) = (spec.across.saturating_sub(1), spec.down.saturating_sub(1));
    encoder.all_unsigned(states, &[across, down, spec.set_count])
}

/// Writes the tables of all sets.
fn spell_sets(encoder: &mut RangeEncoder, sets: &[Vec<Vec<u32>>]) -> Result<(), MakeFault>
    ensures { IfErr result (λ fault. fault ≡ Memory) }
{
    for tables in sets {
        spell_tables(encoder, tables)?;
    }
    Ok(())
}

/// Writes the tables of a set.
fn spell_tables(encoder: &mut RangeEncoder, tables: &[Vec<u32>]) -> Result<(), MakeFault>
    ensures { IfErr result (λ fault. fault ≡ Memory) }
{
    for runs in tables {
        spell_runs(encoder, runs)?;
    }
    Ok(())
}

/// Writes the lengths of a table's runs, each less 1, at a row of states of its own.
fn spell_runs(encoder: &mut RangeEncoder, runs: &[u32]) -> Result<(), MakeFault>
    ensures { IfErr result (λ fault. fault ≡ Memory) }
{
    let mut states = [128; 32];
    for length in runs {
        encoder.unsigned(&mut states, length.saturating_sub(1))?;
    }
    Ok(())
}

/// Writes for each set whether it has deltas, and the deltas.
fn spell_deltas(
    encoder: &mut RangeEncoder,
    states: &mut [u8; 32],
    spec: &RecordSpec,
) -> Result<(), MakeFault>
    requires { AreStates states.old }
    ensures in_range { AreStates states.new }
    ensures memory { IfErr result (λ fault. fault ≡ Memory) }
{
    let mut rows = [[128; 32]; 32];
    for tables in &spec.sets {
        encoder.flag(states, spec.delta.is_some())?;
        if let Some(delta) = spec.delta {
            spell_set_deltas(encoder, &mut rows, contexts_of(tables), delta)?;
        }
    }
    Ok(())
}

/// Writes one delta for all states of a number of contexts.
fn spell_set_deltas(
    encoder: &mut RangeEncoder,
    rows: &mut [[u8; 32]; 32],
    contexts: u32,
    delta: i32,
) -> Result<(), MakeFault>
    requires { AreStateRows rows.old }
    ensures in_range { AreStateRows rows.new }
    ensures memory { IfErr result (λ fault. fault ≡ Memory) }
{
    for _ in 0..contexts {
        spell_context_deltas(encoder, rows, delta)?;
    }
    Ok(())
}

/// Writes one delta for the 32 states of a context, number k at row k.
fn spell_context_deltas(
    encoder: &mut RangeEncoder,
    rows: &mut [[u8; 32]; 32],
    delta: i32,
) -> Result<(), MakeFault>
    requires { AreStateRows rows.old }
    ensures in_range { AreStateRows rows.new }
    ensures memory { IfErr result (λ fault. fault ≡ Memory) }
{
    for k in 0..32usize {
        encoder.signed(&mut rows[k], delta)?;
    }
    Ok(())
}

/// How many contexts a set of these tables has.
fn contexts_of(tables: &[Vec<u32>]) -> u32 {
    let mut scale = 1u32;
    for runs in tables {
        let values = u32::try_from(runs.len()).unwrap_or(u32::MAX);
        scale = scale.saturating_mul(values.saturating_mul(2).saturating_sub(1));
    }
    scale.div_ceil(2)
}
