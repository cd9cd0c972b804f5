//! Quantization tables (RFC 9043, section 3.5). A table is coded as the lengths of the runs of its first half, with a
//! row of states of its own; its second half mirrors the first with the other sign.
//!
//! The lengths of `Runs` come to 128. The halves of a `TableSet` hold its entries 0 to 127 at their scale.
ghost use Rattle.std.specs.Prelude.{◌≡◌, ◌≤◌, ◌<◌, ℕ, [], length, slice_index, slice_index_or, sum, vec_capacity};
ghost use Rattle.ffv1_range.specs.Forms.{ReadsForm};
ghost use Rattle.ffv1_range.specs.Inner.Forms.{ReadsFormAs, ReadsTo};
ghost use Rattle.ffv1_range.specs.Views.{set_value, set_values};
ghost use Rattle.ffv1_range.specs.Tables.{half_of, scale_after, table_entry};
ghost use Rattle.ffv1_range.specs.TableForms.{table_form, tables_from, sets_from};
ghost use Rattle.ffv1_range.specs.declared.fault.SetupFault.TheVariants.{Range};

use crate::coding::RangeDecoder;
use crate::deltas::SetStates;
use crate::fault::SetupFault;
use std::marker::Model;

/// The lengths of a table's runs, in entries.
#[derive(Drop)]
pub(crate) struct Runs {
    lengths: [u8; 128],
    count: usize,
}

impl Model for Runs {
    ghost use Rattle.std.specs.Prelude.{◌≡◌, ◌≤◌, ℕ, List, sum, take};

    ghost Value = { List ℕ };

    ghost view = { λ x. take x.count x.lengths };

    ghost invariant = { λ x. (x.count ≤ 128) × (sum (take x.count x.lengths) ≡ 128) };
}

/// Reads the runs of one table, at a row of states of its own.
pub(crate) fn read_runs(decoder: &mut RangeDecoder<'_>) -> Result<Runs, SetupFault>
    ensures { ReadsForm Range table_form decoder.old tt result decoder.new tt }
{
    let mut states = [128; 32];
    let mut lengths = [0; 128];
    let mut count = 0;
    let mut filled = 0;
    while filled < 128 {
        let less = decoder.unsigned(&mut states)?;
        if less >= 128 - filled {
            return Err(SetupFault::TableRun);
        }
        lengths[count] = less as u8 + 1;
        count += 1;
        filled += less + 1;
    }
    Ok(Runs { lengths, count })
}

impl Runs {
    /// The lengths, in entries; they come to 128.
    fn lengths(&self) -> &[u8]
        ensures value { result.now ≡ self.now }
        ensures whole { sum self.now ≡ 128 }
        ensures few { length self.now ≤ 128 }
    {
        &self.lengths[..self.count]
    }
}

/// The entries 0 to 127 of a table of these runs: how many runs have ended, times the scale.
fn half_table(runs: &Runs, scale: u32) -> [u16; 128]
    requires { scale_after scale runs.now ≤ 65535 }
    ensures { result ≡ half_of scale runs.now }
{
    let mut half = [0; 128];
    let mut from = 0;
    for (index, length) in runs.lengths().iter().enumerate() {
        let to = from + usize::from(*length);
        fill(&mut half, from, to, (scale * index as u32) as u16);
        from = to;
    }
    half
}

/// Writes a value into the entries from one index up to another.
fn fill(half: &mut [u16; 128], from: usize, to: usize, value: u16)
    requires order { from ≤ to }
    requires within { to ≤ 128 }
    ensures filled { (k : ℕ) → from ≤ k → k < to → slice_index half.new k ≡ value }
    ensures before { (k : ℕ) → k < from → slice_index half.new k ≡ slice_index half.old k }
{
    for k in from..to {
        half[k] = value;
    }
}

/// A set of five tables.
#[derive(Drop)]
pub(crate) struct TableSet {
    /// The entries 0 to 127 of each table.
    pub(crate) halves: [[u16; 128]; 5],
    /// The number of contexts.
    pub(crate) contexts: u32,
    /// The initial states of its contexts.
    pub(crate) states: SetStates,
}

impl TableSet {
    /// An entry of a table: the second half mirrors the first with the other sign, and entry 128 mirrors entry 127.
    pub(crate) fn entry(&self, table: usize, index: usize) -> i32
        requires table { table < 5 }
        requires index { index < 256 }
        ensures { result ≡ table_entry (slice_index_or self.now.halves table []) index }
    {
        let half = &self.halves[table];
        if index < 128 {
            i32::from(half[index])
        } else if index == 128 {
            -i32::from(half[127])
        } else {
            -i32::from(half[256 - index])
        }
    }
}

/// Reads the five tables of one set. Its states are those of a set where none are coded.
pub(crate) fn read_set(decoder: &mut RangeDecoder<'_>) -> Result<TableSet, SetupFault>
    ensures { ReadsFormAs Range set_value (tables_from 5 1 []) decoder.old tt result decoder.new tt }
{
    let mut halves = [[0; 128]; 5];
    let mut scale = 1;
    for table in 0..5usize {
        let runs = read_runs(decoder)?;
        let next = scale * (2 * runs.lengths().len() as u32 - 1);
        if next > 65535 {
            return Err(SetupFault::Contexts);
        }
        halves[table] = half_table(&runs, scale);
        scale = next;
    }
    Ok(TableSet {
        halves,
        contexts: (scale + 1) / 2,
        states: SetStates::Uncoded,
    })
}

/// Reads this number of sets into a vector with room for them.
pub(crate) fn read_sets(
    decoder: &mut RangeDecoder<'_>,
    sets: &mut Vec<TableSet>,
    count: u32,
) -> Result<(), SetupFault>
    requires some { 1 ≤ count }
    requires empty { sets.old.items ≡ [] }
    requires room { count ≤ vec_capacity sets.old }
    ensures read { ReadsTo Range set_values (sets_from count []) decoder.old tt result decoder.new tt sets.new.items }
{
    for _ in 0..count {
        let set = read_set(decoder)?;
        sets.push_reserved(set);
    }
    Ok(())
}
