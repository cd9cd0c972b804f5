//! Whether a setup is what a record was asked to say.
ghost use Rattle.std.specs.Prelude.{◌≡◌, ◌≤◌, ◌<◌, ◌+◌, ◌-◌, ◌*◌, ℕ, IsTrue, IfSome, length, map, pos};
ghost use Rattle.ffv1_range.specs.Tables.{runs_ended};
ghost use Rattle.ffv1_vectors.specs.Asked.{asked_sets, IsProfile};
ghost use Rattle.ffv1_vectors.specs.Inner.Asked.{HasAskedFields, HasTable, HasSet, HasSets};

use crate::record::RecordSpec;
use ffv1_range::Setup;

/// Whether the setup is the one asked for, but for the size of its frames, and the other fields are of the profile.
pub(crate) fn is_asked(setup: &Setup, spec: &RecordSpec) -> bool
    ensures profile { IsTrue result → IsProfile spec.now }
    ensures fields { IsTrue result → HasAskedFields setup.now spec.now }
    ensures count { IsTrue result → length setup.now.sets ≡ length spec.now.sets.items }
    ensures sets { IsTrue result → HasSets setup.now 0 (asked_sets spec.now) }
{
    is_profile(spec) && has_fields(setup, spec) && has_sets(setup, &spec.sets)
}

/// Whether what is asked of the fields that a setup leaves out is of the profile.
fn is_profile(spec: &RecordSpec) -> bool
    ensures { IsTrue result → IsProfile spec.now }
{
    spec.version == 3
        && spec.coder == 0
        && spec.colorspace == 0
        && (spec.raw_depth == 0 || spec.raw_depth == 8)
        && !spec.extra_plane
        && spec.set_count as usize == spec.sets.len()
}

/// Whether the setup's values but for its tables are those asked for.
fn has_fields(setup: &Setup, spec: &RecordSpec) -> bool
    ensures { IsTrue result → HasAskedFields setup.now spec.now }
{
    let (shift_h, shift_v) = if spec.has_chroma {
        (spec.shift_h, spec.shift_v)
    } else {
        (0, 0)
    };
    let grid = setup.grid();
    setup.micro() == spec.micro
        && setup.has_chroma() == spec.has_chroma
        && setup.shift_h() == shift_h
        && setup.shift_v() == shift_v
        && grid.across() == spec.across
        && grid.down() == spec.down
        && setup.ec() == spec.ec
        && setup.intra() == spec.intra
}

/// Whether the setup's sets are those of these tables.
fn has_sets(setup: &Setup, sets: &[Vec<Vec<u32>>]) -> bool
    ensures count { IsTrue result → length setup.now.sets ≡ length sets.now }
    ensures sets { IsTrue result → HasSets setup.now 0 (map (λ tables. map (λ runs. runs.items) tables.items) sets.now) }
{
    if setup.sets() != sets.len() {
        return false;
    }
    for (set, tables) in sets.iter().enumerate() {
        if !has_set(setup, set, tables) {
            return false;
        }
    }
    true
}

/// Whether a set of the setup is that of these tables.
fn has_set(setup: &Setup, set: usize, tables: &[Vec<u32>]) -> bool
    requires { set < length setup.now.sets }
    ensures { IsTrue result → HasSet setup.now set (map (λ runs. runs.items) tables.now) }
{
    if tables.len() != 5 {
        return false;
    }
    let mut scale = 1;
    for (table, runs) in tables.iter().enumerate() {
        if !has_table(setup, set, table, scale, runs) {
            return false;
        }
        let Some(next) = scale_after(scale, runs.len()) else {
            return false;
        };
        scale = next;
    }
    scale <= 65535 && setup.contexts(set) as usize == (scale + 1) / 2
}

/// The scale after a table of so many runs, where it is small enough for a `usize`.
fn scale_after(scale: usize, runs: usize) -> Option<usize>
    ensures { IfSome result (λ next. next ≡ scale * (2 * runs - 1)) }
{
    scale.checked_mul(runs.checked_mul(2)?.saturating_sub(1))
}

/// Whether the first half of a table of the setup is that of these runs at this scale.
fn has_table(setup: &Setup, set: usize, table: usize, scale: usize, runs: &[u32]) -> bool
    requires set { set < length setup.now.sets }
    requires table { table < 5 }
    ensures { IsTrue result → HasTable setup.now set table scale runs.now }
{
    if runs.len() > 128 {
        return false;
    }
    for index in 0..128usize {
        let ended = count_ended(runs, index);
        if !is_product(setup.entry(set, table, index), scale, ended) {
            return false;
        }
    }
    true
}

/// Whether an entry is so many times the scale.
fn is_product(entry: i32, scale: usize, times: usize) -> bool
    ensures { IsTrue result → entry ≡ pos (scale * times) }
{
    let Some(product) = scale.checked_mul(times) else {
        return false;
    };
    let Ok(wanted) = i32::try_from(product) else {
        return false;
    };
    entry == wanted
}

/// How many runs have ended at or before an entry.
fn count_ended(runs: &[u32], index: usize) -> usize
    requires { length runs.now ≤ 128 }
    ensures { result ≡ runs_ended 0 runs.now index }
{
    let mut ended = 0;
    let mut end = 0;
    for length in runs {
        end += *length as usize;
        ended += usize::from(end <= index);
    }
    ended
}
