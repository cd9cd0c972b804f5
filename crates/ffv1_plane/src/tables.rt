//! The quantization tables of a set, with all of their entries (RFC 9043, section 3.5).
ghost use Rattle.std.specs.Prelude.{◌≡◌, ℕ, ◌<◌, ◌≤ℤ◌, length, pos, neg_ℤ, nat_abs, slice_index_or, IsTrue};
ghost use Rattle.ffv1_range.specs.Setup.{set_contexts, set_entry};
ghost use Rattle.ffv1_plane.specs.Samples.{context_of, modular_difference};
ghost use Rattle.ffv1_plane.specs.Inner.Sums.{with_far_entries};

use crate::neighbours::Neighbours;
use ffv1_range::Recording;
use std::marker::Model;

/// The tables of one set of a recording. Each has an entry for each difference of two samples modulo 256.
#[derive(Drop)]
pub struct Tables<'s> {
    recording: &'s Recording,
    set: usize,
    entries: [[i16; 256]; 5],
    /// Whether all entries of the tables 3 and 4 are 0.
    is_near: bool,
}

impl<'s> Model for Tables<'s> {
    ghost use Rattle.ffv1_plane.specs.SetTables.{SetTables, AreSetTables};

    ghost Value = { SetTables };

    ghost view = { λ t. record { setup = t.recording.now.setup; set = t.set } };

    ghost invariant = { λ t. AreSetTables t.recording.now.setup t.set t.entries t.is_near };
}

impl<'s> Tables<'s> {
    /// The tables of a set.
    pub fn of(recording: &'s Recording, set: usize) -> Tables<'s>
        requires { set < length recording.now.setup.sets }
        ensures { result ≡ record { setup = recording.now.setup; set = set } }
    {
        recording.keeps_version_3();
        let mut entries = [[0; 256]; 5];
        for table in 0..5usize {
            entries[table] = table_of(recording, set, table);
        }
        let is_near = is_zero(&entries[3]) && is_zero(&entries[4]);
        Tables {
            recording,
            set,
            entries,
            is_near,
        }
    }

    /// The context of a sample with these neighbours (section 3.5).
    #[inline(always)]
    pub fn context(&self, near: &Neighbours) -> i32
        ensures value { result ≡ context_of (set_entry self.now.setup self.now.set) near.now }
        ensures bound { nat_abs result < set_contexts self.now.setup self.now.set }
    {
        // The invariant, which bounds the sum, is known where a field is used.
        let _entries = &self.entries;
        self.sum(near)
    }

    /// The sum of an entry of each table.
    #[inline(always)]
    #[tactic(auto, unfolding(crate::specs::Samples::context_of))]
    fn sum(&self, near: &Neighbours) -> i32
        ensures { result ≡ context_of (set_entry self.now.setup self.now.set) near.now }
    {
        let first = self.entry(0, near.left, near.top_left)
            + self.entry(1, near.top_left, near.top);
        self.add_far(near, first)
    }

    /// A sum with the entries of the tables 2 to 4, of which the last two are left out where they are all 0.
    #[inline(always)]
    fn add_far(&self, near: &Neighbours, first: i32) -> i32
        requires low { neg_ℤ (pos 65536) ≤ℤ first }
        requires high { first ≤ℤ pos 65536 }
        ensures { result ≡ with_far_entries (set_entry self.now.setup self.now.set) near.now first }
    {
        let sum = first + self.entry(2, near.top, near.top_right);
        if self.is_near {
            return sum;
        }
        sum + self.entry(3, near.left_of_left, near.left) + self.entry(4, near.top_of_top, near.top)
    }

    /// The entry of a table at the difference of two samples, modulo 256.
    #[inline(always)]
    fn entry(&self, table: usize, high: u32, low: u32) -> i32
        requires table { table < 5 }
        ensures low { neg_ℤ (pos 32767) ≤ℤ result }
        ensures high { result ≤ℤ pos 32767 }
        ensures entry { result ≡ set_entry self.now.setup self.now.set table (modular_difference high low) }
    {
        i32::from(self.entries[table][(high.wrapping_sub(low) % 256) as usize])
    }
}

/// All entries of one table. They fit 16 bits.
fn table_of(recording: &Recording, set: usize, table: usize) -> [i16; 256]
    requires set { set < length recording.now.setup.sets }
    requires table { table < 5 }
    ensures { (k : ℕ) → k < 256 → slice_index_or result k (pos 0) ≡ set_entry recording.now.setup set table k }
{
    recording.keeps_version_3();
    let mut entries = [0; 256];
    for index in 0..256usize {
        entries[index] = recording.entry(set, table, index) as i16;
    }
    entries
}

/// Whether all entries of a table are 0.
fn is_zero(table: &[i16; 256]) -> bool
    ensures { IsTrue result → (k : ℕ) → slice_index_or table.now k (pos 0) ≡ pos 0 }
{
    table.iter().all(|entry| *entry == 0)
}
