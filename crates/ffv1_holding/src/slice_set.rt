//! The distinct slices of one tile (own). Two are the same where all their bytes are, footer included.
ghost use Rattle.std.specs.Prelude.{◌≡◌, ℕ, ◌+◌, ◌<◌, length, slice_index_or, IfOk, IfErr, OnOk, OnErr, IsErrOf, IsTrue, ◌↔◌, not};
ghost use Rattle.ffv1_holding.specs.Sets as set;
ghost use Rattle.ffv1_holding.specs.SliceOrder.{bytes_cmp};
ghost use Rattle.ffv1_holding.specs.Inner.Rising.{IsPlaceOf, IsInsertionPlace};

use crate::fault::HoldFault;
use crate::joins::Join;
use std::alloc::Global;
use std::marker::Model;

/// Distinct slices, in the order of their bytes.
#[derive(Drop)]
pub struct SliceSet {
    slices: Vec<Vec<u8>>,
    alloc: Global,
}

impl Model for SliceSet {
    ghost use Rattle.std.specs.Prelude.{map};
    ghost use Rattle.ffv1_holding.specs.Sets as set;
    ghost use Rattle.ffv1_holding.specs.SliceOrder.{bytes_cmp, coded_bytes};
    ghost use Rattle.ffv1_holding.specs.Rising.{IsRising};

    ghost Value = { set.SetOf bytes_cmp };

    ghost coded = { set.code coded_bytes };

    ghost view = { λ a. set.from_list (map (λ v. v.items) a.slices.items) };

    ghost invariant = { λ a. IsRising bytes_cmp (map (λ v. v.items) a.slices.items) };
}

impl SliceSet {
    /// No slices. Nothing is allocated.
    pub fn new(alloc: Global) -> Self
        ensures { result ≡ set.empty }
    {
        SliceSet {
            slices: Vec::new(alloc),
            alloc,
        }
    }

    /// How many slices there are.
    pub fn len(&self) -> usize
        ensures { result ≡ set.size self.now }
    {
        self.slices.len()
    }

    /// The slice at a place of the rising order, which counts from 0. `place` must be less than `len`.
    pub fn get(&self, place: usize) -> &[u8]
        requires { place < set.size self.now }
        ensures { result.now ≡ slice_index_or (set.items self.now) place result.now }
    {
        self.slices[place].as_slice()
    }

    /// Adds a slice, and returns whether it is new.
    ///
    /// The only refusal is `Memory`: then the set is unchanged.
    pub fn insert(&mut self, slice: &[u8]) -> Result<bool, HoldFault>
        ensures ok { OnOk result (self.new ≡ set.insert self.old slice.now) }
        ensures new { IfOk result (λ new. new ≡ not (set.contains self.old slice.now)) }
        ensures memory { OnErr result (result ≡ Err HoldFault.Memory) }
        ensures err { OnErr result (self.new ≡ self.old) }
    {
        match self.place_of(slice) {
            Ok(_) => Ok(false),
            Err(place) => {
                let owned = Vec::from_slice(self.alloc, slice)?;
                self.slices.insert(place, owned)?;
                Ok(true)
            }
        }
    }

    /// The same slices in memory of their own.
    ///
    /// The only refusal is `Memory`. The set itself is unchanged in any case.
    pub fn copied(&self) -> Result<SliceSet, HoldFault>
        ensures ok { IfOk result (λ copy. copy ≡ self.now) }
        ensures memory { OnErr result (result ≡ Err HoldFault.Memory) }
    {
        let mut slices = Vec::with_capacity(self.alloc, self.slices.len())?;
        for slice in &self.slices {
            slices.push(Vec::from_slice(self.alloc, slice)?)?;
        }
        Ok(SliceSet {
            slices,
            alloc: self.alloc,
        })
    }

    /// Where the slice is, or where it would go.
    fn place_of(&self, slice: &[u8]) -> Result<usize, usize>
        ensures found { IfOk result (IsPlaceOf (set.items self.now) slice.now) }
        ensures absent { IfErr result (IsInsertionPlace bytes_cmp (set.items self.now) slice.now) }
    {
        self.slices
            .binary_search_by(|held| held.as_slice().cmp(&slice))
    }
}

impl Join for SliceSet {
    ghost use Rattle.ffv1_holding.specs.Sets as set;
    ghost use Rattle.ffv1_holding.specs.SliceOrder.{bytes_total, bytes_antisymmetric};

    // Any two sets of slices can be joined.
    ghost joinable = { λ _ _. Unit {0} };

    ghost union = { set.union };

    ghost size = { set.size };

    fn join_with(&mut self, other: &Self) -> Result<usize, HoldFault> {
        let mut whole = self.copied()?;
        for slice in &other.slices {
            whole.insert(slice)?;
        }
        let new = whole.len() - self.len();
        *self = whole;
        Ok(new)
    }

    ghost commutes = { λ a b _. set.union_comm bytes_total bytes_antisymmetric a b };

    ghost groups = { λ a b c _ _. set.union_assoc bytes_total bytes_antisymmetric a b c };

    ghost repeats = { λ a b. set.union_again bytes_total bytes_antisymmetric a b };

    ghost stays_joinable = { λ _ _ _ _ _. tt };
}
