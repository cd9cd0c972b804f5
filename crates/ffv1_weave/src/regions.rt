//! The regions where versions of a slice differ, found from its front on.
ghost use Rattle.std.specs.Prelude.{◌≡◌, ◌+◌, ◌-◌, ◌≤◌, ◌<◌, ℕ, length, All, IsTrue, MatchBool, MatchOption, IfSome};
ghost use Rattle.ffv1_weave.specs.References.{values_of};
ghost use Rattle.ffv1_weave.specs.Regions.{AgreeAt, DifferAt};
ghost use Rattle.ffv1_weave.specs.Inner.Parts.{IsPartFrom};
ghost use Rattle.ffv1_weave.specs.declared.splits.Split.TheVariants.{Regions};

/// How many places in a row at which all versions agree part two regions: places at which versions differ are of one region where
/// they follow each other at a distance of at most so many bytes.
const SEPARATION: usize = 64;

/// How many bytes of versions are compared at once, as long as they are the same in all of them.
const STEP: usize = 256;

/// Whether versions differ at a place. There is one at least, and all have the place.
pub(crate) fn differ_at(versions: &[&[u8]], place: usize) -> bool
    requires some { 0 < length versions.now }
    requires within { All (λ version. place < length version.now) versions.now }
    ensures { MatchBool result (DifferAt (values_of versions.now) place) (AgreeAt (values_of versions.now) place) }
{
    for version in versions {
        if version[place] != versions[0][place] {
            return true;
        }
    }
    false
}

/// Whether all versions have the same bytes between two places. There is one at least, and all have the places.
fn agree_between(versions: &[&[u8]], start: usize, end: usize) -> bool
    requires some { 0 < length versions.now }
    requires order { start ≤ end }
    requires within { All (λ version. end ≤ length version.now) versions.now }
    ensures { IsTrue result → (i : ℕ) → start ≤ i → i < end → AgreeAt (values_of versions.now) i }
{
    for version in versions {
        if version[start..end] != versions[0][start..end] {
            return false;
        }
    }
    true
}

/// The end of the steps from `from` on in which all versions agree, which have the length `size`.
fn stretch_from(versions: &[&[u8]], from: usize, size: usize) -> usize
    requires some { 0 < length versions.now }
    requires lengths { All (λ version. length version.now ≡ size) versions.now }
    requires within { from ≤ size }
    ensures beyond { from ≤ result }
    ensures within { result ≤ size }
    ensures until { (i : ℕ) → from ≤ i → i < result → AgreeAt (values_of versions.now) i }
{
    let mut place = from;
    while STEP <= size - place && agree_between(versions, place, place + STEP) {
        place += STEP;
    }
    place
}

/// The first place from `from` on where versions differ, or their length `size` where there is none.
pub(crate) fn first_from(versions: &[&[u8]], from: usize, size: usize) -> usize
    requires some { 0 < length versions.now }
    requires lengths { All (λ version. length version.now ≡ size) versions.now }
    requires within { from ≤ size }
    ensures beyond { from ≤ result }
    ensures within { result ≤ size }
    ensures until { (i : ℕ) → from ≤ i → i < result → AgreeAt (values_of versions.now) i }
    ensures there { result < size → DifferAt (values_of versions.now) result }
{
    for place in stretch_from(versions, from, size)..size {
        if differ_at(versions, place) {
            return place;
        }
    }
    size
}

/// The end of the region that begins at `start`.
fn end_from(versions: &[&[u8]], start: usize, size: usize) -> usize
    requires some { 0 < length versions.now }
    requires lengths { All (λ version. length version.now ≡ size) versions.now }
    requires within { start < size }
    requires first { DifferAt (values_of versions.now) start }
    ensures within { result ≤ size }
    ensures beyond { start < result }
    ensures last { DifferAt (values_of versions.now) (result - 1) }
    ensures after { (i : ℕ) → result ≤ i → i < result + SEPARATION → AgreeAt (values_of versions.now) i }
    ensures followed { (i : ℕ) → start ≤ i → i + 1 < result → DifferAt (values_of versions.now) i
        → (j : ℕ) × (i < j) × (j ≤ i + SEPARATION) × (j < result) × DifferAt (values_of versions.now) j }
{
    let mut end = start + 1;
    let mut place = end;
    while place < size && place - end < SEPARATION {
        if differ_at(versions, place) {
            end = place + 1;
        }
        place += 1;
    }
    end
}

/// The next region from `from` on, where it is the slice's start or a region's end: its start and its end.
pub(crate) fn region_from(versions: &[&[u8]], from: usize, size: usize) -> Option<(usize, usize)>
    requires some { 0 < length versions.now }
    requires lengths { All (λ version. length version.now ≡ size) versions.now }
    requires within { from ≤ size }
    requires gap { (i : ℕ) → 0 < from → from ≤ i → i < from + SEPARATION → AgreeAt (values_of versions.now) i }
    ensures region { MatchOption result ((i : ℕ) → from ≤ i → AgreeAt (values_of versions.now) i)
        (λ (start, end). IsPartFrom Regions (values_of versions.now) from start end) }
    ensures within { IfSome result (λ (start, end). end ≤ size) }
{
    let start = first_from(versions, from, size);
    if start == size {
        return None;
    }
    Some((start, end_from(versions, start, size)))
}
