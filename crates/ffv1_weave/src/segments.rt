//! The segments of versions, found from their front on: they lie between the places where streaks of any two versions begin or end.
ghost use Rattle.std.specs.Prelude.{◌≡◌, ◌≤◌, ◌<◌, ◌↔◌, ℕ, List, Contains, length, All, IsTrue, MatchOption, IfSome};
ghost use Rattle.ffv1_weave.specs.References.{values_of};
ghost use Rattle.ffv1_weave.specs.Regions.{AgreeAt};
ghost use Rattle.ffv1_weave.specs.Boundaries.{BeginsStreak, EndsStreak, AreParted, IsBoundary};
ghost use Rattle.ffv1_weave.specs.Inner.Parts.{IsEdge, IsPartFrom};
ghost use Rattle.ffv1_weave.specs.declared.splits.Split.TheVariants.{Pairs};

use crate::regions::{differ_at, first_from};

/// Whether a streak of two versions begins at a place: they differ there, and agree at as many places before it as the distance.
fn begins_streak(one: &[u8], other: &[u8], place: usize, distance: usize) -> bool
    requires same { length other.now ≡ length one.now }
    requires within { place < length one.now }
    ensures { IsTrue result ↔ BeginsStreak distance one.now other.now place }
{
    let from = place.saturating_sub(distance);
    one[place] != other[place] && one[from..place] == other[from..place]
}

/// Whether a streak of two versions ends before a place: they differ at the place before it, and agree at as many places from it on as the
/// distance, or to their ends.
fn ends_streak(one: &[u8], other: &[u8], place: usize, distance: usize) -> bool
    requires same { length other.now ≡ length one.now }
    requires within { place < length one.now }
    requires inside { 0 < place }
    ensures { IsTrue result ↔ EndsStreak distance one.now other.now place }
{
    let until = place + distance.min(one.len() - place);
    one[place - 1] != other[place - 1] && one[place..until] == other[place..until]
}

/// Whether a streak of this version and one of the others begins at a place, or ends before it.
fn is_parted(one: &[u8], others: &[&[u8]], place: usize, distance: usize) -> bool
    requires lengths { All (λ other. length other.now ≡ length one.now) others.now }
    requires within { place < length one.now }
    requires inside { 0 < place }
    ensures { IsTrue result ↔ ((other : List ℕ) × Contains (values_of others.now) other × AreParted distance one.now other place) }
{
    for other in others {
        if begins_streak(one, other, place, distance) || ends_streak(one, other, place, distance) {
            return true;
        }
    }
    false
}

/// Whether a place between the ends of versions of one length is a boundary.
fn is_boundary(versions: &[&[u8]], place: usize, size: usize, distance: usize) -> bool
    requires lengths { All (λ version. length version.now ≡ size) versions.now }
    requires within { place < size }
    requires inside { 0 < place }
    ensures { IsTrue result ↔ IsBoundary distance (values_of versions.now) place }
{
    for one in versions {
        if is_parted(one, versions, place, distance) {
            return true;
        }
    }
    false
}

/// The next place after one that can be a boundary: the place after it where versions differ at the place itself, else the first place at
/// which they differ, or their length `size` where there is none. Where versions agree at two places in a row, the later one is no boundary.
fn after_place(versions: &[&[u8]], place: usize, size: usize) -> usize
    requires some { 0 < length versions.now }
    requires lengths { All (λ version. length version.now ≡ size) versions.now }
    requires within { place < size }
    ensures beyond { place < result }
    ensures within { result ≤ size }
    ensures until { (distance i : ℕ) → place < i → i < result → IsBoundary distance (values_of versions.now) i → ⊥ }
{
    if differ_at(versions, place) {
        place + 1
    } else {
        first_from(versions, place + 1, size)
    }
}

/// The first boundary from `from` on, or the versions' length `size` where there is none before it.
fn boundary_from(versions: &[&[u8]], from: usize, size: usize, distance: usize) -> usize
    requires some { 0 < length versions.now }
    requires lengths { All (λ version. length version.now ≡ size) versions.now }
    requires within { from ≤ size }
    requires inside { 0 < from }
    ensures beyond { from ≤ result }
    ensures within { result ≤ size }
    ensures until { (i : ℕ) → from ≤ i → i < result → IsBoundary distance (values_of versions.now) i → ⊥ }
    ensures there { result < size → IsBoundary distance (values_of versions.now) result }
{
    let mut place = from;
    while place < size && !is_boundary(versions, place, size, distance) {
        place = after_place(versions, place, size);
    }
    place
}

/// The next segment at which versions differ, from `from` on, where it is their start or the end of a segment: its start and its end.
pub(crate) fn segment_from(
    versions: &[&[u8]],
    from: usize,
    size: usize,
    distance: usize,
) -> Option<(usize, usize)>
    requires some { 0 < length versions.now }
    requires lengths { All (λ version. length version.now ≡ size) versions.now }
    requires within { from ≤ size }
    requires edge { IsEdge (Pairs distance) (values_of versions.now) from }
    ensures part { MatchOption result ((i : ℕ) → from ≤ i → AgreeAt (values_of versions.now) i)
        (λ (start, end). IsPartFrom (Pairs distance) (values_of versions.now) from start end) }
    ensures within { IfSome result (λ (start, end). end ≤ size) }
{
    let first = first_from(versions, from, size);
    if first == size {
        return None;
    }
    let boundary = from < first && is_boundary(versions, first, size, distance);
    let start = if boundary { first } else { from };
    Some((start, boundary_from(versions, first + 1, size, distance)))
}
