//! The places of a spliced frame.
ghost use Rattle.std.specs.Prelude.{◌≡◌, ◌++◌, [], ◌∷◌, OnOk};

use std::alloc::AllocError;

/// How a place of a spliced frame stands.
#[derive(Clone, Copy, Debug, PartialEq, Eq)]
pub enum Standing {
    /// All slices with content that pass their parity and end there are equal: they stand there.
    Settled,
    /// No slice with content that ends there passes its parity, but of what the copies have there one combination alone does,
    /// among so many: it stands there. Where no footer that ends there claims a start, it begins with the hole, and each copy is taken with
    /// the size that the slice then has. Where they claim several, it begins at the one from which one combination alone passes, while from
    /// each other none does, and each copy is taken so too: the number is that of all combinations that were tried, or 2^64 - 1 where they
    /// are more.
    Woven(usize),
    /// No slice with content that ends there passes its parity, one start alone is claimed there, and what the copies have from it on is
    /// not woven: no combination passes, or there are too many to be tried. But of what most copies have there one combination alone
    /// passes, among so many that were tried: it stands there. There are three copies at least that differ there. If the original is not
    /// among what was tried, another slice can pass by chance, so it does not count as given back.
    Voted(usize),
    /// No slice with content that ends there passes its parity, one start alone is claimed there, no combination of what the copies have
    /// from it on passes, and it is not voted. But one byte string alone passes that is a combination with one bit inverted, among so many
    /// that were tried: it stands there. If more than one bit is wrong, another slice can pass by chance, so it does not count as given
    /// back.
    Repaired(usize),
    /// Two slices with content that differ pass their parity and end there, or else two combinations of what the copies have there
    /// do. The lexicographically smallest of the copies' bytes stand there.
    Disputed,
    /// No slice with content that ends there passes its parity, and one start alone is claimed there. No combination of what the copies
    /// have from it on passes, and it is not repaired: none with one bit inverted passes, two that differ do, or more than 2^20 would have
    /// to be tried. Or there are more combinations than are tried. Nor is it voted. The lexicographically smallest of the copies' bytes
    /// stand there.
    Missing,
    /// What lies there can't be divided into slices: no slice with content that passes its parity ends at its end alone, and the
    /// footers that end there claim several starts, or none, and nothing is woven from these, or from the start of what lies there. It has
    /// places after it and before it. The lexicographically smallest of the copies' bytes stand there.
    Undivided,
}

/// A slice's place in a spliced frame, in bytes from the frame's start.
#[derive(Clone, Copy, Debug, PartialEq, Eq)]
pub struct Place {
    /// How many bytes stand before it.
    pub start: usize,
    /// How many bytes stand before its end, its own among them.
    pub end: usize,
    /// How it stands.
    pub standing: Standing,
}

/// Adds a place.
pub(crate) fn add_place(
    places: &mut Vec<Place>,
    start: usize,
    end: usize,
    standing: Standing,
) -> Result<(), AllocError>
    ensures { OnOk result (places.new.items ≡ places.old.items ++ record { start = start; end = end; standing = standing } ∷ []) }
{
    places.push(Place {
        start,
        end,
        standing,
    })?;
    Ok(())
}
