//! How finely versions are parted, and what is taken in each part: the splits that are tried, finest first.

/// What the parts are, and what is taken in each.
#[derive(Clone, Copy)]
pub(crate) enum Split {
    /// The segments between the boundaries at this distance.
    Pairs(usize),
    /// The regions.
    Regions,
    /// The segments between the boundaries at this distance, and in each what most versions have.
    Most(usize),
}

/// The splits by which versions are woven, finest first.
pub(crate) const SPLITS: [Split; 5] = [
    Split::Pairs(0),
    Split::Pairs(2),
    Split::Pairs(8),
    Split::Pairs(64),
    Split::Regions,
];

/// The splits by which they vote, finest first.
pub(crate) const VOTES: [Split; 4] = [
    Split::Most(0),
    Split::Most(2),
    Split::Most(8),
    Split::Most(64),
];
