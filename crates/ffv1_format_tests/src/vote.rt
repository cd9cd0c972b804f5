//! Slices that are put together of what most versions have.
use crate::repair::{Call, Reported, reported_of_damages};
use crate::weave::Damage;
use std::alloc::{AllocError, Global};

/// Versions by their damage, and what is voted of them: at each of four distances what most of them have is tried.
static ROWS: [(&[Damage<'static>], Reported); 8] = [
    // three versions with damage of their own, in whatever order and however often
    (&[&[(3, 1)], &[(100, 2)], &[(1000, 4)]], Reported::Slice(4)),
    (
        &[&[(1000, 4)], &[(3, 1)], &[(100, 2)], &[(3, 1)]],
        Reported::Slice(4),
    ),
    // two do not vote, however often they are there
    (&[&[(3, 1)], &[(100, 2)], &[(3, 1)]], Reported::Nothing),
    // another byte in each of three, and two of four alike: each is tried
    (
        &[&[(3, 1), (50, 1)], &[(3, 2), (90, 1)], &[(130, 1)]],
        Reported::Slice(12),
    ),
    (
        &[
            &[(3, 1), (50, 1)],
            &[(3, 1), (90, 1)],
            &[(130, 1)],
            &[(170, 1)],
        ],
        Reported::Slice(8),
    ),
    // most are wrong in one place, and all are
    (
        &[&[(3, 1), (50, 1)], &[(3, 1), (90, 1)], &[(130, 1)]],
        Reported::Nothing,
    ),
    (
        &[&[(3, 1)], &[(3, 1), (50, 1)], &[(3, 1), (90, 1)]],
        Reported::Nothing,
    ),
    // most have a wrong size, so the vote is no slice with a footer
    (
        &[&[(1031, 1)], &[(1031, 1), (3, 1)], &[(9, 1)]],
        Reported::Nothing,
    ),
];

#[test]
fn what_most_versions_have_is_voted(rt: HostRuntime) {
    for &(damages, reported) in &ROWS {
        assert!(rt; reported_of_damages(rt.alloc(), Call::Vote, damages) == Ok(reported));
    }
}

/// What is voted of four versions, of which two and two are alike at so many places, 77 bytes apart.
fn reported_of_ties(alloc: Global, count: usize) -> Result<Reported, AllocError> {
    let mut ties = Vec::new(alloc);
    for place in 0..count {
        ties.push((place.saturating_mul(77), 1))?;
    }
    let mut one = Vec::from_slice(alloc, &ties)?;
    one.push((1015, 1))?;
    let mut other = Vec::from_slice(alloc, &ties)?;
    other.push((1017, 1))?;
    reported_of_damages(
        alloc,
        Call::Vote,
        &[&one, &other, &[(1019, 1)], &[(1021, 1)]],
    )
}

#[test]
fn at_most_4096_votes_are_tried_at_each_distance(rt: HostRuntime) {
    let most = reported_of_ties(rt.alloc(), 12);
    let more = reported_of_ties(rt.alloc(), 13);
    assert!(rt; most == Ok(Reported::Slice(4 * 4096)) && more == Ok(Reported::Nothing));
}
