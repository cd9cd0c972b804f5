//! Slices of which one bit is wrong in all versions.
use crate::parity::with_parity;
use crate::weave::{Damage, version_of};
use ffv1_weave::{Check, MOST_REPAIRS, WeaveResult, repair, vote, weave};
use std::alloc::{AllocError, Global};

/// A call that puts a slice together of its versions, or tries what may be one where no combination of them is.
#[derive(Clone, Copy)]
pub(crate) enum Call {
    Weave,
    Repair,
    Vote,
}

/// What comes of such a call on versions of a slice.
#[derive(Clone, Copy, PartialEq, Eq)]
pub(crate) enum Reported {
    /// The slice itself, of so many that were tried.
    Slice(usize),
    Other,
    Nothing,
    Disputed,
    /// None of so many combinations.
    Missing(usize),
    TooMany,
    /// The versions are of no one length, or there are none.
    Uneven,
}

/// What comes of weaving, in the words of the other calls; or what else is reported.
fn woven(outcome: WeaveResult) -> Result<Option<(Vec<u8>, usize)>, Reported> {
    match outcome {
        WeaveResult::Woven(bytes, count) => Ok(Some((bytes, count))),
        WeaveResult::Disputed => Err(Reported::Disputed),
        WeaveResult::Missing(count) => Err(Reported::Missing(count)),
        WeaveResult::TooMany => Err(Reported::TooMany),
    }
}

/// What comes of the call on these versions of a slice.
fn reported_of(
    alloc: Global,
    call: Call,
    slice: &[u8],
    versions: &[&[u8]],
) -> Result<Reported, AllocError> {
    if versions.is_empty()
        || !versions
            .iter()
            .all(|version| version.len() == versions[0].len())
    {
        return Ok(Reported::Uneven);
    }
    let returned = match call {
        Call::Weave => woven(weave(alloc, Check::Slice, versions)?),
        Call::Repair => Ok(repair(alloc, versions)?),
        Call::Vote => Ok(vote(alloc, versions)?),
    };
    Ok(match returned {
        Ok(Some((bytes, count))) if bytes.as_slice() == slice => Reported::Slice(count),
        Ok(Some(_)) => Reported::Other,
        Ok(None) => Reported::Nothing,
        Err(reported) => reported,
    })
}

/// What comes of the call on copies of a slice.
fn reported_of_copies(
    alloc: Global,
    call: Call,
    slice: &[u8],
    copies: &[Vec<u8>],
) -> Result<Reported, AllocError> {
    let mut versions = Vec::new(alloc);
    for copy in copies {
        versions.push(copy.as_slice())?;
    }
    reported_of(alloc, call, slice, &versions)
}

/// What comes of the call on the slice's versions with these damages.
pub(crate) fn reported_of_damages(
    alloc: Global,
    call: Call,
    damages: &[Damage<'_>],
) -> Result<Reported, AllocError> {
    let mut copies = Vec::new(alloc);
    for damage in damages {
        copies.push(version_of(alloc, damage)?)?;
    }
    let slice = version_of(alloc, &[])?;
    reported_of_copies(alloc, call, &slice, &copies)
}

/// How many bits the slice has. It has 1029 bytes of content, 3 of its size, its status, and 4 of its parity.
const BITS: usize = 8 * 1037;

/// Versions by their damage, and what is repaired of them.
static ROWS: [(&[Damage<'static>], Reported); 16] = [
    // the first bit of the content in one version, two and three
    (&[&[(0, 0x80)]], Reported::Slice(BITS)),
    (&[&[(0, 0x80)], &[(0, 0x80)]], Reported::Slice(BITS)),
    (
        &[&[(0, 0x80)], &[(0, 0x80)], &[(0, 0x80)]],
        Reported::Slice(BITS),
    ),
    // the last bit of the parity, and another one
    (&[&[(1036, 1)]], Reported::Slice(BITS)),
    (&[&[(1036, 1)], &[(1036, 1)]], Reported::Slice(BITS)),
    (&[&[(1033, 0x10)]], Reported::Slice(BITS)),
    // the status, and the size
    (&[&[(1032, 0x08)]], Reported::Slice(BITS)),
    (&[&[(1031, 1)]], Reported::Slice(BITS)),
    // different damage too, in two versions and in three, in whatever order
    (
        &[&[(3, 1), (9, 2)], &[(3, 1), (100, 4)]],
        Reported::Slice(4 * BITS),
    ),
    (
        &[&[(3, 1), (9, 2)], &[(3, 1), (100, 4)], &[(3, 1), (9, 2)]],
        Reported::Slice(4 * BITS),
    ),
    (
        &[&[(3, 1), (9, 2)], &[(3, 1), (100, 4)], &[(3, 1), (200, 8)]],
        Reported::Slice(8 * BITS),
    ),
    // another bit of one byte in each
    (&[&[(3, 1)], &[(3, 2)]], Reported::Slice(2 * BITS)),
    // no bit, two bits, and two that are wrong in all versions beside what differs
    (&[&[]], Reported::Nothing),
    (&[&[(3, 3)], &[(3, 3)]], Reported::Nothing),
    (&[&[(3, 1), (9, 3)], &[(9, 3), (100, 4)]], Reported::Nothing),
    // two slices that differ and pass, each with the same wrong bit
    (
        &[
            &[(3, 1)],
            &[
                (3, 1),
                (10, 0x01),
                (11, 0x04),
                (12, 0xC1),
                (13, 0x1D),
                (14, 0xB7),
            ],
        ],
        Reported::Nothing,
    ),
];

#[test]
fn one_wrong_bit_is_repaired(rt: HostRuntime) {
    for &(damages, reported) in &ROWS {
        assert!(rt; reported_of_damages(rt.alloc(), Call::Repair, damages) == Ok(reported));
    }
}

/// The greatest length of a slice that is repaired, in bytes.
const GREATEST: u32 = 131_072;

/// A slice with so many bytes of content, all of them `5A`.
fn slice_of(alloc: Global, content: u32) -> Result<Vec<u8>, AllocError> {
    let mut bytes = vec![in alloc; 0x5A; content as usize]?;
    let [_, high, middle, low] = content.to_be_bytes();
    bytes.extend_from_slice(&[high, middle, low, 0])?;
    with_parity(bytes)
}

/// What comes of repairing one version of such a slice whose first bit is wrong.
fn reported_of_content(alloc: Global, content: u32) -> Result<Reported, AllocError> {
    let slice = slice_of(alloc, content)?;
    let mut version = Vec::from_slice(alloc, &slice)?;
    if let Some(byte) = version.first_mut() {
        *byte ^= 0x80;
    }
    reported_of(alloc, Call::Repair, &slice, &[&version])
}

#[test]
fn at_most_2_to_the_20_repairs_are_tried(rt: HostRuntime) {
    let most = reported_of_content(rt.alloc(), GREATEST - 8);
    let more = reported_of_content(rt.alloc(), GREATEST - 7);
    assert!(rt; most == Ok(Reported::Slice(MOST_REPAIRS)) && more == Ok(Reported::Nothing));
}
