//! What the choices of parts change of what is left: each is computed once, and a combination's remainder is the
//! sum of those of its choices.
ghost use Rattle.std.specs.Prelude.{◌≡◌, ◌+◌, ◌≤◌, ◌<◌, length, map, All, IfOk};
ghost use Rattle.ffv1_weave.specs.Checks.{CanWeave};
ghost use Rattle.ffv1_weave.specs.Inner.Parts.{IsFit};
ghost use Rattle.ffv1_weave.specs.Inner.Changes.{remainder_in, change_of, changes_of, changed};

use crate::check::Check;
use crate::parts::Part;
use std::alloc::{AllocError, Global};

/// What a choice changes of the remainder of `first`, if it is written over the bytes from `start` on: nothing, if these are the same
/// already.
fn change_of(
    check: Check,
    scratch: &mut [u8],
    first: &[u8],
    base: u32,
    start: usize,
    choice: &[u8],
) -> u32
    requires weaves { CanWeave check }
    requires same { length scratch.old ≡ length first.now }
    requires fits { start + length choice.now ≤ length first.now }
    requires base { base ≡ remainder_in check first.now }
    ensures { result ≡ change_of check first.now start choice.now }
{
    let end = start + choice.len();
    if &first[start..end] == choice {
        return 0;
    }
    scratch.copy_from_slice(first);
    scratch[start..end].copy_from_slice(choice);
    check.remainder(scratch) ^ base
}

/// What each choice of a part changes.
fn changes_of(
    alloc: Global,
    check: Check,
    scratch: &mut [u8],
    first: &[u8],
    base: u32,
    part: &Part<'_>,
) -> Result<Vec<u32>, AllocError>
    requires weaves { CanWeave check }
    requires same { length scratch.old ≡ length first.now }
    requires fits { IsFit (length first.now) part.now }
    requires base { base ≡ remainder_in check first.now }
    ensures { IfOk result (λ changes. changes.items ≡ changes_of check first.now part.now) }
{
    let mut changes = Vec::new(alloc);
    for choice in part.choices.as_slice() {
        let change = change_of(check, scratch, first, base, part.start, choice);
        changes.push(change)?;
    }
    Ok(changes)
}

/// What each choice of each part changes of the remainder of `first`, which is `base`.
pub(crate) fn tables_of(
    alloc: Global,
    check: Check,
    first: &[u8],
    base: u32,
    parts: &[Part<'_>],
) -> Result<Vec<Vec<u32>>, AllocError>
    requires weaves { CanWeave check }
    requires fits { All (IsFit (length first.now)) parts.now }
    requires base { base ≡ remainder_in check first.now }
    ensures { IfOk result (λ tables. map (λ changes. changes.items) tables.items ≡ map (changes_of check first.now) parts.now) }
{
    let mut scratch = Vec::from_slice(alloc, first)?;
    let mut tables = Vec::new(alloc);
    for part in parts {
        let changes = changes_of(alloc, check, &mut scratch, first, base, part)?;
        tables.push(changes)?;
    }
    Ok(tables)
}

/// The remainder of the combination of this number.
pub(crate) fn changed(tables: &[Vec<u32>], base: u32, code: usize) -> u32
    requires { All (λ changes. 0 < length changes.items) tables.now }
    ensures { result ≡ changed (map (λ changes. changes.items) tables.now) code base }
{
    let mut register = base;
    let mut rest = code;
    for changes in tables {
        let many = changes.len();
        register ^= changes[rest % many];
        rest /= many;
    }
    register
}
