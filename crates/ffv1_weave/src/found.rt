//! What is found among byte strings that are tried: those that pass.
ghost use Rattle.std.specs.Prelude.{ℕ, List, ◌∷◌, IfOk};
ghost use Rattle.ffv1_weave.specs.Inner.Found.{IsFoundAmong};

use crate::check::Check;
use std::alloc::{AllocError, Global};

/// What is found among byte strings that are tried.
#[derive(Drop)]
pub(crate) enum Found {
    /// None of them passes.
    Nothing,
    /// These bytes alone pass.
    One(Vec<u8>),
    /// Two that differ pass.
    Several,
}

/// What is found where these bytes are tried too.
pub(crate) fn with_bytes(
    alloc: Global,
    check: Check,
    bytes: &[u8],
    found: Found,
) -> Result<Found, AllocError>
    ensures { IfOk result (λ more. (tried : List (List ℕ)) → IsFoundAmong check tried found → IsFoundAmong check (bytes.now ∷ tried) more) }
{
    if !check.passes(bytes) {
        return Ok(found);
    }
    match found {
        Found::Nothing => Ok(Found::One(Vec::from_slice(alloc, bytes)?)),
        Found::One(other) => {
            if other.as_slice() == bytes {
                Ok(Found::One(other))
            } else {
                Ok(Found::Several)
            }
        }
        Found::Several => Ok(Found::Several),
    }
}
