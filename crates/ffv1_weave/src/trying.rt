//! Combinations that are tried: what is left of each is summed of what each of its choices changes of the first one, and only where that is
//! 0 are its bytes written and looked at. A part with one choice changes nothing, so no parity is taken of it.
ghost use Rattle.std.specs.Prelude.{◌≡◌, ◌<◌, ◌++◌, ℕ, List, [], length, All, IfOk, slice_index_or};
ghost use Rattle.ffv1_weave.specs.References.{values_of};
ghost use Rattle.ffv1_weave.specs.Checks.{CanWeave};
ghost use Rattle.ffv1_weave.specs.Inner.Found.{IsFoundAmong};
ghost use Rattle.ffv1_weave.specs.Inner.Parts.{AreFewParts, chosen_below};
ghost use Rattle.ffv1_weave.specs.declared.splits.Split.{Split};

use crate::changes::{changed, tables_of};
use crate::check::Check;
use crate::found::{Found, with_bytes};
use crate::parts::{Parts, choose};
use std::alloc::{AllocError, Global};

/// What is found where the combinations of these parts are tried too. There is one version at least.
pub(crate) fn with_combinations(
    alloc: Global,
    check: Check,
    versions: &[&[u8]],
    tried: &Parts<'_>,
    mut found: Found,
) -> Result<Found, AllocError>
    requires weaves { CanWeave check }
    requires some { 0 < length versions.now }
    requires lengths { All (λ version. length version.now ≡ length (slice_index_or (values_of versions.now) 0 [])) versions.now }
    requires few { (split : Split) × AreFewParts split (values_of versions.now)
        (length (slice_index_or (values_of versions.now) 0 [])) tried.now.parts.items tried.now.count }
    ensures { IfOk result (λ more. (others : List (List ℕ)) → IsFoundAmong check others found
        → IsFoundAmong check (chosen_below tried.now.parts.items (slice_index_or (values_of versions.now) 0 []) tried.now.count ++ others) more) }
{
    let mut bytes = Vec::from_slice(alloc, versions[0])?;
    choose(&mut bytes, tried.parts.as_slice(), 0);
    let base = check.remainder(bytes.as_slice());
    let tables = tables_of(alloc, check, bytes.as_slice(), base, tried.parts.as_slice())?;
    for code in 0..tried.count {
        if changed(tables.as_slice(), base, code) != 0 {
            continue;
        }
        choose(&mut bytes, tried.parts.as_slice(), code);
        found = with_bytes(alloc, check, bytes.as_slice(), found)?;
    }
    Ok(found)
}
