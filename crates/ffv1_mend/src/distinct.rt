//! Versions, each once.
ghost use Rattle.std.specs.Prelude.{◌≡◌, ◌↔◌, IsTrue, Any, IfOk};
ghost use Rattle.ffv1_weave.specs.References.{values_of};
ghost use Rattle.ffv1_mend.specs.Inner.Distinct.{AreDistinctOf};

use std::alloc::{AllocError, Global};

/// Whether two byte strings are equal.
pub(crate) fn is_same(one: &[u8], other: &[u8]) -> bool
    ensures { IsTrue result ↔ (one.now ≡ other.now) }
{
    one == other
}

/// Whether one of the byte strings is this.
pub(crate) fn is_among(found: &[&[u8]], bytes: &[u8]) -> bool
    ensures { IsTrue result ↔ Any (λ one. one.now ≡ bytes.now) found.now }
{
    found.iter().any(|one| is_same(one, bytes))
}

/// The versions, each once, in the order in which they come first. Each is compared with those that were found before it.
pub(crate) fn distinct_versions<'a>(
    alloc: Global,
    versions: &[&'a [u8]],
) -> Result<Vec<&'a [u8]>, AllocError>
    ensures { IfOk result (λ found. AreDistinctOf (values_of versions.now) (values_of found.items)) }
{
    let mut found = Vec::new(alloc);
    for version in versions {
        if !is_among(found.as_slice(), version) {
            found.push(*version)?;
        }
    }
    Ok(found)
}
