//! What most versions have between two places.
ghost use Rattle.std.specs.Prelude.{◌≤◌, ℕ, length, All, IfOk};
ghost use Rattle.ffv1_weave.specs.References.{values_of};
ghost use Rattle.ffv1_weave.specs.Numbers.{AreNumbered};
ghost use Rattle.ffv1_weave.specs.Splits.{HasChoice};
ghost use Rattle.ffv1_weave.specs.Inner.Parts.{AreChoicesBy, AreDistinct};
ghost use Rattle.ffv1_weave.specs.declared.splits.Split.TheVariants.{Most};

use crate::parts::choices_between;
use std::alloc::{AllocError, Global};

/// The byte strings that most versions have between two places, each once: no other stands there in more of them. Each version has the
/// places, and no two are equal.
pub(crate) fn most_between<'a>(
    alloc: Global,
    versions: &[&'a [u8]],
    start: usize,
    end: usize,
) -> Result<Vec<&'a [u8]>, AllocError>
    requires order { start ≤ end }
    requires within { All (λ version. end ≤ length version.now) versions.now }
    requires distinct { AreDistinct (values_of versions.now) }
    ensures { IfOk result (λ choices. (distance : ℕ) → AreChoicesBy (Most distance) (values_of versions.now) start end (values_of choices.items)) }
{
    let choices = choices_between(alloc, versions, start, end)?;
    let mut most = Vec::new(alloc);
    let mut greatest = 0;
    for choice in choices.as_slice() {
        let count = how_many(versions, start, end, choice);
        if count > greatest {
            most.clear();
            greatest = count;
        }
        if count == greatest {
            most.push(*choice)?;
        }
    }
    Ok(most)
}

/// How many versions have these bytes between two places. Each version has the places, and no two are equal.
fn how_many(versions: &[&[u8]], start: usize, end: usize, choice: &[u8]) -> usize
    requires order { start ≤ end }
    requires within { All (λ version. end ≤ length version.now) versions.now }
    requires distinct { AreDistinct (values_of versions.now) }
    ensures { AreNumbered (HasChoice (values_of versions.now) start end choice.now) result }
{
    let mut count = 0;
    for version in versions {
        if &version[start..end] == choice {
            count += 1;
        }
    }
    count
}
