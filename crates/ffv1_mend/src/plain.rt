//! Bytes without a checksum.
ghost use Rattle.std.specs.Prelude.{◌≡◌, ◌<◌, length, Contains};
ghost use Rattle.ffv1_weave.specs.References.{values_of};
ghost use Rattle.ffv1_mend.specs.Mended.{PlainStands, IsPlainMend};

use crate::content::Content;
use crate::distinct::is_same;
use crate::mended::Mended;
use crate::state::State;
use std::alloc::Global;

/// How bytes without a checksum stand: `Alone`, `Agreed` or `Open`. `from` is one of the versions.
fn plain_state(versions: &[&[u8]], from: &[u8]) -> State
    requires { Contains (values_of versions.now) from.now }
    ensures { PlainStands (values_of versions.now) from.now from.now result }
{
    if versions.len() == 1 {
        return State::Alone;
    }
    for version in versions {
        if !is_same(version, from) {
            return State::Open;
        }
    }
    State::Agreed
}

/// What becomes of bytes without a checksum: they are those of `from`, which is one of the versions.
pub(crate) fn mend_plain<'a>(alloc: Global, versions: &[&'a [u8]], from: &'a [u8]) -> Mended<'a>
    requires { Contains (values_of versions.now) from.now }
    ensures { IsPlainMend (values_of versions.now) from.now result }
{
    Mended::new(
        plain_state(versions, from),
        Some(Content::Version(from)),
        Vec::new(alloc),
    )
}
