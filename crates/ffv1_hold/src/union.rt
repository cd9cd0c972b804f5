//! The union of two lists of rising digests (own): how many it has, and its bytes, each digest once.
ghost use Rattle.std.specs.Prelude.{◌≡◌, ◌+◌, ◌^◌, ◌<◌, ◌≤◌, [], ◌∷◌, length, IfSome, IfNone};
ghost use Rattle.std.specs.List.{flat_map};
ghost use Rattle.ffv1_devices.specs.Results.{WritesAll};
ghost use Rattle.ffv1_holding.specs.Contents.{AreDigests};
ghost use Rattle.ffv1_hold.specs.Inner.Merging.{digests_union};

use ffv1_devices::{Sink, WriteFailed, write_field};
use std::cmp::Ordering;

/// The smallest digest of both, and what stands after it in each, or `None` where both are empty.
fn next_digest<'a>(
    left: &'a [[u8; 32]],
    right: &'a [[u8; 32]],
) -> Option<(&'a [u8; 32], &'a [[u8; 32]], &'a [[u8; 32]])>
    requires left { AreDigests left.now }
    requires right { AreDigests right.now }
    ensures some { IfSome result (λ t. digests_union left.now right.now ≡ t.0.now ∷ digests_union t.1.now t.2.now) }
    ensures left_after { IfSome result (λ t. AreDigests t.1.now) }
    ensures right_after { IfSome result (λ t. AreDigests t.2.now) }
    ensures fewer { IfSome result (λ t. length t.1.now + length t.2.now < length left.now + length right.now) }
    ensures none { IfNone result (digests_union left.now right.now ≡ []) }
{
    match left.split_first() {
        Some((a, lefts)) => match right.split_first() {
            Some((b, rights)) => match a.cmp(b) {
                Ordering::Less => Some((a, lefts, right)),
                Ordering::Equal => Some((a, lefts, rights)),
                Ordering::Greater => Some((b, left, rights)),
            },
            None => Some((a, lefts, right)),
        },
        None => match right.split_first() {
            Some((b, rights)) => Some((b, left, rights)),
            None => None,
        },
    }
}

/// How many digests the union has.
pub(crate) fn union_count(left: &[[u8; 32]], right: &[[u8; 32]]) -> u32
    requires left { AreDigests left.now }
    requires right { AreDigests right.now }
    requires few { length left.now + length right.now ≤ 2 ^ 31 }
    ensures { result ≡ length (digests_union left.now right.now) }
{
    let mut count = 0u32;
    let mut lefts = left;
    let mut rights = right;
    while let Some((_digest, left_after, right_after)) = next_digest(lefts, rights) {
        count += 1;
        lefts = left_after;
        rights = right_after;
    }
    count
}

/// Writes the digests of the union.
pub(crate) fn write_union<S: Sink>(
    sink: &mut S,
    left: &[[u8; 32]],
    right: &[[u8; 32]],
) -> Result<(), WriteFailed>
    requires left { AreDigests left.now }
    requires right { AreDigests right.now }
    ensures { WritesAll result (S.log sink.old) (S.log sink.new) (flat_map (λ digest. digest) (digests_union left.now right.now)) }
{
    let mut lefts = left;
    let mut rights = right;
    while let Some((digest, left_after, right_after)) = next_digest(lefts, rights) {
        write_field(sink, digest)?;
        lefts = left_after;
        rights = right_after;
    }
    Ok(())
}
