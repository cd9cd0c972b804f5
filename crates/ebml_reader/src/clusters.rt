//! Clusters of unknown size: their children are read as long as they follow each other.
ghost use Rattle.std.specs.Prelude.{ℕ, ◌≡◌, ◌≤◌, ◌+◌, ◌-◌, ◌^◌, min, Some, Contains, length};
ghost use Rattle.ebml.specs.Head.{HasHead};
ghost use Rattle.ebml.specs.Masters.{cluster_ids};
ghost use Rattle.ebml.specs.declared.head.Head.{Head};
ghost use Rattle.ebml.specs.declared.items.Kind.TheVariants.{Endless};
ghost use Rattle.ebml_reader.specs.Inner.Settled.{BeginsItem, FindsEnd, FindsChild, FindsChildrenEnd};

use crate::elements::whole_length;
use crate::fault::ReaderFault;
use crate::intake::Intake;
use crate::settled::HEAD_LENGTH;
use ebml::{CLUSTER_IDS, Head, is_among, next_child, read_head};
use ffv1_devices::Source;

/// Reads a Cluster of unknown size, and says how many bytes it has.
pub(crate) fn cluster_end<S: Source>(
    head: &Head,
    intake: &mut Intake,
    source: &mut S,
) -> Result<usize, ReaderFault>
    requires { BeginsItem (Endless head.now) intake.old.bytes }
    ensures { FindsEnd (Endless head.now) result intake.old intake.new (S.log source.old) (S.log source.new) }
{
    let end = children_end(head.length, intake, source)?;
    Ok(end)
}

/// Reads the children that follow a head of so many bytes, and says where they end.
fn children_end<S: Source>(
    head_length: usize,
    intake: &mut Intake,
    source: &mut S,
) -> Result<usize, ReaderFault>
    requires { head_length ≤ length intake.old.bytes }
    ensures { FindsChildrenEnd head_length result intake.old intake.new (S.log source.old) (S.log source.new) }
{
    let mut end = head_length;
    while let Some(length) = read_child(end, intake, source)? {
        end += length;
    }
    Ok(end)
}

/// Reads the child at a place, and says how many bytes it has. `None` if none is there.
fn read_child<S: Source>(
    place: usize,
    intake: &mut Intake,
    source: &mut S,
) -> Result<Option<usize>, ReaderFault>
    requires { place ≤ length intake.old.bytes }
    ensures { FindsChild place result intake.old intake.new (S.log source.old) (S.log source.new) }
{
    let start = place as u64;
    intake.fill(source, start.saturating_add(HEAD_LENGTH))?;
    let claimed = claimed_length(&intake.bytes()[place..]);
    intake.fill(source, start.saturating_add(claimed))?;
    match next_child(&CLUSTER_IDS, &intake.bytes()[place..]) {
        Some(child) => Ok(Some(child.length)),
        None => Ok(None),
    }
}

/// How many bytes a Cluster's child that begins the bytes has by its size, up to `u64::MAX`.
fn claimed_length(bytes: &[u8]) -> u64
    ensures { (head : Head) (size : ℕ) → HasHead bytes.now head → Contains cluster_ids head.id → head.size ≡ Some size
        → result ≡ min (head.length + size) (2 ^ 64 - 1) }
{
    let Some(head) = read_head(bytes) else {
        return 0;
    };
    if !is_among(&CLUSTER_IDS, head.id) {
        return 0;
    }
    whole_length(&head)
}
