//! Items of a file that are passed: how one begins, and what follows that.
ghost use Rattle.std.specs.Prelude.{◌≡◌, ◌≤◌, ◌<◌, length, drop};
ghost use Rattle.ebml_reader.specs.Intake.{Has, IsBounded};
ghost use Rattle.ebml_reader.specs.Starts.{PassesStart, PassesRest, StartAndRestAreItem};
ghost use Rattle.ebml_reader.specs.Inner.Settled.{BeginsItem};
ghost use Rattle.ebml_reader.specs.Inner.Front.{PassesFront, PassesAllChildren};

use crate::fault::ReaderFault;
use crate::intake::Intake;
use crate::pieces::pass_bytes;
use crate::settled::HEAD_LENGTH;
use crate::streamed::held_child;
use crate::unknown::pass_unknown;
use ebml::{CLUSTER_IDS, Head, Kind, next_item};
use ffv1_devices::Source;

/// How an item begins: what it is, and how many bytes were passed of it: all of an unknown one, the head of any other.
#[derive(Clone, Copy, Debug, PartialEq, Eq)]
pub struct ItemStart {
    pub kind: Kind,
    pub length: u64,
}

/// Passes the start of the next item of a file, always one and the same. `None` after the last one.
///
/// Returns `Read` if the source failed, or gave 2^62 bytes, and `Memory` if an allocation fails.
pub fn pass_start<S: Source>(
    intake: &mut Intake,
    source: &mut S,
) -> Result<Option<ItemStart>, ReaderFault>
    ensures { PassesStart result intake.old intake.new (S.log source.old) (S.log source.new) }
{
    intake.fill(source, HEAD_LENGTH)?;
    if intake.bytes().is_empty() {
        return Ok(None);
    }
    let kind = next_item(intake.bytes()).kind;
    let length = pass_front(&kind, intake, source)?;
    Ok(Some(ItemStart { kind, length }))
}

/// Passes an unknown item, or the head of any other, and says how many bytes that are.
fn pass_front<S: Source>(
    kind: &Kind,
    intake: &mut Intake,
    source: &mut S,
) -> Result<u64, ReaderFault>
    requires some { 0 < length intake.old.bytes }
    requires seen { Has 12 intake.old }
    requires begins { BeginsItem kind.now intake.old.bytes }
    requires bounded { IsBounded intake.old }
    ensures { PassesFront kind.now result intake.old intake.new (S.log source.old) (S.log source.new) }
{
    match kind {
        Kind::Segment(head) => Ok(pass_head(head, intake)),
        Kind::Element(head) => Ok(pass_head(head, intake)),
        Kind::Endless(head) => Ok(pass_head(head, intake)),
        Kind::Unknown => pass_unknown(intake, source),
    }
}

/// Passes a head, and says how many bytes it has.
fn pass_head(head: &Head, intake: &mut Intake) -> u64
    requires { head.now.length ≤ length intake.old.bytes }
    ensures long { result ≡ head.now.length }
    ensures passed { intake.new ≡ record { bytes = drop head.now.length intake.old.bytes; taken = intake.old.taken; ended = intake.old.ended } }
{
    intake.pass(head.length);
    head.length as u64
}

/// Passes what follows the start of an item, up to its end, and says how many bytes that are. Of an element of known size one piece is held,
/// of a Cluster of unknown size one child.
///
/// Returns `Read` if the source failed, or gave 2^62 bytes, and `Memory` if an allocation fails.
pub fn pass_rest<S: Source>(
    kind: &Kind,
    intake: &mut Intake,
    source: &mut S,
) -> Result<u64, ReaderFault>
    requires { IsBounded intake.old }
    ensures { PassesRest kind.now result intake.old intake.new (S.log source.old) (S.log source.new) }
{
    match kind {
        Kind::Segment(_) => Ok(0),
        Kind::Element(head) => match head.size {
            Some(size) => pass_bytes(size, intake, source),
            None => Ok(0),
        },
        Kind::Endless(_) => pass_children(intake, source),
        Kind::Unknown => Ok(0),
    }
}

/// Passes all children of a Cluster of unknown size, and says how many bytes they have.
fn pass_children<S: Source>(intake: &mut Intake, source: &mut S) -> Result<u64, ReaderFault>
    requires { IsBounded intake.old }
    ensures { PassesAllChildren result intake.old intake.new (S.log source.old) (S.log source.new) }
{
    let mut passed: u64 = 0;
    while let Some(child) = held_child(&CLUSTER_IDS, None, intake, source)? {
        intake.pass(child.length);
        passed += child.length as u64;
    }
    Ok(passed)
}

/// The start of an item and what follows it up to its end are the item.
pub fn start_and_rest_are_item()
    ensures { StartAndRestAreItem }
{}
