//! The item that begins what is left of a file.
ghost use Rattle.std.specs.Prelude.{◌≡◌, ◌≢◌, ◌<◌, length};
ghost use Rattle.ebml.specs.declared.items.Kind.TheVariants.{Unknown};
ghost use Rattle.ebml_reader.specs.Intake.{Has, IsBounded};
ghost use Rattle.ebml_reader.specs.Inner.Settled.{BeginsItem, FindsEnd, SettlesItem, ReadsItem};

use crate::clusters::cluster_end;
use crate::elements::element_end;
use crate::fault::ReaderFault;
use crate::intake::Intake;
use crate::unknown::pass_unknown;
use ebml::{Kind, next_item};
use ffv1_devices::Source;

/// A head is seen in so many bytes.
pub(crate) const HEAD_LENGTH: u64 = 12;

/// An item of a file: what it is, and how many bytes it has.
#[derive(Clone, Copy, Debug, PartialEq, Eq)]
pub struct FoundItem {
    pub kind: Kind,
    pub length: u64,
}

/// An item that was read, and how many bytes of it are kept at the front of what is held: all, or none of an unknown one.
#[derive(Clone, Copy, Debug)]
pub(crate) struct Settled {
    pub(crate) found: FoundItem,
    pub(crate) kept: usize,
}

/// Reads the next item. `None` if nothing is left.
pub(crate) fn read_item<S: Source>(
    intake: &mut Intake,
    source: &mut S,
) -> Result<Option<Settled>, ReaderFault>
    ensures { ReadsItem result intake.old intake.new (S.log source.old) (S.log source.new) }
{
    intake.fill(source, HEAD_LENGTH)?;
    if intake.bytes().is_empty() {
        return Ok(None);
    }
    let item = next_item(intake.bytes());
    let settled = settle(item.kind, intake, source)?;
    Ok(Some(settled))
}

/// Reads the item of this kind.
fn settle<S: Source>(
    kind: Kind,
    intake: &mut Intake,
    source: &mut S,
) -> Result<Settled, ReaderFault>
    requires some { 0 < length intake.old.bytes }
    requires seen { Has 12 intake.old }
    requires begins { BeginsItem kind intake.old.bytes }
    requires bounded { IsBounded intake.old }
    ensures { SettlesItem result intake.old intake.new (S.log source.old) (S.log source.new) }
{
    if let Kind::Unknown = kind {
        let length = pass_unknown(intake, source)?;
        let found = FoundItem { kind, length };
        return Ok(Settled { found, kept: 0 });
    }
    let kept = item_end(&kind, intake, source)?;
    let length = kept as u64;
    let found = FoundItem { kind, length };
    Ok(Settled { found, kept })
}

/// Reads an item that is not unknown, and says how many bytes it has.
fn item_end<S: Source>(
    kind: &Kind,
    intake: &mut Intake,
    source: &mut S,
) -> Result<usize, ReaderFault>
    requires known { kind.now ≢ Unknown }
    requires begins { BeginsItem kind.now intake.old.bytes }
    requires bounded { IsBounded intake.old }
    ensures { FindsEnd kind.now result intake.old intake.new (S.log source.old) (S.log source.new) }
{
    match kind {
        Kind::Segment(head) => Ok(head.length),
        Kind::Element(head) => element_end(head, intake, source),
        Kind::Endless(head) => cluster_end(head, intake, source),
        Kind::Unknown => Ok(0),
    }
}
