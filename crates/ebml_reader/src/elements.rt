//! Elements of known size.
ghost use Rattle.std.specs.Prelude.{ℕ, ◌≡◌, ◌+◌, ◌-◌, ◌^◌, min, Some};
ghost use Rattle.ebml.specs.declared.items.Kind.TheVariants.{Element};
ghost use Rattle.ebml_reader.specs.Inner.Settled.{BeginsItem, FindsEnd};

use crate::fault::ReaderFault;
use crate::intake::Intake;
use ebml::Head;
use ffv1_devices::Source;

/// Reads an element of known size, as far as it is there, and says how many bytes that are.
pub(crate) fn element_end<S: Source>(
    head: &Head,
    intake: &mut Intake,
    source: &mut S,
) -> Result<usize, ReaderFault>
    requires { BeginsItem (Element head.now) intake.old.bytes }
    ensures { FindsEnd (Element head.now) result intake.old intake.new (S.log source.old) (S.log source.new) }
{
    let whole = whole_length(head);
    intake.fill(source, whole)?;
    let there = intake.bytes().len() as u64;
    Ok(whole.min(there) as usize)
}

/// How many bytes an element has by its size, up to `u64::MAX`.
pub(crate) fn whole_length(head: &Head) -> u64
    ensures { (size : ℕ) → head.now.size ≡ Some size → result ≡ min (head.now.length + size) (2 ^ 64 - 1) }
{
    let length = head.length as u64;
    match head.size {
        Some(size) => length.saturating_add(size),
        None => length,
    }
}
