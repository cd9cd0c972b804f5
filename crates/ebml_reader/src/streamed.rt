//! The children of a master, as they are read: by their heads alone, or held one at a time.
ghost use Rattle.std.specs.Prelude.{ℕ, ◌≡◌, ◌+◌, true, false, Some, None, min};
ghost use Rattle.ebml_reader.specs.Pieces.{up_to, IsWithinLeft, FindsClaim, FindsHeld, PassesContent};

use crate::elements::whole_length;
use crate::fault::ReaderFault;
use crate::intake::Intake;
use crate::pieces::pass_summed;
use crate::running_crc::RunningCrc32;
use crate::settled::HEAD_LENGTH;
use ebml::{Element, Head, is_among, read_head};
use ffv1_devices::Source;

/// What was passed of a master's content: how many bytes, and how many of them its children have, which follow each other from its start.
#[derive(Clone, Copy, Debug, PartialEq, Eq)]
pub struct PassedContent {
    pub length: u64,
    pub children: u64,
}

/// The head of the child that begins what is left of a master's content: an element with one of these IDs, which ends by its size within so
/// many bytes that are left of the content, if that is known. The file may end before the child does. `None` if no child is there.
///
/// Returns `Read` if the source failed, or gave 2^62 bytes, and `Memory` if an allocation fails.
pub fn claimed_child<S: Source>(
    ids: &[u32],
    left: Option<u64>,
    intake: &mut Intake,
    source: &mut S,
) -> Result<Option<Head>, ReaderFault>
    ensures { FindsClaim ids.now left result intake.old intake.new (S.log source.old) (S.log source.new) }
{
    intake.fill(source, limited(HEAD_LENGTH, left))?;
    let Some(head) = read_head(front(intake.bytes(), left)) else {
        return Ok(None);
    };
    if !is_among(ids, head.id) {
        return Ok(None);
    }
    if !fits(&head, left) {
        return Ok(None);
    }
    Ok(Some(head))
}

/// So many bytes, or those that are left if they are fewer.
fn limited(count: u64, left: Option<u64>) -> u64
    ensures none { left ≡ None → result ≡ count }
    ensures some { (n : ℕ) → left ≡ Some n → result ≡ min count n }
{
    match left {
        Some(left) => count.min(left),
        None => count,
    }
}

/// The front of bytes, up to those that are left.
fn front<'a>(bytes: &'a [u8], left: Option<u64>) -> &'a [u8]
    ensures { result.now ≡ up_to left bytes.now }
{
    match left {
        Some(left) => &bytes[..left.min(bytes.len() as u64) as usize],
        None => bytes,
    }
}

/// Whether an element with this head has a size, and ends by that within the bytes that are left.
fn fits(head: &Head, left: Option<u64>) -> bool
    requires { IsWithinLeft head.now.length left }
    ensures some { result ≡ true → (size : ℕ) × (head.now.size ≡ Some size) × IsWithinLeft (head.now.length + size) left }
    ensures none { result ≡ false → (size : ℕ) → head.now.size ≡ Some size → IsWithinLeft (head.now.length + size) left → ⊥ }
{
    let Some(size) = head.size else {
        return false;
    };
    match left {
        Some(left) => size <= left - head.length as u64,
        None => true,
    }
}

/// The child that begins what is left of a master's content, which is held then: an element with one of these IDs, which ends within the file,
/// and within so many bytes that are left of the content, if that is known. `None` if no child is there.
///
/// Returns `Read` if the source failed, or gave 2^62 bytes, and `Memory` if an allocation fails.
pub fn held_child<S: Source>(
    ids: &[u32],
    left: Option<u64>,
    intake: &mut Intake,
    source: &mut S,
) -> Result<Option<Element>, ReaderFault>
    ensures { FindsHeld ids.now left result intake.old intake.new (S.log source.old) (S.log source.new) }
{
    let Some(head) = claimed_child(ids, left, intake, source)? else {
        return Ok(None);
    };
    let length = whole_length(&head);
    intake.fill(source, length)?;
    if (intake.bytes().len() as u64) < length {
        return Ok(None);
    }
    let length = length as usize;
    Ok(Some(Element { head, length }))
}

/// Passes the content of a master of this size, as far as it is there, whose children have these IDs. Of the children no more than a head and a
/// piece is held.
///
/// Returns `Read` if the source failed, or gave 2^62 bytes, and `Memory` if an allocation fails.
pub fn pass_content<S: Source>(
    ids: &[u32],
    size: u64,
    crc: &mut RunningCrc32,
    intake: &mut Intake,
    source: &mut S,
) -> Result<PassedContent, ReaderFault>
    ensures { PassesContent ids.now size result crc.old crc.new intake.old intake.new (S.log source.old) (S.log source.new) }
{
    let mut children = 0;
    while let Some(head) = claimed_child(ids, Some(size - children), intake, source)? {
        let whole = whole_length(&head);
        let count = pass_summed(whole, crc, intake, source)?;
        if count < whole {
            let length = children + count;
            return Ok(PassedContent { length, children });
        }
        children += whole;
    }
    let rest = pass_summed(size - children, crc, intake, source)?;
    let length = children + rest;
    Ok(PassedContent { length, children })
}
