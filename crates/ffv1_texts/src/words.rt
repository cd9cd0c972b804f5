//! The words of a line.
ghost use Rattle.std.specs.Prelude.{IfOk, map};
ghost use Rattle.ffv1_texts.specs.Words.{AreWords};

use crate::parts::split_at_byte;
use std::alloc::{AllocError, Global};

/// The words of a line, parted by one space each: two spaces in a row have an empty word between them. A line without a space is
/// one word, and so an empty line is one empty word. It fails only if an allocation fails.
pub fn words_of<'a>(alloc: Global, line: &'a [u8]) -> Result<Vec<&'a [u8]>, AllocError>
    ensures { IfOk result (λ words. AreWords line.now (map (λ word. word.now) words.items)) }
{
    let mut words = Vec::new(alloc);
    let mut rest = line;
    while let Some((word, more)) = split_at_byte(rest, b' ') {
        words.push(word)?;
        rest = more;
    }
    words.push(rest)?;
    Ok(words)
}
