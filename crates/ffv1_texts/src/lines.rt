//! The lines of a text.
ghost use Rattle.std.specs.Prelude.{◌≡◌, ◌<◌, ◌++◌, ◌∷◌, [], ◌⊎◌, length};
ghost use Rattle.ffv1_texts.specs.Lines.{HasNoFeed};

use crate::parts::split_at_byte;

/// The first line of a text that has one, without its line feed, and what stands after it. A line feed ends each line; the last may
/// go without, and then nothing stands after it.
pub fn first_line(text: &[u8]) -> (&[u8], &[u8])
    requires { 0 < length text.now }
    ensures feed { HasNoFeed result.0.now }
    ensures split { (text.now ≡ result.0.now ++ 10 ∷ result.1.now) ⊎ ((text.now ≡ result.0.now) × (result.1.now ≡ [])) }
{
    match split_at_byte(text, b'\n') {
        Some(parts) => parts,
        None => (text, &[]),
    }
}
