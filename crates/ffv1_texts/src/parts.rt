//! Bytes that one byte parts.
ghost use Rattle.std.specs.Prelude.{◌≡◌, ◌≢◌, ◌++◌, ◌∷◌, MatchOption};
ghost use Rattle.std.specs.List.{AllByRecursion};

use memchr::memchr;

/// What stands before the first such byte, and what stands after it. Returns `None` if no such byte is among the bytes.
pub fn split_at_byte(bytes: &[u8], byte: u8) -> Option<(&[u8], &[u8])>
    ensures { MatchOption result (AllByRecursion (λ b. b ≢ byte) bytes.now)
        (λ parts. (bytes.now ≡ parts.0.now ++ byte ∷ parts.1.now) × AllByRecursion (λ b. b ≢ byte) parts.0.now) }
{
    let place = memchr(byte, bytes)?;
    Some((&bytes[..place], &bytes[place + 1..]))
}
