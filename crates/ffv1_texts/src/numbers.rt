//! Numbers in decimal digits.
ghost use Rattle.std.specs.Prelude.{ℕ, MatchOption};
ghost use Rattle.ffv1_texts.specs.Numbers.{IsNumber};

/// The number that decimal digits write, and nothing else. Returns `None` if there is no digit, if a byte is none, and if the number is
/// 2^64 or more.
pub fn read_number(digits: &[u8]) -> Option<u64>
    ensures { MatchOption result ((n : ℕ) → IsNumber digits.now n → ⊥) (λ n. IsNumber digits.now n) }
{
    let mut number: u64 = 0;
    for digit in digits {
        if !digit.is_ascii_digit() {
            return None;
        }
        number = number
            .checked_mul(10)?
            .checked_add(u64::from(*digit - b'0'))?;
    }
    if digits.is_empty() {
        None
    } else {
        Some(number)
    }
}
