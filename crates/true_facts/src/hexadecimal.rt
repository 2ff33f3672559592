// The bytes that hexadecimal digits spell.
ghost use Rattle.std.specs.Prelude.{◌≡◌, ◌≢◌, ◌<◌, ◌/◌, ◌%◌, ℕ, IfOk, MatchOption};
ghost use Rattle.std.specs.Char.{digit_char};
ghost use Rattle.true_facts.specs.Digits.{AreSpelled};

use std::alloc::{AllocError, Global};

// The bytes that the digits spell, two digits for each byte. None if they spell no bytes.
pub(crate) fn bytes_of(alloc: Global, digits: &[u8]) -> Result<Option<Vec<u8>>, AllocError>
    ensures { IfOk result (AreSpelled digits.now) }
{
    if digits.len() % 2 == 1 {
        return Ok(None);
    }
    let count = digits.len() / 2;
    let mut bytes = Vec::with_capacity(alloc, count)?;
    for i in 0..count {
        let Some(byte) = byte_of(digits[2 * i], digits[2 * i + 1]) else {
            return Ok(None);
        };
        bytes.push(byte)?;
    }
    Ok(Some(bytes))
}

// The byte that two digits spell.
fn byte_of(high: u8, low: u8) -> Option<u8>
    ensures { MatchOption result
        ((b : ℕ) → b < 256 → high ≡ digit_char (b / 16) → low ≢ digit_char (b % 16))
        (λ b. (b < 256) × (high ≡ digit_char (b / 16)) × (low ≡ digit_char (b % 16))) }
{
    let Some(first) = digit_of(high) else {
        return None;
    };
    let Some(second) = digit_of(low) else {
        return None;
    };
    Some(first * 16 + second)
}

// The number that a digit stands for.
fn digit_of(digit: u8) -> Option<u8>
    ensures { MatchOption result ((n : ℕ) → n < 16 → digit ≢ digit_char n)
        (λ n. (n < 16) × (digit ≡ digit_char n)) }
{
    match digit {
        b'0'..=b'9' => Some(digit - b'0'),
        b'a'..=b'f' => Some(digit - b'a' + 10),
        _ => None,
    }
}
