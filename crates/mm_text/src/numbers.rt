// The numbers of compressed proofs.

ghost use Rattle.std.specs.Prelude.{◌≡◌, ◌≤◌, ◌*◌, ◌^◌, None, IfOk, IsErr};
ghost use Rattle.mm_text.specs.Compressed.{letter_of, digits, number_of, within_limit};
ghost use Rattle.mm_text.specs.Numbers.{Spells};
ghost use Rattle.mm_text.specs.DigitsRead.{leading_value, last_value, number_left, head_letter};

use crate::pieces::behind;
use std::alloc::AllocError;

/// The largest number that is read.
const MOST: u64 = 1 << 63;

/// The most letters that a number up to 2^63 has.
const MOST_LETTERS: usize = 27;

/// The number that these letters of a compressed proof spell. `None` if and only if they spell no
/// number, or one greater than 2^63. `A` to `T` are 1 to 20, and `UA` is 21.
pub fn read_number(letters: &[u8]) -> Option<u64>
    ensures { result ≡ within_limit (number_of letters.now) }
{
    let mut before = 0;
    for (at, letter) in letters.iter().enumerate() {
        let Some(digit) = leading_digit(*letter) else {
            return last_number(before, behind(letters, at));
        };
        before = 5 * before + digit;
        if before > MOST / 20 {
            return None;
        }
    }
    None
}

/// Appends the only spelling of a number from 1 to 2^63. `AllocError`: out of memory; then nothing
/// is appended.
pub fn push_number(n: u64, to: &mut Vec<u8>) -> Result<(), AllocError>
    requires some { 1 ≤ n }
    requires within { n ≤ 2 ^ 63 }
    ensures spelled { IfOk result (λ _. Spells n to.old.items to.new.items) }
    ensures kept { IsErr result → to.new.items ≡ to.old.items }
{
    let mut letters = [0u8; MOST_LETTERS];
    let mut at = MOST_LETTERS - 1;
    letters[at] = b'A' + ((n - 1) % 20) as u8;
    let mut before = (n - 1) / 20;
    while before > 0 {
        at -= 1;
        letters[at] = b'U' + ((before - 1) % 5) as u8;
        before = (before - 1) / 5;
    }
    to.extend_from_slice(behind(&letters, at))
}

/// The number whose leading digits have the value `before`, and whose other letters are `letters`.
fn last_number(before: u64, letters: &[u8]) -> Option<u64>
    requires small { 20 * before ≤ 2 ^ 63 }
    requires last { leading_value (head_letter letters.now) ≡ None }
    ensures { result ≡ number_left before letters.now }
{
    let [letter] = letters else {
        return None;
    };
    let n = 20 * before + last_digit(*letter)?;
    (n <= MOST).then_some(n)
}

/// The value of `U` to `Y`, 1 to 5.
fn leading_digit(letter: u8) -> Option<u64>
    ensures { result ≡ leading_value (letter_of letter) }
{
    match letter {
        b'U'..=b'Y' => Some(u64::from(letter - b'T')),
        _ => None,
    }
}

/// The value of `A` to `T`, 1 to 20.
fn last_digit(letter: u8) -> Option<u64>
    ensures { result ≡ last_value (letter_of letter) }
{
    match letter {
        b'A'..=b'T' => Some(u64::from(letter - b'@')),
        _ => None,
    }
}
