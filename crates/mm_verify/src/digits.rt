// Letters and the numbers that they make.
ghost use Rattle.std.specs.Prelude.{◌≡◌, ◌≤◌, ◌-◌, ◌*◌, ◌+◌, ◌^◌, option_map, MatchOption};
ghost use Rattle.mm_text.specs.Compressed.{letter_of, value_before};
ghost use Rattle.mm_database.specs.ProofText.{step_of_number as meaning_in};
ghost use Rattle.mm_frame.specs.PlainFrames.{mandatory_hypotheses};
ghost use Rattle.mm_verify.specs.Running.{step_of};
ghost use Rattle.mm_verify.specs.Reading.{table_of};
ghost use Rattle.mm_verify.specs.Digits.{before_of, letter_is, IsLetter};

use crate::machine::{Citation, Step};
use mm_frame::Mandatory;

/// A letter.
#[derive(Clone, Copy, PartialEq, Eq)]
pub(crate) enum Letter {
    /// `A` to `T`: the last digit of a number, 1 to 20.
    Last(u8),
    /// `U` to `Y`: a digit before it, 1 to 5.
    Leading(u8),
    /// `Z`.
    Save,
    /// Any other byte.
    Other,
}

/// What is before a letter.
#[derive(Clone, Copy, PartialEq, Eq)]
pub(crate) enum Behind {
    /// Nothing.
    Nothing,
    /// Digits with this value that are not yet a whole number.
    Digits(u128),
    /// The last digit of a number.
    Number,
    /// A `Z`.
    Save,
}

/// The value of the digits before a letter.
pub(crate) fn value(behind: Behind) -> u128
    ensures { result ≡ value_before (before_of behind) }
{
    match behind {
        Behind::Digits(value) => value,
        Behind::Nothing | Behind::Number | Behind::Save => 0,
    }
}

/// `factor * value + digit`, or `None` if this is more than 2^128 - 1. No number above that can stand
/// for a step, since there are fewer than 2^64 hypotheses, labels and saved entries each.
pub(crate) fn extended(value: u128, factor: u128, digit: u8) -> Option<u128>
    ensures { MatchOption result (2 ^ 128 ≤ factor * value + digit)
        (λ n. n ≡ factor * value + digit) }
{
    match value.checked_mul(factor) {
        Some(product) => product.checked_add(digit as u128),
        None => None,
    }
}

/// The step that a number stands for. Numbers begin at 1. The step cites a hypothesis or what is
/// listed, or repeats a saved entry.
pub(crate) fn meaning<'s, 'a>(
    mandatory: &'s Mandatory<'a>,
    listed: &[Citation<'s, 'a>],
    saved: usize,
    number: u128,
) -> Option<Step<'s, 'a>>
    requires { 1 ≤ number }
    ensures { option_map step_of result
        ≡ meaning_in (table_of (mandatory_hypotheses mandatory.now) listed.now) saved (number - 1) }
{
    let place = number - 1;
    let given = mandatory.count() as u128;
    if place < given {
        let hyp = mandatory.hyp(place as usize)?;
        return Some(Step::Cites(Citation::Gives(hyp)));
    }
    let behind = place - given;
    let count = listed.len() as u128;
    if behind < count {
        Some(Step::Cites(listed[behind as usize]))
    } else if behind - count < saved as u128 {
        Some(Step::Repeats((behind - count) as usize))
    } else {
        None
    }
}

/// The letter that a byte is.
pub(crate) fn read_letter(byte: u8) -> Letter
    ensures is { letter_is result ≡ letter_of byte }
    ensures some { IsLetter result }
{
    if b'A' <= byte && byte <= b'T' {
        Letter::Last(byte - b'@')
    } else if b'U' <= byte && byte <= b'Y' {
        Letter::Leading(byte - b'T')
    } else if byte == b'Z' {
        Letter::Save
    } else {
        Letter::Other
    }
}
