// The lines of a hint file.
ghost use Rattle.std.specs.Prelude.{◌≡◌, IfSome, IfNone, None, Some};
ghost use Rattle.std.specs.List.{list_all};
ghost use Rattle.std.specs.Char.{is_ascii_digit};
ghost use Rattle.hint_file.specs.HintLines.{cut_at, line_parts, short_number};

use memchr::memchr;

// A number of ten digits fits 64 bits.
const MAX_DIGITS: usize = 10;

// What stands before the first such byte, and what follows it.
pub(crate) fn cut_at(byte: u8, bytes: &[u8]) -> Option<(&[u8], &[u8])>
    ensures found { IfSome result (λ p. cut_at byte bytes.now ≡ Some (p.0.now, p.1.now)) }
    ensures none { IfNone result (cut_at byte bytes.now ≡ None) }
{
    let Some(at) = memchr(byte, bytes) else {
        return None;
    };
    Some((&bytes[..at], &bytes[at + 1..]))
}

// The byte that begins the line of a step, and the text after the space.
pub(crate) fn line_parts(line: &[u8]) -> Option<(u64, &[u8])>
    ensures found { IfSome result (λ p. line_parts line.now ≡ Some (p.0, p.1.now)) }
    ensures none { IfNone result (line_parts line.now ≡ None) }
{
    let Some((digits, text)) = cut_at(b' ', line) else {
        return None;
    };
    let Some(byte) = short_number(digits) else {
        return None;
    };
    Some((byte, text))
}

// The number of one to ten digits.
fn short_number(digits: &[u8]) -> Option<u64>
    ensures { result ≡ short_number digits.now }
{
    if digits.is_empty() || digits.len() > MAX_DIGITS || !has_only_digits(digits) {
        return None;
    }
    let mut number: u64 = 0;
    for digit in digits {
        number = number * 10 + u64::from(digit.saturating_sub(b'0'));
    }
    Some(number)
}

// Whether every byte is a digit.
fn has_only_digits(bytes: &[u8]) -> bool
    ensures { result ≡ list_all is_ascii_digit bytes.now }
{
    bytes.iter().all(|c| c.is_ascii_digit())
}
