// The escapes of strings.

ghost use Rattle.std.specs.Prelude.{◌≡◌, ◌+◌, ◌<◌, ◌^◌, ◌≤◌, length, IfSome, OnSome};
ghost use Rattle.kore_lex.specs.Escapes.{hex_digit, hex_number, escape, single, escape_by_number};
ghost use Rattle.kore_lex.specs.Escapes.{bad_at};
ghost use Rattle.kore_lex.specs.Steps.{unit_len};

use crate::bytes::behind;

/// The greatest Unicode scalar value.
const LAST_CHAR: u32 = 0x10_FFFF;

/// An escape, without its backslash.
#[derive(Clone, Copy)]
pub(crate) struct Escape {
    /// The character that it stands for.
    pub(crate) character: char,
    /// How many bytes it has after the backslash.
    pub(crate) len: usize,
}

/// The value of a hexadecimal digit of either case.
fn hex_digit(byte: u8) -> Option<u32>
    ensures { result ≡ hex_digit byte }
{
    match byte {
        b'0'..=b'9' => Some(u32::from(byte - b'0')),
        b'a'..=b'f' => Some(u32::from(byte - b'a') + 10),
        b'A'..=b'F' => Some(u32::from(byte - b'A') + 10),
        _ => None,
    }
}

/// The character whose number is the first `digits` hexadecimal digits.
fn hex_number(digits: usize, bytes: &[u8]) -> Option<char>
    ensures value { result ≡ hex_number digits 0 bytes.now }
    ensures within { OnSome result (digits ≤ length bytes.now) }
{
    let mut number = 0;
    for i in 0..digits {
        if i >= bytes.len() || number > LAST_CHAR {
            return None;
        }
        number = 16 * number + hex_digit(bytes[i])?;
    }
    char::from_u32(number)
}

/// The escape by a number of `digits` hexadecimal digits, after its letter.
fn numbered(digits: usize, bytes: &[u8]) -> Option<Escape>
    requires { digits < 2 ^ 32 }
    ensures value { result ≡ escape_by_number digits bytes.now }
    ensures within { IfSome result (λ e. e.len ≤ length bytes.now + 1) }
{
    let character = hex_number(digits, bytes)?;
    Some(Escape {
        character,
        len: digits + 1,
    })
}

/// The escape of one letter, which stands for this character.
fn single(character: char) -> Option<Escape>
    ensures { result ≡ single character }
{
    Some(Escape { character, len: 1 })
}

/// The escape at the head, after its backslash.
#[tactic(auto, unfolding(crate::specs::Escapes::escape))]
pub(crate) fn escape_at(bytes: &[u8]) -> Option<Escape>
    ensures value { result ≡ escape bytes.now }
    ensures within { IfSome result (λ e. (1 ≤ e.len) × (e.len ≤ length bytes.now)) }
{
    match bytes {
        [b'n', ..] => single('\n'),
        [b'r', ..] => single('\r'),
        [b't', ..] => single('\t'),
        [b'f', ..] => single('\x0c'),
        [b'"', ..] => single('"'),
        [b'\\', ..] => single('\\'),
        [b'x', digits @ ..] => numbered(2, digits),
        [b'u', digits @ ..] => numbered(4, digits),
        [b'U', digits @ ..] => numbered(8, digits),
        _ => None,
    }
}

/// How many bytes the unit at the head has inside a string. A unit is a byte, or an escape with its
/// backslash. There is none at a backslash that begins no escape.
fn unit_len(bytes: &[u8]) -> Option<usize>
    requires some { 0 < length bytes.now }
    requires small { length bytes.now < 2 ^ 32 }
    ensures value { result ≡ unit_len bytes.now }
    ensures within { IfSome result (λ n. (1 ≤ n) × (n ≤ length bytes.now)) }
{
    if bytes[0] != b'\\' {
        return Some(1);
    }
    let escape = escape_at(behind(bytes, 1))?;
    Some(escape.len + 1)
}

/// How many bytes there are before the first backslash that begins no escape, if there is one.
pub(crate) fn bad_at(body: &[u8]) -> Option<usize>
    requires { length body.now < 2 ^ 32 }
    ensures value { result ≡ bad_at 0 body.now }
    ensures within { IfSome result (λ n. n < length body.now) }
{
    let mut at = 0;
    while at < body.len() {
        match unit_len(behind(body, at)) {
            Some(len) => at += len,
            None => return Some(at),
        }
    }
    None
}
