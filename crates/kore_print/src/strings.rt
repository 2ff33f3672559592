// The text of strings.

ghost use Rattle.std.specs.Prelude.{◌≡◌, ◌<◌, ◌&&◌, nat_le, ◌++◌, OnOk, string_bytes};
ghost use Rattle.std.specs.Char.{digit_char};
ghost use Rattle.kore_print.specs.TokenText.{hexadecimal_digits, numbered_text, character_text};
ghost use Rattle.kore_print.specs.TokenText.{string_text};

use std::alloc::AllocError;

/// Adds the string with this content, in its quotes.
pub(crate) fn push_string(text: &mut String, content: &str) -> Result<(), AllocError>
    ensures { OnOk result
        (string_bytes text.new ≡ string_bytes text.old ++ string_text content.now) }
{
    text.push_str("\"")?;
    for character in content.chars() {
        push_character(text, character)?;
    }
    text.push_str("\"")
}

/// Whether the character is in the range from the space to the tilde.
fn is_printable(character: char) -> bool
    ensures { result ≡ (nat_le 32 character && nat_le character 126) }
{
    matches!(character, ' '..='~')
}

/// Adds a character as it is written inside a string.
#[tactic(auto, unfolding(crate::specs::TokenText::character_text))]
fn push_character(text: &mut String, character: char) -> Result<(), AllocError>
    ensures { OnOk result
        (string_bytes text.new ≡ string_bytes text.old ++ character_text character) }
{
    match character {
        '"' => text.push_str("\\\""),
        '\\' => text.push_str("\\\\"),
        '\n' => text.push_str("\\n"),
        '\r' => text.push_str("\\r"),
        '\t' => text.push_str("\\t"),
        '\x0c' => text.push_str("\\f"),
        _ if is_printable(character) => text.push(character),
        _ => push_numbered(text, u32::from(character)),
    }
}

/// Adds the escape of a character by its number.
fn push_numbered(text: &mut String, number: u32) -> Result<(), AllocError>
    ensures { OnOk result (string_bytes text.new ≡ string_bytes text.old ++ numbered_text number) }
{
    if number < 0x100 {
        text.push_str("\\x")?;
        push_hexadecimal(text, 2, number)
    } else if number < 0x1_0000 {
        text.push_str("\\u")?;
        push_hexadecimal(text, 4, number)
    } else {
        text.push_str("\\U")?;
        push_hexadecimal(text, 8, number)
    }
}

/// Adds the last `digits` hexadecimal digits of a number.
fn push_hexadecimal(text: &mut String, digits: usize, number: u32) -> Result<(), AllocError>
    ensures { OnOk result
        (string_bytes text.new ≡ string_bytes text.old ++ hexadecimal_digits digits number) }
{
    if digits == 0 {
        return Ok(());
    }
    push_hexadecimal(text, digits - 1, number / 16)?;
    text.push(digit(number % 16))
}

/// A digit below 16.
fn digit(n: u32) -> char
    requires { n < 16 }
    ensures value { result ≡ digit_char n }
    ensures ascii { result < 128 }
{
    let byte = n as u8;
    if byte < 10 {
        (b'0' + byte) as char
    } else {
        (b'a' - 10 + byte) as char
    }
}
