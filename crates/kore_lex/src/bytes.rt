// Kinds of bytes, and runs of them.

ghost use Rattle.std.specs.Prelude.{◌≡◌, ◌≤◌, length, take, drop};
ghost use Rattle.kore_lex.specs.Pieces.{is_space, is_letter, is_word, is_mark, word_len, line_len};

/// Space, tab, CR or LF.
pub(crate) fn is_space(byte: u8) -> bool
    ensures { result ≡ is_space byte }
{
    matches!(byte, b' ' | b'\t' | b'\r' | b'\n')
}

/// An ASCII letter.
pub(crate) fn is_letter(byte: u8) -> bool
    ensures { result ≡ is_letter byte }
{
    byte.is_ascii_alphabetic()
}

/// A letter, a digit, `'` or `-`.
fn is_word(byte: u8) -> bool
    ensures { result ≡ is_word byte }
{
    is_letter(byte) || byte.is_ascii_digit() || matches!(byte, b'\'' | b'-')
}

/// One of `{ } ( ) [ ] , :`.
pub(crate) fn is_mark(byte: u8) -> bool
    ensures { result ≡ is_mark byte }
{
    matches!(byte, b'{' | b'}' | b'(' | b')' | b'[' | b']' | b',' | b':')
}

/// The bytes from `from` on.
pub(crate) fn behind(bytes: &[u8], from: usize) -> &[u8]
    requires { from ≤ length bytes.now }
    ensures { result.now ≡ drop from bytes.now }
{
    &bytes[from..]
}

/// The first `len` bytes.
pub(crate) fn first(bytes: &[u8], len: usize) -> &[u8]
    requires { len ≤ length bytes.now }
    ensures { result.now ≡ take len bytes.now }
{
    &bytes[..len]
}

/// How many bytes of a name there are at the head, after its first letter.
pub(crate) fn word_len(bytes: &[u8]) -> usize
    ensures { result ≡ word_len bytes.now }
{
    bytes.iter().take_while(|byte| is_word(**byte)).count()
}

/// How many bytes there are before the end of the line.
pub(crate) fn line_len(bytes: &[u8]) -> usize
    ensures { result ≡ line_len bytes.now }
{
    bytes.iter().take_while(|byte| **byte != b'\n').count()
}
