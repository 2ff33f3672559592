// The pieces of a text: runs of printable bytes, and bytes that are not allowed.

ghost use Rattle.std.specs.Prelude.{◌≡◌, ◌≤◌, false, length, drop};
ghost use Rattle.mm_text.specs.Bytes.{is_white};
ghost use Rattle.mm_text.specs.Tokens.{opens_comment, closes_comment, has_comment_mark};
ghost use Rattle.mm_text.specs.Ahead.{pieces_at, in_run, white, printed, begins_white, mark_ahead};
ghost use Rattle.mm_text.specs.Ahead.{Shows};

use crate::tokens::MmToken;

/// What comes next in a text, after white space.
pub(crate) enum Ahead {
    End,
    Stray(usize),
    Run(MmToken),
}

/// Space, tab, line feed, form feed or carriage return.
fn is_white(byte: u8) -> bool
    ensures { result ≡ is_white byte }
{
    matches!(byte, b' ' | b'\t' | b'\n' | 0x0c | b'\r')
}

/// Printable ASCII without the space.
fn is_printable(byte: u8) -> bool
    ensures { result ≡ in_run byte }
{
    matches!(byte, b'!'..=b'~')
}

/// How many bytes of white space the bytes begin with.
fn white_len(bytes: &[u8]) -> usize
    ensures { result ≡ length (white bytes.now) }
{
    bytes.iter().take_while(|byte| is_white(**byte)).count()
}

/// How many printable bytes the bytes begin with.
fn run_len(bytes: &[u8]) -> usize
    ensures { result ≡ length (printed bytes.now) }
{
    bytes.iter().take_while(|byte| is_printable(**byte)).count()
}

/// The bytes from `from` on.
pub(crate) fn behind(bytes: &[u8], from: usize) -> &[u8]
    requires { from ≤ length bytes.now }
    ensures { result.now ≡ drop from bytes.now }
{
    &bytes[from..]
}

/// The first place at or after `from` that is not white space, or the length if there is none.
fn skip_white(bytes: &[u8], from: usize) -> usize
    requires { from ≤ length bytes.now }
    ensures after { from ≤ result }
    ensures within { result ≤ length bytes.now }
    ensures pieces { pieces_at bytes.now result ≡ pieces_at bytes.now from }
    ensures at_piece { begins_white (drop result bytes.now) ≡ false }
{
    from + white_len(behind(bytes, from))
}

/// What comes at or after `from`.
pub(crate) fn next_piece(bytes: &[u8], from: usize) -> Ahead
    requires { from ≤ length bytes.now }
    ensures { Shows bytes.now from result }
{
    let at = skip_white(bytes, from);
    if at == bytes.len() {
        return Ahead::End;
    }
    let len = run_len(behind(bytes, at));
    if len == 0 {
        return Ahead::Stray(at);
    }
    Ahead::Run(MmToken {
        from: at,
        to: at + len,
    })
}

/// Whether the token is `$(`.
pub(crate) fn opens_comment(token: &[u8]) -> bool
    ensures { result ≡ opens_comment token.now }
{
    token == b"$(".as_slice()
}

/// Whether the token is `$)`.
pub(crate) fn closes_comment(token: &[u8]) -> bool
    ensures { result ≡ closes_comment token.now }
{
    token == b"$)".as_slice()
}

/// Whether the bytes begin with a comment mark, `$(` or `$)`.
fn begins_with_mark(bytes: &[u8]) -> bool
    ensures { result ≡ mark_ahead bytes.now }
{
    matches!(bytes, [b'$', b'(' | b')', ..])
}

/// Whether the token has a comment mark in it.
pub(crate) fn has_comment_mark(token: &[u8]) -> bool
    ensures { result ≡ has_comment_mark token.now }
{
    for at in 0..token.len() {
        if begins_with_mark(behind(token, at)) {
            return true;
        }
    }
    false
}
