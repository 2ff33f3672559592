// What is at the head of bytes: white space, a comment, a token, or something that begins none of
// these.

ghost use Rattle.std.specs.Prelude.{◌≡◌, ◌<◌, ◌^◌, ◌+◌, ◌≤◌, length, IfSome};
ghost use Rattle.kore_lex.specs.Pieces.{ends_block, block_len, passed, quote_len, body_piece};
ghost use Rattle.kore_lex.specs.Pieces.{comment, string_piece, name_piece, colon, piece};

use crate::bytes::{first, is_letter, is_mark, is_space, line_len, word_len};
use crate::escape::bad_at;
use crate::lexer::TokenKind;

/// What is at the head of bytes.
#[derive(Clone, Copy)]
pub(crate) enum Piece {
    /// There are no bytes.
    Nothing,
    /// White space or a comment of this many bytes.
    Gap(usize),
    /// A token of this kind and of this many bytes.
    Whole(TokenKind, usize),
    /// A fault, this many bytes after the head.
    Bad(usize),
}

/// Whether these two bytes are `*/`, the end of a block comment.
fn ends_block(first: u8, second: u8) -> bool
    ensures { result ≡ ends_block first second }
{
    first == b'*' && second == b'/'
}

/// How many bytes there are up to and including the first `*/`.
fn block_len(bytes: &[u8]) -> Option<usize>
    requires { length bytes.now < 2 ^ 32 }
    ensures value { result ≡ block_len bytes.now }
    ensures within { IfSome result (λ n. n ≤ length bytes.now) }
{
    let mut n = 0;
    while n + 1 < bytes.len() {
        if ends_block(bytes[n], bytes[n + 1]) {
            return Some(n + 2);
        }
        n += 1;
    }
    None
}

/// How many bytes after this one belong to it in a string: one after a backslash, else none.
fn passed(byte: u8) -> usize
    ensures { result ≡ passed byte }
{
    usize::from(byte == b'\\')
}

/// How many bytes there are up to and including the quote that ends a string.
fn quote_len(bytes: &[u8]) -> Option<usize>
    requires { length bytes.now < 2 ^ 32 }
    ensures value { result ≡ quote_len 0 bytes.now }
    ensures within { IfSome result (λ n. (1 ≤ n) × (n ≤ length bytes.now)) }
{
    let mut n = 0;
    while n < bytes.len() {
        if bytes[n] == b'"' {
            return Some(n + 1);
        }
        n += passed(bytes[n]) + 1;
    }
    None
}

/// The piece that a slash begins, by the bytes after the slash.
fn comment(bytes: &[u8]) -> Piece
    requires { length bytes.now < 2 ^ 32 }
    ensures { result ≡ comment bytes.now }
{
    match bytes {
        [b'/', line @ ..] => Piece::Gap(line_len(line) + 2),
        [b'*', block @ ..] => match block_len(block) {
            Some(len) => Piece::Gap(len + 2),
            None => Piece::Bad(0),
        },
        _ => Piece::Bad(0),
    }
}

/// The piece of a string with these bytes between its quotes.
fn body_piece(body: &[u8]) -> Piece
    requires { length body.now < 2 ^ 32 }
    ensures { result ≡ body_piece body.now }
{
    if str::from_utf8(body).is_err() {
        return Piece::Bad(0);
    }
    match bad_at(body) {
        Some(at) => Piece::Bad(at + 1),
        None => Piece::Whole(TokenKind::Text, body.len() + 2),
    }
}

/// The piece that a quote begins, by the bytes after the quote.
fn string(bytes: &[u8]) -> Piece
    requires { length bytes.now < 2 ^ 32 }
    ensures { result ≡ string_piece bytes.now }
{
    match quote_len(bytes) {
        Some(len) => body_piece(first(bytes, len - 1)),
        None => Piece::Bad(0),
    }
}

/// The piece of a name of this kind, by the bytes after its first byte `@` or `\`.
fn named(kind: TokenKind, bytes: &[u8]) -> Piece
    requires { length bytes.now < 2 ^ 32 }
    ensures { result ≡ name_piece kind bytes.now }
{
    match bytes {
        [letter, rest @ ..] if is_letter(*letter) => Piece::Whole(kind, word_len(rest) + 2),
        _ => Piece::Bad(0),
    }
}

/// The piece that a colon begins, by the bytes after the colon.
fn colon(bytes: &[u8]) -> Piece
    ensures { result ≡ colon bytes.now }
{
    match bytes {
        [b'=', ..] => Piece::Whole(TokenKind::Assign, 2),
        _ => Piece::Whole(TokenKind::Punct(b':'), 1),
    }
}

/// The piece at the head of these bytes.
#[tactic(auto, unfolding(crate::specs::Pieces::piece))]
pub(crate) fn piece_at(bytes: &[u8]) -> Piece
    requires { length bytes.now < 2 ^ 32 }
    ensures { result ≡ piece bytes.now }
{
    let [byte, rest @ ..] = bytes else {
        return Piece::Nothing;
    };
    let byte = *byte;
    if is_space(byte) {
        return Piece::Gap(1);
    }
    if is_letter(byte) {
        return Piece::Whole(TokenKind::Ident, word_len(rest) + 1);
    }
    match byte {
        b'/' => comment(rest),
        b'"' => string(rest),
        b'@' => named(TokenKind::SetIdent, rest),
        b'\\' => named(TokenKind::Builtin, rest),
        b':' => colon(rest),
        _ if is_mark(byte) => Piece::Whole(TokenKind::Punct(byte), 1),
        _ => Piece::Bad(0),
    }
}
