// The lexer: it takes the tokens of a text one after the other.

ghost use Rattle.std.specs.Prelude.{◌≡◌, ◌≢◌, ◌≤◌, ◌<◌, ◌+◌, ◌-◌, ◌^◌, length, take, drop, IfOk};
ghost use Rattle.kore_lex.specs.Unread.{left, head, tail};
ghost use Rattle.kore_lex.specs.Tokens.{IsString, IsLongest};
ghost use Rattle.kore_lex.specs.declared.lexer.TokenKind.TheVariants.{Text, End};

use crate::bytes::behind;
use crate::piece::{Piece, piece_at};
use std::marker::Model;

/// The kind of a token.
#[derive(Clone, Copy, PartialEq, Eq)]
pub enum TokenKind {
    /// An identifier.
    Ident,
    /// `@` and an identifier.
    SetIdent,
    /// `\` and an identifier.
    Builtin,
    /// A string, with its quotes.
    Text,
    /// One of the bytes `{ } ( ) [ ] , :`.
    Punct(u8),
    /// `:=`.
    Assign,
    /// The end of the text.
    End,
}

/// A token and its place: its first byte, and the byte after its last. For `End` both are the
/// length of the text.
#[derive(Clone, Copy, PartialEq, Eq)]
pub struct Token {
    pub kind: TokenKind,
    pub from: u32,
    pub to: u32,
}

/// The place of something that is no token. It is one of these:
/// - a byte at which no token, white space or comment starts,
/// - the first byte of a comment or string without an end,
/// - the first byte of a string that is not UTF-8,
/// - in any other string, the first backslash that begins no escape.
#[derive(Clone, Copy, PartialEq, Eq)]
pub struct LexFault {
    pub at: u32,
}

/// A text of which some tokens were taken. A contract sees the text and the byte up to which it was
/// taken.
#[derive(Drop)]
pub struct Lexer<'a> {
    text: &'a [u8],
    at: usize,
}

impl<'a> Model for Lexer<'a> {
    ghost use Rattle.std.specs.Prelude.{◌≤◌, ◌<◌, ◌^◌, length};
    ghost use Rattle.kore_lex.specs.Unread.{Unread};

    ghost Value = { Unread };

    ghost view = { λ l. record { text = l.text.now; at = l.at } };

    ghost invariant = { λ l. (l.at ≤ length l.text.now) × (length l.text.now < 2 ^ 32) };
}

impl<'a> Lexer<'a> {
    /// A lexer of the whole text, which has fewer than 2^32 bytes.
    pub fn new(text: &'a [u8]) -> Lexer<'a>
        requires { length text.now < 2 ^ 32 }
        ensures text { result.text ≡ text.now }
        ensures start { result.at ≡ 0 }
    {
        Lexer { text, at: 0 }
    }

    /// Another lexer of the same text, at the same place. The two are independent.
    pub fn fork(&self) -> Lexer<'a>
        ensures { result ≡ self.now }
    {
        Lexer {
            text: self.text,
            at: self.at,
        }
    }

    /// Takes the next token and returns it. Error: the fault, if no token starts here.
    ///
    /// At the end and at a fault no token is taken, so the next call returns the same. It allocates
    /// nothing. Reading the whole text takes time linear in its length.
    pub fn next(&mut self) -> Result<Token, LexFault>
        ensures token { result ≡ head (left self.old) }
        ensures rest { left self.new ≡ tail (left self.old) }
        ensures text { self.new.text ≡ self.old.text }
        ensures within { IfOk result (λ t. (t.from ≤ t.to) × (t.to ≤ length self.old.text)) }
        ensures longest { IfOk result
            (λ t. t.kind ≢ End → IsLongest t.kind (t.to - t.from) (drop t.from self.old.text)) }
        ensures string { IfOk result
            (λ t. t.kind ≡ Text → IsString (take (t.to - t.from) (drop t.from self.old.text))) }
    {
        loop {
            match piece_at(behind(self.text, self.at)) {
                Piece::Nothing => return Ok(token_at(TokenKind::End, self.at, 0)),
                Piece::Gap(len) => self.at += len,
                Piece::Whole(kind, len) => {
                    let token = token_at(kind, self.at, len);
                    self.at += len;
                    return Ok(token);
                }
                Piece::Bad(len) => {
                    return Err(LexFault {
                        at: (self.at + len) as u32,
                    });
                }
            }
        }
    }
}

/// The token of `len` bytes whose first byte is `from`.
fn token_at(kind: TokenKind, from: usize, len: usize) -> Token
    requires { from + len < 2 ^ 32 }
    ensures kind { result.kind ≡ kind }
    ensures from { result.from ≡ from }
    ensures to { result.to ≡ from + len }
{
    Token {
        kind,
        from: from as u32,
        to: (from + len) as u32,
    }
}
