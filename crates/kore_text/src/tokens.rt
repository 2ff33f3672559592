// The tokens of a text, each with its bytes.

ghost use Rattle.std.specs.Prelude.{◌≡◌, ◌≢◌, ◌≤◌, ◌<◌, ◌-◌, ◌^◌, length, take, drop};
ghost use Rattle.kore_text.specs.TokenStream.{token_stream};

use kore_lex::{Lexer, TokenKind};
use std::marker::Model;

/// What comes next in a text.
#[derive(Clone, Copy)]
pub enum Next<'a> {
    /// A token of this kind, at this byte, with these bytes. The kind is never `End`.
    Token(TokenKind, u32, &'a [u8]),
    /// The end of the text, at this byte.
    End(u32),
    /// Something that is no token, at this byte.
    Fault(u32),
}

/// A text of which some tokens were taken. A contract sees the text and the byte up to which it was
/// taken.
#[derive(Drop)]
pub struct Tokens<'a> {
    lexer: Lexer<'a>,
    text: &'a [u8],
}

impl<'a> Model for Tokens<'a> {
    ghost use Rattle.std.specs.Prelude.{◌≡◌};
    ghost use Rattle.kore_lex.specs.Unread.{Unread};

    ghost Value = { Unread };

    ghost view = { λ t. t.lexer };

    ghost invariant = { λ t. t.lexer.text ≡ t.text.now };
}

impl<'a> Tokens<'a> {
    ghost use Rattle.kore_text.specs.Remaining.{left, Comes};

    /// The tokens of the whole text, which has fewer than 2^32 bytes.
    pub fn new(text: &'a [u8]) -> Tokens<'a>
        requires { length text.now < 2 ^ 32 }
        ensures { left result ≡ token_stream text.now }
    {
        Tokens {
            lexer: Lexer::new(text),
            text,
        }
    }

    /// Another view of the same text, at the same place. The two are independent.
    pub fn fork(&self) -> Tokens<'a>
        ensures { result ≡ self.now }
    {
        Tokens {
            lexer: self.lexer.fork(),
            text: self.text,
        }
    }

    /// Takes the next token and returns it. It allocates nothing. Reading the whole text takes time
    /// linear in its length.
    pub fn next(&mut self) -> Next<'a>
        ensures { Comes result (left self.old) (left self.new) }
    {
        match self.lexer.next() {
            Err(fault) => Next::Fault(fault.at),
            Ok(token) => match token.kind {
                TokenKind::End => Next::End(token.from),
                kind => Next::Token(
                    kind,
                    token.from,
                    &self.text[token.from as usize..token.to as usize],
                ),
            },
        }
    }
}
