// The reader of tokens: what is left of a text. It reads only texts that are known to have no
// fault. So it looks at a token only if more than one token is possible there.

ghost use Rattle.std.specs.Prelude.{◌≡◌, true, false, ◌<◌, ◌≤◌, ◌-◌, IsTrue, ◌^◌, length, not};
ghost use Rattle.std.specs.Prelude.{IfOk, OnOk, drop};
ghost use Rattle.std.specs.Str.{is_utf8};
ghost use Rattle.kore_lex.specs.Tokens.{IsString};
ghost use Rattle.kore_ast.specs.Known.{name_bytes, set_name_bytes, string_bytes_of};
ghost use Rattle.kore_text.specs.TokenStream.{token_stream};
ghost use Rattle.kore_ast.specs.Keywords.{keyword_at};

use crate::text::Text;
use kore_lex::{TokenKind, text_value};
use kore_text::{Built, Next, Tokens};
use std::alloc::{AllocError, Global};

/// What is left of a text: the next token, or the end, and the tokens after it.
#[derive(Drop)]
pub(crate) struct Reader<'a> {
    pub(crate) alloc: Global,
    tokens: Tokens<'a>,
    next: Next<'a>,
    ghost names: { is_utf8 (name_bytes next) ≡ true },
    ghost set_names: { is_utf8 (set_name_bytes next) ≡ true },
    ghost strings: { IsString (string_bytes_of next) },
}

/// The kind of pattern that a token begins.
#[derive(Clone, Copy)]
pub(crate) enum Head {
    Name,
    SetName,
    Text,
    Builtin(Built),
    /// No pattern. In a faultless text this never occurs where a pattern is expected.
    Nothing,
}

/// The kind of declaration that a word begins. `Sort` and `Symbol` say whether it is hooked.
#[derive(Clone, Copy)]
pub(crate) enum Keyword {
    Import,
    Sort(bool),
    Symbol(bool),
    Alias,
    Axiom,
    Claim,
    /// No declaration.
    Nothing,
}

impl<'a> Reader<'a> {
    ghost use Rattle.kore_ast.specs.Reading.{left, size, behind_comma};
    ghost use Rattle.kore_ast.specs.Streams.{after, byte_of_next, seen, has_mark, is_done, is_over};
    ghost use Rattle.kore_ast.specs.Streams.{name_of, set_name_of, text_of, head_of, keyword_of};

    /// A reader of the whole text.
    #[tactic(auto, using(crate::proofs::Heads::comes_first, crate::proofs::Heads::comes_name, crate::proofs::Heads::comes_set_name, crate::proofs::Heads::comes_string))]
    pub(crate) fn new(alloc: Global, text: &'a [u8]) -> Reader<'a>
        requires { length text.now < 2 ^ 32 }
        ensures { left result ≡ token_stream text.now }
    {
        let mut tokens = Tokens::new(text);
        let next = tokens.next();
        Reader {
            alloc,
            tokens,
            next,
        }
    }

    /// Whether no token is left.
    #[tactic(auto, using(crate::proofs::Steps::some_left))]
    pub(crate) fn is_done(&self) -> bool
        ensures same { result ≡ is_done (seen (left self.now)) }
        ensures some { result ≡ false → 1 ≤ size self.now }
    {
        !matches!(self.next, Next::Token(..))
    }

    /// Whether the next token is this mark.
    pub(crate) fn has_mark(&self, byte: u8) -> bool
        ensures same { result ≡ has_mark byte (seen (left self.now)) }
        ensures some { IsTrue result → 1 ≤ size self.now }
    {
        matches!(self.next, Next::Token(TokenKind::Punct(mark), _, _) if mark == byte)
    }

    /// The kind of pattern that the next token begins.
    pub(crate) fn head(&self) -> Head
        ensures { result ≡ head_of (seen (left self.now)) }
    {
        match self.next {
            Next::Token(TokenKind::Ident, _, _) => Head::Name,
            Next::Token(TokenKind::SetIdent, _, _) => Head::SetName,
            Next::Token(TokenKind::Text, _, _) => Head::Text,
            Next::Token(TokenKind::Builtin, _, bytes) => match Built::of_name(behind_first(bytes)) {
                Some(built) => Head::Builtin(built),
                None => Head::Nothing,
            },
            _ => Head::Nothing,
        }
    }

    /// The kind of declaration that the next token begins.
    pub(crate) fn keyword(&self) -> Keyword
        ensures { result ≡ keyword_of (seen (left self.now)) }
    {
        match self.next {
            Next::Token(TokenKind::Ident, _, bytes) => keyword_at(bytes),
            _ => Keyword::Nothing,
        }
    }

    /// The byte at which the next token begins, or the byte of the end.
    fn byte_of_next(&self) -> u32
        ensures { result ≡ byte_of_next (left self.now) }
    {
        match self.next {
            Next::Token(_, at, _) | Next::End(at) | Next::Fault(at) => at,
        }
    }

    /// Moves on to what follows the next token.
    #[tactic(auto, using(crate::proofs::Heads::comes_first, crate::proofs::Heads::comes_name, crate::proofs::Heads::comes_set_name, crate::proofs::Heads::comes_string))]
    fn advance(&mut self)
        requires { is_done (seen (left self.old)) ≡ false }
        ensures { left self.new ≡ after (left self.old) }
    {
        self.next = self.tokens.next();
    }

    /// Takes the next token and returns the byte at which it begins.
    #[tactic(auto, using(crate::proofs::Steps::after_done, crate::proofs::Steps::count_after))]
    pub(crate) fn pass(&mut self) -> u32
        ensures at { result ≡ byte_of_next (left self.old) }
        ensures rest { left self.new ≡ after (left self.old) }
        ensures shorter { size self.new ≡ size self.old - 1 }
    {
        let at = self.byte_of_next();
        if self.is_done() {
            return at;
        }
        self.advance();
        at
    }

    /// The name of the next token, if it is an identifier.
    fn own_name(&self) -> Result<Text, AllocError>
        ensures { IfOk result (λ n. n ≡ name_of (seen (left self.now))) }
    {
        match self.next {
            Next::Token(TokenKind::Ident, _, bytes) => Text::of_bytes(self.alloc, bytes),
            _ => Ok(Text::new(String::new(self.alloc))),
        }
    }

    /// The name after `@` of the next token, if it is the identifier of a set variable.
    fn own_set_name(&self) -> Result<Text, AllocError>
        ensures { IfOk result (λ n. n ≡ set_name_of (seen (left self.now))) }
    {
        match self.next {
            Next::Token(TokenKind::SetIdent, _, bytes) => {
                Text::of_bytes(self.alloc, behind_first(bytes))
            }
            _ => Ok(Text::new(String::new(self.alloc))),
        }
    }

    /// The text of the next token, if it is a string.
    fn own_text(&self) -> Result<Text, AllocError>
        ensures { IfOk result (λ t. t ≡ text_of (seen (left self.now))) }
    {
        match self.next {
            Next::Token(TokenKind::Text, _, bytes) => {
                Ok(Text::new(text_value(self.alloc, bytes)?))
            }
            _ => Ok(Text::new(String::new(self.alloc))),
        }
    }

    /// Takes an identifier and returns the byte at which it begins and its name.
    pub(crate) fn name(&mut self) -> Result<(u32, Text), AllocError>
        ensures read { IfOk result
            (λ x. (x.0 ≡ byte_of_next (left self.old)) × (x.1 ≡ name_of (seen (left self.old)))) }
        ensures rest { OnOk result (left self.new ≡ after (left self.old)) }
        ensures shorter { OnOk result (size self.new ≡ size self.old - 1) }
    {
        let name = self.own_name()?;
        Ok((self.pass(), name))
    }

    /// Takes the identifier of a set variable. Returns the byte at which it begins and its name after
    /// `@`.
    pub(crate) fn set_name(&mut self) -> Result<(u32, Text), AllocError>
        ensures read { IfOk result (λ x.
            (x.0 ≡ byte_of_next (left self.old)) × (x.1 ≡ set_name_of (seen (left self.old)))) }
        ensures rest { OnOk result (left self.new ≡ after (left self.old)) }
        ensures shorter { OnOk result (size self.new ≡ size self.old - 1) }
    {
        let name = self.own_set_name()?;
        Ok((self.pass(), name))
    }

    /// Takes a string and returns the byte at which it begins and its text.
    pub(crate) fn string(&mut self) -> Result<(u32, Text), AllocError>
        ensures read { IfOk result
            (λ x. (x.0 ≡ byte_of_next (left self.old)) × (x.1 ≡ text_of (seen (left self.old)))) }
        ensures rest { OnOk result (left self.new ≡ after (left self.old)) }
        ensures shorter { OnOk result (size self.new ≡ size self.old - 1) }
    {
        let text = self.own_text()?;
        Ok((self.pass(), text))
    }

    /// Whether a list with this closing mark is over.
    fn is_over(&self, close: u8) -> bool
        ensures { result ≡ is_over close (seen (left self.now)) }
    {
        self.is_done() || self.has_mark(close)
    }

    /// Whether a list has another item. It takes the comma before each item but the first. If there
    /// is no other item, it takes the closing mark.
    pub(crate) fn another(&mut self, first: bool, close: u8) -> bool
        ensures comes { result ≡ not (is_over close (seen (left self.old))) }
        ensures rest { left self.new ≡ behind_comma first close (left self.old) }
        ensures some { IsTrue result → 1 ≤ size self.old }
        ensures shorter { size self.new ≤ size self.old }
        ensures ended { result ≡ false → size self.new ≤ size self.old - 1 }
    {
        if self.is_over(close) {
            self.pass();
            return false;
        }
        if !first {
            self.pass();
        }
        true
    }
}

/// The bytes after the first, which is `@` or `\`.
fn behind_first(bytes: &[u8]) -> &[u8]
    ensures { result.now ≡ drop 1 bytes.now }
{
    match bytes {
        [_, rest @ ..] => rest,
        [] => &[],
    }
}

/// The kind of declaration that this word begins.
fn keyword_at(word: &[u8]) -> Keyword
    ensures { result ≡ keyword_at word.now }
{
    match word {
        b"import" => Keyword::Import,
        b"sort" => Keyword::Sort(false),
        b"hooked-sort" => Keyword::Sort(true),
        b"symbol" => Keyword::Symbol(false),
        b"hooked-symbol" => Keyword::Symbol(true),
        b"alias" => Keyword::Alias,
        b"axiom" => Keyword::Axiom,
        b"claim" => Keyword::Claim,
        _ => Keyword::Nothing,
    }
}
