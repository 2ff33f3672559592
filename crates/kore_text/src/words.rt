// What a token is, by its kind and its bytes.

ghost use Rattle.std.specs.Prelude.{◌≡◌, ◌≢◌, List, ℕ, drop};
ghost use Rattle.kore_lex.specs.declared.lexer.TokenKind.TheVariants.{End};
ghost use Rattle.kore_text.specs.TokenStream.{token_of};
ghost use Rattle.kore_text.specs.Table.{is_fold, is_name, is_word, is_set_name, is_text, is_assign};
ghost use Rattle.kore_text.specs.Apart.{is_mark};

use crate::names::Built;
use kore_lex::TokenKind;

/// A token: its kind and its bytes.
#[derive(Clone, Copy)]
pub(crate) struct LexedToken<'a> {
    pub(crate) kind: TokenKind,
    pub(crate) bytes: &'a [u8],
}

impl<'a> LexedToken<'a> {
    /// Whether it is this mark.
    pub(crate) fn is_mark(&self, byte: u8) -> bool
        ensures { result ≡ is_mark byte (token_of self.now.kind self.now.bytes.now) }
    {
        matches!(self.kind, TokenKind::Punct(mark) if mark == byte)
    }

    /// Whether it is an identifier.
    pub(crate) fn is_name(&self) -> bool
        ensures { result ≡ is_name (token_of self.now.kind self.now.bytes.now) }
    {
        matches!(self.kind, TokenKind::Ident)
    }

    /// Whether it is this identifier.
    pub(crate) fn is_word(&self, word: &[u8]) -> bool
        ensures { result ≡ is_word word.now (token_of self.now.kind self.now.bytes.now) }
    {
        self.is_name() && self.bytes == word
    }

    /// Whether it is the name of a set variable.
    pub(crate) fn is_set_name(&self) -> bool
        ensures { result ≡ is_set_name (token_of self.now.kind self.now.bytes.now) }
    {
        matches!(self.kind, TokenKind::SetIdent)
    }

    /// Whether it is a string.
    pub(crate) fn is_text(&self) -> bool
        ensures { result ≡ is_text (token_of self.now.kind self.now.bytes.now) }
    {
        matches!(self.kind, TokenKind::Text)
    }

    /// Whether it is `:=`.
    pub(crate) fn is_assign(&self) -> bool
        requires { self.now.kind ≢ End }
        ensures { result ≡ is_assign (token_of self.now.kind self.now.bytes.now) }
    {
        matches!(self.kind, TokenKind::Assign)
    }

    /// Whether it is a fold, from the left or from the right.
    pub(crate) fn is_fold(&self) -> bool
        ensures { result ≡ is_fold (token_of self.now.kind self.now.bytes.now) }
    {
        matches!(self.kind, TokenKind::Builtin)
            && matches!(Built::of_name(self.behind_first()), Some(Built::Fold(_)))
    }

    /// The bytes after the first, which is `@` or `\`.
    pub(crate) fn behind_first(&self) -> &[u8]
        ensures { result.now ≡ drop 1 self.now.bytes.now }
    {
        match self.bytes {
            [_, rest @ ..] => rest,
            [] => &[],
        }
    }
}
