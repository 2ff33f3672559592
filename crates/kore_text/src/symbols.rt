// What may come next in a text.

ghost use Rattle.std.specs.Prelude.{◌≡◌};
ghost use Rattle.kore_text.specs.TokenStream.{token_of};
ghost use Rattle.kore_text.specs.Table.{byte_of, symbol_of, is_empty};

use crate::words::LexedToken;

/// The mark that ends a list.
#[derive(Clone, Copy)]
pub(crate) enum Close {
    Brace,
    Paren,
    Bracket,
}

/// The items of a list.
#[derive(Clone, Copy)]
pub(crate) enum Item {
    Name,
    Sort,
    /// A pattern. If the flag is true, strings may occur in it.
    Pattern(bool),
}

/// A part of a text that is still to come.
#[derive(Clone, Copy)]
pub(crate) enum Symbol {
    /// This mark.
    Mark(u8),
    /// A name.
    Name,
    /// `where`.
    Where,
    /// `:=`.
    Assign,
    /// A string.
    Text,
    Sort,
    /// After the name of a sort: sorts in braces, or nothing.
    SortTail,
    /// A pattern. If the flag is true, strings may occur in it.
    Pattern(bool),
    /// After a name that begins a pattern. The flag is as for `Pattern`.
    PatternTail(bool),
    /// A set variable (`true`) or an element variable (`false`).
    Variable(bool),
    /// A folded application that has at least one argument. The flag is as for `Pattern`.
    Folded(bool),
    /// A folded application that has no argument.
    EmptyFolded,
    /// A list, from the token after its opening bracket.
    First(Item, Close),
    /// A list, from the token after an item.
    More(Item, Close),
    /// Attributes in brackets.
    Attributes,
    /// Names in braces.
    Names,
    /// Sorts in parentheses, a colon and a sort.
    Signature,
    /// Declarations, up to and including the word `endmodule` and the attributes that end their
    /// module.
    Declarations,
    Module,
    /// Modules up to the end.
    Modules,
}

impl Close {
    /// The byte of the mark.
    pub(crate) fn byte(self) -> u8
        ensures { result ≡ byte_of self }
    {
        match self {
            Close::Brace => b'}',
            Close::Paren => b')',
            Close::Bracket => b']',
        }
    }
}

impl Item {
    /// The symbol of one item.
    pub(crate) fn symbol(self) -> Symbol
        ensures { result ≡ symbol_of self }
    {
        match self {
            Item::Name => Symbol::Name,
            Item::Sort => Symbol::Sort,
            Item::Pattern(strings) => Symbol::Pattern(strings),
        }
    }
}

impl Symbol {
    ghost use Rattle.kore_text.specs.Stacks.{is_left_out};

    /// Whether the symbol may be left out.
    pub(crate) fn is_empty(self) -> bool
        ensures { result ≡ is_empty self }
    {
        matches!(self, Symbol::SortTail | Symbol::Modules)
    }

    /// Whether the symbol may be left out and this token does not fit it.
    #[tactic(auto, unfolding(crate::specs::Table::turn))]
    pub(crate) fn is_left_out(self, word: &LexedToken<'_>) -> bool
        ensures { result ≡ is_left_out self (token_of word.now.kind word.now.bytes.now) }
    {
        match self {
            Symbol::SortTail => !word.is_mark(b'{'),
            Symbol::Modules => !word.is_word(b"module"),
            _ => false,
        }
    }
}
