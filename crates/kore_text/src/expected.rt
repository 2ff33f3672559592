// What may come next in a text: a stack of symbols, which changes by the table of the grammar.

ghost use Rattle.std.specs.Prelude.{◌≡◌, ◌≢◌, ◌≤◌, ℕ, Bool, List, [], ◌∷◌, ◌++◌, true, false, Some};
ghost use Rattle.std.specs.Prelude.{if◌then◌else◌, OnOk, IfOk};
ghost use Rattle.kore_lex.specs.declared.lexer.TokenKind.TheVariants.{End};
ghost use Rattle.kore_text.specs.declared.names.Built.TheVariants.{Connective, Binding};
ghost use Rattle.kore_text.specs.declared.symbols.Symbol.TheVariants.{First, More};
ghost use Rattle.kore_text.specs.TokenStream.{token_of, identifier, set_identifier, builtin};
ghost use Rattle.kore_text.specs.TokenStream.{string_token};
ghost use Rattle.kore_text.specs.Table.{turn, rest_of, step, can_end, is_empty, when, exactly};
ghost use Rattle.kore_text.specs.Table.{argument_symbols, built_symbols, pattern_move};
ghost use Rattle.kore_text.specs.Table.{pattern_tail_move, folded_move, item_move, word_move};
ghost use Rattle.kore_text.specs.Table.{declarations_move, folded_arguments, variable_move};
ghost use Rattle.kore_text.specs.Table.{byte_of, symbol_of};
ghost use Rattle.kore_text.specs.Apart.{is_mark};

use crate::names::{Binder, Built, Op};
use crate::symbols::{Close, Item, Symbol};
use crate::words::LexedToken;
use kore_lex::TokenKind;
use std::alloc::{AllocError, Global};

/// After the brace that opens a list of sorts.
const SORTS: [Symbol; 1] = [Symbol::First(Item::Sort, Close::Brace)];

/// After the brace that opens a list of names.
const NAMES: [Symbol; 1] = [Symbol::First(Item::Name, Close::Brace)];

/// After the bracket that opens attributes.
const ATTRIBUTES: [Symbol; 1] = [Symbol::First(Item::Pattern(true), Close::Bracket)];

/// After the parenthesis that opens a signature.
const SIGNATURE: [Symbol; 3] = [
    Symbol::First(Item::Sort, Close::Paren),
    Symbol::Mark(b':'),
    Symbol::Sort,
];

/// After `module`, if no other module may follow.
const MODULE: [Symbol; 2] = [Symbol::Name, Symbol::Declarations];

/// After `module`, if more modules may follow.
const MODULES: [Symbol; 3] = [Symbol::Name, Symbol::Declarations, Symbol::Modules];

/// After `endmodule`.
const END: [Symbol; 1] = [Symbol::Attributes];

/// After `import`.
const IMPORT: [Symbol; 3] = [Symbol::Name, Symbol::Attributes, Symbol::Declarations];

/// After `sort` and `hooked-sort`.
const SORT: [Symbol; 4] = [
    Symbol::Name,
    Symbol::Names,
    Symbol::Attributes,
    Symbol::Declarations,
];

/// After `symbol` and `hooked-symbol`.
const SYMBOL: [Symbol; 5] = [
    Symbol::Name,
    Symbol::Names,
    Symbol::Signature,
    Symbol::Attributes,
    Symbol::Declarations,
];

/// After `alias`.
const ALIAS: [Symbol; 13] = [
    Symbol::Name,
    Symbol::Names,
    Symbol::Signature,
    Symbol::Where,
    Symbol::Name,
    Symbol::Mark(b'{'),
    Symbol::First(Item::Sort, Close::Brace),
    Symbol::Mark(b'('),
    Symbol::First(Item::Pattern(false), Close::Paren),
    Symbol::Assign,
    Symbol::Pattern(false),
    Symbol::Attributes,
    Symbol::Declarations,
];

/// After `axiom` and `claim`.
const STATEMENT: [Symbol; 4] = [
    Symbol::Names,
    Symbol::Pattern(false),
    Symbol::Attributes,
    Symbol::Declarations,
];

/// The symbols that may come next. The next symbol is the last in the vector.
#[derive(Drop)]
pub(crate) struct Expected {
    symbols: Vec<Symbol>,
}

impl Expected {
    ghost use Rattle.kore_text.specs.Stacks.{stack, Expands, Steps, is_nil};

    /// The stack of these symbols. The first of them is the next.
    pub(crate) fn new(alloc: Global, symbols: &[Symbol]) -> Result<Expected, AllocError>
        ensures { IfOk result (λ e. stack e ≡ symbols.now) }
    {
        let mut expected = Expected {
            symbols: Vec::new(alloc),
        };
        expected.put(symbols)?;
        Ok(expected)
    }

    /// Whether the text may end here.
    pub(crate) fn can_end(&self) -> bool
        ensures { result ≡ can_end (stack self.now) }
    {
        for i in (0..self.symbols.len()).rev() {
            if !self.symbols[i].is_empty() {
                return false;
            }
        }
        true
    }

    /// Whether no symbol is to come.
    pub(crate) fn is_done(&self) -> bool
        ensures { result ≡ is_nil (stack self.now) }
    {
        self.symbols.is_empty()
    }

    /// Takes a token and returns whether it fits. If it does not fit, the stack is left in an
    /// unspecified state.
    pub(crate) fn take(&mut self, word: &LexedToken<'_>) -> Result<bool, AllocError>
        requires { word.now.kind ≢ End }
        ensures { IfOk result (λ yes. Steps yes
            (step (stack self.old) (token_of word.now.kind word.now.bytes.now)) (stack self.new)) }
    {
        while let Some(symbol) = self.symbols.pop() {
            if !symbol.is_left_out(word) {
                return self.expand(symbol, word);
            }
        }
        Ok(false)
    }

    /// Puts these symbols in front of the stack.
    fn put(&mut self, symbols: &[Symbol]) -> Result<(), AllocError>
        ensures { OnOk result (stack self.new ≡ symbols.now ++ stack self.old) }
    {
        for i in (0..symbols.len()).rev() {
            self.symbols.push(symbols[i])?;
        }
        Ok(())
    }

    /// Puts these symbols in front of the stack if the token fits. Returns whether it fits.
    fn put_where(&mut self, fits: bool, symbols: &[Symbol]) -> Result<bool, AllocError>
        ensures { IfOk result
            (λ yes. Expands yes (when fits symbols.now) (stack self.old) (stack self.new)) }
    {
        if fits {
            self.put(symbols)?;
        }
        Ok(fits)
    }

    /// Puts in front of the stack what comes after this token of the symbol, if the token fits the
    /// symbol. Returns whether it fits.
    #[tactic(auto, unfolding(crate::specs::Table::turn))]
    fn expand(&mut self, symbol: Symbol, word: &LexedToken<'_>) -> Result<bool, AllocError>
        requires { word.now.kind ≢ End }
        ensures { IfOk result
            (λ yes. Expands yes (turn symbol (token_of word.now.kind word.now.bytes.now))
            (rest_of symbol (token_of word.now.kind word.now.bytes.now) (stack self.old))
            (stack self.new)) }
    {
        match symbol {
            Symbol::Mark(byte) => self.put_where(word.is_mark(byte), &[]),
            Symbol::Name => self.put_where(word.is_name(), &[]),
            Symbol::Where => self.put_where(word.is_word(b"where"), &[]),
            Symbol::Assign => self.put_where(word.is_assign(), &[]),
            Symbol::Text => self.put_where(word.is_text(), &[]),
            Symbol::Sort => self.put_where(word.is_name(), &[Symbol::SortTail]),
            Symbol::SortTail => self.put_where(word.is_mark(b'{'), &SORTS),
            Symbol::Pattern(strings) => self.pattern(strings, word),
            Symbol::PatternTail(strings) => self.pattern_tail(strings, word),
            Symbol::Variable(set) => self.variable(set, word),
            Symbol::Folded(strings) => self.folded_some(strings, word),
            Symbol::EmptyFolded => { self.folded(word, &[Symbol::Mark(b'('), Symbol::Mark(b')')]) }
            Symbol::First(item, close) => self.first(item, close, word),
            Symbol::More(item, close) => self.more(item, close, word),
            Symbol::Attributes => self.put_where(word.is_mark(b'['), &ATTRIBUTES),
            Symbol::Names => self.put_where(word.is_mark(b'{'), &NAMES),
            Symbol::Signature => self.put_where(word.is_mark(b'('), &SIGNATURE),
            Symbol::Declarations => self.declaration(word),
            Symbol::Module => self.put_where(word.is_word(b"module"), &MODULE),
            Symbol::Modules => self.put_where(word.is_word(b"module"), &MODULES),
        }
    }

    /// Takes the first token of a pattern.
    fn pattern(&mut self, strings: bool, word: &LexedToken<'_>) -> Result<bool, AllocError>
        ensures { IfOk result (λ yes. Expands yes
            (pattern_move strings (token_of word.now.kind word.now.bytes.now)) (stack self.old)
            (stack self.new)) }
    {
        match word.kind {
            TokenKind::Ident => self.put_where(true, &[Symbol::PatternTail(strings)]),
            TokenKind::SetIdent => self.put_where(true, &[Symbol::Mark(b':'), Symbol::Sort]),
            TokenKind::Text => self.put_where(strings, &[]),
            TokenKind::Builtin => match Built::of_name(word.behind_first()) {
                Some(built) => {
                    self.built(strings, built)?;
                    Ok(true)
                }
                None => Ok(false),
            },
            _ => Ok(false),
        }
    }

    /// Puts what comes after a built-in name.
    fn built(&mut self, strings: bool, built: Built) -> Result<(), AllocError>
        ensures { OnOk result (stack self.new ≡ built_symbols strings built ++ stack self.old) }
    {
        match built {
            Built::Connective(op) => self.connective(strings, op),
            Built::Binding(binder) => self.binding(strings, binder),
            Built::Value => self.put(&[
                Symbol::Mark(b'{'),
                Symbol::Sort,
                Symbol::Mark(b'}'),
                Symbol::Mark(b'('),
                Symbol::Text,
                Symbol::Mark(b')'),
            ]),
            Built::Fold(_) => self.put(&[
                Symbol::Mark(b'{'),
                Symbol::Mark(b'}'),
                Symbol::Mark(b'('),
                Symbol::Folded(strings),
                Symbol::Mark(b')'),
            ]),
        }
    }

    /// Puts what comes after the name of a connective.
    #[tactic(auto, using(crate::proofs::StackLaws::exactly_append))]
    fn connective(&mut self, strings: bool, op: Op) -> Result<(), AllocError>
        ensures { OnOk result
            (stack self.new ≡ built_symbols strings (Connective op) ++ stack self.old) }
    {
        match op.arguments() {
            None => self.put(&[Symbol::First(Item::Pattern(strings), Close::Paren)])?,
            Some(count) => self.exactly(Symbol::Pattern(strings), Close::Paren, count)?,
        }
        self.put(&[Symbol::Mark(b'(')])?;
        self.exactly(Symbol::Sort, Close::Brace, op.sorts())?;
        self.put(&[Symbol::Mark(b'{')])
    }

    /// Puts what comes after the name of a binder.
    #[tactic(auto, using(crate::proofs::StackLaws::exactly_append))]
    fn binding(&mut self, strings: bool, binder: Binder) -> Result<(), AllocError>
        ensures { OnOk result
            (stack self.new ≡ built_symbols strings (Binding binder) ++ stack self.old) }
    {
        self.put(&[
            Symbol::Mark(b'('),
            Symbol::Variable(binder.binds_sets()),
            Symbol::Mark(b','),
            Symbol::Pattern(strings),
            Symbol::Mark(b')'),
        ])?;
        self.exactly(Symbol::Sort, Close::Brace, binder.sorts())?;
        self.put(&[Symbol::Mark(b'{')])
    }

    /// Puts a list of exactly `count` items of a symbol, from the token after its opening bracket.
    #[tactic(auto, using(crate::proofs::StackLaws::exactly_first, crate::proofs::StackLaws::exactly_more))]
    fn exactly(&mut self, symbol: Symbol, close: Close, count: usize) -> Result<(), AllocError>
        ensures { OnOk result (stack self.new ≡ exactly symbol close count (stack self.old)) }
    {
        self.put(&[Symbol::Mark(close.byte())])?;
        for i in 0..count {
            if i > 0 {
                self.put(&[Symbol::Mark(b',')])?;
            }
            self.put(&[symbol])?;
        }
        Ok(())
    }

    /// Takes the token after a name that begins a pattern.
    fn pattern_tail(&mut self, strings: bool, word: &LexedToken<'_>) -> Result<bool, AllocError>
        ensures { IfOk result (λ yes. Expands yes
            (pattern_tail_move strings (token_of word.now.kind word.now.bytes.now)) (stack self.old)
            (stack self.new)) }
    {
        match word.kind {
            TokenKind::Punct(b':') => self.put_where(true, &[Symbol::Sort]),
            TokenKind::Punct(byte) => self.put_where(
                byte == b'{',
                &[
                    Symbol::First(Item::Sort, Close::Brace),
                    Symbol::Mark(b'('),
                    Symbol::First(Item::Pattern(strings), Close::Paren),
                ],
            ),
            _ => Ok(false),
        }
    }

    /// Takes the name of a variable.
    fn variable(&mut self, set: bool, word: &LexedToken<'_>) -> Result<bool, AllocError>
        ensures { IfOk result (λ yes. Expands yes
            (variable_move set (token_of word.now.kind word.now.bytes.now)) (stack self.old)
            (stack self.new)) }
    {
        let fits = if set {
            word.is_set_name()
        } else {
            word.is_name()
        };
        self.put_where(fits, &[Symbol::Mark(b':'), Symbol::Sort])
    }

    /// Takes the head of a folded application that has at least one argument.
    fn folded_some(&mut self, strings: bool, word: &LexedToken<'_>) -> Result<bool, AllocError>
        ensures { IfOk result (λ yes. Expands yes
            (folded_move (folded_arguments strings) (token_of word.now.kind word.now.bytes.now))
            (stack self.old) (stack self.new)) }
    {
        self.folded(
            word,
            &[
                Symbol::Mark(b'('),
                Symbol::Pattern(strings),
                Symbol::More(Item::Pattern(strings), Close::Paren),
            ],
        )
    }

    /// Takes the head of a folded application. These symbols come for its arguments.
    fn folded(&mut self, word: &LexedToken<'_>, arguments: &[Symbol]) -> Result<bool, AllocError>
        ensures { IfOk result (λ yes. Expands yes
            (folded_move arguments.now (token_of word.now.kind word.now.bytes.now)) (stack self.old)
            (stack self.new)) }
    {
        match word.kind {
            TokenKind::Ident => {
                self.put(arguments)?;
                self.put(&[Symbol::Mark(b'{'), Symbol::First(Item::Sort, Close::Brace)])?;
                Ok(true)
            }
            TokenKind::Builtin => match Built::of_name(word.behind_first()) {
                Some(Built::Connective(op)) if op.is_associative() => {
                    self.put(arguments)?;
                    self.put(&[Symbol::Mark(b'{'), Symbol::Sort, Symbol::Mark(b'}')])?;
                    Ok(true)
                }
                _ => Ok(false),
            },
            _ => Ok(false),
        }
    }

    /// Takes the token after the opening bracket of a list.
    fn first(&mut self, item: Item, close: Close, word: &LexedToken<'_>) -> Result<bool, AllocError>
        ensures { IfOk result (λ yes. Expands yes (if is_mark (byte_of close)
            (token_of word.now.kind word.now.bytes.now) then Some []
            else item_move item (token_of word.now.kind word.now.bytes.now))
            (rest_of (First item close) (token_of word.now.kind word.now.bytes.now)
            (stack self.old)) (stack self.new)) }
    {
        if word.is_mark(close.byte()) {
            return Ok(true);
        }
        self.put(&[Symbol::More(item, close)])?;
        match item {
            Item::Name => self.put_where(word.is_name(), &[]),
            Item::Sort => self.put_where(word.is_name(), &[Symbol::SortTail]),
            Item::Pattern(strings) => self.pattern(strings, word),
        }
    }

    /// Takes the token after an item of a list.
    fn more(&mut self, item: Item, close: Close, word: &LexedToken<'_>) -> Result<bool, AllocError>
        ensures { IfOk result (λ yes. Expands yes
            (if is_mark (byte_of close) (token_of word.now.kind word.now.bytes.now) then Some []
            else when (is_mark 44 (token_of word.now.kind word.now.bytes.now))
            (symbol_of item ∷ More item close ∷ [])) (stack self.old) (stack self.new)) }
    {
        if word.is_mark(close.byte()) {
            return Ok(true);
        }
        self.put_where(
            word.is_mark(b','),
            &[item.symbol(), Symbol::More(item, close)],
        )
    }

    /// Takes the keyword of a declaration, or `endmodule`.
    fn declaration(&mut self, word: &LexedToken<'_>) -> Result<bool, AllocError>
        ensures { IfOk result (λ yes. Expands yes
            (declarations_move (token_of word.now.kind word.now.bytes.now)) (stack self.old)
            (stack self.new)) }
    {
        match word.kind {
            TokenKind::Ident => self.declared(word.bytes),
            _ => Ok(false),
        }
    }

    /// Puts what comes after the keyword of a declaration, or after `endmodule`. Returns false if
    /// the name is no such keyword.
    fn declared(&mut self, name: &[u8]) -> Result<bool, AllocError>
        ensures { IfOk result
            (λ yes. Expands yes (word_move name.now) (stack self.old) (stack self.new)) }
    {
        if name == b"endmodule".as_slice() {
            self.put_where(true, &END)
        } else if name == b"import".as_slice() {
            self.put_where(true, &IMPORT)
        } else if name == b"sort".as_slice() || name == b"hooked-sort".as_slice() {
            self.put_where(true, &SORT)
        } else if name == b"symbol".as_slice() || name == b"hooked-symbol".as_slice() {
            self.put_where(true, &SYMBOL)
        } else if name == b"alias".as_slice() {
            self.put_where(true, &ALIAS)
        } else if name == b"axiom".as_slice() || name == b"claim".as_slice() {
            self.put_where(true, &STATEMENT)
        } else {
            Ok(false)
        }
    }
}
