// The first fault of a text.

ghost use Rattle.std.specs.Prelude.{◌≡◌, ◌≤◌, ◌&&◌, ℕ, List, ◌<◌, ◌^◌, length, Some, IfOk};
ghost use Rattle.kore_text.specs.TokenStream.{token_stream, token_of};
ghost use Rattle.kore_text.specs.Remaining.{left, size};
ghost use Rattle.kore_text.specs.Table.{run, is_fold, passes, empty_fold, pattern_symbols};
ghost use Rattle.kore_text.specs.Table.{definition_symbols};
ghost use Rattle.kore_text.specs.Faults.{IsFirstFaultOfText, IsPattern, IsDefinition};
ghost use Rattle.kore_text.specs.Depth.{opened};

use crate::expected::Expected;
use crate::faults::TextFault;
use crate::symbols::Symbol;
use crate::tokens::{Next, Tokens};
use crate::words::LexedToken;
use kore_lex::TokenKind;
use std::alloc::{AllocError, Global};

/// The greatest number of brackets `(` and `{` that may be open at once.
const MOST_OPEN: usize = 500;

/// What follows the name of a fold if the fold has no argument.
const EMPTY_FOLD: [Symbol; 4] = [
    Symbol::Mark(b'{'),
    Symbol::Mark(b'}'),
    Symbol::Mark(b'('),
    Symbol::EmptyFolded,
];

/// A text of which some tokens were looked at.
#[derive(Drop)]
pub(crate) struct Finder<'a> {
    alloc: Global,
    tokens: Tokens<'a>,
    expected: Expected,
    // how many brackets `(` and `{` are open
    depth: usize,
    ghost shallow: { depth ≤ 500 },
}

/// What was found at the next token.
#[derive(Clone, Copy)]
pub(crate) enum Look {
    /// The token is good.
    Good,
    /// The text ends, and it is good.
    Fine,
    Fault(TextFault),
}

/// The first fault of a text of fewer than 2^32 bytes that should be a definition. Returns none if
/// the bytes spell a definition. Fails only if memory runs out. Time is linear in how many bytes
/// there are, and nothing recurses.
#[tactic(auto, using(crate::proofs::Explaining::definition_fault))]
pub fn definition_fault(alloc: Global, text: &[u8]) -> Result<Option<TextFault>, AllocError>
    requires { length text.now < 2 ^ 32 }
    ensures { IfOk result (λ f. IsFirstFaultOfText IsDefinition 0 (token_stream text.now) f) }
{
    first_fault(
        alloc,
        text,
        &[Symbol::Attributes, Symbol::Module, Symbol::Modules],
    )
}

/// The first fault of a text of fewer than 2^32 bytes that should be a pattern. Returns none if the
/// bytes spell a pattern. Fails only if memory runs out. Time is linear in how many bytes there
/// are, and nothing recurses.
#[tactic(auto, using(crate::proofs::Explaining::pattern_fault))]
pub fn pattern_fault(alloc: Global, text: &[u8]) -> Result<Option<TextFault>, AllocError>
    requires { length text.now < 2 ^ 32 }
    ensures { IfOk result (λ f. IsFirstFaultOfText IsPattern 0 (token_stream text.now) f) }
{
    first_fault(alloc, text, &[Symbol::Pattern(false)])
}

/// The first fault of a text at whose head these symbols are to come.
fn first_fault(
    alloc: Global,
    text: &[u8],
    start: &[Symbol],
) -> Result<Option<TextFault>, AllocError>
    requires { length text.now < 2 ^ 32 }
    ensures { IfOk result (λ f. f ≡ run (token_stream text.now) (Some 0) start.now) }
{
    let mut finder = Finder {
        alloc,
        tokens: Tokens::new(text),
        expected: Expected::new(alloc, start)?,
        depth: 0,
    };
    loop {
        match finder.look()? {
            Look::Good => {}
            Look::Fine => return Ok(None),
            Look::Fault(fault) => return Ok(Some(fault)),
        }
    }
}

impl<'a> Finder<'a> {
    ghost use Rattle.kore_text.specs.Finding.{Looks, Ends};

    /// Looks at the next token.
    #[tactic(auto, using(crate::proofs::Looking::run_end, crate::proofs::Looking::run_fault, crate::proofs::Looking::run_empty_fold, crate::proofs::Looking::run_stuck, crate::proofs::Looking::run_deep, crate::proofs::Looking::run_on, crate::proofs::Looking::size_token))]
    fn look(&mut self) -> Result<Look, AllocError>
        ensures { IfOk result (λ l. Looks l self.old self.new) }
    {
        match self.tokens.next() {
            Next::End(at) => Ok(self.end(at)),
            Next::Fault(at) => Ok(Look::Fault(TextFault::Lex(at))),
            Next::Token(kind, at, bytes) => {
                let word = LexedToken { kind, bytes };
                if begins_empty_fold(self.alloc, &word, &self.tokens)? {
                    return Ok(Look::Fault(TextFault::Syntax(at)));
                }
                if !self.expected.take(&word)? {
                    return Ok(Look::Fault(TextFault::Syntax(at)));
                }
                let depth = opened(kind, self.depth);
                if depth > MOST_OPEN {
                    return Ok(Look::Fault(TextFault::Deep(at)));
                }
                self.depth = depth;
                Ok(Look::Good)
            }
        }
    }

    /// What is found if the text ends at byte `at`.
    #[tactic(auto, using(crate::proofs::Looking::run_ends, crate::proofs::Looking::run_no_end))]
    fn end(&self, at: u32) -> Look
        ensures { Ends result at self.now }
    {
        if self.expected.can_end() {
            Look::Fine
        } else {
            Look::Fault(TextFault::Syntax(at))
        }
    }
}

/// Whether this token and the tokens after it begin a fold without an argument.
fn begins_empty_fold(
    alloc: Global,
    word: &LexedToken<'_>,
    tokens: &Tokens<'_>,
) -> Result<bool, AllocError>
    ensures { IfOk result (λ yes. yes
        ≡ (is_fold (token_of word.now.kind word.now.bytes.now)
        && passes (left tokens.now) empty_fold)) }
{
    if !word.is_fold() {
        return Ok(false);
    }
    is_empty_fold(alloc, tokens.fork())
}

/// Whether these tokens, after the name of a fold, say that the fold has no argument.
#[tactic(auto, using(crate::proofs::Looking::passes_done, crate::proofs::Looking::passes_end, crate::proofs::Looking::passes_fault, crate::proofs::Looking::passes_token, crate::proofs::Looking::passes_stuck, crate::proofs::Looking::size_token))]
fn is_empty_fold(alloc: Global, mut tokens: Tokens<'_>) -> Result<bool, AllocError>
    ensures { IfOk result (λ yes. yes ≡ passes (left tokens.entry) empty_fold) }
{
    let mut expected = Expected::new(alloc, &EMPTY_FOLD)?;
    while !expected.is_done() {
        let Next::Token(kind, _, bytes) = tokens.next() else {
            return Ok(false);
        };
        if !expected.take(&LexedToken { kind, bytes })? {
            return Ok(false);
        }
    }
    Ok(true)
}

/// How many brackets are open after a token, if `depth` are open before it.
fn opened(kind: TokenKind, depth: usize) -> usize
    requires { depth ≤ 500 }
    ensures { (bytes : List ℕ) → result ≡ opened (token_of kind bytes) depth }
{
    match kind {
        TokenKind::Punct(b'(' | b'{') => depth + 1,
        TokenKind::Punct(b')' | b'}') => depth.saturating_sub(1),
        _ => depth,
    }
}
