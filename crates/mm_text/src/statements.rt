// The statements of a text, one after another.

ghost use Rattle.std.specs.Prelude.{◌≡◌};
ghost use Rattle.mm_text.specs.ReaderSteps.{ends_after, found_at_end};
ghost use Rattle.mm_text.specs.Statements.{ends_statement, is_whole};

use crate::fault::MmFault;
use crate::tokens::{MmToken, MmTokens};

/// What was found at a place where a statement may begin.
#[derive(Clone, Copy, PartialEq, Eq)]
pub enum MmFound {
    /// A statement.
    Statement,
    /// The end of the text.
    End,
    /// A statement that has no end. The number is the place of the first byte of its first token.
    Unended(usize),
}

/// Why no statement was read.
#[derive(Clone, Copy, PartialEq, Eq)]
pub enum MmReadEnd {
    /// A byte or a comment that breaks the text: a fault of kind 1 or 2.
    Fault(MmFault),
    /// Out of memory.
    Memory,
}

impl<'a> MmTokens<'a> {
    ghost use Rattle.mm_text.specs.Reader.{statements_left, Finds, Passes};

    /// Reads the next statement. Its tokens replace those in the list. If there is no statement, it
    /// returns how the text ends, or the first fault (kind 1 or 2). The list then has the tokens
    /// before the end or the fault.
    pub fn next_statement(&mut self, tokens: &mut Vec<MmToken>) -> Result<MmFound, MmReadEnd>
        ensures text { self.new.bytes.now ≡ self.old.bytes.now }
        ensures finds { Finds self.old.bytes.now (statements_left self.old)
            (statements_left self.new) tokens.new.items result }
        ensures passes { Passes self.old.at self.new.at result }
    {
        tokens.clear();
        loop {
            let Some(token) = self.next().map_err(MmReadEnd::Fault)? else {
                return Ok(found_at_end(tokens));
            };
            let ends = ends_here(tokens.is_empty(), token.word(self.text()));
            tokens.push(token).map_err(|_| MmReadEnd::Memory)?;
            if ends {
                return Ok(MmFound::Statement);
            }
        }
    }
}

/// What is found if the text ends after these tokens of a statement.
fn found_at_end(tokens: &[MmToken]) -> MmFound
    ensures { result ≡ found_at_end tokens.now }
{
    match tokens.first() {
        None => MmFound::End,
        Some(token) => MmFound::Unended(token.from),
    }
}

/// Whether a statement ends with this token. `is_first` says whether it is the first token of the
/// statement.
fn ends_here(is_first: bool, word: &[u8]) -> bool
    ensures { result ≡ ends_after is_first word.now }
{
    if is_first {
        is_whole(word)
    } else {
        ends_statement(word)
    }
}

/// Whether the token is `$.`.
fn ends_statement(word: &[u8]) -> bool
    ensures { result ≡ ends_statement word.now }
{
    word == b"$.".as_slice()
}

/// Whether the token is a whole statement if it is the first token of one.
fn is_whole(word: &[u8]) -> bool
    ensures { result ≡ is_whole word.now }
{
    word == b"${".as_slice() || word == b"$}".as_slice() || ends_statement(word)
}
