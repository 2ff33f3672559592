// Texts of statements. What is still to be written is on a stack, so a deep pattern needs no deep
// stack of calls.
ghost use Rattle.std.specs.Prelude.{◌≡◌, [], ◌∷◌, ◌++◌, OnOk, codes};
ghost use Rattle.mm_proof.specs.TextStacks.{IsWritten, PutsParts, PutsText};
ghost use Rattle.mm_proof.specs.Tokens.{bracket, bracketed, pattern_tokens};
ghost use Rattle.mm_proof.specs.Writing.{text_tokens, word_token};
ghost use Rattle.mm_text.specs.Written.{written};

use crate::shapes::{Shape, shape_of};
use crate::words::{Word, push_word};
use ml_pat::{MPat, Names};
use std::alloc::AllocError;

/// A part of the text of a statement.
#[derive(Clone, Copy)]
pub enum TextPart<'a> {
    /// A token.
    One(Word),
    /// The tokens of a pattern.
    Pattern(&'a MPat),
}

/// Writes parts of a text one after another, in the block of the statement with the number
/// `serial`, each token with white space after it. `AllocError`: out of memory. It takes time linear
/// in what is written.
pub fn push_text(
    to: &mut Vec<u8>,
    names: &Names,
    serial: u64,
    parts: &[TextPart<'_>],
) -> Result<(), AllocError>
    ensures { OnOk result
        (to.new.items ≡ to.old.items ++ written (text_tokens names.now serial parts.now)) }
{
    let mut stack = Vec::new(*to.allocator());
    put_parts(&mut stack, parts)?;
    while let Some(next) = stack.pop() {
        push_part(to, names, serial, &mut stack, next)?;
    }
    Ok(())
}

/// Writes a token, or splits a pattern.
fn push_part<'a>(
    to: &mut Vec<u8>,
    names: &Names,
    serial: u64,
    stack: &mut Vec<TextPart<'a>>,
    part: TextPart<'a>,
) -> Result<(), AllocError>
    ensures { OnOk result (IsWritten names.now serial part.entry stack.old.items stack.new.items
        to.old.items to.new.items) }
{
    match part {
        TextPart::One(word) => push_word(to, names, serial, word),
        TextPart::Pattern(pat) => expand_text(stack, pat),
    }
}

/// Puts parts on a stack, the first on top.
fn put_parts<'a>(stack: &mut Vec<TextPart<'a>>, parts: &[TextPart<'a>]) -> Result<(), AllocError>
    ensures { OnOk result (PutsParts (λ names k. text_tokens names k parts.now) stack.old.items
        stack.new.items) }
{
    for part in parts.iter().rev() {
        stack.push(*part)?;
    }
    Ok(())
}

/// Puts the tokens of a pattern whose connective has this name on a stack.
fn put_bracket<'a>(
    stack: &mut Vec<TextPart<'a>>,
    name: &'static str,
    parts: &[TextPart<'a>],
) -> Result<(), AllocError>
    ensures { OnOk result
        (PutsText (λ names k. bracketed (codes "\\" ++ name.now)
        (text_tokens names k parts.now ++ bracket)) stack.old.items stack.new.items) }
{
    stack.push(TextPart::One(Word::Fixed(")")))?;
    put_parts(stack, parts)?;
    put_parts(
        stack,
        &[
            TextPart::One(Word::Fixed("(")),
            TextPart::One(Word::Connective(name)),
        ],
    )
}

/// Puts one token on a stack.
fn put_word<'a>(stack: &mut Vec<TextPart<'a>>, word: Word) -> Result<(), AllocError>
    ensures { OnOk result
        (PutsText (λ names k. word_token names k word ∷ []) stack.old.items stack.new.items) }
{
    stack.push(TextPart::One(word))?;
    Ok(())
}

/// Puts the tokens of a pattern on a stack.
fn expand_text<'a>(stack: &mut Vec<TextPart<'a>>, pat: &'a MPat) -> Result<(), AllocError>
    ensures { OnOk result
        (PutsText (λ names k. pattern_tokens names pat.now) stack.old.items stack.new.items) }
{
    match shape_of(pat) {
        Shape::Nullary(name) => put_word(stack, Word::Connective(name)),
        Shape::Unary(name, p) => put_bracket(stack, name, &[TextPart::Pattern(p)]),
        Shape::Binary(name, p, q) => put_bracket(
            stack,
            name,
            &[TextPart::Pattern(p), TextPart::Pattern(q)],
        ),
        Shape::Sorted(name, p, s) => {
            let parts = [TextPart::Pattern(p), TextPart::One(Word::Name(s.0))];
            put_bracket(stack, name, &parts)
        }
        Shape::Quantified(name, x, s, p) => {
            let parts = [
                TextPart::One(Word::Object(x.0)),
                TextPart::One(Word::Name(s.0)),
                TextPart::Pattern(p),
            ];
            put_bracket(stack, name, &parts)
        }
        Shape::Var(x) => put_word(stack, Word::Object(x.0)),
        Shape::Meta(i) => put_word(stack, Word::Meta(i)),
        Shape::Const(c) => put_word(stack, Word::Name(c.0)),
    }
}
