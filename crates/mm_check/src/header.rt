// The words of the header's expressions.

ghost use Rattle.std.specs.Prelude.{◌≡◌, ◌<◌, ◌++◌, ◌∷◌, ◌==◌, ◌↔◌, [], IsTrue, IfOk, IfSome};
ghost use Rattle.std.specs.Prelude.{length};
ghost use Rattle.std.specs.Prelude.{MatchOption, position};
ghost use Rattle.mm_header.specs.HeaderRows.{words_of, expression_of};
ghost use Rattle.mm_check.specs.Stated.{words};
ghost use Rattle.mm_check.specs.RowTexts.{begins_with_mark, key_of, joined, spaced};

use std::alloc::{AllocError, Global};

/// The words of a statement or hypothesis as the header's table has it.
pub(crate) fn expression<'a>(alloc: Global, text: &'a str) -> Result<Vec<&'a [u8]>, AllocError>
    ensures { IfOk result (λ v. words v.items ≡ expression_of text.now) }
{
    let mut words = Vec::new(alloc);
    if !begins_with_mark(text) {
        words.push(b"|-".as_slice())?;
    }
    push_words(&mut words, text.as_bytes())?;
    Ok(words)
}

/// Whether the text begins with `#`.
fn begins_with_mark(text: &str) -> bool
    ensures { result ≡ begins_with_mark text.now }
{
    matches!(text.as_bytes(), [b'#', ..])
}

/// Appends the words of a text; single spaces separate them.
fn push_words<'a>(to: &mut Vec<&'a [u8]>, text: &'a [u8]) -> Result<(), AllocError>
    ensures { IfOk result
        (λ _. words to.new.items ≡ words to.old.items ++ words_of text.now) }
{
    let mut rest = text;
    while let Some((word, others)) = first_word(rest) {
        to.push(word)?;
        rest = others;
    }
    to.push(rest)?;
    Ok(())
}

/// The first word of a text and what comes after its space. Returns `None` exactly when there is no
/// space.
fn first_word(text: &[u8]) -> Option<(&[u8], &[u8])>
    ensures { MatchOption result (words_of text.now ≡ text.now ∷ [])
        (λ r. (words_of text.now ≡ r.0.now ∷ words_of r.1.now)
        × (length r.1.now < length text.now)) }
{
    let at = next_space(text)?;
    Some((&text[..at], &text[at + 1..]))
}

/// The place of the first space.
fn next_space(text: &[u8]) -> Option<usize>
    ensures place { result ≡ position (λ b. b == 32) text.now }
    ensures within { IfSome result (λ at. at < length text.now) }
{
    text.iter().position(|b| *b == b' ')
}

/// Whether the two are the same words.
pub(crate) fn same_words(one: &[&[u8]], others: &[&[u8]]) -> bool
    ensures { IsTrue result ↔ (words one.now ≡ words others.now) }
{
    one == others
}

/// The text that an expression has in the header's table: without `|-`, and with one space between
/// two words.
pub(crate) fn key_of(alloc: Global, expression: &[&[u8]]) -> Result<Vec<u8>, AllocError>
    ensures { IfOk result (λ v. v.items ≡ key_of (words expression.now)) }
{
    match expression {
        [first, rest @ ..] if *first == b"|-".as_slice() => joined(alloc, rest),
        _ => joined(alloc, expression),
    }
}

/// The words with one space between two.
fn joined(alloc: Global, expression: &[&[u8]]) -> Result<Vec<u8>, AllocError>
    ensures { IfOk result (λ v. v.items ≡ joined (words expression.now)) }
{
    let mut text = Vec::new(alloc);
    let Some((first, rest)) = expression.split_first() else {
        return Ok(text);
    };
    text.extend_from_slice(first)?;
    push_spaced(&mut text, rest)?;
    Ok(text)
}

/// Appends the words, each after a space.
fn push_spaced(to: &mut Vec<u8>, expression: &[&[u8]]) -> Result<(), AllocError>
    ensures { IfOk result (λ _. to.new.items ≡ to.old.items ++ spaced (words expression.now)) }
{
    for word in expression {
        to.push(b' ')?;
        to.extend_from_slice(word)?;
    }
    Ok(())
}
