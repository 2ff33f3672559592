// Reading: from tokens to words, and from words to the pattern that they spell.
ghost use Rattle.std.specs.Prelude.{◌≡◌, IfOk, MatchOption, option_map};
ghost use Rattle.pattern_reader.specs.Readings.{texts, AreUtf8, IsReading, AreKept, GainsOnly};
ghost use Rattle.pattern_reader.specs.Readings.{SayNoPattern};
ghost use Rattle.pattern_reader.specs.Machine.{step, popped, Spell, SpellNothing};
ghost use Rattle.pattern_reader.specs.Views.{frames_of, word_of, words_of, stack_of};

use crate::frames::{Frame, nullary};
use crate::words::{Word, all_said};
use ml_pat::{MPat, Names};
use std::alloc::{AllocError, Global};

/// The pattern that the tokens say, or None if they say none. The tokens of its sorts, symbols and
/// values get numbers among the names, which keep their own. It takes time linear in the text, and
/// no recursion. An error: out of memory. The names may have gained tokens even then, but never
/// others than those of its sorts, symbols and values.
pub fn read_pattern(
    alloc: Global,
    names: &mut Names,
    tokens: &[&[u8]],
) -> Result<Option<MPat>, AllocError>
    requires { AreUtf8 tokens.now }
    ensures pattern { IfOk result (λ r. MatchOption r (SayNoPattern (texts tokens.now))
        (IsReading names.new (texts tokens.now))) }
    ensures names { AreKept names.old names.new }
    ensures gained { GainsOnly (texts tokens.now) names.old names.new }
{
    match all_said(alloc, names, tokens)? {
        Some(words) => {
            names.tokens_differ();
            spelled(alloc, &words)
        }
        None => Ok(None),
    }
}

// The pattern with these words, or None if there is none.
fn spelled(alloc: Global, words: &[Word]) -> Result<Option<MPat>, AllocError>
    ensures { IfOk result (λ r. MatchOption r (SpellNothing (words_of words.now))
        (Spell (words_of words.now))) }
{
    let mut top = Frame::Before;
    let mut below = Vec::new(alloc);
    for word in words {
        match step(alloc, top, &mut below, *word)? {
            Some(next) => top = next,
            None => return Ok(None),
        }
    }
    match top {
        Frame::After(pat) if below.is_empty() => Ok(Some(pat)),
        _ => Ok(None),
    }
}

// The frame on top after a word, or None if the word may not stand here.
fn step(
    alloc: Global,
    top: Frame,
    below: &mut Vec<Frame>,
    word: Word,
) -> Result<Option<Frame>, AllocError>
    ensures { IfOk result (λ r. option_map (stack_of below.new.items) r
        ≡ step (stack_of below.old.items top) (word_of word)) }
{
    match word {
        Word::Open => {
            below.push(top)?;
            Ok(Some(Frame::Opened))
        }
        Word::Close => match top.whole(alloc)? {
            Some(pat) => Ok(popped(below, pat)),
            None => Ok(None),
        },
        Word::Alone(c) => Ok(top.fed(nullary(alloc, c)?)),
        Word::One(c) => Ok(top.headed(Frame::OneDue(c))),
        Word::Two(c) => Ok(top.headed(Frame::TwoDue(c))),
        Word::AtSort(c) => Ok(top.headed(Frame::AtSortDue(c))),
        Word::Binder(c) => Ok(top.headed(Frame::BinderDue(c))),
        Word::Object(x) => top.with_object(alloc, x),
        Word::SortName(s) => Ok(top.with_sort(s)),
        Word::ConstantName(c) => Ok(top.fed(MPat::constant(alloc, c)?)),
    }
}

// The frame below, after a pattern.
fn popped(below: &mut Vec<Frame>, pat: MPat) -> Option<Frame>
    ensures { option_map (stack_of below.new.items) result
        ≡ popped (frames_of below.old.items) pat }
{
    below.pop()?.fed(pat)
}
