// The words that tokens say: brackets, connectives, and leaves by their numbers.
ghost use Rattle.std.specs.Prelude.{◌≡◌, [], ◌∷◌, IfOk, MatchOption, option_map};
ghost use Rattle.std.specs.Str.{IsUtf8};
ghost use Rattle.mm_proof.specs.Tokens.{name_of};
ghost use Rattle.pattern_reader.specs.Readings.{texts, AreUtf8, AreKept, GainsOnly};
ghost use Rattle.pattern_reader.specs.Readings.{IsSortToken, IsConstantToken, IsNameToken};
ghost use Rattle.pattern_reader.specs.Words.{Says, SaysNothing, OneSaysNothing, AllSay, connective};
ghost use Rattle.pattern_reader.specs.Words.{fixed_word};
ghost use Rattle.pattern_reader.specs.Words.{behind, IsObject, other_connective, short_connective};
ghost use Rattle.pattern_reader.specs.Views.{word_of, words_of};

use itoa::Buffer;
use ml_pat::{ConstNo, MSort, Names, VarNo};
use std::alloc::{AllocError, Global};

/// A connective without parts.
#[derive(Clone, Copy)]
pub(crate) enum Nullary {
    Bot,
    Top,
}

/// A connective on one pattern.
#[derive(Clone, Copy)]
pub(crate) enum Unary {
    Not,
    Next,
    Ev,
}

/// A connective on two patterns.
#[derive(Clone, Copy)]
pub(crate) enum Binary {
    Imp,
    And,
    Or,
    Equal,
    Member,
    App,
}

/// A connective on a pattern and a sort.
#[derive(Clone, Copy)]
pub(crate) enum Sorted {
    Fun,
    At,
}

/// A quantifier.
#[derive(Clone, Copy)]
pub(crate) enum Quantifier {
    Ex,
    All,
}

/// What a token says.
#[derive(Clone, Copy)]
pub(crate) enum Word {
    /// `(`
    Open,
    /// `)`
    Close,
    /// A connective without parts.
    Alone(Nullary),
    /// A connective on one pattern.
    One(Unary),
    /// A connective on two patterns.
    Two(Binary),
    /// A connective on a pattern and a sort.
    AtSort(Sorted),
    /// A quantifier.
    Binder(Quantifier),
    /// An object variable.
    Object(VarNo),
    /// A sort.
    SortName(MSort),
    /// A symbol or a value.
    ConstantName(ConstNo),
}

/// The words that the tokens say, or None if one of them says nothing. The tokens of sorts, symbols
/// and values get numbers.
pub(crate) fn all_said(
    alloc: Global,
    names: &mut Names,
    tokens: &[&[u8]],
) -> Result<Option<Vec<Word>>, AllocError>
    requires { AreUtf8 tokens.now }
    ensures words { IfOk result (λ r. MatchOption r (OneSaysNothing (texts tokens.now))
        (λ ws. AllSay names.new (texts tokens.now) (words_of ws.items))) }
    ensures names { AreKept names.old names.new }
    ensures gained { GainsOnly (texts tokens.now) names.old names.new }
{
    let mut words = Vec::with_capacity(alloc, tokens.len())?;
    for token in tokens {
        match said(names, token)? {
            Some(word) => words.push(word)?,
            None => return Ok(None),
        }
    }
    Ok(Some(words))
}

/// The word that a token says, or None if it says nothing.
#[tactic(auto, using(crate::proofs::Keeping::gains_none))]
fn said(names: &mut Names, token: &[u8]) -> Result<Option<Word>, AllocError>
    requires { IsUtf8 token.now }
    ensures word { IfOk result (λ r. MatchOption r (SaysNothing token.now)
        (λ w. Says names.new token.now (word_of w))) }
    ensures names { AreKept names.old names.new }
    ensures gained { GainsOnly (token.now ∷ []) names.old names.new }
{
    if let Some(word) = fixed_word(token) {
        return Ok(Some(word));
    }
    if let Some(digits) = behind(token, b'x') {
        return Ok(object(digits));
    }
    if behind(token, b's').is_some() {
        return Ok(Some(sort_name(names, token)?));
    }
    if behind(token, b'f').is_some() || behind(token, b'd').is_some() {
        return Ok(Some(constant_name(names, token)?));
    }
    Ok(None)
}

// The word of a bracket or a connective.
fn fixed_word(token: &[u8]) -> Option<Word>
    ensures { option_map word_of result ≡ fixed_word token.now }
{
    if token == b"(".as_slice() {
        Some(Word::Open)
    } else if token == b")".as_slice() {
        Some(Word::Close)
    } else {
        connective(token)
    }
}

// The word of a connective. The first ones are the most frequent.
fn connective(token: &[u8]) -> Option<Word>
    ensures { option_map word_of result ≡ connective token.now }
{
    if token == b"\\app".as_slice() {
        Some(Word::Two(Binary::App))
    } else if token == b"\\and".as_slice() {
        Some(Word::Two(Binary::And))
    } else if token == b"\\imp".as_slice() {
        Some(Word::Two(Binary::Imp))
    } else if token == b"\\eq".as_slice() {
        Some(Word::Two(Binary::Equal))
    } else if token == b"\\or".as_slice() {
        Some(Word::Two(Binary::Or))
    } else if token == b"\\mem".as_slice() {
        Some(Word::Two(Binary::Member))
    } else {
        other_connective(token)
    }
}

// The word of a connective that is not on two patterns.
fn other_connective(token: &[u8]) -> Option<Word>
    ensures { option_map word_of result ≡ other_connective token.now }
{
    if token == b"\\at".as_slice() {
        Some(Word::AtSort(Sorted::At))
    } else if token == b"\\fun".as_slice() {
        Some(Word::AtSort(Sorted::Fun))
    } else if token == b"\\all".as_slice() {
        Some(Word::Binder(Quantifier::All))
    } else if token == b"\\ex".as_slice() {
        Some(Word::Binder(Quantifier::Ex))
    } else {
        short_connective(token)
    }
}

// The word of a connective on one pattern or on none.
fn short_connective(token: &[u8]) -> Option<Word>
    ensures { option_map word_of result ≡ short_connective token.now }
{
    if token == b"\\not".as_slice() {
        Some(Word::One(Unary::Not))
    } else if token == b"\\next".as_slice() {
        Some(Word::One(Unary::Next))
    } else if token == b"\\ev".as_slice() {
        Some(Word::One(Unary::Ev))
    } else if token == b"\\top".as_slice() {
        Some(Word::Alone(Nullary::Top))
    } else if token == b"\\bot".as_slice() {
        Some(Word::Alone(Nullary::Bot))
    } else {
        None
    }
}

// What comes after this byte and a colon.
fn behind(token: &[u8], front: u8) -> Option<&[u8]>
    ensures { option_map (λ r. r.now) result ≡ behind front token.now }
{
    match token {
        [a, b, rest @ ..] => if *a == front && *b == b':' {
            Some(rest)
        } else {
            None
        },
        _ => None,
    }
}

// The word of an object variable, whose number is in decimal digits.
fn object(digits: &[u8]) -> Option<Word>
    ensures { IsObject digits.now (option_map word_of result) }
{
    let Ok(text) = str::from_utf8(digits) else {
        return None;
    };
    let Ok(number) = text.parse::<u32>() else {
        return None;
    };
    if Buffer::new().format(number).as_bytes() == digits {
        Some(Word::Object(VarNo(number)))
    } else {
        None
    }
}

// The word of a sort.
fn sort_name(names: &mut Names, token: &[u8]) -> Result<Word, AllocError>
    requires text { IsUtf8 token.now }
    requires front { IsSortToken token.now }
    ensures word { IfOk result (λ w. Says names.new token.now (word_of w)) }
    ensures names { AreKept names.old names.new }
    ensures gained { GainsOnly (token.now ∷ []) names.old names.new }
{
    Ok(Word::SortName(MSort(name(names, token)?)))
}

// The word of a symbol or a value.
fn constant_name(names: &mut Names, token: &[u8]) -> Result<Word, AllocError>
    requires text { IsUtf8 token.now }
    requires front { IsConstantToken token.now }
    ensures word { IfOk result (λ w. Says names.new token.now (word_of w)) }
    ensures names { AreKept names.old names.new }
    ensures gained { GainsOnly (token.now ∷ []) names.old names.new }
{
    Ok(Word::ConstantName(ConstNo(name(names, token)?)))
}

// The number of a token among the names.
fn name(names: &mut Names, token: &[u8]) -> Result<u64, AllocError>
    requires text { IsUtf8 token.now }
    requires front { IsNameToken token.now }
    ensures number { IfOk result (λ n. name_of names.new n ≡ token.now) }
    ensures names { AreKept names.old names.new }
    ensures gained { GainsOnly (token.now ∷ []) names.old names.new }
{
    let Ok(text) = str::from_utf8(token) else {
        unreachable!()
    };
    names.number(text)
}
