// What the last theorem of a database says.

ghost use Rattle.std.specs.Prelude.{◌≡◌, ◌≢◌, true, IfOk, MatchOption};
ghost use Rattle.std.specs.List.{list_any};
ghost use Rattle.ml_pat.specs.Patterns.{Pattern, imp, ev};
ghost use Rattle.mm_justify.specs.Counting.{is_object};
ghost use Rattle.mm_check.specs.Stated.{words};
ghost use Rattle.mm_check.specs.Conclusions.{are_symbols, IsClosedText, SaysNothing, SaysReached};

use crate::ends::Checked;
use crate::object_types::is_object;
use ml_pat::{MForm, MPat, Names};
use pattern_reader::{read_pattern, reading_laws};
use std::alloc::{AllocError, Global};

/// What the words of a theorem say: that one pattern without variables reaches another. Returns
/// `None` exactly when they say nothing of that kind. It takes time in their length.
pub(crate) fn conclusion(alloc: Global, statement: &[&[u8]]) -> Result<Option<Checked>, AllocError>
    requires { are_symbols (words statement.now) ≡ true }
    ensures { IfOk result (λ r. MatchOption r (SaysNothing (words statement.now))
        (λ c. SaysReached (words statement.now) c.names c.from c.to)) }
{
    reading_laws();
    let Some(text) = closed_text(statement) else {
        return Ok(None);
    };
    let mut names = Names::new(alloc);
    let Some(pattern) = read_pattern(alloc, &mut names, text)? else {
        return Ok(None);
    };
    names.tokens_differ();
    let Some((from, to)) = reached(&pattern) else {
        return Ok(None);
    };
    Ok(Some(Checked {
        from: from.share()?,
        to: to.share()?,
        names,
    }))
}

/// What comes after the `|-` of a statement, if it has no object variable.
fn closed_text<'s, 'a>(statement: &'s [&'a [u8]]) -> Option<&'s [&'a [u8]]>
    ensures { MatchOption result (SaysNothing (words statement.now))
        (λ t. IsClosedText (words statement.now) (words t.now)) }
{
    let [turnstile, text @ ..] = statement else {
        return None;
    };
    if *turnstile != b"|-".as_slice() || has_object(text) {
        return None;
    }
    Some(text)
}

/// Whether one of the words is that of an object variable.
#[tactic(auto, using(crate::proofs::Scans::some_items))]
fn has_object(text: &[&[u8]]) -> bool
    ensures { result ≡ list_any is_object (words text.now) }
{
    for word in text {
        if is_object(word) {
            return true;
        }
    }
    false
}

/// The parts of a pattern that says that one reaches the other.
fn reached(pattern: &MPat) -> Option<(&MPat, &MPat)>
    ensures { MatchOption result ((a b : Pattern) → pattern.now ≢ imp a (ev b))
        (λ r. pattern.now ≡ imp r.0.now (ev r.1.now)) }
{
    let MForm::Imp(from, end) = pattern.form() else {
        return None;
    };
    match end.form() {
        MForm::Ev(to) => Some((from, to)),
        _ => None,
    }
}
