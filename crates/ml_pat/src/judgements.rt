// The tests of freshness and of being a predicate.
ghost use Rattle.std.specs.Prelude.{◌≡◌};
ghost use Rattle.ml_pat.specs.Judgements.{fresh, predicate};
ghost use Rattle.ml_pat.specs.Judging.{JudgesFresh, JudgesPredicate, IsPartWhere, IsPartUnless};
ghost use Rattle.ml_pat.specs.PatternView.{pattern_of};

use crate::numbers::VarNo;
use crate::patterns::{MForm, MPat};

// What is known about a form.
#[derive(Clone, Copy)]
pub(crate) enum Judgement<'a> {
    // The answer for the form.
    Known(bool),
    // The answer is the same as for this part.
    AsPart(&'a MPat),
}

/// Whether x is not free in the pattern. It allocates no memory. It loops along first parts, and
/// along the second part of a disjunction, because patterns are deep there, and recurses into other
/// parts.
#[cycle(fresh)]
pub fn fresh(x: VarNo, pat: &MPat) -> bool
    ensures { result ≡ fresh x.0 pat.now }
{
    let mut part = pat;
    loop {
        match fresh_by_form(x, part.form()) {
            Judgement::Known(answer) => return answer,
            Judgement::AsPart(next) => part = next,
        }
    }
}

// Decides by every part except the one that is deep.
#[cycle(fresh)]
fn fresh_by_form<'a>(x: VarNo, form: &'a MForm) -> Judgement<'a>
    ensures { JudgesFresh x.0 (pattern_of form.now) result }
{
    match form {
        MForm::Bot | MForm::Top | MForm::Meta(_) | MForm::Const(_) => Judgement::Known(true),
        MForm::Var(y) => Judgement::Known(x != *y),
        MForm::Imp(p, q)
        | MForm::And(p, q)
        | MForm::Equal(p, q)
        | MForm::Member(p, q)
        | MForm::App(p, q) => as_part_where(fresh(x, q), p),
        MForm::Or(p, q) => as_part_where(fresh(x, p), q),
        MForm::Not(p) | MForm::Fun(p, _) | MForm::At(p, _) | MForm::Next(p) | MForm::Ev(p) =>
            Judgement::AsPart(p),
        MForm::Ex(y, _, p) | MForm::All(y, _, p) => as_part_unless(x == *y, p),
    }
}

/// Whether the form of the pattern makes it everything or nothing. It allocates no memory. It loops
/// along first parts, and along the second part of a disjunction, and recurses into other parts.
#[cycle(is_pred)]
pub fn is_pred(pat: &MPat) -> bool
    ensures { result ≡ predicate pat.now }
{
    let mut part = pat;
    loop {
        match predicate_by_form(part.form()) {
            Judgement::Known(answer) => return answer,
            Judgement::AsPart(next) => part = next,
        }
    }
}

// Decides by every part except the one that is deep.
#[cycle(is_pred)]
fn predicate_by_form<'a>(form: &'a MForm) -> Judgement<'a>
    ensures { JudgesPredicate (pattern_of form.now) result }
{
    match form {
        MForm::Bot | MForm::Top | MForm::Equal(_, _) | MForm::Member(_, _) | MForm::Fun(_, _) =>
            Judgement::Known(true),
        MForm::App(_, _)
        | MForm::At(_, _)
        | MForm::Next(_)
        | MForm::Ev(_)
        | MForm::Var(_)
        | MForm::Meta(_)
        | MForm::Const(_) => Judgement::Known(false),
        MForm::Imp(p, q) | MForm::And(p, q) => as_part_where(is_pred(q), p),
        MForm::Or(p, q) => as_part_where(is_pred(p), q),
        MForm::Not(p) | MForm::Ex(_, _, p) | MForm::All(_, _, p) => Judgement::AsPart(p),
    }
}

// If `other` holds, the answer is that of the part. Otherwise it is no.
fn as_part_where(other: bool, p: &MPat) -> Judgement<'_>
    ensures { IsPartWhere other p.now result }
{
    if other {
        Judgement::AsPart(p)
    } else {
        Judgement::Known(false)
    }
}

// If `known` holds, the answer is yes. Otherwise it is that of the part.
fn as_part_unless(known: bool, p: &MPat) -> Judgement<'_>
    ensures { IsPartUnless known p.now result }
{
    if known {
        Judgement::Known(true)
    } else {
        Judgement::AsPart(p)
    }
}
