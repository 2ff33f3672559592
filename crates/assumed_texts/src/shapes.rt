// Where the images of axioms have what they are about.
ghost use Rattle.std.specs.Prelude.{◌≡◌, ◌<◌, ◌+◌, option_map};
ghost use Rattle.ml_pat.specs.FormsIn.{forms_in};
ghost use Rattle.ml_pat.specs.PatternView.{pattern_of};
ghost use Rattle.assumed_texts.specs.Shapes.{beside, first_constant, right_side, three_sorts};
ghost use Rattle.assumed_texts.specs.Shapes.{two_sorts};

use ml_pat::{ConstNo, MForm, MPat, MSort};

// The sorts of a universal quantifier and of an existential one below it.
pub(crate) fn two_sorts(pat: &MPat) -> Option<(MSort, MSort)>
    ensures { option_map (λ r. (r.0.0, r.1.0)) result ≡ two_sorts pat.now }
{
    let MForm::All(_, a, body) = pat.form() else {
        return None;
    };
    match body.form() {
        MForm::Ex(_, b, _) => Some((*a, *b)),
        _ => None,
    }
}

// The sort of a universal quantifier, and those to which the left side of an equality below it is
// applied.
pub(crate) fn three_sorts(pat: &MPat) -> Option<(MSort, MSort, MSort)>
    ensures { option_map (λ r. (r.0.0, (r.1.0, r.2.0))) result ≡ three_sorts pat.now }
{
    let MForm::All(_, a, body) = pat.form() else {
        return None;
    };
    let MForm::Equal(left, _) = body.form() else {
        return None;
    };
    let MForm::App(head, _) = left.form() else {
        return None;
    };
    let MForm::At(inner, c) = head.form() else {
        return None;
    };
    match inner.form() {
        MForm::At(_, b) => Some((*a, *b, *c)),
        _ => None,
    }
}

// The constant that is applied first, below quantifiers and other connectives, and on the right of
// a variable.
pub(crate) fn first_constant(pat: &MPat) -> Option<ConstNo>
    ensures { option_map (λ c. c.0) result ≡ first_constant pat.now }
{
    let mut at = pat;
    loop {
        match at.form() {
            MForm::Const(c) => return Some(*c),
            MForm::Bot | MForm::Top | MForm::Var(_) | MForm::Meta(_) => return None,
            MForm::Imp(p, q)
            | MForm::And(p, q)
            | MForm::Or(p, q)
            | MForm::Equal(p, q)
            | MForm::Member(p, q)
            | MForm::App(p, q) => at = beside(p, q),
            MForm::Not(p)
            | MForm::Next(p)
            | MForm::Ev(p)
            | MForm::Fun(p, _)
            | MForm::At(p, _)
            | MForm::Ex(_, _, p)
            | MForm::All(_, _, p) => at = p,
        }
    }
}

// The second part, if the first is a variable, and otherwise the first.
fn beside<'p>(p: &'p MPat, q: &'p MPat) -> &'p MPat
    ensures constant { first_constant result.now
        ≡ beside p.now (first_constant p.now) (first_constant q.now) }
    ensures smaller { forms_in result.now < forms_in p.now + forms_in q.now + 1 }
{
    match p.form() {
        MForm::Var(_) => q,
        _ => p,
    }
}

// The second part of the connective on two patterns, below quantifiers and connectives on one.
pub(crate) fn right_side(pat: &MPat) -> &MPat
    ensures { result.now ≡ right_side pat.now }
{
    let mut at = pat;
    loop {
        match at.form() {
            MForm::Imp(_, q)
            | MForm::And(_, q)
            | MForm::Or(_, q)
            | MForm::Equal(_, q)
            | MForm::Member(_, q)
            | MForm::App(_, q) => return q,
            MForm::Not(p)
            | MForm::Next(p)
            | MForm::Ev(p)
            | MForm::Ex(_, _, p)
            | MForm::All(_, _, p) => at = p,
            MForm::Bot
            | MForm::Top
            | MForm::Fun(_, _)
            | MForm::At(_, _)
            | MForm::Var(_)
            | MForm::Meta(_)
            | MForm::Const(_) => return at,
        }
    }
}
