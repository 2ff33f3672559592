// The comparison of patterns.
ghost use Rattle.std.specs.Prelude.{◌≡◌, ◌↔◌, IsTrue};
ghost use Rattle.ml_pat.specs.PatternView.{pattern_of};
ghost use Rattle.ml_pat.specs.Comparing.{Compares, ByParts};

use crate::patterns::{MForm, MPat};

// The result of the comparison of two forms.
#[derive(Clone, Copy)]
pub(crate) enum Comparison<'a> {
    // Whether they are the same.
    Known(bool),
    // They are the same if and only if these two parts are.
    AsParts(&'a MPat, &'a MPat),
}

impl MPat {
    /// Whether both are the same pattern, with the same variables at the same places. It loops
    /// along first parts, and along the second part of a disjunction, because patterns are deep
    /// there, and recurses into other parts. It costs at most the size of the smaller one.
    #[cycle(same)]
    pub fn same(&self, other: &MPat) -> bool
        ensures { IsTrue result ↔ (self.now ≡ other.now) }
    {
        let mut p = self;
        let mut q = other;
        loop {
            match compared(p.form(), q.form()) {
                Comparison::Known(same) => return same,
                Comparison::AsParts(part, other_part) => {
                    p = part;
                    q = other_part;
                }
            }
        }
    }
}

// Compares every part except the one that is deep.
#[cycle(same)]
fn compared<'a>(form: &'a MForm, other: &'a MForm) -> Comparison<'a>
    ensures { Compares (pattern_of form.now) (pattern_of other.now) result }
{
    match (form, other) {
        (MForm::Bot, MForm::Bot) | (MForm::Top, MForm::Top) => Comparison::Known(true),
        (MForm::Imp(p, q), MForm::Imp(r, t))
        | (MForm::And(p, q), MForm::And(r, t))
        | (MForm::Equal(p, q), MForm::Equal(r, t))
        | (MForm::Member(p, q), MForm::Member(r, t))
        | (MForm::App(p, q), MForm::App(r, t)) => as_parts(q.same(t), p, r),
        (MForm::Or(p, q), MForm::Or(r, t)) => as_parts(p.same(r), q, t),
        (MForm::Not(p), MForm::Not(r))
        | (MForm::Next(p), MForm::Next(r))
        | (MForm::Ev(p), MForm::Ev(r)) => Comparison::AsParts(p, r),
        (MForm::Fun(p, s), MForm::Fun(r, v)) | (MForm::At(p, s), MForm::At(r, v)) => as_parts(
            s == v,
            p,
            r,
        ),
        (MForm::Ex(x, s, p), MForm::Ex(y, v, r)) | (MForm::All(x, s, p), MForm::All(y, v, r)) =>
            as_parts(x == y && s == v, p, r),
        (MForm::Var(x), MForm::Var(y)) => Comparison::Known(x == y),
        (MForm::Meta(i), MForm::Meta(j)) => Comparison::Known(i == j),
        (MForm::Const(c), MForm::Const(d)) => Comparison::Known(c == d),
        _ => Comparison::Known(false),
    }
}

// If the other parts are the same, these decide.
fn as_parts<'a>(others: bool, p: &'a MPat, q: &'a MPat) -> Comparison<'a>
    ensures { ByParts others p.now q.now result }
{
    if others {
        Comparison::AsParts(p, q)
    } else {
        Comparison::Known(false)
    }
}
