// The parts of a pattern, if it has a certain form.
ghost use Rattle.std.specs.Prelude.{◌≡◌, ◌≢◌, ℕ, MatchOption};
ghost use Rattle.ml_pat.specs.Patterns.{Pattern, fun, equal, not, imp, all, app};
ghost use Rattle.ml_pat.specs.Patterns.{at_sort, var, constant};

use ml_pat::{ConstNo, MForm, MPat, MSort, VarNo};

// The pattern that is one element of a sort, and the sort.
pub(crate) fn as_fun(pattern: &MPat) -> Option<(&MPat, MSort)>
    ensures { MatchOption result ((p : Pattern) (s : ℕ) → pattern.now ≢ fun p s)
        (λ r. pattern.now ≡ fun r.0.now r.1.0) }
{
    match pattern.form() {
        MForm::Fun(of, sort) => Some((of, *sort)),
        _ => None,
    }
}

// The two patterns that are equal.
pub(crate) fn as_equal(pattern: &MPat) -> Option<(&MPat, &MPat)>
    ensures { MatchOption result ((p q : Pattern) → pattern.now ≢ equal p q)
        (λ r. pattern.now ≡ equal r.0.now r.1.now) }
{
    match pattern.form() {
        MForm::Equal(left, right) => Some((left, right)),
        _ => None,
    }
}

// The pattern that is negated.
pub(crate) fn as_not(pattern: &MPat) -> Option<&MPat>
    ensures { MatchOption result ((p : Pattern) → pattern.now ≢ not p)
        (λ r. pattern.now ≡ not r.now) }
{
    match pattern.form() {
        MForm::Not(of) => Some(of),
        _ => None,
    }
}

// The variable and the sort of a universal quantifier, and its body.
pub(crate) fn as_all(pattern: &MPat) -> Option<(VarNo, MSort, &MPat)>
    ensures { MatchOption result ((x s : ℕ) (p : Pattern) → pattern.now ≢ all x s p)
        (λ r. pattern.now ≡ all r.0.0 r.1.0 r.2.now) }
{
    match pattern.form() {
        MForm::All(x, sort, body) => Some((*x, *sort, body)),
        _ => None,
    }
}

// What is applied, and to what.
pub(crate) fn as_app(pattern: &MPat) -> Option<(&MPat, &MPat)>
    ensures { MatchOption result ((p q : Pattern) → pattern.now ≢ app p q)
        (λ r. pattern.now ≡ app r.0.now r.1.now) }
{
    match pattern.form() {
        MForm::App(head, arg) => Some((head, arg)),
        _ => None,
    }
}

// What is applied to a sort, and the sort.
pub(crate) fn as_at(pattern: &MPat) -> Option<(&MPat, MSort)>
    ensures { MatchOption result ((p : Pattern) (s : ℕ) → pattern.now ≢ at_sort p s)
        (λ r. pattern.now ≡ at_sort r.0.now r.1.0) }
{
    match pattern.form() {
        MForm::At(head, sort) => Some((head, *sort)),
        _ => None,
    }
}

// The number of a variable.
pub(crate) fn as_var(pattern: &MPat) -> Option<VarNo>
    ensures { MatchOption result ((x : ℕ) → pattern.now ≢ var x) (λ x. pattern.now ≡ var x.0) }
{
    match pattern.form() {
        MForm::Var(x) => Some(*x),
        _ => None,
    }
}

// The number of a constant.
pub(crate) fn as_constant(pattern: &MPat) -> Option<ConstNo>
    ensures { MatchOption result ((c : ℕ) → pattern.now ≢ constant c)
        (λ c. pattern.now ≡ constant c.0) }
{
    match pattern.form() {
        MForm::Const(number) => Some(*number),
        _ => None,
    }
}

// What is given, and what it implies.
pub(crate) fn as_imp(pattern: &MPat) -> Option<(&MPat, &MPat)>
    ensures { MatchOption result ((p q : Pattern) → pattern.now ≢ imp p q)
        (λ r. pattern.now ≡ imp r.0.now r.1.now) }
{
    match pattern.form() {
        MForm::Imp(given, implied) => Some((given, implied)),
        _ => None,
    }
}
