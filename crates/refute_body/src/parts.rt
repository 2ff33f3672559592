// The parts of theorems' conclusions.
ghost use Rattle.std.specs.Prelude.{◌≡◌, ℕ};
ghost use Rattle.ml_pat.specs.Patterns.{Pattern, imp, and, equal, not, fun};
ghost use Rattle.refute_body.specs.Implications.{is_conjunction};

use ml_pat::{MForm, MPat, MSort};

/// The two sides of an implication.
pub fn sides(p: &MPat) -> (&MPat, &MPat)
    requires { (q r : Pattern) × (p.now ≡ imp q r) }
    ensures { p.now ≡ imp result.0.now result.1.now }
{
    match p.form() {
        MForm::Imp(left, right) => (left, right),
        _ => unreachable!(),
    }
}

/// The two parts of a conjunction.
pub fn conjuncts(p: &MPat) -> (&MPat, &MPat)
    requires { (q r : Pattern) × (p.now ≡ and q r) }
    ensures { p.now ≡ and result.0.now result.1.now }
{
    match p.form() {
        MForm::And(left, right) => (left, right),
        _ => unreachable!(),
    }
}

// Whether the pattern is a conjunction.
pub(crate) fn is_conjunction(p: &MPat) -> bool
    ensures { result ≡ is_conjunction p.now }
{
    match p.form() {
        MForm::And(..) => true,
        _ => false,
    }
}

/// The two sides of an equality.
pub fn equals(p: &MPat) -> (&MPat, &MPat)
    requires { (q r : Pattern) × (p.now ≡ equal q r) }
    ensures { p.now ≡ equal result.0.now result.1.now }
{
    match p.form() {
        MForm::Equal(left, right) => (left, right),
        _ => unreachable!(),
    }
}

/// What is denied.
pub fn denied(p: &MPat) -> &MPat
    requires { (q : Pattern) × (p.now ≡ not q) }
    ensures { p.now ≡ not result.now }
{
    match p.form() {
        MForm::Not(below) => below,
        _ => unreachable!(),
    }
}

// What is one element of a sort, and the sort.
pub(crate) fn element(p: &MPat) -> (&MPat, MSort)
    requires { (q : Pattern) × (s : ℕ) × (p.now ≡ fun q s) }
    ensures { p.now ≡ fun result.0.now result.1.0 }
{
    match p.form() {
        MForm::Fun(below, sort) => (below, *sort),
        _ => unreachable!(),
    }
}
