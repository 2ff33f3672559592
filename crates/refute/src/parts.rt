// The parts of theorems' conclusions.
ghost use Rattle.std.specs.Prelude.{◌≡◌, ℕ};
ghost use Rattle.ml_pat.specs.Patterns.{Pattern, imp, and, equal, not, fun};

use ml_derived::Element;
use ml_kernel::Thm;
use ml_pat::{MForm, MPat, MSort};

// The two sides of an implication.
pub(crate) fn sides(p: &MPat) -> (&MPat, &MPat)
    requires { (q r : Pattern) × (p.now ≡ imp q r) }
    ensures { p.now ≡ imp result.0.now result.1.now }
{
    match p.form() {
        MForm::Imp(left, right) => (left, right),
        _ => unreachable!(),
    }
}

// The two parts of a conjunction.
pub(crate) fn conjuncts(p: &MPat) -> (&MPat, &MPat)
    requires { (q r : Pattern) × (p.now ≡ and q r) }
    ensures { p.now ≡ and result.0.now result.1.now }
{
    match p.form() {
        MForm::And(left, right) => (left, right),
        _ => unreachable!(),
    }
}

// The two sides of an equality.
pub(crate) fn equals(p: &MPat) -> (&MPat, &MPat)
    requires { (q r : Pattern) × (p.now ≡ equal q r) }
    ensures { p.now ≡ equal result.0.now result.1.now }
{
    match p.form() {
        MForm::Equal(left, right) => (left, right),
        _ => unreachable!(),
    }
}

// What is denied.
pub(crate) fn denied(p: &MPat) -> &MPat
    requires { (q : Pattern) × (p.now ≡ not q) }
    ensures { p.now ≡ not result.now }
{
    match p.form() {
        MForm::Not(below) => below,
        _ => unreachable!(),
    }
}

// What is one element of a sort, and the sort.
fn functional(p: &MPat) -> (&MPat, MSort)
    requires { (q : Pattern) × (s : ℕ) × (p.now ≡ fun q s) }
    ensures { p.now ≡ fun result.0.now result.1.0 }
{
    match p.form() {
        MForm::Fun(below, sort) => (below, *sort),
        _ => unreachable!(),
    }
}

// The element of a sort that the theorem is about, under the hypothesis h.
pub(crate) fn element_of<'a>(fact: &'a Thm, h: &MPat) -> Element<'a>
    requires { (q : Pattern) × (s : ℕ) × (fact.now.conclusion ≡ imp h.now (fun q s)) }
    ensures says { fact.now.conclusion ≡ imp h.now (fun result.pattern.now result.sort.0) }
    ensures fact { result.fact.now ≡ fact.now }
{
    let (_, made) = sides(fact.conclusion());
    let (pattern, sort) = functional(made);
    Element {
        pattern,
        sort,
        fact,
    }
}
