// Small rules of implication.
ghost use Rattle.std.specs.Prelude.{◌≡◌, [], ◌∷◌, IfOk};
ghost use Rattle.ml_pat.specs.Patterns.{top, imp, and};
ghost use Rattle.ml_derived.specs.Implications.{AreLinked, HasTopCondition, IsChain, IsFreed};
ghost use Rattle.ml_derived.specs.Implications.{HasCondition, IsFreedOf};
ghost use Rattle.ml_derived.specs.Parts.{IsConjunction, IsImplication};
ghost use Rattle.ml_derived.specs.Scopes.{StaysWithin};

use crate::rules::{and_3, mp, p_1, p_2, top};
use ml_kernel::Thm;
use ml_pat::{MForm, MPat};
use std::alloc::{AllocError, Global};

/// `p -> r`, from `p -> q` and `q -> r`. An error: out of memory.
pub fn chain(alloc: Global, ab: &Thm, bc: &Thm) -> Result<Thm, AllocError>
    requires { AreLinked ab.now.conclusion bc.now.conclusion }
    ensures conclusion { IfOk result
        (λ t. IsChain ab.now.conclusion bc.now.conclusion t.conclusion) }
    ensures stays { IfOk result (StaysWithin [] (ab.now ∷ bc.now ∷ [])) }
{
    let (p, q) = sides(ab.conclusion());
    let (_, r) = sides(bc.conclusion());
    chained(alloc, ab, bc, p, q, r)
}

/// `p & q`, from p and q. An error: out of memory.
pub fn both(alloc: Global, a: &Thm, b: &Thm) -> Result<Thm, AllocError>
    ensures conclusion { IfOk result (λ t. t.conclusion ≡ and a.now.conclusion b.now.conclusion) }
    ensures stays { IfOk result (StaysWithin [] (a.now ∷ b.now ∷ [])) }
{
    let p = a.conclusion();
    let q = b.conclusion();
    let joining = and_3(alloc, p, q)?;
    let joined = MPat::and(alloc, p, q)?;
    let wanting = MPat::imp(alloc, q, &joined)?;
    let open = mp(alloc, a, &joining, p, &wanting)?;
    mp(alloc, b, &open, q, &joined)
}

// `p -> r`, from `p -> q` and `q -> r`.
pub(crate) fn chained(
    alloc: Global,
    ab: &Thm,
    bc: &Thm,
    p: &MPat,
    q: &MPat,
    r: &MPat,
) -> Result<Thm, AllocError>
    requires ab { ab.now.conclusion ≡ imp p.now q.now }
    requires bc { bc.now.conclusion ≡ imp q.now r.now }
    ensures conclusion { IfOk result (λ t. t.conclusion ≡ imp p.now r.now) }
    ensures stays { IfOk result (StaysWithin [] (ab.now ∷ bc.now ∷ [])) }
{
    let lifted = lift(alloc, p, bc)?;
    under(alloc, ab, &lifted, p, q, r)
}

/// `h -> q`, from q. An error: out of memory.
pub fn lift(alloc: Global, h: &MPat, a: &Thm) -> Result<Thm, AllocError>
    ensures conclusion { IfOk result (λ t. t.conclusion ≡ imp h.now a.now.conclusion) }
    ensures stays { IfOk result (StaysWithin (h.now ∷ []) (a.now ∷ [])) }
{
    let q = a.conclusion();
    let weaken = p_1(alloc, q, h)?;
    let weaker = MPat::imp(alloc, h, q)?;
    mp(alloc, a, &weaken, q, &weaker)
}

/// `h -> q`, from `h -> p` and `h -> p -> q`. An error: out of memory.
pub fn under(
    alloc: Global,
    a: &Thm,
    b: &Thm,
    h: &MPat,
    p: &MPat,
    q: &MPat,
) -> Result<Thm, AllocError>
    requires a { a.now.conclusion ≡ imp h.now p.now }
    requires b { b.now.conclusion ≡ imp h.now (imp p.now q.now) }
    ensures conclusion { IfOk result (λ t. t.conclusion ≡ imp h.now q.now) }
    ensures stays { IfOk result (StaysWithin [] (a.now ∷ b.now ∷ [])) }
{
    let left = MPat::imp(alloc, h, p)?;
    let right = MPat::imp(alloc, h, q)?;
    let both = distributed(alloc, b, h, p, q, &left, &right)?;
    mp(alloc, a, &both, &left, &right)
}

// `(h -> p) -> h -> q`, from `h -> p -> q`. `left` and `right` are the sides of the result.
pub(crate) fn distributed(
    alloc: Global,
    b: &Thm,
    h: &MPat,
    p: &MPat,
    q: &MPat,
    left: &MPat,
    right: &MPat,
) -> Result<Thm, AllocError>
    requires b { b.now.conclusion ≡ imp h.now (imp p.now q.now) }
    requires left { left.now ≡ imp h.now p.now }
    requires right { right.now ≡ imp h.now q.now }
    ensures conclusion { IfOk result (λ t. t.conclusion ≡ imp left.now right.now) }
    ensures stays { IfOk result (StaysWithin [] (b.now ∷ [])) }
{
    let rule = p_2(alloc, h, p, q)?;
    let sides = MPat::imp(alloc, left, right)?;
    mp(alloc, b, &rule, b.conclusion(), &sides)
}

/// `p -> q`, from `p & top -> q`. The condition `top` always holds, so it is removed. An error: out
/// of memory.
pub fn free_of_top(alloc: Global, rule: &Thm) -> Result<Thm, AllocError>
    requires { HasTopCondition rule.now.conclusion }
    ensures conclusion { IfOk result (λ t. IsFreed rule.now.conclusion t.conclusion) }
    ensures stays { IfOk result (StaysWithin [] (rule.now ∷ [])) }
{
    let holds = top(alloc)?;
    free_of_condition(alloc, rule, &holds)
}

/// `p -> q`, from `p & c -> q` and c. The condition c holds, so it is removed. An error: out of
/// memory.
pub fn free_of_condition(alloc: Global, rule: &Thm, condition: &Thm) -> Result<Thm, AllocError>
    requires { HasCondition condition.now.conclusion rule.now.conclusion }
    ensures conclusion { IfOk result
        (λ t. IsFreedOf condition.now.conclusion rule.now.conclusion t.conclusion) }
    ensures stays { IfOk result (StaysWithin [] (rule.now ∷ condition.now ∷ [])) }
{
    let (from, q) = sides(rule.conclusion());
    let (p, _) = conjuncts(from);
    let with_condition = add_condition(alloc, p, from, condition)?;
    chained(alloc, &with_condition, rule, p, from, q)
}

// `p -> p & c`, from c. `both` is `p & c`.
fn add_condition(alloc: Global, p: &MPat, both: &MPat, condition: &Thm) -> Result<Thm, AllocError>
    requires { both.now ≡ and p.now condition.now.conclusion }
    ensures conclusion { IfOk result (λ t. t.conclusion ≡ imp p.now both.now) }
    ensures stays { IfOk result (StaysWithin (p.now ∷ []) (condition.now ∷ [])) }
{
    let c = condition.conclusion();
    let lifted = lift(alloc, p, condition)?;
    let joining = and_3(alloc, p, c)?;
    under(alloc, &lifted, &joining, p, c, both)
}

// The two parts of a conjunction.
fn conjuncts(p: &MPat) -> (&MPat, &MPat)
    requires { IsConjunction p.now }
    ensures { p.now ≡ and result.0.now result.1.now }
{
    match p.form() {
        MForm::And(left, right) => (left, right),
        _ => unreachable!(),
    }
}

// The two sides of an implication.
pub(crate) fn sides(p: &MPat) -> (&MPat, &MPat)
    requires { IsImplication p.now }
    ensures { p.now ≡ imp result.0.now result.1.now }
{
    match p.form() {
        MForm::Imp(left, right) => (left, right),
        _ => unreachable!(),
    }
}
