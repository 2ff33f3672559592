// Conditions that follow from a body, with terms in place of their variables.
ghost use Rattle.std.specs.Prelude.{◌≡◌, ◌≤◌, ◌^◌, ◌∷◌, ℕ, false, List, Option, IfOk, [], Some};
ghost use Rattle.std.specs.Prelude.{length};
ghost use Rattle.ml_pat.specs.Patterns.{Pattern, bot, not, var};
ghost use Rattle.ml_pat.specs.Judgements.{IsFresh, substituted};
ghost use Rattle.ml_derived.specs.Scopes.{StaysWithin};
ghost use Rattle.term_core.specs.Patterns.{Pattern as RulePattern, binding};
ghost use Rattle.term_core.specs.Terms.{Tree};
ghost use Rattle.prove_term.specs.Contexts.{Context};
ghost use Rattle.refute_body.specs.Conditions.{AreReplaceable, CanFill, CanReplace, IsFilled};
ghost use Rattle.refute_body.specs.Conditions.{IsReplaced};
ghost use Rattle.refute_body.specs.Implications.{IsUnderTwo};

use crate::equations::{conclusion, first_of, others_of};
use crate::parts::{conjuncts, equals, is_conjunction, sides};
use ml_derived::{eq_el, from_not, then, under_two};
use ml_kernel::Thm;
use ml_pat::{MForm, MPat, VarNo, fresh, subst};
use std::alloc::{AllocError, Global};
use term_core::Subst;

/// Whether one of the variables that are bound is free in the condition.
pub fn concerns(condition: &MPat, theta: &Subst) -> bool
    requires { length theta.now ≤ 2 ^ 32 }
    ensures { result ≡ false → (x : ℕ) (t : Tree) → binding theta.now x ≡ Some t
        → IsFresh x condition.now }
{
    for x in 0..theta.vars() {
        if theta.get(x as u32).is_some() && !fresh(VarNo(x as u32), condition) {
            return true;
        }
    }
    false
}

/// `g -> b -> bot`, from `g -> b -> c` and `~c`. `AllocError`: out of memory.
pub fn denied_by(alloc: Global, present: &Thm, denial: &Thm) -> Result<Thm, AllocError>
    requires { (g b c : Pattern) × IsUnderTwo g b c present.now.conclusion
        × (denial.now.conclusion ≡ not c) }
    ensures conclusion { IfOk result (λ t. (g b c : Pattern)
        → IsUnderTwo g b c present.now.conclusion → denial.now.conclusion ≡ not c
        → IsUnderTwo g b bot t.conclusion) }
    ensures stays { IfOk result (StaysWithin [] (present.now ∷ denial.now ∷ [])) }
{
    let (g, rest) = sides(present.conclusion());
    let (b, c) = sides(rest);
    let none = from_not(alloc, denial, c)?;
    then(alloc, present, &none, g, b, c, &MPat::bot(alloc)?)
}

/// Puts terms in place of variables in a condition. `equations` proves that each variable equals its
/// term, and `start` proves the condition. `AllocError`: out of memory.
pub fn filled(alloc: Global, equations: Thm, start: Thm) -> Result<Thm, AllocError>
    requires { (cx : Context) × (g b : Pattern) × (xs : List ℕ) × (theta : List (Option Tree))
        × (q : RulePattern) × (s : ℕ) × CanFill cx g b xs theta q s equations start }
    ensures { IfOk result (λ t. (cx : Context) (g b : Pattern) (xs : List ℕ)
        (theta : List (Option Tree)) (q : RulePattern) (s : ℕ)
        → CanFill cx g b xs theta q s equations start → IsFilled cx g b xs theta q s t) }
{
    let mut left = equations;
    let mut present = start;
    while is_conjunction(conclusion(&left)) {
        present = one_filled(alloc, &left, present)?;
        left = others_of(alloc, &left)?;
    }
    Ok(present)
}

// The same for the first of the equations.
fn one_filled(alloc: Global, equations: &Thm, present: Thm) -> Result<Thm, AllocError>
    requires { AreReplaceable equations.now.conclusion present.conclusion }
    ensures conclusion { IfOk result
        (λ t. IsReplaced equations.now.conclusion present.conclusion t.conclusion) }
    ensures stays { IfOk result (StaysWithin [] (equations.now ∷ present ∷ [])) }
{
    let (first, _) = conjuncts(conclusion(equations));
    let (left, term) = equals(first);
    let x = variable(left);
    if fresh(x, conclusion(&present)) {
        return Ok(present);
    }
    let equation = first_of(alloc, equations)?;
    replaced(alloc, &equation, &present, x, term)
}

// The variable that the pattern is.
fn variable(p: &MPat) -> VarNo
    requires { (x : ℕ) × (p.now ≡ var x) }
    ensures { p.now ≡ var result.0 }
{
    match p.form() {
        MForm::Var(x) => *x,
        _ => unreachable!(),
    }
}

// `g -> b -> d`, from `g -> b -> x = t` and `g -> b -> c`, where d is c with t in place of x.
fn replaced(
    alloc: Global,
    equation: &Thm,
    present: &Thm,
    x: VarNo,
    term: &MPat,
) -> Result<Thm, AllocError>
    requires { CanReplace x.0 term.now equation.now.conclusion present.now.conclusion }
    ensures conclusion { IfOk result (λ t. (g b c d : Pattern)
        → IsUnderTwo g b c present.now.conclusion → substituted c x.0 term.now ≡ Some d
        → IsUnderTwo g b d t.conclusion) }
    ensures stays { IfOk result (StaysWithin [] (equation.now ∷ present.now ∷ [])) }
{
    let (g, rest) = sides(present.conclusion());
    let (b, c) = sides(rest);
    let Some(made) = subst(alloc, c, x, term)? else {
        unreachable!()
    };
    let variable = MPat::var(alloc, x)?;
    let rule = eq_el(alloc, &variable, term, c, c, &made, x)?;
    let (same, moved) = sides(rule.conclusion());
    let step = then(alloc, equation, &rule, g, b, same, moved)?;
    under_two(alloc, present, &step, g, b, c, &made)
}
