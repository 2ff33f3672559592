// The equations of an argument's variables, and a guard of whose variables one would have to be two
// different terms.
ghost use Rattle.std.specs.Prelude.{◌≡◌, ◌∷◌, IfOk, Some, [], slice_get};
ghost use Rattle.ml_pat.specs.Patterns.{Pattern, bot, var};
ghost use Rattle.ml_derived.specs.Scopes.{StaysWithin};
ghost use Rattle.term_core.specs.Patterns.{binding};
ghost use Rattle.term_core.specs.RulePatterns.{sort_numbers};
ghost use Rattle.term_core.specs.Terms.{Tree};
ghost use Rattle.ml_image.specs.Sentences.{Sentence, bottom};
ghost use Rattle.prove_term.specs.Contexts.{HasGrown};
ghost use Rattle.refute.specs.Refutations.{all_bound, is_bound_to};
ghost use Rattle.guard_body.specs.Arguments.{AreTwoFor, MatchesArgument};
ghost use Rattle.refute_guard.specs.Bodies.{AreTwoEquations, variables_of};
ghost use Rattle.refute_body.specs.Implications.{IsUnderTwo};
ghost use Rattle.refute_guard.specs.Repeated.{IsOfBody};
ghost use Rattle.guard_body.specs.Guarded.{IsGuarded};
ghost use Rattle.guard_body.specs.declared.arguments.Argument.{Argument};

use crate::members::{inverted_at, member_at};
use guard_body::{Guarded, Twice};
use ml_derived::{denied_by_two, not_both, not_to_bot};
use ml_kernel::Thm;
use ml_pat::VarNo;
use prove_term::Cx;
use refute::{differ, inversion_named};
use refute_body::{conclusion, conjuncts, equals, equation_of, sides, weaker};
use std::alloc::{AllocError, Global};
use term_core::Subst;

// Proves that if the body of the guard holds, each variable of the argument at this place equals its
// binding. The argument matches its term by the substitution.
pub(crate) fn inverted(
    alloc: Global,
    cx: &mut Cx<'_>,
    guard: &Guarded<'_>,
    place: usize,
    subst: &Subst,
) -> Result<Thm, AllocError>
    requires guard { (c : Sentence) × IsGuarded cx.old c guard.now }
    requires matches { (a : Argument) × (slice_get guard.now.arguments.items place ≡ Some a)
        × MatchesArgument cx.old.program.sig (sort_numbers guard.now.sorts.items) a subst.now }
    ensures says { IfOk result (λ t. (a : Argument)
        → slice_get guard.now.arguments.items place ≡ Some a
        → IsOfBody cx.new guard.now (all_bound subst.now (variables_of a)) t) }
    ensures grown { HasGrown cx.old cx.new }
{
    let argument = &guard.arguments[place];
    let rule = inversion_named(
        alloc,
        cx,
        &guard.sorts,
        &argument.pat,
        &argument.named,
        subst,
        argument.term,
    )?;
    let (premise, _) = sides(rule.conclusion());
    let (h, _) = conjuncts(premise);
    let weaker = weaker(alloc, cx, &guard.sorts, &guard.given, h)?;
    let inside = member_at(alloc, &guard.body, place)?;
    inverted_at(alloc, &guard.given.hypothesis, &rule, &weaker, &inside)
}

// Proves that the body of the guard does not hold, as two arguments would bind one variable to
// different terms.
pub(crate) fn by_bindings(
    alloc: Global,
    cx: &mut Cx<'_>,
    guard: &Guarded<'_>,
    twice: Twice,
    theta: &Subst,
    sigma: &Subst,
) -> Result<Thm, AllocError>
    requires guard { (c : Sentence) × IsGuarded cx.old c guard.now }
    requires first { (a : Argument) × (slice_get guard.now.arguments.items twice.first ≡ Some a)
        × MatchesArgument cx.old.program.sig (sort_numbers guard.now.sorts.items) a theta.now }
    requires second { (a : Argument) × (slice_get guard.now.arguments.items twice.second ≡ Some a)
        × MatchesArgument cx.old.program.sig (sort_numbers guard.now.sorts.items) a sigma.now }
    requires two { AreTwoFor twice.variable theta.now sigma.now }
    ensures says { IfOk result (IsOfBody cx.new guard.now bottom) }
    ensures grown { HasGrown cx.old cx.new }
{
    let x = twice.variable;
    let (Some(t), Some(u)) = (theta.get(x), sigma.get(x)) else {
        unreachable!()
    };
    let one = equation_at(alloc, cx, guard, twice.first, theta, x)?;
    let other = equation_at(alloc, cx, guard, twice.second, sigma, x)?;
    let differ = differ(alloc, cx, t, u)?;
    not_two(alloc, &one, &other, &differ, VarNo(x))
}

// Proves that if the body of the guard holds, the variable x equals its binding. The argument at this
// place matches its term by the substitution, which binds x.
fn equation_at(
    alloc: Global,
    cx: &mut Cx<'_>,
    guard: &Guarded<'_>,
    place: usize,
    theta: &Subst,
    x: u32,
) -> Result<Thm, AllocError>
    requires guard { (c : Sentence) × IsGuarded cx.old c guard.now }
    requires matches { (a : Argument) × (slice_get guard.now.arguments.items place ≡ Some a)
        × MatchesArgument cx.old.program.sig (sort_numbers guard.now.sorts.items) a theta.now }
    requires bound { (t : Tree) × (binding theta.now x ≡ Some t) }
    ensures says { IfOk result
        (IsOfBody cx.new guard.now (is_bound_to x (binding theta.now x))) }
    ensures grown { HasGrown cx.old cx.new }
{
    let equations = inverted(alloc, cx, guard, place, theta)?;
    equation_of(alloc, &equations, x)
}

// `g -> b -> bot`, from `g -> b -> x = p`, `g -> b -> x = q` and `~(p = q)`. The variable y is free in
// none of p and q.
fn not_two(alloc: Global, one: &Thm, other: &Thm, differ: &Thm, y: VarNo) -> Result<Thm, AllocError>
    requires { AreTwoEquations y.0 one.now.conclusion other.now.conclusion differ.now.conclusion }
    ensures conclusion { IfOk result (λ t. (g b e : Pattern)
        → IsUnderTwo g b e one.now.conclusion → IsUnderTwo g b bot t.conclusion) }
    ensures stays { IfOk result
        (StaysWithin (var y.0 ∷ []) (one.now ∷ other.now ∷ differ.now ∷ [])) }
{
    let (g, rest) = sides(one.conclusion());
    let (b, first) = sides(rest);
    let second = conclusion(other);
    let (x, p) = equals(first);
    let (_, q) = equals(second);
    let clash = not_both(alloc, differ, x, p, q, y)?;
    let none = denied_by_two(alloc, one, other, &clash, g, b, first, second)?;
    not_to_bot(alloc, &none, g, b)
}
