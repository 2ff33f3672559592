// A pattern that does not match a term has nothing in common with it.
ghost use Rattle.std.specs.Prelude.{◌≡◌, ◌≢◌, ◌∷◌, ℕ, IfOk, [], Contains};
ghost use Rattle.ml_pat.specs.Patterns.{var};
ghost use Rattle.ml_derived.specs.Scopes.{StaysWithin};
ghost use Rattle.term_core.specs.Terms.{no_tree, more_trees};
ghost use Rattle.term_core.specs.Patterns.{no_pattern, more_patterns, ground_pattern};
ghost use Rattle.term_core.specs.RulePatterns.{plain_pattern, sort_numbers};
ghost use Rattle.rule_core.specs.AcSymbols.{IsAcFree};
ghost use Rattle.rule_core.specs.Matching.{NoneMatches, OccursIn};
ghost use Rattle.rule_core.specs.ProgramView.{theory_of};
ghost use Rattle.rule_core.specs.Sorting.{AreSorts, HasSort, IsTermOf};
ghost use Rattle.rule_core.specs.WellSorted.{HasNoCall, IsWellSorted};
ghost use Rattle.ml_image.specs.Sentences.{term, not, and, equals};
ghost use Rattle.prove_term.specs.Contexts.{HasGrown, StaysIn};
ghost use Rattle.prove_open.specs.Under.{SaysUnder};
ghost use Rattle.refute.specs.Clashes.{Fails};
ghost use Rattle.refute.specs.Refutations.{SaysSentence, in_common, mismatched};
ghost use Rattle.refute.specs.Refuting.{AreCovered, Denies, IsPair, IsSetting};
ghost use Rattle.refute.specs.Bindings.{HasTwo, AreTwoBindings, IsDeniedByBoth};

use crate::bindings::{Twice, bound_twice};
use crate::denying::refuted;
use crate::laws::clash_laws;
use crate::parts::{equals, sides};
use crate::rising::{as_disjoint, as_unequal};
use crate::settings::{Goal, Setting, new_variable};
use crate::supposing::binding_under;
use crate::variables::variables_in_order;
use ml_derived::{bot_to_not, denied_by_two, mp, not_both, top};
use ml_kernel::Thm;
use ml_pat::VarNo;
use prove_open::{Difference, Given};
use prove_term::Cx;
use std::alloc::{AllocError, Global};
use term_core::{RulePat, SortId, Term, pattern_of};

/// Proves that a pattern that does not match a term has nothing in common with it, if each of its
/// variables is one element of its sort. `sorts` has the sorts of the variables, by their numbers.
/// `AllocError`: out of memory, or there are so many variables or arguments that new variables have
/// no number below 2^32. After an error the context may have grown. The recursion is as deep as the
/// pattern is high. The pattern is gone through once if there is a clash, and otherwise once for
/// each variable until one would have to be two different terms.
pub fn mismatch(
    alloc: Global,
    cx: &mut Cx<'_>,
    sorts: &[SortId],
    pat: &RulePat,
    term: &Term,
) -> Result<Thm, AllocError>
    requires well_sorted { IsWellSorted (theory_of cx.old.program) }
    requires no_ac { IsAcFree cx.old.program.sig }
    requires variables { AreSorts cx.old.program.sig (sort_numbers sorts.now) }
    requires sorted { (sort : ℕ)
        × HasSort cx.old.program.sig (sort_numbers sorts.now) (plain_pattern pat.now) sort
        × IsTermOf cx.old.program.sig term.now sort }
    requires no_call { HasNoCall (plain_pattern pat.now) }
    requires mismatch { NoneMatches cx.old.program.sig (sort_numbers sorts.now)
        (more_patterns (plain_pattern pat.now) no_pattern) (more_trees term.now no_tree) }
    ensures says { IfOk result (λ t. SaysSentence cx.new
        (mismatched (sort_numbers sorts.now) (plain_pattern pat.now) term.now) t.conclusion) }
    ensures no_hypotheses { IfOk result (λ t. t.hypotheses ≡ []) }
    ensures stays { IfOk result (StaysIn cx.new) }
    ensures grown { HasGrown cx.old cx.new }
{
    // The term is normal. So there is a reason why the pattern does not match it.
    let _high = term.height();
    clash_laws();
    let variables = variables_in_order(alloc, pat)?;
    let given = Given::of(alloc, cx, sorts, &variables)?;
    let whole = pattern_of(alloc, term)?;
    let setting = Setting {
        given,
        sorts,
        new: new_variable(sorts)?,
        goal: Goal::Clash,
    };
    none_under(alloc, cx, &setting, &variables, pat, &whole, term)
}

// Proves that under the hypothesis a pattern and a term have nothing in common. Comparing them comes
// to a clash, or to two different terms at one of the variables. `whole` is the pattern of the term.
pub(crate) fn none_under(
    alloc: Global,
    cx: &mut Cx<'_>,
    setting: &Setting<'_>,
    variables: &[u32],
    pat: &RulePat,
    whole: &RulePat,
    term: &Term,
) -> Result<Thm, AllocError>
    requires setting { IsSetting cx.old setting.now }
    requires pair { IsPair cx.old.program.sig (sort_numbers setting.now.sorts.now)
        setting.now.given (plain_pattern pat.now) term.now }
    requires whole { plain_pattern whole.now ≡ ground_pattern term.now }
    requires fails { Fails cx.old.program.sig.subsorts (plain_pattern pat.now) term.now }
    requires listed { (x : ℕ) → OccursIn x (plain_pattern pat.now) → Contains variables.now x }
    ensures says { IfOk result (λ t. SaysUnder cx.new setting.now.given.hypothesis
        (not (in_common (plain_pattern pat.now) term.now)) t.conclusion) }
    ensures stays { IfOk result (StaysIn cx.new) }
    ensures grown { HasGrown cx.old cx.new }
{
    match refuted(alloc, cx, setting, pat, whole, term)? {
        Some(difference) => by_clash(alloc, cx, setting, pat, whole, difference),
        None => by_bindings(alloc, cx, setting, variables, pat, whole, term),
    }
}

// Proves that under the hypothesis two patterns have nothing in common. `difference` denies them in
// one way or the other.
fn by_clash(
    alloc: Global,
    cx: &mut Cx<'_>,
    setting: &Setting<'_>,
    left: &RulePat,
    right: &RulePat,
    difference: Difference,
) -> Result<Thm, AllocError>
    requires setting { IsSetting cx.old setting.now }
    requires covered { AreCovered cx.old.program.sig (sort_numbers setting.now.sorts.now)
        setting.now.given (plain_pattern left.now) (plain_pattern right.now) }
    requires denies { Denies cx.old setting.now.given.hypothesis (plain_pattern left.now)
        (plain_pattern right.now) difference }
    ensures says { IfOk result (λ t. SaysUnder cx.new setting.now.given.hypothesis
        (not (and (term (plain_pattern left.now)) (term (plain_pattern right.now))))
        t.conclusion) }
    ensures stays { IfOk result (StaysIn cx.new) }
    ensures grown { HasGrown cx.old cx.new }
{
    let none = as_disjoint(alloc, cx, setting, left, right, difference)?;
    let (h, made) = sides(none.conclusion());
    let (both, _) = sides(made);
    bot_to_not(alloc, &none, h, both)
}

// Proves that under the hypothesis a pattern and a term have nothing in common. Comparing them comes
// to two different terms at one of the variables. `whole` is the pattern of the term.
fn by_bindings(
    alloc: Global,
    cx: &mut Cx<'_>,
    setting: &Setting<'_>,
    variables: &[u32],
    pat: &RulePat,
    whole: &RulePat,
    term: &Term,
) -> Result<Thm, AllocError>
    requires setting { IsSetting cx.old setting.now }
    requires pair { IsPair cx.old.program.sig (sort_numbers setting.now.sorts.now)
        setting.now.given (plain_pattern pat.now) term.now }
    requires whole { plain_pattern whole.now ≡ ground_pattern term.now }
    requires two { (x : ℕ) × Contains variables.now x
        × HasTwo cx.old.program.sig.subsorts x (plain_pattern pat.now) term.now }
    ensures says { IfOk result (λ t. SaysUnder cx.new setting.now.given.hypothesis
        (not (in_common (plain_pattern pat.now) term.now)) t.conclusion) }
    ensures stays { IfOk result (StaysIn cx.new) }
    ensures grown { HasGrown cx.old cx.new }
{
    let subsorts = &cx.program().sig.subsorts;
    let twice = bound_twice(alloc, subsorts, variables, pat, whole, term)?;
    let Twice {
        variable,
        first,
        second,
    } = &twice;
    let one = binding_under(alloc, cx, setting, *variable, first, pat, whole, term)?;
    let other = binding_under(alloc, cx, setting, *variable, second, pat, whole, term)?;
    let differ = differ(alloc, cx, first, second)?;
    denied_by_both(alloc, &one, &other, &differ, setting.new)
}

// `h -> ~w`, from `h -> w -> x = p`, `h -> w -> x = q` and `~(p = q)`. The variable y is free in none
// of them.
fn denied_by_both(
    alloc: Global,
    one: &Thm,
    other: &Thm,
    differ: &Thm,
    y: VarNo,
) -> Result<Thm, AllocError>
    requires { AreTwoBindings y.0 one.now.conclusion other.now.conclusion differ.now.conclusion }
    ensures conclusion { IfOk result
        (λ t. IsDeniedByBoth one.now.conclusion t.conclusion) }
    ensures stays { IfOk result
        (StaysWithin (var y.0 ∷ []) (one.now ∷ other.now ∷ differ.now ∷ [])) }
{
    let (h, rest) = sides(one.conclusion());
    let (w, first) = sides(rest);
    let (_, rest) = sides(other.conclusion());
    let (_, second) = sides(rest);
    let (x, p) = equals(first);
    let (_, q) = equals(second);
    let clash = not_both(alloc, differ, x, p, q, y)?;
    denied_by_two(alloc, one, other, &clash, h, w, first, second)
}

/// Proves that two different terms of one sort are not equal. `AllocError`: out of memory, or there
/// are so many variables or arguments that new variables have no number below 2^32. After an error
/// the context may have grown. The recursion is as deep as the terms are high.
pub fn differ(alloc: Global, cx: &mut Cx<'_>, left: &Term, right: &Term) -> Result<Thm, AllocError>
    requires well_sorted { IsWellSorted (theory_of cx.old.program) }
    requires no_ac { IsAcFree cx.old.program.sig }
    requires sorted { (sort : ℕ) × IsTermOf cx.old.program.sig left.now sort
        × IsTermOf cx.old.program.sig right.now sort }
    requires differ { left.now ≢ right.now }
    ensures says { IfOk result (λ t. SaysSentence cx.new
        (not (equals (term (ground_pattern left.now)) (term (ground_pattern right.now))))
        t.conclusion) }
    ensures stays { IfOk result (StaysIn cx.new) }
    ensures grown { HasGrown cx.old cx.new }
{
    // Both terms are normal. So comparing them comes to a clash.
    let _left = left.height();
    let _right = right.height();
    clash_laws();
    let given = Given::nothing(alloc)?;
    let setting = Setting {
        given,
        sorts: &[],
        new: VarNo(0),
        goal: Goal::Clash,
    };
    let pat = pattern_of(alloc, left)?;
    let whole = pattern_of(alloc, right)?;
    match refuted(alloc, cx, &setting, &pat, &whole, right)? {
        Some(difference) => {
            let thm = as_unequal(alloc, cx, &setting, &pat, &whole, difference)?;
            let (h, made) = sides(thm.conclusion());
            mp(alloc, &top(alloc)?, &thm, h, made)
        }
        None => unreachable!(),
    }
}
