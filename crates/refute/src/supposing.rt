// What a variable equals, if a pattern and a term have something in common: its equation is denied
// until nothing is left.
ghost use Rattle.std.specs.Prelude.{◌≡◌, ◌∷◌, ℕ, IfOk, IfSome, Some, []};
ghost use Rattle.ml_pat.specs.Patterns.{Pattern, bot, imp, and, not};
ghost use Rattle.ml_pat.specs.Judgements.{IsPredicate};
ghost use Rattle.ml_derived.specs.Implications.{AreLinked};
ghost use Rattle.ml_derived.specs.Scopes.{Scope, IsOver, StaysWithin};
ghost use Rattle.term_core.specs.Terms.{Tree};
ghost use Rattle.term_core.specs.Patterns.{Pattern as RulePattern, ground_pattern, variable};
ghost use Rattle.term_core.specs.RulePatterns.{plain_pattern, sort_numbers};
ghost use Rattle.rule_core.specs.Sorting.{IsTermOf};
ghost use Rattle.rule_core.specs.ProgramView.{theory_of};
ghost use Rattle.rule_core.specs.WellSorted.{IsWellSorted};
ghost use Rattle.ml_image.specs.Images.{image_of};
ghost use Rattle.prove_term.specs.Contexts.{HasContext, HasGrown, StaysIn};
ghost use Rattle.prove_open.specs.Givens.{HasFact, IsGiven};
ghost use Rattle.prove_open.specs.Under.{SaysUnder};
ghost use Rattle.prove_open.specs.declared.differences.Difference.TheVariants.{Disjoint};
ghost use Rattle.refute.specs.Clashes.{ComesTo};
ghost use Rattle.refute.specs.Refuting.{Attains, Denies, IsPair, IsSetting};
ghost use Rattle.refute.specs.Bindings.{bound_if_common};
ghost use Rattle.refute.specs.Supposing.{IsWeakened};

use crate::denying::refuted;
use crate::parts::sides;
use crate::rising::as_disjoint;
use crate::settings::{Goal, Setting};
use ml_derived::{and_1, and_2, back, bot_to_not, chain, unpack};
use ml_image::condition_laws;
use ml_kernel::Thm;
use ml_pat::{MPat, VarNo};
use prove_open::Given;
use prove_term::Cx;
use std::alloc::{AllocError, Global};
use term_core::{RulePat, SortId, Term, pattern_of};

// Proves under the hypothesis that the variable equals the term, if the pattern and the whole term
// have something in common. Comparing these comes to the variable together with the term. `whole`
// is the pattern of the whole term.
pub(crate) fn binding_under(
    alloc: Global,
    cx: &mut Cx<'_>,
    setting: &Setting<'_>,
    x: u32,
    bound: &Term,
    pat: &RulePat,
    whole: &RulePat,
    term: &Term,
) -> Result<Thm, AllocError>
    requires setting { IsSetting cx.old setting.now }
    requires pair { IsPair cx.old.program.sig (sort_numbers setting.now.sorts.now)
        setting.now.given (plain_pattern pat.now) term.now }
    requires whole { plain_pattern whole.now ≡ ground_pattern term.now }
    requires comes { ComesTo cx.old.program.sig.subsorts (variable x) bound.now
        (plain_pattern pat.now) term.now }
    ensures says { IfOk result (λ t. SaysUnder cx.new setting.now.given.hypothesis
        (bound_if_common x bound.now (plain_pattern pat.now) term.now) t.conclusion) }
    ensures stays { IfOk result (StaysIn cx.new) }
    ensures grown { HasGrown cx.old cx.new }
{
    let image = term_image(alloc, cx, bound)?;
    let variable = MPat::var(alloc, VarNo(x))?;
    let equation = MPat::equal(alloc, &variable, &image)?;
    let Setting {
        given,
        sorts,
        new,
        ..
    } = setting;
    let fact = denied(alloc, &given.hypothesis, &equation)?;
    let inner = Setting {
        given: denying(alloc, cx, sorts, given, &equation)?,
        sorts,
        new: *new,
        goal: Goal::Binding(x, bound.share()?, fact),
    };
    let none = none_in_common(alloc, cx, &inner, pat, whole, term)?;
    not_denied(alloc, &none, &given.hypothesis, &equation)
}

// The image of a term.
pub(crate) fn term_image(alloc: Global, cx: &mut Cx<'_>, term: &Term) -> Result<MPat, AllocError>
    requires well_sorted { IsWellSorted (theory_of cx.old.program) }
    requires sorted { (sort : ℕ) × IsTermOf cx.old.program.sig term.now sort }
    ensures image { IfOk result
        (λ p. image_of cx.new.program.sig cx.new.names (ground_pattern term.now) ≡ Some p) }
    ensures grown { HasGrown cx.old cx.new }
{
    condition_laws();
    let pat = pattern_of(alloc, term)?;
    cx.image(alloc, &pat)
}

// The hypothesis together with the denial of an equation, and what that gives of variables.
fn denying(
    alloc: Global,
    cx: &Cx<'_>,
    sorts: &[SortId],
    given: &Given,
    equation: &MPat,
) -> Result<Given, AllocError>
    requires given { IsGiven cx.now (sort_numbers sorts.now) given.now }
    requires predicate { IsPredicate equation.now }
    requires over { (s : Scope) → HasContext s cx.now → IsOver s equation.now }
    ensures given { IfOk result (IsGiven cx.now (sort_numbers sorts.now)) }
    ensures hypothesis { IfOk result
        (λ g. g.hypothesis ≡ and given.now.hypothesis (imp equation.now bot)) }
    ensures facts { IfOk result (λ g. (x : ℕ) → HasFact given.now x → HasFact g x) }
{
    let denial = MPat::imp(alloc, equation, &MPat::bot(alloc)?)?;
    let hypothesis = MPat::and(alloc, &given.hypothesis, &denial)?;
    let weaker = and_1(alloc, &given.hypothesis, &denial)?;
    let mut facts = Vec::with_capacity(alloc, given.facts.len())?;
    for fact in &given.facts {
        facts.push(weakened(alloc, &weaker, fact)?)?;
    }
    Ok(Given { hypothesis, facts })
}

// The fact, if there is one, under a stronger hypothesis.
fn weakened(alloc: Global, weaker: &Thm, fact: &Option<Thm>) -> Result<Option<Thm>, AllocError>
    requires { IfSome fact.now (λ t. AreLinked weaker.now.conclusion t.conclusion) }
    ensures { IfOk result (IsWeakened weaker.now fact.now) }
{
    match fact {
        None => Ok(None),
        Some(fact) => Ok(Some(chain(alloc, weaker, fact)?)),
    }
}

// `h & (e -> bot) -> ~e`.
fn denied(alloc: Global, h: &MPat, e: &MPat) -> Result<Thm, AllocError>
    ensures conclusion { IfOk result
        (λ t. t.conclusion ≡ imp (and h.now (imp e.now bot)) (not e.now)) }
    ensures stays { IfOk result (StaysWithin (h.now ∷ e.now ∷ []) []) }
{
    let denial = MPat::imp(alloc, e, &MPat::bot(alloc)?)?;
    let r = MPat::and(alloc, h, &denial)?;
    let second = and_2(alloc, h, &denial)?;
    bot_to_not(alloc, &second, &r, e)
}

// Proves that the pattern and the term have nothing in common. Comparing them comes to the goal.
// `whole` is the pattern of the term.
fn none_in_common(
    alloc: Global,
    cx: &mut Cx<'_>,
    setting: &Setting<'_>,
    pat: &RulePat,
    whole: &RulePat,
    term: &Term,
) -> Result<Thm, AllocError>
    requires setting { IsSetting cx.old setting.now }
    requires pair { IsPair cx.old.program.sig (sort_numbers setting.now.sorts.now)
        setting.now.given (plain_pattern pat.now) term.now }
    requires whole { plain_pattern whole.now ≡ ground_pattern term.now }
    requires comes { (q : RulePattern) × (u : Tree) × Attains setting.now.goal q u
        × ComesTo cx.old.program.sig.subsorts q u (plain_pattern pat.now) term.now }
    ensures denies { IfOk result (λ t. Denies cx.new setting.now.given.hypothesis
        (plain_pattern pat.now) (ground_pattern term.now) (Disjoint t)) }
    ensures grown { HasGrown cx.old cx.new }
{
    match refuted(alloc, cx, setting, pat, whole, term)? {
        Some(difference) => as_disjoint(alloc, cx, setting, pat, whole, difference),
        None => unreachable!(),
    }
}

// `h -> p -> e`, from `h & (e -> bot) -> p -> bot`.
fn not_denied(alloc: Global, none: &Thm, h: &MPat, e: &MPat) -> Result<Thm, AllocError>
    requires { (p : Pattern)
        × (none.now.conclusion ≡ imp (and h.now (imp e.now bot)) (imp p bot)) }
    ensures conclusion { IfOk result (λ t. (p : Pattern) →
        none.now.conclusion ≡ imp (and h.now (imp e.now bot)) (imp p bot)
        → t.conclusion ≡ imp h.now (imp p e.now)) }
    ensures stays { IfOk result (StaysWithin [] (none.now ∷ [])) }
{
    let denial = MPat::imp(alloc, e, &MPat::bot(alloc)?)?;
    let (_, made) = sides(none.conclusion());
    let (p, _) = sides(made);
    let open = unpack(alloc, none, h, &denial, made)?;
    back(alloc, &open, h, e, p)
}
