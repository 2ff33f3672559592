// Patterns that differ at the root, under a hypothesis on their variables.
ghost use Rattle.std.specs.Prelude.{◌≡◌, ◌≢◌, ◌&&◌, [], ◌∷◌, ℕ, IfOk, true, false};
ghost use Rattle.ml_derived.specs.Scopes.{StaysWithin};
ghost use Rattle.term_core.specs.Patterns.{application};
ghost use Rattle.term_core.specs.PatternLists.{plain_patterns};
ghost use Rattle.term_core.specs.RulePatterns.{plain_pattern, sort_numbers};
ghost use Rattle.rule_core.specs.AcSymbols.{IsAcFree};
ghost use Rattle.rule_core.specs.ProgramView.{theory_of};
ghost use Rattle.rule_core.specs.WellSorted.{IsWellSorted};
ghost use Rattle.prove_term.specs.Contexts.{HasGrown, StaysIn};
ghost use Rattle.prove_open.specs.Givens.{IsGiven, IsCovered};
ghost use Rattle.ml_image.specs.Sentences.{term, not, and, equals};
ghost use Rattle.prove_open.specs.Differences.{DifferAtRoot, SaysDifference, theorem_of};
ghost use Rattle.prove_open.specs.Elements.{IsReady, IsUnder};
ghost use Rattle.prove_open.specs.FactSides.{is_application, AreCoveredAlike, IsDenied};
ghost use Rattle.prove_open.specs.FactSides.{AreKeptApart, IsClash, IsDenial, IsDeniedBy};

use crate::elements::{both_elements, first_new};
use crate::fact_sides::{both_facts, is_injection, side_of};
use crate::givens::Given;
use crate::instances::{at_patterns, sides};
use ml_derived::not_to_bot;
use ml_kernel::Thm;
use ml_pat::{MForm, MPat};
use prove_term::Cx;
use std::alloc::{AllocError, Global};
use term_core::{RulePat, SortId, SymId};

/// How two patterns differ, under a hypothesis.
#[derive(Drop)]
pub enum Difference {
    /// The theorem says that they are not equal.
    Unequal(Thm),
    /// The theorem says that what they have in common is nothing.
    Disjoint(Thm),
}

/// Proves that under the hypothesis two patterns of one sort that differ at the root are not equal,
/// or, if both are constructors, that they have nothing in common. `sorts` has the sorts of the
/// variables. `AllocError`: out of memory, or there are so many variables or arguments that new
/// variables have no number below 2^32. After an error the context may have grown.
pub fn difference_under(
    alloc: Global,
    cx: &mut Cx<'_>,
    given: &Given,
    sorts: &[SortId],
    left: &RulePat,
    right: &RulePat,
) -> Result<Difference, AllocError>
    requires well_sorted { IsWellSorted (theory_of cx.old.program) }
    requires given { IsGiven cx.old (sort_numbers sorts.now) given.now }
    requires covered { (sort : ℕ)
        × IsCovered cx.old.program.sig (sort_numbers sorts.now) given.now (plain_pattern left.now)
        sort
        × IsCovered cx.old.program.sig (sort_numbers sorts.now) given.now (plain_pattern right.now)
        sort }
    requires differ { DifferAtRoot cx.old.program.sig.subsorts (plain_pattern left.now)
        (plain_pattern right.now) }
    requires no_ac { IsAcFree cx.old.program.sig }
    ensures says { IfOk result (SaysDifference cx.new given.now.hypothesis (plain_pattern left.now)
        (plain_pattern right.now)) }
    ensures no_hypotheses { IfOk result (λ d. (theorem_of d).hypotheses ≡ []) }
    ensures stays { IfOk result (λ d. StaysIn cx.new (theorem_of d)) }
    ensures grown { HasGrown cx.old cx.new }
{
    if are_constructors(left, right) {
        let apart = disjoint_under(alloc, cx, given, sorts, left, right)?;
        return Ok(Difference::Disjoint(apart));
    }
    let unequal = unequal_under(alloc, cx, given, sorts, left, right)?;
    Ok(Difference::Unequal(unequal))
}

// Whether both patterns are constructors.
fn are_constructors(left: &RulePat, right: &RulePat) -> bool
    ensures { result
        ≡ (is_application (plain_pattern left.now) && is_application (plain_pattern right.now)) }
{
    is_constructor(left) && is_constructor(right)
}

// Whether the pattern is a constructor.
fn is_constructor(pat: &RulePat) -> bool
    ensures { result ≡ is_application (plain_pattern pat.now) }
{
    match pat {
        RulePat::Ctor(..) => true,
        RulePat::Var(_) | RulePat::Value(..) | RulePat::Inj(..) | RulePat::Call(..) => false,
    }
}

// `difference_under` for two constructors.
fn disjoint_under(
    alloc: Global,
    cx: &mut Cx<'_>,
    given: &Given,
    sorts: &[SortId],
    left: &RulePat,
    right: &RulePat,
) -> Result<Thm, AllocError>
    requires ready { IsReady cx.old (sort_numbers sorts.now) given.now }
    requires clash { IsClash cx.old.program.sig (sort_numbers sorts.now) given.now
        (plain_pattern left.now) (plain_pattern right.now) true }
    ensures is { IfOk result (IsDenied cx.new given.now.hypothesis
        (and (term (plain_pattern left.now)) (term (plain_pattern right.now)))) }
    ensures grown { HasGrown cx.old cx.new }
{
    let apart = kept_apart(alloc, cx, given, sorts, left, right)?;
    denied(alloc, &given.hypothesis, &apart)
}

// Two different constructors have nothing in common.
fn kept_apart(
    alloc: Global,
    cx: &mut Cx<'_>,
    given: &Given,
    sorts: &[SortId],
    left: &RulePat,
    right: &RulePat,
) -> Result<Thm, AllocError>
    requires ready { IsReady cx.old (sort_numbers sorts.now) given.now }
    requires clash { IsClash cx.old.program.sig (sort_numbers sorts.now) given.now
        (plain_pattern left.now) (plain_pattern right.now) true }
    ensures apart { IfOk result (AreKeptApart cx.new given.now.hypothesis
        (plain_pattern left.now) (plain_pattern right.now)) }
    ensures grown { HasGrown cx.old cx.new }
{
    let (f, ps) = constructor_of(left);
    let (g, qs) = constructor_of(right);
    constructors_apart(alloc, cx, given, sorts, f, g, ps, qs)
}

// The constructor and its arguments.
fn constructor_of(pat: &RulePat) -> (SymId, &[RulePat])
    requires { is_application (plain_pattern pat.now) ≡ true }
    ensures { plain_pattern pat.now ≡ application result.0.0 (plain_patterns result.1.now) }
{
    match pat {
        RulePat::Ctor(symbol, args) => (*symbol, args),
        RulePat::Var(_) | RulePat::Value(..) | RulePat::Inj(..) | RulePat::Call(..) => {
            unreachable!()
        }
    }
}

// `kept_apart` by the symbols and the arguments.
fn constructors_apart(
    alloc: Global,
    cx: &mut Cx<'_>,
    given: &Given,
    sorts: &[SortId],
    first: SymId,
    second: SymId,
    left: &[RulePat],
    right: &[RulePat],
) -> Result<Thm, AllocError>
    requires ready { IsReady cx.old (sort_numbers sorts.now) given.now }
    requires covered { AreCoveredAlike cx.old.program.sig (sort_numbers sorts.now) given.now
        (application first.0 (plain_patterns left.now))
        (application second.0 (plain_patterns right.now)) }
    requires differ { first.0 ≢ second.0 }
    requires no_ac { IsAcFree cx.old.program.sig }
    ensures apart { IfOk result (AreKeptApart cx.new given.now.hypothesis
        (application first.0 (plain_patterns left.now))
        (application second.0 (plain_patterns right.now))) }
    ensures grown { HasGrown cx.old cx.new }
{
    let facts = both_elements(alloc, cx, given, sorts, left, right)?;
    let stated = cx.apart_from(alloc, first, second, first_new(sorts)?)?;
    at_patterns(alloc, &stated, &given.hypothesis, &facts)
}

// `h -> p -> bot`, from `h -> ~p`.
fn denied(alloc: Global, h: &MPat, apart: &Thm) -> Result<Thm, AllocError>
    requires { IsDenial h.now apart.now.conclusion }
    ensures conclusion { IfOk result (λ t. IsDeniedBy h.now apart.now.conclusion t.conclusion) }
    ensures stays { IfOk result (StaysWithin [] (apart.now ∷ [])) }
{
    let (_, negation) = sides(apart.conclusion());
    let MForm::Not(both) = negation.form() else {
        unreachable!()
    };
    not_to_bot(alloc, apart, h, both)
}

// `difference_under` for other patterns.
fn unequal_under(
    alloc: Global,
    cx: &mut Cx<'_>,
    given: &Given,
    sorts: &[SortId],
    left: &RulePat,
    right: &RulePat,
) -> Result<Thm, AllocError>
    requires ready { IsReady cx.old (sort_numbers sorts.now) given.now }
    requires clash { IsClash cx.old.program.sig (sort_numbers sorts.now) given.now
        (plain_pattern left.now) (plain_pattern right.now) false }
    ensures is { IfOk result (IsUnder cx.new given.now.hypothesis
        (not (equals (term (plain_pattern left.now)) (term (plain_pattern right.now))))) }
    ensures grown { HasGrown cx.old cx.new }
{
    let deep = is_injection(left);
    let found = both_facts(alloc, cx, given, sorts, left, right, deep)?;
    let one = side_of(alloc, left, false, 0)?;
    let other = side_of(alloc, right, deep, found.1)?;
    let stated = cx.unequal_from(alloc, &one, &other, first_new(sorts)?)?;
    at_patterns(alloc, &stated, &given.hypothesis, &found.0)
}
