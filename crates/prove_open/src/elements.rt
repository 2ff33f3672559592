// Patterns with variables: under the hypothesis each is one element of its sort.
ghost use Rattle.std.specs.Prelude.{◌≡◌, [], ℕ, List, IfOk, Some, length, slice_get};
ghost use Rattle.term_core.specs.Patterns.{Pattern as RulePattern, application, injection};
ghost use Rattle.term_core.specs.PatternLists.{plain_patterns};
ghost use Rattle.term_core.specs.RulePatterns.{plain_pattern, sort_numbers};
ghost use Rattle.rule_core.specs.ProgramView.{theory_of};
ghost use Rattle.rule_core.specs.WellSorted.{IsWellSorted};
ghost use Rattle.prove_term.specs.Contexts.{HasGrown, StaysIn};
ghost use Rattle.term_core.specs.declared.rule_patterns.RulePat.{RulePat};
ghost use Rattle.prove_open.specs.Givens.{IsGiven, IsCovered, HasFact};
ghost use Rattle.prove_open.specs.Under.{SaysUnder, element};
ghost use Rattle.prove_open.specs.Elements.{IsReady, IsElementUnder, HasElement};
ghost use Rattle.prove_open.specs.Elements.{HaveElements, AreElementsUnder, AreBothUnder};
ghost use Rattle.prove_open.specs.Known.{IsKnown, AreKnown};

use crate::givens::Given;
use crate::injections::injected_along;
use crate::instances::{at_patterns, one_under};
use crate::known::{Known, constructor_of, injection_of};
use ml_derived::lift;
use ml_kernel::Thm;
use ml_pat::MPat;
use prove_term::{Cx, fun_of};
use std::alloc::{AllocError, Global};
use term_core::{RulePat, SortId, SymId, Term};

/// Proves that under the hypothesis a pattern is one element of its sort. `sorts` has the sorts of
/// the variables. What has no variable is proved to be an element once, without the hypothesis, as
/// `fun_of` does. `AllocError`: out of memory, or there are so many variables or arguments that new
/// variables have no number below 2^32. After an error the context may have grown. The recursion is
/// as deep as the pattern is high.
pub fn element_under(
    alloc: Global,
    cx: &mut Cx<'_>,
    given: &Given,
    sorts: &[SortId],
    pat: &RulePat,
) -> Result<Thm, AllocError>
    requires well_sorted { IsWellSorted (theory_of cx.old.program) }
    requires given { IsGiven cx.old (sort_numbers sorts.now) given.now }
    requires covered { (sort : ℕ) × IsCovered cx.old.program.sig (sort_numbers sorts.now) given.now
        (plain_pattern pat.now) sort }
    ensures says { IfOk result (λ t. (sort : ℕ) → IsCovered cx.new.program.sig
        (sort_numbers sorts.now) given.now (plain_pattern pat.now) sort
        → SaysUnder cx.new given.now.hypothesis (element (plain_pattern pat.now) sort)
        t.conclusion) }
    ensures no_hypotheses { IfOk result (λ t. t.hypotheses ≡ []) }
    ensures stays { IfOk result (StaysIn cx.new) }
    ensures grown { HasGrown cx.old cx.new }
{
    element(alloc, cx, given, sorts, pat)
}

// The same, over what the calls of this crate know.
pub(crate) fn element(
    alloc: Global,
    cx: &mut Cx<'_>,
    given: &Given,
    sorts: &[SortId],
    pat: &RulePat,
) -> Result<Thm, AllocError>
    requires ready { IsReady cx.old (sort_numbers sorts.now) given.now }
    requires covered { HasElement cx.old.program.sig (sort_numbers sorts.now) given.now
        (plain_pattern pat.now) }
    ensures is { IfOk result (IsElementUnder cx.new (sort_numbers sorts.now) given.now
        (plain_pattern pat.now)) }
    ensures grown { HasGrown cx.old cx.new }
{
    let known = known(alloc, cx, given, sorts, pat)?;
    as_element(alloc, cx, given, &known)
}

// What is known of a pattern: the term that it is, or that it is one element of its sort.
#[cycle(known)]
fn known(
    alloc: Global,
    cx: &mut Cx<'_>,
    given: &Given,
    sorts: &[SortId],
    pat: &RulePat,
) -> Result<Known, AllocError>
    requires ready { IsReady cx.old (sort_numbers sorts.now) given.now }
    requires covered { HasElement cx.old.program.sig (sort_numbers sorts.now) given.now
        (plain_pattern pat.now) }
    ensures is { IfOk result (IsKnown cx.new (sort_numbers sorts.now) given.now
        (plain_pattern pat.now)) }
    ensures grown { HasGrown cx.old cx.new }
{
    match pat {
        RulePat::Var(x) => Ok(Known::Element(fact_on(alloc, given, *x)?)),
        RulePat::Value(sort, value) => {
            let value = value.share()?;
            Ok(Known::Term(Term::value(alloc, *sort, value)?))
        }
        RulePat::Ctor(symbol, args) => constructed(alloc, cx, given, sorts, *symbol, args),
        RulePat::Inj(from, to, below) => injected(alloc, cx, given, sorts, *from, *to, below),
        RulePat::Call(..) => unreachable!(),
    }
}

// What is known to be a term is one element of its sort, also under the hypothesis.
fn as_element(
    alloc: Global,
    cx: &mut Cx<'_>,
    given: &Given,
    known: &Known,
) -> Result<Thm, AllocError>
    requires known { (sorts : List ℕ) × (p : RulePattern) × IsReady cx.old sorts given.now
        × HasElement cx.old.program.sig sorts given.now p
        × IsKnown cx.old sorts given.now p known.now }
    ensures is { IfOk result (λ t. (sorts : List ℕ) (p : RulePattern) →
        IsKnown cx.old sorts given.now p known.now → IsElementUnder cx.new sorts given.now p t) }
    ensures grown { HasGrown cx.old cx.new }
{
    match known {
        Known::Term(term) => {
            let fact = fun_of(alloc, cx, term)?;
            lift(alloc, &given.hypothesis, &fact)
        }
        Known::Element(fact) => fact.share(alloc),
    }
}

// Returns the fact on a variable.
fn fact_on(alloc: Global, given: &Given, x: u32) -> Result<Thm, AllocError>
    requires { HasFact given.now x }
    ensures { IfOk result (λ t. slice_get given.now.facts.items x ≡ Some (Some t)) }
{
    match given.facts.get(x as usize) {
        Some(Some(fact)) => fact.share(alloc),
        _ => unreachable!(),
    }
}

// `known` for a constructor of arguments.
#[cycle(known)]
fn constructed(
    alloc: Global,
    cx: &mut Cx<'_>,
    given: &Given,
    sorts: &[SortId],
    symbol: SymId,
    args: &[RulePat],
) -> Result<Known, AllocError>
    requires ready { IsReady cx.old (sort_numbers sorts.now) given.now }
    requires covered { HasElement cx.old.program.sig (sort_numbers sorts.now) given.now
        (application symbol.0 (plain_patterns args.now)) }
    ensures is { IfOk result (IsKnown cx.new (sort_numbers sorts.now) given.now
        (application symbol.0 (plain_patterns args.now))) }
    ensures grown { HasGrown cx.old cx.new }
{
    let parts = all_known(alloc, cx, given, sorts, args)?;
    if let Some(term) = constructor_of(alloc, symbol, &parts)? {
        return Ok(Known::Term(term));
    }
    let facts = as_elements(alloc, cx, given, &parts)?;
    Ok(Known::Element(total(alloc, cx, given, sorts, symbol, args, &facts)?))
}

// `known` for each of the arguments.
#[cycle(known)]
fn all_known(
    alloc: Global,
    cx: &mut Cx<'_>,
    given: &Given,
    sorts: &[SortId],
    args: &[RulePat],
) -> Result<Vec<Known>, AllocError>
    requires ready { IsReady cx.old (sort_numbers sorts.now) given.now }
    requires covered { HaveElements cx.old.program.sig (sort_numbers sorts.now) given.now args.now }
    ensures are { IfOk result (λ v. AreKnown cx.new (sort_numbers sorts.now) given.now
        args.now v.items) }
    ensures grown { HasGrown cx.old cx.new }
{
    let mut parts = Vec::with_capacity(alloc, args.len())?;
    for arg in args {
        parts.push(known(alloc, cx, given, sorts, arg)?)?;
    }
    Ok(parts)
}

// `as_element` for each of several patterns.
fn as_elements(
    alloc: Global,
    cx: &mut Cx<'_>,
    given: &Given,
    parts: &[Known],
) -> Result<Vec<Thm>, AllocError>
    requires known { (sorts : List ℕ) × (ps : List RulePat) × IsReady cx.old sorts given.now
        × HaveElements cx.old.program.sig sorts given.now ps
        × AreKnown cx.old sorts given.now ps parts.now }
    ensures are { IfOk result (λ v. (sorts : List ℕ) (ps : List RulePat) →
        AreKnown cx.old sorts given.now ps parts.now
        → AreElementsUnder cx.new sorts given.now ps v.items) }
    ensures grown { HasGrown cx.old cx.new }
{
    let mut facts = Vec::with_capacity(alloc, parts.len())?;
    for part in parts {
        facts.push(as_element(alloc, cx, given, part)?)?;
    }
    Ok(facts)
}

// A constructor of arguments is one element of its sort, as the arguments are.
fn total(
    alloc: Global,
    cx: &mut Cx<'_>,
    given: &Given,
    sorts: &[SortId],
    symbol: SymId,
    args: &[RulePat],
    facts: &[Thm],
) -> Result<Thm, AllocError>
    requires ready { IsReady cx.old (sort_numbers sorts.now) given.now }
    requires covered { HasElement cx.old.program.sig (sort_numbers sorts.now) given.now
        (application symbol.0 (plain_patterns args.now)) }
    requires facts { AreElementsUnder cx.old (sort_numbers sorts.now) given.now args.now facts.now }
    ensures is { IfOk result (IsElementUnder cx.new (sort_numbers sorts.now) given.now
        (application symbol.0 (plain_patterns args.now))) }
    ensures grown { HasGrown cx.old cx.new }
{
    let total = cx.total_from(alloc, symbol, first_new(sorts)?)?;
    let some = at_patterns(alloc, &total, &given.hypothesis, facts)?;
    one_under(alloc, &some)
}

// `element` for each of the patterns.
pub(crate) fn all_elements(
    alloc: Global,
    cx: &mut Cx<'_>,
    given: &Given,
    sorts: &[SortId],
    args: &[RulePat],
) -> Result<Vec<Thm>, AllocError>
    requires ready { IsReady cx.old (sort_numbers sorts.now) given.now }
    requires covered { HaveElements cx.old.program.sig (sort_numbers sorts.now) given.now args.now }
    ensures are { IfOk result (λ v. AreElementsUnder cx.new (sort_numbers sorts.now) given.now
        args.now v.items) }
    ensures grown { HasGrown cx.old cx.new }
{
    let parts = all_known(alloc, cx, given, sorts, args)?;
    as_elements(alloc, cx, given, &parts)
}

// `element` for each pattern of the left and of the right.
pub(crate) fn both_elements(
    alloc: Global,
    cx: &mut Cx<'_>,
    given: &Given,
    sorts: &[SortId],
    left: &[RulePat],
    right: &[RulePat],
) -> Result<Vec<Thm>, AllocError>
    requires ready { IsReady cx.old (sort_numbers sorts.now) given.now }
    requires left { HaveElements cx.old.program.sig (sort_numbers sorts.now) given.now left.now }
    requires right { HaveElements cx.old.program.sig (sort_numbers sorts.now) given.now right.now }
    ensures are { IfOk result (λ v. AreBothUnder cx.new (sort_numbers sorts.now) given.now
        left.now right.now v.items) }
    ensures grown { HasGrown cx.old cx.new }
{
    let mut facts = all_elements(alloc, cx, given, sorts, left)?;
    let mut more = all_elements(alloc, cx, given, sorts, right)?;
    facts.append(&mut more)?;
    Ok(facts)
}

// `known` for an injection.
#[cycle(known)]
fn injected(
    alloc: Global,
    cx: &mut Cx<'_>,
    given: &Given,
    sorts: &[SortId],
    from: SortId,
    to: SortId,
    below: &RulePat,
) -> Result<Known, AllocError>
    requires ready { IsReady cx.old (sort_numbers sorts.now) given.now }
    requires covered { HasElement cx.old.program.sig (sort_numbers sorts.now) given.now
        (injection from.0 to.0 (plain_pattern below.now)) }
    ensures is { IfOk result (IsKnown cx.new (sort_numbers sorts.now) given.now
        (injection from.0 to.0 (plain_pattern below.now))) }
    ensures grown { HasGrown cx.old cx.new }
{
    let inner = known(alloc, cx, given, sorts, below)?;
    if let Some(term) = injection_of(alloc, from, to, &inner)? {
        return Ok(Known::Term(term));
    }
    let fact = as_element(alloc, cx, given, &inner)?;
    let made = injected_along(
        alloc,
        cx,
        &given.hypothesis,
        first_new(sorts)?,
        from,
        to,
        &fact,
    )?;
    Ok(Known::Element(made))
}

/// Returns the number after those of the variables that have these sorts. `AllocError`: it is 2^32
/// or more.
pub fn first_new(sorts: &[SortId]) -> Result<u32, AllocError>
    ensures { IfOk result (λ k. k ≡ length sorts.now) }
{
    if sorts.len() > u32::MAX as usize {
        return Err(AllocError);
    }
    Ok(sorts.len() as u32)
}
