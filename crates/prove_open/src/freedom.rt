// Constructors are free and injections are injective, under a hypothesis on the variables of what
// they are applied to.
ghost use Rattle.std.specs.Prelude.{◌≡◌, ◌<◌, [], ℕ, IfOk, length};
ghost use Rattle.term_core.specs.Patterns.{application, injection};
ghost use Rattle.term_core.specs.PatternLists.{plain_patterns};
ghost use Rattle.term_core.specs.RulePatterns.{plain_pattern, sort_numbers};
ghost use Rattle.rule_core.specs.AcSymbols.{IsAcFree};
ghost use Rattle.rule_core.specs.ProgramView.{theory_of};
ghost use Rattle.rule_core.specs.WellSorted.{IsWellSorted};
ghost use Rattle.prove_term.specs.Contexts.{HasGrown, StaysIn};
ghost use Rattle.prove_open.specs.Givens.{IsGiven, IsCovered};
ghost use Rattle.prove_open.specs.Elements.{IsReady, IsUnder, HasElement};
ghost use Rattle.prove_open.specs.Under.{SaysUnder, freedom, injectivity};

use crate::elements::{both_elements, element, first_new};
use crate::givens::Given;
use crate::instances::at_patterns;
use ml_kernel::Thm;
use prove_term::Cx;
use std::alloc::{AllocError, Global};
use term_core::{RulePat, SortId, SymId};

/// Proves that under the hypothesis a constructor is free: what it makes of the left patterns and
/// of the right patterns have in common is made of what these have in common, one by one. `sorts`
/// has the sorts of the variables. `AllocError`: out of memory, or there are so many variables or
/// arguments that new variables have no number below 2^32. After an error the context may have
/// grown.
pub fn freedom_under(
    alloc: Global,
    cx: &mut Cx<'_>,
    given: &Given,
    sorts: &[SortId],
    symbol: SymId,
    left: &[RulePat],
    right: &[RulePat],
) -> Result<Thm, AllocError>
    requires well_sorted { IsWellSorted (theory_of cx.old.program) }
    requires given { IsGiven cx.old (sort_numbers sorts.now) given.now }
    requires left { (sort : ℕ) × IsCovered cx.old.program.sig (sort_numbers sorts.now) given.now
        (application symbol.0 (plain_patterns left.now)) sort }
    requires right { (sort : ℕ) × IsCovered cx.old.program.sig (sort_numbers sorts.now) given.now
        (application symbol.0 (plain_patterns right.now)) sort }
    requires some { 0 < length left.now }
    requires no_ac { IsAcFree cx.old.program.sig }
    ensures says { IfOk result (λ t. SaysUnder cx.new given.now.hypothesis
        (freedom symbol.0 (plain_patterns left.now) (plain_patterns right.now)) t.conclusion) }
    ensures no_hypotheses { IfOk result (λ t. t.hypotheses ≡ []) }
    ensures stays { IfOk result (StaysIn cx.new) }
    ensures grown { HasGrown cx.old cx.new }
{
    freed(alloc, cx, given, sorts, symbol, left, right)
}

// `freedom_under`.
fn freed(
    alloc: Global,
    cx: &mut Cx<'_>,
    given: &Given,
    sorts: &[SortId],
    symbol: SymId,
    left: &[RulePat],
    right: &[RulePat],
) -> Result<Thm, AllocError>
    requires ready { IsReady cx.old (sort_numbers sorts.now) given.now }
    requires left { HasElement cx.old.program.sig (sort_numbers sorts.now) given.now
        (application symbol.0 (plain_patterns left.now)) }
    requires right { HasElement cx.old.program.sig (sort_numbers sorts.now) given.now
        (application symbol.0 (plain_patterns right.now)) }
    requires some { 0 < length left.now }
    requires no_ac { IsAcFree cx.old.program.sig }
    ensures is { IfOk result (IsUnder cx.new given.now.hypothesis
        (freedom symbol.0 (plain_patterns left.now) (plain_patterns right.now))) }
    ensures grown { HasGrown cx.old cx.new }
{
    let facts = both_elements(alloc, cx, given, sorts, left, right)?;
    let stated = cx.free_from(alloc, symbol, first_new(sorts)?)?;
    at_patterns(alloc, &stated, &given.hypothesis, &facts)
}

/// Proves that under the hypothesis an injection is injective: if the injections of two patterns
/// are equal, then the patterns are. `sorts` has the sorts of the variables. `AllocError`: out of
/// memory, or there are so many variables or arguments that new variables have no number below
/// 2^32. After an error the context may have grown.
pub fn injective_under(
    alloc: Global,
    cx: &mut Cx<'_>,
    given: &Given,
    sorts: &[SortId],
    from: SortId,
    to: SortId,
    left: &RulePat,
    right: &RulePat,
) -> Result<Thm, AllocError>
    requires well_sorted { IsWellSorted (theory_of cx.old.program) }
    requires given { IsGiven cx.old (sort_numbers sorts.now) given.now }
    requires left { (sort : ℕ) × IsCovered cx.old.program.sig (sort_numbers sorts.now) given.now
        (injection from.0 to.0 (plain_pattern left.now)) sort }
    requires right { (sort : ℕ) × IsCovered cx.old.program.sig (sort_numbers sorts.now) given.now
        (injection from.0 to.0 (plain_pattern right.now)) sort }
    ensures says { IfOk result (λ t. SaysUnder cx.new given.now.hypothesis
        (injectivity from.0 to.0 (plain_pattern left.now) (plain_pattern right.now))
        t.conclusion) }
    ensures no_hypotheses { IfOk result (λ t. t.hypotheses ≡ []) }
    ensures stays { IfOk result (StaysIn cx.new) }
    ensures grown { HasGrown cx.old cx.new }
{
    injective(alloc, cx, given, sorts, (from, to), left, right)
}

// `injective_under`.
fn injective(
    alloc: Global,
    cx: &mut Cx<'_>,
    given: &Given,
    sorts: &[SortId],
    pair: (SortId, SortId),
    left: &RulePat,
    right: &RulePat,
) -> Result<Thm, AllocError>
    requires ready { IsReady cx.old (sort_numbers sorts.now) given.now }
    requires left { HasElement cx.old.program.sig (sort_numbers sorts.now) given.now
        (injection pair.0.0 pair.1.0 (plain_pattern left.now)) }
    requires right { HasElement cx.old.program.sig (sort_numbers sorts.now) given.now
        (injection pair.0.0 pair.1.0 (plain_pattern right.now)) }
    ensures is { IfOk result (IsUnder cx.new given.now.hypothesis
        (injectivity pair.0.0 pair.1.0 (plain_pattern left.now) (plain_pattern right.now))) }
    ensures grown { HasGrown cx.old cx.new }
{
    let first = element(alloc, cx, given, sorts, left)?;
    let second = element(alloc, cx, given, sorts, right)?;
    let facts = vec![in alloc; first, second]?;
    let stated = cx.injective_from(alloc, pair.0, pair.1, first_new(sorts)?)?;
    at_patterns(alloc, &stated, &given.hypothesis, &facts)
}
