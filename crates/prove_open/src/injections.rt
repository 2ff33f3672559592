// Injections of patterns with variables: under the hypothesis each is one element of its sort.
ghost use Rattle.std.specs.Prelude.{◌≡◌, IfOk, ℕ};
ghost use Rattle.ml_pat.specs.Patterns.{Pattern};
ghost use Rattle.term_core.specs.RulePatterns.{sort_numbers};
ghost use Rattle.rule_core.specs.Subsorts.{IsBelow};
ghost use Rattle.rule_core.specs.SubsortPaths.{IsPath};
ghost use Rattle.prove_term.specs.Contexts.{HasGrown};
ghost use Rattle.prove_term.specs.InjectionTables.{AllowsPair, InjectsBelow};
ghost use Rattle.prove_open.specs.Elements.{IsElementAt, IsRaised, RaisesTo, RaisesFurther};

use crate::instances::{at_patterns, carried_under, one_under};
use ml_kernel::Thm;
use ml_pat::{MPat, VarNo};
use prove_term::Cx;
use std::alloc::{AllocError, Global};
use term_core::SortId;

// If under the hypothesis a pattern is one element of a sort, then its injection into a higher sort
// is one element of that. The pattern has only variables below k. The fact is on the pattern.
pub(crate) fn injected_along(
    alloc: Global,
    cx: &mut Cx<'_>,
    h: &MPat,
    k: u32,
    from: SortId,
    to: SortId,
    fact: &Thm,
) -> Result<Thm, AllocError>
    requires injects { InjectsBelow cx.old.program.sig from.0 to.0 }
    requires element { (q : Pattern) × IsElementAt cx.old h.now k from.0 q fact.now }
    ensures raises { IfOk result (RaisesTo cx.old cx.new h.now k from.0 to.0 fact.now) }
    ensures grown { HasGrown cx.old cx.new }
{
    match cx.program().sig.subsorts.path(alloc, from, to)? {
        Some(sorts) => stepwise(alloc, cx, h, k, from, to, &sorts, fact),
        None => unreachable!(),
    }
}

// `injected_along` along a chain of declared pairs.
fn stepwise(
    alloc: Global,
    cx: &mut Cx<'_>,
    h: &MPat,
    k: u32,
    from: SortId,
    to: SortId,
    sorts: &[SortId],
    fact: &Thm,
) -> Result<Thm, AllocError>
    requires injects { InjectsBelow cx.old.program.sig from.0 to.0 }
    requires path { IsPath cx.old.program.sig.subsorts from.0 to.0 (sort_numbers sorts.now) }
    requires element { (q : Pattern) × IsElementAt cx.old h.now k from.0 q fact.now }
    ensures raises { IfOk result (RaisesTo cx.old cx.new h.now k from.0 to.0 fact.now) }
    ensures grown { HasGrown cx.old cx.new }
{
    let mut present = raised(alloc, cx, h, k, from, sorts[1], fact)?;
    for i in 2..sorts.len() {
        present = further(
            alloc,
            cx,
            h,
            k,
            from,
            (sorts[i - 1], sorts[i]),
            fact,
            &present,
        )?;
    }
    Ok(present)
}

// `injected_along` for a declared pair of sorts.
fn raised(
    alloc: Global,
    cx: &mut Cx<'_>,
    h: &MPat,
    k: u32,
    from: SortId,
    to: SortId,
    fact: &Thm,
) -> Result<Thm, AllocError>
    requires pair { AllowsPair cx.old.program.sig from.0 to.0 }
    requires element { (q : Pattern) × IsElementAt cx.old h.now k from.0 q fact.now }
    ensures raises { IfOk result (RaisesTo cx.old cx.new h.now k from.0 to.0 fact.now) }
    ensures grown { HasGrown cx.old cx.new }
{
    let total = cx.subsort_from(alloc, from, to, k)?;
    let facts = vec![in alloc; fact.share(alloc)?]?;
    let some = at_patterns(alloc, &total, h, &facts)?;
    one_under(alloc, &some)
}

// The injection into the upper sort of a declared pair, from that into the lower one, which is
// `lower`.
fn further(
    alloc: Global,
    cx: &mut Cx<'_>,
    h: &MPat,
    k: u32,
    from: SortId,
    pair: (SortId, SortId),
    fact: &Thm,
    lower: &Thm,
) -> Result<Thm, AllocError>
    requires below { IsBelow cx.old.program.sig.subsorts from.0 pair.0.0 }
    requires pair { AllowsPair cx.old.program.sig pair.0.0 pair.1.0 }
    requires raised { IsRaised cx.old h.now k from.0 pair.0.0 fact.now lower.now }
    ensures raises { IfOk result (RaisesFurther cx.old cx.new h.now k from.0 pair.0.0 pair.1.0
        fact.now lower.now) }
    ensures grown { HasGrown cx.old cx.new }
{
    let upper = raised(alloc, cx, h, k, pair.0, pair.1, lower)?;
    let collapse = cx.collapse_from(alloc, from, pair.0, pair.1, k)?;
    let facts = vec![in alloc; fact.share(alloc)?]?;
    let equality = at_patterns(alloc, &collapse, h, &facts)?;
    carried_under(alloc, h, &equality, &upper, VarNo(k))
}
