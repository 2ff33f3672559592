// Terms that replace pattern variables: each is one element of its sort.
ghost use Rattle.std.specs.Prelude.{◌≤◌, ◌^◌, length, IfOk};
ghost use Rattle.std.specs.List.{AllZip};
ghost use Rattle.term_core.specs.Patterns.{binding};
ghost use Rattle.rule_core.specs.ProgramView.{theory_of};
ghost use Rattle.rule_core.specs.WellSorted.{IsWellSorted};
ghost use Rattle.prove_term.specs.Contexts.{HasGrown};
ghost use Rattle.prove_schema.specs.Elements.{AllBound, AreElementsFor, AreTerms, IsBound};
ghost use Rattle.prove_schema.specs.Elements.{IsElementFor, IsElementOf};

use ml_kernel::Thm;
use prove_term::{Cx, fun_of};
use std::alloc::{AllocError, Global};
use term_core::{Subst, Term};

/// Proves that each term that a substitution gives a variable is one element of its sort.
/// `AllocError`: out of memory, or the error of `fun_of`. After an error the context may have
/// grown.
pub fn elements(alloc: Global, cx: &mut Cx<'_>, subst: &Subst) -> Result<Vec<Thm>, AllocError>
    requires well_sorted { IsWellSorted (theory_of cx.old.program) }
    requires few { length subst.now ≤ 2 ^ 32 }
    requires bound { AllBound cx.old.program.sig subst.now }
    ensures facts { IfOk result (λ v. AreElementsFor cx.new subst.now v.items) }
    ensures grown { HasGrown cx.old cx.new }
{
    let mut facts = Vec::with_capacity(alloc, subst.vars())?;
    for x in 0..subst.vars() {
        facts.push(element(alloc, cx, subst, x as u32)?)?;
    }
    Ok(facts)
}

// Proves that the term that is bound to a variable is one element of its sort.
fn element(alloc: Global, cx: &mut Cx<'_>, subst: &Subst, x: u32) -> Result<Thm, AllocError>
    requires well_sorted { IsWellSorted (theory_of cx.old.program) }
    requires bound { IsBound cx.old.program.sig subst.now x }
    ensures fact { IfOk result (IsElementFor cx.new (binding subst.now x)) }
    ensures grown { HasGrown cx.old cx.new }
{
    match subst.get(x) {
        Some(term) => fun_of(alloc, cx, term),
        None => unreachable!(),
    }
}

/// Proves that each of the terms is one element of its sort. `AllocError`: out of memory, or the
/// error of `fun_of`. After an error the context may have grown.
pub fn term_elements(alloc: Global, cx: &mut Cx<'_>, terms: &[Term]) -> Result<Vec<Thm>, AllocError>
    requires well_sorted { IsWellSorted (theory_of cx.old.program) }
    requires sorted { AreTerms cx.old.program.sig terms.now }
    ensures facts { IfOk result (λ v. AllZip (IsElementOf cx.new) terms.now v.items) }
    ensures grown { HasGrown cx.old cx.new }
{
    let mut facts = Vec::with_capacity(alloc, terms.len())?;
    for term in terms {
        facts.push(fun_of(alloc, cx, term)?)?;
    }
    Ok(facts)
}
