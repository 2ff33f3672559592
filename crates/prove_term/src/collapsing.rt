// Terms that are injected in two steps.
ghost use Rattle.std.specs.Prelude.{◌≡◌, [], IfOk};
ghost use Rattle.rule_core.specs.Sorting.{IsTermOf};
ghost use Rattle.rule_core.specs.Subsorts.{IsBelow};
ghost use Rattle.prove_term.specs.Contexts.{HasGrown, StaysIn};
ghost use Rattle.prove_term.specs.InjectionTables.{InjectsBelow};
ghost use Rattle.prove_term.specs.OpenAxioms.{SaysCollapseOf};

use crate::context::Cx;
use crate::elements::element;
use crate::joining::at_once;
use ml_kernel::Thm;
use std::alloc::{AllocError, Global};
use term_core::{SortId, Term, pattern_of};

/// Proves that a term, injected into a sort and then into a higher one, equals the term injected
/// into the higher sort at once. Lemmas are made when they are first needed. `AllocError`: out of
/// memory, or a constructor of the term has 2^31 arguments or more. After an error the context may
/// have grown. The recursion is as deep as the term is high.
pub fn collapse_eq(
    alloc: Global,
    cx: &mut Cx<'_>,
    from: SortId,
    through: SortId,
    to: SortId,
    term: &Term,
) -> Result<Thm, AllocError>
    requires below { IsBelow cx.old.program.sig.subsorts from.0 through.0 }
    requires above { InjectsBelow cx.old.program.sig through.0 to.0 }
    requires sorted { IsTermOf cx.old.program.sig term.now from.0 }
    ensures says { IfOk result
        (λ t. SaysCollapseOf cx.new from.0 through.0 to.0 term.now t.conclusion) }
    ensures no_hypotheses { IfOk result (λ t. t.hypotheses ≡ []) }
    ensures stays { IfOk result (StaysIn cx.new) }
    ensures grown { HasGrown cx.old cx.new }
{
    let pattern = pattern_of(alloc, term)?;
    let fact = element(alloc, cx, &pattern)?;
    let place = cx.collapse(alloc, from, through, to)?;
    at_once(alloc, &cx.lemmas()[place], &fact)
}
