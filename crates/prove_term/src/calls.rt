// Calls of functions on patterns, and the same calls on the terms that the patterns become.
ghost use Rattle.std.specs.Prelude.{◌≡◌, ◌<◌, ℕ, List, [], length, IfOk, Some};
ghost use Rattle.term_core.specs.Forests.{forest};
ghost use Rattle.term_core.specs.Patterns.{call, ground_patterns, instances_of};
ghost use Rattle.term_core.specs.RulePatterns.{plain_pattern};
ghost use Rattle.term_core.specs.PatternLists.{plain_patterns};
ghost use Rattle.rule_core.specs.Matching.{RespectsSorts};
ghost use Rattle.rule_core.specs.Sorting.{HaveSorts};
ghost use Rattle.rule_core.specs.WellSorted.{IsSignature};
ghost use Rattle.rule_core.specs.declared.signature.SortRef.{SortRef};
ghost use Rattle.prove_term.specs.Contexts.{HasGrown};
ghost use Rattle.prove_term.specs.EqualCalls.{SaysEqualCalls};

use crate::comparing::all_compared;
use crate::congruence::taken_apart;
use crate::context::Cx;
use ml_kernel::Thm;
use std::alloc::{AllocError, Global};
use term_core::{RulePat, SortId, Subst, SymId, Term, pattern_of};

/// Proves that a function of patterns, with their variables replaced by a substitution's terms,
/// equals the function of the terms that the patterns become. If no two injections meet, both are
/// literally the same, and there is no theorem. `AllocError`: out of memory, or the error of
/// `inj_eq`. After an error the context may have grown.
pub fn call_eq(
    alloc: Global,
    cx: &mut Cx<'_>,
    function: SymId,
    args: &[RulePat],
    subst: &Subst,
    terms: &[Term],
) -> Result<Option<Thm>, AllocError>
    requires signature { IsSignature cx.old.program.sig }
    requires symbol { function.0 < length cx.old.program.sig.symbols }
    requires sorted { (variables : List ℕ) × (refs : List SortRef)
        × HaveSorts cx.old.program.sig variables [] (plain_patterns args.now) refs
        × RespectsSorts cx.old.program.sig variables subst.now }
    requires makes { instances_of subst.now (plain_patterns args.now) ≡ Some (forest terms.now) }
    ensures says { IfOk result
        (SaysEqualCalls cx.new function.0 subst.now (plain_patterns args.now) (forest terms.now)) }
    ensures grown { HasGrown cx.old cx.new }
{
    let whole = called(alloc, function, terms)?;
    let image = cx.image(alloc, &whole)?;
    let RulePat::Call(_, _, wholes) = &whole else {
        unreachable!()
    };
    let parts = taken_apart(alloc, &image, args.len())?;
    all_compared(alloc, cx, args, wholes, &parts.head, &parts.arguments)
}

// Returns the pattern of a function of terms.
pub(crate) fn called(alloc: Global, function: SymId, terms: &[Term]) -> Result<RulePat, AllocError>
    ensures { IfOk result
        (λ p. plain_pattern p ≡ call function.0 [] (ground_patterns (forest terms.now))) }
{
    let args = patterns(alloc, terms)?;
    let sorts: Vec<SortId> = Vec::new(alloc);
    Ok(RulePat::Call(function, sorts, args))
}

// Returns the patterns of terms.
fn patterns(alloc: Global, terms: &[Term]) -> Result<Vec<RulePat>, AllocError>
    ensures { IfOk result (λ ps. plain_patterns ps.items ≡ ground_patterns (forest terms.now)) }
{
    let mut made = Vec::with_capacity(alloc, terms.len())?;
    for term in terms {
        made.push(pattern_of(alloc, term)?)?;
    }
    Ok(made)
}
