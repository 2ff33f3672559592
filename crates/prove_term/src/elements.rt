// Terms: each is one element of its sort.
ghost use Rattle.std.specs.Prelude.{◌≡◌, ℕ, [], IfOk};
ghost use Rattle.ml_pat.specs.Patterns.{Pattern, fun};
ghost use Rattle.term_core.specs.GroundPatterns.{IsGround, AreGround};
ghost use Rattle.term_core.specs.Patterns.{application, injection};
ghost use Rattle.term_core.specs.RulePatterns.{plain_pattern};
ghost use Rattle.term_core.specs.PatternLists.{plain_patterns};
ghost use Rattle.rule_core.specs.ProgramView.{theory_of};
ghost use Rattle.rule_core.specs.Sorting.{IsTermOf};
ghost use Rattle.rule_core.specs.WellSorted.{IsSignature, IsWellSorted};
ghost use Rattle.prove_term.specs.Contexts.{HasGrown, StaysIn};
ghost use Rattle.prove_term.specs.Functional.{SaysFunctional};
ghost use Rattle.prove_term.specs.Elements.{IsSorted, AreSorted, IsElement, AreElements};

use crate::context::Cx;
use crate::joining::cited;
use ml_kernel::Thm;
use ml_pat::{MForm, MPat};
use std::alloc::{AllocError, Global};
use term_core::{RulePat, SortId, SymId, Term, pattern_of};

/// Proves that a term is one element of its sort, from the axioms of its values and the lemmas of
/// its constructors and injections. These are made when they are first needed. `AllocError`: out of
/// memory, or a constructor of the term has 2^31 arguments or more. After an error the context may
/// have grown. The recursion is as deep as the term is high.
pub fn fun_of(alloc: Global, cx: &mut Cx<'_>, term: &Term) -> Result<Thm, AllocError>
    requires well_sorted { IsWellSorted (theory_of cx.old.program) }
    requires sorted { (sort : ℕ) × IsTermOf cx.old.program.sig term.now sort }
    ensures says { IfOk result (λ t. SaysFunctional cx.new term.now t.conclusion) }
    ensures no_hypotheses { IfOk result (λ t. t.hypotheses ≡ []) }
    ensures stays { IfOk result (StaysIn cx.new) }
    ensures grown { HasGrown cx.old cx.new }
{
    let pattern = pattern_of(alloc, term)?;
    element(alloc, cx, &pattern)
}

// Proves that a pattern without variables and calls is one element of its sort.
#[cycle(element)]
pub(crate) fn element(alloc: Global, cx: &mut Cx<'_>, pat: &RulePat) -> Result<Thm, AllocError>
    requires signature { IsSignature cx.old.program.sig }
    requires sorted { IsSorted cx.old.program.sig (plain_pattern pat.now) }
    requires ground { IsGround (plain_pattern pat.now) }
    ensures says { IfOk result (λ t. IsElement cx.new (plain_pattern pat.now) t.conclusion) }
    ensures no_hypotheses { IfOk result (λ t. t.hypotheses ≡ []) }
    ensures stays { IfOk result (StaysIn cx.new) }
    ensures grown { HasGrown cx.old cx.new }
{
    match pat {
        RulePat::Value(sort, value) => cx.value(alloc, *sort, value),
        RulePat::Ctor(symbol, args) => constructed(alloc, cx, *symbol, args),
        RulePat::Inj(from, to, below) => injected(alloc, cx, *from, *to, below),
        RulePat::Var(_) | RulePat::Call(..) => unreachable!(),
    }
}

// `element` for a constructor of arguments, by its lemma.
#[cycle(element)]
fn constructed(
    alloc: Global,
    cx: &mut Cx<'_>,
    symbol: SymId,
    args: &[RulePat],
) -> Result<Thm, AllocError>
    requires signature { IsSignature cx.old.program.sig }
    requires sorted { IsSorted cx.old.program.sig (application symbol.0 (plain_patterns args.now)) }
    requires ground { AreGround (plain_patterns args.now) }
    ensures says { IfOk result
        (λ t. IsElement cx.new (application symbol.0 (plain_patterns args.now)) t.conclusion) }
    ensures no_hypotheses { IfOk result (λ t. t.hypotheses ≡ []) }
    ensures stays { IfOk result (StaysIn cx.new) }
    ensures grown { HasGrown cx.old cx.new }
{
    let place = cx.constructor(alloc, symbol)?;
    let made = all_elements(alloc, cx, args)?;
    Thm::use_lemma(alloc, &cx.lemmas()[place], &made.images, &made.proofs)
}

// `element` for an injection, by its lemma.
#[cycle(element)]
fn injected(
    alloc: Global,
    cx: &mut Cx<'_>,
    from: SortId,
    to: SortId,
    below: &RulePat,
) -> Result<Thm, AllocError>
    requires signature { IsSignature cx.old.program.sig }
    requires sorted { IsSorted cx.old.program.sig
        (injection from.0 to.0 (plain_pattern below.now)) }
    requires ground { IsGround (plain_pattern below.now) }
    ensures says { IfOk result
        (λ t. IsElement cx.new (injection from.0 to.0 (plain_pattern below.now)) t.conclusion) }
    ensures no_hypotheses { IfOk result (λ t. t.hypotheses ≡ []) }
    ensures stays { IfOk result (StaysIn cx.new) }
    ensures grown { HasGrown cx.old cx.new }
{
    let place = cx.injection(alloc, from, to)?;
    let proof = element(alloc, cx, below)?;
    cited(alloc, &cx.lemmas()[place], proof)
}

// The images of arguments, and proofs that each is one element of its sort. Both are in reverse
// order.
#[derive(Drop)]
struct Arguments {
    images: Vec<MPat>,
    proofs: Vec<Thm>,
}

#[cycle(element)]
fn all_elements(alloc: Global, cx: &mut Cx<'_>, args: &[RulePat]) -> Result<Arguments, AllocError>
    requires signature { IsSignature cx.old.program.sig }
    requires sorted { AreSorted cx.old.program.sig (plain_patterns args.now) }
    requires ground { AreGround (plain_patterns args.now) }
    ensures elements { IfOk result
        (λ a. AreElements cx.new (plain_patterns args.now) a.images.items a.proofs.items) }
    ensures grown { HasGrown cx.old cx.new }
{
    let mut images = Vec::with_capacity(alloc, args.len())?;
    let mut proofs = Vec::with_capacity(alloc, args.len())?;
    for i in (0..args.len()).rev() {
        let made = element(alloc, cx, &args[i])?;
        images.push(subject(&made)?)?;
        proofs.push(made)?;
    }
    images.reverse();
    Ok(Arguments { images, proofs })
}

// Returns the pattern that a theorem says to be one element of a sort.
pub(crate) fn subject(made: &Thm) -> Result<MPat, AllocError>
    requires { (p : Pattern) × (s : ℕ) × (made.now.conclusion ≡ fun p s) }
    ensures { IfOk result (λ q. (p : Pattern) (s : ℕ) → made.now.conclusion ≡ fun p s → q ≡ p) }
{
    let MForm::Fun(p, _) = made.conclusion().form() else {
        unreachable!()
    };
    p.share()
}
