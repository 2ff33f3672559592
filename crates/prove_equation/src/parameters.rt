// Equations in the form of kompile, at terms: each term is a member of the argument of its
// parameter.
ghost use Rattle.std.specs.Prelude.{◌≡◌, ◌≢◌, ◌≤◌, ◌^◌, ◌++◌, [], ◌∷◌, ℕ, List, length, IfOk};
ghost use Rattle.std.specs.Prelude.{Some};
ghost use Rattle.std.specs.List.{AllZip};
ghost use Rattle.ml_pat.specs.Patterns.{fun, imp, member};
ghost use Rattle.ml_derived.specs.Scopes.{StaysWithin};
ghost use Rattle.term_core.specs.Forests.{forest};
ghost use Rattle.term_core.specs.Patterns.{Patterns, instance_of, instances_of};
ghost use Rattle.term_core.specs.PatternLists.{plain_patterns};
ghost use Rattle.term_core.specs.RulePatterns.{plain_pattern};
ghost use Rattle.rule_core.specs.Matching.{RespectsSorts};
ghost use Rattle.rule_core.specs.NamedParts.{pattern_at};
ghost use Rattle.rule_core.specs.ProgramView.{function_equation, names_of};
ghost use Rattle.rule_core.specs.Sorting.{HasSort, HaveSorts};
ghost use Rattle.rule_core.specs.WellSorted.{IsSignature};
ghost use Rattle.rule_core.specs.declared.signature.SortRef.{SortRef};
ghost use Rattle.ml_image.specs.NamedSides.{of_child};
ghost use Rattle.prove_term.specs.Contexts.{HasGrown};
ghost use Rattle.prove_term.specs.FilledSides.{AreBoundToParts};
ghost use Rattle.prove_schema.specs.Elements.{IsElementOf};
ghost use Rattle.prove_equation.specs.Conditions.{CanUseAt, ProvesAt};
ghost use Rattle.prove_equation.specs.Parameters.{AreMemberships, CanEnter, IsEntered, IsInItself};
ghost use Rattle.prove_equation.specs.Parameters.{IsMembership, IsEquality, IsInHole, SaysElement};
ghost use Rattle.prove_equation.specs.Parameters.{StaysEntered};

use crate::conditions::given;
use ml_derived::{carry, flip, mp};
use ml_kernel::{Lemma, Thm};
use ml_pat::{MForm, MPat, MSort, VarNo};
use prove_schema::{elements, schema_at, term_elements};
use prove_term::{Cx, inj_eq_named};
use rule_core::{Equation, Named};
use std::alloc::{AllocError, Global};
use term_core::{RulePat, Subst, Term};

// Proves what the lemma of an equation in the form of kompile says of its function at terms that
// its arguments match.
pub(crate) fn kompile_at(
    alloc: Global,
    cx: &mut Cx<'_>,
    lemma: &Lemma,
    equation: &Equation,
    subst: &Subst,
    args: &[Term],
    condition: &Option<Thm>,
    denied: &Option<Thm>,
) -> Result<Thm, AllocError>
    requires usable { CanUseAt cx.old equation.now.fun.0 (function_equation equation.now) lemma.now
        subst.now (forest args.now) condition.now denied.now }
    requires kompile { equation.now.params ≢ 0 }
    ensures proves { IfOk result
        (ProvesAt cx.new equation.now.fun.0 (function_equation equation.now) subst.now
        (forest args.now)) }
    ensures grown { HasGrown cx.old cx.new }
{
    let first = term_elements(alloc, cx, args)?;
    let members = memberships(
        alloc,
        cx,
        &equation.args,
        &equation.named,
        subst,
        args,
        &first,
    )?;
    let rest = elements(alloc, cx, subst)?;
    let facts = joined(alloc, &first, &rest)?;
    let denials = given(alloc, denied)?;
    let before = joined(alloc, &members, &denials)?;
    let held = given(alloc, condition)?;
    let others = joined(alloc, &before, &held)?;
    schema_at(alloc, lemma, &facts, &others)
}

// Returns the theorems of the first list, followed by those of the second.
fn joined(alloc: Global, first: &[Thm], second: &[Thm]) -> Result<Vec<Thm>, AllocError>
    ensures { IfOk result (λ v. v.items ≡ first.now ++ second.now) }
{
    let mut theorems = Vec::new(alloc);
    for thm in first {
        theorems.push(thm.share(alloc)?)?;
    }
    for other in second {
        theorems.push(other.share(alloc)?)?;
    }
    Ok(theorems)
}

// Proves that each term is a member of the pattern at its place, with the names of its parts, and
// with the pattern's variables replaced by a substitution's terms.
fn memberships(
    alloc: Global,
    cx: &mut Cx<'_>,
    pats: &[RulePat],
    named: &[Named],
    subst: &Subst,
    terms: &[Term],
    facts: &[Thm],
) -> Result<Vec<Thm>, AllocError>
    requires signature { IsSignature cx.old.program.sig }
    requires sorted { (variables : List ℕ) × (refs : List SortRef)
        × HaveSorts cx.old.program.sig variables [] (plain_patterns pats.now) refs
        × RespectsSorts cx.old.program.sig variables subst.now }
    requires makes { instances_of subst.now (plain_patterns pats.now) ≡ Some (forest terms.now) }
    requires named { AreBoundToParts subst.now (plain_patterns pats.now) (names_of named.now) }
    requires few { length pats.now ≤ 2 ^ 32 }
    requires facts { AllZip (IsElementOf cx.old) terms.now facts.now }
    ensures members { IfOk result
        (λ v. AreMemberships cx.new subst.now (names_of named.now) 0 (plain_patterns pats.now)
        terms.now v.items) }
    ensures grown { HasGrown cx.old cx.new }
{
    let mut members = Vec::with_capacity(alloc, pats.len())?;
    for i in 0..pats.len() {
        let argument = i as u32;
        members.push(membership(
            alloc, cx, &pats[i], named, argument, subst, &terms[i], &facts[i],
        )?)?;
    }
    Ok(members)
}

// Proves that a term is a member of a pattern that becomes it, with the pattern as it is written.
// The pattern is the argument with this number, and `named` are the names of parts of the arguments.
fn membership(
    alloc: Global,
    cx: &mut Cx<'_>,
    pat: &RulePat,
    named: &[Named],
    argument: u32,
    subst: &Subst,
    term: &Term,
    fact: &Thm,
) -> Result<Thm, AllocError>
    requires signature { IsSignature cx.old.program.sig }
    requires sorted { (variables : List ℕ) × (sort : ℕ)
        × HasSort cx.old.program.sig variables (plain_pattern pat.now) sort
        × RespectsSorts cx.old.program.sig variables subst.now }
    requires makes { instance_of subst.now (plain_pattern pat.now) ≡ Some term.now }
    requires named { (ps : Patterns) × (pattern_at ps argument ≡ Some (plain_pattern pat.now))
        × AreBoundToParts subst.now ps (names_of named.now) }
    requires fact { IsElementOf cx.old term.now fact.now }
    ensures member { IfOk result
        (IsMembership cx.new subst.now (of_child argument (names_of named.now))
        (plain_pattern pat.now) term.now) }
    ensures grown { HasGrown cx.old cx.new }
{
    // The contract of `height` says that a term is not too high.
    let _height = term.height();
    let itself = in_itself(alloc, fact)?;
    let equality = inj_eq_named(alloc, cx, pat, named, argument, subst)?;
    in_written(alloc, itself, &equality)
}

// Proves `p in p` from the fact that p is one element of a sort.
fn in_itself(alloc: Global, fact: &Thm) -> Result<Thm, AllocError>
    requires { SaysElement fact.now.conclusion }
    ensures says { IfOk result (IsInItself fact.now) }
    ensures stays { IfOk result (StaysWithin [] (fact.now ∷ [])) }
{
    let (element, sort) = subject(fact.conclusion());
    let rule = mem_in(alloc, element, sort)?;
    let itself = MPat::member(alloc, element, element)?;
    mp(alloc, fact, &rule, fact.conclusion(), &itself)
}

// `fun p s -> p in p`.
fn mem_in(alloc: Global, p: &MPat, s: MSort) -> Result<Thm, AllocError>
    ensures conclusion { IfOk result
        (λ t. t.conclusion ≡ imp (fun p.now s.0) (member p.now p.now)) }
    ensures stays { IfOk result (StaysWithin (fun p.now s.0 ∷ []) []) }
{
    Thm::mem_in(alloc, p, s)
}

// Returns the pattern that a fact says to be one element of a sort, and the sort.
fn subject(fact: &MPat) -> (&MPat, MSort)
    requires { SaysElement fact.now }
    ensures { fact.now ≡ fun result.0.now result.1.0 }
{
    match fact.form() {
        MForm::Fun(element, sort) => (element, *sort),
        _ => unreachable!(),
    }
}

// Proves `q in p` from `q in q` and `p = q`. Without the second, q is p, and the result is the
// given theorem.
fn in_written(alloc: Global, itself: Thm, equality: &Option<Thm>) -> Result<Thm, AllocError>
    requires { CanEnter itself.conclusion equality.now }
    ensures says { IfOk result (IsEntered itself equality.now) }
    ensures stays { IfOk result (StaysEntered itself equality.now) }
{
    match equality {
        Some(thm) => {
            let turned = flip(alloc, thm)?;
            let context = in_hole(alloc, turned.conclusion())?;
            carry(alloc, &turned, &context, VarNo(0), &itself)
        }
        None => Ok(itself),
    }
}

// Returns `q in x` from `q = p`. The variable x marks a place.
fn in_hole(alloc: Global, equality: &MPat) -> Result<MPat, AllocError>
    requires { IsEquality equality.now }
    ensures { IfOk result (λ c. IsInHole equality.now c) }
{
    match equality.form() {
        MForm::Equal(left, _) => MPat::member(alloc, left, &MPat::var(alloc, VarNo(0))?),
        _ => unreachable!(),
    }
}
