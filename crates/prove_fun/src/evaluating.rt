// Patterns and the records of their evaluations: the image of a pattern, with its variables
// replaced by the terms of a substitution, equals the image of its value.
//
// It recurses over records. What a level does for one kind of record is a call of its own, so that a
// level takes the stack of its own kind alone.
ghost use Rattle.std.specs.Prelude.{◌≡◌, ◌≤◌, ℕ, List, IfOk, IfSome, Some, [], length, map, slice_get};
ghost use Rattle.ml_pat.specs.Patterns.{Pattern};
ghost use Rattle.ml_kernel.specs.Lemmas.{HasNoVariable};
ghost use Rattle.term_core.specs.Terms.{Forest, height, injected};
ghost use Rattle.term_core.specs.Patterns.{application, call, ground_pattern, ground_patterns};
ghost use Rattle.term_core.specs.Patterns.{injection};
ghost use Rattle.term_core.specs.RulePatterns.{plain_pattern};
ghost use Rattle.term_core.specs.PatternLists.{plain_patterns};
ghost use Rattle.rule_core.specs.Sorting.{HasInjection, HasSort, IsTermOf};
ghost use Rattle.rule_core.specs.Subsorts.{IsBelow};
ghost use Rattle.rule_core.specs.ProgramView.{theory_of};
ghost use Rattle.rule_core.specs.Rules.{Equation as PlainEquation};
ghost use Rattle.rule_core.specs.Theories.{equations_of};
ghost use Rattle.rule_core.specs.BoundVariables.{HasBoundVariables, IsEquationAt};
ghost use Rattle.rule_core.specs.Records.{Records, result_of, results_of};
ghost use Rattle.rule_core.specs.RecordView.{plain_record};
ghost use Rattle.rule_core.specs.WellSorted.{IsSignature, IsWellSorted, BindsVariablesOf};
ghost use Rattle.prove_term.specs.Contexts.{Context, HasGrown, StaysIn};
ghost use Rattle.prove_term.specs.Schemas.{AreImages};
ghost use Rattle.prove_term.specs.Applications.{applied_to};
ghost use Rattle.prove_term.specs.Comparing.{IsOverContext};
ghost use Rattle.prove_term.specs.Values.{SaysEquationAt, SaysValue};
ghost use Rattle.prove_fun.specs.Valuing.{EqualsValue};
ghost use Rattle.prove_fun.specs.KeptLemmas.{IsKeptIn};
ghost use Rattle.prove_fun.specs.RecordParts.{children, children_of};
ghost use Rattle.prove_fun.specs.Evaluating.{AreEvaluated, AreRecorded, Equates, IsEvaluated};
ghost use Rattle.prove_fun.specs.Evaluating.{IsImage};
ghost use Rattle.prove_fun.specs.Evaluating.{IsInjectedOnce, IsSortedAndBound, IsRecorded};
ghost use Rattle.prove_fun.specs.Evaluating.{SaysCall};
ghost use Rattle.prove_fun.specs.Missing.{AreMissedAt, AreValued, IsMissedAt, IsValued};
ghost use Rattle.prove_fun.specs.Using.{IsUseRecord, SaysConditionAt, missed_record, used_record};

use crate::equating::{equality, followed, joined};
use crate::equations::{equation_fact, equation_of, results};
use crate::hooks::hook_fact;
use crate::lemma_places::LemmaPlaces;
use crate::parts::{child, sides};
use ml_kernel::Thm;
use ml_pat::MPat;
use prove_term::{Cx, applied, halves, inj_eq, join, taken_apart};
use rule_core::{EqRecord, Equation, EvalRecord, Miss};
use std::alloc::{AllocError, Global};
use term_core::{MAX_HEIGHT, RulePat, SortId, Subst, SymId, Term, pattern_of};

/// Proves that the image of a pattern, with its variables replaced by the images of a
/// substitution's terms, equals the image of its value, by the record of its evaluation. If both
/// are literally the same, there is no theorem. What is stated and proved once is kept in the
/// context, and `kept` has the places of the equations' lemmas there. `AllocError`: out of memory,
/// or the error of `fun_of`. After an error the context may have grown. The recursion is as deep as
/// the record. An injection costs the size of its value, and a call the sizes of its arguments'
/// values.
pub fn eval_eq(
    alloc: Global,
    cx: &mut Cx<'_>,
    kept: &mut LemmaPlaces,
    pat: &RulePat,
    subst: &Subst,
    evaluation: &EvalRecord,
) -> Result<Option<Thm>, AllocError>
    requires well_sorted { IsWellSorted (theory_of cx.old.program) }
    requires bound { HasBoundVariables cx.old.program }
    requires sorted { (variables : List ℕ) × (sort : ℕ)
        × HasSort cx.old.program.sig variables (plain_pattern pat.now) sort
        × BindsVariablesOf cx.old.program.sig variables subst.now (plain_pattern pat.now) }
    requires recorded { Records (theory_of cx.old.program) subst.now (plain_pattern pat.now)
        (plain_record evaluation.now) }
    requires kept { IsKeptIn cx.old kept.old }
    ensures says { IfOk result
        (EqualsValue cx.new subst.now (plain_pattern pat.now)
        (result_of (plain_record evaluation.now))) }
    ensures stays { IfOk result (λ o. IfSome o (StaysIn cx.new)) }
    ensures grown { HasGrown cx.old cx.new }
    ensures kept { IsKeptIn cx.new kept.new }
{
    let whole = pattern_of(alloc, evaluation.result())?;
    let image = cx.image(alloc, &whole)?;
    evaluated(alloc, cx, kept, pat, subst, evaluation, &image)
}

/// The same, with a theorem in each case, even if both images are the same. `AllocError`: as for
/// `eval_eq`. After an error the context may have grown.
pub fn value_eq(
    alloc: Global,
    cx: &mut Cx<'_>,
    kept: &mut LemmaPlaces,
    pat: &RulePat,
    subst: &Subst,
    evaluation: &EvalRecord,
) -> Result<Thm, AllocError>
    requires well_sorted { IsWellSorted (theory_of cx.old.program) }
    requires bound { HasBoundVariables cx.old.program }
    requires sorted { (variables : List ℕ) × (sort : ℕ)
        × HasSort cx.old.program.sig variables (plain_pattern pat.now) sort
        × BindsVariablesOf cx.old.program.sig variables subst.now (plain_pattern pat.now) }
    requires recorded { Records (theory_of cx.old.program) subst.now (plain_pattern pat.now)
        (plain_record evaluation.now) }
    requires kept { IsKeptIn cx.old kept.old }
    ensures says { IfOk result (λ t.
        SaysValue cx.new subst.now (plain_pattern pat.now) (result_of (plain_record evaluation.now))
        t.conclusion) }
    ensures stays { IfOk result (StaysIn cx.new) }
    ensures grown { HasGrown cx.old cx.new }
    ensures kept { IsKeptIn cx.new kept.new }
{
    value_held(alloc, cx, kept, pat, subst, evaluation)
}

// The same, with the image of the value.
#[cycle(evaluated)]
fn evaluated(
    alloc: Global,
    cx: &mut Cx<'_>,
    kept: &mut LemmaPlaces,
    pat: &RulePat,
    subst: &Subst,
    evaluation: &EvalRecord,
    image: &MPat,
) -> Result<Option<Thm>, AllocError>
    requires recorded { IsRecorded cx.old.program subst.now (plain_pattern pat.now)
        (plain_record evaluation.now) }
    requires image { IsImage cx.old (ground_pattern (result_of (plain_record evaluation.now)))
        image.now }
    requires kept { IsKeptIn cx.old kept.old }
    ensures says { IfOk result (IsEvaluated cx.new subst.now (plain_pattern pat.now) image.now) }
    ensures grown { HasGrown cx.old cx.new }
    ensures kept { IsKeptIn cx.new kept.new }
{
    match pat {
        RulePat::Var(_) => Ok(None),
        RulePat::Value(..) => Ok(None),
        RulePat::Ctor(_, args) => constructed(alloc, cx, kept, args, subst, evaluation, image),
        RulePat::Inj(from, to, below) => {
            injected(alloc, cx, kept, *from, *to, below, subst, evaluation, image)
        }
        RulePat::Call(symbol, _, args) => {
            Ok(Some(called(alloc, cx, kept, *symbol, args, subst, evaluation, image)?))
        }
    }
}

// The same for a constructor of arguments.
#[cycle(evaluated)]
fn constructed(
    alloc: Global,
    cx: &mut Cx<'_>,
    kept: &mut LemmaPlaces,
    args: &[RulePat],
    subst: &Subst,
    evaluation: &EvalRecord,
    image: &MPat,
) -> Result<Option<Thm>, AllocError>
    requires recorded { (f : ℕ) × IsRecorded cx.old.program subst.now
        (application f (plain_patterns args.now)) (plain_record evaluation.now) }
    requires image { IsImage cx.old (ground_pattern (result_of (plain_record evaluation.now)))
        image.now }
    requires kept { IsKeptIn cx.old kept.old }
    ensures says { IfOk result (λ o. (f : ℕ) →
        IsRecorded cx.old.program subst.now (application f (plain_patterns args.now))
        (plain_record evaluation.now) →
        IsEvaluated cx.new subst.now (application f (plain_patterns args.now)) image.now o) }
    ensures grown { HasGrown cx.old cx.new }
    ensures kept { IsKeptIn cx.new kept.new }
{
    let parts = taken_apart(alloc, image, args.len())?;
    all_evaluated(
        alloc,
        cx,
        kept,
        args,
        subst,
        evaluation,
        &parts.head,
        &parts.arguments,
    )
}

// The same for arguments, to whose images a head is applied.
#[cycle(evaluated)]
fn all_evaluated(
    alloc: Global,
    cx: &mut Cx<'_>,
    kept: &mut LemmaPlaces,
    args: &[RulePat],
    subst: &Subst,
    evaluation: &EvalRecord,
    head: &MPat,
    images: &[MPat],
) -> Result<Option<Thm>, AllocError>
    requires recorded { AreRecorded cx.old.program subst.now (plain_patterns args.now)
        (children_of (plain_record evaluation.now)) }
    requires head { HasNoVariable head.now × IsOverContext cx.old head.now }
    requires images { AreImages cx.old.program.sig cx.old.names
        (ground_patterns (results_of (children_of (plain_record evaluation.now)))) images.now }
    requires kept { IsKeptIn cx.old kept.old }
    ensures says { IfOk result
        (AreEvaluated cx.new subst.now (plain_patterns args.now) head.now
        (applied_to head.now images.now)) }
    ensures grown { HasGrown cx.old cx.new }
    ensures kept { IsKeptIn cx.new kept.new }
{
    let mut made: Option<Thm> = None;
    let mut function = head.share()?;
    for i in 0..args.len() {
        let argument = &images[i];
        let one = evaluated(
            alloc,
            cx,
            kept,
            &args[i],
            subst,
            child(evaluation, i),
            argument,
        )?;
        made = applied(alloc, cx, &made, &function, &one, argument)?;
        function = MPat::app(alloc, &function, argument)?;
    }
    Ok(made)
}

// The same for an injection.
#[cycle(evaluated)]
#[inline(never)]
fn injected(
    alloc: Global,
    cx: &mut Cx<'_>,
    kept: &mut LemmaPlaces,
    from: SortId,
    to: SortId,
    below: &RulePat,
    subst: &Subst,
    evaluation: &EvalRecord,
    image: &MPat,
) -> Result<Option<Thm>, AllocError>
    requires recorded { IsRecorded cx.old.program subst.now
        (injection from.0 to.0 (plain_pattern below.now)) (plain_record evaluation.now) }
    requires image { IsImage cx.old (ground_pattern (result_of (plain_record evaluation.now)))
        image.now }
    requires kept { IsKeptIn cx.old kept.old }
    ensures says { IfOk result
        (IsEvaluated cx.new subst.now (injection from.0 to.0 (plain_pattern below.now)) image.now) }
    ensures grown { HasGrown cx.old cx.new }
    ensures kept { IsKeptIn cx.new kept.new }
{
    let inner = child(evaluation, 0);
    let once = injected_once(alloc, cx, from, to, inner.result())?;
    let whole = as_written(&once, image)?;
    let (head, argument) = halves(&whole);
    let one = evaluated(alloc, cx, kept, below, subst, inner, argument)?;
    let beneath = applied(alloc, cx, &None, head, &one, argument)?;
    joined(alloc, cx, beneath, once)
}

// The same for a call of a function.
#[cycle(evaluated)]
fn called(
    alloc: Global,
    cx: &mut Cx<'_>,
    kept: &mut LemmaPlaces,
    symbol: SymId,
    args: &[RulePat],
    subst: &Subst,
    evaluation: &EvalRecord,
    image: &MPat,
) -> Result<Thm, AllocError>
    requires recorded { IsRecorded cx.old.program subst.now
        (call symbol.0 [] (plain_patterns args.now))
        (plain_record evaluation.now) }
    requires image { IsImage cx.old (ground_pattern (result_of (plain_record evaluation.now)))
        image.now }
    requires kept { IsKeptIn cx.old kept.old }
    ensures says { IfOk result (λ t.
        IsEvaluated cx.new subst.now (call symbol.0 [] (plain_patterns args.now)) image.now
        (Some t)) }
    ensures grown { HasGrown cx.old cx.new }
    ensures kept { IsKeptIn cx.new kept.new }
{
    match evaluation {
        EvalRecord::ByHook(..) => {
            let fact = hook_fact(alloc, cx, symbol, evaluation, args.len())?;
            at_values(alloc, cx, kept, args, subst, evaluation, &fact)
        }
        EvalRecord::ByEquation(used) => {
            by_equation(
                alloc, cx, kept, symbol, args, subst, evaluation, used, image,
            )
        }
        EvalRecord::Bound(..) => unreachable!(),
        EvalRecord::Value(..) => unreachable!(),
        EvalRecord::Ctor(..) => unreachable!(),
        EvalRecord::Inj(..) => unreachable!(),
    }
}

// The same for a call whose value an equation gave.
#[cycle(evaluated)]
#[inline(never)]
fn by_equation(
    alloc: Global,
    cx: &mut Cx<'_>,
    kept: &mut LemmaPlaces,
    symbol: SymId,
    args: &[RulePat],
    subst: &Subst,
    evaluation: &EvalRecord,
    used: &EqRecord,
    image: &MPat,
) -> Result<Thm, AllocError>
    requires recorded { IsRecorded cx.old.program subst.now
        (call symbol.0 [] (plain_patterns args.now))
        (plain_record evaluation.now) }
    requires used { plain_record evaluation.now ≡ used_record used.now }
    requires image { IsImage cx.old (ground_pattern (result_of (plain_record evaluation.now)))
        image.now }
    requires kept { IsKeptIn cx.old kept.old }
    ensures says { IfOk result (λ t.
        IsEvaluated cx.new subst.now (call symbol.0 [] (plain_patterns args.now)) image.now
        (Some t)) }
    ensures grown { HasGrown cx.old cx.new }
    ensures kept { IsKeptIn cx.new kept.new }
{
    let equation = equation_of(cx.program(), symbol, used.equation as usize);
    let fact = used_equation(
        alloc,
        cx,
        kept,
        symbol,
        equation,
        evaluation,
        used,
        args.len(),
    )?;
    let first = at_values(alloc, cx, kept, args, subst, evaluation, &fact)?;
    let right = evaluated(
        alloc,
        cx,
        kept,
        &equation.right,
        &used.subst,
        &used.body,
        image,
    )?;
    followed(alloc, cx, first, &right)
}

// Proves that the function of the arguments' values equals the right side of the equation that was
// used, with its variables replaced by what they were matched with. The call has `count` arguments.
#[cycle(evaluated)]
#[inline(never)]
fn used_equation(
    alloc: Global,
    cx: &mut Cx<'_>,
    kept: &mut LemmaPlaces,
    symbol: SymId,
    equation: &Equation,
    evaluation: &EvalRecord,
    used: &EqRecord,
    count: usize,
) -> Result<Thm, AllocError>
    requires ready { IsSortedAndBound cx.old.program }
    requires equation { IsEquationAt cx.old.program symbol.0 used.now.equation equation.now }
    requires record { plain_record evaluation.now ≡ used_record used.now }
    requires used { IsUseRecord cx.old.program symbol.0
        (results_of (children_of (plain_record evaluation.now))) used.now }
    requires count { count ≡ length (children (plain_record evaluation.now)) }
    requires kept { IsKeptIn cx.old kept.old }
    ensures says { IfOk result (λ t. (e : PlainEquation) →
        slice_get (equations_of (theory_of cx.old.program) symbol.0) used.now.equation ≡ Some e →
        SaysEquationAt cx.new symbol.0 e used.now.subst
        (results_of (children_of (plain_record evaluation.now))) t.conclusion) }
    ensures stays { IfOk result (StaysIn cx.new) }
    ensures grown { HasGrown cx.old cx.new }
    ensures kept { IsKeptIn cx.new kept.new }
{
    let held = condition_held(alloc, cx, kept, symbol, equation, used)?;
    let values = missed_values(alloc, cx, kept, symbol, &used.missed)?;
    let terms = results(alloc, evaluation, count)?;
    equation_fact(alloc, cx, kept, symbol, used, &terms, &held, &values)
}

// For each equation that was missed though it matches, proves that its condition equals the value
// that was recorded.
#[cycle(evaluated)]
#[inline(never)]
fn missed_values(
    alloc: Global,
    cx: &mut Cx<'_>,
    kept: &mut LemmaPlaces,
    symbol: SymId,
    missed: &[Miss],
) -> Result<Vec<Option<Thm>>, AllocError>
    requires missed { (ts : Forest)
        × AreMissedAt cx.old.program symbol.0 ts (map missed_record missed.now) }
    requires kept { IsKeptIn cx.old kept.old }
    ensures values { IfOk result
        (λ v. AreValued cx.new symbol.0 (map missed_record missed.now) v.items) }
    ensures grown { HasGrown cx.old cx.new }
    ensures kept { IsKeptIn cx.new kept.new }
{
    let mut values = Vec::with_capacity(alloc, missed.len())?;
    for i in 0..missed.len() {
        let miss = &missed[i];
        values.push(missed_value(alloc, cx, kept, symbol, i, miss)?)?;
    }
    Ok(values)
}

// The same for the equation with a number.
#[cycle(evaluated)]
fn missed_value(
    alloc: Global,
    cx: &mut Cx<'_>,
    kept: &mut LemmaPlaces,
    symbol: SymId,
    number: usize,
    miss: &Miss,
) -> Result<Option<Thm>, AllocError>
    requires missed { (ts : Forest) × (e : PlainEquation)
        × (slice_get (equations_of (theory_of cx.old.program) symbol.0) number ≡ Some e)
        × IsMissedAt cx.old.program e ts (missed_record miss.now) }
    requires kept { IsKeptIn cx.old kept.old }
    ensures value { IfOk result (λ o. (e : PlainEquation) →
        slice_get (equations_of (theory_of cx.old.program) symbol.0) number ≡ Some e →
        IsValued cx.new e (missed_record miss.now) o) }
    ensures grown { HasGrown cx.old cx.new }
    ensures kept { IsKeptIn cx.new kept.new }
{
    match miss {
        Miss::NoMatch => Ok(None),
        Miss::CondFalse(subst, evaluation) => {
            let equation = equation_of(cx.program(), symbol, number);
            let Some(pat) = &equation.cond else {
                unreachable!()
            };
            Ok(Some(value_held(alloc, cx, kept, pat, subst, evaluation)?))
        }
    }
}

// Proves that the condition of the used equation holds, if it has one.
#[cycle(evaluated)]
fn condition_held(
    alloc: Global,
    cx: &mut Cx<'_>,
    kept: &mut LemmaPlaces,
    symbol: SymId,
    equation: &Equation,
    used: &EqRecord,
) -> Result<Option<Thm>, AllocError>
    requires ready { IsSortedAndBound cx.old.program }
    requires equation { IsEquationAt cx.old.program symbol.0 used.now.equation equation.now }
    requires used { (ts : Forest) × IsUseRecord cx.old.program symbol.0 ts used.now }
    requires kept { IsKeptIn cx.old kept.old }
    ensures says { IfOk result (SaysConditionAt cx.new symbol.0 used.now.equation used.now.subst) }
    ensures grown { HasGrown cx.old cx.new }
    ensures kept { IsKeptIn cx.new kept.new }
{
    match (&equation.cond, &used.cond) {
        (Some(pat), Some(evaluation)) => {
            Ok(Some(value_held(alloc, cx, kept, pat, &used.subst, evaluation)?))
        }
        (None, _) => Ok(None),
        (Some(_), None) => unreachable!(),
    }
}

// Proves that a pattern equals its value.
#[cycle(evaluated)]
#[inline(never)]
fn value_held(
    alloc: Global,
    cx: &mut Cx<'_>,
    kept: &mut LemmaPlaces,
    pat: &RulePat,
    subst: &Subst,
    evaluation: &EvalRecord,
) -> Result<Thm, AllocError>
    requires recorded { IsRecorded cx.old.program subst.now (plain_pattern pat.now)
        (plain_record evaluation.now) }
    requires kept { IsKeptIn cx.old kept.old }
    ensures says { IfOk result (λ t.
        SaysValue cx.new subst.now (plain_pattern pat.now) (result_of (plain_record evaluation.now))
        t.conclusion) }
    ensures stays { IfOk result (StaysIn cx.new) }
    ensures grown { HasGrown cx.old cx.new }
    ensures kept { IsKeptIn cx.new kept.new }
{
    let whole = pattern_of(alloc, evaluation.result())?;
    let image = cx.image(alloc, &whole)?;
    let found = evaluated(alloc, cx, kept, pat, subst, evaluation, &image)?;
    equality(alloc, found, &image)
}

// From a theorem on a function of the arguments' values, proves the same for the function of the
// arguments' images.
#[cycle(evaluated)]
#[inline(never)]
fn at_values(
    alloc: Global,
    cx: &mut Cx<'_>,
    kept: &mut LemmaPlaces,
    args: &[RulePat],
    subst: &Subst,
    evaluation: &EvalRecord,
    fact: &Thm,
) -> Result<Thm, AllocError>
    requires recorded { AreRecorded cx.old.program subst.now (plain_patterns args.now)
        (children_of (plain_record evaluation.now)) }
    requires fact { (f : ℕ) × (right : Pattern)
        × SaysCall cx.old f (results_of (children_of (plain_record evaluation.now))) right
        fact.now }
    requires kept { IsKeptIn cx.old kept.old }
    ensures says { IfOk result (λ t. (f : ℕ) (right : Pattern) →
        SaysCall cx.old f (results_of (children_of (plain_record evaluation.now))) right fact.now →
        IsEvaluated cx.new subst.now (call f [] (plain_patterns args.now)) right (Some t)) }
    ensures grown { HasGrown cx.old cx.new }
    ensures kept { IsKeptIn cx.new kept.new }
{
    let (left, _) = sides(fact.conclusion());
    let parts = taken_apart(alloc, left, args.len())?;
    let values = all_evaluated(
        alloc,
        cx,
        kept,
        args,
        subst,
        evaluation,
        &parts.head,
        &parts.arguments,
    )?;
    match values {
        Some(same) => join(alloc, cx, &same, fact),
        None => fact.share(alloc),
    }
}

// Returns the image of an injection of a term, from the image of its normal form.
fn as_written(once: &Option<Thm>, image: &MPat) -> Result<MPat, AllocError>
    requires { (cx : Context) × (a : Pattern) × Equates cx a image.now once.now }
    ensures { IfOk result
        (λ p. (cx : Context) (a : Pattern) → Equates cx a image.now once.now → p ≡ a) }
{
    match once {
        Some(equality) => sides(equality.conclusion()).0.share(),
        None => image.share(),
    }
}

// Proves that an injection of a term equals its normal form. If the term is an injection itself,
// the normal form injects directly.
#[inline(never)]
fn injected_once(
    alloc: Global,
    cx: &mut Cx<'_>,
    from: SortId,
    to: SortId,
    term: &Term,
) -> Result<Option<Thm>, AllocError>
    requires signature { IsSignature cx.old.program.sig }
    requires sorted { IsTermOf cx.old.program.sig term.now from.0 }
    requires injects { HasInjection cx.old.program.sig
        × IsBelow cx.old.program.sig.subsorts from.0 to.0 }
    requires low { height (injected from.0 to.0 term.now) ≤ MAX_HEIGHT }
    ensures says { IfOk result (IsInjectedOnce cx.new from.0 to.0 term.now) }
    ensures grown { HasGrown cx.old cx.new }
{
    let mut subst = Subst::new(alloc, 1)?;
    subst.bind(0, term.share()?);
    let pattern = RulePat::Inj(from, to, Box::new(alloc, RulePat::Var(0))?);
    inj_eq(alloc, cx, &pattern, &subst)
}
