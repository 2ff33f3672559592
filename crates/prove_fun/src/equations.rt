// Equations of functions at the values of a call's arguments.
ghost use Rattle.std.specs.Prelude.{◌≡◌, ℕ, IfOk, Some, length, slice_get};
ghost use Rattle.term_core.specs.Forests.{forest};
ghost use Rattle.rule_core.specs.Rules.{Equation as PlainEquation};
ghost use Rattle.rule_core.specs.Theories.{equations_of};
ghost use Rattle.rule_core.specs.ProgramView.{theory_of};
ghost use Rattle.rule_core.specs.BoundVariables.{IsEquationAt};
ghost use Rattle.rule_core.specs.Records.{results_of};
ghost use Rattle.rule_core.specs.RecordView.{plain_record};
ghost use Rattle.prove_term.specs.Contexts.{HasGrown, StaysIn};
ghost use Rattle.prove_term.specs.Values.{SaysEquationAt};
ghost use Rattle.prove_fun.specs.KeptLemmas.{IsKeptIn};
ghost use Rattle.prove_fun.specs.RecordParts.{children, children_of};
ghost use Rattle.prove_fun.specs.Evaluating.{IsSortedAndBound};
ghost use Rattle.prove_fun.specs.Missing.{AreValued};
ghost use Rattle.prove_fun.specs.Using.{IsUseRecord, SaysConditionAt, missed_records};

use crate::denying::denied_guards;
use crate::lemma_places::{LemmaPlaces, lemma_of};
use crate::parts::child;
use ml_kernel::Thm;
use prove_equation::equation_at;
use prove_term::Cx;
use rule_core::{EqRecord, Equation, EvalRecord, Program};
use std::alloc::{AllocError, Global};
use term_core::{SymId, Term};

// Returns the equation of a function with a number.
pub(crate) fn equation_of(program: &Program, symbol: SymId, number: usize) -> &Equation
    requires { (e : PlainEquation)
        × (slice_get (equations_of (theory_of program.now) symbol.0) number ≡ Some e) }
    ensures { IsEquationAt program.now symbol.0 number result.now }
{
    &program.equations[symbol.0 as usize][number]
}

// Proves that the function of these terms equals the right side of the equation that was used at
// them, with its variables replaced by what they were matched with. The condition is known to hold,
// and so are the values of the conditions of the equations that were missed.
#[inline(never)]
pub(crate) fn equation_fact(
    alloc: Global,
    cx: &mut Cx<'_>,
    kept: &mut LemmaPlaces,
    symbol: SymId,
    used: &EqRecord,
    terms: &[Term],
    condition: &Option<Thm>,
    values: &[Option<Thm>],
) -> Result<Thm, AllocError>
    requires ready { IsSortedAndBound cx.old.program }
    requires used { IsUseRecord cx.old.program symbol.0 (forest terms.now) used.now }
    requires condition { SaysConditionAt cx.old symbol.0 used.now.equation used.now.subst
        condition.now }
    requires values { AreValued cx.old symbol.0 (missed_records used.now) values.now }
    requires kept { IsKeptIn cx.old kept.old }
    ensures says { IfOk result (λ t. (e : PlainEquation) →
        slice_get (equations_of (theory_of cx.old.program) symbol.0) used.now.equation ≡ Some e →
        SaysEquationAt cx.new symbol.0 e used.now.subst (forest terms.now) t.conclusion) }
    ensures stays { IfOk result (StaysIn cx.new) }
    ensures grown { HasGrown cx.old cx.new }
    ensures kept { IsKeptIn cx.new kept.new }
{
    let equation = equation_of(cx.program(), symbol, used.equation as usize);
    let denied = denied_guards(alloc, cx, symbol, equation, used, terms, values)?;
    let lemma = lemma_of(alloc, cx, kept, used.equation, equation)?;
    equation_at(
        alloc,
        cx,
        &lemma,
        equation,
        &used.subst,
        terms,
        condition,
        &denied,
    )
}

// Returns the values of the `count` arguments.
#[inline(never)]
pub(crate) fn results(
    alloc: Global,
    evaluation: &EvalRecord,
    count: usize,
) -> Result<Vec<Term>, AllocError>
    requires { count ≡ length (children (plain_record evaluation.now)) }
    ensures { IfOk result
        (λ v. forest v.items ≡ results_of (children_of (plain_record evaluation.now))) }
{
    let mut terms = Vec::with_capacity(alloc, count)?;
    for i in 0..count {
        terms.push(child(evaluation, i).result().share()?)?;
    }
    Ok(terms)
}
