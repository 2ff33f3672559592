// Direct equations, which have no parameters, at terms.
ghost use Rattle.std.specs.Prelude.{◌≡◌, IfOk, None};
ghost use Rattle.term_core.specs.Forests.{forest};
ghost use Rattle.rule_core.specs.ProgramView.{function_equation, theory_of};
ghost use Rattle.rule_core.specs.WellSorted.{IsWellSorted};
ghost use Rattle.prove_term.specs.Contexts.{HasGrown, StaysIn};
ghost use Rattle.prove_equation.specs.Conditions.{CanUseAt, ProvesAt};
ghost use Rattle.prove_equation.specs.Filled.{CanFill, CanTurn, IsTurned, SaysFilledEquation};
ghost use Rattle.prove_equation.specs.Filled.{StaysTurned};

use crate::conditions::given;
use ml_kernel::{Lemma, Thm};
use prove_schema::{elements, schema_at};
use prove_term::{Cx, call_eq_named, flip, join};
use rule_core::Equation;
use std::alloc::{AllocError, Global};
use term_core::{Subst, Term};

// Proves what the lemma of a direct equation says of its function at terms that its arguments
// match. Such an equation has no guards.
pub(crate) fn direct_at(
    alloc: Global,
    cx: &mut Cx<'_>,
    lemma: &Lemma,
    equation: &Equation,
    subst: &Subst,
    args: &[Term],
    condition: &Option<Thm>,
) -> Result<Thm, AllocError>
    requires usable { CanUseAt cx.old equation.now.fun.0 (function_equation equation.now) lemma.now
        subst.now (forest args.now) condition.now None }
    requires direct { equation.now.params ≡ 0 }
    ensures proves { IfOk result
        (ProvesAt cx.new equation.now.fun.0 (function_equation equation.now) subst.now
        (forest args.now)) }
    ensures grown { HasGrown cx.old cx.new }
{
    let made = filled(alloc, cx, lemma, equation, subst, condition)?;
    let normal = call_eq_named(
        alloc,
        cx,
        equation.fun,
        &equation.args,
        &equation.named,
        subst,
        args,
    )?;
    from_normal(alloc, cx, made, &normal)
}

// Proves what the lemma says when its variables are replaced by what they were matched with, with
// the arguments as they are written.
fn filled(
    alloc: Global,
    cx: &mut Cx<'_>,
    lemma: &Lemma,
    equation: &Equation,
    subst: &Subst,
    condition: &Option<Thm>,
) -> Result<Thm, AllocError>
    requires well_sorted { IsWellSorted (theory_of cx.old.program) }
    requires used { CanFill cx.old equation.now.fun.0 (function_equation equation.now) lemma.now
        subst.now
        condition.now }
    ensures says { IfOk result
        (λ t. SaysFilledEquation cx.new equation.now.fun.0 (function_equation equation.now)
        subst.now t.conclusion) }
    ensures stays { IfOk result (StaysIn cx.new) }
    ensures grown { HasGrown cx.old cx.new }
{
    let facts = elements(alloc, cx, subst)?;
    let others = given(alloc, condition)?;
    schema_at(alloc, lemma, &facts, &others)
}

// Proves `q = r` from `p = r` and `p = q`. Without the second, q is p, and the result is `p = r`.
fn from_normal(
    alloc: Global,
    cx: &mut Cx<'_>,
    made: Thm,
    normal: &Option<Thm>,
) -> Result<Thm, AllocError>
    requires { CanTurn made.conclusion normal.now }
    ensures says { IfOk result (IsTurned made normal.now) }
    ensures stays { IfOk result (StaysTurned cx.new made normal.now) }
    ensures grown { HasGrown cx.old cx.new }
{
    match normal {
        Some(equality) => {
            let turned = flip(alloc, cx, equality)?;
            join(alloc, cx, &turned, &made)
        }
        None => Ok(made),
    }
}
