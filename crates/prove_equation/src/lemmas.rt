// Equations as lemmas.
ghost use Rattle.std.specs.Prelude.{IfOk};
ghost use Rattle.rule_core.specs.ProgramView.{function_equation, theory_of};
ghost use Rattle.rule_core.specs.Theories.{equations_of};
ghost use Rattle.ml_image.specs.HasImages.{HasEquationImage};
ghost use Rattle.ml_image.specs.OwnAxioms.{IsEquationFor};
ghost use Rattle.prove_term.specs.Contexts.{HasGrown, IsLemmaIn};
ghost use Rattle.prove_equation.specs.EquationLemmas.{SaysEquationSchema};

use ml_kernel::Thm;
use prove_schema::{schema, without_condition};
use prove_term::Cx;
use rule_core::Equation;
use std::alloc::{AllocError, Global};

/// Turns an equation of a function into a lemma, with pattern variables for its variables, and in
/// the form of kompile also for its parameters. The lemma assumes that each pattern variable is one
/// element of its sort, that each parameter is a member of its argument, what the condition says,
/// and that no guard holds. `AllocError`: out of memory. After an error the context may have grown.
/// Each call states the equation's image as an axiom. A caller that uses an equation often keeps
/// its lemma.
pub fn equation_lemma(
    alloc: Global,
    cx: &mut Cx<'_>,
    equation: &Equation,
) -> Result<Thm, AllocError>
    requires image { HasEquationImage cx.old.program.sig
        (equations_of (theory_of cx.old.program) equation.now.fun.0) equation.now.fun.0
        (function_equation equation.now) }
    requires own { IsEquationFor (theory_of cx.old.program) equation.now.fun.0
        (function_equation equation.now) }
    ensures says { IfOk result
        (SaysEquationSchema cx.new equation.now.fun.0 (function_equation equation.now)) }
    ensures lemma { IfOk result (IsLemmaIn cx.new) }
    ensures grown { HasGrown cx.old cx.new }
{
    let axiom = cx.equation_axiom(alloc, equation)?;
    let whole = schema(alloc, axiom)?;
    without_condition(alloc, &whole)
}
