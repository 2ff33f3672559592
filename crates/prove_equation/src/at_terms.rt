// Equations at terms.
ghost use Rattle.std.specs.Prelude.{IfOk};
ghost use Rattle.term_core.specs.Forests.{forest};
ghost use Rattle.rule_core.specs.ProgramView.{function_equation};
ghost use Rattle.prove_term.specs.Contexts.{HasGrown};
ghost use Rattle.prove_equation.specs.Conditions.{CanUseAt, ProvesAt};

use crate::direct::direct_at;
use crate::parameters::kompile_at;
use ml_kernel::{Lemma, Thm};
use prove_term::Cx;
use rule_core::Equation;
use std::alloc::{AllocError, Global};
use term_core::{Subst, Term};

/// Proves what the lemma of an equation says of its function at terms that its arguments match: the
/// function of the terms equals the right side, with its variables replaced by what they were
/// matched with. `condition` says that the equation's condition is true there, if it has one.
/// `denied` says that none of its guards holds at the terms, if it has guards. `AllocError`: out of
/// memory, or the error of `fun_of`. After an error the context may have grown. The cost grows with
/// the terms that the match binds to the variables.
pub fn equation_at(
    alloc: Global,
    cx: &mut Cx<'_>,
    lemma: &Lemma,
    equation: &Equation,
    subst: &Subst,
    args: &[Term],
    condition: &Option<Thm>,
    denied: &Option<Thm>,
) -> Result<Thm, AllocError>
    requires { CanUseAt cx.old equation.now.fun.0 (function_equation equation.now) lemma.now
        subst.now (forest args.now) condition.now denied.now }
    ensures proves { IfOk result
        (ProvesAt cx.new equation.now.fun.0 (function_equation equation.now) subst.now
        (forest args.now)) }
    ensures grown { HasGrown cx.old cx.new }
{
    if equation.params == 0 {
        direct_at(alloc, cx, lemma, equation, subst, args, condition)
    } else {
        kompile_at(alloc, cx, lemma, equation, subst, args, condition, denied)
    }
}
