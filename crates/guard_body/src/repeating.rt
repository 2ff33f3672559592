// A guard at terms, from the equation that it repeats.
ghost use Rattle.std.specs.Prelude.{◌≡◌, ◌<◌, ◌+◌, ◌^◌, IfOk, length};
ghost use Rattle.term_core.specs.Forests.{forest};
ghost use Rattle.term_core.specs.PatternLists.{plain_patterns};
ghost use Rattle.rule_core.specs.AcSymbols.{IsAcFree};
ghost use Rattle.rule_core.specs.ProgramView.{function_equation, names_of, theory_of};
ghost use Rattle.rule_core.specs.WellSorted.{IsWellSorted};
ghost use Rattle.prove_term.specs.Contexts.{HasGrown};
ghost use Rattle.guard_body.specs.Guarded.{IsRepeated};
ghost use Rattle.guard_body.specs.Guarded.{IsAppliedTo, IsOrderOf};
ghost use Rattle.guard_body.specs.Renaming.{AreRenamed, CanRename, number_in};

use crate::arguments::Argument;
use crate::guarded::Guarded;
use crate::hypotheses::quantified;
use crate::images::body_image;
use crate::renaming::{listed_numbers, renamed, renamed_names, sorts_from};
use prove_term::Cx;
use rule_core::Equation;
use std::alloc::{AllocError, Global};
use term_core::Term;

/// The guard that repeats the equation, at the terms. Its variables are numbered from `first`, in
/// this order. `AllocError`: out of memory, or there are too many names for numbers below 2^32.
/// After an error the context may have grown. The recursion is as deep as the patterns are high.
pub fn repeated<'t>(
    alloc: Global,
    cx: &mut Cx<'_>,
    equation: &Equation,
    order: &[u32],
    first: u32,
    args: &'t [Term],
) -> Result<Guarded<'t>, AllocError>
    requires well_sorted { IsWellSorted (theory_of cx.old.program) }
    requires no_ac { IsAcFree cx.old.program.sig }
    requires equation { IsAppliedTo cx.old.program.sig (function_equation equation.now)
        (forest args.now) }
    requires order { IsOrderOf (length equation.now.vars.items) order.now }
    requires few { first + length order.now < 2 ^ 32 }
    ensures guard { IfOk result
        (IsRepeated cx.new first order.now (forest args.now) (function_equation equation.now)) }
    ensures grown { HasGrown cx.old cx.new }
{
    let numbers = listed_numbers(alloc, first, order, equation.vars.len())?;
    let sorts = sorts_from(alloc, first, order, &equation.vars)?;
    let given = quantified(alloc, cx, &sorts, first, order.len() as u32)?;
    let arguments = renamed_arguments(alloc, equation, &numbers, args)?;
    let body = body_image(alloc, cx, equation, &numbers, &arguments)?;
    Ok(Guarded {
        sorts,
        arguments,
        given,
        body,
    })
}

// The arguments of the equation with these numbers for its variables, each with its term.
fn renamed_arguments<'t>(
    alloc: Global,
    equation: &Equation,
    numbers: &[u32],
    args: &'t [Term],
) -> Result<Vec<Argument<'t>>, AllocError>
    requires numbers { CanRename (function_equation equation.now) numbers.now }
    requires many { length equation.now.args.items ≡ length args.now }
    ensures { IfOk result (λ v. AreRenamed (number_in numbers.now)
        (names_of equation.now.named.items) 0 (plain_patterns equation.now.args.items)
        (forest args.now) v.items) }
{
    let mut made = Vec::with_capacity(alloc, args.len())?;
    for i in 0..args.len() {
        made.push(Argument {
            pat: renamed(alloc, &equation.args[i], numbers)?,
            named: renamed_names(alloc, &equation.named, numbers, i)?,
            term: &args[i],
        })?;
    }
    Ok(made)
}
