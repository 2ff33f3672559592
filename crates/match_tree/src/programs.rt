// Matching trees of a program.
ghost use Rattle.std.specs.Prelude.{◌≡◌, ◌<◌, ◌≤◌, ◌^◌, length, map, IfOk};
ghost use Rattle.rule_core.specs.ProgramView.{theory_of, rewrite_rule, function_equation};
ghost use Rattle.rule_core.specs.Theories.{equations_of};
ghost use Rattle.rule_core.specs.WellSorted.{IsWellSorted};
ghost use Rattle.pat_matrix.specs.Rows.{collapsed_rows};
ghost use Rattle.pat_matrix.specs.MatrixView.{lent_rows};
ghost use Rattle.match_tree.specs.Programs.{IsRuleTree, IsEquationTree, rule_row, equation_row};

use crate::compiling::Tree;
use rule_core::{Equation, Program, Rule};
use std::alloc::{AllocError, Global};
use std::slice::from_ref;
use term_core::{RulePat, SymId};

/// The matching tree for the left sides of a program's rules. The number of a row is that of its
/// rule. A walk over it has one subject. An error: out of memory. It copies each left side once,
/// and takes the time of `compile`.
pub fn rule_tree<'p>(alloc: Global, program: &'p Program) -> Result<Tree<'p>, AllocError>
    requires sorted { IsWellSorted (theory_of program.now) }
    requires sorts { length (theory_of program.now).sig.sorts < 2 ^ 32 }
    requires rules { length (theory_of program.now).rules ≤ 2 ^ 32 }
    ensures { IfOk result (IsRuleTree (theory_of program.now)) }
{
    let rows = left_sides(alloc, &program.rules)?;
    let sorts = program.sig.sorts.len() as u32;
    Tree::of(alloc, &rows, &program.sig.subsorts, sorts)
}

/// The matching tree for the equations of a function. The number of a row is that of its equation.
/// A walk over it has as many subjects as the function has arguments. An error: out of memory. It
/// copies each argument's pattern once, and takes the time of `compile`.
pub fn equation_tree<'p>(
    alloc: Global,
    program: &'p Program,
    sym: SymId,
) -> Result<Tree<'p>, AllocError>
    requires sorted { IsWellSorted (theory_of program.now) }
    requires sorts { length (theory_of program.now).sig.sorts < 2 ^ 32 }
    requires there { sym.0 < length (theory_of program.now).equations }
    requires equations { length (equations_of (theory_of program.now) sym.0) ≤ 2 ^ 32 }
    ensures { IfOk result (IsEquationTree (theory_of program.now) sym.0) }
{
    let rows = argument_lists(alloc, &program.equations[sym.0 as usize])?;
    let sorts = program.sig.sorts.len() as u32;
    Tree::of(alloc, &rows, &program.sig.subsorts, sorts)
}

// A row of one pattern for each rule: its left side. An error: out of memory.
fn left_sides(alloc: Global, rules: &[Rule]) -> Result<Vec<&[RulePat]>, AllocError>
    ensures { IfOk result (λ rows. collapsed_rows (lent_rows rows.items)
        ≡ map (λ rule. rule_row (rewrite_rule rule)) rules.now) }
{
    let mut rows = Vec::with_capacity(alloc, rules.len())?;
    for rule in rules {
        rows.push(from_ref(&rule.left))?;
    }
    Ok(rows)
}

// A row for each equation: the patterns of its arguments. An error: out of memory.
fn argument_lists(alloc: Global, equations: &[Equation]) -> Result<Vec<&[RulePat]>, AllocError>
    ensures { IfOk result (λ rows. collapsed_rows (lent_rows rows.items)
        ≡ map (λ e. equation_row (function_equation e)) equations.now) }
{
    let mut rows = Vec::with_capacity(alloc, equations.len())?;
    for equation in equations {
        rows.push(equation.args.as_slice())?;
    }
    Ok(rows)
}
