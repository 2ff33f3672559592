// The positions that a row asks.
ghost use Rattle.std.specs.Prelude.{◌≡◌, ◌++◌, ◌∷◌, [], map, OnOk, IfOk};
ghost use Rattle.term_core.specs.RulePatterns.{plain_pattern};
ghost use Rattle.term_core.specs.PatternLists.{plain_patterns};
ghost use Rattle.pat_matrix.specs.Positions.{asked_below, all_asked, asked_positions};
ghost use Rattle.pat_matrix.specs.MatrixView.{positions};

use crate::columns::child_position;
use std::alloc::{AllocError, Global};
use term_core::RulePat;

/// The positions at which a row has a pattern that is not a variable, each before those below it.
/// An error: out of memory. It takes one step for each node, and copies its position.
pub fn asked_positions(alloc: Global, row: &[RulePat]) -> Result<Vec<Vec<usize>>, AllocError>
    ensures { IfOk result
        (λ asked. positions asked.items ≡ asked_positions (map plain_pattern row.now)) }
{
    let mut asked = Vec::new(alloc);
    add_all_asked(alloc, row, &[], &mut asked)?;
    Ok(asked)
}

// Adds the positions that a pattern at this position asks.
#[cycle(asked)]
fn add_asked(
    alloc: Global,
    pat: &RulePat,
    position: &[usize],
    asked: &mut Vec<Vec<usize>>,
) -> Result<(), AllocError>
    ensures { OnOk result (positions asked.new.items
        ≡ positions asked.old.items ++ asked_below position.now (plain_pattern pat.now)) }
{
    match pat {
        RulePat::Var(_) => Ok(()),
        RulePat::Value(..) => add_position(alloc, position, asked),
        RulePat::Ctor(_, args) => {
            add_position(alloc, position, asked)?;
            add_all_asked(alloc, args, position, asked)
        }
        RulePat::Inj(_, _, below) => {
            add_position(alloc, position, asked)?;
            let child = child_position(alloc, position, 0)?;
            add_asked(alloc, below, &child, asked)
        }
        RulePat::Call(..) => add_position(alloc, position, asked),
    }
}

// Adds the positions that the patterns ask, which are the children of this position.
#[cycle(asked)]
fn add_all_asked(
    alloc: Global,
    pats: &[RulePat],
    position: &[usize],
    asked: &mut Vec<Vec<usize>>,
) -> Result<(), AllocError>
    ensures { OnOk result (positions asked.new.items
        ≡ positions asked.old.items ++ all_asked position.now 0 (plain_patterns pats.now)) }
{
    for (i, pat) in pats.iter().enumerate() {
        let child = child_position(alloc, position, i)?;
        add_asked(alloc, pat, &child, asked)?;
    }
    Ok(())
}

// Adds a copy of a position.
fn add_position(
    alloc: Global,
    position: &[usize],
    asked: &mut Vec<Vec<usize>>,
) -> Result<(), AllocError>
    ensures { OnOk result
        (positions asked.new.items ≡ positions asked.old.items ++ position.now ∷ []) }
{
    asked.push(position.to_vec(alloc)?)?;
    Ok(())
}
