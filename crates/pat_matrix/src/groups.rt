// Rows by what they ask at a position.
ghost use Rattle.std.specs.Prelude.{◌≡◌, [], OnOk, length};
ghost use Rattle.term_core.specs.RulePatterns.{plain_pattern};
ghost use Rattle.pat_matrix.specs.Heads.{head_eq, takes, lower_takes, is_variable};
ghost use Rattle.pat_matrix.specs.HeadView.{head_of};
ghost use Rattle.pat_matrix.specs.Groups.{Gains};

use crate::heads::Head;
use crate::order::Order;
use indexmap::IndexSet;
use std::alloc::{AllocError, Global};
use term_core::{RulePat, SortId};

/// The numbers of rows by the heads that the rows have at a position. A row may have more than one
/// head.
#[derive(Drop)]
pub struct Groups {
    /// The heads.
    pub heads: IndexSet<Head>,
    /// For each head the rows that have it, in order.
    pub rows: Vec<Vec<u32>>,
}

/// The numbers of rows by what the rows ask at a position.
#[derive(Drop)]
pub struct Split {
    /// Those that ask something there.
    pub groups: Groups,
    /// Those that ask nothing there, in order.
    pub wild: Vec<u32>,
}

impl Groups {
    // No rows.
    pub(crate) fn new(alloc: Global) -> Groups
        ensures heads { result.heads.keys ≡ [] }
        ensures rows { result.rows.items ≡ [] }
    {
        Groups {
            heads: IndexSet::new(alloc),
            rows: Vec::new(alloc),
        }
    }
}

// Puts a row into the groups of the heads that the pattern has.
pub(crate) fn add_heads(
    alloc: Global,
    pat: &RulePat,
    row: u32,
    order: &Order<'_>,
    groups: &mut Groups,
) -> Result<(), AllocError>
    requires { length groups.old.rows.items ≡ length groups.old.heads.keys }
    ensures { OnOk result (Gains groups.old groups.new
        (takes order.now.subsorts.now (plain_pattern pat.now)) row) }
{
    match pat {
        RulePat::Value(sort, value) => add(alloc, Head::of_value(*sort, value)?, row, groups),
        RulePat::Ctor(sym, args) => add(alloc, Head::Ctor(*sym, args.len()), row, groups),
        RulePat::Inj(from, to, below) => {
            add(alloc, Head::Inj(*from, *to), row, groups)?;
            if is_variable(below) {
                // No sort is below itself, so the row is put into each group once.
                order.subsorts.has_no_cycle();
                add_lower(alloc, *from, *to, row, order, groups)?;
            }
            Ok(())
        }
        RulePat::Var(_) => Ok(()),
        RulePat::Call(..) => Ok(()),
    }
}

// Whether the pattern is a variable.
fn is_variable(pat: &RulePat) -> bool
    ensures { result ≡ is_variable (plain_pattern pat.now) }
{
    match pat {
        RulePat::Var(_) => true,
        _ => false,
    }
}

// Puts a row into the groups of the injections to `to` from each sort below `from`.
fn add_lower(
    alloc: Global,
    from: SortId,
    to: SortId,
    row: u32,
    order: &Order<'_>,
    groups: &mut Groups,
) -> Result<(), AllocError>
    requires { length groups.old.rows.items ≡ length groups.old.heads.keys }
    ensures { OnOk result (Gains groups.old groups.new
        (lower_takes order.now.subsorts.now order.now.sorts from.0 to.0) row) }
{
    for number in 0..order.sorts {
        if order.subsorts.below(SortId(number), from) {
            add(alloc, Head::Inj(SortId(number), to), row, groups)?;
        }
    }
    Ok(())
}

// Puts a row into the group of a head.
fn add(alloc: Global, head: Head, row: u32, groups: &mut Groups) -> Result<(), AllocError>
    requires { length groups.old.rows.items ≡ length groups.old.heads.keys }
    ensures { OnOk result (Gains groups.old groups.new (head_eq (head_of head)) row) }
{
    let (at, new) = groups.heads.insert_full(head)?;
    if new {
        groups.rows.push(vec![in alloc; row]?)?;
    } else {
        groups.rows[at].push(row)?;
    }
    Ok(())
}
