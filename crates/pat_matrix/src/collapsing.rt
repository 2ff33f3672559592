// Patterns without nested injections.
ghost use Rattle.std.specs.Prelude.{◌≡◌, map, IfOk};
ghost use Rattle.term_core.specs.RulePatterns.{plain_pattern};
ghost use Rattle.pat_matrix.specs.Collapsed.{collapsed, joined};

use std::alloc::{AllocError, Global};
use term_core::{RulePat, SortId};

/// The pattern, with injections in a row joined until no two are in a row. Its instances are the
/// same. It takes one step for each node. An error: out of memory.
#[cycle(collapsed)]
pub fn collapsed(alloc: Global, pat: &RulePat) -> Result<RulePat, AllocError>
    ensures { IfOk result (λ p. plain_pattern p ≡ collapsed (plain_pattern pat.now)) }
{
    match pat {
        RulePat::Var(var) => Ok(RulePat::Var(*var)),
        RulePat::Value(sort, value) => Ok(RulePat::Value(*sort, value.share()?)),
        RulePat::Ctor(sym, args) => Ok(RulePat::Ctor(*sym, all_collapsed(alloc, args)?)),
        RulePat::Inj(from, to, below) => joined(alloc, *from, *to, collapsed(alloc, below)?),
        RulePat::Call(sym, sorts, args) => {
            let args = all_collapsed(alloc, args)?;
            Ok(RulePat::Call(*sym, sorts.to_vec(alloc)?, args))
        }
    }
}

// The same for each pattern of a list.
#[cycle(collapsed)]
pub(crate) fn all_collapsed(alloc: Global, pats: &[RulePat]) -> Result<Vec<RulePat>, AllocError>
    ensures { IfOk result (λ ps.
        map plain_pattern ps.items ≡ map (λ p. collapsed (plain_pattern p)) pats.now) }
{
    let mut done = Vec::with_capacity(alloc, pats.len())?;
    for pat in pats {
        done.push(collapsed(alloc, pat)?)?;
    }
    Ok(done)
}

// The injection of a pattern, joined with the injection at its root, if there is one.
fn joined(alloc: Global, from: SortId, to: SortId, pat: RulePat) -> Result<RulePat, AllocError>
    ensures { IfOk result (λ p. plain_pattern p ≡ joined from.0 to.0 (plain_pattern pat)) }
{
    match pat {
        RulePat::Inj(first, _, below) => Ok(RulePat::Inj(first, to, below)),
        other => Ok(RulePat::Inj(from, to, Box::new(alloc, other)?)),
    }
}
