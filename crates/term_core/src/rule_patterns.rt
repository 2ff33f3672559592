// Patterns of rules: terms with variables and calls of functions.
ghost use Rattle.std.specs.Prelude.{◌≡◌, [], length, IfOk, Some};
ghost use Rattle.term_core.specs.Forests.{forest, children};
ghost use Rattle.term_core.specs.Patterns.{instance_of, ground_pattern, ground_patterns};
ghost use Rattle.term_core.specs.RulePatterns.{plain_pattern};
ghost use Rattle.term_core.specs.PatternLists.{plain_patterns};

use crate::ids::{SortId, SymId};
use crate::terms::{Term, View};
use crate::values::Value;
use std::alloc::{AllocError, Global};

/// A pattern of a rule. Contracts see it as the plain pattern `plain_pattern`.
#[derive(Drop)]
pub enum RulePat {
    /// A variable, by its number in its rule.
    Var(u32),
    /// A domain value of a sort.
    Value(SortId, Value),
    /// A constructor with its arguments.
    Ctor(SymId, Vec<RulePat>),
    /// An injection: its source sort, its target sort, and the injected pattern.
    Inj(SortId, SortId, Box<RulePat>),
    /// A function, its sort arguments, and its arguments.
    Call(SymId, Vec<SortId>, Vec<RulePat>),
}

/// The pattern of the same tree. It has no variable, and becomes the term under every substitution.
/// An error: out of memory.
pub fn pattern_of(alloc: Global, term: &Term) -> Result<RulePat, AllocError>
    ensures tree { IfOk result (λ p. plain_pattern p ≡ ground_pattern term.now) }
    ensures instance { IfOk result (λ p. instance_of [] (plain_pattern p) ≡ Some term.now) }
{
    // A term is normal, so it is an instance of its own pattern.
    let _high = term.height();
    copied(alloc, term)
}

// The pattern of the same tree, by the term's head.
#[cycle(copied)]
fn copied(alloc: Global, term: &Term) -> Result<RulePat, AllocError>
    ensures { IfOk result (λ p. plain_pattern p ≡ ground_pattern term.now) }
{
    match term.head() {
        View::Value(sort, value) => Ok(RulePat::Value(sort, value.share()?)),
        View::Ctor(sym, count) => Ok(RulePat::Ctor(sym, copied_children(alloc, term, count)?)),
        View::Inj(from, to) => {
            let below = copied(alloc, term.child(0))?;
            Ok(RulePat::Inj(from, to, Box::new(alloc, below)?))
        }
    }
}

// The patterns of a term's children.
#[cycle(copied)]
fn copied_children(alloc: Global, term: &Term, count: usize) -> Result<Vec<RulePat>, AllocError>
    requires { count ≡ length (children term.now) }
    ensures { IfOk result
        (λ ps. plain_patterns ps.items ≡ ground_patterns (forest (children term.now))) }
{
    let mut pats = Vec::with_capacity(alloc, count)?;
    for i in 0..count {
        pats.push(copied(alloc, term.child(i))?)?;
    }
    Ok(pats)
}
