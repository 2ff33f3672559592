// Substitutions.
ghost use Rattle.std.specs.Prelude.{◌≡◌, ◌<◌, length, replicate, slice_set, option_copied, IfOk};
ghost use Rattle.std.specs.Prelude.{Some, None};
ghost use Rattle.term_core.specs.Patterns.{binding};
ghost use Rattle.term_core.specs.Instances.{AreNormalBindings};

use crate::terms::Term;
use std::alloc::{AllocError, Global};
use std::marker::Model;

/// The term of each variable of a rule that is bound. Contracts see it as a list, indexed by the
/// variables' numbers.
#[derive(Drop)]
pub struct Subst {
    slots: Vec<Option<Term>>,
}

impl Model for Subst {
    ghost use Rattle.std.specs.Prelude.{List, Option};
    ghost use Rattle.std.specs.Coded.{coded_list, coded_option};
    ghost use Rattle.term_core.specs.Terms.{Tree};
    ghost use Rattle.term_core.specs.TermCode.{tree_code};
    ghost use Rattle.term_core.specs.Instances.{AreNormalBindings};

    ghost Value = { List (Option Tree) };

    ghost coded = { coded_list (coded_option tree_code) };

    ghost view = { λ s. s.slots.items };

    ghost invariant = { λ s. AreNormalBindings s.slots.items };
}

impl Subst {
    /// A substitution for `vars` variables, none of which is bound. An error: out of memory.
    pub fn new(alloc: Global, vars: usize) -> Result<Subst, AllocError>
        ensures { IfOk result (λ s. s ≡ replicate vars None) }
    {
        let mut slots = Vec::with_capacity(alloc, vars)?;
        for _ in 0..vars {
            slots.push(None)?;
        }
        Ok(Subst { slots })
    }

    /// The number of variables that it was made for. Every term in it is normal.
    pub fn vars(&self) -> usize
        ensures value { result ≡ length self.now }
        ensures normal { AreNormalBindings self.now }
    {
        self.slots.len()
    }

    /// Binds a variable to a term. An earlier term of the variable is replaced.
    pub fn bind(&mut self, var: u32, term: Term)
        requires { var < length self.old }
        ensures { self.new ≡ slice_set self.old var (Some term) }
    {
        // Each term is normal, so the substitution still has only normal terms.
        let _high = term.height();
        self.slots[var as usize] = Some(term);
    }

    /// The term of the variable, or None if the variable is not bound.
    pub fn get(&self, var: u32) -> Option<&Term>
        ensures { option_copied result ≡ binding self.now var }
    {
        self.slots.get(var as usize)?.as_ref()
    }
}
