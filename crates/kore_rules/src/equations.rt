// The equations of all functions, with those of the last resort.
ghost use Rattle.std.specs.Prelude.{◌≡◌, ◌≤◌, ◌↔◌, ℕ, IsTrue, count_by, map, length, IfOk};
ghost use Rattle.rule_core.specs.DistinctNames.{names_of, AreDistinct};
ghost use Rattle.rule_core.specs.Rules as plain;
ghost use Rattle.rule_core.specs.WellSorted.{IsSignature};
ghost use Rattle.kore_sig.specs.Numbered.{IsNumbered};
ghost use Rattle.kore_rules.specs.AxiomsRead.{AreFew, AreRead, HasStated, IsNamedOrdinary};
ghost use Rattle.kore_rules.specs.AxiomsRead.{IsNumberedEquation, IsUnreadableOrdinary};
ghost use Rattle.kore_rules.specs.AxiomsRead.{is_marked, is_ordinary, numbered_equation, tree_at};
ghost use Rattle.kore_rules.specs.EquationsAmong.{IsUnreadableAmong};
ghost use Rattle.kore_rules.specs.KeptNames.{AreOf};
ghost use Rattle.kore_rules.specs.LastResortsRead.{AreAllListed};

use crate::last_resorts::{LastResorts, read_last_resorts};
use crate::order::{add_all, by_function, put_equations_in_order};
use kore_ast::AxiomDecl;
use rule_core::{Equation, Signature};
use std::alloc::{AllocError, Global};

/// The equations of each function, and what is not readable.
#[derive(Drop)]
pub(crate) struct Listed {
    /// The equations of each function, by its number, in the order of trial.
    pub(crate) lists: Vec<Vec<Equation>>,
    /// For each symbol, by its number: whether it has an equation that is not readable.
    pub(crate) unreadable: Vec<bool>,
}

/// The equations of all functions. `equations` and `unreadable` are what was read of those that are
/// none of the last resort. It sorts the equations, and reads those of the last resort.
pub(crate) fn all_equations(
    alloc: Global,
    sig: &Signature,
    axioms: &[&AxiomDecl],
    equations: Vec<Equation>,
    unreadable: Vec<bool>,
) -> Result<Listed, AllocError>
    requires numbered { IsNumbered sig.now }
    requires signature { IsSignature sig.now }
    requires distinct { AreDistinct (names_of sig.now.symbols) }
    requires few { AreFew (map tree_at axioms.now) }
    requires equations { AreRead (IsNumberedEquation sig.now) (λ e. e.1.place)
        (map tree_at axioms.now) (map numbered_equation equations.items) }
    requires named { AreOf (IsNamedOrdinary sig.now) (map tree_at axioms.now) equations.items }
    requires ordinary { length equations.items ≤ count_by is_ordinary (map tree_at axioms.now) }
    requires marks { length unreadable.items ≡ length sig.now.symbols }
    requires unreadable { (n : ℕ) → IsTrue (is_marked unreadable.items n)
        ↔ HasStated sig.now (IsUnreadableOrdinary sig.now) (map tree_at axioms.now) n }
    ensures len { IfOk result (λ all. length all.lists.items ≡ length sig.now.symbols) }
    ensures listed { IfOk result
        (λ all. AreAllListed sig.now (map tree_at axioms.now) all.lists.items) }
    ensures unreadable { IfOk result (λ all. (n : ℕ) → IsTrue (is_marked all.unreadable.items n)
        ↔ HasStated sig.now (IsUnreadableAmong sig.now (map tree_at axioms.now))
        (map tree_at axioms.now) n) }
{
    let mut ordinary = equations;
    put_equations_in_order(&mut ordinary)?;
    let mut lists = by_function(alloc, sig.symbols.len(), ordinary)?;
    let LastResorts {
        mut equations,
        unreadable,
    } = read_last_resorts(alloc, sig, axioms, &lists, unreadable)?;
    put_equations_in_order(&mut equations)?;
    add_all(equations, &mut lists)?;
    Ok(Listed { lists, unreadable })
}
