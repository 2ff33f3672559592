// The order of sorts that the axioms state.
ghost use Rattle.std.specs.Prelude.{◌≡◌, ◌<◌, ◌^◌, ◌++◌, ◌∷◌, [], ℕ, List, None, map, flat_map};
ghost use Rattle.std.specs.Prelude.{length, IfOk, IfErr};
ghost use Rattle.std.specs.Prelude.{OnOk, OnErr, filter_map};
ghost use Rattle.std.specs.List.{AllZip};
ghost use Rattle.kore_ast.specs.Plain.{plain_declaration, plain_sort, plain_axiom_decl};
ghost use Rattle.kore_ast.specs.Plain.{pattern_tree};
ghost use Rattle.rule_core.specs.Subsorts.{HasNoCycle};
ghost use Rattle.kore_sig.specs.Declarations.{SubsortPair, pairs_of_axiom};
ghost use Rattle.kore_sig.specs.FirstFault.{IsFirstBy, ByNumber};
ghost use Rattle.kore_sig.specs.Ordering.{FirstFrom, Passes, pairs_in};
ghost use Rattle.kore_sig.specs.Refusals.{Refuses};
ghost use Rattle.kore_sig.specs.SignatureFaults.{HasPairFault};
ghost use Rattle.kore_sig.specs.Signatures.{IsPairOf};

use crate::attributes::subsort_sorts;
use crate::counted::Placed;
use crate::faults::SigFault;
use crate::references::{sort_number, sort_place};
use kore_ast::{AxiomDecl, Decl, Sort};
use rule_core::{SortInfo, Subsorts, Table};
use std::alloc::Global;
use term_core::SortId;

/// The order of the sorts that these declarations state. The error is the first fault of a pair.
pub(crate) fn stated_order(
    alloc: Global,
    sorts: &Table<SortInfo>,
    decls: &[Placed<'_>],
) -> Result<Subsorts, SigFault>
    requires { length sorts.now < 2 ^ 32 }
    ensures refused { IfErr result
        (Refuses (FirstFrom sorts.now []
        (pairs_in (map (λ p. plain_declaration p.decl.now) decls.now)))) }
    ensures clear { OnOk result
        (FirstFrom sorts.now [] (pairs_in (map (λ p. plain_declaration p.decl.now) decls.now))
        None) }
    ensures pairs { IfOk result
        (AllZip (IsPairOf sorts.now)
        (pairs_in (map (λ p. plain_declaration p.decl.now) decls.now))) }
    ensures no_cycle { IfOk result HasNoCycle }
{
    let mut subsorts = Subsorts::new(alloc);
    for placed in decls {
        if let Decl::Axiom(decl) = placed.decl {
            add_pairs(alloc, sorts, &mut subsorts, decl)?;
        }
    }
    Ok(subsorts)
}

/// Adds the pairs that an axiom states.
fn add_pairs(
    alloc: Global,
    sorts: &Table<SortInfo>,
    subsorts: &mut Subsorts,
    decl: &AxiomDecl,
) -> Result<(), SigFault>
    requires { length sorts.now < 2 ^ 32 }
    ensures refused { IfErr result
        (Refuses (λ r. (rest : List SubsortPair)
        → FirstFrom sorts.now subsorts.old (pairs_of_axiom (plain_axiom_decl decl.now) ++ rest)
        r)) }
    ensures passes { OnOk result
        (Passes sorts.now subsorts.old subsorts.new (pairs_of_axiom (plain_axiom_decl decl.now))) }
{
    for attr in &decl.attrs {
        if let Some((lower, upper)) = subsort_sorts(attr) {
            add_pair(alloc, sorts, subsorts, decl.at, lower, upper)?;
        }
    }
    Ok(())
}

/// Adds a pair that the axiom at this byte states.
fn add_pair(
    alloc: Global,
    sorts: &Table<SortInfo>,
    subsorts: &mut Subsorts,
    at: u32,
    lower: &Sort,
    upper: &Sort,
) -> Result<(), SigFault>
    requires { length sorts.now < 2 ^ 32 }
    ensures refused { IfErr result
        (Refuses (λ r. (rest : List SubsortPair)
        → FirstFrom sorts.now subsorts.old
        (record { at = at; lower = plain_sort lower.now; upper = plain_sort upper.now } ∷ rest)
        r)) }
    ensures passes { OnOk result
        (Passes sorts.now subsorts.old subsorts.new
        (record { at = at; lower = plain_sort lower.now; upper = plain_sort upper.now } ∷ [])) }
{
    match (sort_number(sorts, lower), sort_number(sorts, upper)) {
        (Some(a), Some(b)) => {
            if subsorts.add(alloc, SortId(a as u32), SortId(b as u32))? {
                Ok(())
            } else {
                Err(SigFault::SubsortCycle(at))
            }
        }
        (None, Some(_)) => Err(SigFault::UnknownSort(sort_place(lower))),
        (Some(_), None) => Err(SigFault::UnknownSort(sort_place(upper))),
        (None, None) => Err(SigFault::UnknownSort(sort_place(lower).min(sort_place(upper)))),
    }
}
