// The initial term of a run.
ghost use Rattle.std.specs.Prelude.{◌≡◌, [], List, None, Some, Contains, IfOk, OnOk, IfErr};
ghost use Rattle.kore_ast.specs.Plain.{pattern_tree as plain_tree};
ghost use Rattle.term_core.specs.RulePatterns.{plain_pattern};
ghost use Rattle.rule_core.specs.Sorting.{HasSort};
ghost use Rattle.rule_core.specs.WellSorted.{IsSignature};
ghost use Rattle.kore_sig.specs.FirstFault.{Fault, ByByte, IsFirstBy};
ghost use Rattle.kore_sig.specs.Numbered.{IsNumbered};
ghost use Rattle.kore_check.specs.FaultNumbers.{IsRefusal};
ghost use Rattle.kore_check.specs.Folds.{unfolded};
ghost use Rattle.kore_check.specs.PatternFaults.{all_faults};
ghost use Rattle.kore_check.specs.PatternMeanings.{Means};
ghost use Rattle.kore_check.specs.PatternSorts.{sort_of_pattern as the_sort};
ghost use Rattle.kore_rules.specs.FirstRefusal.{FirstOfTerm};
ghost use Rattle.kore_rules.specs.GroundTerms.{ground_faults};
ghost use Rattle.kore_rules.specs.RefusedTexts.{RefusesFor, number_of_sort};
ghost use Rattle.kore_rules.specs.Starts.{HasStartSort, differs_from as does_differ};

use crate::ground::first_not_ground;
use kore_ast::Pat;
use kore_axioms::Refusal;
use kore_check::{CheckFault, Variables, check_pattern};
use rule_core::Signature;
use std::alloc::Global;
use term_core::{RulePat, SortId};

/// The pattern that a term means, if the rules have this sort. The error is the term's first fault.
pub(crate) fn start_of(
    alloc: Global,
    sig: &Signature,
    top: Option<SortId>,
    term: &Pat,
) -> Result<RulePat, Refusal>
    requires numbered { IsNumbered sig.now }
    requires signature { IsSignature sig.now }
    ensures faultless { OnOk result
        (FirstOfTerm sig.now (number_of_sort top) (plain_tree term.now) None) }
    ensures means { IfOk result
        (λ p. Means sig.now [] (unfolded (plain_tree term.now)) (plain_pattern p)) }
    ensures sort { IfOk result (λ p. HasStartSort sig.now (number_of_sort top) (plain_pattern p)) }
    ensures refused { IfErr result
        (RefusesFor (λ f. FirstOfTerm sig.now (number_of_sort top) (plain_tree term.now) (Some f))) }
{
    if let Some(at) = first_not_ground(term) {
        return Err(Refusal::Refused(26, at));
    }
    let (start, sort) = ground_pattern(alloc, sig, term)?;
    if differs_from(top, sort) {
        return Err(Refusal::Refused(19, 0));
    }
    Ok(start)
}

/// What a pattern without variables means, and its sort. The error is the first fault of its sorts.
fn ground_pattern(alloc: Global, sig: &Signature, term: &Pat) -> Result<(RulePat, SortId), Refusal>
    requires numbered { IsNumbered sig.now }
    requires signature { IsSignature sig.now }
    requires ground { ground_faults (plain_tree term.now) ≡ [] }
    ensures faultless { OnOk result (all_faults sig.now (unfolded (plain_tree term.now)) ≡ []) }
    ensures own_sort { IfOk result
        (λ r. the_sort sig.now (unfolded (plain_tree term.now)) ≡ Some r.1.0) }
    ensures means { IfOk result
        (λ r. Means sig.now [] (unfolded (plain_tree term.now)) (plain_pattern r.0)) }
    ensures sorted { IfOk result (λ r. HasSort sig.now [] (plain_pattern r.0) r.1.0) }
    ensures refused { IfErr result (RefusesFor
        (λ f. IsFirstBy ByByte (Contains (all_faults sig.now (unfolded (plain_tree term.now))))
        (Some f))) }
{
    let mut vars = Variables::new(alloc);
    match check_pattern(alloc, sig, term, &mut vars) {
        Ok(made) => Ok(made),
        Err(fault) => Err(refusal_of(fault)),
    }
}

/// The refusal for a fault: its number and its byte.
fn refusal_of(fault: CheckFault) -> Refusal
    ensures { (faults : List Fault) → IsRefusal faults fault →
        RefusesFor (λ f. IsFirstBy ByByte (Contains faults) (Some f)) result }
{
    match fault {
        CheckFault::Deep(at) => Refusal::Refused(3, at),
        CheckFault::UnknownSort(at) => Refusal::Refused(6, at),
        CheckFault::UnknownSymbol(at) => Refusal::Refused(7, at),
        CheckFault::Arity(at) => Refusal::Refused(8, at),
        CheckFault::SortClash(at) => Refusal::Refused(9, at),
        CheckFault::BadValue(at) => Refusal::Refused(11, at),
        CheckFault::NoKind(at) => Refusal::Refused(25, at),
        CheckFault::Memory => Refusal::Memory,
    }
}

/// Whether the rules have a sort and it is not this one.
fn differs_from(top: Option<SortId>, sort: SortId) -> bool
    ensures { result ≡ does_differ (number_of_sort top) sort.0 }
{
    top.is_some_and(|top| top != sort)
}
