// The sort of a pattern and the rule pattern that it means, or its first fault.
ghost use Rattle.std.specs.Prelude.{◌≡◌, List, [], ◌∷◌, ℕ, IfOk, OnOk, IfErr, OnErr, Some};
ghost use Rattle.kore_ast.specs.Plain.{pattern_tree as plain_tree};
ghost use Rattle.kore_sig.specs.Numbered.{IsNumbered};
ghost use Rattle.term_core.specs.RulePatterns.{plain_pattern};
ghost use Rattle.rule_core.specs.Sorting.{HasSort};
ghost use Rattle.rule_core.specs.WellSorted.{IsSignature};
ghost use Rattle.kore_check.specs.SortedMeanings.{variable_sorts};
ghost use Rattle.kore_check.specs.Folds.{unfolded};
ghost use Rattle.kore_check.specs.Applicative.{IsApplicative};
ghost use Rattle.kore_check.specs.PatternSorts.{sort_of_pattern};
ghost use Rattle.kore_check.specs.PatternFaults.{pattern_faults, all_faults};
ghost use Rattle.kore_check.specs.PatternMeanings.{with_variables, Means};
ghost use Rattle.kore_check.specs.PartNames.{names_in};
ghost use Rattle.kore_check.specs.FaultNumbers.{IsRefusal};
ghost use Rattle.rule_core.specs.ProgramView.{names_of};

use crate::build::build;
use crate::{CheckFault, Variables, add_names, note_pattern};
use kore_ast::Pat;
use rule_core::{Named, Signature};
use std::alloc::{AllocError, Global};
use term_core::{RulePat, SortId};

/// Returns the rule pattern that a pattern means, and its sort. The pattern's new variables come
/// after those that are there. They are numbered by name and sort at their first occurrence.
///
/// The error is the first fault of the pattern by byte, and at the same byte by number, or that
/// memory ran out. After an error the variables are as before.
///
/// It takes time linear in the pattern, up to a logarithm of the numbers of sorts, symbols and
/// variables.
pub fn check_pattern(
    alloc: Global,
    sig: &Signature,
    pat: &Pat,
    vars: &mut Variables,
) -> Result<(RulePat, SortId), CheckFault>
    requires numbered { IsNumbered sig.now }
    requires signature { IsSignature sig.now }
    requires form { IsApplicative (unfolded (plain_tree pat.now)) }
    ensures faultless { OnOk result (all_faults sig.now (unfolded (plain_tree pat.now)) ≡ []) }
    ensures sort { IfOk result
        (λ r. sort_of_pattern sig.now (unfolded (plain_tree pat.now)) ≡ Some r.1.0) }
    ensures vars { OnOk result
        (vars.new ≡ with_variables sig.now vars.old (unfolded (plain_tree pat.now))) }
    ensures means { IfOk result
        (λ r. Means sig.now vars.new (unfolded (plain_tree pat.now)) (plain_pattern r.0)) }
    ensures sorted { IfOk result
        (λ r. HasSort sig.now (variable_sorts vars.new) (plain_pattern r.0) r.1.0) }
    ensures refused { IfErr result
        (IsRefusal (all_faults sig.now (unfolded (plain_tree pat.now)))) }
    ensures err { OnErr result (vars.new ≡ vars.old) }
{
    let mut first = None;
    let sort = note_pattern(sig, pat, &mut first);
    if let Some(fault) = first {
        return Err(CheckFault::from(fault));
    }
    let Some(sort) = sort else { unreachable!() };
    let made = build_pattern(alloc, sig, pat, vars)?;
    Ok((made, sort))
}

/// Returns what the left side of a rule means: the rule pattern without the names of its parts, the
/// names, and the sort. In an `\and` of a variable and a pattern that is no variable, the variable is
/// the name of what the pattern matches. The places of the names begin with 0; of names of one part,
/// the inner comes first. Variables, names too, are numbered as by `check_pattern`.
///
/// The error is the first fault of the pattern by byte, and at the same byte by number, or that
/// memory ran out. After an error the variables are as before.
///
/// It takes the time of `check_pattern`, and for each name a look-up and a copy of its place.
pub fn check_left(
    alloc: Global,
    sig: &Signature,
    pat: &Pat,
    vars: &mut Variables,
) -> Result<(RulePat, Vec<Named>, SortId), CheckFault>
    requires numbered { IsNumbered sig.now }
    requires signature { IsSignature sig.now }
    requires form { IsApplicative (unfolded (plain_tree pat.now)) }
    ensures faultless { OnOk result (all_faults sig.now (unfolded (plain_tree pat.now)) ≡ []) }
    ensures sort { IfOk result
        (λ r. sort_of_pattern sig.now (unfolded (plain_tree pat.now)) ≡ Some r.2.0) }
    ensures vars { OnOk result
        (vars.new ≡ with_variables sig.now vars.old (unfolded (plain_tree pat.now))) }
    ensures means { IfOk result
        (λ r. Means sig.now vars.new (unfolded (plain_tree pat.now)) (plain_pattern r.0)) }
    ensures names { IfOk result (λ r. names_of r.1.items
        ≡ names_in sig.now vars.new (0 ∷ []) (unfolded (plain_tree pat.now))) }
    ensures sorted { IfOk result
        (λ r. HasSort sig.now (variable_sorts vars.new) (plain_pattern r.0) r.2.0) }
    ensures refused { IfErr result
        (IsRefusal (all_faults sig.now (unfolded (plain_tree pat.now)))) }
    ensures err { OnErr result (vars.new ≡ vars.old) }
{
    let before = vars.len();
    let (made, sort) = check_pattern(alloc, sig, pat, vars)?;
    let mut named = Vec::new(alloc);
    match add_names(alloc, sig, pat, 0, vars, &mut named) {
        Ok(()) => Ok((made, named, sort)),
        Err(error) => {
            vars.truncate(before);
            Err(CheckFault::from(error))
        }
    }
}

/// Returns the rule pattern that a pattern without faults means. The pattern's new variables come
/// after those that are there. They are numbered by name and sort at their first occurrence. After
/// `AllocError` the variables are as before.
pub fn build_pattern(
    alloc: Global,
    sig: &Signature,
    pat: &Pat,
    vars: &mut Variables,
) -> Result<RulePat, AllocError>
    requires numbered { IsNumbered sig.now }
    requires signature { IsSignature sig.now }
    requires form { IsApplicative (unfolded (plain_tree pat.now)) }
    requires faultless { pattern_faults sig.now (unfolded (plain_tree pat.now)) ≡ [] }
    ensures vars { OnOk result
        (vars.new ≡ with_variables sig.now vars.old (unfolded (plain_tree pat.now))) }
    ensures means { IfOk result
        (λ p. Means sig.now vars.new (unfolded (plain_tree pat.now)) (plain_pattern p)) }
    ensures err { OnErr result (vars.new ≡ vars.old) }
{
    let before = vars.len();
    match build(alloc, sig, pat, vars) {
        Ok(Some(made)) => Ok(made),
        Ok(None) => unreachable!(),
        Err(error) => {
            vars.truncate(before);
            Err(error)
        }
    }
}
