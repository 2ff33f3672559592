// Definitions and terms are accepted, or their first refusal is returned.
ghost use Rattle.std.specs.Prelude.{◌≡◌, ◌<◌, ◌≤◌, ◌^◌, ℕ, length, option_map, flat_map, map, None};
ghost use Rattle.std.specs.Prelude.{Some, IfOk, OnOk, IfErr, List};
ghost use Rattle.std.specs.List.{AllZip};
ghost use Rattle.kore_text.specs.Trees.{AxiomDeclaration};
ghost use Rattle.kore_ast.specs.Plain.{plain_definition};
ghost use Rattle.term_core.specs.RulePatterns.{plain_pattern};
ghost use Rattle.rule_core.specs.BoundVariables.{HasBoundVariables};
ghost use Rattle.rule_core.specs.DistinctNames.{names_of, AreDistinct};
ghost use Rattle.rule_core.specs.ProgramView.{theory_of};
ghost use Rattle.rule_core.specs.Theories.{equations_of};
ghost use Rattle.rule_core.specs.WellSorted.{IsSignature, IsWellSorted, IsStart};
ghost use Rattle.kore_sig.specs.Declarations.{axioms_of as the_axioms, pairs_of_axiom};
ghost use Rattle.kore_sig.specs.Signatures.{IsPairOf};
ghost use Rattle.kore_sig.specs.Numbered.{IsNumbered};
ghost use Rattle.kore_rules.specs.Acceptance.{IsAccepted, IsAcceptedTerm};
ghost use Rattle.kore_rules.specs.Refused.{IsRefused, IsRefusedTerm, FirstOfDefinition};
ghost use Rattle.kore_rules.specs.NamedVariables.{NamesVariables};
ghost use Rattle.kore_rules.specs.AxiomsRead.{HaveRead, IsFirstSort, AreFew, sort_at, tree_at};
ghost use Rattle.kore_rules.specs.Names.{HasIdentifierNames};
ghost use Rattle.kore_rules.specs.MadePrograms.{IsMadeOf, ListsOwnEquations, HasNamesOf};
ghost use Rattle.kore_rules.specs.Programs.{IsProgramUnder, IsTopOf};
ghost use Rattle.kore_rules.specs.KeptNames.{KeepsNames};
ghost use Rattle.kore_rules.specs.RefusedTexts.{RefusesFor, top_of, number_of_sort, IsSortOfRules};

use crate::axioms::{Readings, read_axioms};
use crate::declared::{axioms_of, signature_of};
use crate::equations::{Listed, all_equations};
use crate::kinds::final_symbols;
use crate::order::{empty_others, put_rules_in_order};
use crate::sorts::sorts_with_terms;
use crate::start::start_of;
use crate::texts::{definition_in, pattern_in};
use kore_ast::{AxiomDecl, Definition, Sort};
use kore_axioms::Refusal;
use kore_lex::token_laws;
use kore_sig::sort_number;
use kore_text::name_laws;
use rule_core::{Program, Signature, TextHasher};
use std::alloc::{AllocError, Global};
use term_core::{RulePat, SortId};

/// Returns the program that a definition means. Each variable of a rule occurs in its left side,
/// and each variable of an equation occurs in its arguments. A guard lists each variable of the
/// equation that it repeats. A variable has its name in the text.
///
/// The error is the first fault of the text, or else that of its declarations, or else that of its
/// axioms in the order of the file, or that memory ran out.
///
/// It goes through the text a few times, and through each declaration a few times, with a look-up
/// for each name. It sorts the rules and the equations. It compares each guard of an equation of the
/// last resort with the other equations of its function, until one is found that the guard repeats.
/// Its recursion is no deeper than the open brackets of the text.
pub fn accept(alloc: Global, bytes: &[u8]) -> Result<Program, Refusal>
    requires { length bytes.now < 2 ^ 32 }
    ensures accepted { IfOk result (λ p. IsAccepted bytes.now (theory_of p) (top_of p)) }
    ensures well_sorted { IfOk result (λ p. IsWellSorted (theory_of p)) }
    ensures top { IfOk result (λ p. IsSortOfRules (theory_of p) (top_of p)) }
    ensures numbered { IfOk result (λ p. IsNumbered p.sig) }
    ensures rules { IfOk result (λ p. length p.rules.items ≤ 2 ^ 32) }
    ensures equations { IfOk result
        (λ p. (f : ℕ) → length (equations_of (theory_of p) f) ≤ 2 ^ 32) }
    ensures bound { IfOk result HasBoundVariables }
    ensures names { IfOk result (λ p. HasIdentifierNames p.sig) }
    ensures variables { IfOk result (NamesVariables bytes.now) }
    ensures refused { IfErr result (RefusesFor (IsRefused bytes.now)) }
{
    token_laws();
    name_laws();
    let definition = definition_in(alloc, bytes)?;
    program_of(alloc, TextHasher::of_text(bytes), &definition)
}

/// The program that a definition means. `hasher` hashes its names. The error is the first fault of
/// its declarations, or else of its axioms.
fn program_of(
    alloc: Global,
    hasher: TextHasher,
    definition: &Definition,
) -> Result<Program, Refusal>
    requires { AreFew (the_axioms (plain_definition definition.now)) }
    ensures made { IfOk result
        (λ p. IsMadeOf (plain_definition definition.now) (theory_of p) (top_of p)) }
    ensures named { IfOk result (HasNamesOf (plain_definition definition.now)) }
    ensures numbered { IfOk result (λ p. IsNumbered p.sig) }
    ensures rules { IfOk result (λ p. length p.rules.items ≤ 2 ^ 32) }
    ensures equations { IfOk result
        (λ p. (f : ℕ) → length (equations_of (theory_of p) f) ≤ 2 ^ 32) }
    ensures own { IfOk result ListsOwnEquations }
    ensures refused { IfErr result
        (RefusesFor (λ f. FirstOfDefinition (plain_definition definition.now) (Some f))) }
{
    let sig = signature_of(alloc, hasher, definition)?;
    sig.symbols.names_differ();
    let axioms = axioms_of(alloc, hasher, definition)?;
    let (readings, first) = read_axioms(alloc, &sig, &axioms)?;
    let top = sort_of_rules(&sig, first);
    Ok(program_under(alloc, hasher, sig, &axioms, readings, top)?)
}

/// The number of the sort of the rules, if there are rules.
fn sort_of_rules(sig: &Signature, first: Option<&Sort>) -> Option<SortId>
    requires numbered { IsNumbered sig.now }
    ensures { (axioms : List AxiomDeclaration) → IsFirstSort sig.now axioms (sort_at first.entry) →
        IsTopOf sig.now axioms (number_of_sort result) }
{
    let number = sort_number(&sig.sorts, first?)?;
    Some(SortId(number as u32))
}

/// The program of a definition with this signature and these axioms. `readings` is what was read of
/// the axioms, and `top` is the sort of the rules.
fn program_under(
    alloc: Global,
    hasher: TextHasher,
    sig: Signature,
    axioms: &[&AxiomDecl],
    readings: Readings,
    top: Option<SortId>,
) -> Result<Program, AllocError>
    requires signature { IsSignature sig }
    requires distinct { AreDistinct (names_of sig.symbols) }
    requires numbered { IsNumbered sig }
    requires pairs { AllZip (IsPairOf sig.sorts) (flat_map pairs_of_axiom (map tree_at axioms.now))
        sig.subsorts }
    requires few { AreFew (map tree_at axioms.now) }
    requires read { HaveRead sig (map tree_at axioms.now) readings }
    ensures means { IfOk result (λ p. IsProgramUnder sig (map tree_at axioms.now) (theory_of p)) }
    ensures named { IfOk result (KeepsNames sig (map tree_at axioms.now)) }
    ensures top { IfOk result (λ p. top_of p ≡ number_of_sort top) }
    ensures numbered { IfOk result (λ p. IsNumbered p.sig) }
    ensures rules { IfOk result (λ p. length p.rules.items ≤ 2 ^ 32) }
    ensures equations { IfOk result
        (λ p. (f : ℕ) → length (equations_of (theory_of p) f) ≤ 2 ^ 32) }
    ensures own { IfOk result ListsOwnEquations }
{
    let with_terms = sorts_with_terms(alloc, &sig, axioms)?;
    let mut rules = readings.rules;
    put_rules_in_order(&mut rules)?;
    let Listed {
        lists: mut equations,
        unreadable,
    } = all_equations(alloc, &sig, axioms, readings.equations, readings.unreadable)?;
    let symbols = final_symbols(alloc, hasher, &sig, &with_terms, &unreadable)?;
    empty_others(alloc, &symbols, &mut equations);
    let sig = Signature {
        sorts: sig.sorts,
        symbols,
        subsorts: sig.subsorts,
    };
    Ok(Program {
        sig,
        top,
        rules,
        equations,
    })
}

/// Returns the pattern that a term of an accepted definition means.
///
/// The error is the first fault of the text, or else the first pattern that a term must not have,
/// or else the first fault of its sorts, or else that it does not have the sort of the rules, or
/// that memory ran out.
///
/// It goes through the text a few times, with a look-up for each name. Its recursion is no deeper
/// than the open brackets of the text.
pub fn accept_term(alloc: Global, program: &Program, bytes: &[u8]) -> Result<RulePat, Refusal>
    requires few { length bytes.now < 2 ^ 32 }
    requires well_sorted { IsWellSorted (theory_of program.now) }
    requires numbered { IsNumbered program.now.sig }
    requires top { IsSortOfRules (theory_of program.now) (top_of program.now) }
    ensures accepted { IfOk result
        (λ start.
        IsAcceptedTerm program.now.sig (top_of program.now) bytes.now (plain_pattern start)) }
    ensures start { IfOk result (λ start. IsStart (theory_of program.now) (plain_pattern start)) }
    ensures refused { IfErr result
        (RefusesFor (IsRefusedTerm program.now.sig (top_of program.now) bytes.now)) }
{
    let term = pattern_in(alloc, bytes)?;
    start_of(alloc, &program.sig, program.top, &term)
}
