// Accepted definitions, and configurations of them.
ghost use Rattle.std.specs.Prelude.{IfSome};
ghost use Rattle.term_core.specs.RulePatterns.{plain_pattern};
ghost use Rattle.rule_core.specs.AcSymbols.{IsAcFree};
ghost use Rattle.rule_core.specs.BoundVariables.{HasBoundVariables};
ghost use Rattle.rule_core.specs.ProgramView.{theory_of};
ghost use Rattle.rule_core.specs.WellSorted.{IsStart, IsWellSorted};
ghost use Rattle.fun_eval.specs.Evaluable.{HasNumbers};
ghost use Rattle.kore_sig.specs.Numbered.{IsNumbered};
ghost use Rattle.kore_rules.specs.Names.{HasIdentifierNames};
ghost use Rattle.kore_rules.specs.RefusedTexts.{top_of, IsSortOfRules};
ghost use Rattle.rewriter.specs.Configurations.{IsConfiguration};

use fun_eval::Engine;
use kore_rules::{accept, accept_term};
use rewriter::Run;
use rule_core::Program;
use std::alloc::Global;
use term_core::{RulePat, Term};

/// The greatest number of bytes of a text.
const LIMIT: usize = 65_536;

/// The program that a definition means, if it is accepted and has no constructor that is
/// associative, commutative or idempotent, or has a unit.
pub(crate) fn program_of(alloc: Global, definition: &str) -> Option<Program>
    ensures well_sorted { IfSome result (λ p. IsWellSorted (theory_of p)) }
    ensures no_ac { IfSome result (λ p. IsAcFree p.sig) }
    ensures bound { IfSome result HasBoundVariables }
    ensures numbers { IfSome result (λ p. HasNumbers (theory_of p)) }
    ensures numbered { IfSome result (λ p. IsNumbered p.sig) }
    ensures top { IfSome result (λ p. IsSortOfRules (theory_of p) (top_of p)) }
    ensures names { IfSome result (λ p. HasIdentifierNames p.sig) }
{
    let bytes = definition.as_bytes();
    if LIMIT < bytes.len() {
        return None;
    }
    match accept(alloc, bytes) {
        Ok(program) if program.sig.ac_free() => Some(program),
        _ => None,
    }
}

/// The ground pattern that a term of the program means, if it is accepted.
pub(crate) fn start_of(alloc: Global, program: &Program, term: &str) -> Option<RulePat>
    requires well_sorted { IsWellSorted (theory_of program.now) }
    requires numbered { IsNumbered program.now.sig }
    requires top { IsSortOfRules (theory_of program.now) (top_of program.now) }
    ensures { IfSome result (λ p. IsStart (theory_of program.now) (plain_pattern p)) }
{
    let bytes = term.as_bytes();
    if LIMIT < bytes.len() {
        return None;
    }
    match accept_term(alloc, program, bytes) {
        Ok(start) => Some(start),
        Err(_) => None,
    }
}

/// The value of a ground term of the program.
pub(crate) fn configuration(alloc: Global, program: &Program, term: &str) -> Option<Term>
    requires well_sorted { IsWellSorted (theory_of program.now) }
    requires numbers { HasNumbers (theory_of program.now) }
    requires numbered { IsNumbered program.now.sig }
    requires top { IsSortOfRules (theory_of program.now) (top_of program.now) }
    ensures { IfSome result (IsConfiguration (theory_of program.now)) }
{
    let start = start_of(alloc, program, term)?;
    let Ok(engine) = Engine::new(alloc, program) else {
        return None;
    };
    let Ok((run, _)) = Run::new(alloc, &engine, &start, 1_000) else {
        return None;
    };
    let Ok(config) = run.config().share() else {
        return None;
    };
    Some(config)
}
