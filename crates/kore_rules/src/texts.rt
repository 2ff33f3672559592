// The texts of definitions and of terms.
ghost use Rattle.std.specs.Prelude.{◌≡◌, ◌<◌, ◌^◌, ℕ, List, length, IfOk, IfErr};
ghost use Rattle.kore_text.specs.Faults.{IsPattern, IsDefinition};
ghost use Rattle.kore_ast.specs.KoreText.{ReadsPattern, ReadsDefinition};
ghost use Rattle.kore_ast.specs.TextFaults.{IsFault};
ghost use Rattle.kore_ast.specs.Plain.{pattern_tree, plain_definition};
ghost use Rattle.kore_rules.specs.Refused.{HasTextFault};
ghost use Rattle.kore_rules.specs.RefusedTexts.{RefusesFor};

use kore_ast::{Definition, Pat, ReadFault, read_definition, read_pattern};
use kore_axioms::Refusal;
use std::alloc::Global;

/// The definition that the bytes spell. The error is the first fault of the text.
pub(crate) fn definition_in(alloc: Global, bytes: &[u8]) -> Result<Definition, Refusal>
    requires { length bytes.now < 2 ^ 32 }
    ensures spelled { IfOk result (λ d. ReadsDefinition bytes.now (plain_definition d)) }
    ensures refused { IfErr result (RefusesFor (HasTextFault IsDefinition bytes.now)) }
{
    read_definition(alloc, bytes).map_err(refusal_of)
}

/// The pattern that the bytes spell. The error is the first fault of the text.
pub(crate) fn pattern_in(alloc: Global, bytes: &[u8]) -> Result<Pat, Refusal>
    requires { length bytes.now < 2 ^ 32 }
    ensures spelled { IfOk result (λ p. ReadsPattern bytes.now (pattern_tree p)) }
    ensures refused { IfErr result (RefusesFor (HasTextFault IsPattern bytes.now)) }
{
    read_pattern(alloc, bytes).map_err(refusal_of)
}

/// The refusal for a fault: its number and its byte.
fn refusal_of(fault: ReadFault) -> Refusal
    ensures definition { (bytes : List ℕ) → IsFault IsDefinition bytes fault →
        RefusesFor (HasTextFault IsDefinition bytes) result }
    ensures pattern { (bytes : List ℕ) → IsFault IsPattern bytes fault →
        RefusesFor (HasTextFault IsPattern bytes) result }
{
    match fault {
        ReadFault::Lex(at) => Refusal::Refused(1, at),
        ReadFault::Syntax(at) => Refusal::Refused(2, at),
        ReadFault::Deep(at) => Refusal::Refused(3, at),
        ReadFault::Memory => Refusal::Memory,
    }
}
