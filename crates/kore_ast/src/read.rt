// The two readers.

ghost use Rattle.std.specs.Prelude.{◌≡◌, ◌<◌, ◌^◌, length, IfOk};
ghost use Rattle.kore_text.specs.Trees.{PatternTree, DefinitionTree};
ghost use Rattle.kore_ast.specs.Plain.{pattern_tree, plain_definition};
ghost use Rattle.kore_ast.specs.KoreText.{ReadsPattern, ReadsDefinition};
ghost use Rattle.kore_ast.specs.TextFaults.{PatternFault};
ghost use Rattle.kore_ast.specs.TextFaults.{DefinitionFault};

use crate::reader::Reader;
use crate::tree::{Definition, Pat, ReadFault};
use kore_text::{definition_fault, pattern_fault};
use std::alloc::Global;

/// Reads a definition. The bytes (fewer than 2^32) are read to their end. Returns the definition
/// that they spell. Errors: the first fault of the text, or out of memory.
///
/// Time is linear in how many bytes there are. The recursion is only as deep as the brackets are
/// nested: at most 500 are open at once.
pub fn read_definition(alloc: Global, bytes: &[u8]) -> Result<Definition, ReadFault>
    requires { length bytes.now < 2 ^ 32 }
    ensures found { IfOk result (λ d. ReadsDefinition bytes.now (plain_definition d)) }
    ensures only { IfOk result
        (λ d. (t : DefinitionTree) → ReadsDefinition bytes.now t → t ≡ plain_definition d) }
    ensures fault { DefinitionFault bytes.now result }
{
    match definition_fault(alloc, bytes)? {
        Some(fault) => Err(ReadFault::from(fault)),
        None => Ok(Reader::new(alloc, bytes).definition()?),
    }
}

/// Reads a pattern. The bytes (fewer than 2^32) are read to their end. Returns the pattern that
/// they spell. Errors: the first fault of the text, or out of memory.
///
/// Time is linear in how many bytes there are. The recursion is only as deep as the brackets are
/// nested: at most 500 are open at once.
pub fn read_pattern(alloc: Global, bytes: &[u8]) -> Result<Pat, ReadFault>
    requires { length bytes.now < 2 ^ 32 }
    ensures found { IfOk result (λ p. ReadsPattern bytes.now (pattern_tree p)) }
    ensures only { IfOk result
        (λ p. (t : PatternTree) → ReadsPattern bytes.now t → t ≡ pattern_tree p) }
    ensures fault { PatternFault bytes.now result }
{
    match pattern_fault(alloc, bytes)? {
        Some(fault) => Err(ReadFault::from(fault)),
        None => Ok(Reader::new(alloc, bytes).pattern()?),
    }
}
