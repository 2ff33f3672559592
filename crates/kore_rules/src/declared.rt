// What a definition declares: its signature, and its axioms in the order of the file.
ghost use Rattle.std.specs.Prelude.{◌≡◌, ◌++◌, [], map, None, Some, IfOk, OnOk, IfErr};
ghost use Rattle.kore_text.specs.Trees.{DefinitionTree};
ghost use Rattle.std.specs.List.{cons_option};
ghost use Rattle.kore_ast.specs.Plain.{plain_definition, plain_declaration};
ghost use Rattle.rule_core.specs.WellSorted.{IsSignature};
ghost use Rattle.kore_sig.specs.Declarations.{axioms_of as the_axioms, axiom_declared};
ghost use Rattle.kore_sig.specs.Refusals.{IsRefusal};
ghost use Rattle.kore_sig.specs.SignatureFaults.{FirstOfSignature};
ghost use Rattle.kore_sig.specs.Signatures.{IsSignatureOf};
ghost use Rattle.kore_sig.specs.Numbered.{IsNumbered};
ghost use Rattle.kore_rules.specs.AxiomsRead.{tree_at};
ghost use Rattle.kore_rules.specs.RefusedTexts.{RefusesFor};

use kore_ast::{AxiomDecl, Decl, Definition};
use kore_axioms::Refusal;
use kore_sig::{SigFault, counted_declarations, signature};
use rule_core::{Signature, TextHasher};
use std::alloc::{AllocError, Global};

/// The signature that a definition declares. The error is the first fault of its declarations.
pub(crate) fn signature_of(
    alloc: Global,
    hasher: TextHasher,
    definition: &Definition,
) -> Result<Signature, Refusal>
    ensures declared { IfOk result (IsSignatureOf (plain_definition definition.now)) }
    ensures faultless { OnOk result (FirstOfSignature (plain_definition definition.now) None) }
    ensures sorted { IfOk result IsSignature }
    ensures numbered { IfOk result IsNumbered }
    ensures refused { IfErr result
        (RefusesFor (λ f. FirstOfSignature (plain_definition definition.now) (Some f))) }
{
    signature(alloc, hasher, definition).map_err(refusal_of)
}

/// The refusal for a fault: its number and its byte.
fn refusal_of(fault: SigFault) -> Refusal
    ensures { (d : DefinitionTree) → IsRefusal d fault
        → RefusesFor (λ f. FirstOfSignature d (Some f)) result }
{
    match fault {
        SigFault::Import(at) => Refusal::Refused(4, at),
        SigFault::Duplicate(at) => Refusal::Refused(5, at),
        SigFault::UnknownSort(at) => Refusal::Refused(6, at),
        SigFault::Arity(at) => Refusal::Refused(8, at),
        SigFault::SortParameter(at) => Refusal::Refused(10, at),
        SigFault::SubsortCycle(at) => Refusal::Refused(24, at),
        SigFault::Memory => Refusal::Memory,
    }
}

/// The axioms of the modules that count, in the order of the file.
pub(crate) fn axioms_of(
    alloc: Global,
    hasher: TextHasher,
    definition: &Definition,
) -> Result<Vec<&AxiomDecl>, AllocError>
    ensures { IfOk result
        (λ decls. map tree_at decls.items ≡ the_axioms (plain_definition definition.now)) }
{
    let decls = counted_declarations(alloc, hasher, definition)?;
    let mut axioms = Vec::new(alloc);
    for decl in &decls {
        add_axiom(decl, &mut axioms)?;
    }
    Ok(axioms)
}

/// Adds a declaration if it is an axiom.
fn add_axiom<'a>(decl: &'a Decl, axioms: &mut Vec<&'a AxiomDecl>) -> Result<(), AllocError>
    ensures { OnOk result (map tree_at axioms.new.items
        ≡ map tree_at axioms.old.items
        ++ cons_option (axiom_declared (plain_declaration decl.now)) []) }
{
    if let Decl::Axiom(axiom) = decl {
        axioms.push(axiom)?;
    }
    Ok(())
}
