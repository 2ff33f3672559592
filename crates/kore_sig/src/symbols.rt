// The symbols of declarations that have no fault.
ghost use Rattle.std.specs.Prelude.{◌≡◌, ◌<◌, ◌^◌, ◌++◌, ◌∷◌, [], ℕ, List, None, Some, map};
ghost use Rattle.std.specs.Prelude.{flat_map, length, take, IfOk, IfErr, OnOk, option_map};
ghost use Rattle.std.specs.Prelude.{option_copied, string_bytes};
ghost use Rattle.kore_ast.specs.Plain.{plain_declaration, plain_sort, plain_symbol_decl};
ghost use Rattle.kore_ast.specs.Plain.{pattern_tree};
ghost use Rattle.rule_core.specs.DistinctNames.{names_of, AreDistinct};
ghost use Rattle.kore_sig.specs.Attributes.{hook_of as the_hook};
ghost use Rattle.kore_sig.specs.Declaring.{AreSymbols, Grows, before_of, first_declared};
ghost use Rattle.kore_sig.specs.Knowing.{entries_in};
ghost use Rattle.kore_sig.specs.Noted.{first_by_number};
ghost use Rattle.kore_sig.specs.Placing.{plain_placed};
ghost use Rattle.kore_sig.specs.Refusals.{Refuses};
ghost use Rattle.kore_sig.specs.SignatureFaults.{reference_faults, declaration_faults};
ghost use Rattle.kore_sig.specs.SignatureFaults.{nothing_declared};
ghost use Rattle.kore_sig.specs.Signatures.{IsSymbolEntry};
ghost use Rattle.kore_sig.specs.SortReferences.{sort_reference as the_reference};

use crate::attributes::{hook_of, is_said_ac};
use crate::counted::Placed;
use crate::declared_facts::DeclaredFacts;
use crate::declaring::declaration_fault;
use crate::faults::SigFault;
use crate::kinds::kind_of;
use crate::names::{add_name, has_name};
use crate::references::sort_reference;
use kore_ast::{Decl, Pat, Sort, SymbolDecl, Text};
use rule_core::{SortInfo, SortRef, SymInfo, Table, TextHasher};
use std::alloc::{AllocError, Global};

/// The declared symbols. `modules` has all modules by number. The error is the first fault of the
/// declarations.
pub(crate) fn declared_symbols(
    alloc: Global,
    hasher: TextHasher,
    modules: &Table<()>,
    known: &DeclaredFacts<'_>,
    decls: &[Placed<'_>],
) -> Result<Table<SymInfo>, SigFault>
    requires { length known.now.sorts < 2 ^ 32 }
    ensures refused { IfErr result
        (Refuses (λ r. first_declared known.now.sorts nothing_declared
        (map (plain_placed (names_of modules.now)) decls.now) ≡ r)) }
    ensures clear { OnOk result
        (first_declared known.now.sorts nothing_declared
        (map (plain_placed (names_of modules.now)) decls.now) ≡ None) }
    ensures distinct { OnOk result
        (AreDistinct (names_of (entries_in (map (λ p. plain_declaration p.decl.now) decls.now)))) }
    ensures symbols { IfOk result
        (AreSymbols known.now (map (λ p. plain_declaration p.decl.now) decls.now)) }
{
    let mut seen = Table::hashed_by(alloc, hasher);
    let mut symbols = Table::hashed_by(alloc, hasher);
    for placed in decls {
        if let Some(fault) = declaration_fault(modules, &known.sorts, &seen, &symbols, placed) {
            return Err(fault);
        }
        declare(alloc, known, &mut seen, &mut symbols, placed.decl)?;
    }
    seen.names_differ();
    Ok(symbols)
}

/// Adds what a declaration that has no fault declares.
fn declare(
    alloc: Global,
    known: &DeclaredFacts<'_>,
    seen: &mut Table<()>,
    symbols: &mut Table<SymInfo>,
    decl: &Decl,
) -> Result<(), SigFault>
    requires sorts { length known.now.sorts < 2 ^ 32 }
    requires faultless { (earlier : List (List ℕ))
        × (first_by_number
        (declaration_faults known.now.sorts (before_of seen.old symbols.old) earlier
        (plain_declaration decl.now)) ≡ None) }
    ensures refused { IfErr result (Refuses (λ r. ⊥)) }
    ensures grown { OnOk result
        (Grows known.now seen.old symbols.old seen.new symbols.new (plain_declaration decl.now)) }
{
    match decl {
        Decl::SortDecl(decl) => {
            add_name(alloc, seen, &decl.name)?;
        }
        Decl::SymbolDecl(decl) => {
            let info = symbol_info(alloc, known, decl)?;
            symbols.insert(String::from_str(alloc, decl.name.as_str())?, info)?;
        }
        _ => {}
    }
    Ok(())
}

/// The entry of a symbol whose sorts are all known.
fn symbol_info(
    alloc: Global,
    known: &DeclaredFacts<'_>,
    decl: &SymbolDecl,
) -> Result<SymInfo, SigFault>
    requires sorts { length known.now.sorts < 2 ^ 32 }
    requires args { flat_map (reference_faults known.now.sorts decl.now.params.items)
        (map plain_sort decl.now.args.items) ≡ [] }
    requires value { reference_faults known.now.sorts decl.now.params.items
        (plain_sort decl.now.result) ≡ [] }
    ensures refused { IfErr result (Refuses (λ r. ⊥)) }
    ensures info { IfOk result
        (λ info. IsSymbolEntry known.now.sorts (option_copied known.now.injection)
        (names_of known.now.ac)
        (plain_symbol_decl decl.now) (decl.now.name, info)) }
{
    let Ok(params) = u32::try_from(decl.params.len()) else {
        return Err(SigFault::Memory);
    };
    let args = references(alloc, &known.sorts, &decl.params, &decl.args)?;
    let Some(value) = sort_reference(&known.sorts, &decl.params, &decl.result) else {
        unreachable!();
    };
    Ok(SymInfo {
        kind: kind_of(known.injection, decl),
        params,
        args,
        result: value,
        hook: hook_name(alloc, &decl.attrs)?,
        ac: is_said_ac(&decl.attrs) || has_name(&known.ac, &decl.name),
    })
}

/// What these known sorts mean.
fn references(
    alloc: Global,
    sorts: &Table<SortInfo>,
    params: &[Text],
    args: &[Sort],
) -> Result<Vec<SortRef>, AllocError>
    requires sorts { length sorts.now < 2 ^ 32 }
    requires params { length params.now < 2 ^ 32 }
    requires known { flat_map (reference_faults sorts.now params.now) (map plain_sort args.now)
        ≡ [] }
    ensures { IfOk result (λ refs. map Some refs.items
        ≡ map (the_reference sorts.now params.now) (map plain_sort args.now)) }
{
    let mut refs = Vec::with_capacity(alloc, args.len())?;
    for arg in args {
        match sort_reference(sorts, params, arg) {
            Some(reference) => refs.push(reference)?,
            None => unreachable!(),
        }
    }
    Ok(refs)
}

/// The name of the hook, if the attributes have one.
fn hook_name(alloc: Global, attrs: &[Pat]) -> Result<Option<String>, AllocError>
    ensures { IfOk result
        (λ hook. option_map string_bytes hook ≡ the_hook (map pattern_tree attrs.now)) }
{
    match hook_of(attrs) {
        Some(name) => Ok(Some(String::from_str(alloc, name)?)),
        None => Ok(None),
    }
}
