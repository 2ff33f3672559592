// The modules that count: the main module, and the modules that it reaches by imports.
ghost use Rattle.std.specs.Prelude.{◌≡◌, ◌++◌, [], ℕ, List, map, filter_map, IfOk, OnOk, take};
ghost use Rattle.kore_ast.specs.Plain.{plain_definition, plain_module, plain_declaration};
ghost use Rattle.kore_sig.specs.CountedModules.{import_name, counted_declarations as the_counted};
ghost use Rattle.kore_sig.specs.SignatureFaults.{declarations_placed as the_placed, placed_at};
ghost use Rattle.kore_sig.specs.Placing.{marks_of, plain_placed, names_of_modules};
ghost use Rattle.kore_sig.specs.Sets.{Knows};

use crate::names::{add_name, has_name};
use kore_ast::{Decl, Definition, Module};
use rule_core::{Table, TextHasher};
use std::alloc::{AllocError, Global};

/// A declaration of a module that counts.
#[derive(Clone, Copy)]
pub(crate) struct Placed<'a> {
    /// The number of the module in the file, from 0.
    pub(crate) module_index: usize,
    pub(crate) decl: &'a Decl,
}

/// Returns the declarations of the modules that count, in the order of the file. The main module
/// counts, which is the last one. Each earlier module that a counted one imports counts too.
///
/// It looks at each declaration a few times. It looks up each imported name, in a time logarithmic
/// in the number of these names. The error is `AllocError`: out of memory.
pub fn counted_declarations(
    alloc: Global,
    hasher: TextHasher,
    definition: &Definition,
) -> Result<Vec<&Decl>, AllocError>
    ensures { IfOk result (λ ds. map (λ d. plain_declaration d.now) ds.items
        ≡ the_counted (plain_definition definition.now)) }
{
    let placed = placed_declarations(alloc, hasher, definition)?;
    let mut decls = Vec::with_capacity(alloc, placed.len())?;
    for one in &placed {
        decls.push(one.decl)?;
    }
    Ok(decls)
}

/// The same declarations, each with the number of its module.
pub(crate) fn placed_declarations(
    alloc: Global,
    hasher: TextHasher,
    definition: &Definition,
) -> Result<Vec<Placed<'_>>, AllocError>
    ensures counted { IfOk result (λ ps. map (λ p. plain_declaration p.decl.now) ps.items
        ≡ the_counted (plain_definition definition.now)) }
    ensures placed { IfOk result
        (λ ps. map (plain_placed (names_of_modules definition.now.modules.items)) ps.items
        ≡ the_placed [] (plain_definition definition.now).modules) }
{
    let modules = &definition.modules;
    let counted = marks(alloc, hasher, modules)?;
    let mut placed = Vec::new(alloc);
    for (i, module) in modules.iter().enumerate() {
        if counted[i] {
            place(&mut placed, i, &module.decls)?;
        }
    }
    Ok(placed)
}

/// Adds the declarations of the module with this number.
fn place<'a>(
    placed: &mut Vec<Placed<'a>>,
    module_index: usize,
    decls: &'a [Decl],
) -> Result<(), AllocError>
    ensures { OnOk result ((names : List (List ℕ)) → map (plain_placed names) placed.new.items
        ≡ map (plain_placed names) placed.old.items
        ++ map (placed_at (take module_index names)) (map plain_declaration decls.now)) }
{
    placed.reserve(decls.len())?;
    for decl in decls {
        placed.push(Placed { module_index, decl }).unwrap();
    }
    Ok(())
}

/// Whether each module counts. It goes from the last module to the first.
fn marks(alloc: Global, hasher: TextHasher, modules: &[Module]) -> Result<Vec<bool>, AllocError>
    ensures { IfOk result (λ marks. marks.items ≡ marks_of (map plain_module modules.now)) }
{
    let mut imported = Table::hashed_by(alloc, hasher);
    let mut marks = Vec::with_capacity(alloc, modules.len())?;
    for i in (0..modules.len()).rev() {
        let module = &modules[i];
        let counts = i + 1 == modules.len() || has_name(&imported, &module.name);
        if counts {
            add_imports(alloc, &mut imported, &module.decls)?;
        }
        marks.push(counts)?;
    }
    marks.reverse();
    Ok(marks)
}

/// Adds the names that the declarations import.
fn add_imports(alloc: Global, imported: &mut Table<()>, decls: &[Decl]) -> Result<(), AllocError>
    ensures { OnOk result ((names : List (List ℕ)) → Knows imported.old names
        → Knows imported.new (names ++ filter_map import_name (map plain_declaration decls.now))) }
{
    for decl in decls {
        if let Decl::Import(import) = decl {
            add_name(alloc, imported, &import.name)?;
        }
    }
    Ok(())
}
