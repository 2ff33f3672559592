// The first fault of a declaration, from the declarations before it.
ghost use Rattle.std.specs.Prelude.{◌≡◌, ◌<◌, ◌^◌, length, take};
ghost use Rattle.kore_ast.specs.Plain.{plain_declaration, plain_import, plain_sort_decl};
ghost use Rattle.kore_ast.specs.Plain.{plain_symbol_decl};
ghost use Rattle.rule_core.specs.DistinctNames.{names_of};
ghost use Rattle.rule_core.specs.Named.{is_among};
ghost use Rattle.kore_sig.specs.Declaring.{IsFoundFault, before_of};
ghost use Rattle.kore_sig.specs.Noted.{first_by_number};
ghost use Rattle.kore_sig.specs.SignatureFaults.{import_faults, sort_declaration_faults};
ghost use Rattle.kore_sig.specs.SignatureFaults.{symbol_declaration_faults, declaration_faults};

use crate::counted::Placed;
use crate::faults::SigFault;
use crate::names::has_name;
use crate::references::first_unknown;
use kore_ast::{Decl, ImportDecl, SortDecl, SymbolDecl, Text};
use rule_core::{SortInfo, SymInfo, Table};

/// The greatest number of arguments of a symbol.
const MOST_ARGUMENTS: usize = 64;

/// The first fault of a declaration. `modules` has all modules by number, and `sorts` has all
/// sorts. `seen` and `symbols` have the sorts and the symbols that are declared before it.
pub(crate) fn declaration_fault(
    modules: &Table<()>,
    sorts: &Table<SortInfo>,
    seen: &Table<()>,
    symbols: &Table<SymInfo>,
    placed: &Placed<'_>,
) -> Option<SigFault>
    requires { length sorts.now < 2 ^ 32 }
    ensures { IsFoundFault (first_by_number
        (declaration_faults sorts.now (before_of seen.now symbols.now)
        (take placed.now.module_index (names_of modules.now))
        (plain_declaration placed.now.decl.now))) result }
{
    match placed.decl {
        Decl::Import(decl) => import_fault(modules, placed.module_index, decl),
        Decl::SortDecl(decl) => sort_fault(seen, decl),
        Decl::SymbolDecl(decl) => symbol_fault(sorts, symbols, decl),
        Decl::Alias(_) | Decl::Axiom(_) | Decl::Claim(_) => None,
    }
}

/// The fault of an import: no earlier module has the name.
fn import_fault(modules: &Table<()>, own: usize, decl: &ImportDecl) -> Option<SigFault>
    ensures { IsFoundFault (first_by_number
        (import_faults (take own (names_of modules.now)) (plain_import decl.now))) result }
{
    if is_earlier(modules, own, &decl.name) {
        None
    } else {
        Some(SigFault::Import(decl.at))
    }
}

/// Whether a module before this one has the name.
fn is_earlier(modules: &Table<()>, own: usize, name: &Text) -> bool
    ensures { result ≡ is_among (take own (names_of modules.now)) name.now }
{
    modules
        .number(name.as_str())
        .is_some_and(|number| number < own)
}

/// The first fault of a sort: its name is taken, or it has parameters.
fn sort_fault(seen: &Table<()>, decl: &SortDecl) -> Option<SigFault>
    ensures { IsFoundFault (first_by_number
        (sort_declaration_faults (names_of seen.now) (plain_sort_decl decl.now))) result }
{
    if has_name(seen, &decl.name) {
        Some(SigFault::Duplicate(decl.at))
    } else if !decl.params.is_empty() {
        Some(SigFault::SortParameter(decl.at))
    } else {
        None
    }
}

/// The first fault of a symbol: its name is taken, it names an unknown sort, or it has too many
/// arguments.
fn symbol_fault(
    sorts: &Table<SortInfo>,
    symbols: &Table<SymInfo>,
    decl: &SymbolDecl,
) -> Option<SigFault>
    requires { length sorts.now < 2 ^ 32 }
    ensures { IsFoundFault (first_by_number
        (symbol_declaration_faults sorts.now (names_of symbols.now) (plain_symbol_decl decl.now)))
        result }
{
    if has_name(symbols, &decl.name) {
        return Some(SigFault::Duplicate(decl.at));
    }
    if u32::try_from(decl.params.len()).is_err() {
        return Some(SigFault::Memory);
    }
    if let Some(at) = first_unknown(sorts, &decl.params, &decl.args, &decl.result) {
        return Some(SigFault::UnknownSort(at));
    }
    if decl.args.len() > MOST_ARGUMENTS {
        return Some(SigFault::Arity(decl.at));
    }
    None
}
