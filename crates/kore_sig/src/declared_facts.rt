// What is known of all declarations before each of them is checked.
ghost use Rattle.std.specs.Prelude.{◌≡◌, ◌<◌, ◌^◌, ◌++◌, ◌∷◌, [], ℕ, List, map, IfOk, OnOk};
ghost use Rattle.std.specs.Prelude.{option_copied, length};
ghost use Rattle.std.specs.Prelude.{filter_map};
ghost use Rattle.kore_ast.specs.Plain.{plain_declaration, plain_sort_decl, plain_axiom_decl};
ghost use Rattle.kore_text.specs.Trees.{Declaration, sort_declaration};
ghost use Rattle.kore_sig.specs.SymbolKinds.{injection_of};
ghost use Rattle.kore_sig.specs.Knowing.{IsKnown, IsSortTable, symbols_in, ac_in as the_ac_in};
ghost use Rattle.kore_sig.specs.Sets.{Knows};

use crate::attributes::hook_of;
use crate::counted::Placed;
use crate::kinds::{has_injection_form, kind_of_hook, said_ac};
use crate::names::add_name;
use kore_ast::{AxiomDecl, Decl, SortDecl};
use rule_core::{SortInfo, Table, TextHasher};
use std::alloc::{AllocError, Global};

/// The declared sorts, the name of the injection symbol, and the symbols that axioms say to be
/// associative or the like.
#[derive(Drop)]
pub(crate) struct DeclaredFacts<'a> {
    pub(crate) sorts: Table<SortInfo>,
    pub(crate) injection: Option<&'a str>,
    pub(crate) ac: Table<()>,
}

/// Collects what is known of these declarations. If several sorts have the same name, the first one
/// is kept.
pub(crate) fn learn<'a>(
    alloc: Global,
    hasher: TextHasher,
    decls: &[Placed<'a>],
) -> Result<DeclaredFacts<'a>, AllocError>
    ensures { IfOk result (IsKnown (map (λ p. plain_declaration p.decl.now) decls.now)) }
{
    Ok(DeclaredFacts {
        sorts: sorts_in(alloc, hasher, decls)?,
        injection: injection_in(decls),
        ac: ac_in(alloc, hasher, decls)?,
    })
}

fn sorts_in(
    alloc: Global,
    hasher: TextHasher,
    decls: &[Placed<'_>],
) -> Result<Table<SortInfo>, AllocError>
    ensures { IfOk result (IsSortTable (map (λ p. plain_declaration p.decl.now) decls.now)) }
{
    let mut sorts = Table::hashed_by(alloc, hasher);
    for placed in decls {
        if let Decl::SortDecl(decl) = placed.decl {
            add_sort(alloc, &mut sorts, decl)?;
        }
    }
    Ok(sorts)
}

/// Adds a sort if its name is new.
fn add_sort(alloc: Global, sorts: &mut Table<SortInfo>, decl: &SortDecl) -> Result<(), AllocError>
    ensures { OnOk result ((ds : List Declaration) → IsSortTable ds sorts.old
        → IsSortTable (ds ++ sort_declaration (plain_sort_decl decl.now) ∷ []) sorts.new) }
{
    let kind = kind_of_hook(hook_of(&decl.attrs));
    sorts.insert(
        String::from_str(alloc, decl.name.as_str())?,
        SortInfo { kind },
    )?;
    Ok(())
}

fn injection_in<'a>(decls: &[Placed<'a>]) -> Option<&'a str>
    ensures { option_copied result
        ≡ injection_of (symbols_in (map (λ p. plain_declaration p.decl.now) decls.now)) }
{
    for placed in decls {
        if let Decl::SymbolDecl(decl) = placed.decl
            && has_injection_form(decl)
        {
            return Some(decl.name.as_str());
        }
    }
    None
}

fn ac_in(alloc: Global, hasher: TextHasher, decls: &[Placed<'_>]) -> Result<Table<()>, AllocError>
    ensures { IfOk result
        (λ names. Knows names (the_ac_in (map (λ p. plain_declaration p.decl.now) decls.now))) }
{
    let mut names = Table::hashed_by(alloc, hasher);
    for placed in decls {
        if let Decl::Axiom(decl) = placed.decl
            && let Some(name) = said_ac(decl)
        {
            add_name(alloc, &mut names, name)?;
        }
    }
    Ok(names)
}
