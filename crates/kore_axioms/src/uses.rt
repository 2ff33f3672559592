// Which symbols a pattern uses.
ghost use Rattle.std.specs.Prelude.{◌≡◌, ◌&&◌, Bool, map, option_copied};
ghost use Rattle.kore_text.specs.Trees.{pattern_trees};
ghost use Rattle.kore_ast.specs.Plain.{pattern_tree};
ghost use Rattle.kore_check.specs.Folds.{unfolded, all_unfolded, inner_fold};
ghost use Rattle.kore_shapes.specs.Forms.{is_one as there_is_one};
ghost use Rattle.kore_axioms.specs.Uses.{has_symbol as has_one, have_symbol as have_one};
ghost use Rattle.kore_axioms.specs.Uses.{is_plain_function_with as is_the_plain_function};
ghost use Rattle.kore_axioms.specs.Uses.{is_ac_with as is_the_ac};
ghost use Rattle.rule_core.specs.KindTests.{is_function_kind};
ghost use Rattle.kore_axioms.specs.UsedSymbols.{is_used};
ghost use Rattle.kore_axioms.specs.FoldUses.{are_two as there_are_two};

use crate::classes::symbol_of;
use kore_ast::{Pat, PatForm, Text};
use kore_check::is_pair;
use rule_core::{Signature, SymInfo, SymKind};

/// Some of the symbols of a definition.
#[derive(Clone, Copy)]
pub enum Symbols {
    /// Functions that are not AC.
    PlainFunctions,
    /// Symbols that are AC: associative, commutative or idempotent, or with a unit.
    Ac,
}

/// Whether one of these symbols occurs in the pattern. Folds are read, so the symbol of a fold of
/// one argument is ignored. It goes through the pattern once, with a look-up for each symbol.
#[cycle(symbol)]
pub fn has_symbol(pat: &Pat, sig: &Signature, which: Symbols) -> bool
    ensures { result ≡ has_one (is_used which sig.now) (unfolded (pattern_tree pat.now)) }
{
    match &pat.form {
        PatForm::App(name, _, args) => {
            is_among(sig, name, which) || have_symbol(args, sig, which)
        }
        PatForm::Built(op, sorts, args) => is_pair(*op, sorts, args)
            && have_symbol(args, sig, which),
        PatForm::Fold(_, inner) => fold_has_symbol(inner, sig, which),
        PatForm::Elem(..) | PatForm::SetVar(..) | PatForm::Text(_) | PatForm::Value(..) => false,
        PatForm::Bound(..) => false,
    }
}

#[cycle(symbol)]
fn have_symbol(pats: &[Pat], sig: &Signature, which: Symbols) -> bool
    ensures { result
        ≡ have_one (is_used which sig.now)
        (all_unfolded (pattern_trees (map pattern_tree pats.now))) }
{
    for pat in pats {
        if has_symbol(pat, sig, which) {
            return true;
        }
    }
    false
}

/// Whether one of these symbols occurs in the fold of this pattern.
#[cycle(symbol)]
fn fold_has_symbol(pat: &Pat, sig: &Signature, which: Symbols) -> bool
    ensures { (left : Bool)
        → result ≡ has_one (is_used which sig.now) (inner_fold left (pattern_tree pat.now)) }
{
    match &pat.form {
        PatForm::App(name, _, args) => {
            is_among_folded(sig, name, args, which) || have_symbol(args, sig, which)
        }
        PatForm::Built(op, sorts, args) => {
            (is_one(args) || is_pair(*op, sorts, args)) && have_symbol(args, sig, which)
        }
        PatForm::Elem(..) | PatForm::SetVar(..) | PatForm::Text(_) | PatForm::Value(..) => false,
        PatForm::Bound(..) | PatForm::Fold(..) => false,
    }
}

/// Whether the symbol of a fold of these patterns is one of these symbols and occurs in what the
/// fold stands for.
fn is_among_folded(sig: &Signature, name: &Text, args: &[Pat], which: Symbols) -> bool
    ensures { result
        ≡ (there_are_two (map pattern_tree args.now) && is_used which sig.now name.now) }
{
    are_two(args) && is_among(sig, name, which)
}

fn is_one(pats: &[Pat]) -> bool
    ensures { result ≡ there_is_one (map pattern_tree pats.now) }
{
    matches!(pats, [_])
}

/// Whether there are two patterns or more.
fn are_two(pats: &[Pat]) -> bool
    ensures { result ≡ there_are_two (map pattern_tree pats.now) }
{
    matches!(pats, [_, _, ..])
}

/// Whether the symbol of this name is one of these.
fn is_among(sig: &Signature, name: &Text, which: Symbols) -> bool
    ensures { result ≡ is_used which sig.now name.now }
{
    let symbol = symbol_of(sig, name);
    match which {
        Symbols::PlainFunctions => is_plain_function(symbol),
        Symbols::Ac => is_ac(symbol),
    }
}

fn is_plain_function(symbol: Option<&SymInfo>) -> bool
    ensures { result ≡ is_the_plain_function (option_copied symbol.entry) }
{
    symbol.is_some_and(|symbol| is_function(symbol.kind) && !symbol.ac)
}

fn is_function(kind: SymKind) -> bool
    ensures { result ≡ is_function_kind kind }
{
    match kind {
        SymKind::Equations | SymKind::Hooked(_) | SymKind::Closed => true,
        SymKind::Injection | SymKind::Ctor | SymKind::NoKind => false,
    }
}

fn is_ac(symbol: Option<&SymInfo>) -> bool
    ensures { result ≡ is_the_ac (option_copied symbol.entry) }
{
    symbol.is_some_and(|symbol| symbol.ac)
}
