// The Kore pattern of a pattern of a rule.
ghost use Rattle.std.specs.Prelude.{◌≡◌, IsSome, IfOk, Some, map, Option, IfSome, IfNone, None, ℕ};
ghost use Rattle.kore_ast.specs.Plain.{pattern_tree as kore_tree};
ghost use Rattle.kore_text.specs.Trees.{pattern_trees};
ghost use Rattle.term_core.specs.RulePatterns.{plain_pattern};
ghost use Rattle.term_core.specs.PatternLists.{plain_patterns};
ghost use Rattle.kore_show.specs.KorePatterns.{declared_name, injection_name, kore_pattern};
ghost use Rattle.kore_show.specs.KorePatterns.{kore_patterns};

use crate::names::{injection_symbol, name_of, sort_of, sorts_of, text_of};
use kore_ast::{Pat, PatForm};
use rule_core::Signature;
use std::alloc::{AllocError, Global};
use term_core::RulePat;

/// The Kore pattern of a pattern without variables, with the names of the signature, and with 0 for
/// each place. The pattern must have a Kore pattern. Every well-sorted pattern without variables
/// has one (`shown_laws`). `AllocError`: out of memory.
///
/// The time is linear in the pattern and its names, plus one pass over the symbols to find the
/// injection symbol. The recursion is as deep as the pattern.
pub fn shown(alloc: Global, sig: &Signature, pat: &RulePat) -> Result<Pat, AllocError>
    requires { IsSome (kore_pattern sig.now (plain_pattern pat.now)) }
    ensures { IfOk result (λ p. kore_pattern sig.now (plain_pattern pat.now) ≡ Some (kore_tree p)) }
{
    let injection = injection_symbol(&sig.symbols);
    shown_at(alloc, sig, injection, pat)
}

// The Kore pattern of a pattern, by cases on its head. `injection` is the number of the injection
// symbol.
#[cycle(shown)]
fn shown_at(
    alloc: Global,
    sig: &Signature,
    injection: Option<usize>,
    pat: &RulePat,
) -> Result<Pat, AllocError>
    requires shown { IsSome (kore_pattern sig.now (plain_pattern pat.now)) }
    requires found { IfSome injection
        (λ n. declared_name sig.now.symbols n ≡ injection_name sig.now.symbols) }
    requires none { IfNone injection (injection_name sig.now.symbols ≡ None) }
    ensures { IfOk result (λ p. kore_pattern sig.now (plain_pattern pat.now) ≡ Some (kore_tree p)) }
{
    let form = match pat {
        RulePat::Var(_) => unreachable!(),
        RulePat::Value(sort, value) => {
            PatForm::Value(sort_of(alloc, sig, *sort)?, text_of(alloc, value)?, 0)
        }
        RulePat::Ctor(symbol, args) => {
            let name = name_of(alloc, &sig.symbols, symbol.0 as usize)?;
            let args = all_shown(alloc, sig, injection, args)?;
            PatForm::App(name, Vec::new(alloc), args)
        }
        RulePat::Inj(from, to, below) => {
            let Some(symbol) = injection else {
                unreachable!()
            };
            let name = name_of(alloc, &sig.symbols, symbol)?;
            let sorts = sorts_of(alloc, sig, &[*from, *to])?;
            let below = shown_at(alloc, sig, injection, below)?;
            let mut args = Vec::new(alloc);
            args.push(below)?;
            PatForm::App(name, sorts, args)
        }
        RulePat::Call(symbol, sorts, args) => {
            let name = name_of(alloc, &sig.symbols, symbol.0 as usize)?;
            let sorts = sorts_of(alloc, sig, sorts)?;
            let args = all_shown(alloc, sig, injection, args)?;
            PatForm::App(name, sorts, args)
        }
    };
    Ok(Pat { at: 0, form })
}

// The Kore patterns of patterns.
#[cycle(shown)]
fn all_shown(
    alloc: Global,
    sig: &Signature,
    injection: Option<usize>,
    pats: &[RulePat],
) -> Result<Vec<Pat>, AllocError>
    requires shown { IsSome (kore_patterns sig.now (plain_patterns pats.now)) }
    requires found { IfSome injection
        (λ n. declared_name sig.now.symbols n ≡ injection_name sig.now.symbols) }
    requires none { IfNone injection (injection_name sig.now.symbols ≡ None) }
    ensures { IfOk result (λ ps. kore_patterns sig.now (plain_patterns pats.now)
        ≡ Some (pattern_trees (map kore_tree ps.items))) }
{
    let mut all = Vec::with_capacity(alloc, pats.len())?;
    for pat in pats {
        all.push(shown_at(alloc, sig, injection, pat)?)?;
    }
    Ok(all)
}
