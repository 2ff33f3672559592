// The images of patterns.
ghost use Rattle.std.specs.Prelude.{◌≡◌, ◌<◌, ◌-◌, ◌^◌, [], ◌∷◌, length, slice_get, IfOk, IfSome};
ghost use Rattle.std.specs.Prelude.{IsSome, Some};
ghost use Rattle.ml_pat.specs.Patterns.{Pattern};
ghost use Rattle.term_core.specs.RulePatterns.{plain_pattern, sort_numbers};
ghost use Rattle.term_core.specs.PatternLists.{plain_patterns};
ghost use Rattle.rule_core.specs.Sorting.{AreSorts};
ghost use Rattle.ml_image.specs.Images.{image_of, applied, at_sorts, symbol_image};
ghost use Rattle.ml_image.specs.Images.{injection_symbol, injection_image, renamed, all_renamed};
ghost use Rattle.ml_image.specs.Numbering.{number_in, room};
ghost use Rattle.ml_image.specs.HasImages.{HasImage, HaveImages};
ghost use Rattle.ml_image.specs.Injecting.{IsInjectionAt};
ghost use Rattle.ml_image.specs.Gained.{HasGained};

use crate::numbering::Numbering;
use crate::tokens::{sort_number, symbol_number, value_number};
use ml_pat::{MPat, Names, VarNo};
use rule_core::{Signature, SymKind};
use std::alloc::{AllocError, Global};
use term_core::{RulePat, SortId};

/// The image of a pattern whose sorts and symbols belong to the signature (Chen and Rosu 2019): the
/// token of a symbol, applied to the tokens of the sorts and to the images of the arguments, one
/// after another. An error: out of memory. The names may have gained tokens even then.
pub fn term_image(
    alloc: Global,
    sig: &Signature,
    names: &mut Names,
    pat: &RulePat,
) -> Result<MPat, AllocError>
    requires { HasImage sig.now (2 ^ 32) (plain_pattern pat.now) }
    ensures image { IfOk result (λ p. image_of sig.now names.new (plain_pattern pat.now) ≡ Some p) }
    ensures names { HasGained sig.now names.old names.new }
{
    image(alloc, sig, names, &Numbering::Shifted(0), pat)
}

// The image of a pattern whose variables have these numbers, by its form.
#[cycle(image)]
pub(crate) fn image(
    alloc: Global,
    sig: &Signature,
    names: &mut Names,
    numbering: &Numbering<'_>,
    pat: &RulePat,
) -> Result<MPat, AllocError>
    requires { HasImage sig.now (room numbering.now) (plain_pattern pat.now) }
    ensures image { IfOk result
        (λ p. image_of sig.now names.new (renamed (number_in numbering.now) (plain_pattern pat.now))
        ≡ Some p) }
    ensures names { HasGained sig.now names.old names.new }
{
    match pat {
        RulePat::Var(x) => MPat::var(alloc, VarNo(numbering.number(*x))),
        RulePat::Ctor(symbol, args) => {
            let head = head_image(alloc, sig, names, symbol.0 as usize)?;
            applied(alloc, sig, names, numbering, head, args)
        }
        RulePat::Call(symbol, sorts, args) => {
            let head = head_image(alloc, sig, names, symbol.0 as usize)?;
            let head = at_sorts(alloc, sig, names, head, sorts)?;
            applied(alloc, sig, names, numbering, head, args)
        }
        RulePat::Value(sort, value) => {
            let number = value_number(alloc, sig, names, *sort, value)?;
            MPat::constant(alloc, number)
        }
        RulePat::Inj(from, to, below) => {
            let head = injection_image(alloc, sig, names, *from, *to)?;
            let below = image(alloc, sig, names, numbering, below)?;
            MPat::app(alloc, &head, &below)
        }
    }
}

// The pattern applied to the images of the arguments, in order.
#[cycle(image)]
pub(crate) fn applied(
    alloc: Global,
    sig: &Signature,
    names: &mut Names,
    numbering: &Numbering<'_>,
    head: MPat,
    args: &[RulePat],
) -> Result<MPat, AllocError>
    requires { HaveImages sig.now (room numbering.now) (plain_patterns args.now) }
    ensures image { IfOk result
        (λ p. applied sig.now names.new (Some head)
        (all_renamed (number_in numbering.now) (plain_patterns args.now)) ≡ Some p) }
    ensures names { HasGained sig.now names.old names.new }
{
    let mut made = head;
    for arg in args {
        let arg = image(alloc, sig, names, numbering, arg)?;
        made = MPat::app(alloc, &made, &arg)?;
    }
    Ok(made)
}

// The constant of a symbol.
pub(crate) fn head_image(
    alloc: Global,
    sig: &Signature,
    names: &mut Names,
    symbol: usize,
) -> Result<MPat, AllocError>
    requires { symbol < length sig.now.symbols }
    ensures image { IfOk result (λ p. symbol_image sig.now names.new symbol ≡ Some p) }
    ensures names { HasGained sig.now names.old names.new }
{
    let number = symbol_number(alloc, sig, names, symbol)?;
    MPat::constant(alloc, number)
}

// The pattern applied to the sort arguments, in order.
fn at_sorts(
    alloc: Global,
    sig: &Signature,
    names: &mut Names,
    head: MPat,
    sorts: &[SortId],
) -> Result<MPat, AllocError>
    requires { AreSorts sig.now (sort_numbers sorts.now) }
    ensures image { IfOk result
        (λ p. at_sorts sig.now names.new (Some head) (sort_numbers sorts.now) ≡ Some p) }
    ensures names { HasGained sig.now names.old names.new }
{
    let mut made = head;
    for sort in sorts {
        let number = sort_number(alloc, sig, names, *sort)?;
        made = MPat::at(alloc, &made, number)?;
    }
    Ok(made)
}

// The injection symbol, applied to two sorts.
pub(crate) fn injection_image(
    alloc: Global,
    sig: &Signature,
    names: &mut Names,
    from: SortId,
    to: SortId,
) -> Result<MPat, AllocError>
    requires symbol { IsSome (injection_symbol sig.now) }
    requires sorts { AreSorts sig.now (from.0 ∷ to.0 ∷ []) }
    ensures image { IfOk result (λ p. injection_image sig.now names.new from.0 to.0 ≡ Some p) }
    ensures names { HasGained sig.now names.old names.new }
{
    let Some(symbol) = injection_symbol(sig) else {
        unreachable!()
    };
    let head = head_image(alloc, sig, names, symbol)?;
    at_sorts(alloc, sig, names, head, &[from, to])
}

/// The number of the injection symbol, if there is one. It looks at the symbols up to this one.
/// Definitions declare it early.
pub fn injection_symbol(sig: &Signature) -> Option<usize>
    ensures symbol { result ≡ injection_symbol sig.now }
    ensures within { IfSome result (λ symbol. symbol < length sig.now.symbols) }
{
    for symbol in 0..sig.symbols.len() {
        if is_injection(sig, symbol) {
            return Some(symbol);
        }
    }
    None
}

// Whether the symbol with this number is an injection.
fn is_injection(sig: &Signature, symbol: usize) -> bool
    requires { symbol < length sig.now.symbols }
    ensures { IsInjectionAt sig.now symbol result }
{
    let Some(info) = sig.symbols.value(symbol) else {
        unreachable!()
    };
    matches!(info.kind, SymKind::Injection)
}
