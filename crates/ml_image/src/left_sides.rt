// The images of left sides. A part that has a name stands in a conjunction with the variable that
// names it (Kore language document, "Patterns"). Without names they are the images of patterns.
ghost use Rattle.std.specs.Prelude.{◌≡◌, ◌<◌, IfOk, Some, length};
ghost use Rattle.term_core.specs.RulePatterns.{plain_pattern};
ghost use Rattle.term_core.specs.PatternLists.{plain_patterns};
ghost use Rattle.ml_image.specs.HasImages.{AreNamesBelow, HasImage, HaveImages};
ghost use Rattle.ml_image.specs.Sentences.{sentence_image};
ghost use Rattle.ml_image.specs.PartNames.{part_names, left_renamed, part_renamed};
ghost use Rattle.ml_image.specs.PartNames.{sides_renamed, IsConjoined, with_name};
ghost use Rattle.ml_image.specs.Gained.{HasGained};
ghost use Rattle.ml_image.specs.Numbering.{number_in, room};

use crate::images::{head_image, image, injection_image};
use crate::naming::{PartName, names_in};
use crate::numbering::Numbering;
use ml_pat::{MPat, Names, VarNo};
use rule_core::Signature;
use std::alloc::{AllocError, Global};
use term_core::{RulePat, SymId};

// The image of a pattern whose parts have these names. All variables have these numbers.
#[cycle(left_image)]
pub(crate) fn left_image(
    alloc: Global,
    sig: &Signature,
    names: &mut Names,
    numbering: &Numbering<'_>,
    pat: &RulePat,
    parts: &[PartName<'_>],
) -> Result<MPat, AllocError>
    requires pattern { HasImage sig.now (room numbering.now) (plain_pattern pat.now) }
    requires parts { AreNamesBelow (room numbering.now) (part_names parts.now) }
    ensures image { IfOk result (λ p. sentence_image sig.now names.new
        (left_renamed (number_in numbering.now) (part_names parts.now) (plain_pattern pat.now)) ≡
        Some p) }
    ensures names { HasGained sig.now names.old names.new }
{
    if parts.is_empty() {
        return image(alloc, sig, names, numbering, pat);
    }
    let part = part_image(alloc, sig, names, numbering, pat, parts)?;
    conjoined(alloc, numbering, part, parts)
}

// `left_image` without the names of the whole pattern.
#[cycle(left_image)]
fn part_image(
    alloc: Global,
    sig: &Signature,
    names: &mut Names,
    numbering: &Numbering<'_>,
    pat: &RulePat,
    parts: &[PartName<'_>],
) -> Result<MPat, AllocError>
    requires pattern { HasImage sig.now (room numbering.now) (plain_pattern pat.now) }
    requires parts { AreNamesBelow (room numbering.now) (part_names parts.now) }
    ensures image { IfOk result (λ p. sentence_image sig.now names.new
        (part_renamed (number_in numbering.now) (part_names parts.now) (plain_pattern pat.now)) ≡
        Some p) }
    ensures names { HasGained sig.now names.old names.new }
{
    match pat {
        RulePat::Ctor(symbol, args) => {
            sides_image(alloc, sig, names, numbering, *symbol, args, parts)
        }
        RulePat::Inj(from, to, below) => {
            let inside = names_in(alloc, parts, 0)?;
            let head = injection_image(alloc, sig, names, *from, *to)?;
            let below = left_image(alloc, sig, names, numbering, below, &inside)?;
            MPat::app(alloc, &head, &below)
        }
        RulePat::Var(_) | RulePat::Value(..) | RulePat::Call(..) => {
            image(alloc, sig, names, numbering, pat)
        }
    }
}

// The symbol applied to the images of patterns whose parts have these names.
#[cycle(left_image)]
pub(crate) fn sides_image(
    alloc: Global,
    sig: &Signature,
    names: &mut Names,
    numbering: &Numbering<'_>,
    symbol: SymId,
    args: &[RulePat],
    parts: &[PartName<'_>],
) -> Result<MPat, AllocError>
    requires symbol { symbol.0 < length sig.now.symbols }
    requires patterns { HaveImages sig.now (room numbering.now) (plain_patterns args.now) }
    requires parts { AreNamesBelow (room numbering.now) (part_names parts.now) }
    ensures image { IfOk result (λ p. sentence_image sig.now names.new
        (sides_renamed (number_in numbering.now) (part_names parts.now) symbol.0 (plain_patterns
        args.now)) ≡ Some p) }
    ensures names { HasGained sig.now names.old names.new }
{
    let mut made = head_image(alloc, sig, names, symbol.0 as usize)?;
    for i in 0..args.len() {
        let inside = names_in(alloc, parts, i)?;
        let arg = left_image(alloc, sig, names, numbering, &args[i], &inside)?;
        made = MPat::app(alloc, &made, &arg)?;
    }
    Ok(made)
}

// A pattern with those of these names that name the whole of it, the first innermost. Their
// variables have these numbers.
fn conjoined(
    alloc: Global,
    numbering: &Numbering<'_>,
    part: MPat,
    parts: &[PartName<'_>],
) -> Result<MPat, AllocError>
    requires { AreNamesBelow (room numbering.now) (part_names parts.now) }
    ensures { IfOk result (IsConjoined (number_in numbering.now) (part_names parts.now) part) }
{
    let mut made = part;
    for name in parts {
        if name.way.is_empty() {
            made = with_name(alloc, numbering, name, &made)?;
        }
    }
    Ok(made)
}

// The conjunction of a pattern and the variable that names it, as they are written.
fn with_name(
    alloc: Global,
    numbering: &Numbering<'_>,
    name: &PartName<'_>,
    part: &MPat,
) -> Result<MPat, AllocError>
    requires { name.now.var < room numbering.now }
    ensures { IfOk result (λ p. p ≡ with_name (number_in numbering.now) name.now part.now) }
{
    let variable = MPat::var(alloc, VarNo(numbering.number(name.var)))?;
    if name.first {
        MPat::and(alloc, &variable, part)
    } else {
        MPat::and(alloc, part, &variable)
    }
}
