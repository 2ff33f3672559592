// A pattern with a name in the place of the part that it names.
ghost use Rattle.std.specs.Prelude.{◌≡◌, IfOk};
ghost use Rattle.term_core.specs.PatternLists.{plain_patterns};
ghost use Rattle.term_core.specs.RulePatterns.{plain_pattern};
ghost use Rattle.rule_core.specs.WellSorted.{HasNoCall, HaveNoCall};
ghost use Rattle.ml_image.specs.NamedSides.{of_whole};
ghost use Rattle.ml_image.specs.PartNames.{part_names};
ghost use Rattle.refute.specs.Choosing.{all_chosen, chosen, is_named, part_chosen};

use ml_image::{PartName, names_in};
use std::alloc::{AllocError, Global};
use term_core::RulePat;

// The pattern, whose parts have these names, with the name x in the place of its part, if there is
// such a name. The rest is copied.
#[cycle(chosen)]
pub(crate) fn chosen(
    alloc: Global,
    pat: &RulePat,
    names: &[PartName<'_>],
    x: u32,
) -> Result<RulePat, AllocError>
    requires { HasNoCall (plain_pattern pat.now) }
    ensures { IfOk result
        (λ p. plain_pattern p ≡ chosen x (part_names names.now) (plain_pattern pat.now)) }
{
    if names_whole(names, x) {
        return Ok(RulePat::Var(x));
    }
    part_chosen(alloc, pat, names, x)
}

// The same without the names of the whole pattern.
#[cycle(chosen)]
fn part_chosen(
    alloc: Global,
    pat: &RulePat,
    names: &[PartName<'_>],
    x: u32,
) -> Result<RulePat, AllocError>
    requires { HasNoCall (plain_pattern pat.now) }
    ensures { IfOk result
        (λ p. plain_pattern p ≡ part_chosen x (part_names names.now) (plain_pattern pat.now)) }
{
    match pat {
        RulePat::Var(y) => Ok(RulePat::Var(*y)),
        RulePat::Value(sort, value) => Ok(RulePat::Value(*sort, value.share()?)),
        RulePat::Ctor(symbol, args) => {
            Ok(RulePat::Ctor(*symbol, all_chosen(alloc, args, names, x)?))
        }
        RulePat::Inj(from, to, below) => {
            let inside = names_in(alloc, names, 0)?;
            let made = chosen(alloc, below, &inside, x)?;
            Ok(RulePat::Inj(*from, *to, Box::new(alloc, made)?))
        }
        RulePat::Call(..) => unreachable!(),
    }
}

// The same for the arguments of a symbol, in order.
#[cycle(chosen)]
fn all_chosen(
    alloc: Global,
    args: &[RulePat],
    names: &[PartName<'_>],
    x: u32,
) -> Result<Vec<RulePat>, AllocError>
    requires { HaveNoCall (plain_patterns args.now) }
    ensures { IfOk result (λ ps. plain_patterns ps.items
        ≡ all_chosen x (part_names names.now) 0 (plain_patterns args.now)) }
{
    let mut done = Vec::with_capacity(alloc, args.len())?;
    for i in 0..args.len() {
        let inside = names_in(alloc, names, i)?;
        done.push(chosen(alloc, &args[i], &inside, x)?)?;
    }
    Ok(done)
}

// Whether x names the whole pattern.
fn names_whole(names: &[PartName<'_>], x: u32) -> bool
    ensures { result ≡ is_named x (of_whole (part_names names.now)) }
{
    for name in names {
        if name.way.is_empty() && name.var == x {
            return true;
        }
    }
    false
}
