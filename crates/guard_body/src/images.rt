// The image of what a guard says of its variables.
ghost use Rattle.std.specs.Prelude.{◌≡◌, ◌<◌, ◌^◌, ℕ, List, All, IfOk, Some, option_map, length};
ghost use Rattle.term_core.specs.RulePatterns.{plain_pattern};
ghost use Rattle.term_core.specs.PatternLists.{plain_patterns};
ghost use Rattle.rule_core.specs.ProgramView.{sorts_of, theory_of};
ghost use Rattle.rule_core.specs.WellSorted.{IsWellSorted};
ghost use Rattle.ml_image.specs.HasImages.{IsCondition};
ghost use Rattle.ml_image.specs.Images.{image_of, symbol_image};
ghost use Rattle.ml_image.specs.LastResorts.{condition_renamed};
ghost use Rattle.ml_image.specs.PartNames.{part_names, left_renamed, part_renamed, sides_renamed};
ghost use Rattle.ml_image.specs.PartNames.{IsConjoined, with_name};
ghost use Rattle.ml_image.specs.Sentences.{Sentence, and, sentence_image};
ghost use Rattle.prove_term.specs.Contexts.{HasGrown};
ghost use Rattle.prove_term.specs.Schemas.{AreImages};
ghost use Rattle.guard_body.specs.Arguments.{IsArgument, all_in, in_argument};
ghost use Rattle.guard_body.specs.Renaming.{itself, number_in};

use crate::arguments::Argument;
use crate::renaming::renamed;
use ml_image::{PartName, condition_laws, names_in, part_names, sort_of};
use ml_pat::{MPat, VarNo};
use prove_term::{Cx, halves, taken_apart};
use rule_core::Equation;
use std::alloc::{AllocError, Global};
use term_core::{RulePat, SymId, Value, pattern_of};

// The condition of an equation is true, and each term is in its argument. The variables of the
// condition have these numbers.
pub(crate) fn body_image(
    alloc: Global,
    cx: &mut Cx<'_>,
    equation: &Equation,
    numbers: &[u32],
    arguments: &[Argument<'_>],
) -> Result<MPat, AllocError>
    requires well_sorted { IsWellSorted (theory_of cx.old.program) }
    requires condition { IsCondition cx.old.program.sig (sorts_of equation.now.vars.items)
        (option_map plain_pattern equation.now.cond) }
    requires numbers { length equation.now.vars.items ≡ length numbers.now }
    requires arguments { (sorts : List ℕ) × (length sorts < 2 ^ 32)
        × All (IsArgument cx.old.program.sig sorts) arguments.now }
    ensures image { IfOk result (λ b. (c : Sentence)
        → condition_renamed cx.new.program.sig (number_in numbers.now)
        (sorts_of equation.now.vars.items) (option_map plain_pattern equation.now.cond) ≡ Some c
        → sentence_image cx.new.program.sig cx.new.names (and c (all_in arguments.now)) ≡ Some b) }
    ensures grown { HasGrown cx.old cx.new }
{
    let condition = condition_image(alloc, cx, equation, numbers)?;
    let members = members_image(alloc, cx, arguments)?;
    MPat::and(alloc, &condition, &members)
}

// The condition of an equation is true. Its variables have these numbers.
fn condition_image(
    alloc: Global,
    cx: &mut Cx<'_>,
    equation: &Equation,
    numbers: &[u32],
) -> Result<MPat, AllocError>
    requires well_sorted { IsWellSorted (theory_of cx.old.program) }
    requires condition { IsCondition cx.old.program.sig (sorts_of equation.now.vars.items)
        (option_map plain_pattern equation.now.cond) }
    requires numbers { length equation.now.vars.items ≡ length numbers.now }
    ensures image { IfOk result (λ p. (c : Sentence)
        → condition_renamed cx.new.program.sig (number_in numbers.now)
        (sorts_of equation.now.vars.items) (option_map plain_pattern equation.now.cond) ≡ Some c
        → sentence_image cx.new.program.sig cx.new.names c ≡ Some p) }
    ensures grown { HasGrown cx.old cx.new }
{
    let Some(condition) = &equation.cond else {
        return MPat::top(alloc);
    };
    let Some(sort) = sort_of(&cx.program().sig, &equation.vars, condition) else {
        unreachable!()
    };
    let held = cx.image(alloc, &renamed(alloc, condition, numbers)?)?;
    let truth = cx.image(alloc, &RulePat::Value(sort, Value::Bool(true)))?;
    MPat::equal(alloc, &held, &truth)
}

// Each term is in its argument.
fn members_image(
    alloc: Global,
    cx: &mut Cx<'_>,
    arguments: &[Argument<'_>],
) -> Result<MPat, AllocError>
    requires well_sorted { IsWellSorted (theory_of cx.old.program) }
    requires arguments { (sorts : List ℕ) × (length sorts < 2 ^ 32)
        × All (IsArgument cx.old.program.sig sorts) arguments.now }
    ensures image { IfOk result (λ b. sentence_image cx.new.program.sig cx.new.names
        (all_in arguments.now) ≡ Some b) }
    ensures grown { HasGrown cx.old cx.new }
{
    let mut made = MPat::top(alloc)?;
    for i in (0..arguments.len()).rev() {
        let member = member_image(alloc, cx, &arguments[i])?;
        made = MPat::and(alloc, &member, &made)?;
    }
    Ok(made)
}

// The term is in its argument.
fn member_image(alloc: Global, cx: &mut Cx<'_>, argument: &Argument<'_>) -> Result<MPat, AllocError>
    requires well_sorted { IsWellSorted (theory_of cx.old.program) }
    requires argument { (sorts : List ℕ) × (length sorts < 2 ^ 32)
        × IsArgument cx.old.program.sig sorts argument.now }
    ensures image { IfOk result (λ m. sentence_image cx.new.program.sig cx.new.names
        (in_argument argument.now) ≡ Some m) }
    ensures grown { HasGrown cx.old cx.new }
{
    condition_laws();
    let term = cx.image(alloc, &pattern_of(alloc, argument.term)?)?;
    let image = cx.image(alloc, &argument.pat)?;
    let names = names_in(alloc, &part_names(alloc, &argument.named)?, 0)?;
    let side = named_image(alloc, cx, &argument.pat, &names, &image)?;
    MPat::member(alloc, &term, &side)
}

// The image of a pattern whose parts have these names. `image` is the image of the pattern without
// the names.
#[cycle(named_image)]
fn named_image(
    alloc: Global,
    cx: &Cx<'_>,
    pat: &RulePat,
    names: &[PartName<'_>],
    image: &MPat,
) -> Result<MPat, AllocError>
    requires { image_of cx.now.program.sig cx.now.names (plain_pattern pat.now) ≡ Some image.now }
    ensures { IfOk result (λ p. sentence_image cx.now.program.sig cx.now.names
        (left_renamed itself (part_names names.now) (plain_pattern pat.now)) ≡ Some p) }
{
    if names.is_empty() {
        return image.share();
    }
    let part = part_image(alloc, cx, pat, names, image)?;
    conjoined(alloc, part, names)
}

// `named_image` without the names of the whole pattern.
#[cycle(named_image)]
fn part_image(
    alloc: Global,
    cx: &Cx<'_>,
    pat: &RulePat,
    names: &[PartName<'_>],
    image: &MPat,
) -> Result<MPat, AllocError>
    requires { image_of cx.now.program.sig cx.now.names (plain_pattern pat.now) ≡ Some image.now }
    ensures { IfOk result (λ p. sentence_image cx.now.program.sig cx.now.names
        (part_renamed itself (part_names names.now) (plain_pattern pat.now)) ≡ Some p) }
{
    match pat {
        RulePat::Ctor(symbol, args) => {
            let parts = taken_apart(alloc, image, args.len())?;
            sides_image(
                alloc,
                cx,
                *symbol,
                args,
                names,
                &parts.head,
                &parts.arguments,
            )
        }
        RulePat::Inj(_, _, below) => {
            let inside = names_in(alloc, names, 0)?;
            let (head, argument) = halves(image);
            let below = named_image(alloc, cx, below, &inside, argument)?;
            MPat::app(alloc, head, &below)
        }
        RulePat::Var(_) | RulePat::Value(..) | RulePat::Call(..) => image.share(),
    }
}

// `named_image` for the arguments of a constructor with the image `head`. `images` are their
// images.
#[cycle(named_image)]
fn sides_image(
    alloc: Global,
    cx: &Cx<'_>,
    symbol: SymId,
    args: &[RulePat],
    names: &[PartName<'_>],
    head: &MPat,
    images: &[MPat],
) -> Result<MPat, AllocError>
    requires head { symbol_image cx.now.program.sig cx.now.names symbol.0 ≡ Some head.now }
    requires images { AreImages cx.now.program.sig cx.now.names (plain_patterns args.now)
        images.now }
    ensures { IfOk result (λ p. sentence_image cx.now.program.sig cx.now.names
        (sides_renamed itself (part_names names.now) symbol.0 (plain_patterns args.now))
        ≡ Some p) }
{
    let mut made = head.share()?;
    for i in 0..args.len() {
        let inside = names_in(alloc, names, i)?;
        let one = named_image(alloc, cx, &args[i], &inside, &images[i])?;
        made = MPat::app(alloc, &made, &one)?;
    }
    Ok(made)
}

// A pattern with those of these names that name the whole of it, the first innermost.
fn conjoined(alloc: Global, part: MPat, names: &[PartName<'_>]) -> Result<MPat, AllocError>
    ensures { IfOk result (IsConjoined itself (part_names names.now) part) }
{
    let mut made = part;
    for name in names {
        if name.way.is_empty() {
            made = with_name(alloc, name, &made)?;
        }
    }
    Ok(made)
}

// The conjunction of a pattern and the variable that names it, as they are written.
fn with_name(alloc: Global, name: &PartName<'_>, part: &MPat) -> Result<MPat, AllocError>
    ensures { IfOk result (λ p. p ≡ with_name itself name.now part.now) }
{
    let variable = MPat::var(alloc, VarNo(name.var))?;
    if name.first {
        MPat::and(alloc, &variable, part)
    } else {
        MPat::and(alloc, part, &variable)
    }
}
