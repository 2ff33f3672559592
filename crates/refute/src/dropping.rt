// Left sides without the names of their parts. A part that has a name stands in a conjunction with the
// name. So it implies the part without the name, and the name without the part.
ghost use Rattle.std.specs.Prelude.{◌≡◌, ◌∷◌, IfOk, Some, []};
ghost use Rattle.ml_pat.specs.Patterns.{imp, app};
ghost use Rattle.ml_derived.specs.Scopes.{StaysWithin};
ghost use Rattle.term_core.specs.PatternLists.{plain_patterns};
ghost use Rattle.term_core.specs.Patterns.{Pattern as RulePattern, application};
ghost use Rattle.term_core.specs.RulePatterns.{plain_pattern};
ghost use Rattle.ml_image.specs.Images.{image_of, symbol_image};
ghost use Rattle.ml_image.specs.NamedSides.{applied_sides, left_sentence, named_part, named_parts};
ghost use Rattle.ml_image.specs.NamedSides.{of_whole};
ghost use Rattle.ml_image.specs.PartNames.{part_name, part_names, part_sentence};
ghost use Rattle.ml_image.specs.Sentences.{Sentence, symbol, term};
ghost use Rattle.prove_term.specs.Schemas.{AreImages};
ghost use Rattle.refute.specs.Choosing.{all_chosen, chosen, or_name, part_chosen};
ghost use Rattle.refute.specs.Dropping.{Implies, IsApplied, IsImplication, with_name};

use crate::parts::sides;
use ml_derived::{and_1, and_2, app_l, app_r, chain, itself, lift, mp, top};
use ml_image::{PartName, names_in};
use ml_kernel::Thm;
use ml_pat::{MPat, VarNo};
use prove_term::{Cx, halves, taken_apart};
use std::alloc::{AllocError, Global};
use term_core::{RulePat, SymId};

// Proves that a pattern whose parts have these names implies the pattern without them, but with the
// name x in the place of its part, if there is such a name. `image` is the image of the pattern.
#[cycle(dropped)]
pub(crate) fn dropped(
    alloc: Global,
    cx: &Cx<'_>,
    pat: &RulePat,
    names: &[PartName<'_>],
    x: u32,
    image: &MPat,
) -> Result<Thm, AllocError>
    requires { image_of cx.now.program.sig cx.now.names (plain_pattern pat.now) ≡ Some image.now }
    ensures { IfOk result
        (Implies cx.now (left_sentence (part_names names.now) (plain_pattern pat.now))
        (term (chosen x (part_names names.now) (plain_pattern pat.now)))) }
{
    if names.is_empty() {
        return itself(alloc, image);
    }
    let part = part_dropped(alloc, cx, pat, names, x, image)?;
    whole_dropped(alloc, cx, part, names, x)
}

// `dropped` without the names of the whole pattern.
#[cycle(dropped)]
fn part_dropped(
    alloc: Global,
    cx: &Cx<'_>,
    pat: &RulePat,
    names: &[PartName<'_>],
    x: u32,
    image: &MPat,
) -> Result<Thm, AllocError>
    requires { image_of cx.now.program.sig cx.now.names (plain_pattern pat.now) ≡ Some image.now }
    ensures { IfOk result
        (Implies cx.now (part_sentence (part_names names.now) (plain_pattern pat.now))
        (term (part_chosen x (part_names names.now) (plain_pattern pat.now)))) }
{
    match pat {
        RulePat::Ctor(symbol, args) => {
            let parts = taken_apart(alloc, image, args.len())?;
            let head = &parts.head;
            all_dropped(alloc, cx, *symbol, args, names, x, head, &parts.arguments)
        }
        RulePat::Inj(_, _, below) => {
            let inside = names_in(alloc, names, 0)?;
            let (head, argument) = halves(image);
            let one = dropped(alloc, cx, below, &inside, x, argument)?;
            applied(alloc, &itself(alloc, head)?, &one)
        }
        RulePat::Var(_) | RulePat::Value(..) | RulePat::Call(..) => itself(alloc, image),
    }
}

// `dropped` for the arguments of a symbol with the image `head`. `images` are their images.
#[cycle(dropped)]
fn all_dropped(
    alloc: Global,
    cx: &Cx<'_>,
    constructor: SymId,
    args: &[RulePat],
    names: &[PartName<'_>],
    x: u32,
    head: &MPat,
    images: &[MPat],
) -> Result<Thm, AllocError>
    requires head { symbol_image cx.now.program.sig cx.now.names constructor.0 ≡ Some head.now }
    requires images { AreImages cx.now.program.sig cx.now.names (plain_patterns args.now)
        images.now }
    ensures { IfOk result
        (Implies cx.now
        (applied_sides (part_names names.now) 0 (symbol constructor.0) (plain_patterns args.now))
        (term (application constructor.0
        (all_chosen x (part_names names.now) 0 (plain_patterns args.now))))) }
{
    let mut present = itself(alloc, head)?;
    for i in 0..args.len() {
        let inside = names_in(alloc, names, i)?;
        let one = dropped(alloc, cx, &args[i], &inside, x, &images[i])?;
        present = applied(alloc, &present, &one)?;
    }
    Ok(present)
}

// `f a -> g b`, from `f -> g` and `a -> b`.
fn applied(alloc: Global, function: &Thm, argument: &Thm) -> Result<Thm, AllocError>
    requires function { IsImplication function.now.conclusion }
    requires argument { IsImplication argument.now.conclusion }
    ensures conclusion { IfOk result
        (λ t. IsApplied function.now.conclusion argument.now.conclusion t.conclusion) }
    ensures stays { IfOk result (StaysWithin [] (function.now ∷ argument.now ∷ [])) }
{
    let (f, g) = sides(function.conclusion());
    let (a, b) = sides(argument.conclusion());
    let first = in_function(alloc, function, f, g, a)?;
    let second = in_argument(alloc, argument, g, a, b)?;
    chain(alloc, &first, &second)
}

// `f a -> g a`, from `f -> g`.
fn in_function(alloc: Global, thm: &Thm, f: &MPat, g: &MPat, a: &MPat) -> Result<Thm, AllocError>
    requires { thm.now.conclusion ≡ imp f.now g.now }
    ensures conclusion { IfOk result
        (λ t. t.conclusion ≡ imp (app f.now a.now) (app g.now a.now)) }
    ensures stays { IfOk result (StaysWithin (a.now ∷ []) (thm.now ∷ [])) }
{
    let everything = top(alloc)?;
    let always = everything.conclusion();
    let rule = app_l(alloc, &lift(alloc, always, thm)?, f, g, always, a)?;
    let (_, made) = sides(rule.conclusion());
    mp(alloc, &everything, &rule, always, made)
}

// `f a -> f b`, from `a -> b`.
fn in_argument(alloc: Global, thm: &Thm, f: &MPat, a: &MPat, b: &MPat) -> Result<Thm, AllocError>
    requires { thm.now.conclusion ≡ imp a.now b.now }
    ensures conclusion { IfOk result
        (λ t. t.conclusion ≡ imp (app f.now a.now) (app f.now b.now)) }
    ensures stays { IfOk result (StaysWithin (f.now ∷ []) (thm.now ∷ [])) }
{
    let everything = top(alloc)?;
    let always = everything.conclusion();
    let rule = app_r(alloc, &lift(alloc, always, thm)?, a, b, always, f)?;
    let (_, made) = sides(rule.conclusion());
    mp(alloc, &everything, &rule, always, made)
}

// From the theorem that a part implies a pattern, the theorem that the part with those of these names
// that name the whole of it implies the pattern, or the name x if it is one of them.
fn whole_dropped(
    alloc: Global,
    cx: &Cx<'_>,
    part: Thm,
    names: &[PartName<'_>],
    x: u32,
) -> Result<Thm, AllocError>
    requires { IsImplication part.conclusion }
    ensures { IfOk result (λ t. (s : Sentence) (q : RulePattern) → Implies cx.now s (term q) part
        → Implies cx.now (named_parts s (of_whole (part_names names.now)))
        (term (or_name x (of_whole (part_names names.now)) q)) t) }
{
    let mut present = part;
    for name in names {
        if name.way.is_empty() {
            present = name_dropped(alloc, cx, &present, name, x)?;
        }
    }
    Ok(present)
}

// The same for one name, which names the whole of the part.
fn name_dropped(
    alloc: Global,
    cx: &Cx<'_>,
    part: &Thm,
    name: &PartName<'_>,
    x: u32,
) -> Result<Thm, AllocError>
    requires { IsImplication part.now.conclusion }
    ensures implies { IfOk result (λ t. IsImplication t.conclusion) }
    ensures says { IfOk result (λ t. (s : Sentence) (q : RulePattern)
        → Implies cx.now s (term q) part.now
        → Implies cx.now (named_part s (part_name name.now))
        (term (or_name x (part_name name.now ∷ []) q)) t) }
{
    let (d, _) = sides(part.conclusion());
    let variable = MPat::var(alloc, VarNo(name.var))?;
    if name.var == x {
        return to_name(alloc, &variable, d, name.first);
    }
    let rule = to_part(alloc, &variable, d, name.first)?;
    chain(alloc, &rule, part)
}

// `x & d -> x` if the name x comes first, and else `d & x -> x`.
fn to_name(alloc: Global, x: &MPat, d: &MPat, first: bool) -> Result<Thm, AllocError>
    ensures conclusion { IfOk result
        (λ t. t.conclusion ≡ imp (with_name first x.now d.now) x.now) }
    ensures stays { IfOk result (StaysWithin (x.now ∷ d.now ∷ []) []) }
{
    if first {
        and_1(alloc, x, d)
    } else {
        and_2(alloc, d, x)
    }
}

// `x & d -> d` if the name x comes first, and else `d & x -> d`.
fn to_part(alloc: Global, x: &MPat, d: &MPat, first: bool) -> Result<Thm, AllocError>
    ensures conclusion { IfOk result
        (λ t. t.conclusion ≡ imp (with_name first x.now d.now) d.now) }
    ensures stays { IfOk result (StaysWithin (x.now ∷ d.now ∷ []) []) }
{
    if first {
        and_2(alloc, x, d)
    } else {
        and_1(alloc, d, x)
    }
}
