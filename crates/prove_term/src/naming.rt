// Left sides whose parts have names, with terms in place of their variables. A part with a name
// stands in a conjunction with the term that the name is bound to. That is the term that the part
// becomes, so the conjunction equals that term.
ghost use Rattle.std.specs.Prelude.{◌≡◌, ◌<◌, ◌≤◌, ℕ, List, [], IfOk, Some, length};
ghost use Rattle.ml_kernel.specs.Lemmas.{HasNoVariable};
ghost use Rattle.term_core.specs.Forests.{forest};
ghost use Rattle.term_core.specs.Instances.{FitsWithin};
ghost use Rattle.term_core.specs.PatternLists.{plain_patterns};
ghost use Rattle.term_core.specs.Patterns.{Patterns, application, ground_pattern, injection};
ghost use Rattle.term_core.specs.Patterns.{instances_of};
ghost use Rattle.term_core.specs.RulePatterns.{plain_pattern};
ghost use Rattle.term_core.specs.Terms.{IsNormal, Tree, height};
ghost use Rattle.rule_core.specs.Matching.{RespectsSorts};
ghost use Rattle.rule_core.specs.NamedParts.{pattern_at};
ghost use Rattle.rule_core.specs.ProgramView.{names_of};
ghost use Rattle.rule_core.specs.Sorting.{HasSort, HaveSorts};
ghost use Rattle.rule_core.specs.Subsorts.{IsBelow};
ghost use Rattle.rule_core.specs.WellSorted.{IsSignature};
ghost use Rattle.rule_core.specs.declared.signature.SortRef.{SortRef};
ghost use Rattle.ml_image.specs.Images.{image_of, symbol_image};
ghost use Rattle.ml_image.specs.NamedSides.{of_child};
ghost use Rattle.ml_image.specs.PartNames.{part_names};
ghost use Rattle.prove_term.specs.Applications.{HasClosedSides, SaysEqualTo};
ghost use Rattle.prove_term.specs.Comparing.{IsOnce};
ghost use Rattle.prove_term.specs.Contexts.{HasGrown};
ghost use Rattle.prove_term.specs.FilledSides.{AreBoundToParts, SaysNamedCall, SaysNamedImage};
ghost use Rattle.prove_term.specs.InjectionTables.{InjectsBelow};
ghost use Rattle.prove_term.specs.Naming.{AllCompareNamed, ComparesBelow, ComparesNamed};
ghost use Rattle.prove_term.specs.Naming.{ComparesPart, IsConjoinedTo, IsEqualityOf};
ghost use Rattle.prove_term.specs.Naming.{IsNamedTerm};
ghost use Rattle.prove_term.specs.Naming.{MakeNamed, MakesBelow, MakesNamed};
ghost use Rattle.prove_term.specs.Schemas.{AreImages};

use crate::calls::called;
use crate::comparing::{compared, twice};
use crate::congruence::{applied, halves, taken_apart};
use crate::context::Cx;
use crate::elements::element;
use crate::equalities::{join, name_first, name_last};
use crate::joining::at_once;
use ml_derived::eq_refl;
use ml_image::{PartName, names_in, part_names};
use ml_kernel::Thm;
use ml_pat::MPat;
use rule_core::Named;
use std::alloc::{AllocError, Global};
use term_core::{MAX_HEIGHT, RulePat, SortId, Subst, SymId, Term, instance, pattern_of};

/// Proves that the image of a pattern with the names of its parts, with its variables replaced by
/// the images of a substitution's terms, equals the image of the term that the pattern becomes.
/// `named` are the names of parts of a list of patterns, in which this pattern has the number
/// `argument`. Each is bound to the term that its part becomes. If no part of the pattern has a
/// name and no two injections meet, both images are literally the same, and there is no theorem.
/// `AllocError`: out of memory, or the error of `inj_eq`. After an error the context may have
/// grown. The recursion is as deep as the pattern and the injected terms are high.
pub fn inj_eq_named(
    alloc: Global,
    cx: &mut Cx<'_>,
    pat: &RulePat,
    named: &[Named],
    argument: u32,
    subst: &Subst,
) -> Result<Option<Thm>, AllocError>
    requires signature { IsSignature cx.old.program.sig }
    requires sorted { (variables : List ℕ) × (sort : ℕ)
        × HasSort cx.old.program.sig variables (plain_pattern pat.now) sort
        × RespectsSorts cx.old.program.sig variables subst.now }
    requires fits { FitsWithin MAX_HEIGHT subst.now (plain_pattern pat.now) }
    requires named { (ps : Patterns) × (pattern_at ps argument ≡ Some (plain_pattern pat.now))
        × AreBoundToParts subst.now ps (names_of named.now) }
    ensures says { IfOk result
        (SaysNamedImage cx.new subst.now (of_child argument (names_of named.now))
        (plain_pattern pat.now)) }
    ensures grown { HasGrown cx.old cx.new }
{
    let names = names_in(alloc, &part_names(alloc, named)?, argument as usize)?;
    let term = instance(alloc, pat, subst)?;
    // The contract of `height` says that a term is not too high.
    let _height = term.height();
    let whole = pattern_of(alloc, &term)?;
    let image = cx.image(alloc, &whole)?;
    named_compared(alloc, cx, pat, &names, &whole, &image)
}

/// Proves that a function of patterns with the names of their parts, with their variables replaced
/// by a substitution's terms, equals the function of the terms that the patterns become. Each name
/// is bound to the term that its part becomes. If no part has a name and no two injections meet,
/// both are literally the same, and there is no theorem. `AllocError`: out of memory, or the error
/// of `inj_eq`. After an error the context may have grown.
pub fn call_eq_named(
    alloc: Global,
    cx: &mut Cx<'_>,
    function: SymId,
    args: &[RulePat],
    named: &[Named],
    subst: &Subst,
    terms: &[Term],
) -> Result<Option<Thm>, AllocError>
    requires signature { IsSignature cx.old.program.sig }
    requires symbol { function.0 < length cx.old.program.sig.symbols }
    requires sorted { (variables : List ℕ) × (refs : List SortRef)
        × HaveSorts cx.old.program.sig variables [] (plain_patterns args.now) refs
        × RespectsSorts cx.old.program.sig variables subst.now }
    requires makes { instances_of subst.now (plain_patterns args.now) ≡ Some (forest terms.now) }
    requires named { AreBoundToParts subst.now (plain_patterns args.now) (names_of named.now) }
    ensures says { IfOk result
        (SaysNamedCall cx.new subst.now (names_of named.now) function.0
        (plain_patterns args.now)) }
    ensures grown { HasGrown cx.old cx.new }
{
    let names = part_names(alloc, named)?;
    // The contract of `highest` says that no term is too high.
    let _highest = Term::highest(terms);
    let whole = called(alloc, function, terms)?;
    let image = cx.image(alloc, &whole)?;
    let RulePat::Call(_, _, wholes) = &whole else {
        unreachable!()
    };
    let parts = taken_apart(alloc, &image, args.len())?;
    all_named(
        alloc,
        cx,
        args,
        &names,
        wholes,
        &parts.head,
        &parts.arguments,
    )
}

// `inj_eq_named` of a pattern whose parts have these names. `whole` is the pattern of the term that
// it becomes, and `image` is the image of `whole`.
#[cycle(named)]
fn named_compared(
    alloc: Global,
    cx: &mut Cx<'_>,
    pat: &RulePat,
    names: &[PartName<'_>],
    whole: &RulePat,
    image: &MPat,
) -> Result<Option<Thm>, AllocError>
    requires signature { IsSignature cx.old.program.sig }
    requires made { MakesNamed cx.old.program.sig (part_names names.now) (plain_pattern pat.now)
        (plain_pattern whole.now) }
    requires image { image_of cx.old.program.sig cx.old.names (plain_pattern whole.now)
        ≡ Some image.now }
    ensures says { IfOk result
        (ComparesNamed cx.new (part_names names.now) (plain_pattern pat.now)
        (plain_pattern whole.now) image.now) }
    ensures grown { HasGrown cx.old cx.new }
{
    if names.is_empty() {
        return compared(alloc, cx, pat, whole, image);
    }
    let part = part_compared(alloc, cx, pat, names, whole, image)?;
    conjoined(alloc, cx, part, names, image)
}

// `named_compared` without the names of the whole pattern.
#[cycle(named)]
fn part_compared(
    alloc: Global,
    cx: &mut Cx<'_>,
    pat: &RulePat,
    names: &[PartName<'_>],
    whole: &RulePat,
    image: &MPat,
) -> Result<Option<Thm>, AllocError>
    requires signature { IsSignature cx.old.program.sig }
    requires made { MakesNamed cx.old.program.sig (part_names names.now) (plain_pattern pat.now)
        (plain_pattern whole.now) }
    requires image { image_of cx.old.program.sig cx.old.names (plain_pattern whole.now)
        ≡ Some image.now }
    ensures says { IfOk result
        (ComparesPart cx.new (part_names names.now) (plain_pattern pat.now)
        (plain_pattern whole.now) image.now) }
    ensures grown { HasGrown cx.old cx.new }
{
    match pat {
        RulePat::Var(_) | RulePat::Value(..) => Ok(None),
        RulePat::Ctor(_, args) => constructor_named(alloc, cx, args, names, whole, image),
        RulePat::Inj(from, to, below) => {
            let inside = names_in(alloc, names, 0)?;
            injection_named(alloc, cx, *from, *to, below, &inside, whole, image)
        }
        RulePat::Call(..) => unreachable!(),
    }
}

// `part_compared` for a constructor of arguments.
#[cycle(named)]
fn constructor_named(
    alloc: Global,
    cx: &mut Cx<'_>,
    args: &[RulePat],
    names: &[PartName<'_>],
    whole: &RulePat,
    image: &MPat,
) -> Result<Option<Thm>, AllocError>
    requires signature { IsSignature cx.old.program.sig }
    requires made { (f : ℕ)
        × MakesNamed cx.old.program.sig (part_names names.now)
        (application f (plain_patterns args.now)) (plain_pattern whole.now) }
    requires image { image_of cx.old.program.sig cx.old.names (plain_pattern whole.now)
        ≡ Some image.now }
    ensures says { IfOk result (λ o. (f : ℕ) →
        ComparesPart cx.new (part_names names.now) (application f (plain_patterns args.now))
        (plain_pattern whole.now) image.now o) }
    ensures grown { HasGrown cx.old cx.new }
{
    let RulePat::Ctor(_, wholes) = whole else {
        unreachable!()
    };
    let parts = taken_apart(alloc, image, args.len())?;
    all_named(
        alloc,
        cx,
        args,
        names,
        wholes,
        &parts.head,
        &parts.arguments,
    )
}

// `named_compared` for the arguments of a symbol with the image `head`.
#[cycle(named)]
fn all_named(
    alloc: Global,
    cx: &mut Cx<'_>,
    args: &[RulePat],
    names: &[PartName<'_>],
    wholes: &[RulePat],
    head: &MPat,
    images: &[MPat],
) -> Result<Option<Thm>, AllocError>
    requires signature { IsSignature cx.old.program.sig }
    requires made { MakeNamed cx.old.program.sig (part_names names.now) (plain_patterns args.now)
        (plain_patterns wholes.now) }
    requires head { (f : ℕ) ×
        (symbol_image cx.old.program.sig cx.old.names f ≡ Some head.now) }
    requires images { AreImages cx.old.program.sig cx.old.names (plain_patterns wholes.now)
        images.now }
    ensures says { IfOk result
        (AllCompareNamed cx.old cx.new (part_names names.now) (plain_patterns args.now)
        (plain_patterns wholes.now) head.now images.now) }
    ensures grown { HasGrown cx.old cx.new }
{
    let mut made: Option<Thm> = None;
    let mut function = head.share()?;
    for i in 0..args.len() {
        let argument = &images[i];
        let inside = names_in(alloc, names, i)?;
        let one = named_compared(alloc, cx, &args[i], &inside, &wholes[i], argument)?;
        made = applied(alloc, cx, &made, &function, &one, argument)?;
        function = MPat::app(alloc, &function, argument)?;
    }
    Ok(made)
}

// `part_compared` for an injection. The names are those of parts of the injected pattern.
#[cycle(named)]
fn injection_named(
    alloc: Global,
    cx: &mut Cx<'_>,
    from: SortId,
    to: SortId,
    below: &RulePat,
    names: &[PartName<'_>],
    whole: &RulePat,
    image: &MPat,
) -> Result<Option<Thm>, AllocError>
    requires signature { IsSignature cx.old.program.sig }
    requires made { MakesBelow cx.old.program.sig (part_names names.now) from.0 to.0
        (plain_pattern below.now) (plain_pattern whole.now) }
    requires image { image_of cx.old.program.sig cx.old.names (plain_pattern whole.now)
        ≡ Some image.now }
    ensures says { IfOk result
        (ComparesBelow cx.new (part_names names.now) from.0 to.0 (plain_pattern below.now)
        (plain_pattern whole.now) image.now) }
    ensures grown { HasGrown cx.old cx.new }
{
    let RulePat::Inj(lowest, _, base) = whole else {
        unreachable!()
    };
    if *lowest == from {
        let (head, argument) = halves(image);
        let one = named_compared(alloc, cx, below, names, base, argument)?;
        return applied(alloc, cx, &None, head, &one, argument);
    }
    let middle = injected(alloc, *lowest, from, base)?;
    let once = merged(alloc, cx, *lowest, from, to, base)?;
    let (head, argument) = twice(&once);
    let one = named_compared(alloc, cx, below, names, &middle, argument)?;
    match applied(alloc, cx, &None, head, &one, argument)? {
        Some(further) => Ok(Some(join(alloc, cx, &further, &once)?)),
        None => Ok(Some(once)),
    }
}

// The injection of a term, which has a pattern without variables. The pattern is copied.
fn injected(alloc: Global, from: SortId, to: SortId, base: &RulePat) -> Result<RulePat, AllocError>
    requires { (t : Tree) × (plain_pattern base.now ≡ ground_pattern t) × IsNormal t
        × (height t ≤ MAX_HEIGHT) }
    ensures { IfOk result (λ p. plain_pattern p ≡ injection from.0 to.0 (plain_pattern base.now)) }
{
    let term = instance(alloc, base, &Subst::new(alloc, 0)?)?;
    Ok(RulePat::Inj(from, to, Box::new(alloc, pattern_of(alloc, &term)?)?))
}

// Proves that a term of the lowest sort, injected into a sort and then into a higher one, equals its
// injection into the highest. `base` is the pattern of the term.
fn merged(
    alloc: Global,
    cx: &mut Cx<'_>,
    lowest: SortId,
    through: SortId,
    to: SortId,
    base: &RulePat,
) -> Result<Thm, AllocError>
    requires term { (t : Tree) × (plain_pattern base.now ≡ ground_pattern t) }
    requires sorted { HasSort cx.old.program.sig [] (plain_pattern base.now) lowest.0 }
    requires below { IsBelow cx.old.program.sig.subsorts lowest.0 through.0 }
    requires above { InjectsBelow cx.old.program.sig through.0 to.0 }
    ensures says { IfOk result
        (IsOnce cx.new lowest.0 through.0 to.0 (plain_pattern base.now)) }
    ensures grown { HasGrown cx.old cx.new }
{
    let fact = element(alloc, cx, base)?;
    let place = cx.collapse(alloc, lowest, through, to)?;
    at_once(alloc, &cx.lemmas()[place], &fact)
}

// From the equality of a part and its term, the equality of the part with those of these names that
// name the whole of it, and the term. `image` is the image of the term.
fn conjoined(
    alloc: Global,
    cx: &mut Cx<'_>,
    part: Option<Thm>,
    names: &[PartName<'_>],
    image: &MPat,
) -> Result<Option<Thm>, AllocError>
    requires part { SaysEqualTo image.now part }
    requires closed { HasNoVariable image.now }
    ensures says { IfOk result
        (IsConjoinedTo cx.old cx.new (part_names names.now) image.now part) }
    ensures grown { HasGrown cx.old cx.new }
{
    let mut made = part;
    for name in names {
        if name.way.is_empty() {
            made = Some(with_name(alloc, cx, made, name.first, image)?);
        }
    }
    Ok(made)
}

// From the equality of a part and its term, that of the conjunction of both and the term. In the
// conjunction the term comes first or last. Without an equality the part is the term itself.
fn with_name(
    alloc: Global,
    cx: &mut Cx<'_>,
    part: Option<Thm>,
    first: bool,
    image: &MPat,
) -> Result<Thm, AllocError>
    requires part { SaysEqualTo image.now part }
    requires closed { HasNoVariable image.now }
    ensures says { IfOk result (IsNamedTerm cx.old cx.new first image.now part) }
    ensures equal { IfOk result (λ t. SaysEqualTo image.now (Some t)) }
    ensures grown { HasGrown cx.old cx.new }
{
    let equality = equality_of(alloc, part, image)?;
    if first {
        name_first(alloc, cx, &equality)
    } else {
        name_last(alloc, cx, &equality)
    }
}

// The equality of a part and its term. Without one the part is the term itself.
fn equality_of(alloc: Global, part: Option<Thm>, image: &MPat) -> Result<Thm, AllocError>
    requires part { SaysEqualTo image.now part }
    requires closed { HasNoVariable image.now }
    ensures says { IfOk result (IsEqualityOf image.now part) }
    ensures closed { IfOk result (λ t. HasClosedSides t.conclusion) }
    ensures equal { IfOk result (λ t. SaysEqualTo image.now (Some t)) }
{
    match part {
        Some(equality) => Ok(equality),
        None => eq_refl(alloc, image),
    }
}
