// Patterns and the terms that they become under a substitution. The image of a pattern, with its
// variables replaced by the images of the terms, equals the image of the term. If two injections
// meet, a lemma makes them one.
ghost use Rattle.std.specs.Prelude.{◌≡◌, ◌≢◌, ℕ, List, IfOk, IfSome, Some};
ghost use Rattle.ml_pat.specs.Patterns.{Pattern, app, equal};
ghost use Rattle.ml_kernel.specs.Lemmas.{HasNoVariable};
ghost use Rattle.term_core.specs.Patterns.{application, injection};
ghost use Rattle.term_core.specs.Instances.{FitsWithin};
ghost use Rattle.term_core.specs.RulePatterns.{plain_pattern};
ghost use Rattle.term_core.specs.PatternLists.{plain_patterns};
ghost use Rattle.rule_core.specs.Matching.{RespectsSorts};
ghost use Rattle.rule_core.specs.Sorting.{HasSort};
ghost use Rattle.rule_core.specs.WellSorted.{IsSignature};
ghost use Rattle.ml_image.specs.Images.{image_of};
ghost use Rattle.prove_term.specs.Contexts.{HasGrown, StaysIn};
ghost use Rattle.prove_term.specs.Schemas.{AreImages};
ghost use Rattle.prove_term.specs.EqualImages.{SaysEqualImages};
ghost use Rattle.prove_term.specs.Comparing.{AllCompare, MakeTerms, Compares, IsFactOn, MakesTerm};
ghost use Rattle.prove_term.specs.Comparing.{IsOverContext};

use crate::congruence::{applied, halves, taken_apart};
use crate::context::Cx;
use crate::elements::element;
use crate::equalities::join;
use crate::joining::at_once;
use ml_kernel::Thm;
use ml_pat::{MForm, MPat};
use std::alloc::{AllocError, Global};
use term_core::{MAX_HEIGHT, RulePat, SortId, Subst, instance, pattern_of};

/// Proves that the image of a pattern, with its variables replaced by the images of a
/// substitution's terms, equals the image of the term that the pattern becomes. If no two
/// injections meet, both are literally the same, and there is no theorem. Lemmas on injections are
/// made when they are first needed. `AllocError`: out of memory, or a constructor of an injected
/// term has 2^31 arguments or more. After an error the context may have grown. The recursion is as
/// deep as the pattern and the injected terms are high.
pub fn inj_eq(
    alloc: Global,
    cx: &mut Cx<'_>,
    pat: &RulePat,
    subst: &Subst,
) -> Result<Option<Thm>, AllocError>
    requires signature { IsSignature cx.old.program.sig }
    requires sorted { (variables : List ℕ) × (sort : ℕ)
        × HasSort cx.old.program.sig variables (plain_pattern pat.now) sort
        × RespectsSorts cx.old.program.sig variables subst.now }
    requires fits { FitsWithin MAX_HEIGHT subst.now (plain_pattern pat.now) }
    ensures says { IfOk result (SaysEqualImages cx.new subst.now (plain_pattern pat.now)) }
    ensures stays { IfOk result (λ o. IfSome o (StaysIn cx.new)) }
    ensures grown { HasGrown cx.old cx.new }
{
    let term = instance(alloc, pat, subst)?;
    let whole = pattern_of(alloc, &term)?;
    let image = cx.image(alloc, &whole)?;
    compared(alloc, cx, pat, &whole, &image)
}

// `inj_eq` of `pat`, where `whole` is the pattern of the term that it becomes, and `image` is the
// image of `whole`.
#[cycle(compared)]
pub(crate) fn compared(
    alloc: Global,
    cx: &mut Cx<'_>,
    pat: &RulePat,
    whole: &RulePat,
    image: &MPat,
) -> Result<Option<Thm>, AllocError>
    requires signature { IsSignature cx.old.program.sig }
    requires made { MakesTerm cx.old.program.sig (plain_pattern pat.now) (plain_pattern whole.now) }
    requires image { image_of cx.old.program.sig cx.old.names (plain_pattern whole.now)
        ≡ Some image.now }
    ensures says { IfOk result
        (Compares cx.new (plain_pattern pat.now) (plain_pattern whole.now) image.now) }
    ensures grown { HasGrown cx.old cx.new }
{
    match pat {
        RulePat::Var(_) | RulePat::Value(..) => Ok(None),
        RulePat::Ctor(_, args) => constructor_compared(alloc, cx, args, whole, image),
        RulePat::Inj(from, to, below) => {
            injection_compared(alloc, cx, *from, *to, below, whole, image)
        }
        RulePat::Call(..) => unreachable!(),
    }
}

// `compared` for a constructor of arguments.
#[cycle(compared)]
fn constructor_compared(
    alloc: Global,
    cx: &mut Cx<'_>,
    args: &[RulePat],
    whole: &RulePat,
    image: &MPat,
) -> Result<Option<Thm>, AllocError>
    requires signature { IsSignature cx.old.program.sig }
    requires made { (f : ℕ)
        × MakesTerm cx.old.program.sig (application f (plain_patterns args.now))
        (plain_pattern whole.now) }
    requires image { image_of cx.old.program.sig cx.old.names (plain_pattern whole.now)
        ≡ Some image.now }
    ensures says { IfOk result (λ o. (f : ℕ) →
        Compares cx.new (application f (plain_patterns args.now)) (plain_pattern whole.now)
        image.now o) }
    ensures grown { HasGrown cx.old cx.new }
{
    let RulePat::Ctor(_, wholes) = whole else {
        unreachable!()
    };
    let parts = taken_apart(alloc, image, args.len())?;
    all_compared(alloc, cx, args, wholes, &parts.head, &parts.arguments)
}

// `compared` for a head that is applied to the images of arguments.
#[cycle(compared)]
pub(crate) fn all_compared(
    alloc: Global,
    cx: &mut Cx<'_>,
    args: &[RulePat],
    wholes: &[RulePat],
    head: &MPat,
    images: &[MPat],
) -> Result<Option<Thm>, AllocError>
    requires signature { IsSignature cx.old.program.sig }
    requires made { MakeTerms cx.old.program.sig (plain_patterns args.now)
        (plain_patterns wholes.now) }
    requires head { HasNoVariable head.now × IsOverContext cx.old head.now }
    requires images { AreImages cx.old.program.sig cx.old.names (plain_patterns wholes.now)
        images.now }
    ensures says { IfOk result
        (AllCompare cx.new (plain_patterns args.now) (plain_patterns wholes.now) head.now
        images.now) }
    ensures grown { HasGrown cx.old cx.new }
{
    let mut made: Option<Thm> = None;
    let mut function = head.share()?;
    for i in 0..args.len() {
        let argument = &images[i];
        let one = compared(alloc, cx, &args[i], &wholes[i], argument)?;
        made = applied(alloc, cx, &made, &function, &one, argument)?;
        function = MPat::app(alloc, &function, argument)?;
    }
    Ok(made)
}

// `compared` for an injection.
#[cycle(compared)]
fn injection_compared(
    alloc: Global,
    cx: &mut Cx<'_>,
    from: SortId,
    to: SortId,
    below: &RulePat,
    whole: &RulePat,
    image: &MPat,
) -> Result<Option<Thm>, AllocError>
    requires signature { IsSignature cx.old.program.sig }
    requires made { MakesTerm cx.old.program.sig (injection from.0 to.0 (plain_pattern below.now))
        (plain_pattern whole.now) }
    requires image { image_of cx.old.program.sig cx.old.names (plain_pattern whole.now)
        ≡ Some image.now }
    ensures says { IfOk result
        (Compares cx.new (injection from.0 to.0 (plain_pattern below.now)) (plain_pattern whole.now)
        image.now) }
    ensures grown { HasGrown cx.old cx.new }
{
    let RulePat::Inj(lowest, _, base) = whole else {
        unreachable!()
    };
    if *lowest == from {
        return beneath(alloc, cx, below, base, image);
    }
    let fact = element(alloc, cx, base)?;
    let made = joined_compared(alloc, cx, from, to, below, *lowest, base, &fact)?;
    Ok(Some(made))
}

// `compared` for an injection whose argument does not become an injection.
#[cycle(compared)]
fn beneath(
    alloc: Global,
    cx: &mut Cx<'_>,
    below: &RulePat,
    base: &RulePat,
    image: &MPat,
) -> Result<Option<Thm>, AllocError>
    requires signature { IsSignature cx.old.program.sig }
    requires made { MakesTerm cx.old.program.sig (plain_pattern below.now)
        (plain_pattern base.now) }
    requires image { (a b : ℕ) ×
        (image_of cx.old.program.sig cx.old.names (injection a b (plain_pattern base.now))
        ≡ Some image.now) }
    ensures says { IfOk result (λ o. (a b : ℕ) →
        image_of cx.old.program.sig cx.old.names (injection a b (plain_pattern base.now))
        ≡ Some image.now →
        MakesTerm cx.old.program.sig (plain_pattern below.now) (plain_pattern base.now) →
        Compares cx.new (injection a b (plain_pattern below.now))
        (injection a b (plain_pattern base.now))
        image.now o) }
    ensures grown { HasGrown cx.old cx.new }
{
    let (head, argument) = halves(image);
    let one = compared(alloc, cx, below, base, argument)?;
    applied(alloc, cx, &None, head, &one, argument)
}

// `compared` for an injection whose argument becomes an injection. A theorem about an element of
// the lowest sort is at hand.
#[cycle(compared)]
fn joined_compared(
    alloc: Global,
    cx: &mut Cx<'_>,
    from: SortId,
    to: SortId,
    below: &RulePat,
    lowest: SortId,
    base: &RulePat,
    fact: &Thm,
) -> Result<Thm, AllocError>
    requires signature { IsSignature cx.old.program.sig }
    requires made { MakesTerm cx.old.program.sig (injection from.0 to.0 (plain_pattern below.now))
        (injection lowest.0 to.0 (plain_pattern base.now)) }
    requires apart { lowest.0 ≢ from.0 }
    requires fact { IsFactOn cx.old (plain_pattern base.now) lowest.0 fact.now }
    ensures says { IfOk result (λ t. (image : Pattern) →
        image_of cx.new.program.sig cx.new.names (injection lowest.0 to.0 (plain_pattern base.now))
        ≡ Some image →
        Compares cx.new (injection from.0 to.0 (plain_pattern below.now))
        (injection lowest.0 to.0 (plain_pattern base.now)) image (Some t)) }
    ensures grown { HasGrown cx.old cx.new }
{
    let place = cx.collapse(alloc, lowest, from, to)?;
    let once = at_once(alloc, &cx.lemmas()[place], fact)?;
    let (head, middle) = twice(&once);
    let one = middle_compared(alloc, cx, from, below, lowest, base, fact, middle)?;
    let further = applied(alloc, cx, &None, head, &one, middle)?;
    match further {
        Some(e) => join(alloc, cx, &e, &once),
        None => Ok(once),
    }
}

// `compared` for the pattern that is injected in that case.
#[cycle(compared)]
fn middle_compared(
    alloc: Global,
    cx: &mut Cx<'_>,
    to: SortId,
    pat: &RulePat,
    lowest: SortId,
    base: &RulePat,
    fact: &Thm,
    image: &MPat,
) -> Result<Option<Thm>, AllocError>
    requires signature { IsSignature cx.old.program.sig }
    requires made { MakesTerm cx.old.program.sig (plain_pattern pat.now)
        (injection lowest.0 to.0 (plain_pattern base.now)) }
    requires fact { IsFactOn cx.old (plain_pattern base.now) lowest.0 fact.now }
    requires image { image_of cx.old.program.sig cx.old.names
        (injection lowest.0 to.0 (plain_pattern base.now)) ≡
        Some image.now }
    ensures says { IfOk result
        (Compares cx.new (plain_pattern pat.now) (injection lowest.0 to.0 (plain_pattern base.now))
        image.now) }
    ensures grown { HasGrown cx.old cx.new }
{
    match pat {
        RulePat::Var(_) | RulePat::Value(..) => Ok(None),
        RulePat::Inj(from, _, below) => {
            if lowest == *from {
                return beneath(alloc, cx, below, base, image);
            }
            let made = joined_compared(alloc, cx, *from, to, below, lowest, base, fact)?;
            Ok(Some(made))
        }
        RulePat::Ctor(..) | RulePat::Call(..) => unreachable!(),
    }
}

// Returns the outer and the inner part of the left side of an equality that makes two injections
// one.
pub(crate) fn twice(once: &Thm) -> (&MPat, &MPat)
    requires { (f a q : Pattern) × (once.now.conclusion ≡ equal (app f a) q) }
    ensures { (q : Pattern) × (once.now.conclusion ≡ equal (app result.0.now result.1.now) q) }
{
    let MForm::Equal(left, _) = once.conclusion().form() else {
        unreachable!()
    };
    halves(left)
}
