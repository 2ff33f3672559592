// A guard whose argument does not match its term.
ghost use Rattle.std.specs.Prelude.{◌≡◌, IfOk, Some, slice_get};
ghost use Rattle.term_core.specs.RulePatterns.{sort_numbers};
ghost use Rattle.ml_image.specs.Sentences.{Sentence, bottom};
ghost use Rattle.prove_term.specs.Contexts.{HasGrown};
ghost use Rattle.guard_body.specs.Arguments.{NoneMatchesArgument};
ghost use Rattle.refute_guard.specs.Repeated.{IsOfBody};
ghost use Rattle.guard_body.specs.Guarded.{IsGuarded};
ghost use Rattle.guard_body.specs.declared.arguments.Argument.{Argument};

use crate::members::{member_at, none_at};
use guard_body::Guarded;
use ml_kernel::Thm;
use prove_term::Cx;
use refute::mismatch_named;
use refute_body::{sides, weaker};
use std::alloc::{AllocError, Global};

// Proves that the body of the guard does not hold, as its argument at this place does not match its
// term.
pub(crate) fn by_mismatch(
    alloc: Global,
    cx: &mut Cx<'_>,
    guard: &Guarded<'_>,
    place: usize,
) -> Result<Thm, AllocError>
    requires guard { (c : Sentence) × IsGuarded cx.old c guard.now }
    requires mismatch { (a : Argument) × (slice_get guard.now.arguments.items place ≡ Some a)
        × NoneMatchesArgument cx.old.program.sig (sort_numbers guard.now.sorts.items) a }
    ensures says { IfOk result (IsOfBody cx.new guard.now bottom) }
    ensures grown { HasGrown cx.old cx.new }
{
    let argument = &guard.arguments[place];
    let none = mismatch_named(
        alloc,
        cx,
        &guard.sorts,
        &argument.pat,
        &argument.named,
        argument.term,
    )?;
    let (h, _) = sides(none.conclusion());
    let weaker = weaker(alloc, cx, &guard.sorts, &guard.given, h)?;
    let inside = member_at(alloc, &guard.body, place)?;
    none_at(alloc, &guard.given.hypothesis, &none, &weaker, &inside)
}
