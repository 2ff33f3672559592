// A refutation is carried up along the arguments of an application.
ghost use Rattle.std.specs.Prelude.{◌≡◌, [], ◌∷◌, IfOk};
ghost use Rattle.ml_pat.specs.Patterns.{bot, imp};
ghost use Rattle.ml_pat.specs.Judgements.{IsPredicate};
ghost use Rattle.ml_derived.specs.Applying.{applied_to};
ghost use Rattle.ml_derived.specs.Scopes.{StaysWithin};

use crate::refuting::no_function;
use ml_kernel::Thm;
use ml_pat::MPat;
use std::alloc::{AllocError, Global};

/// `r -> f p .. -> bot`, from `r -> f -> bot`, where r is everything or nothing, and f is applied to
/// these patterns, one after another. An error: out of memory.
pub fn no_application(
    alloc: Global,
    a: Thm,
    r: &MPat,
    f: &MPat,
    arguments: &[MPat],
) -> Result<Thm, AllocError>
    requires a { a.conclusion ≡ imp r.now (imp f.now bot) }
    requires predicate { IsPredicate r.now }
    ensures conclusion { IfOk result
        (λ t. t.conclusion ≡ imp r.now (imp (applied_to f.now arguments.now) bot)) }
    ensures stays { IfOk result (StaysWithin arguments.now (a ∷ [])) }
{
    let mut present = a;
    let mut at = f.share()?;
    for argument in arguments {
        present = no_function(alloc, &present, r, &at, argument)?;
        at = MPat::app(alloc, &at, argument)?;
    }
    Ok(present)
}
