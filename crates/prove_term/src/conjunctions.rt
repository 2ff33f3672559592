// The conjunction of a pattern with itself.
ghost use Rattle.std.specs.Prelude.{◌≡◌, ◌∷◌, [], IfOk};
ghost use Rattle.ml_pat.specs.Patterns.{and, equal};
ghost use Rattle.ml_derived.specs.Scopes.{StaysWithin};

use ml_derived::{and_1, both_under, eq_in, itself};
use ml_kernel::Thm;
use ml_pat::MPat;
use std::alloc::{AllocError, Global};

// `p & p = p`.
pub(crate) fn and_same(alloc: Global, p: &MPat) -> Result<Thm, AllocError>
    ensures conclusion { IfOk result (λ t. t.conclusion ≡ equal (and p.now p.now) p.now) }
    ensures stays { IfOk result (StaysWithin (p.now ∷ []) []) }
{
    let both = MPat::and(alloc, p, p)?;
    let one = and_1(alloc, p, p)?;
    let same = itself(alloc, p)?;
    let two = both_under(alloc, &same, &same, p, p, p)?;
    eq_in(alloc, &one, &two, &both, p)
}
