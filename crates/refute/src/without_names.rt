// From what holds of a pattern without the names of its parts to what holds of it with them.
ghost use Rattle.std.specs.Prelude.{◌∷◌, IfOk, []};
ghost use Rattle.ml_derived.specs.Scopes.{StaysWithin};
ghost use Rattle.refute.specs.Dropping.{AreDroppable, AreDroppableDenial, IsDenialOfNamed};
ghost use Rattle.refute.specs.Dropping.{IsOfNamed};

use crate::parts::{conjuncts, denied, sides};
use ml_derived::{bot_to_not, chain_under, lift, not_to_bot, wider};
use ml_kernel::Thm;
use ml_pat::MPat;
use std::alloc::{AllocError, Global};

// `h -> d & t -> e`, from `h -> q & t -> e` and `d -> q`.
pub(crate) fn of_named(alloc: Global, rule: &Thm, dropping: &Thm) -> Result<Thm, AllocError>
    requires { AreDroppable rule.now.conclusion dropping.now.conclusion }
    ensures conclusion { IfOk result
        (λ t. IsOfNamed rule.now.conclusion dropping.now.conclusion t.conclusion) }
    ensures stays { IfOk result (StaysWithin [] (rule.now ∷ dropping.now ∷ [])) }
{
    let (h, rest) = sides(rule.conclusion());
    let (common, e) = sides(rest);
    let (q, t) = conjuncts(common);
    let (d, _) = sides(dropping.conclusion());
    let into = wider(alloc, dropping, d, q, t)?;
    let (named, _) = sides(into.conclusion());
    chain_under(alloc, &lift(alloc, h, &into)?, rule, h, named, common, e)
}

// `h -> ~(d & t)`, from `h -> ~(q & t)` and `d -> q`.
pub(crate) fn denial_of_named(
    alloc: Global,
    denial: &Thm,
    dropping: &Thm,
) -> Result<Thm, AllocError>
    requires { AreDroppableDenial denial.now.conclusion dropping.now.conclusion }
    ensures conclusion { IfOk result
        (λ t. IsDenialOfNamed denial.now.conclusion dropping.now.conclusion t.conclusion) }
    ensures stays { IfOk result (StaysWithin [] (denial.now ∷ dropping.now ∷ [])) }
{
    let (h, rest) = sides(denial.conclusion());
    let none = not_to_bot(alloc, denial, h, denied(rest))?;
    let made = of_named(alloc, &none, dropping)?;
    let (_, rest) = sides(made.conclusion());
    let (common, _) = sides(rest);
    bot_to_not(alloc, &made, h, common)
}
