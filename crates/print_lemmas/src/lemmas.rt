// The lemmas.
ghost use Rattle.std.specs.Prelude.{◌≡◌, [], ◌∷◌, IfOk};
ghost use Rattle.ml_pat.specs.Patterns.{imp, meta, next, var};

use ml_kernel::{Lemma, Thm};
use ml_pat::{ConstNo, MPat, MSort, VarNo, subst};
use std::alloc::{AllocError, Global};

// If x implies m, then `next x` implies `next m`: a lemma with two variables and a hypothesis.
pub(crate) fn next_lemma(alloc: Global) -> Result<Thm, AllocError>
    ensures hypotheses { IfOk result (λ lemma. lemma.hypotheses ≡ imp (var 0) (meta 0) ∷ []) }
    ensures conclusion { IfOk result
        (λ lemma. lemma.conclusion ≡ imp (next (var 0)) (next (meta 0))) }
{
    let x = MPat::var(alloc, VarNo(0))?;
    let m = MPat::meta(alloc, 0)?;
    let leads = Thm::assume(alloc, MPat::imp(alloc, &x, &m)?)?;
    Thm::next_in(alloc, &leads, &x, &m)
}

// That lemma with the symbol a in place of m.
pub(crate) fn next_of_a(alloc: Global, lemma: &Lemma) -> Result<Thm, AllocError>
    requires hypotheses { lemma.now.hypotheses ≡ imp (var 0) (meta 0) ∷ [] }
    requires conclusion { lemma.now.conclusion ≡ imp (next (var 0)) (next (meta 0)) }
{
    let x = MPat::var(alloc, VarNo(0))?;
    let a = MPat::constant(alloc, ConstNo(1))?;
    let leads = Thm::assume(alloc, MPat::imp(alloc, &x, &a)?)?;
    let patterns = vec![in alloc; a]?;
    let proofs = vec![in alloc; leads]?;
    Thm::use_lemma(alloc, lemma, &patterns, &proofs)
}

// Proves `top` by way of a pattern with a variable. The variable does not occur in `top`.
pub(crate) fn everything(alloc: Global) -> Result<Thm, AllocError> {
    let m = MPat::meta(alloc, 3)?;
    let top = MPat::top(alloc)?;
    let way = MPat::imp(alloc, &m, &MPat::imp(alloc, &m, &m)?)?;
    let onward = MPat::imp(alloc, &way, &top)?;
    let first = Thm::p_1(alloc, &m, &m)?;
    let second = Thm::mp(
        alloc,
        &Thm::top(alloc)?,
        &Thm::p_1(alloc, &top, &way)?,
        &top,
        &onward,
    )?;
    Thm::mp(alloc, &first, &second, &way, &top)
}

// What holds for all x holds for a. In one part of the pattern x does not occur. In the other part
// it is free and bound.
pub(crate) fn instance_at_a(alloc: Global) -> Result<Thm, AllocError> {
    let sort = MSort(0);
    let (x, y) = (VarNo(0), VarNo(1));
    let a = MPat::constant(alloc, ConstNo(1))?;
    let applied = MPat::app(alloc, &MPat::var(alloc, y)?, &MPat::meta(alloc, 0)?)?;
    let without = MPat::ex(alloc, y, sort, &applied)?;
    let here = MPat::var(alloc, x)?;
    let bound = MPat::all(alloc, x, sort, &MPat::fun(alloc, &here, sort)?)?;
    let pat = MPat::imp(alloc, &without, &MPat::app(alloc, &here, &bound)?)?;
    match subst(alloc, &pat, x, &a)? {
        Some(made) => Thm::inst(alloc, &pat, &a, &made, x, sort),
        None => Thm::top(alloc),
    }
}
