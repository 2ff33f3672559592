// Worked examples of each derived rule, at symbols.
ghost use Rattle.std.specs.Prelude.{◌≡◌, IfOk};
ghost use Rattle.ml_pat.specs.Patterns.{constant, equal, all, fun, imp, next, var};

use ml_derived::{
    assume, both, carry, chain, cong_app, cong_arg, cong_fun, flip, instance, join, reach_here,
    reach_step,
};
use ml_kernel::Thm;
use ml_pat::{ConstNo, MPat, MSort, VarNo};
use std::alloc::{AllocError, Global};

// A run: `a -> ev a`, and then one step to b.
#[test]
fn reaches_one_step_further(rt: HostRuntime) -> Result<(), AllocError> {
    let alloc = rt.alloc();
    let a = MPat::constant(alloc, ConstNo(0))?;
    let b = MPat::constant(alloc, ConstNo(1))?;
    let here = reach_here(alloc, &a)?;
    let step = Thm::assume(alloc, MPat::imp(alloc, &a, &MPat::next(alloc, &b)?)?)?;
    let there = reach_step(alloc, &here, &step)?;
    let wanted = MPat::imp(alloc, &a, &MPat::ev(alloc, &b)?)?;
    assert!(rt; there.conclusion().same(&wanted));
    assert_eq!(rt; there.hypotheses().len(), 1);
    Ok(())
}

#[test]
fn chains_implications(rt: HostRuntime) -> Result<(), AllocError> {
    let alloc = rt.alloc();
    let a = MPat::constant(alloc, ConstNo(0))?;
    let here = reach_here(alloc, &a)?;
    let end = MPat::ev(alloc, &a)?;
    let further = reach_here(alloc, &end)?;
    let thm = chain(alloc, &here, &further)?;
    assert!(rt;
        thm.conclusion()
            .same(&MPat::imp(alloc, &a, &MPat::ev(alloc, &end)?)?)
    );
    assert!(rt; thm.hypotheses().is_empty());
    Ok(())
}

// The equality of two symbols, as a hypothesis.
fn same(alloc: Global, c: ConstNo, d: ConstNo) -> Result<Thm, AllocError>
    ensures { IfOk result (λ t. t.conclusion ≡ equal (constant c.0) (constant d.0)) }
{
    let left = MPat::constant(alloc, c)?;
    let right = MPat::constant(alloc, d)?;
    assume(alloc, MPat::equal(alloc, &left, &right)?)
}

// `all x s (x -> next x)`, as a hypothesis.
fn for_each(alloc: Global) -> Result<Thm, AllocError>
    ensures { IfOk result (λ t. t.conclusion ≡ all 4 9 (imp (var 4) (next (var 4)))) }
{
    let x = MPat::var(alloc, VarNo(4))?;
    let body = MPat::imp(alloc, &x, &MPat::next(alloc, &x)?)?;
    assume(alloc, MPat::all(alloc, VarNo(4), MSort(9), &body)?)
}

// The fact that the symbol a is one element of s, as a hypothesis.
fn element(alloc: Global) -> Result<Thm, AllocError>
    ensures { IfOk result (λ t. t.conclusion ≡ fun (constant 0) 9) }
{
    let a = MPat::constant(alloc, ConstNo(0))?;
    assume(alloc, MPat::fun(alloc, &a, MSort(9))?)
}

// `all x s (x -> next x)` at the symbol a is `a -> next a`.
#[test]
fn puts_in_a_symbol(rt: HostRuntime) -> Result<(), AllocError> {
    let alloc = rt.alloc();
    let sentence = for_each(alloc)?;
    let facts = vec![in alloc; element(alloc)?]?;
    let thm = instance(alloc, sentence, &facts)?;
    let a = MPat::constant(alloc, ConstNo(0))?;
    let wanted = MPat::imp(alloc, &a, &MPat::next(alloc, &a)?)?;
    assert!(rt; thm.conclusion().same(&wanted));
    assert_eq!(rt; thm.hypotheses().len(), 2);
    Ok(())
}

// From `a = b` follow `b = a` and `a = a`.
#[test]
fn turns_and_joins_equalities(rt: HostRuntime) -> Result<(), AllocError> {
    let alloc = rt.alloc();
    let there = same(alloc, ConstNo(0), ConstNo(1))?;
    let back = flip(alloc, &there)?;
    let round = join(alloc, &there, &back)?;
    let a = MPat::constant(alloc, ConstNo(0))?;
    assert!(rt; round.conclusion().same(&MPat::equal(alloc, &a, &a)?));
    assert_eq!(rt; round.hypotheses().len(), 1);
    Ok(())
}

// From `a = b` and `c = d` follows `a c = b d`.
#[test]
fn applies_equalities(rt: HostRuntime) -> Result<(), AllocError> {
    let alloc = rt.alloc();
    let f = same(alloc, ConstNo(0), ConstNo(1))?;
    let a = same(alloc, ConstNo(2), ConstNo(3))?;
    let both_changed = cong_app(alloc, &f, &a)?;
    let c = MPat::constant(alloc, ConstNo(2))?;
    let function_changed = cong_fun(alloc, &f, &c)?;
    let argument_changed = cong_arg(alloc, &c, &a)?;
    assert_eq!(rt; both_changed.hypotheses().len(), 2);
    assert!(rt;
        !function_changed
            .conclusion()
            .same(argument_changed.conclusion())
    );
    Ok(())
}

// `next a` becomes `next b` by `a = b`.
#[test]
fn carries_into_a_context(rt: HostRuntime) -> Result<(), AllocError> {
    let alloc = rt.alloc();
    let eq = same(alloc, ConstNo(0), ConstNo(1))?;
    let context = MPat::next(alloc, &MPat::var(alloc, VarNo(7))?)?;
    let given = assume(
        alloc,
        MPat::next(alloc, &MPat::constant(alloc, ConstNo(0))?)?,
    )?;
    let thm = carry(alloc, &eq, &context, VarNo(7), &given)?;
    let wanted = MPat::next(alloc, &MPat::constant(alloc, ConstNo(1))?)?;
    assert!(rt; thm.conclusion().same(&wanted));
    assert_eq!(rt; both(alloc, &thm, &eq)?.hypotheses().len(), 2);
    Ok(())
}
