// One successful call of each function that takes more than patterns.
use ml_derived::{assume, use_lemma};
use ml_kernel::{Lemma, Thm};
use ml_pat::{ConstNo, MPat};
use std::alloc::AllocError;

// The assumed pattern is the only hypothesis.
#[test]
fn assumes_a_pattern(rt: HostRuntime) -> Result<(), AllocError> {
    let alloc = rt.alloc();
    let a = MPat::constant(alloc, ConstNo(0))?;
    let thm = assume(alloc, a.share()?)?;
    assert!(rt; thm.conclusion().same(&a));
    assert_eq!(rt; thm.hypotheses().len(), 1);
    Ok(())
}

// A lemma is cited at an instance of its pattern variable.
#[test]
fn cites_a_lemma(rt: HostRuntime) -> Result<(), AllocError> {
    let alloc = rt.alloc();
    let a = MPat::constant(alloc, ConstNo(0))?;
    let lemma = Lemma::close(Thm::p_1(alloc, &MPat::meta(alloc, 0)?, &MPat::meta(alloc, 0)?)?)?;
    let thm = Thm::p_1(alloc, &a, &a)?;
    let metas = vec![in alloc; a]?;
    let cited = use_lemma(alloc, &lemma, &metas, &[])?;
    assert!(rt; cited.conclusion().same(thm.conclusion()));
    Ok(())
}
