// Worked examples, and one successful call of each function that allocates.
ghost use Rattle.std.specs.Prelude.{◌≡◌, [], IfOk};
ghost use Rattle.ml_pat.specs.Patterns.{top, imp};

use ml_kernel::{DerivStep, Lemma, Rule, Theory, Thm};
use ml_pat::{ConstNo, MPat, MSort, VarNo};
use std::alloc::{AllocError, Global};

// The constants a and b.
fn ends(alloc: Global) -> Result<(MPat, MPat), AllocError> {
    Ok((
        MPat::constant(alloc, ConstNo(0))?,
        MPat::constant(alloc, ConstNo(1))?,
    ))
}

// q follows from p and `p -> q`. These are the theorem's hypotheses, in this order.
#[test]
fn detaches(rt: HostRuntime) -> Result<(), AllocError> {
    let alloc = rt.alloc();
    let (p, q) = ends(alloc)?;
    let minor = Thm::assume(alloc, p.share()?)?;
    let major = Thm::assume(alloc, MPat::imp(alloc, &p, &q)?)?;
    let thm = Thm::mp(alloc, &minor, &major, &p, &q)?;
    assert!(rt; thm.conclusion().same(&q));
    assert_eq!(rt; thm.hypotheses().len(), 2);
    assert!(rt; thm.hypotheses()[0].same(&p));
    assert!(rt; matches!(thm.derivation().step(), DerivStep::ByRule(Rule::Mp, _, _)));
    Ok(())
}

// One step from a to b, only by the rules of reaching: `ev a -> ev b`.
#[test]
fn makes_one_step(rt: HostRuntime) {
    let alloc = rt.alloc();
    let (_, b) = ends(alloc).expect(&rt, "memory");
    let reached = MPat::ev(alloc, &b).expect(&rt, "memory");
    let here = Thm::ev_1(alloc, &b).expect(&rt, "memory");
    let moved = Thm::next_in(alloc, &here, &b, &reached).expect(&rt, "memory");
    assert!(rt; moved.hypotheses().is_empty());
    let closing = Thm::ev_2(alloc, &b).expect(&rt, "memory");
    let kept = Thm::ev_kt(alloc, &here, &closing, &b, &reached).expect(&rt, "memory");
    let wanted = MPat::imp(alloc, &reached, &reached).expect(&rt, "memory");
    assert!(rt; kept.conclusion().same(&wanted));
}

// The number of an axiom is its place.
#[test]
fn keeps_axioms(rt: HostRuntime) -> Result<(), AllocError> {
    let alloc = rt.alloc();
    let a = MPat::constant(alloc, ConstNo(0))?;
    let mut theory = Theory::new(alloc);
    let first = theory.add(a)?;
    assert_eq!(rt; first.0, 0);
    let fact = theory.axiom(alloc, first)?;
    assert!(rt; fact.hypotheses().is_empty());
    Ok(())
}

// A lemma is cited at an instance of its pattern variable.
#[test]
fn cites_a_lemma(rt: HostRuntime) -> Result<(), AllocError> {
    let alloc = rt.alloc();
    let a = MPat::constant(alloc, ConstNo(0))?;
    let lemma = Lemma::close(Thm::p_1(alloc, &MPat::meta(alloc, 0)?, &MPat::meta(alloc, 0)?)?)?;
    let metas = vec![in alloc; a]?;
    let proofs = Vec::new(alloc);
    let thm = Thm::use_lemma(alloc, &lemma, &metas, &proofs)?;
    assert!(rt; thm.hypotheses().is_empty());
    Ok(())
}

#[test]
fn calls_the_other_rules(rt: HostRuntime) -> Result<(), AllocError> {
    let alloc = rt.alloc();
    let (a, b) = ends(alloc)?;
    let first = Thm::p_1(alloc, &a, &b)?;
    let second = Thm::p_2(alloc, &a, &b, &a)?;
    let both = Thm::and_3(alloc, &a, &b)?;
    let top = Thm::top(alloc)?;
    assert!(rt; top.conclusion().same(&MPat::top(alloc)?));
    for thm in [&first, &second, &both] {
        assert!(rt; thm.hypotheses().is_empty());
    }
    Ok(())
}

#[test]
fn calls_the_rules_of_negation(rt: HostRuntime) -> Result<(), AllocError> {
    let alloc = rt.alloc();
    let (a, b) = ends(alloc)?;
    let first = Thm::not_1(alloc, &a)?;
    let second = Thm::not_2(alloc, &b)?;
    assert!(rt; !first.conclusion().same(second.conclusion()));
    Ok(())
}

#[test]
fn calls_the_rules_of_conjunction(rt: HostRuntime) -> Result<(), AllocError> {
    let alloc = rt.alloc();
    let (a, b) = ends(alloc)?;
    let first = Thm::and_1(alloc, &a, &b)?;
    let second = Thm::and_2(alloc, &a, &b)?;
    assert!(rt; !first.conclusion().same(second.conclusion()));
    Ok(())
}

#[test]
fn calls_the_rules_of_disjunction(rt: HostRuntime) -> Result<(), AllocError> {
    let alloc = rt.alloc();
    let (a, b) = ends(alloc)?;
    let first = Thm::or_1(alloc, &a, &b)?;
    let second = Thm::or_2(alloc, &a, &b)?;
    assert!(rt; !first.conclusion().same(second.conclusion()));
    Ok(())
}

#[test]
fn calls_the_rules_of_cases(rt: HostRuntime) -> Result<(), AllocError> {
    let alloc = rt.alloc();
    let (a, b) = ends(alloc)?;
    let first = Thm::p_3(alloc, &a)?;
    let second = Thm::or_3(alloc, &a, &b, &a)?;
    assert!(rt; !first.conclusion().same(second.conclusion()));
    Ok(())
}

#[test]
fn calls_the_rules_of_bottom(rt: HostRuntime) -> Result<(), AllocError> {
    let alloc = rt.alloc();
    let (a, b) = ends(alloc)?;
    let first = Thm::bot_l(alloc, &a)?;
    let second = Thm::bot_r(alloc, &b)?;
    assert!(rt; !first.conclusion().same(second.conclusion()));
    Ok(())
}

#[test]
fn calls_the_rule_of_equality(rt: HostRuntime) -> Result<(), AllocError> {
    let alloc = rt.alloc();
    let (a, _) = ends(alloc)?;
    let thm = Thm::eq_refl(alloc, &a)?;
    assert!(rt; thm.hypotheses().is_empty());
    Ok(())
}

#[test]
fn calls_the_rules_of_sorts(rt: HostRuntime) -> Result<(), AllocError> {
    let alloc = rt.alloc();
    let (a, b) = ends(alloc)?;
    let element = Thm::mem_in(alloc, &a, MSort(0))?;
    let apart = Thm::apart(alloc, &a, &b, MSort(0), MSort(0))?;
    assert!(rt; !element.conclusion().same(apart.conclusion()));
    Ok(())
}

// Closes the theorem as a lemma, and cites it.
pub(crate) fn cited_again(alloc: Global, thm: Thm) -> Result<Thm, AllocError>
    requires hypotheses { thm.hypotheses ≡ [] }
    requires conclusion { thm.conclusion ≡ top }
    ensures hypotheses { IfOk result (λ t. t.hypotheses ≡ []) }
    ensures conclusion { IfOk result (λ t. t.conclusion ≡ top) }
{
    let lemma = Lemma::close(thm)?;
    Thm::use_lemma(alloc, &lemma, &[], &[])
}

// In a chain of 1,000,000 lemmas each cites the one before. Only the last one is kept.
#[test]
fn cites_a_long_chain_of_lemmas(rt: HostRuntime) -> Result<(), AllocError> {
    let mut thm = Thm::top(rt.alloc())?;
    for _ in 0..1_000_000 {
        thm = cited_again(rt.alloc(), thm)?;
    }
    Ok(())
}

// A chain of 100,000 rules is dropped in a loop.
#[test]
fn drops_a_long_chain_of_rules(rt: HostRuntime) -> Result<(), AllocError> {
    let alloc = rt.alloc();
    let all = MPat::top(alloc)?;
    let again = Thm::assume(alloc, MPat::imp(alloc, &all, &all)?)?;
    let mut thm = Thm::top(alloc)?;
    for _ in 0..100_000 {
        thm = Thm::mp(alloc, &thm, &again, &all, &all)?;
    }
    assert_eq!(rt; thm.hypotheses().len(), 1);
    Ok(())
}

// The instance of a pattern that is 100,000 applications deep is made in a loop.
#[test]
fn fills_a_deep_pattern(rt: HostRuntime) -> Result<(), AllocError> {
    let alloc = rt.alloc();
    let a = MPat::constant(alloc, ConstNo(0))?;
    let mut deep = MPat::meta(alloc, 0)?;
    for _ in 0..100_000 {
        deep = MPat::app(alloc, &deep, &a)?;
    }
    let lemma = Lemma::close(Thm::p_1(alloc, &deep, &deep)?)?;
    let metas = vec![in alloc; a]?;
    let filled = Thm::use_lemma(alloc, &lemma, &metas, &[])?;
    assert!(rt; !filled.conclusion().same(lemma.conclusion()));
    Ok(())
}

// A constant has no variable to substitute: `(all x s a) -> fun a s -> a`.
#[test]
fn calls_the_rule_of_instances(rt: HostRuntime) -> Result<(), AllocError> {
    let alloc = rt.alloc();
    let a = MPat::constant(alloc, ConstNo(0))?;
    let thm = Thm::inst(alloc, &a, &a, &a, VarNo(0), MSort(0))?;
    assert!(rt; thm.hypotheses().is_empty());
    Ok(())
}

#[test]
fn calls_the_rule_of_being_functional(rt: HostRuntime) -> Result<(), AllocError> {
    let alloc = rt.alloc();
    let a = MPat::constant(alloc, ConstNo(0))?;
    let thm = Thm::fun_ex(alloc, &a, VarNo(0), MSort(0))?;
    assert!(rt; thm.hypotheses().is_empty());
    Ok(())
}

// From `fun x s -> top -> top` follows `(ex x s top) -> top`.
#[test]
fn calls_the_rule_of_existence(rt: HostRuntime) -> Result<(), AllocError> {
    let alloc = rt.alloc();
    let all = MPat::top(alloc)?;
    let element = MPat::fun(alloc, &MPat::var(alloc, VarNo(0))?, MSort(0))?;
    let given = always(alloc, &element, &all, &all)?;
    let thm = Thm::ex_el(alloc, &given, &all, &all, VarNo(0), MSort(0))?;
    assert!(rt; !thm.conclusion().same(given.conclusion()));
    Ok(())
}

#[test]
fn calls_the_rule_of_equals(rt: HostRuntime) -> Result<(), AllocError> {
    let alloc = rt.alloc();
    let (a, b) = ends(alloc)?;
    let x = MPat::var(alloc, VarNo(0))?;
    let thm = Thm::eq_el(alloc, &a, &b, &x, &a, &b, VarNo(0))?;
    assert!(rt; thm.hypotheses().is_empty());
    Ok(())
}

// Two patterns that imply each other are equal.
#[test]
fn calls_the_rule_of_equal_patterns(rt: HostRuntime) -> Result<(), AllocError> {
    let alloc = rt.alloc();
    let (a, b) = ends(alloc)?;
    let there = Thm::assume(alloc, MPat::imp(alloc, &a, &b)?)?;
    let back = Thm::assume(alloc, MPat::imp(alloc, &b, &a)?)?;
    let thm = Thm::eq_in(alloc, &there, &back, &a, &b)?;
    assert_eq!(rt; thm.hypotheses().len(), 2);
    Ok(())
}

// From `top -> ~(a & b)` follows `top -> ~(a in b)`.
#[test]
fn calls_the_rule_of_no_element(rt: HostRuntime) -> Result<(), AllocError> {
    let alloc = rt.alloc();
    let (a, b) = ends(alloc)?;
    let always = MPat::top(alloc)?;
    let disjoint = MPat::not(alloc, &MPat::and(alloc, &a, &b)?)?;
    let given = Thm::assume(alloc, MPat::imp(alloc, &always, &disjoint)?)?;
    let thm = Thm::mem_no(alloc, &given, &a, &b, &always)?;
    assert!(rt; !thm.conclusion().same(given.conclusion()));
    Ok(())
}

// `r -> a -> b`, as a hypothesis.
pub(crate) fn always(alloc: Global, r: &MPat, a: &MPat, b: &MPat) -> Result<Thm, AllocError>
    ensures { IfOk result (λ thm. thm.conclusion ≡ imp r.now (imp a.now b.now)) }
{
    Thm::assume(alloc, MPat::imp(alloc, r, &MPat::imp(alloc, a, b)?)?)
}

#[test]
fn calls_the_rule_of_left_sides(rt: HostRuntime) -> Result<(), AllocError> {
    let alloc = rt.alloc();
    let (a, b) = ends(alloc)?;
    let top = MPat::top(alloc)?;
    let given = always(alloc, &top, &a, &b)?;
    let thm = Thm::app_l(alloc, &given, &a, &b, &top, &a)?;
    assert!(rt; !thm.conclusion().same(given.conclusion()));
    Ok(())
}

#[test]
fn calls_the_rule_of_right_sides(rt: HostRuntime) -> Result<(), AllocError> {
    let alloc = rt.alloc();
    let (a, b) = ends(alloc)?;
    let top = MPat::top(alloc)?;
    let given = always(alloc, &top, &a, &b)?;
    let thm = Thm::app_r(alloc, &given, &a, &b, &top, &a)?;
    assert!(rt; !thm.conclusion().same(given.conclusion()));
    Ok(())
}
