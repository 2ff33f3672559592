// Worked examples, and one successful call of each function that allocates.
use ml_pat::{ConstNo, MForm, MPat, MSort, Names, VarNo, fresh, is_pred, subst};
use std::alloc::{AllocError, Global};

const INT: MSort = MSort(3);

// Tokens are numbered in the order in which they come. A known token keeps its number.
#[test]
fn numbers_tokens(rt: HostRuntime) -> Result<(), AllocError> {
    let mut names = Names::new(rt.alloc());
    assert_eq!(rt; names.number("s:SortInt")?, 0);
    assert_eq!(rt; names.number("f:foo")?, 1);
    assert_eq!(rt; names.number("s:SortInt")?, 0);
    assert!(rt; names.token(1) == Some("f:foo"));
    assert!(rt; names.token(2).is_none());
    Ok(())
}

/// `( \all x s ( \imp ( \app f x ) ( \next f ) ) )`.
fn quantified(alloc: Global, x: VarNo) -> Result<MPat, AllocError> {
    let symbol = MPat::constant(alloc, ConstNo(7))?;
    let end = MPat::next(alloc, &symbol)?;
    let applied = MPat::app(alloc, &symbol, &MPat::var(alloc, x)?)?;
    let body = MPat::imp(alloc, &applied, &end)?;
    MPat::all(alloc, x, INT, &body)
}

// The pattern of one variable differs from that of another, and is the same as its shared copy.
#[test]
fn compares_patterns(rt: HostRuntime) {
    let first = quantified(rt.alloc(), VarNo(0)).expect(&rt, "memory");
    let second = quantified(rt.alloc(), VarNo(1)).expect(&rt, "memory");
    let shared = first.share().expect(&rt, "memory");
    assert!(rt; first.same(&shared));
    assert!(rt; !first.same(&second));
}

#[test]
fn makes_each_form(rt: HostRuntime) -> Result<(), AllocError> {
    let alloc = rt.alloc();
    let p = MPat::meta(alloc, 0)?;
    let q = MPat::top(alloc)?;
    assert!(rt; matches!(MPat::bot(alloc)?.form(), MForm::Bot));
    assert!(rt; matches!(MPat::not(alloc, &p)?.form(), MForm::Not(_)));
    assert!(rt; matches!(MPat::and(alloc, &p, &q)?.form(), MForm::And(..)));
    assert!(rt; matches!(MPat::or(alloc, &p, &q)?.form(), MForm::Or(..)));
    assert!(rt; matches!(MPat::equal(alloc, &p, &q)?.form(), MForm::Equal(..)));
    assert!(rt; matches!(MPat::member(alloc, &p, &q)?.form(), MForm::Member(..)));
    assert!(rt; matches!(MPat::fun(alloc, &p, INT)?.form(), MForm::Fun(..)));
    assert!(rt; matches!(MPat::ex(alloc, VarNo(0), INT, &p)?.form(), MForm::Ex(..)));
    assert!(rt; matches!(MPat::at(alloc, &p, INT)?.form(), MForm::At(..)));
    assert!(rt; matches!(MPat::ev(alloc, &p)?.form(), MForm::Ev(_)));
    Ok(())
}

// A pattern that is 100,000 levels deep in its second parts is dropped without recursion: some levels
// have a later part that is deep too, some have one part.
#[test]
fn drops_patterns_that_are_deep_elsewhere(rt: HostRuntime) {
    let alloc = rt.alloc();
    let mut deep = MPat::constant(alloc, ConstNo(1)).expect(&rt, "memory");
    for _ in 0..50_000 {
        deep = MPat::imp(alloc, &deep, &deep).expect(&rt, "memory");
        deep = MPat::not(alloc, &deep).expect(&rt, "memory");
    }
    let other = MPat::top(alloc).expect(&rt, "memory");
    for _ in 0..50_000 {
        deep = MPat::and(alloc, &other, &deep).expect(&rt, "memory");
    }
    assert!(rt; matches!(deep.form(), MForm::And(..)));
}

// A pattern that is 100,000 applications deep is compared and dropped in a loop.
#[test]
fn compares_and_drops_deep_patterns(rt: HostRuntime) {
    let alloc = rt.alloc();
    let argument = MPat::constant(alloc, ConstNo(1)).expect(&rt, "memory");
    let mut deep = MPat::constant(alloc, ConstNo(0)).expect(&rt, "memory");
    for _ in 0..100_000 {
        deep = MPat::app(alloc, &deep, &argument).expect(&rt, "memory");
    }
    let shared = deep.share().expect(&rt, "memory");
    assert!(rt; deep.same(&shared));
}

// `f x` with g substituted for x. Where x is bound it is not replaced.
#[test]
fn substitutes_free_variables(rt: HostRuntime) {
    let alloc = rt.alloc();
    let symbol = MPat::constant(alloc, ConstNo(7)).expect(&rt, "memory");
    let by = MPat::constant(alloc, ConstNo(8)).expect(&rt, "memory");
    let variable = MPat::var(alloc, VarNo(0)).expect(&rt, "memory");
    let free = MPat::app(alloc, &symbol, &variable).expect(&rt, "memory");
    let wanted = MPat::app(alloc, &symbol, &by).expect(&rt, "memory");
    let replaced = subst(alloc, &free, VarNo(0), &by).expect(&rt, "memory");
    assert!(rt; replaced.is_some_and(|made| made.same(&wanted)));
    let bound = MPat::ex(alloc, VarNo(0), INT, &free).expect(&rt, "memory");
    let kept = subst(alloc, &bound, VarNo(0), &by).expect(&rt, "memory");
    assert!(rt; kept.is_some_and(|made| made.same(&bound)));
}

// A variable that is substituted under its own quantifier would be captured.
#[test]
fn refuses_capture(rt: HostRuntime) {
    let alloc = rt.alloc();
    let x = MPat::var(alloc, VarNo(0)).expect(&rt, "memory");
    let y = MPat::var(alloc, VarNo(1)).expect(&rt, "memory");
    let equal = MPat::equal(alloc, &x, &y).expect(&rt, "memory");
    let some = MPat::ex(alloc, VarNo(1), INT, &equal).expect(&rt, "memory");
    assert!(rt; matches!(subst(alloc, &some, VarNo(0), &y), Ok(None)));
    assert!(rt; fresh(VarNo(1), &some) && !fresh(VarNo(0), &some));
    assert!(rt; is_pred(&some) && !is_pred(&y));
}

// The lowest first part of a pattern that is 100,000 applications deep is replaced in a loop.
#[test]
fn substitutes_in_deep_patterns(rt: HostRuntime) {
    let alloc = rt.alloc();
    let argument = MPat::constant(alloc, ConstNo(1)).expect(&rt, "memory");
    let mut deep = MPat::var(alloc, VarNo(0)).expect(&rt, "memory");
    for _ in 0..100_000 {
        deep = MPat::app(alloc, &deep, &argument).expect(&rt, "memory");
    }
    assert!(rt; !fresh(VarNo(0), &deep));
    let made = subst(alloc, &deep, VarNo(0), &argument).expect(&rt, "memory");
    assert!(rt; made.is_some_and(|made| fresh(VarNo(0), &made)));
}
