// Worked examples, and one successful call of each function that allocates.
ghost use Rattle.std.specs.Prelude.{◌≡◌, ◌<◌};

use std::alloc::{AllocError, Global};
use std::marker::Brand;
use std::rc::RcStr;
use std::sync::ledger::{Blank, Ledger};
use term_core::{
    MAX_HEIGHT, RulePat, SortId, Steps, Subst, SymId, Term, Value, View, fits_within, instance,
    is_instance, pattern_of,
};

const KITEM: SortId = SortId(0);

const EXP: SortId = SortId(1);

const INT: SortId = SortId(2);

const PAIR: SymId = SymId(7);

fn number(alloc: Global, n: i128) -> Result<Term, AllocError> {
    Term::value(alloc, INT, Value::Int(n))
}

// inj{Exp,KItem}(inj{Int,Exp}(5)) is inj{Int,KItem}(5), of height 2.
#[test]
fn joins_injections(rt: HostRuntime) -> Result<(), AllocError> {
    let alloc = rt.alloc();
    let five = number(alloc, 5)?;
    assert!(rt; five.height_injected() <= MAX_HEIGHT);
    let inner = Term::inj(alloc, INT, EXP, &five)?;
    assert!(rt; inner.height_injected() <= MAX_HEIGHT);
    let outer = Term::inj(alloc, EXP, KITEM, &inner)?;
    assert_eq!(rt; outer.height(), 2);
    assert!(rt; outer.same_inj(INT, KITEM, &five));
    assert!(rt; !outer.same(&inner));
    Ok(())
}

// A shared term is equal to its source, including its text. It differs from a term with another
// text.
#[test]
fn shares_terms(rt: HostRuntime) -> Result<(), AllocError> {
    let alloc = rt.alloc();
    let words = Term::value(alloc, EXP, Value::Text(RcStr::from_str(alloc, "a\"b")?))?;
    let others = Term::value(alloc, EXP, Value::Text(RcStr::from_str(alloc, "a\"c")?))?;
    let args = vec![in alloc; words.share()?, number(alloc, 1)?]?;
    assert!(rt; Term::highest(&args) < MAX_HEIGHT);
    let pair = Term::ctor(alloc, PAIR, args)?;
    assert_eq!(rt; pair.height(), 2);
    assert!(rt; pair.share()?.same(&pair));
    assert!(rt; !words.same(&others));
    let copied = Value::Bool(true).share()?;
    assert!(rt; copied.same(&Value::Bool(true)));
    Ok(())
}

// The pattern pair(X, inj{Exp,KItem}(Y)).
fn pair_pattern(alloc: Global) -> Result<RulePat, AllocError> {
    let below = Box::new(alloc, RulePat::Var(1))?;
    let args = vec![in alloc; RulePat::Var(0), RulePat::Inj(EXP, KITEM, below)]?;
    Ok(RulePat::Ctor(PAIR, args))
}

// With 5 for X and `inj{Int,Exp}(5)` for Y, that pattern becomes `pair(5, inj{Int,KItem}(5))`. The
// pattern of this term stands only for this term.
#[test]
fn makes_instances(rt: HostRuntime) -> Result<(), AllocError> {
    let alloc = rt.alloc();
    let five = number(alloc, 5)?;
    assert!(rt; five.height_injected() <= MAX_HEIGHT);
    let injected = Term::inj(alloc, INT, EXP, &five)?;
    let mut subst = Subst::new(alloc, 2)?;
    assert_eq!(rt; subst.vars(), 2);
    subst.bind(0, five.share()?);
    assert!(rt; subst.get(1).is_none());
    let pat = pair_pattern(alloc)?;
    assert!(rt; !fits_within(&pat, &subst, MAX_HEIGHT));
    subst.bind(1, injected);
    assert!(rt; !fits_within(&pat, &subst, 2));
    assert!(rt; fits_within(&pat, &subst, MAX_HEIGHT));
    let made = instance(alloc, &pat, &subst)?;
    assert_eq!(rt; made.height(), 3);
    let own = pattern_of(alloc, &made)?;
    assert!(rt; stands_for(&own, &made));
    assert!(rt; !stands_for(&own, &five));
    assert!(rt; !stands_for(&pat, &made));
    Ok(())
}

fn stands_for(pat: &RulePat, term: &Term) -> bool {
    counted::<Brand>(pat, term, Blank::new(1))
}

fn counted<L: Ledger>(pat: &RulePat, term: &Term, blank: Blank) -> bool
    requires name { blank.name ≡ L.name }
    requires parts { blank.parts ≡ L.parts }
    requires some { 0 < L.parts }
{
    let mut steps = Steps::<L>::new(blank);
    is_instance(pat, term, &mut steps) && matches!(term.view(&mut steps), View::Ctor(..))
}
