// Worked examples, and one successful call of each function that allocates.
ghost use Rattle.std.specs.Prelude.{◌≡◌, ◌<◌, IfOk};
ghost use Rattle.rule_core.specs.RuleVariables.{MatchesByOwnVariables};

use rule_core::{
    Rule, Signature, SortInfo, SortKind, SortRef, Subsorts, SymInfo, SymKind, Table, TextHasher,
    VarInfo, find_match_all, first_match,
};
use std::alloc::{AllocError, Global};
use std::hash::Hasher;
use std::marker::Brand;
use std::sync::ledger::{Blank, Ledger};
use term_core::{MAX_HEIGHT, RulePat, SortId, Steps, SymId, Term, Value};

const INT: SortId = SortId(0);

// The names come in an order that is not alphabetical. One name comes twice, and one is empty.
#[test]
fn numbers_names_as_they_come(rt: HostRuntime) -> Result<(), AllocError> {
    let alloc = rt.alloc();
    let mut table = Table::new(alloc);
    assert!(rt; table.is_empty());
    for (name, value, is_new) in [
        ("two", 20, true),
        ("one", 10, true),
        ("two", 30, false),
        ("", 5, true),
    ] {
        let added = table.insert(String::from_str(alloc, name)?, value)?;
        assert_eq!(rt; added, is_new, "{name} with {value}");
    }
    assert!(rt; !table.is_empty());
    assert_eq!(rt; table.len(), 3);
    for (name, number) in [
        ("two", Some(0)),
        ("one", Some(1)),
        ("", Some(2)),
        ("tw", None),
    ] {
        assert_eq!(rt; table.number(name), number, "{name}");
    }
    for (number, name, value) in [(0, "two", 20), (1, "one", 10), (2, "", 5)] {
        assert_eq!(rt; table.name(number), Some(name), "at {number}");
        assert_eq!(rt; table.value(number).copied(), Some(value), "at {number}");
    }
    assert!(rt; table.name(3).is_none());
    assert!(rt; table.value(3).is_none());
    Ok(())
}

// The rule that rewrites one number to another.
fn number_rule(alloc: Global, at: u32, left: i128, right: i128) -> Rule
    ensures { MatchesByOwnVariables result }
{
    Rule {
        at,
        left: RulePat::Value(INT, Value::Int(left)),
        named: Vec::new(alloc),
        cond: None,
        right: RulePat::Value(INT, Value::Int(right)),
        vars: Vec::new(alloc),
        priority: 50,
    }
}

// The rules 5 => 6 and 5 => 7 have the same left side. The earlier rule is found, or the later one
// if the trial starts after the earlier.
#[test]
fn finds_the_first_rule_from_a_place_on(rt: HostRuntime) -> Result<(), AllocError> {
    let alloc = rt.alloc();
    let rules = vec![in alloc; number_rule(alloc, 0, 5, 6), number_rule(alloc, 9, 5, 7)]?;
    let subsorts = Subsorts::new(alloc);
    let five = Term::value(alloc, INT, Value::Int(5))?;
    for (from, place) in [(0, Some(0)), (1, Some(1)), (2, None), (3, None)] {
        let found = first_match(alloc, &rules, &subsorts, from, &five)?;
        if let Some((_, subst)) = &found {
            assert_eq!(rt; subst.vars(), 0, "from {from}");
        }
        assert_eq!(rt; found.map(|hit| hit.0), place, "from {from}");
    }
    // A right side matches nothing.
    let six = Term::value(alloc, INT, Value::Int(6))?;
    assert!(rt; first_match(alloc, &rules, &subsorts, 0, &six)?.is_none());
    Ok(())
}

const EXP: SortId = SortId(1);

const KITEM: SortId = SortId(2);

const PAIR: SymId = SymId(0);

// The rule `pair(inj{Exp,KItem}(X), inj{Exp,KItem}(X)) => X`.
fn same_pair_rule(alloc: Global) -> Result<Rule, AllocError>
    ensures { IfOk result MatchesByOwnVariables }
{
    let first = RulePat::Inj(EXP, KITEM, Box::new(alloc, RulePat::Var(0))?);
    let second = RulePat::Inj(EXP, KITEM, Box::new(alloc, RulePat::Var(0))?);
    let variable = VarInfo {
        name: String::from_str(alloc, "X")?,
        sort: EXP,
    };
    Ok(Rule {
        at: 0,
        left: RulePat::Ctor(PAIR, vec![in alloc; first, second]?),
        named: Vec::new(alloc),
        cond: None,
        right: RulePat::Var(0),
        vars: vec![in alloc; variable]?,
        priority: 50,
    })
}

// `pair(inj{Exp,KItem}(a), inj{Exp,KItem}(b))`, for two values.
fn pair_of(alloc: Global, a: i128, b: i128) -> Result<Option<Term>, AllocError> {
    let mut args = Vec::with_capacity(alloc, 2)?;
    for n in [a, b] {
        let value = Term::value(alloc, EXP, Value::Int(n))?;
        if value.height_injected() > MAX_HEIGHT {
            return Ok(None);
        }
        args.push(Term::inj(alloc, EXP, KITEM, &value)?)?;
    }
    if Term::highest(&args) >= MAX_HEIGHT {
        return Ok(None);
    }
    Term::ctor(alloc, PAIR, args).map(Some)
}

// A variable that occurs twice matches the same term twice, and not two different terms.
#[test]
fn matches_a_repeated_variable(rt: HostRuntime) -> Result<(), AllocError> {
    let alloc = rt.alloc();
    let rules = vec![in alloc; same_pair_rule(alloc)?]?;
    let subsorts = Subsorts::new(alloc);
    for (a, b, matches) in [(1, 1, true), (1, 2, false)] {
        let Some(pair) = pair_of(alloc, a, b)? else {
            panic!(rt; "too high");
        };
        let found = first_match(alloc, &rules, &subsorts, 0, &pair)?;
        assert_eq!(rt; found.is_some(), matches, "{a} and {b}");
        if let Some((place, subst)) = found {
            assert_eq!(rt; place, 0);
            let value = Term::value(alloc, EXP, Value::Int(a))?;
            assert!(rt; subst.get(0).is_some_and(|bound| bound.same(&value)));
        }
    }
    Ok(())
}

// The rule `inj{Exp,KItem}(X) => X`.
fn injection_rule(alloc: Global) -> Result<Rule, AllocError>
    ensures { IfOk result MatchesByOwnVariables }
{
    let variable = VarInfo {
        name: String::from_str(alloc, "X")?,
        sort: EXP,
    };
    Ok(Rule {
        at: 0,
        left: RulePat::Inj(EXP, KITEM, Box::new(alloc, RulePat::Var(0))?),
        named: Vec::new(alloc),
        cond: None,
        right: RulePat::Var(0),
        vars: vec![in alloc; variable]?,
        priority: 50,
    })
}

// If Int is below Exp, `inj{Exp,KItem}(X)` matches `inj{Int,KItem}(5)`, with `inj{Int,Exp}(5)` for
// X. Otherwise it does not.
#[test]
fn matches_an_injection_of_a_lower_sort(rt: HostRuntime) -> Result<(), AllocError> {
    let alloc = rt.alloc();
    let rules = vec![in alloc; injection_rule(alloc)?]?;
    let five = Term::value(alloc, INT, Value::Int(5))?;
    assert!(rt; five.height_injected() <= MAX_HEIGHT);
    let term = Term::inj(alloc, INT, KITEM, &five)?;
    let mut subsorts = Subsorts::new(alloc);
    assert!(rt; first_match(alloc, &rules, &subsorts, 0, &term)?.is_none());
    assert!(rt; subsorts.add(alloc, INT, EXP)?);
    let Some((place, subst)) = first_match(alloc, &rules, &subsorts, 0, &term)? else {
        panic!(rt; "none");
    };
    assert_eq!(rt; place, 0);
    assert!(rt;
        subst
            .get(0)
            .is_some_and(|bound| bound.same_inj(INT, EXP, &five))
    );
    Ok(())
}

// The arguments `X, 5` match the terms 7 and 5, with 7 for X.
fn matches_arguments<L: Ledger>(alloc: Global, blank: Blank) -> Result<bool, AllocError>
    requires name { blank.name ≡ L.name }
    requires parts { blank.parts ≡ L.parts }
    requires some { 0 < L.parts }
{
    let mut steps = Steps::<L>::new(blank);
    let pats = vec![in alloc; RulePat::Var(0), RulePat::Value(INT, Value::Int(5))]?;
    let seven = Term::value(alloc, INT, Value::Int(7))?;
    let terms = vec![in alloc; seven.share()?, Term::value(alloc, INT, Value::Int(5))?]?;
    let subsorts = Subsorts::new(alloc);
    let found = find_match_all(alloc, &pats, 1, &subsorts, &terms, &mut steps)?;
    Ok(match found {
        Some(subst) => match subst.get(0) {
            Some(bound) => bound.same(&seven),
            None => false,
        },
        None => false,
    })
}

#[test]
fn matches_the_arguments_of_a_function(rt: HostRuntime) -> Result<(), AllocError> {
    let alloc = rt.alloc();
    assert!(rt; matches_arguments::<Brand>(alloc, Blank::new(1))?);
    Ok(())
}

// The sort Int with the hook INT.Int, and the sort Exp.
fn two_sorts(alloc: Global) -> Result<Table<SortInfo>, AllocError> {
    let mut sorts = Table::new(alloc);
    for (name, kind) in [("Int", SortKind::Int), ("Exp", SortKind::Other)] {
        sorts.insert(String::from_str(alloc, name)?, SortInfo { kind })?;
    }
    Ok(sorts)
}

// The constructor `num(Int) : Exp`.
fn one_symbol(alloc: Global) -> Result<Table<SymInfo>, AllocError> {
    let name = String::from_str(alloc, "num")?;
    let num = SymInfo {
        kind: SymKind::Ctor,
        params: 0,
        args: vec![in alloc; SortRef::Sort(INT)]?,
        result: SortRef::Sort(EXP),
        hook: None,
        ac: false,
    };
    let mut symbols = Table::new(alloc);
    symbols.insert(name, num)?;
    Ok(symbols)
}

// The signature of `hooked-sort Int` with the hook INT.Int, `sort Exp` and the constructor
// `num(Int) : Exp`.
fn small_signature(alloc: Global) -> Result<Signature, AllocError> {
    let sorts = two_sorts(alloc)?;
    let symbols = one_symbol(alloc)?;
    Ok(Signature {
        sorts,
        symbols,
        subsorts: Subsorts::new(alloc),
    })
}

// A table hashes its names by the whole text that they come from.
#[test]
fn hashes_names_by_their_text(rt: HostRuntime) {
    let alloc = rt.alloc();
    let hasher = TextHasher::of_text(b"sort S{} []");
    let of_text: Table<u32> = Table::hashed_by(alloc, hasher);
    assert_eq!(rt; of_text.hasher().start.finish(), hasher.start.finish());
    let of_none: Table<u32> = Table::new(alloc);
    let without = TextHasher::without_text();
    assert_eq!(rt; of_none.hasher().start.finish(), without.start.finish());
    assert!(rt; hasher.start.finish() != without.start.finish());
}

// Sorts and symbols are numbered separately, and the sorts of a symbol are given by their numbers.
#[test]
fn makes_a_signature(rt: HostRuntime) {
    let sig = small_signature(rt.alloc()).expect(&rt, "memory");
    assert_eq!(rt; sig.sorts.number("Exp"), Some(1));
    assert_eq!(rt; sig.symbols.number("Exp"), None);
    assert_eq!(rt; sig.symbols.number("num"), Some(0));
    let num = sig.symbols.value(0).expect(&rt, "num");
    assert_eq!(rt; num.kind, SymKind::Ctor);
    assert_eq!(rt; num.args.as_slice(), [SortRef::Sort(SortId(0))].as_slice());
    assert_eq!(rt; num.result, SortRef::Sort(SortId(1)));
    assert_eq!(rt;
        sig.sorts.value(0).map(|sort| sort.kind),
        Some(SortKind::Int)
    );
}

// Declares a commutative symbol of this kind, without arguments.
fn add_commutative(
    alloc: Global,
    sig: &mut Signature,
    name: &str,
    kind: SymKind,
) -> Result<(), AllocError> {
    let name = String::from_str(alloc, name)?;
    let symbol = SymInfo {
        kind,
        params: 0,
        args: Vec::new(alloc),
        result: SortRef::Sort(EXP),
        hook: None,
        ac: true,
    };
    sig.symbols.insert(name, symbol)?;
    Ok(())
}

// A function may be commutative, but a constructor may not.
#[test]
fn looks_for_constructors_that_are_commutative(rt: HostRuntime) {
    let alloc = rt.alloc();
    let mut sig = small_signature(alloc).expect(&rt, "memory");
    for (name, kind, ac_free) in [
        ("sum", SymKind::Closed, true),
        ("bag", SymKind::Ctor, false),
        ("list", SymKind::Injection, false),
    ] {
        assert!(rt; add_commutative(alloc, &mut sig, name, kind).is_ok());
        assert_eq!(rt; sig.ac_free(), ac_free, "with {name}");
    }
}

// The ends of a chain are in order without a pair of their own, and no pair closes a cycle.
#[test]
fn sorts_stand_in_chains(rt: HostRuntime) {
    let alloc = rt.alloc();
    let (low, middle, high) = (SortId(4), SortId(70), SortId(0));
    let mut subsorts = Subsorts::new(alloc);
    assert!(rt; matches!(subsorts.add(alloc, middle, high), Ok(true)));
    assert!(rt; matches!(subsorts.add(alloc, low, middle), Ok(true)));
    assert!(rt; subsorts.below(low, high));
    assert!(rt; !subsorts.below(high, low));
    assert!(rt; !subsorts.pair(low, high));
    assert!(rt; matches!(subsorts.add(alloc, high, low), Ok(false)));
    assert!(rt; matches!(subsorts.add(alloc, low, low), Ok(false)));
    assert!(rt; subsorts.pair(low, middle));
    let path = subsorts.path(alloc, low, high).expect(&rt, "memory");
    assert!(rt; path.is_some_and(|path| path.as_slice() == [low, middle, high].as_slice()));
    let step = subsorts.path(alloc, low, middle).expect(&rt, "memory");
    assert!(rt; step.is_some_and(|step| step.as_slice() == [low, middle].as_slice()));
    assert!(rt; matches!(subsorts.path(alloc, high, low), Ok(None)));
    assert!(rt; matches!(subsorts.path(alloc, low, low), Ok(None)));
}
