// Worked examples, and one successful call of each public function that allocates.
ghost use Rattle.std.specs.Prelude.{◌≡◌, ◌≤◌, [], ◌∷◌, length, IfOk, IfSome, IsSome};
ghost use Rattle.term_core.specs.Patterns.{application, call, no_pattern, more_patterns};
ghost use Rattle.term_core.specs.RulePatterns.{plain_pattern};
ghost use Rattle.ml_image.specs.Images.{injection_symbol};

use ml_image::{inj_collapse, inj_total, injection_symbol, term_image};
use ml_pat::{ConstNo, MPat, MSort, Names, VarNo};
use rule_core::{Signature, SortInfo, SortKind, SortRef, Subsorts, SymInfo, SymKind, Table};
use std::alloc::{AllocError, Global};
use term_core::{RulePat, SortId, SymId};

const S: SortId = SortId(0);

const F: SymId = SymId(0);

const A: SymId = SymId(1);

const B: SymId = SymId(2);

// A constructor without arguments.
pub(crate) fn alone(alloc: Global, symbol: SymId) -> RulePat
    ensures { plain_pattern result ≡ application symbol.0 no_pattern }
{
    RulePat::Ctor(symbol, Vec::new(alloc))
}

// f(a, b).
pub(crate) fn pair(alloc: Global) -> Result<RulePat, AllocError>
    ensures { IfOk result (λ p. plain_pattern p ≡ application 0
        (more_patterns (application 1 no_pattern)
        (more_patterns (application 2 no_pattern) no_pattern))) }
{
    let args = vec![in alloc; alone(alloc, A), alone(alloc, B)]?;
    Ok(RulePat::Ctor(F, args))
}

// f{S}(a).
pub(crate) fn called(alloc: Global) -> Result<RulePat, AllocError>
    ensures { IfOk result (λ p. plain_pattern p ≡ call 0 (0 ∷ [])
        (more_patterns (application 1 no_pattern) no_pattern)) }
{
    let sorts = vec![in alloc; S]?;
    let args = vec![in alloc; alone(alloc, A)]?;
    Ok(RulePat::Call(F, sorts, args))
}

// The constructors f, a and b of the sort S, and the injection symbol.
pub(crate) fn symbols(alloc: Global) -> Result<Table<SymInfo>, AllocError> {
    let mut symbols = Table::new(alloc);
    for (name, count, kind) in [
        ("f", 2, SymKind::Ctor),
        ("a", 0, SymKind::Ctor),
        ("b", 0, SymKind::Ctor),
        ("inj", 1, SymKind::Injection),
    ] {
        let mut args = Vec::new(alloc);
        for _ in 0..count {
            args.push(SortRef::Sort(S))?;
        }
        let info = SymInfo {
            kind,
            params: 0,
            args,
            result: SortRef::Sort(S),
            hook: None,
            ac: false,
        };
        symbols.insert(String::from_str(alloc, name)?, info)?;
    }
    Ok(symbols)
}

// The sorts S, T and U, and these symbols. S is directly below T, and T is directly below U.
pub(crate) fn small(alloc: Global) -> Result<Option<Signature>, AllocError>
    ensures sorts { IfOk result (λ found. IfSome found (λ sig. 3 ≤ length sig.sorts)) }
    ensures symbols { IfOk result (λ found. IfSome found (λ sig. 3 ≤ length sig.symbols)) }
    ensures injection { IfOk result (λ found. IfSome found (λ sig. IsSome (injection_symbol sig))) }
{
    let mut sorts = Table::new(alloc);
    for name in ["S", "T", "U"] {
        let info = SortInfo {
            kind: SortKind::Other,
        };
        sorts.insert(String::from_str(alloc, name)?, info)?;
    }
    let mut subsorts = Subsorts::new(alloc);
    subsorts.add(alloc, SortId(0), SortId(1))?;
    subsorts.add(alloc, SortId(1), SortId(2))?;
    let symbols = symbols(alloc)?;
    if sorts.len() < 3 || symbols.len() < 3 {
        return Ok(None);
    }
    let sig = Signature {
        sorts,
        symbols,
        subsorts,
    };
    if injection_symbol(&sig).is_none() {
        return Ok(None);
    }
    Ok(Some(sig))
}

fn constant(alloc: Global, number: u64) -> Result<MPat, AllocError> {
    MPat::constant(alloc, ConstNo(number))
}

// `( \app ( \app f:f f:a ) f:b )`, for the names f, a and b.
fn applied_twice(alloc: Global) -> Result<MPat, AllocError> {
    let applied = MPat::app(alloc, &constant(alloc, 0)?, &constant(alloc, 1)?)?;
    MPat::app(alloc, &applied, &constant(alloc, 2)?)
}

// `( \app ( \at f:f s:S ) f:a )`, for the names f, S and a.
fn applied_at_a_sort(alloc: Global) -> Result<MPat, AllocError> {
    let head = MPat::at(alloc, &constant(alloc, 0)?, MSort(1))?;
    MPat::app(alloc, &head, &constant(alloc, 2)?)
}

// `( \all x:0 s:S ( \ex x:1 s:T ( \eq x:1 ( \app ( \at ( \at f:inj s:S ) s:T ) x:0 ) ) ) )`, for
// the names inj, S and T.
fn injection_is_total(alloc: Global) -> Result<MPat, AllocError> {
    let from = MPat::at(alloc, &constant(alloc, 0)?, MSort(1))?;
    let injection = MPat::at(alloc, &from, MSort(2))?;
    let injected = MPat::app(alloc, &injection, &MPat::var(alloc, VarNo(0))?)?;
    let same = MPat::equal(alloc, &MPat::var(alloc, VarNo(1))?, &injected)?;
    let some = MPat::ex(alloc, VarNo(1), MSort(2), &same)?;
    MPat::all(alloc, VarNo(0), MSort(1), &some)
}

// The image of f(a, b), and the names in their order.
#[test]
fn makes_the_image_of_a_term(rt: HostRuntime) -> Result<(), AllocError> {
    let alloc = rt.alloc();
    let wanted = applied_twice(alloc)?;
    let Some(sig) = small(alloc)? else {
        panic!(rt; "a signature");
    };
    let mut names = Names::new(alloc);
    let image = term_image(alloc, &sig, &mut names, &pair(alloc)?)?;
    for (number, token) in [(0, "f:f"), (1, "f:a"), (2, "f:b")] {
        assert!(rt; names.token(number) == Some(token), "{token}");
    }
    assert!(rt; image.same(&wanted));
    Ok(())
}

// The image of f{S}(a).
#[test]
fn makes_the_image_of_a_call(rt: HostRuntime) -> Result<(), AllocError> {
    let alloc = rt.alloc();
    let wanted = applied_at_a_sort(alloc)?;
    let Some(sig) = small(alloc)? else {
        panic!(rt; "a signature");
    };
    let mut names = Names::new(alloc);
    let image = term_image(alloc, &sig, &mut names, &called(alloc)?)?;
    assert!(rt; image.same(&wanted));
    Ok(())
}

// S is directly below T.
#[test]
fn says_that_a_subsort_is_one(rt: HostRuntime) -> Result<(), AllocError> {
    let alloc = rt.alloc();
    let wanted = injection_is_total(alloc)?;
    let Some(sig) = small(alloc)? else {
        panic!(rt; "a signature");
    };
    let (lower, upper) = (SortId(0), SortId(1));
    if !sig.subsorts.pair(lower, upper) {
        panic!(rt; "a pair");
    }
    let mut names = Names::new(alloc);
    let image = inj_total(alloc, &sig, &mut names, lower, upper)?;
    for (number, token) in [(0, "f:inj"), (1, "s:S"), (2, "s:T")] {
        assert!(rt; names.token(number) == Some(token), "{token}");
    }
    assert!(rt; image.same(&wanted));
    Ok(())
}

// The injection from S to T followed by that from T to U is the injection from S to U.
#[test]
fn says_that_injections_collapse(rt: HostRuntime) -> Result<(), AllocError> {
    let alloc = rt.alloc();
    let Some(sig) = small(alloc)? else {
        panic!(rt; "a signature");
    };
    let (from, through, to) = (SortId(0), SortId(1), SortId(2));
    if !sig.subsorts.below(from, through) || !sig.subsorts.below(through, to) {
        panic!(rt; "a chain");
    }
    let mut names = Names::new(alloc);
    inj_collapse(alloc, &sig, &mut names, from, through, to)?;
    for (number, token) in [(0, "f:inj"), (1, "s:S"), (2, "s:T"), (3, "s:U")] {
        assert!(rt; names.token(number) == Some(token), "{token}");
    }
    Ok(())
}
