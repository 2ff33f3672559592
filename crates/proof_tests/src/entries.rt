// Worked examples, written by hand.
use ml_pat::{ConstNo, MPat, MSort, Names, VarNo};
use mm_proof::{Goal, ProofTable, TextPart, prove_goal, push_text};
use std::alloc::{AllocError, Global};

// The names of the sort S and the symbols a and f, with the numbers 0, 1 and 2.
pub(crate) fn three_names(alloc: Global) -> Result<Names, AllocError> {
    let mut names = Names::new(alloc);
    names.number("s:S")?;
    names.number("f:a")?;
    names.number("f:f")?;
    Ok(names)
}

// The text of a pattern, in the block of the statement 7.
pub(crate) fn text_of(alloc: Global, pat: &MPat) -> Result<Vec<u8>, AllocError> {
    let names = three_names(alloc)?;
    let mut text = Vec::new(alloc);
    push_text(&mut text, &names, 7, &[TextPart::Pattern(pat)])?;
    Ok(text)
}

// The compressed proof of `goal`, in the block of the statement 7, without mandatory labels.
pub(crate) fn proof_of(alloc: Global, goal: Goal<'_>) -> Result<Vec<u8>, AllocError> {
    let mut table = ProofTable::new(alloc);
    table.start(7);
    prove_goal(&mut table, goal)?;
    let mut text = Vec::new(alloc);
    table.push_proof(&mut text, &[])?;
    Ok(text)
}

// f applied to a.
fn f_of_a(alloc: Global) -> Result<MPat, AllocError> {
    let f = MPat::constant(alloc, ConstNo(2))?;
    let a = MPat::constant(alloc, ConstNo(1))?;
    MPat::app(alloc, &f, &a)
}

#[test]
fn writes_an_application(rt: HostRuntime) -> Result<(), AllocError> {
    let text = text_of(rt.alloc(), &f_of_a(rt.alloc())?)?;
    assert_eq!(rt; text.as_slice(), b"( \\app f:f f:a ) ".as_slice());
    Ok(())
}

#[test]
fn proves_the_syntax_of_an_application(rt: HostRuntime) -> Result<(), AllocError> {
    let text = proof_of(rt.alloc(), Goal::Syntax(&f_of_a(rt.alloc())?))?;
    assert_eq!(rt; text.as_slice(), b"( n.2 n.1 w.app ) ABC ".as_slice());
    Ok(())
}

#[test]
fn writes_a_quantifier(rt: HostRuntime) {
    let alloc = rt.alloc();
    let variable = MPat::var(alloc, VarNo(4)).expect(&rt, "memory");
    let here = MPat::fun(alloc, &variable, MSort(0)).expect(&rt, "memory");
    let each = MPat::all(alloc, VarNo(4), MSort(0), &here).expect(&rt, "memory");
    let text = text_of(alloc, &each).expect(&rt, "memory");
    assert_eq!(rt;
        text.as_slice(),
        b"( \\all x:4 s:S ( \\fun x:4 s:S ) ) ".as_slice()
    );
}

// `( \all x:4 s:S x:4 )`.
fn each_itself(alloc: Global) -> Result<MPat, AllocError> {
    let here = MPat::var(alloc, VarNo(4))?;
    MPat::all(alloc, VarNo(4), MSort(0), &here)
}

// The labels of variables have the number of their statement.
#[test]
fn proves_the_syntax_of_a_quantifier(rt: HostRuntime) -> Result<(), AllocError> {
    let text = proof_of(rt.alloc(), Goal::Syntax(&each_itself(rt.alloc())?))?;
    assert_eq!(rt;
        text.as_slice(),
        b"( x.7.4 w.var n.0 w.all ) ABACD ".as_slice()
    );
    Ok(())
}

// x is not free under its own quantifier.
#[test]
fn proves_that_a_bound_variable_is_not_free(rt: HostRuntime) -> Result<(), AllocError> {
    let text = proof_of(rt.alloc(), Goal::Fresh(VarNo(4), &each_itself(rt.alloc())?))?;
    assert_eq!(rt;
        text.as_slice(),
        b"( x.7.4 w.var n.0 fr.allb ) ABACD ".as_slice()
    );
    Ok(())
}

// a is substituted for x in `next x`.
#[test]
fn proves_a_substitution(rt: HostRuntime) {
    let alloc = rt.alloc();
    let a = MPat::constant(alloc, ConstNo(1)).expect(&rt, "memory");
    let x = MPat::var(alloc, VarNo(0)).expect(&rt, "memory");
    let pat = MPat::next(alloc, &x).expect(&rt, "memory");
    let made = MPat::next(alloc, &a).expect(&rt, "memory");
    let goal = Goal::Substituted(VarNo(0), &a, &pat, &made);
    let text = proof_of(alloc, goal).expect(&rt, "memory");
    assert_eq!(rt;
        text.as_slice(),
        b"( x.7.0 w.var n.1 su.v su.next ) ABCCACADE ".as_slice()
    );
}

// Returns how many bytes the proof has that `pat` with a substituted for x is `made`.
fn length(alloc: Global, pat: &MPat, made: &MPat) -> Result<usize, AllocError> {
    let a = MPat::constant(alloc, ConstNo(1))?;
    let text = proof_of(alloc, Goal::Substituted(VarNo(0), &a, pat, made))?;
    Ok(text.len())
}

// x occurs at one leaf of a configuration of 127 nodes. Each part next to the way there is left as
// it is in one step.
#[test]
fn substitutes_at_one_leaf(rt: HostRuntime) {
    let alloc = rt.alloc();
    let mut made = MPat::constant(alloc, ConstNo(1)).expect(&rt, "memory");
    let mut pat = MPat::var(alloc, VarNo(0)).expect(&rt, "memory");
    let mut beside = made.share().expect(&rt, "memory");
    for _ in 0..6 {
        pat = MPat::app(alloc, &pat, &beside).expect(&rt, "memory");
        made = MPat::app(alloc, &made, &beside).expect(&rt, "memory");
        beside = MPat::app(alloc, &beside, &beside).expect(&rt, "memory");
    }
    assert!(rt; matches!(length(alloc, &pat, &made), Ok(167)));
}

// x is at the end of a list of 100 items.
#[test]
fn substitutes_at_the_end_of_a_list(rt: HostRuntime) {
    let alloc = rt.alloc();
    let mut made = MPat::constant(alloc, ConstNo(1)).expect(&rt, "memory");
    let mut pat = MPat::var(alloc, VarNo(0)).expect(&rt, "memory");
    let item = f_of_a(alloc).expect(&rt, "memory");
    for _ in 0..100 {
        pat = MPat::app(alloc, &item, &pat).expect(&rt, "memory");
        made = MPat::app(alloc, &item, &made).expect(&rt, "memory");
    }
    assert!(rt; matches!(length(alloc, &pat, &made), Ok(1932)));
}

// x does not occur in one part, and is bound in the other.
#[test]
fn proves_freshness_of_a_part_in_one_step(rt: HostRuntime) {
    let alloc = rt.alloc();
    let a = MPat::constant(alloc, ConstNo(1)).expect(&rt, "memory");
    let next = MPat::next(alloc, &a).expect(&rt, "memory");
    let bound = MPat::all(alloc, VarNo(4), MSort(0), &a).expect(&rt, "memory");
    let pat = MPat::imp(alloc, &next, &bound).expect(&rt, "memory");
    let text = proof_of(alloc, Goal::Fresh(VarNo(4), &pat)).expect(&rt, "memory");
    assert_eq!(rt;
        text.as_slice(),
        b"( n.1 w.next x.7.4 n.0 w.all fr.d fr.allb fr.imp ) ABZACDECICFACDGH ".as_slice()
    );
}

// The pattern a with `next` before it that many times.
fn nested(alloc: Global, times: usize) -> Result<MPat, AllocError> {
    let mut pat = MPat::constant(alloc, ConstNo(1))?;
    for _ in 0..times {
        pat = MPat::next(alloc, &pat)?;
    }
    Ok(pat)
}

// The same pattern of 1,001 forms, made twice, is on both sides. Its proof is saved and repeated.
#[test]
fn repeats_the_proof_of_a_large_pattern(rt: HostRuntime) -> Result<(), AllocError> {
    let alloc = rt.alloc();
    let both = MPat::app(alloc, &nested(alloc, 1000)?, &nested(alloc, 1000)?)?;
    let text = proof_of(alloc, Goal::Syntax(&both))?;
    let mut wanted = Vec::new(alloc);
    wanted.extend_from_slice(b"( n.1 w.next w.app ) A")?;
    for _ in 0..1000 {
        wanted.push(b'B')?;
    }
    wanted.extend_from_slice(b"ZDC ")?;
    assert_eq!(rt; text.as_slice(), wanted.as_slice());
    Ok(())
}

// A part that was proved before is repeated between parts that are new.
#[test]
fn repeats_the_proof_of_a_part(rt: HostRuntime) -> Result<(), AllocError> {
    let alloc = rt.alloc();
    let part = nested(alloc, 2)?;
    let first = MPat::app(alloc, &part, &MPat::constant(alloc, ConstNo(2))?)?;
    let second = MPat::app(alloc, &nested(alloc, 2)?, &nested(alloc, 3)?)?;
    let text = proof_of(alloc, Goal::Syntax(&MPat::imp(alloc, &first, &second)?))?;
    assert_eq!(rt;
        text.as_slice(),
        b"( n.1 w.next n.2 w.app w.imp ) ABBZCDFFBDE ".as_slice()
    );
    Ok(())
}
