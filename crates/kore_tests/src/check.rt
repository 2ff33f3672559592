// Patterns over a small definition, each with the fault that is expected of it.
ghost use Rattle.std.specs.Prelude.{IfOk};
ghost use Rattle.rule_core.specs.WellSorted.{IsSignature};
ghost use Rattle.kore_sig.specs.Numbered.{IsNumbered};

use kore_ast::{read_definition, read_pattern};
use kore_check::note_pattern;
use kore_sig::signature;
use rule_core::{Signature, TextHasher};
use std::alloc::Global;
use std::process::Abort;
use std::test::Fail;

const DEFINITION: &str = r#"[]
module M
  hooked-sort Int{} [hook{}("INT.Int")]
  hooked-sort Bool{} [hook{}("BOOL.Bool")]
  sort Exp{} []
  sort List{} []
  symbol inj{From,To}(From) : To [sortInjection{}()]
  symbol a{}() : Exp{} [constructor{}()]
  symbol pair{}(Exp{},Exp{}) : Exp{} [constructor{}()]
  symbol nil{}() : List{} [constructor{}()]
  symbol cons{}(Exp{},List{}) : List{} [constructor{}()]
  symbol plus{}(Int{},Int{}) : Int{} [function{}()]
  symbol none{}() : Exp{} []
  axiom{} \top{Exp{}}() [subsort{Int{},Exp{}}()]
endmodule []
"#;

// The signature of the definition.
pub(crate) fn small_signature(rt: &impl Abort, alloc: Global) -> Result<Signature, Fail>
    ensures numbered { IfOk result IsNumbered }
    ensures signature { IfOk result IsSignature }
{
    let bytes = DEFINITION.as_bytes();
    assert!(rt; bytes.len() < 10_000);
    let definition = read_definition(alloc, bytes)?;
    let sig = signature(alloc, TextHasher::without_text(), &definition)?;
    Ok(sig)
}

// The number and the byte of the first fault of a pattern's text.
fn first_fault(alloc: Global, sig: &Signature, text: &str) -> Result<Option<(u8, u32)>, Fail>
    requires { IsNumbered sig.now }
{
    if text.len() >= 10_000 {
        return Err(Fail::from("long"));
    }
    let pat = read_pattern(alloc, text.as_bytes())?;
    let mut first = None;
    note_pattern(sig, &pat, &mut first);
    Ok(first.map(|fault| (fault.kind.number(), fault.at)))
}

// Each pattern has the fault with this number at this byte.
fn expect_faults(
    rt: &impl Abort,
    alloc: Global,
    rows: &[(&str, Option<(u8, u32)>)],
) -> Result<(), Fail> {
    let sig = small_signature(rt, alloc)?;
    for (text, expected) in rows {
        assert!(rt; first_fault(alloc, &sig, text)? == *expected, "{text}");
    }
    Ok(())
}

/// Patterns without a fault.
static FAULTLESS: [(&str, Option<(u8, u32)>); 11] = [
    ("a{}()", None),
    ("X:Exp{}", None),
    ("pair{}(a{}(),X:Exp{})", None),
    (r#"inj{Int{},Exp{}}(\dv{Int{}}("1"))"#, None),
    (r#"\dv{Exp{}}(" any \"text\" ")"#, None),
    (r#"\dv{Bool{}}("true")"#, None),
    (r#"\dv{Int{}}("007")"#, None),
    (r#"\dv{Int{}}("-0")"#, None),
    (r#"\dv{Int{}}("+7")"#, None),
    (
        r#"\dv{Int{}}("170141183460469231731687303715884105727")"#,
        None,
    ),
    (
        r#"\dv{Int{}}("-170141183460469231731687303715884105728")"#,
        None,
    ),
];

#[test]
fn finds_no_fault(rt: HostRuntime) -> Result<(), Fail> {
    expect_faults(&rt, rt.alloc(), &FAULTLESS)
}

/// Patterns with a name that is not declared.
static UNKNOWN_NAMES: [(&str, Option<(u8, u32)>); 7] = [
    ("X:Foo{}", Some((6, 2))),
    ("X:S", Some((6, 2))),
    ("X:Exp{Int{}}", Some((6, 2))),
    (r#"\dv{Foo{}}("1")"#, Some((6, 4))),
    ("inj{Foo{},Exp{}}(a{}())", Some((6, 4))),
    ("b{}()", Some((7, 0))),
    ("none{}()", Some((25, 0))),
];

#[test]
fn finds_unknown_names(rt: HostRuntime) -> Result<(), Fail> {
    expect_faults(&rt, rt.alloc(), &UNKNOWN_NAMES)
}

/// Patterns with another number or another sort than is declared.
static OTHER_NUMBERS_AND_SORTS: [(&str, Option<(u8, u32)>); 9] = [
    ("a{}(a{}())", Some((8, 0))),
    ("a{Exp{}}()", Some((8, 0))),
    ("pair{}(a{}())", Some((8, 0))),
    ("inj{Int{}}(a{}())", Some((8, 0))),
    (r#"pair{}(a{}(),\dv{Int{}}("1"))"#, Some((9, 13))),
    ("pair{}(nil{}(),a{}())", Some((9, 7))),
    ("inj{Exp{},Exp{}}(a{}())", Some((9, 0))),
    ("inj{Exp{},Int{}}(a{}())", Some((9, 0))),
    ("inj{Int{},Exp{}}(a{}())", Some((9, 17))),
];

#[test]
fn finds_other_numbers_and_sorts(rt: HostRuntime) -> Result<(), Fail> {
    expect_faults(&rt, rt.alloc(), &OTHER_NUMBERS_AND_SORTS)
}

/// Values that are not of their sort.
static NO_VALUES: [(&str, Option<(u8, u32)>); 8] = [
    (r#"\dv{Int{}}(" 1")"#, Some((11, 11))),
    (r#"\dv{Int{}}("1 ")"#, Some((11, 11))),
    (r#"\dv{Int{}}("")"#, Some((11, 11))),
    (r#"\dv{Int{}}("-")"#, Some((11, 11))),
    (r#"\dv{Int{}}("+-1")"#, Some((11, 11))),
    (
        r#"\dv{Int{}}("170141183460469231731687303715884105728")"#,
        Some((11, 11)),
    ),
    (
        r#"\dv{Int{}}("-170141183460469231731687303715884105729")"#,
        Some((11, 11)),
    ),
    (r#"\dv{Bool{}}("True")"#, Some((11, 12))),
];

#[test]
fn finds_texts_that_are_no_values(rt: HostRuntime) -> Result<(), Fail> {
    expect_faults(&rt, rt.alloc(), &NO_VALUES)
}

/// Patterns with more than one fault.
static FIRST_OF_TWO: [(&str, Option<(u8, u32)>); 5] = [
    ("pair{}(b{}(),c{}())", Some((7, 7))),
    ("pair{}(X:Foo{},b{}())", Some((6, 9))),
    ("pair{}(nil{}(),b{}())", Some((9, 7))),
    ("none{}(b{}())", Some((8, 0))),
    ("inj{Exp{},Exp{}}(b{}())", Some((9, 0))),
];

// The first of two faults, and at one byte the smaller number.
#[test]
fn finds_the_first_fault(rt: HostRuntime) -> Result<(), Fail> {
    expect_faults(&rt, rt.alloc(), &FIRST_OF_TWO)
}

/// Folds from the left and from the right.
static FOLDS: [(&str, Option<(u8, u32)>); 10] = [
    (r"\left-assoc{}(pair{}(a{}(),a{}(),a{}()))", None),
    (r"\left-assoc{}(b{}(a{}()))", None),
    (r"\left-assoc{}(\and{Foo{}}(a{}()))", None),
    (r"\left-assoc{}(a{}(a{}(),a{}()))", Some((8, 14))),
    (r"\left-assoc{}(b{}(a{}(),a{}()))", Some((7, 14))),
    (r"\right-assoc{}(cons{}(a{}(),a{}(),nil{}()))", None),
    (r"\left-assoc{}(cons{}(a{}(),a{}(),nil{}()))", Some((9, 14))),
    (r"\left-assoc{}(cons{}(a{}(),nil{}()))", None),
    (r"\right-assoc{}(cons{}(a{}(),a{}()))", Some((9, 28))),
    (
        r#"pair{}(\left-assoc{}(b{}(\dv{Int{}}("1"))),a{}())"#,
        Some((9, 7)),
    ),
];

#[test]
fn reads_folds(rt: HostRuntime) -> Result<(), Fail> {
    expect_faults(&rt, rt.alloc(), &FOLDS)
}

// A fold of so many arguments, from the left or from the right.
fn long_fold(alloc: Global, head: &str, args: usize) -> Result<String, Fail> {
    let mut text = String::from_str(alloc, head)?;
    text.push_str("pair{}(a{}()")?;
    for _ in 1..args {
        text.push_str(",a{}()")?;
    }
    text.push_str("))")?;
    Ok(text)
}

// Of 500 arguments a fold is 500 high, of 501 too high.
#[test]
fn finds_heights_above_500(rt: HostRuntime) -> Result<(), Fail> {
    let alloc = rt.alloc();
    for (head, args, expected) in [
        (r"\left-assoc{}(", 500, None),
        (r"\left-assoc{}(", 501, Some((3, 0))),
        (r"\right-assoc{}(", 500, None),
        (r"\right-assoc{}(", 501, Some((3, 0))),
    ] {
        let text = long_fold(alloc, head, args)?;
        expect_faults(&rt, alloc, &[(text.as_str(), expected)])?;
    }
    Ok(())
}
