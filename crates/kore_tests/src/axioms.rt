// Axioms, each with the fault that is expected of it.
ghost use Rattle.rule_core.specs.WellSorted.{IsSignature};
ghost use Rattle.kore_sig.specs.Numbered.{IsNumbered};

use kore_ast::{AxiomDecl, Decl, Sort, read_definition};
use kore_axioms::{AxiomClass, Refusal, checked_rule, class_of, priority_of};
use kore_sig::{counted_declarations, signature};
use rule_core::{Signature, TextHasher};
use std::alloc::Global;
use std::test::Fail;

/// The greatest length in bytes of a text that is tried.
const LONGEST: usize = 10_000;

/// The declarations before the axioms.
const DECLARED: &str =
    "[] module M sort S{} [] sort T{} [] hooked-sort B{} [hook{}(\"BOOL.Bool\")] \
    hooked-sort I{} [hook{}(\"INT.Int\")] symbol a{}() : S{} [constructor{}()] symbol b{}() : S{} \
    [constructor{}()] \
    symbol f{}(S{}) : S{} [function{}()] symbol c{}(S{},S{}) : S{} [constructor{}(),assoc{}()] \
    symbol m{}(S{},S{}) : S{} [function{}(),comm{}()] symbol n{}() : S{} [] symbol t{}() : T{} \
    [constructor{}()] \
    symbol is{}(S{}) : B{} [function{}()] symbol i{}(I{}) : S{} [constructor{}()] ";

/// The first fault of the axioms: its number, and its byte after the declarations.
fn first_fault(alloc: Global, axioms: &str) -> Result<Option<(u8, u32)>, Fail> {
    let text = format!(in alloc; "{DECLARED}{axioms} endmodule []")?;
    if text.len() > LONGEST {
        return Err(Fail::from("long"));
    }
    let Ok(definition) = read_definition(alloc, text.as_bytes()) else {
        return Err(Fail::from("unreadable"));
    };
    let Ok(sig) = signature(alloc, TextHasher::without_text(), &definition) else {
        return Err(Fail::from("no signature"));
    };
    let mut first = None;
    for decl in counted_declarations(alloc, TextHasher::without_text(), &definition)?.iter() {
        if let Decl::Axiom(decl) = decl {
            match fault_of(alloc, &sig, &mut first, decl) {
                Ok(()) => {}
                Err(Refusal::Refused(number, byte)) => {
                    return Ok(Some((number, byte.saturating_sub(DECLARED.len() as u32))));
                }
                Err(Refusal::Memory) => return Err(Fail::from("out of memory")),
            }
        }
    }
    Ok(None)
}

fn fault_of<'a>(
    alloc: Global,
    sig: &Signature,
    first: &mut Option<&'a Sort>,
    decl: &'a AxiomDecl,
) -> Result<(), Refusal>
    requires numbered { IsNumbered sig.now }
    requires signature { IsSignature sig.now }
{
    match class_of(sig, decl) {
        AxiomClass::Refused(fault) => Err(Refusal::Refused(fault.number(), decl.at)),
        AxiomClass::Rewrites(rewriting) => {
            let rule = checked_rule(alloc, sig, *first, decl, rewriting)?;
            if rule.priority != priority_of(&decl.attrs) {
                return Err(Refusal::Memory);
            }
            if first.is_none() {
                *first = Some(rewriting.sort);
            }
            Ok(())
        }
        AxiomClass::OrdersSorts | AxiomClass::Equates(_) | AxiomClass::PassedOver => Ok(()),
    }
}

/// Axioms with their first fault.
static FAULTS: [(&str, Option<(u8, u32)>); 30] = [
    ("axiom{} \\rewrites{S{}}(a{}(),b{}()) []", None),
    (
        "axiom{} \\rewrites{S{}}(\\and{S{}}(a{}(),\\top{S{}}()),\\and{S{}}(b{}(),\
            \\top{S{}}())) [assoc{}()]",
        None,
    ),
    (
        "axiom{} \\rewrites{S{}}(c{}(a{}(),b{}()),b{}()) [overload{}(),anywhere{}()]",
        Some((20, 0)),
    ),
    ("axiom{} \\top{S{}}() [symbol-overload{}()]", Some((21, 0))),
    (
        "axiom{} \\top{S{}}() [subsort{S{},T{}}(),anywhere{}()]",
        Some((20, 0)),
    ),
    (
        "axiom{} \\rewrites{U{}}(\\or{S{}}(a{}()),\\exists{S{}}(X:S{},b{}())) []",
        Some((13, 0)),
    ),
    (
        "axiom{} \\rewrites{U{}}(\\and{T{}}(a{}(),\\top{S{}}()),b{}()) [priority{}(\"x\")]",
        Some((13, 0)),
    ),
    (
        "axiom{} \\rewrites{U{}}(a{}(),\\exists{S{}}(X:S{},b{}())) [priority{}(\"x\")]",
        Some((15, 0)),
    ),
    (
        "axiom{} \\rewrites{S{}}(a{}(),\\and{S{}}(a{}(),b{}())) [priority{}(\"x\")]",
        Some((16, 0)),
    ),
    (
        "axiom{} \\rewrites{S{}}(\\and{S{}}(a{}(),b{}()),b{}()) [priority{}(\"x\")]",
        Some((17, 0)),
    ),
    (
        "axiom{} \\rewrites{S{}}(\\and{S{}}(a{}(),\\equals{T{},S{}}(t{}(),\
            \\dv{T{}}(\"true\"))),b{}()) []",
        Some((17, 0)),
    ),
    (
        "axiom{} \\rewrites{S{}}(f{}(\\and{S{}}(a{}(),b{}())),b{}()) [priority{}(\"x\")]",
        Some((22, 0)),
    ),
    (
        "axiom{} \\rewrites{U{}}(a{}(),b{}()) [priority{}(\"+1\")]",
        Some((23, 0)),
    ),
    (
        "axiom{} \\rewrites{U{}}(a{}(),b{}()) [priority{}(\"1234567890\")]",
        Some((23, 0)),
    ),
    ("axiom{} \\rewrites{U{}}(x{}(),b{}()) []", Some((6, 18))),
    (
        "axiom{} \\rewrites{S{}}(x{}(),a{}(b{}())) []",
        Some((7, 23)),
    ),
    (
        "axiom{} \\rewrites{S{}}(a{}(b{}()),x{}()) []",
        Some((8, 23)),
    ),
    ("axiom{} \\rewrites{S{}}(t{}(),b{}()) []", Some((9, 23))),
    (
        "axiom{} \\rewrites{S{}}(i{}(\\dv{I{}}(\"x\")),b{}()) []",
        Some((11, 36)),
    ),
    ("axiom{} \\rewrites{S{}}(n{}(),b{}()) []", Some((25, 23))),
    (
        "axiom{} \\rewrites{S{}}(a{}(),\\and{S{}}(\\top{T{}}(),b{}())) []",
        Some((9, 39)),
    ),
    (
        "axiom{} \\rewrites{S{}}(c{}(f{}(a{}()),b{}()),X:S{}) []",
        Some((12, 0)),
    ),
    (
        "axiom{} \\rewrites{S{}}(m{}(a{}(),b{}()),X:S{}) []",
        Some((14, 0)),
    ),
    (
        "axiom{} \\rewrites{S{}}(\\left-assoc{}(c{}(a{}(),b{}())),X:S{}) []",
        Some((14, 0)),
    ),
    (
        "axiom{} \\rewrites{S{}}(\\left-assoc{}(c{}(a{}())),b{}()) []",
        None,
    ),
    ("axiom{} \\rewrites{S{}}(a{}(),X:S{}) []", Some((18, 0))),
    (
        "axiom{} \\rewrites{S{}}(\\and{S{}}(a{}(),\\equals{B{},S{}}(is{}(X:S{}),\
            \\dv{B{}}(\"true\"))),b{}()) []",
        Some((18, 0)),
    ),
    (
        "axiom{} \\rewrites{S{}}(\\and{S{}}(i{}(X:I{}),\\equals{B{},S{}}(is{}(i{}(X:I{})),\
            \\dv{B{}}(\"true\"))),\
            i{}(X:I{})) []",
        None,
    ),
    (
        "axiom{} \\rewrites{S{}}(a{}(),b{}()) [] axiom{} \\rewrites{T{}}(t{}(),t{}()) []",
        Some((19, 39)),
    ),
    ("axiom{R} \\equals{S{},R}(f{}(a{}()),x{}()) []", None),
];

/// Each refusal of an axiom, and their order in one axiom: by number in the form and in the uses,
/// by byte in the sorts.
#[test]
fn first_faults(rt: HostRuntime) -> Result<(), Fail> {
    for (axioms, expected) in &FAULTS {
        assert!(rt; first_fault(rt.alloc(), axioms)? == *expected, "{axioms}");
    }
    Ok(())
}
