// Definitions whose function f has an equation of the last resort, each with the equations that the
// program is expected to have of f.
use kore_rules::accept;
use rule_core::{Equation, Program, SymKind};
use std::alloc::Global;
use std::test::Fail;

/// The greatest length in bytes of a text that is tried.
const LONGEST: usize = 10_000;

/// The symbols.
const DECLARED: &str = "[] module M sort S{} [] symbol a{}() : S{} [constructor{}()] \
    symbol p{}(S{}) : S{} [constructor{}()] symbol q{}(S{},S{}) : S{} [constructor{}()] \
    symbol f{}(S{}) : S{} [function{}()] symbol g{}(S{}) : S{} [function{}()] ";

/// Two equations of f. The second has a higher priority.
const NESTED: &str = "axiom{R} \\equals{S{},R}(f{}(p{}(p{}(V:S{}))),a{}()) [] ";

const TWO: &str = "axiom{R} \\implies{R}(\\and{R}(\\top{R}(),\
    \\and{R}(\\in{S{},R}(X:S{},q{}(V:S{},W:S{})),\\top{R}())),\
    \\equals{S{},R}(f{}(X:S{}),V:S{})) [priority{}(\"40\")] ";

/// An equation of the last resort with a guard for each of them.
const OTHERWISE: &str = "axiom{R} \\implies{R}(\\and{R}(\\not{R}(\\or{R}(\
    \\exists{R}(J:S{},\\and{R}(\\top{R}(),\
    \\and{R}(\\in{S{},R}(X:S{},p{}(p{}(J:S{}))),\\top{R}()))),\
    \\or{R}(\\exists{R}(J:S{},\\exists{R}(K:S{},\\and{R}(\\top{R}(),\
    \\and{R}(\\in{S{},R}(X:S{},q{}(J:S{},K:S{})),\\top{R}())))),\\bottom{R}()))),\
    \\and{R}(\\top{R}(),\\and{R}(\\in{S{},R}(X:S{},Y:S{}),\\top{R}()))),\
    \\equals{S{},R}(f{}(X:S{}),Y:S{})) [owise{}()] ";

/// One without guards, one that comes before other equations, and one of the function g.
const ALWAYS: &str = "axiom{R} \\implies{R}(\\and{R}(\\not{R}(\\bottom{R}()),\
    \\and{R}(\\top{R}(),\\and{R}(\\in{S{},R}(X:S{},Y:S{}),\\top{R}()))),\
    \\equals{S{},R}(f{}(X:S{}),Y:S{})) [owise{}()] ";

const EARLY: &str = "axiom{R} \\implies{R}(\\and{R}(\\not{R}(\\bottom{R}()),\
    \\and{R}(\\top{R}(),\\and{R}(\\in{S{},R}(X:S{},Y:S{}),\\top{R}()))),\
    \\equals{S{},R}(f{}(X:S{}),Y:S{})) [owise{}(),priority{}(\"45\")] ";

const OF_ANOTHER: &str = "axiom{R} \\implies{R}(\\and{R}(\\not{R}(\\bottom{R}()),\
    \\and{R}(\\top{R}(),\\and{R}(\\in{S{},R}(X:S{},Y:S{}),\\top{R}()))),\
    \\equals{S{},R}(g{}(X:S{}),Y:S{})) [owise{}()] ";

/// An equation of f that is not readable, one with `owise` in the direct form, and a constructor
/// that is associative.
const ILL: &str = "axiom{R} \\equals{S{},R}(f{}(x{}()),a{}()) [] ";

const DIRECT: &str = "axiom{R} \\equals{S{},R}(f{}(Y:S{}),Y:S{}) [owise{}()] ";

const ASSOCIATIVE: &str = "symbol c{}(S{},S{}) : S{} [constructor{}(),assoc{}()] ";

/// The numbers of the equations that the guards of an equation repeat. None if it is none of the
/// last resort.
type Repeated = Option<&'static [u32]>;

/// The axioms, and the equations of f in the order of trial. None if f is closed.
type Row = (&'static [&'static str], Option<&'static [Repeated]>);

static ROWS: [Row; 16] = [
    (&[NESTED, TWO], Some(&[None, None])),
    (&[ALWAYS], Some(&[Some(&[])])),
    (&[NESTED, ALWAYS], Some(&[None, Some(&[])])),
    (
        &[NESTED, TWO, OTHERWISE],
        Some(&[None, None, Some(&[1, 0])]),
    ),
    (
        &[OTHERWISE, TWO, NESTED],
        Some(&[None, None, Some(&[1, 0])]),
    ),
    (
        &[OF_ANOTHER, TWO, OTHERWISE, NESTED],
        Some(&[None, None, Some(&[1, 0])]),
    ),
    // two of the last resort
    (&[NESTED, TWO, OTHERWISE, OTHERWISE], None),
    (&[ALWAYS, OTHERWISE, NESTED, TWO], None),
    // it is tried before another equation
    (&[TWO, EARLY], Some(&[None, Some(&[])])),
    (&[NESTED, TWO, EARLY], None),
    // a guard repeats no equation
    (&[NESTED, OTHERWISE], None),
    (&[OTHERWISE], None),
    // another equation is not readable, or it has another form
    (&[OTHERWISE, ILL, NESTED, TWO], None),
    (&[NESTED, TWO, OTHERWISE, ILL], None),
    (&[NESTED, DIRECT], None),
    // a constructor is associative
    (&[NESTED, TWO, ASSOCIATIVE, OTHERWISE], None),
];

/// The program of these axioms.
fn program_of(alloc: Global, axioms: &[&str]) -> Result<Program, Fail> {
    let mut text = String::from_str(alloc, DECLARED)?;
    for axiom in axioms {
        text.push_str(axiom)?;
    }
    text.push_str("endmodule []")?;
    if text.len() > LONGEST {
        return Err(Fail::from("long"));
    }
    match accept(alloc, text.as_bytes()) {
        Ok(program) => Ok(program),
        Err(_) => Err(Fail::from("refused")),
    }
}

/// Whether the program has these equations of f, or f is closed.
fn has_equations(program: &Program, expected: Option<&[Repeated]>) -> bool {
    let Some(number) = program.sig.symbols.number("f") else {
        return false;
    };
    let (Some(symbol), Some(equations)) = (
        program.sig.symbols.value(number),
        program.equations.get(number),
    ) else {
        return false;
    };
    match expected {
        Some(expected) => symbol.kind == SymKind::Equations && are(equations, expected),
        None => symbol.kind == SymKind::Closed && equations.is_empty(),
    }
}

/// Whether the guards of the equations repeat these.
fn are(equations: &[Equation], expected: &[Repeated]) -> bool {
    if equations.len() != expected.len() {
        return false;
    }
    for (equation, expected) in equations.iter().zip(expected) {
        if !repeats(equation, *expected) {
            return false;
        }
    }
    true
}

/// Whether the guards of an equation repeat these. None for an equation without guards.
fn repeats(equation: &Equation, expected: Repeated) -> bool {
    match (&equation.owise, expected) {
        (Some(guards), Some(expected)) => {
            guards
                .iter()
                .map(|guard| guard.equation)
                .eq(expected.iter().copied())
        }
        (None, None) => true,
        _ => false,
    }
}

/// Each program has the equations that are expected of it, in the order of trial.
#[test]
fn last_resort_programs(rt: HostRuntime) -> Result<(), Fail> {
    for (axioms, expected) in &ROWS {
        let program = program_of(rt.alloc(), axioms)?;
        assert!(rt; has_equations(&program, *expected), "{:?}", axioms.last());
    }
    Ok(())
}
