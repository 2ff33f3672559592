// Hint files and their first bad lines.
ghost use Rattle.std.specs.Prelude.{◌≡◌, IfSome};
ghost use Rattle.rule_core.specs.ProgramView.{theory_of};
ghost use Rattle.rule_core.specs.WellSorted.{IsWellSorted};
ghost use Rattle.fun_eval.specs.Evaluable.{HasNumbers};
ghost use Rattle.kore_sig.specs.Numbered.{IsNumbered};
ghost use Rattle.kore_rules.specs.RefusedTexts.{top_of, IsSortOfRules};

use fun_eval::Engine;
use hint_file::{HintEnd, HintPath};
use kore_rules::accept;
use rule_core::Program;
use std::alloc::Global;

/// The greatest number of bytes of a text.
const LIMIT: usize = 10_000;

/// Two constants, and at byte 98 a rule from the first to the second.
const ONE_RULE: &str =
    "[] module M sort S{} [] symbol a{}() : S{} [constructor{}()] symbol b{}() : S{} \
    [constructor{}()] axiom{} \\rewrites{S{}}(a{}(),b{}()) [] endmodule []";

/// Hint files, each with its first bad line and the number by which it is bad.
static FILES: [(&str, Option<(u64, u8)>); 10] = [
    ("kore-hints 1\na{}()\n98 b{}()\n", None),
    ("kore-hints 1\n a{}( )\n0000000098 b{}()\n", None),
    ("kore-hints 1\na{}()\n97 b{}()\n", Some((3, 2))),
    ("kore-hints 1\na{}()\n98 a{}()\n", Some((3, 5))),
    ("", Some((1, 1))),
    ("kore-hints 1\nc{}()\n", Some((2, 1))),
    ("kore-hints 1\na{}()\n98 b{}()", Some((3, 1))),
    ("kore-hints 1\na{}()\n00000000098 b{}()\n", Some((3, 1))),
    ("kore-hints 1\na{}()\n98 b{}()\n98 b{}()\n", Some((4, 3))),
    ("kore-hints 2\na{}()\n", Some((1, 1))),
];

/// The program that a definition means, if it is accepted.
fn program_of(alloc: Global, definition: &str) -> Option<Program>
    ensures well_sorted { IfSome result (λ p. IsWellSorted (theory_of p)) }
    ensures numbers { IfSome result (λ p. HasNumbers (theory_of p)) }
    ensures numbered { IfSome result (λ p. IsNumbered p.sig) }
    ensures top { IfSome result (λ p. IsSortOfRules (theory_of p) (top_of p)) }
{
    let bytes = definition.as_bytes();
    if LIMIT < bytes.len() {
        return None;
    }
    match accept(alloc, bytes) {
        Ok(program) => Some(program),
        Err(_) => None,
    }
}

/// Whether a hint file of the program is read as it is to be.
fn is_read(
    alloc: Global,
    program: &Program,
    engine: &Engine<'_>,
    file: &(&str, Option<(u64, u8)>),
) -> bool
    requires engine { engine.now ≡ program.now }
    requires numbered { IsNumbered program.now.sig }
    requires top { IsSortOfRules (theory_of program.now) (top_of program.now) }
{
    let bytes = file.0.as_bytes();
    if LIMIT < bytes.len() {
        return false;
    }
    match (HintPath::read(alloc, program, engine, bytes, 10), file.1) {
        (Ok(_), None) => true,
        (Err(HintEnd::Bad(line, number)), Some(bad)) => bad == (line, number),
        _ => false,
    }
}

/// A hint file is read up to its first bad line.
#[test]
fn first_bad_lines(rt: HostRuntime) {
    let alloc = rt.alloc();
    let program = program_of(alloc, ONE_RULE).expect(&rt, "a program");
    let engine = Engine::new(alloc, &program).expect(&rt, "memory");
    for file in &FILES {
        assert!(rt; is_read(alloc, &program, &engine, file));
    }
}
