// Matching trees of accepted definitions: which rows match a term, in order, and at how many rows a
// tree begins to try them in order.
ghost use Rattle.std.specs.Prelude.{◌≡◌, ◌<◌, IfSome};
ghost use Rattle.rule_core.specs.ProgramView.{theory_of};
ghost use Rattle.rule_core.specs.WellSorted.{IsWellSorted};
ghost use Rattle.kore_sig.specs.Numbered.{IsNumbered};
ghost use Rattle.kore_rules.specs.RefusedTexts.{top_of, IsSortOfRules};
ghost use Rattle.pat_matrix.specs.MatrixView.{rows_of};
ghost use Rattle.match_tree.specs.TreeView.{IsTree};
ghost use Rattle.match_tree.specs.Walking.{AreWide};
ghost use Rattle.fun_eval.specs.Evaluable.{HasNumbers};

use kore_rules::{accept, accept_term};
use match_tree::{Hit, Tree, program_laws, rule_tree};
use rule_core::Program;
use std::alloc::{AllocError, Global};
use std::marker::Brand;
use std::slice::from_ref;
use std::sync::ledger::{Blank, Ledger};
use std::test::Fail;
use term_core::{MAX_HEIGHT, Steps, Subst, Term, fits_within, instance};

/// Declarations for the rules of a case. A is below B, and B below C.
const DECLARED: &str = "[] module M sort S{} [] sort A{} [] sort B{} [] sort C{} [] \
    symbol inj{F,T}(F) : T [sortInjection{}()] \
    symbol p{}() : S{} [constructor{}()] symbol q{}() : S{} [constructor{}()] \
    symbol pair{}(S{},S{}) : S{} [constructor{}()] symbol h{}(C{},B{}) : S{} [constructor{}()] \
    axiom{R} \\exists{R}(V:B{},\\equals{B{},R}(V:B{},inj{A{},B{}}(F:A{}))) [subsort{A{},B{}}()] \
    axiom{R} \\exists{R}(V:C{},\\equals{C{},R}(V:C{},inj{B{},C{}}(F:B{}))) [subsort{B{},C{}}()] ";

/// Left sides of rules, a term, and the numbers of the rules that match it.
struct Case {
    left: &'static [&'static str],
    term: &'static str,
    matching: &'static [u32],
}

static CASES: [Case; 5] = [
    // A repeated variable, a pair of constructors and a variable, at unequal and equal arguments.
    Case {
        left: &["pair{}(X:S{},X:S{})", "pair{}(p{}(),q{}())", "Y:S{}"],
        term: "pair{}(p{}(),q{}())",
        matching: &[1, 2],
    },
    Case {
        left: &["pair{}(X:S{},X:S{})", "pair{}(p{}(),q{}())", "Y:S{}"],
        term: "pair{}(p{}(),p{}())",
        matching: &[0, 2],
    },
    // No rows.
    Case {
        left: &[],
        term: "p{}()",
        matching: &[],
    },
    // A variable below an injection, and the same variable beside it: equal and unequal.
    Case {
        left: &["h{}(inj{B{},C{}}(X:B{}),X:B{})"],
        term: r#"h{}(inj{A{},C{}}(\dv{A{}}("v")),inj{A{},B{}}(\dv{A{}}("v")))"#,
        matching: &[0],
    },
    Case {
        left: &["h{}(inj{B{},C{}}(X:B{}),X:B{})"],
        term: r#"h{}(inj{A{},C{}}(\dv{A{}}("v")),inj{A{},B{}}(\dv{A{}}("w")))"#,
        matching: &[],
    },
];

/// The longest definition that is tried, in bytes.
const LONGEST: usize = 10_000_000;

/// The text of a definition with a rule for each of these left sides.
fn with_left_sides(alloc: Global, left: &[&str]) -> Result<String, AllocError> {
    let mut text = String::from_str(alloc, DECLARED)?;
    for side in left {
        text.push_str("axiom{} \\rewrites{S{}}(")?;
        text.push_str(side)?;
        text.push_str(",p{}()) [] ")?;
    }
    text.push_str("endmodule []")?;
    Ok(text)
}

/// The text of a definition with a rule for each of the numbers from 0 on, as many as this.
fn with_numbers(alloc: Global, count: u32) -> Result<String, AllocError> {
    let mut text = String::from_str(
        alloc,
        "[] module M hooked-sort SortInt{} [hook{}(\"INT.Int\")] ",
    )?;
    for n in 0..count {
        text.push_str("axiom{} \\rewrites{SortInt{}}(\\dv{SortInt{}}(\"")?;
        text.push_str(&format!(in alloc; "{n}")?)?;
        text.push_str("\"),\\dv{SortInt{}}(\"0\")) [] ")?;
    }
    text.push_str("endmodule []")?;
    Ok(text)
}

/// The program of a definition, if it is accepted.
fn program_of(alloc: Global, text: &str) -> Option<Program>
    ensures sorted { IfSome result (λ p. IsWellSorted (theory_of p)) }
    ensures numbers { IfSome result (λ p. HasNumbers (theory_of p)) }
    ensures numbered { IfSome result (λ p. IsNumbered p.sig) }
    ensures top { IfSome result (λ p. IsSortOfRules (theory_of p) (top_of p)) }
{
    if text.len() > LONGEST {
        return None;
    }
    match accept(alloc, text.as_bytes()) {
        Ok(program) => Some(program),
        Err(_) => None,
    }
}

/// The term that a text means, if it is accepted.
fn term_of(alloc: Global, program: &Program, text: &str) -> Option<Term>
    requires sorted { IsWellSorted (theory_of program.now) }
    requires numbered { IsNumbered program.now.sig }
    requires top { IsSortOfRules (theory_of program.now) (top_of program.now) }
{
    if text.len() > LONGEST {
        return None;
    }
    let Ok(start) = accept_term(alloc, program, text.as_bytes()) else {
        return None;
    };
    let Ok(none) = Subst::new(alloc, 0) else {
        return None;
    };
    if !fits_within(&start, &none, MAX_HEIGHT) {
        return None;
    }
    instance(alloc, &start, &none).ok()
}

/// The rows of a tree that match the term, in order, as far as there are at most so many.
fn rows_that_match<L: Ledger>(
    alloc: Global,
    tree: &Tree<'_>,
    most: usize,
    term: &Term,
    blank: Blank,
) -> Result<Vec<u32>, AllocError>
    requires tree { IsTree tree.now }
    requires wide { AreWide 1 (rows_of tree.now.matrix) }
    requires name { blank.name ≡ L.name }
    requires parts { blank.parts ≡ L.parts }
    requires some { 0 < L.parts }
{
    let mut steps = Steps::<L>::new(blank);
    let mut rows = Vec::new(alloc);
    let mut from = tree.start();
    for _ in 0..most {
        match tree.find(from, from_ref(term), &mut steps) {
            Hit::Row { row, resume } => {
                rows.push(row)?;
                from = resume;
            }
            Hit::None => break,
        }
    }
    Ok(rows)
}

/// What the tree of a definition finds for a term: the rows that match, and whether a node tries its
/// rows in order.
fn found(alloc: Global, definition: &str, term: &str) -> Option<(Vec<u32>, bool)> {
    program_laws();
    let program = program_of(alloc, definition)?;
    let term = term_of(alloc, &program, term)?;
    let Ok(tree) = rule_tree(alloc, &program) else {
        return None;
    };
    let most = program.rules.len();
    let Ok(rows) = rows_that_match::<Brand>(alloc, &tree, most, &term, Blank::new(1)) else {
        return None;
    };
    Some((rows, tree.tries_in_order()))
}

/// Repeated variables, injections, and no rows at all.
#[test]
fn a_walk_finds_the_rows_that_match(rt: HostRuntime) -> Result<(), Fail> {
    let alloc = rt.alloc();
    for case in &CASES {
        let definition = with_left_sides(alloc, case.left)?;
        let Some((rows, tries)) = found(alloc, &definition, case.term) else {
            panic!(rt; "not accepted: {}", case.term);
        };
        assert!(rt; rows.as_slice() == case.matching, "{}", case.term);
        assert!(rt; !tries);
    }
    Ok(())
}

/// How many numbers the rules match, and whether their tree has no room for more nodes and tries
/// rows in order.
static COUNTS: [(u32, bool); 3] = [(1_000, false), (49_999, false), (50_000, true)];

/// A tree has at most 100,000 nodes. With more rows it finds the same.
#[test]
fn a_full_tree_tries_rows_in_order(rt: HostRuntime) -> Result<(), Fail> {
    let alloc = rt.alloc();
    for (count, full) in &COUNTS {
        let definition = with_numbers(alloc, *count)?;
        let last = *count - 1;
        let term = format!(in alloc; "\\dv{{SortInt{{}}}}(\"{last}\")")?;
        let Some((rows, tries)) = found(alloc, &definition, &term) else {
            panic!(rt; "not accepted: {count}");
        };
        assert!(rt; rows.as_slice() == [last].as_slice(), "{count}");
        assert!(rt; tries == *full, "{count}");
    }
    Ok(())
}
