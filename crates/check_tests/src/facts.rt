// True facts on values, hooks and injections, and texts that look like them.
ghost use Rattle.std.specs.Prelude.{◌≤◌, ◌^◌, IfOk, IfSome, length};
ghost use Rattle.pattern_reader.specs.Readings.{AreUtf8};

use kore_rules::accept;
use ml_pat::Names;
use pattern_reader::read_pattern;
use rule_core::Program;
use std::alloc::{AllocError, Global};
use true_facts::is_true_fact;

// The numbers are items.
static DEFINITION: &str = r#"[]
module F
hooked-sort SortInt{} [hook{}("INT.Int")]
sort SortItem{} []
symbol inj{From,To}(From) : To [sortInjection{}()]
axiom{R} \exists{R}(V:SortItem{},\equals{SortItem{},R}(V:SortItem{},
  inj{SortInt{},SortItem{}}(W:SortInt{}))) [subsort{SortInt{},SortItem{}}()]
symbol end{}() : SortItem{} [constructor{}()]
hooked-symbol add{}(SortInt{},SortInt{}) : SortInt{} [function{}(),hook{}("INT.add")]
endmodule []
"#;

// Texts of patterns, and whether they are true facts: a number is one element of its sort, if it is
// in canonical form and no digit is cut off; a sum has one value; an injection differs from a
// constructor; injections from a sort into one above it are injective.
static TEXTS: [(&str, bool); 9] = [
    ("( \\fun d:SortInt:37 s:SortInt )", true),
    ("( \\fun d:SortInt:37 s:SortItem )", false),
    ("( \\fun d:SortInt:3037 s:SortInt )", false),
    ("( \\fun d:SortInt:3 s:SortInt )", false),
    (
        "( \\eq ( \\app ( \\app f:add d:SortInt:32 ) d:SortInt:32 ) d:SortInt:34 )",
        true,
    ),
    (
        "( \\eq ( \\app ( \\app f:add d:SortInt:32 ) d:SortInt:32 ) d:SortInt:35 )",
        false,
    ),
    ("( \\not ( \\eq d:SortInt:32 d:SortInt:32 ) )", false),
    (
        "( \\all x:0 s:SortInt ( \\all x:1 s:SortInt ( \\imp \
         ( \\eq ( \\app ( \\at ( \\at f:inj s:SortInt ) s:SortItem ) x:0 ) \
         ( \\app ( \\at ( \\at f:inj s:SortInt ) s:SortItem ) x:1 ) ) ( \\eq x:0 x:1 ) ) ) )",
        true,
    ),
    (
        "( \\all x:0 s:SortItem ( \\all x:1 s:SortItem ( \\imp \
         ( \\eq ( \\app ( \\at ( \\at f:inj s:SortItem ) s:SortInt ) x:0 ) \
         ( \\app ( \\at ( \\at f:inj s:SortItem ) s:SortInt ) x:1 ) ) ( \\eq x:0 x:1 ) ) ) )",
        false,
    ),
];

// Each text is the text of a pattern, and a true fact or none.
#[test]
fn tells_true_facts(rt: HostRuntime) {
    let alloc = rt.alloc();
    for (text, fact) in &TEXTS {
        match answer(alloc, text) {
            Some(found) => assert_eq!(rt; found, *fact),
            None => panic!(rt; "{} has no answer", *text),
        }
    }
}

// Texts that are those of no pattern: a bracket is missing, or one too many, a sort stands in the
// place of a pattern, a connective has too few parts, or there is nothing.
static NO_PATTERNS: [&str; 5] = [
    "( \\fun d:SortInt:37 s:SortInt",
    "( \\fun d:SortInt:37 s:SortInt ) )",
    "( \\eq s:SortInt d:SortInt:37 )",
    "( \\imp \\top )",
    "",
];

#[test]
fn reads_no_pattern(rt: HostRuntime) {
    let alloc = rt.alloc();
    for text in &NO_PATTERNS {
        assert!(rt; has_no_pattern(alloc, text));
    }
}

// Whether the text is a true fact of the definition. There is no answer if a call fails, or if the
// text is that of no pattern.
fn answer(alloc: Global, text: &str) -> Option<bool> {
    let program = program_of(alloc)?;
    let mut names = Names::new(alloc);
    let Ok(tokens) = tokens_of(alloc, text) else {
        return None;
    };
    let pattern = read_pattern(alloc, &mut names, &tokens).ok()??;
    is_true_fact(alloc, &program.sig, &names, &pattern).ok()
}

fn has_no_pattern(alloc: Global, text: &str) -> bool {
    let mut names = Names::new(alloc);
    let Ok(tokens) = tokens_of(alloc, text) else {
        return false;
    };
    matches!(read_pattern(alloc, &mut names, &tokens), Ok(None))
}

// The program that the definition means.
fn program_of(alloc: Global) -> Option<Program>
    ensures { IfSome result (λ p. length p.sig.sorts ≤ 2 ^ 32) }
{
    let bytes = DEFINITION.as_bytes();
    if 65_536 < bytes.len() {
        return None;
    }
    accept(alloc, bytes).ok()
}

// The tokens of a text, with single spaces between them.
fn tokens_of<'t>(alloc: Global, text: &'t str) -> Result<Vec<&'t [u8]>, AllocError>
    ensures { IfOk result (λ v. AreUtf8 v.items) }
{
    let mut tokens = Vec::new(alloc);
    for token in text.split(' ') {
        tokens.push(token.as_bytes())?;
    }
    Ok(tokens)
}
