// Left sides of rules and configurations: one lemma of a proof file for each rule.
ghost use Rattle.rule_core.specs.AcSymbols.{IsAcFree};
ghost use Rattle.rule_core.specs.ProgramView.{theory_of};
ghost use Rattle.rule_core.specs.WellSorted.{IsWellSorted};
ghost use Rattle.kore_rules.specs.Names.{HasIdentifierNames};
ghost use Rattle.rewriter.specs.Configurations.{IsConfiguration};

use crate::accepted::{configuration, program_of};
use crate::definitions::{ITEM, ITEMS, NAMED, PAIRS, ROOTS};
use crate::left_sides::about_left_side;
use crate::proof_files::{add_lemma, last_stated};
use mm_verify::verify;
use proof_writer::Writer;
use prove_term::Cx;
use rule_core::Program;
use std::alloc::{AllocError, Global};
use term_core::Term;

/// A definition, a ground term, and what is stated of the left side of each rule and that term.
struct Case {
    definition: &'static str,
    term: &'static str,
    stated: &'static [&'static str],
}

/// Pairs of different towers, and of the same tower.
static TOWERS: [Case; 2] = [
    Case {
        definition: PAIRS,
        term: r#"pair{}(p{}(),q{}())"#,
        stated: &[
            "p |- ( \\imp ( \\and ( \\fun x:0 s:S ) \\top ) ( \\not ( \\and ( \\app ( \\app \
             f:pair x:0 ) x:0 ) ( \\app ( \\app f:pair f:p ) f:q ) ) ) ) ",
            "p |- ( \\imp ( \\and ( \\and ( \\fun x:0 s:S ) ( \\and ( \\fun x:1 s:S ) \\top ) ) \
             ( \\and ( \\app ( \\app f:pair x:0 ) x:1 ) ( \\app ( \\app f:pair f:p ) f:q ) ) ) \
             ( \\and ( \\eq x:0 f:p ) ( \\and ( \\eq x:1 f:q ) \\top ) ) ) ",
            "p |- ( \\imp ( \\and ( \\fun x:0 s:S ) \\top ) ( \\not ( \\and ( \\app ( \\app \
             f:pair x:0 ) ( \\app f:s ( \\app f:s f:p ) ) ) ( \\app ( \\app f:pair f:p ) f:q ) \
             ) ) ) ",
            "p |- ( \\imp ( \\and ( \\and ( \\fun x:0 s:T ) \\top ) ( \\and x:0 ( \\app ( \\app \
             f:pair f:p ) f:q ) ) ) ( \\and ( \\eq x:0 ( \\app ( \\app f:pair f:p ) f:q ) ) \
             \\top ) ) ",
            "p |- ( \\imp \\top ( \\not ( \\and f:ok ( \\app ( \\app f:pair f:p ) f:q ) ) ) ) ",
        ],
    },
    Case {
        definition: PAIRS,
        term: r#"pair{}(s{}(s{}(q{}())),s{}(s{}(q{}())))"#,
        stated: &[
            "p |- ( \\imp ( \\and ( \\and ( \\fun x:0 s:S ) \\top ) ( \\and ( \\app ( \\app \
             f:pair x:0 ) x:0 ) ( \\app ( \\app f:pair ( \\app f:s ( \\app f:s f:q ) ) ) ( \
             \\app f:s ( \\app f:s f:q ) ) ) ) ) ( \\and ( \\eq x:0 ( \\app f:s ( \\app f:s f:q \
             ) ) ) \\top ) ) ",
            "p |- ( \\imp ( \\and ( \\and ( \\fun x:0 s:S ) ( \\and ( \\fun x:1 s:S ) \\top ) ) \
             ( \\and ( \\app ( \\app f:pair x:0 ) x:1 ) ( \\app ( \\app f:pair ( \\app f:s ( \
             \\app f:s f:q ) ) ) ( \\app f:s ( \\app f:s f:q ) ) ) ) ) ( \\and ( \\eq x:0 ( \
             \\app f:s ( \\app f:s f:q ) ) ) ( \\and ( \\eq x:1 ( \\app f:s ( \\app f:s f:q ) ) \
             ) \\top ) ) ) ",
            "p |- ( \\imp ( \\and ( \\fun x:0 s:S ) \\top ) ( \\not ( \\and ( \\app ( \\app \
             f:pair x:0 ) ( \\app f:s ( \\app f:s f:p ) ) ) ( \\app ( \\app f:pair ( \\app f:s \
             ( \\app f:s f:q ) ) ) ( \\app f:s ( \\app f:s f:q ) ) ) ) ) ) ",
            "p |- ( \\imp ( \\and ( \\and ( \\fun x:0 s:T ) \\top ) ( \\and x:0 ( \\app ( \\app \
             f:pair ( \\app f:s ( \\app f:s f:q ) ) ) ( \\app f:s ( \\app f:s f:q ) ) ) ) ) ( \
             \\and ( \\eq x:0 ( \\app ( \\app f:pair ( \\app f:s ( \\app f:s f:q ) ) ) ( \\app \
             f:s ( \\app f:s f:q ) ) ) ) \\top ) ) ",
            "p |- ( \\imp \\top ( \\not ( \\and f:ok ( \\app ( \\app f:pair ( \\app f:s ( \\app \
             f:s f:q ) ) ) ( \\app f:s ( \\app f:s f:q ) ) ) ) ) ) ",
        ],
    },
];

/// What is injected, in one step or two.
static INJECTED: [Case; 3] = [
    Case {
        definition: ITEMS,
        term: "k{}(inj{SortInt{},SortKItem{}}(\\dv{SortInt{}}(\"5\")),inj{SortId{},\
         SortKItem{}}(a{}()))",
        stated: &[
            "p |- ( \\imp ( \\and ( \\fun x:0 s:SortId ) ( \\and ( \\fun x:1 s:SortKItem ) \
             \\top ) ) ( \\not ( \\and ( \\app ( \\app f:k ( \\app ( \\at ( \\at f:inj s:SortId \
             ) s:SortKItem ) x:0 ) ) x:1 ) ( \\app ( \\app f:k ( \\app ( \\at ( \\at f:inj \
             s:SortInt ) s:SortKItem ) d:SortInt:35 ) ) ( \\app ( \\at ( \\at f:inj s:SortId ) \
             s:SortKItem ) f:a ) ) ) ) ) ",
            "p |- ( \\imp ( \\and ( \\and ( \\fun x:0 s:SortAExp ) ( \\and ( \\fun x:1 \
             s:SortAExp ) \\top ) ) ( \\and ( \\app ( \\app f:k ( \\app ( \\at ( \\at f:inj \
             s:SortAExp ) s:SortKItem ) x:0 ) ) ( \\app ( \\at ( \\at f:inj s:SortAExp ) \
             s:SortKItem ) x:1 ) ) ( \\app ( \\app f:k ( \\app ( \\at ( \\at f:inj s:SortInt ) \
             s:SortKItem ) d:SortInt:35 ) ) ( \\app ( \\at ( \\at f:inj s:SortId ) s:SortKItem \
             ) f:a ) ) ) ) ( \\and ( \\eq x:0 ( \\app ( \\at ( \\at f:inj s:SortInt ) \
             s:SortAExp ) d:SortInt:35 ) ) ( \\and ( \\eq x:1 ( \\app ( \\at ( \\at f:inj \
             s:SortId ) s:SortAExp ) f:a ) ) \\top ) ) ) ",
            "p |- ( \\imp ( \\and ( \\fun x:0 s:SortAExp ) ( \\and ( \\fun x:1 s:SortAExp ) ( \
             \\and ( \\fun x:2 s:SortKItem ) \\top ) ) ) ( \\not ( \\and ( \\app ( \\app f:k ( \
             \\app ( \\at ( \\at f:inj s:SortAExp ) s:SortKItem ) ( \\app ( \\app f:plus x:0 ) \
             x:1 ) ) ) x:2 ) ( \\app ( \\app f:k ( \\app ( \\at ( \\at f:inj s:SortInt ) \
             s:SortKItem ) d:SortInt:35 ) ) ( \\app ( \\at ( \\at f:inj s:SortId ) s:SortKItem \
             ) f:a ) ) ) ) ) ",
            "p |- ( \\imp ( \\and ( \\fun x:0 s:SortKItem ) \\top ) ( \\not ( \\and ( \\app ( \
             \\app f:k ( \\app ( \\at ( \\at f:inj s:SortInt ) s:SortKItem ) d:SortInt:37 ) ) \
             x:0 ) ( \\app ( \\app f:k ( \\app ( \\at ( \\at f:inj s:SortInt ) s:SortKItem ) \
             d:SortInt:35 ) ) ( \\app ( \\at ( \\at f:inj s:SortId ) s:SortKItem ) f:a ) ) ) ) \
             ) ",
            "p |- ( \\imp ( \\and ( \\fun x:0 s:SortInt ) \\top ) ( \\not ( \\and ( \\app ( \
             \\app f:k ( \\app ( \\at ( \\at f:inj s:SortAExp ) s:SortKItem ) ( \\app ( \\at ( \
             \\at f:inj s:SortInt ) s:SortAExp ) x:0 ) ) ) ( \\app ( \\at ( \\at f:inj \
             s:SortInt ) s:SortKItem ) x:0 ) ) ( \\app ( \\app f:k ( \\app ( \\at ( \\at f:inj \
             s:SortInt ) s:SortKItem ) d:SortInt:35 ) ) ( \\app ( \\at ( \\at f:inj s:SortId ) \
             s:SortKItem ) f:a ) ) ) ) ) ",
        ],
    },
    Case {
        definition: ITEMS,
        term: "k{}(inj{SortAExp{},SortKItem{}}(plus{}(inj{SortId{},SortAExp{}}(a{}()),\
         inj{SortInt{},SortAExp{}}(\\dv{SortInt{}}(\"5\")))),inj{SortInt{},\
         SortKItem{}}(\\dv{SortInt{}}(\"5\")))",
        stated: &[
            "p |- ( \\imp ( \\and ( \\fun x:0 s:SortId ) ( \\and ( \\fun x:1 s:SortKItem ) \
             \\top ) ) ( \\not ( \\and ( \\app ( \\app f:k ( \\app ( \\at ( \\at f:inj s:SortId \
             ) s:SortKItem ) x:0 ) ) x:1 ) ( \\app ( \\app f:k ( \\app ( \\at ( \\at f:inj \
             s:SortAExp ) s:SortKItem ) ( \\app ( \\app f:plus ( \\app ( \\at ( \\at f:inj \
             s:SortId ) s:SortAExp ) f:a ) ) ( \\app ( \\at ( \\at f:inj s:SortInt ) s:SortAExp \
             ) d:SortInt:35 ) ) ) ) ( \\app ( \\at ( \\at f:inj s:SortInt ) s:SortKItem ) \
             d:SortInt:35 ) ) ) ) ) ",
            "p |- ( \\imp ( \\and ( \\and ( \\fun x:0 s:SortAExp ) ( \\and ( \\fun x:1 \
             s:SortAExp ) \\top ) ) ( \\and ( \\app ( \\app f:k ( \\app ( \\at ( \\at f:inj \
             s:SortAExp ) s:SortKItem ) x:0 ) ) ( \\app ( \\at ( \\at f:inj s:SortAExp ) \
             s:SortKItem ) x:1 ) ) ( \\app ( \\app f:k ( \\app ( \\at ( \\at f:inj s:SortAExp ) \
             s:SortKItem ) ( \\app ( \\app f:plus ( \\app ( \\at ( \\at f:inj s:SortId ) \
             s:SortAExp ) f:a ) ) ( \\app ( \\at ( \\at f:inj s:SortInt ) s:SortAExp ) \
             d:SortInt:35 ) ) ) ) ( \\app ( \\at ( \\at f:inj s:SortInt ) s:SortKItem ) \
             d:SortInt:35 ) ) ) ) ( \\and ( \\eq x:0 ( \\app ( \\app f:plus ( \\app ( \\at ( \
             \\at f:inj s:SortId ) s:SortAExp ) f:a ) ) ( \\app ( \\at ( \\at f:inj s:SortInt ) \
             s:SortAExp ) d:SortInt:35 ) ) ) ( \\and ( \\eq x:1 ( \\app ( \\at ( \\at f:inj \
             s:SortInt ) s:SortAExp ) d:SortInt:35 ) ) \\top ) ) ) ",
            "p |- ( \\imp ( \\and ( \\and ( \\fun x:0 s:SortAExp ) ( \\and ( \\fun x:1 \
             s:SortAExp ) ( \\and ( \\fun x:2 s:SortKItem ) \\top ) ) ) ( \\and ( \\app ( \\app \
             f:k ( \\app ( \\at ( \\at f:inj s:SortAExp ) s:SortKItem ) ( \\app ( \\app f:plus \
             x:0 ) x:1 ) ) ) x:2 ) ( \\app ( \\app f:k ( \\app ( \\at ( \\at f:inj s:SortAExp ) \
             s:SortKItem ) ( \\app ( \\app f:plus ( \\app ( \\at ( \\at f:inj s:SortId ) \
             s:SortAExp ) f:a ) ) ( \\app ( \\at ( \\at f:inj s:SortInt ) s:SortAExp ) \
             d:SortInt:35 ) ) ) ) ( \\app ( \\at ( \\at f:inj s:SortInt ) s:SortKItem ) \
             d:SortInt:35 ) ) ) ) ( \\and ( \\eq x:0 ( \\app ( \\at ( \\at f:inj s:SortId ) \
             s:SortAExp ) f:a ) ) ( \\and ( \\eq x:1 ( \\app ( \\at ( \\at f:inj s:SortInt ) \
             s:SortAExp ) d:SortInt:35 ) ) ( \\and ( \\eq x:2 ( \\app ( \\at ( \\at f:inj \
             s:SortInt ) s:SortKItem ) d:SortInt:35 ) ) \\top ) ) ) ) ",
            "p |- ( \\imp ( \\and ( \\fun x:0 s:SortKItem ) \\top ) ( \\not ( \\and ( \\app ( \
             \\app f:k ( \\app ( \\at ( \\at f:inj s:SortInt ) s:SortKItem ) d:SortInt:37 ) ) \
             x:0 ) ( \\app ( \\app f:k ( \\app ( \\at ( \\at f:inj s:SortAExp ) s:SortKItem ) ( \
             \\app ( \\app f:plus ( \\app ( \\at ( \\at f:inj s:SortId ) s:SortAExp ) f:a ) ) ( \
             \\app ( \\at ( \\at f:inj s:SortInt ) s:SortAExp ) d:SortInt:35 ) ) ) ) ( \\app ( \
             \\at ( \\at f:inj s:SortInt ) s:SortKItem ) d:SortInt:35 ) ) ) ) ) ",
            "p |- ( \\imp ( \\and ( \\fun x:0 s:SortInt ) \\top ) ( \\not ( \\and ( \\app ( \
             \\app f:k ( \\app ( \\at ( \\at f:inj s:SortAExp ) s:SortKItem ) ( \\app ( \\at ( \
             \\at f:inj s:SortInt ) s:SortAExp ) x:0 ) ) ) ( \\app ( \\at ( \\at f:inj \
             s:SortInt ) s:SortKItem ) x:0 ) ) ( \\app ( \\app f:k ( \\app ( \\at ( \\at f:inj \
             s:SortAExp ) s:SortKItem ) ( \\app ( \\app f:plus ( \\app ( \\at ( \\at f:inj \
             s:SortId ) s:SortAExp ) f:a ) ) ( \\app ( \\at ( \\at f:inj s:SortInt ) s:SortAExp \
             ) d:SortInt:35 ) ) ) ) ( \\app ( \\at ( \\at f:inj s:SortInt ) s:SortKItem ) \
             d:SortInt:35 ) ) ) ) ) ",
        ],
    },
    Case {
        definition: ITEM,
        term: r#"inj{SortInt{},SortKItem{}}(\dv{SortInt{}}("5"))"#,
        stated: &[
            "p |- ( \\imp ( \\and ( \\fun x:0 s:SortId ) \\top ) ( \\not ( \\and ( \\app ( \\at \
             ( \\at f:inj s:SortId ) s:SortKItem ) x:0 ) ( \\app ( \\at ( \\at f:inj s:SortInt \
             ) s:SortKItem ) d:SortInt:35 ) ) ) ) ",
            "p |- ( \\imp ( \\and ( \\and ( \\fun x:0 s:SortInt ) \\top ) ( \\and ( \\app ( \
             \\at ( \\at f:inj s:SortInt ) s:SortKItem ) x:0 ) ( \\app ( \\at ( \\at f:inj \
             s:SortInt ) s:SortKItem ) d:SortInt:35 ) ) ) ( \\and ( \\eq x:0 d:SortInt:35 ) \
             \\top ) ) ",
        ],
    },
];

/// A value, a constructor and an injection of one sort.
static DIFFERENT: [Case; 3] = [
    Case {
        definition: ROOTS,
        term: r#"v{}(\dv{SortString{}}("x"),\dv{E{}}("x"))"#,
        stated: &[
            "p |- ( \\imp ( \\and ( \\fun x:0 s:E ) \\top ) ( \\not ( \\and ( \\app ( \\app f:v \
             d:SortString:79 ) x:0 ) ( \\app ( \\app f:v d:SortString:78 ) d:E:78 ) ) ) ) ",
            "p |- ( \\imp ( \\and ( \\fun x:0 s:SortString ) \\top ) ( \\not ( \\and ( \\app ( \
             \\app f:v x:0 ) d:E:79 ) ( \\app ( \\app f:v d:SortString:78 ) d:E:78 ) ) ) ) ",
            "p |- ( \\imp ( \\and ( \\fun x:0 s:SortString ) \\top ) ( \\not ( \\and ( \\app ( \
             \\app f:v x:0 ) ( \\app f:c d:SortInt:35 ) ) ( \\app ( \\app f:v d:SortString:78 ) \
             d:E:78 ) ) ) ) ",
            "p |- ( \\imp ( \\and ( \\fun x:0 s:SortString ) ( \\and ( \\fun x:1 s:A ) \\top ) \
             ) ( \\not ( \\and ( \\app ( \\app f:v x:0 ) ( \\app ( \\at ( \\at f:inj s:A ) s:E \
             ) x:1 ) ) ( \\app ( \\app f:v d:SortString:78 ) d:E:78 ) ) ) ) ",
        ],
    },
    Case {
        definition: ROOTS,
        term: r#"v{}(\dv{SortString{}}("x"),c{}(\dv{SortInt{}}("6")))"#,
        stated: &[
            "p |- ( \\imp ( \\and ( \\fun x:0 s:E ) \\top ) ( \\not ( \\and ( \\app ( \\app f:v \
             d:SortString:79 ) x:0 ) ( \\app ( \\app f:v d:SortString:78 ) ( \\app f:c \
             d:SortInt:36 ) ) ) ) ) ",
            "p |- ( \\imp ( \\and ( \\fun x:0 s:SortString ) \\top ) ( \\not ( \\and ( \\app ( \
             \\app f:v x:0 ) d:E:79 ) ( \\app ( \\app f:v d:SortString:78 ) ( \\app f:c \
             d:SortInt:36 ) ) ) ) ) ",
            "p |- ( \\imp ( \\and ( \\fun x:0 s:SortString ) \\top ) ( \\not ( \\and ( \\app ( \
             \\app f:v x:0 ) ( \\app f:c d:SortInt:35 ) ) ( \\app ( \\app f:v d:SortString:78 ) \
             ( \\app f:c d:SortInt:36 ) ) ) ) ) ",
            "p |- ( \\imp ( \\and ( \\fun x:0 s:SortString ) ( \\and ( \\fun x:1 s:A ) \\top ) \
             ) ( \\not ( \\and ( \\app ( \\app f:v x:0 ) ( \\app ( \\at ( \\at f:inj s:A ) s:E \
             ) x:1 ) ) ( \\app ( \\app f:v d:SortString:78 ) ( \\app f:c d:SortInt:36 ) ) ) ) ) ",
        ],
    },
    Case {
        definition: ROOTS,
        term: r#"v{}(\dv{SortString{}}("x"),inj{A{},E{}}(a{}()))"#,
        stated: &[
            "p |- ( \\imp ( \\and ( \\fun x:0 s:E ) \\top ) ( \\not ( \\and ( \\app ( \\app f:v \
             d:SortString:79 ) x:0 ) ( \\app ( \\app f:v d:SortString:78 ) ( \\app ( \\at ( \
             \\at f:inj s:A ) s:E ) f:a ) ) ) ) ) ",
            "p |- ( \\imp ( \\and ( \\fun x:0 s:SortString ) \\top ) ( \\not ( \\and ( \\app ( \
             \\app f:v x:0 ) d:E:79 ) ( \\app ( \\app f:v d:SortString:78 ) ( \\app ( \\at ( \
             \\at f:inj s:A ) s:E ) f:a ) ) ) ) ) ",
            "p |- ( \\imp ( \\and ( \\fun x:0 s:SortString ) \\top ) ( \\not ( \\and ( \\app ( \
             \\app f:v x:0 ) ( \\app f:c d:SortInt:35 ) ) ( \\app ( \\app f:v d:SortString:78 ) \
             ( \\app ( \\at ( \\at f:inj s:A ) s:E ) f:a ) ) ) ) ) ",
            "p |- ( \\imp ( \\and ( \\and ( \\fun x:0 s:SortString ) ( \\and ( \\fun x:1 s:A ) \
             \\top ) ) ( \\and ( \\app ( \\app f:v x:0 ) ( \\app ( \\at ( \\at f:inj s:A ) s:E \
             ) x:1 ) ) ( \\app ( \\app f:v d:SortString:78 ) ( \\app ( \\at ( \\at f:inj s:A ) \
             s:E ) f:a ) ) ) ) ( \\and ( \\eq x:0 d:SortString:78 ) ( \\and ( \\eq x:1 f:a ) \
             \\top ) ) ) ",
        ],
    },
];

/// Parts with names.
static NAMES: [Case; 2] = [
    Case {
        definition: NAMED,
        term: r#"g{}(f{}(p{}()),q{}())"#,
        stated: &[
            "p |- ( \\imp ( \\and ( \\and ( \\fun x:0 s:S ) ( \\and ( \\fun x:1 s:S ) ( \\and ( \
             \\fun x:2 s:S ) \\top ) ) ) ( \\and ( \\app ( \\app f:g ( \\and ( \\app f:f x:0 ) x:1 \
             ) ) x:2 ) ( \\app ( \\app f:g ( \\app f:f f:p ) ) f:q ) ) ) ( \\and ( \\eq x:0 f:p ) \
             ( \\and ( \\eq x:1 ( \\app f:f f:p ) ) ( \\and ( \\eq x:2 f:q ) \\top ) ) ) ) ",
            "p |- ( \\imp ( \\and ( \\and ( \\fun x:0 s:S ) ( \\and ( \\fun x:1 s:S ) ( \\and ( \
             \\fun x:2 s:S ) \\top ) ) ) ( \\and ( \\app ( \\app f:g ( \\and x:0 ( \\app f:f ( \
             \\and f:p x:1 ) ) ) ) x:2 ) ( \\app ( \\app f:g ( \\app f:f f:p ) ) f:q ) ) ) ( \\and \
             ( \\eq x:0 ( \\app f:f f:p ) ) ( \\and ( \\eq x:1 f:p ) ( \\and ( \\eq x:2 f:q ) \
             \\top ) ) ) ) ",
            "p |- ( \\imp ( \\and ( \\fun x:0 s:S ) ( \\and ( \\fun x:1 s:S ) \\top ) ) ( \\not ( \
             \\and ( \\app ( \\app f:g ( \\and f:q x:0 ) ) x:1 ) ( \\app ( \\app f:g ( \\app f:f \
             f:p ) ) f:q ) ) ) ) ",
        ],
    },
    Case {
        definition: NAMED,
        term: r#"g{}(p{}(),p{}())"#,
        stated: &[
            "p |- ( \\imp ( \\and ( \\fun x:0 s:S ) ( \\and ( \\fun x:1 s:S ) ( \\and ( \\fun x:2 \
             s:S ) \\top ) ) ) ( \\not ( \\and ( \\app ( \\app f:g ( \\and ( \\app f:f x:0 ) x:1 ) \
             ) x:2 ) ( \\app ( \\app f:g f:p ) f:p ) ) ) ) ",
            "p |- ( \\imp ( \\and ( \\fun x:0 s:S ) ( \\and ( \\fun x:1 s:S ) ( \\and ( \\fun x:2 \
             s:S ) \\top ) ) ) ( \\not ( \\and ( \\app ( \\app f:g ( \\and x:0 ( \\app f:f ( \\and \
             f:p x:1 ) ) ) ) x:2 ) ( \\app ( \\app f:g f:p ) f:p ) ) ) ) ",
            "p |- ( \\imp ( \\and ( \\fun x:0 s:S ) ( \\and ( \\fun x:1 s:S ) \\top ) ) ( \\not ( \
             \\and ( \\app ( \\app f:g ( \\and f:q x:0 ) ) x:1 ) ( \\app ( \\app f:g f:p ) f:p ) ) \
             ) ) ",
        ],
    },
];

/// A left side with one variable twice does not match a pair of different constants. A clash may be
/// three levels down, or at the root. Each variable is bound to its own tower.
#[test]
fn towers_differ_or_bind_variables(rt: HostRuntime) {
    assert_eq!(rt; first_unproved(rt.alloc(), &TOWERS), None);
}

/// An injected variable does not match what is injected from another sort, unless that is a lower
/// one. Then it is bound to what is injected up to its sort.
#[test]
fn injected_variables_take_lower_sorts(rt: HostRuntime) {
    assert_eq!(rt; first_unproved(rt.alloc(), &INJECTED), None);
}

/// A value, a constructor and an injection differ, and so do two values.
#[test]
fn each_two_roots_differ(rt: HostRuntime) {
    assert_eq!(rt; first_unproved(rt.alloc(), &DIFFERENT), None);
}

/// The name of a part equals the term in its place. The statement has the name where it is written.
/// If a part with a name does not match, the left side does not.
#[test]
fn names_of_parts_are_bound(rt: HostRuntime) {
    assert_eq!(rt; first_unproved(rt.alloc(), &NAMES), None);
}

/// The numbers of the first case and of its first rule of which something else is stated, or of no
/// rule if its proof file is not valid.
fn first_unproved(alloc: Global, cases: &[Case]) -> Option<(usize, Option<usize>)> {
    for (number, case) in cases.iter().enumerate() {
        match unproved(alloc, case) {
            Some(None) => {}
            Some(Some(rule)) => return Some((number, Some(rule))),
            None => return Some((number, None)),
        }
    }
    None
}

/// The number of the first rule of which something else is stated. It is None if the definition or
/// the term is not accepted, or the proof file is not valid.
fn unproved(alloc: Global, case: &Case) -> Option<Option<usize>> {
    let program = program_of(alloc, case.definition)?;
    let config = configuration(alloc, &program, case.term)?;
    match differing(alloc, &program, &config, case.stated) {
        Ok((found, text)) if verify(alloc, &text).is_ok() => Some(found),
        _ => None,
    }
}

/// The number of the first rule of which something else is stated, and the text of the proof file.
fn differing(
    alloc: Global,
    program: &Program,
    config: &Term,
    stated: &[&str],
) -> Result<(Option<usize>, Vec<u8>), AllocError>
    requires well_sorted { IsWellSorted (theory_of program.now) }
    requires no_ac { IsAcFree program.now.sig }
    requires names { HasIdentifierNames program.now.sig }
    requires config { IsConfiguration (theory_of program.now) config.now }
{
    let mut text = Vec::new(alloc);
    let mut writer = Writer::begin(alloc, program, &mut text)?;
    let mut cx = Cx::new(alloc, program);
    for number in 0..program.rules.len() {
        let thm = about_left_side(alloc, &mut cx, number, config)?;
        add_lemma(alloc, &mut cx, &mut writer, &mut text, thm)?;
        if last_stated(&text) != stated.get(number).copied() {
            return Ok((Some(number), text));
        }
    }
    Ok((None, text))
}
