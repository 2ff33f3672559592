// Worked examples: databases with their counts or their first fault.

use mm_verify::{VerifyEnd, verify};
use std::alloc::Global;
use std::test::Fail;

/// Two variables of one typecode, and an axiom of both.
const PAIR: &str = "$c t $. $v x y $. fx $f t x $. fy $f t y $. ax $a t x y $. ";

/// The axioms of the Metamath book's first example.
const BOOK: &str =
    "$c 0 + = -> ( ) term wff |- $. $v t r s P Q $. tt $f term t $. tr $f term r $. ts $f term s \
        $. wp $f \
     wff P $. wq $f wff Q $. tze $a term 0 $. tpl $a term ( t + r ) $. weq $a wff t = r $. wim $a \
     wff ( P -> \
     Q ) $. a1 $a |- ( t = r -> ( t = s -> r = s ) ) $. a2 $a |- ( t + 0 ) = t $. ${ min $e |- P \
     $. maj $e \
     |- ( P -> Q ) $. mp $a |- Q $. $} ";

/// A text with its counts, or the kind and the byte of its first fault.
#[derive(Clone, Copy, PartialEq, Eq)]
enum Verdict {
    Valid(u64, u64),
    Invalid(u8, usize),
}

static PROOFS: [(&str, &str, Verdict); 26] = [
    ("", "", Verdict::Valid(0, 0)),
    (PAIR, "th $p t x x $= fx fx ax $.", Verdict::Valid(1, 1)),
    (PAIR, "th $p t x x $= ( ax ) AAB $.", Verdict::Valid(1, 1)),
    (PAIR, "th $p t x x $= ( ax ) AZCB $.", Verdict::Valid(1, 1)),
    (
        PAIR,
        "th $p t x x $= ( ax ) A Z $( a comment $) C B $.",
        Verdict::Valid(1, 1),
    ),
    (
        BOOK,
        "th1 $p |- t = t $= tt tze tpl tt weq tt tt weq tt a2 tt tze tpl tt weq tt tze tpl tt weq \
            tt tt weq \
         wim tt a2 tt tze tpl tt tt a1 mp mp $.",
        Verdict::Valid(7, 1),
    ),
    (
        "$c t $. $v x y $. fx $f t x $. fy $f t y $. ",
        "${ $d x y $. ax $a t x y $. $} ${ $d x y $. th $p t x y $= fx fy ax $. $}",
        Verdict::Valid(1, 1),
    ),
    (PAIR, "th $p t x x $= $.", Verdict::Invalid(12, 59)),
    (PAIR, "th $p t x x $= ? $.", Verdict::Invalid(12, 59)),
    (PAIR, "th $p t x x $= th $.", Verdict::Invalid(12, 59)),
    (
        PAIR,
        "th $p t x x $= later $. later $a t x x $.",
        Verdict::Invalid(12, 59),
    ),
    (
        PAIR,
        "th $p t x x $= ( fx ax ) AAB $.",
        Verdict::Invalid(12, 59),
    ),
    (
        PAIR,
        "th $p t x x $= ( ax ax ) AAB $.",
        Verdict::Invalid(12, 59),
    ),
    (
        PAIR,
        "th $p t x x $= ( ax ) ACB $.",
        Verdict::Invalid(12, 59),
    ),
    (
        PAIR,
        "th $p t x x $= ( ax ) ZAAB $.",
        Verdict::Invalid(12, 59),
    ),
    (
        PAIR,
        "th $p t x x $= ( ax ) AZZAB $.",
        Verdict::Invalid(12, 59),
    ),
    (
        PAIR,
        "th $p t x x $= ( ax ) AABU $.",
        Verdict::Invalid(12, 59),
    ),
    (
        PAIR,
        "th $p t x x $= ( ax ) AAB? $.",
        Verdict::Invalid(12, 59),
    ),
    (PAIR, "th $p t x x $= ( ax AAB $.", Verdict::Invalid(12, 59)),
    (
        PAIR,
        "th $p t x x $= ( ax ) AAYYYYYYYYYYYYYYYYYYYYYYYYYYYYYYYYYYYYYYYYB $.",
        Verdict::Invalid(12, 59),
    ),
    (PAIR, "th $p t x x $= fx ax $.", Verdict::Invalid(13, 59)),
    (
        "$c t $. $v x y $. fx $f t x $. fy $f t y $. ",
        "${ $d x y $. ax $a t x y $. $} th $p t x x $= fx fx ax $.",
        Verdict::Invalid(13, 75),
    ),
    (
        "$c t $. $v x y $. fx $f t x $. fy $f t y $. ",
        "${ $d x y $. ax $a t x y $. $} th $p t x y $= fx fy ax $.",
        Verdict::Invalid(13, 75),
    ),
    (PAIR, "th $p t x x $= fx fx $.", Verdict::Invalid(14, 59)),
    (
        PAIR,
        "th $p t x x $= fx fx fx ax $.",
        Verdict::Invalid(14, 59),
    ),
    (
        PAIR,
        "${ th $p t x x $= fx fx ax $.",
        Verdict::Invalid(10, 59),
    ),
];

/// The verdict on the database that these two texts make.
fn verdict_on(alloc: Global, declared: &str, proved: &str) -> Result<Verdict, Fail> {
    let text = format!(in alloc; "{declared}{proved}")?;
    match verify(alloc, text.as_bytes()) {
        Ok(report) => Ok(Verdict::Valid(report.axioms, report.theorems)),
        Err(VerifyEnd::Invalid(fault)) => Ok(Verdict::Invalid(fault.kind, fault.at)),
        Err(VerifyEnd::Memory) => Err(Fail::from("out of memory")),
    }
}

#[test]
fn databases_have_their_counts_or_their_first_fault(rt: HostRuntime) -> Result<(), Fail> {
    for (declared, proved, expected) in &PROOFS {
        assert!(rt;
            verdict_on(rt.alloc(), declared, proved)? == *expected,
            "{proved}"
        );
    }
    Ok(())
}
