// What databases justify over a definition.
use crate::test_calls::{BASE, Case, Faults, PROVES, call, call_with, first_failing};
use crate::test_definitions::SAME_PAIR;
use std::alloc::{AllocError, Global};
use std::test::Fail;

/// A check of the file `t.kore` over the definition `d.kore`. The database is empty.
const CHECKS: Case<'static> = Case {
    words: &["check", "d.kore", "t.kore"],
    term: "",
    code: 13,
    out: "unjustified 1 at 0\n",
    ..BASE
};

/// Databases that justify nothing, and files that are not read.
static REFUSED: [Case<'static>; 9] = [
    CHECKS,
    Case {
        term: "$c t $. $v x $. fx $f t x $. ax $a t x $. ",
        out: "unjustified 2 at 16\n",
        ..CHECKS
    },
    Case {
        term: "$c #Pattern f:z $. ax $a #Pattern f:z $.",
        out: "unjustified 3 at 19\n",
        ..CHECKS
    },
    Case {
        term: "$c #Pattern f:a $. ax $a #Pattern f:a $.",
        out: "unjustified 1 at 19\n",
        ..CHECKS
    },
    Case {
        term: "$c t $. p $p t $= $.",
        code: 12,
        out: "invalid 12 at 8\n",
        ..CHECKS
    },
    Case {
        words: &["check", "x", "t.kore"],
        code: 5,
        out: "",
        err: "kore_prove: no such file x\n",
        ..CHECKS
    },
    Case {
        words: &["check", "d.kore", "x"],
        code: 5,
        out: "",
        err: "kore_prove: no such file x\n",
        ..CHECKS
    },
    Case {
        words: &["check", "t.kore", "d.kore"],
        code: 6,
        out: "",
        err: "kore_prove: definition refused 2 at 0\n",
        ..CHECKS
    },
    Case {
        out_fails: &[1],
        code: 4,
        out: "unjus",
        err: "kore_prove: write fault\n",
        ..CHECKS
    },
];

#[test]
fn what_is_not_justified_is_refused(rt: HostRuntime) -> Result<(), Fail> {
    let failing = first_failing(rt.alloc(), &REFUSED)?;
    assert_eq!(rt; failing, None);
    Ok(())
}

/// Definitions over which the proof of a run from `a` to `c` is checked.
static OVER: [Case<'static>; 2] = [
    Case {
        code: 0,
        out: "justified\nf:a\nf:c\n",
        ..CHECKS
    },
    Case {
        definition: SAME_PAIR,
        out: "unjustified 3 at 5978\n",
        ..CHECKS
    },
];

#[test]
fn a_proof_is_one_over_its_definition_only(rt: HostRuntime) -> Result<(), Fail> {
    let proof = proof_of_two_steps(rt.alloc())?;
    assert!(rt; proof.is_some());
    let checked = first_wrong(rt.alloc(), proof.as_deref().unwrap_or(""))?;
    assert_eq!(rt; checked, None);
    Ok(())
}

/// Whether the check of a proof over a definition says that it is justified.
pub(crate) fn is_justified<'t>(
    alloc: Global,
    definition: &'t str,
    proof: &'t [u8],
) -> Result<bool, AllocError> {
    let Ok(text) = str::from_utf8(proof) else {
        return Ok(false);
    };
    let over = Case {
        definition,
        term: text,
        ..CHECKS
    };
    let faults = Faults {
        most: 100_000,
        desk: &[],
        out: &[],
        err: &[],
    };
    let left = call_with(alloc, &over, faults)?;
    Ok(left.code == 0)
}

/// The text of the proof of the run of two steps.
fn proof_of_two_steps(alloc: Global) -> Result<Option<String>, AllocError> {
    let (desk, _) = call(alloc, &PROVES)?;
    match desk.file("p.mm") {
        None => Ok(None),
        Some(bytes) => match str::from_utf8(bytes) {
            Err(_) => Ok(None),
            Ok(text) => Ok(Some(String::from_str(alloc, text)?)),
        },
    }
}

/// The number of the first definition over which the check of this proof has another result than
/// expected.
fn first_wrong(alloc: Global, proof: &str) -> Result<Option<usize>, AllocError> {
    for (number, case) in OVER.iter().enumerate() {
        let over = Case {
            term: proof,
            ..*case
        };
        let (_, holds) = call(alloc, &over)?;
        if !holds {
            return Ok(Some(number));
        }
    }
    Ok(None)
}
