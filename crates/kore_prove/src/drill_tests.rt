// Drills.
use crate::test_calls::{BASE, Case, call, first_failing};
use mm_verify::verify;
use std::test::Fail;

const ONE_STEP: Case<'static> = Case {
    words: &["drill", "1", "p.mm"],
    out: "stuck 1\nst{}(c1{}(),\\dv{SortInt{}}(\"0\"))\nfacts 3 statements 106 bytes 9395\n",
    ..BASE
};

/// The drills of one step and of two.
static DRILLS: [Case<'static>; 2] = [
    ONE_STEP,
    Case {
        words: &["drill", "2", "p.mm"],
        out: "stuck 2\nst{}(c2{}(),\\dv{SortInt{}}(\"1\"))\nfacts 4 statements 112 bytes 10989\n",
        ..BASE
    },
];

/// The lines of a drill state its run and the counts of its file. The file is a valid proof, and
/// the same each time.
#[test]
fn a_drill_leaves_its_proof(rt: HostRuntime) -> Result<(), Fail> {
    let alloc = rt.alloc();
    for case in &DRILLS {
        let (desk, holds) = call(alloc, case)?;
        assert!(rt; holds);
        let database = desk.file("p.mm").unwrap_or_default();
        assert!(rt; verify(alloc, database).is_ok());
        let (again, _) = call(alloc, case)?;
        assert!(rt; again.file("p.mm") == Some(database));
    }
    Ok(())
}

const BAD_WORDS: Case<'static> = Case {
    code: 2,
    err: "kore_prove: bad words\n",
    ..BASE
};

const WRITE_FAULT: Case<'static> = Case {
    code: 4,
    err: "kore_prove: write fault\n",
    ..ONE_STEP
};

static OTHER_ENDS: [Case<'static>; 5] = [
    Case {
        words: &["drill", "0", "p.mm"],
        ..BAD_WORDS
    },
    Case {
        words: &["drill", "1001", "p.mm"],
        ..BAD_WORDS
    },
    Case {
        words: &["drill", "1"],
        ..BAD_WORDS
    },
    Case {
        desk_fails: &[0],
        out: "",
        ..WRITE_FAULT
    },
    Case {
        out_fails: &[1],
        out: "stuck",
        ..WRITE_FAULT
    },
];

/// Bad words, and faults in writing the file and the output.
#[test]
fn a_drill_ends_otherwise(rt: HostRuntime) -> Result<(), Fail> {
    assert_eq!(rt; first_failing(rt.alloc(), &OTHER_ENDS)?, None);
    Ok(())
}
