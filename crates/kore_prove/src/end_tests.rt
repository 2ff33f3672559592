// Ends of the top call: faults of the desk and of the streams, and verdicts.
use crate::test_calls::{BASE, Case, PROVES, first_failing};
use std::test::Fail;

/// A database with two `$a` and one `$p` statement.
const VALID: &str = "$c t $. $v x $. fx $f t x $. ax $a t x $. ay $a t t $. p $p t x $= fx ax $. ";

/// That database with an invalid proof, which leaves one step too many. Its `$p` statement begins
/// at byte 55.
const INVALID: &str =
    "$c t $. $v x $. fx $f t x $. ax $a t x $. ay $a t t $. p $p t x $= fx fx ax $. ";

/// The word `verify` and a file that is the valid database.
const VERIFIES: Case<'static> = Case {
    words: &["verify", "d.kore"],
    definition: VALID,
    term: INVALID,
    out: "valid 2 1\n",
    ..BASE
};

static ENDS: [Case<'static>; 15] = [
    VERIFIES,
    Case {
        words: &["verify", "t.kore"],
        code: 12,
        out: "invalid 14 at 55\n",
        ..VERIFIES
    },
    Case {
        words: &["verify", "x"],
        code: 5,
        out: "",
        err: "kore_prove: no such file x\n",
        ..VERIFIES
    },
    Case {
        words: &["verify", "d.kore", "t.kore"],
        code: 2,
        out: "",
        err: "kore_prove: bad words\n",
        ..VERIFIES
    },
    Case {
        out_fails: &[1],
        code: 4,
        out: "valid",
        err: "kore_prove: write fault\n",
        ..VERIFIES
    },
    Case {
        words: &["run", "--proof", "p.mm", "d.kore", "--limit", "5", "t.kore"],
        ..PROVES
    },
    Case {
        words: &["run", "d.kore", "t.kore", "--limit", "5", "--proof"],
        code: 2,
        out: "",
        err: "kore_prove: bad words\n",
        ..PROVES
    },
    Case {
        words: &["run", "d.kore", "d.kore", "--limit", "5", "--proof", "p.mm"],
        code: 7,
        out: "",
        err: "kore_prove: term refused 2 at 0\n",
        ..PROVES
    },
    Case {
        out_fails: &[1],
        code: 4,
        out: "stuck",
        err: "kore_prove: write fault\n",
        ..PROVES
    },
    Case {
        desk_fails: &[0],
        code: 3,
        out: "",
        err: "kore_prove: read fault\n",
        ..PROVES
    },
    Case {
        desk_fails: &[1],
        code: 3,
        out: "",
        err: "kore_prove: read fault\n",
        ..BASE
    },
    Case {
        desk_fails: &[5],
        code: 3,
        out: "",
        err: "kore_prove: read fault\n",
        ..PROVES
    },
    Case {
        desk_fails: &[6],
        code: 4,
        out: "",
        err: "kore_prove: write fault\n",
        ..PROVES
    },
    Case {
        desk_fails: &[7],
        code: 4,
        out: "",
        err: "kore_prove: write fault\n",
        ..PROVES
    },
    Case {
        words: &[],
        err_fails: &[1],
        code: 2,
        out: "",
        err: "kore_",
        ..BASE
    },
];

/// Each end has its code, its lines on the output, and its line on the error stream.
#[test]
fn each_end_has_its_code_and_lines(rt: HostRuntime) -> Result<(), Fail> {
    assert_eq!(rt; first_failing(rt.alloc(), &ENDS)?, None);
    Ok(())
}
