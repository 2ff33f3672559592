// Worked refusals.
use crate::test_calls::{BASE, Case, first_failing};
use crate::test_definitions::*;
use std::test::Fail;

static REFUSALS: [Case<'static>; 22] = [
    Case {
        definition: r#"[a{}("x"#,
        code: 6,
        err: "kore_prove: definition refused 1 at 5\n",
        ..BASE
    },
    Case {
        definition: "[] module M",
        code: 6,
        err: "kore_prove: definition refused 2 at 11\n",
        ..BASE
    },
    Case {
        definition: ASSOCIATIVE_LEFT,
        code: 6,
        err: "kore_prove: definition refused 14 at 112\n",
        ..BASE
    },
    Case {
        definition: INTEGER_FUNCTIONS,
        term: r#"n{}(\dv{SortInt{}}("x"))"#,
        code: 7,
        err: "kore_prove: term refused 11 at 19\n",
        ..BASE
    },
    Case {
        definition: "",
        code: 6,
        err: "kore_prove: definition refused 2 at 0\n",
        ..BASE
    },
    Case {
        words: &[],
        definition: "",
        code: 2,
        err: "kore_prove: bad words\n",
        ..BASE
    },
    Case {
        words: &["run", "d.kore", "t.kore"],
        code: 2,
        err: "kore_prove: bad words\n",
        ..BASE
    },
    Case {
        words: &["run", "d.kore", "t.kore", "--limit", "1000001"],
        code: 2,
        err: "kore_prove: bad words\n",
        ..BASE
    },
    Case {
        words: &["run", "d.kore", "x.kore", "--limit", "5"],
        code: 5,
        err: "kore_prove: no such file x.kore\n",
        ..BASE
    },
    Case {
        term: "a{}() a{}()",
        code: 7,
        err: "kore_prove: term refused 2 at 6\n",
        ..BASE
    },
    Case {
        term: "X:S{}",
        code: 7,
        err: "kore_prove: term refused 26 at 0\n",
        ..BASE
    },
    Case {
        definition: UNBOUND,
        code: 6,
        err: "kore_prove: definition refused 18 at 61\n",
        ..BASE
    },
    Case {
        term: "a{}(a{}())",
        code: 7,
        err: "kore_prove: term refused 8 at 0\n",
        ..BASE
    },
    Case {
        definition: SAME_PAIR,
        term: "pair{}(p{}(),ok{}())",
        code: 7,
        err: "kore_prove: term refused 9 at 13\n",
        ..BASE
    },
    Case {
        definition: "[] module M import N [] endmodule []",
        code: 6,
        err: "kore_prove: definition refused 4 at 12\n",
        ..BASE
    },
    Case {
        definition: "[] module M sort S{} [] sort S{} [] endmodule []",
        code: 6,
        err: "kore_prove: definition refused 5 at 24\n",
        ..BASE
    },
    Case {
        definition: "[] module M symbol a{}() : S{} [] endmodule []",
        code: 6,
        err: "kore_prove: definition refused 6 at 27\n",
        ..BASE
    },
    Case {
        definition: "[] module M sort S{A} [] endmodule []",
        code: 6,
        err: "kore_prove: definition refused 10 at 12\n",
        ..BASE
    },
    Case {
        definition: CYCLE,
        code: 6,
        err: "kore_prove: definition refused 24 at 24\n",
        ..BASE
    },
    Case {
        definition: NO_KIND,
        code: 6,
        err: "kore_prove: definition refused 25 at 69\n",
        ..BASE
    },
    Case {
        definition: PRIORITY,
        code: 6,
        err: "kore_prove: definition refused 23 at 61\n",
        ..BASE
    },
    Case {
        words: &[
            "run", "d.kore", "t.kore", "--limit", "5", "--calls", "10000001",
        ],
        definition: COUNTING,
        code: 2,
        err: "kore_prove: bad words\n",
        ..BASE
    },
];

/// What is no command, not there or not accepted gets its code and its line.
#[test]
fn what_is_refused_gets_its_line(rt: HostRuntime) -> Result<(), Fail> {
    assert_eq!(rt; first_failing(rt.alloc(), &REFUSALS)?, None);
    Ok(())
}
