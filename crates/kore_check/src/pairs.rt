// The `\and` of two patterns.
ghost use Rattle.std.specs.Prelude.{◌≡◌, map};
ghost use Rattle.kore_ast.specs.Plain.{plain_sort, pattern_tree};
ghost use Rattle.kore_check.specs.Pairs.{is_pair as there_is_pair};

use kore_ast::{Op, Pat, Sort};

/// Whether a connective is an `\and` of one sort and two patterns.
pub fn is_pair(op: Op, sorts: &[Sort], args: &[Pat]) -> bool
    ensures { result ≡ there_is_pair op (map plain_sort sorts.now) (map pattern_tree args.now) }
{
    match (op, sorts, args) {
        (Op::And, [_], [_, _]) => true,
        _ => false,
    }
}
