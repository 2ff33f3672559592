// The rules by the bytes of their axioms.
ghost use Rattle.std.specs.Prelude.{◌≡◌, ◌<◌, ◌≤◌, ◌^◌, IfOk, length, Some, slice_get};
ghost use Rattle.rule_core.specs.ProgramView.{theory_of, rewrite_rule};
ghost use Rattle.hint_file.specs.ReadAnswers.{NumbersRules};

use rule_core::{Program, Rule};
use std::alloc::{AllocError, Global};
use std::collections::BTreeMap;

// The number of the rule at each byte. If several were at one byte, it would be the first of them.
pub(crate) fn rule_numbers(
    alloc: Global,
    program: &Program,
) -> Result<BTreeMap<u64, u32>, AllocError>
    requires { length (theory_of program.now).rules ≤ 2 ^ 32 }
    ensures { IfOk result (NumbersRules (theory_of program.now)) }
{
    let mut numbers = BTreeMap::new(alloc);
    let mut i = program.rules.len();
    while i > 0 {
        i -= 1;
        numbers.insert(u64::from(program.rules[i].at), i as u32)?;
    }
    Ok(numbers)
}

// The rule with this number.
pub(crate) fn rule_of(program: &Program, number: u32) -> &Rule
    requires { number < length (theory_of program.now).rules }
    ensures { slice_get (theory_of program.now).rules number ≡ Some (rewrite_rule result.now) }
{
    &program.rules[number as usize]
}
