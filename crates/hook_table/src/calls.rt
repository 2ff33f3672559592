// A call of a hook.
ghost use Rattle.std.specs.Prelude.{◌≡◌, ◌↔◌, [], ◌∷◌, IsTrue, Some, map};
ghost use Rattle.term_core.specs.Terms.{integer as whole_number, truth};
ghost use Rattle.term_core.specs.Values.{scalar_value};
ghost use Rattle.term_core.specs.HookValues.{integers as whole, truths as logical};
ghost use Rattle.term_core.specs.HookSignatures.{hook_arguments};
ghost use Rattle.term_core.specs.HookValues.{hook_value, outcome};
ghost use Rattle.hook_table.specs.Rows.{plain_kind};
ghost use Rattle.hook_table.specs.Scalars.{kind_of, plain_outcome};

use crate::rows::table_rows;
use crate::table::{ScalarKind, hook_rows};
use crate::{integers, truths};
use term_core::{HookNo, NoValue, Scalar};

// Calls the function of the row whose number is the hook's.
macro_rules! call_numbered {
    (($hook:expr, $args:expr) $($number:literal => $name:literal [$($kind:ident),*] -> $result:ident = $compute:path;)*) => {
        $(
            if $hook.0 == $number {
                return call_row!($args, $compute, [$($kind),*] -> $result);
            }
        )*
    };
}

// Calls the function of one row, by the kinds of its arguments and of its value.
macro_rules! call_row {
    ($args:expr, $compute:path, [Int] -> Int) => {
        integer($compute(one_integer($args)))
    };
    ($args:expr, $compute:path, [Int, Int] -> Int) => {{
        let (x, y) = two_integers($args);
        integer($compute(x, y))
    }};
    ($args:expr, $compute:path, [Int, Int] -> Bool) => {{
        let (x, y) = two_integers($args);
        Ok(Scalar::Bool($compute(x, y)))
    }};
    ($args:expr, $compute:path, [Bool] -> Bool) => {
        Ok(Scalar::Bool($compute(one_truth($args))))
    };
    ($args:expr, $compute:path, [Bool, Bool] -> Bool) => {{
        let (a, b) = two_truths($args);
        Ok(Scalar::Bool($compute(a, b)))
    }};
}

/// The value of a hook at its arguments, or the only reason why it has none. `fits` tests the
/// requirement. It takes no memory.
pub fn apply<const N: usize>(hook: HookNo, args: &[Scalar; N]) -> Result<Scalar, NoValue>
    requires { hook_arguments hook.0 ≡ Some (map kind_of args.now) }
    ensures { hook_value hook.0 (map scalar_value args.now) ≡ Some (plain_outcome result) }
{
    table_rows!(call_numbered!(hook, args));
    unreachable!()
}

/// Whether a hook has arguments of the same kinds as these. `apply` requires this.
pub fn fits(hook: HookNo, args: &[Scalar]) -> bool
    ensures { IsTrue result ↔ (hook_arguments hook.0 ≡ Some (map kind_of args.now)) }
{
    match hook_rows().get(hook.0 as usize) {
        Some(row) => are_of_kinds(args, row.args),
        None => false,
    }
}

// Whether the scalars have these kinds, in order.
fn are_of_kinds(args: &[Scalar], kinds: &[ScalarKind]) -> bool
    ensures { IsTrue result ↔ (map kind_of args.now ≡ map plain_kind kinds.now) }
{
    if args.len() != kinds.len() {
        return false;
    }
    for (arg, kind) in args.iter().zip(kinds) {
        if !is_of_kind(*arg, *kind) {
            return false;
        }
    }
    true
}

// Whether a scalar has this kind.
fn is_of_kind(arg: Scalar, kind: ScalarKind) -> bool
    ensures { IsTrue result ↔ (kind_of arg ≡ plain_kind kind) }
{
    matches!(
        (arg, kind),
        (Scalar::Int(_), ScalarKind::Int) | (Scalar::Bool(_), ScalarKind::Bool)
    )
}

// The only argument, as a whole number.
fn one_integer(args: &[Scalar]) -> i128
    requires { map kind_of args.now ≡ whole ∷ [] }
    ensures { map scalar_value args.now ≡ whole_number result ∷ [] }
{
    match args {
        [Scalar::Int(x)] => *x,
        _ => unreachable!(),
    }
}

// The two arguments, as whole numbers.
fn two_integers(args: &[Scalar]) -> (i128, i128)
    requires { map kind_of args.now ≡ whole ∷ (whole ∷ []) }
    ensures { map scalar_value args.now ≡ whole_number result.0 ∷ (whole_number result.1 ∷ []) }
{
    match args {
        [Scalar::Int(x), Scalar::Int(y)] => (*x, *y),
        _ => unreachable!(),
    }
}

// The only argument, as a truth value.
fn one_truth(args: &[Scalar]) -> bool
    requires { map kind_of args.now ≡ logical ∷ [] }
    ensures { map scalar_value args.now ≡ truth result ∷ [] }
{
    match args {
        [Scalar::Bool(a)] => *a,
        _ => unreachable!(),
    }
}

// The two arguments, as truth values.
fn two_truths(args: &[Scalar]) -> (bool, bool)
    requires { map kind_of args.now ≡ logical ∷ (logical ∷ []) }
    ensures { map scalar_value args.now ≡ truth result.0 ∷ (truth result.1 ∷ []) }
{
    match args {
        [Scalar::Bool(a), Scalar::Bool(b)] => (*a, *b),
        _ => unreachable!(),
    }
}

// A whole number, or the reason why there is none, as the result of a hook.
fn integer(value: Result<i128, NoValue>) -> Result<Scalar, NoValue>
    ensures { plain_outcome result ≡ outcome whole_number value }
{
    value.map(Scalar::Int)
}
