// Values at the ends of the range, and names.
use hook_table::{ScalarKind, apply, find, fits, hook_rows};
use std::process::Abort;
use term_core::{HookNo, NoValue, Scalar};

const MIN: i128 = i128::MIN;

const MAX: i128 = i128::MAX;

// The result of the hook with this name at these arguments. `None` if there is no such hook or the
// arguments do not fit it.
fn value_at<const N: usize>(name: &str, args: &[Scalar; N]) -> Option<Result<Scalar, NoValue>> {
    let hook = find(name.as_bytes())?;
    if fits(hook, args) {
        Some(apply(hook, args))
    } else {
        None
    }
}

fn at_integers(name: &str, x: i128, y: i128) -> Option<Result<Scalar, NoValue>> {
    value_at(name, &[Scalar::Int(x), Scalar::Int(y)])
}

// The name of a hook, two numbers, and the value of the hook at them.
type Row = (&'static str, i128, i128, Result<i128, NoValue>);

// Each hook has its value.
fn expect_values(rt: &impl Abort, rows: &[Row]) {
    for (name, x, y, value) in rows {
        assert_eq!(rt;
            at_integers(name, *x, *y),
            Some(value.map(Scalar::Int)),
            "{name} {x} {y}"
        );
    }
}

static ENDS: [Row; 10] = [
    ("INT.add", MAX, 0, Ok(MAX)),
    ("INT.add", MAX, 1, Err(NoValue::Range)),
    ("INT.add", MIN, MAX, Ok(-1)),
    ("INT.sub", MIN, 1, Err(NoValue::Range)),
    ("INT.sub", -1, MIN, Ok(MAX)),
    ("INT.mul", MIN, 1, Ok(MIN)),
    ("INT.mul", MIN, -1, Err(NoValue::Range)),
    ("INT.mul", MAX, -1, Ok(-MAX)),
    ("INT.min", MIN, MAX, Ok(MIN)),
    ("INT.max", MIN, MAX, Ok(MAX)),
];

// Sums, differences and products in the range and one past its ends.
#[test]
fn computes_at_the_ends(rt: HostRuntime) {
    expect_values(&rt, &ENDS);
}

static DIVISIONS: [Row; 15] = [
    ("INT.tdiv", -7, 3, Ok(-2)),
    ("INT.tmod", -7, 3, Ok(-1)),
    ("INT.ediv", -7, 3, Ok(-3)),
    ("INT.emod", -7, 3, Ok(2)),
    ("INT.ediv", 7, -3, Ok(-2)),
    ("INT.emod", 7, -3, Ok(1)),
    ("INT.tdiv", MIN, -1, Err(NoValue::Range)),
    ("INT.tmod", MIN, -1, Ok(0)),
    ("INT.ediv", MIN, -1, Err(NoValue::Range)),
    ("INT.emod", MIN, -1, Ok(0)),
    ("INT.emod", MIN, MAX, Ok(MAX - 1)),
    ("INT.tdiv", 1, 0, Err(NoValue::ZeroDivisor)),
    ("INT.tmod", MIN, 0, Err(NoValue::ZeroDivisor)),
    ("INT.ediv", 0, 0, Err(NoValue::ZeroDivisor)),
    ("INT.emod", 0, 0, Err(NoValue::ZeroDivisor)),
];

// The quotient rounded towards zero and its remainder, and Euclid's: -7 = -2 * 3 - 1 = -3 * 3 + 2.
#[test]
fn divides(rt: HostRuntime) {
    expect_values(&rt, &DIVISIONS);
}

static BITS: [Row; 17] = [
    ("INT.and", -4, 6, Ok(4)),
    ("INT.or", -4, 6, Ok(-2)),
    ("INT.xor", -4, 6, Ok(-6)),
    ("INT.and", MIN, MAX, Ok(0)),
    ("INT.or", MIN, MAX, Ok(-1)),
    ("INT.xor", MIN, -1, Ok(MAX)),
    ("INT.shl", -1, 127, Ok(MIN)),
    ("INT.shl", 1, 127, Err(NoValue::Range)),
    ("INT.shl", 3, 126, Err(NoValue::Range)),
    ("INT.shl", 0, MAX, Ok(0)),
    ("INT.shl", 1, MAX, Err(NoValue::Range)),
    ("INT.shl", 1, -1, Err(NoValue::NegativeShift)),
    ("INT.shr", -7, 1, Ok(-4)),
    ("INT.shr", MIN, 127, Ok(-1)),
    ("INT.shr", MIN, MAX, Ok(-1)),
    ("INT.shr", MAX, 128, Ok(0)),
    ("INT.shr", 1, MIN, Err(NoValue::NegativeShift)),
];

// Bit operations in two's complement (-4 ends in the bits 1100, and 6 in 0110), and shifts,
// including shifts far past the width.
#[test]
fn works_on_bits(rt: HostRuntime) {
    expect_values(&rt, &BITS);
}

static OF_ONE_NUMBER: [(&str, i128, Result<i128, NoValue>); 4] = [
    ("INT.abs", -MAX, Ok(MAX)),
    ("INT.abs", MIN, Err(NoValue::Range)),
    ("INT.not", MIN, Ok(MAX)),
    ("INT.not", 0, Ok(-1)),
];

// The absolute value, and the complement of the bits.
#[test]
fn works_on_one_number(rt: HostRuntime) {
    for (name, x, value) in &OF_ONE_NUMBER {
        let given = value_at(name, &[Scalar::Int(*x)]);
        assert_eq!(rt; given, Some(value.map(Scalar::Int)), "{name} {x}");
    }
}

static COMPARISONS: [(&str, bool, bool, bool); 6] = [
    ("INT.eq", false, true, false),
    ("INT.ne", true, false, true),
    ("INT.lt", true, false, false),
    ("INT.le", true, true, false),
    ("INT.gt", false, false, true),
    ("INT.ge", false, true, true),
];

// Each comparison of a first number that is less than, equal to or greater than the second.
#[test]
fn compares(rt: HostRuntime) {
    for (name, less, equal, greater) in &COMPARISONS {
        for (x, y, value) in [(MIN, MAX, less), (MIN, MIN, equal), (0, MIN, greater)] {
            assert_eq!(rt;
                at_integers(name, x, y),
                Some(Ok(Scalar::Bool(*value))),
                "{name} {x} {y}"
            );
        }
    }
}

static CONNECTIVES: [(&str, [bool; 4]); 8] = [
    ("BOOL.and", [true, false, false, false]),
    ("BOOL.or", [true, true, true, false]),
    ("BOOL.xor", [false, true, true, false]),
    ("BOOL.implies", [true, false, true, true]),
    ("BOOL.eq", [true, false, false, true]),
    ("BOOL.ne", [false, true, true, false]),
    ("BOOL.andThen", [true, false, false, false]),
    ("BOOL.orElse", [true, true, true, false]),
];

static OPERANDS: [(bool, bool); 4] = [(true, true), (true, false), (false, true), (false, false)];

// The connectives, with their values if both hold, only the first, only the second, and neither.
#[test]
fn connects(rt: HostRuntime) {
    for (name, values) in &CONNECTIVES {
        for ((a, b), value) in OPERANDS.iter().zip(values) {
            let given = value_at(name, &[Scalar::Bool(*a), Scalar::Bool(*b)]);
            assert_eq!(rt; given, Some(Ok(Scalar::Bool(*value))), "{name} {a} {b}");
        }
    }
    let not = value_at("BOOL.not", &[Scalar::Bool(true)]);
    assert_eq!(rt; not, Some(Ok(Scalar::Bool(false))));
}

static NAMES: [(&str, Option<u8>); 7] = [
    ("INT.add", Some(0)),
    ("INT.shr", Some(21)),
    ("BOOL.orElse", Some(30)),
    ("INT.Add", None),
    ("INT.ad", None),
    (" INT.add", None),
    ("", None),
];

// A name that differs from a row's in the case of a letter, in length or by characters around it is
// not the name of a hook. Arguments of another kind or number do not fit.
#[test]
fn refuses_what_is_no_row(rt: HostRuntime) {
    for (name, number) in &NAMES {
        assert_eq!(rt; find(name.as_bytes()).map(|hook| hook.0), *number, "{name}");
    }
    assert_eq!(rt; hook_rows()[7].result, ScalarKind::Bool);
    assert!(rt; !fits(HookNo(0), &[Scalar::Int(1)]));
    assert!(rt; !fits(HookNo(22), &[Scalar::Int(1), Scalar::Int(1)]));
    assert!(rt; !fits(HookNo(31), &[Scalar::Int(1), Scalar::Int(1)]));
}
