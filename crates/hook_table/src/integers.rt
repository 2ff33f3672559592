// Hooks on whole numbers. No computation of a value wraps.
ghost use Rattle.std.specs.Prelude.{◌≡◌, ◌<◌, ◌^◌, ℤ, pos, ◌+ℤ◌, ◌-ℤ◌, ◌*ℤ◌, FitsSigned, Ok};
ghost use Rattle.std.specs.Prelude.{int_div, int_rem, int_lt, int_le, unsigned_abs};
ghost use Rattle.std.specs.Prelude.{not as negation};
ghost use Rattle.std.specs.Int.{w128, int_div_euclid, int_rem_euclid, int_min, int_max};
ghost use Rattle.std.specs.Option.{SomeIff};
ghost use Rattle.std.specs.Ordering.{int_eq};
ghost use Rattle.term_core.specs.HookValues.{in_range, unless_zero, unless_negative, complement};
ghost use Rattle.term_core.specs.HookValues.{bitwise_and, bitwise_or, bitwise_xor};

use term_core::NoValue;

// The value of a checked operation. There is none if the result does not fit.
fn ranged(value: Option<i128>) -> Result<i128, NoValue>
    ensures { (z : ℤ) → SomeIff value (FitsSigned w128 z) z → result ≡ in_range z }
{
    value.ok_or(NoValue::Range)
}

// The sum.
pub fn add(x: i128, y: i128) -> Result<i128, NoValue>
    ensures { result ≡ in_range (x +ℤ y) }
{
    ranged(x.checked_add(y))
}

// The difference.
pub fn sub(x: i128, y: i128) -> Result<i128, NoValue>
    ensures { result ≡ in_range (x -ℤ y) }
{
    ranged(x.checked_sub(y))
}

// The product.
pub fn mul(x: i128, y: i128) -> Result<i128, NoValue>
    ensures { result ≡ in_range (x *ℤ y) }
{
    ranged(x.checked_mul(y))
}

// The quotient, rounded towards zero.
pub fn tdiv(x: i128, y: i128) -> Result<i128, NoValue>
    ensures { result ≡ unless_zero y (in_range (int_div x y)) }
{
    if y == 0 {
        return Err(NoValue::ZeroDivisor);
    }
    ranged(x.checked_div(y))
}

// The remainder of that quotient. It has the sign of x.
pub fn tmod(x: i128, y: i128) -> Result<i128, NoValue>
    ensures { result ≡ unless_zero y (Ok (int_rem x y)) }
{
    if y == 0 {
        return Err(NoValue::ZeroDivisor);
    }
    Ok(x.wrapping_rem(y))
}

// The quotient whose remainder is not negative.
pub fn ediv(x: i128, y: i128) -> Result<i128, NoValue>
    ensures { result ≡ unless_zero y (in_range (int_div_euclid x y)) }
{
    if y == 0 {
        return Err(NoValue::ZeroDivisor);
    }
    ranged(x.checked_div_euclid(y))
}

// The remainder of that quotient.
pub fn emod(x: i128, y: i128) -> Result<i128, NoValue>
    ensures { result ≡ unless_zero y (Ok (int_rem_euclid x y)) }
{
    if y == 0 {
        return Err(NoValue::ZeroDivisor);
    }
    Ok(x.wrapping_rem_euclid(y))
}

// Whether x and y are equal.
pub fn eq(x: i128, y: i128) -> bool
    ensures { result ≡ int_eq x y }
{
    x == y
}

// Whether x and y differ.
pub fn ne(x: i128, y: i128) -> bool
    ensures { result ≡ negation (int_eq x y) }
{
    x != y
}

// Whether x is less than y.
pub fn lt(x: i128, y: i128) -> bool
    ensures { result ≡ int_lt x y }
{
    x < y
}

// Whether x is at most y.
pub fn le(x: i128, y: i128) -> bool
    ensures { result ≡ int_le x y }
{
    x <= y
}

// Whether x is greater than y.
pub fn gt(x: i128, y: i128) -> bool
    ensures { result ≡ int_lt y x }
{
    x > y
}

// Whether x is at least y.
pub fn ge(x: i128, y: i128) -> bool
    ensures { result ≡ int_le y x }
{
    x >= y
}

// The smaller of x and y.
pub fn min(x: i128, y: i128) -> Result<i128, NoValue>
    ensures { result ≡ Ok (int_min x y) }
{
    Ok(x.min(y))
}

// The greater of x and y.
pub fn max(x: i128, y: i128) -> Result<i128, NoValue>
    ensures { result ≡ Ok (int_max x y) }
{
    Ok(x.max(y))
}

// The absolute value.
pub fn abs(x: i128) -> Result<i128, NoValue>
    ensures { result ≡ in_range (pos (unsigned_abs x)) }
{
    ranged(x.checked_abs())
}

// The bits that are set in both.
pub fn and(x: i128, y: i128) -> Result<i128, NoValue>
    ensures { result ≡ Ok (bitwise_and x y) }
{
    Ok(x & y)
}

// The bits that are set in at least one.
pub fn or(x: i128, y: i128) -> Result<i128, NoValue>
    ensures { result ≡ Ok (bitwise_or x y) }
{
    Ok(x | y)
}

// The bits that are set in exactly one.
pub fn xor(x: i128, y: i128) -> Result<i128, NoValue>
    ensures { result ≡ Ok (bitwise_xor x y) }
{
    Ok(x ^ y)
}

// Every bit inverted.
pub fn not(x: i128) -> Result<i128, NoValue>
    ensures { result ≡ Ok (complement x) }
{
    Ok(!x)
}

// The product with a power of two.
pub fn shl(x: i128, y: i128) -> Result<i128, NoValue>
    ensures { result ≡ unless_negative y (in_range (x *ℤ pos (2 ^ unsigned_abs y))) }
{
    if y < 0 {
        return Err(NoValue::NegativeShift);
    }
    ranged(shifted(x, y.unsigned_abs()))
}

// The product with a power of two, if it fits. With a power greater than 2^127 only the product of
// 0 fits. A smaller power is split into two factors that fit.
fn shifted(x: i128, by: u128) -> Option<i128>
    ensures { SomeIff result (FitsSigned w128 (x *ℤ pos (2 ^ by))) (x *ℤ pos (2 ^ by)) }
{
    if x == 0 {
        return Some(0);
    }
    if by > 127 {
        return None;
    }
    let half = by as u32 / 2;
    let part = x.checked_mul(power_of_two(half))?;
    part.checked_mul(power_of_two(by as u32 - half))
}

// 2 to the power of `exponent`, which fits.
fn power_of_two(exponent: u32) -> i128
    requires { exponent < 127 }
    ensures { result ≡ pos (2 ^ exponent) }
{
    1 << exponent
}

// The quotient by a power of two, rounded down.
pub fn shr(x: i128, y: i128) -> Result<i128, NoValue>
    ensures { result ≡ unless_negative y (Ok (int_div_euclid x (pos (2 ^ unsigned_abs y)))) }
{
    if y < 0 {
        return Err(NoValue::NegativeShift);
    }
    Ok(halved(x, y.unsigned_abs()))
}

// The same quotient. For a power greater than 2^127 it is the same as for 2^127.
fn halved(x: i128, times: u128) -> i128
    ensures { result ≡ int_div_euclid x (pos (2 ^ times)) }
{
    if times > 127 {
        return x >> 127;
    }
    x >> times as u32
}
