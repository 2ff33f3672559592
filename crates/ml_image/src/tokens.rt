// The numbers of the tokens of sorts, symbols and domain values.
ghost use Rattle.std.specs.Prelude.{◌≡◌, OnOk, ◌<◌, ◌++◌, length, slice_get, string_bytes};
ghost use Rattle.std.specs.Prelude.{option_map, IfOk, Some, codes};
ghost use Rattle.std.specs.Char.{digit_char};
ghost use Rattle.term_core.specs.Values.{value_of};
ghost use Rattle.ml_pat.specs.Named.{token_number, IsNumbered};
ghost use Rattle.ml_image.specs.Tokens.{sort_token, symbol_token, name_at, token_of_sort};
ghost use Rattle.ml_image.specs.Tokens.{token_of_symbol, token_of_value, value_token, hexadecimal};
ghost use Rattle.ml_image.specs.Tokens.{number_in_names};
ghost use Rattle.rule_core.specs.Sorting.{HasValue};
ghost use Rattle.ml_image.specs.Gained.{HasGained};

use itoa::Buffer;
use ml_pat::{ConstNo, MSort, Names};
use rule_core::Signature;
use std::alloc::{AllocError, Global};
use term_core::{SortId, Value};

/// Returns the number of a sort's token. An error: out of memory. The names may have gained tokens
/// even then.
pub fn sort_number(
    alloc: Global,
    sig: &Signature,
    names: &mut Names,
    sort: SortId,
) -> Result<MSort, AllocError>
    requires { sort.0 < length sig.now.sorts }
    ensures number { IfOk result
        (λ s. number_in_names names.new (token_of_sort sig.now sort.0) ≡ Some s.0) }
    ensures names { HasGained sig.now names.old names.new }
{
    let Some(name) = sig.sorts.name(sort.0 as usize) else {
        unreachable!()
    };
    let token = prefixed(alloc, "s:", name)?;
    Ok(MSort(names.number(token.as_str())?))
}

// The number of a symbol's token.
pub(crate) fn symbol_number(
    alloc: Global,
    sig: &Signature,
    names: &mut Names,
    symbol: usize,
) -> Result<ConstNo, AllocError>
    requires { symbol < length sig.now.symbols }
    ensures number { IfOk result
        (λ c. number_in_names names.new (token_of_symbol sig.now symbol) ≡ Some c.0) }
    ensures names { HasGained sig.now names.old names.new }
{
    let Some(name) = sig.symbols.name(symbol) else {
        unreachable!()
    };
    let token = prefixed(alloc, "f:", name)?;
    Ok(ConstNo(names.number(token.as_str())?))
}

// The number of the token of a domain value that the sort has.
pub(crate) fn value_number(
    alloc: Global,
    sig: &Signature,
    names: &mut Names,
    sort: SortId,
    value: &Value,
) -> Result<ConstNo, AllocError>
    requires { HasValue sig.now sort.0 (value_of value.now) }
    ensures number { IfOk result (λ c. number_in_names names.new
        (token_of_value sig.now sort.0 (value_of value.now)) ≡ Some c.0) }
    ensures names { HasGained sig.now names.old names.new }
{
    let Some(name) = sig.sorts.name(sort.0 as usize) else {
        unreachable!()
    };
    let token = value_token(alloc, name, value)?;
    Ok(ConstNo(names.number(token.as_str())?))
}

// The token of a domain value of the sort with this name.
fn value_token(alloc: Global, name: &str, value: &Value) -> Result<String, AllocError>
    ensures { IfOk result
        (λ token. string_bytes token ≡ value_token name.now (value_of value.now)) }
{
    let mut token = prefixed(alloc, "d:", name)?;
    token.push_str(":")?;
    match value {
        Value::Int(n) => push_hexadecimal(&mut token, Buffer::new().format(*n).as_bytes())?,
        Value::Bool(true) => push_hexadecimal(&mut token, b"true")?,
        Value::Bool(false) => push_hexadecimal(&mut token, b"false")?,
        Value::Text(words) => push_hexadecimal(&mut token, words.as_bytes())?,
    }
    Ok(token)
}

// Adds the bytes as hexadecimal digits, two for each byte.
fn push_hexadecimal(token: &mut String, bytes: &[u8]) -> Result<(), AllocError>
    ensures { OnOk result
        (string_bytes token.new ≡ string_bytes token.old ++ hexadecimal bytes.now) }
{
    for byte in bytes {
        token.push(digit(*byte / 16))?;
        token.push(digit(*byte % 16))?;
    }
    Ok(())
}

// The hexadecimal digit of a number below 16.
fn digit(n: u8) -> char
    requires { n < 16 }
    ensures value { result ≡ digit_char n }
    ensures ascii { result < 128 }
{
    if n < 10 {
        (b'0' + n) as char
    } else {
        (b'a' - 10 + n) as char
    }
}

// A name after the prefix that says what kind of name it is.
fn prefixed(alloc: Global, prefix: &str, name: &str) -> Result<String, AllocError>
    ensures { IfOk result (λ token. string_bytes token ≡ prefix.now ++ name.now) }
{
    let mut token = String::from_str(alloc, prefix)?;
    token.push_str(name)?;
    Ok(token)
}
