// The text that a string token stands for.

ghost use Rattle.std.specs.Prelude.{◌≡◌, ◌≢◌, ◌<◌, ◌-◌, length, take, drop, slice_index, IfOk};
ghost use Rattle.std.specs.Prelude.{string_bytes};
ghost use Rattle.kore_lex.specs.Value.{string_value};
ghost use Rattle.kore_lex.specs.Tokens.{IsString, IsInner};
ghost use Rattle.kore_lex.specs.Steps.{Took, run_len};

use crate::bytes::{behind, first};
use crate::escape::escape_at;
use std::alloc::{AllocError, Global};

/// The text of a whole string token, without its quotes. Each escape becomes its character. Fails
/// only if memory runs out. Time is linear in the length of the token.
pub fn text_value(alloc: Global, token: &[u8]) -> Result<String, AllocError>
    requires whole { IsString token.now }
    ensures { IfOk result (λ text. string_bytes text ≡ string_value token.now) }
{
    let inner = inner(token);
    let mut text = String::new(alloc);
    let mut at = 0;
    while at < inner.len() {
        at += take_some(&mut text, behind(inner, at))?;
    }
    Ok(text)
}

/// The bytes between the quotes.
fn inner(token: &[u8]) -> &[u8]
    requires { IsString token.now }
    ensures bytes { result.now ≡ take (length token.now - 2) (drop 1 token.now) }
    ensures inner { IsInner result.now }
{
    first(behind(token, 1), token.len() - 2)
}

/// How many bytes there are before the first backslash.
fn run_len(bytes: &[u8]) -> usize
    ensures { result ≡ run_len bytes.now }
{
    bytes.iter().take_while(|byte| **byte != b'\\').count()
}

/// Appends what the bytes at the head stand for: one escape, or the bytes up to the next backslash.
/// Returns how many bytes it took.
fn take_some(text: &mut String, bytes: &[u8]) -> Result<usize, AllocError>
    requires some { 0 < length bytes.now }
    requires inner { IsInner bytes.now }
    ensures { IfOk result (λ n. Took bytes.now (string_bytes text.old) (string_bytes text.new) n) }
{
    if bytes[0] == b'\\' {
        take_escape(text, bytes)
    } else {
        take_run(text, bytes)
    }
}

/// Appends the character of the escape at the head. Returns how many bytes the escape has.
fn take_escape(text: &mut String, bytes: &[u8]) -> Result<usize, AllocError>
    requires some { 0 < length bytes.now }
    requires begins { slice_index bytes.now 0 ≡ 92 }
    requires inner { IsInner bytes.now }
    ensures { IfOk result (λ n. Took bytes.now (string_bytes text.old) (string_bytes text.new) n) }
{
    let Some(escape) = escape_at(behind(bytes, 1)) else {
        unreachable!()
    };
    text.push(escape.character)?;
    Ok(escape.len + 1)
}

/// Appends the bytes before the first backslash. Returns how many they are.
fn take_run(text: &mut String, bytes: &[u8]) -> Result<usize, AllocError>
    requires some { 0 < length bytes.now }
    requires begins { slice_index bytes.now 0 ≢ 92 }
    requires inner { IsInner bytes.now }
    ensures { IfOk result (λ n. Took bytes.now (string_bytes text.old) (string_bytes text.new) n) }
{
    let len = run_len(bytes);
    let Ok(run) = str::from_utf8(first(bytes, len)) else {
        unreachable!()
    };
    text.push_str(run)?;
    Ok(len)
}
