// The tokens of a program's sorts, symbols and values.

ghost use Rattle.std.specs.Prelude.{◌↔◌, ◌≤◌, ◌^◌, IsTrue, IfOk, length};
ghost use Rattle.std.specs.Str.{IsUtf8};
ghost use Rattle.ml_image.specs.OwnTokens.{IsOwnToken};

use rule_core::Signature;
use std::alloc::{AllocError, Global};
use true_facts::is_value_token;

/// Whether the token is that of a sort, a symbol or a value. It takes time in its length.
pub(crate) fn is_own_token(alloc: Global, sig: &Signature, token: &[u8]) -> Result<bool, AllocError>
    requires text { IsUtf8 token.now }
    requires sorts { length sig.now.sorts ≤ 2 ^ 32 }
    ensures { IfOk result (λ b. IsTrue b ↔ IsOwnToken sig.now token.now) }
{
    let Ok(text) = str::from_utf8(token) else {
        unreachable!()
    };
    if let Some(name) = text.strip_prefix("s:") {
        sig.sorts.names_differ();
        return Ok(sig.sorts.number(name).is_some());
    }
    if let Some(name) = text.strip_prefix("f:") {
        sig.symbols.names_differ();
        return Ok(sig.symbols.number(name).is_some());
    }
    is_value_token(alloc, sig, text)
}
