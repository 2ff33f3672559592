// The type of the names and texts in trees.

ghost use Rattle.std.specs.Prelude.{◌≡◌, true, List, ℕ, IfOk, string_bytes};
ghost use Rattle.std.specs.Str.{is_utf8};

use std::alloc::{AllocError, Global};
use std::marker::Model;

/// A name or a text in a tree. A contract sees the list of its bytes.
#[derive(Drop)]
pub struct Text {
    inner: String,
}

impl Model for Text {
    ghost Value = { List ℕ };

    ghost view = { λ t. string_bytes t.inner };
}

impl Text {
    /// The text of the string. Allocates nothing.
    pub fn new(inner: String) -> Text
        ensures { result ≡ string_bytes inner }
    {
        Text { inner }
    }

    /// The text, borrowed.
    pub fn as_str(&self) -> &str
        ensures { result.now ≡ self.now }
    {
        self.inner.as_str()
    }

    /// The text of these bytes. Fails only if memory runs out.
    pub(crate) fn of_bytes(alloc: Global, bytes: &[u8]) -> Result<Text, AllocError>
        requires { is_utf8 bytes.now ≡ true }
        ensures same { IfOk result (λ t. t ≡ bytes.now) }
    {
        let Ok(text) = str::from_utf8(bytes) else {
            unreachable!()
        };
        Ok(Text::new(String::from_str(alloc, text)?))
    }
}
