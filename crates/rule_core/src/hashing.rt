// How the names of a text are hashed.
ghost use Rattle.std.specs.Prelude.{◌≡◌};
ghost use Rattle.std.specs.Hash.DefaultHasher.{initial as the_initial, write as the_written};

use std::hash::{BuildHasher, DefaultHasher, Hasher};

/// Hashes the names of a text. The hash of a name is taken from all bytes of the text and then from
/// the name, so whoever changes a name changes the hashes of all names. So it does not help to
/// choose names whose hashes are equal without the text.
#[derive(Clone, Copy)]
pub struct TextHasher {
    /// The hasher after all bytes of the text.
    pub start: DefaultHasher,
}

impl TextHasher {
    /// Hashes names that come from no text.
    pub fn without_text() -> Self
        ensures { result.start ≡ the_initial }
    {
        TextHasher {
            start: DefaultHasher::new(),
        }
    }

    /// Hashes the names of this text. It goes through the text once.
    pub fn of_text(text: &[u8]) -> Self
        ensures { result.start ≡ the_written the_initial text.now }
    {
        let mut start = DefaultHasher::new();
        start.write(text);
        TextHasher { start }
    }
}

impl BuildHasher for TextHasher {
    type Hasher = DefaultHasher;

    ghost build_hasher = { λ h. h.start };

    fn build_hasher(&self) -> DefaultHasher {
        self.start
    }
}
