// Tokens with what they name.

ghost use Rattle.std.specs.Prelude.{◌≡◌, true};
ghost use Rattle.mm_frame.specs.ShortWords.{IsFront};

use crate::names::Name;

/// How many bytes of a token its entry holds. A token of at most this length is compared without a
/// look at the text.
const SHORT: usize = 16;

/// A token with what it names.
#[derive(Clone, Copy)]
pub(crate) struct Entry<'a> {
    pub(crate) word: &'a [u8],
    front: [u8; SHORT],
    pub(crate) name: Name,
    ghost fronts: { IsFront front word.now },
}

impl<'a> Entry<'a> {
    /// The entry of a token.
    pub(crate) fn new(word: &'a [u8], name: Name) -> Self
        ensures word { result.word.now ≡ word.now }
        ensures name { result.name ≡ name }
    {
        Entry {
            word,
            front: front(word),
            name,
        }
    }

    /// Whether it is the entry of this token.
    pub(crate) fn is_of(&self, word: &[u8]) -> bool
        ensures { result ≡ true → self.now.word.now ≡ word.now }
    {
        if self.word.len() != word.len() {
            return false;
        }
        if word.len() <= SHORT {
            &self.front[..word.len()] == word
        } else {
            self.word == word
        }
    }
}

/// A short token with zeros after it; for a longer token, only zeros.
fn front(word: &[u8]) -> [u8; SHORT]
    ensures { IsFront result word.now }
{
    let mut front = [0u8; SHORT];
    if word.len() <= SHORT {
        front[..word.len()].copy_from_slice(word);
    }
    front
}
