// Tokens and their numbers.
ghost use Rattle.std.specs.Prelude.{◌≡◌, [], ◌∷◌, ◌++◌, length, IfOk, OnOk, OnErr, slice_get};
ghost use Rattle.std.specs.Prelude.{option_copied, None};
ghost use Rattle.ml_pat.specs.Named.{token_number, IsNumbered, AreDistinct};

use indexmap::IndexSet;
use std::alloc::{AllocError, Global};
use std::hash::{BuildHasher, DefaultHasher};
use std::marker::Model;

/// The numbers of tokens, from 0 without a gap, in the order in which the tokens came. Contracts
/// see the list of the tokens. The index of a token in the set is its number.
#[derive(Drop)]
pub struct Names {
    tokens: IndexSet<String, TokenHasher>,
}

impl Model for Names {
    ghost use Rattle.std.specs.Prelude.{ℕ, List};

    ghost Value = { List (List ℕ) };

    ghost use Rattle.ml_pat.specs.NamesView.{tokens_of, HasDistinctTokens};

    ghost view = { tokens_of };

    ghost invariant = { HasDistinctTokens };
}

// Hashes each token after what the start has hashed.
#[derive(Clone, Copy)]
struct TokenHasher {
    start: DefaultHasher,
}

impl BuildHasher for TokenHasher {
    type Hasher = DefaultHasher;

    ghost build_hasher = { λ h. h.start };

    fn build_hasher(&self) -> DefaultHasher {
        self.start
    }
}

impl Names {
    /// No names, for tokens that come from no text. It allocates no memory yet.
    pub fn new(alloc: Global) -> Self
        ensures { result ≡ [] }
    {
        Names::hashed_by(alloc, DefaultHasher::new())
    }

    /// No names. Each token will be hashed after what this hasher has hashed. If that is all bytes
    /// of the text that the tokens come from, then whoever changes a token changes the hashes of
    /// all tokens. It allocates no memory yet.
    pub fn hashed_by(alloc: Global, start: DefaultHasher) -> Self
        ensures { result ≡ [] }
    {
        Names {
            tokens: IndexSet::with_hasher(alloc, TokenHasher { start }),
        }
    }

    /// Has no effect at run time. It states that no token has two numbers.
    pub fn tokens_differ(&self)
        ensures { AreDistinct self.now }
    {
        let _tokens = &self.tokens;
    }

    /// The number of the token. A new token gets the next number. An error: out of memory. Then
    /// nothing changes. It costs one hash of the token, and mostly one comparison. A new token costs
    /// the same once more, and sometimes a move of all tokens to larger memory.
    pub fn number(&mut self, token: &str) -> Result<u64, AllocError>
        ensures number { IfOk result (λ no. IsNumbered self.old self.new token.now no) }
        ensures err { OnErr result (self.new ≡ self.old) }
    {
        if let Some(number) = self.known(token) {
            return Ok(number as u64);
        }
        self.add(token)
    }

    // The number of the token, or None if it has no number yet.
    fn known(&self, token: &str) -> Option<usize>
        ensures { result ≡ token_number self.now token.now }
    {
        self.tokens.get_index_of(token)
    }

    // Gives a new token the next number.
    fn add(&mut self, token: &str) -> Result<u64, AllocError>
        requires { token_number self.old token.now ≡ None }
        ensures number { IfOk result (λ no. no ≡ length self.old) }
        ensures tokens { OnOk result (self.new ≡ self.old ++ token.now ∷ []) }
        ensures err { OnErr result (self.new ≡ self.old) }
    {
        let number = self.tokens.len() as u64;
        let alloc = *self.tokens.allocator();
        let held = String::from_str(alloc, token)?;
        self.tokens.insert(held)?;
        Ok(number)
    }

    /// How many tokens have a number.
    pub fn count(&self) -> u64
        ensures { result ≡ length self.now }
    {
        self.tokens.len() as u64
    }

    /// The token with this number, or None if no token has the number. It looks at one token.
    pub fn token(&self, no: u64) -> Option<&str>
        ensures { option_copied result ≡ slice_get self.now no }
    {
        self.tokens.get_index(no as usize).map(String::as_str)
    }
}
