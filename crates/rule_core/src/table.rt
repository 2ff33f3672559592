// Names with their numbers and values.
ghost use Rattle.std.specs.Prelude.{◌≡◌, [], ◌∷◌, ◌++◌, length, OnErr, IfOk, slice_get};
ghost use Rattle.std.specs.Prelude.{option_copied, option_map, string_bytes, is_none};
ghost use Rattle.std.specs.Prelude.{if◌then◌else◌, ◌==◌};
ghost use Rattle.rule_core.specs.Named.{number_of_name};
ghost use Rattle.rule_core.specs.DistinctNames.{names_of, AreDistinct};

use crate::hashing::TextHasher;
use indexmap::IndexMap;
use std::alloc::{AllocError, Global};
use std::marker::Model;

/// Values by name. Each name has a number, from 0 without a gap, in the order in which the names
/// came. No name occurs twice. Contracts see a table as the list of its names, each with its value.
/// The index of an entry is its number.
#[derive(Drop)]
pub struct Table<V> {
    entries: IndexMap<String, V, TextHasher>,
}

impl<V> Model for Table<V> {
    ghost use Rattle.std.specs.Prelude.{ℕ, List};

    ghost Value = { List (List ℕ × V) };

    ghost use Rattle.rule_core.specs.TableFields.{entries_of, HasDistinctNames};

    ghost view = { entries_of };

    ghost invariant = { HasDistinctNames };
}

impl<V: Drop> Table<V> {
    /// A table without names, for names that come from no text. It allocates no memory yet.
    pub fn new(alloc: Global) -> Self
        ensures { result ≡ [] }
    {
        Table::hashed_by(alloc, TextHasher::without_text())
    }

    /// A table without names, whose names will be hashed in this way. It allocates no memory yet.
    pub fn hashed_by(alloc: Global, hasher: TextHasher) -> Self
        ensures { result ≡ [] }
    {
        Table {
            entries: IndexMap::with_hasher(alloc, hasher),
        }
    }

    /// How the names are hashed. Contracts do not see it, since no answer depends on it. It is for
    /// other names of the same text.
    pub fn hasher(&self) -> TextHasher {
        *self.entries.hasher()
    }

    /// How many names the table has. This is also the number that the next new name gets.
    pub fn len(&self) -> usize
        ensures { result ≡ length self.now }
    {
        self.entries.len()
    }

    /// Has no effect at run time. It states that no name occurs twice in the table.
    pub fn names_differ(&self)
        ensures { AreDistinct (names_of self.now) }
    {
        let _entries = &self.entries;
    }

    /// Whether the table has no name.
    pub fn is_empty(&self) -> bool
        ensures { result ≡ (length self.now == 0) }
    {
        self.entries.is_empty()
    }

    /// The number of a name, or None if the table does not have it. It costs one hash of the name,
    /// and mostly one comparison.
    pub fn number(&self, name: &str) -> Option<usize>
        ensures { result ≡ number_of_name self.now name.now }
    {
        self.entries.get_index_of(name)
    }

    /// The name with this number, or None if the number is not below `len`. It looks at one entry.
    pub fn name(&self, number: usize) -> Option<&str>
        ensures { option_copied result ≡ option_map (λ e. e.0) (slice_get self.now number) }
    {
        let (name, _) = self.entries.get_index(number)?;
        Some(name.as_str())
    }

    /// The value of the name with this number, or None if the number is not below `len`. It looks
    /// at one entry.
    pub fn value(&self, number: usize) -> Option<&V>
        ensures { option_copied result ≡ option_map (λ e. e.1) (slice_get self.now number) }
    {
        let (_, value) = self.entries.get_index(number)?;
        Some(value)
    }

    /// Gives a new name the next number and a value, and returns true. If the table already has the
    /// name, it returns false and changes nothing. `AllocError`: out of memory. Then nothing
    /// changes either. It costs two look-ups, and sometimes a move of all entries to larger memory.
    pub fn insert(&mut self, name: String, value: V) -> Result<bool, AllocError>
        ensures fresh { IfOk result
            (λ added. added ≡ is_none (number_of_name self.old (string_bytes name))) }
        ensures entries { IfOk result (λ added.
            self.new ≡ (if added then self.old ++ (string_bytes name, value) ∷ [] else self.old)) }
        ensures err { OnErr result (self.new ≡ self.old) }
    {
        if self.number(name.as_str()).is_some() {
            return Ok(false);
        }
        self.entries.insert(name, value)?;
        Ok(true)
    }
}
