// What tokens name.

ghost use Rattle.mm_frame.specs.EntriesView.{AreKnown};

use crate::entries::Entry;
use std::alloc::{AllocError, Global};
use std::collections::BTreeMap;

/// How many slots a token has to choose from.
const NEAR: usize = 4;

/// How many slots there are at first.
const FIRST_SLOTS: usize = 64;

/// What an empty slot holds: the number of no entry.
const EMPTY: u32 = u32::MAX;

/// What a token names. Symbols, hypotheses and assertions have numbers in the order in which they
/// came.
#[derive(Clone, Copy)]
pub enum Name {
    Constant(u32),
    Variable(u32),
    Hypothesis(usize),
    Assertion(usize),
}

/// Tokens with what they name. There is an ordered map, and in front of it a table of slots. A slot
/// holds the number of an entry.
///
/// A look-up compares the token with the entries of at most four slots, which its bytes select. If
/// none of these has the token, it is looked up in the map. This takes time in the token's length.
/// The worst case, for any choice of tokens, is four comparisons and one look-up in the map. Slots
/// are not trusted: an entry counts only if it has the token that is looked up.
#[derive(Drop)]
pub struct Names<'a> {
    ordered: BTreeMap<&'a [u8], Name>,
    entries: Vec<Entry<'a>>,
    slots: Vec<u32>,
    ghost known: { AreKnown ordered entries.items },
}

impl<'a> Names<'a> {
    ghost use Rattle.std.specs.Prelude.{◌≡◌, ◌<◌, IfOk, IfSome, None, Some, option_map, slice_get};
    ghost use Rattle.std.specs.Prelude.{vec_len};
    ghost use Rattle.mm_text.specs.Bytes.{Token};
    ghost use Rattle.mm_frame.specs.KnownNames.{Renames};
    ghost use Rattle.mm_frame.specs.NamesView.{names_in};

    /// No names. Takes no memory yet.
    pub fn new(alloc: Global) -> Self
        ensures { (token : Token) → names_in result token ≡ None }
    {
        Names {
            ordered: BTreeMap::new(alloc),
            entries: Vec::new(alloc),
            slots: Vec::new(alloc),
        }
    }

    /// What the token names.
    pub fn get(&self, word: &'a [u8]) -> Option<Name>
        ensures { result ≡ names_in self.now word.now }
    {
        match self.near(word) {
            Some(name) => Some(name),
            None => self.ordered.get(&word).copied(),
        }
    }

    /// What the token names, if one of its slots has its entry.
    fn near(&self, word: &[u8]) -> Option<Name>
        ensures { IfSome result (λ name. names_in self.now word.now ≡ Some name) }
    {
        let mixed = mixed(word);
        for step in 0..NEAR {
            let number = self.slots.get(slot(mixed, step, self.slots.len()))?;
            let entry = self.entry(*number as usize)?;
            if entry.is_of(word) {
                return Some(entry.name);
            }
        }
        None
    }

    /// The entry with this number.
    fn entry(&self, number: usize) -> Option<&Entry<'a>>
        ensures { option_map (λ e. e.now) result ≡ slice_get self.now.entries.items number }
    {
        self.entries.get(number)
    }

    /// Gives a token a name. If it had one, all entries are forgotten and only the map is left.
    pub fn insert(&mut self, word: &'a [u8], name: Name) -> Result<(), AllocError>
        ensures { IfOk result
            (λ _. Renames (names_in self.old) word.now name (names_in self.new)) }
    {
        self.entries.reserve(1)?;
        match self.ordered.insert(word, name) {
            Err(_) => Err(AllocError),
            Ok(Some(_)) => {
                self.entries.clear();
                Ok(())
            }
            Ok(None) => {
                self.entries.push(Entry::new(word, name)).unwrap();
                self.put_last()
            }
        }
    }

    /// Gives the last entry a slot. Keeps at least twice as many slots as entries.
    fn put_last(&mut self) -> Result<(), AllocError>
        ensures { self.new.ordered ≡ self.old.ordered }
    {
        let count = self.entries.len();
        if count > self.slots.len() / 2 {
            return self.put_all();
        }
        if count > 0 {
            self.put(count - 1);
        }
        Ok(())
    }

    /// Doubles the number of slots, and gives each entry a slot.
    fn put_all(&mut self) -> Result<(), AllocError>
        ensures { self.new.ordered ≡ self.old.ordered }
    {
        let count = self.slots.len().saturating_mul(2).max(FIRST_SLOTS);
        self.slots.clear();
        self.slots.resize(count, EMPTY)?;
        for i in 0..self.entries.len() {
            self.put(i);
        }
        Ok(())
    }

    /// Gives an entry the first of its slots that is empty, if one is.
    fn put(&mut self, number: usize)
        ensures ordered { self.new.ordered ≡ self.old.ordered }
        ensures entries { self.new.entries ≡ self.old.entries }
    {
        let Some(entry) = self.entries.get(number) else {
            return;
        };
        if let Some(at) = self.empty_slot(entry.word) {
            self.slots[at] = u32::try_from(number).unwrap_or(EMPTY);
        }
    }

    /// The first of a token's slots that is empty.
    fn empty_slot(&self, word: &[u8]) -> Option<usize>
        ensures { IfSome result (λ at. at < vec_len self.now.slots) }
    {
        let mixed = mixed(word);
        for step in 0..NEAR {
            let at = slot(mixed, step, self.slots.len());
            if at < self.slots.len() && self.slots[at] == EMPTY {
                return Some(at);
            }
        }
        None
    }
}

/// The bytes of a token, mixed into one number, eight bytes at a time.
fn mixed(word: &[u8]) -> u64 {
    let mut sum = word.len() as u64;
    let mut rest = word;
    while rest.len() >= 8 {
        let eight = [
            rest[0], rest[1], rest[2], rest[3], rest[4], rest[5], rest[6], rest[7],
        ];
        sum = stirred(sum ^ u64::from_le_bytes(eight));
        rest = &rest[8..];
    }
    let mut last: u64 = 0;
    for byte in rest {
        last = last << 8 | *byte as u64;
    }
    stirred(sum ^ last)
}

/// The number with its bits mixed. The product mixes each bit into the bits above it, and then the
/// upper half is mixed into the lower one.
fn stirred(sum: u64) -> u64 {
    let product = sum.wrapping_mul(0x9e37_79b9_7f4a_7c15);
    product ^ product >> 32
}

/// The place of a slot. `count` is how many slots there are, a power of two.
fn slot(mixed: u64, step: usize, count: usize) -> usize {
    (mixed as usize).wrapping_add(step) & count.wrapping_sub(1)
}
