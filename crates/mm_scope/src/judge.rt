// Which fault a statement has, and what it declares if it has none.

ghost use Rattle.std.specs.Prelude.{◌≡◌, IfOk, option_map, is_none, is_some};
ghost use Rattle.std.specs.List.{list_any, list_all};
ghost use Rattle.mm_text.specs.Reader.{words_of};
ghost use Rattle.mm_text.specs.Labels.{is_label, is_label_byte};
ghost use Rattle.mm_frame.specs.PlainFrames.{items_of, plain_hypothesis};
ghost use Rattle.mm_scope.specs.ScopeState.{scope_state};
ghost use Rattle.mm_scope.specs.StateTests.{numbers_in, is_active_in, constant_in, label_in};
ghost use Rattle.mm_scope.specs.StateTests.{redeclares_constant, redeclares_variable};
ghost use Rattle.mm_scope.specs.StateFaults.{Judges, plain_stated, floating_in, stated_in};
ghost use Rattle.mm_scope.specs.StateFaults.{disjoint_in};
ghost use Rattle.mm_scope.specs.StateFaults.{constants_fault, variables_fault};
ghost use Rattle.mm_text.specs.Bytes.{has_repeated};

use crate::scopes::{Need, Scopes};
use mm_frame::{Hyp, Name};
use mm_text::MmToken;
use std::alloc::{AllocError, Global};
use std::collections::BTreeMap;

/// Why a statement is refused: it has a fault of this kind, or memory ran out.
#[derive(Clone, Copy)]
pub(crate) enum Refusal {
    Fault(u8),
    Memory,
}

/// A new label, and symbols that may be stated under it.
#[derive(Drop)]
pub(crate) struct Stated<'a> {
    pub(crate) label: &'a [u8],
    pub(crate) statement: Vec<u32>,
}

impl<'a> Scopes<'a> {
    /// The numbers of symbols, if each is what is needed.
    fn numbers(
        &self,
        alloc: Global,
        need: Need,
        bytes: &'a [u8],
        tokens: &[MmToken],
    ) -> Result<Option<Vec<u32>>, AllocError>
        ensures { IfOk result
            (λ r. option_map items_of r
            ≡ numbers_in (scope_state self.now) need (words_of bytes.now tokens.now)) }
    {
        let mut numbers = Vec::with_capacity(alloc, tokens.len())?;
        for token in tokens {
            match self.number(need, token.word(bytes)) {
                None => return Ok(None),
                Some(n) => numbers.push(n)?,
            }
        }
        Ok(Some(numbers))
    }

    /// Whether each symbol is a constant or an active variable.
    fn are_active(&self, bytes: &'a [u8], tokens: &[MmToken]) -> bool
        ensures { result
            ≡ list_all (is_active_in (scope_state self.now)) (words_of bytes.now tokens.now) }
    {
        for token in tokens {
            if self.number(Need::Active, token.word(bytes)).is_none() {
                return false;
            }
        }
        true
    }

    /// The number of a constant.
    fn constant(&self, word: &'a [u8]) -> Option<u32>
        ensures { result ≡ constant_in (scope_state self.now) word.now }
    {
        match self.name(word)? {
            Name::Constant(n) => Some(n),
            _ => None,
        }
    }

    /// The only label of a statement, if it is spelled as a label and is not in use.
    fn new_label(&self, bytes: &'a [u8], labels: &[MmToken]) -> Option<&'a [u8]>
        ensures { option_map (λ l. l.now) result
            ≡ label_in (scope_state self.now) (words_of bytes.now labels.now) }
    {
        if labels.len() != 1 {
            return None;
        }
        let word = labels[0].word(bytes);
        if is_label(word) && self.name(word).is_none() {
            Some(word)
        } else {
            None
        }
    }

    /// The hypothesis of a `$f`.
    pub(crate) fn floating(
        &self,
        bytes: &'a [u8],
        labels: &[MmToken],
        symbols: &[MmToken],
    ) -> Result<Hyp<'a>, Refusal>
        ensures { Judges plain_hypothesis result
            (floating_in (scope_state self.now) (words_of bytes.now labels.now)
            (words_of bytes.now symbols.now)) }
    {
        if !self.are_active(bytes, symbols) {
            return Err(Refusal::Fault(6));
        }
        if symbols.len() != 2 {
            return Err(Refusal::Fault(7));
        }
        let Some(typecode) = self.constant(symbols[0].word(bytes)) else {
            return Err(Refusal::Fault(7));
        };
        let Some(variable) = self.number(Need::Variable, symbols[1].word(bytes)) else {
            return Err(Refusal::Fault(7));
        };
        if self.has_type(variable) {
            return Err(Refusal::Fault(8));
        }
        match self.new_label(bytes, labels) {
            None => Err(Refusal::Fault(11)),
            Some(label) => Ok(Hyp::Floating(label, typecode, variable)),
        }
    }

    /// The label and the symbols of an `$e`, `$a` or `$p`.
    pub(crate) fn stated(
        &self,
        alloc: Global,
        bytes: &'a [u8],
        labels: &[MmToken],
        symbols: &[MmToken],
    ) -> Result<Stated<'a>, Refusal>
        ensures { Judges plain_stated result
            (stated_in (scope_state self.now) (words_of bytes.now labels.now)
            (words_of bytes.now symbols.now)) }
    {
        let statement = match self.numbers(alloc, Need::Typed, bytes, symbols) {
            Err(_) => return Err(Refusal::Memory),
            Ok(None) => return Err(Refusal::Fault(6)),
            Ok(Some(statement)) => statement,
        };
        if symbols.is_empty() || self.constant(symbols[0].word(bytes)).is_none() {
            return Err(Refusal::Fault(7));
        }
        match self.new_label(bytes, labels) {
            None => Err(Refusal::Fault(11)),
            Some(label) => Ok(Stated { label, statement }),
        }
    }

    /// The variables of a `$d`.
    pub(crate) fn separated(
        &self,
        alloc: Global,
        bytes: &'a [u8],
        labels: &[MmToken],
        symbols: &[MmToken],
    ) -> Result<Vec<u32>, Refusal>
        ensures { Judges items_of result
            (disjoint_in (scope_state self.now) (words_of bytes.now labels.now)
            (words_of bytes.now symbols.now)) }
    {
        let variables = match self.numbers(alloc, Need::Variable, bytes, symbols) {
            Err(_) => return Err(Refusal::Memory),
            Ok(None) => return Err(Refusal::Fault(6)),
            Ok(Some(variables)) => variables,
        };
        let repeated = match has_repeated(alloc, bytes, symbols) {
            Err(_) => return Err(Refusal::Memory),
            Ok(repeated) => repeated,
        };
        if symbols.len() < 2 || repeated {
            return Err(Refusal::Fault(9));
        }
        if labels.is_empty() {
            Ok(variables)
        } else {
            Err(Refusal::Fault(11))
        }
    }

    /// Whether one of the symbols of a `$c` names something already.
    fn redeclare_constants(&self, bytes: &'a [u8], symbols: &[MmToken]) -> bool
        ensures { result
            ≡ list_any (redeclares_constant (scope_state self.now))
            (words_of bytes.now symbols.now) }
    {
        for token in symbols {
            if self.name(token.word(bytes)).is_some() {
                return true;
            }
        }
        false
    }

    /// Whether one of the symbols of a `$v` already names something other than an inactive
    /// variable.
    fn redeclare_variables(&self, bytes: &'a [u8], symbols: &[MmToken]) -> bool
        ensures { result
            ≡ list_any (redeclares_variable (scope_state self.now))
            (words_of bytes.now symbols.now) }
    {
        for token in symbols {
            if self.redeclares_variable(token.word(bytes)) {
                return true;
            }
        }
        false
    }

    fn redeclares_variable(&self, word: &'a [u8]) -> bool
        ensures { result ≡ redeclares_variable (scope_state self.now) word.now }
    {
        match self.name(word) {
            None => false,
            Some(name) => match name {
                Name::Variable(n) => self.is_active_variable(n),
                _ => true,
            },
        }
    }

    /// The fault of a `$c`, if it has one.
    pub(crate) fn constants_fault(
        &self,
        alloc: Global,
        bytes: &'a [u8],
        labels: &[MmToken],
        symbols: &[MmToken],
    ) -> Result<Option<u8>, AllocError>
        ensures { IfOk result (λ r. r
            ≡ constants_fault (scope_state self.now) (words_of bytes.now labels.now)
            (words_of bytes.now symbols.now)) }
    {
        if !self.blocks.is_empty() {
            return Ok(Some(4));
        }
        let repeated = has_repeated(alloc, bytes, symbols)?;
        if self.redeclare_constants(bytes, symbols) || repeated {
            return Ok(Some(5));
        }
        Ok(if labels.is_empty() { None } else { Some(11) })
    }

    /// The fault of a `$v`, if it has one.
    pub(crate) fn variables_fault(
        &self,
        alloc: Global,
        bytes: &'a [u8],
        labels: &[MmToken],
        symbols: &[MmToken],
    ) -> Result<Option<u8>, AllocError>
        ensures { IfOk result (λ r. r
            ≡ variables_fault (scope_state self.now) (words_of bytes.now labels.now)
            (words_of bytes.now symbols.now)) }
    {
        let repeated = has_repeated(alloc, bytes, symbols)?;
        if self.redeclare_variables(bytes, symbols) || repeated {
            return Ok(Some(5));
        }
        Ok(if labels.is_empty() { None } else { Some(11) })
    }
}

/// Whether a token occurs twice.
fn has_repeated(alloc: Global, bytes: &[u8], tokens: &[MmToken]) -> Result<bool, AllocError>
    ensures { IfOk result (λ r. r ≡ has_repeated (words_of bytes.now tokens.now)) }
{
    let mut seen = BTreeMap::new(alloc);
    let mut at = tokens.len();
    while at > 0 {
        at -= 1;
        if seen.insert(tokens[at].word(bytes), ())?.is_some() {
            return Ok(true);
        }
    }
    Ok(false)
}

/// Whether the token is spelled as a label.
fn is_label(word: &[u8]) -> bool
    ensures { result ≡ is_label word.now }
{
    for byte in word {
        if !is_label_byte(*byte) {
            return false;
        }
    }
    !word.is_empty()
}

/// A letter, a digit, `-`, `_` or `.`.
fn is_label_byte(byte: u8) -> bool
    ensures { result ≡ is_label_byte byte }
{
    b'a' <= byte && byte <= b'z'
        || b'A' <= byte && byte <= b'Z'
        || b'0' <= byte && byte <= b'9'
        || byte == b'-'
        || byte == b'_'
        || byte == b'.'
}
