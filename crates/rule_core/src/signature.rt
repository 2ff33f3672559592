// The signature of a definition: its sorts and symbols.
ghost use Rattle.std.specs.Prelude.{◌↔◌, IsTrue};

use crate::{Subsorts, Table};
use term_core::{HookNo, SortId};

/// What the hook of a sort says about the sort's domain values.
#[derive(Clone, Copy, PartialEq, Eq, Debug)]
pub enum SortKind {
    /// Whole numbers, by the hook `INT.Int`.
    Int,
    /// `true` and `false`, by the hook `BOOL.Bool`.
    Bool,
    /// Maps, by the hook `MAP.Map`.
    Map,
    /// Any text: the sort has another hook or none.
    Other,
}

/// A declared sort. Its name is stored in the table of sorts.
#[derive(Clone, Copy, PartialEq, Eq, Debug)]
pub struct SortInfo {
    /// What its domain values are.
    pub kind: SortKind,
}

/// What a symbol is used for.
#[derive(Clone, Copy, PartialEq, Eq, Debug)]
pub enum SymKind {
    /// It injects the terms of a sort into a supersort.
    Injection,
    /// It builds terms.
    Ctor,
    /// A function that is defined by its equations.
    Equations,
    /// A function that is computed by this hook.
    Hooked(HookNo),
    /// A function that nothing defines: a call of it is not evaluated.
    Closed,
    /// None of these: no term or rule uses it.
    NoKind,
}

/// A sort in the declaration of a symbol.
#[derive(Clone, Copy, PartialEq, Eq, Debug)]
pub enum SortRef {
    /// One of the symbol's own sort parameters, by its index, from 0.
    Param(u32),
    /// A declared sort.
    Sort(SortId),
}

/// A declared symbol. Its name is stored in the table of symbols.
#[derive(Drop)]
pub struct SymInfo {
    /// What it is used for.
    pub kind: SymKind,
    /// How many sort parameters it has.
    pub params: u32,
    /// The sorts of its arguments, in order.
    pub args: Vec<SortRef>,
    /// The sort of its result.
    pub result: SortRef,
    /// The name of its hook, if it has one.
    pub hook: Option<String>,
    /// Whether its declaration says that it is associative, commutative or idempotent, or has a
    /// unit.
    pub ac: bool,
}

/// The sorts and the symbols of a definition. Each can be looked up by name and by number.
#[derive(Drop)]
pub struct Signature {
    /// The sorts: a `SortId` is the number of a name here.
    pub sorts: Table<SortInfo>,
    /// The symbols: a `SymId` is the number of a name here.
    pub symbols: Table<SymInfo>,
    /// The order of the sorts.
    pub subsorts: Subsorts,
}

impl Signature {
    ghost use Rattle.rule_core.specs.AcSymbols.{IsAcConstructor, IsAcFree};

    /// Whether no constructor is associative, commutative or idempotent, or has a unit. It looks at
    /// each symbol at most once.
    pub fn ac_free(&self) -> bool
        ensures { IsTrue result ↔ IsAcFree self.now }
    {
        for number in 0..self.symbols.len() {
            if self.is_ac_constructor(number) {
                return false;
            }
        }
        true
    }

    // Whether the symbol with this number is a constructor that has one of these properties.
    fn is_ac_constructor(&self, number: usize) -> bool
        ensures { IsTrue result ↔ IsAcConstructor self.now number }
    {
        match self.symbols.value(number) {
            None => false,
            Some(symbol) => symbol.kind == SymKind::Ctor && symbol.ac,
        }
    }
}
