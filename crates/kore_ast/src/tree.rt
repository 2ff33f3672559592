// The trees of Kore text. Each `at` is the byte at which the first token begins, counted from 0.

ghost use Rattle.std.specs.Prelude.{◌≡◌};
ghost use Rattle.kore_ast.specs.declared.tree.ReadFault.TheVariants.{Memory};

use crate::text::Text;
use kore_text::{Binder, Op, TextFault};
use std::alloc::{AllocError, AllocFailed};

/// A definition: its attributes, and its modules in the order of the text. The main module is the
/// last.
pub struct Definition {
    pub attrs: Vec<Pat>,
    pub modules: Vec<Module>,
}

// A definition is dropped by one call, and not field by field at each end of each call that owns one.
impl Drop for Definition {
    fn drop(self) {
        let Definition {
            attrs: _,
            modules: _,
        } = self;
    }
}

/// A module.
#[derive(Drop)]
pub struct Module {
    pub at: u32,
    pub name: Text,
    pub decls: Vec<Decl>,
    pub attrs: Vec<Pat>,
}

/// A declaration of a module.
#[derive(Drop)]
pub enum Decl {
    Import(ImportDecl),
    SortDecl(SortDecl),
    SymbolDecl(SymbolDecl),
    Alias(AliasDecl),
    Axiom(AxiomDecl),
    Claim(AxiomDecl),
}

/// The import of a module by its name.
#[derive(Drop)]
pub struct ImportDecl {
    pub at: u32,
    pub name: Text,
    pub attrs: Vec<Pat>,
}

/// The declaration of a sort. `hooked` is true if the keyword is `hooked-sort`.
#[derive(Drop)]
pub struct SortDecl {
    pub at: u32,
    pub hooked: bool,
    pub name: Text,
    pub params: Vec<Text>,
    pub attrs: Vec<Pat>,
}

/// The declaration of a symbol. `hooked` is true if the keyword is `hooked-symbol`.
#[derive(Drop)]
pub struct SymbolDecl {
    pub at: u32,
    pub hooked: bool,
    pub name: Text,
    pub params: Vec<Text>,
    pub args: Vec<Sort>,
    pub result: Sort,
    pub attrs: Vec<Pat>,
}

/// The declaration of an alias: the declaration of its symbol, its variables and its body.
#[derive(Drop)]
pub struct AliasDecl {
    pub at: u32,
    pub hooked: bool,
    pub name: Text,
    pub params: Vec<Text>,
    pub args: Vec<Sort>,
    pub result: Sort,
    /// The name and the sorts after `where`.
    pub left_name: Text,
    pub left_sorts: Vec<Sort>,
    pub vars: Vec<Pat>,
    pub body: Pat,
    pub attrs: Vec<Pat>,
}

/// An axiom or a claim.
#[derive(Drop)]
pub struct AxiomDecl {
    pub at: u32,
    pub params: Vec<Text>,
    pub pat: Pat,
    pub attrs: Vec<Pat>,
}

/// A sort.
#[cycle(sort)]
#[derive(Drop)]
pub struct Sort {
    pub at: u32,
    pub form: SortForm,
}

/// A sort parameter, or a sort with its arguments.
#[cycle(sort)]
#[derive(Drop)]
pub enum SortForm {
    Param(Text),
    App(Text, Vec<Sort>),
}

/// A pattern.
#[cycle(pattern)]
#[derive(Drop)]
pub struct Pat {
    pub at: u32,
    pub form: PatForm,
}

/// The forms of a pattern.
#[cycle(pattern)]
#[derive(Drop)]
pub enum PatForm {
    /// An element variable of a sort.
    Elem(Text, Sort),
    /// A set variable of a sort.
    SetVar(Text, Sort),
    /// A string. It occurs in attributes.
    Text(Text),
    /// A symbol with its sort arguments, applied to patterns.
    App(Text, Vec<Sort>, Vec<Pat>),
    /// A connective with its sorts and arguments.
    Built(Op, Vec<Sort>, Vec<Pat>),
    /// A binder with its sorts, its variable and its body.
    Bound(Binder, Vec<Sort>, Box<Pat>, Box<Pat>),
    /// A domain value: its sort, its text and the byte at which its string begins.
    Value(Sort, Text, u32),
    /// A fold of an application, from the left (`true`) or from the right (`false`).
    Fold(bool, Box<Pat>),
}

/// Why a text was not read.
#[derive(Drop, Debug)]
pub enum ReadFault {
    /// Something is no token; the fault is at this byte.
    Lex(u32),
    /// The token at this byte fits no case of the grammar, or the text ends here too soon.
    Syntax(u32),
    /// The bracket at this byte opens the 501st level.
    Deep(u32),
    /// Out of memory.
    Memory,
}

impl From<AllocError> for ReadFault {
    ghost from_gives = { λ _ fault. fault ≡ Memory };

    fn from(_error: AllocError) -> ReadFault {
        ReadFault::Memory
    }
}

impl<T: Drop> From<AllocFailed<T>> for ReadFault {
    ghost from_gives = { λ _ fault. fault ≡ Memory };

    fn from(_error: AllocFailed<T>) -> ReadFault {
        ReadFault::Memory
    }
}

impl From<TextFault> for ReadFault {
    ghost use Rattle.kore_ast.specs.Told.{told};

    ghost from_gives = { λ fault given. given ≡ told fault };

    fn from(fault: TextFault) -> ReadFault {
        match fault {
            TextFault::Lex(at) => ReadFault::Lex(at),
            TextFault::Syntax(at) => ReadFault::Syntax(at),
            TextFault::Deep(at) => ReadFault::Deep(at),
        }
    }
}
