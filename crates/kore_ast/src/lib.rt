// The trees of Kore text, and a reader for the whole grammar.
//
// `read_definition` and `read_pattern` return the tree that the bytes spell by the grammar of the
// Kore language document, or the first fault. `kore_text` defines the tokens, the spelling of each
// tree and the first fault. `Plain` gives the tree of a value, without memory. `KoreText` says
// which tree bytes spell, and `Told` says how a fault is reported. Only private functions cite the
// other modules of `specs/`.
#![tactic(auto)]

mod declarations;
mod read;
mod reader;
mod terms;
mod text;
mod tree;

pub use kore_text::{Binder, Op};
pub use read::{read_definition, read_pattern};
pub use text::Text;
pub use tree::{
    AliasDecl, AxiomDecl, Decl, Definition, ImportDecl, Module, Pat, PatForm, ReadFault, Sort,
    SortDecl, SortForm, SymbolDecl,
};
