//! Metamath texts: bytes to tokens, tokens to statements, and the letters of compressed proofs.
//!
//! The definitions are in `specs/`. `Tokens` and `Statements` define the tokens and the statements
//! of a text, and where the text breaks. `Labels` defines how labels are spelled. `Compressed`
//! defines what the letters of a compressed proof mean. The laws on them are the contracts of
//! `text_laws` and `number_laws`. `MmTokens` reads the tokens and the statements of a text.
//! `read_number` and `push_number` read and write the numbers of compressed proofs.
#![tactic(auto)]

mod fault;
mod laws;
mod numbers;
mod pieces;
mod statements;
mod tokens;

pub use fault::MmFault;
pub use laws::{letter_laws, number_laws, place_laws, text_laws, tried};
pub use numbers::{push_number, read_number};
pub use statements::{MmFound, MmReadEnd};
pub use tokens::{MmToken, MmTokens};
