// The tokens of Kore text.
//
// `Lexer` cuts bytes into the tokens of the Kore language document. `text_value` returns the text
// that a string token stands for. The definitions are in `specs/`. `Escapes` and `Pieces` say what
// is at the head of bytes. `Lexed` gives the tokens of a text, `Tokens` says which bytes are a
// token, and `Value` is the text of a string. `TokenLaws` has laws on these; they are the contract
// of `token_laws`. Only private functions cite `Steps`.
#![tactic(auto)]

mod bytes;
mod escape;
mod laws;
mod lexer;
mod piece;
mod value;

pub use laws::token_laws;
pub use lexer::{LexFault, Lexer, Token, TokenKind};
pub use value::text_value;
