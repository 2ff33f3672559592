// The faults of a text.

/// What is wrong with a text, and at which byte.
#[derive(Clone, Copy, PartialEq, Eq, Debug)]
pub enum TextFault {
    /// No token starts at this byte, a string or a comment has no end, a string is not UTF-8, or an
    /// escape is bad.
    Lex(u32),
    /// The token at this byte fits no case of the grammar, or the text ends here too soon. For a
    /// fold without an argument this is the byte of its first token.
    Syntax(u32),
    /// The bracket `(` or `{` at this byte opens the 501st level.
    Deep(u32),
}
