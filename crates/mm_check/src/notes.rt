// What is noted of the statements of a database.

/// The last assertion so far.
#[derive(Drop)]
pub(crate) struct Last<'a> {
    /// The byte of its first token.
    pub(crate) at: usize,
    /// The words of its statement, if it is a `$p` without hypotheses.
    pub(crate) proven: Option<Vec<&'a [u8]>>,
}

/// What a statement is that is as it should be.
#[derive(Drop)]
pub(crate) enum Noted<'a> {
    /// No assertion.
    Other,
    /// An assertion, with the words of its statement if it is a `$p` without hypotheses.
    Stated(Option<Vec<&'a [u8]>>),
}
