// Conversions of results about statements.
ghost use Rattle.std.specs.Prelude.{◌≡◌, ℕ, List};
ghost use Rattle.mm_text.specs.Reader.{statement_of};
ghost use Rattle.mm_verify.specs.Stating.{stated_for, end_for};

use crate::ends::{Stated, VerifyEnd};
use mm_scope::{Added, FrameEnd};
use mm_text::MmToken;

/// The kind of a statement other than a `$p`, by what it added.
pub(crate) fn stated(added: Added) -> Stated
    ensures { result ≡ stated_for added }
{
    match added {
        Added::Assertion => Stated::Axiom,
        Added::Block | Added::Symbols | Added::Hypothesis | Added::Disjoint => Stated::Nothing,
    }
}

/// The end of a database, from the end of a statement.
pub(crate) fn verify_end(end: FrameEnd) -> VerifyEnd
    ensures { result ≡ end_for end }
{
    match end {
        FrameEnd::Fault(fault) => VerifyEnd::Invalid(fault),
        FrameEnd::Memory => VerifyEnd::Memory,
    }
}

/// The byte of a statement's first token.
pub(crate) fn first_byte(tokens: &[MmToken]) -> usize
    ensures { (bytes : List ℕ) → result ≡ (statement_of bytes tokens.now).at }
{
    match tokens {
        [] => 0,
        [token, ..] => token.from,
    }
}
