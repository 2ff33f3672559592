// Proof files of theorems.
ghost use Rattle.std.specs.Prelude.{◌≡◌, [], OnOk};
ghost use Rattle.kore_rules.specs.Names.{HasIdentifierNames};
ghost use Rattle.prove_term.specs.Contexts.{HasGrown, StaysIn};
ghost use Rattle.proof_writer.specs.Writing.{HasWritten, HasWrittenAll};

use ml_kernel::Thm;
use proof_writer::{ProofParts, Writer};
use prove_term::Cx;
use std::alloc::{AllocError, Global};

/// Keeps the theorem as a lemma. What the text has not yet is appended to it: the lemma comes last.
pub(crate) fn add_lemma(
    alloc: Global,
    cx: &mut Cx<'_>,
    writer: &mut Writer,
    text: &mut Vec<u8>,
    thm: Thm,
) -> Result<(), AllocError>
    requires names { HasIdentifierNames cx.old.program.sig }
    requires written { HasWritten writer.old cx.old }
    requires no_hypotheses { thm.hypotheses ≡ [] }
    requires stays { StaysIn cx.old thm }
    ensures all { OnOk result (HasWrittenAll writer.new cx.new) }
    ensures grown { OnOk result (HasGrown cx.old cx.new) }
{
    cx.add_lemma(alloc, thm)?;
    cx.law();
    let made = ProofParts {
        program: cx.program(),
        names: cx.names(),
        theory: cx.theory(),
        lemmas: cx.theorems(),
    };
    writer.write(&made, text)
}

/// What the last `$p` statement of a database states: a `p` and its symbols. Each piece between two
/// `$` begins with the letter of its keyword.
pub(crate) fn last_stated(database: &[u8]) -> Option<&str> {
    let Ok(text) = str::from_utf8(database) else {
        return None;
    };
    for piece in text.rsplit('$') {
        if piece.as_bytes().first() == Some(&b'p') {
            return Some(piece);
        }
    }
    None
}
