// Assertions of a database, by their labels.

ghost use Rattle.std.specs.Prelude.{◌≡◌, ◌↔◌, IsTrue, IfOk, List, Some, ◌≤◌, ◌^◌, length};
ghost use Rattle.mm_text.specs.Bytes.{Token};
ghost use Rattle.mm_text.specs.Reader.{words_of};
ghost use Rattle.mm_database.specs.Frames.{Frame, frame_of};
ghost use Rattle.mm_database.specs.Database.{Context};
ghost use Rattle.mm_database.specs.Orderly.{TypeOnce};
ghost use Rattle.mm_scope.specs.ScopeState.{scope_state};
ghost use Rattle.mm_scope.specs.Standing.{Stands};
ghost use Rattle.mm_justify.specs.Justifying.{IsAxiomOf};
ghost use Rattle.mm_check.specs.AxiomsView.{theory_for};
ghost use Rattle.mm_check.specs.Stated.{words};
ghost use Rattle.mm_check.specs.Passing.{IsLabelled, IsProvenFrame};

use crate::axioms::Axioms;
use crate::stated::read_stated;
use mm_scope::Scopes;
use mm_text::MmToken;
use rule_core::Signature;
use std::alloc::{AllocError, Global};

/// Whether the assertion with this label is an axiom of the program, which has this signature.
pub(crate) fn is_axiom<'a>(
    alloc: Global,
    sig: &Signature,
    axioms: &mut Axioms<'_>,
    scopes: &Scopes<'a>,
    label: &'a [u8],
) -> Result<bool, AllocError>
    requires sig { sig.now ≡ (theory_for axioms.old).sig }
    requires sorts { length sig.now.sorts ≤ 2 ^ 32 }
    requires labelled { IsLabelled (scope_state scopes.now) label.now }
    ensures axiom { IfOk result (λ b. (c : Context) (tokens : List Token)
        → Stands (scope_state scopes.now) c
        → c.frames label.now ≡ Some (frame_of c.scope label.now tokens)
        → TypeOnce (frame_of c.scope label.now tokens).hypotheses
        → (IsTrue b ↔ IsAxiomOf (theory_for axioms.old) (frame_of c.scope label.now tokens))) }
    ensures program { theory_for axioms.new ≡ theory_for axioms.old }
{
    match scopes.assertion(label) {
        None => Ok(false),
        Some(frame) => {
            let stated = read_stated(alloc, scopes, frame)?;
            axioms.has(alloc, sig, scopes, &stated)
        }
    }
}

/// The words of the theorem with this label, if it has no hypotheses.
pub(crate) fn proven<'a>(
    alloc: Global,
    scopes: &Scopes<'a>,
    bytes: &'a [u8],
    label: &'a [u8],
    symbols: &[MmToken],
) -> Result<Option<Vec<&'a [u8]>>, AllocError>
    ensures { IfOk result (λ o. (c : Context) (f : Frame) → Stands (scope_state scopes.now) c
        → c.frames label.now ≡ Some f → f.statement ≡ words_of bytes.now symbols.now
        → IsProvenFrame f o) }
{
    match scopes.assertion(label) {
        None => Ok(None),
        Some(frame) => {
            if frame.mandatory.count() > 0 {
                return Ok(None);
            }
            Ok(Some(words(alloc, bytes, symbols)?))
        }
    }
}

/// The words of tokens.
fn words<'a>(
    alloc: Global,
    bytes: &'a [u8],
    tokens: &[MmToken],
) -> Result<Vec<&'a [u8]>, AllocError>
    ensures { IfOk result (λ v. words v.items ≡ words_of bytes.now tokens.now) }
{
    let mut words = Vec::with_capacity(alloc, tokens.len())?;
    for token in tokens {
        words.push(token.word(bytes))?;
    }
    Ok(words)
}
