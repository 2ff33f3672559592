// One statement of a database.

ghost use Rattle.std.specs.Prelude.{◌≡◌, ◌↔◌, IsTrue, [], ◌∷◌, List, ℕ, ◌≤◌, ◌^◌, length};
ghost use Rattle.mm_text.specs.Bytes.{Token};
ghost use Rattle.mm_text.specs.Reader.{statement_of, words_of};
ghost use Rattle.mm_database.specs.Database.{Context, first_label, floating_of};
ghost use Rattle.mm_database.specs.Orderly.{IsOrderly};
ghost use Rattle.mm_database.specs.Validity.{HasNoFault};
ghost use Rattle.mm_scope.specs.ScopeState.{scope_state};
ghost use Rattle.mm_scope.specs.Standing.{Stands};
ghost use Rattle.mm_text.specs.Bytes.{has_token};
ghost use Rattle.mm_justify.specs.Justifying.{AreTypings, typecodes};
ghost use Rattle.mm_check.specs.AxiomsView.{theory_for};
ghost use Rattle.mm_check.specs.Passing.{MayStep, StepsTo, IsAfter, Notes};

use crate::asserting::{is_axiom, proven};
use crate::axioms::Axioms;
use crate::ends::{CheckEnd, Offence};
use crate::notes::Noted;
use mm_scope::{Form, FrameEnd, Keyword, Plain, Scopes, read_form};
use mm_text::MmToken;
use rule_core::Signature;
use std::alloc::Global;

/// What a statement of a valid database is. Its tokens are in `bytes`. The scopes take it. If it is
/// a statement that no database may have that justifies something, it is the end.
pub(crate) fn step<'a>(
    alloc: Global,
    sig: &Signature,
    axioms: &mut Axioms<'_>,
    scopes: &mut Scopes<'a>,
    bytes: &'a [u8],
    tokens: &[MmToken],
) -> Result<Noted<'a>, CheckEnd>
    requires sig { sig.now ≡ (theory_for axioms.old).sig }
    requires sorts { length sig.now.sorts ≤ 2 ^ 32 }
    requires may { MayStep (scope_state scopes.old) (statement_of bytes.now tokens.now) }
    ensures steps { (c : Context) → Stands (scope_state scopes.old) c → IsOrderly c
        → HasNoFault c (statement_of bytes.now tokens.now).tokens
        → StepsTo (theory_for axioms.old) c (statement_of bytes.now tokens.now)
        (scope_state scopes.new) result }
    ensures program { theory_for axioms.new ≡ theory_for axioms.old }
{
    mm_database::proof_laws();
    match scopes.statement(alloc, bytes, tokens) {
        Err(FrameEnd::Memory) => return Err(CheckEnd::Memory),
        Err(FrameEnd::Fault(fault)) => return Err(CheckEnd::Invalid(fault)),
        Ok(_) => {}
    }
    match read_form(bytes, tokens) {
        Some(Form::Plain(plain)) => {
            noted(
                alloc,
                sig,
                axioms,
                scopes,
                bytes,
                &plain,
                first_byte(tokens),
            )
        }
        _ => Ok(Noted::Other),
    }
}

/// What a statement with a keyword is, which the scopes have taken. It begins at a byte.
fn noted<'a>(
    alloc: Global,
    sig: &Signature,
    axioms: &mut Axioms<'_>,
    scopes: &Scopes<'a>,
    bytes: &'a [u8],
    plain: &Plain<'_>,
    at: usize,
) -> Result<Noted<'a>, CheckEnd>
    requires sig { sig.now ≡ (theory_for axioms.old).sig }
    requires sorts { length sig.now.sorts ≤ 2 ^ 32 }
    requires after { IsAfter (scope_state scopes.now) bytes.now plain.now }
    ensures notes { (c : Context) → Notes (theory_for axioms.old) c (scope_state scopes.now)
        bytes.now plain.now at result }
    ensures program { theory_for axioms.new ≡ theory_for axioms.old }
{
    let label = label_of(bytes, plain.labels);
    match plain.keyword {
        Keyword::Floating => {
            if is_typing(bytes, plain.symbols) {
                Ok(Noted::Other)
            } else {
                Err(CheckEnd::Unjustified(Offence::Typing, at))
            }
        }
        Keyword::Axiom => match is_axiom(alloc, sig, axioms, scopes, label) {
            Err(_) => Err(CheckEnd::Memory),
            Ok(true) => Ok(Noted::Stated(None)),
            Ok(false) => Err(CheckEnd::Unjustified(Offence::Axiom, at)),
        },
        Keyword::Theorem => match proven(alloc, scopes, bytes, label, plain.symbols) {
            Err(_) => Err(CheckEnd::Memory),
            Ok(words) => Ok(Noted::Stated(words)),
        },
        _ => Ok(Noted::Other),
    }
}

/// The label of a statement that has one.
fn label_of<'a>(bytes: &'a [u8], labels: &[MmToken]) -> &'a [u8]
    ensures { result.now ≡ first_label (words_of bytes.now labels.now) }
{
    match labels.first() {
        None => b"",
        Some(label) => label.word(bytes),
    }
}

/// Whether the symbols of a `$f` give a variable one of the three types.
fn is_typing(bytes: &[u8], symbols: &[MmToken]) -> bool
    ensures { (label : Token) → IsTrue result
        ↔ AreTypings (floating_of label (words_of bytes.now symbols.now) ∷ []) }
{
    match symbols {
        [typecode, _] => is_typecode(typecode.word(bytes)),
        _ => false,
    }
}

/// Whether the token is one of the three types.
fn is_typecode(token: &[u8]) -> bool
    ensures { result ≡ has_token typecodes token.now }
{
    token == b"#Pattern".as_slice() || token == b"#Sort".as_slice() || token == b"#Var".as_slice()
}

/// The byte of a statement's first token.
pub(crate) fn first_byte(tokens: &[MmToken]) -> usize
    ensures { (bytes : List ℕ) → result ≡ (statement_of bytes tokens.now).at }
{
    match tokens.first() {
        None => 0,
        Some(token) => token.from,
    }
}
