// Whether an assertion is an axiom of a program.

ghost use Rattle.std.specs.Prelude.{◌≡◌, ◌↔◌, ◌≤◌, ◌^◌, IsTrue, IfOk, length};
ghost use Rattle.mm_scope.specs.ScopeState.{scope_state};
ghost use Rattle.rule_core.specs.ProgramView.{theory_of};
ghost use Rattle.mm_justify.specs.Stating.{typecode_of};
ghost use Rattle.pattern_reader.specs.Readings.{AreUtf8};
ghost use Rattle.assumed_texts.specs.AssumedTexts.{CanBeAssumed};
ghost use Rattle.mm_check.specs.Stated.{plain_stated};
ghost use Rattle.std.specs.Str.{IsUtf8};
ghost use Rattle.mm_check.specs.AxiomTests.{HasTypecode, SaysName};

use crate::object_types::has_object_types;
use crate::own_tokens::is_own_token;
use crate::row_tests::is_row;
use crate::rows::Rows;
use crate::stated::Stated;
use assumed_texts::Assumed;
use mm_scope::Scopes;
use rule_core::{Program, Signature};
use std::alloc::{AllocError, Global};

/// What the axioms of a program are recognized by.
#[derive(Drop)]
pub(crate) struct Axioms<'p> {
    rows: Rows,
    assumed: Assumed<'p>,
}

impl<'p> Axioms<'p> {
    ghost use Rattle.mm_check.specs.AxiomsView.{theory_for};
    ghost use Rattle.mm_check.specs.AxiomTests.{SaysAssumption, SaysAxiom};

    /// The axioms of a program.
    pub(crate) fn new(alloc: Global, program: &'p Program) -> Result<Self, AllocError>
        requires { CanBeAssumed program.now }
        ensures { IfOk result (λ a. theory_for a ≡ theory_of program.now) }
    {
        let rows = Rows::new(alloc)?;
        let assumed = Assumed::new(alloc, program)?;
        Ok(Axioms { rows, assumed })
    }

    /// Whether an assertion, at these scopes, says what an axiom of the program, which has this
    /// signature, may say.
    pub(crate) fn has(
        &mut self,
        alloc: Global,
        sig: &Signature,
        scopes: &Scopes<'_>,
        stated: &Stated<'_>,
    ) -> Result<bool, AllocError>
        requires sig { sig.now ≡ (theory_for self.old).sig }
        requires text { AreUtf8 stated.now.words.items }
        requires sorts { length sig.now.sorts ≤ 2 ^ 32 }
        ensures says { IfOk result (λ b. IsTrue b
            ↔ SaysAxiom (theory_for self.old) (scope_state scopes.now) (plain_stated stated.now)) }
        ensures program { theory_for self.new ≡ theory_for self.old }
    {
        if is_row(alloc, &self.rows, scopes, stated)? {
            return Ok(true);
        }
        if is_declaration(alloc, sig, stated)? {
            return Ok(true);
        }
        self.is_assumption(alloc, scopes, stated)
    }

    /// Whether the assertion says that something holds that the program may assume.
    fn is_assumption(
        &mut self,
        alloc: Global,
        scopes: &Scopes<'_>,
        stated: &Stated<'_>,
    ) -> Result<bool, AllocError>
        requires { AreUtf8 stated.now.words.items }
        ensures says { IfOk result (λ b. IsTrue b ↔ SaysAssumption (theory_for self.old)
            (scope_state scopes.now) (plain_stated stated.now)) }
        ensures program { theory_for self.new ≡ theory_for self.old }
    {
        if !stated.premises.is_empty() {
            return Ok(false);
        }
        if !self.assumed.says(alloc, &stated.words)? {
            return Ok(false);
        }
        has_object_types(alloc, scopes, stated)
    }
}

/// Whether the assertion gives a name of the program its typecode.
fn is_declaration(alloc: Global, sig: &Signature, stated: &Stated<'_>) -> Result<bool, AllocError>
    requires text { AreUtf8 stated.now.words.items }
    requires sorts { length sig.now.sorts ≤ 2 ^ 32 }
    ensures { IfOk result (λ b. IsTrue b ↔ SaysName sig.now (plain_stated stated.now)) }
{
    if !stated.premises.is_empty() || !stated.types.is_empty() {
        return Ok(false);
    }
    match stated.words.as_slice() {
        [typecode, token] => is_typed_name(alloc, sig, typecode, token),
        _ => Ok(false),
    }
}

/// Whether the token is a name of the program, with this typecode.
fn is_typed_name(
    alloc: Global,
    sig: &Signature,
    typecode: &[u8],
    token: &[u8],
) -> Result<bool, AllocError>
    requires text { IsUtf8 token.now }
    requires sorts { length sig.now.sorts ≤ 2 ^ 32 }
    ensures { IfOk result (λ b. IsTrue b ↔ HasTypecode sig.now typecode.now token.now) }
{
    if typecode == typecode_of(token) {
        is_own_token(alloc, sig, token)
    } else {
        Ok(false)
    }
}

/// The typecode of a name.
fn typecode_of(token: &[u8]) -> &'static [u8]
    ensures { result.now ≡ typecode_of token.now }
{
    match token {
        [b's', ..] => b"#Sort",
        _ => b"#Pattern",
    }
}
