// Statements of a database, checked one after another.

use crate::conversions::{first_byte, stated, verify_end};
use crate::ends::{Stated, VerifyEnd};
use crate::proof_fault::{add_assertions, proof_fault};
use crate::room::Room;
use crate::stored::StoredAssertion;
use mm_scope::{Added, Scopes, Theorem};
use mm_text::{MmFault, MmToken};
use std::alloc::Global;

/// What is declared by the statements so far, and the assertions as the steps of proofs use them.
#[derive(Drop)]
pub(crate) struct Checker<'a> {
    scopes: Scopes<'a>,
    assertions: Vec<StoredAssertion<'a>>,
}

impl<'a> Checker<'a> {
    ghost use Rattle.std.specs.Prelude.{◌≡◌, IfOk, IfErr};
    ghost use Rattle.mm_scope.specs.Proposing.{IsProposed};
    ghost use Rattle.mm_verify.specs.declared.ends.Stated.TheVariants.{Theorem as IsTheorem};
    ghost use Rattle.mm_verify.specs.declared.ends.VerifyEnd.TheVariants.{Memory};
    ghost use Rattle.mm_text.specs.Reader.{statement_of};
    ghost use Rattle.mm_database.specs.Database.{Context, empty_context};
    ghost use Rattle.mm_database.specs.Validity.{first_open};
    ghost use Rattle.mm_scope.specs.ScopeState.{scope_state};
    ghost use Rattle.mm_scope.specs.Standing.{Stands};
    ghost use Rattle.mm_verify.specs.Checking.{HasFrames, IsBehind, Checks, Declares, Adds};

    /// Nothing is declared.
    pub(crate) fn new(alloc: Global) -> Checker<'a>
        ensures { IsBehind result empty_context }
    {
        mm_database::proof_laws();
        Checker {
            scopes: Scopes::new(alloc),
            assertions: Vec::new(alloc),
        }
    }

    /// Checks a statement whose tokens are in `bytes`, and adds what it declares. Otherwise returns
    /// its first fault.
    pub(crate) fn check(
        &mut self,
        alloc: Global,
        bytes: &'a [u8],
        tokens: &[MmToken],
        room: &mut Room,
    ) -> Result<Stated, VerifyEnd>
        requires frames { HasFrames self.old }
        ensures { (c : Context) → IsBehind self.old c
            → Checks c (statement_of bytes.now tokens.now) self.new result }
    {
        mm_database::proof_laws();
        let theorem = match self.scopes.theorem(alloc, bytes, tokens) {
            Err(end) => return Err(verify_end(end)),
            Ok(theorem) => theorem,
        };
        match theorem {
            Some(theorem) => self.prove(alloc, bytes, tokens, theorem, room),
            None => match self.declare(alloc, bytes, tokens) {
                Err(end) => Err(end),
                Ok(added) => Ok(stated(added)),
            },
        }
    }

    /// Checks the proof of a theorem, and adds the theorem. Otherwise returns the fault of the
    /// proof.
    fn prove(
        &mut self,
        alloc: Global,
        bytes: &'a [u8],
        tokens: &[MmToken],
        theorem: Theorem<'a, '_>,
        room: &mut Room,
    ) -> Result<Stated, VerifyEnd>
        requires frames { HasFrames self.old }
        ensures { (c : Context) → IsBehind self.old c
            → IsProposed bytes.now (scope_state self.old.scopes) c
            (statement_of bytes.now tokens.now) theorem.entry
            → Checks c (statement_of bytes.now tokens.now) self.new result }
    {
        mm_database::proof_laws();
        mm_frame::number_laws();
        mm_scope::scope_laws();
        match proof_fault(alloc, &self.scopes, &self.assertions, bytes, &theorem, room) {
            Err(_) => Err(VerifyEnd::Memory),
            Ok(Some(kind)) => Err(VerifyEnd::Invalid(MmFault {
                kind,
                at: first_byte(tokens),
            })),
            Ok(None) => self.add(alloc, theorem),
        }
    }

    /// Adds a theorem.
    fn add(&mut self, alloc: Global, theorem: Theorem<'a, '_>) -> Result<Stated, VerifyEnd>
        requires frames { HasFrames self.old }
        ensures stated { IfOk result (λ a. a ≡ IsTheorem) }
        ensures added { IfOk result (λ _. Adds self.old theorem.entry self.new) }
        ensures memory { IfErr result (λ end. end ≡ Memory) }
    {
        match self.scopes.add_theorem(alloc, theorem) {
            Err(_) => return Err(VerifyEnd::Memory),
            Ok(()) => {}
        }
        match add_assertions(alloc, &self.scopes, &mut self.assertions) {
            Err(_) => Err(VerifyEnd::Memory),
            Ok(()) => Ok(Stated::Theorem),
        }
    }

    /// Adds what a statement declares. Otherwise returns its first fault that is not one of proofs.
    fn declare(
        &mut self,
        alloc: Global,
        bytes: &'a [u8],
        tokens: &[MmToken],
    ) -> Result<Added, VerifyEnd>
        requires frames { HasFrames self.old }
        ensures { (c : Context) → Stands (scope_state self.old.scopes) c
            → Declares c (statement_of bytes.now tokens.now) self.new result }
    {
        let added = match self.scopes.statement(alloc, bytes, tokens) {
            Err(end) => return Err(verify_end(end)),
            Ok(added) => added,
        };
        match add_assertions(alloc, &self.scopes, &mut self.assertions) {
            Err(_) => Err(VerifyEnd::Memory),
            Ok(()) => Ok(added),
        }
    }

    /// The byte of the first `${` that is not closed. Returns `None` exactly when all are closed.
    pub(crate) fn unclosed(&self) -> Option<usize>
        ensures { (c : Context) → IsBehind self.now c → result ≡ first_open c.blocks }
    {
        self.scopes.unclosed()
    }
}
