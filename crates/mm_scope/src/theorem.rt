// Theorems before they are added.

ghost use Rattle.std.specs.Prelude.{ℕ};
ghost use Rattle.mm_text.specs.Reader.{statement_of};
ghost use Rattle.mm_database.specs.Database.{Context};
ghost use Rattle.mm_scope.specs.ScopeState.{scope_state};
ghost use Rattle.mm_scope.specs.Standing.{Stands};

use crate::declare::{FrameEnd, end_at, first_byte};
use crate::forms::{Form, Keyword, read_form};
use crate::judge::Refusal;
use crate::scopes::Scopes;
use mm_frame::Frame;
use mm_text::MmToken;
use std::alloc::{AllocError, Global};

/// A `$p` that is not added yet: the frame that it will have, and the tokens of its proof.
#[derive(Drop)]
pub struct Theorem<'a, 't> {
    pub frame: Frame<'a>,
    pub proof: &'t [MmToken],
}

impl<'a> Scopes<'a> {
    ghost use Rattle.std.specs.Prelude.{IfOk, List};
    ghost use Rattle.mm_text.specs.Statements.{Statement};
    ghost use Rattle.mm_database.specs.Database.{context_after};
    ghost use Rattle.mm_scope.specs.TakesStatement.{KeepsFrames};
    ghost use Rattle.mm_scope.specs.Proposing.{IsProposed, Proposes};

    /// The theorem that a statement proposes. Its tokens are in `bytes`. Returns `None` exactly
    /// when the statement is no `$p`, or its keywords are misplaced. If it has a fault of kinds 4
    /// to 11, returns the first of these, with the byte of the statement's first token. Returns
    /// `FrameEnd::Memory` when out of memory. Adds nothing.
    pub fn theorem<'t>(
        &self,
        alloc: Global,
        bytes: &'a [u8],
        tokens: &'t [MmToken],
    ) -> Result<Option<Theorem<'a, 't>>, FrameEnd>
        ensures { (c : Context) → Stands (scope_state self.now) c
            → Proposes bytes.now (scope_state self.now) c (statement_of bytes.now tokens.now)
            result }
    {
        let Some(form) = read_form(bytes, tokens) else {
            return Ok(None);
        };
        let Form::Plain(plain) = form else {
            return Ok(None);
        };
        if plain.keyword != Keyword::Theorem {
            return Ok(None);
        }
        let stated = match self.stated(alloc, bytes, plain.labels, plain.symbols) {
            Err(refusal) => return Err(end_at(refusal, first_byte(tokens))),
            Ok(stated) => stated,
        };
        match self.frame(alloc, stated) {
            Err(_) => Err(FrameEnd::Memory),
            Ok(frame) => Ok(Some(Theorem {
                frame,
                proof: plain.proof,
            })),
        }
    }

    /// Adds a theorem as it was proposed. When out of memory, the scopes may hold a part of it and
    /// must be dropped.
    pub fn add_theorem(&mut self, alloc: Global, theorem: Theorem<'a, '_>) -> Result<(), AllocError>
        ensures stands { IfOk result (λ _. (bytes : List ℕ) (c : Context) (s : Statement)
            → Stands (scope_state self.old) c
            → IsProposed bytes (scope_state self.old) c s theorem.entry
            → Stands (scope_state self.new) (context_after c s)) }
        ensures frames { IfOk result
            (λ _. KeepsFrames (scope_state self.old) (scope_state self.new)) }
    {
        match self.add_assertion(alloc, theorem.frame) {
            Err(_) => Err(AllocError),
            Ok(()) => Ok(()),
        }
    }
}
