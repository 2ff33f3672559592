// The statements of a valid database, one after another.

ghost use Rattle.mm_database.specs.Validity.{IsValid};
ghost use Rattle.rule_core.specs.ProgramView.{theory_of};
ghost use Rattle.assumed_texts.specs.AssumedTexts.{CanBeAssumed};
ghost use Rattle.mm_check.specs.Passing.{IsLastWith, Passes};

use crate::axioms::Axioms;
use crate::ends::CheckEnd;
use crate::notes::{Last, Noted};
use crate::steps::{first_byte, step};
use mm_scope::Scopes;
use mm_text::{MmFault, MmFound, MmReadEnd, MmToken, MmTokens};
use rule_core::Program;
use std::alloc::Global;

/// The last assertion of a valid database that has only the axioms of the program, or None if it
/// has no assertion. Otherwise the first statement that offends, with its byte. It looks at each
/// token of the text a few times, but for the exceptions of `check`.
pub(crate) fn pass<'a>(
    alloc: Global,
    program: &Program,
    bytes: &'a [u8],
) -> Result<Option<Last<'a>>, CheckEnd>
    requires valid { IsValid bytes.now }
    requires program { CanBeAssumed program.now }
    ensures { Passes (theory_of program.now) bytes.now result }
{
    mm_database::proof_laws();
    let mut reader = MmTokens::new(bytes);
    let mut scopes = Scopes::new(alloc);
    let mut axioms = match Axioms::new(alloc, program) {
        Err(_) => return Err(CheckEnd::Memory),
        Ok(axioms) => axioms,
    };
    let mut tokens = Vec::new(alloc);
    let mut last = None;
    loop {
        match reader.next_statement(&mut tokens) {
            Err(MmReadEnd::Memory) => return Err(CheckEnd::Memory),
            Err(MmReadEnd::Fault(fault)) => return Err(CheckEnd::Invalid(fault)),
            Ok(MmFound::Unended(at)) => {
                return Err(CheckEnd::Invalid(MmFault { kind: 3, at }));
            }
            Ok(MmFound::End) => return Ok(last),
            Ok(MmFound::Statement) => {
                match step(
                    alloc,
                    &program.sig,
                    &mut axioms,
                    &mut scopes,
                    bytes,
                    &tokens,
                ) {
                    Err(end) => return Err(end),
                    Ok(noted) => last = last_with(last, noted, &tokens),
                }
            }
        }
    }
}

/// The last assertion after a statement with these tokens.
fn last_with<'a>(last: Option<Last<'a>>, noted: Noted<'a>, tokens: &[MmToken]) -> Option<Last<'a>>
    ensures { IsLastWith last.entry noted.entry tokens.now result }
{
    match noted {
        Noted::Other => last,
        Noted::Stated(proven) => Some(Last {
            at: first_byte(tokens),
            proven,
        }),
    }
}
