// The decision on a database.

ghost use Rattle.std.specs.Prelude.{◌≡◌, ◌≢◌, ℕ, Ok, Err, IfOk};
ghost use Rattle.mm_text.specs.declared.fault.MmFault.{MmFault as AFault};
ghost use Rattle.mm_database.specs.Validity.{IsValid, IsFirstFault};
ghost use Rattle.mm_database.specs.Assertions.{assertions_of};
ghost use Rattle.rule_core.specs.Theories.{RewriteTheory};
ghost use Rattle.rule_core.specs.ProgramView.{theory_of};
ghost use Rattle.mm_justify.specs.Justifying.{Justifies};
ghost use Rattle.assumed_texts.specs.AssumedTexts.{CanBeAssumed};
ghost use Rattle.mm_check.specs.Derived.{IsDerivedFrom};
ghost use Rattle.mm_check.specs.Offences.{IsFirstOffence, JustifiesNothing};
ghost use Rattle.mm_check.specs.Passing.{IsLast, Passes};
ghost use Rattle.mm_check.specs.Judging.{Judges};
ghost use Rattle.mm_check.specs.declared.ends.Offence.{Offence as AnOffence};
ghost use Rattle.mm_check.specs.declared.ends.CheckEnd.{CheckEnd as AnEnd};
ghost use Rattle.mm_check.specs.declared.ends.CheckEnd.TheVariants.{Invalid, Memory, Unjustified};

use crate::conclusion::conclusion;
use crate::ends::{CheckEnd, Checked, Offence};
use crate::laws::offence_laws;
use crate::notes::Last;
use crate::pass::pass;
use mm_adequate::adequacy_laws;
use mm_verify::{VerifyEnd, verify};
use rule_core::Program;
use std::alloc::Global;

/// Whether a Metamath database justifies, over a program, that one pattern reaches another: then
/// which, and that has a derivation in matching logic from what the program may assume. Otherwise
/// its first fault if it is not valid, or what is wrong first in it, and where.
/// Returns `CheckEnd::Memory` when out of memory. Patterns of any depth are read and dropped without
/// recursion. Images are made and compared by recursions as deep as these. It looks at each token of
/// the text a few times, but for this: each two variables of an axiom are looked up if no one `$d`
/// has them all, and an axiom on sorts looks at the symbols up to the injection symbol.
pub fn check(alloc: Global, program: &Program, bytes: &[u8]) -> Result<Checked, CheckEnd>
    requires { CanBeAssumed program.now }
    ensures justifies { IfOk result
        (λ c. Justifies bytes.now (theory_of program.now) c.names c.from c.to) }
    ensures derived { IfOk result
        (λ c. IsDerivedFrom (theory_of program.now) c.names c.from c.to) }
    ensures invalid { (f : AFault) → result ≡ Err (Invalid f) → IsFirstFault bytes.now f }
    ensures unjustified { (offence : AnOffence) (at : ℕ) → result ≡ Err (Unjustified offence at)
        → IsValid bytes.now × IsFirstOffence (theory_of program.now) bytes.now offence at }
    ensures nothing { (end : AnEnd) → result ≡ Err end → end ≢ Memory
        → JustifiesNothing bytes.now (theory_of program.now) }
{
    mm_database::proof_laws();
    offence_laws();
    adequacy_laws();
    match verify(alloc, bytes) {
        Err(VerifyEnd::Invalid(fault)) => Err(CheckEnd::Invalid(fault)),
        Err(VerifyEnd::Memory) => Err(CheckEnd::Memory),
        Ok(_) => judged(alloc, program, bytes),
    }
}

/// The same for a valid database.
fn judged(alloc: Global, program: &Program, bytes: &[u8]) -> Result<Checked, CheckEnd>
    requires program { CanBeAssumed program.now }
    requires valid { IsValid bytes.now }
    ensures { Judges (theory_of program.now) bytes.now result }
{
    match pass(alloc, program, bytes) {
        Err(end) => Err(end),
        Ok(last) => concluded(alloc, bytes, last),
    }
}

/// What the last assertion of a text says, or that it justifies nothing.
fn concluded(alloc: Global, bytes: &[u8], last: Option<Last<'_>>) -> Result<Checked, CheckEnd>
    requires { IsLast (assertions_of bytes.now) last }
    ensures { (theory : RewriteTheory) → IsValid bytes.now → Passes theory bytes.now (Ok last.entry)
        → Judges theory bytes.now result }
{
    let Some(Last { at, proven }) = last else {
        return Err(CheckEnd::Unjustified(Offence::Conclusion, bytes.len()));
    };
    let Some(words) = proven else {
        return Err(CheckEnd::Unjustified(Offence::Conclusion, at));
    };
    match conclusion(alloc, &words) {
        Err(_) => Err(CheckEnd::Memory),
        Ok(Some(checked)) => Ok(checked),
        Ok(None) => Err(CheckEnd::Unjustified(Offence::Conclusion, at)),
    }
}
