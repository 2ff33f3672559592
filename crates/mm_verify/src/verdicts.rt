// Whether a database is valid.
ghost use Rattle.std.specs.Prelude.{◌≡◌, ℕ, Err, IfOk};
ghost use Rattle.mm_text.specs.declared.fault.MmFault.{MmFault as AFault};
ghost use Rattle.mm_database.specs.Validity.{IsValid, IsFirstFault};
ghost use Rattle.mm_database.specs.Assertions.{axiom_count, theorem_count};
ghost use Rattle.mm_verify.specs.declared.ends.VerifyEnd.TheVariants.{Invalid};
ghost use Rattle.mm_verify.specs.Verifying.{Finds};

use crate::checker::Checker;
use crate::counting::{counted, ended, unended};
use crate::ends::{Report, VerifyEnd};
use crate::room::Room;
use mm_text::{MmFound, MmReadEnd, MmTokens};
use std::alloc::Global;

/// Whether a Metamath database is valid (Metamath book, "The Complete Language Specification"): if
/// so, how many `$a` and `$p` statements it has, and else its first fault. Returns
/// `VerifyEnd::Memory` when out of memory. It does not recurse, and looks at each token of the text
/// a few times.
pub fn verify(alloc: Global, bytes: &[u8]) -> Result<Report, VerifyEnd>
    ensures valid { IfOk result (λ r. IsValid bytes.now × (r.axioms ≡ axiom_count bytes.now)
        × (r.theorems ≡ theorem_count bytes.now)) }
    ensures invalid { (f : AFault) → result ≡ Err (Invalid f) → IsFirstFault bytes.now f }
{
    mm_database::proof_laws();
    verdict(alloc, bytes)
}

/// The counts of a faultless database, or its first fault.
fn verdict(alloc: Global, bytes: &[u8]) -> Result<Report, VerifyEnd>
    ensures { Finds bytes.now result }
{
    let mut reader = MmTokens::new(bytes);
    let mut checker = Checker::new(alloc);
    let mut tokens = Vec::new(alloc);
    let mut room = match Room::new(alloc) {
        Err(_) => return Err(VerifyEnd::Memory),
        Ok(room) => room,
    };
    let mut report = Report {
        axioms: 0,
        theorems: 0,
    };
    loop {
        match reader.next_statement(&mut tokens) {
            Err(MmReadEnd::Memory) => return Err(VerifyEnd::Memory),
            Err(MmReadEnd::Fault(fault)) => return Err(VerifyEnd::Invalid(fault)),
            Ok(MmFound::Unended(at)) => return Err(unended(at)),
            Ok(MmFound::End) => return ended(&checker, report),
            Ok(MmFound::Statement) => match checker.check(alloc, bytes, &tokens, &mut room) {
                Err(end) => return Err(end),
                Ok(stated) => report = counted(report, stated),
            },
        }
    }
}
