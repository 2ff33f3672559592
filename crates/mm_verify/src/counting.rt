// The end of a database, and the counts of its statements.
ghost use Rattle.std.specs.Prelude.{◌≡◌, ◌+◌, ◌<◌, ◌^◌};
ghost use Rattle.mm_database.specs.Database.{Context};
ghost use Rattle.mm_verify.specs.Counting.{axioms_with, theorems_with, end_of_open, unended_at};
ghost use Rattle.mm_verify.specs.Checking.{IsBehind};

use crate::checker::Checker;
use crate::ends::{Report, Stated, VerifyEnd};
use mm_text::MmFault;

/// The counts with one more statement.
pub(crate) fn counted(report: Report, stated: Stated) -> Report
    requires { report.axioms + report.theorems < 2 ^ 63 }
    ensures axioms { result.axioms ≡ axioms_with report.axioms stated }
    ensures theorems { result.theorems ≡ theorems_with report.theorems stated }
{
    match stated {
        Stated::Axiom => Report {
            axioms: report.axioms + 1,
            theorems: report.theorems,
        },
        Stated::Theorem => Report {
            axioms: report.axioms,
            theorems: report.theorems + 1,
        },
        Stated::Nothing => report,
    }
}

/// The end of a database whose text ends within a statement. The statement begins at byte `at`.
pub(crate) fn unended(at: usize) -> VerifyEnd
    ensures { result ≡ unended_at at }
{
    VerifyEnd::Invalid(MmFault { kind: 3, at })
}

/// The end of a database whose statements have no fault. It is a fault if a block is still open.
pub(crate) fn ended(checker: &Checker<'_>, report: Report) -> Result<Report, VerifyEnd>
    ensures { (c : Context) → IsBehind checker.now c → result ≡ end_of_open c.blocks report }
{
    match checker.unclosed() {
        None => Ok(report),
        Some(at) => Err(VerifyEnd::Invalid(MmFault { kind: 10, at })),
    }
}
