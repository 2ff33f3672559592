// Laws on what is wrong first in a database.
ghost use Rattle.mm_check.specs.OffenceLaws.{FaultlessJustifies, FirstIsOne, JustifiedHasNone};

/// In a database that justifies something over a program, nothing is wrong. A valid database in
/// which nothing is wrong does not justify nothing. What is wrong first in a database is one thing,
/// at one byte.
pub fn offence_laws()
    ensures none { JustifiedHasNone }
    ensures some { FaultlessJustifies }
    ensures one { FirstIsOne }
{}
