// Laws on what databases justify.
ghost use Rattle.mm_adequate.specs.AdequacyLaws.{JustifiedIsDerived, RunIsDerived};
ghost use Rattle.mm_adequate.specs.AdequacyLaws.{WellSortedAssumesClosed};

/// Take a database that justifies that a pattern reaches another, over a program that assumes only
/// closed patterns, and any numbering of tokens. Then this has a derivation by the rules of
/// matching logic from the images of what the program may assume: its own axioms, and the true
/// facts on its built-ins. Each well-sorted program assumes only closed patterns. So a database
/// that justifies a run of such a program shows that the image of the start reaches the image of
/// the end.
pub fn adequacy_laws()
    ensures closed { WellSortedAssumesClosed }
    ensures justified { JustifiedIsDerived }
    ensures run { RunIsDerived }
{}
