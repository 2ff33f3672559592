// Laws about patterns that do not match.
ghost use Rattle.refute.specs.ClashLaws.{FailureIsFinal, MatchReaches, MismatchHasReason};

/// Has no effect at run time. It states that a well-sorted pattern without calls that does not
/// match a normal term of its sort fails for a reason: comparing them comes to a clash, or to one
/// variable and two different terms. With such a reason, the pattern never becomes the term. If the
/// pattern matches, comparing them comes to each variable and what it is bound to.
pub fn clash_laws()
    ensures mismatch { MismatchHasReason }
    ensures never { FailureIsFinal }
    ensures reaches { MatchReaches }
{}
