// Laws on steps of proofs over the numbers of symbols.
ghost use Rattle.mm_frame.specs.NumberedSteps.{CitationIsNamed};

/// Under each naming, what a label cites does to a stack of numbers what the label does to the
/// stack of their tokens.
pub fn number_laws()
    ensures cited { CitationIsNamed }
{}
