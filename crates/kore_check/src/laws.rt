// The law of sorts.
ghost use Rattle.kore_check.specs.SortedMeanings.{MeaningsAreSorted};

/// Does nothing at run time. It gives its caller the law that the meaning of a pattern without
/// faults has the sort of the pattern.
pub fn sort_laws()
    ensures { MeaningsAreSorted }
{}
