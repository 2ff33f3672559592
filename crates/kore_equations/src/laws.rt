// The law of readings.
ghost use Rattle.kore_equations.specs.ReadingLaws.{ReadingsExclude};

/// Does nothing when it runs. It states a law for its callers: an axiom that is an equation of a
/// function is no unreadable equation of it.
pub fn reading_laws()
    ensures { ReadingsExclude }
{}
