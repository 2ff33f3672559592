// The law on Kore patterns.
ghost use Rattle.kore_show.specs.ShownLaws.{SortedIsShown};

/// In a well-formed signature, a pattern without variables that has a sort has a Kore pattern.
pub fn shown_laws()
    ensures { SortedIsShown }
{}
