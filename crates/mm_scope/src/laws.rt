// Laws on scopes.
ghost use Rattle.mm_scope.specs.StandingLaws.{FrameCited, HypothesisStands, NamingExists};
ghost use Rattle.mm_scope.specs.StandingLaws.{NothingCited, PlaceStands};

/// For scopes that stand for a context, some naming gives each symbol its token. Under each such
/// naming, the variables, the pairs, the active hypotheses and the frames of assertions are those
/// of the context. So a step of a proof over numbers is the step over tokens.
pub fn scope_laws()
    ensures naming { NamingExists }
    ensures place { PlaceStands }
    ensures hypothesis { HypothesisStands }
    ensures frame { FrameCited }
    ensures nothing { NothingCited }
{}
