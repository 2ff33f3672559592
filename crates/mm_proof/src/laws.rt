// Laws on the definitions, and the definitions tried on small patterns.
ghost use Rattle.mm_proof.specs.Cases.{TriedCases};
ghost use Rattle.mm_proof.specs.RenderLaws.{FreshnessIsProved, PatternsParse, PredicatesAreProved};
ghost use Rattle.mm_proof.specs.RenderLaws.{RulesAreProved, SubstitutionIsProved};

/// On small patterns, the definitions say what is written for them.
pub fn tried()
    ensures { TriedCases }
{}

/// What is written as a proof that a pattern is one, or of a judgement on it, proves that in every
/// database that has the header and the cited declarations. The same is true of a rule over proofs
/// of its premises.
pub fn proof_laws()
    ensures parse { PatternsParse }
    ensures fresh { FreshnessIsProved }
    ensures substitution { SubstitutionIsProved }
    ensures predicate { PredicatesAreProved }
    ensures rules { RulesAreProved }
{}
