// Laws of the order of sorts, of matching and of trials.
ghost use Rattle.rule_core.specs.SubsortLaws.{BelowIsTested};
ghost use Rattle.rule_core.specs.MatchLaws.{SortedUseFirst, InstancesAreSorted, MatchIsUnique};
ghost use Rattle.rule_core.specs.MatchLaws.{MatchIsDecidable};
ghost use Rattle.rule_core.specs.NamedLaws.{NamesMatch, NoneMatchesNamed};
ghost use Rattle.rule_core.specs.TrialLaws.{UnmatchedAreSkipped};

/// Has no effect at run time. It states that the test `is_below` decides whether one sort is below
/// another.
pub fn subsort_laws()
    ensures { BelowIsTested }
{}

/// Has no effect at run time. It states facts about matching with well-sorted patterns. They use
/// only variables that have a sort. Their instances are normal terms of their sorts. At most one
/// substitution matches them with terms. It is decidable whether one does. Names of parts change
/// nothing of what matches.
pub fn match_laws()
    ensures variables { SortedUseFirst }
    ensures instances { InstancesAreSorted }
    ensures unique { MatchIsUnique }
    ensures decidable { MatchIsDecidable }
    ensures names { NamesMatch }
    ensures unmatched { NoneMatchesNamed }
{}

/// Has no effect at run time. It states that a trial of rules skips those that do not match. So a
/// caller that looks for the first matching rule may start the trial at that rule.
pub fn trial_laws()
    ensures skipped { UnmatchedAreSkipped }
{}
