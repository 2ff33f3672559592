// Laws of evaluation, of its records and of runs, and the definitions tested on small theories.
ghost use Rattle.rule_core.specs.EvaluationCases.{TriedEvaluations};
ghost use Rattle.rule_core.specs.EvaluationLaws.{CallsFall, EvaluationHasAnswer};
ghost use Rattle.rule_core.specs.EvaluationLaws.{EvaluationIsUnique, MoreLeftKeepsValue};
ghost use Rattle.rule_core.specs.EvaluationLaws.{RecordDetermines, RecordTells, RecordsAgree};
ghost use Rattle.rule_core.specs.EvaluationLaws.{ValueHasRecord, ValuesAreSorted};
ghost use Rattle.rule_core.specs.RunLaws.{ConfigurationsAreSorted, EndsAreOfRun, FirstApplies};
ghost use Rattle.rule_core.specs.RunLaws.{HasRun, NoneApplies, RunIsUnique, RunMayEnd, StepHasRecord};
ghost use Rattle.rule_core.specs.RunLaws.{StepIsUnique, StepRecordDetermines, TrialIsUnique};

/// Has no effect at run time. It states that evaluation in a well-sorted theory is a function. A
/// pattern that has a sort has exactly one answer under a substitution that gives its variables
/// terms of their sorts. A value is a normal term of the pattern's sort, of height at most 500.
/// More nesting and more calls left do not change a value. No evaluation leaves more calls than
/// there were.
pub fn evaluation_laws()
    ensures one { EvaluationIsUnique }
    ensures some { EvaluationHasAnswer }
    ensures sorted { ValuesAreSorted }
    ensures more { MoreLeftKeepsValue }
    ensures fewer { CallsFall }
{}

/// Has no effect at run time. It states that a value has a record, that a record describes an
/// evaluation, and that the result of the record is the only value.
pub fn record_laws()
    ensures kept { ValueHasRecord }
    ensures tells { RecordTells }
    ensures determines { RecordDetermines }
    ensures agree { RecordsAgree }
{}

/// Has no effect at run time. It states what the definitions say of small theories, as expected: on
/// whole numbers near the ends of their range, near each bound of an evaluation, by rules with
/// conditions, through injections, and by a function with two equations.
pub fn tried()
    ensures cases { TriedEvaluations }
{}

/// Has no effect at run time. It states that rewriting in a well-sorted theory is a function too. A
/// trial of the rules, a step and a run each have one outcome. An initial term of the rules' sort
/// has a run. Its configurations are normal terms of this sort, of height at most 500. The rule
/// that applies is the first one, by priority and position, that matches and whose condition holds.
/// A step has a record, which determines the next term. A run may be cut only at its configurations,
/// or at its initial term if it has none; it may be cut where it ends.
pub fn run_laws()
    ensures first { FirstApplies }
    ensures none { NoneApplies }
    ensures trial { TrialIsUnique }
    ensures step { StepIsUnique }
    ensures one { RunIsUnique }
    ensures some { HasRun }
    ensures sorted { ConfigurationsAreSorted }
    ensures kept { StepHasRecord }
    ensures recorded { StepRecordDetermines }
    ensures cut { EndsAreOfRun }
    ensures ends { RunMayEnd }
{}
