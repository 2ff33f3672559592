// The laws on paths, their texts, and the reading of hint files.
ghost use Rattle.hint_file.specs.HintLaws.{PathsGrow, TextsGrow};
ghost use Rattle.hint_file.specs.ReadingLaws.{StepByIsOne, LineIsOne, FileIsOne, ReadIsPath};
ghost use Rattle.hint_file.specs.RunTextLaws.{HintTextIsOne};

use kore_rules::acceptance_laws;
use std::alloc::Global;

/// A path grows by a step, and its text by the line of that step.
pub fn hint_laws()
    ensures paths { PathsGrow }
    ensures texts { TextsGrow }
{}

/// A step by a rule, a line and a hint file have one outcome each. What was read is a path.
pub fn reading_laws(alloc: Global)
    ensures step { StepByIsOne }
    ensures line { LineIsOne }
    ensures file { FileIsOne }
    ensures path { ReadIsPath }
{
    acceptance_laws(alloc);
}

/// A run has one hint text.
pub fn run_text_laws()
    ensures { HintTextIsOne }
{}
