// The trial of one row.
ghost use Rattle.std.specs.Prelude.{◌≡◌, map, length, is_some};
ghost use Rattle.term_core.specs.RulePatterns.{plain_pattern};
ghost use Rattle.term_core.specs.PatternLists.{plain_patterns};
ghost use Rattle.pat_matrix.specs.Collapsed.{AreCollapsed};
ghost use Rattle.pat_matrix.specs.MatchTrees.{row_match};
ghost use Rattle.pat_matrix.specs.Occurrences.{row_twins};
ghost use Rattle.pat_matrix.specs.PlaceView.{twins_of};

use crate::agreement::row_agrees;
use crate::standing::twin_agrees;
use pat_matrix::Twin;
use rule_core::Subsorts;
use std::sync::ledger::Ledger;
use term_core::{RulePat, Steps, Term};

/// Whether a row without nested injections matches as many subjects. `twins` are the row's own. It
/// looks at no more terms than the row has nodes, and once more for each place of a variable under
/// an injection. It takes no memory.
pub fn row_matches<L: Ledger>(
    row: &[RulePat],
    twins: &[Twin],
    subjects: &[Term],
    subsorts: &Subsorts,
    steps: &mut Steps<L>,
) -> bool
    requires collapsed { AreCollapsed (plain_patterns row.now) }
    requires count { length row.now ≡ length subjects.now }
    requires own { twins_of twins.now ≡ row_twins (map plain_pattern row.now) }
    ensures { result ≡ is_some (row_match subsorts.now (map plain_pattern row.now) subjects.now) }
{
    if !row_agrees(row, subjects, subsorts, steps) {
        return false;
    }
    for twin in twins {
        if !twin_agrees(twin, subjects, steps) {
            return false;
        }
    }
    true
}
