// The faults of the patterns of one rule, one equation or one term. Only the first one is kept.
ghost use Rattle.std.specs.Prelude.{◌≡◌, ◌++◌, List, option_map, nat_lt};
ghost use Rattle.kore_ast.specs.Plain.{plain_sort, pattern_tree};
ghost use Rattle.kore_sig.specs.FirstFault.{Fault, when};
ghost use Rattle.kore_sig.specs.Numbered.{IsNumbered};
ghost use Rattle.kore_sig.specs.SortReferences.{sort_number};
ghost use Rattle.kore_check.specs.Folds.{unfolded, unfolded_height, unfolded_byte};
ghost use Rattle.kore_check.specs.PatternSorts.{sort_of_pattern};
ghost use Rattle.kore_check.specs.PatternFaults.{all_faults, sort_faults, clash_faults};
ghost use Rattle.rule_core.specs.Evaluation.{most_height};
ghost use Rattle.kore_check.specs.FaultNumbers.{IsFirstOf};
ghost use Rattle.kore_check.specs.Notes.{kept_fault, after};

use crate::check::check;
use crate::heights::height_of;
use crate::notes::note;
use crate::sorts::{check_clash, check_sort};
use crate::{FaultKind, PatternFault};
use kore_ast::{Pat, Sort};
use rule_core::Signature;
use term_core::{MAX_HEIGHT, SortId};

/// Notes the faults of a pattern, and returns the pattern's sort if it has one. The first of these
/// faults and of those noted before is kept.
///
/// It takes time linear in the pattern, up to a logarithm of the number of sorts and symbols. Its
/// recursion is no deeper than the open brackets of the text, because a loop handles the arguments
/// of a fold.
pub fn note_pattern(sig: &Signature, pat: &Pat, first: &mut Option<PatternFault>) -> Option<SortId>
    requires { IsNumbered sig.now }
    ensures sort { option_map (λ s. s.0) result
        ≡ sort_of_pattern sig.now (unfolded (pattern_tree pat.now)) }
    ensures first { (before : List Fault) → IsFirstOf before first.old →
        IsFirstOf (before ++ all_faults sig.now (unfolded (pattern_tree pat.now))) first.new }
{
    check_height(pat, first);
    check(sig, pat, first)
}

// Notes a pattern that is too high.
fn check_height(pat: &Pat, first: &mut Option<PatternFault>)
    ensures { kept_fault first.new ≡ after first.old (when
        (nat_lt most_height (unfolded_height (unfolded (pattern_tree pat.now)))) 3
        (unfolded_byte (unfolded (pattern_tree pat.now)))) }
{
    if height_of(pat) > MAX_HEIGHT {
        note(first, FaultKind::Deep, pat.at);
    }
}

/// Notes a sort that is not declared. It returns the number of a declared sort.
pub fn note_sort(sig: &Signature, sort: &Sort, first: &mut Option<PatternFault>) -> Option<SortId>
    requires { IsNumbered sig.now }
    ensures sort { option_map (λ s. s.0) result ≡ sort_number sig.now.sorts (plain_sort sort.now) }
    ensures first { (before : List Fault) → IsFirstOf before first.old →
        IsFirstOf (before ++ sort_faults sig.now (plain_sort sort.now)) first.new }
{
    check_sort(sig, sort, first)
}

/// Notes a clash at this byte if the sort is not the one that is wanted. There is no clash if one
/// of the two is missing.
pub fn note_clash(
    at: u32,
    own: Option<SortId>,
    wanted: Option<SortId>,
    first: &mut Option<PatternFault>,
)
    ensures { (before : List Fault) → IsFirstOf before first.old →
        IsFirstOf
        (before ++ clash_faults at (option_map (λ s. s.0) own) (option_map (λ s. s.0) wanted))
        first.new }
{
    check_clash(at, own, wanted, first);
}
