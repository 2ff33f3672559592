// What a row asks at a position.
ghost use Rattle.std.specs.Prelude.{◌≡◌, option_copied, option_map, map};
ghost use Rattle.term_core.specs.RulePatterns.{plain_pattern};
ghost use Rattle.pat_matrix.specs.Positions.{part, asking, row_asks};

use term_core::RulePat;

/// The pattern of a row at a position: the number of a subject, and after it the numbers of the
/// children on the way down. It is None if a variable is there or above, or if nothing is there. It
/// takes one step for each number.
pub fn asked_at<'a>(row: &'a [RulePat], position: &[usize]) -> Option<&'a RulePat>
    ensures { option_map plain_pattern (option_copied result)
        ≡ row_asks (map plain_pattern row.now) position.now }
{
    let (first, way) = position.split_first()?;
    let mut pat = row.get(*first)?;
    for step in way {
        pat = part(pat, *step)?;
    }
    asking(pat)
}

// A child of a pattern: an argument of a constructor, or the pattern of an injection.
fn part(pat: &RulePat, no: usize) -> Option<&RulePat>
    ensures { option_map plain_pattern (option_copied result) ≡ part (plain_pattern pat.now) no }
{
    match pat {
        RulePat::Ctor(_, args) => args.get(no),
        RulePat::Inj(_, _, below) if no == 0 => Some(below),
        _ => None,
    }
}

// The pattern, if it is not a variable.
fn asking(pat: &RulePat) -> Option<&RulePat>
    ensures { option_map plain_pattern (option_copied result) ≡ asking (plain_pattern pat.now) }
{
    match pat {
        RulePat::Var(_) => None,
        _ => Some(pat),
    }
}
