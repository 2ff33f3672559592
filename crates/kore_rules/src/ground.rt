// Terms: patterns that have only applications, domain values and folds.
ghost use Rattle.std.specs.Prelude.{◌≡◌, map, None};
ghost use Rattle.kore_text.specs.Trees.{pattern_trees};
ghost use Rattle.kore_ast.specs.Plain.{pattern_tree};
ghost use Rattle.kore_shapes.specs.Forms.{is_one as there_is_one, is_none as there_is_none};
ghost use Rattle.kore_rules.specs.GroundTerms.{ground_faults, all_ground_faults};
ghost use Rattle.kore_rules.specs.GroundTerms.{folded_ground_faults, not_ground};
ghost use Rattle.kore_rules.specs.GroundNotes.{not_ground_at, behind};

use kore_ast::{Pat, PatForm};

/// The first byte in a term of a pattern that is not an application, a domain value or a fold with
/// an argument. None if there is no such pattern.
pub(crate) fn first_not_ground(pat: &Pat) -> Option<u32>
    ensures { not_ground_at result ≡ behind None (ground_faults (pattern_tree pat.now)) }
{
    let mut first = None;
    note_not_ground(pat, &mut first);
    first
}

#[cycle(ground)]
fn note_not_ground(pat: &Pat, first: &mut Option<u32>)
    ensures { not_ground_at first.new ≡ behind first.old (ground_faults (pattern_tree pat.now)) }
{
    match &pat.form {
        PatForm::App(_, _, args) => note_all(args, first),
        PatForm::Fold(_, inner) => note_folded(inner, first),
        PatForm::Value(..) => {}
        PatForm::Elem(..) | PatForm::SetVar(..) | PatForm::Text(_) => note(first, pat.at),
        PatForm::Built(..) | PatForm::Bound(..) => note(first, pat.at),
    }
}

#[cycle(ground)]
fn note_all(pats: &[Pat], first: &mut Option<u32>)
    ensures { not_ground_at first.new
        ≡ behind first.old (all_ground_faults (pattern_trees (map pattern_tree pats.now))) }
{
    for pat in pats {
        note_not_ground(pat, first);
    }
}

/// Notes the bytes that the pattern inside a fold must not have.
#[cycle(ground)]
fn note_folded(pat: &Pat, first: &mut Option<u32>)
    ensures { not_ground_at first.new
        ≡ behind first.old (folded_ground_faults (pattern_tree pat.now)) }
{
    match &pat.form {
        PatForm::App(_, _, args) if !is_none(args) => note_all(args, first),
        PatForm::Built(_, _, args) if is_one(args) => note_all(args, first),
        PatForm::App(..)
        | PatForm::Built(..)
        | PatForm::Bound(..)
        | PatForm::Value(..)
        | PatForm::Fold(..) => {
            note(first, pat.at);
        }
        PatForm::Elem(..) | PatForm::SetVar(..) | PatForm::Text(_) => note(first, pat.at),
    }
}

fn is_none(pats: &[Pat]) -> bool
    ensures { result ≡ there_is_none (map pattern_tree pats.now) }
{
    matches!(pats, [])
}

fn is_one(pats: &[Pat]) -> bool
    ensures { result ≡ there_is_one (map pattern_tree pats.now) }
{
    matches!(pats, [_])
}

/// Notes a byte. The smaller one of it and of the byte that was kept before is kept.
fn note(first: &mut Option<u32>, at: u32)
    ensures { not_ground_at first.new ≡ behind first.old (not_ground at) }
{
    match first {
        Some(earlier) if *earlier <= at => {}
        _ => *first = Some(at),
    }
}
