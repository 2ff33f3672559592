// Which forms occur in a pattern.
ghost use Rattle.std.specs.Prelude.{◌≡◌, ◌&&◌, not, map};
ghost use Rattle.kore_text.specs.Trees.{pattern_trees};
ghost use Rattle.kore_ast.specs.Plain.{pattern_tree};
ghost use Rattle.kore_shapes.specs.Forms.{has_form as has_one, have_form as have_one};
ghost use Rattle.kore_shapes.specs.Forms.{fold_has_form as fold_has_one};
ghost use Rattle.kore_shapes.specs.Forms.{is_one as there_is_one, is_none as there_is_none};
ghost use Rattle.kore_shapes.specs.Forms.{covers as does_cover};
ghost use Rattle.kore_shapes.specs.Forms.{has_binder as has_one_binder};
ghost use Rattle.kore_shapes.specs.Forms.{have_binder as have_one_binder};
ghost use Rattle.kore_shapes.specs.SoughtForms.{sought as sought_forms};

use kore_ast::{Op, Pat, PatForm};

/// Forms of patterns other than a variable, an application, a domain value, a fold and a binder.
#[derive(Clone, Copy, PartialEq, Eq)]
pub enum SoughtForms {
    /// All but `\and`.
    Others,
    /// All of these.
    All,
}

fn covers(sought: SoughtForms, op: Op) -> bool
    ensures { result ≡ does_cover (sought_forms sought) op }
{
    match sought {
        SoughtForms::Others => !matches!(op, Op::And),
        SoughtForms::All => true,
    }
}

/// Whether one of these forms occurs in the pattern, at any depth. Folds are read, so the head of a
/// fold of one argument is ignored. It goes through the pattern once.
#[cycle(forms)]
pub fn has_form(pat: &Pat, sought: SoughtForms) -> bool
    ensures { result ≡ has_one (sought_forms sought) (pattern_tree pat.now) }
{
    match &pat.form {
        PatForm::App(_, _, args) => have_form(args, sought),
        PatForm::Built(op, _, args) => covers(sought, *op) || have_form(args, sought),
        PatForm::Bound(_, _, _, body) => has_form(body, sought),
        PatForm::Fold(_, inner) => fold_has_form(inner, sought),
        PatForm::Text(_) => true,
        PatForm::Elem(..) | PatForm::SetVar(..) | PatForm::Value(..) => false,
    }
}

#[cycle(forms)]
fn have_form(pats: &[Pat], sought: SoughtForms) -> bool
    ensures { result ≡ have_one (sought_forms sought) (pattern_trees (map pattern_tree pats.now)) }
{
    for pat in pats {
        if has_form(pat, sought) {
            return true;
        }
    }
    false
}

/// Whether one of these forms occurs in the fold of this pattern. A fold can be of an application,
/// or of a connective, with an argument.
#[cycle(forms)]
fn fold_has_form(pat: &Pat, sought: SoughtForms) -> bool
    ensures { result ≡ fold_has_one (sought_forms sought) (pattern_tree pat.now) }
{
    match &pat.form {
        PatForm::App(_, _, args) => is_none(args) || have_form(args, sought),
        PatForm::Built(op, _, args) => is_head(args, sought, *op) || have_form(args, sought),
        PatForm::Elem(..) | PatForm::SetVar(..) | PatForm::Text(_) => true,
        PatForm::Bound(..) | PatForm::Value(..) | PatForm::Fold(..) => true,
    }
}

/// Whether there are no patterns.
fn is_none(pats: &[Pat]) -> bool
    ensures { result ≡ there_is_none (map pattern_tree pats.now) }
{
    pats.is_empty()
}

/// Whether the connective of a fold of these patterns counts, and is among the sought forms. It
/// does not count in a fold of one pattern.
fn is_head(pats: &[Pat], sought: SoughtForms, op: Op) -> bool
    ensures { result
        ≡ (not (there_is_one (map pattern_tree pats.now)) && does_cover (sought_forms sought) op) }
{
    !matches!(pats, [_]) && covers(sought, op)
}

/// Whether a quantifier, `\mu`, `\nu` or a set variable occurs in the pattern. It goes through the
/// pattern once.
#[cycle(binder)]
pub fn has_binder(pat: &Pat) -> bool
    ensures { result ≡ has_one_binder (pattern_tree pat.now) }
{
    match &pat.form {
        PatForm::SetVar(..) | PatForm::Bound(..) => true,
        PatForm::App(_, _, args) | PatForm::Built(_, _, args) => have_binder(args),
        PatForm::Fold(_, inner) => has_binder(inner),
        PatForm::Elem(..) | PatForm::Text(_) | PatForm::Value(..) => false,
    }
}

#[cycle(binder)]
fn have_binder(pats: &[Pat]) -> bool
    ensures { result ≡ have_one_binder (pattern_trees (map pattern_tree pats.now)) }
{
    for pat in pats {
        if has_binder(pat) {
            return true;
        }
    }
    false
}
