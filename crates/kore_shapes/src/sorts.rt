// Sorts and variables that are written the same.
ghost use Rattle.std.specs.Prelude.{◌≡◌, map};
ghost use Rattle.kore_text.specs.Trees.{sort_trees};
ghost use Rattle.kore_ast.specs.Plain.{plain_sort, pattern_tree};
ghost use Rattle.kore_shapes.specs.SameSorts.{same_sort as are_same, same_sorts as all_same};
ghost use Rattle.kore_shapes.specs.SameSorts.{is_variable as is_the_variable};

use kore_ast::{Pat, PatForm, Sort, SortForm};

/// Whether two sorts are written the same. Places are ignored.
#[cycle(same)]
pub fn same_sort(sort: &Sort, other: &Sort) -> bool
    ensures { result ≡ are_same (plain_sort sort.now) (plain_sort other.now) }
{
    match (&sort.form, &other.form) {
        (SortForm::Param(name), SortForm::Param(own)) => name.as_str() == own.as_str(),
        (SortForm::App(name, args), SortForm::App(own, others)) => {
            name.as_str() == own.as_str() && same_sorts(args, others)
        }
        _ => false,
    }
}

#[cycle(same)]
fn same_sorts(sorts: &[Sort], others: &[Sort]) -> bool
    ensures { result
        ≡ all_same (sort_trees (map plain_sort sorts.now))
        (sort_trees (map plain_sort others.now)) }
{
    if sorts.len() != others.len() {
        return false;
    }
    for (i, sort) in sorts.iter().enumerate() {
        if !same_sort(sort, &others[i]) {
            return false;
        }
    }
    true
}

/// Whether the pattern is the element variable of this name and sort.
pub fn is_variable(pat: &Pat, name: &str, sort: &Sort) -> bool
    ensures { result ≡ is_the_variable name.now (plain_sort sort.now) (pattern_tree pat.now) }
{
    match &pat.form {
        PatForm::Elem(own, of) => name == own.as_str() && same_sort(sort, of),
        _ => false,
    }
}
