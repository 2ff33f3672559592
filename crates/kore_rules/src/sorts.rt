// Which sorts have terms other than values.
ghost use Rattle.std.specs.Prelude.{◌≡◌, ◌<◌, ◌||◌, ℕ, true, length, map, IfOk};
ghost use Rattle.std.specs.List.{list_any};
ghost use Rattle.kore_ast.specs.Plain.{plain_sort, pattern_tree};
ghost use Rattle.rule_core.specs.WellSorted.{IsSignature, IsReference};
ghost use Rattle.kore_sig.specs.Attributes.{subsort_sorts, stated_pair};
ghost use Rattle.kore_rules.specs.AxiomsRead.{is_marked, sort_at, tree_at};
ghost use Rattle.kore_rules.specs.ScalarSorts.{MarksTerms, makes, entry_makes, puts_below};
ghost use Rattle.kore_rules.specs.ScalarSorts.{states_upper};
ghost use Rattle.kore_rules.specs.ScalarSorts.{is_numbered_so, upper_one};

use crate::axioms::{mark, no_marks};
use kore_ast::{AxiomDecl, Pat, PatForm, Sort, Text};
use kore_sig::sort_number;
use rule_core::{Signature, SortInfo, SortRef, SymInfo, SymKind, Table};
use std::alloc::{AllocError, Global};

/// For each sort, by its number: whether it has terms other than values. It has some if a
/// constructor makes terms of it, or if an axiom puts a sort below it. It looks at each symbol
/// once, and at each attribute of an axiom once.
pub(crate) fn sorts_with_terms(
    alloc: Global,
    sig: &Signature,
    axioms: &[&AxiomDecl],
) -> Result<Vec<bool>, AllocError>
    requires { IsSignature sig.now }
    ensures { IfOk result (λ marks. MarksTerms sig.now (map tree_at axioms.now) marks.items) }
{
    let mut marks = no_marks(alloc, sig.sorts.len())?;
    mark_results(sig, &mut marks);
    mark_uppers(&sig.sorts, axioms, &mut marks);
    Ok(marks)
}

/// Marks the sorts that a constructor makes terms of.
fn mark_results(sig: &Signature, marks: &mut Vec<bool>)
    requires signature { IsSignature sig.now }
    requires len { length marks.old.items ≡ length sig.now.sorts }
    ensures len { length marks.new.items ≡ length marks.old.items }
    ensures marked { (n : ℕ) → is_marked marks.new.items n
        ≡ (is_marked marks.old.items n || list_any (entry_makes n) sig.now.symbols) }
{
    for number in 0..sig.symbols.len() {
        let Some(symbol) = sig.symbols.value(number) else {
            unreachable!()
        };
        mark_result(symbol, marks);
    }
}

/// Marks the sort that a symbol makes terms of, if the symbol is a constructor.
fn mark_result(symbol: &SymInfo, marks: &mut Vec<bool>)
    requires { (n : ℕ) → makes n symbol.now ≡ true → n < length marks.old.items }
    ensures len { length marks.new.items ≡ length marks.old.items }
    ensures marked { (n : ℕ)
        → is_marked marks.new.items n ≡ (is_marked marks.old.items n || makes n symbol.now) }
{
    if let (SymKind::Ctor, SortRef::Sort(sort)) = (symbol.kind, symbol.result) {
        mark(marks, sort.0 as usize);
    }
}

/// Marks the sorts that an axiom puts another sort below.
fn mark_uppers(sorts: &Table<SortInfo>, axioms: &[&AxiomDecl], marks: &mut Vec<bool>)
    requires { length marks.old.items ≡ length sorts.now }
    ensures { (n : ℕ) → is_marked marks.new.items n
        ≡ (is_marked marks.old.items n
        || list_any (states_upper sorts.now n) (map tree_at axioms.now)) }
{
    for decl in axioms {
        mark_stated(sorts, &decl.attrs, marks);
    }
}

/// Marks the sorts that one of the attributes puts another sort below.
fn mark_stated(sorts: &Table<SortInfo>, attrs: &[Pat], marks: &mut Vec<bool>)
    requires { length marks.old.items ≡ length sorts.now }
    ensures len { length marks.new.items ≡ length marks.old.items }
    ensures marked { (n : ℕ) → is_marked marks.new.items n
        ≡ (is_marked marks.old.items n
        || list_any (puts_below sorts.now n) (map pattern_tree attrs.now)) }
{
    for attr in attrs {
        mark_numbered(sorts, upper_sort(attr), marks);
    }
}

/// Marks the sort, if there is one and it is declared.
fn mark_numbered(sorts: &Table<SortInfo>, sort: Option<&Sort>, marks: &mut Vec<bool>)
    requires { length marks.old.items ≡ length sorts.now }
    ensures len { length marks.new.items ≡ length marks.old.items }
    ensures marked { (n : ℕ) → is_marked marks.new.items n
        ≡ (is_marked marks.old.items n || is_numbered_so sorts.now n (sort_at sort.entry)) }
{
    if let Some(sort) = sort
        && let Some(number) = sort_number(sorts, sort)
    {
        mark(marks, number);
    }
}

/// The upper sort of an attribute that puts a sort below another.
fn upper_sort(attr: &Pat) -> Option<&Sort>
    ensures { sort_at result ≡ upper_one (subsort_sorts (pattern_tree attr.now)) }
{
    match &attr.form {
        PatForm::App(name, sorts, args) => stated_upper(name, sorts, args),
        _ => None,
    }
}

fn stated_upper<'a>(name: &Text, sorts: &'a [Sort], args: &[Pat]) -> Option<&'a Sort>
    ensures { sort_at result
        ≡ upper_one (stated_pair name.now (map plain_sort sorts.now) (map pattern_tree args.now)) }
{
    match (sorts, args) {
        ([_, upper], []) if name.as_str() == "subsort" => Some(upper),
        _ => None,
    }
}
