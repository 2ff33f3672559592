// Looks at terms, and matching, without a count of the looks.
ghost use Rattle.std.specs.Prelude.{◌≡◌, ◌<◌, ◌↔◌, ℕ, length, IsTrue, IfOk, Some};
ghost use Rattle.term_core.specs.Terms.{leaf};
ghost use Rattle.term_core.specs.Forests.{forest};
ghost use Rattle.term_core.specs.Heads.{Shows};
ghost use Rattle.term_core.specs.Instances.{patterns};
ghost use Rattle.term_core.specs.Values.{scalar_value, value_of};
ghost use Rattle.rule_core.specs.Evaluation.{IsTrueValue};
ghost use Rattle.rule_core.specs.MatchSearch.{FindsMatch, UseFirst};
ghost use Rattle.pat_matrix.specs.MatrixView.{order_of, row_of, rows_of};
ghost use Rattle.match_tree.specs.Finding.{BeginsAt, GivesOn};
ghost use Rattle.match_tree.specs.SlotView.{FindsFirst, RowMatches};
ghost use Rattle.match_tree.specs.TreeView.{IsTree};
ghost use Rattle.match_tree.specs.Walking.{AreWide};
ghost use Rattle.fun_eval.specs.Roots.{IsScalar};

use match_tree::{Hit, NodeNo, Tree};
use std::alloc::{AllocError, Global};
use std::marker::Brand;
use std::sync::ledger::{Blank, Ledger};
use term_core::{Scalar, Steps, Subst, Term, Value, View};

// What is at the root of a term.
fn root(term: &Term) -> View<'_>
    ensures { Shows term.now result }
{
    counted_root::<Brand>(term, Blank::new(1))
}

fn counted_root<L: Ledger>(term: &Term, blank: Blank) -> View<'_>
    requires name { blank.name ≡ L.name }
    requires parts { blank.parts ≡ L.parts }
    requires some { 0 < L.parts }
    ensures { Shows term.now result }
{
    let mut steps = Steps::<L>::new(blank);
    term.view(&mut steps)
}

/// Whether a term is the truth value `true`. It takes no memory.
pub fn is_true(term: &Term) -> bool
    ensures { IsTrue result ↔ IsTrueValue term.now }
{
    matches!(root(term), View::Value(_, Value::Bool(true)))
}

// The whole number or truth value in a term.
pub(crate) fn scalar_of(term: &Term) -> Scalar
    requires { IsScalar term.now }
    ensures { (sort : _) × (term.now ≡ leaf sort (scalar_value result)) }
{
    match root(term) {
        View::Value(_, Value::Int(n)) => Scalar::Int(*n),
        View::Value(_, Value::Bool(b)) => Scalar::Bool(*b),
        _ => unreachable!(),
    }
}

// The first row of a tree that matches the terms, from a place on.
pub(crate) fn find_row(tree: &Tree<'_>, from: NodeNo, terms: &[Term]) -> Hit
    requires tree { IsTree tree.now }
    requires wide { AreWide (length terms.now) (rows_of tree.now.matrix) }
    requires begins { (first : ℕ) × BeginsAt tree.now terms.now from first }
    ensures first { (first : ℕ) → BeginsAt tree.now terms.now from first →
        FindsFirst tree.now terms.now first result }
    ensures on { GivesOn tree.now terms.now result }
{
    counted_find::<Brand>(tree, from, terms, Blank::new(1))
}

fn counted_find<L: Ledger>(tree: &Tree<'_>, from: NodeNo, terms: &[Term], blank: Blank) -> Hit
    requires tree { IsTree tree.now }
    requires wide { AreWide (length terms.now) (rows_of tree.now.matrix) }
    requires begins { (first : ℕ) × BeginsAt tree.now terms.now from first }
    requires name { blank.name ≡ L.name }
    requires parts { blank.parts ≡ L.parts }
    requires some { 0 < L.parts }
    ensures first { (first : ℕ) → BeginsAt tree.now terms.now from first →
        FindsFirst tree.now terms.now first result }
    ensures on { GivesOn tree.now terms.now result }
{
    let mut steps = Steps::<L>::new(blank);
    tree.find(from, terms, &mut steps)
}

// The substitution by which a row matches the terms. An error: out of memory.
pub(crate) fn bind_row(
    alloc: Global,
    tree: &Tree<'_>,
    terms: &[Term],
    row: u32,
    vars: usize,
) -> Result<Subst, AllocError>
    requires matches { RowMatches tree.now terms.now row }
    requires scoped { UseFirst vars (patterns (row_of tree.now.matrix row)) }
    ensures { IfOk result (λ s. FindsMatch (order_of tree.now.matrix) vars
        (patterns (row_of tree.now.matrix row)) (forest terms.now) (Some s)) }
{
    counted_bindings::<Brand>(alloc, tree, terms, row, vars, Blank::new(1))
}

fn counted_bindings<L: Ledger>(
    alloc: Global,
    tree: &Tree<'_>,
    terms: &[Term],
    row: u32,
    vars: usize,
    blank: Blank,
) -> Result<Subst, AllocError>
    requires matches { RowMatches tree.now terms.now row }
    requires scoped { UseFirst vars (patterns (row_of tree.now.matrix row)) }
    requires name { blank.name ≡ L.name }
    requires parts { blank.parts ≡ L.parts }
    requires some { 0 < L.parts }
    ensures { IfOk result (λ s. FindsMatch (order_of tree.now.matrix) vars
        (patterns (row_of tree.now.matrix row)) (forest terms.now) (Some s)) }
{
    let mut steps = Steps::<L>::new(blank);
    tree.bindings(alloc, terms, row, vars, &mut steps)
}
