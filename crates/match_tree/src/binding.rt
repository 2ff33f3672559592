// The substitution of a row that matches.
ghost use Rattle.std.specs.Prelude.{ℕ, ◌≡◌, ◌≢◌, ◌<◌, length, None, Some, IfOk, OnOk};
ghost use Rattle.term_core.specs.Forests.{forest, children};
ghost use Rattle.term_core.specs.Instances.{patterns};
ghost use Rattle.term_core.specs.Patterns.{binding};
ghost use Rattle.term_core.specs.RulePatterns.{plain_pattern};
ghost use Rattle.term_core.specs.PatternLists.{plain_patterns};
ghost use Rattle.rule_core.specs.Matching.{OccursIn};
ghost use Rattle.rule_core.specs.MatchSearch.{UseFirst, FindsMatch};
ghost use Rattle.rule_core.specs.MatchSteps.{bound_to, matched, all_matched};
ghost use Rattle.pat_matrix.specs.MatrixView.{row_of, order_of};
ghost use Rattle.pat_matrix.specs.Occurrences.{lowered_child};
ghost use Rattle.match_tree.specs.SlotView.{Fits, IsKeptRow, IsRowMatch, RowMatches};
ghost use Rattle.match_tree.specs.Binding.{bound_below, matched_under};

use crate::compiling::Tree;
use crate::slots::Slots;
use rule_core::Subsorts;
use std::alloc::{AllocError, Global};
use std::sync::ledger::Ledger;
use term_core::{RulePat, SortId, Steps, Subst, Term, View};

impl Slots {
    /// The substitution by which the kept row matches the subjects, over `vars` variables, as
    /// `Tree::bindings` makes it. An error: out of memory.
    pub fn subst<L: Ledger>(
        &self,
        alloc: Global,
        tree: &Tree<'_>,
        subjects: &[Term],
        row: u32,
        vars: usize,
        steps: &mut Steps<L>,
    ) -> Result<Subst, AllocError>
        requires fits { Fits tree.now subjects.now self.now }
        requires kept { IsKeptRow self.now row }
        requires scoped { UseFirst vars (patterns (row_of tree.now.matrix row)) }
        ensures matches { IfOk result (IsRowMatch (order_of tree.now.matrix) vars
            (row_of tree.now.matrix row) subjects.now) }
        ensures found { IfOk result (λ s. FindsMatch (order_of tree.now.matrix) vars
            (patterns (row_of tree.now.matrix row)) (forest subjects.now) (Some s)) }
    {
        tree.bindings(alloc, subjects, row, vars, steps)
    }
}

impl Tree<'_> {
    /// The substitution by which a row matches the subjects, over `vars` variables. It is read off
    /// the subjects: no row is tried, and no two terms are compared. It takes one step for each
    /// node of the row, and looks at a term only for a variable under an injection. An error: out
    /// of memory.
    pub fn bindings<L: Ledger>(
        &self,
        alloc: Global,
        subjects: &[Term],
        row: u32,
        vars: usize,
        steps: &mut Steps<L>,
    ) -> Result<Subst, AllocError>
        requires matches { RowMatches self.now subjects.now row }
        requires scoped { UseFirst vars (patterns (row_of self.now.matrix row)) }
        ensures matches { IfOk result (IsRowMatch (order_of self.now.matrix) vars
            (row_of self.now.matrix row) subjects.now) }
        ensures found { IfOk result (λ s. FindsMatch (order_of self.now.matrix) vars
            (patterns (row_of self.now.matrix row)) (forest subjects.now) (Some s)) }
    {
        // Terms are normal.
        let _high = Term::highest(subjects);
        let subsorts = self.matrix.subsorts();
        let patterns = self.matrix.row(row);
        let mut subst = Subst::new(alloc, vars)?;
        bind_row(alloc, subsorts, patterns, subjects, &mut subst, steps)?;
        Ok(subst)
    }
}

// Binds the variables of a row that matches the terms by this order of sorts, as far as they are
// not bound yet. An error: out of memory.
fn bind_row<L: Ledger>(
    alloc: Global,
    subsorts: &Subsorts,
    row: &[RulePat],
    terms: &[Term],
    subst: &mut Subst,
    steps: &mut Steps<L>,
) -> Result<(), AllocError>
    requires scoped { UseFirst (length subst.old) (plain_patterns row.now) }
    requires count { length row.now ≡ length terms.now }
    requires matches { all_matched subsorts.now (plain_patterns row.now) (forest terms.now)
        subst.old ≢ None }
    ensures { OnOk result (all_matched subsorts.now (plain_patterns row.now) (forest terms.now)
        subst.old ≡ Some subst.new) }
{
    for (i, pat) in row.iter().enumerate() {
        bind(alloc, subsorts, pat, &terms[i], subst, steps)?;
    }
    Ok(())
}

// The same for one pattern and one term.
#[cycle(binding)]
fn bind<L: Ledger>(
    alloc: Global,
    subsorts: &Subsorts,
    pat: &RulePat,
    term: &Term,
    subst: &mut Subst,
    steps: &mut Steps<L>,
) -> Result<(), AllocError>
    requires scoped { (x : ℕ) → OccursIn x (plain_pattern pat.now) → x < length subst.old }
    requires matches { matched subsorts.now (plain_pattern pat.now) term.now subst.old ≢ None }
    ensures room { length subst.new ≡ length subst.old }
    ensures bound { OnOk result
        (matched subsorts.now (plain_pattern pat.now) term.now subst.old ≡ Some subst.new) }
{
    match pat {
        RulePat::Var(var) => bind_term(*var, term, subst),
        RulePat::Ctor(_, args) => bind_children(alloc, subsorts, args, term, subst, steps),
        RulePat::Inj(from, _, below) => {
            bind_under(alloc, subsorts, below, *from, term, subst, steps)
        }
        RulePat::Value(..) => Ok(()),
        RulePat::Call(..) => Ok(()),
    }
}

// Binds the variables of the patterns, which match the children of the term.
#[cycle(binding)]
fn bind_children<L: Ledger>(
    alloc: Global,
    subsorts: &Subsorts,
    pats: &[RulePat],
    term: &Term,
    subst: &mut Subst,
    steps: &mut Steps<L>,
) -> Result<(), AllocError>
    requires scoped { UseFirst (length subst.old) (plain_patterns pats.now) }
    requires count { length pats.now ≡ length (children term.now) }
    requires matches { all_matched subsorts.now (plain_patterns pats.now)
        (forest (children term.now)) subst.old ≢ None }
    ensures room { length subst.new ≡ length subst.old }
    ensures bound { OnOk result (all_matched subsorts.now (plain_patterns pats.now)
        (forest (children term.now)) subst.old ≡ Some subst.new) }
{
    for (i, pat) in pats.iter().enumerate() {
        bind(alloc, subsorts, pat, term.child(i), subst, steps)?;
    }
    Ok(())
}

// Binds the variables of the pattern, which matches what the term injects into the sort.
#[cycle(binding)]
fn bind_under<L: Ledger>(
    alloc: Global,
    subsorts: &Subsorts,
    pat: &RulePat,
    sort: SortId,
    term: &Term,
    subst: &mut Subst,
    steps: &mut Steps<L>,
) -> Result<(), AllocError>
    requires scoped { (x : ℕ) → OccursIn x (plain_pattern pat.now) → x < length subst.old }
    requires matches { matched_under subsorts.now sort.0 (plain_pattern pat.now) term.now subst.old
        ≢ None }
    ensures room { length subst.new ≡ length subst.old }
    ensures bound { OnOk result
        (matched_under subsorts.now sort.0 (plain_pattern pat.now) term.now subst.old
        ≡ Some subst.new) }
{
    match pat {
        RulePat::Var(var) => bind_lowered(alloc, *var, sort, term, subst, steps),
        RulePat::Ctor(_, args) => {
            bind_children(alloc, subsorts, args, term.child(0), subst, steps)
        }
        RulePat::Value(..) => Ok(()),
        RulePat::Inj(from, _, below) => {
            // The term is normal, so its child is not an injection.
            let _high = term.height();
            bind_under(alloc, subsorts, below, *from, term, subst, steps)
        }
        RulePat::Call(..) => Ok(()),
    }
}

// Binds a variable to the term, unless it is bound to it already.
fn bind_term(var: u32, term: &Term, subst: &mut Subst) -> Result<(), AllocError>
    requires room { var < length subst.old }
    requires matches { bound_to term.now var subst.old (binding subst.old var) ≢ None }
    ensures room { length subst.new ≡ length subst.old }
    ensures bound { OnOk result
        (bound_to term.now var subst.old (binding subst.old var) ≡ Some subst.new) }
{
    if subst.get(var).is_none() {
        subst.bind(var, term.share()?);
    }
    Ok(())
}

// Binds a variable of the sort to what the term injects into it, unless it is bound to it already.
fn bind_lowered<L: Ledger>(
    alloc: Global,
    var: u32,
    sort: SortId,
    term: &Term,
    subst: &mut Subst,
    steps: &mut Steps<L>,
) -> Result<(), AllocError>
    requires room { var < length subst.old }
    requires matches { bound_below sort.0 term.now var subst.old ≢ None }
    ensures room { length subst.new ≡ length subst.old }
    ensures bound { OnOk result (bound_below sort.0 term.now var subst.old ≡ Some subst.new) }
{
    if subst.get(var).is_none() {
        subst.bind(var, lowered(alloc, sort, term, steps)?);
    }
    Ok(())
}

// What the term injects into the sort. An error: out of memory.
fn lowered<L: Ledger>(
    alloc: Global,
    sort: SortId,
    term: &Term,
    steps: &mut Steps<L>,
) -> Result<Term, AllocError>
    requires { lowered_child sort.0 term.now ≢ None }
    ensures { IfOk result (λ t. lowered_child sort.0 term.now ≡ Some t) }
{
    match term.view(steps) {
        View::Inj(from, _) => {
            if from == sort {
                term.child(0).share()
            } else {
                // The two injections are joined, so the term is not higher.
                let _high = term.height();
                Term::inj(alloc, from, sort, term)
            }
        }
        _ => unreachable!(),
    }
}
