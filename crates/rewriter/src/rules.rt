// Trying the rules whose left sides match, in their order.
ghost use Rattle.std.specs.Prelude.{◌≡◌, ◌∷◌, ◌<◌, [], length, slice_get, Some, IfOk};
ghost use Rattle.term_core.specs.Terms.{more_trees, no_tree};
ghost use Rattle.term_core.specs.Instances.{patterns};
ghost use Rattle.rule_core.specs.FirstRule.{Matches};
ghost use Rattle.rule_core.specs.MatchSearch.{FindsMatch, UseFirst};
ghost use Rattle.rule_core.specs.ProgramView.{theory_of, rewrite_rule};
ghost use Rattle.pat_matrix.specs.MatrixView.{order_of, row_of};
ghost use Rattle.match_tree.specs.ProgramLaws.{TellsOfRules};
ghost use Rattle.match_tree.specs.Programs.{IsRuleTree};
ghost use Rattle.match_tree.specs.SlotView.{CanBegin, Fits, HasRoom, IsKeptRow, Keeps, first_row};
ghost use Rattle.rewriter.specs.Configurations.{IsConfiguration};
ghost use Rattle.rewriter.specs.Choosing.{Chooses, IsTriable, TriesRule};
ghost use Rattle.rewriter.specs.Keeping.{KeepsChoice};

use fun_eval::{Budget, Engine, EvalEnd, MAX_NESTING, Recording, Trial, is_true};
use match_tree::{Hit, NodeNo, Slots, Tree, program_laws};
use rule_core::{Rule, with_names};
use std::alloc::{AllocError, Global};
use std::marker::Brand;
use std::slice::from_ref;
use std::sync::ledger::{Blank, Ledger};
use term_core::{Steps, Subst, Term};

// The rule that is used: its number, the substitution that makes its left side the term, and what
// is recorded of its condition, if it has one.
#[derive(Drop)]
pub(crate) struct Choice<R> {
    pub(crate) number: u32,
    pub(crate) subst: Subst,
    pub(crate) cond: Option<R>,
}

// The first rule that is used at a term, and how many calls are left after the trials.
pub(crate) fn choose_rule<R: Recording>(
    alloc: Global,
    engine: &Engine<'_>,
    tree: &Tree<'_>,
    slots: &mut Slots,
    term: &Term,
    calls: u32,
) -> Result<(Option<Choice<R>>, u32), EvalEnd>
    requires config { IsConfiguration (theory_of engine.now) term.now }
    requires tree { IsRuleTree (theory_of engine.now) tree.now }
    requires room { HasRoom tree.now slots.old }
    ensures chooses { Chooses R.tells (theory_of engine.now) term.now calls result }
    ensures kept { IfOk result (λ r. KeepsChoice tree.now term.now slots.new r.0) }
    ensures room { HasRoom tree.now slots.new }
{
    counted_choice::<R, Brand>(alloc, engine, tree, slots, term, calls, Blank::new(1))
}

fn counted_choice<R: Recording, L: Ledger>(
    alloc: Global,
    engine: &Engine<'_>,
    tree: &Tree<'_>,
    slots: &mut Slots,
    term: &Term,
    calls: u32,
    blank: Blank,
) -> Result<(Option<Choice<R>>, u32), EvalEnd>
    requires config { IsConfiguration (theory_of engine.now) term.now }
    requires tree { IsRuleTree (theory_of engine.now) tree.now }
    requires room { HasRoom tree.now slots.old }
    requires name { blank.name ≡ L.name }
    requires parts { blank.parts ≡ L.parts }
    requires some { 0 < L.parts }
    ensures chooses { Chooses R.tells (theory_of engine.now) term.now calls result }
    ensures kept { IfOk result (λ r. KeepsChoice tree.now term.now slots.new r.0) }
    ensures room { HasRoom tree.now slots.new }
{
    let mut steps = Steps::<L>::new(blank);
    first_used(alloc, engine, tree, slots, term, calls, &mut steps)
}

// The same. It walks from one rule that matches to the next.
fn first_used<R: Recording, L: Ledger>(
    alloc: Global,
    engine: &Engine<'_>,
    tree: &Tree<'_>,
    slots: &mut Slots,
    term: &Term,
    calls: u32,
    steps: &mut Steps<L>,
) -> Result<(Option<Choice<R>>, u32), EvalEnd>
    requires config { IsConfiguration (theory_of engine.now) term.now }
    requires tree { IsRuleTree (theory_of engine.now) tree.now }
    requires room { HasRoom tree.now slots.old }
    ensures chooses { Chooses R.tells (theory_of engine.now) term.now calls result }
    ensures kept { IfOk result (λ r. KeepsChoice tree.now term.now slots.new r.0) }
    ensures room { HasRoom tree.now slots.new }
{
    // The height of the term is at most the greatest height.
    let _high = term.height();
    let mut left = calls;
    let mut from = tree.start();
    while let Hit::Row { row, resume } = next_match(engine, tree, from, slots, term, steps) {
        let rule = rule_of(engine, row);
        let subst = bindings(alloc, tree, slots, term, row, rule.vars.len(), steps)?;
        let subst = with_names(alloc, from_ref(&rule.left), &rule.named, subst)?;
        let (trial, rest) = try_rule(alloc, engine, rule, subst, term, left)?;
        match trial {
            Trial::Failed(_, _) => {
                left = rest;
                from = resume;
            }
            Trial::Used(subst, cond) => {
                let number = row;
                let choice = Choice {
                    number,
                    subst,
                    cond,
                };
                return Ok((Some(choice), rest));
            }
        }
    }
    Ok((None, left))
}

// The rule with this number.
pub(crate) fn rule_of<'p>(engine: &Engine<'p>, number: u32) -> &'p Rule
    requires { number < length (theory_of engine.now).rules }
    ensures { slice_get (theory_of engine.now).rules number ≡ Some (rewrite_rule result.now) }
{
    &engine.program().rules[number as usize]
}

// The first rule from a place on whose left side matches the term.
fn next_match<L: Ledger>(
    engine: &Engine<'_>,
    tree: &Tree<'_>,
    from: NodeNo,
    slots: &mut Slots,
    term: &Term,
    steps: &mut Steps<L>,
) -> Hit
    requires config { IsConfiguration (theory_of engine.now) term.now }
    requires tree { IsRuleTree (theory_of engine.now) tree.now }
    requires room { HasRoom tree.now slots.old }
    requires begins { CanBegin tree.now (term.now ∷ []) slots.old from }
    ensures tells { TellsOfRules (theory_of engine.now) tree.now term.now
        (first_row slots.old from) result }
    ensures keeps { Keeps tree.now (term.now ∷ []) slots.new result }
    ensures room { HasRoom tree.now slots.new }
{
    program_laws();
    // The program is well-sorted, and the term is normal.
    let _program = engine.program();
    let _high = term.height();
    tree.walk(from, from_ref(term), slots, steps)
}

// The substitution by which the kept row matches the term. It binds no names of parts.
fn bindings<L: Ledger>(
    alloc: Global,
    tree: &Tree<'_>,
    slots: &Slots,
    term: &Term,
    row: u32,
    vars: usize,
    steps: &mut Steps<L>,
) -> Result<Subst, AllocError>
    requires fits { Fits tree.now (term.now ∷ []) slots.now }
    requires kept { IsKeptRow slots.now row }
    requires scoped { UseFirst vars (patterns (row_of tree.now.matrix row)) }
    ensures { IfOk result (λ s. FindsMatch (order_of tree.now.matrix) vars
        (patterns (row_of tree.now.matrix row)) (more_trees term.now no_tree) (Some s)) }
{
    slots.subst(alloc, tree, from_ref(term), row, vars, steps)
}

// Whether a rule that matches the term by this substitution is used.
fn try_rule<R: Recording>(
    alloc: Global,
    engine: &Engine<'_>,
    rule: &Rule,
    subst: Subst,
    term: &Term,
    calls: u32,
) -> Result<(Trial<R>, u32), EvalEnd>
    requires triable { IsTriable (theory_of engine.now) (rewrite_rule rule.now) term.now }
    requires matches { Matches (theory_of engine.now) (rewrite_rule rule.now) term.now subst }
    ensures { TriesRule R.tells (theory_of engine.now) (rewrite_rule rule.now) term.now calls
        result }
{
    let Some(cond) = &rule.cond else {
        return Ok((Trial::Used(subst, None), calls));
    };
    // The height of the term is at most the greatest height.
    let _high = term.height();
    let mut budget = Budget { calls };
    let answer = engine.eval_as::<R>(alloc, cond, &subst, &mut budget, MAX_NESTING)?;
    if is_true(&answer.term) {
        Ok((Trial::Used(subst, Some(answer.recorded)), budget.calls))
    } else {
        Ok((Trial::Failed(subst, answer.recorded), budget.calls))
    }
}
