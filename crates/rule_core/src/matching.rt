// Matching of patterns with terms: the substitution under which a pattern becomes a term.
ghost use Rattle.std.specs.Prelude.{ℕ, ◌≡◌, ◌+◌, ◌<◌, ◌≤◌, ◌==◌, ◌||◌, if◌then◌else◌, length, IfOk};
ghost use Rattle.std.specs.Prelude.{None};
ghost use Rattle.term_core.specs.Terms.{inj, no_tree, more_trees, height, IsNoInjection};
ghost use Rattle.term_core.specs.Forests.{forest, children};
ghost use Rattle.term_core.specs.Patterns.{binding, no_pattern, more_patterns};
ghost use Rattle.term_core.specs.RulePatterns.{plain_pattern};
ghost use Rattle.term_core.specs.PatternLists.{plain_patterns};
ghost use Rattle.rule_core.specs.Matching.{OccursIn};
ghost use Rattle.rule_core.specs.MatchSearch.{UseFirst, FindsMatch, nodes, all_nodes};
ghost use Rattle.rule_core.specs.MatchSteps.{lowered, bound_to, matched, all_matched};
ghost use Rattle.rule_core.specs.MatchSteps.{AgreesWithSearch};
ghost use Rattle.rule_core.specs.Subsorts.{is_below};

use crate::Subsorts;
use std::alloc::{AllocError, Global};
use std::sync::ledger::Ledger;
use term_core::{MAX_HEIGHT, RulePat, SortId, Steps, Subst, Term, View};

/// The substitution under which a pattern over `vars` variables becomes the term. It is None
/// exactly when there is no such substitution. An injection of a variable also matches the
/// injection of a term of a lower sort. It looks at no more terms than the pattern has nodes. It
/// compares two terms when a variable occurs again. `AllocError`: out of memory for the
/// substitution.
pub fn find_match<L: Ledger>(
    alloc: Global,
    pat: &RulePat,
    vars: usize,
    subsorts: &Subsorts,
    term: &Term,
    steps: &mut Steps<L>,
) -> Result<Option<Subst>, AllocError>
    requires { UseFirst vars (more_patterns (plain_pattern pat.now) no_pattern) }
    ensures found { IfOk result (FindsMatch subsorts.now vars
        (more_patterns (plain_pattern pat.now) no_pattern) (more_trees term.now no_tree)) }
    ensures looks { steps.new ≤ steps.old + nodes (plain_pattern pat.now) }
{
    // A term is normal, and no sort is below itself.
    let _high = term.height();
    subsorts.has_no_cycle();
    let mut subst = Subst::new(alloc, vars)?;
    if match_term(alloc, subsorts, pat, term, &mut subst, steps)? {
        Ok(Some(subst))
    } else {
        Ok(None)
    }
}

/// The same for the patterns of a function's arguments and equally many terms.
pub fn find_match_all<L: Ledger>(
    alloc: Global,
    pats: &[RulePat],
    vars: usize,
    subsorts: &Subsorts,
    terms: &[Term],
    steps: &mut Steps<L>,
) -> Result<Option<Subst>, AllocError>
    requires scoped { UseFirst vars (plain_patterns pats.now) }
    requires count { length pats.now ≡ length terms.now }
    ensures found { IfOk result
        (FindsMatch subsorts.now vars (plain_patterns pats.now) (forest terms.now)) }
    ensures looks { steps.new ≤ steps.old + all_nodes (plain_patterns pats.now) }
{
    // Terms are normal, and no sort is below itself.
    let _high = Term::highest(terms);
    subsorts.has_no_cycle();
    let mut subst = Subst::new(alloc, vars)?;
    for (pat, term) in pats.iter().zip(terms) {
        if !match_term(alloc, subsorts, pat, term, &mut subst, steps)? {
            return Ok(None);
        }
    }
    Ok(Some(subst))
}

// Whether the pattern matches the term with the current bindings and further ones, which it adds.
#[cycle(matching)]
fn match_term<L: Ledger>(
    alloc: Global,
    subsorts: &Subsorts,
    pat: &RulePat,
    term: &Term,
    subst: &mut Subst,
    steps: &mut Steps<L>,
) -> Result<bool, AllocError>
    requires { (x : ℕ) → OccursIn x (plain_pattern pat.now) → x < length subst.old }
    ensures room { length subst.new ≡ length subst.old }
    ensures found { IfOk result (λ yes. AgreesWithSearch
        (matched subsorts.now (plain_pattern pat.now) term.now subst.old) yes subst.new) }
    ensures looks { steps.new ≤ steps.old + nodes (plain_pattern pat.now) }
{
    match pat {
        RulePat::Var(var) => bind_term(*var, term, subst),
        RulePat::Value(sort, value) => match term.view(steps) {
            View::Value(own_sort, own_value) => Ok(*sort == own_sort && value.same(own_value)),
            _ => Ok(false),
        },
        RulePat::Ctor(sym, args) => match term.view(steps) {
            View::Ctor(own_sym, count) if *sym == own_sym && args.len() == count => {
                match_children(alloc, subsorts, args, term, subst, steps)
            }
            _ => Ok(false),
        },
        RulePat::Inj(from, to, below) => match term.view(steps) {
            View::Inj(own_from, own_to) if *to == own_to => {
                // The term is normal and not too high. So its child is not an injection, and is
                // lower.
                let _high = term.height();
                let child = term.child(0);
                match_lowered(alloc, subsorts, below, own_from, *from, child, subst, steps)
            }
            _ => Ok(false),
        },
        RulePat::Call(..) => Ok(false),
    }
}

// Whether the patterns match the children of the term.
#[cycle(matching)]
fn match_children<L: Ledger>(
    alloc: Global,
    subsorts: &Subsorts,
    pats: &[RulePat],
    term: &Term,
    subst: &mut Subst,
    steps: &mut Steps<L>,
) -> Result<bool, AllocError>
    requires scoped { UseFirst (length subst.old) (plain_patterns pats.now) }
    requires count { length pats.now ≡ length (children term.now) }
    ensures room { length subst.new ≡ length subst.old }
    ensures found { IfOk result (λ yes. AgreesWithSearch
        (all_matched subsorts.now (plain_patterns pats.now) (forest (children term.now)) subst.old)
        yes subst.new) }
    ensures looks { steps.new ≤ steps.old + all_nodes (plain_patterns pats.now) }
{
    for (i, pat) in pats.iter().enumerate() {
        if !match_term(alloc, subsorts, pat, term.child(i), subst, steps)? {
            return Ok(false);
        }
    }
    Ok(true)
}

// Whether the pattern, which is the child of an injection from the sort `to`, matches what the term
// injects there. That is `child`, or the injection of `child` from `from` to `to` if `from` is
// below `to`.
#[cycle(matching)]
fn match_lowered<L: Ledger>(
    alloc: Global,
    subsorts: &Subsorts,
    pat: &RulePat,
    from: SortId,
    to: SortId,
    child: &Term,
    subst: &mut Subst,
    steps: &mut Steps<L>,
) -> Result<bool, AllocError>
    requires scoped { (x : ℕ) → OccursIn x (plain_pattern pat.now) → x < length subst.old }
    requires low { height child.now < MAX_HEIGHT }
    requires other { IsNoInjection child.now }
    ensures room { length subst.new ≡ length subst.old }
    ensures found { IfOk result (λ yes. AgreesWithSearch
        (if from.0 == to.0 || is_below subsorts.now from.0 to.0
        then matched subsorts.now (plain_pattern pat.now) (lowered from.0 to.0 child.now) subst.old
        else None)
        yes subst.new) }
    ensures looks { steps.new ≤ steps.old + nodes (plain_pattern pat.now) }
{
    if from == to {
        match_term(alloc, subsorts, pat, child, subst, steps)
    } else if subsorts.below(from, to) {
        match_injected(alloc, subsorts, pat, from, to, child, subst, steps)
    } else {
        Ok(false)
    }
}

// Whether the pattern matches the injection of `child`. The injection is built only if a variable
// is bound to it.
#[cycle(matching)]
fn match_injected<L: Ledger>(
    alloc: Global,
    subsorts: &Subsorts,
    pat: &RulePat,
    from: SortId,
    to: SortId,
    child: &Term,
    subst: &mut Subst,
    steps: &mut Steps<L>,
) -> Result<bool, AllocError>
    requires scoped { (x : ℕ) → OccursIn x (plain_pattern pat.now) → x < length subst.old }
    requires low { height child.now < MAX_HEIGHT }
    requires other { IsNoInjection child.now }
    ensures room { length subst.new ≡ length subst.old }
    ensures found { IfOk result (λ yes. AgreesWithSearch
        (matched subsorts.now (plain_pattern pat.now) (inj from.0 to.0 child.now) subst.old) yes
        subst.new) }
    ensures looks { steps.new ≤ steps.old + nodes (plain_pattern pat.now) }
{
    match pat {
        RulePat::Var(var) => bind_injected(alloc, *var, from, to, child, subst),
        RulePat::Inj(own_from, own_to, below) if *own_to == to => {
            match_lowered(alloc, subsorts, below, from, *own_from, child, subst, steps)
        }
        _ => Ok(false),
    }
}

// Binds a variable to the term. If the variable is bound already, compares the term with its term.
fn bind_term(var: u32, term: &Term, subst: &mut Subst) -> Result<bool, AllocError>
    requires { var < length subst.old }
    ensures room { length subst.new ≡ length subst.old }
    ensures found { IfOk result (λ yes.
        AgreesWithSearch (bound_to term.now var subst.old (binding subst.old var)) yes subst.new) }
{
    if let Some(known) = subst.get(var) {
        return Ok(known.same(term));
    }
    subst.bind(var, term.share()?);
    Ok(true)
}

// Binds a variable to the injection of `child`. If the variable is bound already, compares the
// injection with its term.
fn bind_injected(
    alloc: Global,
    var: u32,
    from: SortId,
    to: SortId,
    child: &Term,
    subst: &mut Subst,
) -> Result<bool, AllocError>
    requires room { var < length subst.old }
    requires low { height child.now < MAX_HEIGHT }
    requires other { IsNoInjection child.now }
    ensures room { length subst.new ≡ length subst.old }
    ensures found { IfOk result (λ yes. AgreesWithSearch
        (bound_to (inj from.0 to.0 child.now) var subst.old (binding subst.old var)) yes
        subst.new) }
{
    if let Some(known) = subst.get(var) {
        return Ok(known.same_inj(from, to, child));
    }
    let term = Term::inj(alloc, from, to, child)?;
    subst.bind(var, term);
    Ok(true)
}
