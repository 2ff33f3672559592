// Heads of patterns.
ghost use Rattle.std.specs.Prelude.{◌≡◌, ◌≤◌, ◌+◌, ◌||◌, IfOk, IfSome, OnOk, position};
ghost use Rattle.term_core.specs.Values.{value_of};
ghost use Rattle.term_core.specs.RulePatterns.{plain_pattern};
ghost use Rattle.pat_matrix.specs.Heads.{PlainHead, of_value, head_eq, root, takes, lowers};
ghost use Rattle.pat_matrix.specs.Heads.{lower_takes};
ghost use Rattle.pat_matrix.specs.Rows.{width};
ghost use Rattle.pat_matrix.specs.HeadView.{head_of, is_listed};

use indexmap::IndexSet;
use rule_core::Subsorts;
use std::alloc::AllocError;
use std::rc::RcStr;
use std::sync::ledger::Ledger;
use term_core::{RulePat, SortId, Steps, SymId, Term, Value, View};

/// The head of a term, as a row may ask for it. Contracts see it as a plain head.
#[derive(PartialEq, Eq, Hash, Drop)]
pub enum Head {
    /// A whole number of a sort.
    Int(SortId, i128),
    /// A truth value of a sort.
    Bool(SortId, bool),
    /// A text of a sort.
    Text(SortId, RcStr),
    /// A constructor, and how many arguments it has.
    Ctor(SymId, usize),
    /// An injection: its source sort and its target sort.
    Inj(SortId, SortId),
}

impl Head {
    // The head of a domain value that has no text.
    fn of_scalar(sort: SortId, value: &Value) -> Option<Head>
        ensures { IfSome result (λ h. head_of h ≡ of_value sort.0 (value_of value.now)) }
    {
        match value {
            Value::Int(n) => Some(Head::Int(sort, *n)),
            Value::Bool(b) => Some(Head::Bool(sort, *b)),
            Value::Text(_) => None,
        }
    }

    // The head of a domain value. An error: out of memory.
    pub(crate) fn of_value(sort: SortId, value: &Value) -> Result<Head, AllocError>
        ensures { IfOk result (λ h. head_of h ≡ of_value sort.0 (value_of value.now)) }
    {
        match value {
            Value::Int(n) => Ok(Head::Int(sort, *n)),
            Value::Bool(b) => Ok(Head::Bool(sort, *b)),
            Value::Text(words) => Ok(Head::Text(sort, words.clone()?)),
        }
    }

    // How many children a term with this head has.
    pub(crate) fn width(&self) -> usize
        ensures { result ≡ width (head_of self.now) }
    {
        match self {
            Head::Ctor(_, count) => *count,
            Head::Inj(..) => 1,
            _ => 0,
        }
    }

    // Whether it is the head of this domain value.
    fn is_value(&self, sort: SortId, value: &Value) -> bool
        ensures { result ≡ head_eq (of_value sort.0 (value_of value.now)) (head_of self.now) }
    {
        match (self, value) {
            (Head::Int(own, n), Value::Int(m)) => sort == *own && *m == *n,
            (Head::Bool(own, a), Value::Bool(b)) => sort == *own && *b == *a,
            (Head::Text(own, a), Value::Text(b)) => sort == *own && b == a,
            _ => false,
        }
    }
}

// Whether the pattern has this head.
pub(crate) fn takes(pat: &RulePat, head: &Head, subsorts: &Subsorts) -> bool
    ensures { result ≡ takes subsorts.now (plain_pattern pat.now) (head_of head.now) }
{
    match pat {
        RulePat::Value(sort, value) => head.is_value(*sort, value),
        RulePat::Ctor(sym, args) => match head {
            Head::Ctor(own, count) => *sym == *own && args.len() == *count,
            _ => false,
        },
        RulePat::Inj(from, to, below) => match head {
            Head::Inj(own_from, own_to) => {
                *to == *own_to && (*own_from == *from || lowers(below, *own_from, *from, subsorts))
            }
            _ => false,
        },
        RulePat::Var(_) => false,
        RulePat::Call(..) => false,
    }
}

/// Whether the term has a head that the pattern takes. It looks at the term once, unless the
/// pattern is a variable or a call.
pub fn takes_root<L: Ledger>(
    pat: &RulePat,
    term: &Term,
    subsorts: &Subsorts,
    steps: &mut Steps<L>,
) -> bool
    ensures takes { result ≡ takes subsorts.now (plain_pattern pat.now) (root term.now) }
    ensures looks { steps.new ≤ steps.old + 1 }
{
    match term.view(steps) {
        View::Value(sort, value) => match pat {
            RulePat::Value(own, own_value) => *own == sort && own_value.same(value),
            _ => false,
        },
        View::Ctor(sym, count) => match pat {
            RulePat::Ctor(own, args) => *own == sym && args.len() == count,
            _ => false,
        },
        View::Inj(from, to) => match pat {
            RulePat::Inj(own_from, own_to, below) => {
                *own_to == to && (from == *own_from || lowers(below, from, *own_from, subsorts))
            }
            _ => false,
        },
    }
}

/// The index of the term's head among the heads, or None if it is not among them. It looks at the
/// term once, and hashes its head. It compares a text with the heads one after another.
pub fn find_head<L: Ledger>(
    heads: &IndexSet<Head>,
    term: &Term,
    steps: &mut Steps<L>,
) -> Option<usize>
    ensures found { result ≡ position (λ k. head_eq (root term.now) (head_of k)) heads.now.keys }
    ensures looks { steps.new ≡ steps.old + 1 }
{
    match term.view(steps) {
        View::Value(sort, value) => find_value(heads, sort, value),
        View::Ctor(sym, count) => heads.get_index_of(&Head::Ctor(sym, count)),
        View::Inj(from, to) => heads.get_index_of(&Head::Inj(from, to)),
    }
}

// The index of the head of a domain value.
fn find_value(heads: &IndexSet<Head>, sort: SortId, value: &Value) -> Option<usize>
    ensures { result
        ≡ position (λ k. head_eq (of_value sort.0 (value_of value.now)) (head_of k))
        heads.now.keys }
{
    match Head::of_scalar(sort, value) {
        Some(head) => heads.get_index_of(&head),
        None => find_text(heads.as_slice(), sort, value),
    }
}

// The same by comparing with one head after another.
fn find_text(heads: &[Head], sort: SortId, value: &Value) -> Option<usize>
    ensures { result
        ≡ position (λ k. head_eq (of_value sort.0 (value_of value.now)) (head_of k)) heads.now }
{
    heads.iter().position(|head| head.is_value(sort, value))
}

// Whether the pattern is a variable, and the first sort is below the second.
fn lowers(pat: &RulePat, a: SortId, b: SortId, subsorts: &Subsorts) -> bool
    ensures { result ≡ lowers subsorts.now a.0 b.0 (plain_pattern pat.now) }
{
    match pat {
        RulePat::Var(_) => subsorts.below(a, b),
        _ => false,
    }
}
