// Ground terms. A term is a tree that is shared, not copied. It is always normal: no injection is
// the child of another injection.
ghost use Rattle.std.specs.Prelude.{ℕ, ◌≡◌, ◌+◌, ◌<◌, ◌≤◌, ◌↔◌, length, slice_get, IfOk, IsTrue};
ghost use Rattle.term_core.specs.Terms.{leaf, node, inj, height, heights};
ghost use Rattle.term_core.specs.Forests.{forest, children};
ghost use Rattle.term_core.specs.Terms.{injected, IsNormal, AreNormal};
ghost use Rattle.term_core.specs.NormalForms.{norm};
ghost use Rattle.term_core.specs.Values.{value_of};
ghost use Rattle.term_core.specs.Heads.{Shows};

use crate::ids::{SortId, SymId};
use crate::steps::Steps;
use crate::values::Value;
use std::alloc::{AllocError, Global};
use std::marker::Model;
use std::rc::Rc;
use std::sync::ledger::Ledger;

/// The greatest height of a term. It bounds the depth of recursion of a walk over a term.
pub const MAX_HEIGHT: u32 = 500;

/// A ground term. Contracts see it as a plain normal tree.
#[cycle(term)]
#[derive(Drop)]
pub struct Term {
    high: u32,
    node: Rc<Node>,
}

#[cycle(term)]
#[derive(Drop)]
enum Node {
    Leaf(SortId, Value),
    Ctor(SymId, Vec<Term>),
    Inj(SortId, SortId, Term),
}

impl Model for Term {
    ghost use Rattle.std.specs.Prelude.{◌≡◌, ◌≤◌};
    ghost use Rattle.term_core.specs.Terms.{Tree, height};
    ghost use Rattle.term_core.specs.TermCode.{tree_code};

    ghost Value = { Tree };

    ghost coded = { tree_code };

    ghost use Rattle.term_core.specs.TermView.{tree_of, IsTermOfHeight};

    ghost view = { tree_of };

    ghost invariant = { λ a. IsTermOfHeight a.high (tree_of a) };

    ghost size = { height };

    ghost use Rattle.std.proofs.Common.{arith};
    ghost use Rattle.term_core.specs.TermSize.{deep-height};

    ghost size_decreases = { λ a h. Prim.omega (arith, deep-height a.node.value) };
}

/// The root of a term.
#[derive(Clone, Copy)]
pub enum View<'a> {
    /// A domain value of a sort.
    Value(SortId, &'a Value),
    /// A constructor, and how many arguments it has.
    Ctor(SymId, usize),
    /// An injection: its source sort and its target sort. Its term is child 0.
    Inj(SortId, SortId),
}

impl Term {
    /// The domain value of a sort. An error: out of memory.
    pub fn value(alloc: Global, sort: SortId, value: Value) -> Result<Term, AllocError>
        ensures { IfOk result (λ t. t ≡ leaf sort.0 (value_of value)) }
    {
        let node = Rc::new(alloc, Node::Leaf(sort, value))?;
        Ok(Term { high: 1, node })
    }

    /// A constructor applied to terms. `highest` tests the precondition. An error: out of memory.
    pub fn ctor(alloc: Global, sym: SymId, args: Vec<Term>) -> Result<Term, AllocError>
        requires { heights (forest args.items) < MAX_HEIGHT }
        ensures { IfOk result (λ t. t ≡ node sym.0 (forest args.items)) }
    {
        let high = Term::highest(&args) + 1;
        let node = Rc::new(alloc, Node::Ctor(sym, args))?;
        Ok(Term { high, node })
    }

    /// The injection of a term, in normal form: if the term's root is an injection, the two are
    /// joined. `height_injected` returns the height of the result. An error: out of memory.
    pub fn inj(alloc: Global, from: SortId, to: SortId, child: &Term) -> Result<Term, AllocError>
        requires { height (injected from.0 to.0 child.now) ≤ MAX_HEIGHT }
        ensures injected { IfOk result (λ t. t ≡ injected from.0 to.0 child.now) }
        ensures norm { IfOk result (λ t. t ≡ norm (inj from.0 to.0 child.now)) }
    {
        // The child is normal, so at most these two injections are in a row.
        let _high = child.height();
        Term::joined(alloc, from, to, child)
    }

    // The injection of a term. It is joined with the injection at the term's root, if there is one.
    fn joined(alloc: Global, from: SortId, to: SortId, child: &Term) -> Result<Term, AllocError>
        requires { height (injected from.0 to.0 child.now) ≤ MAX_HEIGHT }
        ensures { IfOk result (λ t. t ≡ injected from.0 to.0 child.now) }
    {
        match &*child.node {
            Node::Inj(first, _, below) => {
                let node = Rc::new(alloc, Node::Inj(*first, to, below.share()?))?;
                Ok(Term {
                    high: child.high,
                    node,
                })
            }
            _ => {
                let node = Rc::new(alloc, Node::Inj(from, to, child.share()?))?;
                Ok(Term {
                    high: child.high + 1,
                    node,
                })
            }
        }
    }

    /// The same term, shared. The cost does not depend on the term. An error: out of memory.
    pub fn share(&self) -> Result<Term, AllocError>
        ensures same { IfOk result (λ t. t ≡ self.now) }
        ensures normal { IfOk result IsNormal }
    {
        let node = self.node.clone()?;
        Ok(Term {
            high: self.high,
            node,
        })
    }

    /// The height: 1 for a value and for a constructor with no argument; otherwise one more than
    /// the greatest height of a child.
    pub fn height(&self) -> u32
        ensures value { result ≡ height self.now }
        ensures bound { result ≤ MAX_HEIGHT }
        ensures normal { IsNormal self.now }
    {
        self.high
    }

    /// The height of an injection of this term.
    pub fn height_injected(&self) -> u32
        ensures value { (a b : ℕ) → height (injected a b self.now) ≡ result }
        ensures bound { result ≤ MAX_HEIGHT + 1 }
    {
        match &*self.node {
            Node::Inj(..) => self.high,
            _ => self.high + 1,
        }
    }

    /// The greatest height of some terms, or 0 if there are none.
    pub fn highest(args: &[Term]) -> u32
        ensures value { result ≡ heights (forest args.now) }
        ensures bound { result ≤ MAX_HEIGHT }
        ensures normal { AreNormal (forest args.now) }
    {
        let mut highest: u32 = 0;
        for arg in args {
            highest = highest.max(arg.height());
        }
        highest
    }

    /// A child: an argument of a constructor, or the term of an injection.
    pub fn child(&self, i: usize) -> &Term
        requires { i < length (children self.now) }
        ensures { slice_get (children self.now) i ≡ Some result.now }
    {
        match &*self.node {
            Node::Ctor(_, args) => &args[i],
            Node::Inj(_, _, below) => below,
            Node::Leaf(..) => unreachable!(),
        }
    }

    /// The root of the term. This takes one step.
    pub fn view<L: Ledger>(&self, steps: &mut Steps<L>) -> View<'_>
        ensures shows { Shows self.now result }
        ensures step { steps.new ≡ steps.old + 1 }
    {
        steps.tick();
        self.head()
    }

    // The root of the term, with no step counted.
    pub(crate) fn head(&self) -> View<'_>
        ensures { Shows self.now result }
    {
        match &*self.node {
            Node::Leaf(sort, value) => View::Value(*sort, value),
            Node::Ctor(sym, args) => View::Ctor(*sym, args.len()),
            Node::Inj(from, to, _) => View::Inj(*from, *to),
        }
    }

    /// Whether both are the same term. It costs at most the size of the smaller one.
    #[cycle(same)]
    pub fn same(&self, other: &Term) -> bool
        ensures { IsTrue result ↔ (self.now ≡ other.now) }
    {
        if self.high != other.high {
            return false;
        }
        match (&*self.node, &*other.node) {
            (Node::Leaf(sort, value), Node::Leaf(other_sort, other_value)) => {
                sort == other_sort && value.same(other_value)
            }
            (Node::Ctor(sym, args), Node::Ctor(other_sym, other_args)) => {
                sym == other_sym && all_same(args, other_args)
            }
            (Node::Inj(from, to, below), Node::Inj(other_from, other_to, other_below)) => {
                from == other_from && to == other_to && below.same(other_below)
            }
            _ => false,
        }
    }

    /// Whether the term is the injection of `child` from `from` to `to`.
    pub fn same_inj(&self, from: SortId, to: SortId, child: &Term) -> bool
        ensures { IsTrue result ↔ (self.now ≡ inj from.0 to.0 child.now) }
    {
        match &*self.node {
            Node::Inj(own_from, own_to, below) => *own_from == from
                && *own_to == to
                && below.same(child),
            _ => false,
        }
    }
}

// Whether both have the same terms in the same order.
#[cycle(same)]
fn all_same(xs: &[Term], ys: &[Term]) -> bool
    ensures { IsTrue result ↔ (xs.now ≡ ys.now) }
{
    if xs.len() != ys.len() {
        return false;
    }
    for (x, y) in xs.iter().zip(ys) {
        if !x.same(y) {
            return false;
        }
    }
    true
}
