// Patterns of matching logic, shared and not copied.
ghost use Rattle.std.specs.Prelude.{◌≡◌, ◌<◌, ◌≤◌, ◌+◌, ◌*◌, IfOk, IfSome};
ghost use Rattle.ml_pat.specs.Dropping.{weight_of, later_weight, weight_left};
ghost use Rattle.ml_pat.specs.Dropping.{later_forms, forms_left, StaysSmall};
ghost use Rattle.ml_pat.specs.FormsIn.{forms_in};
ghost use Rattle.ml_pat.specs.Patterns.{bot, top, imp, not, and, or, equal, member, fun, ex, all};
ghost use Rattle.ml_pat.specs.Patterns.{app, at_sort, next, ev, var, meta, constant};
ghost use Rattle.ml_pat.specs.PatternView.{pattern_of};

use crate::fingerprints::fingerprint_of;
use crate::numbers::{ConstNo, MSort, VarNo};
use std::alloc::{AllocError, Global};
use std::marker::Model;
use std::mem::replace;
use std::rc::Rc;

/// A pattern. Contracts see it as a plain `Pattern`.
#[cycle(pattern)]
pub struct MPat {
    node: Rc<Node>,
}

// A form, and a number that is made from it.
#[cycle(pattern)]
#[derive(Drop)]
struct Node {
    form: MForm,
    fingerprint: u64,
}

/// The form at the root of a pattern, with its parts.
#[cycle(pattern)]
#[derive(Drop)]
pub enum MForm {
    /// Nothing.
    Bot,
    /// Everything.
    Top,
    /// An implication.
    Imp(MPat, MPat),
    /// A negation.
    Not(MPat),
    /// A conjunction.
    And(MPat, MPat),
    /// A disjunction.
    Or(MPat, MPat),
    /// The two are equal.
    Equal(MPat, MPat),
    /// The first is an element of the second.
    Member(MPat, MPat),
    /// The pattern is one element of the sort.
    Fun(MPat, MSort),
    /// For some element of the sort.
    Ex(VarNo, MSort, MPat),
    /// For each element of the sort.
    All(VarNo, MSort, MPat),
    /// The first applied to the second.
    App(MPat, MPat),
    /// The pattern applied to a sort argument.
    At(MPat, MSort),
    /// Everything that can make one step to the pattern.
    Next(MPat),
    /// Everything that can reach the pattern in zero or more steps.
    Ev(MPat),
    /// An object variable.
    Var(VarNo),
    /// A pattern variable of a lemma.
    Meta(u32),
    /// A symbol or a value.
    Const(ConstNo),
}

impl Model for MPat {
    ghost use Rattle.ml_pat.specs.FormsIn.{forms_in};
    ghost use Rattle.ml_pat.specs.Patterns.{Pattern};
    ghost use Rattle.ml_pat.specs.PatternCode.{pattern_code};

    ghost Value = { Pattern };

    ghost coded = { pattern_code };

    ghost use Rattle.ml_pat.specs.WholePattern.{whole_pattern};

    ghost view = { whole_pattern };

    ghost size = { forms_in };

    ghost use Rattle.std.proofs.Common.{arith};
    ghost use Rattle.ml_pat.specs.PatternSize.{deep-forms_in};

    ghost size_decreases = { λ a h. Prim.omega (arith, deep-forms_in a.node.value.form) };
}

// It does not recurse, because a text that is read may nest patterns to any depth. A node that is
// dropped and has a second part is kept as a link of the list of parts that are dropped later.
impl Drop for MPat {
    #[cycle(pattern_drop)]
    fn drop(mut self) {
        let mut later = None;
        loop {
            let MPat { mut node } = self;
            let taken = match Rc::get_mut(&mut node) {
                None => Taken::Nothing(later),
                Some(root) => root.take_apart(later),
            };
            match taken {
                Taken::Two(first) => {
                    later = Some(MPat { node });
                    self = first;
                }
                Taken::One(part, rest) => {
                    later = rest;
                    self = part;
                }
                Taken::Nothing(None) => return,
                Taken::Nothing(Some(link)) => match link.next_later() {
                    None => return,
                    Some((part, rest)) => {
                        later = rest;
                        self = part;
                    }
                },
            }
        }
    }
}

// What was taken out of a node that is dropped, with the parts that are dropped later.
enum Taken {
    // The first part. The node has become a link in front of the later parts.
    Two(MPat),
    // The only part.
    One(MPat, Option<MPat>),
    // There is no part, or the node is still shared.
    Nothing(Option<MPat>),
}

impl Node {
    // Takes the parts out.
    #[cycle(pattern_drop)]
    fn take_apart(&mut self, later: Option<MPat>) -> Taken
        ensures weight { weight_left (pattern_of self.new.form) result
            < 2 * forms_in (pattern_of self.old.form) + later_weight later }
        ensures forms { forms_left (pattern_of self.new.form) result
            ≤ forms_in (pattern_of self.old.form) + later_forms later }
        ensures node { StaysSmall (pattern_of self.old.form) (pattern_of self.new.form) result }
    {
        let form = replace(&mut self.form, MForm::Bot);
        let (left, taken) = taken_apart(form, later);
        self.form = left;
        taken
    }
}

// Takes the first part out of a node with this form. A second part goes in front of the later ones:
// a link is an application of a part to the later ones, and the last link is a negation.
fn taken_apart(form: MForm, later: Option<MPat>) -> (MForm, Taken)
    ensures weight { weight_left (pattern_of result.0) result.1
        < 2 * forms_in (pattern_of form) + later_weight later }
    ensures forms { forms_left (pattern_of result.0) result.1
        ≤ forms_in (pattern_of form) + later_forms later }
    ensures node { StaysSmall (pattern_of form) (pattern_of result.0) result.1 }
{
    match form {
        MForm::Imp(p, q) => (link(q, later), Taken::Two(p)),
        MForm::And(p, q) => (link(q, later), Taken::Two(p)),
        MForm::Or(p, q) => (link(q, later), Taken::Two(p)),
        MForm::Equal(p, q) => (link(q, later), Taken::Two(p)),
        MForm::Member(p, q) => (link(q, later), Taken::Two(p)),
        MForm::App(p, q) => (link(q, later), Taken::Two(p)),
        MForm::Not(p) => (MForm::Bot, Taken::One(p, later)),
        MForm::Fun(p, _) => (MForm::Bot, Taken::One(p, later)),
        MForm::Ex(_, _, p) => (MForm::Bot, Taken::One(p, later)),
        MForm::All(_, _, p) => (MForm::Bot, Taken::One(p, later)),
        MForm::At(p, _) => (MForm::Bot, Taken::One(p, later)),
        MForm::Next(p) => (MForm::Bot, Taken::One(p, later)),
        MForm::Ev(p) => (MForm::Bot, Taken::One(p, later)),
        leaf => (leaf, Taken::Nothing(later)),
    }
}

// The form of a link.
fn link(part: MPat, later: Option<MPat>) -> MForm
    ensures weight { weight_of (pattern_of result) ≡ 2 * forms_in part + later_weight later + 1 }
    ensures forms { forms_in (pattern_of result) ≡ forms_in part + later_forms later + 1 }
{
    match later {
        None => MForm::Not(part),
        Some(later) => MForm::App(part, later),
    }
}

impl MPat {
    // The part of a link, and the parts behind it.
    #[cycle(pattern_drop)]
    fn next_later(self) -> Option<(MPat, Option<MPat>)>
        ensures weight { IfSome result
            (λ r. 2 * forms_in r.0 + later_weight r.1 < weight_of self) }
        ensures forms { IfSome result (λ r. forms_in r.0 + later_forms r.1 ≤ forms_in self) }
    {
        let MPat { node } = self;
        match Rc::into_inner(node)?.form {
            MForm::App(part, later) => Some((part, Some(later))),
            MForm::Not(part) => Some((part, None)),
            _ => None,
        }
    }
}

impl MPat {
    // The pattern with this form at its root.
    fn of(alloc: Global, form: MForm) -> Result<MPat, AllocError>
        ensures { IfOk result (λ made. made ≡ pattern_of form) }
    {
        let fingerprint = fingerprint_of(&form);
        let node = Rc::new(alloc, Node { form, fingerprint })?;
        Ok(MPat { node })
    }

    /// Nothing. An error, here and in the functions below: out of memory.
    pub fn bot(alloc: Global) -> Result<MPat, AllocError>
        ensures { IfOk result (λ made. made ≡ bot) }
    {
        MPat::of(alloc, MForm::Bot)
    }

    /// Everything.
    pub fn top(alloc: Global) -> Result<MPat, AllocError>
        ensures { IfOk result (λ made. made ≡ top) }
    {
        MPat::of(alloc, MForm::Top)
    }

    /// The implication from p to q.
    pub fn imp(alloc: Global, p: &MPat, q: &MPat) -> Result<MPat, AllocError>
        ensures { IfOk result (λ made. made ≡ imp p.now q.now) }
    {
        MPat::of(alloc, MForm::Imp(p.share()?, q.share()?))
    }

    /// The negation of p.
    pub fn not(alloc: Global, p: &MPat) -> Result<MPat, AllocError>
        ensures { IfOk result (λ made. made ≡ not p.now) }
    {
        MPat::of(alloc, MForm::Not(p.share()?))
    }

    /// The conjunction of p and q.
    pub fn and(alloc: Global, p: &MPat, q: &MPat) -> Result<MPat, AllocError>
        ensures { IfOk result (λ made. made ≡ and p.now q.now) }
    {
        MPat::of(alloc, MForm::And(p.share()?, q.share()?))
    }

    /// The disjunction of p and q.
    pub fn or(alloc: Global, p: &MPat, q: &MPat) -> Result<MPat, AllocError>
        ensures { IfOk result (λ made. made ≡ or p.now q.now) }
    {
        MPat::of(alloc, MForm::Or(p.share()?, q.share()?))
    }

    /// The equality of p and q.
    pub fn equal(alloc: Global, p: &MPat, q: &MPat) -> Result<MPat, AllocError>
        ensures { IfOk result (λ made. made ≡ equal p.now q.now) }
    {
        MPat::of(alloc, MForm::Equal(p.share()?, q.share()?))
    }

    /// The membership of p in q.
    pub fn member(alloc: Global, p: &MPat, q: &MPat) -> Result<MPat, AllocError>
        ensures { IfOk result (λ made. made ≡ member p.now q.now) }
    {
        MPat::of(alloc, MForm::Member(p.share()?, q.share()?))
    }

    /// The statement that p is one element of the sort s.
    pub fn fun(alloc: Global, p: &MPat, s: MSort) -> Result<MPat, AllocError>
        ensures { IfOk result (λ made. made ≡ fun p.now s.0) }
    {
        MPat::of(alloc, MForm::Fun(p.share()?, s))
    }

    /// The statement that p holds for some x of the sort s.
    pub fn ex(alloc: Global, x: VarNo, s: MSort, p: &MPat) -> Result<MPat, AllocError>
        ensures { IfOk result (λ made. made ≡ ex x.0 s.0 p.now) }
    {
        MPat::of(alloc, MForm::Ex(x, s, p.share()?))
    }

    /// The statement that p holds for each x of the sort s.
    pub fn all(alloc: Global, x: VarNo, s: MSort, p: &MPat) -> Result<MPat, AllocError>
        ensures { IfOk result (λ made. made ≡ all x.0 s.0 p.now) }
    {
        MPat::of(alloc, MForm::All(x, s, p.share()?))
    }

    /// p applied to q.
    pub fn app(alloc: Global, p: &MPat, q: &MPat) -> Result<MPat, AllocError>
        ensures { IfOk result (λ made. made ≡ app p.now q.now) }
    {
        MPat::of(alloc, MForm::App(p.share()?, q.share()?))
    }

    /// p applied to the sort argument s.
    pub fn at(alloc: Global, p: &MPat, s: MSort) -> Result<MPat, AllocError>
        ensures { IfOk result (λ made. made ≡ at_sort p.now s.0) }
    {
        MPat::of(alloc, MForm::At(p.share()?, s))
    }

    /// Everything that can make one step to p.
    pub fn next(alloc: Global, p: &MPat) -> Result<MPat, AllocError>
        ensures { IfOk result (λ made. made ≡ next p.now) }
    {
        MPat::of(alloc, MForm::Next(p.share()?))
    }

    /// Everything that can reach p in zero or more steps.
    pub fn ev(alloc: Global, p: &MPat) -> Result<MPat, AllocError>
        ensures { IfOk result (λ made. made ≡ ev p.now) }
    {
        MPat::of(alloc, MForm::Ev(p.share()?))
    }

    /// The object variable x.
    pub fn var(alloc: Global, x: VarNo) -> Result<MPat, AllocError>
        ensures { IfOk result (λ made. made ≡ var x.0) }
    {
        MPat::of(alloc, MForm::Var(x))
    }

    /// The pattern variable with this number.
    pub fn meta(alloc: Global, i: u32) -> Result<MPat, AllocError>
        ensures { IfOk result (λ made. made ≡ meta i) }
    {
        MPat::of(alloc, MForm::Meta(i))
    }

    /// The symbol or value with this number.
    pub fn constant(alloc: Global, c: ConstNo) -> Result<MPat, AllocError>
        ensures { IfOk result (λ made. made ≡ constant c.0) }
    {
        MPat::of(alloc, MForm::Const(c))
    }

    /// The form at the root, with its parts.
    pub fn form(&self) -> &MForm
        ensures { pattern_of result.now ≡ self.now }
    {
        &self.node.form
    }

    /// A number that is made from the pattern, the same for equal patterns. Others may have it too,
    /// so no clause says which number it is, and what is found by it is to be compared by `same`.
    /// The cost does not depend on the pattern.
    pub fn fingerprint(&self) -> u64 {
        self.node.fingerprint
    }

    /// The same pattern, shared. The cost does not depend on the pattern.
    pub fn share(&self) -> Result<MPat, AllocError>
        ensures { IfOk result (λ shared. shared ≡ self.now) }
    {
        let node = self.node.clone()?;
        Ok(MPat { node })
    }
}
