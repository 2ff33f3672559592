// What assertions of one place ask for in common.

ghost use Rattle.std.specs.Prelude.{◌≡◌, ◌++◌, ◌∷◌, [], ℕ, List, ◌&&◌, ◌||◌, true, filter, length};
ghost use Rattle.std.specs.Prelude.{IfSome, IfOk};
ghost use Rattle.std.specs.List.{list_all};
ghost use Rattle.std.specs.List.Sorted.{IsStrictlyIncreasing};
ghost use Rattle.mm_database.specs.Frames.{floating, essential};
ghost use Rattle.mm_scope.specs.ScopeState.{scope_state};
ghost use Rattle.mm_scope.specs.StatePlaces.{ArePlaced, typed_places};
ghost use Rattle.mm_scope.specs.StateSteps.{types_with};
ghost use Rattle.mm_frame.specs.PlainFrames.{plain_hypothesis, has_number, in_groups, groups_of};
ghost use Rattle.mm_frame.specs.PlainFrames.{parts_hypotheses, parts_groups};
ghost use Rattle.mm_frame.specs.ExpressionView.{expression_symbols};
ghost use Rattle.mm_frame.specs.PlacedOrder.{find_placed};
ghost use Rattle.mm_text.specs.Bytes.{Token};
ghost use Rattle.mm_frame.specs.Grouping.{Extends};
ghost use Rattle.mm_scope.specs.Sharing.{IsMandatory, IsCommon, HasMandatory, ArePairs, groups_at};
ghost use Rattle.mm_scope.specs.Sharing.{pairs_in, taken_at};
ghost use Rattle.mm_scope.specs.Sharing.{is_free_number};
ghost use Rattle.mm_scope.specs.Sharing.{is_own_number, is_unasked_number, is_wanted_number};
ghost use Rattle.mm_scope.specs.Sharing.{own_shares, shares_wanted};

use crate::scopes::Scopes;
use mm_frame::{Expression, Hyp, HypTree, Parts, ascending, is_among, push_group, push_if};
use std::alloc::{AllocError, Global};
use std::rc::Rc;

/// The active `$e` are long if they have this many symbols or more, all together.
const LONG_FROM: usize = 256;

/// Each `$e` counts as this many symbols more than it has.
const COST_OF_ONE: usize = 8;

/// What each assertion of a place asks for: a tree of the active `$e` and of the active `$f` of
/// their variables, and the pairs of these variables in active `$d`, if they were made already.
#[derive(Drop)]
pub(crate) struct Common<'a> {
    tree: Rc<HypTree<'a>>,
    pairs: Option<Rc<Vec<Vec<u32>>>>,
}

impl<'a> Common<'a> {
    /// The same once more.
    pub(crate) fn share(&self) -> Result<Common<'a>, AllocError>
        ensures tree { IfOk result (λ c. c.tree.value ≡ self.now.tree.value) }
        ensures pairs { IfOk result (λ c. pairs_in c ≡ pairs_in self.now) }
    {
        let pairs = match &self.pairs {
            None => None,
            Some(pairs) => Some(pairs.clone()?),
        };
        Ok(Common {
            tree: self.tree.clone()?,
            pairs,
        })
    }
}

impl<'a> Scopes<'a> {
    /// What is common once this hypothesis is active too.
    pub(crate) fn common_with(
        &self,
        alloc: Global,
        hyp: &Hyp<'a>,
    ) -> Result<Option<Common<'a>>, AllocError>
        ensures { IfOk result (λ o. IfSome o (IsCommon
            (types_with (scope_state self.now).types (length (scope_state self.now).hypotheses)
            (plain_hypothesis hyp.now))
            ((scope_state self.now).hypotheses ++ plain_hypothesis hyp.now ∷ [])
            (scope_state self.now).disjoint)) }
    {
        match hyp {
            Hyp::Floating(_, _, variable) => self.common_with_type(*variable),
            Hyp::Essential(label, statement) => self.common_with_premise(alloc, label, statement),
        }
    }

    /// It stays the same with the `$f` of a variable that no active `$e` has.
    fn common_with_type(&self, variable: u32) -> Result<Option<Common<'a>>, AllocError>
        ensures { IfOk result (λ o. (label : Token) (typecode : ℕ) → IfSome o (IsCommon
            (types_with (scope_state self.now).types (length (scope_state self.now).hypotheses)
            (floating label typecode variable))
            ((scope_state self.now).hypotheses ++ floating label typecode variable ∷ [])
            (scope_state self.now).disjoint)) }
    {
        match &self.common {
            None => Ok(None),
            Some(common) => if self.hyps.is_asked(variable) {
                Ok(None)
            } else {
                Ok(Some(common.share()?))
            },
        }
    }

    /// What is common once an `$e` with this label and statement is active too. It is made if the
    /// active `$e` are long with this one.
    fn common_with_premise(
        &self,
        alloc: Global,
        label: &'a [u8],
        statement: &Rc<Expression>,
    ) -> Result<Option<Common<'a>>, AllocError>
        ensures { IfOk result (λ o. IfSome o (IsCommon (scope_state self.now).types
            ((scope_state self.now).hypotheses
            ++ essential label.now (expression_symbols statement.now.value) ∷ [])
            (scope_state self.now).disjoint)) }
    {
        match &self.common {
            None => {
                if !self.are_heavy_with(statement.symbols()) {
                    return Ok(None);
                }
                let tree = self.first_tree(alloc, label, statement)?;
                Ok(Some(Common { tree, pairs: None }))
            }
            Some(common) => {
                let tree = self.next_tree(alloc, &common.tree, label, statement)?;
                let pairs = self.pairs_with(common, statement.symbols())?;
                Ok(Some(Common { tree, pairs }))
            }
        }
    }

    /// Whether the `$e` are long, all together, with one more of this statement. It looks at few of
    /// them.
    fn are_heavy_with(&self, statement: &[u32]) -> bool {
        let mut weight = statement.len().saturating_add(COST_OF_ONE);
        for place in self.hyps.essentials() {
            if weight >= LONG_FROM {
                return true;
            }
            if let Some(Hyp::Essential(_, premise)) = self.hyps.get(*place) {
                weight = weight
                    .saturating_add(premise.symbols().len())
                    .saturating_add(COST_OF_ONE);
            }
        }
        weight >= LONG_FROM
    }

    /// The common pairs with one more `$e`. They stay the same if each of its symbols is in other
    /// `$e`, or in no `$d`.
    fn pairs_with(
        &self,
        common: &Common<'a>,
        statement: &[u32],
    ) -> Result<Option<Rc<Vec<Vec<u32>>>>, AllocError>
        ensures { IfOk result (λ p. (label : Token)
            → IfSome (pairs_in common.now)
            (ArePairs (scope_state self.now).hypotheses (scope_state self.now).disjoint)
            → IfSome (groups_at p)
            (ArePairs ((scope_state self.now).hypotheses ++ essential label statement.now ∷ [])
            (scope_state self.now).disjoint)) }
    {
        match &common.pairs {
            None => Ok(None),
            Some(pairs) => if self.are_free(statement) {
                Ok(Some(pairs.clone()?))
            } else {
                Ok(None)
            },
        }
    }

    /// Whether each symbol is in an active `$e`, or in no `$d`.
    fn are_free(&self, statement: &[u32]) -> bool
        ensures { result
            ≡ list_all
            (is_free_number (scope_state self.now).hypotheses (scope_state self.now).disjoint)
            statement.now }
    {
        for n in statement {
            if !self.hyps.is_asked(*n) && !self.disjoint.is_free(*n) {
                return false;
            }
        }
        true
    }

    /// What is common once these variables are kept apart too. The pairs stay the same if active
    /// `$e` have fewer than two of the variables.
    pub(crate) fn common_apart(
        &self,
        alloc: Global,
        group: &[u32],
    ) -> Result<Option<Common<'a>>, AllocError>
        ensures { IfOk result
            (λ o. (new : List (List ℕ)) → Extends (scope_state self.now).disjoint group.now new
            → IfSome o
            (IsCommon (scope_state self.now).types (scope_state self.now).hypotheses new)) }
    {
        match &self.common {
            None => Ok(None),
            Some(common) => {
                if self.wanted(alloc, &[], group)?.len() < 2 {
                    return Ok(Some(common.share()?));
                }
                Ok(Some(Common {
                    tree: common.tree.clone()?,
                    pairs: None,
                }))
            }
        }
    }

    /// What is common, once more.
    pub(crate) fn shared_common(&self) -> Result<Option<Common<'a>>, AllocError>
        ensures { IfOk result (λ o. IfSome o
            (IsCommon (scope_state self.now).types (scope_state self.now).hypotheses
            (scope_state self.now).disjoint)) }
    {
        match &self.common {
            None => Ok(None),
            Some(common) => Ok(Some(common.share()?)),
        }
    }

    /// Makes the common pairs for assertions to share, if they are not made yet.
    pub(crate) fn keep_pairs(&mut self, alloc: Global) -> Result<(), AllocError>
        ensures { scope_state self.new ≡ scope_state self.old }
    {
        let Some(common) = &self.common else {
            return Ok(());
        };
        let pairs = self.common_pairs(alloc, common)?;
        let tree = common.tree.clone()?;
        self.common = Some(Common {
            tree,
            pairs: Some(pairs),
        });
        Ok(())
    }

    /// The tree of all active `$e` with one more.
    fn first_tree(
        &self,
        alloc: Global,
        label: &'a [u8],
        statement: &Rc<Expression>,
    ) -> Result<Rc<HypTree<'a>>, AllocError>
        ensures { IfOk result (λ t. ArePlaced (scope_state self.now) → HasMandatory
            ((scope_state self.now).hypotheses
            ++ essential label.now (expression_symbols statement.now.value) ∷ []) [] t.value) }
    {
        let needed = self.needed(alloc, statement.symbols())?;
        let places = self.places(alloc, &needed)?;
        let hyp = Hyp::Essential(label, statement.clone()?);
        let tree = Rc::new(alloc, HypTree::leaf(self.hyps.len(), hyp))?;
        self.with_places(alloc, tree, &places)
    }

    /// The tree with one more `$e`, and with the `$f` of its variables that are in no other.
    fn next_tree(
        &self,
        alloc: Global,
        tree: &Rc<HypTree<'a>>,
        label: &'a [u8],
        statement: &Rc<Expression>,
    ) -> Result<Rc<HypTree<'a>>, AllocError>
        ensures { IfOk result (λ t. ArePlaced (scope_state self.now)
            → HasMandatory (scope_state self.now).hypotheses [] tree.now.value
            → HasMandatory
            ((scope_state self.now).hypotheses
            ++ essential label.now (expression_symbols statement.now.value) ∷ []) [] t.value) }
    {
        let own = self.own_symbols(alloc, statement.symbols())?;
        let places = self.typed(alloc, &own)?;
        let hyp = Hyp::Essential(label, statement.clone()?);
        let tree = HypTree::with(tree, alloc, self.hyps.len(), hyp)?;
        self.with_places(alloc, tree, &places)
    }

    /// The tree with the hypotheses at these places.
    fn with_places(
        &self,
        alloc: Global,
        tree: Rc<HypTree<'a>>,
        places: &[usize],
    ) -> Result<Rc<HypTree<'a>>, AllocError>
        ensures { IfOk result (λ t. (i : ℕ) → find_placed t.value i
            ≡ taken_at (scope_state self.now).hypotheses places.now (find_placed tree.entry.value i)
            i) }
    {
        let mut tree = tree;
        for place in places {
            tree = self.with_place(alloc, tree, *place)?;
        }
        Ok(tree)
    }

    fn with_place(
        &self,
        alloc: Global,
        tree: Rc<HypTree<'a>>,
        place: usize,
    ) -> Result<Rc<HypTree<'a>>, AllocError>
        ensures { IfOk result (λ t. (i : ℕ) → find_placed t.value i
            ≡ taken_at (scope_state self.now).hypotheses (place ∷ [])
            (find_placed tree.entry.value i) i) }
    {
        match self.hyps.get(place) {
            None => Ok(tree),
            Some(hyp) => HypTree::with(&tree, alloc, place, hyp.share()?),
        }
    }

    /// The symbols of a statement that no active `$e` has, ascending and each once.
    fn own_symbols(&self, alloc: Global, statement: &[u32]) -> Result<Vec<u32>, AllocError>
        ensures ascending { IfOk result (λ v. IsStrictlyIncreasing v.items) }
        ensures symbols { IfOk result (λ v. (n : ℕ) → has_number v.items n
            ≡ is_own_number (scope_state self.now).hypotheses statement.now n) }
    {
        let symbols = self.symbols_left(alloc, statement)?;
        Ok(ascending(symbols))
    }

    fn symbols_left(&self, alloc: Global, statement: &[u32]) -> Result<Vec<u32>, AllocError>
        ensures { IfOk result (λ v.
            v.items ≡ filter (is_unasked_number (scope_state self.now).hypotheses) statement.now) }
    {
        let mut left = Vec::new(alloc);
        for n in statement {
            push_if(!self.hyps.is_asked(*n), &mut left, *n)?;
        }
        Ok(left)
    }

    /// The places of the active `$f` of these variables.
    fn typed(&self, alloc: Global, numbers: &[u32]) -> Result<Vec<usize>, AllocError>
        ensures { IfOk result (λ v. v.items ≡ typed_places (scope_state self.now) numbers.now) }
    {
        let mut places = Vec::new(alloc);
        for n in numbers {
            self.push_place(&mut places, *n)?;
        }
        Ok(places)
    }

    /// What an assertion with this statement asks for.
    pub(crate) fn parts(
        &self,
        alloc: Global,
        common: &Common<'a>,
        statement: &[u32],
    ) -> Result<Parts<'a>, AllocError>
        ensures { IfOk result (λ p. ArePlaced (scope_state self.now)
            → IsCommon (scope_state self.now).types (scope_state self.now).hypotheses
            (scope_state self.now).disjoint common.now
            → IsMandatory (scope_state self.now).hypotheses (scope_state self.now).disjoint
            statement.now
            (parts_hypotheses p) (parts_groups p)) }
    {
        let own = self.own_symbols(alloc, statement)?;
        let places = self.typed(alloc, &own)?;
        let tree = self.with_places(alloc, common.tree.clone()?, &places)?;
        tree.ascend();
        Ok(Parts {
            tree,
            common: self.common_pairs(alloc, common)?,
            own: self.own_pairs(alloc, &own)?,
        })
    }

    /// The pairs of active `$d` that the active `$e` have.
    fn common_pairs(
        &self,
        alloc: Global,
        common: &Common<'a>,
    ) -> Result<Rc<Vec<Vec<u32>>>, AllocError>
        ensures { IfOk result (λ p.
            IfSome (pairs_in common.now)
            (ArePairs (scope_state self.now).hypotheses (scope_state self.now).disjoint)
            → ArePairs (scope_state self.now).hypotheses (scope_state self.now).disjoint
            (groups_of p.value.items)) }
    {
        match &common.pairs {
            None => Ok(Rc::new(alloc, self.asked_pairs(alloc)?)?),
            Some(pairs) => Ok(pairs.clone()?),
        }
    }

    fn asked_pairs(&self, alloc: Global) -> Result<Vec<Vec<u32>>, AllocError>
        ensures { IfOk result (λ v. ArePairs (scope_state self.now).hypotheses
            (scope_state self.now).disjoint (groups_of v.items)) }
    {
        let mut pairs = Vec::new(alloc);
        for group in self.disjoint.groups() {
            push_group(&mut pairs, self.wanted(alloc, &[], group)?)?;
        }
        Ok(pairs)
    }

    /// Pairs of those active `$d` that have one of these symbols, which ascend. Each variable of a
    /// pair is one of these symbols, or occurs in an active `$e`.
    fn own_pairs(&self, alloc: Global, own: &[u32]) -> Result<Vec<Vec<u32>>, AllocError>
        requires { IsStrictlyIncreasing own.now }
        ensures { IfOk result (λ v. (a b : ℕ) → in_groups (groups_of v.items) a b
            ≡ own_shares (scope_state self.now).hypotheses (scope_state self.now).disjoint own.now a
            b) }
    {
        let places = self.disjoint.places_among(alloc, own)?;
        let mut pairs = Vec::new(alloc);
        for place in &places {
            self.push_wanted(alloc, &mut pairs, own, *place)?;
        }
        Ok(pairs)
    }

    /// Appends those variables of the group at a place that are wanted.
    fn push_wanted(
        &self,
        alloc: Global,
        pairs: &mut Vec<Vec<u32>>,
        own: &[u32],
        place: usize,
    ) -> Result<(), AllocError>
        requires { IsStrictlyIncreasing own.now }
        ensures { IfOk result (λ _. (a b : ℕ) → in_groups (groups_of pairs.new.items) a b
            ≡ (in_groups (groups_of pairs.old.items) a b
            || shares_wanted (scope_state self.now).hypotheses (scope_state self.now).disjoint
            own.now a b place)) }
    {
        match self.disjoint.group(place) {
            None => Ok(()),
            Some(group) => push_group(pairs, self.wanted(alloc, own, group)?),
        }
    }

    /// The variables of a group that are among these numbers, which ascend, or occur in an active
    /// `$e`.
    fn wanted(&self, alloc: Global, own: &[u32], group: &[u32]) -> Result<Vec<u32>, AllocError>
        requires { IsStrictlyIncreasing own.now }
        ensures { IfOk result (λ v. v.items
            ≡ filter (is_wanted_number (scope_state self.now).hypotheses own.now) group.now) }
    {
        let mut wanted = Vec::new(alloc);
        for n in group {
            push_if(self.hyps.is_asked(*n) || is_among(own, *n), &mut wanted, *n)?;
        }
        Ok(wanted)
    }
}
