// Assertions as steps of proofs use them.
ghost use Rattle.std.specs.Prelude.{flat_map};
ghost use Rattle.mm_verify.specs.Places.{ArePlaced, parts_of};
ghost use Rattle.mm_verify.specs.StatementView.{statement_parts};
ghost use Rattle.mm_verify.specs.Resolved.{hypotheses_of, parts_in};

use crate::checking::are_wanted;
use crate::finding::find_places;
use crate::parts::{Part, Wanted, all_wanted, groups_located, stated};
use crate::place::Place;
use crate::present::Present;
use crate::spreads::{Spreads, are_groups_apart};
use crate::stack::Stack;
use crate::statement::Statement;
use mm_frame::{Expression, Frame, Lists, Mandatory};
use std::alloc::{AllocError, Global};
use std::rc::Rc;

/// An assertion, each of whose variables knows which entry gives its text. `assertion_frame` is its
/// frame.
#[derive(Drop)]
pub(crate) struct Assertion<'a> {
    label: &'a [u8],
    wanted: Vec<Wanted<'a>>,
    apart: Vec<Vec<Part>>,
    conclusion: Statement,
    ghost wanted_placed: { ArePlaced (hypotheses_of wanted.items)
        (flat_map parts_in wanted.items) },
    ghost apart_placed: { ArePlaced (hypotheses_of wanted.items) (flat_map parts_of apart.items) },
    ghost conclusion_placed: { ArePlaced (hypotheses_of wanted.items)
        (statement_parts conclusion) },
}

impl<'a> Assertion<'a> {
    ghost use Rattle.std.specs.Prelude.{◌≡◌, ◌++◌, length, drop, IfOk, OnOk};
    ghost use Rattle.mm_verify.specs.Applied.{bindings_in, is_met as met};
    ghost use Rattle.mm_verify.specs.Pairs.{AreNoted};
    ghost use Rattle.mm_frame.specs.PlainFrames.{plain_frame, plain_hypotheses, in_groups};
    ghost use Rattle.mm_frame.specs.PlainFrames.{groups_of};
    ghost use Rattle.mm_frame.specs.ExpressionView.{expression_symbols};
    ghost use Rattle.mm_verify.specs.AssertionView.{assertion_frame};
    ghost use Rattle.mm_database.specs.Proofs.{substituted, keeps_apart};
    ghost use Rattle.mm_frame.specs.NumberedSteps.{all_agree, numbers_apart};

    /// The assertion with this frame. It takes time in the number of its hypotheses, in the lengths
    /// of its lists for `$d` and of the statements that are not long, times the logarithm of the
    /// number of its variables.
    pub(crate) fn of(alloc: Global, frame: &Frame<'a>) -> Result<Assertion<'a>, AllocError>
        ensures { IfOk result (λ a. assertion_frame a ≡ plain_frame frame.now) }
    {
        match &*frame.mandatory {
            Mandatory::Listed(lists) => {
                Assertion::built(alloc, frame.label, lists, &frame.statement)
            }
            Mandatory::Shared(parts) => {
                let lists = parts.lists(alloc)?;
                Assertion::built(alloc, frame.label, &lists, &frame.statement)
            }
        }
    }

    /// The assertion with this label and statement, which asks for these lists.
    fn built(
        alloc: Global,
        label: &'a [u8],
        lists: &Lists<'a>,
        statement: &Rc<Expression>,
    ) -> Result<Assertion<'a>, AllocError>
        ensures label { IfOk result (λ a. (assertion_frame a).label ≡ label.now) }
        ensures hypotheses { IfOk result
            (λ a. (assertion_frame a).hypotheses ≡ plain_hypotheses lists.now.hyps.items) }
        ensures apart { IfOk result
            (λ a. (assertion_frame a).apart ≡ in_groups (groups_of lists.now.apart.items)) }
        ensures statement { IfOk result (λ a. (assertion_frame a).statement
            ≡ expression_symbols statement.now.value) }
    {
        let places = find_places(alloc, &lists.hyps)?;
        let conclusion = stated(alloc, &places, statement)?;
        let apart = groups_located(alloc, &places, &lists.apart)?;
        let wanted = all_wanted(alloc, &places, &lists.hyps)?;
        Ok(Assertion {
            label,
            wanted,
            apart,
            conclusion,
        })
    }

    /// How many mandatory hypotheses it has.
    pub(crate) fn count(&self) -> usize
        ensures { result ≡ length (assertion_frame self.now).hypotheses }
    {
        self.wanted.len()
    }

    /// Whether the entries from `base` on, one for each mandatory hypothesis, are what it asks for.
    pub(crate) fn is_met<P: Place>(
        &self,
        alloc: Global,
        place: &P,
        stack: &Stack<'_>,
        base: usize,
        spreads: &mut Spreads,
    ) -> Result<bool, AllocError>
        requires count { length (assertion_frame self.now).hypotheses
            ≡ length (drop base stack.now) }
        requires noted { AreNoted (P.place place.now) spreads.old.notes }
        ensures noted { IfOk result (λ _. AreNoted (P.place place.now) spreads.new.notes) }
        ensures met { IfOk result
            (λ r. r ≡ met (P.place place.now) (assertion_frame self.now) (drop base stack.now)) }
    {
        if self.agrees(stack, base, &mut spreads.present)? {
            self.is_apart(alloc, place, stack, base, spreads)
        } else {
            Ok(false)
        }
    }

    /// Whether the entries are of the right typecodes and what the `$e` ask for.
    fn agrees(
        &self,
        stack: &Stack<'_>,
        base: usize,
        present: &mut Present,
    ) -> Result<bool, AllocError>
        requires { length (assertion_frame self.now).hypotheses ≡ length (drop base stack.now) }
        ensures { IfOk result (λ r. r
            ≡ all_agree (bindings_in (assertion_frame self.now) (drop base stack.now))
            (assertion_frame self.now).hypotheses (drop base stack.now)) }
    {
        are_wanted(&self.wanted, stack, base, present)
    }

    /// Whether the texts keep apart what `$d` asks for.
    fn is_apart<P: Place>(
        &self,
        alloc: Global,
        place: &P,
        stack: &Stack<'_>,
        base: usize,
        spreads: &mut Spreads,
    ) -> Result<bool, AllocError>
        requires count { length (assertion_frame self.now).hypotheses
            ≡ length (drop base stack.now) }
        requires noted { AreNoted (P.place place.now) spreads.old.notes }
        ensures noted { IfOk result (λ _. AreNoted (P.place place.now) spreads.new.notes) }
        ensures apart { IfOk result (λ r. r
            ≡ keeps_apart (numbers_apart (P.place place.now)) (assertion_frame self.now)
            (bindings_in (assertion_frame self.now) (drop base stack.now))) }
    {
        are_groups_apart(alloc, place, &self.apart, stack, base, spreads)
    }

    /// Appends its statement, with the texts that the entries from `base` on give its variables.
    pub(crate) fn conclude(
        &self,
        stack: &Stack<'_>,
        base: usize,
        to: &mut Vec<u32>,
        present: &mut Present,
    ) -> Result<(), AllocError>
        requires count { length (assertion_frame self.now).hypotheses
            ≡ length (drop base stack.now) }
        ensures filled { OnOk result (to.new.items ≡ to.old.items
            ++ substituted (bindings_in (assertion_frame self.now) (drop base stack.now))
            (assertion_frame self.now).statement) }
    {
        self.conclusion.fill(stack, base, to, present)
    }
}
