// The shape of rewrite rules.
ghost use Rattle.std.specs.Prelude.{◌≡◌, map, option_map};
ghost use Rattle.kore_ast.specs.Plain.{plain_sort, pattern_tree};
ghost use Rattle.kore_shapes.specs.Shapes.{rewriting as the_rewriting};
ghost use Rattle.kore_shapes.specs.Shapes.{rewriting_of as the_rewriting_of};
ghost use Rattle.kore_shapes.specs.Shapes.{heads_condition, is_top, side as the_side};
ghost use Rattle.kore_shapes.specs.Shapes.{joined_side as the_joined_side};
ghost use Rattle.kore_shapes.specs.Shapes.{picked as the_picked, found_part as the_found_part};
ghost use Rattle.kore_shapes.specs.Shapes.{main_part as the_main_part, is_true_of as is_the_true};
ghost use Rattle.kore_shapes.specs.Shapes.{condition_with as the_condition_with};
ghost use Rattle.kore_shapes.specs.Shapes.{condition_of as the_condition};
ghost use Rattle.kore_shapes.specs.Shapes.{given_condition as the_given};
ghost use Rattle.kore_shapes.specs.Views.{pattern_at, plain_rewriting, plain_side, plain_condition};
ghost use Rattle.kore_shapes.specs.SideTests.{passes};

use crate::sorts::same_sort;
use kore_ast::{Op, Pat, PatForm, Sort};

/// The parts of `\rewrites{S}(A,B)`.
#[derive(Clone, Copy)]
pub struct Rewriting<'a> {
    /// The sort S.
    pub sort: &'a Sort,
    /// The pattern A.
    pub before: &'a Pat,
    /// The pattern B.
    pub after: &'a Pat,
}

/// The parts of a pattern `\rewrites{S}(A,B)`. Returns none for any other pattern.
pub fn rewriting_at(pat: &Pat) -> Option<Rewriting<'_>>
    ensures { option_map plain_rewriting result ≡ the_rewriting (pattern_tree pat.now) }
{
    match &pat.form {
        PatForm::Built(op, sorts, args) => rewriting_of(*op, sorts, args),
        _ => None,
    }
}

fn rewriting_of<'a>(op: Op, sorts: &'a [Sort], args: &'a [Pat]) -> Option<Rewriting<'a>>
    ensures { option_map plain_rewriting result
        ≡ the_rewriting_of op (map plain_sort sorts.now) (map pattern_tree args.now) }
{
    match (op, sorts, args) {
        (Op::Rewrites, [sort], [before, after]) => Some(Rewriting {
            sort,
            before,
            after,
        }),
        _ => None,
    }
}

/// What may be next to a side of a rule, in an `\and`.
#[derive(Clone, Copy)]
pub enum Companion {
    /// A condition: a pattern with `\top` or `\equals` at its head.
    Condition,
    /// A pattern with `\top` at its head.
    Top,
}

impl Companion {
    ghost use Rattle.kore_shapes.specs.SideTests.{passes};

    fn is(self, pat: &Pat) -> bool
        ensures { result ≡ passes self (pattern_tree pat.now) }
    {
        match &pat.form {
            PatForm::Built(Op::Top, _, _) => true,
            PatForm::Built(Op::Equals, _, _) => matches!(self, Companion::Condition),
            _ => false,
        }
    }
}

/// A side of a rule.
#[derive(Clone, Copy)]
pub enum Side<'a> {
    /// A pattern that is no `\and`.
    Alone(&'a Pat),
    /// An `\and` of two patterns, of the wanted sort: the companion, and then the other pattern.
    Beside(&'a Pat, &'a Pat),
    /// An `\and` of two patterns, of the wanted sort, neither of which is the companion.
    NoCompanion,
    /// An `\and` of another sort or of another number of patterns.
    Misshapen,
}

/// The side that a pattern is, for this sort and this kind of companion.
pub fn side_at<'a>(pat: &'a Pat, sort: &Sort, companion: Companion) -> Side<'a>
    ensures { plain_side result
        ≡ the_side (passes companion) (plain_sort sort.now) (pattern_tree pat.now) }
{
    match &pat.form {
        PatForm::Built(Op::And, sorts, args) => joined_side(sorts, args, sort, companion),
        _ => Side::Alone(pat),
    }
}

fn joined_side<'a>(sorts: &[Sort], args: &'a [Pat], sort: &Sort, companion: Companion) -> Side<'a>
    ensures { plain_side result
        ≡ the_joined_side (passes companion) (plain_sort sort.now) (map plain_sort sorts.now)
        (map pattern_tree args.now) }
{
    match (sorts, args) {
        ([own], [first, second]) if same_sort(sort, own) => picked(first, second, companion),
        _ => Side::Misshapen,
    }
}

fn picked<'a>(first: &'a Pat, second: &'a Pat, companion: Companion) -> Side<'a>
    ensures { plain_side result
        ≡ the_picked (passes companion) (pattern_tree first.now) (pattern_tree second.now) }
{
    if companion.is(first) {
        Side::Beside(first, second)
    } else if companion.is(second) {
        Side::Beside(second, first)
    } else {
        Side::NoCompanion
    }
}

impl<'a> Side<'a> {
    ghost use Rattle.kore_shapes.specs.Views.{plain_side};

    /// The companion. Returns none if there is none.
    pub fn companion(self) -> Option<&'a Pat>
        ensures { option_map pattern_at result ≡ the_found_part (plain_side self.entry) }
    {
        match self {
            Side::Beside(found, _) => Some(found),
            Side::Alone(_) | Side::NoCompanion | Side::Misshapen => None,
        }
    }

    /// The side itself: the pattern alone, or the one next to the companion. Returns none for
    /// `NoCompanion` and `Misshapen`.
    pub fn main(self) -> Option<&'a Pat>
        ensures { option_map pattern_at result ≡ the_main_part (plain_side self.entry) }
    {
        match self {
            Side::Alone(pat) | Side::Beside(_, pat) => Some(pat),
            Side::NoCompanion | Side::Misshapen => None,
        }
    }
}

/// A condition.
#[derive(Clone, Copy)]
pub enum Condition<'a> {
    /// `\top{S}()`.
    Always,
    /// `\equals{T,S}(b,\dv{T}("true"))`: the sort T and the pattern b.
    Tests(&'a Sort, &'a Pat),
    /// Any other pattern.
    Malformed,
}

/// The condition that a pattern is, inside something of this sort. Without a pattern it is
/// `Always`.
pub fn given_condition<'a>(pat: Option<&'a Pat>, sort: &Sort) -> Condition<'a>
    ensures { plain_condition result
        ≡ the_given (plain_sort sort.now) (option_map pattern_at pat.entry) }
{
    match pat {
        Some(pat) => condition_of(pat, sort),
        None => Condition::Always,
    }
}

fn condition_of<'a>(pat: &'a Pat, sort: &Sort) -> Condition<'a>
    ensures { plain_condition result ≡ the_condition (plain_sort sort.now) (pattern_tree pat.now) }
{
    match &pat.form {
        PatForm::Built(op, sorts, args) => condition_with(sort, *op, sorts, args),
        _ => Condition::Malformed,
    }
}

fn condition_with<'a>(sort: &Sort, op: Op, sorts: &'a [Sort], args: &'a [Pat]) -> Condition<'a>
    ensures { plain_condition result
        ≡ the_condition_with (plain_sort sort.now) op (map plain_sort sorts.now)
        (map pattern_tree args.now) }
{
    match (op, sorts, args) {
        (Op::Top, [own], []) if same_sort(sort, own) => Condition::Always,
        (Op::Equals, [of, own], [tested, truth]) if same_sort(sort, own) && is_true_of(of, truth) =>
            { Condition::Tests(of, tested) }
        _ => Condition::Malformed,
    }
}

/// Whether the pattern is `\dv{T}("true")` of this sort T.
fn is_true_of(sort: &Sort, pat: &Pat) -> bool
    ensures { result ≡ is_the_true (plain_sort sort.now) (pattern_tree pat.now) }
{
    match &pat.form {
        PatForm::Value(own, text, _) => same_sort(sort, own) && text.as_str() == "true",
        _ => false,
    }
}
