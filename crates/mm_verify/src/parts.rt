// The symbols of assertions, with the places of their variables.
ghost use Rattle.std.specs.Prelude.{◌≡◌, Some, IfOk, map, flat_map};
ghost use Rattle.mm_frame.specs.PlainFrames.{plain_hypothesis, plain_hypotheses, groups_of};
ghost use Rattle.mm_frame.specs.ExpressionView.{expression_symbols};
ghost use Rattle.mm_verify.specs.Places.{symbol_of, place_in, symbols_in, parts_of};
ghost use Rattle.mm_verify.specs.Locating.{place_by, AreLocated};
ghost use Rattle.mm_verify.specs.StatementView.{statement_parts};
ghost use Rattle.mm_verify.specs.Resolved.{wanted_hypothesis, hypotheses_of, parts_in};

use crate::finding::Places;
use crate::long_statement::LongStatement;
use crate::statement::Statement;
use mm_frame::{Expression, Hyp};
use std::alloc::{AllocError, Global};
use std::rc::Rc;

/// The place of a symbol that has none.
pub(crate) const NOWHERE: u32 = u32::MAX;

/// A symbol of an assertion. A variable has the place of its `$f` among the mandatory hypotheses:
/// the entry at that place gives its text. A step leaves another symbol as it is, which has no
/// place.
#[derive(Clone, Copy, PartialEq, Eq)]
pub(crate) struct Part {
    pub(crate) symbol: u32,
    pub(crate) place: u32,
}

impl Part {
    /// The place that it has.
    pub(crate) fn place(&self) -> Option<usize>
        ensures { result ≡ place_in self.now }
    {
        if self.place == NOWHERE {
            None
        } else {
            Some(self.place as usize)
        }
    }
}

/// What an assertion asks of an entry.
#[derive(Drop)]
pub(crate) enum Wanted<'a> {
    /// A text of this typecode, for this variable, by the `$f` of this label.
    Typed(&'a [u8], u32, u32),
    /// The statement of the `$e` of this label, with the texts in it.
    Stated(&'a [u8], Statement),
}

/// The symbol with the place that its variable has.
fn part_of(places: &Places<'_, '_>, symbol: u32) -> Result<Part, AllocError>
    ensures symbol { IfOk result (λ p. symbol_of p ≡ symbol) }
    ensures place { IfOk result (λ p. place_in p ≡ place_by places.now symbol) }
{
    match places.get(symbol) {
        None => Ok(Part {
            symbol,
            place: NOWHERE,
        }),
        Some(place) => placed(symbol, place),
    }
}

/// A symbol with a place. Memory has no room for as many hypotheses as there are places.
fn placed(symbol: u32, place: usize) -> Result<Part, AllocError>
    ensures symbol { IfOk result (λ p. symbol_of p ≡ symbol) }
    ensures place { IfOk result (λ p. place_in p ≡ Some place) }
{
    if place >= NOWHERE as usize {
        return Err(AllocError);
    }
    Ok(Part {
        symbol,
        place: place as u32,
    })
}

/// The symbols, each with its place.
fn located(alloc: Global, places: &Places<'_, '_>, symbols: &[u32]) -> Result<Vec<Part>, AllocError>
    ensures symbols { IfOk result (λ v. map symbol_of v.items ≡ symbols.now) }
    ensures places { IfOk result
        (λ v. map place_in v.items ≡ map (place_by places.now) symbols.now) }
{
    let mut parts = Vec::with_capacity(alloc, symbols.len())?;
    for symbol in symbols {
        parts.push(part_of(places, *symbol)?)?;
    }
    Ok(parts)
}

/// The statement of an expression. If this is long, it is shared, and a step finds the places of
/// its symbols; else each part has its place.
pub(crate) fn stated(
    alloc: Global,
    places: &Places<'_, '_>,
    expression: &Rc<Expression>,
) -> Result<Statement, AllocError>
    ensures symbols { IfOk result (λ s. map symbol_of (statement_parts s)
        ≡ expression_symbols expression.now.value) }
    ensures places { IfOk result (λ s. map place_in (statement_parts s)
        ≡ map (place_by places.now) (expression_symbols expression.now.value)) }
{
    if expression.spots().is_none() {
        return Ok(Statement::Short(located(alloc, places, expression.symbols())?));
    }
    Ok(Statement::Long(LongStatement {
        expression: expression.clone()?,
        places: places.table(alloc)?,
    }))
}

/// Groups of symbols, each with its place.
pub(crate) fn groups_located(
    alloc: Global,
    places: &Places<'_, '_>,
    groups: &[Vec<u32>],
) -> Result<Vec<Vec<Part>>, AllocError>
    ensures symbols { IfOk result (λ v. map symbols_in v.items ≡ groups_of groups.now) }
    ensures places { IfOk result (λ v. AreLocated places.now (flat_map parts_of v.items)) }
{
    let mut all = Vec::with_capacity(alloc, groups.len())?;
    for group in groups {
        all.push(located(alloc, places, group)?)?;
    }
    Ok(all)
}

/// What a hypothesis asks for.
fn wanted_by<'a>(
    alloc: Global,
    places: &Places<'_, '_>,
    hyp: &Hyp<'a>,
) -> Result<Wanted<'a>, AllocError>
    ensures hypothesis { IfOk result (λ w. wanted_hypothesis w ≡ plain_hypothesis hyp.now) }
    ensures places { IfOk result (λ w. AreLocated places.now (parts_in w)) }
{
    match hyp {
        Hyp::Floating(label, typecode, variable) => Ok(Wanted::Typed(label, *typecode, *variable)),
        Hyp::Essential(label, statement) => Ok(Wanted::Stated(
            label,
            stated(alloc, places, statement)?,
        )),
    }
}

/// What hypotheses ask for, in order.
pub(crate) fn all_wanted<'a>(
    alloc: Global,
    places: &Places<'_, '_>,
    hyps: &[Hyp<'a>],
) -> Result<Vec<Wanted<'a>>, AllocError>
    ensures hypotheses { IfOk result (λ v. hypotheses_of v.items ≡ plain_hypotheses hyps.now) }
    ensures places { IfOk result (λ v. AreLocated places.now (flat_map parts_in v.items)) }
{
    let mut all = Vec::with_capacity(alloc, hyps.len())?;
    for hyp in hyps {
        all.push(wanted_by(alloc, places, hyp)?)?;
    }
    Ok(all)
}
