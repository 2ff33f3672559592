// The places of variables among mandatory hypotheses.
ghost use Rattle.std.specs.Prelude.{◌≡◌, ◌≤◌, ◌<◌, ℕ, length, IfOk, IfSome, OnOk};
ghost use Rattle.std.specs.Ordering.{nat_cmp};
ghost use Rattle.std.specs.BTreeMap.{get as found};
ghost use Rattle.std.proofs.Props.{props};
ghost use Rattle.mm_frame.specs.PlainFrames.{plain_hypothesis, plain_hypotheses, types_number};
ghost use Rattle.mm_verify.specs.Places.{first_place, is_this, place_of, IsTable};

use mm_frame::Hyp;
use std::alloc::{AllocError, Global};
use std::collections::BTreeMap;
use std::rc::Rc;

/// Up to this many hypotheses are searched one by one for the `$f` of a variable.
const FEW: usize = 16;

/// There are at most this many hypotheses, so that each place is below the number for none.
const MOST: usize = 4294967295;

/// The places of the `$f` of variables: found in the hypotheses themselves if these are few, and
/// else in a table.
#[derive(Drop)]
pub(crate) struct Places<'f, 'a> {
    hyps: &'f [Hyp<'a>],
    table: Option<Rc<BTreeMap<u32, u32>>>,
    ghost few: { length hyps.now ≤ 4294967295 } by { Prim.hlevel props },
    ghost is_table: { IfSome table (λ m. IsTable m.value (plain_hypotheses hyps.now)) } by { Prim.hlevel props },
}

impl Places<'_, '_> {
    /// The place of the first `$f` of a variable.
    pub(crate) fn get(&self, symbol: u32) -> Option<usize>
        ensures { result ≡ place_of (plain_hypotheses self.now.hyps.now) symbol }
    {
        match &self.table {
            None => first_place(self.hyps, symbol),
            Some(table) => match table.get(&symbol) {
                None => None,
                Some(place) => Some(*place as usize),
            },
        }
    }

    /// A table of all places. If there is none yet, the hypotheses are few.
    pub(crate) fn table(&self, alloc: Global) -> Result<Rc<BTreeMap<u32, u32>>, AllocError>
        ensures { IfOk result (λ m. IsTable m.value (plain_hypotheses self.now.hyps.now)) }
    {
        match &self.table {
            None => Ok(Rc::new(alloc, place_table(alloc, self.hyps)?)?),
            Some(table) => Ok(table.clone()?),
        }
    }
}

/// The place of the first `$f` of a variable among hypotheses.
fn first_place(hyps: &[Hyp<'_>], symbol: u32) -> Option<usize>
    ensures { result ≡ place_of (plain_hypotheses hyps.now) symbol }
{
    for i in 0..hyps.len() {
        let hyp = &hyps[i];
        if hyp.types(symbol) {
            return Some(i);
        }
    }
    None
}

/// The places of the `$f` of variables among hypotheses. Memory has no room for more hypotheses
/// than there are places.
pub(crate) fn find_places<'f, 'a>(
    alloc: Global,
    hyps: &'f [Hyp<'a>],
) -> Result<Places<'f, 'a>, AllocError>
    ensures { IfOk result (λ p. plain_hypotheses p.hyps.now ≡ plain_hypotheses hyps.now) }
{
    if hyps.len() > MOST {
        return Err(AllocError);
    }
    if hyps.len() <= FEW {
        return Ok(Places { hyps, table: None });
    }
    let table = Rc::new(alloc, place_table(alloc, hyps)?)?;
    Ok(Places {
        hyps,
        table: Some(table),
    })
}

/// A table with the places of the `$f` of variables.
fn place_table(alloc: Global, hyps: &[Hyp<'_>]) -> Result<BTreeMap<u32, u32>, AllocError>
    requires { length hyps.now ≤ 4294967295 }
    ensures { IfOk result (λ m. IsTable m (plain_hypotheses hyps.now)) }
{
    let mut places = BTreeMap::new(alloc);
    for i in 0..hyps.len() {
        let hyp = &hyps[i];
        add_place(&mut places, hyp, i)?;
    }
    Ok(places)
}

/// Gives the variable of a `$f` its place, if it has none yet.
fn add_place(places: &mut BTreeMap<u32, u32>, hyp: &Hyp<'_>, i: usize) -> Result<(), AllocError>
    requires { i < 4294967295 }
    ensures { OnOk result ((symbol : ℕ) → found nat_cmp places.new symbol
        ≡ first_place (found nat_cmp places.old symbol)
        (types_number symbol (plain_hypothesis hyp.now)) i) }
{
    if let Some(variable) = typed_variable(hyp) {
        if !places.contains_key(&variable) {
            places.insert(variable, i as u32)?;
        }
    }
    Ok(())
}

/// The variable of a `$f`.
fn typed_variable(hyp: &Hyp<'_>) -> Option<u32>
    ensures { (symbol : ℕ)
        → types_number symbol (plain_hypothesis hyp.now) ≡ is_this symbol result }
{
    match hyp {
        Hyp::Floating(_label, _typecode, variable) => Some(*variable),
        Hyp::Essential(_label, _statement) => None,
    }
}
