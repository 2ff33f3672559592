// Expressions: the symbols of `$e`, `$a` and `$p`.

ghost use Rattle.std.specs.Prelude.{◌≡◌, ◌<◌, ◌≤◌, ℕ, length, map, All, IfOk, IfSome, true};
ghost use Rattle.std.specs.Prelude.{is_some};
ghost use Rattle.std.proofs.Props.{props};
ghost use Rattle.mm_frame.specs.NumberLists.{has_number};
ghost use Rattle.mm_frame.specs.Spots.{AreSpots, IsSpot, is_long, position_at};

use std::alloc::{AllocError, Global};
use std::rc::Rc;

/// An expression of this many symbols or more is long, and has a list of spots.
const LONG: usize = 128;

/// The positions of this many symbols fit in 32 bits.
const MOST: usize = 4294967296;

/// A spot is a symbol times this, plus a position.
const SPAN: u64 = 4294967296;

/// The symbols of a statement. `expression_symbols` are these. A long expression has a list of
/// spots too, which says where each symbol stands.
#[derive(Drop)]
pub struct Expression {
    symbols: Vec<u32>,
    spots: Option<Vec<u64>>,
    ghost are_spots: { IfSome spots (λ v. AreSpots symbols.items v.items) } by { Prim.hlevel props },
    ghost listed: { is_some spots ≡ is_long (length symbols.items) },
}

impl Expression {
    ghost use Rattle.mm_frame.specs.ExpressionView.{expression_symbols};

    /// The expression of these symbols, to be shared. It takes time in their number; if it is long,
    /// times the logarithm of this number.
    pub fn shared(alloc: Global, symbols: Vec<u32>) -> Result<Rc<Expression>, AllocError>
        ensures { IfOk result (λ e. expression_symbols e.value ≡ symbols.items) }
    {
        if symbols.len() < LONG || symbols.len() > MOST {
            let short = Expression {
                symbols,
                spots: None,
            };
            return Ok(Rc::new(alloc, short)?);
        }
        let mut spots = all_spots(alloc, &symbols)?;
        spots.sort_unstable();
        let long = Expression {
            symbols,
            spots: Some(spots),
        };
        Ok(Rc::new(alloc, long)?)
    }

    /// Its symbols.
    pub fn symbols(&self) -> &[u32]
        ensures { result.now ≡ expression_symbols self.now }
    {
        &self.symbols
    }

    /// The spots of its symbols, ascending, so those of one symbol stand side by side. Returns
    /// `None` exactly when the expression is not long.
    pub fn spots(&self) -> Option<&[u64]>
        ensures are_spots { IfSome result (λ v. AreSpots (expression_symbols self.now) v.now) }
        ensures listed { is_some result ≡ is_long (length (expression_symbols self.now)) }
    {
        match &self.spots {
            None => None,
            Some(spots) => Some(spots),
        }
    }
}

/// The spots of all symbols, in the order of their positions.
fn all_spots(alloc: Global, symbols: &[u32]) -> Result<Vec<u64>, AllocError>
    requires { length symbols.now ≤ 4294967296 }
    ensures each { IfOk result (λ v. All (IsSpot symbols.now) v.items) }
    ensures all { IfOk result (λ v. (i : ℕ) → i < length symbols.now
        → has_number (map position_at v.items) i ≡ true) }
{
    let mut spots = Vec::with_capacity(alloc, symbols.len())?;
    for position in 0..symbols.len() {
        spots.push(u64::from(symbols[position]) * SPAN + position as u64)?;
    }
    Ok(spots)
}
