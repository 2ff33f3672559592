// What an assertion says, by tokens.

ghost use Rattle.std.specs.Prelude.{◌≡◌, ◌++◌, ◌∷◌, [], IfOk, map, slice_get};
ghost use Rattle.mm_frame.specs.PlainFrames.{plain_frame, plain_hypothesis, mandatory_hypotheses};
ghost use Rattle.mm_scope.specs.ScopeState.{scope_state};
ghost use Rattle.mm_check.specs.Stated.{words, symbol_token, plain_stated, plain_types};
ghost use Rattle.mm_check.specs.Stated.{plain_premises, all_typed_by, premises_by, stated_by};

use mm_frame::{Frame, Hyp, Mandatory};
use mm_scope::Scopes;
use std::alloc::{AllocError, Global};

/// A variable that a `$f` types: its number and token, and the token of its typecode.
#[derive(Clone, Copy)]
pub(crate) struct Typed<'a> {
    pub(crate) number: u32,
    pub(crate) variable: &'a [u8],
    pub(crate) typecode: &'a [u8],
}

/// What an assertion says: the symbols of its statement by number and by token, the types of its
/// variables, and the statements of its `$e`s, in order.
#[derive(Drop)]
pub(crate) struct Stated<'a> {
    pub(crate) numbers: Vec<u32>,
    pub(crate) words: Vec<&'a [u8]>,
    pub(crate) types: Vec<Typed<'a>>,
    pub(crate) premises: Vec<Vec<&'a [u8]>>,
}

/// What the assertion with this frame says. It takes time in the length of the frame.
pub(crate) fn read_stated<'a>(
    alloc: Global,
    scopes: &Scopes<'a>,
    frame: &Frame<'a>,
) -> Result<Stated<'a>, AllocError>
    ensures { IfOk result (λ s. plain_stated s
        ≡ stated_by (scope_state scopes.now).symbols (plain_frame frame.now)) }
{
    let symbols = frame.statement.symbols();
    let (types, premises) = hypotheses(alloc, scopes, &frame.mandatory)?;
    Ok(Stated {
        numbers: Vec::from_slice(alloc, symbols)?,
        words: words(alloc, scopes, symbols)?,
        types,
        premises,
    })
}

/// The tokens of symbols.
fn words<'a>(
    alloc: Global,
    scopes: &Scopes<'a>,
    symbols: &[u32],
) -> Result<Vec<&'a [u8]>, AllocError>
    ensures { IfOk result (λ v. words v.items
        ≡ map (symbol_token (scope_state scopes.now).symbols) symbols.now) }
{
    let mut words = Vec::with_capacity(alloc, symbols.len())?;
    for symbol in symbols {
        words.push(token(scopes, *symbol))?;
    }
    Ok(words)
}

/// The token of a symbol.
pub(crate) fn token<'a>(scopes: &Scopes<'a>, symbol: u32) -> &'a [u8]
    ensures { result.now ≡ symbol_token (scope_state scopes.now).symbols symbol }
{
    match scopes.token(symbol) {
        None => b"",
        Some(token) => token,
    }
}

/// The types and the premises that hypotheses give.
fn hypotheses<'a>(
    alloc: Global,
    scopes: &Scopes<'a>,
    mandatory: &Mandatory<'a>,
) -> Result<(Vec<Typed<'a>>, Vec<Vec<&'a [u8]>>), AllocError>
    ensures types { IfOk result (λ r. plain_types r.0.items
        ≡ all_typed_by (scope_state scopes.now).symbols (mandatory_hypotheses mandatory.now)) }
    ensures premises { IfOk result (λ r. plain_premises r.1.items
        ≡ premises_by (scope_state scopes.now).symbols (mandatory_hypotheses mandatory.now)) }
{
    let mut types = Vec::new(alloc);
    let mut premises = Vec::new(alloc);
    for number in 0..mandatory.count() {
        if let Some(hyp) = mandatory.hyp(number) {
            note(alloc, scopes, hyp, &mut types, &mut premises)?;
        }
    }
    Ok((types, premises))
}

/// Appends what a hypothesis gives.
fn note<'a>(
    alloc: Global,
    scopes: &Scopes<'a>,
    hyp: &Hyp<'a>,
    types: &mut Vec<Typed<'a>>,
    premises: &mut Vec<Vec<&'a [u8]>>,
) -> Result<(), AllocError>
    ensures types { IfOk result (λ _. plain_types types.new.items
        ≡ plain_types types.old.items
        ++ all_typed_by (scope_state scopes.now).symbols (plain_hypothesis hyp.now ∷ [])) }
    ensures premises { IfOk result (λ _. plain_premises premises.new.items
        ≡ plain_premises premises.old.items
        ++ premises_by (scope_state scopes.now).symbols (plain_hypothesis hyp.now ∷ [])) }
{
    match hyp {
        Hyp::Floating(_, typecode, variable) => {
            types.push(Typed {
                number: *variable,
                variable: token(scopes, *variable),
                typecode: token(scopes, *typecode),
            })?;
            Ok(())
        }
        Hyp::Essential(_, statement) => {
            let premise = words(alloc, scopes, statement.symbols())?;
            if premises.push(premise).is_err() {
                return Err(AllocError);
            }
            Ok(())
        }
    }
}
