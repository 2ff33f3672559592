// The lemmas of equations, each made once.
ghost use Rattle.std.specs.Prelude.{◌≡◌, IfOk, Some, slice_get};
ghost use Rattle.rule_core.specs.Theories.{equations_of};
ghost use Rattle.rule_core.specs.ProgramView.{function_equation, theory_of};
ghost use Rattle.ml_image.specs.HasImages.{HasEquationImage};
ghost use Rattle.ml_image.specs.OwnAxioms.{IsEquationFor};
ghost use Rattle.prove_term.specs.Contexts.{Context, HasGrown};
ghost use Rattle.prove_equation.specs.EquationLemmas.{IsEquationLemma};
ghost use Rattle.std.specs.BTreeMap.{is_at};
ghost use Rattle.std.specs.Map.{lookup};
ghost use Rattle.prove_fun.specs.KeptLemmas.{IsKeptIn, IsLemmaAt, pair_cmp};

use ml_kernel::Lemma;
use prove_equation::equation_lemma;
use prove_term::Cx;
use rule_core::Equation;
use std::alloc::{AllocError, Global};
use std::collections::BTreeMap;
use std::marker::Model;

/// The places of the lemmas of equations in a context, by the function and the number of the
/// equation. Contracts see the list of these pairs, each with the lemma's place.
#[derive(Drop)]
pub struct LemmaPlaces {
    places: BTreeMap<(u32, u32), usize>,
}

impl Model for LemmaPlaces {
    ghost use Rattle.std.specs.Prelude.{ℕ, List};

    ghost Value = { List ((ℕ × ℕ) × ℕ) };

    ghost use Rattle.prove_fun.specs.KeptView.{places_of};

    ghost view = { places_of };
}

impl LemmaPlaces {
    /// Makes an empty `LemmaPlaces`, as at the start of a run.
    pub fn new(alloc: Global) -> LemmaPlaces
        ensures { (cx : Context) → IsKeptIn cx result }
    {
        LemmaPlaces {
            places: BTreeMap::new(alloc),
        }
    }

    // Returns the place of the lemma of an equation, if there is one.
    fn place(&self, function: u32, number: u32) -> Option<usize>
        ensures { result ≡ lookup (is_at (pair_cmp (function, number))) self.now }
    {
        self.places.get(&(function, number)).copied()
    }

    // Keeps the place of the lemma of an equation.
    fn keep(&mut self, function: u32, number: u32, place: usize) -> Result<(), AllocError>
        ensures { (cx : Context) → IsKeptIn cx self.old → IsLemmaAt cx function number place
            → IsKeptIn cx self.new }
    {
        self.places.insert((function, number), place)?;
        Ok(())
    }
}

// Returns the lemma of an equation, by its number. It is made when it is first needed.
pub(crate) fn lemma_of(
    alloc: Global,
    cx: &mut Cx<'_>,
    kept: &mut LemmaPlaces,
    number: u32,
    equation: &Equation,
) -> Result<Lemma, AllocError>
    requires image { HasEquationImage cx.old.program.sig
        (equations_of (theory_of cx.old.program) equation.now.fun.0) equation.now.fun.0
        (function_equation equation.now) }
    requires own { IsEquationFor (theory_of cx.old.program) equation.now.fun.0
        (function_equation equation.now) }
    requires there { slice_get (equations_of (theory_of cx.old.program) equation.now.fun.0) number ≡
        Some (function_equation equation.now) }
    requires kept { IsKeptIn cx.old kept.old }
    ensures lemma { IfOk result
        (IsEquationLemma cx.new equation.now.fun.0 (function_equation equation.now)) }
    ensures grown { HasGrown cx.old cx.new }
    ensures kept { IsKeptIn cx.new kept.new }
{
    let place = place_of(alloc, cx, kept, number, equation)?;
    cx.lemmas()[place].share(alloc)
}

// Returns the place of the lemma.
fn place_of(
    alloc: Global,
    cx: &mut Cx<'_>,
    kept: &mut LemmaPlaces,
    number: u32,
    equation: &Equation,
) -> Result<usize, AllocError>
    requires image { HasEquationImage cx.old.program.sig
        (equations_of (theory_of cx.old.program) equation.now.fun.0) equation.now.fun.0
        (function_equation equation.now) }
    requires own { IsEquationFor (theory_of cx.old.program) equation.now.fun.0
        (function_equation equation.now) }
    requires there { slice_get (equations_of (theory_of cx.old.program) equation.now.fun.0) number ≡
        Some (function_equation equation.now) }
    requires kept { IsKeptIn cx.old kept.old }
    ensures place { IfOk result (IsLemmaAt cx.new equation.now.fun.0 number) }
    ensures grown { HasGrown cx.old cx.new }
    ensures kept { IsKeptIn cx.new kept.new }
{
    if let Some(place) = kept.place(equation.fun.0, number) {
        return Ok(place);
    }
    let lemma = equation_lemma(alloc, cx, equation)?;
    let place = cx.lemmas().len();
    cx.add_lemma(alloc, lemma)?;
    kept.keep(equation.fun.0, number, place)?;
    Ok(place)
}
