// The listed labels and the letters of a compressed proof, from its steps.
ghost use Rattle.std.specs.Prelude.{◌≡◌, ◌+◌, ◌++◌, ◌∷◌, [], IfOk, OnOk, List, ℕ};
ghost use Rattle.mm_text.specs.Numbers.{Spells};
ghost use Rattle.proof_nodes.specs.Numbering.{AreAmong, AreNew, ArePlaced, HasPlaces, IsPlaced};
ghost use Rattle.proof_nodes.specs.Numbering.{MeansSteps, Places, SpellsStep, SpellsSteps};
ghost use Rattle.proof_nodes.specs.Walking.{label_of, labels_of};

use crate::walk::ProofStep;
use indexmap::IndexMap;
use mm_text::{letter_laws, push_number};
use std::alloc::{AllocError, Global};

/// The labels and letters of a compressed proof.
#[derive(Drop)]
pub struct CompressedProof {
    /// The labels that are written in parentheses, each once, in the order of their first use.
    pub listed: Vec<usize>,
    /// The letters.
    pub letters: Vec<u8>,
}

/// Labels by place. `table` has the mandatory labels and then those that are listed.
#[derive(Drop)]
struct Numbering {
    places: IndexMap<usize, usize>,
    table: Vec<usize>,
}

/// The compressed proof of these steps.
pub(crate) fn compressed(
    alloc: Global,
    mandatory: &[usize],
    steps: &[ProofStep],
) -> Result<CompressedProof, AllocError>
    ensures { IfOk result (λ p. MeansSteps mandatory.now steps.now p.listed.items p.letters.items) }
{
    let mut numbering = mandatory_places(alloc, mandatory)?;
    let placed = placed_steps(alloc, &mut numbering, steps)?;
    let letters = letters_of(alloc, numbering.table.len(), &placed)?;
    let listed = Vec::from_slice(alloc, &numbering.table[mandatory.len()..])?;
    letter_laws();
    Ok(CompressedProof { listed, letters })
}

/// The places of the mandatory labels.
fn mandatory_places(alloc: Global, mandatory: &[usize]) -> Result<Numbering, AllocError>
    ensures places { IfOk result HasPlaces }
    ensures table { IfOk result (λ n. n.table.items ≡ mandatory.now) }
{
    let mut numbering = Numbering {
        places: IndexMap::new(alloc),
        table: Vec::new(alloc),
    };
    for label in mandatory {
        add_label(&mut numbering, *label)?;
    }
    Ok(numbering)
}

/// Puts a label at the end of the table.
fn add_label(numbering: &mut Numbering, label: usize) -> Result<(), AllocError>
    requires { HasPlaces numbering.old }
    ensures places { OnOk result (HasPlaces numbering.new) }
    ensures table { OnOk result
        (numbering.new.table.items ≡ numbering.old.table.items ++ label ∷ []) }
{
    numbering.places.insert(label, numbering.table.len())?;
    numbering.table.push(label)?;
    Ok(())
}

/// The place of a label, which is put at the end of the table if it is not there.
fn place(numbering: &mut Numbering, label: usize) -> Result<usize, AllocError>
    requires { HasPlaces numbering.old }
    ensures places { OnOk result (HasPlaces numbering.new) }
    ensures place { IfOk result
        (λ p. Places label p numbering.old.table.items numbering.new.table.items) }
{
    if let Some(place) = numbering.places.get(&label) {
        return Ok(*place);
    }
    let place = numbering.table.len();
    add_label(numbering, label)?;
    Ok(place)
}

/// The steps with the places of their labels. Labels without a place are put at the end of the
/// table.
fn placed_steps(
    alloc: Global,
    numbering: &mut Numbering,
    steps: &[ProofStep],
) -> Result<Vec<ProofStep>, AllocError>
    requires { HasPlaces numbering.old }
    ensures steps { IfOk result
        (λ placed. ArePlaced numbering.new.table.items steps.now placed.items) }
    ensures listed { OnOk result ((listed : List ℕ)
        × (numbering.new.table.items ≡ numbering.old.table.items ++ listed)
        × AreNew numbering.old.table.items listed × AreAmong (labels_of steps.now) listed) }
{
    let mut placed = Vec::with_capacity(alloc, steps.len())?;
    for step in steps {
        placed.push(placed_step(numbering, *step)?)?;
    }
    Ok(placed)
}

/// A step with the place of its label.
fn placed_step(numbering: &mut Numbering, step: ProofStep) -> Result<ProofStep, AllocError>
    requires { HasPlaces numbering.old }
    ensures places { OnOk result (HasPlaces numbering.new) }
    ensures step { IfOk result (IsPlaced numbering.new.table.items step) }
    ensures listed { OnOk result ((listed : List ℕ)
        × (numbering.new.table.items ≡ numbering.old.table.items ++ listed)
        × AreNew numbering.old.table.items listed × AreAmong (label_of step) listed) }
{
    match step {
        ProofStep::Cites(label) => Ok(ProofStep::Cites(place(numbering, label)?)),
        ProofStep::CitesAndSaves(label) => Ok(ProofStep::CitesAndSaves(place(numbering, label)?)),
        ProofStep::Repeats(number) => Ok(ProofStep::Repeats(number)),
    }
}

/// The letters of steps whose labels are places in a table of `count` labels.
fn letters_of(alloc: Global, count: usize, steps: &[ProofStep]) -> Result<Vec<u8>, AllocError>
    ensures { IfOk result (λ letters. SpellsSteps count steps.now [] letters.items) }
{
    let mut letters = Vec::new(alloc);
    for step in steps {
        push_step(&mut letters, count, *step)?;
    }
    Ok(letters)
}

/// Appends the letters of a step.
fn push_step(letters: &mut Vec<u8>, count: usize, step: ProofStep) -> Result<(), AllocError>
    ensures { OnOk result (SpellsStep count step letters.old.items letters.new.items) }
{
    match step {
        ProofStep::Cites(place) => push_place(letters, place),
        ProofStep::CitesAndSaves(place) => {
            push_place(letters, place)?;
            letters.push(b'Z')?;
            Ok(())
        }
        ProofStep::Repeats(number) => {
            let Some(place) = count.checked_add(number) else {
                return Err(AllocError);
            };
            push_place(letters, place)
        }
    }
}

/// Appends the letters of the number of a place. `AllocError`: out of memory, or the number is
/// over 2^63.
fn push_place(letters: &mut Vec<u8>, place: usize) -> Result<(), AllocError>
    ensures { OnOk result (Spells (place + 1) letters.old.items letters.new.items) }
{
    if place >= 1 << 63 {
        return Err(AllocError);
    }
    push_number(place as u64 + 1, letters)
}
