// Prints a database of lemmas, so that other Metamath verifiers can be run on it. The first lemma
// has variables and a hypothesis. The second cites it. The third has a variable only in its proof.
// The fourth is an instance, and its proof has a substitution.
#![tactic(auto)]

mod lemmas;

use crate::lemmas::{everything, instance_at_a, next_lemma, next_of_a};
use ml_kernel::Lemma;
use ml_pat::Names;
use mm_render::Renderer;
use std::alloc::{AllocError, Global};
use std::io;
use std::io::Write;

fn main(rt: HostRuntime) -> io::Result<()> {
    let text = database(rt.alloc())?;
    rt.stdout().write_all(&text)
}

// Returns the header, three names and the lemmas.
fn database(alloc: Global) -> Result<Vec<u8>, AllocError> {
    let names = three_names(alloc)?;
    let mut text = Vec::new(alloc);
    let mut renderer = Renderer::new(alloc);
    renderer.begin(&mut text)?;
    renderer.declare(&names, &mut text)?;
    push_lemmas(&mut text, &names, &mut renderer)?;
    Ok(text)
}

// Returns the names of a sort and of two symbols.
fn three_names(alloc: Global) -> Result<Names, AllocError> {
    let mut names = Names::new(alloc);
    names.number("s:S")?;
    names.number("f:a")?;
    names.number("f:f")?;
    Ok(names)
}

// Adds the lemmas.
fn push_lemmas(
    text: &mut Vec<u8>,
    names: &Names,
    renderer: &mut Renderer,
) -> Result<(), AllocError> {
    let alloc = *text.allocator();
    push_next_lemmas(text, names, renderer)?;
    renderer.lemma(names, &everything(alloc)?, text)?;
    renderer.lemma(names, &instance_at_a(alloc)?, text)
}

// Adds the lemma on `next`, and the one that cites it.
fn push_next_lemmas(
    text: &mut Vec<u8>,
    names: &Names,
    renderer: &mut Renderer,
) -> Result<(), AllocError> {
    let alloc = *text.allocator();
    let next = next_lemma(alloc)?;
    renderer.lemma(names, &next, text)?;
    let lemma = Lemma::close(next)?;
    renderer.lemma(names, &next_of_a(alloc, &lemma)?, text)
}

#[cfg(test)]
mod tests;
