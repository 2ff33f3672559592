// The steps of a compressed proof, from a walk over the nodes of a tree. A stack of tasks replaces
// recursion, so a deep tree needs no deep stack of calls.
ghost use Rattle.std.specs.Prelude.{◌≡◌, ◌≤◌, ◌<◌, ◌++◌, ◌∷◌, [], length, if◌then◌else◌, IfOk, OnOk};
ghost use Rattle.proof_nodes.specs.Links.{parts_of, AreLinks};
ghost use Rattle.proof_nodes.specs.TableView.{nodes_of, AreKeys};
ghost use Rattle.proof_nodes.specs.Walking.{node_of_task, visits, BuildsNode, CitesNodes, Takes};
ghost use Rattle.proof_nodes.specs.declared.walk.ProofStep.TheVariants.{Cites, CitesAndSaves};
ghost use Rattle.proof_nodes.specs.declared.walk.Task.TheVariants.{Visit, Finish};

use indexmap::IndexSet;
use std::alloc::{AllocError, Global};

/// A step of a compressed proof.
#[derive(Clone, Copy)]
pub(crate) enum ProofStep {
    /// The label is cited.
    Cites(usize),
    /// The label is cited, and the tree that it ends is saved.
    CitesAndSaves(usize),
    /// The saved tree with this number, again.
    Repeats(usize),
}

/// What is still to be done for a node.
#[derive(Clone, Copy)]
pub(crate) enum Task {
    /// To build its tree.
    Visit(usize),
    /// To cite its label, after its parts.
    Finish(usize),
}

/// A walk over a tree, with the steps so far.
#[derive(Drop)]
struct Walk {
    tasks: Vec<Task>,
    saved: IndexSet<usize>,
    steps: Vec<ProofStep>,
}

/// The steps that build the tree of a node, each step saved or repeated where the tree has been
/// built before.
pub(crate) fn steps_of_node(
    alloc: Global,
    links: &[(usize, usize)],
    keys: &[(usize, usize)],
    root: usize,
) -> Result<Vec<ProofStep>, AllocError>
    requires links { AreLinks links.now }
    requires keys { AreKeys links.now keys.now }
    requires root { root < length keys.now }
    ensures builds { IfOk result
        (λ steps. BuildsNode (nodes_of links.now keys.now) root steps.items) }
    ensures labels { IfOk result (λ steps. CitesNodes (nodes_of links.now keys.now) steps.items) }
{
    let uses = uses_of(alloc, links, keys)?;
    let mut walk = Walk {
        tasks: Vec::new(alloc),
        saved: IndexSet::new(alloc),
        steps: Vec::new(alloc),
    };
    walk.tasks.push(Task::Visit(root))?;
    while let Some(task) = walk.tasks.pop() {
        take_task(&mut walk, links, keys, &uses, task)?;
    }
    let Walk { steps, .. } = walk;
    Ok(steps)
}

/// Takes a task from the walk.
fn take_task(
    walk: &mut Walk,
    links: &[(usize, usize)],
    keys: &[(usize, usize)],
    uses: &[u8],
    task: Task,
) -> Result<(), AllocError>
    requires links { AreLinks links.now }
    requires keys { AreKeys links.now keys.now }
    requires node { node_of_task task < length keys.now }
    ensures { OnOk result (Takes (nodes_of links.now keys.now) task walk.old walk.new) }
{
    match task {
        Task::Visit(node) => visit(walk, links, keys, node),
        Task::Finish(node) => finish(walk, links, keys, uses, node),
    }
}

/// Repeats a saved tree, or puts the parts of its node on the stack.
fn visit(
    walk: &mut Walk,
    links: &[(usize, usize)],
    keys: &[(usize, usize)],
    node: usize,
) -> Result<(), AllocError>
    requires links { AreLinks links.now }
    requires keys { AreKeys links.now keys.now }
    requires node { node < length keys.now }
    ensures { OnOk result (Takes (nodes_of links.now keys.now) (Visit node) walk.old walk.new) }
{
    if let Some(number) = walk.saved.get_index_of(&node) {
        walk.steps.push(ProofStep::Repeats(number))?;
        return Ok(());
    }
    let (_, chain) = keys[node];
    walk.tasks.push(Task::Finish(node))?;
    push_visits(&mut walk.tasks, links, chain)
}

/// Cites the label of a node, and saves its tree if it has parts and is used more than once.
fn finish(
    walk: &mut Walk,
    links: &[(usize, usize)],
    keys: &[(usize, usize)],
    uses: &[u8],
    node: usize,
) -> Result<(), AllocError>
    requires node { node < length keys.now }
    ensures { OnOk result (Takes (nodes_of links.now keys.now) (Finish node) walk.old walk.new) }
{
    let (label, chain) = keys[node];
    let saved = saves(&mut walk.saved, uses, node, chain)?;
    walk.steps.push(citing_step(label, saved))?;
    Ok(())
}

/// The step that cites a label, and saves its tree or not.
fn citing_step(label: usize, saved: bool) -> ProofStep
    ensures { result ≡ (if saved then CitesAndSaves label else Cites label) }
{
    if saved {
        ProofStep::CitesAndSaves(label)
    } else {
        ProofStep::Cites(label)
    }
}

/// Saves a node that has parts and is used more than once, unless it is saved. Returns whether it
/// was saved now.
fn saves(
    saved: &mut IndexSet<usize>,
    uses: &[u8],
    node: usize,
    chain: usize,
) -> Result<bool, AllocError>
    ensures { IfOk result (λ now.
        saved.new.keys ≡ (if now then saved.old.keys ++ node ∷ [] else saved.old.keys)) }
{
    if chain == 0 || !is_shared(uses, node) {
        return Ok(false);
    }
    Ok(saved.insert(node)?)
}

/// Puts visits of the parts of a chain on the stack, the first part on top.
fn push_visits(
    tasks: &mut Vec<Task>,
    links: &[(usize, usize)],
    chain: usize,
) -> Result<(), AllocError>
    requires links { AreLinks links.now }
    requires chain { chain ≤ length links.now }
    ensures { OnOk result (tasks.new.items ≡ tasks.old.items ++ visits (parts_of links.now chain)) }
{
    let mut rest = chain;
    while rest > 0 {
        let (before, part) = last_link(links, rest);
        tasks.push(Task::Visit(part))?;
        rest = before;
    }
    Ok(())
}

/// The chain before the last part of a chain, and that part.
fn last_link(links: &[(usize, usize)], chain: usize) -> (usize, usize)
    requires links { AreLinks links.now }
    requires some { 0 < chain }
    requires within { chain ≤ length links.now }
    ensures before { result.0 < chain }
    ensures parts { parts_of links.now chain ≡ parts_of links.now result.0 ++ result.1 ∷ [] }
{
    links[chain - 1]
}

/// How often each node is a part of another, at most 255.
fn uses_of(
    alloc: Global,
    links: &[(usize, usize)],
    keys: &[(usize, usize)],
) -> Result<Vec<u8>, AllocError>
    requires links { AreLinks links.now }
    requires keys { AreKeys links.now keys.now }
{
    let mut uses = vec![in alloc; 0; keys.len()]?;
    for (_, chain) in keys {
        count_parts(&mut uses, links, *chain);
    }
    Ok(uses)
}

/// Counts a use of each part of a chain.
fn count_parts(uses: &mut [u8], links: &[(usize, usize)], chain: usize)
    requires links { AreLinks links.now }
    requires chain { chain ≤ length links.now }
{
    let mut rest = chain;
    while rest > 0 {
        let (before, part) = last_link(links, rest);
        if let Some(count) = uses.get_mut(part) {
            *count = count.saturating_add(1);
        }
        rest = before;
    }
}

/// Whether a node is a part of others more than once.
fn is_shared(uses: &[u8], node: usize) -> bool {
    uses.get(node).copied().unwrap_or(0) > 1
}
