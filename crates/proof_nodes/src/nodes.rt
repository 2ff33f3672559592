// Proof trees on a stack, each distinct node held once.
ghost use Rattle.std.specs.Prelude.{◌≡◌, ◌≤◌, ◌<◌, ◌↔◌, ◌+◌, ◌-◌, ℕ, ◌++◌, ◌∷◌, [], length, slice_get};
ghost use Rattle.std.specs.Prelude.{◌^◌, Some, IfSome, IsSome, IfOk, OnOk, OnErr};
ghost use Rattle.mm_text.specs.Bytes.{Token};
ghost use Rattle.proof_nodes.specs.Tables.{depth_of, empty_table, stack_trees, tree_of, with_cited};
ghost use Rattle.proof_nodes.specs.Tables.{IsNodeOf, IsOnTop, KeepsNodes, AllBelow, LabelsBelow};
ghost use Rattle.proof_nodes.specs.Compression.{IsCompressed};
ghost use Rattle.proof_nodes.specs.TableView.{nodes_of, AreKeys};
ghost use Rattle.proof_nodes.specs.Links.{parts_of, AreLinks, Gains, KeepsChains};

use crate::letters::{CompressedProof, compressed};
use crate::walk::steps_of_node;
use indexmap::IndexSet;
use std::alloc::{AllocError, Global};
use std::marker::Model;

/// The number of a node.
#[derive(Clone, Copy, PartialEq, Eq, Debug)]
pub struct NodeNo(pub usize);

/// Proof trees on a stack, the last one on top. Contracts see the list of all nodes, each with its
/// label and the numbers of its parts, and the numbers of the nodes on the stack.
#[derive(Drop)]
pub struct ProofNodes {
    // Lists of parts as chains: the number of the chain before, and the last part. The chain 0 is
    // empty, and a link at a place makes the chain with the next number.
    links: IndexSet<(usize, usize)>,
    // The label of each node, and the chain of its parts.
    keys: IndexSet<(usize, usize)>,
    stack: Vec<usize>,
}

impl Model for ProofNodes {
    ghost use Rattle.proof_nodes.specs.Tables.{Table};

    ghost Value = { Table };

    ghost use Rattle.proof_nodes.specs.TableView.{table_of, IsTable};

    ghost view = { table_of };

    ghost invariant = { IsTable };
}

impl ProofNodes {
    /// No nodes. It allocates no memory yet.
    pub fn new(alloc: Global) -> Self
        ensures { result ≡ empty_table }
    {
        ProofNodes {
            links: IndexSet::new(alloc),
            keys: IndexSet::new(alloc),
            stack: Vec::new(alloc),
        }
    }

    /// Removes all nodes, and keeps the capacity.
    pub fn clear(&mut self)
        ensures { self.new ≡ empty_table }
    {
        self.links.clear();
        self.keys.clear();
        self.stack.clear();
    }

    /// How many trees are on the stack.
    pub fn depth(&self) -> usize
        ensures depth { result ≡ depth_of self.now }
        ensures trees { (token : ℕ → Token) → length (stack_trees token self.now) ≡ result }
    {
        self.stack.len()
    }

    /// Takes that many trees from the stack, and pushes the tree with this label over them. The
    /// last tree on the stack is the last part. A node that is there already is not stored again.
    /// `AllocError`: out of memory; then nothing changes. It costs a look-up for each part and one
    /// for the label.
    pub fn cite(&mut self, label: usize, takes: usize) -> Result<(), AllocError>
        requires { takes ≤ depth_of self.old }
        ensures cited { OnOk result
            ((token : ℕ → Token) → stack_trees token self.new
            ≡ with_cited (token label) takes (stack_trees token self.old)) }
        ensures depth { OnOk result (depth_of self.new ≡ depth_of self.old - takes + 1) }
        ensures err { OnErr result (self.new ≡ self.old) }
        ensures kept { KeepsNodes self.old self.new }
        ensures labels { (bound : ℕ) → LabelsBelow bound self.old → label < bound
            → LabelsBelow bound self.new }
    {
        self.stack.reserve(1)?;
        let below = self.stack.len() - takes;
        let node = node_over(&mut self.links, &mut self.keys, label, &self.stack[below..])?;
        self.stack.truncate(below);
        self.stack.push(node).unwrap();
        Ok(())
    }

    /// The node of the tree on top, or `None` if no tree is on the stack.
    pub fn last(&self) -> Option<NodeNo>
        ensures some { IsSome result ↔ (0 < depth_of self.now) }
        ensures top { IfSome result (λ node. IsOnTop self.now node.0) }
    {
        let node = self.stack.last()?;
        Some(NodeNo(*node))
    }

    /// Pushes the tree of a node again. `AllocError`: out of memory; then nothing changes.
    pub fn repeat(&mut self, node: NodeNo) -> Result<(), AllocError>
        requires { IsNodeOf self.old node.0 }
        ensures pushed { OnOk result
            ((token : ℕ → Token) → stack_trees token self.new
            ≡ stack_trees token self.old ++ tree_of token self.old node.0 ∷ []) }
        ensures depth { OnOk result (depth_of self.new ≡ depth_of self.old + 1) }
        ensures err { OnErr result (self.new ≡ self.old) }
        ensures kept { KeepsNodes self.old self.new }
        ensures labels { (bound : ℕ) → LabelsBelow bound self.old → LabelsBelow bound self.new }
    {
        self.stack.push(node.0)?;
        Ok(())
    }

    /// The compressed proof by the only tree on the stack, in a statement with these mandatory
    /// labels. `AllocError`: out of memory, or more numbers than a compressed proof can spell. It
    /// takes time linear in the nodes and their parts.
    pub fn compress(&self, mandatory: &[usize]) -> Result<CompressedProof, AllocError>
        requires { depth_of self.now ≡ 1 }
        ensures compressed { IfOk result
            (λ p. IsCompressed self.now mandatory.now p.listed.items p.letters.items) }
        ensures labels { IfOk result
            (λ p. (bound : ℕ) → LabelsBelow bound self.now → AllBelow bound p.listed.items) }
    {
        let alloc = *self.stack.allocator();
        let links = self.links.as_slice();
        let keys = self.keys.as_slice();
        let steps = steps_of_node(alloc, links, keys, self.stack[0])?;
        compressed(alloc, mandatory, &steps)
    }
}

/// The number of the node of a label over parts, which is added if it is not there.
fn node_over(
    links: &mut IndexSet<(usize, usize)>,
    keys: &mut IndexSet<(usize, usize)>,
    label: usize,
    parts: &[usize],
) -> Result<usize, AllocError>
    requires links { AreLinks links.old.keys }
    requires keys { AreKeys links.old.keys keys.old.keys }
    requires parts { AllBelow (length keys.old.keys) parts.now }
    ensures links { AreLinks links.new.keys }
    ensures keys { AreKeys links.new.keys keys.new.keys }
    ensures gains { Gains (label, parts.now) (nodes_of links.old.keys keys.old.keys)
        (nodes_of links.new.keys keys.new.keys) }
    ensures err { OnErr result (nodes_of links.new.keys keys.new.keys
        ≡ nodes_of links.old.keys keys.old.keys) }
    ensures node { IfOk result (λ n.
        slice_get (nodes_of links.new.keys keys.new.keys) n ≡ Some (label, parts.now)) }
    ensures within { IfOk result (λ n. n < length keys.new.keys) }
{
    let chain = chain_of(links, parts)?;
    place_of(keys, (label, chain))
}

/// The number of the chain of these parts, whose links are added if they are not there.
fn chain_of(links: &mut IndexSet<(usize, usize)>, parts: &[usize]) -> Result<usize, AllocError>
    requires { AreLinks links.old.keys }
    ensures links { AreLinks links.new.keys }
    ensures kept { KeepsChains links.old.keys links.new.keys }
    ensures chain { IfOk result (λ chain. chain ≤ length links.new.keys) }
    ensures parts { IfOk result (λ chain. parts_of links.new.keys chain ≡ parts.now) }
{
    let mut chain = 0;
    for part in parts {
        chain = next_chain(links, chain, *part)?;
    }
    Ok(chain)
}

/// The number of a chain and then one more part.
fn next_chain(
    links: &mut IndexSet<(usize, usize)>,
    chain: usize,
    part: usize,
) -> Result<usize, AllocError>
    requires links { AreLinks links.old.keys }
    requires within { chain ≤ length links.old.keys }
    ensures links { AreLinks links.new.keys }
    ensures kept { KeepsChains links.old.keys links.new.keys }
    ensures chain { IfOk result (λ next. next ≤ length links.new.keys) }
    ensures parts { IfOk result
        (λ next. parts_of links.new.keys next ≡ parts_of links.old.keys chain ++ part ∷ []) }
{
    Ok(place_of(links, (chain, part))? + 1)
}

/// The place of a pair, which is added if it is not there.
fn place_of(pairs: &mut IndexSet<(usize, usize)>, pair: (usize, usize)) -> Result<usize, AllocError>
    ensures place { IfOk result (λ i. slice_get pairs.new.keys i ≡ Some pair) }
    ensures within { IfOk result (λ i. i < length pairs.new.keys) }
    ensures small { IfOk result (λ i. i < 2 ^ 63) }
    ensures gains { Gains pair pairs.old.keys pairs.new.keys }
    ensures err { OnErr result (pairs.new.keys ≡ pairs.old.keys) }
{
    let (place, _) = pairs.insert_full(pair)?;
    let _count = pairs.len();
    Ok(place)
}
