//! A directed graph, which is made node by node.
//! The search for cycles reads each node's targets in order.

ghost use Rattle.std.specs.Prelude.{◌≡◌, ◌++◌, ◌∷◌, [], ◌<◌, ◌≤◌, ◌↔◌, length, slice_index, EachIndex, IsTrue, OnOk, OnErr, IfOk};
ghost use Rattle.graph_cycles.specs.Graph.{targets_of, IsClosed};
ghost use Rattle.graph_cycles.specs.Rows.{rows, EndAt};

use std::alloc::{AllocError, Global};
use std::marker::Model;

/// A directed graph. Its nodes are numbered from 0 in the order in which they are added, and each has a list of targets,
/// nodes or numbers of nodes that are still to come. A target may be listed twice.
///
/// It takes 8 bytes for each node and 8 for each target, and some room to grow.
#[derive(Debug, Drop)]
pub struct Graph {
    targets: Vec<usize>,
    ends: Vec<usize>,
}

impl Model for Graph {
    ghost use Rattle.std.specs.Prelude.{ℕ, List, length};
    ghost use Rattle.graph_cycles.specs.Rows.{rows, EndAt};

    ghost Value = { List (List ℕ) };

    ghost view = { λ graph. rows 0 graph.ends.items graph.targets.items };

    ghost invariant = { λ graph. EndAt 0 graph.ends.items (length graph.targets.items) };
}

impl Graph {
    /// No nodes. It takes no memory; later calls of `add` take theirs from `alloc`.
    pub fn new(alloc: Global) -> Graph
        ensures { result ≡ [] }
    {
        Graph {
            targets: Vec::new(alloc),
            ends: Vec::new(alloc),
        }
    }

    /// No nodes, with room for so many nodes and so many targets of all nodes together.
    pub fn with_capacity(alloc: Global, nodes: usize, targets: usize) -> Result<Graph, AllocError>
        ensures { IfOk result (λ graph. graph ≡ []) }
    {
        Ok(Graph {
            targets: Vec::with_capacity(alloc, targets)?,
            ends: Vec::with_capacity(alloc, nodes)?,
        })
    }

    /// Adds the next node, in time linear in its targets.
    pub fn add(&mut self, targets: &[usize]) -> Result<(), AllocError>
        ensures ok { OnOk result (self.new ≡ self.old ++ targets.now ∷ []) }
        ensures err { OnErr result (self.new ≡ self.old) }
    {
        let start = self.targets.len();
        self.targets.extend_from_slice(targets)?;
        if self.ends.push(self.targets.len()).is_err() {
            self.targets.truncate(start);
            return Err(AllocError);
        }
        Ok(())
    }

    /// The number of nodes.
    pub fn len(&self) -> usize
        ensures { result ≡ length self.now }
    {
        self.ends.len()
    }

    /// Whether each target is a node, which the search for cycles asks for. It goes over all targets once.
    pub fn is_closed(&self) -> bool
        ensures { IsTrue result ↔ IsClosed self.now }
    {
        all_below(&self.targets, self.ends.len())
    }

    /// The targets of a node, in the order in which they were given.
    pub fn targets(&self, node: usize) -> &[usize]
        requires { node < length self.now }
        ensures { result.now ≡ targets_of self.now node }
    {
        row(&self.targets, &self.ends, node)
    }
}

/// Whether each of these numbers is below a bound.
fn all_below(numbers: &[usize], bound: usize) -> bool
    ensures { IsTrue result ↔ EachIndex numbers.now (λ k. slice_index numbers.now k < bound) }
{
    numbers.iter().all(|number| *number < bound)
}

/// The targets of a node.
fn row<'a>(targets: &'a [usize], ends: &[usize], node: usize) -> &'a [usize]
    requires kept { EndAt 0 ends.now (length targets.now) }
    requires node { node < length ends.now }
    ensures { result.now ≡ targets_of (rows 0 ends.now targets.now) node }
{
    &targets[start(ends, node)..ends[node]]
}

/// Where the targets of a node start: where those of the node before end.
fn start(ends: &[usize], node: usize) -> usize
    requires { node ≤ length ends.now }
    ensures { result ≡ slice_index (0 ∷ ends.now) node }
{
    match node {
        0 => 0,
        _ => ends[node - 1],
    }
}
