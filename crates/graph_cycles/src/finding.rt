//! The nodes of a graph in an order in which targets come first, and which of them are on a cycle.
//! What comes in is a graph whose targets are all nodes; what goes out is what a whole search finds of it. The crate's
//! callers call it.

ghost use Rattle.std.specs.Prelude.{◌≡◌, ◌<◌, length, IfOk, slice_index_or, false};
ghost use Rattle.graph_cycles.specs.Graph.{IsClosed};
ghost use Rattle.graph_cycles.specs.Cycles.{HasEachOnce, TargetsFirst, TellsCycles};

use crate::graph::Graph;
use crate::search::{Mark, Search};
use std::alloc::{AllocError, Global};
use std::marker::Model;

/// What `find_cycles` finds of a graph.
#[derive(Debug, Drop)]
pub struct Cycles {
    order: Vec<usize>,
    cyclic: Vec<bool>,
}

impl Model for Cycles {
    ghost use Rattle.graph_cycles.specs.Cycles.{Findings};

    ghost Value = { Findings };

    ghost view = { λ found. record { order = found.order.items; cyclic = found.cyclic.items } };
}

impl Cycles {
    /// The nodes, each once. A node that is on no cycle comes behind all its targets, so a loop over the nodes in this
    /// order has dealt with them before.
    pub fn order(&self) -> &[usize]
        ensures { result.now ≡ self.now.order }
    {
        &self.order
    }

    /// Of each node, whether it is on a cycle.
    pub fn cyclic(&self) -> &[bool]
        ensures { result.now ≡ self.now.cyclic }
    {
        &self.cyclic
    }

    /// Whether a node is on a cycle: whether a way of at least one edge leads from it back to it.
    pub fn is_cyclic(&self, node: usize) -> bool
        requires { node < length self.now.cyclic }
        ensures { result ≡ slice_index_or self.now.cyclic node false }
    {
        self.cyclic[node]
    }
}

/// Finds the nodes that are on a cycle, and an order of all nodes in which targets come first, in time linear in nodes
/// and targets and without recursion. It takes 65 bytes for each node while it runs, of which it keeps 9. It fails only
/// out of memory.
///
/// Of two nodes of which one leads to the other, the target comes first, unless a way leads back: so on a graph without
/// cycles all targets come before.
pub fn find_cycles(alloc: Global, graph: &Graph) -> Result<Cycles, AllocError>
    requires { IsClosed graph.now }
    ensures cyclic { IfOk result (λ found. TellsCycles graph.now found.cyclic) }
    ensures each_once { IfOk result (λ found. HasEachOnce (length graph.now) found.order) }
    ensures targets_first { IfOk result (λ found. TargetsFirst graph.now found.order) }
{
    let mut search = Search::new(alloc, graph.len())?;
    for root in 0..graph.len() {
        if let Mark::Unseen = search.marks[root] {
            search.explore(graph, root)?;
        }
    }
    let Search { order, cyclic, .. } = search;
    Ok(Cycles { order, cyclic })
}
