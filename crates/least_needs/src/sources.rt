//! A graph against the direction of its edges: of each node, the nodes that lead to it.
//! The search for distances goes along it.

ghost use Rattle.std.specs.Prelude.{◌≡◌, length, replicate, [], IfOk, OnOk};
ghost use Rattle.graph_cycles.specs.Graph.{IsClosed};
ghost use Rattle.least_needs.specs.Terms.{AreBelow};
ghost use Rattle.least_needs.specs.Distances.{lists_of, with_source, with_sources};

use graph_cycles::Graph;
use std::alloc::{AllocError, Global};

/// Of each node, the nodes that lead to it, in rising order.
pub fn sources_of(alloc: Global, graph: &Graph) -> Result<Vec<Vec<usize>>, AllocError>
    requires { IsClosed graph.now }
    ensures { IfOk result (λ lists. lists_of lists.items ≡ with_sources (replicate (length graph.now) []) 0 graph.now) }
{
    let mut lists = empty_lists(alloc, graph.len())?;
    for source in 0..graph.len() {
        add_source(&mut lists, source, graph.targets(source))?;
    }
    Ok(lists)
}

/// So many empty lists.
fn empty_lists(alloc: Global, count: usize) -> Result<Vec<Vec<usize>>, AllocError>
    ensures { IfOk result (λ lists. lists_of lists.items ≡ replicate count []) }
{
    let mut lists = Vec::with_capacity(alloc, count)?;
    for _ in 0..count {
        lists.push(Vec::new(alloc))?;
    }
    Ok(lists)
}

/// Adds a node to the list of each of its targets.
fn add_source(lists: &mut [Vec<usize>], source: usize, targets: &[usize]) -> Result<(), AllocError>
    requires { AreBelow (length lists.old) targets.now }
    ensures { OnOk result (lists_of lists.new ≡ with_source (lists_of lists.old) source targets.now) }
{
    for &target in targets {
        lists[target].push(source)?;
    }
    Ok(())
}
