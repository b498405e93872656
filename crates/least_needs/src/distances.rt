//! How far each node of a graph is from one of them, by the edges from there to it.
//! The search for a cycle goes along the nodes that are nearest.

ghost use Rattle.std.specs.Prelude.{◌≡◌, ◌<◌, length, [], IfOk, OnOk};
ghost use Rattle.graph_cycles.specs.Graph.{IsClosed};
ghost use Rattle.least_needs.specs.Terms.{AreBelow};
ghost use Rattle.least_needs.specs.Distances.{AreDistances, all_reached, found, layer_reached, lists_of, reached, AreInside};

use crate::sources::sources_of;
use graph_cycles::Graph;
use std::alloc::{AllocError, Global};

/// Of each node, the number of edges of a shortest way from there to the start, if there is a way. It takes time linear
/// in nodes and targets.
pub fn distances_to(
    alloc: Global,
    graph: &Graph,
    start: usize,
) -> Result<Vec<Option<usize>>, AllocError>
    requires closed { IsClosed graph.now }
    requires start { start < length graph.now }
    ensures { IfOk result (λ distances. AreDistances graph.now start distances.items) }
{
    let sources = sources_of(alloc, graph)?;
    let mut distances = vec![in alloc; None; graph.len()]?;
    let mut layer = Vec::new(alloc);
    reach(&mut distances, &mut layer, start, 0)?;
    let mut edges = 0;
    while !layer.is_empty() {
        edges += 1;
        layer = next_layer(alloc, &sources, &layer, &mut distances, edges)?;
    }
    Ok(distances)
}

/// Gives each node that leads to one of a layer this distance, unless it has one, and lists those that it was given to.
fn next_layer(
    alloc: Global,
    sources: &[Vec<usize>],
    layer: &[usize],
    distances: &mut [Option<usize>],
    edges: usize,
) -> Result<Vec<usize>, AllocError>
    requires layer { AreBelow (length sources.now) layer.now }
    requires sources { AreInside (length distances.old) (lists_of sources.now) }
    ensures { IfOk result (λ next. found distances.new next.items ≡ layer_reached (lists_of sources.now) edges (found distances.old []) layer.now) }
{
    let mut next = Vec::new(alloc);
    for &node in layer {
        reach_all(distances, &mut next, &sources[node], edges)?;
    }
    Ok(next)
}

/// Gives each of these nodes this distance, unless it has one, and lists those that it was given to.
fn reach_all(
    distances: &mut [Option<usize>],
    next: &mut Vec<usize>,
    nodes: &[usize],
    edges: usize,
) -> Result<(), AllocError>
    requires { AreBelow (length distances.old) nodes.now }
    ensures { OnOk result (found distances.new next.new.items ≡ all_reached edges (found distances.old next.old.items) nodes.now) }
{
    for &node in nodes {
        reach(distances, next, node, edges)?;
    }
    Ok(())
}

/// Gives a node this distance, and lists it, unless it has one.
fn reach(
    distances: &mut [Option<usize>],
    next: &mut Vec<usize>,
    node: usize,
    edges: usize,
) -> Result<(), AllocError>
    requires { node < length distances.old }
    ensures { OnOk result (found distances.new next.new.items ≡ reached edges (found distances.old next.old.items) node) }
{
    if distances[node].is_none() {
        distances[node] = Some(edges);
        next.push(node)?;
    }
    Ok(())
}
