//! The cycle that is named where there are some. `solve` asks for it where a statement is on a cycle.

ghost use Rattle.std.specs.Prelude.{ℕ, suc, length, IfOk};
ghost use Rattle.graph_cycles.specs.Graph.{IsClosed, Way};
ghost use Rattle.least_needs.specs.Terms.{AreBelow};
ghost use Rattle.least_needs.specs.Cycles.{IsCycle, IsLeastOnCycle, IsNext};
ghost use Rattle.least_needs.specs.Distances.{AreDistances};
ghost use Rattle.least_needs.specs.Nearest.{IsNearer, IsNearest};

use crate::distances::distances_to;
use graph_cycles::Graph;
use std::alloc::{AllocError, Global};

/// The cycle that begins at the least node on one, and goes on from each node to the nearest of its targets. It takes
/// time linear in nodes and targets.
pub fn least_cycle(alloc: Global, graph: &Graph, start: usize) -> Result<Vec<usize>, AllocError>
    requires closed { IsClosed graph.now }
    requires start { IsLeastOnCycle graph.now start }
    ensures { IfOk result (λ nodes. IsCycle graph.now nodes.items) }
{
    let distances = distances_to(alloc, graph, start)?;
    let mut nodes = Vec::new(alloc);
    nodes.push(start)?;
    let mut next = next_node(graph, &distances, start);
    while next != start {
        nodes.push(next)?;
        next = next_node(graph, &distances, next);
    }
    Ok(nodes)
}

/// The nearest target of a node from which a way leads on to the start.
fn next_node(graph: &Graph, distances: &[Option<usize>], node: usize) -> usize
    requires closed { IsClosed graph.now }
    requires ways { (start j : ℕ) × AreDistances graph.now start distances.now × Way graph.now (suc j) node start }
    ensures { (start : ℕ) → AreDistances graph.now start distances.now → IsNext graph.now start node result }
{
    nearest(graph.targets(node), distances).unwrap()
}

/// The node with the least distance of these, and the least of those that have it; none if no node has a distance.
fn nearest(nodes: &[usize], distances: &[Option<usize>]) -> Option<usize>
    requires { AreBelow (length distances.now) nodes.now }
    ensures { IsNearest nodes.now distances.now result }
{
    let mut best: Option<(usize, usize)> = None;
    for &node in nodes {
        if let Some(edges) = distances[node] {
            best = Some(nearer(best, (edges, node)));
        }
    }
    Some(best?.1)
}

/// The lesser of a distance with its node and another one, by the distance and then by the node.
fn nearer(best: Option<(usize, usize)>, other: (usize, usize)) -> (usize, usize)
    ensures { IsNearer best other result }
{
    match best {
        Some(best) if best.0 < other.0 || best.0 == other.0 && best.1 <= other.1 => best,
        _ => other,
    }
}
