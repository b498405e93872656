//! The call that solves the equations, and why it may fail.

ghost use Rattle.std.specs.Prelude.{◌≡◌, ℕ, ◌≤◌, false, length, slice_index, slice_index_or, IsTrue, IfOk, IfErr};
ghost use Rattle.graph_cycles.specs.Graph.{IsClosed, OnCycle};
ghost use Rattle.graph_cycles.specs.Cycles.{HasEachOnce, TargetsFirst};
ghost use Rattle.least_needs.specs.First.{IsFirst};
ghost use Rattle.least_needs.specs.Terms.{graph_of};
ghost use Rattle.least_needs.specs.Needs.{AreCutNeeds, limit};
ghost use Rattle.least_needs.specs.Answers.{AreSmallNeeds, IsFault};

use crate::cycle::least_cycle;
use crate::terms::{LIMIT, Terms, largest, push_all_targets};
use graph_cycles::{Graph, find_cycles};
use std::alloc::{AllocError, Global};
use thiserror::Error;

/// Why there are no needs, or none that are small enough.
#[derive(Debug, Drop, Error)]
pub enum Fault {
    /// Some statement is on a cycle, so that it would need more than it needs. The list begins at the least such
    /// statement, and goes on along targets from which the fewest steps lead back to it, each time by the least of them.
    #[error("a cycle of statements")]
    Cycle(Vec<usize>),
    /// The need of this statement is `2^32` or more, and that of no statement before it.
    #[error("statement {0} needs 2^32 or more")]
    TooLarge(usize),
    /// Memory ran out.
    #[error("out of memory")]
    Memory,
}

impl From<AllocError> for Fault {
    ghost use Rattle.std.specs.Prelude.{◌≡◌};
    ghost use Rattle.least_needs.specs.declared.solving.Fault.TheVariants.{Memory};

    ghost from_gives = { λ _ fault. fault ≡ Memory };

    fn from(_: AllocError) -> Fault {
        Fault::Memory
    }
}

/// The least numbers that meet the equations, in time linear in statements, terms and targets.
///
/// Whether there are any is never decided by the numbers, which would have to be cut somewhere, but by the cycles of the
/// statements' graph.
pub fn solve(alloc: Global, terms: &Terms) -> Result<Vec<u64>, Fault>
    requires { IsClosed (graph_of terms.now) }
    ensures ok { IfOk result (λ needs. AreSmallNeeds terms.now needs.items) }
    ensures err { IfErr result (IsFault terms.now) }
{
    let graph = graph_of(alloc, terms)?;
    let found = find_cycles(alloc, &graph)?;
    if let Some(start) = first_true(found.cyclic()) {
        return Err(Fault::Cycle(least_cycle(alloc, &graph, start)?));
    }
    let needs = cut_needs(alloc, terms, found.order())?;
    match first_large(&needs) {
        Some(statement) => Err(Fault::TooLarge(statement)),
        None => Ok(needs),
    }
}

/// The graph in which each statement leads to the targets of its terms.
fn graph_of(alloc: Global, terms: &Terms) -> Result<Graph, AllocError>
    ensures { IfOk result (λ graph. graph ≡ graph_of terms.now) }
{
    let mut graph = Graph::with_capacity(alloc, terms.len(), terms.len())?;
    let mut targets = Vec::new(alloc);
    for statement in 0..terms.len() {
        targets.clear();
        push_all_targets(&mut targets, terms.of(statement))?;
        graph.add(&targets)?;
    }
    Ok(graph)
}

/// The needs by an order in which targets come first, cut at the limit.
fn cut_needs(alloc: Global, terms: &Terms, order: &[usize]) -> Result<Vec<u64>, AllocError>
    requires closed { IsClosed (graph_of terms.now) }
    requires each_once { HasEachOnce (length (graph_of terms.now)) order.now }
    requires targets_first { TargetsFirst (graph_of terms.now) order.now }
    requires acyclic { (s : ℕ) → ¬ OnCycle (graph_of terms.now) s }
    ensures size { IfOk result (λ needs. length needs.items ≡ length terms.now) }
    ensures needs { IfOk result (λ needs. AreCutNeeds terms.now needs.items) }
{
    let mut needs = vec![in alloc; 0; terms.len()]?;
    for &statement in order {
        needs[statement] = largest(terms.of(statement), &needs);
    }
    Ok(needs)
}

/// The index of the first flag that is set.
fn first_true(flags: &[bool]) -> Option<usize>
    ensures { IsFirst (λ k. IsTrue (slice_index_or flags.now k false)) (length flags.now) result }
{
    for (i, flag) in flags.iter().enumerate() {
        if *flag {
            return Some(i);
        }
    }
    None
}

/// The index of the first number that is too large.
fn first_large(needs: &[u64]) -> Option<usize>
    ensures { IsFirst (λ k. limit ≤ slice_index needs.now k) (length needs.now) result }
{
    for (i, need) in needs.iter().enumerate() {
        if *need >= LIMIT {
            return Some(i);
        }
    }
    None
}
