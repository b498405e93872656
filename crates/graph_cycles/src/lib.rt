//! Which nodes of a directed graph are on a cycle, and an order of the nodes in which targets come first.
//!
//! What comes in is a graph, each node's targets in turn; what goes out is the order and, for each node, whether it is
//! on a cycle. The table of types (a type's arguments are its targets) and the gas plan (a statement's successors are)
//! call it.
#![tactic(auto)]

mod finding;
mod graph;
mod laws;
mod search;

pub use finding::{Cycles, find_cycles};
pub use graph::Graph;
pub use laws::{adding_below, targets_before};
