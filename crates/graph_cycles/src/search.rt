//! The search behind the order and the cycles: Tarjan's search for strongly connected components, with stacks of its own
//! in place of recursion. What comes in is a graph and the nodes to start from; what goes out is the order of the nodes
//! that were met, and which of them are on a cycle. `find_cycles` runs it.
//!
//! The search follows targets and keeps the path that it is on. Where a target is on the path already, a way leads back;
//! a node from which no way leads further back than itself closes the path from there on, a part in which each node
//! leads to each other. A node is on a cycle if its part has another node, or if it is a target of its own.

ghost use Rattle.std.specs.Prelude.{◌≡◌, ◌≢◌, ◌+◌, ◌-◌, ◌^◌, ◌<◌, ◌≤◌, ℕ, [], IfOk, OnOk, length, slice_index};
ghost use Rattle.graph_cycles.specs.Graph.{IsClosed};
ghost use Rattle.graph_cycles.specs.Kept.{GoesOn, IsSearch, IsSpent, IsTop, Steps};
ghost use Rattle.graph_cycles.specs.Searching.{Closes, MarksDone, NotesCycles, after, entered, followed, fresh, lowered_top, mark_of, popped, replaced, state_of};

use crate::graph::Graph;
use std::alloc::{AllocError, Global};

/// How far the search has come with a node.
#[derive(Clone, Copy, Debug, Drop)]
pub enum Mark {
    /// It wasn't met yet.
    Unseen,
    /// It is on the path, at this place.
    Open(usize),
    /// It is in the order.
    Done,
}

/// A node of the path whose targets are being tried.
#[derive(Clone, Copy, Debug, Drop)]
struct Frame {
    node: usize,
    /// Where the node is on the path.
    place: usize,
    /// The index of the next target to try.
    next: usize,
    /// The first place of the path that a way from the node was found to lead back to.
    lowest: usize,
}

impl Frame {
    /// The frame once the next target, which has this mark, was tried.
    fn after(self, mark: Mark) -> Frame
        requires { self.next < 2 ^ 64 - 1 }
        ensures { result ≡ after self mark }
    {
        let lowest = match mark {
            Mark::Open(place) => self.lowest.min(place),
            _ => self.lowest,
        };
        Frame {
            next: self.next + 1,
            lowest,
            ..self
        }
    }
}

/// The state of a search: of each node how far it has come, the path of open nodes, those of them whose targets are
/// being tried, and what was found.
#[derive(Debug, Drop)]
pub struct Search {
    pub marks: Vec<Mark>,
    path: Vec<usize>,
    frames: Vec<Frame>,
    pub order: Vec<usize>,
    pub cyclic: Vec<bool>,
}

impl Search {
    /// A search that has met no node of so many.
    pub fn new(alloc: Global, nodes: usize) -> Result<Search, AllocError>
        ensures { IfOk result (λ search. state_of search ≡ fresh nodes) }
    {
        Ok(Search {
            marks: vec![in alloc; Mark::Unseen; nodes]?,
            path: Vec::with_capacity(alloc, nodes)?,
            frames: Vec::with_capacity(alloc, nodes)?,
            order: Vec::with_capacity(alloc, nodes)?,
            cyclic: vec![in alloc; false; nodes]?,
        })
    }

    /// Meets a node, and then all that can be reached from it. After it fails, out of memory, the search is of no more use.
    pub fn explore(&mut self, graph: &Graph, root: usize) -> Result<(), AllocError>
        requires closed { IsClosed graph.now }
        requires kept { IsSearch graph.now (state_of self.old) }
        requires between { length self.old.frames.items ≡ 0 }
        requires root { root < length graph.now }
        requires unseen { mark_of (state_of self.old) root ≡ Mark.Unseen }
        ensures on { OnOk result (GoesOn graph.now (state_of self.old) (state_of self.new)) }
        ensures between { OnOk result (length self.new.frames.items ≡ 0) }
        ensures met { OnOk result (mark_of (state_of self.new) root ≢ Mark.Unseen) }
    {
        self.enter(root)?;
        while let Some(&frame) = self.frames.last() {
            self.step(graph, frame)?;
        }
        Ok(())
    }

    /// Tries the next target of the last frame, or leaves its node where all were tried.
    fn step(&mut self, graph: &Graph, frame: Frame) -> Result<(), AllocError>
        requires closed { IsClosed graph.now }
        requires kept { IsSearch graph.now (state_of self.old) }
        requires top { IsTop (state_of self.old) frame }
        ensures { OnOk result (Steps graph.now (state_of self.old) (state_of self.new)) }
    {
        match graph.targets(frame.node).get(frame.next) {
            Some(&target) => self.follow(frame, target),
            None => self.leave(graph, frame),
        }
    }

    /// Puts a node at the end of the path.
    fn enter(&mut self, node: usize) -> Result<(), AllocError>
        requires { node < length self.old.marks.items }
        ensures { OnOk result (state_of self.new ≡ entered (state_of self.old) node) }
    {
        let place = self.path.len();
        self.marks[node] = Mark::Open(place);
        self.path.push(node)?;
        self.frames.push(Frame {
            node,
            place,
            next: 0,
            lowest: place,
        })?;
        Ok(())
    }

    /// Goes on from the last frame to its next target.
    fn follow(&mut self, frame: Frame, target: usize) -> Result<(), AllocError>
        requires frames { 0 < length self.old.frames.items }
        requires next { frame.next < 2 ^ 64 - 1 }
        requires target { target < length self.old.marks.items }
        ensures { OnOk result (state_of self.new ≡ followed (state_of self.old) frame target) }
    {
        let mark = self.marks[target];
        self.replace_top(frame.after(mark));
        match mark {
            Mark::Unseen => self.enter(target),
            _ => Ok(()),
        }
    }

    /// Puts another frame in the place of the last one.
    fn replace_top(&mut self, frame: Frame)
        requires { 0 < length self.old.frames.items }
        ensures { state_of self.new ≡ replaced (state_of self.old) frame }
    {
        let top = self.frames.len() - 1;
        self.frames[top] = frame;
    }

    /// Takes the last frame away. Where no way leads further back than its node, the path from there on is closed; else
    /// the frame before knows of the way too.
    fn leave(&mut self, graph: &Graph, frame: Frame) -> Result<(), AllocError>
        requires { IsSpent graph.now (state_of self.old) frame }
        ensures { OnOk result (Steps graph.now (state_of self.old) (state_of self.new)) }
    {
        self.frames.pop();
        if frame.lowest == frame.place {
            self.close(graph, frame.place)
        } else {
            self.lower_top(frame.lowest);
            Ok(())
        }
    }

    /// Lets the last frame know of a way back to this place.
    fn lower_top(&mut self, lowest: usize)
        ensures { state_of self.new ≡ lowered_top (state_of self.old) lowest }
    {
        if let Some(top) = self.frames.last_mut() {
            top.lowest = top.lowest.min(lowest);
        }
    }

    /// Moves the path from a place on into the order.
    fn close(&mut self, graph: &Graph, place: usize) -> Result<(), AllocError>
        requires place { place ≤ length self.old.path.items }
        requires nodes { (k : ℕ) → k < length self.old.path.items → slice_index self.old.path.items k < length graph.now }
        requires marks { length self.old.marks.items ≡ length graph.now }
        requires cyclic { length self.old.cyclic.items ≡ length graph.now }
        ensures { OnOk result (Closes graph.now place (state_of self.old) (state_of self.new)) }
    {
        let part = &self.path[place..];
        mark_done(&mut self.marks, part);
        note_cycles(&mut self.cyclic, graph, part);
        self.order.extend_from_slice(part)?;
        self.path.truncate(place);
        Ok(())
    }
}

/// Marks nodes as done.
fn mark_done(marks: &mut [Mark], nodes: &[usize])
    requires { (k : ℕ) → k < length nodes.now → slice_index nodes.now k < length marks.old }
    ensures { MarksDone (length nodes.now) nodes.now marks.old marks.new }
{
    for &node in nodes {
        marks[node] = Mark::Done;
    }
}

/// Notes of each of these nodes, of which each leads to each other, whether it is on a cycle.
fn note_cycles(cyclic: &mut [bool], graph: &Graph, nodes: &[usize])
    requires nodes { (k : ℕ) → k < length nodes.now → slice_index nodes.now k < length graph.now }
    requires cyclic { length cyclic.old ≡ length graph.now }
    ensures { NotesCycles graph.now (length nodes.now) nodes.now cyclic.old cyclic.new }
{
    for &node in nodes {
        cyclic[node] = nodes.len() > 1 || graph.targets(node).contains(&node);
    }
}
