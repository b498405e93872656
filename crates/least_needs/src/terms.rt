//! The terms of statements, which are made statement by statement.
//! `solve` reads the terms of each statement.

ghost use Rattle.std.specs.Prelude.{◌≡◌, ◌++◌, ◌∷◌, [], ◌<◌, ◌≤◌, ◌↔◌, length, min, slice_index, EachIndex, IsTrue, OnOk, OnErr, IfOk};
ghost use Rattle.std.specs.List.{All};
ghost use Rattle.graph_cycles.specs.Graph.{IsClosed};
ghost use Rattle.least_needs.specs.Rows.{rows, EndAt};
ghost use Rattle.least_needs.specs.Terms.{listed, all_targets, graph_of, terms_of, AreBelow};
ghost use Rattle.least_needs.specs.Needs.{amount, largest, limit};

use std::alloc::{AllocError, Global};
use std::marker::Model;

/// The number from which on a need is too large.
pub const LIMIT: u64 = 1 << 32;

/// The statements whose needs a term adds. A call has two: where it goes, and where it goes on.
#[derive(Clone, Copy, Debug, PartialEq, Eq, Drop)]
pub enum Targets {
    /// None.
    Nowhere,
    /// One.
    One(usize),
    /// Two, which may be one statement twice.
    Two(usize, usize),
}

/// A term of a statement: a cost, and the statements whose needs are added to it.
#[derive(Clone, Copy, Debug, PartialEq, Eq, Drop)]
pub struct Term {
    /// The cost.
    pub cost: u64,
    /// Where the statement leads by this term.
    pub targets: Targets,
}

impl Term {
    /// What the term comes to by these needs, cut at the limit.
    fn amount(self, needs: &[u64]) -> u64
        requires below { AreBelow (length needs.now) (listed self.targets) }
        requires cut { EachIndex needs.now (λ k. slice_index needs.now k ≤ limit) }
        ensures { result ≡ min (amount (slice_index needs.now) self) limit }
    {
        let sum = match self.targets {
            Targets::Nowhere => 0,
            Targets::One(target) => needs[target],
            Targets::Two(target, other) => needs[target] + needs[other],
        };
        (self.cost.min(LIMIT) + sum).min(LIMIT)
    }

    /// Adds the term's targets at the end of a list.
    fn push_targets(self, targets: &mut Vec<usize>) -> Result<(), AllocError>
        ensures { OnOk result (targets.new.items ≡ targets.old.items ++ listed self.targets) }
    {
        match self.targets {
            Targets::Nowhere => {}
            Targets::One(target) => targets.push(target)?,
            Targets::Two(target, other) => targets.extend_from_slice(&[target, other])?,
        }
        Ok(())
    }

    /// Whether each target is below a bound.
    fn is_below(self, bound: usize) -> bool
        ensures { IsTrue result ↔ AreBelow bound (listed self.targets) }
    {
        match self.targets {
            Targets::Nowhere => true,
            Targets::One(target) => target < bound,
            Targets::Two(target, other) => target < bound && other < bound,
        }
    }
}

/// The terms of each statement. The statements are numbered from 0 in the order in which they are added.
///
/// It takes 8 bytes for each statement and 32 for each term, and some room to grow.
#[derive(Debug, Drop)]
pub struct Terms {
    terms: Vec<Term>,
    ends: Vec<usize>,
}

impl Model for Terms {
    ghost use Rattle.std.specs.Prelude.{List, length};
    ghost use Rattle.least_needs.specs.declared.terms.Term.{Term};
    ghost use Rattle.least_needs.specs.Rows.{rows, EndAt};

    ghost Value = { List (List Term) };

    ghost view = { λ all. rows 0 all.ends.items all.terms.items };

    ghost invariant = { λ all. EndAt 0 all.ends.items (length all.terms.items) };
}

impl Terms {
    /// No statements. It takes no memory; later calls of `add` take theirs from `alloc`.
    pub fn new(alloc: Global) -> Terms
        ensures { result ≡ [] }
    {
        Terms {
            terms: Vec::new(alloc),
            ends: Vec::new(alloc),
        }
    }

    /// No statements, with room for so many, and for so many terms of all statements together.
    pub fn with_capacity(
        alloc: Global,
        statements: usize,
        terms: usize,
    ) -> Result<Terms, AllocError>
        ensures { IfOk result (λ all. all ≡ []) }
    {
        Ok(Terms {
            terms: Vec::with_capacity(alloc, terms)?,
            ends: Vec::with_capacity(alloc, statements)?,
        })
    }

    /// Adds the next statement, in time linear in its terms. A target may be a statement that is still to come.
    pub fn add(&mut self, terms: &[Term]) -> Result<(), AllocError>
        ensures ok { OnOk result (self.new ≡ self.old ++ terms.now ∷ []) }
        ensures err { OnErr result (self.new ≡ self.old) }
    {
        let start = self.terms.len();
        self.terms.extend_from_slice(terms)?;
        if self.ends.push(self.terms.len()).is_err() {
            self.terms.truncate(start);
            return Err(AllocError);
        }
        Ok(())
    }

    /// The number of statements.
    pub fn len(&self) -> usize
        ensures { result ≡ length self.now }
    {
        self.ends.len()
    }

    /// Whether each target is a statement, which `solve` asks for. It goes over all terms once.
    pub fn is_closed(&self) -> bool
        ensures { IsTrue result ↔ IsClosed (graph_of self.now) }
    {
        all_below(&self.terms, self.ends.len())
    }

    /// The terms of a statement, in the order in which they were given.
    pub fn of(&self, statement: usize) -> &[Term]
        requires { statement < length self.now }
        ensures { result.now ≡ terms_of self.now statement }
    {
        row(&self.terms, &self.ends, statement)
    }
}

/// The targets of all these terms, at the end of a list.
pub fn push_all_targets(targets: &mut Vec<usize>, terms: &[Term]) -> Result<(), AllocError>
    ensures { OnOk result (targets.new.items ≡ targets.old.items ++ all_targets terms.now) }
{
    for term in terms {
        term.push_targets(targets)?;
    }
    Ok(())
}

/// The largest amount of these terms by these needs, cut at the limit, and 0 where there is no term.
pub fn largest(terms: &[Term], needs: &[u64]) -> u64
    requires below { AreBelow (length needs.now) (all_targets terms.now) }
    requires cut { EachIndex needs.now (λ k. slice_index needs.now k ≤ limit) }
    ensures { result ≡ min (largest (slice_index needs.now) terms.now) limit }
{
    let mut greatest = 0;
    for term in terms {
        greatest = greatest.max(term.amount(needs));
    }
    greatest
}

/// Whether the targets of each of these terms are below a bound.
fn all_below(terms: &[Term], bound: usize) -> bool
    ensures { IsTrue result ↔ All (λ x. AreBelow bound (listed x.targets)) terms.now }
{
    terms.iter().all(|term| term.is_below(bound))
}

/// The terms of a statement.
fn row<'a>(terms: &'a [Term], ends: &[usize], statement: usize) -> &'a [Term]
    requires kept { EndAt 0 ends.now (length terms.now) }
    requires statement { statement < length ends.now }
    ensures { result.now ≡ terms_of (rows 0 ends.now terms.now) statement }
{
    &terms[start(ends, statement)..ends[statement]]
}

/// Where the terms of a statement start: where those of the statement before end.
fn start(ends: &[usize], statement: usize) -> usize
    requires { statement ≤ length ends.now }
    ensures { result ≡ slice_index (0 ∷ ends.now) statement }
{
    match statement {
        0 => 0,
        _ => ends[statement - 1],
    }
}
