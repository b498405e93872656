//! The statements that wait for their turn.

ghost use Rattle.std.specs.Prelude.{◌≡◌, ℕ, [], false, true, IfSome, IfNone, OnOk, OnErr, IsTrue};
ghost use Rattle.std.specs.Ordering.{nat_cmp, is_gt};
ghost use Rattle.statement_walk.specs.Waits.{has, Updated, IsBelowAll};

use std::alloc::{AllocError, Global};
use std::collections::BTreeSet;
use std::marker::Model;

/// A set of statements, from which the least is taken.
///
/// The least may stand apart, so that a statement that is taken before another one comes isn't put into the tree.
#[derive(Debug, Drop)]
pub struct Waiting {
    least: Option<usize>,
    others: BTreeSet<usize>,
}

impl Model for Waiting {
    ghost use Rattle.std.specs.Prelude.{List, ℕ};
    ghost use Rattle.statement_walk.specs.Waits.{listed, IsApart};

    ghost Value = { List ℕ };

    ghost view = { λ w. listed w.least w.others.keys };

    ghost invariant = { λ w. IsApart w.least w.others.keys };
}

impl Waiting {
    /// No statement waits.
    pub fn new(alloc: Global) -> Waiting
        ensures { result ≡ [] }
    {
        Waiting {
            least: None,
            others: BTreeSet::new(alloc),
        }
    }

    /// A statement waits.
    pub fn add(&mut self, statement: usize) -> Result<(), AllocError>
        ensures updates { OnOk result (Updated (has self.old) (has self.new) statement true) }
        ensures err { OnErr result (self.new ≡ self.old) }
    {
        match self.least {
            None if is_below(statement, &self.others) => {
                self.least = Some(statement);
            }
            Some(least) if statement < least => {
                self.others.insert(least)?;
                self.least = Some(statement);
            }
            Some(least) if statement == least => {}
            _ => {
                self.others.insert(statement)?;
            }
        }
        Ok(())
    }

    /// Takes the least statement that waits.
    pub fn take_least(&mut self) -> Option<usize>
        ensures member { IfSome result (λ s. IsTrue (has self.old s)) }
        ensures least { IfSome result (λ s. (q : ℕ) → IsTrue (has self.old q) → is_gt (nat_cmp s q) ≡ false) }
        ensures updates { IfSome result (λ s. Updated (has self.old) (has self.new) s false) }
        ensures none { IfNone result ((self.old ≡ []) × (self.new ≡ [])) }
    {
        match self.least.take() {
            Some(least) => Some(least),
            None => self.others.pop_first(),
        }
    }
}

/// Whether a statement is below all of these.
fn is_below(statement: usize, others: &BTreeSet<usize>) -> bool
    ensures { IsTrue result → IsBelowAll statement others.now.keys }
{
    match others.first() {
        Some(first) => statement < *first,
        None => true,
    }
}
