//! A walk as far as it has come.

ghost use Rattle.std.specs.Prelude.{◌≡◌, ℕ, ◌<◌, ◌++◌, ◌∷◌, [], length, replicate, Some, None, Err, IsSome, IfOk, IfSome, IfNone, OnOk, OnErr, slice_set};
ghost use Rattle.std.specs.List.{slice_get};
ghost use Rattle.std.specs.Option.{option_copied};
ghost use Rattle.statement_walk.specs.Walk.{Seen, unseen, waiting, done, given, waiting_from, unseen_from, answers};

use crate::waiting::Waiting;
use std::alloc::{AllocError, Global};
use std::marker::Model;

/// What each statement has, and which statements wait for their turn.
#[derive(Debug, Drop)]
pub struct Walk<E> {
    stored: Vec<Option<(usize, E)>>,
    waiting: Waiting,
}

impl<E> Model for Walk<E> {
    ghost use Rattle.std.specs.Prelude.{List};
    ghost use Rattle.statement_walk.specs.Walk.{Seen};
    ghost use Rattle.statement_walk.specs.Marks.{marks, AreSeen};
    ghost use Rattle.statement_walk.specs.Waits.{has};

    ghost Value = { List (Seen E) };

    ghost view = { λ w. marks (has w.waiting) 0 w.stored.items };

    ghost invariant = { λ w. AreSeen (has w.waiting) w.stored.items };
}

/// Why a walk has no list.
#[derive(Debug, Drop)]
pub enum Unfinished {
    /// This statement isn't seen.
    Unseen(usize),
    /// Memory ran out.
    Memory,
}

impl From<AllocError> for Unfinished {
    ghost use Rattle.std.specs.Prelude.{◌≡◌};
    ghost use Rattle.statement_walk.specs.declared.walk.Unfinished.TheVariants.{Memory};

    ghost from_gives = { λ _ fault. fault ≡ Memory };

    fn from(_: AllocError) -> Unfinished {
        Unfinished::Memory
    }
}

impl<E: Drop> Walk<E> {
    /// No statement is seen.
    pub fn new(alloc: Global, statements: usize) -> Result<Walk<E>, AllocError>
        ensures { IfOk result (λ walk. walk ≡ replicate statements unseen) }
    {
        let mut stored = Vec::with_capacity(alloc, statements)?;
        for _ in 0..statements {
            stored.push(None)?;
        }
        Ok(Walk {
            stored,
            waiting: Waiting::new(alloc),
        })
    }

    /// What a statement has, if it is seen: its function and its environment.
    pub fn given(&self, statement: usize) -> Option<&(usize, E)>
        ensures { option_copied result ≡ given self.now statement }
    {
        self.stored.get(statement)?.as_ref()
    }

    /// The environment of a statement that is seen.
    pub fn env(&self, statement: usize) -> &E
        requires { IsSome (given self.now statement) }
        ensures { (f : ℕ) × (given self.now statement ≡ Some (f, result.now)) }
    {
        &self.given(statement).unwrap().1
    }

    /// The least statement that waits, with its function. It is done now.
    pub fn next(&mut self) -> Option<(usize, usize)>
        ensures next { IfSome result (λ x. (e : E) × (waiting_from 0 self.old ≡ Some (x.0, x.1, e)) × (self.new ≡ slice_set self.old x.0 (done x.1 e))) }
        ensures idle { IfNone result ((waiting_from 0 self.old ≡ None) × (self.new ≡ self.old)) }
    {
        let statement = self.waiting.take_least()?;
        let (function, _) = self.stored[statement].as_ref()?;
        Some((statement, *function))
    }

    /// A statement that wasn't seen waits with its function and its environment.
    pub fn add(&mut self, statement: usize, function: usize, env: E) -> Result<(), AllocError>
        requires { slice_get self.old statement ≡ Some unseen }
        ensures ok { OnOk result (self.new ≡ slice_set self.old statement (waiting function env)) }
        ensures err { OnErr result (self.new ≡ self.old) }
    {
        self.waiting.add(statement)?;
        self.stored[statement] = Some((function, env));
        Ok(())
    }

    /// What all statements have, or the first that isn't seen.
    pub fn finish(self, alloc: Global) -> Result<Vec<(usize, E)>, Unfinished>
        ensures ok { IfOk result (λ list. (unseen_from 0 self ≡ None) × (list.items ≡ answers self)) }
        ensures missing { (s : ℕ) → result ≡ Err (Unfinished.Unseen s) → unseen_from 0 self ≡ Some s }
    {
        let mut list = Vec::with_capacity(alloc, self.stored.len())?;
        for given in self.stored {
            match given {
                Some(given) => keep(&mut list, given)?,
                None => return Err(Unfinished::Unseen(list.len())),
            }
        }
        Ok(list)
    }
}

/// Adds an item at the end.
fn keep<T: Drop>(list: &mut Vec<T>, item: T) -> Result<(), AllocError>
    ensures { OnOk result (list.new.items ≡ list.old.items ++ item ∷ []) }
{
    Ok(list.push(item)?)
}
