//! The walk by given rules, turn by turn.

ghost use Rattle.std.specs.Prelude.{◌≡◌, ℕ, ◌<◌, ◌+◌, length, Ok, Some, IfOk, IfErr, slice_get, slice_set};
ghost use Rattle.statement_walk.specs.Walk.{given, done, waiting_from, arrive, deliver, Stops};
ghost use Rattle.statement_walk.specs.Branches.{StopsWith};
ghost use Rattle.statement_walk.specs.Turning.{Comes, Turns, IsState, AreInside, parts_of};

use crate::rules::{Branches, WalkFault, WalkRules};
use crate::walk::{Unfinished, Walk};
use std::alloc::{AllocError, Global};

/// Walks over all statements and gives each its function and its environment, or the first fault.
///
/// Each statement is visited once. Beside what the rules cost, the work is that of an ordered set over the statements
/// that wait.
pub fn run<R: WalkRules>(
    alloc: Global,
    rules: &R,
) -> Result<Vec<(usize, R::Env)>, WalkFault<R::Fault>>
    requires { R.fits rules.now }
    ensures ok { IfOk result (λ list. Stops (R.rules rules.now) (Ok list.items)) }
    ensures err { IfErr result (StopsWith (R.rules rules.now)) }
{
    let mut walk = Walk::new(alloc, rules.statements())?;
    let mut entered = 0;
    loop {
        match walk.next() {
            Some((statement, function)) => take_turn(rules, &mut walk, function, statement)?,
            None if entered < rules.functions() => {
                enter(rules, &mut walk, entered)?;
                entered += 1;
            }
            None => return finish(alloc, rules, walk),
        }
    }
}

/// A function begins.
fn enter<R: WalkRules>(
    rules: &R,
    walk: &mut Walk<R::Env>,
    function: usize,
) -> Result<(), WalkFault<R::Fault>>
    requires another { function < length (R.rules rules.now).entries }
    requires idle { waiting_from 0 walk.old ≡ None }
    requires sized { length walk.old ≡ (R.rules rules.now).size }
    ensures { Turns (R.rules rules.now) walk.old function result walk.new (function + 1) }
{
    let (statement, env) = rules.entry(function)?;
    if statement >= rules.statements() {
        return Err(WalkFault::Rule(rules.stray(statement)));
    }
    if walk.given(statement).is_some() {
        return Err(WalkFault::Rule(rules.shared_entry(statement)));
    }
    walk.add(statement, function, env)?;
    Ok(())
}

/// A statement that was taken from those that wait gives its branches what they have.
fn take_turn<R: WalkRules>(
    rules: &R,
    walk: &mut Walk<R::Env>,
    function: usize,
    statement: usize,
) -> Result<(), WalkFault<R::Fault>>
    requires fits { R.fits rules.now }
    requires sized { length walk.old ≡ (R.rules rules.now).size }
    requires has { (e : R.Env) × (given walk.old statement ≡ Some (function, e)) × (n : ℕ) × (n < (R.rules rules.now).size) × R.valid rules.now n statement e }
    ensures { (e : R.Env) → given walk.old statement ≡ Some (function, e) → Comes (deliver (R.rules rules.now) function statement ((R.rules rules.now).flow function statement e) walk.old) result walk.new }
{
    let env = walk.env(statement);
    let branches = rules.flow(function, statement, env)?;
    deliver(rules, walk, function, statement, branches)
}

/// All branches of a statement arrive, up to the first fault.
fn deliver<R: WalkRules>(
    rules: &R,
    walk: &mut Walk<R::Env>,
    function: usize,
    statement: usize,
    branches: Branches<R::Env, R::Fault>,
) -> Result<(), WalkFault<R::Fault>>
    requires { AreInside (length walk.old) branches.given.items }
    ensures { Comes (deliver (R.rules rules.now) function statement (parts_of branches.given.items branches.fault) walk.old) result walk.new }
{
    for (target, env) in branches.given {
        arrive(rules, walk, function, statement, target, env)?;
    }
    match branches.fault {
        Some(fault) => Err(WalkFault::Rule(fault)),
        None => Ok(()),
    }
}

/// One branch arrives at its target.
fn arrive<R: WalkRules>(
    rules: &R,
    walk: &mut Walk<R::Env>,
    function: usize,
    statement: usize,
    target: usize,
    env: R::Env,
) -> Result<(), WalkFault<R::Fault>>
    requires { target < length walk.old }
    ensures comes { Comes (arrive (R.rules rules.now) function statement target env walk.old) result walk.new }
    ensures long { length walk.new ≡ length walk.old }
{
    match walk.given(target) {
        None => {
            walk.add(target, function, env)?;
            Ok(())
        }
        Some((there, had)) if *there == function => match rules.clash(statement, &env, had) {
            Some(fault) => Err(WalkFault::Rule(fault)),
            None => Ok(()),
        },
        Some(_) => Err(WalkFault::Rule(rules.shared(statement))),
    }
}

/// The list of a walk that is through, or its first statement that isn't seen.
fn finish<R: WalkRules>(
    alloc: Global,
    rules: &R,
    walk: Walk<R::Env>,
) -> Result<Vec<(usize, R::Env)>, WalkFault<R::Fault>>
    requires { (turn : ℕ) × IsState (R.rules rules.now) walk turn × (waiting_from 0 walk ≡ None) × (slice_get (R.rules rules.now).entries turn ≡ None) }
    ensures ok { IfOk result (λ list. Stops (R.rules rules.now) (Ok list.items)) }
    ensures err { IfErr result (StopsWith (R.rules rules.now)) }
{
    match walk.finish(alloc) {
        Ok(list) => Ok(list),
        Err(Unfinished::Unseen(statement)) => Err(WalkFault::Rule(rules.unreached(statement))),
        Err(Unfinished::Memory) => Err(WalkFault::Memory),
    }
}
