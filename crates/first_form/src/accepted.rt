//! The test of a run: whether what a run file lists is an accepted run of a program on an input.
//!
//! A program, an input and a run come in; nothing goes out, or the first part of an accepted run that fails. The
//! judgement asks it before it reads a verdict off a run. Nothing here takes memory. Each state costs one step, and each
//! listed range-check cell one look-up.

ghost use Rattle.std.specs.Prelude.{◌≡◌, ◌↔◌, ◌≤◌, ◌+◌, [], ◌∷◌, length, IfOk, IfErr, OnOk, IsOk, Err, IfSome, IfNone, IsTrue};
ghost use Rattle.std.specs.FinMap.{get};
ghost use Rattle.felt64.specs.Field.{difference};
ghost use Rattle.first_form.specs.Accepted.{most_states, HoldsCode, StartsAt, ArgumentsStand, GoesOn, AllGoOn, Ends, AllInRange};
ghost use Rattle.first_form.specs.Ranges.{AllNarrow, IsWide, IsFirstWide};
ghost use Rattle.first_form.specs.Rejected.{CodeFails, StartFails, ArgumentsFail, StateFails, StatesFail, RangeFails, IsRejected};
ghost use Rattle.first_form.specs.Runs.{IsAccepted};
ghost use Rattle.first_form.specs.Values.{number, felt64, Number};

use crate::code::code_words;
use crate::input::Input;
use crate::program::Program;
use felt64::Felt;
use ro_machine::{Memory, State, StepFault, step};
use run_file::Run;
use thiserror::Error;

/// Where a run ends.
const FINAL_PC: u32 = 2;

/// What the words of range-check cells are below.
const RANGE_LIMIT: u64 = 1 << 32;

/// The first part of an accepted run that fails, in the order of the variants; but of each state the three variants
/// [`CheckFault::FinalEarly`] to [`CheckFault::NextState`] are tried before those of the next.
#[derive(Clone, Copy, Debug, PartialEq, Eq, Drop, Error)]
pub enum CheckFault {
    /// The least address of a code cell that isn't listed, or has another word.
    #[error("a code cell has another word")]
    CodeCell(Felt),
    /// The first state isn't at address 0 with `ap` and `fp` equal.
    #[error("the first state is no start")]
    Start,
    /// The first cell of an argument that doesn't hold it: its address, the word that is expected and the word that is
    /// found, which is `None` where the cell isn't listed.
    #[error("an argument's cell has another word")]
    ArgCells(Felt, Option<Felt>, Option<Felt>),
    /// The number of a state that is at the end before the last state is.
    #[error("the end comes early")]
    FinalEarly(u64),
    /// The number of a state at which no step starts, and why.
    #[error("no step starts at a state")]
    Step(u64, StepFault),
    /// The number of a state after which another one comes than its step gives.
    #[error("another state follows")]
    NextState(u64),
    /// The last state isn't at the end.
    #[error("the end is missing")]
    FinalMissing,
    /// The first listed range-check cell, from `rc` on, whose word is `2^32` or more: its address and its word.
    #[error("a range-check cell has a word that is too large")]
    RangeCell(Felt, Felt),
}

/// Tests whether the run is an accepted one of the program on the input.
///
/// # Errors
///
/// The first part of an accepted run that fails.
pub fn test(program: &Program, input: &Input, run: &Run) -> Result<(), CheckFault>
    requires { length run.now.states ≤ most_states }
    ensures ok { IsOk result ↔ IsAccepted program.now input.now run.now }
    ensures err { (fault : CheckFault) → (result ≡ Err fault) ↔ IsRejected program.now input.now run.now fault }
{
    tested(program, input, run)
}

/// Tests one part after the other.
fn tested(program: &Program, input: &Input, run: &Run) -> Result<(), CheckFault>
    requires { length run.now.states ≤ most_states }
    ensures ok { OnOk result (IsAccepted program.now input.now run.now) }
    ensures err { IfErr result (IsRejected program.now input.now run.now) }
{
    let states = run.states.as_slice();
    test_code(&run.memory, &code_words(program))?;
    let base = test_start(states)?;
    test_argument(&run.memory, base, input.argument)?;
    test_states(&run.memory, states)?;
    if !ends(states) {
        return Err(CheckFault::FinalMissing);
    }
    test_range_cells(&run.memory, run.rc, states.len())
}

/// Tests whether each word of the code is listed in its cell.
fn test_code(memory: &Memory, code: &[Felt]) -> Result<(), CheckFault>
    ensures ok { OnOk result (HoldsCode (get memory.now) code.now) }
    ensures err { IfErr result (CodeFails (get memory.now) code.now) }
{
    for (at, word) in code.iter().enumerate() {
        let addr = Felt::reduce(at as u128);
        if memory.get(addr) != Some(*word) {
            return Err(CheckFault::CodeCell(addr));
        }
    }
    Ok(())
}

/// The address at which the run starts its frame.
fn test_start(states: &[State]) -> Result<Felt, CheckFault>
    ensures ok { IfOk result (StartsAt states.now) }
    ensures err { IfErr result (StartFails states.now) }
{
    let first = states.first().ok_or(CheckFault::Start)?;
    if first.pc == Felt::from(0) && first.ap == first.fp {
        Ok(first.ap)
    } else {
        Err(CheckFault::Start)
    }
}

/// Tests whether the argument stands below the frame.
fn test_argument(memory: &Memory, base: Felt, argument: Felt) -> Result<(), CheckFault>
    ensures ok { OnOk result (ArgumentsStand (get memory.now) base (number felt64 ∷ []) (Number felt64 argument ∷ [])) }
    ensures err { IfErr result (ArgumentsFail (get memory.now) (number felt64 ∷ []) (difference base 1) 0 (Number felt64 argument ∷ [])) }
{
    let addr = base.sub(Felt::from(1));
    let found = memory.get(addr);
    if found == Some(argument) {
        Ok(())
    } else {
        Err(CheckFault::ArgCells(addr, Some(argument), found))
    }
}

/// Tests whether each state but the last goes on to the next.
fn test_states(memory: &Memory, states: &[State]) -> Result<(), CheckFault>
    ensures ok { OnOk result (AllGoOn (get memory.now) states.now) }
    ensures err { IfErr result (StatesFail (get memory.now) states.now) }
{
    for (number, pair) in states.windows(2).enumerate() {
        if let Err(fault) = test_state(memory, number as u64, pair[0], pair[1]) {
            return Err(fault);
        }
    }
    Ok(())
}

/// Tests whether the state, which has this number, goes on to the one that follows it.
fn test_state(memory: &Memory, number: u64, state: State, follower: State) -> Result<(), CheckFault>
    ensures ok { OnOk result (GoesOn (get memory.now) state follower) }
    ensures err { IfErr result (StateFails (get memory.now) number state follower) }
{
    if state.pc == Felt::from(FINAL_PC) {
        return Err(CheckFault::FinalEarly(number));
    }
    let next = step(memory, state).map_err(|stop| CheckFault::Step(number, stop))?;
    if follower == next {
        Ok(())
    } else {
        Err(CheckFault::NextState(number))
    }
}

/// Whether the last state is at the end.
fn ends(states: &[State]) -> bool
    ensures { IsTrue result ↔ Ends states.now }
{
    states
        .last()
        .is_some_and(|last| last.pc == Felt::from(FINAL_PC))
}

/// Tests the listed cells among the `count` from `rc` on.
fn test_range_cells(memory: &Memory, rc: Felt, count: usize) -> Result<(), CheckFault>
    requires some { 1 ≤ count }
    requires few { count ≤ most_states }
    ensures ok { OnOk result (AllInRange (get memory.now) rc count) }
    ensures err { IfErr result (RangeFails (get memory.now) rc count) }
{
    match first_wide(memory, rc, count) {
        Some((addr, word)) => Err(CheckFault::RangeCell(addr, word)),
        None => Ok(()),
    }
}

/// The first listed cell among the `count` from `rc` on whose word is too large. Behind the cell `P - 1` comes the cell 0.
fn first_wide(memory: &Memory, rc: Felt, count: usize) -> Option<(Felt, Felt)>
    requires some { 1 ≤ count }
    requires few { count ≤ most_states }
    ensures some { IfSome result (IsFirstWide (get memory.now) rc count) }
    ensures none { IfNone result (AllInRange (get memory.now) rc count) }
{
    let last = rc.add(Felt::reduce(count as u128 - 1));
    if rc.value() <= last.value() {
        return wide_between(memory, rc, last);
    }
    match wide_between(memory, rc, Felt::from(1).neg()) {
        Some(cell) => Some(cell),
        None => wide_between(memory, Felt::from(0), last),
    }
}

/// The first listed cell from the first address up to the last whose word is too large.
fn wide_between(memory: &Memory, first: Felt, last: Felt) -> Option<(Felt, Felt)>
    ensures some { IfSome result (IsWide (get memory.now) first last) }
    ensures none { IfNone result (AllNarrow (get memory.now) first (last + 1)) }
{
    let mut from = first;
    while let Some((addr, word)) = memory.from(from) {
        if addr.value() > last.value() {
            break;
        }
        if word.value() >= RANGE_LIMIT {
            return Some((addr, word));
        }
        if addr == last {
            break;
        }
        from = addr.add(Felt::from(1));
    }
    None
}
