//! A run as the bytes of its file.
//! A run comes in, as the runner made it or the reader read it; its one spelling goes out. The tool writes run files so.

ghost use Rattle.std.specs.Prelude.{◌≡◌, ◌≤◌, ◌+◌, ◌*◌, ◌++◌, ◌^◌, length, OnOk, IfOk};
ghost use Rattle.std.specs.FinMap.{entries};
ghost use Rattle.std.specs.List.{flat_map, AllByRecursion};
ghost use Rattle.run_file.specs.Spelling.{number, cell, state, spelling, IsRun, IsCell, IsState};

use crate::run::Run;
use crate::stage::MAGIC;
use ro_machine::{Memory, State};
use std::alloc::{AllocError, Global};

/// The bytes of the run's file, of which [`read`](crate::read) gives the run again.
///
/// Their room is taken once.
pub fn write(alloc: Global, run: &Run) -> Result<Vec<u8>, AllocError>
    requires some_state { 1 ≤ length run.now.states }
    requires few_states { length run.now.states ≤ 2 ^ 32 }
    ensures spelled { IfOk result (λ bytes. bytes.items ≡ spelling run.now) }
    ensures is_run { IfOk result (λ bytes. IsRun run.now) }
{
    let states = run.states.as_slice();
    let room = room(run.memory.len(), states.len() as u64)?;
    let mut bytes = Vec::with_capacity(alloc, room)?;
    bytes.extend_from_slice(&MAGIC)?;
    put(&mut bytes, run.rc.value())?;
    put(&mut bytes, run.memory.len())?;
    put_cells(&mut bytes, &run.memory)?;
    put(&mut bytes, states.len() as u64 - 1)?;
    put_states(&mut bytes, states)?;
    Ok(bytes)
}

/// How many bytes so many cells and states take. A number that no memory can hold is out of memory.
fn room(cells: u64, states: u64) -> Result<usize, AllocError>
    ensures { IfOk result (λ room. room ≡ 32 + 16 * cells + 24 * states) }
{
    let room = 32 + 16 * u128::from(cells) + 24 * u128::from(states);
    match usize::try_from(room) {
        Ok(room) => Ok(room),
        Err(_) => Err(AllocError),
    }
}

/// Adds a number.
fn put(bytes: &mut Vec<u8>, n: u64) -> Result<(), AllocError>
    ensures { OnOk result (bytes.new.items ≡ bytes.old.items ++ number n) }
{
    bytes.extend_from_slice(&n.to_le_bytes())
}

/// Adds the cells in order of address.
fn put_cells(bytes: &mut Vec<u8>, memory: &Memory) -> Result<(), AllocError>
    ensures { OnOk result (bytes.new.items ≡ bytes.old.items ++ flat_map cell (entries memory.now)) }
{
    for (address, word) in memory.cells() {
        put(bytes, address.value())?;
        put(bytes, word.value())?;
    }
    Ok(())
}

/// Adds the states in order.
fn put_states(bytes: &mut Vec<u8>, states: &[State]) -> Result<(), AllocError>
    ensures put { OnOk result (bytes.new.items ≡ bytes.old.items ++ flat_map state states.now) }
    ensures words { OnOk result (AllByRecursion IsState states.now) }
{
    for State { pc, ap, fp } in states {
        put(bytes, pc.value())?;
        put(bytes, ap.value())?;
        put(bytes, fp.value())?;
    }
    Ok(())
}
