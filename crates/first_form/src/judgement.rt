//! The judgement of a run: a program, an input and the run that a file holds come in, and what the check says of it goes
//! out: the verdict that the run shows, where it is accepted, and else the first part that fails.

ghost use Rattle.std.specs.Prelude.{◌≤◌, length, IfOk};
ghost use Rattle.first_form.specs.Accepted.{most_states};
ghost use Rattle.first_form.specs.Meaning.{entry_gas};
ghost use Rattle.first_form.specs.Runs.{IsAccepted, IsVerdict};
ghost use Rattle.first_form.specs.Judgements.{IsJudgement};

use crate::accepted::{CheckFault, test};
use crate::code::entry_gas;
use crate::input::Input;
use crate::program::Program;
use crate::verdict::{Outcome, Value, Values, Verdict};
use felt64::Felt;
use run_file::Run;
use std::alloc::{AllocError, Global};

/// What the check says of a run.
#[derive(Debug, Drop)]
pub enum Judgement {
    /// The run is accepted, and this is what it shows.
    Accepted(Verdict),
    /// The run isn't accepted, for this first part that fails.
    Rejected(CheckFault),
}

/// Judges a run: its verdict if it is accepted, and else the first part that fails.
pub fn judge(
    alloc: Global,
    program: &Program,
    input: &Input,
    run: &Run,
) -> Result<Judgement, AllocError>
    requires gas { entry_gas program.now ≤ input.now.gas }
    requires few { length run.now.states ≤ most_states }
    ensures { IfOk result (IsJudgement program.now input.now run.now) }
{
    match test(program, input, run) {
        Ok(()) => Ok(Judgement::Accepted(verdict(alloc, program, input, run)?)),
        Err(fault) => Ok(Judgement::Rejected(fault)),
    }
}

/// The verdict that an accepted run shows.
fn verdict(
    alloc: Global,
    program: &Program,
    input: &Input,
    run: &Run,
) -> Result<Verdict, AllocError>
    requires accepted { IsAccepted program.now input.now run.now }
    requires gas { entry_gas program.now ≤ input.now.gas }
    ensures { IfOk result (IsVerdict program.now input.now run.now) }
{
    let states = run.states.as_slice();
    let steps = states.len() - 1;
    let end = states[steps].ap.sub(Felt::from(1));
    let result = run.memory.get(end).unwrap();
    let values = Values::one(alloc, Value::Felt(result))?;
    let needed = entry_gas(program);
    Ok(Verdict {
        outcome: Outcome {
            panic: false,
            values,
            gas_left: u64::from(input.gas - needed),
            gas_used: u64::from(needed),
        },
        steps: steps as u64,
        checks: 0,
    })
}
