//! The evaluator: an accepted program and an input that fits its main come in, and the outcome that they mean goes out.

ghost use Rattle.std.specs.Prelude.{◌≡◌, ◌-◌, ◌<◌, ◌≤◌, ◌↔◌, ℕ, map, Some, Err, IfOk, slice_get};
ghost use Rattle.gas_solver.specs.Accepting.{IsAccepted};
ghost use Rattle.value_trees.specs.Meant.{meant};
ghost use Rattle.typed_values.specs.Shown.{input_meant, outcome_meant};
ghost use Rattle.sierra_meaning.specs.Main.{IsBeginning, MainEnds, statement_bound};
ghost use Rattle.sierra_meaning.specs.Outcome.{Fits, MeansWithin};
ghost use Rattle.sierra_meaning.specs.Weighing.{PlanPays};
ghost use Rattle.sierra_meaning.specs.declared.evaluating.EvalFault.TheVariants as faults;

use crate::resolved::resolve;
use crate::turns::Evaluator;
use crate::variables::begin;
use gas_solver::{Accepted, plan_pays};
use sierra_types::Function;
use std::alloc::{AllocError, Global};
use thiserror::Error;
use typed_values::{Input, Outcome, beginning};
use value_trees::Value;

/// Why no outcome is given.
#[derive(Clone, Copy, Debug, PartialEq, Eq, Drop, Error)]
pub enum EvalFault {
    /// The input has less gas than the program needs to begin.
    #[error("not enough gas")]
    NotEnoughGas {
        /// What the program needs to begin.
        need: u64,
        /// What the input has.
        given: u64,
    },
    /// There was no memory.
    #[error("out of memory")]
    Memory,
}

/// What a program means on an input that fits its main.
///
/// # Errors
///
/// Less gas than the program needs to begin, or no memory.
pub fn eval(alloc: Global, accepted: &Accepted, input: &Input) -> Result<Outcome, EvalFault>
    requires { Fits accepted.now (input_meant input.now) }
    ensures means { IfOk result (λ outcome. MeansWithin accepted.now (input_meant input.now)
        (statement_bound accepted.now input.now.gas) (outcome_meant outcome)) }
    ensures short { (need given : ℕ) → (result ≡ Err (faults.NotEnoughGas need given)) ↔
        ((given < need) × (need ≡ accepted.now.plan.entry) × (given ≡ input.now.gas)) }
{
    let need = accepted.plan().entry();
    if input.gas < need {
        return Err(EvalFault::NotEnoughGas {
            need,
            given: input.gas,
        });
    }
    match outcome_of(alloc, accepted, input, input.gas - need) {
        Ok(outcome) => Ok(outcome),
        Err(AllocError) => Err(EvalFault::Memory),
    }
}

/// What a program means on an input whose gas beyond what it needs to begin is the counter.
fn outcome_of(
    alloc: Global,
    accepted: &Accepted,
    input: &Input,
    counter: u64,
) -> Result<Outcome, AllocError>
    requires fits { Fits accepted.now (input_meant input.now) }
    requires enough { accepted.now.plan.entry ≤ input.now.gas }
    requires counter { counter ≡ input.now.gas - accepted.now.plan.entry }
    ensures { IfOk result (λ outcome. MeansWithin accepted.now (input_meant input.now)
        (statement_bound accepted.now input.now.gas) (outcome_meant outcome)) }
{
    plan_pays();
    let program = accepted.program();
    let types = accepted.types();
    let main = accepted.main();
    let given = copies(alloc, &input.args)?;
    let values = beginning(alloc, types, types.params(main), counter, given)?;
    let results = main_results(alloc, accepted, &program.functions.items()[main], values)?;
    Outcome::of(
        alloc,
        types,
        types.results(main),
        results,
        input.gas,
        counter,
    )
}

/// What main, which is this function, gives from these values.
fn main_results(
    alloc: Global,
    accepted: &Accepted,
    main: &Function,
    values: Vec<Value>,
) -> Result<Vec<Value>, AllocError>
    requires accepted { IsAccepted accepted.now }
    requires pays { PlanPays accepted.now }
    requires main { slice_get accepted.now.program.functions accepted.now.main ≡ Some main.now }
    requires begins { (gas : ℕ) × IsBeginning accepted.now gas (map meant values.items) }
    ensures { IfOk result (λ results. (n : ℕ) × MainEnds accepted.now n (map meant values.items) (map meant results.items)) }
{
    let (positions, idle) = resolve(alloc, accepted)?;
    let evaluator = Evaluator {
        alloc,
        accepted,
        positions,
        idle,
    };
    let mut values = values;
    let env = begin(alloc, main.params.items(), &mut values)?;
    evaluator.results(main.entry as usize, env)
}

/// Copies of values.
fn copies(alloc: Global, values: &Vec<Value>) -> Result<Vec<Value>, AllocError>
    ensures { IfOk result (λ copies. map meant copies.items ≡ map meant values.now.items) }
{
    let mut copies = Vec::with_capacity(alloc, values.len())?;
    for value in values {
        copies.push(value.copy(alloc)?)?;
    }
    Ok(copies)
}
