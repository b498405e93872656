//! The call that makes the gas plan.

ghost use Rattle.std.specs.Prelude.{◌≡◌, ◌≢◌, ◌<◌, length, IfOk, IfErr, slice_index};
ghost use Rattle.type_table.specs.Table.{HasTypes};
ghost use Rattle.libfunc_registry.specs.Signature.{HasSignatures};
ghost use Rattle.linear_check.specs.Typed.{Typed};
ghost use Rattle.graph_cycles.specs.Graph.{IsClosed};
ghost use Rattle.least_needs.specs.Terms.{graph_of};
ghost use Rattle.least_needs.specs.Answers.{AreSmallNeeds};
ghost use Rattle.gas_solver.specs.Faults.{IsGasFault, IsLeastFault};
ghost use Rattle.gas_solver.specs.Plans.{IsPlan};

use crate::costs::Costs;
use crate::fault::GasFault;
use crate::plan::GasPlan;
use least_needs::{Fault, LIMIT, Terms};
use libfunc_registry::Sig;
use linear_check::Envs;
use sierra_types::{List, Program};
use std::alloc::{AllocError, Global};
use type_table::{Types, libfunc_positions};

/// The gas of main's call.
const CALL: u64 = 100;

/// The least gas plan of a program, or why it has none, in time and memory near-linear in the program.
///
/// `types` is the program's table, `sigs` are the signatures of its declared libfuncs, in order, and `envs` is what the
/// linear check found. `main` is the function in which a run begins, by its position.
pub fn solve(
    alloc: Global,
    program: &Program,
    types: &Types,
    sigs: &[Sig],
    envs: &Envs,
    main: usize,
) -> Result<GasPlan, GasFault>
    requires types { HasTypes program.now types.now }
    requires signatures { HasSignatures types.now program.now.libfuncs sigs.now }
    requires typed { Typed program.now types.now sigs.now envs.now }
    requires main { main < length program.now.functions }
    ensures plan { IfOk result (IsPlan program.now types.now sigs.now main) }
    ensures fault { IfErr result (λ fault. fault ≢ GasFault.Memory → IsGasFault program.now types.now sigs.now main fault) }
{
    let costs = Costs {
        program,
        types,
        sigs,
        libfuncs: libfunc_positions(alloc, program.libfuncs.items())?,
    };
    let terms = costs.all_terms(alloc)?;
    let needs = least(alloc, &terms)?;
    let start = costs.entry(main);
    let entry = CALL + needs[start];
    if entry >= LIMIT {
        return Err(GasFault::TooLarge(start as u64));
    }
    let amounts = costs.amounts(alloc, &needs)?;
    Ok(GasPlan::new(needs, amounts, entry))
}

/// The least needs by these terms.
fn least(alloc: Global, terms: &Terms) -> Result<Vec<u64>, GasFault>
    requires { IsClosed (graph_of terms.now) }
    ensures needs { IfOk result (λ needs. AreSmallNeeds terms.now needs.items) }
    ensures fault { IfErr result (λ fault. fault ≢ GasFault.Memory → IsLeastFault terms.now fault) }
{
    match least_needs::solve(alloc, terms) {
        Ok(needs) => Ok(needs),
        Err(Fault::Cycle(statements)) => Err(GasFault::Cycle(numbers(alloc, &statements)?)),
        Err(Fault::TooLarge(statement)) => Err(GasFault::TooLarge(statement as u64)),
        Err(Fault::Memory) => Err(GasFault::Memory),
    }
}

/// The statements of a cycle as words of 64 bits.
fn numbers(alloc: Global, statements: &[usize]) -> Result<List<u64>, AllocError>
    ensures { IfOk result (λ numbers. numbers ≡ statements.now) }
{
    let mut numbers = Vec::with_capacity(alloc, statements.len())?;
    for &statement in statements {
        numbers.push(statement as u64)?;
    }
    Ok(List::new(numbers))
}
