//! The linear check of a program.

ghost use Rattle.std.specs.Prelude.{◌≢◌, IfOk, IfErr};
ghost use Rattle.type_table.specs.Table.{HasTypes};
ghost use Rattle.linear_check.specs.Typed.{Typed};
ghost use Rattle.linear_check.specs.FirstFault.{FirstFault};

use crate::envs::Envs;
use crate::fault::LinearFault;
use crate::linear::Linear;
use crate::predecessors::count_predecessors;
use libfunc_registry::Sig;
use sierra_types::Program;
use statement_walk::{WalkFault, run};
use std::alloc::Global;
use type_table::{Types, libfunc_positions};

/// Gives each statement its function and its typed variables, or names the first fault.
///
/// `types` is the program's table, and `sigs` the signatures of its declared libfuncs, in order. Each statement is visited
/// once; beside what is held the work is near-linear in the program.
pub fn annotate(
    alloc: Global,
    program: &Program,
    types: &Types,
    sigs: &[Sig],
) -> Result<Envs, LinearFault>
    requires { HasTypes program.now types.now }
    ensures typed { IfOk result (Typed program.now types.now sigs.now) }
    ensures refused { IfErr result (λ fault. fault ≢ LinearFault.Memory → FirstFault program.now types.now sigs.now fault) }
{
    let libfuncs = libfunc_positions(alloc, program.libfuncs.items())?;
    let predecessors = count_predecessors(alloc, program)?;
    let rules = Linear {
        alloc,
        program,
        types,
        sigs,
        libfuncs,
        predecessors,
    };
    match run(alloc, &rules) {
        Ok(list) => Ok(Envs::new(list)),
        Err(WalkFault::Rule(fault)) => Err(fault),
        Err(WalkFault::Memory) => Err(LinearFault::Memory),
    }
}
