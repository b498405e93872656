//! The places of a program.

ghost use Rattle.std.specs.Prelude.{◌≢◌, ◌≡◌, ◌<◌, IfOk, IfErr};
ghost use Rattle.std.specs.List.{All};
ghost use Rattle.type_table.specs.View.{trees_of, IsTable};
ghost use Rattle.libfunc_registry.specs.Wanted.{IsBelow};
ghost use Rattle.cost_table.specs.Results.{cells_of};
ghost use Rattle.ap_refs.specs.Bounds.{HasFewCells, most_cells};
ghost use Rattle.ap_refs.specs.FirstFault.{FirstFault};
ghost use Rattle.ap_refs.specs.Placed.{Placed};
ghost use Rattle.ap_refs.specs.Prepared.{IsTypedProgram};

use crate::fault::RefFault;
use crate::listed::Places;
use crate::placing::Placing;
use cost_table::cells_of;
use libfunc_registry::Sig;
use linear_check::Envs;
use sierra_types::Program;
use statement_walk::{WalkFault, run};
use std::alloc::{AllocError, Global};
use type_table::{TypeId, Types, libfunc_positions};

/// Gives each statement what is known there: the expressions of its variables' cells, how far ap is from where it was at the
/// function's begin, and the local state; or names the first fault.
///
/// `types` is the program's table, `sigs` the signatures of its declared libfuncs, in order, and `envs` what the linear check
/// gave; the program has at most `2^20` statements. Each statement is visited once; beside the cells of what is held the work
/// is near-linear in the program.
pub fn places(
    alloc: Global,
    program: &Program,
    types: &Types,
    sigs: &[Sig],
    envs: &Envs,
) -> Result<Places, RefFault>
    requires { IsTypedProgram program.now types.now sigs.now envs.now }
    ensures placed { IfOk result (Placed program.now types.now sigs.now) }
    ensures refused { IfErr result (λ fault. fault ≢ RefFault.Memory → FirstFault program.now types.now sigs.now fault) }
{
    let libfuncs = libfunc_positions(alloc, program.libfuncs.items())?;
    check_functions(types)?;
    let rules = Placing {
        alloc,
        program,
        types,
        sigs,
        libfuncs,
    };
    match run(alloc, &rules) {
        Ok(list) => Ok(Places::new(list)),
        Err(WalkFault::Rule(fault)) => Err(fault),
        Err(WalkFault::Memory) => Err(RefFault::Memory),
    }
}

/// Passes where no function has more cells of parameters or of results than can be stored.
fn check_functions(types: &Types) -> Result<(), AllocError>
    ensures { IfOk result (λ _. HasFewCells types.now) }
{
    let _count = types.len();
    for f in 0..types.function_count() {
        check_cells(types, types.params(f))?;
        check_cells(types, types.results(f))?;
    }
    Ok(())
}

/// Passes where values of these types together have no more cells than can be stored.
fn check_cells(types: &Types, list: &[TypeId]) -> Result<(), AllocError>
    requires { All (IsBelow types.now) list.now }
    ensures { IfOk result (λ _. cells_of (trees_of types.now list.now) < most_cells) }
{
    match cells_of(types, list) {
        Some(_) => Ok(()),
        None => Err(AllocError),
    }
}
