//! What of each statement can be known before the run: which signature it has, and whether it leaves all values as they are.

ghost use Rattle.std.specs.Prelude.{◌≡◌, map, slice_get, IfOk};
ghost use Rattle.std.specs.Option.{option_and_then, option_copied};
ghost use Rattle.type_table.specs.Lookups.{found};
ghost use Rattle.sierra_meaning.specs.Idle.{AreIdle, few_alike, gives_back, idle_branch, idle_in};
ghost use Rattle.sierra_meaning.specs.Turns.{AreResolved, position_in};

use gas_solver::Accepted;
use libfunc_registry::{Libfunc, Sig};
use sierra_types::{Branch, Statement, Target};
use std::alloc::{AllocError, Global};
use type_table::{Positions, libfunc_positions};

/// The position of the signature of each statement that invokes a libfunc, and where each statement leads that leaves all
/// values as they are, in time linear in the program.
pub(crate) fn resolve(
    alloc: Global,
    accepted: &Accepted,
) -> Result<(Vec<usize>, Vec<Option<Target>>), AllocError>
    ensures resolved { IfOk result (λ r. AreResolved accepted.now r.0.items) }
    ensures idle { IfOk result (λ r. AreIdle accepted.now r.1.items) }
{
    let program = accepted.program();
    let declared = libfunc_positions(alloc, program.libfuncs.items())?;
    let positions = positions_of(alloc, &declared, program.statements.items())?;
    let idle = idle_of(
        alloc,
        &declared,
        accepted.sigs(),
        program.statements.items(),
    )?;
    Ok((positions, idle))
}

/// The position of each statement's libfunc.
fn positions_of(
    alloc: Global,
    declared: &Positions,
    statements: &[Statement],
) -> Result<Vec<usize>, AllocError>
    ensures { IfOk result (λ positions. positions.items ≡ map (position_in declared.now) statements.now) }
{
    let mut positions = Vec::with_capacity(alloc, statements.len())?;
    for statement in statements {
        positions.push(position_of(declared, statement))?;
    }
    Ok(positions)
}

/// The position of the statement's libfunc, and 0 of a return, which has none.
fn position_of(declared: &Positions, statement: &Statement) -> usize
    ensures { result ≡ position_in declared.now statement.now }
{
    match statement {
        Statement::Invoke { libfunc, .. } => declared.find(libfunc.bytes()).unwrap_or(0),
        Statement::Return { .. } => 0,
    }
}

/// Where each statement leads that leaves all values as they are.
fn idle_of(
    alloc: Global,
    declared: &Positions,
    sigs: &[Sig],
    statements: &[Statement],
) -> Result<Vec<Option<Target>>, AllocError>
    ensures { IfOk result (λ idle. idle.items ≡ map (idle_in declared.now sigs.now) statements.now) }
{
    let mut idle = Vec::with_capacity(alloc, statements.len())?;
    for statement in statements {
        idle.push(target_if_idle(declared, sigs, statement))?;
    }
    Ok(idle)
}

/// Where a statement leads, if it leaves all values as they are.
fn target_if_idle(declared: &Positions, sigs: &[Sig], statement: &Statement) -> Option<Target>
    ensures { result ≡ idle_in declared.now sigs.now statement.now }
{
    let Statement::Invoke {
        libfunc,
        args,
        branches,
    } = statement
    else {
        return None;
    };
    let sig = sig_of(declared, sigs, libfunc.bytes())?;
    if hands_back(sig.libfunc) {
        only_target(args.items(), branches.items())
    } else {
        None
    }
}

/// The signature of the libfunc of this id.
fn sig_of<'a>(declared: &Positions, sigs: &'a [Sig], id: &[u8]) -> Option<&'a Sig>
    ensures { option_copied result ≡ option_and_then (slice_get sigs.now) (found declared.now id.now) }
{
    sigs.get(declared.find(id)?)
}

/// Whether it has one branch, whose results are its arguments.
fn hands_back(libfunc: Libfunc) -> bool
    ensures { result ≡ gives_back libfunc }
{
    match libfunc {
        Libfunc::BranchAlign | Libfunc::Jump | Libfunc::Rename(_) | Libfunc::StoreTemp(_) => true,
        Libfunc::FinalizeLocals | Libfunc::DisableApTracking | Libfunc::EnableApTracking => true,
        Libfunc::UnwrapNonZero(_) => true,
        _ => false,
    }
}

/// Where the one branch leads, if the variables that it gives are those that are taken.
fn only_target(args: &[u64], branches: &[Branch]) -> Option<Target>
    ensures { result ≡ idle_branch args.now branches.now }
{
    let [branch] = branches else {
        return None;
    };
    if are_few_alike(args, branch.results.items()) {
        Some(branch.target)
    } else {
        None
    }
}

/// Whether both have none, or one and the same.
fn are_few_alike(args: &[u64], results: &[u64]) -> bool
    ensures { result ≡ few_alike args.now results.now }
{
    match (args, results) {
        ([], []) => true,
        ([arg], [result]) => *arg == *result,
        _ => false,
    }
}
