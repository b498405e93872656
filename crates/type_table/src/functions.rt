//! The functions of a program whose types pass.
//!
//! Positions and rows of its types come in; the ids of its functions and their signatures go out, or the first refusal
//! among the ids of libfuncs and the functions. The table calls it behind the types.

ghost use Rattle.std.specs.Prelude.{◌≢◌, IfOk, IfErr, OnOk};
ghost use Rattle.type_table.specs.Functions.{HasRows, HasFunctions, FirstBehindTypes, LibfuncsDiffer, HasRepeatedLibfunc};

use crate::fault::TypeFault;
use crate::named::all_ids;
use crate::positions::Positions;
use crate::row::{Row, Signature};
use crate::signatures::signature_of;
use sierra_types::{LibfuncDecl, Name, Program};
use std::alloc::{AllocError, Global};

/// The functions of a program, in declared order.
#[derive(Debug, Drop)]
pub(crate) struct Functions {
    /// The id of each, with its position.
    pub ids: Positions,
    /// The signature of each.
    pub signatures: Vec<Signature>,
}

/// Refuses the first libfunc whose id is declared before it.
fn check_libfuncs(alloc: Global, libfuncs: &[LibfuncDecl]) -> Result<(), TypeFault>
    ensures once { OnOk result (LibfuncsDiffer libfuncs.now) }
    ensures refused { IfErr result (λ fault. fault ≢ TypeFault.Memory → HasRepeatedLibfunc libfuncs.now fault) }
{
    let ids = all_ids(alloc, libfuncs)?;
    for (i, libfunc) in libfuncs.iter().enumerate() {
        if ids.repeated[i] {
            return Err(TypeFault::Duplicate(Name::new(alloc, libfunc.id.bytes())?));
        }
    }
    Ok(())
}

/// The functions of the program, whose types have these positions and rows, or the first refusal among its libfuncs and
/// functions, in time and memory linear in these.
pub(crate) fn functions_of(
    alloc: Global,
    program: &Program,
    positions: &Positions,
    rows: &[Row],
) -> Result<Functions, TypeFault>
    requires { HasRows program.now positions.now rows.now }
    ensures found { IfOk result (λ functions. HasFunctions program.now functions.ids functions.signatures.items) }
    ensures refused { IfErr result (λ fault. fault ≢ TypeFault.Memory → FirstBehindTypes program.now fault) }
{
    check_libfuncs(alloc, program.libfuncs.items())?;
    let functions = program.functions.items();
    let mut ids = Positions::new(alloc);
    let mut signatures = Vec::with_capacity(alloc, functions.len())?;
    for (i, function) in functions.iter().enumerate() {
        let signature = signature_of(alloc, positions, rows, &ids, function)?;
        ids.add(alloc, function.id.bytes(), i)?;
        signatures.push(signature).map_err(AllocError::from)?;
    }
    Ok(Functions { ids, signatures })
}
