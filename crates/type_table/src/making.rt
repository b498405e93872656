//! The table of a program's types, or the first refusal.

ghost use Rattle.std.specs.Prelude.{◌≡◌, ◌≢◌, IfOk, IfErr};
ghost use Rattle.type_table.specs.Table.{HasTypes};
ghost use Rattle.type_table.specs.Refusals.{FirstFault};
ghost use Rattle.type_table.specs.Made.{AreTyped, FirstTypeFault};

use crate::fault::TypeFault;
use crate::faults::fault_of;
use crate::functions::functions_of;
use crate::judging::judge_all;
use crate::positions::Positions;
use crate::resolved::resolve;
use crate::row::Row;
use crate::rows::rows_of;
use crate::shapes::shapes_of;
use crate::types::Types;
use sierra_types::{Program, TypeDecl};
use std::alloc::Global;

/// Declared types of which none is refused.
#[derive(Debug, Drop)]
struct Typed {
    /// The id of each, with its position.
    positions: Positions,
    /// The row of each.
    rows: Vec<Row>,
}

/// The rows of declared types, or the first refusal.
fn types_of(alloc: Global, declarations: &[TypeDecl]) -> Result<Typed, TypeFault>
    ensures found { IfOk result (λ typed. AreTyped declarations.now typed.positions typed.rows.items) }
    ensures refused { IfErr result (λ fault. fault ≢ TypeFault.Memory → FirstTypeFault declarations.now fault) }
{
    let resolved = resolve(alloc, declarations)?;
    let judged = judge_all(alloc, declarations, &resolved)?;
    if let Some(broken) = judged.first {
        let declaration = &declarations[broken.position];
        return Err(fault_of(alloc, &resolved.positions, declaration, broken.rule));
    }
    let rows = rows_of(alloc, declarations, &judged.known, &resolved.graph)?;
    Ok(Typed {
        positions: resolved.positions,
        rows,
    })
}

/// The table of the program's types and functions, or the first refusal among types, ids of libfuncs and functions, in
/// time and memory linear in the program.
pub fn table(alloc: Global, program: &Program) -> Result<Types, TypeFault>
    ensures found { IfOk result (λ types. HasTypes program.now types) }
    ensures refused { IfErr result (λ fault. fault ≢ TypeFault.Memory → FirstFault program.now fault) }
{
    let typed = types_of(alloc, program.types.items())?;
    let functions = functions_of(alloc, program, &typed.positions, &typed.rows)?;
    let shapes = shapes_of(alloc, &typed.rows)?;
    Ok(Types::new(
        typed.positions,
        typed.rows,
        shapes,
        functions.ids,
        functions.signatures,
    ))
}
