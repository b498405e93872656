//! Calls and gas.

ghost use Rattle.std.specs.Prelude.{◌≡◌, ◌<◌, ◌^◌};
ghost use Rattle.type_table.specs.View.{TypesView};
ghost use Rattle.libfunc_registry.specs.Fam.{fam_of};
ghost use Rattle.cost_table.specs.Gas as rows;
ghost use Rattle.cost_table.specs.Groups.{if_gas};
ghost use Rattle.cost_table.specs.Parts.{ArePartsOf};

use crate::part::{Parts, laid, last, pointer, whole};
use crate::row::{Row, by_branch, known, unknown};
use libfunc_registry::Libfunc;

/// The row of a branch of a libfunc of this group.
pub(crate) fn gas_row(libfunc: Libfunc, branch: usize) -> Option<Row>
    ensures { (types : TypesView) → result ≡ if_gas (λ fam. rows.gas_row fam branch) (fam_of types libfunc) }
{
    match libfunc {
        Libfunc::FunctionCall(_) => Some(unknown(1, 0)),
        Libfunc::WithdrawGas => Some(by_branch(branch, known(5, 1, 4), known(7, 1, 4))),
        _ => None,
    }
}

/// The terms of the results of a branch of a libfunc of this group, which take so many cells.
pub(crate) fn gas_parts(libfunc: Libfunc, row: Row, cells: u64, branch: usize) -> Option<Parts>
    requires { cells < 2 ^ 62 }
    ensures { (types : TypesView) → ArePartsOf (if_gas (λ fam. rows.gas_terms row cells fam branch) (fam_of types libfunc)) result }
{
    match libfunc {
        Libfunc::FunctionCall(_) => Some(Parts::Single(laid(cells))),
        Libfunc::WithdrawGas => Some(by_branch(
            branch,
            Parts::Double(pointer(row), last(row, 1)),
            Parts::Double(pointer(row), whole(1)),
        )),
        _ => None,
    }
}
