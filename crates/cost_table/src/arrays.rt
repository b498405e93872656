//! Arrays.

ghost use Rattle.std.specs.Prelude.{◌≡◌};
ghost use Rattle.libfunc_registry.specs.Fam.{fam_of};
ghost use Rattle.libfunc_registry.specs.Wanted.{IsPlaced};
ghost use Rattle.cost_table.specs.Arrays as rows;
ghost use Rattle.cost_table.specs.Groups.{if_arrays};
ghost use Rattle.cost_table.specs.Parts.{ArePartsOf};

use crate::part::{Parts, advanced, last, pointer, whole};
use crate::row::{Row, by_branch, known};
use crate::sizes::size;
use libfunc_registry::Libfunc;
use type_table::Types;

/// The row of a branch of a libfunc of this group.
pub(crate) fn arrays_row(types: &Types, libfunc: Libfunc, branch: usize) -> Option<Row>
    requires { IsPlaced types.now libfunc }
    ensures { result ≡ if_arrays (λ fam. rows.arrays_row fam branch) (fam_of types.now libfunc) }
{
    match libfunc {
        Libfunc::ArrayNew(_) => Some(known(1, 0, 1)),
        Libfunc::ArrayAppend(t) => Some(known(size(types, t), 0, 0)),
        Libfunc::ArrayLen(_) => Some(known(3, 0, 2)),
        Libfunc::ArrayGet(_) => Some(by_branch(branch, known(10, 1, 7), known(7, 1, 7))),
        Libfunc::ArrayPopFront(_) => Some(known(3, 0, 1)),
        _ => None,
    }
}

/// The terms of the results of a branch of a libfunc of this group.
pub(crate) fn arrays_parts(
    types: &Types,
    libfunc: Libfunc,
    row: Row,
    branch: usize,
) -> Option<Parts>
    requires { IsPlaced types.now libfunc }
    ensures { ArePartsOf (if_arrays (λ fam. rows.arrays_terms row fam branch) (fam_of types.now libfunc)) result }
{
    match libfunc {
        Libfunc::ArrayNew(_) => Some(Parts::Double(last(row, 1), last(row, 1))),
        Libfunc::ArrayAppend(t) => Some(Parts::Double(whole(0), advanced(1, size(types, t)))),
        Libfunc::ArrayLen(_) => Some(Parts::Single(last(row, 1))),
        Libfunc::ArrayGet(_) => Some(by_branch(
            branch,
            Parts::Double(pointer(row), last(row, 1)),
            Parts::Single(pointer(row)),
        )),
        Libfunc::ArrayPopFront(t) => Some(by_branch(
            branch,
            Parts::Triple(advanced(0, size(types, t)), whole(1), whole(0)),
            Parts::Double(whole(0), whole(1)),
        )),
        _ => None,
    }
}
