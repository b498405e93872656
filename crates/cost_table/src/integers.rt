//! Integers of 8, 16 and 32 bits.

ghost use Rattle.std.specs.Prelude.{◌≡◌};
ghost use Rattle.type_table.specs.View.{TypesView};
ghost use Rattle.libfunc_registry.specs.Fam.{fam_of};
ghost use Rattle.cost_table.specs.Integers as rows;
ghost use Rattle.cost_table.specs.Rows.{by_branch};
ghost use Rattle.cost_table.specs.Terms as terms;
ghost use Rattle.cost_table.specs.Groups.{if_integers};
ghost use Rattle.cost_table.specs.Parts.{ArePartsOf};

use crate::part::{Part, Parts, last, operand, pointer, whole};
use crate::row::{FREE, Row, by_branch, known};
use casm_word::CellExpr;
use cell_terms::{Slot, Term};
use libfunc_registry::Libfunc;

/// The row of a branch of a libfunc of this group.
pub(crate) fn integers_row(libfunc: Libfunc, branch: usize) -> Option<Row>
    ensures { (types : TypesView) → result ≡ if_integers (λ fam. rows.integers_row fam branch) (fam_of types libfunc) }
{
    match libfunc {
        Libfunc::ToFelt(_) => Some(FREE),
        Libfunc::TryFromFelt(_) => Some(by_branch(branch, known(6, 2, 6), known(12, 3, 6))),
        Libfunc::OverflowingAdd(_) => Some(known(6, 1, 3)),
        Libfunc::OverflowingSub(_) => Some(by_branch(branch, known(5, 1, 5), known(8, 1, 5))),
        Libfunc::WideMul(_) => Some(FREE),
        Libfunc::SplitMul => Some(known(8, 3, 5)),
        Libfunc::SafeDivmod(_) => Some(known(8, 3, 5)),
        Libfunc::WidthEq(_) => Some(known(3, 0, 1)),
        Libfunc::Upcast(_, _) => Some(FREE),
        Libfunc::Downcast(_, _) => Some(known(5, 1, 2)),
        _ => None,
    }
}

/// The terms of the results of a branch of a libfunc of this group, over the expressions of the arguments.
pub(crate) fn integers_parts(
    libfunc: Libfunc,
    row: Row,
    args: &[CellExpr],
    branch: usize,
) -> Option<Parts>
    ensures { (types : TypesView) → ArePartsOf (if_integers (λ fam. rows.integers_terms row args.now fam branch) (fam_of types libfunc)) result }
{
    match libfunc {
        Libfunc::ToFelt(_) => Some(Parts::Single(whole(0))),
        Libfunc::TryFromFelt(_) => Some(if_fits(row, branch)),
        Libfunc::OverflowingAdd(_) => Some(Parts::Double(pointer(row), last(row, 1))),
        Libfunc::OverflowingSub(_) => Some(Parts::Double(pointer(row), last(row, 1))),
        Libfunc::WideMul(_) => {
            let product = Term::Mul(Slot::Arg(0), operand(args, 1));
            Some(Parts::Single(Part::One(product)))
        }
        Libfunc::SplitMul => Some(Parts::Triple(pointer(row), last(row, 2), last(row, 1))),
        Libfunc::SafeDivmod(_) => Some(Parts::Triple(pointer(row), last(row, 2), last(row, 1))),
        Libfunc::WidthEq(_) => Some(Parts::Nothing),
        Libfunc::Upcast(_, _) => Some(Parts::Single(whole(0))),
        Libfunc::Downcast(_, _) => Some(if_fits(row, branch)),
        _ => None,
    }
}

/// The pointer, and in branch 0 the number as it is.
fn if_fits(row: Row, branch: usize) -> Parts
    ensures { result ≡ by_branch branch (Parts.Double (Part.One (terms.pointer row)) (Part.One (terms.whole 1))) (Parts.Single (Part.One (terms.pointer row))) }
{
    by_branch(
        branch,
        Parts::Double(pointer(row), whole(1)),
        Parts::Single(pointer(row)),
    )
}
