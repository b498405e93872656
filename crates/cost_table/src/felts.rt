//! Felts and constants.

ghost use Rattle.std.specs.Prelude.{◌≡◌};
ghost use Rattle.type_table.specs.View.{TypesView};
ghost use Rattle.libfunc_registry.specs.Fam.{fam_of};
ghost use Rattle.cost_table.specs.Felts as rows;
ghost use Rattle.cost_table.specs.Groups.{if_felts};
ghost use Rattle.cost_table.specs.Parts.{ArePartsOf};

use crate::part::{Part, Parts, operand, whole};
use crate::row::{FREE, Row, by_branch, known};
use casm_word::CellExpr;
use cell_terms::{Slot, Term};
use libfunc_registry::Libfunc;

/// The row of a libfunc of this group, for any branch.
pub(crate) fn felts_row(libfunc: Libfunc) -> Option<Row>
    ensures { (types : TypesView) → result ≡ if_felts rows.felts_row (fam_of types libfunc) }
{
    match libfunc {
        Libfunc::Const(_, _) => Some(FREE),
        Libfunc::FeltAdd => Some(FREE),
        Libfunc::FeltSub => Some(FREE),
        Libfunc::FeltMul => Some(FREE),
        Libfunc::IsZero(_) => Some(known(2, 0, 0)),
        Libfunc::UnwrapNonZero(_) => Some(FREE),
        _ => None,
    }
}

/// The terms of the results of a branch of a libfunc of this group, over the expressions of the arguments.
pub(crate) fn felts_parts(libfunc: Libfunc, args: &[CellExpr], branch: usize) -> Option<Parts>
    ensures { (types : TypesView) → ArePartsOf (if_felts (λ fam. rows.felts_terms args.now fam branch) (fam_of types libfunc)) result }
{
    let left = Slot::Arg(0);
    match libfunc {
        Libfunc::Const(_, word) => Some(Parts::Single(Part::One(Term::Word(word)))),
        Libfunc::FeltAdd => Some(Parts::Single(Part::One(Term::Add(left, operand(args, 1))))),
        Libfunc::FeltSub => Some(Parts::Single(Part::One(Term::Sub(left, operand(args, 1))))),
        Libfunc::FeltMul => Some(Parts::Single(Part::One(Term::Mul(left, operand(args, 1))))),
        Libfunc::IsZero(_) => Some(by_branch(branch, Parts::Nothing, Parts::Single(whole(0)))),
        Libfunc::UnwrapNonZero(_) => Some(Parts::Single(whole(0))),
        _ => None,
    }
}
