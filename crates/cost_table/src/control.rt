//! Control and places: branches, jumps, and where values are kept.

ghost use Rattle.std.specs.Prelude.{◌≡◌, ◌<◌, ◌≤◌, ◌^◌};
ghost use Rattle.libfunc_registry.specs.Fam.{fam_of};
ghost use Rattle.libfunc_registry.specs.Wanted.{IsPlaced};
ghost use Rattle.cost_table.specs.Control as rows;
ghost use Rattle.cost_table.specs.Costs as costs;
ghost use Rattle.cost_table.specs.Groups.{if_control};
ghost use Rattle.cost_table.specs.Parts.{ArePartsOf};

use crate::part::{Part, Parts, kept, laid};
use crate::row::{FREE, Row, known};
use crate::sizes::size;
use cell_terms::{Slot, Term};
use libfunc_registry::Libfunc;
use type_table::Types;

/// The row of a libfunc of this group, for any branch.
pub(crate) fn control_row(types: &Types, libfunc: Libfunc) -> Option<Row>
    requires { IsPlaced types.now libfunc }
    ensures { result ≡ if_control rows.control_row (fam_of types.now libfunc) }
{
    match libfunc {
        Libfunc::BranchAlign => Some(FREE),
        Libfunc::Jump => Some(known(1, 0, 0)),
        Libfunc::Rename(_) => Some(FREE),
        Libfunc::Dup(_) => Some(FREE),
        Libfunc::Drop(_) => Some(FREE),
        Libfunc::StoreTemp(t) => Some(known(size(types, t), 0, size(types, t))),
        Libfunc::StoreLocal(t) => Some(known(size(types, t), 0, 0)),
        Libfunc::AllocLocal(_) => Some(FREE),
        Libfunc::FinalizeLocals => Some(known(1, 0, 0)),
        Libfunc::DisableApTracking => Some(FREE),
        Libfunc::EnableApTracking => Some(FREE),
        _ => None,
    }
}

/// The holes of any branch of a libfunc; those of another group have none.
pub(crate) fn holes(types: &Types, libfunc: Libfunc) -> u32
    requires { IsPlaced types.now libfunc }
    ensures { result ≡ costs.holes (fam_of types.now libfunc) }
{
    match libfunc {
        Libfunc::AllocLocal(t) => size(types, t),
        _ => 0,
    }
}

/// The terms of the results of a libfunc of this group. The amount of `alloc_local` is the offset from fp.
pub(crate) fn control_parts(types: &Types, libfunc: Libfunc, amount: u64) -> Option<Parts>
    requires placed { IsPlaced types.now libfunc }
    requires small { amount < 2 ^ 40 }
    ensures { ArePartsOf (if_control (rows.control_terms amount) (fam_of types.now libfunc)) result }
{
    match libfunc {
        Libfunc::BranchAlign => Some(Parts::Nothing),
        Libfunc::Jump => Some(Parts::Nothing),
        Libfunc::Rename(t) => Some(Parts::Single(kept(0, size(types, t)))),
        Libfunc::Dup(t) => Some(Parts::Double(kept(0, size(types, t)), kept(0, size(types, t)))),
        Libfunc::Drop(_) => Some(Parts::Nothing),
        Libfunc::StoreTemp(t) => Some(Parts::Single(laid(u64::from(size(types, t))))),
        Libfunc::StoreLocal(t) => Some(Parts::Single(kept(0, size(types, t)))),
        Libfunc::AllocLocal(t) => Some(Parts::Single(Part::Run(
            Term::Cell(Slot::Frame(amount)),
            u64::from(size(types, t)),
        ))),
        Libfunc::FinalizeLocals => Some(Parts::Nothing),
        Libfunc::DisableApTracking => Some(Parts::Nothing),
        Libfunc::EnableApTracking => Some(Parts::Nothing),
        _ => None,
    }
}
