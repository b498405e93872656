//! Dictionaries.

ghost use Rattle.std.specs.Prelude.{◌≡◌, ◌<◌, ◌≤◌, ◌^◌};
ghost use Rattle.type_table.specs.View.{TypesView};
ghost use Rattle.libfunc_registry.specs.Fam.{fam_of};
ghost use Rattle.cost_table.specs.Costs as costs;
ghost use Rattle.cost_table.specs.Dictionaries as rows;
ghost use Rattle.cost_table.specs.Groups.{if_dictionaries};
ghost use Rattle.cost_table.specs.Parts.{ArePartsOf};

use crate::part::{Parts, advanced, kept, laid, last, pointer, whole};
use crate::row::{FREE, Row, known, unknown};
use libfunc_registry::Libfunc;
use type_trees::Num;

/// The row of a libfunc of this group, for any branch.
pub(crate) fn dictionaries_row(libfunc: Libfunc) -> Option<Row>
    ensures { (types : TypesView) → result ≡ if_dictionaries rows.dictionaries_row (fam_of types libfunc) }
{
    match libfunc {
        Libfunc::DictNew(_) => Some(known(1, 0, 1)),
        Libfunc::DictEntryGet(Num::Felt64) => Some(known(3, 0, 1)),
        Libfunc::DictEntryGet(_) => Some(known(6, 2, 2)),
        Libfunc::DictEntryFinalize(_) => Some(known(1, 0, 0)),
        Libfunc::DictSquash(_) => Some(unknown(60, 5)),
        Libfunc::DictEntries(_) => Some(FREE),
        _ => None,
    }
}

/// The steps of the squash that any branch of a libfunc is charged ahead; those of another group are charged none.
pub(crate) fn share_steps(libfunc: Libfunc) -> u32
    ensures share { (types : TypesView) → result ≡ costs.share_steps (fam_of types libfunc) }
    ensures few { result ≤ 100 }
{
    match libfunc {
        Libfunc::DictEntryGet(_) => 100,
        _ => 0,
    }
}

/// The range checks of the squash that any branch of a libfunc is charged ahead.
pub(crate) fn share_checks(libfunc: Libfunc) -> u32
    ensures share { (types : TypesView) → result ≡ costs.share_checks (fam_of types libfunc) }
    ensures few { result ≤ 10 }
{
    match libfunc {
        Libfunc::DictEntryGet(_) => 10,
        _ => 0,
    }
}

/// The terms of the results of a libfunc of this group, which take so many cells.
pub(crate) fn dictionaries_parts(libfunc: Libfunc, row: Row, cells: u64) -> Option<Parts>
    requires { cells < 2 ^ 62 }
    ensures { (types : TypesView) → ArePartsOf (if_dictionaries (rows.dictionaries_terms row cells) (fam_of types libfunc)) result }
{
    match libfunc {
        Libfunc::DictNew(_) => Some(Parts::Double(last(row, 1), last(row, 1))),
        Libfunc::DictEntryGet(_) => Some(Parts::Triple(pointer(row), kept(1, 2), last(row, 1))),
        Libfunc::DictEntryFinalize(_) => Some(Parts::Double(whole(0), advanced(1, 3))),
        Libfunc::DictSquash(_) => Some(Parts::Single(laid(cells))),
        Libfunc::DictEntries(_) => Some(Parts::Double(whole(0), whole(1))),
        _ => None,
    }
}
