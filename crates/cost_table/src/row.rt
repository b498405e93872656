//! Rows of the table.

ghost use Rattle.std.specs.Prelude.{◌≡◌, ◌<◌, ◌≤◌, ◌^◌, length};
ghost use Rattle.libfunc_registry.specs.Fam.{fam_of};
ghost use Rattle.libfunc_registry.specs.Wanted.{IsPlaced};
ghost use Rattle.cost_table.specs.Rows as rows;
ghost use Rattle.cost_table.specs.Costs as costs;

use crate::arrays::arrays_row;
use crate::control::control_row;
use crate::costs::ApChange;
use crate::data::data_row;
use crate::dictionaries::dictionaries_row;
use crate::felts::felts_row;
use crate::gas::gas_row;
use crate::integers::integers_row;
use libfunc_registry::Libfunc;
use type_table::Types;

/// What a branch takes, apart from holes and from its share of what comes later.
#[derive(Clone, Copy, Debug, Drop)]
pub(crate) struct Row {
    /// Steps.
    pub steps: u32,
    /// Range checks.
    pub checks: u32,
    /// How far ap moves.
    pub ap: ApChange,
}

/// A branch that takes nothing.
pub(crate) const FREE: Row = Row {
    steps: 0,
    checks: 0,
    ap: ApChange::Known(0),
};

/// So many steps and range checks, and ap moves by so many cells.
pub(crate) fn known(steps: u32, checks: u32, change: u32) -> Row
    ensures { result ≡ rows.row steps checks change }
{
    Row {
        steps,
        checks,
        ap: ApChange::Known(change),
    }
}

/// So many steps and range checks, and nobody knows how far ap moves.
pub(crate) fn unknown(steps: u32, checks: u32) -> Row
    ensures { result ≡ rows.row_unknown steps checks }
{
    Row {
        steps,
        checks,
        ap: ApChange::Unknown,
    }
}

/// What is said of branch 0, or of branch 1, of a libfunc with two branches.
pub(crate) fn by_branch<T: Drop>(branch: usize, first: T, second: T) -> T
    ensures { result ≡ rows.by_branch branch first second }
{
    if branch == 0 { first } else { second }
}

/// The row of a branch, by its number from 0.
pub(crate) fn row_of(types: &Types, libfunc: Libfunc, branch: usize) -> Row
    requires { IsPlaced types.now libfunc }
    ensures { result ≡ costs.row_of (fam_of types.now libfunc) branch }
{
    if let Some(row) = control_row(types, libfunc) {
        return row;
    }
    if let Some(row) = gas_row(libfunc, branch) {
        return row;
    }
    if let Some(row) = felts_row(libfunc) {
        return row;
    }
    if let Some(row) = integers_row(libfunc, branch) {
        return row;
    }
    if let Some(row) = data_row(types, libfunc, branch) {
        return row;
    }
    if let Some(row) = arrays_row(types, libfunc, branch) {
        return row;
    }
    dictionaries_row(libfunc).unwrap()
}
