//! Gas.

ghost use Rattle.std.specs.Prelude.{[], ◌∷◌, map, IfOk};
ghost use Rattle.type_trees.specs.Ty.{range_check, gas_builtin};
ghost use Rattle.libfunc_registry.specs.Gas as registry;
ghost use Rattle.value_trees.specs.Meant.{meant};
ghost use Rattle.libfunc_meaning.specs.Gas.{gas_does};
ghost use Rattle.libfunc_meaning.specs.Placed.{ArePlain, IsAnswer};

use crate::taking::{behind, gas_at};
use std::alloc::AllocError;
use value_trees::Value;

/// The gas less the amount, where it is enough; else the gas as it is.
pub(crate) fn withdraw(values: Vec<Value>, amount: u64) -> Result<(usize, Vec<Value>), AllocError>
    requires { ArePlain (range_check ∷ gas_builtin ∷ []) (map meant values.items) }
    ensures { IfOk result (IsAnswer (gas_does registry.withdraw_gas (map meant values.items) amount)) }
{
    let left = gas_at(&values, 1);
    if amount <= left {
        Ok((0, behind(values, 1, Value::Gas(left - amount))?))
    } else {
        Ok((1, values))
    }
}
