//! Felts and constants.

ghost use Rattle.std.specs.Prelude.{◌<◌, [], ◌∷◌, map, IfOk};
ghost use Rattle.type_trees.specs.Ty.{number};
ghost use Rattle.libfunc_registry.specs.Felts as registry;
ghost use Rattle.value_trees.specs.Meant.{meant};
ghost use Rattle.value_trees.specs.Of.{bound};
ghost use Rattle.libfunc_meaning.specs.Felts.{felts_does};
ghost use Rattle.libfunc_meaning.specs.Placed.{ArePlain, IsAnswer};

use crate::taking::{behind, front, number_at};
use felt64::{Felt, MODULUS};
use std::alloc::AllocError;
use type_trees::Num;
use value_trees::Value;

/// The constant.
pub(crate) fn constant(
    values: Vec<Value>,
    num: Num,
    word: u64,
) -> Result<(usize, Vec<Value>), AllocError>
    requires none { ArePlain [] (map meant values.items) }
    requires below { word < bound num }
    ensures { IfOk result (IsAnswer (felts_does (registry.const num word) (map meant values.items))) }
{
    Ok((0, behind(values, 0, Value::from_number(num, word))?))
}

/// The sum.
pub(crate) fn sum(values: Vec<Value>) -> Result<(usize, Vec<Value>), AllocError>
    requires { ArePlain (registry.felt ∷ registry.felt ∷ []) (map meant values.items) }
    ensures { IfOk result (IsAnswer (felts_does registry.felt64_add (map meant values.items))) }
{
    let a = u128::from(number_at(&values, 0));
    let b = u128::from(number_at(&values, 1));
    Ok((0, behind(values, 0, Value::Felt(Felt::reduce(a + b)))?))
}

/// The difference.
pub(crate) fn difference(values: Vec<Value>) -> Result<(usize, Vec<Value>), AllocError>
    requires { ArePlain (registry.felt ∷ registry.felt ∷ []) (map meant values.items) }
    ensures { IfOk result (IsAnswer (felts_does registry.felt64_sub (map meant values.items))) }
{
    let a = u128::from(number_at(&values, 0));
    let negative = u128::from(MODULUS - number_at(&values, 1));
    Ok((
        0,
        behind(values, 0, Value::Felt(Felt::reduce(a + negative)))?,
    ))
}

/// The product.
pub(crate) fn product(values: Vec<Value>) -> Result<(usize, Vec<Value>), AllocError>
    requires { ArePlain (registry.felt ∷ registry.felt ∷ []) (map meant values.items) }
    ensures { IfOk result (IsAnswer (felts_does registry.felt64_mul (map meant values.items))) }
{
    let a = u128::from(number_at(&values, 0));
    let b = u128::from(number_at(&values, 1));
    Ok((0, behind(values, 0, Value::Felt(Felt::reduce(a * b)))?))
}

/// Nothing where the number is 0; else the number.
pub(crate) fn tested(values: Vec<Value>, num: Num) -> (usize, Vec<Value>)
    requires { ArePlain (number num ∷ []) (map meant values.items) }
    ensures { IsAnswer (felts_does (registry.is_zero num) (map meant values.items)) result }
{
    if number_at(&values, 0) == 0 {
        (0, front(values, 0))
    } else {
        (1, values)
    }
}
