//! Control and places, where values don't pass through as they are.

ghost use Rattle.std.specs.Prelude.{[], ◌∷◌, map, IfOk};
ghost use Rattle.type_trees.specs.Ty.{Ty};
ghost use Rattle.value_trees.specs.Meant.{meant};
ghost use Rattle.value_trees.specs.Val as val;
ghost use Rattle.libfunc_meaning.specs.Answers.{gives, of_none, of_one, of_two};
ghost use Rattle.libfunc_meaning.specs.Placed.{ArePlain, IsAnswer};

use crate::taking::{behind, front, take_last};
use std::alloc::{AllocError, Global};
use value_trees::Value;

/// The value twice.
pub(crate) fn copied(alloc: Global, values: Vec<Value>) -> Result<(usize, Vec<Value>), AllocError>
    requires { (ty : Ty) × ArePlain (ty ∷ []) (map meant values.items) }
    ensures { IfOk result (IsAnswer (of_one (map meant values.items) (λ v. gives (v ∷ v ∷ [])))) }
{
    let copy = values[0].copy(alloc)?;
    Ok((0, behind(values, 1, copy)?))
}

/// No value.
pub(crate) fn dropped(values: Vec<Value>) -> (usize, Vec<Value>)
    requires { (ty : Ty) × ArePlain (ty ∷ []) (map meant values.items) }
    ensures { IsAnswer (of_one (map meant values.items) (λ v. gives [])) result }
{
    (0, front(values, 0))
}

/// The second value, which is put into the place that the first one is.
pub(crate) fn stored(values: Vec<Value>) -> Result<(usize, Vec<Value>), AllocError>
    requires { (local : Ty) × (ty : Ty) × ArePlain (local ∷ ty ∷ []) (map meant values.items) }
    ensures { IfOk result (IsAnswer (of_two (map meant values.items) (λ local v. gives (v ∷ [])))) }
{
    let mut values = values;
    let value = take_last(&mut values);
    Ok((0, behind(values, 0, value)?))
}

/// What is uninitialized.
pub(crate) fn uninitialized(values: Vec<Value>) -> Result<(usize, Vec<Value>), AllocError>
    requires { ArePlain [] (map meant values.items) }
    ensures { IfOk result (IsAnswer (of_none (map meant values.items) (gives (val.empty ∷ [])))) }
{
    Ok((0, behind(values, 0, Value::Empty)?))
}
