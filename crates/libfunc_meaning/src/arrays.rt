//! Arrays.

ghost use Rattle.std.specs.Prelude.{[], ◌∷◌, map, IfOk};
ghost use Rattle.type_trees.specs.Ty.{Ty, array};
ghost use Rattle.libfunc_registry.specs.Arrays as registry;
ghost use Rattle.value_trees.specs.Meant.{meant};
ghost use Rattle.libfunc_meaning.specs.Arrays.{arrays_does};
ghost use Rattle.libfunc_meaning.specs.Proper.{IsCountedArrays};
ghost use Rattle.libfunc_meaning.specs.Placed.{ArePlain, IsAnswer};

use crate::taking::{behind, front, number_at, take_last};
use std::alloc::{AllocError, Global};
use std::collections::VecDeque;
use type_trees::Num;
use value_trees::{Value, append, element, pop_first};

/// The empty array.
pub(crate) fn array_new(
    alloc: Global,
    values: Vec<Value>,
) -> Result<(usize, Vec<Value>), AllocError>
    requires { ArePlain [] (map meant values.items) }
    ensures { (ty : Ty) → IfOk result (IsAnswer (arrays_does (registry.array_new ty) (map meant values.items))) }
{
    let made = Value::from_elements(alloc, VecDeque::new(alloc))?;
    Ok((0, behind(values, 0, made)?))
}

/// The array with one more element behind.
pub(crate) fn array_append(
    alloc: Global,
    values: Vec<Value>,
) -> Result<(usize, Vec<Value>), AllocError>
    requires { (ty : Ty) × ArePlain (array ty ∷ ty ∷ []) (map meant values.items) }
    ensures { (ty : Ty) → IfOk result (IsAnswer (arrays_does (registry.array_append ty) (map meant values.items))) }
{
    let mut values = values;
    let last = take_last(&mut values);
    let elements = take_last(&mut values).into_elements(alloc)?.unwrap();
    let made = Value::from_elements(alloc, append(elements, last)?)?;
    Ok((0, behind(values, 0, made)?))
}

/// The number of elements.
pub(crate) fn array_len(values: Vec<Value>) -> Result<(usize, Vec<Value>), AllocError>
    requires typed { (ty : Ty) × ArePlain (array ty ∷ []) (map meant values.items) }
    requires short { (ty : Ty) → IsCountedArrays (registry.array_len ty) (map meant values.items) }
    ensures { (ty : Ty) → IfOk result (IsAnswer (arrays_does (registry.array_len ty) (map meant values.items))) }
{
    let elements = values[0].as_elements().unwrap();
    let count = Value::from_number(Num::U32, elements.len() as u64);
    Ok((0, behind(values, 0, count)?))
}

/// The element at an index, boxed, where there is one.
pub(crate) fn array_get(
    alloc: Global,
    values: Vec<Value>,
) -> Result<(usize, Vec<Value>), AllocError>
    requires { (ty : Ty) × ArePlain (registry.arrays_takes (registry.array_get ty)) (map meant values.items) }
    ensures { (ty : Ty) → IfOk result (IsAnswer (arrays_does (registry.array_get ty) (map meant values.items))) }
{
    let index = number_at(&values, 2) as u32;
    match element(values[1].as_elements().unwrap(), index) {
        Some(value) => {
            let made = Value::in_box(alloc, value.copy(alloc)?)?;
            Ok((0, behind(values, 1, made)?))
        }
        None => Ok((1, front(values, 1))),
    }
}

/// The array without its first element and that element boxed, where there is one.
pub(crate) fn array_pop_front(
    alloc: Global,
    values: Vec<Value>,
) -> Result<(usize, Vec<Value>), AllocError>
    requires { (ty : Ty) × ArePlain (array ty ∷ []) (map meant values.items) }
    ensures { (ty : Ty) → IfOk result (IsAnswer (arrays_does (registry.array_pop_front ty) (map meant values.items))) }
{
    let mut values = values;
    let mut elements = take_last(&mut values).into_elements(alloc)?.unwrap();
    let first = pop_first(&mut elements);
    let values = behind(values, 0, Value::from_elements(alloc, elements)?)?;
    match first {
        Some(first) => Ok((0, behind(values, 1, Value::in_box(alloc, first)?)?)),
        None => Ok((1, values)),
    }
}
