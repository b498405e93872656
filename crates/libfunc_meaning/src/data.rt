//! Enums, structs, snapshots and boxes.

ghost use Rattle.std.specs.Prelude.{List, ℕ, [], ◌∷◌, map, IfOk};
ghost use Rattle.type_trees.specs.Ty.{Ty, Tys, box, struct, enum};
ghost use Rattle.value_trees.specs.Meant.{meant};
ghost use Rattle.value_trees.specs.Val as val;
ghost use Rattle.value_trees.specs.Val.{vals_of};
ghost use Rattle.libfunc_meaning.specs.Answers.{branch, gives, of_one, with_variant, with_members, with_boxed};
ghost use Rattle.libfunc_meaning.specs.Placed.{ArePlain, IsAnswer};

use crate::taking::{behind, take_last};
use std::alloc::{AllocError, Global};
use value_trees::Value;

/// A variant of an enum with the value as its payload.
pub(crate) fn variant(
    alloc: Global,
    values: Vec<Value>,
    index: u32,
) -> Result<(usize, Vec<Value>), AllocError>
    requires { (ty : Ty) × ArePlain (ty ∷ []) (map meant values.items) }
    ensures { IfOk result (IsAnswer (of_one (map meant values.items) (λ v. gives (val.enum index v ∷ [])))) }
{
    let mut values = values;
    let payload = take_last(&mut values);
    let made = Value::from_variant(alloc, index, payload)?;
    Ok((0, behind(values, 0, made)?))
}

/// The payload, in the branch of its variant.
pub(crate) fn matched(values: Vec<Value>) -> Result<(usize, Vec<Value>), AllocError>
    requires { (name : List ℕ) × (variants : Tys) × ArePlain (enum name variants ∷ []) (map meant values.items) }
    ensures { IfOk result (IsAnswer (of_one (map meant values.items) (λ v. with_variant v (λ index payload. branch index (payload ∷ []))))) }
{
    let mut values = values;
    let (index, payload) = take_last(&mut values).into_variant().unwrap();
    Ok((index as usize, behind(values, 0, payload)?))
}

/// A struct with these members.
pub(crate) fn constructed(
    alloc: Global,
    values: Vec<Value>,
) -> Result<(usize, Vec<Value>), AllocError>
    ensures { IfOk result (IsAnswer (gives (val.struct (vals_of (map meant values.items)) ∷ []))) }
{
    let made = Value::from_members(values);
    Ok((0, behind(Vec::new(alloc), 0, made)?))
}

/// The members of a struct.
pub(crate) fn deconstructed(values: Vec<Value>) -> (usize, Vec<Value>)
    requires { (name : List ℕ) × (members : Tys) × ArePlain (struct name members ∷ []) (map meant values.items) }
    ensures { IsAnswer (of_one (map meant values.items) (λ v. with_members v (λ members. gives members))) result }
{
    let mut values = values;
    (0, take_last(&mut values).into_members().unwrap())
}

/// The value in a box.
pub(crate) fn boxed(alloc: Global, values: Vec<Value>) -> Result<(usize, Vec<Value>), AllocError>
    requires { (ty : Ty) × ArePlain (ty ∷ []) (map meant values.items) }
    ensures { IfOk result (IsAnswer (of_one (map meant values.items) (λ v. gives (val.boxed v ∷ [])))) }
{
    let mut values = values;
    let made = Value::in_box(alloc, take_last(&mut values))?;
    Ok((0, behind(values, 0, made)?))
}

/// The value that was in the box.
pub(crate) fn unboxed(values: Vec<Value>) -> Result<(usize, Vec<Value>), AllocError>
    requires { (ty : Ty) × ArePlain (box ty ∷ []) (map meant values.items) }
    ensures { IfOk result (IsAnswer (of_one (map meant values.items) (λ v. with_boxed v (λ inner. gives (inner ∷ []))))) }
{
    let mut values = values;
    let inner = take_last(&mut values).into_boxed().unwrap();
    Ok((0, behind(values, 0, inner)?))
}
