//! Copies of values.

ghost use Rattle.std.specs.Prelude.{◌≡◌, map, option_map, IfOk};
ghost use Rattle.value_trees.specs.Meant.{meant};
ghost use Rattle.value_trees.specs.Parts.{elements_of};

use crate::value::Value;
use std::alloc::{AllocError, Global};
use std::collections::VecDeque;
use std::rc::Rc;

impl Value {
    /// A copy of the value.
    pub fn copy(&self, alloc: Global) -> Result<Value, AllocError>
        ensures { IfOk result (λ v. meant v ≡ meant self.now) }
    {
        copy(self, alloc)
    }
}

#[cycle(copy)]
fn copy(value: &Value, alloc: Global) -> Result<Value, AllocError>
    ensures { IfOk result (λ v. meant v ≡ meant value.now) }
{
    match value {
        Value::Felt(n) => Ok(Value::Felt(*n)),
        Value::Int { bits, n } => Ok(Value::Int { bits: *bits, n: *n }),
        Value::Struct(members) => Ok(Value::Struct(copy_members(members, alloc)?)),
        Value::Enum { index, value } => Value::from_variant(alloc, *index, copy(value, alloc)?),
        Value::Array(elements) => Ok(Value::Array(elements.clone()?)),
        Value::Boxed(inner) => Value::in_box(alloc, copy(inner, alloc)?),
        Value::Dict(words) => Ok(Value::Dict(words.copy()?)),
        Value::Entry { dict, key } => Ok(Value::Entry {
            dict: dict.copy()?,
            key: *key,
        }),
        Value::Squashed(words) => Ok(Value::Squashed(words.copy()?)),
        Value::Gas(amount) => Ok(Value::Gas(*amount)),
        Value::Check => Ok(Value::Check),
        Value::Empty => Ok(Value::Empty),
    }
}

#[cycle(copy)]
fn copy_members(members: &Vec<Value>, alloc: Global) -> Result<Vec<Value>, AllocError>
    ensures { IfOk result (λ vs. map meant vs.items ≡ map meant members.now.items) }
{
    let mut copies = Vec::with_capacity(alloc, members.len())?;
    for member in members {
        copies.push(copy(member, alloc)?)?;
    }
    Ok(copies)
}

/// Copies of the elements, in a list of their own.
fn copy_elements(elements: &VecDeque<Value>, alloc: Global) -> Result<VecDeque<Value>, AllocError>
    ensures { IfOk result (λ vs. map meant vs.items ≡ map meant elements.now.items) }
{
    let mut copies = VecDeque::with_capacity(alloc, elements.len())?;
    for element in elements {
        copies.push_back(copy(element, alloc)?)?;
    }
    Ok(copies)
}

impl Value {
    /// The elements, where this is an array. They are copied only if another value shares them, each element as `copy` copies it.
    #[tactic(auto, using(crate::proofs::Variants::elements_meant))]
    pub fn into_elements(self, alloc: Global) -> Result<Option<VecDeque<Value>>, AllocError>
        ensures { IfOk result (λ r. option_map (λ vs. map meant vs.items) r ≡ elements_of (meant self)) }
    {
        match self {
            Value::Array(elements) => Ok(Some(unshared(elements, alloc)?)),
            _ => Ok(None),
        }
    }
}

/// The elements behind the pointer: moved out if it is the last one to them, else copied.
fn unshared(elements: Rc<VecDeque<Value>>, alloc: Global) -> Result<VecDeque<Value>, AllocError>
    ensures { IfOk result (λ vs. map meant vs.items ≡ map meant elements.value.items) }
{
    match Rc::try_unwrap(elements) {
        Ok(elements) => Ok(elements),
        Err(elements) => copy_elements(&elements, alloc),
    }
}
