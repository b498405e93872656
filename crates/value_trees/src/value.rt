//! Values as trees.

ghost use Rattle.std.specs.Prelude.{◌≡◌, ◌<◌, map, option_map, IfOk};
ghost use Rattle.value_trees.specs.Meant.{meant, opened};
ghost use Rattle.value_trees.specs.Of.{bound};
ghost use Rattle.value_trees.specs.Parts.{number_of, gas_of, members_of, variant_of, elements_of, boxed_of, dict_of, entry_of, squashed_of};
ghost use Rattle.value_trees.specs.Val.{vals_of};
ghost use Rattle.value_trees.specs.Val as val;

use crate::words::Words;
use felt64::Felt;
use std::alloc::{AllocError, Global};
use std::collections::VecDeque;
use std::rc::Rc;
use type_trees::Num;

/// A value of a Sierra type. A snapshot has the values of its type.
#[derive(Debug, Drop)]
pub enum Value {
    /// A field element.
    Felt(Felt),
    /// A number of an unsigned type of 8, 16 or 32 bits.
    Int {
        /// The bits of its type.
        bits: u8,
        /// The number.
        n: u32,
    },
    /// The members of a struct, in order.
    Struct(Vec<Value>),
    /// A variant of an enum.
    Enum {
        /// Which one, from 0.
        index: u32,
        /// Its payload.
        value: Box<Value>,
    },
    /// The elements of an array, in order. Copies of the value share them, and they are copied only where they are shared and
    /// taken out.
    Array(Rc<VecDeque<Value>>),
    /// A boxed value.
    Boxed(Box<Value>),
    /// A dictionary.
    Dict(Words),
    /// A dictionary of which an entry is open.
    Entry {
        /// The dictionary.
        dict: Words,
        /// The key of the entry.
        key: Felt,
    },
    /// A squashed dictionary.
    Squashed(Words),
    /// An amount of gas.
    Gas(u64),
    /// The token of range checks.
    Check,
    /// What is uninitialized.
    Empty,
}

impl Value {
    /// A number of a type of numbers.
    pub fn from_number(num: Num, n: u64) -> Value
        requires { n < bound num }
        ensures { meant result ≡ val.number num n }
    {
        match num {
            Num::Felt64 => Value::Felt(Felt::reduce(n as u128)),
            Num::U8 => Value::Int {
                bits: 8,
                n: n as u32,
            },
            Num::U16 => Value::Int {
                bits: 16,
                n: n as u32,
            },
            Num::U32 => Value::Int {
                bits: 32,
                n: n as u32,
            },
        }
    }

    /// A struct with these members.
    pub fn from_members(members: Vec<Value>) -> Value
        ensures { meant result ≡ val.struct (vals_of (map meant members.items)) }
    {
        Value::Struct(members)
    }

    /// A variant of an enum.
    pub fn from_variant(alloc: Global, index: u32, payload: Value) -> Result<Value, AllocError>
        ensures { IfOk result (λ v. meant v ≡ val.enum index (meant payload)) }
    {
        Ok(Value::Enum {
            index,
            value: Box::new(alloc, payload)?,
        })
    }

    /// An array of these elements.
    pub fn from_elements(alloc: Global, elements: VecDeque<Value>) -> Result<Value, AllocError>
        ensures { IfOk result (λ v. meant v ≡ val.array (vals_of (map meant elements.items))) }
    {
        Ok(Value::Array(Rc::new(alloc, elements)?))
    }

    /// A value in a box.
    pub fn in_box(alloc: Global, inner: Value) -> Result<Value, AllocError>
        ensures { IfOk result (λ v. meant v ≡ val.boxed (meant inner)) }
    {
        Ok(Value::Boxed(Box::new(alloc, inner)?))
    }

    /// The number, where this is one: a felt or an integer.
    pub fn as_number(&self) -> Option<u64>
        ensures { result ≡ number_of (meant self.now) }
    {
        match self {
            Value::Felt(n) => Some(n.value()),
            Value::Int { n, .. } => Some(*n as u64),
            _ => None,
        }
    }

    /// The amount, where this is one of gas.
    pub fn as_gas(&self) -> Option<u64>
        ensures { result ≡ gas_of (meant self.now) }
    {
        match self {
            Value::Gas(amount) => Some(*amount),
            _ => None,
        }
    }

    /// The elements, where this is an array.
    #[tactic(auto, using(crate::proofs::Variants::elements_meant))]
    pub fn as_elements(&self) -> Option<&VecDeque<Value>>
        ensures { option_map (λ vs. map meant vs.now.items) result ≡ elements_of (meant self.now) }
    {
        match self {
            Value::Array(elements) => Some(&**elements),
            _ => None,
        }
    }

    /// The members, where this is a struct.
    #[tactic(auto, using(crate::proofs::Variants::members_meant))]
    pub fn into_members(self) -> Option<Vec<Value>>
        ensures { option_map (λ vs. map meant vs.items) result ≡ members_of (meant self) }
    {
        match self {
            Value::Struct(members) => Some(members),
            _ => None,
        }
    }

    /// The index and the payload, where this is a variant of an enum.
    pub fn into_variant(self) -> Option<(u32, Value)>
        ensures { option_map (λ p. (p.0, meant p.1)) result ≡ variant_of (meant self) }
    {
        match self {
            Value::Enum { index, value } => Some((index, Box::into_inner(value))),
            _ => None,
        }
    }

    /// The value in the box, where this is one.
    pub fn into_boxed(self) -> Option<Value>
        ensures { option_map meant result ≡ boxed_of (meant self) }
    {
        match self {
            Value::Boxed(inner) => Some(Box::into_inner(inner)),
            _ => None,
        }
    }

    /// The words, where this is a dictionary.
    pub fn into_dict(self) -> Option<Words>
        ensures { result ≡ dict_of (meant self) }
    {
        match self {
            Value::Dict(words) => Some(words),
            _ => None,
        }
    }

    /// The words and the key of the open entry, where this is an open dictionary.
    pub fn into_entry(self) -> Option<(Words, Felt)>
        ensures { option_map opened result ≡ entry_of (meant self) }
    {
        match self {
            Value::Entry { dict, key } => Some((dict, key)),
            _ => None,
        }
    }

    /// The words, where this is a squashed dictionary.
    pub fn into_squashed(self) -> Option<Words>
        ensures { result ≡ squashed_of (meant self) }
    {
        match self {
            Value::Squashed(words) => Some(words),
            _ => None,
        }
    }
}
