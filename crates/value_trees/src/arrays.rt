//! The elements of arrays, by what they are meant to be.

ghost use Rattle.std.specs.Prelude.{◌≡◌, [], ◌∷◌, ◌++◌, map, option_map, slice_get, IfOk, MatchOption};
ghost use Rattle.value_trees.specs.Meant.{meant};

use crate::value::Value;
use std::alloc::AllocError;
use std::collections::VecDeque;

/// The element at an index, if there is one, in constant time.
#[tactic(auto, using(crate::proofs::Elements::element_at))]
pub fn element(elements: &VecDeque<Value>, index: u32) -> Option<&Value>
    ensures { option_map (λ v. meant v.now) result ≡ slice_get (map meant elements.now.items) index }
{
    elements.get(index as usize)
}

/// The elements with one more behind them.
pub fn append(elements: VecDeque<Value>, last: Value) -> Result<VecDeque<Value>, AllocError>
    ensures { IfOk result (λ vs. map meant vs.items ≡ map meant elements.items ++ meant last ∷ []) }
{
    let mut elements = elements;
    elements.push_back(last)?;
    Ok(elements)
}

/// Takes the first element out, if there is one, in constant time.
pub fn pop_first(elements: &mut VecDeque<Value>) -> Option<Value>
    ensures { MatchOption result ((map meant elements.old.items ≡ []) × (map meant elements.new.items ≡ [])) (λ v. map meant elements.old.items ≡ meant v ∷ map meant elements.new.items) }
{
    elements.pop_front()
}
