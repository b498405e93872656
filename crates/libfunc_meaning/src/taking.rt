//! Values at their places, and results in place of arguments.

ghost use Rattle.std.specs.Prelude.{◌≡◌, [], ◌∷◌, ◌++◌, List, map, take, IfOk};
ghost use Rattle.value_trees.specs.Meant.{meant};
ghost use Rattle.value_trees.specs.Val.{Plain};
ghost use Rattle.libfunc_meaning.specs.Placed.{IsNumberAt, HasNumberAt, IsGasAt, HasGasAt, HasLast};

use std::alloc::AllocError;
use value_trees::Value;

/// The number at a place.
pub(crate) fn number_at(values: &Vec<Value>, place: usize) -> u64
    requires { HasNumberAt (map meant values.now.items) place }
    ensures { IsNumberAt (map meant values.now.items) place result }
{
    values[place].as_number().unwrap()
}

/// The amount of gas at a place.
pub(crate) fn gas_at(values: &Vec<Value>, place: usize) -> u64
    requires { HasGasAt (map meant values.now.items) place }
    ensures { IsGasAt (map meant values.now.items) place result }
{
    values[place].as_gas().unwrap()
}

/// Takes the last value out.
pub(crate) fn take_last(values: &mut Vec<Value>) -> Value
    requires { HasLast (map meant values.old.items) }
    ensures { (first : List Plain) (last : Plain) → map meant values.old.items ≡ first ++ last ∷ [] → (map meant values.new.items ≡ first) × (meant result ≡ last) }
{
    values.pop().unwrap()
}

/// So many of the first values, and one more behind them.
pub(crate) fn behind(values: Vec<Value>, kept: usize, last: Value) -> Result<Vec<Value>, AllocError>
    ensures { IfOk result (λ vs. map meant vs.items ≡ take kept (map meant values.items) ++ meant last ∷ []) }
{
    let mut values = values;
    values.truncate(kept);
    values.push(last)?;
    Ok(values)
}

/// So many of the first values alone.
pub(crate) fn front(values: Vec<Value>, kept: usize) -> Vec<Value>
    ensures { map meant result.items ≡ take kept (map meant values.items) }
{
    let mut values = values;
    values.truncate(kept);
    values
}
