//! What main begins with, and what is shown of its results.

ghost use Rattle.std.specs.Prelude.{◌≡◌, ◌<◌, ◌∷◌, ◌++◌, [], length, map, option_map, IfOk, OnOk};
ghost use Rattle.std.specs.List.{All};
ghost use Rattle.type_table.specs.View.{tree_of, trees_of};
ghost use Rattle.value_trees.specs.Meant.{meant};
ghost use Rattle.typed_values.specs.Making.{is_builtin_kind, kept, pair_meant, pairs_meant};
ghost use Rattle.typed_values.specs.Outcome.{is_builtin, builtin_value, beginning, others, others_of, left_of, is_panic_result, is_panic, payload_of, panics, shown, outcome_of};
ghost use Rattle.typed_values.specs.Shown.{outcome_meant};

use crate::outcome::Outcome;
use std::alloc::{AllocError, Global};
use std::collections::VecDeque;
use type_table::{TypeId, TypeKind, Types};
use value_trees::{Value, pop_first};

/// The panic results are the enums with a name that begins so.
const PANIC_RESULT: &[u8] = b"core::panics::PanicResult";

/// The values of main's parameters, of these types. The gas builtin is the counter, and the values of those that are no
/// builtins are given, in order.
#[tactic(auto, using(crate::proofs::Made::begun_builtin, crate::proofs::Made::begun_given, crate::proofs::Made::begun_none))]
pub fn beginning(
    alloc: Global,
    types: &Types,
    params: &[TypeId],
    counter: u64,
    given: Vec<Value>,
) -> Result<Vec<Value>, AllocError>
    requires { All (λ p. p.0 < length types.now.rows) params.now }
    ensures { IfOk result (λ vs. map meant vs.items ≡ beginning counter (trees_of types.now params.now) (map meant given.items)) }
{
    let mut left = VecDeque::from_vec(given);
    let mut values = Vec::with_capacity(alloc, params.len())?;
    for param in params {
        match builtin_value(types, *param, counter) {
            Some(value) => values.push(value)?,
            None => match pop_first(&mut left) {
                Some(value) => values.push(value)?,
                None => return Ok(values),
            },
        }
    }
    Ok(values)
}

impl Outcome {
    /// What is shown of main, of which these are the types of the results and the results. The input has this gas, of which
    /// main began with the counter.
    pub fn of(
        alloc: Global,
        types: &Types,
        result_types: &[TypeId],
        results: Vec<Value>,
        gas: u64,
        counter: u64,
    ) -> Result<Outcome, AllocError>
        requires { All (λ p. p.0 < length types.now.rows) result_types.now }
        ensures { IfOk result (λ o. outcome_meant o ≡ outcome_of gas counter (trees_of types.now result_types.now) (map meant results.items)) }
    {
        let gas_left = left_of(&results, counter);
        let others = others(alloc, types, result_types, results)?;
        let (panic, values) = shown(alloc, types, others)?;
        Ok(Outcome {
            panic,
            values,
            gas_left,
            gas_used: gas.saturating_sub(gas_left),
        })
    }
}

/// Whether types of this kind are builtins.
fn is_builtin_kind(kind: TypeKind) -> bool
    ensures { result ≡ is_builtin_kind kind }
{
    match kind {
        TypeKind::RangeCheck | TypeKind::GasBuiltin => true,
        _ => false,
    }
}

/// Those of the types that are no builtins, in order: of main's parameters, the types of the arguments that an input gives.
#[tactic(auto, using(crate::proofs::Made::types_kept))]
pub fn without_builtins(
    alloc: Global,
    types: &Types,
    all: &[TypeId],
) -> Result<Vec<TypeId>, AllocError>
    requires { All (λ t. t.0 < length types.now.rows) all.now }
    ensures trees { IfOk result (λ kept. trees_of types.now kept.items ≡ others_of (trees_of types.now all.now)) }
    ensures below { IfOk result (λ kept. All (λ t. t.0 < length types.now.rows) kept.items) }
{
    let mut kept = Vec::with_capacity(alloc, all.len())?;
    for id in all {
        keep_type(types, &mut kept, *id)?;
    }
    Ok(kept)
}

/// Adds the type where it is no builtin.
#[tactic(auto, using(crate::proofs::Made::builtin_by_kind))]
fn keep_type(types: &Types, kept: &mut Vec<TypeId>, id: TypeId) -> Result<(), AllocError>
    requires { id.0 < length types.now.rows }
    ensures kept { OnOk result (trees_of types.now kept.new.items ≡ trees_of types.now kept.old.items ++ others_of (tree_of types.now id.0 ∷ [])) }
    ensures below { OnOk result (All (λ t. t.0 < length types.now.rows) kept.old.items → All (λ t. t.0 < length types.now.rows) kept.new.items) }
{
    if !is_builtin_kind(types.kind(id)) {
        kept.push(id)?;
    }
    Ok(())
}

/// What main begins with where the parameter is a builtin.
fn builtin_value(types: &Types, param: TypeId, counter: u64) -> Option<Value>
    requires { param.0 < length types.now.rows }
    ensures { option_map meant result ≡ builtin_value counter (tree_of types.now param.0) }
{
    match types.kind(param) {
        TypeKind::RangeCheck => Some(Value::Check),
        TypeKind::GasBuiltin => Some(Value::Gas(counter)),
        _ => None,
    }
}

/// The gas that is left.
fn left_of(results: &Vec<Value>, counter: u64) -> u64
    ensures { result ≡ left_of counter (map meant results.now.items) }
{
    for value in results {
        if let Some(amount) = value.as_gas() {
            return amount;
        }
    }
    counter
}

/// The results that are no builtins, with their types.
#[tactic(auto, using(crate::proofs::Made::others_more, crate::proofs::Made::others_end))]
fn others(
    alloc: Global,
    types: &Types,
    result_types: &[TypeId],
    results: Vec<Value>,
) -> Result<Vec<(TypeId, Value)>, AllocError>
    requires { All (λ p. p.0 < length types.now.rows) result_types.now }
    ensures pairs { IfOk result (λ pairs. pairs_meant types.now pairs.items ≡ others (trees_of types.now result_types.now) (map meant results.items)) }
    ensures below { IfOk result (λ pairs. All (λ p. p.0.0 < length types.now.rows) pairs.items) }
{
    let mut left = VecDeque::from_vec(results);
    let mut pairs = Vec::with_capacity(alloc, result_types.len())?;
    for id in result_types {
        match pop_first(&mut left) {
            Some(value) => {
                keep(types, &mut pairs, *id, value)?;
            }
            None => return Ok(pairs),
        }
    }
    Ok(pairs)
}

/// Adds the result where it is no builtin.
#[tactic(auto, using(crate::proofs::Made::builtin_by_kind))]
fn keep(
    types: &Types,
    pairs: &mut Vec<(TypeId, Value)>,
    id: TypeId,
    value: Value,
) -> Result<(), AllocError>
    requires { id.0 < length types.now.rows }
    ensures kept { OnOk result (pairs_meant types.now pairs.new.items ≡ pairs_meant types.now pairs.old.items ++ kept (tree_of types.now id.0) (meant value)) }
    ensures below { OnOk result (All (λ p. p.0.0 < length types.now.rows) pairs.old.items → All (λ p. p.0.0 < length types.now.rows) pairs.new.items) }
{
    if !is_builtin_kind(types.kind(id)) {
        pairs.push((id, value))?;
    }
    Ok(())
}

/// Whether main panicked, and what is shown of its results that are no builtins.
#[tactic(auto, using(crate::proofs::Made::panics_of_many, crate::proofs::Made::shown_of_many))]
fn shown(
    alloc: Global,
    types: &Types,
    others: Vec<(TypeId, Value)>,
) -> Result<(bool, Vec<Value>), AllocError>
    requires { All (λ p. p.0.0 < length types.now.rows) others.items }
    ensures { IfOk result (λ p. (p.0 ≡ panics (pairs_meant types.now others.items)) × (map meant p.1.items ≡ shown (pairs_meant types.now others.items))) }
{
    let mut others = others;
    if others.len() == 1 {
        let (id, value) = others.remove(0);
        return shown_alone(alloc, types, id, value);
    }
    Ok((false, values_of(alloc, others)?))
}

/// The same of one result that is no builtin.
fn shown_alone(
    alloc: Global,
    types: &Types,
    id: TypeId,
    value: Value,
) -> Result<(bool, Vec<Value>), AllocError>
    requires { id.0 < length types.now.rows }
    ensures { IfOk result (λ p. (p.0 ≡ panics (pair_meant types.now (id, value) ∷ [])) × (map meant p.1.items ≡ shown (pair_meant types.now (id, value) ∷ []))) }
{
    let (panic, value) = if is_panic_result(types, id) {
        unwrapped(value)
    } else {
        (false, value)
    };
    let mut values = Vec::with_capacity(alloc, 1)?;
    values.push(value)?;
    Ok((panic, values))
}

/// Whether the type is an enum that says whether a function panicked.
fn is_panic_result(types: &Types, id: TypeId) -> bool
    requires { id.0 < length types.now.rows }
    ensures { result ≡ is_panic_result (tree_of types.now id.0) }
{
    match types.kind(id) {
        TypeKind::Enum => match types.user(id) {
            Some(name) => name.bytes().starts_with(PANIC_RESULT),
            None => false,
        },
        _ => false,
    }
}

/// Whether the value is a panic, and its payload.
fn unwrapped(value: Value) -> (bool, Value)
    ensures panic { result.0 ≡ is_panic (meant value) }
    ensures payload { meant result.1 ≡ payload_of (meant value) }
{
    match value {
        Value::Enum { index, value } => (index == 1, Box::into_inner(value)),
        other => (false, other),
    }
}

/// The values without their types.
fn values_of(alloc: Global, pairs: Vec<(TypeId, Value)>) -> Result<Vec<Value>, AllocError>
    ensures { IfOk result (λ vs. map meant vs.items ≡ map (λ p. meant p.1) pairs.items) }
{
    let mut values = Vec::with_capacity(alloc, pairs.len())?;
    for (_, value) in pairs {
        values.push(value)?;
    }
    Ok(values)
}
