//! The signature of a function: the types of its parameters and results, and whether it may have them.

ghost use Rattle.std.specs.Prelude.{◌≡◌, ◌≢◌, ◌++◌, map, IfOk, IfErr, IsTrue, ◌↔◌, MatchBool};
ghost use Rattle.std.specs.List.{list_all};
ghost use Rattle.type_table.specs.Refusals.{parameter_types, HasOneVariableTwice};
ghost use Rattle.type_table.specs.Signatures.{AreFound, HasUnfound, IsResolved, IsWellFormed, IsIllFormed, PassesBehind, FailsBehind, is_builtin_at, is_storable_at, has_twice, are_usable};

use crate::fault::TypeFault;
use crate::kind::TypeKind;
use crate::positions::Positions;
use crate::row::{Row, Signature};
use crate::type_id::TypeId;
use sierra_types::{Function, List, Name};
use std::alloc::{AllocError, Global};
use std::collections::HashSet;

/// A type that stands for a builtin, of which parameters, and results, may have one at most.
#[derive(Clone, Copy, Debug, Drop)]
pub(crate) enum Builtin {
    /// `RangeCheck`.
    RangeCheck,
    /// `GasBuiltin`.
    Gas,
}

/// A parameter or a result, which names its type.
trait HasType {
    ghost use Rattle.std.specs.Prelude.{List as ListOf, ℕ};

    ghost type_of: { Self → ListOf ℕ };

    /// The id of its type.
    fn type_id(&self) -> &Name
        ensures { result.now ≡ type_of self.now };
}

impl HasType for (u64, Name) {
    ghost type_of = { λ param. param.1 };

    fn type_id(&self) -> &Name {
        &self.1
    }
}

impl HasType for Name {
    ghost type_of = { λ name. name };

    fn type_id(&self) -> &Name {
        self
    }
}

/// The types that these name, or the first that isn't declared.
fn types_in<T: HasType>(
    alloc: Global,
    positions: &Positions,
    named: &[T],
) -> Result<Vec<TypeId>, TypeFault>
    ensures found { IfOk result (λ types. AreFound positions.now (map T.type_of named.now) types.items) }
    ensures refused { IfErr result (λ fault. fault ≢ TypeFault.Memory → HasUnfound positions.now (map T.type_of named.now) fault) }
{
    let mut types = Vec::with_capacity(alloc, named.len())?;
    for item in named {
        let id = item.type_id().bytes();
        let Some(position) = positions.find(id) else {
            return Err(TypeFault::UnknownType(Name::new(alloc, id)?));
        };
        types.push(TypeId(position)).map_err(AllocError::from)?;
    }
    Ok(types)
}

/// The function's parameters and results, or the first type among them that isn't declared.
fn resolved(
    alloc: Global,
    positions: &Positions,
    function: &Function,
) -> Result<Signature, TypeFault>
    ensures found { IfOk result (λ signature. IsResolved positions.now function.now signature) }
    ensures refused { IfErr result (λ fault. fault ≢ TypeFault.Memory → HasUnfound positions.now (parameter_types function.now ++ function.now.results) fault) }
{
    let params = types_in(alloc, positions, function.params.items())?;
    let results = types_in(alloc, positions, function.results.items())?;
    Ok(Signature {
        params: List::new(params),
        results: List::new(results),
    })
}

/// Whether the type at a position is this builtin.
fn is_builtin_at(rows: &[Row], builtin: Builtin, t: TypeId) -> bool
    ensures { result ≡ is_builtin_at rows.now builtin t }
{
    match rows.get(t.0) {
        Some(row) => matches!(
            (builtin, row.kind),
            (Builtin::RangeCheck, TypeKind::RangeCheck) | (Builtin::Gas, TypeKind::GasBuiltin)
        ),
        None => false,
    }
}

/// Whether values of the type at a position may be stored.
fn is_storable_at(rows: &[Row], t: TypeId) -> bool
    ensures { result ≡ is_storable_at rows.now t }
{
    match rows.get(t.0) {
        Some(row) => row.info.storable,
        None => false,
    }
}

/// Whether two of these types are this builtin.
fn has_twice(rows: &[Row], builtin: Builtin, types: &[TypeId]) -> bool
    ensures { result ≡ has_twice rows.now builtin types.now }
{
    types
        .iter()
        .filter(|t| is_builtin_at(rows, builtin, **t))
        .count()
        > 1
}

/// Whether values of each of these types may be stored.
fn all_storable(rows: &[Row], types: &[TypeId]) -> bool
    ensures { result ≡ list_all (λ t. is_storable_at rows.now t) types.now }
{
    types.iter().all(|t| is_storable_at(rows, *t))
}

/// Whether parameters, or results, may have these types.
fn are_usable(rows: &[Row], types: &[TypeId]) -> bool
    ensures { result ≡ are_usable rows.now types.now }
{
    all_storable(rows, types)
        && (!has_twice(rows, Builtin::RangeCheck, types) && !has_twice(rows, Builtin::Gas, types))
}

/// Whether two parameters are one variable.
fn has_one_variable_twice(alloc: Global, params: &[(u64, Name)]) -> Result<bool, AllocError>
    ensures { IfOk result (λ twice. IsTrue twice ↔ HasOneVariableTwice params.now) }
{
    let mut variables = HashSet::new(alloc);
    for param in params {
        if !variables.insert(param.0)? {
            return Ok(true);
        }
    }
    Ok(false)
}

/// Whether the function may have this signature.
fn is_well_formed(
    alloc: Global,
    rows: &[Row],
    function: &Function,
    signature: &Signature,
) -> Result<bool, AllocError>
    ensures { IfOk result (λ fine. MatchBool fine (IsWellFormed rows.now function.now signature.now) (IsIllFormed rows.now function.now signature.now)) }
{
    if has_one_variable_twice(alloc, function.params.items())? {
        return Ok(false);
    }
    Ok(are_usable(rows, signature.params.items()) && are_usable(rows, signature.results.items()))
}

/// The function's signature, or its first fault, behind functions with these ids.
pub(crate) fn signature_of(
    alloc: Global,
    positions: &Positions,
    rows: &[Row],
    ids: &Positions,
    function: &Function,
) -> Result<Signature, TypeFault>
    ensures found { IfOk result (λ signature. PassesBehind positions.now rows.now ids.now function.now signature) }
    ensures refused { IfErr result (λ fault. fault ≢ TypeFault.Memory → FailsBehind positions.now rows.now ids.now function.now fault) }
{
    let signature = resolved(alloc, positions, function)?;
    let id = function.id.bytes();
    if ids.find(id).is_some() {
        return Err(TypeFault::Duplicate(Name::new(alloc, id)?));
    }
    if !is_well_formed(alloc, rows, function, &signature)? {
        return Err(TypeFault::FunctionType(Name::new(alloc, id)?));
    }
    Ok(signature)
}
