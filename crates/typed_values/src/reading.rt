//! Readers of values: each takes a form from the head of `rest`. At a syntax fault `rest` is left at its byte, at a number or an
//! index out of range at its first byte, and at an array that is too long at its `[`.

ghost use Rattle.std.specs.Prelude.{◌≡◌, ◌<◌, ◌≤◌, ◌∷◌, [], true, length, map, Option, Some, Err};
ghost use Rattle.std.specs.List.{All};
ghost use Rattle.text_reading.specs.Given.{Gives};
ghost use Rattle.text_reading.specs.Reading.{Answer.answers};
ghost use Rattle.type_table.specs.IsType.{most_arguments};
ghost use Rattle.type_table.specs.View.{tree_of, trees_of, joined};
ghost use Rattle.value_trees.specs.Meant.{meant};
ghost use Rattle.value_trees.specs.Val.{vals_of};
ghost use Rattle.typed_values.specs.Inputs.{most_elements};
ghost use Rattle.typed_values.specs.Kinds.{number_of, struct_at, enum_at, array_of, array_form_of};
ghost use Rattle.typed_values.specs.Reading.{told, array_at, element_at, elements_at, member_at, value_at, members_at, line_at, lines_at};
ghost use Rattle.typed_values.specs.declared.fault.ValueLimit.TheVariants as limits;

use crate::fault::ValueLimit;
use crate::limits::{bound, most_elements};
use crate::marks::{byte, goes_on, number, separator, space};
use crate::skimming::skim_array;
use std::alloc::Global;
use std::collections::VecDeque;
use text_reading::{Stop, is_next};
use type_table::{TypeId, TypeKind, Types};
use type_trees::Num;
use value_trees::Value;

/// A value of the type.
#[cycle(read)]
pub fn value(
    alloc: Global,
    types: &Types,
    id: TypeId,
    rest: &mut &[u8],
) -> Result<Value, Stop<ValueLimit>>
    requires { id.0 < length types.now.rows }
    ensures { Gives meant result rest.new.now (value_at most_elements (tree_of types.now id.0) rest.old.now) }
{
    match types.kind(id) {
        TypeKind::Number(num) => number_of(num, rest),
        TypeKind::Struct => structure(alloc, types, types.members(id), rest),
        TypeKind::Enum => variant(alloc, types, types.members(id), rest),
        TypeKind::Array => match types.members(id) {
            [item] => array(alloc, types, *item, rest),
            _ => Err(Stop::Syntax),
        },
        _ => Err(Stop::Syntax),
    }
}

/// A number of the type.
fn number_of(num: Num, rest: &mut &[u8]) -> Result<Value, Stop<ValueLimit>>
    ensures { Gives meant result rest.new.now (number_of num rest.old.now) }
{
    let n = number(rest, bound(num))?;
    Ok(Value::from_number(num, n))
}

/// A struct of these members.
#[cycle(read)]
#[tactic(auto, unfolding(crate::specs::Kinds::struct_at))]
fn structure(
    alloc: Global,
    types: &Types,
    ids: &[TypeId],
    rest: &mut &[u8],
) -> Result<Value, Stop<ValueLimit>>
    requires { All (λ m. m.0 < length types.now.rows) ids.now }
    ensures { Gives meant result rest.new.now (struct_at (joined (trees_of types.now ids.now)) rest.old.now) }
{
    byte(rest, b'(')?;
    let members = members(alloc, types, ids, rest)?;
    byte(rest, b')')?;
    Ok(Value::from_members(members))
}

/// The members of a struct.
#[cycle(read)]
fn members(
    alloc: Global,
    types: &Types,
    ids: &[TypeId],
    rest: &mut &[u8],
) -> Result<Vec<Value>, Stop<ValueLimit>>
    requires { All (λ m. m.0 < length types.now.rows) ids.now }
    ensures { Gives (λ vs. vals_of (map meant vs.items)) result rest.new.now (members_at most_elements true (joined (trees_of types.now ids.now)) rest.old.now) }
{
    let mut members = Vec::with_capacity(alloc, ids.len())?;
    let mut is_first = true;
    for id in ids {
        let member = member(alloc, types, *id, is_first, rest)?;
        members.push(member)?;
        is_first = false;
    }
    Ok(members)
}

/// A member, with what stands before it.
#[cycle(read)]
#[tactic(auto, unfolding(crate::specs::Reading::member_at))]
fn member(
    alloc: Global,
    types: &Types,
    id: TypeId,
    is_first: bool,
    rest: &mut &[u8],
) -> Result<Value, Stop<ValueLimit>>
    requires { id.0 < length types.now.rows }
    ensures { Gives meant result rest.new.now (member_at is_first (value_at most_elements (tree_of types.now id.0)) rest.old.now) }
{
    separator(rest, is_first)?;
    value(alloc, types, id, rest)
}

/// An enum with these variants.
#[cycle(read)]
#[tactic(auto, unfolding(crate::specs::Kinds::enum_at))]
fn variant(
    alloc: Global,
    types: &Types,
    ids: &[TypeId],
    rest: &mut &[u8],
) -> Result<Value, Stop<ValueLimit>>
    requires below { All (λ m. m.0 < length types.now.rows) ids.now }
    requires few { length ids.now ≤ most_arguments }
    ensures { Gives meant result rest.new.now (enum_at (length ids.now) (joined (trees_of types.now ids.now)) rest.old.now) }
{
    let index = number(rest, ids.len() as u64)?;
    byte(rest, b':')?;
    let payload = value(alloc, types, ids[index as usize], rest)?;
    Ok(Value::from_variant(alloc, index as u32, payload)?)
}

/// An array of elements of the type.
#[cycle(read)]
#[tactic(auto, unfolding(crate::specs::Kinds::array_of, crate::specs::Reading::whole_array_at))]
fn array(
    alloc: Global,
    types: &Types,
    item: TypeId,
    rest: &mut &[u8],
) -> Result<Value, Stop<ValueLimit>>
    requires { item.0 < length types.now.rows }
    ensures { Gives meant result rest.new.now (array_of (tree_of types.now item.0 ∷ []) rest.old.now) }
{
    let start = *rest;
    match array_within(alloc, types, item, rest) {
        Ok(array) => Ok(array),
        Err(Stop::Limit(ValueLimit::OutOfRange)) => Err(out_of_range(types, item, start, rest)),
        Err(stop) => Err(stop),
    }
}

/// The fault of an array in which a number is out of range: it may be too long as well, and it begins before the number.
fn out_of_range<'a>(
    types: &Types,
    item: TypeId,
    start: &'a [u8],
    rest: &mut &'a [u8],
) -> Stop<ValueLimit>
    requires { item.0 < length types.now.rows }
    ensures { Gives meant (Err result) rest.new.now (told (answers (Err (Some limits.OutOfRange)) rest.old.now) (array_form_of (tree_of types.now item.0 ∷ []) start.now)) }
{
    let mut form = start;
    match skim_array(types, item, &mut form) {
        Err(Stop::Limit(ValueLimit::LongArray)) => {
            *rest = form;
            Stop::Limit(ValueLimit::LongArray)
        }
        Err(Stop::Memory) => Stop::Memory,
        _ => Stop::Limit(ValueLimit::OutOfRange),
    }
}

/// An array in which no number is out of range.
#[cycle(read)]
#[tactic(auto, unfolding(crate::specs::Reading::array_at))]
fn array_within(
    alloc: Global,
    types: &Types,
    item: TypeId,
    rest: &mut &[u8],
) -> Result<Value, Stop<ValueLimit>>
    requires { item.0 < length types.now.rows }
    ensures { Gives meant result rest.new.now (array_at (value_at most_elements (tree_of types.now item.0)) (most_elements (tree_of types.now item.0)) rest.old.now) }
{
    let start = *rest;
    byte(rest, b'[')?;
    if is_next(rest, b']') {
        byte(rest, b']')?;
        return Ok(Value::from_elements(alloc, VecDeque::new(alloc))?);
    }
    let elements = elements(alloc, types, item, start, rest)?;
    Ok(Value::from_elements(alloc, elements)?)
}

/// The elements of an array that begins at `start`, up to its end.
#[cycle(read)]
fn elements<'a>(
    alloc: Global,
    types: &Types,
    item: TypeId,
    start: &'a [u8],
    rest: &mut &'a [u8],
) -> Result<VecDeque<Value>, Stop<ValueLimit>>
    requires { item.0 < length types.now.rows }
    ensures { Gives (λ vs. vals_of (map meant vs.items)) result rest.new.now (elements_at (value_at most_elements (tree_of types.now item.0)) start.now (most_elements (tree_of types.now item.0)) true rest.old.now) }
{
    let mut elements = VecDeque::new(alloc);
    let mut room = most_elements(types, item);
    let mut is_first = true;
    while room > 0 {
        let (element, goes_on) = element(alloc, types, item, is_first, rest)?;
        elements.push_back(element)?;
        if !goes_on {
            return Ok(elements);
        }
        room -= 1;
        is_first = false;
    }
    *rest = start;
    Err(Stop::Limit(ValueLimit::LongArray))
}

/// An element, and whether the array goes on behind it.
#[cycle(read)]
#[tactic(auto, unfolding(crate::specs::Reading::element_at))]
fn element(
    alloc: Global,
    types: &Types,
    item: TypeId,
    is_first: bool,
    rest: &mut &[u8],
) -> Result<(Value, bool), Stop<ValueLimit>>
    requires { item.0 < length types.now.rows }
    ensures { Gives (λ p. (meant p.0, p.1)) result rest.new.now (element_at (value_at most_elements (tree_of types.now item.0)) is_first rest.old.now) }
{
    space(rest, is_first)?;
    let element = value(alloc, types, item, rest)?;
    let goes_on = goes_on(rest)?;
    Ok((element, goes_on))
}

/// A line of its own for a value of the type.
#[tactic(auto, unfolding(crate::specs::Reading::line_at))]
fn line(
    alloc: Global,
    types: &Types,
    id: TypeId,
    rest: &mut &[u8],
) -> Result<Value, Stop<ValueLimit>>
    requires { id.0 < length types.now.rows }
    ensures { Gives meant result rest.new.now (line_at most_elements (tree_of types.now id.0) rest.old.now) }
{
    let value = value(alloc, types, id, rest)?;
    byte(rest, b'\n')?;
    Ok(value)
}

/// A line for each value, up to the end of the text.
pub fn lines(
    alloc: Global,
    types: &Types,
    ids: &[TypeId],
    rest: &mut &[u8],
) -> Result<Vec<Value>, Stop<ValueLimit>>
    requires { All (λ m. m.0 < length types.now.rows) ids.now }
    ensures { Gives (λ vs. map meant vs.items) result rest.new.now (lines_at most_elements (trees_of types.now ids.now) rest.old.now) }
{
    let mut values = Vec::with_capacity(alloc, ids.len())?;
    for id in ids {
        let value = line(alloc, types, *id, rest)?;
        values.push(value)?;
    }
    if rest.is_empty() {
        Ok(values)
    } else {
        Err(Stop::Syntax)
    }
}
