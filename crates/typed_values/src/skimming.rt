//! Readers of a value's form alone: a number may be any, and nothing is made of what is read. Each takes a form from the head of `rest`
//! and stops as the readers of values do.

ghost use Rattle.std.specs.Prelude.{◌≡◌, ◌<◌, ◌∷◌, [], true, length};
ghost use Rattle.std.specs.List.{All};
ghost use Rattle.text_reading.specs.Given.{Gives};
ghost use Rattle.type_table.specs.View.{tree_of, trees_of, joined};
ghost use Rattle.typed_values.specs.Inputs.{most_elements};
ghost use Rattle.typed_values.specs.Kinds.{struct_form_at, enum_form_at, array_form_of};
ghost use Rattle.typed_values.specs.Skimming.{any_number_at, skim_at, skim_element, skim_elements, skim_member, skim_members};

use crate::fault::ValueLimit;
use crate::limits::most_elements;
use crate::marks::{behind_digits, byte, goes_on, number, separator, space};
use byte_reading::{DecimalFault, leading_decimal};
use text_reading::{Stop, is_next};
use type_table::{TypeId, TypeKind, Types};

/// A number, however great.
#[tactic(auto, using(crate::proofs::Numbers::leading_number, crate::proofs::Numbers::leading_none, crate::proofs::Numbers::leading_large), unfolding(crate::specs::Skimming::any_number_at))]
fn any_number(rest: &mut &[u8]) -> Result<(), Stop<ValueLimit>>
    ensures { Gives (λ unit. tt) result rest.new.now (any_number_at rest.old.now) }
{
    match leading_decimal(*rest, u128::MAX) {
        Ok((_, after)) => {
            *rest = after;
            Ok(())
        }
        Err(DecimalFault::NotDigits) => Err(Stop::Syntax),
        Err(DecimalFault::TooLarge) => {
            *rest = behind_digits(*rest);
            Ok(())
        }
    }
}

/// The form of a value of the type.
#[cycle(skim)]
pub fn skim(types: &Types, id: TypeId, rest: &mut &[u8]) -> Result<(), Stop<ValueLimit>>
    requires { id.0 < length types.now.rows }
    ensures { Gives (λ unit. tt) result rest.new.now (skim_at most_elements (tree_of types.now id.0) rest.old.now) }
{
    match types.kind(id) {
        TypeKind::Number(_) => any_number(rest),
        TypeKind::Struct => skim_struct(types, types.members(id), rest),
        TypeKind::Enum => skim_variant(types, types.members(id), rest),
        TypeKind::Array => match types.members(id) {
            [item] => skim_array(types, *item, rest),
            _ => Err(Stop::Syntax),
        },
        _ => Err(Stop::Syntax),
    }
}

/// The form of a struct of these members.
#[cycle(skim)]
#[tactic(auto, unfolding(crate::specs::Kinds::struct_form_at))]
fn skim_struct(types: &Types, ids: &[TypeId], rest: &mut &[u8]) -> Result<(), Stop<ValueLimit>>
    requires { All (λ m. m.0 < length types.now.rows) ids.now }
    ensures { Gives (λ unit. tt) result rest.new.now (struct_form_at (joined (trees_of types.now ids.now)) rest.old.now) }
{
    byte(rest, b'(')?;
    skim_members(types, ids, rest)?;
    byte(rest, b')')
}

/// The forms of the members of a struct.
#[cycle(skim)]
fn skim_members(types: &Types, ids: &[TypeId], rest: &mut &[u8]) -> Result<(), Stop<ValueLimit>>
    requires { All (λ m. m.0 < length types.now.rows) ids.now }
    ensures { Gives (λ unit. tt) result rest.new.now (skim_members most_elements true (joined (trees_of types.now ids.now)) rest.old.now) }
{
    let mut is_first = true;
    for id in ids {
        skim_member(types, *id, is_first, rest)?;
        is_first = false;
    }
    Ok(())
}

/// The form of a member, with what stands before it.
#[cycle(skim)]
#[tactic(auto, unfolding(crate::specs::Skimming::skim_member))]
fn skim_member(
    types: &Types,
    id: TypeId,
    is_first: bool,
    rest: &mut &[u8],
) -> Result<(), Stop<ValueLimit>>
    requires { id.0 < length types.now.rows }
    ensures { Gives (λ unit. tt) result rest.new.now (skim_member is_first (skim_at most_elements (tree_of types.now id.0)) rest.old.now) }
{
    separator(rest, is_first)?;
    skim(types, id, rest)
}

/// The form of an enum with these variants.
#[cycle(skim)]
#[tactic(auto, unfolding(crate::specs::Kinds::enum_form_at))]
fn skim_variant(types: &Types, ids: &[TypeId], rest: &mut &[u8]) -> Result<(), Stop<ValueLimit>>
    requires { All (λ m. m.0 < length types.now.rows) ids.now }
    ensures { Gives (λ unit. tt) result rest.new.now (enum_form_at (length ids.now) (joined (trees_of types.now ids.now)) rest.old.now) }
{
    let index = number(rest, ids.len() as u64)?;
    byte(rest, b':')?;
    skim(types, ids[index as usize], rest)
}

/// The form of an array of elements of the type.
#[cycle(skim)]
#[tactic(auto, unfolding(crate::specs::Kinds::array_form_of, crate::specs::Skimming::skim_array))]
pub fn skim_array(types: &Types, item: TypeId, rest: &mut &[u8]) -> Result<(), Stop<ValueLimit>>
    requires { item.0 < length types.now.rows }
    ensures { Gives (λ unit. tt) result rest.new.now (array_form_of (tree_of types.now item.0 ∷ []) rest.old.now) }
{
    let start = *rest;
    byte(rest, b'[')?;
    if is_next(rest, b']') {
        byte(rest, b']')
    } else {
        skim_elements(types, item, start, rest)
    }
}

/// The forms of the elements of an array that begins at `start`, up to its end.
#[cycle(skim)]
fn skim_elements<'a>(
    types: &Types,
    item: TypeId,
    start: &'a [u8],
    rest: &mut &'a [u8],
) -> Result<(), Stop<ValueLimit>>
    requires { item.0 < length types.now.rows }
    ensures { Gives (λ unit. tt) result rest.new.now (skim_elements (skim_at most_elements (tree_of types.now item.0)) start.now (most_elements (tree_of types.now item.0)) true rest.old.now) }
{
    let mut room = most_elements(types, item);
    let mut is_first = true;
    while room > 0 {
        let goes_on = skim_element(types, item, is_first, rest)?;
        if !goes_on {
            return Ok(());
        }
        room -= 1;
        is_first = false;
    }
    *rest = start;
    Err(Stop::Limit(ValueLimit::LongArray))
}

/// The form of an element, and whether the array goes on behind it.
#[cycle(skim)]
#[tactic(auto, unfolding(crate::specs::Skimming::skim_element))]
fn skim_element(
    types: &Types,
    item: TypeId,
    is_first: bool,
    rest: &mut &[u8],
) -> Result<bool, Stop<ValueLimit>>
    requires { item.0 < length types.now.rows }
    ensures { Gives (λ goes_on. goes_on) result rest.new.now (skim_element (skim_at most_elements (tree_of types.now item.0)) is_first rest.old.now) }
{
    space(rest, is_first)?;
    skim(types, item, rest)?;
    goes_on(rest)
}
