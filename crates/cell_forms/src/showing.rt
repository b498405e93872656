//! Values shown: which value stands in some cells.

ghost use Rattle.std.specs.Prelude.{◌≡◌, ◌-◌, ◌<◌, ◌≤◌, IsTrue, Err, IfOk, false, drop, get_or, length, map, Some, take};
ghost use Rattle.std.specs.FinMap as finmap;
ghost use Rattle.std.specs.List.{All};
ghost use Rattle.type_trees.specs.Ty.{is_plain, holds_array, size};
ghost use Rattle.type_table.specs.IsType.{most_arguments};
ghost use Rattle.type_table.specs.View.{tree_of, trees_of, joined};
ghost use Rattle.value_trees.specs.Meant.{meant};
ghost use Rattle.value_trees.specs.Of.{bound};
ghost use Rattle.value_trees.specs.Val.{Plain};
ghost use Rattle.cell_forms.specs.Showing.{Shows, enum_in, number_in, shown, shown_together};
ghost use Rattle.cell_forms.specs.Standing.{PlainStands};
ghost use Rattle.cell_forms.specs.Standing.Padding.{any};

use felt64::{Felt, MODULUS};
use ro_machine::Memory;
use std::alloc::{AllocError, AllocFailed, Global};
use thiserror::Error;
use type_table::{TypeId, TypeKind, Types};
use type_trees::Num;
use value_trees::Value;

/// Why no value is shown.
#[derive(Clone, Copy, Debug, PartialEq, Eq, Drop, Error)]
pub enum ShowFault {
    /// No value of the type stands in the cells.
    #[error("no value of the type stands there")]
    NoValue,
    /// Memory ran out.
    #[error("out of memory")]
    Memory,
}

impl From<AllocError> for ShowFault {
    ghost use Rattle.std.specs.Prelude.{◌≡◌};
    ghost use Rattle.cell_forms.specs.declared.showing.ShowFault.TheVariants.{Memory};

    ghost from_gives = { λ _ fault. fault ≡ Memory };

    fn from(_: AllocError) -> ShowFault {
        ShowFault::Memory
    }
}

impl<T: Drop> From<AllocFailed<T>> for ShowFault {
    ghost use Rattle.std.specs.Prelude.{◌≡◌};
    ghost use Rattle.cell_forms.specs.declared.showing.ShowFault.TheVariants.{Memory};

    ghost from_gives = { λ _ fault. fault ≡ Memory };

    fn from(_: AllocFailed<T>) -> ShowFault {
        ShowFault::Memory
    }
}

/// The value of a plain type that stands in the cells, which are as many as its size. Arrays aren't built yet: the memory,
/// in which their elements stand, isn't read.
#[tactic(auto)]
pub fn show(
    alloc: Global,
    _m: &Memory,
    cells: &[Felt],
    t: &Types,
    ty: TypeId,
) -> Result<Value, ShowFault>
    requires below { ty.0 < length t.now.rows }
    requires plain { IsTrue (is_plain (tree_of t.now ty.0)) }
    requires no_array { holds_array (tree_of t.now ty.0) ≡ false }
    requires whole { length cells.now ≡ size (tree_of t.now ty.0) }
    ensures stands { IfOk result (λ v. PlainStands any (finmap.get _m.now) (tree_of t.now ty.0) (map Some cells.now) (meant v)) }
    ensures no_value { result ≡ Err ShowFault.NoValue → (v : Plain) → PlainStands any (finmap.get _m.now) (tree_of t.now ty.0) (map Some cells.now) v → ⊥ }
{
    value_in(alloc, t, ty, cells)
}

/// The value of the type that is shown of the cells.
#[cycle(show)]
fn value_in(alloc: Global, t: &Types, ty: TypeId, cells: &[Felt]) -> Result<Value, ShowFault>
    requires { ty.0 < length t.now.rows }
    ensures { Shows meant result (shown (tree_of t.now ty.0) cells.now) }
{
    match t.kind(ty) {
        TypeKind::Number(num) => number_in(num, cells),
        TypeKind::Struct => Ok(Value::from_members(members_in(alloc, t, t.members(ty), cells)?)),
        TypeKind::Enum => variant_in(alloc, t, t.members(ty), cells),
        _ => Err(ShowFault::NoValue),
    }
}

/// A number of the type, in one cell.
#[tactic(auto, unfolding(crate::specs::Showing::number_in))]
fn number_in(num: Num, cells: &[Felt]) -> Result<Value, ShowFault>
    ensures { Shows meant result (number_in num cells.now) }
{
    if cells.len() != 1 {
        return Err(ShowFault::NoValue);
    }
    let n = cells[0].value();
    if n < bound(num) {
        Ok(Value::from_number(num, n))
    } else {
        Err(ShowFault::NoValue)
    }
}

/// The numbers of the type are those below this one.
fn bound(num: Num) -> u64
    ensures { result ≡ bound num }
{
    match num {
        Num::Felt64 => MODULUS,
        Num::U8 => 1 << 8,
        Num::U16 => 1 << 16,
        Num::U32 => 1 << 32,
    }
}

/// The members of a struct, which take all of the cells.
#[cycle(show)]
fn members_in(
    alloc: Global,
    t: &Types,
    ids: &[TypeId],
    cells: &[Felt],
) -> Result<Vec<Value>, ShowFault>
    requires { All (λ m. m.0 < length t.now.rows) ids.now }
    ensures { Shows (λ vs. map meant vs.items) result (shown_together (joined (trees_of t.now ids.now)) cells.now) }
{
    let mut members = Vec::with_capacity(alloc, ids.len())?;
    let mut rest = cells;
    for id in ids {
        let (front, behind) = parted(rest, t.info(*id).size as usize);
        let member = value_in(alloc, t, *id, front)?;
        members.push(member)?;
        rest = behind;
    }
    if rest.is_empty() {
        Ok(members)
    } else {
        Err(ShowFault::NoValue)
    }
}

/// So many of the cells, and those behind them.
fn parted(cells: &[Felt], count: usize) -> (&[Felt], &[Felt])
    ensures front { result.0.now ≡ take count cells.now }
    ensures behind { result.1.now ≡ drop count cells.now }
{
    cells.split_at(count.min(cells.len()))
}

/// So many of the last cells.
fn last(cells: &[Felt], count: usize) -> &[Felt]
    ensures { result.now ≡ drop (length cells.now - count) cells.now }
{
    &cells[cells.len().saturating_sub(count)..]
}

/// The selector of an enum, in the first of its cells.
fn selector(whole: &[Felt]) -> u64
    requires { 0 < length whole.now }
    ensures { result ≡ get_or whole.now 0 0 }
{
    whole[0].value()
}

/// An enum with these variants: the selector, then padding, then the payload.
#[cycle(show)]
fn variant_in(alloc: Global, t: &Types, ids: &[TypeId], cells: &[Felt]) -> Result<Value, ShowFault>
    requires below { All (λ m. m.0 < length t.now.rows) ids.now }
    requires few { length ids.now ≤ most_arguments }
    ensures { Shows meant result (enum_in (joined (trees_of t.now ids.now)) cells.now) }
{
    if cells.is_empty() {
        return Err(ShowFault::NoValue);
    }
    let index = selector(cells);
    if index >= ids.len() as u64 {
        return Err(ShowFault::NoValue);
    }
    let id = ids[index as usize];
    let payload = value_in(alloc, t, id, last(&cells[1..], t.info(id).size as usize))?;
    Ok(Value::from_variant(alloc, index as u32, payload)?)
}
