//! The positions of the types of a signature.

ghost use Rattle.std.specs.Prelude.{◌≡◌, ◌∷◌, [], map, IfOk};
ghost use Rattle.std.specs.List.{All};
ghost use Rattle.type_trees.specs.Ty as ty;
ghost use Rattle.type_table.specs.Shapes.{access, shaped};
ghost use Rattle.type_table.specs.View.{IsTable, tree_of, trees_of};
ghost use Rattle.libfunc_registry.specs.Wanted.{IsBelow, IsPlacedWanted, IsPlacedList, ArePlaced, wanted_tree, listed_trees, branch_trees, Finds, FindsAll, FindsEach};

use crate::wanted::{Branches, Listed, Wanted};
use sierra_types::List;
use std::alloc::{AllocError, Global};
use type_table::{Shape, TypeId, Types};
use type_trees::Num;

/// What the table keeps, told to proofs; it does nothing when it runs.
pub(crate) fn keeps(types: &Types)
    ensures { IsTable types.now }
{
    let _count = types.len();
}

/// The type of this shape, if it is declared.
fn find_shape(types: &Types, shape: Shape) -> Option<TypeId>
    ensures { Finds types.now (shaped types.now shape) result }
{
    types.find(shape)
}

/// The type of snapshots of a type, if it is declared.
fn snap(types: &Types, t: TypeId) -> Option<TypeId>
    requires { IsBelow types.now t }
    ensures { Finds types.now (ty.snap (tree_of types.now t.0)) result }
{
    keeps(types);
    if types.info(t).dup {
        Some(t)
    } else {
        find_shape(types, Shape::Snapshot(t))
    }
}

/// The box of the type of snapshots of a type, if it is declared.
fn box_of_snap(types: &Types, t: TypeId) -> Option<TypeId>
    requires { IsBelow types.now t }
    ensures { Finds types.now (ty.box (ty.snap (tree_of types.now t.0))) result }
{
    keeps(types);
    let part = snap(types, t)?;
    find_shape(types, Shape::Box(part))
}

/// The snapshot of the array of a type, if it is declared.
fn snapshot_of_array(types: &Types, t: TypeId) -> Option<TypeId>
    ensures { Finds types.now (ty.snapshot (ty.array (tree_of types.now t.0))) result }
{
    keeps(types);
    let part = find_shape(types, Shape::Array(t))?;
    find_shape(types, Shape::Snapshot(part))
}

/// The array of the accesses of a dictionary, if it is declared.
fn entries(types: &Types, num: Num) -> Option<TypeId>
    ensures { Finds types.now (ty.array (access num)) result }
{
    keeps(types);
    let part = find_shape(types, Shape::Access(num))?;
    find_shape(types, Shape::Array(part))
}

/// The type that is sought, if it is declared.
fn find(types: &Types, wanted: Wanted) -> Option<TypeId>
    requires { IsPlacedWanted types.now wanted }
    ensures { Finds types.now (wanted_tree types.now wanted) result }
{
    keeps(types);
    match wanted {
        Wanted::At(t) => Some(t),
        Wanted::Shaped(shape) => find_shape(types, shape),
        Wanted::Snap(t) => snap(types, t),
        Wanted::BoxOfSnap(t) => box_of_snap(types, t),
        Wanted::SnapshotOfArray(t) => snapshot_of_array(types, t),
        Wanted::Entries(num) => entries(types, num),
        Wanted::Variant(t, index) => Some(types.members(t)[index as usize]),
    }
}

/// The positions of all types that are sought, if they are declared.
fn find_all(
    alloc: Global,
    types: &Types,
    wanted: &[Wanted],
) -> Result<Option<List<TypeId>>, AllocError>
    requires { All (IsPlacedWanted types.now) wanted.now }
    ensures { IfOk result (FindsAll types.now (map (wanted_tree types.now) wanted.now)) }
{
    let mut found = Vec::with_capacity(alloc, wanted.len())?;
    for one in wanted {
        let Some(t) = find(types, *one) else {
            return Ok(None);
        };
        found.push(t)?;
    }
    Ok(Some(List::new(found)))
}

/// The positions of the types of snapshots of these types, if they are declared.
fn find_snaps(
    alloc: Global,
    types: &Types,
    parts: &[TypeId],
) -> Result<Option<List<TypeId>>, AllocError>
    requires { All (IsBelow types.now) parts.now }
    ensures { IfOk result (FindsAll types.now (map (λ t. ty.snap (tree_of types.now t.0)) parts.now)) }
{
    let mut found = Vec::with_capacity(alloc, parts.len())?;
    for part in parts {
        let Some(t) = snap(types, *part) else {
            return Ok(None);
        };
        found.push(t)?;
    }
    Ok(Some(List::new(found)))
}

/// The same positions in a list of their own.
fn copied(alloc: Global, types: &[TypeId]) -> Result<List<TypeId>, AllocError>
    ensures { IfOk result (λ copy. copy ≡ types.now) }
{
    Ok(List::new(Vec::from_slice(alloc, types)?))
}

/// The positions of the types of a list, if they are declared.
pub(crate) fn find_list(
    alloc: Global,
    types: &Types,
    listed: Listed,
) -> Result<Option<List<TypeId>>, AllocError>
    requires { IsPlacedList types.now listed }
    ensures { IfOk result (FindsAll types.now (listed_trees types.now listed)) }
{
    keeps(types);
    match listed {
        Listed::Nothing => Ok(Some(List::new(Vec::new(alloc)))),
        Listed::One(a) => find_all(alloc, types, &[a]),
        Listed::Two(a, b) => find_all(alloc, types, &[a, b]),
        Listed::Three(a, b, c) => find_all(alloc, types, &[a, b, c]),
        Listed::Parts(t) => Ok(Some(copied(alloc, types.members(t))?)),
        Listed::Snaps(t) => find_snaps(alloc, types, types.members(t)),
        Listed::Params(f) => Ok(Some(copied(alloc, types.params(f))?)),
        Listed::Results(f) => Ok(Some(copied(alloc, types.results(f))?)),
    }
}

/// A branch for each of these types, with that type alone.
fn each_alone(alloc: Global, parts: &[TypeId]) -> Result<List<List<TypeId>>, AllocError>
    ensures { IfOk result (λ branches. branches ≡ map (λ part. part ∷ []) parts.now) }
{
    let mut branches = Vec::with_capacity(alloc, parts.len())?;
    for part in parts {
        branches.push(List::new(vec![in alloc; *part]?))?;
    }
    Ok(List::new(branches))
}

/// The positions of the types that each branch gives, if they are declared.
pub(crate) fn find_branches(
    alloc: Global,
    types: &Types,
    given: Branches,
) -> Result<Option<List<List<TypeId>>>, AllocError>
    requires { ArePlaced types.now given }
    ensures { IfOk result (FindsEach types.now (branch_trees types.now given)) }
{
    keeps(types);
    match given {
        Branches::Single(only) => {
            let Some(only) = find_list(alloc, types, only)? else {
                return Ok(None);
            };
            Ok(Some(List::new(vec![in alloc; only]?)))
        }
        Branches::Double(first, second) => {
            let Some(first) = find_list(alloc, types, first)? else {
                return Ok(None);
            };
            let Some(second) = find_list(alloc, types, second)? else {
                return Ok(None);
            };
            Ok(Some(List::new(vec![in alloc; first, second]?)))
        }
        Branches::EachPart(t) => Ok(Some(each_alone(alloc, types.members(t))?)),
        Branches::EachSnap(t) => {
            let Some(snaps) = find_snaps(alloc, types, types.members(t))? else {
                return Ok(None);
            };
            Ok(Some(each_alone(alloc, snaps.items())?))
        }
    }
}
