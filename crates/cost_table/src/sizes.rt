//! Sizes of types, and what a signature says of positions.

ghost use Rattle.std.specs.Prelude.{◌≡◌, ◌<◌, ◌≤◌, ◌^◌, length, IfSome, IfNone};
ghost use Rattle.std.specs.List.{All};
ghost use Rattle.type_trees.specs.Ty as ty;
ghost use Rattle.type_table.specs.Trees.{parts};
ghost use Rattle.type_table.specs.View.{IsTable, tree_of, trees_of};
ghost use Rattle.libfunc_registry.specs.Data.{part_at};
ghost use Rattle.libfunc_registry.specs.Wanted.{IsBelow, HasPart, IsPlaced};
ghost use Rattle.cost_table.specs.Fits.{IsSignature};
ghost use Rattle.cost_table.specs.Results.{cells_of};

use libfunc_registry::Sig;
use type_table::{TypeId, Types};

/// More cells than any memory has; with fewer, no offset passes 64 bits.
const TOO_MANY: u64 = 1 << 62;

/// Tells proofs that a signature's positions are those of declared types and functions; it does nothing when it runs.
pub(crate) fn placed(types: &Types, sig: &Sig)
    requires { IsSignature types.now sig.now }
    ensures table { IsTable types.now }
    ensures placed { IsPlaced types.now sig.now.libfunc }
{
    let _count = types.len();
}

/// The number of cells of a value.
pub(crate) fn size(types: &Types, t: TypeId) -> u32
    requires { IsBelow types.now t }
    ensures size { result ≡ ty.size (tree_of types.now t.0) }
    ensures few { result ≤ 2 ^ 14 }
{
    let _count = types.len();
    types.info(t).size
}

/// The number of cells of a variant of an enum, by its index.
pub(crate) fn part_size(types: &Types, t: TypeId, index: usize) -> u32
    requires { HasPart types.now t index }
    ensures size { result ≡ ty.size (part_at (tree_of types.now t.0) index) }
    ensures few { result ≤ 2 ^ 14 }
{
    size(types, types.members(t)[index])
}

/// The number of variants of an enum.
pub(crate) fn part_count(types: &Types, t: TypeId) -> u32
    requires { IsBelow types.now t }
    ensures count { result ≡ length (parts (tree_of types.now t.0)) }
    ensures few { result ≤ 2 ^ 24 }
{
    types.members(t).len() as u32
}

/// The number of cells that values of these types take together, if it is below `2^62`.
pub fn cells_of(types: &Types, list: &[TypeId]) -> Option<u64>
    requires { All (IsBelow types.now) list.now }
    ensures few { IfSome result (λ cells. (cells ≡ cells_of (trees_of types.now list.now)) × (cells < 2 ^ 62)) }
    ensures many { IfNone result (2 ^ 62 ≤ cells_of (trees_of types.now list.now)) }
{
    let mut cells: u64 = 0;
    for t in list {
        if cells >= TOO_MANY {
            return None;
        }
        cells += u64::from(size(types, *t));
    }
    (cells < TOO_MANY).then_some(cells)
}
