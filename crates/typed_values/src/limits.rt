//! The limits of numbers and arrays.

ghost use Rattle.std.specs.Prelude.{◌≡◌, ◌<◌, length};
ghost use Rattle.type_table.specs.View.{tree_of};
ghost use Rattle.value_trees.specs.Of.{bound};
ghost use Rattle.typed_values.specs.Inputs.{most_elements};

use felt64::MODULUS;
use type_table::{TypeId, Types};
use type_trees::Num;

/// An array has at most this many cells.
const MOST_CELLS: u64 = 1 << 20;

/// The numbers of the type are those below this one.
pub fn bound(num: Num) -> u64
    ensures { result ≡ bound num }
{
    match num {
        Num::Felt64 => MODULUS,
        Num::U8 => 1 << 8,
        Num::U16 => 1 << 16,
        Num::U32 => 1 << 32,
    }
}

/// As many elements of the type as have `MOST_CELLS` cells together.
pub fn most_elements(types: &Types, item: TypeId) -> u64
    requires { item.0 < length types.now.rows }
    ensures { result ≡ most_elements (tree_of types.now item.0) }
{
    MOST_CELLS / (types.info(item).size as u64).max(1)
}
