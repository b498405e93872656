//! Sizes of types.

ghost use Rattle.std.specs.Prelude.{◌≡◌, ◌≤◌, ◌^◌, length};
ghost use Rattle.type_trees.specs.Ty as ty;
ghost use Rattle.type_table.specs.Trees.{parts};
ghost use Rattle.type_table.specs.View.{IsTable, tree_of};
ghost use Rattle.libfunc_registry.specs.Wanted.{IsBelow, IsPlaced};
ghost use Rattle.cost_table.specs.Fits.{IsSignature};
ghost use Rattle.libfunc_registry.specs.Fam.{fam_of};
ghost use Rattle.lower_kit.specs.Fitting.{IsAsDeclared};

use libfunc_registry::Sig;
use type_table::{TypeId, Types};

/// That the positions of a signature's libfunc are of types of the table, and its family as declared ones are. It does nothing.
pub(crate) fn placed(types: &Types, sig: &Sig)
    requires { IsSignature types.now sig.now }
    ensures placed { IsPlaced types.now sig.now.libfunc }
    ensures declared { IsAsDeclared (fam_of types.now sig.now.libfunc) }
{
    let _count = types.len();
}

/// The number of cells of a value.
pub(crate) fn size(types: &Types, t: TypeId) -> u64
    requires { IsBelow types.now t }
    ensures size { result ≡ ty.size (tree_of types.now t.0) }
    ensures few { result ≤ 2 ^ 14 }
{
    let _count = types.len();
    u64::from(types.info(t).size)
}

/// The number of variants of an enum.
pub(crate) fn variant_count(types: &Types, t: TypeId) -> u64
    requires { IsBelow types.now t }
    ensures count { result ≡ length (parts (tree_of types.now t.0)) }
    ensures few { result ≤ 2 ^ 24 }
{
    types.members(t).len() as u64
}
