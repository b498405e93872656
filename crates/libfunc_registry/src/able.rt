//! The abilities that families ask of their types.

ghost use Rattle.std.specs.Prelude.{◌↔◌, ◌<◌, length, IsTrue};
ghost use Rattle.libfunc_registry.specs.Fam.{fam_of, IsAble, HasSnapshot};
ghost use Rattle.libfunc_registry.specs.Wanted.{IsPlaced};
ghost use Rattle.type_table.specs.View.{tree_of};

use crate::libfunc::Libfunc;
use type_table::{TypeId, TypeKind, Types};

/// Whether the types have the abilities that the family asks.
pub(crate) fn is_able(types: &Types, libfunc: Libfunc) -> bool
    requires { IsPlaced types.now libfunc }
    ensures { IsTrue result ↔ IsAble (fam_of types.now libfunc) }
{
    match libfunc {
        Libfunc::Dup(t) => types.info(t).dup,
        Libfunc::Drop(t) => types.info(t).drop,
        Libfunc::StoreTemp(t) | Libfunc::StoreLocal(t) | Libfunc::AllocLocal(t) => types
            .info(t)
            .storable,
        Libfunc::SnapshotTake(t) => has_snapshot(types, t),
        _ => true,
    }
}

/// Whether a snapshot of the type may be taken.
fn has_snapshot(types: &Types, t: TypeId) -> bool
    requires { t.0 < length types.now.rows }
    ensures { IsTrue result ↔ HasSnapshot (tree_of types.now t.0) }
{
    let info = types.info(t);
    let is_builtin = matches!(types.kind(t), TypeKind::RangeCheck | TypeKind::GasBuiltin);
    info.storable && !info.holds_dict && !is_builtin
}
