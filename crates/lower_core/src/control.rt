//! Control and places: fragments.

ghost use Rattle.std.specs.Prelude.{◌≡◌, ◌<◌, ◌^◌, IfOk};
ghost use Rattle.std.specs.List.{All};
ghost use Rattle.casm_word.specs.Expressions.{IsExprInField};
ghost use Rattle.cost_table.specs.Fits.{IsCloseExpr};
ghost use Rattle.cost_table.specs.Groups.{if_control};
ghost use Rattle.cost_table.specs.Terms.{kept};
ghost use Rattle.frag_plan.specs.Plan.{exit, fragment};
ghost use Rattle.libfunc_registry.specs.Fam.{fam_of};
ghost use Rattle.libfunc_registry.specs.Wanted.{IsBelow, IsPlaced};
ghost use Rattle.lower_kit.specs.Rows.{lay_each, same_each};
ghost use Rattle.type_table.specs.View.{tree_of};
ghost use Rattle.type_trees.specs.Ty as ty;
ghost use Rattle.lower_core.specs.Control.{control_plan};

use crate::sizes::size;
use casm_word::CellExpr;
use frag_code::{Frag, Piece};
use libfunc_registry::Libfunc;
use lower_kit::{push_copied, push_laid};
use std::alloc::{AllocError, Global};
use type_table::{TypeId, Types};

/// The fragment of a libfunc of this group, if it is one. The amount is that of `finalize_locals`, in cells.
pub(crate) fn control(
    alloc: Global,
    types: &Types,
    libfunc: Libfunc,
    args: &[CellExpr],
    amount: u64,
) -> Result<Option<Frag>, AllocError>
    requires placed { IsPlaced types.now libfunc }
    requires close { All IsCloseExpr args.now }
    requires in_field { All IsExprInField args.now }
    requires amount { amount < 2 ^ 40 }
    ensures { IfOk result (λ made. made ≡ if_control (λ fam. fragment args.now (control_plan amount fam)) (fam_of types.now libfunc)) }
{
    let frag = match libfunc {
        Libfunc::StoreTemp(t) => store_temp(alloc, types, t, args)?,
        Libfunc::StoreLocal(t) => store_local(alloc, types, t, args)?,
        Libfunc::FinalizeLocals => {
            Frag::from_pieces(alloc, &[Piece::Reserve(amount), Piece::Exit(0)])?
        }
        Libfunc::BranchAlign
        | Libfunc::Jump
        | Libfunc::Rename(_)
        | Libfunc::Dup(_)
        | Libfunc::Drop(_)
        | Libfunc::AllocLocal(_)
        | Libfunc::DisableApTracking
        | Libfunc::EnableApTracking => Frag::from_pieces(alloc, &[Piece::Exit(0)])?,
        _ => return Ok(None),
    };
    Ok(Some(frag))
}

/// Each cell of the argument is laid anew.
fn store_temp(
    alloc: Global,
    types: &Types,
    t: TypeId,
    args: &[CellExpr],
) -> Result<Frag, AllocError>
    requires below { IsBelow types.now t }
    requires close { All IsCloseExpr args.now }
    requires in_field { All IsExprInField args.now }
    ensures { IfOk result (λ f. f ≡ fragment args.now (lay_each (kept 0 (ty.size (tree_of types.now t.0))) (exit 0))) }
{
    let mut frag = Frag::new(alloc);
    push_laid(&mut frag, args, size(types, t))?;
    frag.push(Piece::Exit(0))?;
    Ok(frag)
}

/// Each cell of the local, the first argument, has the word of the value's.
fn store_local(
    alloc: Global,
    types: &Types,
    t: TypeId,
    args: &[CellExpr],
) -> Result<Frag, AllocError>
    requires below { IsBelow types.now t }
    requires close { All IsCloseExpr args.now }
    requires in_field { All IsExprInField args.now }
    ensures { IfOk result (λ f. f ≡ fragment args.now (same_each 0 (kept (ty.size (tree_of types.now t.0)) (ty.size (tree_of types.now t.0))) (exit 0))) }
{
    let mut frag = Frag::new(alloc);
    let cells = size(types, t);
    push_copied(&mut frag, args, cells, cells)?;
    frag.push(Piece::Exit(0))?;
    Ok(frag)
}
