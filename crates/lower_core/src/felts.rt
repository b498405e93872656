//! Felts and constants: fragments.

ghost use Rattle.std.specs.Prelude.{◌≡◌, IfOk};
ghost use Rattle.std.specs.List.{All};
ghost use Rattle.cost_table.specs.Fits.{IsCloseExpr};
ghost use Rattle.cost_table.specs.Groups.{if_felts};
ghost use Rattle.frag_plan.specs.Plan.{fragment};
ghost use Rattle.libfunc_registry.specs.Fam.{fam_of};
ghost use Rattle.lower_core.specs.Felts.{felts_plan};

use casm_word::CellExpr;
use cell_terms::Slot;
use frag_code::{Frag, Piece};
use libfunc_registry::Libfunc;
use lower_kit::cell_at;
use std::alloc::{AllocError, Global};
use type_table::Types;

/// The fragment of a libfunc of this group, if it is one.
pub(crate) fn felts(
    alloc: Global,
    types: &Types,
    libfunc: Libfunc,
    args: &[CellExpr],
) -> Result<Option<Frag>, AllocError>
    requires close { All IsCloseExpr args.now }
    ensures { IfOk result (λ made. made ≡ if_felts (λ fam. fragment args.now (felts_plan fam)) (fam_of types.now libfunc)) }
{
    let frag = match libfunc {
        Libfunc::IsZero(_) => {
            let word = cell_at(Slot::Arg(0), args, 0);
            Frag::from_pieces(
                alloc,
                &[Piece::IfNonZero(word, 2), Piece::Exit(0), Piece::Exit(1)],
            )?
        }
        Libfunc::Const(_, _)
        | Libfunc::FeltAdd
        | Libfunc::FeltSub
        | Libfunc::FeltMul
        | Libfunc::UnwrapNonZero(_) => Frag::from_pieces(alloc, &[Piece::Exit(0)])?,
        _ => return Ok(None),
    };
    Ok(Some(frag))
}
