//! Cells of names, as pieces have them.

ghost use Rattle.std.specs.Prelude.{◌≡◌, ◌<◌, ◌^◌};
ghost use Rattle.std.specs.List.{All};
ghost use Rattle.cost_table.specs.Fits.{IsCloseExpr};
ghost use Rattle.cost_table.specs.Parts.{IsSmallSlot};
ghost use Rattle.frag_plan.specs.Plan.{ref_of};
ghost use Rattle.lower_kit.specs.Small as small;

use casm_word::{CellExpr, CellRef, Reg};
use cell_terms::{Slot, Term, resolve};

/// The cell of a name, ap having moved `by` cells since the fragment's begin.
pub fn cell_at(slot: Slot, args: &[CellExpr], by: u64) -> CellRef
    requires close { All IsCloseExpr args.now }
    requires by { by < 2 ^ 62 }
    requires wide { IsSmallSlot slot }
    requires small { small.IsSmallSlot by slot }
    ensures { result ≡ ref_of by args.now slot }
{
    match resolve(Term::Cell(slot), args, by) {
        CellExpr::Cell(at) => CellRef {
            reg: at.base,
            off: at.off as i16,
        },
        _ => CellRef {
            reg: Reg::Ap,
            off: 0,
        },
    }
}
