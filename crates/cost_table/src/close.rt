//! Whether offsets are near enough for a statement to take its arguments.

ghost use Rattle.std.specs.Prelude.{◌↔◌, IsTrue};
ghost use Rattle.std.specs.List.{All};
ghost use Rattle.cost_table.specs.Fits.{IsClose, IsCloseSide, IsCloseExpr};

use casm_word::{At, CellExpr, Side};

/// The least offset that a statement takes, and the greatest.
const LEAST: i64 = -(1 << 14);

const MOST: i64 = (1 << 14) - 1;

/// Whether a statement takes a cell with this offset.
fn is_close_at(at: At) -> bool
    ensures { IsTrue result ↔ IsClose at }
{
    LEAST <= at.off && at.off <= MOST
}

/// Whether a statement takes this operand.
fn is_close_side(side: Side) -> bool
    ensures { IsTrue result ↔ IsCloseSide side }
{
    match side {
        Side::Cell(at) => is_close_at(at),
        Side::Imm(_) => true,
    }
}

/// Whether each offset from a register is from `-2^14` to `2^14 - 1`. An inner offset doesn't count.
pub fn is_close(expr: CellExpr) -> bool
    ensures { IsTrue result ↔ IsCloseExpr expr }
{
    match expr {
        CellExpr::Cell(at) | CellExpr::DoubleCell(at, _) => is_close_at(at),
        CellExpr::Imm(_) => true,
        CellExpr::Sum(at, side) | CellExpr::Diff(at, side) | CellExpr::Product(at, side) => {
            is_close_at(at) && is_close_side(side)
        }
    }
}

/// Whether this is so of each of the expressions.
pub fn are_close(exprs: &[CellExpr]) -> bool
    ensures { IsTrue result ↔ All IsCloseExpr exprs.now }
{
    exprs.iter().all(|expr| is_close(*expr))
}
