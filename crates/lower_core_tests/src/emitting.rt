//! The code of a fragment, where what `emit` asks of it is tested as it runs.

ghost use Rattle.std.specs.Prelude.{◌≡◌, ◌≤◌, ◌<◌, ◌^◌, ◌*◌, ℕ, IsTrue, length, slice_index};
ghost use Rattle.std.specs.List.{All};
ghost use Rattle.casm_word.specs.Offset.{IsNear};
ghost use Rattle.casm_word.specs.Expressions.{IsExprInField, IsSideInField};
ghost use Rattle.frag_code.specs.Emit.{cells_of_code};
ghost use Rattle.frag_code.specs.Form.{IsExprNear, IsPieceNear, IsSideNear, has_jump, shape};
ghost use Rattle.frag_code.specs.Meaning.{AreEntries};
ghost use Rattle.lower_core_tests.specs.Led.{IsLed};

use crate::laws::{codes_are_short, pieces_are_led};
use casm_word::{At, CellExpr, Side};
use felt64::MODULUS;
use frag_code::{Emitted, Frag, Piece, emit};
use std::alloc::{AllocError, Global};

/// Where the code begins, and the cells of the branches.
pub(crate) const AT: u64 = 100;

pub(crate) const EXITS: [u64; 4] = [500, 600, 700, 800];

fn is_near_at(at: At) -> bool
    ensures { IsTrue result → IsNear at.off }
{
    -(1 << 15) <= at.off && at.off < 1 << 15
}

fn is_near_side(side: Side) -> bool
    ensures { IsTrue result → IsSideNear side }
{
    match side {
        Side::Cell(at) => is_near_at(at),
        Side::Imm(_) => true,
    }
}

fn is_near_expr(expr: CellExpr) -> bool
    ensures { IsTrue result → IsExprNear expr }
{
    match expr {
        CellExpr::Cell(at) | CellExpr::DoubleCell(at, _) => is_near_at(at),
        CellExpr::Imm(_) => true,
        CellExpr::Sum(at, side) | CellExpr::Diff(at, side) | CellExpr::Product(at, side) => {
            is_near_at(at) && is_near_side(side)
        }
    }
}

/// Whether each offset of the piece has 16 bits.
fn is_near_piece(piece: Piece) -> bool
    ensures { IsTrue result → IsPieceNear piece }
{
    match piece {
        Piece::Let(expr) | Piece::Assert(_, expr) => is_near_expr(expr),
        _ => true,
    }
}

fn are_near(pieces: &[Piece]) -> bool
    ensures { IsTrue result → All IsPieceNear pieces.now }
{
    pieces.iter().all(|piece| is_near_piece(*piece))
}

/// Whether the branch, if the piece ends with one, has an entry.
fn is_led(at: Piece, exits: &[u64]) -> bool
    ensures { IsTrue result → IsLed exits.now at }
{
    match at {
        Piece::Exit(branch) => {
            (branch as usize) < exits.len() && exits[branch as usize] <= 1 << 25
        }
        _ => true,
    }
}

fn are_led(pieces: &[Piece], exits: &[u64]) -> bool
    ensures { IsTrue result → All (IsLed exits.now) pieces.now }
{
    pieces.iter().all(|piece| is_led(*piece, exits))
}

/// The code of a fragment of that shape, if its offsets are near and its branches have entries.
pub(crate) fn emitted(alloc: Global, frag: &Frag) -> Result<Option<Emitted>, AllocError>
    requires { IsTrue (shape (has_jump frag.now) 0 frag.now) }
{
    codes_are_short();
    pieces_are_led();
    let pieces = frag.pieces();
    if pieces.len() <= 1000 && are_near(pieces) && are_led(pieces, &EXITS) {
        Ok(Some(emit(alloc, frag, AT, &EXITS)?))
    } else {
        Ok(None)
    }
}

/// Whether the fragment has no jump, so that its exit is the cell behind its code.
pub(crate) fn falls_through(frag: &Frag) -> bool {
    !frag
        .pieces()
        .iter()
        .any(|piece| matches!(piece, Piece::IfNonZero(..)))
}

fn is_side_in_field(side: Side) -> bool
    ensures { IsTrue result → IsSideInField side }
{
    match side {
        Side::Cell(_) => true,
        Side::Imm(n) => n < MODULUS,
    }
}

fn is_in_field(expr: CellExpr) -> bool
    ensures { IsTrue result → IsExprInField expr }
{
    match expr {
        CellExpr::Cell(_) | CellExpr::DoubleCell(_, _) => true,
        CellExpr::Imm(n) => n < MODULUS,
        CellExpr::Sum(_, side) | CellExpr::Diff(_, side) | CellExpr::Product(_, side) => {
            is_side_in_field(side)
        }
    }
}

/// Whether the numbers among the expressions are those of the field.
pub(crate) fn are_in_field(exprs: &[CellExpr]) -> bool
    ensures { IsTrue result → All IsExprInField exprs.now }
{
    exprs.iter().all(|expr| is_in_field(*expr))
}
