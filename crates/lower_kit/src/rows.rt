//! Rows of pieces, one for each cell of a value.

ghost use Rattle.std.specs.Prelude.{◌≡◌, ◌+◌, ◌≤◌, ◌^◌, ◌++◌, length, IfOk};
ghost use Rattle.std.specs.List.{All};
ghost use Rattle.casm_word.specs.Expressions.{IsExprInField};
ghost use Rattle.cost_table.specs.Fits.{IsCloseExpr};
ghost use Rattle.lower_kit.specs.Pieces.{laid_piece, copied_piece, boxed_piece, pieces_of};

use crate::cells::cell_at;
use casm_word::CellExpr;
use cell_terms::{Slot, Term, resolve};
use frag_code::{Frag, Piece};
use std::alloc::AllocError;

/// Lays the words of the first argument expressions, each in a new cell; ap has not moved before.
pub fn push_laid(frag: &mut Frag, args: &[CellExpr], count: u64) -> Result<(), AllocError>
    requires close { All IsCloseExpr args.now }
    requires in_field { All IsExprInField args.now }
    requires few { count ≤ 2 ^ 14 }
    ensures { IfOk result (λ _. frag.new ≡ frag.old ++ pieces_of (laid_piece args.now) count) }
{
    for k in 0..count {
        frag.push(Piece::Let(resolve(Term::Whole(k as usize), args, k)))?;
    }
    Ok(())
}

/// Says that the cells that the first argument expressions are have the words of the expressions `from` further; ap has not moved
/// before.
pub fn push_copied(
    frag: &mut Frag,
    args: &[CellExpr],
    from: u64,
    count: u64,
) -> Result<(), AllocError>
    requires close { All IsCloseExpr args.now }
    requires in_field { All IsExprInField args.now }
    requires few { from + count ≤ 2 ^ 15 }
    ensures { IfOk result (λ _. frag.new ≡ frag.old ++ pieces_of (copied_piece args.now from) count) }
{
    for k in 0..count {
        let cell = cell_at(Slot::Arg(k as usize), args, 0);
        let word = resolve(Term::Whole((from + k) as usize), args, 0);
        frag.push(Piece::Assert(cell, word))?;
    }
    Ok(())
}

/// Says that the cells that the first argument expressions are have the words of the cells from where the one new cell points; ap has
/// moved past that cell.
pub fn push_boxed(frag: &mut Frag, args: &[CellExpr], count: u64) -> Result<(), AllocError>
    requires close { All IsCloseExpr args.now }
    requires in_field { All IsExprInField args.now }
    requires few { count ≤ 2 ^ 14 }
    ensures { IfOk result (λ _. frag.new ≡ frag.old ++ pieces_of (boxed_piece args.now) count) }
{
    for k in 0..count {
        let cell = cell_at(Slot::Arg(k as usize), args, 1);
        let word = resolve(Term::Behind(Slot::Own(0), k), args, 1);
        frag.push(Piece::Assert(cell, word))?;
    }
    Ok(())
}
