//! The pieces of fragments.
//! The lowerings make them. Cells and expressions that count from ap count from ap as it is at the piece.

use casm_word::{CellExpr, CellRef};
use hint_source::Kind;

/// What a hint asks, of parts that are expressions for felts.
pub type Ask = Kind<CellExpr>;

/// A piece of a fragment. Each takes one step, but for `Hint`, which takes none, and for `Exit`, which takes one only
/// where the fragment has an `IfNonZero`.
#[derive(Clone, Copy, Debug)]
pub enum Piece {
    /// Gives the cell at ap the word of the expression and moves ap by one cell.
    Let(CellExpr),
    /// Moves ap by this number of cells, which is below the field's order.
    Reserve(u64),
    /// Asks for the word of the cell, in the state of the next step. It makes no code.
    Hint {
        /// The cell.
        cell: CellRef,
        /// What is asked.
        ask: Ask,
    },
    /// The word of the cell is that of the expression.
    Assert(CellRef, CellExpr),
    /// The word of the cell stands in the range-check cell at the pointer's word plus `at`.
    Range {
        /// The cell that holds the pointer.
        pointer: CellRef,
        /// The offset in cells from the pointer.
        at: i16,
        /// The cell whose range is checked.
        cell: CellRef,
    },
    /// Goes to the piece of this position, counted from 0, where the word of the cell isn't 0, else to the next piece.
    IfNonZero(CellRef, u32),
    /// Ends the fragment with this branch.
    Exit(u32),
}
